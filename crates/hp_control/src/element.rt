//! What stands on the stack of open elements and in the list of formatting elements.
use hp_elements::{Name, Namespace, Point, Tag};

/// An element of the stack (13.2.4.2). Its id is its number in the order in which elements are made; the document is 0.
pub struct OpenElement {
    pub id: u64,
    pub namespace: Namespace,
    pub name: Name,
    pub point: Point,
}

impl Drop for OpenElement {
    #[inline(always)]
    fn drop(self) {
        let OpenElement {
            id: _,
            namespace: _,
            name: _,
            point: _,
        } = self;
    }
}

/// An entry of the list of active formatting elements (13.2.4.3): a marker, or an element with the tag that it was made for.
#[derive(Drop)]
pub enum FormattingEntry {
    Marker,
    Element { id: u64, tag: Tag },
}
