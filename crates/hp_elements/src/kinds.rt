//! Kinds of elements: what a question names.
ghost use Rattle.std.specs.Prelude.{◌≡◌};

use crate::name::Name;
use crate::sets::{Namespace, SetName};

/// Which integration point an element is.
#[derive(Clone, Copy, PartialEq, Eq)]
pub enum Point {
    No,
    MathText,
    Html,
}

/// A set of elements, by what is seen of an element: its namespace, its name and its integration point.
#[derive(Drop)]
pub enum Kinds {
    Nothing,
    All,
    AnyHtml,
    /// All HTML elements and integration points.
    HtmlOrPoint,
    /// The HTML elements of one name.
    Html(Name),
    /// The foreign elements whose name equals it without ASCII case.
    Foreign(Name),
    Set(SetName),
}

impl Kinds {
    ghost use Rattle.hp_elements.specs.Kinds.{is_of};

    /// Whether an element of that namespace, that name and that integration point is of the kind.
    #[inline(always)]
    pub fn has(&self, namespace: Namespace, name: &Name, point: Point) -> bool
        ensures { result ≡ is_of self.now namespace name.now point }
    {
        let html = is_html(namespace);
        match self {
            Kinds::Nothing => false,
            Kinds::All => true,
            Kinds::AnyHtml => html,
            Kinds::HtmlOrPoint => html || !matches!(point, Point::No),
            Kinds::Html(own) => html && own.same(name),
            Kinds::Foreign(own) => !html && own.same_without_case(name),
            Kinds::Set(set) => set.has(namespace, name),
        }
    }
}

ghost use Rattle.hp_elements.specs.Kinds.{is_html as spec_is_html};

fn is_html(namespace: Namespace) -> bool
    ensures { result ≡ spec_is_html namespace }
{
    match namespace {
        Namespace::Html => true,
        Namespace::MathMl | Namespace::Svg => false,
    }
}
