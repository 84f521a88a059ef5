//! What the readers of a tree hand out.

ghost use Rattle.std.specs.Prelude.{◌≡◌};
ghost use Rattle.hp_arena.specs.Readers.{is_template};

use hp_elements::{Chain, Known, Namespace, Tag, Text};
use hp_store::Kind;

/// Where an item stands: at which place in the list of children of which element, and by what number it is found.
#[derive(Clone, Copy, PartialEq, Eq)]
pub struct Spot {
    /// The id of the element in whose list of children it stands. The document is 0.
    pub parent: u32,
    /// At which place of that list.
    pub place: u32,
    /// The number by which the tree finds it.
    pub node: u32,
    /// The number by which the tree finds the next one.
    pub(crate) next: u32,
    /// What it is.
    pub(crate) kind: Kind,
    /// In which part of the tree's lists it is looked for first. Nothing is promised of it.
    pub(crate) part: u32,
}

/// Where a reader stands in a tree.
#[derive(Clone, Copy)]
pub enum At {
    /// The document.
    Document,
    /// An item in a list of children.
    Child(Spot),
    /// The contents of the template of this id.
    Contents(u32),
}

/// The runs of a text. Most texts have one.
#[derive(Clone, Copy)]
pub enum Runs<'t, 'p> {
    /// The one run.
    One(&'t Text<'p>),
    /// The runs, one after the other.
    Several(&'t Chain<Text<'p>>),
}

/// What stands there.
#[derive(Clone, Copy)]
pub enum NodeView<'t, 'p> {
    /// The document.
    Document,
    /// The contents of a template.
    Contents,
    /// A doctype, with the identifiers that it has.
    Doctype {
        name: Option<&'t Text<'p>>,
        public: Option<&'t Text<'p>>,
        system: Option<&'t Text<'p>>,
    },
    /// An element with its id.
    Element {
        id: u32,
        tag: &'t Tag,
    },
    /// A text: its runs, one after the other.
    Text {
        runs: Runs<'t, 'p>,
    },
    /// A comment.
    Comment {
        text: &'t Text<'p>,
    },
}

/// Whether this is an HTML element `template`, whose contents stand inside it.
pub fn is_template(tag: &Tag) -> bool
    ensures { result ≡ is_template tag.now }
{
    tag.namespace == Namespace::Html && tag.name.is(Known::TEMPLATE)
}
