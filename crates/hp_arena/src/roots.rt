//! Which elements may stand among the children of the document. A page puts one there, `html`, so that nothing has
//! to be looked up in the tree for a text before a table.

ghost use Rattle.std.specs.Prelude.{◌≡◌};
ghost use Rattle.hp_arena.specs.Roots.{may_be_root, with_root, may_lead, roots_after, is_apart};

use crate::arena::id_of;
use hp_control::{Child, Edit, Place};

/// The elements that may stand there.
#[derive(Clone, Copy)]
pub enum Roots {
    None,
    /// The element of this id alone.
    Only(u64),
    Any,
}

impl Roots {
    /// Whether the element of this id may stand there.
    fn may_be_root(self, id: u64) -> bool
        ensures { result ≡ may_be_root self id }
    {
        match self {
            Roots::None => false,
            Roots::Only(root) => root == id,
            Roots::Any => true,
        }
    }

    /// One more that may stand there.
    fn with_root(self, id: u64) -> Roots
        ensures { result ≡ with_root self id }
    {
        match self {
            Roots::None => Roots::Only(id),
            Roots::Only(root) => {
                if root == id {
                    Roots::Only(root)
                } else {
                    Roots::Any
                }
            }
            Roots::Any => Roots::Any,
        }
    }

    /// Whether a child at this place may be a child of the document.
    fn may_lead(self, place: Place) -> bool
        ensures { result ≡ may_lead self place }
    {
        match place {
            Place::Into(parent) => id_of(parent) == 0,
            Place::Foster { table, above } => self.may_be_root(id_of(table)) || id_of(above) == 0,
        }
    }

    /// Those that may stand there after an edit.
    pub fn after(self, edit: &Edit<'_>) -> Roots
        ensures { result ≡ roots_after self edit.now }
    {
        match edit {
            Edit::Put {
                child: Child::Element(node),
                place,
            } => {
                if self.may_lead(*place) {
                    self.with_root(id_of(*node))
                } else {
                    self
                }
            }
            Edit::MoveChildren { to, .. } => { if id_of(*to) == 0 { Roots::Any } else { self } }
            _ => self,
        }
    }

    /// Whether the table before which an edit puts something, if any, is surely no child of the document.
    pub fn is_apart(self, edit: &Edit<'_>) -> bool
        ensures { result ≡ is_apart self edit.now }
    {
        match edit {
            Edit::Put {
                place: Place::Foster { table, .. },
                ..
            } => !self.may_be_root(id_of(*table)),
            _ => true,
        }
    }
}
