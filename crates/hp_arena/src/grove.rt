//! Elements that were made by themselves, and how they are put behind those of a tree.

ghost use Rattle.std.specs.Prelude.{◌≡◌, ◌≤◌, length, IfErr, OnErr, OnOk};
ghost use Rattle.hp_groves.specs.Grafts.{graft};
ghost use Rattle.hp_arena.specs.Groves.{behind_document};

use crate::tree::Tree;
use std::alloc::Global;
use std::marker::Model;

/// Finished elements of which none is in a page yet. Contracts see their branches, by numbers from 0 on: the children of each are told by
/// such numbers too.
pub struct Grove<'p> {
    /// The elements behind a document in which nothing stands.
    tree: Tree<'p>,
}

impl<'p> Drop for Grove<'p> {
    #[inline(always)]
    fn drop(self) {
        let Grove { tree: _ } = self;
    }
}

impl<'p> Model for Grove<'p> {
    ghost use Rattle.hp_control.specs.Tree.{Tree};

    ghost Value = { Tree };

    ghost use Rattle.hp_arena.specs.Groves.{behind_document, IsBlank};

    ghost view = { λ g. behind_document g.tree.branches };

    ghost invariant = { λ g. IsBlank g.tree.branches };
}

/// There is no memory to put a grove behind a tree; the grove comes back.
#[derive(Drop)]
pub struct GraftRefusal<'p> {
    pub grove: Grove<'p>,
}

impl<'p> Grove<'p> {
    ghost use Rattle.hp_arena.specs.Groves.{IsBlank};

    /// The elements behind the document of a tree in which nothing stands in the document. Memory in which nothing stands is given back.
    pub fn behind_document(mut tree: Tree<'p>) -> Grove<'p>
        requires blank { IsBlank tree.branches }
        ensures { result ≡ behind_document tree.entry.branches }
    {
        tree.shrink();
        Grove { tree }
    }

    /// The elements behind a document in which nothing stands.
    fn into_tree(self) -> Tree<'p>
        ensures elements { behind_document result.branches ≡ self.entry }
        ensures blank { IsBlank result.branches }
    {
        let Grove { tree } = self;
        tree
    }

    /// How many elements there are.
    pub fn len(&self) -> u32
        ensures { result ≡ length self.now }
    {
        self.tree.len() - 1
    }
}

impl<'p> Tree<'p> {
    /// Puts the grove behind the tree: its element of number k has the id that is as many more than the tree had elements. There is as
    /// much room for edits as before, or more. At an `Err`, which is want of memory, also where a list or count of the tree would be past
    /// 2^29, the tree is as before and the grove comes back.
    pub fn graft(&mut self, alloc: Global, grove: Grove<'p>) -> Result<(), GraftRefusal<'p>>
        ensures branches { OnOk result (self.new.branches ≡ graft self.old.branches grove.entry) }
        ensures room { OnOk result (self.old.spare ≤ self.new.spare) }
        ensures err { OnErr result (self.new ≡ self.old) }
        ensures back { IfErr result (λ refusal. refusal.grove ≡ grove.entry) }
    {
        match self.graft_tree(alloc, grove.into_tree()) {
            Ok(()) => Ok(()),
            Err(tree) => Err(GraftRefusal {
                grove: Grove { tree },
            }),
        }
    }
}
