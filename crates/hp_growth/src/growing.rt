//! A fragment's edits as they come.

ghost use Rattle.std.specs.Prelude.{◌≡◌, ◌≤◌, [], ◌∷◌, ◌++◌, length, map, true, false, List, IfOk, OnOk, OnErr};
ghost use Rattle.hp_control.specs.declared.edit.Edit.{Edit as EditOf};
ghost use Rattle.hp_groves.specs.Naming.{own_grove, own_outer};
ghost use Rattle.hp_growth.specs.Growing.{Grows, IsGrown, own_edit};
ghost use Rattle.hp_growth.specs.Marking.{name_first, names_made};
ghost use Rattle.hp_growth.specs.Reaching.{IsInnerPut, IsOuterPut, reaches};
ghost use Rattle.hp_growth.specs.Telling.{own_named};

use crate::edits_split_one_by_one;
use crate::marks::Marks;
use crate::naming::{names_first, tell, tell_own};
use crate::reaching::{Way, way_of};
use crate::touched::touched_by;
use crate::touching::touch;
use hp_arena::{Grove, Tree};
use hp_control::{Edit, Edits, Ref};
use std::alloc::{AllocError, Global};
use std::marker::Model;
use std::mem;

/// How much room for edits is made at once.
const ROOM: u64 = 16;

/// How many edits the next batch has room for before it takes memory.
const BATCH: usize = 256;

/// What a fragment's edits come to: a tree of its own elements, which the inner edits make, and the outer edits, which wait for what is
/// older.
#[derive(Drop)]
pub struct Growing<'p> {
    /// The document, which stays blank, and the own elements behind it.
    grove: Tree<'p>,
    outer: Edits<'p>,
    marks: Marks,
}

impl<'p> Model for Growing<'p> {
    ghost use Rattle.std.specs.Prelude.{length};
    ghost use Rattle.hp_growth.specs.Growing.{Grown};

    ghost Value = { Grown };

    ghost use Rattle.hp_growth.specs.Growing.{IsRooted};

    ghost view = { λ g. record { grove = g.grove.branches; outer = g.outer; marks = g.marks } };

    ghost invariant = { λ g. IsRooted g.grove.branches (length g.marks) };
}

impl<'p> Growing<'p> {
    /// What no edits come to.
    pub fn start(alloc: Global) -> Result<Growing<'p>, AllocError>
        ensures { IfOk result (IsGrown []) }
    {
        let grove = Tree::start(alloc)?;
        Ok(Growing {
            grove,
            outer: Edits::new(),
            marks: Marks::new(alloc),
        })
    }

    /// Takes one edit more. At an `Err` all is as before. It is want of memory, also where there would be too many own elements for a tree,
    /// or where the edit names an own element that isn't made yet. Nothing is promised of what is left of the edit.
    #[inline(always)]
    pub fn put(&mut self, alloc: Global, edit: &mut Edit<'p>) -> Result<(), AllocError>
        ensures ok { OnOk result (Grows self.old (edit.old ∷ []) self.new) }
        ensures err { OnErr result (self.new ≡ self.old) }
    {
        match way_of(&self.grove, &self.marks, edit) {
            Way::Refused => Err(AllocError),
            Way::Outer => self.put_outer(alloc, edit),
            Way::Inner => self.put_inner(alloc, edit),
        }
    }

    /// Takes all edits of a guess, in order, and leaves none. At an `Err`, which is want of memory as that of `put`, some may have been
    /// taken, and the others are dropped; so it is at an edit that names by id another older element than the document and the page's
    /// first one.
    pub fn put_all(&mut self, alloc: Global, edits: &mut Edits<'p>) -> Result<(), AllocError>
        ensures ok { OnOk result (Grows self.old edits.old self.new) }
        ensures first { OnOk result (name_first edits.old ≡ true) }
        ensures left { OnOk result (edits.new ≡ []) }
    {
        let mut batch = take(alloc, edits)?;
        self.put_each(alloc, &mut batch)
    }

    /// Takes all edits of a run over a known state, in order, and leaves none. Told where no older state is below, own elements have the ids
    /// from `next` on. At an `Err`, which is want of memory as that of `put`, some may have been taken, and the others are dropped.
    pub fn put_all_told(
        &mut self,
        alloc: Global,
        next: u64,
        edits: &mut Edits<'p>,
    ) -> Result<(), AllocError>
        ensures ok { OnOk result (Grows self.old (map (own_named next) edits.old) self.new) }
        ensures left { OnOk result (edits.new ≡ []) }
    {
        let mut batch = take(alloc, edits)?;
        self.put_each_told(alloc, next, &mut batch)
    }

    /// Takes these edits of a guess, in order. Nothing is promised of what is left of them.
    fn put_each(&mut self, alloc: Global, edits: &mut [Edit<'p>]) -> Result<(), AllocError>
        ensures ok { OnOk result (Grows self.old edits.old self.new) }
        ensures first { OnOk result (name_first edits.old ≡ true) }
    {
        for edit in edits.iter_mut() {
            if !names_first(edit) {
                return Err(AllocError);
            }
            self.put(alloc, edit)?;
        }
        Ok(())
    }

    /// Takes these edits, in order, where own elements have the ids from `next` on. Nothing is promised of what is left of them.
    fn put_each_told(
        &mut self,
        alloc: Global,
        next: u64,
        edits: &mut [Edit<'p>],
    ) -> Result<(), AllocError>
        ensures { OnOk result (Grows self.old (map (own_named next) edits.old) self.new) }
    {
        for edit in edits.iter_mut() {
            tell_own(edit, next);
            self.put(alloc, edit)?;
        }
        Ok(())
    }

    /// Keeps an outer edit, and marks what it touches. Some other edit is left in its place.
    #[inline(never)]
    fn put_outer(&mut self, alloc: Global, edit: &mut Edit<'p>) -> Result<(), AllocError>
        requires { names_made (length self.old.marks) edit.old ≡ true }
        ensures ok { OnOk result (IsOuterPut edit.old self.old self.new) }
        ensures err { OnErr result (self.new ≡ self.old) }
    {
        let touched = touched_by(edit, self.marks.len());
        let other = Edit::Detach {
            node: Ref::Fixed(0),
        };
        self.outer.push(alloc, mem::replace(edit, other))?;
        touch(&self.grove, &mut self.marks, touched);
        Ok(())
    }

    /// Makes an inner edit. Nothing is promised of what is left of it.
    #[inline(always)]
    fn put_inner(&mut self, alloc: Global, edit: &mut Edit<'p>) -> Result<(), AllocError>
        requires made { names_made (length self.old.marks) edit.old ≡ true }
        requires inner { reaches self.old.grove self.old.marks (own_edit edit.old) ≡ false }
        ensures ok { OnOk result (IsInnerPut edit.old self.old self.new) }
        ensures err { OnErr result (self.new ≡ self.old) }
    {
        hp_groves::trees_grow();
        let count = self.marks.len();
        make_room(&mut self.grove, alloc, edit.room())?;
        self.marks.add_made(edit)?;
        tell(edit, count);
        self.grove.make(edit);
        Ok(())
    }

    /// What the inner edits made, and the outer edits.
    pub fn into_parts(self) -> (Grove<'p>, Edits<'p>)
        ensures grove { (edits : List EditOf) → IsGrown edits self.entry → result.0 ≡ own_grove edits }
        ensures outer { (edits : List EditOf) → IsGrown edits self.entry → result.1 ≡ own_outer edits }
    {
        edits_split_one_by_one();
        let Growing {
            grove,
            outer,
            marks: _,
        } = self;
        (Grove::behind_document(grove), outer)
    }
}

/// All edits, in order; none is left.
fn take<'p>(alloc: Global, edits: &mut Edits<'p>) -> Result<Vec<Edit<'p>>, AllocError>
    ensures taken { IfOk result (λ batch. batch.items ≡ edits.old) }
    ensures left { OnOk result (edits.new ≡ []) }
{
    let mut batch = Vec::with_capacity(alloc, BATCH)?;
    edits.take_into(&mut batch);
    Ok(batch)
}

/// Makes so much room for edits, or more.
#[inline(always)]
fn make_room(grove: &mut Tree<'_>, alloc: Global, room: u64) -> Result<(), AllocError>
    ensures branches { grove.new.branches ≡ grove.old.branches }
    ensures room { OnOk result (room ≤ grove.new.spare) }
{
    if room <= grove.spare() {
        return Ok(());
    }
    grove.reserve_room(alloc, room.max(ROOM))
}
