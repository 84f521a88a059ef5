//! What outer edits have touched of own elements.

ghost use Rattle.std.specs.Prelude.{◌≡◌, ◌≤◌, [], ◌∷◌, ◌++◌, length, false, OnOk, OnErr};
ghost use Rattle.hp_growth.specs.Marking.{AreWhole, IsMarked, children_touched, marks_made, parent_touched, untouched};

use hp_control::Edit;
use std::alloc::{AllocError, Global};
use std::marker::Model;

/// What outer edits have touched of an own element.
#[derive(Clone, Copy)]
pub(crate) struct Mark {
    /// Its children.
    pub children: bool,
    /// Its parent.
    pub parent: bool,
}

/// A mark for each own element, by its number. An own element has the id after its number; what is older has the id 0, and counts as
/// touched.
#[derive(Drop)]
pub(crate) struct Marks {
    items: Vec<Mark>,
    /// Whether the children of any own element may have been touched.
    any: bool,
}

impl Model for Marks {
    ghost use Rattle.std.specs.Prelude.{List};
    ghost use Rattle.hp_growth.specs.declared.marks.Mark.{Mark};

    ghost Value = { List Mark };

    ghost use Rattle.hp_growth.specs.Marking.{AreMarks};

    ghost view = { λ m. m.items.items };

    ghost invariant = { λ m. AreMarks m.any m.items.items };
}

/// The most own elements that there are marks for.
const MOST: usize = 0xffff_ffff;

impl Marks {
    /// For no element. It takes no memory.
    pub fn new(alloc: Global) -> Marks
        ensures { result ≡ [] }
    {
        Marks {
            items: Vec::new(alloc),
            any: false,
        }
    }

    /// How many own elements there are.
    #[inline(always)]
    pub fn len(&self) -> u32
        ensures { result ≡ length self.now }
    {
        self.items.len() as u32
    }

    /// One more, of which nothing was touched. At an `Err`, which is want of memory or of numbers, the marks are as before.
    fn add(&mut self) -> Result<(), AllocError>
        ensures ok { OnOk result (self.new ≡ self.old ++ untouched ∷ []) }
        ensures err { OnErr result (self.new ≡ self.old) }
    {
        if self.items.len() >= MOST {
            return Err(AllocError);
        }
        let mark = Mark {
            children: false,
            parent: false,
        };
        self.items.push(mark)?;
        Ok(())
    }

    /// One more where the edit makes an element. At an `Err`, which is want of memory or of numbers, the marks are as before.
    #[inline(always)]
    pub fn add_made(&mut self, edit: &Edit<'_>) -> Result<(), AllocError>
        ensures ok { OnOk result (self.new ≡ self.old ++ marks_made edit.now) }
        ensures err { OnErr result (self.new ≡ self.old) }
    {
        match edit {
            Edit::NewElement { .. } => self.add(),
            Edit::Put { .. }
            | Edit::Detach { .. }
            | Edit::MoveChildren { .. }
            | Edit::AddMissing { .. } => Ok(()),
        }
    }

    /// Whether the children of any own element may have been touched.
    #[inline(always)]
    pub fn any(&self) -> bool
        ensures { result ≡ false → AreWhole self.now }
    {
        self.any
    }

    /// Whether the children of the element of this id were touched.
    #[inline(always)]
    pub fn children_touched(&self, id: u32) -> bool
        requires { id ≤ length self.now }
        ensures { result ≡ children_touched self.now id }
    {
        id == 0 || self.items[(id - 1) as usize].children
    }

    /// Whether the parent of the element of this id was touched.
    #[inline(always)]
    pub fn parent_touched(&self, id: u32) -> bool
        requires { id ≤ length self.now }
        ensures { result ≡ parent_touched self.now id }
    {
        id == 0 || self.items[(id - 1) as usize].parent
    }

    /// The children of the element of this id are touched.
    pub fn touch_children(&mut self, id: u32)
        requires { id ≤ length self.old }
        ensures { IsMarked self.old self.new (id ∷ []) [] }
    {
        if id != 0 {
            self.items[(id - 1) as usize].children = true;
            self.any = true;
        }
    }

    /// The parent of the element of this id is touched.
    pub fn touch_parent(&mut self, id: u32)
        requires { id ≤ length self.old }
        ensures { IsMarked self.old self.new [] (id ∷ []) }
    {
        if id != 0 {
            self.items[(id - 1) as usize].parent = true;
        }
    }
}
