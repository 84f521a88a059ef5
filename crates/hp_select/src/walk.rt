//! The walk over the tree, with a stack of its own.

ghost use Rattle.std.specs.Prelude.{◌≡◌, ◌+◌, ◌<◌, ◌∷◌, ◌++◌, [], All, IfOk, OnOk, Some, length, map};
ghost use Rattle.hp_arena.specs.Readers.{element_at, IsAt};
ghost use Rattle.hp_control.specs.Tree.{branch};
ghost use Rattle.hp_select.specs.Selected.{selected};
ghost use Rattle.hp_select.specs.Walk.{after, inner_row, Entered, ForSteps, IsDeep, IsMark, IsPushed, Stepped, with_selected};

use crate::rows::{Reach, is_selected, no_row, row_below};
use crate::selector::{Selector, Step};
use hp_arena::{At, NodeView, Tree, is_template};
use hp_elements::{List, NoMemory, Tag};
use std::alloc::Global;

/// An item at which the walk goes on, with all items behind it in the same list. On the stack there is one for each list that the walk is
/// in, from the document's on.
#[derive(Drop)]
pub struct Mark {
    pub at: At,
    /// How far the chains have come above this list.
    pub row: Vec<Reach>,
    pub next: Next,
}

/// Where the walk goes on at a mark.
#[derive(Clone, Copy, PartialEq, Eq)]
pub enum Next {
    /// With the item itself.
    Item,
    /// Behind it: what stands inside it is marked above.
    Behind,
}

/// The elements that a selector matches, in tree order: each comes before what stands inside it. Each compound is looked at once for each
/// element. An `Err` comes for want of memory.
pub fn select(alloc: Global, tree: &Tree<'_>, selector: &Selector) -> Result<List<At>, NoMemory>
    ensures elements { IfOk result (λ found. map (element_at tree.now.branches) found ≡ map Some (selected tree.now.branches selector.now)) }
    ensures there { IfOk result (All (IsAt tree.now)) }
{
    // `len` hands on that the tree is a forest: the document is there.
    let _elements = tree.len();
    let steps = selector.steps.as_slice();
    let mut found = List::new();
    let mut marks = Vec::new(alloc);
    let row = no_row(alloc, steps)?;
    push_first(tree, &mut marks, 0, row)?;
    while let Some(mark) = marks.pop() {
        visit_next(alloc, tree, steps, &mut found, &mut marks, mark)?;
    }
    Ok(found)
}

/// Goes on at a mark that was the last, and marks what comes behind that.
fn visit_next(
    alloc: Global,
    tree: &Tree<'_>,
    steps: &[Step],
    found: &mut List<At>,
    marks: &mut Vec<Mark>,
    mark: Mark,
) -> Result<(), NoMemory>
    requires mark { IsMark tree.now (length marks.old.items) mark }
    requires row { length mark.row.items ≡ length steps.now }
    ensures step { OnOk result (Stepped tree.now steps.now mark found.old found.new marks.old.items marks.new.items) }
    ensures there { OnOk result (All (IsAt tree.now) found.old → All (IsAt tree.now) found.new) }
{
    // `len` hands on that the tree is a forest: no level is past the number of elements.
    let _elements = tree.len();
    let Next::Item = mark.next else {
        return push_next(tree, marks, mark);
    };
    let NodeView::Element { id, tag } = tree.view(mark.at) else {
        return push_next(tree, marks, mark);
    };
    let row = row_below(alloc, tag, steps, mark.row.as_slice())?;
    take_selected(alloc, steps, found, mark.at, row.as_slice())?;
    let row = inner_row(alloc, tag, steps, row)?;
    enter(tree, marks, mark, id, row)
}

/// Takes an element there, inside which this is the row, where a chain matches it.
fn take_selected(
    alloc: Global,
    steps: &[Step],
    found: &mut List<At>,
    at: At,
    row: &[Reach],
) -> Result<(), NoMemory>
    requires { length row.now ≡ length steps.now }
    ensures { OnOk result (found.new ≡ with_selected steps.now row.now at found.old) }
{
    if is_selected(steps, row) {
        found.push(alloc, at)?;
    }
    Ok(())
}

/// The row inside an element, of which `row` is the row: what stands in a template has no ancestors outside.
fn inner_row(
    alloc: Global,
    tag: &Tag,
    steps: &[Step],
    row: Vec<Reach>,
) -> Result<Vec<Reach>, NoMemory>
    ensures { IfOk result (λ inner. inner.items ≡ inner_row steps.now tag.now row.items) }
{
    if is_template(tag) {
        return no_row(alloc, steps);
    }
    Ok(row)
}

/// Marks what comes behind an element at a mark, and what stands inside it, above which the chains have come as far as the row says.
fn enter(
    tree: &Tree<'_>,
    marks: &mut Vec<Mark>,
    mark: Mark,
    id: u32,
    row: Vec<Reach>,
) -> Result<(), NoMemory>
    requires mark { IsMark tree.now (length marks.old.items) mark }
    requires there { id < length tree.now.branches }
    requires deep { IsDeep tree.now.branches (length marks.old.items + 1) id }
    ensures { OnOk result (ForSteps mark.row.items (λ steps. length row.items ≡ length steps → Entered tree.now steps mark id row.items marks.old.items marks.new.items)) }
{
    let at = mark.at;
    marks.push(Mark {
        at,
        row: mark.row,
        next: Next::Behind,
    })?;
    push_first(tree, marks, id, row)
}

/// Marks the item behind the one at a mark, if there is one.
fn push_next(tree: &Tree<'_>, marks: &mut Vec<Mark>, mark: Mark) -> Result<(), NoMemory>
    requires { IsMark tree.now (length marks.old.items) mark }
    ensures { OnOk result (IsPushed tree.now mark.row.items (after tree.now.branches mark) marks.old.items marks.new.items) }
{
    match tree.next_sibling(mark.at) {
        Some(at) => push_item(marks, at, mark.row),
        None => Ok(()),
    }
}

/// Marks the first item inside an element, if there is one.
fn push_first(
    tree: &Tree<'_>,
    marks: &mut Vec<Mark>,
    id: u32,
    row: Vec<Reach>,
) -> Result<(), NoMemory>
    requires there { id < length tree.now.branches }
    requires deep { IsDeep tree.now.branches (length marks.old.items) id }
    ensures { OnOk result (IsPushed tree.now row.items (branch tree.now.branches id).inside marks.old.items marks.new.items) }
{
    match tree.first_inside(id) {
        Some(at) => push_item(marks, at, row),
        None => Ok(()),
    }
}

/// Marks an item, at which the walk goes on with the item itself.
fn push_item(marks: &mut Vec<Mark>, at: At, row: Vec<Reach>) -> Result<(), NoMemory>
    ensures { OnOk result (marks.new.items ≡ marks.old.items ++ (record { at = at; row = row; next = Next.Item }) ∷ []) }
{
    marks.push(Mark {
        at,
        row,
        next: Next::Item,
    })?;
    Ok(())
}
