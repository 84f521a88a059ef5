//! The walk over the tree, with a stack of its own.

ghost use Rattle.std.specs.Prelude.{◌≡◌, ◌+◌, ◌<◌, [], ◌∷◌, ◌++◌, IfOk, OnOk, Some, length, encode_utf8_all};
ghost use Rattle.hp_arena.specs.Readers.{shown, HasTag, IsShown};
ghost use Rattle.hp_control.specs.Tree.{Item, branch};
ghost use Rattle.hp_serial.specs.Html.{html_of};
ghost use Rattle.hp_serial.specs.Walk.{after, html_at, work_at, Entered, IsDeep, IsMark, Pushed, Stepped};

use crate::items::{is_void, keeps_raw, write_back, write_front};
use hp_arena::{At, NodeView, Tree};
use hp_elements::NoMemory;
use std::alloc::Global;

/// An item at which the walk goes on, with all items behind it in the same list. On the stack there is one for each list that the walk is
/// in, from the document's on.
#[derive(Clone, Copy)]
pub struct Mark {
    pub at: At,
    /// Whether the texts of this list stand as they are.
    pub raw: bool,
    pub next: Next,
}

/// What is written next of the item at a mark.
#[derive(Clone, Copy, PartialEq, Eq)]
pub enum Next {
    /// All of it.
    Whole,
    /// Its end tag: what stands inside it is marked above.
    EndTag,
}

/// The HTML text of the tree, in UTF-8 (13.3). An `Err` comes for want of memory.
pub fn html_text(alloc: Global, tree: &Tree<'_>) -> Result<Vec<u8>, NoMemory>
    ensures { IfOk result (λ text. text.items ≡ encode_utf8_all (html_of tree.now.branches)) }
{
    // `len` hands on that the tree is a forest: the document is there.
    let _elements = tree.len();
    let mut out = Vec::new(alloc);
    let mut marks = Vec::new(alloc);
    push_first(tree, &mut marks, 0, false)?;
    while let Some(mark) = marks.pop() {
        write_next(tree, &mut out, &mut marks, mark)?;
    }
    Ok(out)
}

/// Writes what comes next at a mark that was the last, and marks what comes behind that.
fn write_next(
    tree: &Tree<'_>,
    out: &mut Vec<u8>,
    marks: &mut Vec<Mark>,
    mark: Mark,
) -> Result<(), NoMemory>
    requires { IsMark tree.now (length marks.old.items) mark }
    ensures { OnOk result (Stepped tree.now mark out.old.items out.new.items marks.old.items marks.new.items) }
{
    // `len` hands on that the tree is a forest: no level is past the number of elements.
    let _elements = tree.len();
    let view = tree.view(mark.at);
    match mark.next {
        Next::Whole => {
            write_front(out, view, mark.raw)?;
            enter(tree, marks, mark, view)
        }
        Next::EndTag => {
            write_back(out, view)?;
            push_next(tree, marks, mark)
        }
    }
}

/// Marks what comes behind the front of the item at a mark, which this view shows.
fn enter(
    tree: &Tree<'_>,
    marks: &mut Vec<Mark>,
    mark: Mark,
    view: NodeView<'_, '_>,
) -> Result<(), NoMemory>
    requires mark { IsMark tree.now (length marks.old.items) mark }
    requires view { IsShown tree.now.branches mark.at view }
    requires tag { HasTag tree.now.branches view }
    ensures { (x : Item) → shown view.entry ≡ Some x → OnOk result (Entered tree.now mark x marks.old.items marks.new.items) }
{
    // `len` hands on that the tree is a forest: each child is there.
    let _elements = tree.len();
    let NodeView::Element { id, tag } = view else {
        return push_next(tree, marks, mark);
    };
    if is_void(tag) {
        return push_next(tree, marks, mark);
    }
    marks.push(Mark {
        at: mark.at,
        raw: mark.raw,
        next: Next::EndTag,
    })?;
    push_first(tree, marks, id, keeps_raw(tag))
}

/// Marks the item behind the one at a mark, if there is one.
fn push_next(tree: &Tree<'_>, marks: &mut Vec<Mark>, mark: Mark) -> Result<(), NoMemory>
    requires { IsMark tree.now (length marks.old.items) mark }
    ensures { OnOk result (let t = tree.now.branches in let level = length marks.old.items in Pushed tree.now marks.old.items marks.new.items (html_at t level mark.raw (after t mark)) (work_at t level (after t mark))) }
{
    match tree.next_sibling(mark.at) {
        Some(at) => push_whole(marks, at, mark.raw),
        None => Ok(()),
    }
}

/// Marks the first item inside an element, if there is one.
fn push_first(tree: &Tree<'_>, marks: &mut Vec<Mark>, id: u32, raw: bool) -> Result<(), NoMemory>
    requires there { id < length tree.now.branches }
    requires deep { IsDeep tree.now.branches (length marks.old.items) id }
    ensures { OnOk result (let t = tree.now.branches in let level = length marks.old.items in Pushed tree.now marks.old.items marks.new.items (html_at t level raw (branch t id).inside) (work_at t level (branch t id).inside)) }
{
    match tree.first_inside(id) {
        Some(at) => push_whole(marks, at, raw),
        None => Ok(()),
    }
}

/// Marks an item, all of which is to be written.
fn push_whole(marks: &mut Vec<Mark>, at: At, raw: bool) -> Result<(), NoMemory>
    ensures { OnOk result (marks.new.items ≡ marks.old.items ++ (record { at = at; raw = raw; next = Next.Whole }) ∷ []) }
{
    marks.push(Mark {
        at,
        raw,
        next: Next::Whole,
    })?;
    Ok(())
}
