//! The walk over the tree, with a stack of its own.

ghost use Rattle.std.specs.Prelude.{◌≡◌, ◌+◌, ◌<◌, ◌≤◌, [], Err, IfOk, OnOk, Some, length, drop, true, false, vec_len, vec_capacity};
ghost use Rattle.std.specs.Io.KnownBytes.{append_known};
ghost use Rattle.hp_text.specs.Device.{Rose};
ghost use Rattle.hp_arena.specs.Readers.{parent_of, place_of, shown, HasTag, IsShown};
ghost use Rattle.hp_control.specs.Tree.{Item, branch};
ghost use Rattle.hp_print.specs.Out.{Prints, Starts, TakesFirst};
ghost use Rattle.hp_print.specs.Faults.{Ended, OnFault};
ghost use Rattle.hp_print.specs.Print.{extra, inside, print};
ghost use Rattle.hp_print.specs.Parts.{IsReady, PrintsOn};
ghost use Rattle.hp_print.specs.Stack.{AreMarks, HasRoom, IsDeep, IsMark, Pushed, Stepped, lines_at, pending, steps_at, todo};

use crate::attributes::Shown;
use crate::items::{extra_depth, print_item};
use crate::kept::Kept;
use crate::output::Out;
use hp_arena::{At, NodeView, Tree};
use hp_elements::NoMemory;
use hp_text::Sink;
use std::alloc::Global;

/// An item that is to be printed, with all items after it in the same list.
#[derive(Clone, Copy)]
pub struct Mark {
    pub at: At,
    /// How many elements the item stands in.
    pub level: u32,
    /// How many of these are templates.
    pub templates: u32,
}

/// Why a tree was not written whole.
#[derive(Clone, Copy, PartialEq, Eq, Debug)]
pub enum Refusal {
    /// Memory was wanting, or the text would be of absurd length. Nothing was written.
    NoMemory,
    /// A write failed, after the sink had taken so many bytes of the text. The count stands still at `u64::MAX`.
    Fault { taken: u64 },
}

/// A text with more levels than these above its lines is of absurd length: that of a tree goes by the square of its depth.
const ABSURD: u64 = 1 << 34;

/// The tree as text, in UTF-8. An `Err` comes for want of memory, or where the text would be of absurd length.
pub fn print_tree(alloc: Global, tree: &Tree<'_>) -> Result<Vec<u8>, NoMemory>
    ensures { IfOk result (λ text. text.items ≡ print tree.now.branches) }
{
    let mut text = Kept::new(alloc);
    match write_tree(alloc, tree, &mut text) {
        Ok(()) => Ok(text.into_bytes()),
        Err(_) => Err(NoMemory),
    }
}

/// Writes the tree as text, in UTF-8. All memory that this needs is there before the first byte is written.
pub fn write_tree<K: Sink>(alloc: Global, tree: &Tree<'_>, sink: &mut K) -> Result<(), Refusal>
    ensures whole { OnOk result (K.taken sink.new ≡ append_known (K.taken sink.old) (print tree.now.branches)) }

    // At a fault the sink took a proper first part, whose length the fault tells, and the sink's own count shows it.
    ensures part { OnFault result (λ taken. TakesFirst taken (print tree.now.branches) (K.taken sink.old) (K.taken sink.new)) }
    ensures failed { OnFault result (λ _. Rose (K.faults sink.old) (K.faults sink.new)) }

    ensures nothing { result ≡ Err Refusal.NoMemory → sink.new ≡ sink.old }
{
    let Ok(mut printing) = Printing::begin(alloc, tree) else {
        return Err(Refusal::NoMemory);
    };
    printing.finish(alloc, tree, sink)
}

/// The printing of a tree: the marks of what is still to come, and the memory that this takes.
#[derive(Drop)]
pub struct Printing<'t> {
    /// The last one stands at the item that is to be printed next.
    pub marks: Vec<Mark>,
    /// Memory for the attributes of any element of the tree.
    pub list: Vec<Shown<'t>>,
    /// What was printed and isn't written yet.
    pub out: Out,
}

impl<'t> Printing<'t> {
    /// All of the tree is still to come. An `Err` comes for want of memory, or where the text would be of absurd length.
    pub fn begin(alloc: Global, tree: &'t Tree<'_>) -> Result<Printing<'t>, NoMemory>
        ensures ready { IfOk result (IsReady tree.now) }
        ensures starts { IfOk result (λ printing. Starts printing.out) }
        ensures whole { IfOk result (λ printing. pending tree.now.branches printing.marks.items ≡ print tree.now.branches) }
    {
        if tree.summed_levels() > ABSURD {
            return Err(NoMemory);
        }
        Printing::new(alloc, tree)
    }

    /// All of the tree is still to come.
    pub fn new(alloc: Global, tree: &'t Tree<'_>) -> Result<Printing<'t>, NoMemory>
        ensures ready { IfOk result (IsReady tree.now) }
        ensures starts { IfOk result (λ printing. Starts printing.out) }
        ensures whole { IfOk result (λ printing. pending tree.now.branches printing.marks.items ≡ print tree.now.branches) }
    {
        let marks = first_marks(alloc, tree)?;
        let list = attribute_list(alloc, tree)?;
        let out = Out::new(alloc)?;
        Ok(Printing { marks, list, out })
    }

    /// Prints the item at the last mark, and marks what comes after it. Whether there was a mark.
    #[inline]
    pub fn print_next<K: Sink>(&mut self, alloc: Global, tree: &'t Tree<'_>, sink: &mut K) -> bool
        requires ready { IsReady tree.now self.old }
        ensures ready { IsReady tree.now self.new }
        ensures printed { PrintsOn tree.now.branches self.old self.new (K.taken sink.old, K.faults sink.old) (K.taken sink.new, K.faults sink.new) }
        ensures fewer { result ≡ true → todo tree.now.branches self.new.marks.items < todo tree.now.branches self.old.marks.items }
        ensures none { result ≡ false → self.new.marks.items ≡ [] }
    {
        let Some(mark) = self.marks.pop() else {
            return false;
        };
        let view = step(tree, &mut self.marks, mark);
        let depth = mark.level as u64 + mark.templates as u64;
        print_item(alloc, &mut self.out, sink, &mut self.list, view, depth);
        true
    }

    /// Prints all that is still to come.
    pub fn print_rest<K: Sink>(&mut self, alloc: Global, tree: &'t Tree<'_>, sink: &mut K)
        requires ready { IsReady tree.now self.old }
        ensures { Prints self.old.out self.new.out (K.taken sink.old, K.faults sink.old) (K.taken sink.new, K.faults sink.new) (pending tree.now.branches self.old.marks.items) }
    {
        while self.print_next(alloc, tree, sink) {}
    }

    /// Prints all that is still to come, and writes what is gathered. At a fault, how many bytes of the whole text the sink took.
    pub fn finish<K: Sink>(
        &mut self,
        alloc: Global,
        tree: &'t Tree<'_>,
        sink: &mut K,
    ) -> Result<(), Refusal>
        requires ready { IsReady tree.now self.old }
        ensures { Ended self.old.out result (K.taken sink.old, K.faults sink.old) (K.taken sink.new, K.faults sink.new) (pending tree.now.branches self.old.marks.items) }
    {
        self.print_rest(alloc, tree, sink);
        match self.out.finish(sink) {
            Ok(()) => Ok(()),
            Err(fault) => Err(Refusal::Fault { taken: fault.taken }),
        }
    }
}

/// A mark at the first item of the tree, if there is one, in a stack that is deep enough for the tree.
fn first_marks(alloc: Global, tree: &Tree<'_>) -> Result<Vec<Mark>, NoMemory>
    ensures marks { IfOk result (λ marks. AreMarks tree.now 0 marks.items) }
    ensures room { IfOk result (λ marks. length tree.now.branches ≤ vec_capacity marks) }
    ensures whole { IfOk result (λ marks. pending tree.now.branches marks.items ≡ print tree.now.branches) }
{
    // `len` hands on that the tree is a forest: the document is there.
    let mut marks = Vec::with_capacity(alloc, tree.len() as usize)?;
    push_first(tree, &mut marks, 0, 0, 0);
    Ok(marks)
}

/// Memory for the attributes of any element of the tree.
pub fn attribute_list<'t>(alloc: Global, tree: &'t Tree<'_>) -> Result<Vec<Shown<'t>>, NoMemory>
    ensures { IfOk result (λ list. HasRoom tree.now.branches (vec_capacity list)) }
{
    let list = Vec::with_capacity(alloc, tree.most_attributes())?;
    Ok(list)
}

/// Takes a step over the first item at a mark: marks what is left there and what stands inside the item. What stands at the mark.
#[inline(always)]
pub fn step<'t, 'p>(tree: &'t Tree<'p>, stack: &mut Vec<Mark>, mark: Mark) -> NodeView<'t, 'p>
    requires mark { IsMark tree.now mark }
    requires rising { vec_len stack.old ≤ mark.level }
    requires room { length tree.now.branches ≤ vec_capacity stack.old }
    ensures step { Stepped tree.now mark result stack.old.items stack.new.items }
    ensures room { length tree.now.branches ≤ vec_capacity stack.new }
{
    // `len` hands on that the tree is a forest: no level is past the number of elements.
    let _elements = tree.len();
    push_next(tree, stack, mark);
    push_inside(tree, stack, mark)
}

/// Marks what stands inside the first item at a mark. What stands at the mark.
#[inline(always)]
pub fn push_inside<'t, 'p>(
    tree: &'t Tree<'p>,
    stack: &mut Vec<Mark>,
    mark: Mark,
) -> NodeView<'t, 'p>
    requires mark { IsMark tree.now mark }
    requires rising { vec_len stack.old ≤ mark.level + 1 }
    requires room { length tree.now.branches ≤ vec_capacity stack.old }
    ensures view { IsShown tree.now.branches mark.at result }
    ensures tag { HasTag tree.now.branches result }
    ensures pushed { (x : Item) → shown result ≡ Some x → let t = tree.now.branches in Pushed tree.now stack.old.items stack.new.items (lines_at t (mark.level + 1) (mark.templates + extra t x) (inside t x)) (steps_at t (mark.level + 1) (inside t x)) }
    ensures room { length tree.now.branches ≤ vec_capacity stack.new }
{
    // `len` hands on that the tree is a forest: each child is there, and no level is past the number of elements.
    let _elements = tree.len();
    let view = tree.view(mark.at);
    if let NodeView::Element { tag, .. } = view {
        let templates = mark.templates + extra_depth(tag);
        if let Some(at) = tree.first_below(mark.at) {
            stack.push_reserved(Mark {
                at,
                level: mark.level + 1,
                templates,
            });
        }
    }
    view
}

/// Marks the item after the one at a mark, if there is one.
#[inline(always)]
pub fn push_next(tree: &Tree<'_>, stack: &mut Vec<Mark>, mark: Mark)
    requires mark { IsMark tree.now mark }
    requires rising { vec_len stack.old ≤ mark.level }
    requires room { length tree.now.branches ≤ vec_capacity stack.old }
    ensures pushed { let t = tree.now.branches in let items = drop (place_of mark.at + 1) (branch t (parent_of mark.at)).inside in Pushed tree.now stack.old.items stack.new.items (lines_at t mark.level mark.templates items) (steps_at t mark.level items) }
    ensures len { vec_len stack.new ≤ vec_len stack.old + 1 }
    ensures room { length tree.now.branches ≤ vec_capacity stack.new }
{
    // `len` hands on that the tree is a forest: no level is past the number of elements.
    let _elements = tree.len();
    if let Some(at) = tree.next_sibling(mark.at) {
        stack.push_reserved(Mark {
            at,
            level: mark.level,
            templates: mark.templates,
        });
    }
}

/// Marks the first item inside an element, if there is one.
#[inline(always)]
fn push_first(tree: &Tree<'_>, stack: &mut Vec<Mark>, id: u32, level: u32, templates: u32)
    requires there { id < length tree.now.branches }
    requires deep { IsDeep tree.now.branches level id }
    requires templates { templates ≤ level }
    requires rising { vec_len stack.old ≤ level }
    requires room { length tree.now.branches ≤ vec_capacity stack.old }
    ensures pushed { let t = tree.now.branches in let items = (branch t id).inside in Pushed tree.now stack.old.items stack.new.items (lines_at t level templates items) (steps_at t level items) }
    ensures room { length tree.now.branches ≤ vec_capacity stack.new }
{
    // `len` hands on that the tree is a forest: no level is past the number of elements.
    let _elements = tree.len();
    if let Some(at) = tree.first_inside(id) {
        stack.push_reserved(Mark {
            at,
            level,
            templates,
        });
    }
}
