//! A tree that is printed by parts, in several threads.

ghost use Rattle.std.specs.Prelude.{◌≡◌, ◌<◌, ◌≤◌, ◌++◌, [], Err, IfOk, OnOk, Some, true, length, vec_capacity};
ghost use Rattle.std.specs.List.{All};
ghost use Rattle.std.specs.Io.KnownBytes.{append_known};
ghost use Rattle.hp_text.specs.Device.{Rose};
ghost use Rattle.hp_print.specs.Out.{TakesFirst};
ghost use Rattle.hp_print.specs.Faults.{OnFault};
ghost use Rattle.hp_print.specs.Print.{print};
ghost use Rattle.hp_print.specs.Parts.{AreRoomy, IsPart, IsReady, PrintsOn};

use crate::ahead::{next_node, pass};
use crate::kept::Kept;
use crate::walk::{Mark, Printing, Refusal};
use hp_arena::{At, Tree};
use hp_elements::NoMemory;
use hp_text::Sink;
use std::alloc::Global;
use std::thread;
use std::thread::Threads;

/// A part ends once more bytes than these were printed.
const LONG: usize = 1 << 21;

/// A tree of fewer elements is printed by one thread: its text is written before threads would pay for their memory.
const FEW: u32 = 1 << 15;

/// A part of the text, which one thread prints.
#[derive(Drop)]
pub struct Part<'t> {
    /// The marks that it begins with.
    pub start: Vec<Mark>,
    /// What prints it, into its text.
    pub printing: Printing<'t>,
    /// What was printed.
    pub text: Kept,
    /// The number by which the tree finds the item that the next part begins with. `None` where there is none.
    pub stop: Option<u32>,
    /// Whether the text is all that came from the start on up to what is still to come.
    pub is_whole: bool,
}

/// Writes the tree as text, in UTF-8, as `write_tree` does. A large tree is printed by this many threads, where there is memory for so many.
/// All memory that this needs is there before the first byte is written.
pub fn write_tree_by<R: Threads + Sync, K: Sink>(
    rt: &R,
    alloc: Global,
    tree: &Tree<'_>,
    sink: &mut K,
    threads: u32,
) -> Result<(), Refusal>
    ensures whole { OnOk result (K.taken sink.new ≡ append_known (K.taken sink.old) (print tree.now.branches)) }

    // At a fault the sink took a proper first part, whose length the fault tells, and the sink's own count shows it.
    ensures part { OnFault result (λ taken. TakesFirst taken (print tree.now.branches) (K.taken sink.old) (K.taken sink.new)) }
    ensures failed { OnFault result (λ _. Rose (K.faults sink.old) (K.faults sink.new)) }

    ensures nothing { result ≡ Err Refusal.NoMemory → sink.new ≡ sink.old }
{
    let Ok(mut printing) = Printing::begin(alloc, tree) else {
        return Err(Refusal::NoMemory);
    };
    print_by(rt, alloc, tree, &mut printing, sink, threads);
    printing.finish(alloc, tree, sink)
}

/// Prints a large tree by rounds of parts where there is memory for these. As a rule nothing is left.
fn print_by<'t, R: Threads + Sync, K: Sink>(
    rt: &R,
    alloc: Global,
    tree: &'t Tree<'_>,
    printing: &mut Printing<'t>,
    sink: &mut K,
    threads: u32,
)
    requires ready { IsReady tree.now printing.old }
    ensures ready { IsReady tree.now printing.new }
    ensures printed { PrintsOn tree.now.branches printing.old printing.new (K.taken sink.old, K.faults sink.old) (K.taken sink.new, K.faults sink.new) }
{
    if threads < 2 || tree.len() < FEW {
        return;
    }
    let Ok(mut ahead) = Vec::with_capacity(alloc, tree.len() as usize) else {
        return;
    };
    let Ok(mut parts) = parts_for(alloc, tree, threads) else {
        return;
    };
    print_rounds(
        rt,
        alloc,
        tree,
        printing,
        &mut ahead,
        parts.as_mut_slice(),
        sink,
    );
}

/// As many parts as there are threads.
fn parts_for<'t>(alloc: Global, tree: &'t Tree<'_>, threads: u32) -> Result<Vec<Part<'t>>, NoMemory>
    ensures { IfOk result (λ parts. All (IsPart tree.now) parts.items) }
{
    let mut parts = Vec::new(alloc);
    for _ in 0..threads {
        let part = new_part(alloc, tree)?;
        parts.push(part)?;
    }
    Ok(parts)
}

/// A part of which nothing is printed yet.
fn new_part<'t>(alloc: Global, tree: &'t Tree<'_>) -> Result<Part<'t>, NoMemory>
    ensures { IfOk result (IsPart tree.now) }
{
    let start = Vec::with_capacity(alloc, tree.len() as usize)?;
    let printing = Printing::new(alloc, tree)?;
    Ok(Part {
        start,
        printing,
        text: Kept::new(alloc),
        stop: None,
        is_whole: false,
    })
}

/// Prints by rounds until nothing is left, or a round brings nothing.
fn print_rounds<'t, R: Threads + Sync, K: Sink>(
    rt: &R,
    alloc: Global,
    tree: &'t Tree<'_>,
    printing: &mut Printing<'t>,
    ahead: &mut Vec<Mark>,
    parts: &mut [Part<'t>],
    sink: &mut K,
)
    requires ready { IsReady tree.now printing.old }
    requires room { length tree.now.branches ≤ vec_capacity ahead.old }
    requires parts { All (IsPart tree.now) parts.old }
    ensures ready { IsReady tree.now printing.new }
    ensures printed { PrintsOn tree.now.branches printing.old printing.new (K.taken sink.old, K.faults sink.old) (K.taken sink.new, K.faults sink.new) }
{
    for _ in 0..tree.len() {
        if printing.marks.is_empty() {
            return;
        }
        if !print_round(rt, alloc, tree, printing, ahead, parts, sink) {
            return;
        }
    }
}

/// Prints by one round: each part in a thread of its own. Whether one was taken.
fn print_round<'t, R: Threads + Sync, K: Sink>(
    rt: &R,
    alloc: Global,
    tree: &'t Tree<'_>,
    printing: &mut Printing<'t>,
    ahead: &mut Vec<Mark>,
    parts: &mut [Part<'t>],
    sink: &mut K,
) -> bool
    requires ready { IsReady tree.now printing.old }
    requires room { length tree.now.branches ≤ vec_capacity ahead.old }
    requires parts { All (IsPart tree.now) parts.old }
    ensures ready { IsReady tree.now printing.new }
    ensures room { length tree.now.branches ≤ vec_capacity ahead.new }
    ensures parts { All (IsPart tree.now) parts.new }
    ensures printed { PrintsOn tree.now.branches printing.old printing.new (K.taken sink.old, K.faults sink.old) (K.taken sink.new, K.faults sink.new) }
{
    copy_marks(tree, printing.marks.as_slice(), ahead);
    lay_out(tree, ahead, parts);
    render_all(rt, alloc, tree, parts);
    take_all(tree, printing, parts, sink)
}

/// Lets the parts begin where the marks stand: the first there, and each other one about as many elements after the one before as a part has.
fn lay_out<'t>(tree: &'t Tree<'_>, ahead: &mut Vec<Mark>, parts: &mut [Part<'t>])
    requires ahead { AreRoomy tree.now ahead.old.items (vec_capacity ahead.old) }
    requires parts { All (IsPart tree.now) parts.old }
    ensures ahead { AreRoomy tree.now ahead.new.items (vec_capacity ahead.new) }
    ensures parts { All (IsPart tree.now) parts.new }
{
    for k in 0..parts.len() {
        begin(tree, ahead, &mut parts[k]);
    }
}

/// Lets a part begin where the marks stand, and moves these over about as many elements as a part has: the part ends there.
fn begin<'t>(tree: &'t Tree<'_>, ahead: &mut Vec<Mark>, part: &mut Part<'t>)
    requires ahead { AreRoomy tree.now ahead.old.items (vec_capacity ahead.old) }
    requires part { IsPart tree.now part.old }
    ensures ahead { AreRoomy tree.now ahead.new.items (vec_capacity ahead.new) }
    ensures part { IsPart tree.now part.new }
{
    part.is_whole = false;
    copy_marks(tree, ahead.as_slice(), &mut part.start);
    pass(tree, ahead);
    part.stop = next_node(ahead.as_slice());
}

/// Prints each part, in a thread of its own.
fn render_all<'t, R: Threads + Sync>(
    rt: &R,
    alloc: Global,
    tree: &'t Tree<'_>,
    parts: &mut [Part<'t>],
)
    requires { All (IsPart tree.now) parts.old }
    ensures { All (IsPart tree.now) parts.new }
{
    let threads = parts.len().max(1);
    thread::for_each_mut(rt, parts, threads, &|_, part| render(alloc, tree, part));
}

/// Prints a part, from its start on.
fn render<'t>(alloc: Global, tree: &'t Tree<'_>, part: &mut Part<'t>)
    requires { IsPart tree.now part.old }
    ensures { IsPart tree.now part.new }
{
    part.is_whole = false;
    part.text.clear();
    if !part.printing.out.restart() {
        return;
    }
    copy_marks(tree, part.start.as_slice(), &mut part.printing.marks);
    print_some(alloc, tree, &mut part.printing, &mut part.text, part.stop);
    part.printing.out.flush(&mut part.text);
    part.is_whole = !part.printing.out.has_failed();
}

/// Prints what comes before the item of this number, and less where the text of that is long.
fn print_some<'t>(
    alloc: Global,
    tree: &'t Tree<'_>,
    printing: &mut Printing<'t>,
    text: &mut Kept,
    stop: Option<u32>,
)
    requires ready { IsReady tree.now printing.old }
    ensures ready { IsReady tree.now printing.new }
    ensures printed { PrintsOn tree.now.branches printing.old printing.new (Some text.old.bytes.items, text.old.faults) (Some text.new.bytes.items, text.new.faults) }
{
    while text.as_slice().len() <= LONG && next_node(printing.marks.as_slice()) != stop {
        if !printing.print_next(alloc, tree, text) {
            return;
        }
    }
}

/// Takes the parts in order up to the first that can't be taken. Whether one was.
fn take_all<'t, K: Sink>(
    tree: &'t Tree<'_>,
    printing: &mut Printing<'t>,
    parts: &[Part<'t>],
    sink: &mut K,
) -> bool
    requires ready { IsReady tree.now printing.old }
    requires parts { All (IsPart tree.now) parts.now }
    ensures ready { IsReady tree.now printing.new }
    ensures printed { PrintsOn tree.now.branches printing.old printing.new (K.taken sink.old, K.faults sink.old) (K.taken sink.new, K.faults sink.new) }
{
    for k in 0..parts.len() {
        if !take(tree, printing, &parts[k], sink) {
            return 0 < k;
        }
    }
    true
}

/// Takes what a part printed, if it printed from where the printing stands. Whether it did.
fn take<'t, K: Sink>(
    tree: &'t Tree<'_>,
    printing: &mut Printing<'t>,
    part: &Part<'t>,
    sink: &mut K,
) -> bool
    requires ready { IsReady tree.now printing.old }
    requires part { IsPart tree.now part.now }
    ensures ready { IsReady tree.now printing.new }
    ensures printed { PrintsOn tree.now.branches printing.old printing.new (K.taken sink.old, K.faults sink.old) (K.taken sink.new, K.faults sink.new) }
{
    if !part.is_whole {
        return false;
    }
    if !are_same(printing.marks.as_slice(), part.start.as_slice()) {
        return false;
    }
    printing.out.put(sink, part.text.as_slice());
    copy_marks(tree, part.printing.marks.as_slice(), &mut printing.marks);
    true
}

/// Puts the marks in place of others.
fn copy_marks(tree: &Tree<'_>, from: &[Mark], to: &mut Vec<Mark>)
    requires marks { AreRoomy tree.now from.now (vec_capacity to.old) }
    ensures items { to.new.items ≡ from.now }
    ensures room { vec_capacity to.old ≤ vec_capacity to.new }
{
    // `len` hands on that the tree is a forest: there are no more marks than elements.
    let _elements = tree.len();
    to.clear();
    match to.extend_from_slice(from) {
        Ok(()) => {}
        Err(_) => unreachable!(),
    }
}

/// Whether these are the same marks.
fn are_same(first: &[Mark], second: &[Mark]) -> bool
    ensures { result ≡ true → first.now ≡ second.now }
{
    if first.len() != second.len() {
        return false;
    }
    for k in 0..first.len() {
        if !is_same(first[k], second[k]) {
            return false;
        }
    }
    true
}

/// Whether this is the same mark.
fn is_same(first: Mark, second: Mark) -> bool
    ensures { result ≡ true → first ≡ second }
{
    let (At::Child(spot), At::Child(other)) = (first.at, second.at) else {
        return false;
    };
    first.level == second.level && first.templates == second.templates && spot == other
}
