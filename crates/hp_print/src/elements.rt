//! Single elements of a tree.

ghost use Rattle.std.specs.Prelude.{◌≡◌, Err, OnOk, vec_capacity};
ghost use Rattle.std.specs.Io.KnownBytes.{append_known};
ghost use Rattle.std.specs.List.{All};
ghost use Rattle.hp_text.specs.Device.{Rose};
ghost use Rattle.hp_arena.specs.Readers.{element_at, IsAt};
ghost use Rattle.hp_print.specs.Elements.{elements_text, text_at};
ghost use Rattle.hp_print.specs.Faults.{Ended, OnFault};
ghost use Rattle.hp_print.specs.Out.{Prints, TakesFirst};
ghost use Rattle.hp_print.specs.Stack.{HasRoom};

use crate::attributes::Shown;
use crate::items::print_tag;
use crate::output::Out;
use crate::walk::{Refusal, attribute_list};
use hp_arena::{At, NodeView, Tree};
use hp_text::Sink;
use std::alloc::Global;

/// Writes the elements that stand at these places, in this order: each with its attributes as the printed tree has it at depth 0, without
/// what stands inside it. All memory that this needs is there before the first byte is written.
pub fn write_elements<K: Sink>(
    alloc: Global,
    tree: &Tree<'_>,
    found: &[At],
    sink: &mut K,
) -> Result<(), Refusal>
    requires { All (IsAt tree.now) found.now }
    ensures whole { OnOk result (K.taken sink.new ≡ append_known (K.taken sink.old) (elements_text tree.now.branches found.now)) }

    // At a fault the sink took a proper first part, whose length the fault tells, and the sink's own count shows it.
    ensures part { OnFault result (λ taken. TakesFirst taken (elements_text tree.now.branches found.now) (K.taken sink.old) (K.taken sink.new)) }
    ensures failed { OnFault result (λ _. Rose (K.faults sink.old) (K.faults sink.new)) }

    ensures nothing { result ≡ Err Refusal.NoMemory → sink.new ≡ sink.old }
{
    let Ok(mut list) = attribute_list(alloc, tree) else {
        return Err(Refusal::NoMemory);
    };
    let Ok(mut out) = Out::new(alloc) else {
        return Err(Refusal::NoMemory);
    };
    put_elements(alloc, &mut out, sink, &mut list, tree, found)
}

/// Prints the elements that stand at these places, and writes what is gathered. The list has room for the attributes of each element of the
/// tree.
fn put_elements<'t, K: Sink>(
    alloc: Global,
    out: &mut Out,
    sink: &mut K,
    list: &mut Vec<Shown<'t>>,
    tree: &'t Tree<'_>,
    found: &[At],
) -> Result<(), Refusal>
    requires there { All (IsAt tree.now) found.now }
    requires room { HasRoom tree.now.branches (vec_capacity list.old) }
    ensures { Ended out.old result (K.taken sink.old, K.faults sink.old) (K.taken sink.new, K.faults sink.new) (elements_text tree.now.branches found.now) }
{
    print_elements(alloc, out, sink, list, tree, found);
    match out.finish(sink) {
        Ok(()) => Ok(()),
        Err(fault) => Err(Refusal::Fault { taken: fault.taken }),
    }
}

/// Prints the elements that stand at these places.
fn print_elements<'t, K: Sink>(
    alloc: Global,
    out: &mut Out,
    sink: &mut K,
    list: &mut Vec<Shown<'t>>,
    tree: &'t Tree<'_>,
    found: &[At],
)
    requires there { All (IsAt tree.now) found.now }
    requires room { HasRoom tree.now.branches (vec_capacity list.old) }
    ensures { Prints out.old out.new (K.taken sink.old, K.faults sink.old) (K.taken sink.new, K.faults sink.new) (elements_text tree.now.branches found.now) }
{
    for index in 0..found.len() {
        print_at(alloc, out, sink, list, tree, found[index]);
    }
}

/// Prints the element that stands there, if one does.
#[tactic(auto, using(crate::proofs::Pieces::prints_none))]
fn print_at<'t, K: Sink>(
    alloc: Global,
    out: &mut Out,
    sink: &mut K,
    list: &mut Vec<Shown<'t>>,
    tree: &'t Tree<'_>,
    at: At,
)
    requires there { IsAt tree.now at }
    requires room { HasRoom tree.now.branches (vec_capacity list.old) }
    ensures printed { Prints out.old out.new (K.taken sink.old, K.faults sink.old) (K.taken sink.new, K.faults sink.new) (text_at tree.now.branches (element_at tree.now.branches at)) }
    ensures room { HasRoom tree.now.branches (vec_capacity list.new) }
{
    let NodeView::Element { tag, .. } = tree.view(at) else {
        return;
    };
    print_tag(alloc, out, sink, list, tag, 0);
}
