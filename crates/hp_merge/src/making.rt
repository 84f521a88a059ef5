//! Edits over a known state, made in a tree.
ghost use Rattle.std.specs.Prelude.{◌≡◌, ◌+◌, ◌≤◌, All, drop, length, map};
ghost use Rattle.hp_control.specs.Apply.{named_edit};
ghost use Rattle.hp_control.specs.Edits.{IsFixedEdit, room_of_all};
ghost use Rattle.hp_control.specs.Nothing.{nothing};
ghost use Rattle.hp_control.specs.Telling.{named_edit_over, told_over};
ghost use Rattle.hp_control.specs.Tree.{applied_all};

use hp_arena::Tree;
use hp_control::{Edit, Edits, OpenElements, laws};
use hp_steps::Steps;
use std::alloc::Global;
use std::sync::ledger::Ledger;

/// Makes edits that tell each element by its id. It takes no memory.
pub(crate) fn make_fixed<'p>(alloc: Global, tree: &mut Tree<'p>, edits: Edits<'p>)
    requires room { room_of_all edits ≤ tree.old.spare }
    requires fixed { All IsFixedEdit edits }
    ensures { tree.new.branches ≡ applied_all tree.old.branches edits.entry }
{
    laws::edits_are_told();
    let mut edits = edits.into_vec(alloc);
    tree.apply_all(edits.as_mut_slice());
}

/// Makes edits over the older stack that begins at a depth of this one, each by one step; own elements count from `next` on. It takes no
/// memory, and answers what is left of the edits, of which nothing is promised.
pub(crate) fn make_over<'p, L: Ledger>(
    alloc: Global,
    tree: &mut Tree<'p>,
    edits: Edits<'p>,
    stack: &OpenElements,
    above: usize,
    next: u64,
    steps: &mut Steps<L>,
) -> Vec<Edit<'p>>
    requires room { room_of_all edits ≤ tree.old.spare }
    requires above { above ≤ length stack.now }
    ensures tree { tree.new.branches ≡ applied_all tree.old.branches (map (named_edit_over (drop above stack.now) next) edits.entry) }
    ensures cost { steps.new ≡ steps.old + length edits.entry }
{
    laws::edits_are_told();
    let mut batch = edits.into_vec(alloc);
    let edits = batch.as_mut_slice();
    name_all(edits, stack, above, next);
    apply_each(tree, edits, steps);
    // Its elements are counted in 32 bits.
    let _count = tree.len();
    batch
}

/// Makes these edits, in order, each told where no older state is below, by one step each. It takes no memory. Nothing is promised of
/// what is left of them.
fn apply_each<'p, L: Ledger>(tree: &mut Tree<'p>, edits: &mut [Edit<'p>], steps: &mut Steps<L>)
    requires { room_of_all edits.old ≤ tree.old.spare }
    ensures branches { tree.new.branches ≡ applied_all tree.old.branches (map (named_edit nothing) edits.old) }
    ensures cost { steps.new ≡ steps.old + length edits.old }
{
    for edit in edits.iter_mut() {
        tree.apply_in_place(edit, steps);
    }
}

/// Tells each element of the edits by its id over the older stack that begins at a depth of this one.
fn name_all(edits: &mut [Edit<'_>], stack: &OpenElements, above: usize, next: u64)
    requires { above ≤ length stack.now }
    ensures { edits.new ≡ map (told_over (drop above stack.now) next) edits.old }
{
    for edit in edits.iter_mut() {
        edit.name_over(stack, above, next);
    }
}
