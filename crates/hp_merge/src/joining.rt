//! How a fragment is joined: what may want memory comes first, and where there is none all stays as it was.
ghost use Rattle.std.specs.Prelude.{◌≡◌, ◌+◌, ◌<◌, ◌≤◌, length, IfOk, IfErr, OnOk, OnErr};
ghost use Rattle.hp_control.specs.Apply.{applied};
ghost use Rattle.hp_control.specs.Holds.{Holds};
ghost use Rattle.hp_control.specs.States.{Fits};
ghost use Rattle.hp_control.specs.Tree.{applied_all};
ghost use Rattle.hp_groves.specs.Grafts.{graft};
ghost use Rattle.hp_pieces.specs.Growth.{grown_tree};

use crate::checking::is_sound_guess;
use crate::laying::{lay, take_off};
use crate::making::{make_fixed, make_over};
use crate::parts::Parts;
use crate::settling::settle;
use crate::spent::Spent;
use hp_arena::{GraftRefusal, Tree};
use hp_control::{Assumptions, Change, Control, Edit, Edits};
use hp_elements::NoMemory;
use hp_pieces::{Ending, Exact, ExactParts, Guessed, GuessedParts, States};
use hp_steps::Steps;
use std::alloc::Global;
use std::sync::ledger::Ledger;

/// Joins what is exact to the tree of its entry, and answers the states before and behind it: what its inner edits made is put behind the
/// tree, and then its outer edits are made. What is left of these edits is answered too. At an `Err`, which is want of memory, the tree is
/// as before and the fragment comes back.
pub(crate) fn join_exact<'p, L: Ledger>(
    alloc: Global,
    tree: &mut Tree<'p>,
    exact: Exact<'p>,
    steps: &mut Steps<L>,
) -> Result<(Box<States>, Vec<Edit<'p>>), Exact<'p>>
    ensures exit { IfOk result (λ joined. joined.0.value.exit ≡ exact.entry.exit) }
    ensures tree { OnOk result (tree.new.branches ≡ grown_tree exact.entry.grove exact.entry.outer exact.entry.entry tree.old.branches) }
    ensures kept { OnErr result (tree.new.branches ≡ tree.old.branches) }
    ensures back { IfErr result (λ back. back ≡ exact.entry) }
    ensures cost { steps.new ≤ steps.old + length exact.entry.outer }
{
    if tree.reserve(alloc, exact.outer()).is_err() {
        return Err(exact);
    }
    let (states, outer) = graft_exact(alloc, tree, exact)?;
    let entry = &states.entry;
    let left = make_over(alloc, tree, outer, &entry.stack, 0, entry.next, steps);
    Ok((states, left))
}

/// Puts what the inner edits of what is exact made behind the tree, and answers the states before and behind it and the outer edits. At
/// an `Err`, which is want of memory, the tree is as before and the fragment comes back.
fn graft_exact<'p>(
    alloc: Global,
    tree: &mut Tree<'p>,
    exact: Exact<'p>,
) -> Result<(Box<States>, Edits<'p>), Exact<'p>>
    ensures entry { IfOk result (λ rest. rest.0.value.entry ≡ exact.entry.entry) }
    ensures exit { IfOk result (λ rest. rest.0.value.exit ≡ exact.entry.exit) }
    ensures outer { IfOk result (λ rest. rest.1 ≡ exact.entry.outer) }
    ensures tree { OnOk result (tree.new.branches ≡ graft tree.old.branches exact.entry.grove) }
    ensures room { OnOk result (tree.old.spare ≤ tree.new.spare) }
    ensures kept { OnErr result (tree.new ≡ tree.old) }
    ensures back { IfErr result (λ back. back ≡ exact.entry) }
{
    let parts = exact.into_parts();
    match tree.graft(alloc, parts.grove) {
        Ok(()) => Ok((parts.states, parts.outer)),
        Err(GraftRefusal { grove }) => Err(ExactParts { grove, ..parts }.together()),
    }
}

/// Makes the edits of the end of input. `Err` is want of memory.
pub(crate) fn end_tree<'p>(
    alloc: Global,
    mut tree: Tree<'p>,
    ending: Ending<'p>,
) -> Result<Tree<'p>, NoMemory>
    ensures { IfOk result (λ made. made.branches ≡ applied_all tree.entry.branches ending.entry.edits) }
{
    if tree.reserve(alloc, ending.edits()).is_err() {
        return Err(NoMemory);
    }
    let (_, edits) = ending.into_parts();
    make_fixed(alloc, &mut tree, edits);
    Ok(tree)
}

/// Joins a guess to this state and its tree, and answers the state behind it: what its inner edits made is put behind the tree, and then
/// its outer edits are made. What is left of the guess is answered too. At an `Err`, which is want of memory, the tree is as before, and
/// the state and the guess come back.
pub(crate) fn joined_to<'p, L: Ledger>(
    alloc: Global,
    control: Control,
    tree: &mut Tree<'p>,
    guess: Guessed<'p>,
    steps: &mut Steps<L>,
) -> Result<(Control, Spent<'p>), (Control, Guessed<'p>)>
    requires fits { Fits control }
    requires holds { Holds guess.assumptions control }
    requires covers { 0 < guess.covered }
    ensures control { IfOk result (λ joined. joined.0 ≡ applied guess.entry.change control) }
    ensures tree { OnOk result (tree.new.branches ≡ grown_tree guess.entry.grove guess.entry.outer control tree.old.branches) }
    ensures kept { OnErr result (tree.new.branches ≡ tree.old.branches) }
    ensures back { IfErr result (λ back. (back.0 ≡ control) × (back.1 ≡ guess.entry)) }
    ensures cost { steps.new ≤ steps.old + (length guess.entry.outer + (length guess.entry.change.stack + length guess.entry.change.formatting)) }
{
    control.is_kept();
    is_sound_guess(&guess);
    hp_pieces::runs_between();
    let Some(next) = control.next.checked_add(guess.change().made) else {
        return Err((control, guess));
    };
    if tree.reserve(alloc, guess.outer()).is_err() {
        return Err((control, guess));
    }
    let mut parts = Parts::of(control);
    let Ok(pending) = lay(alloc, guess.change(), &mut parts, steps) else {
        return Err((parts.together(), guess));
    };
    match graft_guess(alloc, tree, guess) {
        Ok((change, edits, assumptions)) => {
            let above = change.stack.len();
            let outer = make_over(alloc, tree, edits, &parts.stack, above, parts.next, steps);
            let behind = settle(Box::into_inner(change), next, pending, parts).together();
            Ok((behind, Spent::Guessed { assumptions, outer }))
        }
        Err(guess) => {
            take_off(guess.change(), &mut parts);
            Err((parts.together(), guess))
        }
    }
}

/// Puts what the inner edits of a guess made behind the tree, and answers the change, the outer edits and what it assumed. At an `Err`,
/// which is want of memory, the tree is as before and the guess comes back.
fn graft_guess<'p>(
    alloc: Global,
    tree: &mut Tree<'p>,
    guess: Guessed<'p>,
) -> Result<(Box<Change>, Edits<'p>, Assumptions), Guessed<'p>>
    ensures change { IfOk result (λ rest. rest.0.value ≡ guess.entry.change) }
    ensures outer { IfOk result (λ rest. rest.1 ≡ guess.entry.outer) }
    ensures tree { OnOk result (tree.new.branches ≡ graft tree.old.branches guess.entry.grove) }
    ensures room { OnOk result (tree.old.spare ≤ tree.new.spare) }
    ensures kept { OnErr result (tree.new ≡ tree.old) }
    ensures back { IfErr result (λ back. back ≡ guess.entry) }
{
    let GuessedParts {
        text,
        covered,
        assumptions,
        change,
        grove,
        outer,
        by,
    } = guess.into_parts();
    match tree.graft(alloc, grove) {
        Ok(()) => Ok((change, outer, assumptions)),
        Err(GraftRefusal { grove }) => {
            let parts = GuessedParts {
                text,
                covered,
                assumptions,
                change,
                grove,
                outer,
                by,
            };
            Err(parts.together())
        }
    }
}
