//! What a chunk keeps of its own, copied with its ids counted on, and put on top of the older ones.
ghost use Rattle.std.specs.Prelude.{◌≡◌, ◌+◌, ◌<◌, ◌≤◌, ◌^◌, ◌∷◌, ◌++◌, All, length, map, IfOk, OnOk, OnErr};
ghost use Rattle.hp_control.specs.Apply.{shifted, shifted_entry, IsShiftable};
ghost use Rattle.hp_merge.specs.Parts.{laid, laid_others, taken_off, AreCounted, IsPending, StandOnTop};

use crate::parts::Parts;
use hp_control::{Change, FormattingEntry, OpenElement, OpenElements, Stack, put_listed, put_open};
use hp_elements::{Mode, NoMemory, Text};
use hp_steps::Steps;
use std::alloc::Global;
use std::sync::ledger::Ledger;

/// Puts the template modes on top of the older ones. At an `Err`, which is want of memory, these are as before.
fn lay_modes(alloc: Global, own: &Stack<Mode>, modes: &mut Stack<Mode>) -> Result<(), NoMemory>
    ensures ok { OnOk result (modes.new ≡ own.now ++ modes.old) }
    ensures err { OnErr result (modes.new ≡ modes.old) }
{
    let count = own.len();
    for turn in 0..count {
        if modes.add(alloc, *own.at(count - 1 - turn)).is_err() {
            modes.drop_top(turn);
            return Err(NoMemory);
        }
    }
    Ok(())
}

/// Puts the elements on top of the older ones, their ids counted from this one on. At an `Err`, which is want of memory, these are
/// as before.
fn lay_elements<L: Ledger>(
    alloc: Global,
    own: &OpenElements,
    next: u64,
    stack: &mut OpenElements,
    steps: &mut Steps<L>,
) -> Result<(), NoMemory>
    requires counted { All (λ e. next + e.id < 2 ^ 64) own.now }
    ensures ok { OnOk result (stack.new ≡ map (shifted next) own.now ++ stack.old) }
    ensures err { OnErr result (stack.new ≡ stack.old) }
    ensures cost { steps.new ≤ steps.old + length own.now }
{
    let count = own.len();
    for turn in 0..count {
        if lay_element(alloc, own.at(count - 1 - turn), next, stack, steps).is_err() {
            stack.drop_top(turn);
            return Err(NoMemory);
        }
    }
    Ok(())
}

/// Puts one element on top.
fn lay_element<L: Ledger>(
    alloc: Global,
    element: &OpenElement,
    next: u64,
    stack: &mut OpenElements,
    steps: &mut Steps<L>,
) -> Result<(), NoMemory>
    requires { next + element.now.id < 2 ^ 64 }
    ensures ok { OnOk result (stack.new ≡ shifted next element.now ∷ stack.old) }
    ensures err { OnErr result (stack.new ≡ stack.old) }
    ensures cost { steps.new ≤ steps.old + 1 }
{
    let copy = element.shifted(alloc, next)?;
    put_open(alloc, stack, copy, steps)?;
    Ok(())
}

/// Puts the formatting entries on top of the older ones, their ids counted from this one on. At an `Err`, which is want of memory,
/// these are as before.
fn lay_entries<L: Ledger>(
    alloc: Global,
    own: &Stack<FormattingEntry>,
    next: u64,
    list: &mut Stack<FormattingEntry>,
    steps: &mut Steps<L>,
) -> Result<(), NoMemory>
    requires counted { All (IsShiftable next) own.now }
    ensures ok { OnOk result (list.new ≡ map (shifted_entry next) own.now ++ list.old) }
    ensures err { OnErr result (list.new ≡ list.old) }
    ensures cost { steps.new ≤ steps.old + length own.now }
{
    let count = own.len();
    for turn in 0..count {
        if lay_entry(alloc, own.at(count - 1 - turn), next, list, steps).is_err() {
            list.drop_top(turn);
            return Err(NoMemory);
        }
    }
    Ok(())
}

/// Puts one formatting entry on top.
fn lay_entry<L: Ledger>(
    alloc: Global,
    entry: &FormattingEntry,
    next: u64,
    list: &mut Stack<FormattingEntry>,
    steps: &mut Steps<L>,
) -> Result<(), NoMemory>
    requires { IsShiftable next entry.now }
    ensures ok { OnOk result (list.new ≡ shifted_entry next entry.now ∷ list.old) }
    ensures err { OnErr result (list.new ≡ list.old) }
    ensures cost { steps.new ≤ steps.old + 1 }
{
    let copy = entry.shifted(alloc, next)?;
    put_listed(alloc, list, copy, steps)?;
    Ok(())
}

/// Puts all that a chunk keeps of its own on top of the older ones, which stay for now, and answers its pending table characters behind
/// the older ones. At an `Err`, which is want of memory, the parts are as before.
pub(crate) fn lay<L: Ledger>(
    alloc: Global,
    change: &Change,
    parts: &mut Parts,
    steps: &mut Steps<L>,
) -> Result<Option<Text<'static>>, NoMemory>
    requires counted { AreCounted parts.old.next change.now }
    ensures pending { IfOk result (IsPending change.now.pending parts.old.pending) }
    ensures ok { OnOk result (parts.new ≡ laid change.now parts.old) }
    ensures err { OnErr result (parts.new ≡ parts.old) }
    ensures cost { steps.new ≤ steps.old + (length change.now.stack + length change.now.formatting) }
{
    let pending = pending_over(alloc, &change.pending, &parts.pending)?;
    lay_stacks(alloc, change, parts, steps)?;
    Ok(pending)
}

/// The older pending table characters and then the own ones, where there are any of these.
fn pending_over(
    alloc: Global,
    own: &Text<'static>,
    older: &Text<'static>,
) -> Result<Option<Text<'static>>, NoMemory>
    ensures { IfOk result (IsPending own.now older.now) }
{
    if own.is_empty() {
        return Ok(None);
    }
    let mut pending = older.copy(alloc)?;
    pending.push_str(alloc, own.as_str())?;
    Ok(Some(pending))
}

/// Puts the template modes, elements and formatting entries on top of the older ones. At an `Err`, which is want of memory, the parts
/// are as before.
fn lay_stacks<L: Ledger>(
    alloc: Global,
    change: &Change,
    parts: &mut Parts,
    steps: &mut Steps<L>,
) -> Result<(), NoMemory>
    requires counted { AreCounted parts.old.next change.now }
    ensures ok { OnOk result (parts.new ≡ laid change.now parts.old) }
    ensures err { OnErr result (parts.new ≡ parts.old) }
    ensures cost { steps.new ≤ steps.old + (length change.now.stack + length change.now.formatting) }
{
    lay_modes(alloc, &change.templates, &mut parts.templates)?;
    if lay_others(alloc, change, parts, steps).is_err() {
        parts.templates.drop_top(change.templates.len());
        return Err(NoMemory);
    }
    Ok(())
}

/// The same of all but the template modes.
fn lay_others<L: Ledger>(
    alloc: Global,
    change: &Change,
    parts: &mut Parts,
    steps: &mut Steps<L>,
) -> Result<(), NoMemory>
    requires counted { AreCounted parts.old.next change.now }
    ensures ok { OnOk result (parts.new ≡ laid_others change.now parts.old) }
    ensures err { OnErr result (parts.new ≡ parts.old) }
    ensures cost { steps.new ≤ steps.old + (length change.now.stack + length change.now.formatting) }
{
    lay_elements(alloc, &change.stack, parts.next, &mut parts.stack, steps)?;
    let laid = lay_entries(
        alloc,
        &change.formatting,
        parts.next,
        &mut parts.formatting,
        steps,
    );
    if laid.is_err() {
        parts.stack.drop_top(change.stack.len());
        return Err(NoMemory);
    }
    Ok(())
}

/// Takes what a chunk keeps of its own off again.
pub(crate) fn take_off(change: &Change, parts: &mut Parts)
    requires stand { StandOnTop change.now parts.old }
    ensures { parts.new ≡ taken_off change.now parts.old }
{
    parts.templates.drop_top(change.templates.len());
    parts.stack.drop_top(change.stack.len());
    parts.formatting.drop_top(change.formatting.len());
}
