//! What a chunk made, copied with its ids counted on, and put on top of the older ones.
ghost use Rattle.std.specs.Prelude.{◌≡◌, ◌+◌, ◌<◌, ◌^◌, ◌∷◌, OnOk, OnErr, IfOk, IfErr};
ghost use Rattle.hp_control.specs.Apply.{shifted, shifted_entry, IsShiftable};

use crate::element::{FormattingEntry, OpenElement};
use crate::stack::Stack;
use hp_elements::NoMemory;
use hp_steps::Steps;
use std::alloc::{AllocFailed, Global};
use std::sync::ledger::Ledger;

impl OpenElement {
    /// The same element once more, its id counted from this one on.
    pub fn shifted(&self, alloc: Global, from: u64) -> Result<OpenElement, NoMemory>
        requires { from + self.now.id < 2 ^ 64 }
        ensures { IfOk result (λ copy. copy ≡ shifted from self.now) }
    {
        Ok(OpenElement {
            id: from + self.id,
            namespace: self.namespace,
            name: self.name.copy(alloc)?,
            point: self.point,
        })
    }
}

impl FormattingEntry {
    /// The same entry once more, its id counted from this one on.
    pub fn shifted(&self, alloc: Global, from: u64) -> Result<FormattingEntry, NoMemory>
        requires { IsShiftable from self.now }
        ensures { IfOk result (λ copy. copy ≡ shifted_entry from self.now) }
    {
        match self {
            FormattingEntry::Marker => Ok(FormattingEntry::Marker),
            FormattingEntry::Element { id, tag } => Ok(FormattingEntry::Element {
                id: from + *id,
                tag: tag.copy(alloc)?,
            }),
        }
    }
}

/// Puts an entry on top of the list of formatting elements, by one step. At an `Err`, which comes only for want of memory, the list is
/// as before and the entry comes back.
pub fn put_listed<L: Ledger>(
    alloc: Global,
    formatting: &mut Stack<FormattingEntry>,
    entry: FormattingEntry,
    steps: &mut Steps<L>,
) -> Result<(), AllocFailed<FormattingEntry>>
    ensures ok { OnOk result (formatting.new ≡ entry ∷ formatting.old) }
    ensures err { OnErr result (formatting.new ≡ formatting.old) }
    ensures returned { IfErr result (λ failed. failed.value ≡ entry) }
    ensures steps { steps.new ≡ steps.old + 1 }
{
    steps.tick();
    formatting.push(alloc, entry)
}
