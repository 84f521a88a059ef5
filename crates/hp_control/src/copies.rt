//! Copies of control states.
ghost use Rattle.std.specs.Prelude.{◌≡◌, [], IfOk};

use crate::control::Control;
use crate::element::{FormattingEntry, OpenElement};
use crate::open_elements::OpenElements;
use crate::stack::Stack;
use hp_elements::{Mode, NoMemory};
use std::alloc::Global;

/// Copies a stack onto one without elements. At an `Err` that one is spent.
fn copy_stack(
    alloc: Global,
    stack: &OpenElements,
    copies: &mut OpenElements,
) -> Result<(), NoMemory>
    requires { copies.old ≡ [] }
    ensures { IfOk result (λ _. copies.new ≡ stack.now) }
{
    let count = stack.len();
    for turn in 0..count {
        let element = stack.at(count - 1 - turn);
        let copy = OpenElement {
            id: element.id,
            namespace: element.namespace,
            name: element.name.copy(alloc)?,
            point: element.point,
        };
        copies.push(alloc, copy)?;
    }
    Ok(())
}

/// Copies a list onto one without entries. At an `Err` that one is spent.
fn copy_list(
    alloc: Global,
    list: &Stack<FormattingEntry>,
    copies: &mut Stack<FormattingEntry>,
) -> Result<(), NoMemory>
    requires { copies.old ≡ [] }
    ensures { IfOk result (λ _. copies.new ≡ list.now) }
{
    let count = list.len();
    for turn in 0..count {
        let copy = match list.at(count - 1 - turn) {
            FormattingEntry::Marker => FormattingEntry::Marker,
            FormattingEntry::Element { id, tag } => FormattingEntry::Element {
                id: *id,
                tag: tag.copy(alloc)?,
            },
        };
        copies.push(alloc, copy)?;
    }
    Ok(())
}

/// Copies template modes onto none. At an `Err` what they were copied onto is spent.
fn copy_modes(alloc: Global, modes: &Stack<Mode>, copies: &mut Stack<Mode>) -> Result<(), NoMemory>
    requires { copies.old ≡ [] }
    ensures { IfOk result (λ _. copies.new ≡ modes.now) }
{
    let count = modes.len();
    for turn in 0..count {
        copies.push(alloc, *modes.at(count - 1 - turn))?;
    }
    Ok(())
}

/// The lists of a control state.
#[derive(Drop)]
pub(crate) struct Lists {
    pub(crate) templates: Stack<Mode>,
    pub(crate) stack: OpenElements,
    pub(crate) formatting: Stack<FormattingEntry>,
}

/// The lists of a state once more.
pub(crate) fn copy_lists(alloc: Global, control: &Control) -> Result<Lists, NoMemory>
    ensures templates { IfOk result (λ lists. lists.templates ≡ control.now.templates) }
    ensures stack { IfOk result (λ lists. lists.stack ≡ control.now.stack) }
    ensures formatting { IfOk result (λ lists. lists.formatting ≡ control.now.formatting) }
{
    let mut lists = Lists {
        templates: Stack::new(),
        stack: OpenElements::new(),
        formatting: Stack::new(),
    };
    copy_modes(alloc, &control.templates, &mut lists.templates)?;
    copy_stack(alloc, &control.stack, &mut lists.stack)?;
    copy_list(alloc, &control.formatting, &mut lists.formatting)?;
    Ok(lists)
}
