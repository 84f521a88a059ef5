//! Whether two control states are the same, part by part.
ghost use Rattle.std.specs.Prelude.{◌≡◌, ◌↔◌, ◌<◌, IsTrue, length};

use crate::element::{FormattingEntry, OpenElement};
use crate::open_elements::OpenElements;
use crate::stack::Stack;
use hp_elements::Mode;

fn same_element(element: &OpenElement, other: &OpenElement) -> bool
    ensures { IsTrue result ↔ (element.now ≡ other.now) }
{
    element.id == other.id
        && element.namespace == other.namespace
        && element.point == other.point
        && element.name.same(&other.name)
}

/// Whether the two stacks have the same elements.
pub(crate) fn same_elements(stack: &OpenElements, other: &OpenElements) -> bool
    ensures { IsTrue result ↔ (stack.now ≡ other.now) }
{
    if stack.len() != other.len() {
        return false;
    }
    for depth in 0..stack.len() {
        if !same_element(stack.at(depth), other.at(depth)) {
            return false;
        }
    }
    true
}

fn same_entry(entry: &FormattingEntry, other: &FormattingEntry) -> bool
    ensures { IsTrue result ↔ (entry.now ≡ other.now) }
{
    match (entry, other) {
        (FormattingEntry::Marker, FormattingEntry::Marker) => true,
        (
            FormattingEntry::Element { id, tag },
            FormattingEntry::Element {
                id: other_id,
                tag: other_tag,
            },
        ) => *id == *other_id && tag.same(other_tag),
        (FormattingEntry::Marker, FormattingEntry::Element { .. }) => false,
        (FormattingEntry::Element { .. }, FormattingEntry::Marker) => false,
    }
}

pub(crate) fn same_original(original: Option<Mode>, other: Option<Mode>) -> bool
    ensures { IsTrue result ↔ (original ≡ other) }
{
    match (original, other) {
        (None, None) => true,
        (Some(mode), Some(other)) => mode == other,
        _ => false,
    }
}

/// Whether the two lists have the same entries.
pub(crate) fn same_entries(list: &Stack<FormattingEntry>, other: &Stack<FormattingEntry>) -> bool
    ensures { IsTrue result ↔ (list.now ≡ other.now) }
{
    if list.len() != other.len() {
        return false;
    }
    for depth in 0..list.len() {
        if !same_entry(list.at(depth), other.at(depth)) {
            return false;
        }
    }
    true
}

/// Whether the two stacks have the same template modes.
pub(crate) fn same_templates(modes: &Stack<Mode>, other: &Stack<Mode>) -> bool
    ensures { IsTrue result ↔ (modes.now ≡ other.now) }
{
    if modes.len() != other.len() {
        return false;
    }
    for depth in 0..modes.len() {
        if *modes.at(depth) != *other.at(depth) {
            return false;
        }
    }
    true
}
