//! Walks over a stack and over a formatting list, from a depth on.
ghost use Rattle.std.specs.Prelude.{◌≡◌, ◌+◌, ◌<◌, ◌≤◌, ◌^◌, IfSome, length, drop, min};
ghost use Rattle.std.specs.List.{list_any};
ghost use Rattle.hp_control.specs.States.{is_template};
ghost use Rattle.hp_control.specs.Walks.{reach, run_of, open_at, scope_at, cleared, cleared_by, last_named, has_entry, equals_of};

use crate::element::FormattingEntry;
use crate::kinds::{is_named, is_within};
use crate::open_elements::OpenElements;
use crate::spelled::same_name;
use crate::stack::Stack;
use crate::tags::same_tag;
use hp_elements::{Kinds, Known, Name, SetName, Tag};

/// How many elements stand from this depth down to the first that is a goal or a stop; `None` where that is no goal.
pub fn reach_from(stack: &OpenElements, depth: usize, goals: &Kinds, stops: &Kinds) -> Option<usize>
    ensures reach { result ≡ reach goals.now stops.now (drop depth stack.now) }
    ensures short { IfSome result (λ found. depth + found < 2 ^ 64) }
{
    for at in depth..stack.len() {
        let element = stack.at(at);
        if is_within(goals, element) {
            return Some(at - depth);
        }
        if is_within(stops, element) {
            return None;
        }
    }
    None
}

/// How many elements from this depth on are of these kinds, one after the other.
pub fn run_from(stack: &OpenElements, depth: usize, names: &Kinds) -> usize
    ensures { result ≡ run_of names.now (drop depth stack.now) }
{
    for at in depth..stack.len() {
        if !is_within(names, stack.at(at)) {
            return at - depth;
        }
    }
    stack.len().saturating_sub(depth)
}

/// Whether an HTML `template` stands at this depth or below.
pub fn has_template(stack: &OpenElements, depth: usize) -> bool
    ensures { result ≡ list_any is_template (drop depth stack.now) }
{
    for at in depth..stack.len() {
        if is_named(Known::TEMPLATE, stack.at(at)) {
            return true;
        }
    }
    false
}

/// How many elements stand from this depth down to the one of this id.
pub fn open_from(stack: &OpenElements, depth: usize, id: u64) -> Option<usize>
    ensures { result ≡ open_at id (drop depth stack.now) }
{
    for at in depth..stack.len() {
        if stack.at(at).id == id {
            return Some(at - depth);
        }
    }
    None
}

/// How many elements stand from this depth down to the one of this id, where no end of a scope stands above it.
pub fn scope_from(stack: &OpenElements, depth: usize, id: u64) -> Option<usize>
    ensures scope { result ≡ scope_at id (drop depth stack.now) }
    ensures short { IfSome result (λ found. depth + found < 2 ^ 64) }
{
    for at in depth..stack.len() {
        let element = stack.at(at);
        if element.id == id {
            return Some(at - depth);
        }
        if SetName::DefaultScopeEnds.has(element.namespace, &element.name) {
            return None;
        }
    }
    None
}

/// Where the list goes on after one more clearing.
pub fn next_cut(list: &Stack<FormattingEntry>, from: usize) -> usize
    requires { from ≤ length list.now }
    ensures within { result ≤ length list.now }
    ensures cleared { drop result list.now ≡ cleared (drop from list.now) }
{
    for at in from..list.len() {
        if let FormattingEntry::Marker = list.at(at) {
            return at + 1;
        }
    }
    list.len()
}

/// Where the list goes on after so many clearings.
pub fn cleared_from(list: &Stack<FormattingEntry>, cuts: u64) -> usize
    ensures within { result ≤ length list.now }
    ensures cleared { drop result list.now ≡ cleared_by cuts list.now }
{
    // Each clearing takes an entry at least, so as many as there are entries leave none.
    if cuts >= list.len() as u64 {
        return list.len();
    }
    let mut gone = 0;
    for _cut in 0..cuts {
        gone = next_cut(list, gone);
    }
    gone
}

/// The id of the last entry of the name before the next marker.
pub fn last_named_from(list: &Stack<FormattingEntry>, from: usize, name: &Name) -> Option<u64>
    ensures { result ≡ last_named name.now (drop from list.now) }
{
    for at in from..list.len() {
        match list.at(at) {
            FormattingEntry::Marker => return None,
            FormattingEntry::Element { id, tag } => {
                if same_name(name, &tag.name) {
                    return Some(*id);
                }
            }
        }
    }
    None
}

/// Whether an entry has this id.
pub fn has_entry_from(list: &Stack<FormattingEntry>, from: usize, wanted: u64) -> bool
    ensures { result ≡ has_entry wanted (drop from list.now) }
{
    for at in from..list.len() {
        if let FormattingEntry::Element { id, .. } = list.at(at)
            && *id == wanted
        {
            return true;
        }
    }
    false
}

/// How many entries before the next marker are equal to the tag, at most 3.
pub fn equals_from(list: &Stack<FormattingEntry>, from: usize, tag: &Tag) -> u64
    ensures { result ≡ min 3 (equals_of tag.now (drop from list.now)) }
{
    let mut count = 0;
    for at in from..list.len() {
        match list.at(at) {
            FormattingEntry::Marker => return count,
            FormattingEntry::Element { tag: other, .. } => {
                if count < 3 && same_tag(tag, other) {
                    count += 1;
                }
            }
        }
    }
    count
}
