//! Walks over a view's own stack and its own list, the top first.
ghost use Rattle.std.specs.Prelude.{◌≡◌, drop};
ghost use Rattle.hp_views.specs.Walks.{walk_of, run_walk, id_walk, id_scope_walk, id_entry_walk, marker_of, entry_walk, IsWithin, EndsAs};

use hp_control::{FormattingEntry, OpenElements, Stack, is_within, same_name};
use hp_elements::{Kinds, Name, SetName};

/// Where a walk ended: at a goal, at a stop, or below the last of its own.
#[derive(Clone, Copy)]
pub enum Walk {
    Found(usize),
    Stopped,
    PastAll,
}

/// Walks down to the first element that is a goal or a stop.
#[inline(always)]
pub fn element_walk(stack: &OpenElements, goals: &Kinds, stops: &Kinds) -> Walk
    ensures walk { result ≡ walk_of goals.now stops.now stack.now }
    ensures within { IsWithin result stack.now }
{
    for depth in 0..stack.len() {
        let element = stack.at(depth);
        if is_within(goals, element) {
            return Walk::Found(depth);
        }
        if is_within(stops, element) {
            return Walk::Stopped;
        }
    }
    Walk::PastAll
}

/// Walks down from a depth to the first element that is a goal or a stop; where it is found doesn't count from there.
pub fn element_walk_from(stack: &OpenElements, from: usize, goals: &Kinds, stops: &Kinds) -> Walk
    ensures { EndsAs (walk_of goals.now stops.now (drop from stack.now)) result }
{
    for depth in from..stack.len() {
        let element = stack.at(depth);
        if is_within(goals, element) {
            return Walk::Found(depth);
        }
        if is_within(stops, element) {
            return Walk::Stopped;
        }
    }
    Walk::PastAll
}

/// Walks down to the first element that is not of these kinds.
#[inline(always)]
pub fn run_of_walk(stack: &OpenElements, names: &Kinds) -> Walk
    ensures walk { result ≡ run_walk names.now stack.now }
    ensures within { IsWithin result stack.now }
{
    for depth in 0..stack.len() {
        if !is_within(names, stack.at(depth)) {
            return Walk::Found(depth);
        }
    }
    Walk::PastAll
}

/// Walks down to the element of this id, at most as far as one may stand.
pub fn open_walk(stack: &OpenElements, id: u64) -> Walk
    ensures walk { result ≡ id_walk id stack.now }
    ensures within { IsWithin result stack.now }
{
    for depth in 0..stack.len() {
        if stack.highest_from(depth) < id {
            return Walk::PastAll;
        }
        if stack.at(depth).id == id {
            return Walk::Found(depth);
        }
    }
    Walk::PastAll
}

/// Walks down to the element of this id, or to the first that ends a scope.
pub fn scope_walk(stack: &OpenElements, id: u64) -> Walk
    ensures walk { result ≡ id_scope_walk id stack.now }
    ensures within { IsWithin result stack.now }
{
    for depth in 0..stack.len() {
        let element = stack.at(depth);
        if element.id == id {
            return Walk::Found(depth);
        }
        if is_within(&Kinds::Set(SetName::DefaultScopeEnds), element) {
            return Walk::Stopped;
        }
    }
    Walk::PastAll
}

/// Walks down to the entry of this id.
pub fn listed_walk(list: &Stack<FormattingEntry>, wanted: u64) -> Walk
    ensures walk { result ≡ id_entry_walk wanted list.now }
    ensures within { IsWithin result list.now }
{
    for depth in 0..list.len() {
        if let FormattingEntry::Element { id, .. } = list.at(depth)
            && *id == wanted
        {
            return Walk::Found(depth);
        }
    }
    Walk::PastAll
}

/// Walks down to the last marker.
pub fn marker_walk(list: &Stack<FormattingEntry>) -> Walk
    ensures walk { result ≡ marker_of list.now }
    ensures within { IsWithin result list.now }
{
    for depth in 0..list.len() {
        if let FormattingEntry::Marker = list.at(depth) {
            return Walk::Found(depth);
        }
    }
    Walk::PastAll
}

/// Walks down to the last entry of that name, or to the last marker.
#[inline(always)]
pub fn name_walk(list: &Stack<FormattingEntry>, name: &Name) -> Walk
    ensures walk { result ≡ entry_walk name.now list.now }
    ensures within { IsWithin result list.now }
{
    for depth in 0..list.len() {
        match list.at(depth) {
            FormattingEntry::Marker => return Walk::Stopped,
            FormattingEntry::Element { tag, .. } => {
                if same_name(name, &tag.name) {
                    return Walk::Found(depth);
                }
            }
        }
    }
    Walk::PastAll
}
