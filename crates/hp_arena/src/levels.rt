//! How many levels stand above the lines of a tree's text.

ghost use Rattle.std.specs.Prelude.{◌≡◌, ◌+◌, ◌*◌, ◌<◌, ◌^◌, length, IfSome};
ghost use Rattle.std.specs.Option.{option_map};
ghost use Rattle.hp_arena.specs.Levels.{counted, deepest_from, level_after, link_at, onward, summed_from};
ghost use Rattle.hp_arena.specs.Nodes.{IsClosed};

use hp_store::{Kind, Store};

/// The levels above all items that the links lead to from the document, and those above the deepest for so many more.
#[inline(never)]
pub fn summed_levels(store: &Store<'_>, more: u64) -> u64
    requires { IsClosed store.now.nodes }
    ensures { result ≡ counted (summed_from store.now.nodes (length store.now.nodes) 1 0 + deepest_from store.now.nodes (length store.now.nodes) 1 0 * more) }
{
    let count = store.counts().nodes;
    let mut level = 0u64;
    let mut deepest = 0u64;
    let mut sum = 0u64;
    let mut at = 1u32;
    let mut part = 0u32;
    for _turn in 0..count {
        let Some(link) = link_at(store, count, at, part) else {
            return with_more(sum, deepest, more);
        };
        sum = sum.saturating_add(level);
        level = level_after(link.1, level);
        deepest = deepest.max(level);
        at = onward(link.1, link.0);
        part = link.2;
    }
    with_more(sum, deepest, more)
}

/// Where the link of a node leads, to what, and in which part. `None` where one of the two nodes isn't there.
#[inline(always)]
fn link_at(store: &Store<'_>, count: u32, at: u32, near: u32) -> Option<(u32, Kind, u32)>
    requires count { count ≡ length store.now.nodes }
    requires closed { IsClosed store.now.nodes }
    ensures link { option_map (λ link. record { to = link.0; kind = link.1 }) result ≡ link_at store.now.nodes at }
    ensures to { IfSome result (λ link. link.0 < length store.now.nodes) }
{
    if count <= at {
        return None;
    }
    let (node, part) = store.node_near(at, near);
    let (next, part) = store.node_near(node.next, part);
    Some((node.next, next.kind, part))
}

/// The node from which the way goes on behind one of this kind.
#[inline(always)]
fn onward(kind: Kind, at: u32) -> u32
    requires { at + 1 < 2 ^ 32 }
    ensures { result ≡ onward kind at }
{
    match kind {
        Kind::Leaf(_) => at,
        Kind::Element(_) => at + 1,
        Kind::End(_) => at.saturating_sub(1),
    }
}

/// The level there.
#[inline(always)]
fn level_after(kind: Kind, level: u64) -> u64
    requires { level + 1 < 2 ^ 64 }
    ensures { result ≡ level_after kind level }
{
    match kind {
        Kind::Leaf(_) => level,
        Kind::Element(_) => level + 1,
        Kind::End(_) => level.saturating_sub(1),
    }
}

/// A sum, and the deepest level for each of so many more.
fn with_more(sum: u64, deepest: u64, more: u64) -> u64
    ensures { result ≡ counted (sum + deepest * more) }
{
    sum.saturating_add(deepest.saturating_mul(more))
}
