//! The links among nodes. Each list of children is a ring that starts and ends at the `End` node of its
//! element. A node outside every list is a ring by itself. So no link is ever empty, and no edit has a
//! case for a first or a last child.

ghost use Rattle.std.specs.Prelude.{◌≡◌, ◌<◌, length};
ghost use Rattle.hp_arena.specs.Nodes.{links_of, IsClosed, IsRinged, IsRelinked};
ghost use Rattle.hp_arena.specs.Ring.{joined, unlinked, spliced};

use hp_store::{Node, Store};

/// Takes a node out of its ring.
#[inline(always)]
pub fn unlink(store: &mut Store<'_>, node: u32)
    requires node_in { node < length store.old.nodes }
    requires closed { IsClosed store.old.nodes }
    requires ringed { IsRinged store.old.nodes }
    ensures nodes { IsRelinked store.old.nodes store.new.nodes (unlinked (links_of store.old.nodes) node) }
    ensures rest { store.new ≡ record store.old { nodes = store.new.nodes } }
{
    let Node { prev, next, .. } = store.late_node(node);
    if next == node {
        return;
    }
    unlink_other(store, prev, node, next);
}

/// Takes a node that isn't alone out of its ring.
#[inline(never)]
fn unlink_other(store: &mut Store<'_>, prev: u32, node: u32, next: u32)
    requires prev_in { prev < length store.old.nodes }
    requires node_in { node < length store.old.nodes }
    requires next_in { next < length store.old.nodes }
    requires closed { IsClosed store.old.nodes }
    ensures nodes { IsRelinked store.old.nodes store.new.nodes (joined (joined (links_of store.old.nodes) prev next) node node) }
    ensures rest { store.new ≡ record store.old { nodes = store.new.nodes } }
{
    store.join(prev, next);
    store.join(node, node);
}

/// Puts all that stands in the ring of one node, which isn't alone, before another node.
pub fn splice(store: &mut Store<'_>, source: u32, target: u32)
    requires source_in { source < length store.old.nodes }
    requires target_in { target < length store.old.nodes }
    requires closed { IsClosed store.old.nodes }
    ensures nodes { IsRelinked store.old.nodes store.new.nodes (spliced (links_of store.old.nodes) source target) }
    ensures rest { store.new ≡ record store.old { nodes = store.new.nodes } }
{
    let Node { prev, next, .. } = store.node(source);
    let before = store.node(target).prev;
    store.join(before, next);
    store.join(prev, target);
    store.join(source, source);
}
