//! Links among the nodes of one list.

ghost use Rattle.std.specs.Prelude.{◌≡◌, ◌<◌, length};
ghost use Rattle.hp_store.specs.Numbers.{counted};
ghost use Rattle.hp_store.specs.Lists.{node_at};
ghost use Rattle.hp_store.specs.Parts.{IsPutBetween};

use crate::node::{Node, own_number};

/// Puts a node that is alone before another.
#[inline(always)]
pub fn put_between(nodes: &mut [Node], at: u32, node: u32)
    requires at_in { at < length nodes.old }
    requires node_in { node < length nodes.old }
    requires before_in { counted 0 (node_at nodes.old at).prev < length nodes.old }
    ensures put { IsPutBetween nodes.old nodes.new at node }
    ensures count { length nodes.new ≡ length nodes.old }
{
    let before = own_number(nodes[at as usize].prev);
    nodes[before as usize].next = node;
    nodes[node as usize].prev = before;
    nodes[node as usize].next = at;
    nodes[at as usize].prev = node;
}
