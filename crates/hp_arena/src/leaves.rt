//! What has no children: texts, comments and doctypes.

ghost use Rattle.std.specs.Prelude.{◌≡◌, ◌+◌, ◌<◌, ◌≤◌, ◌^◌, ◌++◌, [], ◌∷◌, length, false, MatchOption};
ghost use Rattle.hp_arena.specs.Leaves.{is_text_leaf, IsLeafIn, IsTextAt};
ghost use Rattle.hp_arena.specs.Nodes.{kind_of, IsClosed};
ghost use Rattle.hp_arena.specs.Shape.{IsLeafAdded};
ghost use Rattle.hp_store.specs.Lists.{node_at};

use hp_store::{Kind, Leaf, Store};

/// The number of the leaf that a node is, if that is a text.
#[inline(always)]
pub fn text_at(store: &Store<'_>, node: u32) -> Option<u32>
    requires node_in { node < length store.now.nodes }
    requires leaf_in { IsLeafIn (length store.now.leaves) (kind_of store.now.nodes node) }
    ensures { MatchOption result (is_text_leaf store.now.leaves (kind_of store.now.nodes node) ≡ false) (IsTextAt store.now.nodes store.now.leaves node) }
{
    if let Kind::Leaf(number) = store.late_node(node).kind {
        if let Leaf::Run(_) | Leaf::Text(_) = store.leaf(number) {
            return Some(number);
        }
    }
    None
}

/// Puts a new leaf before a node.
#[inline(always)]
pub fn add_leaf<'p>(store: &mut Store<'p>, at: u32, leaf: Leaf<'p>)
    requires nodes_room { 1 ≤ store.old.free.nodes }
    requires leaves_room { 1 ≤ store.old.free.leaves }
    requires node_fits { length store.old.nodes + 1 < 2 ^ 32 }
    requires number_fits { length store.old.leaves + 1 < 2 ^ 32 }
    requires at_in { at < length store.old.nodes }
    requires closed { IsClosed store.old.nodes }
    ensures nodes { IsLeafAdded store.old.nodes store.new.nodes (length store.old.leaves) at }
    ensures elements { store.new.elements ≡ store.old.elements }
    ensures leaves { store.new.leaves ≡ store.old.leaves ++ leaf.entry ∷ [] }
    ensures nodes_left { store.old.free.nodes ≤ store.new.free.nodes + 1 }
    ensures elements_left { store.old.free.elements ≤ store.new.free.elements }
    ensures leaves_left { store.old.free.leaves ≤ store.new.free.leaves + 1 }
{
    let before = store.node(at).prev;
    add_leaf_between(store, before, at, leaf);
}

/// Puts a new leaf before a node, where the caller knows which node is before that.
#[inline(always)]
pub fn add_leaf_between<'p>(store: &mut Store<'p>, before: u32, at: u32, leaf: Leaf<'p>)
    requires nodes_room { 1 ≤ store.old.free.nodes }
    requires leaves_room { 1 ≤ store.old.free.leaves }
    requires node_fits { length store.old.nodes + 1 < 2 ^ 32 }
    requires number_fits { length store.old.leaves + 1 < 2 ^ 32 }
    requires at_in { at < length store.old.nodes }
    requires before { (node_at store.old.nodes at).prev ≡ before }
    requires closed { IsClosed store.old.nodes }
    ensures nodes { IsLeafAdded store.old.nodes store.new.nodes (length store.old.leaves) at }
    ensures elements { store.new.elements ≡ store.old.elements }
    ensures leaves { store.new.leaves ≡ store.old.leaves ++ leaf.entry ∷ [] }
    ensures nodes_left { store.old.free.nodes ≤ store.new.free.nodes + 1 }
    ensures elements_left { store.old.free.elements ≤ store.new.free.elements }
    ensures leaves_left { store.old.free.leaves ≤ store.new.free.leaves + 1 }
{
    let node = store.counts().nodes;
    store.push_leaf(leaf);
    store.put_between(before, at, node);
}
