//! The lists of a tree.

ghost use Rattle.std.specs.Prelude.{◌≡◌, ◌≢◌, ◌+◌, ◌<◌, ◌≤◌, ◌^◌, ◌++◌, [], ◌∷◌, true, false, length, All, OnOk, OnErr, IfOk, IfErr, Some, vec_len};
ghost use Rattle.hp_control.specs.Tree.{with_attributes};
ghost use Rattle.hp_store.specs.Store.{HasFree, KeepsFree};
ghost use Rattle.hp_store.specs.Lists.{node_at, alone, element_nodes, leaf_nodes, with_link, linked, put_between, document, node_of, tag_at, with_tag_at, attribute_count, leaf_at};
ghost use Rattle.hp_store.specs.Leaves.{run_count, is_text_of, IsCell, IsTextAdded};
ghost use Rattle.hp_store.specs.Grafting.{IsAppended};

use crate::appending::{finish, hang, move_all, retire};
use crate::depth::deepest_from;
use crate::finding::{element_part, leaf_part, node_part, part_at};
use crate::node::{Counts, Kind, Node, Side, alone};
use crate::part::{Leaf, Part};
use hp_elements::{Attribute, Chain, Tag, Text};
use std::alloc::{AllocError, Global};
use std::marker::Model;

/// The lists of a tree: its nodes, elements and leaves. They consist of parts that were each made by itself, and callers see them as plain
/// lists with their places as numbers. New items go to the last part. The document is the element 0; its node is the first one, and its
/// children end at the second.
#[derive(Drop)]
pub struct Store<'p> {
    /// The finished parts.
    parts: Vec<Part<'p>>,
    /// The part that grows.
    last: Part<'p>,
    /// The number of a part in which a node is looked for before others: nothing is promised of it.
    recent: u32,
}

impl<'p> Model for Store<'p> {
    ghost use Rattle.hp_store.specs.Store.{Stored};

    ghost Value = { Stored };

    ghost use Rattle.hp_store.specs.Whole.{seen, IsSound};

    ghost view = { seen };

    ghost invariant = { IsSound };
}

impl<'p> Store<'p> {
    /// The document alone, with memory for about so many elements and leaves.
    pub fn start(alloc: Global, room: usize) -> Result<Store<'p>, AllocError>
        requires some { 0 < room }
        requires few { room < 2 ^ 31 }
        ensures nodes { IfOk result (λ store. store.nodes ≡ element_nodes 0 0) }
        ensures elements { IfOk result (λ store. store.elements ≡ document ∷ []) }
        ensures leaves { IfOk result (λ store. store.leaves ≡ []) }
    {
        let mut last = Part::with_room(alloc, Counts::none(), room)?;
        last.nodes.push_reserved(alone(0, Kind::Element(0)));
        last.nodes.push_reserved(alone(1, Kind::End(0)));
        Ok(Store {
            parts: Vec::new(alloc),
            last,
            recent: 0,
        })
    }

    /// Makes room for so many more elements and leaves.
    pub fn reserve(&mut self, room: usize) -> Result<(), AllocError>
        requires { room ≤ 2 ^ 29 }
        ensures lists { self.new ≡ record self.old { free = self.new.free } }
        ensures kept { KeepsFree self.old.free self.new.free }
        ensures room { OnOk result (HasFree self.new.free room) }
    {
        self.last.widen(room)
    }

    /// Gives the memory back in which nothing stands.
    pub fn shrink(&mut self)
        ensures { self.new ≡ record self.old { free = self.new.free } }
    {
        self.last.shrink();
    }

    /// How many nodes, elements other than the document and leaves there are.
    #[inline(always)]
    pub fn counts(&self) -> Counts
        ensures nodes { result.nodes ≡ length self.now.nodes }
        ensures elements { result.elements + 1 ≡ length self.now.elements }
        ensures leaves { result.leaves ≡ length self.now.leaves }
    {
        self.last.end()
    }

    /// The node at this place.
    #[inline(always)]
    pub fn node(&self, at: u32) -> Node
        requires { at < length self.now.nodes }
        ensures { result ≡ node_at self.now.nodes at }
    {
        if self.parts.is_empty() {
            return self.last.own_node(at);
        }
        self.node_near(at, self.recent).0
    }

    /// The node at this place. It is looked for in the part that grows first, then in the newest finished one.
    #[inline(always)]
    pub fn late_node(&self, at: u32) -> Node
        requires { at < length self.now.nodes }
        ensures { result ≡ node_at self.now.nodes at }
    {
        if self.parts.is_empty() {
            return self.last.own_node(at);
        }
        match self.last.node(at) {
            Some(node) => node,
            None => self.node_near(at, self.newest()).0,
        }
    }

    /// The number of the newest finished part, if there is one.
    #[inline(always)]
    fn newest(&self) -> u32 {
        (self.parts.len() as u32).wrapping_sub(1)
    }

    /// The node at this place, and the number of the part in which it stands. It is looked for in the part of the given number first.
    #[inline(always)]
    pub fn node_near(&self, at: u32, near: u32) -> (Node, u32)
        requires { at < length self.now.nodes }
        ensures { result.0 ≡ node_at self.now.nodes at }
    {
        if self.parts.is_empty() {
            return (self.last.own_node(at), near);
        }
        match part_at(&self.parts, &self.last, near).node(at) {
            Some(node) => (node, near),
            None => self.far_node(at, near),
        }
    }

    /// The node at this place, and the number of the part in which it stands. It is looked for near the part of the given number first.
    #[inline(always)]
    fn far_node(&self, at: u32, near: u32) -> (Node, u32)
        requires { at < length self.now.nodes }
        ensures { result.0 ≡ node_at self.now.nodes at }
    {
        let number = node_part(&self.parts, &self.last, at, near);
        match part_at(&self.parts, &self.last, number).node(at) {
            Some(node) => (node, number),
            None => unreachable!(),
        }
    }

    /// How many levels stand above the deepest item of a tree's text. Nothing is promised of it.
    pub fn deepest(&self) -> u64 {
        if self.counts().nodes < 2 {
            return 0;
        }
        deepest_from(&self.parts, &self.last, self.node(1).next)
    }

    /// The node of the element of this id.
    #[inline(always)]
    pub fn node_of(&self, id: u32) -> u32
        requires { id < length self.now.elements }
        ensures { result ≡ node_of self.now.elements id }
    {
        let last = &self.last;
        if id == 0 {
            return 0;
        }
        if self.parts.is_empty() {
            return last.own_node_of(id);
        }
        self.node_of_near(id, self.recent)
    }

    /// The node of the element of this id, which isn't the document. It is looked for in the newest finished part first.
    #[inline(always)]
    pub fn late_node_of(&self, id: u32) -> u32
        requires some { 0 < id }
        requires id_in { id < length self.now.elements }
        ensures { result ≡ node_of self.now.elements id }
    {
        if self.parts.is_empty() {
            return self.last.own_node_of(id);
        }
        self.node_of_near(id, self.newest())
    }

    /// The node of the element of this id, which isn't the document. It is looked for in the part of the given number first.
    #[inline(always)]
    fn node_of_near(&self, id: u32, near: u32) -> u32
        requires some { 0 < id }
        requires id_in { id < length self.now.elements }
        ensures { result ≡ node_of self.now.elements id }
    {
        match part_at(&self.parts, &self.last, near).node_of(id) {
            Some(node) => node,
            None => self.far_node_of(id),
        }
    }

    /// The node of the element of this id, which isn't the document.
    #[inline(never)]
    fn far_node_of(&self, id: u32) -> u32
        requires some { 0 < id }
        requires id_in { id < length self.now.elements }
        ensures { result ≡ node_of self.now.elements id }
    {
        let last = &self.last;
        let number = element_part(&self.parts, last, id, self.recent);
        match part_at(&self.parts, last, number).node_of(id) {
            Some(node) => node,
            None => unreachable!(),
        }
    }

    /// The tag of the element of this id, which isn't the document. It is looked for in the part of the given number first.
    #[inline(always)]
    pub fn tag_near(&self, id: u32, near: u32) -> &Tag
        requires id_in { id < length self.now.elements }
        requires apart { id ≢ 0 }
        ensures { tag_at self.now.elements id ≡ Some result.now }
    {
        if self.parts.is_empty() {
            return self.last.own_tag(id);
        }
        match part_at(&self.parts, &self.last, near).tag(id) {
            Some(tag) => tag,
            None => self.far_tag(id),
        }
    }

    /// The tag of the element of this id, which isn't the document.
    #[inline(never)]
    fn far_tag(&self, id: u32) -> &Tag
        requires id_in { id < length self.now.elements }
        requires apart { id ≢ 0 }
        ensures { tag_at self.now.elements id ≡ Some result.now }
    {
        let number = element_part(&self.parts, &self.last, id, self.recent);
        match part_at(&self.parts, &self.last, number).tag(id) {
            Some(tag) => tag,
            None => unreachable!(),
        }
    }

    /// The leaf of this number. It is looked for in the part that grows first.
    #[inline(always)]
    pub fn leaf(&self, number: u32) -> &Leaf<'p>
        requires { number < length self.now.leaves }
        ensures { result.now ≡ leaf_at self.now.leaves number }
    {
        if self.parts.is_empty() {
            return &self.last.leaves[number as usize];
        }
        self.leaf_near(number, self.parts.len() as u32)
    }

    /// The leaf of this number. It is looked for in the part of the given number first.
    #[inline(always)]
    pub fn leaf_near(&self, number: u32, near: u32) -> &Leaf<'p>
        requires { number < length self.now.leaves }
        ensures { result.now ≡ leaf_at self.now.leaves number }
    {
        if self.parts.is_empty() {
            return &self.last.leaves[number as usize];
        }
        let Some(leaf) = part_at(&self.parts, &self.last, near).leaf(number) else {
            return self.far_leaf(number);
        };
        leaf
    }

    /// The leaf of this number.
    #[inline(never)]
    fn far_leaf(&self, number: u32) -> &Leaf<'p>
        requires { number < length self.now.leaves }
        ensures { result.now ≡ leaf_at self.now.leaves number }
    {
        let part = leaf_part(&self.parts, &self.last, number);
        match part_at(&self.parts, &self.last, part).leaf(number) {
            Some(leaf) => leaf,
            None => unreachable!(),
        }
    }

    /// Makes the second node the one after the first.
    #[inline(always)]
    pub fn join(&mut self, first: u32, second: u32)
        requires first_in { first < length self.old.nodes }
        requires second_in { second < length self.old.nodes }
        ensures { self.new ≡ record self.old { nodes = linked self.old.nodes first second } }
    {
        let near = self.recent;
        let _ = self.link(Side::Next, first, second, near);
        let _ = self.link(Side::Prev, second, first, near);
    }

    /// Makes another node the one on this side of this one, which is looked for in the part that grows first, then in the one of the given
    /// number. The number of the finished part in which it stands comes back, or else the given one.
    #[inline(always)]
    fn link(&mut self, side: Side, at: u32, to: u32, near: u32) -> u32
        requires { at < length self.old.nodes }
        ensures { self.new ≡ record self.old { nodes = with_link side self.old.nodes at to } }
    {
        if self.last.link(side, at, to) {
            return near;
        }
        link_finished(&mut self.parts, &self.last, side, at, to, near)
    }

    /// Puts a node that is alone before another, where the caller knows which node is before that.
    #[inline(always)]
    pub fn put_between(&mut self, before: u32, at: u32, node: u32)
        requires at_in { at < length self.old.nodes }
        requires node_in { node < length self.old.nodes }
        requires before_in { before < length self.old.nodes }
        requires before { (node_at self.old.nodes at).prev ≡ before }
        ensures { self.new ≡ record self.old { nodes = put_between self.old.nodes at node } }
    {
        if self.parts.is_empty() {
            self.last.put_own_before(at, node);
            return;
        }
        self.link_between(before, at, node);
    }

    /// Links two nodes with one between them. It and the first are looked for in the newest parts first.
    #[inline(always)]
    fn link_between(&mut self, before: u32, at: u32, node: u32)
        requires before_in { before < length self.old.nodes }
        requires at_in { at < length self.old.nodes }
        requires node_in { node < length self.old.nodes }
        ensures { self.new ≡ record self.old { nodes = linked (linked self.old.nodes before node) node at } }
    {
        let newest = self.newest();
        let _ = self.link(Side::Next, before, node, newest);
        let _ = self.link(Side::Prev, node, before, newest);
        let _ = self.link(Side::Next, node, at, newest);
        self.recent = self.link(Side::Prev, at, node, self.recent);
    }

    /// Appends a text to the leaf of this number, which is a text.
    #[inline(always)]
    pub fn add_text(&mut self, number: u32, cells: &mut Vec<Chain<Text<'p>>>, text: Text<'p>)
        requires number_in { number < length self.old.leaves }
        requires is_text { is_text_of (leaf_at self.old.leaves number) ≡ true }
        requires room { run_count (leaf_at self.old.leaves number) + 1 < 2 ^ 63 }
        requires some { 0 < vec_len cells.old }
        requires cell { All IsCell cells.old.items }
        ensures leaves { IsTextAdded self.old.leaves self.new.leaves number text.entry }
        ensures lists { self.new ≡ record self.old { leaves = self.new.leaves } }
        ensures len { vec_len cells.old ≤ vec_len cells.new + 1 }
        ensures cell { All IsCell cells.new.items }
    {
        if self.last.before.leaves <= number {
            self.last.add_text(number, cells, text);
            return;
        }
        let part = leaf_part(&self.parts, &self.last, number);
        self.parts[part as usize].add_text(number, cells, text);
    }

    /// Adds the attributes that the element of this id doesn't have. The document has none and gets none.
    pub fn add_attributes(&mut self, id: u32, more: Chain<Attribute>)
        requires id_in { id < length self.old.elements }
        requires room { attribute_count (tag_at self.old.elements id) + length more < 2 ^ 63 }
        ensures { self.new ≡ record self.old { elements = with_tag_at self.old.elements id (with_attributes (tag_at self.old.elements id) more) } }
    {
        if self.last.before.elements < id {
            self.last.add_attributes(id, more);
            return;
        }
        if id == 0 {
            return;
        }
        let part = element_part(&self.parts, &self.last, id, self.recent);
        self.parts[part as usize].add_attributes(id, more);
    }

    /// Appends an element, whose node and end are the last nodes, each in no list of children.
    #[inline(always)]
    pub fn push_element(&mut self, tag: Tag)
        requires nodes_free { 2 ≤ self.old.free.nodes }
        requires elements_free { 1 ≤ self.old.free.elements }
        requires nodes_fit { length self.old.nodes + 2 < 2 ^ 32 }
        requires elements_fit { length self.old.elements + 1 < 2 ^ 32 }
        ensures nodes { self.new.nodes ≡ self.old.nodes ++ element_nodes (length self.old.nodes) (length self.old.elements) }
        ensures elements { self.new.elements ≡ self.old.elements ++ record { tag = Some tag; node = length self.old.nodes } ∷ [] }
        ensures leaves { self.new.leaves ≡ self.old.leaves }
        ensures nodes_left { self.old.free.nodes ≤ self.new.free.nodes + 2 }
        ensures elements_left { self.old.free.elements ≤ self.new.free.elements + 1 }
        ensures leaves_left { self.new.free.leaves ≡ self.old.free.leaves }
    {
        self.last.push_element(tag);
    }

    /// Appends a leaf, whose node is the last one, in no list of children.
    #[inline(always)]
    pub fn push_leaf(&mut self, leaf: Leaf<'p>)
        requires nodes_free { 1 ≤ self.old.free.nodes }
        requires leaves_free { 1 ≤ self.old.free.leaves }
        requires nodes_fit { length self.old.nodes + 1 < 2 ^ 32 }
        requires leaves_fit { length self.old.leaves + 1 < 2 ^ 32 }
        ensures nodes { self.new.nodes ≡ self.old.nodes ++ leaf_nodes (length self.old.nodes) (length self.old.leaves) }
        ensures leaves { self.new.leaves ≡ self.old.leaves ++ leaf.entry ∷ [] }
        ensures elements { self.new.elements ≡ self.old.elements }
        ensures nodes_left { self.old.free.nodes ≤ self.new.free.nodes + 1 }
        ensures leaves_left { self.old.free.leaves ≤ self.new.free.leaves + 1 }
        ensures elements_left { self.new.free.elements ≡ self.old.free.elements }
    {
        self.last.push_leaf(leaf);
    }

    /// Hangs the parts of another store behind these, with at least as much room behind them. The document's nodes there become ends of no
    /// list. No other item of it is touched. There is no memory also where 32 bits aren't enough to number the parts; the other store
    /// comes back then.
    pub fn append(&mut self, alloc: Global, other: Store<'p>) -> Result<(), Store<'p>>
        requires nodes_fit { length self.old.nodes + length other.nodes ≤ 2 ^ 30 }
        requires elements_fit { length self.old.elements + length other.elements ≤ 2 ^ 30 }
        requires leaves_fit { length self.old.leaves + length other.leaves ≤ 2 ^ 30 }
        ensures lists { OnOk result (IsAppended self.old other.entry self.new) }
        ensures free { OnOk result (KeepsFree self.old.free self.new.free) }
        ensures unchanged { OnErr result (self.new ≡ self.old) }
        ensures back { IfErr result (λ back. back ≡ other.entry) }
    {
        if finish(
            alloc,
            &mut self.parts,
            &mut self.last,
            other.parts.len() + 2,
        )
        .is_err()
        {
            return Err(other);
        }
        let before = self.last.before;
        let Store {
            mut parts,
            mut last,
            recent: _,
        } = other;
        retire(&mut parts, &mut last);
        move_all(&mut parts, before);
        last.move_behind(before);
        self.last.before = last.end();
        hang(&mut self.parts, parts, last);
        Ok(())
    }
}

ghost use Rattle.hp_store.specs.Numbers.{no_counts, Fits};
ghost use Rattle.hp_store.specs.Parts.{end_of, AreLaid};
ghost use Rattle.hp_store.specs.Whole.{all_nodes, KeepsPartsAside};

/// Makes another node the one on this side of this one, if this one stands in the finished part of this number. Whether it does.
#[inline(always)]
fn link_in(
    parts: &mut [Part<'_>],
    last: &Part<'_>,
    side: Side,
    at: u32,
    to: u32,
    number: u32,
) -> bool
    requires laid { AreLaid no_counts (parts.old ++ last.now ∷ []) }
    requires fits { Fits (end_of last.now) }
    ensures nodes { result ≡ true → all_nodes parts.new last.now ≡ with_link side (all_nodes parts.old last.now) at to }
    ensures kept { result ≡ true → KeepsPartsAside last.now parts.old parts.new }
    ensures unchanged { result ≡ false → parts.new ≡ parts.old }
{
    let _ = last;
    let place = number as usize;
    if place >= parts.len() {
        return false;
    }
    parts[place].link(side, at, to)
}

/// Makes another node the one on this side of this one, which stands in a finished part. It is looked for in the part of the given number
/// first. The number of its part comes back.
#[inline(always)]
fn link_finished(
    parts: &mut [Part<'_>],
    last: &Part<'_>,
    side: Side,
    at: u32,
    to: u32,
    near: u32,
) -> u32
    requires laid { AreLaid no_counts (parts.old ++ last.now ∷ []) }
    requires few { length parts.old < 2 ^ 32 }
    requires fits { Fits (end_of last.now) }
    requires at_in { at < last.now.before.nodes }
    ensures nodes { all_nodes parts.new last.now ≡ with_link side (all_nodes parts.old last.now) at to }
    ensures kept { KeepsPartsAside last.now parts.old parts.new }
{
    if link_in(parts, last, side, at, to, near) {
        return near;
    }
    link_far(parts, last, side, at, to, near)
}

/// Makes another node the one on this side of this one, which stands in a finished part, whose number comes back.
#[inline(never)]
fn link_far(parts: &mut [Part<'_>], last: &Part<'_>, side: Side, at: u32, to: u32, near: u32) -> u32
    requires laid { AreLaid no_counts (parts.old ++ last.now ∷ []) }
    requires few { length parts.old < 2 ^ 32 }
    requires fits { Fits (end_of last.now) }
    requires at_in { at < last.now.before.nodes }
    ensures nodes { all_nodes parts.new last.now ≡ with_link side (all_nodes parts.old last.now) at to }
    ensures kept { KeepsPartsAside last.now parts.old parts.new }
{
    let number = node_part(parts, last, at, near);
    let _ = parts[number as usize].link(side, at, to);
    number
}
