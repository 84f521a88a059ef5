//! One part of the lists.

ghost use Rattle.std.specs.Prelude.{◌≡◌, ◌+◌, ◌-◌, ◌<◌, ◌≤◌, ◌^◌, ◌++◌, [], ◌∷◌, true, false, length, All, IfOk, OnOk, OnErr, OnSome, IfNone, IfSome, Some, slice_set, vec_len, vec_capacity};
ghost use Rattle.hp_control.specs.Tree.{with_attributes};
ghost use Rattle.hp_store.specs.Numbers.{counted, no_counts, sum_of, way, Fits};
ghost use Rattle.hp_store.specs.Store.{HasFree};
ghost use Rattle.hp_store.specs.Lists.{node_at, with_link, node_of, tag_at, with_tag_at, attribute_count, leaf_at, element_nodes, leaf_nodes};
ghost use Rattle.hp_store.specs.Leaves.{run_count, is_text_of, IsCell, IsTextLonger};
ghost use Rattle.hp_store.specs.Parts.{part_nodes, part_elements, part_leaves, end_of, moved_part, free_of, HasNode, HasElement, HasLeaf, LacksNode, LacksElement, LacksLeaf, IsFresh, IsEmptied, IsWider, KeepsNodesAside, KeepsElementsAside, KeepsLeavesAside, IsPutBetween, SameItems};

use crate::attributes::add_attributes;
use crate::linking::put_between;
use crate::node::{Counts, Kind, Node, Side, alone, own_number};
use crate::runs::append_text;
use hp_elements::{Attribute, Chain, Doctype, Tag, Text};
use std::alloc::{AllocError, Global};

/// An element other than the document. Its own node is `node`, by the part's own count, and its children end at the node after that.
#[derive(Drop)]
pub struct Element {
    pub tag: Tag,
    pub node: u32,
}

/// What has no children.
#[derive(Drop)]
pub enum Leaf<'p> {
    /// A text of one run.
    Run(Text<'p>),
    /// A text of several runs, one after the other.
    Text(Chain<Text<'p>>),
    Comment(Text<'p>),
    Doctype(Doctype<'p>),
}

/// A part of the lists, made by itself. All numbers in it count from its own start.
#[derive(Drop)]
pub struct Part<'p> {
    /// How much comes before it in the whole.
    pub before: Counts,
    pub nodes: Vec<Node>,
    pub elements: Vec<Element>,
    pub leaves: Vec<Leaf<'p>>,
}

impl<'p> Part<'p> {
    /// A part with nothing in it, and room for so many elements and leaves.
    pub fn with_room(alloc: Global, before: Counts, room: usize) -> Result<Part<'p>, AllocError>
        requires { room < 2 ^ 31 }
        ensures { IfOk result (λ part. IsFresh part before room) }
    {
        let nodes = Vec::with_capacity(alloc, 2 * room)?;
        let elements = Vec::with_capacity(alloc, room)?;
        let leaves = Vec::with_capacity(alloc, room)?;
        Ok(Part {
            before,
            nodes,
            elements,
            leaves,
        })
    }

    /// Makes room for so many more elements and leaves.
    pub fn widen(&mut self, room: usize) -> Result<(), AllocError>
        requires { room < 2 ^ 31 }
        ensures wider { IsWider self.old self.new }
        ensures free { OnOk result (HasFree (free_of self.new) room) }
    {
        self.nodes.reserve(2 * room)?;
        self.elements.reserve(room)?;
        self.leaves.reserve(room)
    }

    /// Takes all items out, into a part that has no more memory than they need. This one begins at its end then, with the memory that it
    /// had. `Err` is want of memory, which changes nothing.
    pub fn take_items(&mut self, alloc: Global) -> Result<Part<'p>, AllocError>
        requires { Fits (end_of self.old) }
        ensures taken { IfOk result (SameItems self.old) }
        ensures left { OnOk result (IsEmptied self.old self.new) }
        ensures unchanged { OnErr result (self.new ≡ self.old) }
    {
        let mut nodes = Vec::with_capacity(alloc, self.nodes.len())?;
        let mut elements = Vec::with_capacity(alloc, self.elements.len())?;
        let mut leaves = Vec::with_capacity(alloc, self.leaves.len())?;
        let before = self.before;
        self.before = self.end();
        move_items(&mut nodes, &mut self.nodes);
        move_items(&mut elements, &mut self.elements);
        move_items(&mut leaves, &mut self.leaves);
        Ok(Part {
            before,
            nodes,
            elements,
            leaves,
        })
    }

    /// Gives the memory back in which nothing stands.
    pub fn shrink(&mut self)
        ensures { SameItems self.old self.new }
    {
        self.nodes.shrink_to_fit();
        self.elements.shrink_to_fit();
        self.leaves.shrink_to_fit();
    }

    /// How much comes before its end in the whole.
    #[inline(always)]
    pub fn end(&self) -> Counts
        requires { Fits (end_of self.now) }
        ensures { result ≡ end_of self.now }
    {
        Counts {
            nodes: self.before.nodes + self.nodes.len() as u32,
            elements: self.before.elements + self.elements.len() as u32,
            leaves: self.before.leaves + self.leaves.len() as u32,
        }
    }

    /// Puts the part behind so much more.
    pub fn move_behind(&mut self, more: Counts)
        requires { Fits (sum_of more self.old.before) }
        ensures { self.new ≡ moved_part more self.old }
    {
        self.before = more.plus(self.before);
    }

    /// Which of the nodes is the one at this place of the whole. It is past the last where that doesn't stand here.
    #[inline(always)]
    pub fn place_of(&self, at: u32) -> usize
        ensures { result ≡ way self.now.before.nodes at }
    {
        at.wrapping_sub(self.before.nodes) as usize
    }

    /// Which of the elements is the one of this id. It is past the last where the element doesn't stand here.
    #[inline(always)]
    pub fn place_of_element(&self, id: u32) -> usize
        ensures { result ≡ way 1 (way self.now.before.elements id) }
    {
        id.wrapping_sub(self.before.elements).wrapping_sub(1) as usize
    }

    /// Which of the leaves is the one of this number. It is past the last where the leaf doesn't stand here.
    #[inline(always)]
    pub fn place_of_leaf(&self, number: u32) -> usize
        ensures { result ≡ way self.now.before.leaves number }
    {
        number.wrapping_sub(self.before.leaves) as usize
    }

    /// The node at this place of the whole, if it stands here.
    #[inline(always)]
    pub fn node(&self, at: u32) -> Option<Node>
        requires { (end_of self.now).nodes < 2 ^ 32 }
        ensures here { OnSome result (HasNode self.now at) }
        ensures node { IfSome result (λ node. node ≡ node_at (part_nodes self.now) (at - self.now.before.nodes)) }
        ensures absent { IfNone result (LacksNode self.now at) }
    {
        match self.nodes.get(self.place_of(at)) {
            Some(node) => Some(node.counted(self.before)),
            None => None,
        }
    }

    /// The node at this place, where nothing comes before this part.
    #[inline(always)]
    pub fn own_node(&self, at: u32) -> Node
        requires bare { self.now.before ≡ no_counts }
        requires at_in { at < length self.now.nodes.items }
        ensures { result ≡ node_at (part_nodes self.now) at }
    {
        self.nodes[at as usize].own()
    }

    /// The node of the element of this id, where nothing comes before this part.
    #[inline(always)]
    pub fn own_node_of(&self, id: u32) -> u32
        requires bare { self.now.before ≡ no_counts }
        requires some { 0 < id }
        requires id_in { id ≤ length self.now.elements.items }
        ensures { result ≡ node_of (part_elements self.now) (id - 1) }
    {
        own_number(self.elements[id as usize - 1].node)
    }

    /// The tag of the element of this id, where nothing comes before this part.
    #[inline(always)]
    pub fn own_tag(&self, id: u32) -> &Tag
        requires some { 0 < id }
        requires id_in { id ≤ length self.now.elements.items }
        ensures { tag_at (part_elements self.now) (id - 1) ≡ Some result.now }
    {
        &self.elements[id as usize - 1].tag
    }

    /// The node of the element of this id, if it stands here.
    #[inline(always)]
    pub fn node_of(&self, id: u32) -> Option<u32>
        requires { (end_of self.now).elements < 2 ^ 32 }
        ensures here { OnSome result (HasElement self.now id) }
        ensures node { IfSome result (λ node. node ≡ node_of (part_elements self.now) (id - self.now.before.elements - 1)) }
        ensures absent { IfNone result (LacksElement self.now id) }
    {
        match self.elements.get(self.place_of_element(id)) {
            Some(element) => Some(self.before.nodes.wrapping_add(element.node)),
            None => None,
        }
    }

    /// The tag of the element of this id, if it stands here.
    #[inline(always)]
    pub fn tag(&self, id: u32) -> Option<&Tag>
        requires { (end_of self.now).elements < 2 ^ 32 }
        ensures here { OnSome result (HasElement self.now id) }
        ensures tag { IfSome result (λ tag. tag_at (part_elements self.now) (id - self.now.before.elements - 1) ≡ Some tag.now) }
        ensures absent { IfNone result (LacksElement self.now id) }
    {
        match self.elements.get(self.place_of_element(id)) {
            Some(element) => Some(&element.tag),
            None => None,
        }
    }

    /// The leaf of this number, if it stands here.
    #[inline(always)]
    pub fn leaf(&self, number: u32) -> Option<&Leaf<'p>>
        requires { (end_of self.now).leaves < 2 ^ 32 }
        ensures here { OnSome result (HasLeaf self.now number) }
        ensures leaf { IfSome result (λ leaf. leaf.now ≡ leaf_at (part_leaves self.now) (number - self.now.before.leaves)) }
        ensures absent { IfNone result (LacksLeaf self.now number) }
    {
        self.leaves.get(self.place_of_leaf(number))
    }

    /// Makes another node the one on this side of this one, if this one stands here. Whether it does.
    #[inline(always)]
    pub fn link(&mut self, side: Side, at: u32, to: u32) -> bool
        requires { (end_of self.old).nodes < 2 ^ 32 }
        ensures here { result ≡ true → HasNode self.old at }
        ensures nodes { result ≡ true → part_nodes self.new ≡ with_link side (part_nodes self.old) (at - self.old.before.nodes) to }
        ensures absent { result ≡ false → LacksNode self.old at }
        ensures unchanged { result ≡ false → self.new ≡ self.old }
        ensures kept { KeepsNodesAside self.old self.new }
    {
        let place = self.place_of(at);
        if place < self.nodes.len() {
            self.nodes[place].link(side, to.wrapping_sub(self.before.nodes));
            return true;
        }
        false
    }

    /// Puts a node that is alone before another, where nothing comes before this part.
    #[inline(always)]
    pub fn put_own_before(&mut self, at: u32, node: u32)
        requires at_in { at < length self.old.nodes.items }
        requires node_in { node < length self.old.nodes.items }
        requires before_in { counted 0 (node_at self.old.nodes.items at).prev < length self.old.nodes.items }
        ensures nodes { IsPutBetween self.old.nodes.items self.new.nodes.items at node }
        ensures kept { KeepsNodesAside self.old self.new }
    {
        put_between(&mut self.nodes, at, node);
    }

    /// Appends a text to the leaf of this number, which stands here and is a text.
    pub fn add_text(&mut self, number: u32, cells: &mut Vec<Chain<Text<'p>>>, text: Text<'p>)
        requires fits { (end_of self.old).leaves < 2 ^ 32 }
        requires here { HasLeaf self.old number }
        requires is_text { is_text_of (leaf_at (part_leaves self.old) (number - self.old.before.leaves)) ≡ true }
        requires room { run_count (leaf_at (part_leaves self.old) (number - self.old.before.leaves)) + 1 < 2 ^ 63 }
        requires some { 0 < vec_len cells.old }
        requires cell { All IsCell cells.old.items }
        ensures leaf { IsTextLonger (leaf_at (part_leaves self.old) (number - self.old.before.leaves)) (leaf_at (part_leaves self.new) (number - self.old.before.leaves)) text.entry }
        ensures others { part_leaves self.new ≡ slice_set (part_leaves self.old) (number - self.old.before.leaves) (leaf_at (part_leaves self.new) (number - self.old.before.leaves)) }
        ensures kept { KeepsLeavesAside self.old self.new }
        ensures len { vec_len cells.old ≤ vec_len cells.new + 1 }
        ensures cell { All IsCell cells.new.items }
    {
        let place = self.place_of_leaf(number);
        append_text(&mut self.leaves, place, cells, text);
    }

    /// Adds the attributes that the element of this id, which stands here, doesn't have.
    pub fn add_attributes(&mut self, id: u32, more: Chain<Attribute>)
        requires fits { (end_of self.old).elements < 2 ^ 32 }
        requires here { HasElement self.old id }
        requires room { attribute_count (tag_at (part_elements self.old) (id - self.old.before.elements - 1)) + length more < 2 ^ 63 }
        ensures elements { part_elements self.new ≡ with_tag_at (part_elements self.old) (id - self.old.before.elements - 1) (with_attributes (tag_at (part_elements self.old) (id - self.old.before.elements - 1)) more) }
        ensures kept { KeepsElementsAside self.old self.new }
    {
        let place = self.place_of_element(id);
        add_attributes(&mut self.elements[place].tag.attributes, more);
    }

    /// Appends an element, whose node and end are in no list of children.
    #[inline(always)]
    pub fn push_element(&mut self, tag: Tag)
        requires nodes_free { 2 ≤ (free_of self.old).nodes }
        requires elements_free { 1 ≤ (free_of self.old).elements }
        requires nodes_fit { (end_of self.old).nodes + 2 < 2 ^ 32 }
        requires elements_fit { (end_of self.old).elements + 1 < 2 ^ 32 }
        ensures nodes { self.new.nodes.items ≡ self.old.nodes.items ++ element_nodes (length self.old.nodes.items) (length self.old.elements.items + 1) }
        ensures elements { self.new.elements.items ≡ self.old.elements.items ++ record { tag = tag; node = length self.old.nodes.items } ∷ [] }
        ensures leaves { self.new.leaves ≡ self.old.leaves }
        ensures before { self.new.before ≡ self.old.before }
        ensures nodes_left { (free_of self.old).nodes ≤ (free_of self.new).nodes + 2 }
        ensures elements_left { (free_of self.old).elements ≤ (free_of self.new).elements + 1 }
    {
        let node = self.nodes.len() as u32;
        let id = self.elements.len() as u32 + 1;
        self.nodes.push_reserved(alone(node, Kind::Element(id)));
        self.nodes.push_reserved(alone(node + 1, Kind::End(id)));
        self.elements.push_reserved(Element { tag, node });
    }

    /// Appends a leaf, whose node is in no list of children.
    #[inline(always)]
    pub fn push_leaf(&mut self, leaf: Leaf<'p>)
        requires nodes_free { 1 ≤ (free_of self.old).nodes }
        requires leaves_free { 1 ≤ (free_of self.old).leaves }
        requires nodes_fit { (end_of self.old).nodes + 1 < 2 ^ 32 }
        requires leaves_fit { (end_of self.old).leaves + 1 < 2 ^ 32 }
        ensures nodes { self.new.nodes.items ≡ self.old.nodes.items ++ leaf_nodes (length self.old.nodes.items) (length self.old.leaves.items) }
        ensures leaves { self.new.leaves.items ≡ self.old.leaves.items ++ leaf.entry ∷ [] }
        ensures elements { self.new.elements ≡ self.old.elements }
        ensures before { self.new.before ≡ self.old.before }
        ensures nodes_left { (free_of self.old).nodes ≤ (free_of self.new).nodes + 1 }
        ensures leaves_left { (free_of self.old).leaves ≤ (free_of self.new).leaves + 1 }
    {
        let node = self.nodes.len() as u32;
        let number = self.leaves.len() as u32;
        self.nodes.push_reserved(alone(node, Kind::Leaf(number)));
        self.leaves.push_reserved(leaf);
    }
}

/// Moves all items of a list into an empty one that has room for them.
fn move_items<T>(to: &mut Vec<T>, from: &mut Vec<T>)
    requires empty { vec_len to.old ≡ 0 }
    requires room { vec_len from.old ≤ vec_capacity to.old }
    ensures moved { to.new.items ≡ from.old.items }
    ensures left { from.new.items ≡ [] }
    ensures capacity { vec_capacity from.new ≡ vec_capacity from.old }
{
    match to.append(from) {
        Ok(()) => {}
        Err(_) => unreachable!(),
    }
}
