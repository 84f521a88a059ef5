//! The nodes, elements and leaves of a tree, and the edits on them.

ghost use Rattle.std.specs.Prelude.{◌≡◌, ◌≢◌, ◌+◌, ◌<◌, ◌≤◌, length, [], ◌++◌, ◌^◌, true, false, max, vec_len, vec_capacity, IsTrue, ◌↔◌, IfOk, IfErr, OnOk, OnErr, MatchOption, Some, slice_get, ℕ};
ghost use Rattle.hp_control.specs.Edits.{room_of};
ghost use Rattle.hp_control.specs.Tree.{document, detached, put, put_child, applied, is_there, id_of, is_place, may_be_child, leads_into_document, children_moved, with_tag, with_attributes};
ghost use Rattle.hp_control.specs.Tree.{Tree, branch, has_parent, stands_in, IsForest};
ghost use Rattle.hp_control.specs.Tree as item;
ghost use Rattle.hp_groves.specs.Grafts.{graft};
ghost use Rattle.hp_arena.specs.Groves.{behind_document, IsBlank};
ghost use Rattle.hp_arena.specs.Roots.{is_root_table, has_root_table};
ghost use Rattle.hp_arena.specs.Nodes.{IsClosed, end_from, stops};
ghost use Rattle.hp_arena.specs.Readers.{IsSpot, IsSpotOf, shown, is_item, element_of, items_in_list, HasTag};
ghost use Rattle.hp_store.specs.Leaves.{doctype_item, leaf_item};
ghost use Rattle.hp_store.specs.Lists.{attribute_count};

use crate::leaves::{add_leaf, add_leaf_between, text_at};
use crate::levels::summed_levels;
use crate::links::{splice, unlink};
use crate::readers::{NodeView, Runs, Spot};
use hp_control::{Child, Edit, Place, Ref};
use hp_elements::{Attribute, Chain, Doctype, Tag, Text};
use hp_store::{Counts, Kind, Leaf, Node, Store, add_cells};
use std::alloc::{AllocError, Global};
use std::marker::Model;

/// The lists of a tree. Contracts see the branches by their ids, and the room.
#[derive(Drop)]
pub struct Arena<'p> {
    store: Store<'p>,
    /// Pairs of cells, of which the runs of a text are made where it has several.
    cells: Vec<Chain<Text<'p>>>,
    /// How much more room there is for edits.
    spare: usize,
    /// At least the number of runs of any text, and of attributes of any element.
    used: usize,
}

impl<'p> Model for Arena<'p> {
    ghost use Rattle.hp_arena.specs.Arena.{Seen};

    ghost Value = { Seen };

    ghost use Rattle.hp_arena.specs.Shape.{seen, IsSound};

    ghost view = { seen };

    ghost invariant = { IsSound };
}

/// So many levels are few: where a tree can't have more above its lines, they aren't summed one by one.
const FEW_LEVELS: u64 = 1 << 34;

/// The most items of a list before a reservation, and the most room that it makes.
const MOST: usize = 0x2000_0000;

/// How many elements, and how many leaves, there is memory for from the start. So much is mapped apart by the C library: what isn't
/// touched costs nothing, and what grows out of it is moved without a copy.
const FIRST: usize = 4096;

impl<'p> Arena<'p> {
    /// The document alone.
    pub fn start(alloc: Global) -> Result<Arena<'p>, AllocError>
        ensures { IfOk result (λ t. t.branches ≡ document) }
    {
        let store = Store::start(alloc, FIRST)?;
        Ok(Arena {
            store,
            cells: Vec::new(alloc),
            spare: 0,
            used: 0,
        })
    }

    /// Makes so much room for edits. There is no memory also where a list or count of the tree, or the room asked for, is past 2^29.
    pub fn reserve(&mut self, alloc: Global, room: u64) -> Result<(), AllocError>
        ensures branches { self.new.branches ≡ self.old.branches }
        ensures room { OnOk result (room ≤ self.new.spare) }
        ensures kept { self.old.spare ≤ self.new.spare }
        ensures err { OnErr result (self.new ≡ self.old) }
    {
        if room <= self.spare as u64 {
            return Ok(());
        }
        if !is_within(most(self.store.counts(), Counts::none(), self.used), room) {
            return Err(AllocError);
        }
        let room = room as usize;
        self.store.reserve(room)?;
        add_cells(alloc, &mut self.cells, room)?;
        self.spare = room;
        Ok(())
    }

    /// Gives the memory back in which nothing stands. There is no room for edits then.
    pub fn shrink(&mut self)
        ensures { self.new.branches ≡ self.old.branches }
    {
        self.spare = 0;
        self.cells.clear();
        self.store.shrink();
    }

    /// How much room there is for edits: one for each, and one for each of their attributes.
    pub fn spare(&self) -> u64
        ensures { result ≡ self.now.spare }
    {
        self.spare as u64
    }

    /// Makes one edit. It takes no memory. The caller says whether it knows that the table before which a child goes
    /// is no child of the document.
    #[inline(never)]
    pub fn apply(&mut self, edit: Edit<'p>, apart: bool)
        requires room { room_of edit ≤ self.old.spare }
        requires table { apart ≡ true → has_root_table self.old.branches edit ≡ false }
        ensures branches { self.new.branches ≡ applied self.old.branches edit.entry }
        ensures spare { self.old.spare ≤ self.new.spare + room_of edit.entry }
    {
        match edit {
            Edit::NewElement { tag } => self.new_element(tag),
            Edit::Put { child, place } => {
                if self.is_place(place) {
                    self.put(child, place, apart);
                }
            }
            Edit::Detach { node } => {
                if self.may_be_child(node) {
                    self.detach(id_of(node));
                }
            }
            Edit::MoveChildren { from, to } => {
                if self.is_there(from) && self.is_there(to) && id_of(from) != id_of(to) {
                    self.move_children(id_of(from), id_of(to));
                }
            }
            Edit::AddMissing { node, attributes } => {
                if self.is_there(node) {
                    self.add_missing(id_of(node), attributes);
                }
            }
        }
    }

    /// Puts a text last into an element.
    #[inline(always)]
    pub fn put_text_into(&mut self, text: Text<'p>, parent: Ref)
        requires { 0 < self.old.spare }
        ensures branches { self.new.branches ≡ applied self.old.branches (Edit.Put (Child.Text text.entry) (Place.Into parent)) }
        ensures spare { self.old.spare ≤ self.new.spare + 1 }
    {
        if self.may_be_child(parent) {
            self.put_text(text, Place::Into(parent));
        }
    }

    /// Puts an element last into another.
    #[inline(always)]
    pub fn put_element_into(&mut self, node: Ref, parent: Ref)
        requires { 0 < self.old.spare }
        ensures branches { self.new.branches ≡ applied self.old.branches (Edit.Put (Child.Element node) (Place.Into parent)) }
        ensures spare { self.new.spare ≡ self.old.spare }
    {
        if self.is_there(parent) && self.may_be_child(node) {
            self.put_element(id_of(node), Place::Into(parent));
        }
    }

    /// Whether there is an element of this id.
    fn is_there(&self, node: Ref) -> bool
        ensures { result ≡ is_there self.now.branches node }
    {
        match node {
            Ref::Fixed(id) => id <= self.store.counts().elements as u64,
            Ref::Older(_) | Ref::Own(_) => false,
        }
    }

    /// Whether all that a place names is there.
    fn is_place(&self, place: Place) -> bool
        ensures { result ≡ is_place self.now.branches place }
    {
        match place {
            Place::Into(parent) => self.is_there(parent),
            Place::Foster { table, above } => self.is_there(table) && self.is_there(above),
        }
    }

    /// Whether this is an element other than the document.
    fn may_be_child(&self, node: Ref) -> bool
        ensures { result ≡ may_be_child self.now.branches node }
    {
        self.is_there(node) && id_of(node) != 0
    }

    /// Puts a child at a place that is there.
    fn put(&mut self, child: Child<'p>, place: Place, apart: bool)
        requires room { 0 < self.old.spare }
        requires there { is_place self.old.branches place ≡ true }
        requires table { apart ≡ true → is_root_table self.old.branches place ≡ false }
        ensures branches { self.new.branches ≡ put_child self.old.branches child.entry place }
        ensures spare { self.old.spare ≤ self.new.spare + 1 }
    {
        match child {
            Child::Element(node) => {
                if self.may_be_child(node) {
                    self.put_element(id_of(node), place);
                }
            }
            Child::Text(text) => {
                if !self.leads_into_document(place, apart) {
                    self.put_text(text, place);
                }
            }
            Child::Comment(text) => self.put_comment(text, place),
            Child::Doctype(doctype) => self.put_doctype(doctype, place),
        }
    }

    /// Makes the next element, which has no parent.
    #[inline(always)]
    pub fn new_element(&mut self, tag: Tag)
        requires { length tag.attributes < self.old.spare }
        ensures branches { self.new.branches ≡ applied self.old.branches (Edit.NewElement tag) }
        ensures spare { self.new.spare + (length tag.attributes + 1) ≡ self.old.spare }
    {
        let room = tag.attributes.len() + 1;
        self.store.push_element(tag);
        self.spare -= room;
        self.used += room;
    }

    /// Takes an element out of its list of children.
    #[inline(never)]
    fn detach(&mut self, id: u64)
        requires { id < length self.old.branches }
        ensures branches { self.new.branches ≡ detached self.old.branches id }
        ensures spare { self.new.spare ≡ self.old.spare }
    {
        let node = self.store.node_of(id as u32);
        unlink(&mut self.store, node);
    }

    /// Takes an element out of its list of children, and puts it at a place.
    #[inline(always)]
    fn put_element(&mut self, id: u64, place: Place)
        requires id_in { id < length self.old.branches }
        requires apart { id ≢ 0 }
        requires there { is_place self.old.branches place ≡ true }
        ensures branches { self.new.branches ≡ put (detached self.old.branches id) (item.Element id) place }
        ensures spare { self.new.spare ≡ self.old.spare }
    {
        let node = self.store.late_node_of(id as u32);
        unlink(&mut self.store, node);
        let at = node_at(&self.store, place);
        let before = self.store.node(at).prev;
        self.store.put_between(before, at, node);
    }

    /// Appends all children of an element to those of another.
    #[inline(never)]
    fn move_children(&mut self, from: u64, to: u64)
        requires from_in { from < length self.old.branches }
        requires to_in { to < length self.old.branches }
        requires apart { from ≢ to }
        ensures branches { self.new.branches ≡ children_moved self.old.branches from to }
        ensures spare { self.new.spare ≡ self.old.spare }
    {
        let source = self.store.node_of(from as u32) + 1;
        let target = self.store.node_of(to as u32) + 1;
        if self.store.node(source).next != source {
            splice(&mut self.store, source, target);
        }
    }

    /// Adds the attributes whose names an element doesn't have.
    #[inline(never)]
    fn add_missing(&mut self, id: u64, attributes: Chain<Attribute>)
        requires id_in { id < length self.old.branches }
        requires room { length attributes < self.old.spare }
        ensures branches { self.new.branches ≡ with_tag self.old.branches id (with_attributes (branch self.old.branches id).tag attributes) }
        ensures spare { self.new.spare + (length attributes + 1) ≡ self.old.spare }
    {
        let room = attributes.len() + 1;
        self.spare -= room;
        self.used += room;
        self.store.add_attributes(id as u32, attributes);
    }

    /// Puts a comment at a place.
    #[inline(never)]
    fn put_comment(&mut self, text: Text<'p>, place: Place)
        requires room { 0 < self.old.spare }
        requires there { is_place self.old.branches place ≡ true }
        ensures branches { self.new.branches ≡ put self.old.branches (item.Comment text.entry) place }
        ensures spare { self.new.spare + 1 ≡ self.old.spare }
    {
        let at = node_at(&self.store, place);
        add_leaf(&mut self.store, at, Leaf::Comment(text));
        self.spare -= 1;
    }

    /// Puts a doctype at a place.
    #[inline(never)]
    fn put_doctype(&mut self, doctype: Doctype<'p>, place: Place)
        requires room { 0 < self.old.spare }
        requires there { is_place self.old.branches place ≡ true }
        ensures branches { self.new.branches ≡ put self.old.branches (doctype_item doctype.entry) place }
        ensures spare { self.new.spare + 1 ≡ self.old.spare }
    {
        let at = node_at(&self.store, place);
        add_leaf(&mut self.store, at, Leaf::Doctype(doctype));
        self.spare -= 1;
    }

    /// Whether the parent at a place is the document.
    fn leads_into_document(&self, place: Place, apart: bool) -> bool
        requires there { is_place self.now.branches place ≡ true }
        requires table { apart ≡ true → is_root_table self.now.branches place ≡ false }
        ensures { result ≡ leads_into_document self.now.branches place }
    {
        match place {
            Place::Into(parent) => id_of(parent) == 0,
            Place::Foster { table, above } => {
                let node = self.store.node_of(id_of(table) as u32);
                if self.store.node(node).next == node {
                    return id_of(above) == 0;
                }
                if apart {
                    return false;
                }
                end_after(&self.store, node) == 1
            }
        }
    }

    /// Puts a text at a place. It joins a text that stands before it.
    #[inline(always)]
    fn put_text(&mut self, text: Text<'p>, place: Place)
        requires room { 0 < self.old.spare }
        requires there { is_place self.old.branches place ≡ true }
        ensures branches { self.new.branches ≡ put self.old.branches (item.Text text.entry) place }
        ensures spare { self.new.spare + 1 ≡ self.old.spare }
    {
        let at = node_at(&self.store, place);
        let before = self.store.node(at).prev;
        self.spare -= 1;
        self.used += 1;
        match text_at(&self.store, before) {
            Some(number) => self.store.add_text(number, &mut self.cells, text),
            None => add_leaf_between(&mut self.store, before, at, Leaf::Run(text)),
        }
    }
}

impl<'p> Arena<'p> {
    /// Puts the elements of another tree but its document, in which nothing stands, behind those of this one. At an `Err`, which is want of
    /// memory, also where a list or count of the tree would be past 2^29, the other tree comes back.
    #[inline(never)]
    pub fn graft(&mut self, alloc: Global, grove: Arena<'p>) -> Result<(), Arena<'p>>
        requires blank { IsBlank grove.branches }
        ensures branches { OnOk result (self.new.branches ≡ graft self.old.branches (behind_document grove.entry.branches)) }
        ensures spare { OnOk result (self.new.spare ≡ self.old.spare) }
        ensures err { OnErr result (self.new ≡ self.old) }
        ensures back { IfErr result (λ back. back ≡ grove.entry) }
    {
        let most = most(
            self.store.counts(),
            grove.store.counts(),
            self.used + grove.used,
        );
        if !is_within(most, self.spare as u64) {
            return Err(grove);
        }
        if self.cells.reserve(grove.cells.len()).is_err() {
            return Err(grove);
        }
        let Arena {
            store,
            cells,
            used,
            spare,
        } = grove;
        if let Err(store) = self.store.append(alloc, store) {
            return Err(Arena {
                store,
                cells,
                used,
                spare,
            });
        }
        append_reserved(&mut self.cells, cells);
        self.used += used;
        Ok(())
    }
}

impl<'p> Arena<'p> {
    /// The number of elements, with the document. Each element has at most one parent, and the document has none.
    pub fn len(&self) -> u32
        ensures count { result ≡ length self.now.branches }
        ensures forest { IsForest self.now.branches }
    {
        self.store.counts().elements + 1
    }

    /// About how many levels stand above the lines of the tree's text, all together: those above each item, and those above the
    /// deepest for each attribute that there may be. Nothing is promised of it.
    pub fn summed_levels(&self) -> u64 {
        let counts = self.store.counts();
        let lines = (counts.nodes as u64).saturating_add(self.used as u64);
        let most = lines.saturating_mul(counts.elements as u64 + 1);
        if most <= FEW_LEVELS {
            return most;
        }
        let most = lines.saturating_mul(self.store.deepest());
        if most <= FEW_LEVELS {
            return most;
        }
        summed_levels(&self.store, self.used as u64)
    }

    /// At least as many as the attributes of any element.
    pub fn most_attributes(&self) -> usize
        ensures { (id : ℕ) → id < length self.now.branches → attribute_count (branch self.now.branches id).tag ≤ result }
    {
        self.used
    }

    /// The first of what stands inside an element: of its children, or of the contents if it is a template. The document is 0.
    pub fn first_inside(&self, id: u32) -> Option<Spot>
        requires { id < length self.now.branches }
        ensures first { MatchOption result ((branch self.now.branches id).inside ≡ []) (λ at. (at.parent ≡ id) × (at.place ≡ 0) × IsSpot self.now at) }
        ensures forest { IsForest self.now.branches }
    {
        let end = self.store.node_of(id) + 1;
        let (end, part) = self.store.node_near(end, 0);
        spot(&self.store, id, 0, end.next, part)
    }

    /// The first of what stands inside the element there: of its children, or of the contents if it is a template.
    #[inline(always)]
    pub fn first_below(&self, at: Spot) -> Option<Spot>
        requires { IsSpot self.now at }
        ensures { let id = element_of (slice_get (branch self.now.branches at.parent).inside at.place) in MatchOption result (items_in_list self.now.branches id ≡ []) (λ first. (parent : ℕ) × ((id ≡ Some parent) × ((first.parent ≡ parent) × ((first.place ≡ 0) × IsSpot self.now first)))) }
    {
        let store = &self.store;
        let Kind::Element(id) = at.kind else {
            return None;
        };
        let (end, part) = store.node_near(at.node + 1, at.part);
        spot(store, id, 0, end.next, part)
    }

    /// The next in the same list.
    #[inline(always)]
    pub fn next_sibling(&self, at: Spot) -> Option<Spot>
        requires { IsSpot self.now at }
        ensures { MatchOption result (length (branch self.now.branches at.parent).inside ≡ at.place + 1) (λ next. (next.parent ≡ at.parent) × (next.place ≡ at.place + 1) × IsSpot self.now next) }
    {
        spot(&self.store, at.parent, at.place + 1, at.next, at.part)
    }

    /// The element in whose list of children an element stands, if it stands in one.
    #[inline(never)]
    pub fn parent_of(&self, id: u32) -> Option<u32>
        requires { id < length self.now.branches }
        ensures parent { MatchOption result (has_parent self.now.branches id ≡ false) (λ parent. stands_in self.now.branches parent id ≡ true) }
        ensures forest { IsForest self.now.branches }
    {
        let node = self.store.node_of(id);
        if self.store.node(node).next == node {
            return None;
        }
        let end = end_after(&self.store, node);
        match self.store.node(end).kind {
            Kind::End(parent) => Some(parent),
            Kind::Element(_) | Kind::Leaf(_) => unreachable!(),
        }
    }

    /// What stands there.
    #[inline(always)]
    pub fn view(&self, at: Spot) -> NodeView<'_, 'p>
        requires { IsSpot self.now at }
        ensures item { slice_get (branch self.now.branches at.parent).inside at.place ≡ shown result }
        ensures child { is_item result ≡ true }
        ensures tag { HasTag self.now.branches result }
    {
        match at.kind {
            Kind::End(_) => unreachable!(),
            Kind::Element(id) => NodeView::Element {
                id,
                tag: self.store.tag_near(id, at.part),
            },
            Kind::Leaf(number) => view_of(self.store.leaf_near(number, at.part)),
        }
    }
}

/// The spot of a node in a list of children, if it isn't the list's end.
#[inline(always)]
fn spot(store: &Store<'_>, parent: u32, place: u32, node: u32, near: u32) -> Option<Spot>
    requires { node < length store.now.nodes }
    ensures { MatchOption result (stops store.now.nodes node ≡ true) (IsSpotOf store.now.nodes parent place node) }
{
    let (Node { next, kind, .. }, part) = store.node_near(node, near);
    match kind {
        Kind::End(_) => None,
        Kind::Element(_) | Kind::Leaf(_) => Some(Spot {
            parent,
            place,
            node,
            next,
            kind,
            part,
        }),
    }
}

/// What a leaf shows.
#[inline(always)]
fn view_of<'t, 'p>(leaf: &'t Leaf<'p>) -> NodeView<'t, 'p>
    ensures item { shown result ≡ Some (leaf_item leaf.now) }
    ensures child { is_item result ≡ true }
    ensures tag { (t : Tree) → HasTag t result }
{
    match leaf {
        Leaf::Run(text) => NodeView::Text {
            runs: Runs::One(text),
        },
        Leaf::Text(runs) => NodeView::Text {
            runs: Runs::Several(runs),
        },
        Leaf::Comment(text) => NodeView::Comment { text },
        Leaf::Doctype(doctype) => {
            let parts = doctype.parts();
            NodeView::Doctype {
                name: parts.name.as_ref(),
                public: parts.public.as_ref(),
                system: parts.system.as_ref(),
            }
        }
    }
}

/// The id that is meant. Where it isn't told, no edit asks for it.
pub fn id_of(node: Ref) -> u64
    ensures { result ≡ id_of node }
{
    match node {
        Ref::Fixed(id) => id,
        Ref::Older(_) | Ref::Own(_) => 0,
    }
}

ghost use Rattle.hp_arena.specs.Shape.{at_of, IsPlaceIn, AreNodesIn};

/// The node before which a child at a place goes.
#[inline(always)]
fn node_at(store: &Store<'_>, place: Place) -> u32
    requires there { IsPlaceIn (length store.now.elements) place }
    requires closed { AreNodesIn store.now.elements (length store.now.nodes) }
    ensures { result ≡ at_of store.now.nodes store.now.elements place }
{
    match place {
        Place::Into(parent) => store.node_of(id_of(parent) as u32) + 1,
        Place::Foster { table, above } => fostered_at(
            store,
            id_of(table) as u32,
            id_of(above) as u32,
        ),
    }
}

/// The node before which a child goes that is put before a table, or else last into another element.
#[inline(never)]
fn fostered_at(store: &Store<'_>, table: u32, above: u32) -> u32
    requires table_in { table < length store.now.elements }
    requires above_in { above < length store.now.elements }
    requires closed { AreNodesIn store.now.elements (length store.now.nodes) }
    ensures { result ≡ at_of store.now.nodes store.now.elements (Place.Foster (Ref.Fixed table) (Ref.Fixed above)) }
{
    let node = store.node_of(table);
    if store.node(node).next == node {
        store.node_of(above) + 1
    } else {
        node
    }
}

/// The end of the list that a node stands in.
#[inline(never)]
fn end_after(store: &Store<'_>, from: u32) -> u32
    requires from_in { from < length store.now.nodes }
    requires closed { IsClosed store.now.nodes }
    ensures { result ≡ end_from store.now.nodes (length store.now.nodes) from }
{
    let mut at = from;
    let mut part = 0;
    for _ in 0..store.counts().nodes {
        let (node, found) = store.node_near(at, part);
        if let Kind::End(_) = node.kind {
            return at;
        }
        at = node.next;
        part = found;
    }
    at
}

/// Moves all items of a list behind those of another, where there is room for them.
fn append_reserved<T: Drop>(list: &mut Vec<T>, more: Vec<T>)
    requires { vec_len list.old + vec_len more ≤ vec_capacity list.old }
    ensures items { list.new.items ≡ list.old.items ++ more.items }
    ensures len { vec_len list.new ≡ vec_len list.old + vec_len more }
    ensures capacity { vec_capacity list.old ≤ vec_capacity list.new }
{
    let mut more = more;
    match list.append(&mut more) {
        Ok(()) => {}
        Err(_) => unreachable!(),
    }
}

/// The length of the longest list of so much and so much more, or a count where that is more.
fn most(counts: Counts, more: Counts, used: usize) -> usize
    ensures { result ≡ max (max (max (counts.nodes + more.nodes) (counts.elements + more.elements)) (counts.leaves + more.leaves)) used }
{
    (counts.nodes as usize + more.nodes as usize)
        .max(counts.elements as usize + more.elements as usize)
        .max(counts.leaves as usize + more.leaves as usize)
        .max(used)
}

/// Whether a tree may have a list or count of so many items, and room for so many more.
fn is_within(most: usize, room: u64) -> bool
    ensures { IsTrue result ↔ ((most ≤ 2 ^ 29) × (room ≤ 2 ^ 29)) }
{
    most <= MOST && room <= MOST as u64
}
