//! The tree that callers see: its edits and its readers.

ghost use Rattle.std.specs.Prelude.{◌≡◌, ◌+◌, ◌<◌, ◌≤◌, length, map, [], ℕ, IfErr, IfOk, IfSome, OnOk, OnErr, MatchOption, true, false};
ghost use Rattle.hp_control.specs.Apply.{named_child, named_edit};
ghost use Rattle.hp_control.specs.Nothing.{nothing};
ghost use Rattle.hp_control.specs.Edits.{room_of, room_of_all};
ghost use Rattle.hp_control.specs.Tree.{document, applied, applied_all, branch, has_parent, stands_in, IsForest};
ghost use Rattle.hp_control.specs.declared.edit.Child.{Child};
ghost use Rattle.hp_control.specs.declared.edit.Place.{Place};
ghost use Rattle.hp_groves.specs.Grafts.{graft};
ghost use Rattle.hp_arena.specs.Groves.{behind_document, IsBlank};
ghost use Rattle.hp_arena.specs.Roots.{AreRoots};
ghost use Rattle.hp_store.specs.Lists.{attribute_count};
ghost use Rattle.hp_arena.specs.Readers.{IsAt, IsIn, IsFirstChild, IsFirstBelow, IsShown, HasTag, children, list_of, items_in_list, element_at, contents_of, siblings, parent_of, place_of};

use crate::arena::Arena;
use crate::readers::{At, NodeView, is_template};
use crate::roots::Roots;
use hp_control::{Child, Edit, Edits, Place, Ref};
use hp_elements::{Chain, Known, Name, Namespace, Tag, Text};
use hp_steps::Steps;
use std::alloc::{AllocError, Global};
use std::marker::Model;
use std::mem;
use std::sync::ledger::Ledger;

/// How many edits the next batch has room for before it takes memory.
const BATCH: usize = 256;

/// A document tree. Contracts see its branches by their ids, and its room.
pub struct Tree<'p> {
    arena: Arena<'p>,
    roots: Roots,
}

impl<'p> Drop for Tree<'p> {
    #[inline(always)]
    fn drop(self) {
        let Tree { arena: _, roots: _ } = self;
    }
}

impl<'p> Model for Tree<'p> {
    ghost use Rattle.hp_arena.specs.Arena.{Seen};

    ghost Value = { Seen };

    ghost use Rattle.hp_arena.specs.Roots.{AreRoots};

    ghost view = { λ t. t.arena };

    ghost invariant = { λ t. AreRoots t.roots t.arena.branches };
}

impl<'p> Tree<'p> {
    /// The document alone.
    pub fn start(alloc: Global) -> Result<Tree<'p>, AllocError>
        ensures { IfOk result (λ t. t.branches ≡ document) }
    {
        let arena = Arena::start(alloc)?;
        Ok(Tree {
            arena,
            roots: Roots::None,
        })
    }

    /// Makes room for these edits. There is no memory also where a list or count of the tree, or the room asked for, is past 2^29.
    pub fn reserve(&mut self, alloc: Global, edits: &Edits<'p>) -> Result<(), AllocError>
        ensures branches { self.new.branches ≡ self.old.branches }
        ensures room { OnOk result (room_of_all edits.now ≤ self.new.spare) }
        ensures kept { self.old.spare ≤ self.new.spare }
        ensures err { OnErr result (self.new ≡ self.old) }
    {
        self.arena.reserve(alloc, edits.room())
    }

    /// Makes so much room for edits: one for each, and one for each of their attributes. There is no memory also where a list or count of
    /// the tree, or the room asked for, is past 2^29.
    pub fn reserve_room(&mut self, alloc: Global, room: u64) -> Result<(), AllocError>
        ensures branches { self.new.branches ≡ self.old.branches }
        ensures room { OnOk result (room ≤ self.new.spare) }
        ensures kept { self.old.spare ≤ self.new.spare }
        ensures err { OnErr result (self.new ≡ self.old) }
    {
        self.arena.reserve(alloc, room)
    }

    /// How much room there is for edits: one for each, and one for each of their attributes.
    pub fn spare(&self) -> u64
        ensures { result ≡ self.now.spare }
    {
        self.arena.spare()
    }

    /// Makes one edit, by one step. It takes no memory.
    pub fn apply<L: Ledger>(&mut self, edit: Edit<'p>, steps: &mut Steps<L>)
        requires { room_of edit ≤ self.old.spare }
        ensures branches { self.new.branches ≡ applied self.old.branches edit.entry }
        ensures spare { self.old.spare ≤ self.new.spare + room_of edit.entry }
        ensures steps { steps.new ≡ steps.old + 1 }
    {
        steps.tick();
        self.apply_one(edit)
    }

    /// The same by no count.
    fn apply_one(&mut self, edit: Edit<'p>)
        requires { room_of edit ≤ self.old.spare }
        ensures branches { self.new.branches ≡ applied self.old.branches edit.entry }
        ensures spare { self.old.spare ≤ self.new.spare + room_of edit.entry }
    {
        let apart = self.roots.is_apart(&edit);
        self.roots = self.roots.after(&edit);
        self.arena.apply(edit, apart)
    }

    /// Makes all edits, in order, each told where no older state is below, and leaves none. At an `Err`, which comes where
    /// `reserve` or the next batch finds no memory, the branches and the edits are as before; there may be more room than before.
    pub fn grow(&mut self, alloc: Global, edits: &mut Edits<'p>) -> Result<(), AllocError>
        ensures branches { OnOk result (self.new.branches ≡ applied_all self.old.branches (map (named_edit nothing) edits.old)) }
        ensures edits { OnOk result (edits.new ≡ []) }
        ensures branches_kept { OnErr result (self.new.branches ≡ self.old.branches) }
        ensures edits_kept { OnErr result (edits.new ≡ edits.old) }
    {
        self.reserve(alloc, edits)?;
        let mut batch = Vec::with_capacity(alloc, BATCH)?;
        edits.take_into(&mut batch);
        self.apply_all(&mut batch);
        Ok(())
    }

    /// Makes these edits, in order, each told where no older state is below. It takes no memory. Nothing is promised of what is left
    /// of them.
    #[inline(always)]
    pub fn apply_all(&mut self, edits: &mut [Edit<'p>])
        requires { room_of_all edits.old ≤ self.old.spare }
        ensures branches { self.new.branches ≡ applied_all self.old.branches (map (named_edit nothing) edits.old) }
    {
        for edit in edits.iter_mut() {
            self.make(edit);
        }
    }

    /// Makes one edit, told where no older state is below. It takes no memory. Nothing is promised of what is left of it.
    #[inline(always)]
    pub fn make(&mut self, edit: &mut Edit<'p>)
        requires { room_of edit.old ≤ self.old.spare }
        ensures branches { self.new.branches ≡ applied self.old.branches (named_edit nothing edit.old) }
        ensures spare { self.old.spare ≤ self.new.spare + room_of edit.old }
    {
        match edit {
            Edit::NewElement { tag } => self.new_element(tag),
            Edit::Put {
                place: Place::Into(parent),
                ..
            } => {
                let parent = parent.told();
                self.put_into(edit, parent);
            }
            _ => self.make_seldom(edit),
        }
    }

    /// Makes one edit, told where no older state is below, by one step. It takes no memory. Nothing is promised of what is left of it.
    #[inline(always)]
    pub fn apply_in_place<L: Ledger>(&mut self, edit: &mut Edit<'p>, steps: &mut Steps<L>)
        requires { room_of edit.old ≤ self.old.spare }
        ensures branches { self.new.branches ≡ applied self.old.branches (named_edit nothing edit.old) }
        ensures spare { self.old.spare ≤ self.new.spare + room_of edit.old }
        ensures steps { steps.new ≡ steps.old + 1 }
    {
        steps.tick();
        self.make(edit)
    }

    /// Puts the child of an edit, told where no older state is below, last into an element.
    #[inline(always)]
    fn put_into(&mut self, edit: &mut Edit<'p>, parent: u64)
        requires { 0 < self.old.spare }
        ensures branches { (child : Child) (place : Place) → edit.old ≡ Edit.Put child place → self.new.branches ≡ applied self.old.branches (Edit.Put (named_child nothing child) (Place.Into (Ref.Fixed parent))) }
        ensures spare { self.old.spare ≤ self.new.spare + 1 }
    {
        match edit {
            Edit::Put { child, .. } => self.put_child(child, parent),
            Edit::NewElement { .. }
            | Edit::Detach { .. }
            | Edit::MoveChildren { .. }
            | Edit::AddMissing { .. } => {}
        }
    }

    /// Puts a child, told where no older state is below, last into an element.
    #[inline(always)]
    fn put_child(&mut self, child: &mut Child<'p>, parent: u64)
        requires { 0 < self.old.spare }
        ensures branches { self.new.branches ≡ applied self.old.branches (Edit.Put (named_child nothing child.old) (Place.Into (Ref.Fixed parent))) }
        ensures spare { self.old.spare ≤ self.new.spare + 1 }
    {
        match child {
            Child::Text(text) => self.put_text(text, parent),
            Child::Element(node) if parent != 0 => self
                .arena
                .put_element_into(Ref::Fixed(node.told()), Ref::Fixed(parent)),
            _ => self.put_seldom(child, parent),
        }
    }

    /// Puts any child last into an element.
    #[inline(never)]
    fn put_seldom(&mut self, child: &mut Child<'p>, parent: u64)
        requires { 0 < self.old.spare }
        ensures branches { self.new.branches ≡ applied self.old.branches (Edit.Put (named_child nothing child.old) (Place.Into (Ref.Fixed parent))) }
        ensures spare { self.old.spare ≤ self.new.spare + 1 }
    {
        child.tell();
        let child = mem::replace(child, Child::Element(Ref::Fixed(0)));
        self.apply_one(Edit::Put {
            child,
            place: Place::Into(Ref::Fixed(parent)),
        });
    }

    /// Makes the next element, which has no parent. Some other tag is left in the place of its own.
    #[inline(never)]
    fn new_element(&mut self, tag: &mut Tag)
        requires { length tag.old.attributes < self.old.spare }
        ensures branches { self.new.branches ≡ applied self.old.branches (Edit.NewElement tag.old) }
        ensures spare { self.old.spare ≤ self.new.spare + (length tag.old.attributes + 1) }
    {
        let other = Tag {
            namespace: Namespace::Html,
            name: Name::of_known(Known::HTML),
            attributes: Chain::new(),
        };
        self.arena.new_element(mem::replace(tag, other));
    }

    /// Puts a text last into an element.
    #[inline(never)]
    fn put_text(&mut self, text: &mut Text<'p>, parent: u64)
        requires { 0 < self.old.spare }
        ensures branches { self.new.branches ≡ applied self.old.branches (Edit.Put (Child.Text text.old) (Place.Into (Ref.Fixed parent))) }
        ensures spare { self.old.spare ≤ self.new.spare + 1 }
    {
        let text = mem::replace(text, Text::new());
        self.arena.put_text_into(text, Ref::Fixed(parent));
    }

    /// Makes an edit of any kind.
    #[inline(never)]
    fn make_seldom(&mut self, edit: &mut Edit<'p>)
        requires { room_of edit.old ≤ self.old.spare }
        ensures branches { self.new.branches ≡ applied self.old.branches (named_edit nothing edit.old) }
        ensures spare { self.old.spare ≤ self.new.spare + room_of edit.old }
    {
        edit.tell();
        let other = Edit::Detach {
            node: Ref::Fixed(0),
        };
        self.apply_one(mem::replace(edit, other));
    }
}

impl<'p> Tree<'p> {
    /// Puts the elements of another tree but its document, in which nothing stands, behind those of this one. There is as much room for
    /// edits as before. At an `Err`, which is want of memory, also where a list or count of the tree would be past 2^29, the tree is as
    /// before and the other one comes back.
    pub(crate) fn graft_tree(&mut self, alloc: Global, other: Tree<'p>) -> Result<(), Tree<'p>>
        requires blank { IsBlank other.branches }
        ensures branches { OnOk result (self.new.branches ≡ graft self.old.branches (behind_document other.entry.branches)) }
        ensures spare { OnOk result (self.new.spare ≡ self.old.spare) }
        ensures err { OnErr result (self.new ≡ self.old) }
        ensures back { IfErr result (λ back. back ≡ other.entry) }
    {
        // `len` hands on that the document is there, whose children stay.
        let _elements = self.len();
        let (arena, roots) = other.into_parts();
        match self.arena.graft(alloc, arena) {
            Ok(()) => Ok(()),
            Err(arena) => Err(Tree { arena, roots }),
        }
    }

    /// Gives the memory back in which nothing stands. There is no room for edits then.
    pub(crate) fn shrink(&mut self)
        ensures { self.new.branches ≡ self.old.branches }
    {
        self.arena.shrink();
    }

    /// The lists, and which elements may stand in the document.
    fn into_parts(self) -> (Arena<'p>, Roots)
        ensures arena { result.0 ≡ self.entry }
        ensures roots { AreRoots result.1 result.0.branches }
    {
        let Tree { arena, roots } = self;
        (arena, roots)
    }
}

impl<'p> Tree<'p> {
    /// The number of elements, with the document. Each element has at most one parent, and the document has none.
    pub fn len(&self) -> u32
        ensures count { result ≡ length self.now.branches }
        ensures forest { IsForest self.now.branches }
    {
        self.arena.len()
    }

    /// About how many levels stand above the lines of the tree's text, all together: those above each item, and those above the
    /// deepest for each attribute that there may be. Nothing is promised of it.
    pub fn summed_levels(&self) -> u64 {
        self.arena.summed_levels()
    }

    /// At least as many as the attributes of any element.
    pub fn most_attributes(&self) -> usize
        ensures { (id : ℕ) → id < length self.now.branches → attribute_count (branch self.now.branches id).tag ≤ result }
    {
        self.arena.most_attributes()
    }

    /// The document.
    pub fn root(&self) -> At
        ensures { result ≡ At.Document }
    {
        At::Document
    }

    /// What stands there.
    #[inline(always)]
    pub fn view(&self, at: At) -> NodeView<'_, 'p>
        requires { IsAt self.now at }
        ensures view { IsShown self.now.branches at result }
        ensures tag { HasTag self.now.branches result }
    {
        match at {
            At::Document => NodeView::Document,
            At::Child(spot) => self.arena.view(spot),
            At::Contents(_) => NodeView::Contents,
        }
    }

    /// The first child of the document, of an element or of the contents of a template. A template has no children
    /// beside its contents.
    pub fn first_child(&self, at: At) -> Option<At>
        requires { IsAt self.now at }
        ensures first { MatchOption result (children self.now.branches at ≡ []) (IsFirstChild self.now at) }
        ensures there { IfSome result (IsAt self.now) }
    {
        match self.list_of(at) {
            Some(id) => self.first_inside(id),
            None => None,
        }
    }

    /// The next in the same list of children.
    #[inline(always)]
    pub fn next_sibling(&self, at: At) -> Option<At>
        requires { IsAt self.now at }
        ensures next { MatchOption result (length (siblings self.now.branches at) ≤ place_of at + 1) (λ next. IsIn self.now (parent_of at) (place_of at + 1) next) }
        ensures there { IfSome result (IsAt self.now) }
    {
        match at {
            At::Child(spot) => match self.arena.next_sibling(spot) {
                Some(next) => Some(At::Child(next)),
                None => None,
            },
            At::Document | At::Contents(_) => None,
        }
    }

    /// The contents of a template.
    pub fn contents(&self, at: At) -> Option<At>
        requires { IsAt self.now at }
        ensures contents { result ≡ contents_of self.now.branches at }
        ensures there { IfSome result (IsAt self.now) }
    {
        let At::Child(spot) = at else { return None };
        match self.arena.view(spot) {
            NodeView::Element { id, tag } => {
                if is_template(tag) {
                    Some(At::Contents(id))
                } else {
                    None
                }
            }
            _ => None,
        }
    }

    /// The first of what stands inside the element of this id: of its children, or of the contents if it is a
    /// template. The document is 0.
    pub fn first_inside(&self, id: u32) -> Option<At>
        requires { id < length self.now.branches }
        ensures first { MatchOption result ((branch self.now.branches id).inside ≡ []) (IsIn self.now id 0) }
        ensures there { IfSome result (IsAt self.now) }
        ensures forest { IsForest self.now.branches }
    {
        match self.arena.first_inside(id) {
            Some(spot) => Some(At::Child(spot)),
            None => None,
        }
    }

    /// The first of what stands inside the element there: of its children, or of the contents if it is a template.
    #[inline(always)]
    pub fn first_below(&self, at: At) -> Option<At>
        requires { IsAt self.now at }
        ensures first { MatchOption result (items_in_list self.now.branches (element_at self.now.branches at) ≡ []) (IsFirstBelow self.now at) }
        ensures there { IfSome result (IsAt self.now) }
    {
        let At::Child(spot) = at else { return None };
        match self.arena.first_below(spot) {
            Some(first) => Some(At::Child(first)),
            None => None,
        }
    }

    /// The element in whose list of children the element of this id stands, if it stands in one. Each stands in one at most. It takes
    /// constant time where it stands in none, and else goes by the siblings behind it.
    pub fn parent_of(&self, id: u32) -> Option<u32>
        requires { id < length self.now.branches }
        ensures parent { MatchOption result (has_parent self.now.branches id ≡ false) (λ parent. stands_in self.now.branches parent id ≡ true) }
        ensures forest { IsForest self.now.branches }
    {
        self.arena.parent_of(id)
    }

    /// The element whose list of children a reader comes to from there.
    fn list_of(&self, at: At) -> Option<u32>
        requires { IsAt self.now at }
        ensures list { result ≡ list_of self.now.branches at }
        ensures there { IfSome result (λ id. id < length self.now.branches) }
    {
        // `len` hands on that the tree is a forest: the document and each child are there.
        let _elements = self.len();
        match at {
            At::Document => Some(0),
            At::Contents(id) => Some(id),
            At::Child(spot) => match self.arena.view(spot) {
                NodeView::Element { id, tag } => { if is_template(tag) { None } else { Some(id) } }
                _ => None,
            },
        }
    }
}
