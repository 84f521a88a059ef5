//! Nodes.

ghost use Rattle.std.specs.Prelude.{◌≡◌};
ghost use Rattle.hp_store.specs.Numbers.{counted, no_counts, sum_of, Fits};
ghost use Rattle.hp_store.specs.Lists.{alone, node_linked};
ghost use Rattle.hp_store.specs.Grafting.{raised_kind, raised_node};

/// How many nodes, elements and leaves there are, or come before something. The document is no element here.
#[derive(Clone, Copy)]
pub struct Counts {
    pub nodes: u32,
    pub elements: u32,
    pub leaves: u32,
}

/// What a node is. The numbers are places in the tree's other lists. The document is the element 0.
#[derive(Clone, Copy, PartialEq, Eq)]
pub enum Kind {
    /// The end of the children of the element of this number.
    End(u32),
    /// The element of this number.
    Element(u32),
    /// A text, comment or doctype: the leaf of this number.
    Leaf(u32),
}

/// A node with the nodes beside it.
#[derive(Clone, Copy)]
pub struct Node {
    pub prev: u32,
    pub next: u32,
    pub kind: Kind,
}

const _: () = prove!(size_of::<Node>() == 16);

/// A side of a node.
#[derive(Clone, Copy)]
pub(crate) enum Side {
    /// Where the node after it is.
    Next,
    /// Where the node before it is.
    Prev,
}

impl Counts {
    /// Nothing.
    pub fn none() -> Counts
        ensures { result ≡ no_counts }
    {
        Counts {
            nodes: 0,
            elements: 0,
            leaves: 0,
        }
    }

    /// Both together.
    pub fn plus(self, more: Counts) -> Counts
        requires { Fits (sum_of self more) }
        ensures { result ≡ sum_of self more }
    {
        Counts {
            nodes: self.nodes + more.nodes,
            elements: self.elements + more.elements,
            leaves: self.leaves + more.leaves,
        }
    }
}

impl Kind {
    /// This kind where so much comes before what its number counts. Numbers wrap past 32 bits.
    #[inline(always)]
    pub fn counted(self, before: Counts) -> Kind
        ensures { result ≡ raised_kind before self }
    {
        match self {
            Kind::End(id) => Kind::End(before.elements.wrapping_add(id)),
            Kind::Element(id) => Kind::Element(before.elements.wrapping_add(id)),
            Kind::Leaf(number) => Kind::Leaf(before.leaves.wrapping_add(number)),
        }
    }
}

/// A number before which nothing comes.
#[inline(always)]
pub fn own_number(number: u32) -> u32
    ensures same { result ≡ number }
    ensures counted { result ≡ counted 0 number }
{
    number
}

impl Kind {
    /// This kind where nothing comes before what its number counts.
    #[inline(always)]
    fn own(self) -> Kind
        ensures { result ≡ raised_kind no_counts self }
    {
        match self {
            Kind::End(id) => Kind::End(own_number(id)),
            Kind::Element(id) => Kind::Element(own_number(id)),
            Kind::Leaf(number) => Kind::Leaf(own_number(number)),
        }
    }
}

impl Node {
    /// This node where nothing comes before what its numbers count.
    #[inline(always)]
    pub fn own(self) -> Node
        ensures { result ≡ raised_node no_counts self }
    {
        Node {
            prev: own_number(self.prev),
            next: own_number(self.next),
            kind: self.kind.own(),
        }
    }

    /// This node where so much comes before what its numbers count.
    #[inline(always)]
    pub fn counted(self, before: Counts) -> Node
        ensures { result ≡ raised_node before self }
    {
        Node {
            prev: before.nodes.wrapping_add(self.prev),
            next: before.nodes.wrapping_add(self.next),
            kind: self.kind.counted(before),
        }
    }

    /// Makes another node the one on this side.
    #[inline(always)]
    pub(crate) fn link(&mut self, side: Side, to: u32)
        ensures { self.new ≡ node_linked side self.old to }
    {
        match side {
            Side::Next => self.next = to,
            Side::Prev => self.prev = to,
        }
    }
}

/// A node in no list of children, at this place.
#[inline(always)]
pub fn alone(at: u32, kind: Kind) -> Node
    ensures { result ≡ alone at kind }
{
    Node {
        prev: at,
        next: at,
        kind,
    }
}
