//! How deep a tree is. Its text shows the items in the order in which the links lead through them.

ghost use Rattle.std.specs.Prelude.{◌<◌, ◌^◌, ◌++◌, [], ◌∷◌, length};
ghost use Rattle.hp_store.specs.Numbers.{no_counts, Fits};
ghost use Rattle.hp_store.specs.Parts.{end_of, AreLaid};

use crate::finding::{node_part, part_at};
use crate::node::{Kind, Node};
use crate::part::Part;

/// The place of no node.
const NONE: u32 = u32::MAX;

/// How far a walk has come.
#[derive(Clone, Copy)]
struct Walk {
    /// The node that it looks at next; none behind the end of the document.
    at: u32,
    /// How many levels stand above that.
    level: u64,
    /// The most levels that stood above a node before it.
    deepest: u64,
}

impl Part<'_> {
    /// Goes on as long as the way stays in this part. An element stands right before the end of its own children.
    #[inline(always)]
    fn walk(&self, from: Walk) -> Walk {
        let nodes = self.nodes.as_slice();
        let Walk {
            at,
            mut level,
            mut deepest,
        } = from;
        let mut place = at.wrapping_sub(self.before.nodes);
        for _turn in 0..nodes.len() {
            let Some(node) = nodes.get(place as usize) else {
                break;
            };
            place = match node.kind {
                Kind::Leaf(_) => node.next,
                Kind::Element(_) => {
                    level = level.saturating_add(1);
                    deepest = deepest.max(level);
                    next_in(nodes, place.wrapping_add(1))
                }
                Kind::End(_) if level == 0 => NONE,
                Kind::End(_) => {
                    level = level.saturating_sub(1);
                    next_in(nodes, place.wrapping_sub(1))
                }
            };
        }
        Walk {
            at: self.place_in_all(place),
            level,
            deepest,
        }
    }

    /// The place among all nodes of a node that is told by its place here.
    fn place_in_all(&self, place: u32) -> u32 {
        if place == NONE {
            return NONE;
        }
        self.before.nodes.wrapping_add(place)
    }
}

/// The node after the one at this place.
#[inline(always)]
fn next_in(nodes: &[Node], place: u32) -> u32 {
    match nodes.get(place as usize) {
        Some(node) => node.next,
        None => NONE,
    }
}

/// How many levels stand above the deepest item that the links lead to from this node on. Nothing is promised of it.
#[inline(never)]
pub fn deepest_from<'p>(parts: &[Part<'p>], last: &Part<'p>, at: u32) -> u64
    requires laid { AreLaid no_counts (parts.now ++ last.now ∷ []) }
    requires fits { Fits (end_of last.now) }
    requires few { length parts.now < 2 ^ 32 }
{
    let count = last.end().nodes;
    let mut walk = Walk {
        at,
        level: 0,
        deepest: 0,
    };
    let mut number = 0;
    for _turn in 0..count {
        if count <= walk.at {
            return walk.deepest;
        }
        number = node_part(parts, last, walk.at, number);
        walk = part_at(&*parts, &*last, number).walk(walk);
    }
    walk.deepest
}
