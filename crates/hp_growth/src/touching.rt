//! What an outer edit touches is marked.

ghost use Rattle.std.specs.Prelude.{◌≡◌, ◌≤◌, [], ◌++◌, length, IfSome, option_to_list};
ghost use Rattle.std.specs.List.{flat_map};
ghost use Rattle.hp_groves.specs.Split.{parents_from};
ghost use Rattle.hp_growth.specs.Growing.{IsRooted};
ghost use Rattle.hp_growth.specs.Marking.{IsMarked};
ghost use Rattle.hp_growth.specs.Reaching.{AreWithin, moved_of, parents_of};

use crate::marks::Marks;
use crate::touched::Touched;
use hp_arena::Tree;

/// Marks what is touched: the children of the elements that are named for them and of those among whose children a moved one stands, and
/// the parents of what is moved.
pub(crate) fn touch(grove: &Tree<'_>, marks: &mut Marks, touched: Touched)
    requires within { AreWithin (length marks.old) touched }
    requires rooted { IsRooted grove.now.branches (length marks.old) }
    ensures { IsMarked marks.old marks.new (parents_of touched ++ flat_map (parents_from 0 grove.now.branches) (moved_of touched)) (moved_of touched) }
{
    touch_children(marks, touched.parent);
    touch_children(marks, touched.other);
    move_away(grove, marks, touched.child);
    move_away(grove, marks, touched.table);
}

/// Marks the children of an element.
fn touch_children(marks: &mut Marks, id: Option<u32>)
    requires { IfSome id (λ id. id ≤ length marks.old) }
    ensures { IsMarked marks.old marks.new (option_to_list id) [] }
{
    if let Some(id) = id {
        marks.touch_children(id);
    }
}

/// Marks the parent of an element, and the children among which it stands.
fn move_away(grove: &Tree<'_>, marks: &mut Marks, id: Option<u32>)
    requires within { IfSome id (λ id. id ≤ length marks.old) }
    requires rooted { IsRooted grove.now.branches (length marks.old) }
    ensures { IsMarked marks.old marks.new (flat_map (parents_from 0 grove.now.branches) (option_to_list id)) (option_to_list id) }
{
    if let Some(id) = id {
        touch_siblings(grove, marks, id);
        marks.touch_parent(id);
    }
}

/// Marks the children among which an element stands.
fn touch_siblings(grove: &Tree<'_>, marks: &mut Marks, id: u32)
    requires within { id ≤ length marks.old }
    requires rooted { IsRooted grove.now.branches (length marks.old) }
    ensures { IsMarked marks.old marks.new (parents_from 0 grove.now.branches id) [] }
{
    if let Some(parent) = grove.parent_of(id) {
        marks.touch_children(parent);
    }
}
