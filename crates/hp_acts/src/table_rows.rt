//! The usual rows of tables: where a row or a cell begins, and where it ends (13.2.6.4.13 to 13.2.6.4.15).
ghost use Rattle.std.specs.Prelude.{◌≡◌};
ghost use Rattle.hp_elements.specs.declared.sets.Namespace.TheVariants.{Html};
ghost use Rattle.hp_views.specs.View.{sight, Carries};
ghost use Rattle.hp_acts.specs.Usual.{cell_end_plan, cell_left_plan, cell_plan, row_end_plan, row_plan};

use crate::ends::ends_top;
use crate::usual::insert;
use hp_control::{Below, Refusal};
use hp_elements::{Kinds, Known, Mode, Name, Scope, SetName, Tag};
use hp_views::View;
use std::alloc::Global;

/// A row begins.
#[inline(never)]
pub(crate) fn begin_row<'p, B: Below>(
    alloc: Global,
    view: &mut View<'p, B>,
    tag: &mut Tag,
) -> Result<(), Refusal>
    requires html { tag.old.namespace ≡ Html }
    ensures { Carries result (sight B.heard view.old) (sight B.heard view.new) (row_plan tag.old) }
{
    view.pop_to(alloc, Kinds::Set(SetName::TableBodyContext))?;
    insert(alloc, view, tag)?;
    view.switch_to(alloc, Mode::InRow)
}

/// A cell begins.
#[inline(never)]
pub(crate) fn begin_cell<'p, B: Below>(
    alloc: Global,
    view: &mut View<'p, B>,
    tag: &mut Tag,
) -> Result<(), Refusal>
    requires html { tag.old.namespace ≡ Html }
    ensures { Carries result (sight B.heard view.old) (sight B.heard view.new) (cell_plan tag.old) }
{
    view.pop_to(alloc, Kinds::Set(SetName::TableRowContext))?;
    insert(alloc, view, tag)?;
    view.switch_to(alloc, Mode::InCell)?;
    view.add_marker(alloc)
}

/// A row ends, where it is in scope.
#[inline(never)]
pub(crate) fn end_row<'p, B: Below>(alloc: Global, view: &mut View<'p, B>) -> Result<(), Refusal>
    ensures { Carries result (sight B.heard view.old) (sight B.heard view.new) row_end_plan }
{
    let goals = Kinds::Html(Name::of_known(Known::TR));
    let is_open = view.in_scope(alloc, Scope::Table, goals)?;
    if !is_open {
        return Ok(());
    }
    view.pop_to(alloc, Kinds::Set(SetName::TableRowContext))?;
    view.pop(alloc)?;
    view.switch_to(alloc, Mode::InTableBody)
}

/// A cell ends.
#[inline(never)]
pub(crate) fn end_cell<'p, B: Below>(
    alloc: Global,
    view: &mut View<'p, B>,
    name: Name,
) -> Result<(), Refusal>
    ensures { Carries result (sight B.heard view.old) (sight B.heard view.new) (cell_end_plan name) }
{
    if ends_top(&view.change.stack, &name, SetName::Implied) {
        view.pop_own(1);
        return leave_cell(alloc, view);
    }
    end_cell_any(alloc, view, name)
}

/// The same where it may not be the current node: it ends where it is in scope.
#[inline(never)]
fn end_cell_any<'p, B: Below>(
    alloc: Global,
    view: &mut View<'p, B>,
    name: Name,
) -> Result<(), Refusal>
    ensures { Carries result (sight B.heard view.old) (sight B.heard view.new) (cell_end_plan name) }
{
    let goals = Kinds::Html(name.copy(alloc)?);
    let is_open = view.in_scope(alloc, Scope::Table, goals)?;
    if !is_open {
        return Ok(());
    }
    view.implied(alloc)?;
    view.through(alloc, Kinds::Html(name), Kinds::Nothing)?;
    leave_cell(alloc, view)
}

#[inline(always)]
fn leave_cell<'p, B: Below>(alloc: Global, view: &mut View<'p, B>) -> Result<(), Refusal>
    ensures { Carries result (sight B.heard view.old) (sight B.heard view.new) cell_left_plan }
{
    view.clear_to_marker(alloc)?;
    view.switch_to(alloc, Mode::InRow)
}
