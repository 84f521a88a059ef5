//! How far the chains of a selector have come above an element: a row with an entry for each compound.

ghost use Rattle.std.specs.Prelude.{◌≡◌, ◌&&◌, IfOk, length};
ghost use Rattle.hp_select.specs.Matching.{is_compound};
ghost use Rattle.hp_select.specs.Rows.{is_here, is_open, is_reached, is_selected, no_row, reach_below, row_below};

use crate::matching::is_compound;
use crate::selector::{Combinator, Step};
use hp_elements::{NoMemory, Tag};
use std::alloc::Global;

/// Whether the chain up to a compound matches one of the elements in which a list of items stands.
#[derive(Clone, Copy, PartialEq, Eq)]
pub enum Reach {
    Nowhere,
    /// It matches one of them, but not the last, the parent.
    Above,
    /// It matches the parent.
    Here,
}

/// The row where there are no ancestors.
pub fn no_row(alloc: Global, steps: &[Step]) -> Result<Vec<Reach>, NoMemory>
    ensures { IfOk result (λ row. row.items ≡ no_row steps.now) }
{
    let mut row = Vec::with_capacity(alloc, steps.len())?;
    for _step in steps {
        row.push(Reach::Nowhere)?;
    }
    Ok(row)
}

/// The row inside an element with this tag, which stands below the row `above`.
pub fn row_below(
    alloc: Global,
    tag: &Tag,
    steps: &[Step],
    above: &[Reach],
) -> Result<Vec<Reach>, NoMemory>
    requires { length above.now ≡ length steps.now }
    ensures { IfOk result (λ row. row.items ≡ row_below tag.now steps.now above.now) }
{
    let mut row = Vec::with_capacity(alloc, steps.len())?;
    let mut before = Reach::Nowhere;
    for (step, reach) in steps.iter().zip(above) {
        row.push(reach_below(tag, step, before, *reach))?;
        before = *reach;
    }
    Ok(row)
}

/// A step's entry inside an element, where the compound before it and its own have come so far above.
fn reach_below(tag: &Tag, step: &Step, before: Reach, above: Reach) -> Reach
    ensures { result ≡ reach_below (is_compound tag.now step.now.compound && is_open step.now.combinator before) above }
{
    if is_open(step.combinator, before) && is_compound(tag, &step.compound) {
        return Reach::Here;
    }
    match above {
        Reach::Nowhere => Reach::Nowhere,
        Reach::Above | Reach::Here => Reach::Above,
    }
}

/// Whether the compound before has come as far as a combinator asks.
fn is_open(combinator: Combinator, before: Reach) -> bool
    ensures { result ≡ is_open combinator before }
{
    match combinator {
        Combinator::Begin => true,
        Combinator::Descendant => before != Reach::Nowhere,
        Combinator::Child => before == Reach::Here,
    }
}

/// Whether one of the chains matches the element inside which this is the row.
pub fn is_selected(steps: &[Step], row: &[Reach]) -> bool
    requires { length row.now ≡ length steps.now }
    ensures { result ≡ is_selected steps.now row.now }
{
    let mut is_last_here = false;
    for (step, reach) in steps.iter().zip(row) {
        if is_last_here && step.combinator == Combinator::Begin {
            return true;
        }
        is_last_here = *reach == Reach::Here;
    }
    is_last_here
}
