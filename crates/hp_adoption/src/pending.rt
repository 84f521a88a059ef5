//! The pending table characters go into the tree (13.2.6.4.10).
ghost use Rattle.std.specs.Prelude.{◌≡◌};
ghost use Rattle.std.specs.List.{list_all};
ghost use Rattle.hp_control.specs.Composed.{is_white as spec_is_white};
ghost use Rattle.hp_views.specs.View.{sight, Carries};
ghost use Rattle.hp_adoption.specs.FlushPlans.{foster_text, flush_plan};

use crate::reconstruction::reconstruct;
use hp_control::{Below, Child, Crossing, Refusal};
use hp_elements::{CharClass, Text};
use hp_views::View;
use std::alloc::Global;
use std::mem;

fn is_white(c: char) -> bool
    ensures { result ≡ spec_is_white c }
{
    match CharClass::of(c) {
        CharClass::White => true,
        CharClass::Nul => false,
        CharClass::Other => false,
    }
}

/// Whether all characters are white.
fn are_white(text: &Text<'_>) -> bool
    ensures { result ≡ list_all spec_is_white text.now }
{
    for c in text.as_str().chars() {
        if !is_white(c) {
            return false;
        }
    }
    true
}

/// Puts the characters, after a reconstruction, where content goes that may not stand in a table, and a frameset may no longer
/// replace the body.
fn foster<'p, B: Below>(
    alloc: Global,
    view: &mut View<'p, B>,
    text: Text<'p>,
) -> Result<(), Refusal>
    ensures { Carries result (sight B.heard view.old) (sight B.heard view.new) (foster_text text.entry) }
{
    reconstruct(alloc, view, true)?;
    view.put(alloc, true, Child::Text(text))?;
    view.frameset_not_ok(alloc)
}

/// Puts the pending table characters into the tree: at the current node where all are white, and else where content goes that may
/// not stand in a table. They are one text. Where the chunk began among them, it crosses.
pub fn flush<'p, B: Below>(alloc: Global, view: &mut View<'p, B>) -> Result<(), Refusal>
    ensures { Carries result (sight B.heard view.old) (sight B.heard view.new) flush_plan }
{
    if view.older_text {
        return Err(Refusal::Crossed(Crossing::X7));
    }
    let text = mem::replace(&mut view.change.pending, Text::new());
    if text.is_empty() {
        Ok(())
    } else if are_white(&text) {
        view.put(alloc, false, Child::Text(text))
    } else {
        foster(alloc, view, text)
    }
}
