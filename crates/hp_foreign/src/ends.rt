//! Where foreign content ends, and its characters (13.2.6.5).
ghost use Rattle.std.specs.Prelude.{◌≡◌, IfOk};
ghost use Rattle.hp_control.specs.Foreign.{replaced};
ghost use Rattle.hp_views.specs.View.{sight, Answers, Meets};
ghost use Rattle.hp_foreign.specs.Plans.{names_plan};
ghost use Rattle.hp_foreign.specs.Steps.{pop_to_point_step, through_foreign_step, put_replacements_step};

use hp_control::{Below, Child, Refusal};
use hp_elements::{Kinds, Name, NoMemory, Text};
use hp_views::{View, Walk, element_walk, older_reach};
use std::alloc::Global;

/// Pops to an HTML element or an integration point.
pub fn pop_to_point<'p, B: Below>(alloc: Global, view: &mut View<'p, B>) -> Result<(), Refusal>
    ensures { Meets result (sight B.heard view.old) (sight B.heard view.new) pop_to_point_step }
{
    view.pop_to(alloc, Kinds::HtmlOrPoint)
}

/// Pops up to and with the nearest foreign element of that name, without ASCII case, where it stands above the nearest HTML
/// element.
pub fn through_foreign<'p, B: Below>(
    alloc: Global,
    view: &mut View<'p, B>,
    name: Name,
) -> Result<(), Refusal>
    ensures { Meets result (sight B.heard view.old) (sight B.heard view.new) (through_foreign_step name) }
{
    view.through(alloc, Kinds::Foreign(name), Kinds::AnyHtml)
}

/// Whether a foreign element of that name, without ASCII case, stands above the nearest HTML element. Of older elements it is
/// asked how deep it stands, as where it is popped.
pub fn names_foreign<'p, B: Below>(
    alloc: Global,
    view: &mut View<'p, B>,
    name: Name,
) -> Result<bool, Refusal>
    ensures { Answers result (sight B.heard view.old) (sight B.heard view.new) (names_plan name) }
{
    let goals = Kinds::Foreign(name);
    match element_walk(&view.change.stack, &goals, &Kinds::AnyHtml) {
        Walk::Found(_) => Ok(true),
        Walk::Stopped => Ok(false),
        Walk::PastAll => {
            let depth = view.change.popped;
            let found = older_reach(&mut view.below, alloc, depth, goals, Kinds::AnyHtml)?;
            Ok(found.is_some())
        }
    }
}

/// U+FFFD for each code point of a text.
fn replaced(alloc: Global, text: &Text<'_>) -> Result<Text<'static>, NoMemory>
    ensures { IfOk result (λ made. made ≡ replaced text.now) }
{
    let mut made = Text::new();
    for _c in text.as_str().chars() {
        made.push(alloc, '\u{FFFD}')?;
    }
    Ok(made)
}

/// Inserts U+FFFD for each code point of a text.
pub fn put_replacements<'p, B: Below>(
    alloc: Global,
    view: &mut View<'p, B>,
    fostering: bool,
    text: &Text<'_>,
) -> Result<(), Refusal>
    ensures { Meets result (sight B.heard view.old) (sight B.heard view.new) (put_replacements_step fostering text.now) }
{
    let text = replaced(alloc, text)?;
    view.put(alloc, fostering, Child::Text(text))
}
