//! What tests of views share: steps on a view, one after the other. Where there is memory each succeeds, over a guess and over a known state.
//!
//! A contract lets a call want memory at any time. Each call of `hp_views`, `hp_adoption` and `hp_foreign` that may is reached here:
//! - The acts and the tests of `hp_acts::carry` each reach the call of their name.
//! - What is asked of an older state: `older_seen` by `InScope`, `older_html` by `IsHtml`, `older_paragraph` and `older_reach` by `CloseParagraph`, `older_run`
//!   by `Implied`, `older_template` by `TemplateInStack`, `older_reset` by `Reset`, `older_quiet` by `Reconstruct`, `older_listed` by `Listed`, `older_same` by
//!   `AppendToList`,
//!   `older_pointer` by `HasForm`, `older_quirks` by `IsQuirks`, `older_frameset` by `FramesetOk`, `older_body` by `SecondIsBody`, `older_there` by that
//!   test behind an own `body`, `older_foreign` by `IsHtml` where no element is left, `older_last_tag` by `LastTag`.
//! - Calls within others: `is_seen` by `InScope`, `through` by `CloseItem`, `close`, `implied_except` and `has_paragraph` by `CloseParagraph`, `through_named` and
//!   `end_form_in_template` by `EndForm` in a template, `pop_run` by `Implied`, `place` and `put` by `Characters`, `remove_entry` and `take_off` by
//!   `CloseLink`, `append_entry` by `AppendToList`, `switch_to` by `Switch`.
//! - `hp_foreign::goes_to_foreign` by `Handles`, `put_replacements` by `Replacement`; `hp_acts::handle`, `handle_text` and `handle_text_below` by `Handles`,
//!   `Reads` and `ReadsBelow`.
use hp_acts::{Spending, carry, handle, handle_text, handle_text_below, may_take_text, takes_text};
use hp_control::{Below, Refusal};
use hp_elements::{Act, Chain, CharClass, Kinds, Known, Name, Namespace, Tag, Test, Text, Token};
use hp_views::View;
use std::alloc::Global;
use std::mem;

/// A step on a view. Start tags have no attributes, and what is put is one letter.
#[derive(Clone, Copy)]
pub(crate) enum Step {
    /// The act for a start tag of that name is carried out.
    Does(Known, Act),
    /// With fostering on, the same.
    Fosters(Known, Act),
    /// The test holds for a start tag of that name.
    Holds(Known, Test),
    /// The test fails for a start tag of that name.
    Fails(Known, Test),
    /// The act for a start tag of that name crosses.
    Crosses(Known, Act),
    /// The act for a text is carried out.
    Puts(Act),
    /// The act for a comment is carried out.
    Notes(Act),
    /// A start tag of that name is handled.
    Handles(Known),
    /// A text is handled as it comes.
    Reads,
    /// The same where nothing own is open, and the older current node is HTML.
    ReadsBelow,
    /// The adjusted current node, where there is one, is an HTML element.
    IsHtml,
    /// The last start tag's name is told.
    LastTag,
    /// The form pointer is emptied.
    EmptiesForm,
}

fn start<'p>(known: Known) -> Token<'p> {
    let tag = Tag {
        namespace: Namespace::Html,
        name: Name::of_known(known),
        attributes: Chain::new(),
    };
    Token::Start {
        self_closing: false,
        tag,
    }
}

/// A text of one letter.
fn letter<'p>() -> Token<'p> {
    Token::Characters {
        class: CharClass::Other,
        text: Text::of_char('a'),
    }
}

fn of_test(test: Test) -> Act {
    Act::If { test, otherwise: 0 }
}

/// Whether the act answers that for the token; where nothing is wanted, whether it crosses.
fn carries<'p, B: Below>(
    alloc: Global,
    view: &mut View<'p, B>,
    act: Act,
    token: Token<'p>,
    fostering: bool,
    wanted: Option<bool>,
) -> bool {
    let mut token = token;
    let done = carry(alloc, view, act, &mut token, Spending::Copies, fostering);
    mem::forget(token);
    match done {
        Ok(answer) => wanted == Some(answer),
        Err(Refusal::Crossed(_)) => wanted.is_none(),
        Err(Refusal::NoMemory) => false,
    }
}

/// Whether the name of the last start tag is told.
fn tells_last_tag<'p, B: Below>(alloc: Global, view: &mut View<'p, B>) -> bool {
    let name = view.last_tag(alloc);
    let well = name.is_ok();
    mem::forget(name);
    well
}

/// Whether the older current node is HTML, and a text goes into it.
fn reads_below<'p, B: Below>(alloc: Global, view: &mut View<'p, B>) -> bool {
    matches!(view.current_is(alloc, Kinds::AnyHtml), Ok(true))
        && may_take_text(view)
        && handle_text_below(alloc, view, Text::of_char('a')).is_ok()
}

/// Whether the step comes out so.
fn comes_out<'p, B: Below>(alloc: Global, view: &mut View<'p, B>, step: Step) -> bool {
    match step {
        Step::Does(known, act) => carries(alloc, view, act, start(known), false, Some(true)),
        Step::Fosters(known, act) => carries(alloc, view, act, start(known), true, Some(true)),
        Step::Holds(known, test) => {
            carries(alloc, view, of_test(test), start(known), false, Some(true))
        }
        Step::Fails(known, test) => {
            carries(alloc, view, of_test(test), start(known), false, Some(false))
        }
        Step::Crosses(known, act) => carries(alloc, view, act, start(known), false, None),
        Step::Puts(act) => carries(alloc, view, act, letter(), false, Some(true)),
        Step::Notes(act) => {
            let comment = Token::Comment { text: Text::new() };
            carries(alloc, view, act, comment, false, Some(true))
        }
        Step::Handles(known) => handle(alloc, view, start(known)).is_ok(),
        Step::Reads => takes_text(view) && handle_text(alloc, view, Text::of_char('a')).is_ok(),
        Step::ReadsBelow => reads_below(alloc, view),
        Step::IsHtml => matches!(view.foreign_now(alloc), Ok(false)),
        Step::LastTag => tells_last_tag(alloc, view),
        Step::EmptiesForm => view.empty_form(alloc).is_ok(),
    }
}

/// How many of the steps come out so, up to one that doesn't.
pub(crate) fn count_of<'p, B: Below>(
    alloc: Global,
    view: &mut View<'p, B>,
    steps: &[Step],
) -> usize {
    for (count, step) in steps.iter().enumerate() {
        if !comes_out(alloc, view, *step) {
            return count;
        }
    }
    steps.len()
}
