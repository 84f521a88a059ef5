//! Runs of text where the rules do nothing but put them into the current node: a short way to what the rows say (13.2.6.4.7,
//! 13.2.6.4.8).
ghost use Rattle.std.specs.Prelude.{◌≡◌, true};
ghost use Rattle.hp_views.specs.View.{sight, split_of, Carries};
ghost use Rattle.hp_acts.specs.HandlePlans.{all_turns_plan, handle_plan};
ghost use Rattle.hp_acts.specs.Handling.{Handles, HandlesBelow};
ghost use Rattle.hp_acts.specs.Plain.{IsPlain, body_text_plan, is_nothing_open, is_run, may_take_text, takes_text, text_plan};
ghost use Rattle.hp_model.specs.Texts.{as_run, has_html_top, is_text_mode, is_white, white_or_other};
ghost use Rattle.std.specs.List.{list_all};
ghost use Rattle.std.specs.Str.{chars};

use crate::turns::{Handled, NOTHING};
use hp_adoption::reconstruct;
use hp_control::{Below, Child, OpenElements, Refusal, is_html};
use hp_elements::{CharClass, Mode, Text, Token};
use hp_views::View;
use std::alloc::Global;

/// Whether the current node is an own HTML element.
pub(crate) fn is_in_html(stack: &OpenElements) -> bool
    ensures { result ≡ has_html_top stack.now }
{
    !stack.is_empty() && is_html(stack.at(0))
}

/// Whether text goes into the current node in this mode.
fn is_text_mode(mode: Mode) -> bool
    ensures { result ≡ is_text_mode mode }
{
    match mode {
        Mode::Text | Mode::InBody | Mode::InCell | Mode::InCaption => true,
        _ => false,
    }
}

/// Whether the token is a run of characters, but not of U+0000.
pub(crate) fn is_run(token: &Token<'_>) -> bool
    ensures { result ≡ is_run token.now }
{
    match token {
        Token::Characters { class, .. } => match class {
            CharClass::Nul => false,
            CharClass::White | CharClass::Other => true,
        },
        _ => false,
    }
}

/// Whether the token is a run of text that goes into the current node.
pub(crate) fn is_plain<'p, B: Below>(view: &View<'p, B>, token: &Token<'p>) -> bool
    ensures { result ≡ true → IsPlain (split_of view.now) token.now }
{
    is_run(token) && is_text_mode(view.change.mode) && is_in_html(&view.change.stack)
}

/// Puts the text of a plain run into the current node.
#[inline(never)]
pub(crate) fn put_plain<'p, B: Below>(
    alloc: Global,
    view: &mut View<'p, B>,
    token: Token<'p>,
) -> Result<Handled, Refusal>
    requires { IsPlain (split_of view.old) token }
    ensures { Handles result (sight B.heard view.old) (sight B.heard view.new) (all_turns_plan token.entry) }
{
    match token {
        Token::Characters { class, text } => match put_characters(alloc, view, class, text) {
            Ok(()) => Ok(NOTHING),
            Err(refused) => Err(refused),
        },
        _ => Ok(NOTHING),
    }
}

fn put_characters<'p, B: Below>(
    alloc: Global,
    view: &mut View<'p, B>,
    class: CharClass,
    text: Text<'p>,
) -> Result<(), Refusal>
    ensures { Carries result (sight B.heard view.old) (sight B.heard view.new) (λ v. text_plan v.change.mode class text.entry v) }
{
    match view.change.mode {
        Mode::Text => view.put(alloc, false, Child::Text(text)),
        _ => put_in_body(alloc, view, class, text),
    }
}

/// Puts text by the rules of the body.
fn put_in_body<'p, B: Below>(
    alloc: Global,
    view: &mut View<'p, B>,
    class: CharClass,
    text: Text<'p>,
) -> Result<(), Refusal>
    ensures { Carries result (sight B.heard view.old) (sight B.heard view.new) (body_text_plan class text.entry) }
{
    reconstruct(alloc, view, false)?;
    view.put(alloc, false, Child::Text(text))?;
    match class {
        CharClass::Other => view.frameset_not_ok(alloc),
        _ => Ok(()),
    }
}

/// Whether a text without U+0000 goes into the current node as it comes: no line feed is skipped, and the rules do nothing but put
/// text into the current node, an own HTML element.
pub fn takes_text<'p, B: Below>(view: &View<'p, B>) -> bool
    ensures { result ≡ takes_text (split_of view.now) }
{
    !view.change.skip_lf && is_text_mode(view.change.mode) && is_in_html(&view.change.stack)
}

/// Whether a text is white space alone.
fn is_white(text: &str) -> bool
    ensures { result ≡ list_all is_white (chars text.now) }
{
    text.chars()
        .all(|c| matches!(c, '\t' | '\n' | '\x0c' | '\r' | ' '))
}

/// The class of a text without U+0000, taken as one run.
fn class_of_text(text: &Text<'_>) -> CharClass
    ensures { result ≡ white_or_other (list_all is_white text.now) }
{
    if is_white(text.as_str()) {
        CharClass::White
    } else {
        CharClass::Other
    }
}

/// Handles a text without U+0000 as one run, where it goes into the current node as it comes. After a refusal the view is spent:
/// what it shows is not promised.
pub fn handle_text<'p, B: Below>(
    alloc: Global,
    view: &mut View<'p, B>,
    text: Text<'p>,
) -> Result<Handled, Refusal>
    requires takes { takes_text (split_of view.old) ≡ true }
    ensures plan { Handles result (sight B.heard view.old) (sight B.heard view.new) (handle_plan (as_run text.entry)) }
{
    let class = class_of_text(&text);
    match put_characters(alloc, view, class, text) {
        Ok(()) => Ok(NOTHING),
        Err(refused) => Err(refused),
    }
}

/// Whether a text without U+0000 goes into the older current node as it comes, if that is HTML: nothing own is open, no line feed is
/// skipped, and the rules do nothing but put text into the current node.
pub fn may_take_text<'p, B: Below>(view: &View<'p, B>) -> bool
    ensures { result ≡ may_take_text (split_of view.now) }
{
    !view.change.skip_lf && is_text_mode(view.change.mode) && is_nothing_open(&view.change.stack)
}

/// Whether nothing own is open.
fn is_nothing_open(stack: &OpenElements) -> bool
    ensures { result ≡ is_nothing_open stack.now }
{
    stack.is_empty()
}

/// Handles a text without U+0000 as one run, where nothing own is open, and it was asked whether the older current node is HTML, which it
/// is. After a refusal the view is spent: what it shows is not promised.
pub fn handle_text_below<'p, B: Below>(
    alloc: Global,
    view: &mut View<'p, B>,
    text: Text<'p>,
) -> Result<Handled, Refusal>
    requires may { may_take_text (split_of view.old) ≡ true }
    ensures plan { HandlesBelow result (sight B.heard view.old) (sight B.heard view.new) (handle_plan (as_run text.entry)) }
{
    let class = class_of_text(&text);
    match put_characters(alloc, view, class, text) {
        Ok(()) => Ok(NOTHING),
        Err(refused) => Err(refused),
    }
}
