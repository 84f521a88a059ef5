//! Characters between the parts of a table, and the token behind them, handled without the table of rows: a short way to what it
//! says (13.2.6.4.9, 13.2.6.4.10, 13.2.6.4.13, 13.2.6.4.14).
ghost use Rattle.std.specs.Prelude.{◌≡◌, true};
ghost use Rattle.hp_views.specs.View.{sight, split_of};
ghost use Rattle.hp_acts.specs.HandlePlans.{all_turns_plan};
ghost use Rattle.hp_acts.specs.Handling.{Handles};
ghost use Rattle.hp_acts.specs.TableText.{BeginsText, ContinuesText, EndsText, waits_at};

use crate::characters::append_pending;
use crate::plain::{is_in_html, is_plain, is_run, put_plain};
use crate::token_parts::taken;
use crate::turns::{Handled, NOTHING, most_turns, take_all_turns, take_turns};
use crate::usual::{handle_usual, usual_row};
use hp_adoption::flush;
use hp_control::{Below, OpenElements, Refusal, is_html, is_within};
use hp_elements::{Kinds, Mode, SetName, Text, Token};
use hp_views::View;
use std::alloc::Global;

/// Whether characters wait at the current node, an own HTML element.
fn waits_at(stack: &OpenElements) -> bool
    ensures { result ≡ waits_at stack.now }
{
    if stack.is_empty() {
        return false;
    }
    let top = stack.at(0);
    is_html(top) && is_within(&Kinds::Set(SetName::TableTextParents), top)
}

/// Whether the token is the first run of characters that waits.
fn begins<'p, B: Below>(view: &View<'p, B>, token: &Token<'p>) -> bool
    ensures { result ≡ true → BeginsText (split_of view.now) token.now }
{
    match view.change.mode {
        Mode::InTable | Mode::InTableBody | Mode::InRow => {
            is_run(token) && !view.older_text && waits_at(&view.change.stack)
        }
        _ => false,
    }
}

/// Whether the token is a run of characters that waits behind others.
fn continues<'p, B: Below>(view: &View<'p, B>, token: &Token<'p>) -> bool
    ensures { result ≡ true → ContinuesText (split_of view.now) token.now }
{
    match view.change.mode {
        Mode::InTableText => is_run(token) && is_in_html(&view.change.stack),
        _ => false,
    }
}

/// Whether the token ends the characters that wait.
fn ends<'p, B: Below>(view: &View<'p, B>, token: &Token<'p>) -> bool
    ensures { result ≡ true → EndsText (split_of view.now) token.now }
{
    match view.change.mode {
        Mode::InTableText => match token {
            Token::Characters { .. } => false,
            _ => is_in_html(&view.change.stack),
        },
        _ => false,
    }
}

/// Handles a token that has no usual row: characters that wait and what ends them, text that goes into the current node, and else by
/// the table.
#[inline(never)]
pub(crate) fn handle_other<'p, B: Below>(
    alloc: Global,
    view: &mut View<'p, B>,
    token: &mut Token<'p>,
) -> Result<Handled, Refusal>
    ensures { Handles result (sight B.heard view.old) (sight B.heard view.new) (all_turns_plan token.old) }
{
    if ends(view, token) {
        end(alloc, view, token)
    } else if begins(view, token) {
        begin(alloc, view, token)
    } else if continues(view, token) {
        go_on(alloc, view, token)
    } else if is_plain(view, token) {
        put_plain(alloc, view, taken(token))
    } else {
        take_all_turns(alloc, view, taken(token))
    }
}

/// The first run of characters waits from now on, and the mode is kept.
#[inline(always)]
fn begin<'p, B: Below>(
    alloc: Global,
    view: &mut View<'p, B>,
    token: &Token<'p>,
) -> Result<Handled, Refusal>
    requires { BeginsText (split_of view.old) token.now }
    ensures { Handles result (sight B.heard view.old) (sight B.heard view.new) (all_turns_plan token.now) }
{
    view.change.pending = Text::new();
    view.change.original = Some(view.change.mode);
    view.change.mode = Mode::InTableText;
    match append_pending(alloc, view, token) {
        Ok(()) => Ok(NOTHING),
        Err(refused) => Err(refused),
    }
}

/// A further run waits.
#[inline(always)]
fn go_on<'p, B: Below>(
    alloc: Global,
    view: &mut View<'p, B>,
    token: &Token<'p>,
) -> Result<Handled, Refusal>
    requires { ContinuesText (split_of view.old) token.now }
    ensures { Handles result (sight B.heard view.old) (sight B.heard view.new) (all_turns_plan token.now) }
{
    match append_pending(alloc, view, token) {
        Ok(()) => Ok(NOTHING),
        Err(refused) => Err(refused),
    }
}

/// The characters that wait go into the tree, and the mode is again the one that was kept. The token is handled behind them in the
/// turns that are left: where it has a usual row, straight.
#[inline(always)]
fn end<'p, B: Below>(
    alloc: Global,
    view: &mut View<'p, B>,
    token: &mut Token<'p>,
) -> Result<Handled, Refusal>
    requires { EndsText (split_of view.old) token.old }
    ensures { Handles result (sight B.heard view.old) (sight B.heard view.new) (all_turns_plan token.old) }
{
    let most = most_turns(view.change.stack.len()) - 1;
    flush(alloc, view)?;
    view.to_original(alloc)?;
    match usual_row(view, token) {
        Some(row) => handle_usual(alloc, view, token, row),
        None => take_turns(alloc, view, taken(token), most),
    }
}
