//! One token, handled whole (13.2.6).
ghost use Rattle.std.specs.Prelude.{◌≡◌, ℕ, ◌<◌, ◌+◌, ◌*◌, ◌^◌, Bool, true, false, if◌then◌else◌, IfOk, IfSome, drop};
ghost use Rattle.std.specs.List.{list_any};
ghost use Rattle.hp_elements.specs.Rules.{goes_later};
ghost use Rattle.hp_elements.specs.declared.token.Mode.{Mode};
ghost use Rattle.hp_control.specs.Plan.{Plan};
ghost use Rattle.hp_views.specs.View.{page_of, sight};
ghost use Rattle.hp_acts.specs.Carrying.{Comes, Goes, GoesBy, Stays, going, present_plan, reached, row_plan};
ghost use Rattle.hp_acts.specs.HandlePlans.{all_turns_plan, handle_plan, handle_rest, turns_plan, without_line_feed};
ghost use Rattle.hp_acts.specs.Handling.{GoesLater, Handles, unskipped};
ghost use Rattle.hp_acts.specs.RowPlans.{Reached, Came, act_then, is_early, turn_plan};
ghost use Rattle.hp_acts.specs.Rows.{most_acts};
ghost use Rattle.hp_acts.specs.TableText.{turns_from};
ghost use Rattle.hp_acts.specs.Usual.{HasRow};
ghost use Rattle.hp_acts.specs.Spending.{IsLeftOf, gives_away, leaves_whole, reads_attributes};
ghost use Rattle.hp_acts.specs.declared.token_parts.Spending.TheVariants.{Copies};
ghost use Rattle.hp_acts.specs.declared.turns.Next.TheVariants.{At};

use crate::acts::carry_out;
use crate::questions::holds;
use crate::rows::{Row, foreign_row, row_in};
use crate::table_text::handle_other;
use crate::token_parts::{Spending, after_line_feed, rename};
use crate::usual::{UsualRow, carry_straight, handle_usual, usual_in_mode, usual_row};
use hp_control::{Below, Crossing, OpenElements, Refusal};
use hp_elements::{Act, Mode, Rest, Test, Token};
use hp_foreign::goes_to_foreign;
use hp_views::{PageFacts, View};
use std::alloc::Global;

/// How deep the rules of a mode use those of others, the mode's own counted.
const NESTING: u32 = 4;

/// What the handling of a token asks of the parser.
#[derive(Clone, Copy)]
pub struct Handled {
    /// The state in which the lexer goes on, where it doesn't stay in its own.
    pub switch: Option<Rest>,
    /// Whether parsing stops.
    pub stopped: bool,
}

/// Where nothing is asked of it.
pub(crate) const NOTHING: Handled = Handled {
    switch: None,
    stopped: false,
};

/// A token in its turns.
#[derive(Drop)]
struct Turn<'p> {
    token: Token<'p>,
    handled: Handled,
}

/// Whether an act of a row from that place on reads the attributes of the token.
fn is_read_from(row: Row, from: u32) -> bool
    ensures { result ≡ list_any reads_attributes (drop from row.acts.now) }
{
    let mut at = from;
    while let Some(act) = row.act(at) {
        if reads_attributes(act) {
            return true;
        }
        at += 1;
    }
    false
}

fn reads_attributes(act: Act) -> bool
    ensures { result ≡ reads_attributes act }
{
    match act {
        Act::AppendToList => true,
        Act::If { test, .. } | Act::Unless { test, .. } => match test {
            Test::TypeIsHidden | Test::HasFontAttribute => true,
            _ => false,
        },
        _ => false,
    }
}

/// What becomes of the token's attributes at an act of a row: they are moved unless a later act reads them.
fn spending_at(row: Row, at: u32, act: Act) -> Spending
    requires { at < most_acts }
    ensures { leaves_whole act (drop (at + 1) row.acts.now) ≡ true → gives_away act ≡ true → result ≡ Copies }
{
    match act {
        Act::Insert => {
            if is_read_from(row, at + 1) {
                Spending::Copies
            } else {
                Spending::Moves
            }
        }
        _ => Spending::Moves,
    }
}

/// How a row goes on after an act.
enum Next {
    /// With the act at that place.
    At(u32),
    /// With the rules of a mode, which are used with fostering on or off, and then with the act behind.
    Rules(Mode, bool),
    /// Not at all.
    Done,
    /// Not at all, and the token is handled again.
    Again,
}

/// Carries out the acts of a row in order, and answers whether the token is to be handled again. `present` is the mode in which
/// the turn began, where the row may use its rules; `depth` says how deep it may use the rules of other modes.
fn carry_row<'p, B: Below>(
    alloc: Global,
    view: &mut View<'p, B>,
    turn: &mut Turn<'p>,
    row: Row,
    present: Option<Mode>,
    fostering: bool,
    depth: u32,
) -> Result<bool, Refusal>
    ensures plan { Comes result (B.heard view.old.below) (B.heard view.new.below) (row_plan depth present fostering turn.old.token 0 0 row.acts.now (reached view.old turn.old)) turn.new.token (reached view.new turn.new) }
    ensures left { IfOk result (λ again. again ≡ false → IsLeftOf turn.old.token turn.new.token) }
{
    let mut at = 0;
    while let Some(act) = row.act(at) {
        match step(alloc, view, turn, row, at, act, present, fostering)? {
            Next::At(next) => at = next,
            Next::Done => return Ok(false),
            Next::Again => return Ok(true),
            Next::Rules(mode, fostering) => {
                at += 1;
                if depth == 0 {
                    continue;
                }
                let used = row_in(mode, &turn.token);
                if carry_row(alloc, view, turn, used, None, fostering, depth - 1)? {
                    return Ok(true);
                }
            }
        }
    }
    Ok(false)
}

/// The place behind a test.
fn behind(at: u32, otherwise: u8, goes_on: bool) -> Next
    requires { at < most_acts }
    ensures { result ≡ At (if goes_on then at + 1 else otherwise) }
{
    if goes_on {
        Next::At(at + 1)
    } else {
        Next::At(u32::from(otherwise))
    }
}

/// Carries out the act at a place of a row.
fn step<'p, B: Below>(
    alloc: Global,
    view: &mut View<'p, B>,
    turn: &mut Turn<'p>,
    row: Row,
    at: u32,
    act: Act,
    present: Option<Mode>,
    fostering: bool,
) -> Result<Next, Refusal>
    requires later { goes_later at act ≡ true }
    requires short { at < most_acts }
    ensures later { IfOk result (λ next. GoesLater at next) }
    ensures goes { IfOk result (λ next. GoesBy act at next) }
    ensures stays { IfOk result (λ next. Stays (leaves_whole act (drop (at + 1) row.acts.now)) turn.old.token turn.new.token next) }
    ensures plan { (follow : Bool → Mode → Reached → Plan Came) (go : ℕ → Reached → Plan Came) → Goes result (B.heard view.old.below) (B.heard view.new.below) (act_then follow (present_plan follow present) fostering turn.old.token act at go (reached view.old turn.old)) (λ next. going follow go at (reached view.new turn.new) turn.new.token next) }
{
    match act {
        Act::Done => Ok(Next::Done),
        Act::Again => Ok(Next::Again),
        Act::AgainAs(name) => {
            rename(&mut turn.token, name);
            Ok(Next::Again)
        }
        Act::As(mode) => Ok(Next::Rules(mode, fostering)),
        Act::AsFostered(mode) => Ok(Next::Rules(mode, true)),
        // The rules of the mode in which the turn began; where there are none the row goes on.
        Act::AsPresent => match present {
            Some(mode) => Ok(Next::Rules(mode, false)),
            None => Ok(Next::At(at + 1)),
        },
        Act::If { test, otherwise } => {
            let holds = holds(alloc, view, &turn.token, test)?;
            Ok(behind(at, otherwise, holds))
        }
        Act::Unless { test, otherwise } => {
            let holds = holds(alloc, view, &turn.token, test)?;
            Ok(behind(at, otherwise, !holds))
        }
        Act::Stop => {
            turn.handled.stopped = true;
            Ok(Next::At(at + 1))
        }
        Act::Lexer(rest) => {
            turn.handled.switch = Some(rest);
            Ok(Next::At(at + 1))
        }
        _ => {
            let spending = spending_at(row, at, act);
            match carry_out(alloc, view, act, &mut turn.token, spending, fostering) {
                Ok(()) => Ok(Next::At(at + 1)),
                Err(refused) => Err(refused),
            }
        }
    }
}

/// Whether a token would be handled before the page's body, over an unknown older state: in a mode in which the page's head isn't
/// done yet.
fn is_early(page: &Option<PageFacts>, mode: Mode) -> bool
    ensures { result ≡ is_early (page_of page.now) mode }
{
    match page {
        None => match mode {
            Mode::Initial
            | Mode::BeforeHtml
            | Mode::BeforeHead
            | Mode::InHead
            | Mode::InHeadNoscript
            | Mode::AfterHead => true,
            _ => false,
        },
        Some(_) => false,
    }
}

/// Handles the token once, by the rules of foreign content or by those of the mode, and answers whether it is to be handled
/// again. In the modes up to after head no chunk handles one.
fn take_turn<'p, B: Below>(
    alloc: Global,
    view: &mut View<'p, B>,
    turn: &mut Turn<'p>,
) -> Result<bool, Refusal>
    ensures { Comes result (B.heard view.old.below) (B.heard view.new.below) (turn_plan turn.old.token (reached view.old turn.old)) turn.new.token (reached view.new turn.new) }
{
    let mode = view.change.mode;
    if is_early(&view.page, mode) {
        return Err(Refusal::Crossed(Crossing::X4));
    }
    if goes_to_foreign(alloc, view, &turn.token)? {
        let row = foreign_row(&turn.token);
        return carry_row(alloc, view, turn, row, Some(mode), false, NESTING);
    }
    if let Some(row) = usual_below(&view.change.stack, mode, &turn.token) {
        carry_straight(alloc, view, &mut turn.token, row)?;
        return Ok(false);
    }
    let row = row_in(mode, &turn.token);
    carry_row(alloc, view, turn, row, None, false, NESTING - 1)
}

/// The usual row that the token has in the mode, where nothing own is open: over an own current node it would have been taken before.
fn usual_below(stack: &OpenElements, mode: Mode, token: &Token<'_>) -> Option<UsualRow>
    ensures { IfSome result (λ row. HasRow mode token.now row) }
{
    if stack.is_empty() {
        usual_in_mode(mode, token)
    } else {
        None
    }
}

/// More elements than an older stack has.
const OLDER: u128 = 1 << 60;

/// How often one token is handled at most, where so many own elements are open.
pub(crate) fn most_turns(elements: usize) -> u128
    ensures { result ≡ 32 + 16 * (2 ^ 60 + elements) }
{
    32 + 16 * (OLDER + elements as u128)
}

/// Handles a token until no rule asks for it again, at most so often.
#[inline(never)]
pub(crate) fn take_turns<'p, B: Below>(
    alloc: Global,
    view: &mut View<'p, B>,
    token: Token<'p>,
    most: u128,
) -> Result<Handled, Refusal>
    ensures { Handles result (sight B.heard view.old) (sight B.heard view.new) (turns_from most token.entry) }
{
    let mut turn = Turn {
        token,
        handled: NOTHING,
    };
    repeat(alloc, view, &mut turn, most)
}

/// Goes on with the turns of a token until no rule asks for it again, at most so often.
#[inline(always)]
fn repeat<'p, B: Below>(
    alloc: Global,
    view: &mut View<'p, B>,
    turn: &mut Turn<'p>,
    most: u128,
) -> Result<Handled, Refusal>
    ensures { Handles result (sight B.heard view.old) (sight B.heard view.new) (λ v. turns_plan most turn.old.token (record { split = v; handled = turn.old.handled })) }
{
    for _ in 0..most {
        if !take_turn(alloc, view, turn)? {
            return Ok(turn.handled);
        }
    }
    Err(Refusal::Crossed(Crossing::X3))
}

/// The same, as often as a token is handled where so many elements are open.
#[inline(always)]
pub(crate) fn take_all_turns<'p, B: Below>(
    alloc: Global,
    view: &mut View<'p, B>,
    token: Token<'p>,
) -> Result<Handled, Refusal>
    ensures { Handles result (sight B.heard view.old) (sight B.heard view.new) (all_turns_plan token.entry) }
{
    let most = most_turns(view.change.stack.len());
    take_turns(alloc, view, token, most)
}

/// Handles one token whole: dispatch, the rows of the rules with their acts, usual ones straight and others by the table, and again
/// where the rules say so. A line feed that is to be dropped isn't handled. After a refusal the view is spent: what it shows is not
/// promised.
#[inline(always)]
pub fn handle<'p, B: Below>(
    alloc: Global,
    view: &mut View<'p, B>,
    token: Token<'p>,
) -> Result<Handled, Refusal>
    ensures plan { Handles result (sight B.heard view.old) (sight B.heard view.new) (handle_plan token.entry) }
{
    if view.change.skip_lf {
        return handle_skipping(alloc, view, token);
    }
    let mut token = token;
    match usual_row(view, &token) {
        Some(row) => handle_usual(alloc, view, &mut token, row),
        None => handle_other(alloc, view, &mut token),
    }
}

/// The same where a line feed is to be dropped.
#[inline(never)]
fn handle_skipping<'p, B: Below>(
    alloc: Global,
    view: &mut View<'p, B>,
    token: Token<'p>,
) -> Result<Handled, Refusal>
    ensures plan { Handles result (sight B.heard view.old) (sight B.heard view.new) (λ v. handle_rest (without_line_feed token.entry) (unskipped v)) }
{
    view.change.skip_lf = false;
    match after_line_feed(alloc, token)? {
        Some(token) => take_all_turns(alloc, view, token),
        None => Ok(NOTHING),
    }
}
