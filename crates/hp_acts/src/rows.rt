//! The row that a token has, among the rules of all modes.
ghost use Rattle.std.specs.Prelude.{◌≡◌, ◌<◌, ◌≤◌, [], true, IfSome, is_some, length, unwrap_or, slice_get};
ghost use Rattle.hp_elements.specs.Rules.{acts_for, acts_numbered, go_later, goes_later};
ghost use Rattle.hp_elements.specs.Tokens.{kind_of};
ghost use Rattle.hp_rules_rest.specs.Foreign.{foreign};
ghost use Rattle.hp_rules_rest.specs.Whole.{every_mode_rows};
ghost use Rattle.hp_acts.specs.Rows.{most_acts, part_in, rows_in, mode_rows_in};
ghost use Rattle.hp_acts.specs.Spending.{row_keeps};

use hp_elements::{Act, Mode, Token};

/// The crates that have the rules of the modes.
#[derive(Clone, Copy)]
pub(crate) enum Part {
    Page,
    Body,
    Table,
    Rest,
}

/// A row of the rules: its acts. Along each way through the row each of them finds the token as it wants it;
/// a test goes on behind its own place, and there are no more than `most_acts`, so that each row ends.
#[derive(Clone, Copy)]
pub(crate) struct Row {
    acts: &'static [Act],
    ghost keeps: { row_keeps true 0 0 acts.now ≡ true },
    ghost later: { go_later 0 acts.now ≡ true },
    ghost short: { length acts.now ≤ most_acts },
}

/// The crate that has the rules of the mode.
fn part_in(mode: Mode) -> Part
    ensures { result ≡ part_in mode }
{
    match mode {
        Mode::InBody | Mode::Text => Part::Body,
        Mode::InTable | Mode::InTableText | Mode::InCaption | Mode::InColumnGroup => Part::Table,
        Mode::InTableBody | Mode::InRow | Mode::InCell => Part::Table,
        Mode::InSelect | Mode::InSelectInTable | Mode::InTemplate => Part::Rest,
        _ => Part::Page,
    }
}

/// The number that the token's row in the mode has in that crate; none where the crate doesn't have the mode.
fn number_in(part: Part, mode: Mode, token: &Token<'_>) -> Option<u16>
    ensures here { is_some result ≡ is_some (mode_rows_in part mode) }
    ensures acts { IfSome result (λ row. acts_numbered (rows_in part) row ≡ acts_for (unwrap_or (mode_rows_in part mode) []) (kind_of token.now)) }
{
    match part {
        Part::Page => hp_rules_page::row(mode, token),
        Part::Body => hp_rules_body::row(mode, token),
        Part::Table => hp_rules_table::row(mode, token),
        Part::Rest => hp_rules_rest::row(mode, token),
    }
}

/// The row that has a number in that crate.
fn row_numbered(part: Part, number: u16) -> Row
    ensures { result.acts.now ≡ acts_numbered (rows_in part) number }
{
    match part {
        Part::Page => Row {
            acts: hp_rules_page::acts_numbered(number),
        },
        Part::Body => Row {
            acts: hp_rules_body::acts_numbered(number),
        },
        Part::Table => Row {
            acts: hp_rules_table::acts_numbered(number),
        },
        Part::Rest => Row {
            acts: hp_rules_rest::acts_numbered(number),
        },
    }
}

/// The row that the token has in the mode.
pub(crate) fn row_in(mode: Mode, token: &Token<'_>) -> Row
    ensures { result.acts.now ≡ acts_for (every_mode_rows mode) (kind_of token.now) }
{
    let part = part_in(mode);
    match number_in(part, mode, token) {
        Some(number) => row_numbered(part, number),
        None => unreachable!(),
    }
}

/// The row that the token has in foreign content.
pub(crate) fn foreign_row(token: &Token<'_>) -> Row
    ensures { result.acts.now ≡ acts_for foreign (kind_of token.now) }
{
    row_numbered(Part::Rest, hp_rules_rest::foreign_row(token))
}

impl Row {
    /// The act of the row at that place; none where the row has no act there.
    #[inline(always)]
    pub(crate) fn act(self, at: u32) -> Option<Act>
        ensures value { result ≡ slice_get self.acts.now at }
        ensures later { IfSome result (λ act. goes_later at act ≡ true) }
        ensures short { IfSome result (λ act. at < most_acts) }
    {
        self.act_at(at)
    }

    #[inline(always)]
    fn act_at(self, at: u32) -> Option<Act>
        ensures { result ≡ slice_get self.acts.now at }
    {
        self.acts.get(at as usize).copied()
    }
}
