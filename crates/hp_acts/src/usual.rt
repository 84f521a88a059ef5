//! The usual rows of the body and of tables, carried out without the table of rows: a short way to what it says (13.2.6.4.7,
//! 13.2.6.4.13 to 13.2.6.4.15).
ghost use Rattle.std.specs.Prelude.{◌≡◌, ◌<◌, ℕ, [], false, IfSome, unwrap_or};
ghost use Rattle.hp_elements.specs.Rules.{acts_numbered};
ghost use Rattle.hp_elements.specs.declared.token.Mode.TheVariants.{InBody, InCell};
ghost use Rattle.hp_elements.specs.declared.sets.Namespace.TheVariants.{Html};
ghost use Rattle.hp_rules_body.specs.Body.{in_body};
ghost use Rattle.hp_rules_body.specs.Table.{all_rows};
ghost use Rattle.hp_rules_table.specs.Table.{all_rows as table_rows, rows_of};
ghost use Rattle.hp_views.specs.View.{sight, split_of, Carries};
ghost use Rattle.hp_views.specs.PlacePlans.{insert_plan};
ghost use Rattle.hp_acts.specs.TableText.{turns_from};
ghost use Rattle.hp_acts.specs.Handling.{Handles};
ghost use Rattle.hp_acts.specs.Usual.{HasIn, HasRow, IsUsual, begin_plan, block_plan, closing_plan, description_plan, end_plan, formatting_plan, item_plan, link_plan, opening_plan, ordinary_plan, usual_acts, usual_plan};

use crate::ends::{close_block, close_description, close_item, close_paragraph};
use crate::plain::is_in_html;
use crate::table_rows::{begin_cell, begin_row, end_cell, end_row};
use crate::token_parts::{Spending, take_tag, taken_name, taken_tag};
use crate::turns::{Handled, NOTHING};
use hp_adoption::{adopt, append_to_list, close_link, reconstruct};
use hp_control::{Below, Refusal};
use hp_elements::{Mode, Name, Namespace, Point, Tag, Token};
use hp_views::View;
use std::alloc::Global;

/// What a start tag opens.
#[derive(Clone, Copy)]
pub(crate) enum Opening {
    /// An element before which a paragraph ends.
    Block,
    /// A list item.
    Item,
    /// A term or its description.
    Description,
    /// A link.
    Link,
    /// A formatting element.
    Formatting,
    Ordinary,
}

/// What an end tag closes.
#[derive(Clone, Copy)]
pub(crate) enum Closing {
    Block,
    Item,
    Description,
    Paragraph,
    Formatting,
    Ordinary,
}

/// A part of a table.
#[derive(Clone, Copy)]
pub(crate) enum TablePart {
    Row,
    Cell,
}

/// A row of the rules that many tags have.
#[derive(Clone, Copy)]
pub(crate) enum UsualRow {
    Opens(Opening),
    Closes(Closing),
    Begins(TablePart),
    Ends(TablePart),
}

/// The row of that number, where it is a usual one.
fn usual_numbered(number: u16) -> Option<UsualRow>
    ensures { IfSome result (λ row. acts_numbered all_rows number ≡ usual_acts row) }
{
    match number {
        12 => Some(UsualRow::Opens(Opening::Block)), // start address .. ul
        16 => Some(UsualRow::Opens(Opening::Item)), // start li
        17 => Some(UsualRow::Opens(Opening::Description)), // start dd, dt
        20 => Some(UsualRow::Closes(Closing::Block)), // end address .. ul
        22 => Some(UsualRow::Closes(Closing::Paragraph)), // end p
        23 => Some(UsualRow::Closes(Closing::Item)), // end li
        24 => Some(UsualRow::Closes(Closing::Description)), // end dd, dt
        26 => Some(UsualRow::Opens(Opening::Link)), // start a
        28 => Some(UsualRow::Opens(Opening::Formatting)), // start b .. u
        29 => Some(UsualRow::Closes(Closing::Formatting)), // end a .. u
        49 => Some(UsualRow::Opens(Opening::Ordinary)), // any other start tag
        50 => Some(UsualRow::Closes(Closing::Ordinary)), // any other end tag
        _ => None,
    }
}

/// The usual row that the token has in the body.
#[tactic(auto, using(crate::proofs::UsualRuns::usual_acts_of))]
fn usual_in_body(token: &Token<'_>) -> Option<UsualRow>
    ensures { IfSome result (λ row. HasIn in_body token.now row) }
{
    match hp_rules_body::row(Mode::InBody, token) {
        Some(number) => usual_numbered(number),
        None => None,
    }
}

/// The row of that number among those of tables, where it is a usual one.
fn usual_in_tables(number: u16) -> Option<UsualRow>
    ensures { IfSome result (λ row. acts_numbered table_rows number ≡ usual_acts row) }
{
    match number {
        33 => Some(UsualRow::Begins(TablePart::Row)), // in a table body: start tr
        39 => Some(UsualRow::Begins(TablePart::Cell)), // in a row: start td, th
        40 => Some(UsualRow::Ends(TablePart::Row)), // in a row: end tr
        45 => Some(UsualRow::Ends(TablePart::Cell)), // in a cell: end td, th
        _ => None,
    }
}

/// The usual row of its own that the token has in a mode of tables.
#[tactic(auto, using(crate::proofs::UsualRuns::usual_acts_of))]
fn usual_in_table(mode: Mode, token: &Token<'_>) -> Option<UsualRow>
    ensures { IfSome result (λ row. HasIn (unwrap_or (rows_of mode) []) token.now row) }
{
    match hp_rules_table::row(mode, token) {
        Some(number) => usual_in_tables(number),
        None => None,
    }
}

/// The usual row that the token has in a cell: its own, or that of the body, where its row only uses the rules of the body.
fn usual_in_cell(token: &Token<'_>) -> Option<UsualRow>
    ensures { IfSome result (λ row. HasRow InCell token.now row) }
{
    match hp_rules_table::row(Mode::InCell, token) {
        Some(49) => usual_in_body(token), // any other token in a cell: the rules of the body
        Some(number) => usual_in_tables(number),
        None => None,
    }
}

/// The usual row that the token has in the mode; none where another row is to be carried out.
#[inline(always)]
pub(crate) fn usual_in_mode(mode: Mode, token: &Token<'_>) -> Option<UsualRow>
    ensures { IfSome result (λ row. HasRow mode token.now row) }
{
    match mode {
        Mode::InBody => usual_in_body(token),
        Mode::InTableBody => usual_in_table(Mode::InTableBody, token),
        Mode::InRow => usual_in_table(Mode::InRow, token),
        Mode::InCell => usual_in_cell(token),
        _ => None,
    }
}

/// The same where the current node is an own HTML element, so that the token is no foreign content.
#[inline(always)]
pub(crate) fn usual_row<'p, B: Below>(view: &View<'p, B>, token: &Token<'p>) -> Option<UsualRow>
    ensures { IfSome result (λ row. IsUsual (split_of view.now) token.now row) }
{
    if !is_in_html(&view.change.stack) {
        return None;
    }
    usual_in_mode(view.change.mode, token)
}

/// Handles a token that has that row.
#[inline(never)]
pub(crate) fn handle_usual<'p, B: Below>(
    alloc: Global,
    view: &mut View<'p, B>,
    token: &mut Token<'p>,
    row: UsualRow,
) -> Result<Handled, Refusal>
    requires { IsUsual (split_of view.old) token.old row }
    ensures { (n : ℕ) → 0 < n → Handles result (sight B.heard view.old) (sight B.heard view.new) (turns_from n token.old) }
{
    match carry_usual(alloc, view, token, row) {
        Ok(()) => Ok(NOTHING),
        Err(refused) => Err(refused),
    }
}

/// Carries out that row for a token that is no foreign content.
#[inline(never)]
pub(crate) fn carry_straight<'p, B: Below>(
    alloc: Global,
    view: &mut View<'p, B>,
    token: &mut Token<'p>,
    row: UsualRow,
) -> Result<(), Refusal>
    ensures { Carries result (sight B.heard view.old) (sight B.heard view.new) (usual_plan row token.old) }
{
    carry_usual(alloc, view, token, row)
}

#[inline(always)]
fn carry_usual<'p, B: Below>(
    alloc: Global,
    view: &mut View<'p, B>,
    token: &mut Token<'p>,
    row: UsualRow,
) -> Result<(), Refusal>
    ensures { Carries result (sight B.heard view.old) (sight B.heard view.new) (usual_plan row token.old) }
{
    match row {
        UsualRow::Opens(opening) => match token {
            Token::Start { tag, .. } => {
                tag.namespace = Namespace::Html;
                open(alloc, view, tag, opening)
            }
            _ => carry_other(alloc, view, token, row),
        },
        UsualRow::Closes(closing) => match token {
            Token::EndTag { name } => close(alloc, view, name, closing),
            _ => carry_other(alloc, view, token, row),
        },
        UsualRow::Begins(part) => match token {
            Token::Start { tag, .. } => {
                tag.namespace = Namespace::Html;
                begin(alloc, view, tag, part)
            }
            _ => carry_other(alloc, view, token, row),
        },
        UsualRow::Ends(part) => match token {
            Token::EndTag { name } => end(alloc, view, name, part),
            _ => carry_other(alloc, view, token, row),
        },
    }
}

/// The same for another token than the row's tags: by the HTML tag of its name.
#[inline(never)]
fn carry_other<'p, B: Below>(
    alloc: Global,
    view: &mut View<'p, B>,
    token: &mut Token<'p>,
    row: UsualRow,
) -> Result<(), Refusal>
    ensures { Carries result (sight B.heard view.old) (sight B.heard view.new) (usual_plan row token.old) }
{
    let mut tag = take_tag(alloc, token, Spending::Moves)?;
    match row {
        UsualRow::Opens(opening) => open(alloc, view, &mut tag, opening),
        UsualRow::Closes(closing) => close(alloc, view, &mut tag.name, closing),
        UsualRow::Begins(part) => begin(alloc, view, &mut tag, part),
        UsualRow::Ends(part) => end(alloc, view, &mut tag.name, part),
    }
}

#[inline(always)]
fn open<'p, B: Below>(
    alloc: Global,
    view: &mut View<'p, B>,
    tag: &mut Tag,
    row: Opening,
) -> Result<(), Refusal>
    requires html { tag.old.namespace ≡ Html }
    ensures { Carries result (sight B.heard view.old) (sight B.heard view.new) (opening_plan row tag.old) }
{
    match row {
        Opening::Block => open_block(alloc, view, tag),
        Opening::Item => open_item(alloc, view, tag),
        Opening::Description => open_description(alloc, view, tag),
        Opening::Link => open_link(alloc, view, tag),
        Opening::Formatting => open_formatting(alloc, view, tag),
        Opening::Ordinary => open_ordinary(alloc, view, tag),
    }
}

#[inline(always)]
fn close<'p, B: Below>(
    alloc: Global,
    view: &mut View<'p, B>,
    name: &mut Name,
    row: Closing,
) -> Result<(), Refusal>
    ensures { Carries result (sight B.heard view.old) (sight B.heard view.new) (closing_plan row name.old) }
{
    match row {
        Closing::Block => close_block(alloc, view, taken_name(name)),
        Closing::Item => close_item(alloc, view),
        Closing::Description => close_description(alloc, view, taken_name(name)),
        Closing::Paragraph => close_paragraph(alloc, view),
        Closing::Formatting => adopt(alloc, view, false, taken_name(name)),
        Closing::Ordinary => view.walk(alloc, taken_name(name)),
    }
}

#[inline(always)]
fn begin<'p, B: Below>(
    alloc: Global,
    view: &mut View<'p, B>,
    tag: &mut Tag,
    part: TablePart,
) -> Result<(), Refusal>
    requires html { tag.old.namespace ≡ Html }
    ensures { Carries result (sight B.heard view.old) (sight B.heard view.new) (begin_plan part tag.old) }
{
    match part {
        TablePart::Row => begin_row(alloc, view, tag),
        TablePart::Cell => begin_cell(alloc, view, tag),
    }
}

#[inline(always)]
fn end<'p, B: Below>(
    alloc: Global,
    view: &mut View<'p, B>,
    name: &mut Name,
    part: TablePart,
) -> Result<(), Refusal>
    ensures { Carries result (sight B.heard view.old) (sight B.heard view.new) (end_plan part name.old) }
{
    match part {
        TablePart::Row => end_row(alloc, view),
        TablePart::Cell => end_cell(alloc, view, taken_name(name)),
    }
}

/// Inserts an HTML element.
#[inline(always)]
pub(crate) fn insert<'p, B: Below>(
    alloc: Global,
    view: &mut View<'p, B>,
    tag: &mut Tag,
) -> Result<(), Refusal>
    requires html { tag.old.namespace ≡ Html }
    ensures { Carries result (sight B.heard view.old) (sight B.heard view.new) (insert_plan false tag.old) }
{
    view.insert(alloc, false, taken_tag(tag), Point::No)
}

#[inline(always)]
fn open_block<'p, B: Below>(
    alloc: Global,
    view: &mut View<'p, B>,
    tag: &mut Tag,
) -> Result<(), Refusal>
    requires html { tag.old.namespace ≡ Html }
    ensures { Carries result (sight B.heard view.old) (sight B.heard view.new) (block_plan tag.old) }
{
    view.close_paragraph(alloc)?;
    insert(alloc, view, tag)
}

#[inline(always)]
fn open_item<'p, B: Below>(
    alloc: Global,
    view: &mut View<'p, B>,
    tag: &mut Tag,
) -> Result<(), Refusal>
    requires html { tag.old.namespace ≡ Html }
    ensures { Carries result (sight B.heard view.old) (sight B.heard view.new) (item_plan tag.old) }
{
    view.frameset_not_ok(alloc)?;
    view.close_item(alloc)?;
    open_block(alloc, view, tag)
}

#[inline(never)]
fn open_description<'p, B: Below>(
    alloc: Global,
    view: &mut View<'p, B>,
    tag: &mut Tag,
) -> Result<(), Refusal>
    requires html { tag.old.namespace ≡ Html }
    ensures { Carries result (sight B.heard view.old) (sight B.heard view.new) (description_plan tag.old) }
{
    view.frameset_not_ok(alloc)?;
    view.close_description(alloc)?;
    open_block(alloc, view, tag)
}

#[inline(always)]
fn open_link<'p, B: Below>(
    alloc: Global,
    view: &mut View<'p, B>,
    tag: &mut Tag,
) -> Result<(), Refusal>
    requires html { tag.old.namespace ≡ Html }
    ensures { Carries result (sight B.heard view.old) (sight B.heard view.new) (link_plan tag.old) }
{
    close_link(alloc, view, false)?;
    open_formatting(alloc, view, tag)
}

/// Inserts a formatting element, which stands in the list of formatting elements as well.
#[inline(always)]
fn open_formatting<'p, B: Below>(
    alloc: Global,
    view: &mut View<'p, B>,
    tag: &mut Tag,
) -> Result<(), Refusal>
    requires html { tag.old.namespace ≡ Html }
    ensures { Carries result (sight B.heard view.old) (sight B.heard view.new) (formatting_plan tag.old) }
{
    reconstruct(alloc, view, false)?;
    let own = tag.copy(alloc)?;
    view.insert(alloc, false, own, Point::No)?;
    append_to_list(alloc, view, taken_tag(tag))
}

#[inline(always)]
fn open_ordinary<'p, B: Below>(
    alloc: Global,
    view: &mut View<'p, B>,
    tag: &mut Tag,
) -> Result<(), Refusal>
    requires html { tag.old.namespace ≡ Html }
    ensures { Carries result (sight B.heard view.old) (sight B.heard view.new) (ordinary_plan tag.old) }
{
    reconstruct(alloc, view, false)?;
    insert(alloc, view, tag)
}
