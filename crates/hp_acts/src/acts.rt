//! One act of a row, carried out on a view.
ghost use Rattle.std.specs.Prelude.{◌≡◌, false, OnOk};
ghost use Rattle.hp_views.specs.View.{sight};
ghost use Rattle.hp_acts.specs.Carrying.{CarriesBy, Carried};
ghost use Rattle.hp_acts.specs.Plans.{act_plan, close_plan, field_plan};
ghost use Rattle.hp_acts.specs.Spending.{IsLeftOf, gives_away};
ghost use Rattle.hp_acts.specs.declared.token_parts.Spending.TheVariants.{Copies};

use crate::characters::{
    append_pending, comment_into_document, comment_into_first, put_characters, put_comment,
    put_doctype, put_replaced, quirks_of_doctype,
};
use crate::ends::implied_but;
use crate::inserts::{
    add_to_body, add_to_first, append_current, insert, insert_html, insert_like_current,
    insert_named_foreign,
};
use crate::questions::holds;
use crate::token_parts::{Spending, bare, name_of};
use hp_adoption::{adopt, close_link, flush, reconstruct};
use hp_control::{Below, Refusal};
use hp_elements::{Act, Kinds, Known, Point, Token, Which};
use hp_foreign::{pop_to_point, through_foreign};
use hp_views::View;
use std::alloc::Global;

/// Carries out one act of a row. The answer is false exactly where the act is a test that fails. What only steers the row, as
/// the rules of another mode, changes nothing here: `handle` follows it. `spending` says whether the token gives its text or
/// its attributes away, and `fostering` whether content that may not stand in a table goes before it. For callers that carry out
/// single acts; `handle` doesn't use it. After a refusal the view is spent: what it shows is not promised.
pub fn carry<'p, B: Below>(
    alloc: Global,
    view: &mut View<'p, B>,
    act: Act,
    token: &mut Token<'p>,
    spending: Spending,
    fostering: bool,
) -> Result<bool, Refusal>
    ensures carried { Carried fostering token.old act result (sight B.heard view.old) (sight B.heard view.new) }
    ensures left { OnOk result (IsLeftOf token.old token.new) }
    ensures copies { spending ≡ Copies → token.new ≡ token.old }
{
    match act {
        Act::If { test, .. } => holds(alloc, view, token, test),
        Act::Unless { test, .. } => {
            let holds = holds(alloc, view, token, test)?;
            Ok(!holds)
        }
        _ => {
            carry_out(alloc, view, act, token, spending, fostering)?;
            Ok(true)
        }
    }
}

/// The acts on characters, comments and doctypes, and those that insert; then the others.
pub(crate) fn carry_out<'p, B: Below>(
    alloc: Global,
    view: &mut View<'p, B>,
    act: Act,
    token: &mut Token<'p>,
    spending: Spending,
    fostering: bool,
) -> Result<(), Refusal>
    ensures plan { CarriesBy result (sight B.heard view.old) (sight B.heard view.new) (act_plan fostering token.old act) }
    ensures left { OnOk result (IsLeftOf token.old token.new) }
    ensures stays { gives_away act ≡ false → token.new ≡ token.old }
    ensures copies { spending ≡ Copies → token.new ≡ token.old }
{
    match act {
        Act::Characters => put_characters(alloc, view, token, spending, fostering),
        Act::Reconstruct => reconstruct(alloc, view, fostering),
        Act::FramesetNotOk => view.frameset_not_ok(alloc),
        Act::Insert => insert(alloc, view, token, spending, fostering),
        Act::InsertBare(name) => view.insert(alloc, fostering, bare(name), Point::No),
        Act::InsertForeign => insert_named_foreign(alloc, view, token, spending, fostering),
        Act::InsertAsCurrent => insert_like_current(alloc, view, token, spending, fostering),
        Act::InsertHtml => insert_html(alloc, view, token, spending),
        Act::InsertBareHtml => view.insert_into_document(alloc, bare(Known::HTML)),
        Act::Comment => put_comment(alloc, view, token, spending, fostering),
        Act::CommentIntoDocument => comment_into_document(alloc, view, token, spending),
        Act::CommentIntoFirst => comment_into_first(alloc, view, token, spending),
        Act::Replacement => put_replaced(alloc, view, token, fostering),
        Act::AppendPending => append_pending(alloc, view, token),
        Act::AddMissingToFirst => add_to_first(alloc, view, token, spending),
        Act::AddMissingToBody => add_to_body(alloc, view, token, spending),
        Act::AppendToList => append_current(alloc, view, token, spending),
        Act::PutDoctype => put_doctype(alloc, view, token),
        Act::QuirksOfDoctype => quirks_of_doctype(alloc, view, token),
        _ => close(alloc, view, act, token, fostering),
    }
}

/// The acts that close elements; then the others.
#[inline(never)]
fn close<'p, B: Below>(
    alloc: Global,
    view: &mut View<'p, B>,
    act: Act,
    token: &Token<'p>,
    fostering: bool,
) -> Result<(), Refusal>
    ensures plan { CarriesBy result (sight B.heard view.old) (sight B.heard view.new) (close_plan fostering token.now act) }
{
    match act {
        Act::Pop => view.pop(alloc),
        Act::PopTo(set) => view.pop_to(alloc, Kinds::Set(set)),
        Act::PopToFirst => view.pop_to_first(alloc),
        Act::PopToPoint => pop_to_point(alloc, view),
        Act::Through(which) => {
            let name = name_of(alloc, token, which)?;
            view.through(alloc, Kinds::Html(name), Kinds::Nothing)
        }
        Act::ThroughFirstOf(set) => view.through(alloc, Kinds::Set(set), Kinds::Nothing),
        Act::ThroughForeign => {
            let name = name_of(alloc, token, Which::Its)?;
            through_foreign(alloc, view, name)
        }
        Act::Implied => view.implied(alloc),
        Act::ImpliedExcept(which) => {
            let name = name_of(alloc, token, which)?;
            implied_but(alloc, view, &name)
        }
        Act::ImpliedThoroughly => view.implied_thoroughly(alloc),
        Act::CloseParagraph => view.close_paragraph(alloc),
        Act::CloseItem => view.close_item(alloc),
        Act::CloseDescription => view.close_description(alloc),
        Act::Walk => {
            let name = name_of(alloc, token, Which::Its)?;
            view.walk(alloc, name)
        }
        Act::Adopt(which) => {
            let name = name_of(alloc, token, which)?;
            adopt(alloc, view, fostering, name)
        }
        Act::CloseLink => close_link(alloc, view, fostering),
        Act::EndForm => view.end_form(alloc),
        Act::DetachBody => view.detach_body(alloc),
        _ => set(alloc, view, act),
    }
}

/// The acts that the token has no part in, on the fields of the state; and those that only steer the row, which change nothing.
#[inline(never)]
fn set<'p, B: Below>(alloc: Global, view: &mut View<'p, B>, act: Act) -> Result<(), Refusal>
    ensures plan { CarriesBy result (sight B.heard view.old) (sight B.heard view.new) (field_plan act) }
{
    match act {
        Act::Switch(mode) => view.switch_to(alloc, mode),
        Act::KeepOriginal => view.keep_original(alloc),
        Act::ToOriginal => view.to_original(alloc),
        Act::Reset => view.reset(alloc),
        Act::Marker => view.add_marker(alloc),
        Act::ClearToMarker => view.clear_to_marker(alloc),
        Act::PushTemplateMode(mode) => view.push_template_mode(alloc, mode),
        Act::ReplaceTemplateMode(mode) => view.replace_template_mode(alloc, mode),
        Act::PopTemplateMode => view.pop_template_mode(alloc),
        Act::SkipLineFeed => view.skip_line_feed(alloc),
        Act::FormPointer => view.point_form(alloc),
        Act::HeadPointer => view.point_head(alloc),
        Act::PushHead => view.push_head(alloc),
        Act::TakeHeadOff => view.take_head_off(alloc),
        Act::Quirks => view.set_quirks(alloc),
        Act::EmptyPending => view.empty_pending(alloc),
        Act::Flush => flush(alloc, view),
        _ => Ok(()),
    }
}
