//! The acts that insert an element for the token, and that list it.
ghost use Rattle.std.specs.Prelude.{◌≡◌, OnOk};
ghost use Rattle.hp_adoption.specs.ArkPlans.{append_to_list_plan};
ghost use Rattle.hp_views.specs.PlacePlans.{insert_plan, insert_document_plan, add_first_plan, add_body_plan};
ghost use Rattle.hp_views.specs.View.{sight, Carries};
ghost use Rattle.hp_foreign.specs.Plans.{insert_foreign_plan, insert_as_current_plan};
ghost use Rattle.hp_model.specs.Tokens.{is_self_closing as spec_is_self_closing, tag_of};
ghost use Rattle.hp_acts.specs.Spending.{html_tag, IsLeftOf};
ghost use Rattle.hp_acts.specs.declared.token_parts.Spending.TheVariants.{Copies};

use crate::token_parts::{Spending, is_self_closing, take_attributes, take_tag};
use hp_adoption::append_to_list;
use hp_control::{Below, Refusal};
use hp_elements::{Point, Token};
use hp_foreign::{insert_as_current, insert_foreign};
use hp_views::View;
use std::alloc::Global;

/// Inserts an HTML element for the token.
pub(crate) fn insert<'p, B: Below>(
    alloc: Global,
    view: &mut View<'p, B>,
    token: &mut Token<'p>,
    spending: Spending,
    fostering: bool,
) -> Result<(), Refusal>
    ensures plan { Carries result (sight B.heard view.old) (sight B.heard view.new) (insert_plan fostering (html_tag token.old)) }
    ensures left { OnOk result (IsLeftOf token.old token.new) }
    ensures copies { spending ≡ Copies → token.new ≡ token.old }
{
    let tag = take_tag(alloc, token, spending)?;
    view.insert(alloc, fostering, tag, Point::No)
}

/// Inserts an element of the namespace that the token's name says.
#[inline(never)]
pub(crate) fn insert_named_foreign<'p, B: Below>(
    alloc: Global,
    view: &mut View<'p, B>,
    token: &mut Token<'p>,
    spending: Spending,
    fostering: bool,
) -> Result<(), Refusal>
    ensures plan { Carries result (sight B.heard view.old) (sight B.heard view.new) (insert_foreign_plan fostering (spec_is_self_closing token.old) (html_tag token.old)) }
    ensures left { OnOk result (IsLeftOf token.old token.new) }
    ensures copies { spending ≡ Copies → token.new ≡ token.old }
{
    let self_closing = is_self_closing(token);
    let tag = take_tag(alloc, token, spending)?;
    insert_foreign(alloc, view, fostering, self_closing, tag)
}

/// Inserts an element of the current node's namespace.
#[inline(never)]
pub(crate) fn insert_like_current<'p, B: Below>(
    alloc: Global,
    view: &mut View<'p, B>,
    token: &mut Token<'p>,
    spending: Spending,
    fostering: bool,
) -> Result<(), Refusal>
    ensures plan { Carries result (sight B.heard view.old) (sight B.heard view.new) (insert_as_current_plan fostering (spec_is_self_closing token.old) (html_tag token.old)) }
    ensures left { OnOk result (IsLeftOf token.old token.new) }
    ensures copies { spending ≡ Copies → token.new ≡ token.old }
{
    let self_closing = is_self_closing(token);
    let tag = take_tag(alloc, token, spending)?;
    insert_as_current(alloc, view, fostering, self_closing, tag)
}

/// Puts an HTML element for the token into the document.
#[inline(never)]
pub(crate) fn insert_html<'p, B: Below>(
    alloc: Global,
    view: &mut View<'p, B>,
    token: &mut Token<'p>,
    spending: Spending,
) -> Result<(), Refusal>
    ensures plan { Carries result (sight B.heard view.old) (sight B.heard view.new) (insert_document_plan (html_tag token.old)) }
    ensures left { OnOk result (IsLeftOf token.old token.new) }
    ensures copies { spending ≡ Copies → token.new ≡ token.old }
{
    let tag = take_tag(alloc, token, spending)?;
    view.insert_into_document(alloc, tag)
}

/// Adds the token's attributes to the first element.
#[inline(never)]
pub(crate) fn add_to_first<'p, B: Below>(
    alloc: Global,
    view: &mut View<'p, B>,
    token: &mut Token<'p>,
    spending: Spending,
) -> Result<(), Refusal>
    ensures plan { Carries result (sight B.heard view.old) (sight B.heard view.new) (add_first_plan (tag_of token.old).attributes) }
    ensures left { OnOk result (IsLeftOf token.old token.new) }
    ensures copies { spending ≡ Copies → token.new ≡ token.old }
{
    let attributes = take_attributes(alloc, token, spending)?;
    view.add_missing_to_first(alloc, attributes)
}

/// Adds the token's attributes to the second element.
#[inline(never)]
pub(crate) fn add_to_body<'p, B: Below>(
    alloc: Global,
    view: &mut View<'p, B>,
    token: &mut Token<'p>,
    spending: Spending,
) -> Result<(), Refusal>
    ensures plan { Carries result (sight B.heard view.old) (sight B.heard view.new) (add_body_plan (tag_of token.old).attributes) }
    ensures left { OnOk result (IsLeftOf token.old token.new) }
    ensures copies { spending ≡ Copies → token.new ≡ token.old }
{
    let attributes = take_attributes(alloc, token, spending)?;
    view.add_missing_to_body(alloc, attributes)
}

/// Appends the current node, which was made for the token, to the list of formatting elements.
pub(crate) fn append_current<'p, B: Below>(
    alloc: Global,
    view: &mut View<'p, B>,
    token: &mut Token<'p>,
    spending: Spending,
) -> Result<(), Refusal>
    ensures plan { Carries result (sight B.heard view.old) (sight B.heard view.new) (append_to_list_plan (html_tag token.old)) }
    ensures left { OnOk result (IsLeftOf token.old token.new) }
    ensures copies { spending ≡ Copies → token.new ≡ token.old }
{
    let tag = take_tag(alloc, token, spending)?;
    append_to_list(alloc, view, tag)
}
