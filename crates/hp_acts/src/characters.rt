//! The acts that put characters, comments and the doctype into the tree.
ghost use Rattle.std.specs.Prelude.{◌≡◌, IfOk, OnOk};
ghost use Rattle.hp_control.specs.declared.edit.Child.TheVariants as child;
ghost use Rattle.hp_views.specs.FieldPlans.{append_pending_plan};
ghost use Rattle.hp_views.specs.PlacePlans.{put_plan, put_document_plan, put_first_plan};
ghost use Rattle.hp_views.specs.View.{sight, Carries};
ghost use Rattle.hp_foreign.specs.Plans.{put_replacements_plan};
ghost use Rattle.hp_model.specs.Tokens.{characters, comment, doctype_of, parts_of};
ghost use Rattle.hp_acts.specs.Plans.{quirks_of_plan};
ghost use Rattle.hp_acts.specs.Spending.{IsLeftOf};
ghost use Rattle.hp_acts.specs.declared.token_parts.Spending.TheVariants.{Copies};

use crate::token_parts::{Spending, take_characters, take_comment};
use hp_control::{Below, Child, Refusal};
use hp_elements::{Doctype, DoctypeParts, NoMemory, Text, Token};
use hp_foreign::put_replacements;
use hp_views::View;
use std::alloc::Global;

/// Inserts the token's characters.
pub(crate) fn put_characters<'p, B: Below>(
    alloc: Global,
    view: &mut View<'p, B>,
    token: &mut Token<'p>,
    spending: Spending,
    fostering: bool,
) -> Result<(), Refusal>
    ensures plan { Carries result (sight B.heard view.old) (sight B.heard view.new) (put_plan fostering (child.Text (characters token.old))) }
    ensures left { OnOk result (IsLeftOf token.old token.new) }
    ensures copies { spending ≡ Copies → token.new ≡ token.old }
{
    let text = take_characters(alloc, token, spending)?;
    view.put(alloc, fostering, Child::Text(text))
}

/// Inserts the token's text as a comment.
#[inline(never)]
pub(crate) fn put_comment<'p, B: Below>(
    alloc: Global,
    view: &mut View<'p, B>,
    token: &mut Token<'p>,
    spending: Spending,
    fostering: bool,
) -> Result<(), Refusal>
    ensures plan { Carries result (sight B.heard view.old) (sight B.heard view.new) (put_plan fostering (child.Comment (comment token.old))) }
    ensures left { OnOk result (IsLeftOf token.old token.new) }
    ensures copies { spending ≡ Copies → token.new ≡ token.old }
{
    let text = take_comment(alloc, token, spending)?;
    view.put(alloc, fostering, Child::Comment(text))
}

/// Puts the token's text as a comment into the document.
#[inline(never)]
pub(crate) fn comment_into_document<'p, B: Below>(
    alloc: Global,
    view: &mut View<'p, B>,
    token: &mut Token<'p>,
    spending: Spending,
) -> Result<(), Refusal>
    ensures plan { Carries result (sight B.heard view.old) (sight B.heard view.new) (put_document_plan (child.Comment (comment token.old))) }
    ensures left { OnOk result (IsLeftOf token.old token.new) }
    ensures copies { spending ≡ Copies → token.new ≡ token.old }
{
    let text = take_comment(alloc, token, spending)?;
    view.put_into_document(alloc, Child::Comment(text))
}

/// Puts the token's text as a comment into the first element.
#[inline(never)]
pub(crate) fn comment_into_first<'p, B: Below>(
    alloc: Global,
    view: &mut View<'p, B>,
    token: &mut Token<'p>,
    spending: Spending,
) -> Result<(), Refusal>
    ensures plan { Carries result (sight B.heard view.old) (sight B.heard view.new) (put_first_plan (child.Comment (comment token.old))) }
    ensures left { OnOk result (IsLeftOf token.old token.new) }
    ensures copies { spending ≡ Copies → token.new ≡ token.old }
{
    let text = take_comment(alloc, token, spending)?;
    view.put_into_first(alloc, Child::Comment(text))
}

/// Inserts U+FFFD for each of the token's characters.
#[inline(never)]
pub(crate) fn put_replaced<'p, B: Below>(
    alloc: Global,
    view: &mut View<'p, B>,
    token: &Token<'p>,
    fostering: bool,
) -> Result<(), Refusal>
    ensures plan { Carries result (sight B.heard view.old) (sight B.heard view.new) (put_replacements_plan fostering (characters token.now)) }
{
    match token {
        Token::Characters { text, .. } => put_replacements(alloc, view, fostering, text),
        _ => put_replacements(alloc, view, fostering, &Text::new()),
    }
}

/// Appends the token's characters to the pending ones.
#[inline(always)]
pub(crate) fn append_pending<'p, B: Below>(
    alloc: Global,
    view: &mut View<'p, B>,
    token: &Token<'p>,
) -> Result<(), Refusal>
    ensures plan { Carries result (sight B.heard view.old) (sight B.heard view.new) (append_pending_plan (characters token.now)) }
{
    match token {
        Token::Characters { text, .. } => view.append_pending(alloc, text),
        _ => view.append_pending(alloc, &Text::new()),
    }
}

/// A part of a doctype that owns its text.
fn own_part<'p>(alloc: Global, part: &Option<Text<'_>>) -> Result<Option<Text<'p>>, NoMemory>
    ensures { IfOk result (λ own. own ≡ part.now) }
{
    match part {
        None => Ok(None),
        Some(text) => {
            let own = Text::from_str(alloc, text.as_str())?;
            Ok(Some(own))
        }
    }
}

/// The doctype that the token is, with text of its own; one without parts for another token.
fn doctype_for<'p>(alloc: Global, token: &Token<'p>) -> Result<Doctype<'p>, NoMemory>
    ensures { IfOk result (λ doctype. doctype ≡ parts_of token.now) }
{
    match token {
        Token::Doctype { doctype } => {
            let parts = doctype.parts();
            let name = own_part(alloc, &parts.name)?;
            let public = own_part(alloc, &parts.public)?;
            let system = own_part(alloc, &parts.system)?;
            let own = DoctypeParts {
                name,
                public,
                system,
                force_quirks: parts.force_quirks,
            };
            Doctype::new(alloc, own)
        }
        _ => {
            let none = DoctypeParts {
                name: None,
                public: None,
                system: None,
                force_quirks: true,
            };
            Doctype::new(alloc, none)
        }
    }
}

/// Puts the doctype into the document. The token keeps it.
#[inline(never)]
pub(crate) fn put_doctype<'p, B: Below>(
    alloc: Global,
    view: &mut View<'p, B>,
    token: &Token<'p>,
) -> Result<(), Refusal>
    ensures plan { Carries result (sight B.heard view.old) (sight B.heard view.new) (put_document_plan (doctype_of (parts_of token.now))) }
{
    let doctype = doctype_for(alloc, token)?;
    view.put_into_document(alloc, Child::Doctype(doctype))
}

/// Puts the page into quirks mode where the doctype asks for it; another token does.
#[inline(never)]
pub(crate) fn quirks_of_doctype<'p, B: Below>(
    alloc: Global,
    view: &mut View<'p, B>,
    token: &Token<'p>,
) -> Result<(), Refusal>
    ensures plan { Carries result (sight B.heard view.old) (sight B.heard view.new) (quirks_of_plan (parts_of token.now)) }
{
    match token {
        Token::Doctype { doctype } if !doctype.parts().gives_quirks() => Ok(()),
        _ => view.set_quirks(alloc),
    }
}
