//! What the rules test of the state and of the token.
ghost use Rattle.std.specs.Prelude.{◌≡◌};
ghost use Rattle.hp_control.specs.Foreign.{has_font_attribute};
ghost use Rattle.hp_views.specs.View.{sight, Answers};
ghost use Rattle.hp_model.specs.Tokens.{has_hidden_type, is_hidden, tag_of};
ghost use Rattle.hp_acts.specs.Plans.{test_plan};

use crate::token_parts::name_of;
use hp_control::{Below, Refusal};
use hp_elements::{Attribute, ElementName, Kinds, Known, Name, Scope, Test, Token, Which};
use hp_foreign::{has_font_attribute, names_foreign};
use hp_views::View;
use std::alloc::Global;

/// Whether it is an attribute `type` that equals `hidden` without ASCII case.
fn is_hidden(attribute: &Attribute) -> bool
    ensures { result ≡ is_hidden attribute.now }
{
    attribute.name.is(Known::TYPE) && attribute.value.as_str().eq_ignore_ascii_case("hidden")
}

/// Whether the token has such an attribute.
fn is_type_hidden(token: &Token<'_>) -> bool
    ensures { result ≡ has_hidden_type token.now }
{
    match token {
        Token::Start { tag, .. } => tag.attributes.iter().any(|attribute| is_hidden(attribute)),
        _ => false,
    }
}

/// Whether the token has an attribute `color`, `face` or `size`.
fn is_font(token: &Token<'_>) -> bool
    ensures { result ≡ has_font_attribute (tag_of token.now) }
{
    match token {
        Token::Start { tag, .. } => has_font_attribute(tag),
        _ => false,
    }
}

/// Whether the test holds.
pub(crate) fn holds<'p, B: Below>(
    alloc: Global,
    view: &mut View<'p, B>,
    token: &Token<'p>,
    test: Test,
) -> Result<bool, Refusal>
    ensures plan { Answers result (sight B.heard view.old) (sight B.heard view.new) (λ v. test_plan token.now test v) }
{
    match test {
        // The stack knows it without a walk.
        Test::InScope(Scope::Button, Which::Named(Known::Element(ElementName::P))) => {
            view.has_paragraph(alloc)
        }
        Test::InScope(scope, which) => {
            let name = name_of(alloc, token, which)?;
            view.in_scope(alloc, scope, Kinds::Html(name))
        }
        Test::OneInScope(scope, set) => view.in_scope(alloc, scope, Kinds::Set(set)),
        Test::TemplateInStack => view.template_in_stack(alloc),
        Test::HasTemplateModes => Ok(view.has_template_modes()),
        Test::SecondIsBody => view.second_is_body(alloc),
        Test::FramesetOk => view.is_frameset_ok(alloc),
        Test::IsQuirks => view.is_quirks(alloc),
        Test::HasForm => view.has_form(alloc),
        Test::CurrentIs(known) => view.current_is(alloc, Kinds::Html(Name::of_known(known))),
        Test::CurrentIsIn(set) => view.current_is(alloc, Kinds::Set(set)),
        Test::BelowIs(known) => view.below_is(alloc, Kinds::Html(Name::of_known(known))),
        Test::Listed(known) => view.is_listed(alloc, Name::of_known(known)),
        Test::TypeIsHidden => Ok(is_type_hidden(token)),
        Test::InTableModes => Ok(view.in_table_modes()),
        Test::HasFontAttribute => Ok(is_font(token)),
        Test::NamesForeign => {
            let name = name_of(alloc, token, Which::Its)?;
            names_foreign(alloc, view, name)
        }
    }
}
