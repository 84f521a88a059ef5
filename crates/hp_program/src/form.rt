//! As what the tree of a page is written.
ghost use Rattle.std.specs.Prelude.{◌≡◌, IfErr, IfOk, None, Some};
ghost use Rattle.hp_program.specs.Forms.{form_of};

use hp_select::{SelectRefusal, Selector};
use hp_words::OutputForm;
use std::alloc::Global;

/// As what a tree is written.
#[derive(Drop)]
pub(crate) enum Form {
    /// The printed form.
    PrintedTree,
    /// The HTML text.
    HtmlText,
    /// The lines of the elements that a selector matches.
    Elements(Selector),
}

/// As what the words ask for, with the selector read where there is one. `Malformed` comes exactly where its text is none.
pub(crate) fn read_form(alloc: Global, asked: &OutputForm) -> Result<Form, SelectRefusal>
    ensures ok { IfOk result (λ form. form_of asked.now ≡ Some form) }
    ensures malformed { IfErr result (λ refused. refused ≡ SelectRefusal.Malformed → form_of asked.now ≡ None) }
{
    match asked {
        OutputForm::PrintedTree => Ok(Form::PrintedTree),
        OutputForm::HtmlText => Ok(Form::HtmlText),
        OutputForm::Elements { selector } => {
            let selector = Selector::read(alloc, selector.as_str())?;
            Ok(Form::Elements(selector))
        }
    }
}
