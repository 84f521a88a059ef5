//! Tokens of the end of input as tokens of a page.
ghost use Rattle.std.specs.Prelude.{◌≡◌, IfOk};

use hp_elements::{Doctype, DoctypeParts, NoMemory, Text, Token};
use std::alloc::Global;

/// The same token for a page of any life. Its texts are copied, which is done once a page, at its end.
pub fn of_page<'p>(alloc: Global, token: Token<'static>) -> Result<Token<'p>, NoMemory>
    ensures { IfOk result (λ own. own ≡ token.entry) }
{
    match token {
        Token::Characters { class, text } => {
            let text = text_of_page(alloc, text)?;
            Ok(Token::Characters { class, text })
        }
        Token::Start { self_closing, tag } => Ok(Token::Start { self_closing, tag }),
        Token::EndTag { name } => Ok(Token::EndTag { name }),
        Token::Comment { text } => {
            let text = text_of_page(alloc, text)?;
            Ok(Token::Comment { text })
        }
        Token::Doctype { doctype } => {
            let doctype = doctype_of_page(alloc, doctype)?;
            Ok(Token::Doctype { doctype })
        }
        Token::EndOfInput => Ok(Token::EndOfInput),
    }
}

fn text_of_page<'p>(alloc: Global, text: Text<'static>) -> Result<Text<'p>, NoMemory>
    ensures { IfOk result (λ own. own ≡ text.entry) }
{
    let own = Text::from_str(alloc, text.as_str())?;
    Ok(own)
}

fn part_of_page<'p>(
    alloc: Global,
    part: Option<Text<'static>>,
) -> Result<Option<Text<'p>>, NoMemory>
    ensures { IfOk result (λ own. own ≡ part.entry) }
{
    match part {
        None => Ok(None),
        Some(text) => {
            let own = text_of_page(alloc, text)?;
            Ok(Some(own))
        }
    }
}

fn doctype_of_page<'p>(alloc: Global, doctype: Doctype<'static>) -> Result<Doctype<'p>, NoMemory>
    ensures { IfOk result (λ own. own ≡ doctype.entry) }
{
    let DoctypeParts {
        name,
        public,
        system,
        force_quirks,
    } = doctype.into_parts();
    let name = part_of_page(alloc, name)?;
    let public = part_of_page(alloc, public)?;
    let system = part_of_page(alloc, system)?;
    let parts = DoctypeParts {
        name,
        public,
        system,
        force_quirks,
    };
    Doctype::new(alloc, parts)
}
