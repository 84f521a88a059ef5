//! The parts of a token that acts read, or give to the tree and the list.
ghost use Rattle.std.specs.Prelude.{◌≡◌, IfOk, OnOk};
ghost use Rattle.hp_elements.specs.Names.{text_of};
ghost use Rattle.hp_model.specs.Tokens.{as_start, bare, characters, comment, is_self_closing, name_for, name_of, tag_of};
ghost use Rattle.hp_acts.specs.HandlePlans.{without_line_feed};
ghost use Rattle.hp_acts.specs.Spending.{html_tag, IsLeftOf};
ghost use Rattle.hp_acts.specs.declared.token_parts.Spending.TheVariants.{Copies};

use hp_elements::{
    Attribute, Chain, CharClass, Known, Name, Namespace, NoMemory, Tag, Text, Token, Which,
};
use std::alloc::Global;
use std::mem;

/// What becomes of the part of the token that an act puts into the tree or the list.
#[derive(Clone, Copy)]
pub enum Spending {
    /// It is copied, and the token stays as it is.
    Copies,
    /// It is moved, and the token is left without its text or its attributes.
    Moves,
}

/// The token's own name; the empty one where it has none.
#[inline(always)]
fn own_name(alloc: Global, token: &Token<'_>) -> Result<Name, NoMemory>
    ensures { IfOk result (λ name. name ≡ name_of token.now) }
{
    match token {
        Token::Start { tag, .. } => tag.name.copy(alloc),
        Token::EndTag { name } => name.copy(alloc),
        _ => {
            let none = Name::from_text(alloc, "")?;
            Ok(none)
        }
    }
}

/// The name that an act is about.
#[inline(always)]
pub(crate) fn name_of(alloc: Global, token: &Token<'_>, which: Which) -> Result<Name, NoMemory>
    ensures { IfOk result (λ name. name ≡ name_for token.now which) }
{
    match which {
        Which::Its => own_name(alloc, token),
        Which::Named(known) => Ok(Name::of_known(known)),
    }
}

/// An HTML tag of that name without attributes.
pub(crate) fn bare(name: Known) -> Tag
    ensures { result ≡ bare (text_of name) }
{
    Tag {
        namespace: Namespace::Html,
        name: Name::of_known(name),
        attributes: Chain::new(),
    }
}

/// The attributes of a start tag; none of another token.
pub(crate) fn take_attributes(
    alloc: Global,
    token: &mut Token<'_>,
    spending: Spending,
) -> Result<Chain<Attribute>, NoMemory>
    ensures value { IfOk result (λ attributes. attributes ≡ (tag_of token.old).attributes) }
    ensures left { OnOk result (IsLeftOf token.old token.new) }
    ensures copies { spending ≡ Copies → token.new ≡ token.old }
{
    match token {
        Token::Start { tag, .. } => match spending {
            Spending::Moves => Ok(tag.attributes.take_all()),
            Spending::Copies => {
                let copy = tag.copy(alloc)?;
                Ok(copy.attributes)
            }
        },
        _ => Ok(Chain::new()),
    }
}

/// The HTML tag of a start tag. Of another token it has its name and no attributes.
#[inline(always)]
pub(crate) fn take_tag(
    alloc: Global,
    token: &mut Token<'_>,
    spending: Spending,
) -> Result<Tag, NoMemory>
    ensures value { IfOk result (λ tag. tag ≡ html_tag token.old) }
    ensures left { OnOk result (IsLeftOf token.old token.new) }
    ensures copies { spending ≡ Copies → token.new ≡ token.old }
{
    let name = own_name(alloc, token)?;
    let attributes = take_attributes(alloc, token, spending)?;
    Ok(Tag {
        namespace: Namespace::Html,
        name,
        attributes,
    })
}

/// The tag, moved out of its place.
#[inline(always)]
pub(crate) fn taken_tag(tag: &mut Tag) -> Tag
    ensures { result ≡ tag.old }
{
    mem::replace(tag, bare(Known::A))
}

/// The name, moved out of its place.
#[inline(always)]
pub(crate) fn taken_name(name: &mut Name) -> Name
    ensures { result ≡ name.old }
{
    mem::replace(name, Name::of_known(Known::A))
}

/// The token, moved out of its place.
#[inline(always)]
pub(crate) fn taken<'p>(token: &mut Token<'p>) -> Token<'p>
    ensures { result ≡ token.old }
{
    mem::replace(token, Token::EndOfInput)
}

/// A text that is moved out of its place, or copied.
fn text_out<'p>(
    alloc: Global,
    text: &mut Text<'p>,
    spending: Spending,
) -> Result<Text<'p>, NoMemory>
    ensures value { IfOk result (λ out. out ≡ text.old) }
    ensures copies { spending ≡ Copies → text.new ≡ text.old }
{
    match spending {
        Spending::Moves => Ok(mem::replace(text, Text::new())),
        Spending::Copies => text.copy(alloc),
    }
}

/// The text of characters; the empty one of another token.
pub(crate) fn take_characters<'p>(
    alloc: Global,
    token: &mut Token<'p>,
    spending: Spending,
) -> Result<Text<'p>, NoMemory>
    ensures value { IfOk result (λ text. text ≡ characters token.old) }
    ensures left { OnOk result (IsLeftOf token.old token.new) }
    ensures copies { spending ≡ Copies → token.new ≡ token.old }
{
    match token {
        Token::Characters { text, .. } => text_out(alloc, text, spending),
        _ => Ok(Text::new()),
    }
}

/// The text of a comment; the empty one of another token.
pub(crate) fn take_comment<'p>(
    alloc: Global,
    token: &mut Token<'p>,
    spending: Spending,
) -> Result<Text<'p>, NoMemory>
    ensures value { IfOk result (λ text. text ≡ comment token.old) }
    ensures left { OnOk result (IsLeftOf token.old token.new) }
    ensures copies { spending ≡ Copies → token.new ≡ token.old }
{
    match token {
        Token::Comment { text } => text_out(alloc, text, spending),
        _ => Ok(Text::new()),
    }
}

/// Whether it is a self-closing start tag.
pub(crate) fn is_self_closing(token: &Token<'_>) -> bool
    ensures { result ≡ is_self_closing token.now }
{
    match token {
        Token::Start { self_closing, .. } => *self_closing,
        _ => false,
    }
}

/// Makes the token a start tag of that name.
pub(crate) fn rename(token: &mut Token<'_>, name: Known)
    ensures { token.new ≡ as_start name token.old }
{
    match token {
        Token::Start { tag, .. } => tag.name = Name::of_known(name),
        _ => {
            *token = Token::Start {
                self_closing: false,
                tag: bare(name),
            }
        }
    }
}

/// The token without the line feed that it begins with; none where it is that alone.
pub(crate) fn after_line_feed<'p>(
    alloc: Global,
    token: Token<'p>,
) -> Result<Option<Token<'p>>, NoMemory>
    ensures { IfOk result (λ rest. rest ≡ without_line_feed token.entry) }
{
    match token {
        Token::Characters { class, text } => {
            let after = match text.as_str().strip_prefix('\n') {
                Some(rest) => Text::from_str(alloc, rest)?,
                None => return Ok(Some(Token::Characters { class, text })),
            };
            if after.is_empty() {
                return Ok(None);
            }
            Ok(Some(Token::Characters { class, text: after }))
        }
        token => Ok(Some(token)),
    }
}
