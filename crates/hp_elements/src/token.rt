//! Tokens, and what the rules look at in them.
ghost use Rattle.std.specs.Prelude.{◌≡◌, IfOk};

use crate::known::Known;
use crate::list::List;
use crate::name::Name;
use crate::tag::Tag;
use crate::text::Text;
use std::alloc::{AllocError, Global};
use std::marker::Model;

/// An insertion mode (13.2.4.1).
#[derive(Clone, Copy, PartialEq, Eq)]
pub enum Mode {
    /// "initial" (13.2.6.4.1).
    Initial,
    /// "before html" (13.2.6.4.2).
    BeforeHtml,
    /// "before head" (13.2.6.4.3).
    BeforeHead,
    /// "in head" (13.2.6.4.4).
    InHead,
    /// "in head noscript" (13.2.6.4.5).
    InHeadNoscript,
    /// "after head" (13.2.6.4.6).
    AfterHead,
    /// "in body" (13.2.6.4.7).
    InBody,
    /// "text" (13.2.6.4.8).
    Text,
    /// "in table" (13.2.6.4.9).
    InTable,
    /// "in table text" (13.2.6.4.10).
    InTableText,
    /// "in caption" (13.2.6.4.11).
    InCaption,
    /// "in column group" (13.2.6.4.12).
    InColumnGroup,
    /// "in table body" (13.2.6.4.13).
    InTableBody,
    /// "in row" (13.2.6.4.14).
    InRow,
    /// "in cell" (13.2.6.4.15).
    InCell,
    /// "in select" (13.2.6.4.16).
    InSelect,
    /// "in select in table" (13.2.6.4.17).
    InSelectInTable,
    /// "in template" (13.2.6.4.18).
    InTemplate,
    /// "after body" (13.2.6.4.19).
    AfterBody,
    /// "in frameset" (13.2.6.4.20).
    InFrameset,
    /// "after frameset" (13.2.6.4.21).
    AfterFrameset,
    /// "after after body" (13.2.6.4.22).
    AfterAfterBody,
    /// "after after frameset" (13.2.6.4.23).
    AfterAfterFrameset,
}

/// A resting state of the lexer: one in which no code point is held back.
#[derive(Clone, Copy, PartialEq, Eq)]
pub enum Rest {
    /// Data (13.2.5.1).
    Data,
    /// RCDATA (13.2.5.2).
    Rcdata,
    /// RAWTEXT (13.2.5.3).
    Rawtext,
    /// Script data (13.2.5.4).
    Script,
    /// PLAINTEXT (13.2.5.5).
    Plaintext,
    /// Script data escaped (13.2.5.20).
    Escaped,
    /// Script data escaped dash (13.2.5.21).
    EscapedDash,
    /// Script data escaped dash dash (13.2.5.22).
    EscapedDashDash,
    /// Script data double escaped (13.2.5.27).
    Double,
    /// Script data double escaped dash (13.2.5.28).
    DoubleDash,
    /// Script data double escaped dash dash (13.2.5.29).
    DoubleDashDash,
    /// CDATA section (13.2.5.69).
    Cdata,
}

/// The class of a code point: white space, U+0000, or another one.
#[derive(Clone, Copy)]
pub enum CharClass {
    White,
    Nul,
    Other,
}

impl CharClass {
    ghost use Rattle.hp_elements.specs.Tokens.{class_of};

    /// The class of that code point. White is U+0009, U+000A, U+000C, U+000D and U+0020.
    #[inline]
    pub fn of(c: char) -> CharClass
        ensures { result ≡ class_of c }
    {
        match c {
            '\t' | '\n' | '\x0c' | '\r' | ' ' => CharClass::White,
            '\0' => CharClass::Nul,
            _ => CharClass::Other,
        }
    }
}

/// What the rules look at in a token. `None` is a name that is no known one.
#[derive(Clone, Copy)]
pub enum Kind {
    Characters(CharClass),
    Comment,
    Doctype,
    Start(Option<Known>),
    End(Option<Known>),
    EndOfInput,
}

/// The parts of a doctype. A part that is missing is `None`.
#[derive(Drop)]
pub struct DoctypeParts<'p> {
    pub name: Option<Text<'p>>,
    pub public: Option<Text<'p>>,
    pub system: Option<Text<'p>>,
    pub force_quirks: bool,
}

/// A doctype, kept on the heap, so that tokens stay small. A contract sees its parts.
pub struct Doctype<'p> {
    parts: Box<DoctypeParts<'p>>,
}

impl<'p> Drop for Doctype<'p> {
    #[inline(always)]
    fn drop(self) {
        let Doctype { parts: _ } = self;
    }
}

impl<'p> Model for Doctype<'p> {
    ghost use Rattle.hp_elements.specs.declared.token.DoctypeParts.{DoctypeParts};

    ghost Value = { DoctypeParts };

    ghost view = { λ d. d.parts.value };
}

impl<'p> Doctype<'p> {
    /// The doctype of these parts.
    pub fn new(alloc: Global, parts: DoctypeParts<'p>) -> Result<Doctype<'p>, AllocError>
        ensures { IfOk result (λ doctype. doctype ≡ parts.entry) }
    {
        let parts = Box::new(alloc, parts)?;
        Ok(Doctype { parts })
    }

    /// The parts.
    pub fn parts(&self) -> &DoctypeParts<'p>
        ensures { result.now ≡ self.now }
    {
        &self.parts
    }

    /// Gives the parts back.
    pub fn into_parts(self) -> DoctypeParts<'p>
        ensures { result ≡ self.entry }
    {
        let Doctype { parts } = self;
        Box::into_inner(parts)
    }
}

/// A token of the page (13.2.5). A run of characters has at least one code point, all of one class.
#[derive(Drop)]
pub enum Token<'p> {
    Characters { class: CharClass, text: Text<'p> },
    Start { self_closing: bool, tag: Tag },
    EndTag { name: Name },
    Comment { text: Text<'p> },
    Doctype { doctype: Doctype<'p> },
    EndOfInput,
}

/// The tokens that a step of the lexer emits, of which the first stands in the list itself.
pub type Tokens<'p> = List<Token<'p>>;

impl<'p> Token<'p> {
    ghost use Rattle.hp_elements.specs.Tokens.{kind_of};

    /// What the rules look at.
    #[inline]
    pub fn kind(&self) -> Kind
        ensures { result ≡ kind_of self.now }
    {
        match self {
            Token::Characters { class, .. } => Kind::Characters(*class),
            Token::Start { tag, .. } => Kind::Start(tag.name.known()),
            Token::EndTag { name } => Kind::End(name.known()),
            Token::Comment { .. } => Kind::Comment,
            Token::Doctype { .. } => Kind::Doctype,
            Token::EndOfInput => Kind::EndOfInput,
        }
    }
}
