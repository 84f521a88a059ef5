//! What the lexer's table reads and writes.
ghost use Rattle.std.specs.Prelude.{◌≡◌, ◌∷◌, ◌++◌, [], None, OnOk, IfOk};

use crate::NoMemory;
use crate::building::{Building, NewDoctype, NewTag, Part, copied_part, finish};
use crate::owned::OwnedText;
use crate::state::{Return, State};
use hp_elements::{
    Chain, CharClass, Doctype, DoctypeParts, Name, Namespace, Rest, Tag, Text, Token, Tokens,
};
use std::alloc::Global;
use std::mem;

/// What the lexer's table reads and writes: the state, and the parts that it uses.
#[derive(Drop)]
pub struct Machine {
    pub state: State,
    pub building: Building,
    /// The standard's temporary buffer.
    pub buffer: OwnedText,
    /// Where a character reference goes back to.
    pub return_to: Return,
    /// The value of a numeric reference; above 10FFFF it stays at 110000.
    pub value: u32,
    /// The last start tag's name, where the lexer was told it or emitted one.
    pub last_tag: Option<OwnedText>,
    /// Whether the last code point was CR.
    pub after_cr: bool,
}

impl Machine {
    ghost use Rattle.hp_tokens.specs.declared.building.Building.TheVariants.{Nothing as nothing_built};
    ghost use Rattle.hp_tokens.specs.States.{enter, state_of_rest};
    ghost use Rattle.hp_tokens.specs.Rows.{resting, putting, putting_text, new_start_tag, new_end_tag, new_comment, new_doctype, new_attribute, self_closing, quirky, EmitsBuilt, Flushes};
    ghost use Rattle.std.specs.Str.{chars};

    /// The machine in a resting state, without a last start tag's name.
    pub fn at_rest(rest: Rest, after_cr: bool) -> Machine
        ensures { result ≡ resting rest after_cr }
    {
        Machine {
            state: State::of_rest(rest),
            building: Building::Nothing,
            buffer: OwnedText::new(),
            return_to: Return::Data,
            value: 0,
            last_tag: None,
            after_cr,
        }
    }

    /// A copy.
    pub fn copy(&self, alloc: Global) -> Result<Machine, NoMemory>
        ensures { IfOk result (λ copy. copy ≡ self.now) }
    {
        let Ok(buffer) = self.buffer.copy(alloc) else {
            return Err(NoMemory);
        };
        let Ok(last_tag) = copied_part(alloc, &self.last_tag) else {
            return Err(NoMemory);
        };
        let Ok(building) = self.building.copy(alloc) else {
            return Err(NoMemory);
        };
        Ok(Machine {
            state: self.state,
            building,
            buffer,
            return_to: self.return_to,
            value: self.value,
            last_tag,
            after_cr: self.after_cr,
        })
    }

    /// Goes to a state. The parts that it does not use are emptied.
    #[inline(always)]
    pub fn enter(&mut self, state: State)
        ensures { self.new ≡ enter state self.old }
    {
        self.state = state;
        if !state.uses_token() {
            self.build_nothing();
        }
        if !state.uses_buffer() {
            self.buffer.clear();
        }
        if !state.uses_return() {
            self.return_to = Return::Data;
        }
        if !state.uses_value() {
            self.value = 0;
        }
    }

    /// Drops what is built. Where nothing is, nothing is written, since to write it takes long.
    #[inline(always)]
    fn build_nothing(&mut self)
        ensures { self.new ≡ record self.old { building = nothing_built } }
    {
        match &self.building {
            Building::Nothing => {}
            _ => self.building.begin(Building::Nothing),
        }
    }

    /// Appends a text to a part of what is built.
    #[inline]
    pub fn put_text(&mut self, alloc: Global, part: Part, text: &str) -> Result<(), NoMemory>
        ensures { OnOk result (self.new ≡ putting_text part (chars text.now) self.old) }
    {
        self.building.put(alloc, part, text)
    }

    /// Appends a code point to a part of what is built.
    pub fn put(&mut self, alloc: Global, part: Part, c: char) -> Result<(), NoMemory>
        ensures { OnOk result (self.new ≡ putting part c self.old) }
    {
        let mut bytes = [0; 4];
        let text: &str = c.encode_utf8(&mut bytes);
        self.put_text(alloc, part, text)
    }

    /// Begins a start tag.
    #[inline]
    pub fn begin_start_tag(&mut self)
        ensures { self.new ≡ new_start_tag self.old }
    {
        self.building.begin(Building::StartTag(NewTag {
            name: OwnedText::new(),
            attributes: Chain::new(),
            attribute: None,
            self_closing: false,
        }));
    }

    /// Begins an end tag.
    #[inline]
    pub fn begin_end_tag(&mut self)
        ensures { self.new ≡ new_end_tag self.old }
    {
        self.building.begin(Building::EndTag(OwnedText::new()));
    }

    /// Begins a comment.
    pub fn begin_comment(&mut self)
        ensures { self.new ≡ new_comment self.old }
    {
        self.building.begin(Building::Comment(OwnedText::new()));
    }

    /// Begins a doctype, which lacks all parts.
    pub fn begin_doctype(&mut self)
        ensures { self.new ≡ new_doctype self.old }
    {
        self.building.begin(Building::Doctype(NewDoctype {
            name: None,
            public: None,
            system: None,
            force_quirks: false,
        }));
    }

    /// Begins an attribute.
    pub fn begin_attribute(&mut self, alloc: Global) -> Result<(), NoMemory>
        ensures { OnOk result (self.new ≡ new_attribute self.old) }
    {
        self.building.begin_attribute(alloc)
    }

    /// Appends the token that was built, and keeps the name of a start tag as the last one.
    pub fn emit_built(&mut self, alloc: Global, tokens: &mut Tokens<'_>) -> Result<(), NoMemory>
        ensures { OnOk result (EmitsBuilt self.old tokens.old self.new tokens.new) }
    {
        let token = match &mut self.building {
            Building::Nothing => return Ok(()),
            Building::StartTag(tag) => start_token(alloc, tag, &mut self.last_tag)?,
            Building::EndTag(name) => Token::EndTag {
                name: Name::from_text(alloc, name.as_str())?,
            },
            Building::Comment(comment) => {
                let text = mem::replace(comment, OwnedText::new()).into_text(alloc)?;
                Token::Comment { text }
            }
            Building::Doctype(doctype) => {
                let doctype = finished_doctype(alloc, doctype)?;
                Token::Doctype { doctype }
            }
        };
        self.build_nothing();
        push_token(alloc, tokens, token)
    }

    /// The buffer goes into the attribute's value, where the character reference stands in one; otherwise its code points
    /// are appended to the tokens.
    pub fn flush(&mut self, alloc: Global, tokens: &mut Tokens<'_>) -> Result<(), NoMemory>
        ensures { OnOk result (Flushes self.old tokens.old self.new tokens.new) }
    {
        if self.return_to.is_in_value() {
            self.building.put(alloc, Part::Value, self.buffer.as_str())
        } else {
            push_text(alloc, tokens, &self.buffer)
        }
    }
}

ghost use Rattle.hp_tokens.specs.Parts.{finished_tag as spec_tag};
ghost use Rattle.hp_tokens.specs.Rows.{character};
ghost use Rattle.std.specs.Prelude.{map, Some};
ghost use Rattle.hp_elements.specs.declared.token.Token.TheVariants as tokens;

/// The start tag that was built; its name is kept as the last one.
fn start_token<'p>(
    alloc: Global,
    built: &mut NewTag,
    last_tag: &mut Option<OwnedText>,
) -> Result<Token<'p>, NoMemory>
    ensures token { IfOk result (λ token. token ≡ tokens.Start built.old.self_closing (spec_tag built.old)) }
    ensures last { OnOk result (last_tag.new ≡ Some built.old.name) }
{
    finish(alloc, &mut built.attributes, built.attribute.take())?;
    let tag = Tag {
        namespace: Namespace::Html,
        name: Name::from_text(alloc, built.name.as_str())?,
        attributes: mem::replace(&mut built.attributes, Chain::new()),
    };
    let name = mem::replace(&mut built.name, OwnedText::new());
    *last_tag = Some(name);
    Ok(Token::Start {
        self_closing: built.self_closing,
        tag,
    })
}

ghost use Rattle.hp_tokens.specs.Parts.{finished_doctype as spec_doctype};

/// The doctype that was built. Its parts are taken.
fn finished_doctype<'p>(alloc: Global, doctype: &mut NewDoctype) -> Result<Doctype<'p>, NoMemory>
    ensures { IfOk result (λ finished. finished ≡ spec_doctype doctype.old) }
{
    let Ok(name) = finished_part(alloc, &mut doctype.name) else {
        return Err(NoMemory);
    };
    let Ok(public) = finished_part(alloc, &mut doctype.public) else {
        return Err(NoMemory);
    };
    let Ok(system) = finished_part(alloc, &mut doctype.system) else {
        return Err(NoMemory);
    };
    let parts = DoctypeParts {
        name,
        public,
        system,
        force_quirks: doctype.force_quirks,
    };
    Doctype::new(alloc, parts)
}

fn finished_part<'p>(
    alloc: Global,
    part: &mut Option<OwnedText>,
) -> Result<Option<Text<'p>>, NoMemory>
    ensures { IfOk result (λ finished. finished ≡ part.old) }
{
    match part.take() {
        None => Ok(None),
        Some(part) => Ok(Some(part.into_text(alloc)?)),
    }
}

/// Appends a token.
#[inline(always)]
pub(crate) fn push_token<'p>(
    alloc: Global,
    tokens: &mut Tokens<'p>,
    token: Token<'p>,
) -> Result<(), NoMemory>
    ensures { OnOk result (tokens.new ≡ tokens.old ++ token.entry ∷ []) }
{
    tokens.push(alloc, token)?;
    Ok(())
}

/// Appends a code point to the tokens.
pub fn push_char(alloc: Global, tokens: &mut Tokens<'_>, c: char) -> Result<(), NoMemory>
    ensures { OnOk result (tokens.new ≡ tokens.old ++ character c ∷ []) }
{
    let token = Token::Characters {
        class: CharClass::of(c),
        text: Text::of_char(c),
    };
    push_token(alloc, tokens, token)
}

/// Appends the code points of a text to the tokens, each in a token of its own.
pub(crate) fn push_text(
    alloc: Global,
    tokens: &mut Tokens<'_>,
    text: &OwnedText,
) -> Result<(), NoMemory>
    ensures { OnOk result (tokens.new ≡ tokens.old ++ map character text.now) }
{
    for c in text.as_str().chars() {
        push_char(alloc, tokens, c)?;
    }
    Ok(())
}
