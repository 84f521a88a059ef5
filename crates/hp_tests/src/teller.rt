//! Tells tokens as a text, one behind the other, and compares it with the text that is wanted.
use hp_elements::{Doctype, Tag, Text, Token};

/// Tells runs in brackets, other tokens with the place where they began, where one is wanted: `<name attribute=value/>@place`,
/// `</name>@place`, `<!--comment-->@place`, `<!(name) (public) (system) quirks>@place`, and `$` for the end of input.
#[derive(Drop)]
pub struct Teller<'w> {
    /// What is wanted behind what was told.
    pub left: &'w str,
    /// Whether what was told was wanted.
    pub well: bool,
    pub in_run: bool,
    /// Whether places are told, and not passed over.
    pub with_places: bool,
}

const DIGITS: &[char] = &['0', '1', '2', '3', '4', '5', '6', '7', '8', '9'];

impl Teller<'_> {
    fn put(&mut self, part: &str) {
        match self.left.strip_prefix(part) {
            Some(left) => self.left = left,
            None => self.well = false,
        }
    }

    fn tell_doctype(&mut self, doctype: &Doctype<'_>) {
        let parts = doctype.parts();
        self.put("<!");
        self.tell_part(&parts.name);
        self.put(" ");
        self.tell_part(&parts.public);
        self.put(" ");
        self.tell_part(&parts.system);
        self.put(if parts.force_quirks { " quirks>" } else { ">" });
    }

    /// Tells a part of a doctype in parentheses, or a hyphen where there is none.
    fn tell_part(&mut self, part: &Option<Text<'_>>) {
        match part {
            None => self.put("-"),
            Some(part) => self.tell_between("(", part.as_str(), ")"),
        }
    }

    fn tell_between(&mut self, before: &str, text: &str, behind: &str) {
        self.put(before);
        self.put(text);
        self.put(behind);
    }

    fn tell_start(&mut self, tag: &Tag, self_closing: bool) {
        self.put("<");
        self.put(tag.name.as_str());
        for attribute in tag.attributes.iter() {
            self.tell_between(" ", attribute.name.as_str(), "=");
            self.put(attribute.value.as_str());
        }
        self.put(if self_closing { "/>" } else { ">" });
    }

    /// Tells a token without the brackets of its run and its place.
    fn tell_alone(&mut self, token: &Token<'_>) {
        match token {
            Token::Characters { text, .. } => self.put(text.as_str()),
            Token::Start { self_closing, tag } => self.tell_start(tag, *self_closing),
            Token::EndTag { name } => self.tell_between("</", name.as_str(), ">"),
            Token::Comment { text } => self.tell_between("<!--", text.as_str(), "-->"),
            Token::Doctype { doctype } => self.tell_doctype(doctype),
            Token::EndOfInput => self.put("$"),
        }
    }

    /// Tells the place where a token began, where one is wanted.
    fn tell_place(&mut self, began: u64) {
        if let Some(behind) = self.left.strip_prefix('@') {
            let left = behind.trim_start_matches(DIGITS);
            let digits = behind.strip_suffix(left).unwrap_or("");
            self.left = left;
            if self.with_places {
                self.well &= u64::from_str_radix(digits, 10).ok() == Some(began);
            }
        }
    }

    /// Tells a token; a text that follows another is of the same run.
    fn tell(&mut self, token: &Token<'_>, began: u64) {
        let was_in_run = self.in_run;
        self.in_run = matches!(token, Token::Characters { .. });
        if was_in_run != self.in_run {
            self.put(if was_in_run { "]" } else { "[" });
        }
        self.tell_alone(token);
        if !self.in_run {
            self.tell_place(began);
        }
    }

    pub fn tell_all(&mut self, tokens: &[Token<'_>], began: u64) {
        for token in tokens {
            self.tell(token, began);
        }
    }
}
