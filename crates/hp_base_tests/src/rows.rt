//! The rows of all four crates against an independent reading of the rules, which `tools/rule_table.py` prints: every mode
//! and foreign content, with the start and end tag of every known name and of another one, each class of characters,
//! a comment, a doctype and the end of input.
mod body;
mod numbers;
mod page;
mod rest;
mod table;

use hp_elements::{
    Act, Chain, CharClass, Doctype, DoctypeParts, Known, Mode, Name, Namespace, Tag, Test, Text,
    Token,
};
use numbers::{is_act, is_test};
use std::alloc::Global;
use std::mem;
use std::process::Abort;

/// What a way goes through: an act, or a test with its answer.
#[derive(Clone, Copy)]
enum Step {
    Does(Act),
    Asked(Test, bool),
}

/// The crates whose rows are compared.
#[derive(Clone, Copy)]
enum Part {
    Page,
    Body,
    Table,
    Rest,
}

/// A reading of some modes: see the files that `tools/rule_table.py` prints.
#[derive(Clone, Copy)]
struct Reading {
    part: Part,
    modes: &'static [Mode],
    named: &'static [(usize, bool, usize, u8)],
    nameless: &'static [&'static [u8]; 8],
    steps: &'static [Step],
    ways: &'static [(usize, u8, usize, usize)],
    places: &'static [u8],
}

static PAGE_MODES: [Mode; 11] = [
    Mode::Initial,
    Mode::BeforeHtml,
    Mode::BeforeHead,
    Mode::InHead,
    Mode::InHeadNoscript,
    Mode::AfterHead,
    Mode::AfterBody,
    Mode::InFrameset,
    Mode::AfterFrameset,
    Mode::AfterAfterBody,
    Mode::AfterAfterFrameset,
];

static BODY_MODES: [Mode; 2] = [Mode::InBody, Mode::Text];

static TABLE_MODES: [Mode; 7] = [
    Mode::InTable,
    Mode::InTableText,
    Mode::InCaption,
    Mode::InColumnGroup,
    Mode::InTableBody,
    Mode::InRow,
    Mode::InCell,
];

static REST_MODES: [Mode; 3] = [Mode::InSelect, Mode::InSelectInTable, Mode::InTemplate];

/// The act of a row at that place.
fn act_of(part: Part, row: u16, at: u32) -> Option<Act> {
    let acts = match part {
        Part::Page => hp_rules_page::acts_numbered(row),
        Part::Body => hp_rules_body::acts_numbered(row),
        Part::Table => hp_rules_table::acts_numbered(row),
        Part::Rest => hp_rules_rest::acts_numbered(row),
    };
    acts.get(at as usize).copied()
}

/// The row of a token in a mode; where there is none, in foreign content.
fn row_of(part: Part, mode: Option<Mode>, token: &Token<'_>) -> Option<u16> {
    let Some(mode) = mode else {
        return Some(hp_rules_rest::foreign_row(token));
    };
    match part {
        Part::Page => hp_rules_page::row(mode, token),
        Part::Body => hp_rules_body::row(mode, token),
        Part::Table => hp_rules_table::row(mode, token),
        Part::Rest => hp_rules_rest::row(mode, token),
    }
}

/// The place behind a step of a row, where the row has that step there.
fn behind(found: Act, at: u32, step: Step, own: Option<Known>) -> Option<u32> {
    let next = at.wrapping_add(1);
    let (well, place) = match (step, found) {
        (Step::Does(act), _) => (is_act(found, own, act), next),
        (Step::Asked(wanted, answer), Act::If { test, otherwise }) => (
            is_test(test, own, wanted),
            if answer { next } else { u32::from(otherwise) },
        ),
        (Step::Asked(wanted, answer), Act::Unless { test, otherwise }) => (
            is_test(test, own, wanted),
            if answer { u32::from(otherwise) } else { next },
        ),
        (Step::Asked(..), _) => (false, next),
    };
    if well { Some(place) } else { None }
}

impl Reading {
    /// Whether a row goes through exactly the steps whose places stand from there to there.
    fn goes(&self, row: u16, own: Option<Known>, from: usize, to: usize) -> bool {
        let Some(places) = self.places.get(from..to) else {
            return false;
        };
        let mut at: u32 = 0;
        for place in places {
            let step = self.steps.get(usize::from(*place));
            let next = match (step, act_of(self.part, row, at)) {
                (Some(step), Some(found)) => behind(found, at, *step, own),
                _ => None,
            };
            match next {
                Some(place) => at = place,
                None => return false,
            }
        }
        match act_of(self.part, row, at) {
            None => true,
            Some(last) => matches!(last, Act::Done),
        }
    }

    /// Whether the token's row in the mode of that column goes each way of the group, and there is one.
    fn agrees(&self, column: usize, token: &Token<'_>, own: Option<Known>, group: u8) -> bool {
        let Some(row) = row_of(self.part, self.modes.get(column).copied(), token) else {
            return false;
        };
        let mut some = false;
        for (mode, number, from, to) in self.ways {
            if *mode == column && *number == group {
                some = true;
                if !self.goes(row, own, *from, *to) {
                    return false;
                }
            }
        }
        some
    }

    /// The group of a known name's tag, where it isn't that of another name's; else the other's.
    fn group(&self, column: usize, is_start: bool, own: Option<Known>, other: u8) -> u8 {
        let Some(known) = own else { return other };
        let number = known.index();
        for (mode, word, name, group) in self.named {
            if *mode == column && *word == is_start && *name == number {
                return *group;
            }
        }
        other
    }

    /// Compares a token with its known name, if it has one, given the groups of such a token without one.
    fn compare_token(
        &self,
        rt: &impl Abort,
        is_start: bool,
        own: Option<Known>,
        token: &Token<'_>,
        others: &[u8],
    ) {
        for (column, other) in others.iter().enumerate() {
            let group = self.group(column, is_start, own, *other);
            assert!(rt;
                self.agrees(column, token, own, group),
                "group {group} of column {column}"
            );
        }
    }

    /// Compares the start tags, or the end tags, of all known names, given the groups of another name's.
    fn compare_named(&self, rt: &impl Abort, is_start: bool, others: &[u8]) {
        for number in 0..240 {
            let known = Known::at(number).expect(rt, "there are 240 names");
            let token = tag(is_start, Name::of_known(known));
            self.compare_token(rt, is_start, Some(known), &token, others);
            mem::forget(token);
        }
    }

    /// Compares everything; the first two groups without a known name are those of another name's tags.
    fn compare(&self, rt: &impl Abort, alloc: Global) {
        for (kind, groups) in self.nameless.iter().enumerate() {
            let token = nameless(rt, alloc, kind);
            self.compare_token(rt, kind == 0, None, &token, *groups);
            mem::forget(token);
        }
        self.compare_named(rt, true, self.nameless[0]);
        self.compare_named(rt, false, self.nameless[1]);
    }
}

/// A start tag, or an end tag.
fn tag(is_start: bool, name: Name) -> Token<'static> {
    if !is_start {
        return Token::EndTag { name };
    }
    Token::Start {
        self_closing: false,
        tag: Tag {
            namespace: Namespace::Html,
            name,
            attributes: Chain::new(),
        },
    }
}

fn characters(class: CharClass) -> Token<'static> {
    Token::Characters {
        class,
        text: Text::new(),
    }
}

fn doctype(rt: &impl Abort, alloc: Global) -> Token<'static> {
    let parts = DoctypeParts {
        name: None,
        public: None,
        system: None,
        force_quirks: false,
    };
    let doctype = Doctype::new(alloc, parts).expect(rt, "there is memory");
    Token::Doctype { doctype }
}

/// The token without a known name at that place in the order of the reading.
fn nameless(rt: &impl Abort, alloc: Global, kind: usize) -> Token<'static> {
    match kind {
        0 | 1 => {
            let other = Name::from_text(alloc, "other-name").expect(rt, "there is memory");
            tag(kind == 0, other)
        }
        2 => characters(CharClass::White),
        3 => characters(CharClass::Nul),
        4 => characters(CharClass::Other),
        5 => Token::Comment { text: Text::new() },
        6 => doctype(rt, alloc),
        _ => Token::EndOfInput,
    }
}

#[test]
fn rows_of_page_and_body(rt: HostRuntime) {
    let page = Reading {
        part: Part::Page,
        modes: &PAGE_MODES,
        named: &page::NAMED,
        nameless: &page::NAMELESS,
        steps: &page::STEPS,
        ways: &page::WAYS,
        places: &page::PLACES,
    };
    let body = Reading {
        part: Part::Body,
        modes: &BODY_MODES,
        named: &body::NAMED,
        nameless: &body::NAMELESS,
        steps: &body::STEPS,
        ways: &body::WAYS,
        places: &body::PLACES,
    };
    page.compare(&rt, rt.alloc());
    body.compare(&rt, rt.alloc());
}

#[test]
fn rows_of_table_and_rest(rt: HostRuntime) {
    let table = Reading {
        part: Part::Table,
        modes: &TABLE_MODES,
        named: &table::NAMED,
        nameless: &table::NAMELESS,
        steps: &table::STEPS,
        ways: &table::WAYS,
        places: &table::PLACES,
    };
    let rest = Reading {
        part: Part::Rest,
        modes: &REST_MODES,
        named: &rest::NAMED,
        nameless: &rest::NAMELESS,
        steps: &rest::STEPS,
        ways: &rest::WAYS,
        places: &rest::PLACES,
    };
    table.compare(&rt, rt.alloc());
    rest.compare(&rt, rt.alloc());
}
