//! The control state: all that the tree builder knows (13.2.4).
ghost use Rattle.std.specs.Prelude.{◌≡◌, IsTrue, ◌↔◌, IfOk};
ghost use Rattle.hp_control.specs.States.{lex_start};

use crate::copies::copy_lists;
use crate::element::FormattingEntry;
use crate::open_elements::OpenElements;
use crate::sameness::{same_elements, same_entries, same_original, same_templates};
use crate::stack::Stack;
use hp_elements::{Mode, NoMemory, Rest, Text};
use hp_tokens::{LexState, Machine, OwnedText};
use std::alloc::Global;
use std::marker::Model;

/// The control state between two tokens. A contract sees it as a `ControlState`, and each value is valid: `IsValid` of
/// specs/States.antt says what that is.
#[derive(Drop)]
pub struct Control {
    pub lex: LexState,
    pub mode: Mode,
    /// The mode that text and in table text go back to.
    pub original: Option<Mode>,
    pub templates: Stack<Mode>,
    /// The stack of open elements.
    pub stack: OpenElements,
    /// The list of active formatting elements.
    pub formatting: Stack<FormattingEntry>,
    pub head: Option<u64>,
    pub form: Option<u64>,
    pub frameset_ok: bool,
    pub quirks: bool,
    /// The pending table characters.
    pub pending: Text<'static>,
    /// Whether the next token is dropped if it is a line feed.
    pub skip_lf: bool,
    /// The id of the element that is made next.
    pub next: u64,
}

impl Model for Control {
    ghost use Rattle.hp_control.specs.States.{ControlState, IsValid};

    ghost Value = { ControlState };

    ghost use Rattle.hp_control.specs.Viewing.{state_of};

    ghost view = { λ c. state_of c.lex c.mode c.original c.templates c.stack c.formatting c.head c.form c.frameset_ok c.quirks c.pending c.skip_lf c.next };

    ghost invariant = { λ c. IsValid (state_of c.lex c.mode c.original c.templates c.stack c.formatting c.head c.form c.frameset_ok c.quirks c.pending c.skip_lf c.next) };
}

/// The lexer's part of the state before the first token: the data state, where the last start tag's name counts as empty.
pub fn lex_start() -> LexState
    ensures { result ≡ lex_start }
{
    let LexState { machine, ahead } = LexState::at_rest(Rest::Data, false);
    let machine = Machine {
        last_tag: Some(OwnedText::new()),
        ..machine
    };
    LexState { machine, ahead }
}

impl Control {
    ghost use Rattle.hp_control.specs.States.{IsValid, Fits, start};
    ghost use Rattle.hp_control.specs.Parts.{AreListsOf, AreFactsOf};

    /// The state before the first token: no element was made, and the lexer is in the data state.
    pub fn start() -> Control
        ensures { result ≡ start }
    {
        Control {
            lex: lex_start(),
            mode: Mode::Initial,
            original: None,
            templates: Stack::new(),
            stack: OpenElements::new(),
            formatting: Stack::new(),
            head: None,
            form: None,
            frameset_ok: true,
            quirks: false,
            pending: Text::new(),
            skip_lf: false,
            next: 1,
        }
    }

    /// The same state once more.
    pub fn copy(&self, alloc: Global) -> Result<Control, NoMemory>
        ensures { IfOk result (λ copy. copy ≡ self.now) }
    {
        let Ok(pending) = self.pending.copy(alloc) else {
            return Err(NoMemory);
        };
        let Ok(lists) = copy_lists(alloc, self) else {
            return Err(NoMemory);
        };
        let Ok(lex) = self.lex.copy(alloc) else {
            return Err(NoMemory);
        };
        Ok(Control {
            lex,
            mode: self.mode,
            original: self.original,
            templates: lists.templates,
            stack: lists.stack,
            formatting: lists.formatting,
            head: self.head,
            form: self.form,
            frameset_ok: self.frameset_ok,
            quirks: self.quirks,
            pending,
            skip_lf: self.skip_lf,
            next: self.next,
        })
    }

    /// Whether the two states are the same.
    pub fn same(&self, other: &Control) -> bool
        ensures { IsTrue result ↔ (self.now ≡ other.now) }
    {
        self.lex.same(&other.lex) && self.has_lists_of(other) && self.has_facts_of(other)
    }

    fn has_lists_of(&self, other: &Control) -> bool
        ensures { IsTrue result ↔ AreListsOf self.now other.now }
    {
        same_elements(&self.stack, &other.stack)
            && same_entries(&self.formatting, &other.formatting)
            && same_templates(&self.templates, &other.templates)
            && self.pending.same(&other.pending)
    }

    fn has_facts_of(&self, other: &Control) -> bool
        ensures { IsTrue result ↔ AreFactsOf self.now other.now }
    {
        self.mode == other.mode
            && same_original(self.original, other.original)
            && self.next == other.next
            && self.head == other.head
            && self.form == other.form
            && self.frameset_ok == other.frameset_ok
            && self.quirks == other.quirks
            && self.skip_lf == other.skip_lf
    }

    /// A control state is valid: this hands the fact to whoever has one.
    pub fn is_kept(&self)
        ensures { IsValid self.now }
    {
        let _ = &self.mode;
    }

    /// Whether ids are below 2^60 and the formatting list has at most 2^26 entries, as those of each page that is read.
    pub fn fits(&self) -> bool
        ensures { IsTrue result ↔ Fits self.now }
    {
        self.next < 1 << 60 && self.formatting.len() <= 1 << 26
    }
}
