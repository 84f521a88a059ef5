//! What the lexer holds between two texts, and its unread code points: those that were read ahead, and then the cursor's.
ghost use Rattle.std.specs.Prelude.{◌≡◌, ◌≤◌, ℕ, List, [], ◌∷◌, ◌++◌, IfOk, IfSome, IfNone, None, true, drop, length};

use crate::NoMemory;
use crate::cursor::Cursor;
use crate::machine::Machine;
use crate::owned::OwnedText;
use hp_elements::Rest;
use std::alloc::Global;

/// The lexer's state at any place of a text.
#[derive(Drop)]
pub struct LexState {
    pub machine: Machine,
    /// The code points that were read before it is known what they mean.
    pub ahead: OwnedText,
}

impl LexState {
    ghost use Rattle.hp_tokens.specs.Rows.{resting};
    ghost use Rattle.hp_tokens.specs.Reading.{first};
    ghost use Rattle.hp_tokens.specs.Advancing.{unread, held, place_of, pair_next, DropsPair, Takes, ReadsAhead, rest_state};

    /// The state in a resting state, without a last start tag's name.
    pub fn at_rest(rest: Rest, after_cr: bool) -> LexState
        ensures { result ≡ rest_state rest after_cr }
    {
        LexState {
            machine: Machine::at_rest(rest, after_cr),
            ahead: OwnedText::new(),
        }
    }

    /// A copy.
    pub fn copy(&self, alloc: Global) -> Result<LexState, NoMemory>
        ensures { IfOk result (λ copy. copy ≡ self.now) }
    {
        let ahead = self.ahead.copy(alloc)?;
        let machine = self.machine.copy(alloc)?;
        Ok(LexState { machine, ahead })
    }

    /// The next code point.
    #[inline(always)]
    pub fn peek(&self, input: &Cursor<'_>) -> Option<char>
        ensures { result ≡ first (unread self.now input.now) }
    {
        match self.ahead.first() {
            Some(c) => Some(c),
            None => input.peek(),
        }
    }

    /// Takes the next code point.
    #[inline(always)]
    pub fn take(&mut self, input: &mut Cursor<'_>) -> Option<char>
        requires { held self.old ≤ input.old.place }
        ensures value { result ≡ first (unread self.old input.old) }
        ensures takes { IfSome result (Takes self.old input.old self.new input.new) }
        ensures none { IfNone result ((self.new ≡ self.old) × (input.new ≡ input.old)) }
        ensures ended { input.old.text ≡ [] → input.new.text ≡ [] }
    {
        match self.ahead.take_first() {
            Some(c) => Some(c),
            None => input.next(),
        }
    }

    /// Whether the LF of a CR LF pair comes next.
    #[inline]
    pub fn is_pair_next(&self, input: &Cursor<'_>) -> bool
        ensures { result ≡ pair_next self.now.machine.after_cr (first (unread self.now input.now)) }
    {
        match self.peek(input) {
            Some(c) => self.machine.after_cr && c == '\n',
            None => false,
        }
    }

    /// Drops the LF of a CR LF pair.
    #[inline]
    pub fn drop_line_feed(&mut self, input: &mut Cursor<'_>)
        requires held { held self.old ≤ input.old.place }
        requires pair { pair_next self.old.machine.after_cr (first (unread self.old input.old)) ≡ true }
        ensures dropped { DropsPair self.old input.old self.new input.new }
        ensures held { held self.new ≤ input.new.place }
        ensures ended { input.old.text ≡ [] → input.new.text ≡ [] }
    {
        let _ = self.take(input);
        self.machine.after_cr = false;
    }

    /// Reads one more code point ahead, and answers whether there was one.
    pub fn read_ahead(&mut self, alloc: Global, input: &mut Cursor<'_>) -> Result<bool, NoMemory>
        requires { held self.old ≤ input.old.place }
        ensures { IfOk result (ReadsAhead self.old input.old self.new input.new) }
    {
        match input.peek() {
            Some(c) => {
                self.ahead.push(alloc, c)?;
                let _ = input.next();
                Ok(true)
            }
            None => Ok(false),
        }
    }

    /// The place of the first unread code point.
    #[inline(always)]
    pub fn place(&self, input: &Cursor<'_>) -> u64
        requires { held self.now ≤ input.now.place }
        ensures { result ≡ place_of self.now input.now }
    {
        input.place() - self.ahead.len_bytes()
    }
}
