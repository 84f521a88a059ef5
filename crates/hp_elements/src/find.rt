//! Finds a known name by its text: one look-up, and one comparison.
ghost use Rattle.std.specs.Prelude.{◌≡◌, ◌<◌, ◌≤◌, ◌↔◌, ℕ, Some, IsTrue, length, map, slice_index};
ghost use Rattle.std.specs.Char.{to_ascii_lowercase};
ghost use Rattle.hp_elements.specs.Names.{text_of, known_of, lowered};
ghost use Rattle.hp_elements.specs.Slots.{slot_of};
ghost use Rattle.hp_elements.specs.declared.known.Known.{Known};

use crate::known::Known;
use crate::letters::lower_case;
use crate::slots::SLOTS;

/// No known name has more bytes than this.
const LONGEST: usize = 19;

impl Known {
    /// The known name of that text, in UTF-8; `None` where no known name has it.
    pub fn find(text: &[u8]) -> Option<Known>
        ensures { result ≡ known_of text.now }
    {
        match candidate(text) {
            Some(known) => {
                if known.text().as_bytes() == text {
                    Some(known)
                } else {
                    None
                }
            }
            None => None,
        }
    }

    /// The known name that a text, in UTF-8, has once its ASCII upper case letters are lowered; `None` where no known name has it.
    pub fn find_lowered(text: &[u8]) -> Option<Known>
        ensures { result ≡ known_of (lowered text.now) }
    {
        match candidate(text) {
            Some(known) => {
                if lowers_to(text, known.text().as_bytes()) {
                    Some(known)
                } else {
                    None
                }
            }
            None => None,
        }
    }
}

/// The one known name that can have a text, whatever the case of its ASCII letters.
pub(crate) fn candidate(text: &[u8]) -> Option<Known>
    ensures { (name : Known) → lowered (text_of name) ≡ lowered text.now → result ≡ Some name }
{
    let len = text.len();
    if len == 0 {
        return None;
    }
    if len > LONGEST {
        return None;
    }
    Known::at(SLOTS[slot(text)] as usize)
}

/// The number by which a known name is found.
fn slot(text: &[u8]) -> usize
    requires some { 0 < length text.now }
    requires short { length text.now ≤ 19 }
    ensures value { result ≡ slot_of (length text.now) (lowered text.now) }
    ensures below { result < 2048 }
{
    let len = text.len();
    let first = lowered_at(text, 0) * 419;
    let middle = lowered_at(text, len / 2) * 28;
    let next_to_last = lowered_at(text, len.saturating_sub(2)) * 304;
    let last = lowered_at(text, len - 1) * 178;
    (len * 202 + first + middle + next_to_last + last) % 2048
}

/// A byte of the lowered text.
fn lowered_at(text: &[u8], at: usize) -> usize
    requires { at < length text.now }
    ensures value { result ≡ slice_index (lowered text.now) at }
    ensures byte { result < 256 }
{
    lower_case(text[at]) as usize
}

/// Whether a text is the other one once its ASCII upper case letters are lowered.
pub(crate) fn lowers_to(text: &[u8], to: &[u8]) -> bool
    ensures { IsTrue result ↔ (lowered text.now ≡ to.now) }
{
    if text.len() != to.len() {
        return false;
    }
    for i in 0..text.len() {
        if lower_case(text[i]) != to[i] {
            return false;
        }
    }
    true
}
