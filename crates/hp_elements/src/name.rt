//! The name of an element or an attribute.
ghost use Rattle.std.specs.Prelude.{◌≡◌, ◌≤◌, None, IfOk, ◌↔◌, IsTrue, length, map, take, IsUtf8, string_bytes};
ghost use Rattle.std.specs.Char.{to_ascii_lowercase};
ghost use Rattle.std.specs.Str.{chars};

use crate::known::Known;
use crate::short::short_bytes;
use std::alloc::{AllocError, Global};
use std::marker::Model;
use std::str::from_utf8_unchecked;

/// How many bytes a name has at most that stands in the value itself.
const SHORT: usize = 14;

/// How a name is kept.
#[derive(Drop)]
enum Spelling {
    Named(Known),
    /// Here, in the first so many bytes.
    Short(u8, [u8; SHORT]),
    Long(Box<String>),
}

/// A name: a known one, or another text. A contract sees its code points. A known name and a short one take no heap.
pub struct Name {
    spelling: Spelling,
}

impl Drop for Name {
    #[inline(always)]
    fn drop(self) {
        let Name { spelling: _ } = self;
    }
}

impl Model for Name {
    ghost use Rattle.std.specs.Prelude.{ℕ, List};

    ghost Value = { List ℕ };

    ghost use Rattle.hp_elements.specs.Spelling.{spelled, IsSpelled};

    ghost view = { λ n. spelled n.spelling };

    ghost invariant = { λ n. IsSpelled n.spelling };
}

impl Name {
    ghost use Rattle.hp_elements.specs.Names.{text_of, known_of, lowered};

    /// The known name.
    #[inline]
    pub fn of_known(known: Known) -> Name
        ensures { result ≡ text_of known }
    {
        Name {
            spelling: Spelling::Named(known),
        }
    }

    /// The text of the name, in UTF-8.
    pub fn as_str(&self) -> &str
        ensures { chars result.now ≡ self.now }
    {
        match &self.spelling {
            Spelling::Named(known) => known.text(),
            Spelling::Short(len, bytes) => unsafe { from_utf8_unchecked(&bytes[..*len as usize]) },
            Spelling::Long(text) => text.as_str(),
        }
    }

    /// The known name that it is; `None` where it is another one.
    #[inline]
    pub fn known(&self) -> Option<Known>
        ensures { result ≡ known_of self.now }
    {
        match &self.spelling {
            Spelling::Named(known) => Some(*known),
            Spelling::Short(..) => None,
            Spelling::Long(_) => None,
        }
    }

    /// Whether it is that known name.
    #[inline]
    pub fn is(&self, known: Known) -> bool
        ensures { IsTrue result ↔ (self.now ≡ text_of known) }
    {
        match &self.spelling {
            Spelling::Named(own) => own.same(known),
            Spelling::Short(..) => false,
            Spelling::Long(_) => false,
        }
    }

    /// The name of that text.
    pub fn from_text(alloc: Global, text: &str) -> Result<Name, AllocError>
        ensures { IfOk result (λ name. name ≡ chars text.now) }
    {
        match Known::find(text.as_bytes()) {
            Some(known) => Ok(Name::of_known(known)),
            None => Name::of_other(alloc, text),
        }
    }

    /// The name of a text that no known name has.
    #[inline(never)]
    fn of_other(alloc: Global, text: &str) -> Result<Name, AllocError>
        requires { known_of text.now ≡ None }
        ensures { IfOk result (λ name. name ≡ chars text.now) }
    {
        if text.len() <= SHORT {
            let spelling = Spelling::Short(text.len() as u8, short_bytes(text.as_bytes()));
            return Ok(Name { spelling });
        }
        let text = Box::new(alloc, String::from_str(alloc, text)?)?;
        Ok(Name {
            spelling: Spelling::Long(text),
        })
    }

    /// The name that a text has once its ASCII upper case letters are lowered.
    #[inline(always)]
    pub fn from_lowered(alloc: Global, text: &str) -> Result<Name, AllocError>
        ensures { IfOk result (λ name. name ≡ lowered (chars text.now)) }
    {
        match Known::find_lowered(text.as_bytes()) {
            Some(known) => Ok(Name::of_known(known)),
            None => Name::of_lowered(alloc, text),
        }
    }

    /// The name of a text that no known name has once it is lowered.
    #[inline(never)]
    fn of_lowered(alloc: Global, text: &str) -> Result<Name, AllocError>
        requires { known_of (lowered text.now) ≡ None }
        ensures { IfOk result (λ name. name ≡ lowered (chars text.now)) }
    {
        if text.len() <= SHORT {
            let mut bytes: [u8; 16] = short_bytes(text.as_bytes());
            bytes.make_ascii_lowercase();
            let mut front = [0; SHORT];
            front.copy_from_slice(&bytes[..SHORT]);
            let spelling = Spelling::Short(text.len() as u8, front);
            return Ok(Name { spelling });
        }
        let mut own = String::from_str(alloc, text)?;
        own.make_ascii_lowercase();
        let spelling = Spelling::Long(Box::new(alloc, own)?);
        Ok(Name { spelling })
    }

    /// Whether two names have the same text.
    #[inline(always)]
    pub fn same(&self, other: &Name) -> bool
        ensures { IsTrue result ↔ (self.now ≡ other.now) }
    {
        match self.known() {
            Some(own) => other.is(own),
            None => match other.known() {
                Some(_) => false,
                None => self.as_str() == other.as_str(),
            },
        }
    }

    /// Whether two names have the same text but for the case of ASCII letters.
    pub fn same_without_case(&self, other: &Name) -> bool
        ensures { IsTrue result ↔ (lowered self.now ≡ lowered other.now) }
    {
        self.as_str().eq_ignore_ascii_case(other.as_str())
    }

    /// A name of the same text.
    #[inline(always)]
    pub fn copy(&self, alloc: Global) -> Result<Name, AllocError>
        ensures { IfOk result (λ copy. copy ≡ self.now) }
    {
        match &self.spelling {
            Spelling::Named(known) => Ok(Name::of_known(*known)),
            _ => self.copy_spelling(alloc),
        }
    }

    /// The same, also for a name that is no known one.
    #[inline(never)]
    fn copy_spelling(&self, alloc: Global) -> Result<Name, AllocError>
        ensures { IfOk result (λ copy. copy ≡ self.now) }
    {
        let spelling = match &self.spelling {
            Spelling::Named(known) => Spelling::Named(*known),
            Spelling::Short(len, bytes) => Spelling::Short(*len, *bytes),
            Spelling::Long(text) => {
                let text = String::from_str(alloc, text.as_str())?;
                Spelling::Long(Box::new(alloc, text)?)
            }
        };
        Ok(Name { spelling })
    }
}
