//! The names of tags.
ghost use Rattle.std.specs.Prelude.{◌≡◌, false, IfOk};
ghost use Rattle.std.specs.Str.{bytes_eq, IsAscii};
ghost use Rattle.hp_elements.specs.Names.{text_of, lowered};
ghost use Rattle.hp_elements.specs.Sets.{in_set, turned};
ghost use Rattle.hp_elements.specs.declared.sets.Namespace.TheVariants as spaces;
ghost use Rattle.hp_predict.specs.Tags.{counts as spec_counts};

use hp_elements::{Known, Name, Namespace, NoMemory, SetName, is_in};
use std::alloc::Global;
use std::marker::Model;
use std::str::from_utf8_unchecked;

/// How a tag's name is kept.
#[derive(Drop)]
enum Spelling<'t> {
    Named(Known),
    /// In the text, where its upper case letters aren't lowered.
    Other(&'t [u8]),
}

/// The name of a tag, in lower case. A contract sees its code points. It takes no heap.
#[derive(Drop)]
pub struct TagName<'t> {
    spelling: Spelling<'t>,
}

impl<'t> Model for TagName<'t> {
    ghost use Rattle.std.specs.Prelude.{ℕ, List};

    ghost Value = { List ℕ };

    ghost use Rattle.hp_predict.specs.Spelling.{spelled, IsSpelled};

    ghost view = { λ n. spelled n.spelling };

    ghost invariant = { λ n. IsSpelled n.spelling };
}

impl<'t> TagName<'t> {
    /// The known name.
    pub fn of_known(known: Known) -> TagName<'t>
        ensures { result ≡ text_of known }
    {
        TagName {
            spelling: Spelling::Named(known),
        }
    }

    /// The name as it stands in a text, once it is lowered.
    pub fn read(text: &'t [u8]) -> TagName<'t>
        requires { IsAscii text.now }
        ensures { result ≡ lowered text.now }
    {
        match Known::find_lowered(text) {
            Some(known) => TagName::of_known(known),
            None => TagName {
                spelling: Spelling::Other(text),
            },
        }
    }

    /// Whether two names are one.
    pub fn same(&self, other: &TagName<'_>) -> bool
        ensures { result ≡ bytes_eq self.now other.now }
    {
        match &self.spelling {
            Spelling::Named(own) => other.is(*own),
            Spelling::Other(text) => match &other.spelling {
                Spelling::Named(_) => false,
                Spelling::Other(own) => text.eq_ignore_ascii_case(own),
            },
        }
    }

    /// Whether it is that known name.
    pub fn is(&self, known: Known) -> bool
        ensures { result ≡ bytes_eq self.now (text_of known) }
    {
        match &self.spelling {
            Spelling::Named(own) => own.same(known),
            Spelling::Other(_) => false,
        }
    }

    /// Whether the HTML elements of that name are in the set, which isn't one of all but a few.
    pub fn is_in(&self, set: SetName) -> bool
        requires { turned set false ≡ false }
        ensures { result ≡ in_set set spaces.Html self.now }
    {
        match &self.spelling {
            Spelling::Named(known) => is_in(set, Namespace::Html, *known),
            Spelling::Other(_) => false,
        }
    }

    /// Whether a tag of that name says what stands open.
    pub fn counts(&self) -> bool
        ensures { result ≡ spec_counts self.now }
    {
        match &self.spelling {
            Spelling::Named(known) => known_counts(*known),
            Spelling::Other(_) => true,
        }
    }

    /// The name as an element has it.
    pub fn to_name(&self, alloc: Global) -> Result<Name, NoMemory>
        ensures { IfOk result (λ name. name ≡ self.now) }
    {
        match &self.spelling {
            Spelling::Named(known) => Ok(Name::of_known(*known)),
            Spelling::Other(text) => {
                Name::from_lowered(alloc, unsafe { from_utf8_unchecked(text) })
            }
        }
    }
}

/// Whether a tag of a known name says what stands open.
fn known_counts(known: Known) -> bool
    ensures { result ≡ spec_counts (text_of known) }
{
    if is_in(SetName::Void, Namespace::Html, known) {
        return false;
    }
    !(known == Known::HTML || known == Known::HEAD || known == Known::BODY)
}

/// Whether it is that known name.
pub fn has_name(name: &Name, known: Known) -> bool
    ensures { result ≡ bytes_eq name.now (text_of known) }
{
    name.is(known)
}
