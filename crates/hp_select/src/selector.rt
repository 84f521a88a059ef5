//! What a selector is made of.

ghost use Rattle.std.specs.Prelude.{◌≡◌, IfOk};
ghost use Rattle.std.specs.Str.{chars};

use hp_elements::{List, Name, Namespace, NoMemory, Text};
use std::alloc::{AllocError, Global};
use std::marker::Model;

/// The name of elements or of attributes, as a selector writes it and in lower case. A contract sees it as written.
pub struct CasedName {
    written: Name,
    in_lower_case: Name,
}

impl Drop for CasedName {
    #[inline(always)]
    fn drop(self) {
        let CasedName {
            written: _,
            in_lower_case: _,
        } = self;
    }
}

impl Model for CasedName {
    ghost use Rattle.std.specs.Prelude.{◌≡◌, ℕ, List};
    ghost use Rattle.hp_elements.specs.Names.{lowered};

    ghost Value = { List ℕ };

    ghost view = { λ n. n.written };

    ghost invariant = { λ n. n.in_lower_case ≡ lowered n.written };
}

impl CasedName {
    ghost use Rattle.hp_select.specs.Matching.{name_in};

    /// The name of that text.
    pub fn new(alloc: Global, text: &str) -> Result<CasedName, NoMemory>
        ensures { IfOk result (λ name. name ≡ chars text.now) }
    {
        let written = Name::from_text(alloc, text)?;
        let in_lower_case = Name::from_lowered(alloc, text)?;
        Ok(CasedName {
            written,
            in_lower_case,
        })
    }

    /// What the name has to be in a namespace: case doesn't matter for HTML elements.
    pub fn name_in(&self, namespace: Namespace) -> &Name
        ensures { result.now ≡ name_in namespace self.now }
    {
        match namespace {
            Namespace::Html => &self.in_lower_case,
            Namespace::Svg | Namespace::MathMl => &self.written,
        }
    }
}

/// A simple selector.
#[derive(Drop)]
pub enum Simple {
    /// `*`
    Universal,
    /// `name`
    OfType(CasedName),
    /// `#id`
    Id(Text<'static>),
    /// `.class`
    Class(Text<'static>),
    /// `[name]`
    Attribute(CasedName),
    /// `[name="value"]`
    Value(CasedName, Text<'static>),
}

/// How a compound stands to the one before it.
#[derive(Clone, Copy, PartialEq, Eq)]
pub enum Combinator {
    /// It begins a chain.
    Begin,
    /// Its element is somewhere inside that of the one before.
    Descendant,
    /// Its element is a child of that of the one before.
    Child,
}

/// A compound, all of whose simple selectors have to match, and how it stands to the one before it.
#[derive(Drop)]
pub struct Step {
    pub combinator: Combinator,
    pub compound: List<Simple>,
}

/// A list of chains of compounds. Contracts see all compounds in the order of the text, each with what stands before it.
pub struct Selector {
    pub(crate) steps: List<Step>,
}

impl Drop for Selector {
    #[inline(always)]
    fn drop(self) {
        let Selector { steps: _ } = self;
    }
}

impl Model for Selector {
    ghost use Rattle.std.specs.Prelude.{List};
    ghost use Rattle.hp_select.specs.declared.selector.Step.{Step};

    ghost Value = { List Step };

    ghost view = { λ s. s.steps };
}

/// Why a selector wasn't read.
#[derive(Clone, Copy, PartialEq, Eq)]
pub enum SelectRefusal {
    /// The text isn't a selector.
    Malformed,
    NoMemory,
}

ghost use Rattle.hp_select.specs.declared.selector.SelectRefusal.TheVariants as refusal;

impl From<AllocError> for SelectRefusal {
    ghost from_gives = { λ _ refused. refused ≡ refusal.NoMemory };

    fn from(_error: AllocError) -> SelectRefusal {
        SelectRefusal::NoMemory
    }
}
