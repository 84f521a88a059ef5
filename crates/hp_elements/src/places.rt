//! Where each kind of token stands in a table by kinds.
ghost use Rattle.std.specs.Prelude.{◌≡◌, ◌+◌, ◌<◌};
ghost use Rattle.hp_elements.specs.Placing.{place_of};

use crate::known::Known;
use crate::token::{CharClass, Kind};

impl Kind {
    /// The place of the kind in a table by kinds: the known names' start tags, the start tags of
    /// other names, the end tags alike, then what has no name.
    pub fn place(self) -> usize
        ensures value { result ≡ place_of self }
        ensures below { result < 488 }
    {
        match self {
            Kind::Start(name) => name_place(name),
            Kind::End(name) => 241 + name_place(name),
            Kind::Characters(CharClass::White) => 482,
            Kind::Characters(CharClass::Nul) => 483,
            Kind::Characters(CharClass::Other) => 484,
            Kind::Comment => 485,
            Kind::Doctype => 486,
            Kind::EndOfInput => 487,
        }
    }
}

fn name_place(name: Option<Known>) -> usize
    ensures start { result ≡ place_of (Kind.Start name) }
    ensures end { 241 + result ≡ place_of (Kind.End name) }
    ensures below { result < 241 }
{
    match name {
        Some(known) => known.index(),
        None => 240,
    }
}
