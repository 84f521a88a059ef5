//! The end of input.
ghost use Rattle.std.specs.Prelude.{◌≡◌};

use hp_control::{Control, Edits};
use std::marker::Model;

/// The end of input from a known state. A contract sees it as a `Last`, and each value is such an end: `IsEnd` of
/// specs/Fragments.antt says what that is.
pub struct Ending<'p> {
    entry: Control,
    edits: Edits<'p>,
}

impl<'p> Drop for Ending<'p> {
    fn drop(self) {
        let Ending { entry: _, edits: _ } = self;
    }
}

impl<'p> Model for Ending<'p> {
    ghost use Rattle.hp_pieces.specs.Fragments.{IsEnd, Last};

    ghost Value = { Last };

    ghost view = { λ e. record { entry = e.entry; edits = e.edits } };

    ghost invariant = { λ e. IsEnd (record { entry = e.entry; edits = e.edits }) };
}

impl<'p> Ending<'p> {
    ghost use Rattle.hp_pieces.specs.Fragments.{IsEnd};

    /// The end of input from the entry, with these edits.
    pub fn of_end(entry: Control, edits: Edits<'p>) -> Ending<'p>
        requires end { IsEnd (record { entry = entry; edits = edits }) }
        ensures { result ≡ record { entry = entry; edits = edits.entry } }
    {
        Ending { entry, edits }
    }

    /// The state where the input ends.
    pub fn entry(&self) -> &Control
        ensures { result.now ≡ self.now.entry }
    {
        &self.entry
    }

    /// The edits.
    pub fn edits(&self) -> &Edits<'p>
        ensures edits { result.now ≡ self.now.edits }
        ensures end { IsEnd self.now }
    {
        &self.edits
    }

    /// The state where the input ends, and the edits.
    pub fn into_parts(self) -> (Control, Edits<'p>)
        ensures entry { result.0 ≡ self.entry.entry }
        ensures edits { result.1 ≡ self.entry.edits }
        ensures end { IsEnd self.entry }
    {
        let Ending { entry, edits } = self;
        (entry, edits)
    }
}
