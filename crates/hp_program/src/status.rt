//! How a run ends.
ghost use Rattle.std.specs.Prelude.{◌≡◌};
ghost use Rattle.hp_program.specs.Status.{code_of};

/// How a run ends. Only `Done` and `WriteFault` leave anything in the output.
#[derive(Clone, Copy, Debug, PartialEq, Eq)]
pub enum Status {
    /// All was written: the tree, or what a mode writes.
    Done,
    /// The words are none that the program knows.
    Usage,
    /// The page isn't UTF-8.
    NotUtf8,
    /// The page has more than 16,777,216 bytes.
    TooLarge,
    /// The page could not be read to its end.
    ReadFault,
    /// The output failed before all was written. The first part of it was.
    WriteFault,
    /// Memory ran out, or the tree's text would be of absurd length: 34 GB of indentation and more.
    NoMemory,
    /// The page can't be cut at the places that the words list.
    BadCuts,
    /// The text that the words give for a selector is none.
    BadSelector,
}

impl Status {
    /// The number with which the program ends.
    pub fn code(self) -> u8
        ensures { result ≡ code_of self }
    {
        match self {
            Status::Done => 0,
            Status::Usage => 2,
            Status::NotUtf8 => 3,
            Status::TooLarge => 4,
            Status::ReadFault => 5,
            Status::WriteFault => 6,
            Status::NoMemory => 7,
            Status::BadCuts => 8,
            Status::BadSelector => 15,
        }
    }
}
