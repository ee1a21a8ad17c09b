//! The two formats of records.

ghost use Rattle.std.specs.Prelude.{◌≡◌};
ghost use Rattle.cedar_journal.specs.Words.{overhead};

/// How the records of a file are written: the file's header names it.
#[derive(Clone, Copy, Debug, PartialEq, Eq)]
pub enum Format {
    /// Version 1: a record is a gate, the payload's length, and the payload.
    Plain,
    /// Version 2: a record is a gate, a sum, the payload's length, and the payload.
    Summed,
}

impl Format {
    /// Returns how many bytes a record has besides its payload.
    pub fn overhead(self) -> usize
        //= A record has 5 bytes more than its payload in version 1, and 9 bytes more in version 2.
        ensures { result ≡ overhead self }
    {
        match self {
            Format::Plain => 5,
            Format::Summed => 9,
        }
    }
}
