//! Why the first or the last entry in a range can't be told.

ghost use Rattle.std.specs.Prelude.{Some};
ghost use Rattle.cedar_complete.specs.Words.{range_error_text};

use std::error::Error;
use std::fmt;

/// Why the first or the last entry in a range can't be told.
#[derive(Clone, Copy, Debug, PartialEq, Eq)]
pub enum RangeError {
    /// The dictionary's labels don't ascend.
    NotAscending,
    /// An allocation was refused.
    Memory,
}

impl fmt::Display for RangeError {
    //= The text of an error of a range is given byte by byte. [by range_error_text]
    ghost output = { λ error. Some (range_error_text error) };

    fn fmt<W: fmt::Write>(&self, f: &mut fmt::Formatter<W>) -> fmt::Result {
        match self {
            RangeError::NotAscending => f.write_str("the dictionary's labels don't ascend"),
            RangeError::Memory => f.write_str("out of memory"),
        }
    }
}

impl Error for RangeError {}
