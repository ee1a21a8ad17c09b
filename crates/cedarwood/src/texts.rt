//! The texts of errors, each of which a contract knows byte by byte.

ghost use Rattle.cedarwood.specs.Words.{entry_error_text, error_text, refused_pair_text, Some};

use crate::{CedarError, EntryError, RefusedPair};
use std::error::Error;
use std::fmt;

impl fmt::Display for CedarError {
    //= The text of each error is given byte by byte, with its numbers in decimal digits. [also EntryError, RefusedPair; by error_text,
    //  entry_error_text, refused_pair_text]
    ghost output = { λ error. Some (error_text error) };

    fn fmt<W: fmt::Write>(&self, f: &mut fmt::Formatter<W>) -> fmt::Result {
        match *self {
            CedarError::EmptyKey => f.write_str("cedar keys must not be empty"),
            CedarError::NulByte { position } => write!(
                f,
                "cedar keys must not contain the terminal byte 0x00 (at byte {position})"
            ),
            CedarError::InvalidValue { value } => write!(
                f,
                "cedar value {value} is outside the supported range 0..=2147483645"
            ),
            CedarError::InvalidMaxTrial { value } => {
                write!(f, "max_trial must be greater than zero, got {value}")
            }
            CedarError::DuplicateKey { index } => {
                write!(f, "duplicate key at sorted input index {index}")
            }
            CedarError::KeysNotSorted { index } => {
                write!(
                    f,
                    "key at input index {index} is smaller than its predecessor"
                )
            }
            CedarError::Memory => f.write_str("out of memory"),
            CedarError::SlotLimit => f.write_str("cedar trie has no slot left"),
        }
    }
}

impl Error for CedarError {}

impl fmt::Display for RefusedPair {
    ghost output = { λ refusal. Some (refused_pair_text refusal) };

    fn fmt<W: fmt::Write>(&self, f: &mut fmt::Formatter<W>) -> fmt::Result {
        write!(f, "pair at input index {}: {}", self.index, self.error)
    }
}

impl Error for RefusedPair {}

impl fmt::Display for EntryError {
    ghost output = { λ error. Some (entry_error_text error) };

    fn fmt<W: fmt::Write>(&self, f: &mut fmt::Formatter<W>) -> fmt::Result {
        match *self {
            EntryError::Utf8 { value } => {
                write!(f, "entry key is not UTF-8 (its value is {value})")
            }
            EntryError::Memory => f.write_str("out of memory"),
        }
    }
}

impl Error for EntryError {}
