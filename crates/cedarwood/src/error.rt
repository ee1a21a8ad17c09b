//! Why a call on a dictionary is refused.

ghost use Rattle.std.specs.Prelude.{◌≡◌};
ghost use Rattle.cedarwood.specs.Words.{error_of_shortage, Memory};

use cedar_slots::Shortage;
use std::alloc::AllocError;

/// Why a call on a dictionary was refused. After a refusal the dictionary holds what it held; only the calls that store many pairs,
/// [`Trie::build`](crate::Trie::build) and [`Trie::update_batch`](crate::Trie::update_batch), may have stored some of those before the
/// refused one.
//= `==` of two errors is their equality. [by PartialEq]
#[non_exhaustive]
#[derive(Clone, Debug, Drop, PartialEq, Eq)]
pub enum CedarError {
    /// A key to store has no byte.
    EmptyKey,
    /// A key to store has a byte 0.
    NulByte {
        /// The position of the first one, counted in bytes from 0.
        position: usize,
    },
    /// A value to store is below 0 or above 2147483645.
    InvalidValue {
        value: i32,
    },
    /// The setting `max_trial` is 0 or less.
    InvalidMaxTrial {
        value: i32,
    },
    /// A sorted input repeats a key.
    DuplicateKey {
        /// The index of the second of the two, counted from 0.
        index: usize,
    },
    /// A sorted input isn't sorted.
    KeysNotSorted {
        /// The index of the smaller key, counted from 0.
        index: usize,
    },
    /// An allocation was refused.
    Memory,
    /// No slot is left, and the limit of slots allows no further block of them.
    SlotLimit,
}

impl From<AllocError> for CedarError {
    ghost from_gives = { λ _ error. error ≡ Memory };

    fn from(_: AllocError) -> CedarError {
        CedarError::Memory
    }
}

impl From<Shortage> for CedarError {
    //= What a table lacked is reported as it is: memory as `Memory`, slots as `SlotLimit`.
    ghost from_gives = { λ shortage error. error ≡ error_of_shortage shortage };

    fn from(shortage: Shortage) -> CedarError {
        match shortage {
            Shortage::Memory => CedarError::Memory,
            Shortage::SlotLimit => CedarError::SlotLimit,
        }
    }
}
