//! Calls as values.

use cedar_replies::Question;
use cedarwood::CedarBuilder;

/// A call. A dictionary is named by its index: those that a run begins with come first, and each further one comes after all others. If
/// one is dropped, those after it come one earlier.
#[derive(Clone, Copy, Debug)]
pub enum Call<'a> {
    /// Make another, empty dictionary with these settings.
    New {
        /// Whether its labels ascend, how many failed searches close a block, and how many blocks one search tries at most.
        settings: CedarBuilder,
    },
    /// Make another dictionary, of pairs whose keys ascend by bytes.
    Sorted {
        /// As of `New`.
        settings: CedarBuilder,
        /// Keys and their values.
        pairs: &'a [(&'a [u8], i32)],
    },
    /// Make another dictionary, of pairs in any order: the last value of a key counts.
    Unsorted {
        /// As of `New`.
        settings: CedarBuilder,
        /// Keys and their values.
        pairs: &'a [(&'a [u8], i32)],
    },
    /// Load another dictionary.
    Load {
        /// What was saved, or any other bytes.
        bytes: &'a [u8],
        /// How many bytes the load may allocate at most.
        limit: usize,
    },
    /// Copy a dictionary: the copy is another one.
    Clone {
        /// Which one is copied.
        index: usize,
    },
    /// Drop a dictionary.
    Drop {
        /// Which one is dropped.
        index: usize,
    },
    /// Change a dictionary.
    Change {
        /// Which one is changed.
        index: usize,
        /// How it is changed.
        change: Change<'a>,
    },
    /// Query a dictionary.
    Ask {
        /// Which one is queried.
        index: usize,
        /// The query.
        question: Question<'a>,
    },
}

/// A change of a dictionary.
#[derive(Clone, Copy, Debug)]
pub enum Change<'a> {
    /// Store a value at a key.
    Update { key: &'a [u8], value: i32 },
    /// The same, and return what the key held.
    Insert { key: &'a [u8], value: i32 },
    /// Remove a key.
    Erase { key: &'a [u8] },
    /// Find a key, and remove it where it was found.
    EraseFound { key: &'a [u8] },
    /// Remove some keys, one after another.
    EraseBatch { keys: &'a [&'a [u8]] },
    /// Remove all keys that begin with a prefix.
    ErasePrefix { prefix: &'a [u8] },
    /// Remove all keys.
    Clear,
    /// Free memory that isn't needed.
    Shrink,
    /// Begin anew, with these settings.
    Renew { settings: CedarBuilder },
    /// Store some pairs, unless one of them has a fault.
    Build { pairs: &'a [(&'a [u8], i32)] },
    /// Store some pairs one after another, up to one that is refused.
    UpdateBatch { pairs: &'a [(&'a [u8], i32)] },
    /// Allocate ahead for so many blocks more than are in use.
    Reserve { blocks: usize },
    /// Let one search for places try so many blocks at most.
    SetSearchLimit { blocks: usize },
}
