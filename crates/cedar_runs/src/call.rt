//! Calls of a store as values, and what came of them.

use cedar_store::{Change, Compaction};

/// A call of a store.
#[derive(Clone, Copy, Debug)]
pub enum StoreCall<'a> {
    /// Store a value at a key.
    Update { key: &'a [u8], value: i32 },
    /// Remove a key.
    Erase { key: &'a [u8] },
    /// Make some changes as one.
    Batch { changes: &'a [Change<'a>] },
    /// Write the dictionary to a new file.
    Compact,
    /// Set when the file is compacted at the end of a change.
    Rule { compaction: Compaction },
}

/// What came of a call.
#[derive(Clone, Copy, Debug, PartialEq, Eq)]
pub enum Outcome {
    /// It is acknowledged.
    Made,
    /// Dictionary and disk are as they were: it was refused, or there was nothing to change.
    Nothing,
    /// The device failed in it: the dictionary has it, and the disk has it or not.
    Failed,
}
