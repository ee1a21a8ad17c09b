//! A change as a value.

/// A change of a dictionary, one of a batch.
#[derive(Clone, Copy, Debug)]
pub enum Change<'a> {
    /// Store a value at a key, and replace the value that the key holds, if any.
    Update { key: &'a [u8], value: i32 },
    /// Remove a key, if it is held.
    Erase { key: &'a [u8] },
}
