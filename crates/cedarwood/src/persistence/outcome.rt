//! What a save by path did.

use crate::CedarPersistenceError;
use whole_files::{NotBegun, PathCalls, Sent};

/// What a save by path did at the path, among the files `F`.
#[derive(Drop)]
pub enum Saved<F> {
    /// A new file took the place of what was there. These are the calls on it.
    Placed(PathCalls<F>),
    /// What is there isn't a file, and was written to as it is. This is what it took.
    Sent(Sent<F>),
}

/// Why a save by path failed, among the files `F`.
#[derive(Drop)]
pub struct SaveFailed<F> {
    /// The fault: `Io`, or `AllocationFailed` with 8192.
    pub error: CedarPersistenceError,
    /// What was done.
    pub done: Unsaved<F>,
}

/// What a save by path did that failed.
#[derive(Drop)]
pub enum Unsaved<F> {
    /// Nothing was written.
    NotBegun(NotBegun<F>),
    /// A new file was written, in part or whole. These are the calls on it.
    Made(PathCalls<F>),
    /// What is there isn't a file. This is what it took.
    Sent(Sent<F>),
}
