//! Results of calls as values.

use cedar_replies::Reply;
use cedarwood::{CedarError, CedarPersistenceError, RefusedPair};
use std::alloc::Allocator;

/// What a call returned.
#[derive(Drop)]
pub enum Answer<A: Allocator> {
    /// There is no dictionary at the index.
    Missing,
    /// Whether a further dictionary was made. If so, it comes after the others.
    Made(Result<(), CedarError>),
    /// Whether a further dictionary was loaded. If so, it comes after the others.
    Loaded(Result<(), CedarPersistenceError>),
    /// The dictionary was dropped. Those after it have come one earlier.
    Dropped,
    /// What a change returned.
    Changed(Changed<A>),
    /// What a question returned.
    Replied(Reply<A>),
}

/// What a change returned.
#[derive(Drop)]
pub enum Changed<A: Allocator> {
    /// Whether the value was stored.
    Updated(Result<(), CedarError>),
    /// The same, with what the key held before.
    Inserted(Result<Option<i32>, CedarError>),
    /// Whether the key was held.
    Erased(bool),
    /// What the key held.
    ErasedFound(Option<i32>),
    /// For each key whether it was held once those before it were removed. If there was no memory to collect this, no key was removed;
    /// for no keys none is needed.
    ErasedBatch(Result<Vec<bool, A>, CedarError>),
    /// How many keys were removed.
    ErasedPrefix(usize),
    /// No key is held any more.
    Cleared,
    /// Whether the dictionary was built anew. If not, it is as it was.
    Shrunk(Result<(), CedarError>),
    /// Whether it is empty now. If not, it holds what it held.
    Renewed(Result<(), CedarError>),
    /// Whether all pairs were stored.
    Built(Result<(), CedarError>),
    /// The same, or which pair was refused. Those before it are stored.
    UpdatedBatch(Result<(), RefusedPair>),
    /// Whether there is room for the blocks.
    Reserved(Result<(), CedarError>),
    /// One search tries no more blocks.
    SearchLimitSet,
}
