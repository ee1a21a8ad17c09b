//! Replies as values.

use cedar_words::Edge;
use cedarwood::{CedarError, MemoryStats};
use std::alloc::Allocator;

/// What a query returned. If there was no memory to collect a result, it is `Memory`. An empty list needs none.
#[derive(Drop)]
pub enum Reply<A: Allocator> {
    /// The key's value and its length.
    Exact(Option<(i32, usize)>),
    /// The key's value.
    Value(Option<i32>),
    /// Whether the key is held.
    IsHeld(bool),
    /// The value and the length of the longest key that the text begins with.
    Longest(Option<(i32, usize)>),
    /// The key and the value of the first entry, or of the last one.
    End(Result<Option<(Vec<u8, A>, i32)>, CedarError>),
    /// What an exact search of each key returns.
    Batch(Result<Vec<Option<(i32, usize)>, A>, CedarError>),
    /// The prefixes of the query that are held.
    Prefixes(Result<Vec<(i32, usize), A>, CedarError>),
    /// The keys that begin with the query.
    Predictions(Result<Vec<(i32, usize), A>, CedarError>),
    /// All keys with their values, or those that begin with the prefix.
    Entries(Result<Vec<(Vec<u8, A>, i32), A>, CedarError>),
    /// The keys of a range with their values, and `None` if the dictionary's labels don't ascend.
    Range(Result<Option<Vec<(Vec<u8, A>, i32), A>>, CedarError>),
    /// All keys as texts with their values, and `None` for each key that isn't UTF-8.
    TextEntries(Result<Vec<Option<(String<A>, i32)>, A>, CedarError>),
    /// The entries, whose keys were written into a buffer.
    InBuffer(BufferReply<A>),
    /// What is in the text.
    InText(TextReply<A>),
    /// The completions, or what is in the range.
    Completed(CompletionReply<A>),
    /// The keys that are held.
    Len(usize),
    /// How many keys begin with the prefix.
    Count(usize),
    /// The figure.
    Figure(usize),
    /// Whether no key is held.
    IsEmpty(bool),
    /// The four figures.
    Stats(MemoryStats),
    /// The bytes of its file.
    Saved(Result<Vec<u8, A>, CedarError>),
}

/// What a question about entries in a buffer returned.
#[derive(Drop)]
pub enum BufferReply<A: Allocator> {
    /// There was no memory for the buffer's first room.
    NoBuffer,
    /// The key and the value of the first entry, or of the last one. It is `Memory` only if the key is longer than the room.
    End(Result<Option<(Vec<u8, A>, i32)>, CedarError>),
    /// The keys of the entries, copied from the buffer, with their values. It is `Memory` only if there is one.
    Entries(Result<Vec<(Vec<u8, A>, i32), A>, CedarError>),
}

/// What a question about completions returned. If there was no memory to look or to collect, it is `Memory`.
#[derive(Drop)]
pub enum CompletionReply<A: Allocator> {
    /// The best entries, each its value and its key.
    Best(Result<Vec<(i32, Vec<u8, A>), A>, CedarError>),
    /// The keys of a range with their values, and `None` if the dictionary's labels don't ascend.
    Range(Result<Option<Vec<(Vec<u8, A>, i32), A>>, CedarError>),
    /// The value and the key of the first entry of a range, or of its last one; and `None` if labels don't ascend.
    End(Result<Option<Option<(i32, Vec<u8, A>)>>, CedarError>),
    /// The keys that are wanted with their values, in the dictionary's order.
    Wanted(Result<Vec<(Vec<u8, A>, i32), A>, CedarError>),
    /// The pattern has more than 63 bytes.
    PatternTooLong,
}

/// What a question about a text returned. If there was no memory to collect a result, it is `Memory`. An empty list needs none.
#[derive(Drop)]
pub enum TextReply<A: Allocator> {
    /// The value of the longest key that the text begins with, and one less than the key's bytes.
    Longest(Option<(i32, usize)>),
    /// The same of each key that it begins with.
    Fronts(Result<Vec<(i32, usize), A>, CedarError>),
    /// For each token where it begins, how many bytes it has, and its value if it has one.
    Tokens(Result<Vec<(usize, usize, Option<i32>), A>, CedarError>),
    /// The tokens of each cut.
    Cuts(Result<Vec<Vec<(usize, usize, Option<i32>), A>, A>, CedarError>),
    /// For each key in the text where it begins, how many bytes it has, and its value.
    Keys(Result<Vec<(usize, usize, i32), A>, CedarError>),
    /// The tokens that cuts from each position on may begin with, with their costs.
    Edges(Result<Vec<Edge, A>, CedarError>),
}
