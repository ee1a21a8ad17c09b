//! Replies whose keys are written into a buffer.

ghost use Rattle.std.specs.Prelude.{◌<◌, ◌≡◌, ◌≤◌, IfErr, IfOk, IfSome, length, MatchOption, OnErr};
ghost use Rattle.std.specs.Prelude.{option_map, vec_capacity};
ghost use Rattle.cedar_replies.specs.Words.{CollectsEntries, entries_with, first_entry};
ghost use Rattle.cedar_replies.specs.Words.{IsBufferReply, KeyOutgrows, last_entry, Memory, walk};

use crate::reply::add;
use crate::{BufferQuery, BufferReply};
use cedarwood::{CedarError, EntryCursor, Layout, RangeEntries, Trie};
use std::alloc::Allocator;

/// Answers a question whose keys are written into a buffer. The buffer and what is collected are allocated from `alloc`, but for a cursor's
/// buffer.
pub(crate) fn buffer_reply<L: Layout, const SLOTS: usize, A: Allocator + Copy>(
    trie: &Trie<L, SLOTS, A>,
    alloc: A,
    query: &BufferQuery<'_>,
) -> BufferReply<A>
    ensures { IsBufferReply trie.now.state.tree query.now result }
{
    match query {
        BufferQuery::First { room } => match buffer(alloc, *room) {
            Some(key) => BufferReply::End(first_into(trie, key)),
            None => BufferReply::NoBuffer,
        },
        BufferQuery::Last { room } => match buffer(alloc, *room) {
            Some(key) => BufferReply::End(last_into(trie, key)),
            None => BufferReply::NoBuffer,
        },
        BufferQuery::EntriesWith { prefix, room } => match buffer(alloc, *room) {
            Some(key) => BufferReply::Entries(entries_into(trie, alloc, prefix, key)),
            None => BufferReply::NoBuffer,
        },
        BufferQuery::ByCursor { prefix } => BufferReply::Entries(entries_by(trie, alloc, prefix)),
    }
}

/// A buffer with room for so many bytes, if there is memory for it. None needs no memory.
fn buffer<A: Allocator>(alloc: A, room: usize) -> Option<Vec<u8, A>>
    ensures { MatchOption result (0 < room) (λ key. room ≤ vec_capacity key) }
{
    match Vec::with_capacity(alloc, room) {
        Ok(key) => Some(key),
        Err(_) => None,
    }
}

/// The first entry, with its key in a buffer.
fn first_into<L: Layout, const SLOTS: usize, A: Allocator + Copy>(
    trie: &Trie<L, SLOTS, A>,
    mut key: Vec<u8, A>,
) -> Result<Option<(Vec<u8, A>, i32)>, CedarError>
    ensures found { IfOk result (λ found. option_map (λ e. (e.0.items, e.1)) found ≡ first_entry trie.now.state.tree) }
    ensures refused { IfErr result (λ e. e ≡ Memory) }
    ensures full { OnErr result (KeyOutgrows (vec_capacity key) (walk trie.now.state.tree)) }
{
    match trie.first_into(&mut key) {
        Ok(Some(value)) => Ok(Some((key, value))),
        Ok(None) => Ok(None),
        Err(error) => Err(error),
    }
}

/// The last entry, with its key in a buffer.
fn last_into<L: Layout, const SLOTS: usize, A: Allocator + Copy>(
    trie: &Trie<L, SLOTS, A>,
    mut key: Vec<u8, A>,
) -> Result<Option<(Vec<u8, A>, i32)>, CedarError>
    ensures found { IfOk result (λ found. option_map (λ e. (e.0.items, e.1)) found ≡ last_entry trie.now.state.tree) }
    ensures refused { IfErr result (λ e. e ≡ Memory) }
    ensures full { OnErr result (IfSome (last_entry trie.now.state.tree) (λ entry. vec_capacity key < length entry.0)) }
{
    match trie.last_into(&mut key) {
        Ok(Some(value)) => Ok(Some((key, value))),
        Ok(None) => Ok(None),
        Err(error) => Err(error),
    }
}

/// The entries whose keys begin with a prefix. Each key is written into a buffer.
fn entries_into<L: Layout, const SLOTS: usize, A: Allocator + Copy>(
    trie: &Trie<L, SLOTS, A>,
    alloc: A,
    prefix: &[u8],
    key: Vec<u8, A>,
) -> Result<Vec<(Vec<u8, A>, i32), A>, CedarError>
    ensures { CollectsEntries result (entries_with trie.now.state.tree prefix.now) }
{
    collect_into(alloc, trie.entries_with_prefix_bytes(prefix), key)
}

/// The same by a cursor.
fn entries_by<L: Layout, const SLOTS: usize, A: Allocator + Copy>(
    trie: &Trie<L, SLOTS, A>,
    alloc: A,
    prefix: &[u8],
) -> Result<Vec<(Vec<u8, A>, i32), A>, CedarError>
    ensures { CollectsEntries result (entries_with trie.now.state.tree prefix.now) }
{
    collect_by(alloc, trie.entries_with_prefix_bytes(prefix).into_cursor())
}

/// What is left of a range of entries. Each key is written into a buffer, and copied.
fn collect_into<L: Layout, const SLOTS: usize, A: Allocator + Copy>(
    alloc: A,
    mut entries: RangeEntries<'_, Trie<L, SLOTS, A>, A>,
    mut key: Vec<u8, A>,
) -> Result<Vec<(Vec<u8, A>, i32), A>, CedarError>
    ensures { CollectsEntries result entries.entry }
{
    let mut found = Vec::new(alloc);
    while let Some(value) = entries.next_into(&mut key)? {
        let copy = Vec::from_slice(alloc, &key)?;
        add(&mut found, (copy, value))?;
    }
    Ok(found)
}

/// What a cursor has left. Each key is copied.
fn collect_by<L: Layout, const SLOTS: usize, A: Allocator + Copy>(
    alloc: A,
    mut cursor: EntryCursor<'_, Trie<L, SLOTS, A>, A>,
) -> Result<Vec<(Vec<u8, A>, i32), A>, CedarError>
    ensures { CollectsEntries result cursor.entry.left }
{
    let mut found = Vec::new(alloc);
    while let Some(value) = cursor.advance()? {
        let copy = Vec::from_slice(alloc, cursor.key())?;
        add(&mut found, (copy, value))?;
    }
    Ok(found)
}
