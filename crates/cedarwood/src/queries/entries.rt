//! All keys and their values.

ghost use Rattle.std.specs.Prelude.{◌<◌, ◌↔◌, ◌∷◌, ◌≡◌, [], IfOk, IfSome, IsTrue, length, List};
ghost use Rattle.std.specs.Prelude.{MatchOption, MatchResult, Some, string_bytes};
ghost use Rattle.cedarwood.specs.Words.{entries_from, Entry, GoesToCopied, GoesToEntry};
ghost use Rattle.cedarwood.specs.Words.{IsEntriesPlace, IsEntryError, IsWellFormed, IsWithinCount};
ghost use Rattle.cedarwood.specs.Words.{item_count, Memory, tree_of, UpTo, walk};

use crate::CedarError;
use crate::queries::walked::Walked;
use std::alloc::{AllocError, Allocator};
use std::iter::FusedIterator;
use std::marker::Model;

/// All keys with their values, each key before its extensions and in iteration order. Each key is copied for its item; if an allocation is
/// refused, the error is the last item.
///
/// A contract sees the entries that are left.
#[derive(Drop)]
pub struct Entries<'a, T: Walked, A: Allocator + Copy> {
    trie: &'a T,
    // The node that the walk has been at, and its key.
    slot: usize,
    key: Vec<u8, A>,
    // How many entries are still to come.
    left: usize,
}

impl<'a, T: Walked, A: Allocator + Copy> Model for Entries<'a, T, A> {
    ghost Value = { List Entry };

    ghost view = { λ it. entries_from (T.shown it.trie.now) it.key.items it.slot it.left };

    ghost invariant = { λ it. IsWellFormed T.slots (T.shown it.trie.now) × (0 < it.left → IsEntriesPlace (T.shown it.trie.now) it.key.items it.slot)
        × (length (entries_from (T.shown it.trie.now) it.key.items it.slot it.left) ≡ it.left) };
}

/// Comes from the root, whose path is empty, to the first node that has a number: `key` becomes its path.
#[inline(never)]
fn first_entry<T: Walked, A: Allocator>(
    trie: &T,
    key: &mut Vec<u8, A>,
) -> Result<Option<(usize, i32)>, AllocError>
    requires well_formed { IsWellFormed T.slots (T.shown trie.now) }
    requires place { IsEntriesPlace (T.shown trie.now) key.old.items 0 }
    ensures { IfOk result (GoesToEntry (T.shown trie.now) 0 key.old.items key.new.items) }
{
    let mut at = 0;
    while let Some(next) = trie.next_node(at, key.len()) {
        key.truncate(next.depth - 1);
        key.push(next.label)?;
        at = next.slot;
        if let Some(number) = next.number {
            return Ok(Some((at, number)));
        }
    }
    Ok(None)
}

/// Goes on from a node to the next one that has a number: `key` is the path of the one, and becomes that of the other.
#[inline(always)]
fn next_entry<T: Walked, A: Allocator>(
    trie: &T,
    slot: usize,
    key: &mut Vec<u8, A>,
) -> Result<Option<(usize, i32)>, AllocError>
    requires well_formed { IsWellFormed T.slots (T.shown trie.now) }
    requires place { IsEntriesPlace (T.shown trie.now) key.old.items slot }
    ensures { IfOk result (GoesToEntry (T.shown trie.now) slot key.old.items key.new.items) }
{
    if slot == 0 {
        return first_entry(trie, key);
    }
    let Some(next) = trie.next_with_key(slot, key.len(), key)? else {
        return Ok(None);
    };
    Ok(Some((next.slot, next.number)))
}

impl<'a, T: Walked, A: Allocator + Copy> Entries<'a, T, A> {
    // All entries, of which there are so many.
    pub(crate) fn new(trie: &'a T, alloc: A, entries: usize) -> Self
        requires well_formed { IsWellFormed T.slots (T.shown trie.now) }
        requires entries { entries ≡ length (walk (tree_of (T.shown trie.now))) }
        ensures { result ≡ walk (tree_of (T.shown trie.now)) }
    {
        Entries {
            trie,
            slot: 0,
            key: Vec::new(alloc),
            left: entries,
        }
    }

    /// How many entries are still to come: none after an error.
    ///
    /// ```
    /// cedar.update("net", 7)?;
    /// assert_eq!(rt; cedar.entries()?.len(), 1);
    /// ```
    #[must_use]
    pub fn len(&self) -> usize
        //= `len` of entries is how many are still to come, which is 0 after a failed item. The size hint is from 0 to that. [also is_empty,
        //  size_hint.hint, Utf8Entries::size_hint.hint]
        ensures { result ≡ length self.now }
    {
        self.left
    }

    /// Whether no entry is still to come.
    ///
    /// ```
    /// cedar.update("net", 7)?;
    /// assert!(rt; !cedar.entries()?.is_empty());
    /// ```
    #[must_use]
    pub fn is_empty(&self) -> bool
        ensures { IsTrue result ↔ (self.now ≡ []) }
    {
        self.left == 0
    }
}

impl<'a, T: Walked, A: Allocator + Copy> Iterator for Entries<'a, T, A> {
    type Item = Result<(Vec<u8, A>, i32), CedarError>;

    ghost next_gives = { λ rest item later. MatchOption item ((rest ≡ []) × (later ≡ [])) (λ found. MatchResult found
        (λ entry. rest ≡ (entry.0.items, entry.1) ∷ later)
        (λ error. (error ≡ Memory) × (later ≡ []) × (0 < length rest))) };

    ghost remaining = { item_count (λ (rest : List Entry). rest) };

    fn next(&mut self) -> Option<Result<(Vec<u8, A>, i32), CedarError>> {
        if self.left == 0 {
            return None;
        }
        match next_copied(self.trie, self.slot, &mut self.key) {
            Ok(Some((slot, number, key))) => {
                self.slot = slot;
                self.left -= 1;
                Some(Ok((key, number)))
            }
            Ok(None) => {
                self.left = 0;
                None
            }
            Err(_) => {
                self.left = 0;
                Some(Err(CedarError::Memory))
            }
        }
    }

    fn size_hint(&self) -> (usize, Option<usize>)
        //= How many items are left is within the size hint of each iteration. [with upper; also Utf8Entries::size_hint,
        //  PrefixPredictIter::size_hint, PrefixIter::size_hint, RangeEntries::size_hint]
        ensures lower { IsWithinCount result.0 (item_count (λ (rest : List Entry). rest) self.now) }
        ensures upper { IfSome result.1 (UpTo (item_count (λ (rest : List Entry). rest) self.now)) }
        ensures hint { result ≡ (0, Some (length self.now)) }
    {
        (0, Some(self.left))
    }
}

impl<'a, T: Walked, A: Allocator + Copy> FusedIterator for Entries<'a, T, A> {}

/// `next_entry`, with a copy of the key.
fn next_copied<T: Walked, A: Allocator + Copy>(
    trie: &T,
    slot: usize,
    key: &mut Vec<u8, A>,
) -> Result<Option<(usize, i32, Vec<u8, A>)>, AllocError>
    requires well_formed { IsWellFormed T.slots (T.shown trie.now) }
    requires place { IsEntriesPlace (T.shown trie.now) key.old.items slot }
    ensures { IfOk result (GoesToCopied (λ copy. copy.items) (T.shown trie.now) slot key.old.items key.new.items) }
{
    let Some((found, number)) = next_entry(trie, slot, key)? else {
        return Ok(None);
    };
    let mut copy = Vec::new(*key.allocator());
    copy.extend_from_slice(key)?;
    Ok(Some((found, number, copy)))
}

/// Why a text entry can't be given.
#[derive(Clone, Copy, Debug, PartialEq, Eq)]
pub enum EntryError {
    /// The key isn't UTF-8. [`Trie::entries`](crate::Trie::entries) gives each key as bytes.
    Utf8 {
        /// What the key holds.
        value: i32,
    },
    /// An allocation was refused.
    Memory,
}

/// `Entries` with keys as text. A key that isn't UTF-8 gives an error with its value instead of its item, and the iteration goes on.
///
/// A contract sees the entries that are left.
#[derive(Drop)]
pub struct Utf8Entries<'a, T: Walked, A: Allocator + Copy> {
    entries: Entries<'a, T, A>,
}

impl<'a, T: Walked, A: Allocator + Copy> Model for Utf8Entries<'a, T, A> {
    ghost Value = { List Entry };

    ghost view = { λ it. it.entries };
}

impl<'a, T: Walked, A: Allocator + Copy> Utf8Entries<'a, T, A> {
    pub(crate) fn new(entries: Entries<'a, T, A>) -> Self
        ensures { result ≡ entries.entry }
    {
        Utf8Entries { entries }
    }
}

impl<'a, T: Walked, A: Allocator + Copy> Iterator for Utf8Entries<'a, T, A> {
    type Item = Result<(String<A>, i32), EntryError>;

    ghost next_gives = { λ rest item later. MatchOption item ((rest ≡ []) × (later ≡ [])) (λ found. MatchResult found
        (λ entry. rest ≡ (string_bytes entry.0, entry.1) ∷ later)
        (λ error. IsEntryError rest error later)) };

    ghost remaining = { item_count (λ (rest : List Entry). rest) };

    fn next(&mut self) -> Option<Result<(String<A>, i32), EntryError>> {
        match self.entries.next()? {
            Ok((key, number)) => match String::from_utf8(key) {
                Ok(text) => Some(Ok((text, number))),
                Err(_) => Some(Err(EntryError::Utf8 { value: number })),
            },
            Err(_) => Some(Err(EntryError::Memory)),
        }
    }

    fn size_hint(&self) -> (usize, Option<usize>)
        ensures lower { IsWithinCount result.0 (item_count (λ (rest : List Entry). rest) self.now) }
        ensures upper { IfSome result.1 (UpTo (item_count (λ (rest : List Entry). rest) self.now)) }
        ensures hint { result ≡ (0, Some (length self.now)) }
    {
        self.entries.size_hint()
    }
}

impl<'a, T: Walked, A: Allocator + Copy> FusedIterator for Utf8Entries<'a, T, A> {}
