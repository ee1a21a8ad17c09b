//! A cursor over the entries of a range, which lends their keys.

ghost use Rattle.std.specs.Prelude.{◌<◌, ◌≡◌, ◌≤◌, [], IfErr, IfOk, length, List, MatchOption};
ghost use Rattle.std.specs.Prelude.{OnErr, option_map, Some, vec_capacity, ℕ};
ghost use Rattle.cedarwood.specs.Words.{Cursor, cursor_code, cursor_entries, cursor_left};
ghost use Rattle.cedarwood.specs.Words.{FindsNext, GivesEntry, IsAtEnd, IsCursorEnd, IsCursorPlace};
ghost use Rattle.cedarwood.specs.Words.{IsRangePlace, IsShortOf, IsWellFormed, KeyOutgrows};
ghost use Rattle.cedarwood.specs.Words.{place_before, WritesNextKey};

use crate::CedarError;
use crate::queries::ranged::{RangeEntries, ends_at, write_key};
use crate::queries::walked::Walked;
use cedar_walk::Numbered;
use std::alloc::{AllocError, Allocator};
use std::marker::Model;

/// Where a cursor is.
#[derive(Clone, Copy)]
pub(crate) enum CursorPlace {
    /// Before this node, whose key isn't written yet.
    Before(Numbered),
    /// It has been at this node, which has a number and is so many labels below the node where the walk began. The key is the node's.
    At { slot: usize, depth: usize },
    /// Nothing is left.
    End,
}

/// The entries of a range one after another, each with its key lent from a buffer of the cursor's. From one key to the next only the bytes
/// in which they differ are written: so an entry costs less than by [`RangeEntries::next_into`]. The buffer is the only memory that it
/// allocates.
///
/// A contract sees the key that it holds, the entries that are left, and the buffer's capacity (`room`).
#[derive(Drop)]
pub struct EntryCursor<'a, T: Walked, A: Allocator> {
    trie: &'a T,
    // What all keys begin with, and where the walk below that is.
    start: &'a [u8],
    place: CursorPlace,
    // The node of the first entry after the range, and what the range ends before: contracts read this.
    end: Option<Numbered>,
    to: Option<&'a [u8]>,
    key: Vec<u8, A>,
}

impl<'a, T: Walked, A: Allocator> Model for EntryCursor<'a, T, A> {
    ghost Value = { Cursor };

    ghost coded = { cursor_code };

    ghost view = { λ it. record {
      key = it.key.items;
      left = cursor_left (T.shown it.trie.now) it.start.now (option_map (λ to. to.now) it.to) it.place;
      room = vec_capacity it.key;
    } };

    ghost invariant = { λ it. IsWellFormed T.slots (T.shown it.trie.now) × IsCursorPlace (T.shown it.trie.now) it.start.now it.key.items it.place
        × IsRangePlace (T.shown it.trie.now) it.start.now it.end × IsCursorEnd (T.shown it.trie.now) it.start.now (option_map (λ to. to.now) it.to) it.place it.end };
}

/// The place of a walk that comes to a node next.
fn before(next: Option<Numbered>) -> CursorPlace
    ensures { result ≡ place_before next }
{
    match next {
        Some(next) => CursorPlace::Before(next),
        None => CursorPlace::End,
    }
}

/// The node of the next entry, whose key is written.
#[inline(always)]
fn next_written<T: Walked, A: Allocator>(
    trie: &T,
    start: &[u8],
    place: CursorPlace,
    key: &mut Vec<u8, A>,
) -> Result<Option<Numbered>, AllocError>
    requires well_formed { IsWellFormed T.slots (T.shown trie.now) }
    requires place { IsCursorPlace (T.shown trie.now) start.now key.old.items place }
    ensures written { IfOk result (WritesNextKey (T.shown trie.now) start.now place key.new.items) }
    ensures full { OnErr result (KeyOutgrows (vec_capacity key.old) (cursor_entries (T.shown trie.now) start.now place)) }
    ensures capacity { vec_capacity key.old ≤ vec_capacity key.new }
{
    match place {
        CursorPlace::At { slot, depth } => trie.next_with_key(slot, depth, key),
        CursorPlace::Before(next) => {
            write_key(trie, start, next.slot, next.depth, key)?;
            Ok(Some(next))
        }
        CursorPlace::End => Ok(None),
    }
}

/// The node of the next entry, for whose key there was no memory.
fn next_unwritten<T: Walked>(trie: &T, place: CursorPlace) -> Option<Numbered>
    requires well_formed { IsWellFormed T.slots (T.shown trie.now) }
    requires place { (start : List ℕ) × (key : List ℕ) × IsCursorPlace (T.shown trie.now) start key place }
    ensures { (start : List ℕ) (key : List ℕ) → IsCursorPlace (T.shown trie.now) start key place → FindsNext (T.shown trie.now) start place result }
{
    match place {
        CursorPlace::At { slot, depth } => trie.next_numbered(slot, depth),
        CursorPlace::Before(next) => Some(next),
        CursorPlace::End => None,
    }
}

/// The next node, unless the walk ends at it.
#[inline(always)]
fn short_of(found: Option<Numbered>, end: Option<Numbered>) -> Option<Numbered>
    ensures { MatchOption result (IsAtEnd found end) (λ next. (found ≡ Some next) × IsShortOf end next) }
{
    let Some(next) = found else {
        return None;
    };
    if ends_at(end, next.slot) {
        return None;
    }
    Some(next)
}

impl<'a, T: Walked, A: Allocator> EntryCursor<'a, T, A> {
    /// Goes to the next entry, and returns its value: None if no entry is left. Its key is [`EntryCursor::key`] until the next call. It
    /// allocates only if the key is longer than the capacity of the cursor's buffer, which never falls: so after the longest key no further
    /// call is refused. After a refused allocation the cursor is where it was, and the call can be made again.
    ///
    /// ```
    /// cedar.build(&[("ne", 1), ("net", 7)])?;
    /// let mut cursor = cedar.entries_with_prefix("n").into_cursor();
    /// assert_eq!(rt; cursor.advance()?, Some(1));
    /// assert_eq!(rt; cursor.key(), b"ne".as_slice());
    /// assert_eq!(rt; cursor.advance()?, Some(7));
    /// assert_eq!(rt; cursor.key(), b"net".as_slice());
    /// assert_eq!(rt; cursor.advance()?, None);
    /// ```
    ///
    /// # Errors
    /// `Memory` if the next entry's key is longer than the capacity of the cursor's buffer, and an allocation was refused.
    #[inline]
    pub fn advance(&mut self) -> Result<Option<i32>, CedarError>
        //= A cursor over the entries of a range gives the next one each call, and then holds its key. If that fails with `Memory`, the
        //  cursor is where it was. [with refused]
        ensures found { IfOk result (GivesEntry self.old self.new) }
        ensures refused { IfErr result (λ e. (e ≡ CedarError.Memory) × (self.new.left ≡ self.old.left) × (0 < length self.old.left)) }

        //= A cursor fails only if the next key is longer than the capacity of its own buffer, which never falls. [with room; by
        //  KeyOutgrows]
        ensures full { OnErr result (KeyOutgrows self.old.room self.old.left) }
        ensures room { self.old.room ≤ self.new.room }
    {
        match next_written(self.trie, self.start, self.place, &mut self.key) {
            Ok(found) => match short_of(found, self.end) {
                Some(next) => {
                    self.place = CursorPlace::At {
                        slot: next.slot,
                        depth: next.depth,
                    };
                    Ok(Some(next.number))
                }
                None => {
                    self.place = CursorPlace::End;
                    self.end = None;
                    Ok(None)
                }
            },
            Err(_) => match short_of(next_unwritten(self.trie, self.place), self.end) {
                Some(next) => {
                    self.place = CursorPlace::Before(next);
                    Err(CedarError::Memory)
                }
                None => {
                    self.place = CursorPlace::End;
                    self.end = None;
                    Ok(None)
                }
            },
        }
    }

    /// The key of the entry that [`EntryCursor::advance`] gave last. It is empty before the first one; after the last one, and after a
    /// refused allocation, it may hold anything.
    ///
    /// ```
    /// cedar.build(&[("net", 7), ("ten", 2)])?;
    /// let mut cursor = cedar.range("nea", "neu").ok_or("ascending labels")?.into_cursor();
    /// assert_eq!(rt; (cursor.advance()?, cursor.key()), (Some(7), b"net".as_slice()));
    /// ```
    #[must_use]
    pub fn key(&self) -> &[u8]
        //= `key` of a cursor lends the key that it holds.
        ensures { result.now ≡ self.now.key }
    {
        self.key.as_slice()
    }
}

impl<'a, T: Walked, A: Allocator + Copy> RangeEntries<'a, T, A> {
    /// A cursor over the entries that are left, whose buffer for keys comes from the dictionary's own allocator. It allocates nothing
    /// before the first entry.
    ///
    /// ```
    /// cedar.build(&[("net", 7), ("ten", 2)])?;
    /// let mut cursor = cedar.entries_with_prefix("t").into_cursor();
    /// assert_eq!(rt; (cursor.advance()?, cursor.key()), (Some(2), b"ten".as_slice()));
    /// ```
    #[must_use]
    pub fn into_cursor(self) -> EntryCursor<'a, T, A>
        //= `into_cursor` makes a cursor over the entries of a range that are left, which holds no key yet, in a buffer without room. [with
        //  key, room]
        ensures left { result.left ≡ self.entry }
        ensures key { result.key ≡ [] }
        ensures room { result.room ≡ 0 }
    {
        EntryCursor {
            trie: self.trie,
            start: self.start,
            place: before(self.next),
            end: self.end,
            to: self.to,
            key: Vec::new(self.alloc),
        }
    }
}
