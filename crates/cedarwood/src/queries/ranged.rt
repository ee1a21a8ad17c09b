//! The entries of a range of keys: those that begin with a prefix, those from a key on, and those between two keys.

ghost use Rattle.std.specs.Prelude.{◌++◌, ◌+◌, ◌<◌, ◌↔◌, ◌∷◌, ◌≡◌, ◌≤◌, [], false, IfErr, IfOk};
ghost use Rattle.std.specs.Prelude.{IfSome, IsTrue, length, List, MatchOption, MatchResult, OnErr};
ghost use Rattle.std.specs.Prelude.{option_map, Some, true, vec_capacity, ⊤};
ghost use Rattle.cedarwood.specs.Words.{entries_between, entries_left_before, entries_since};
ghost use Rattle.cedarwood.specs.Words.{entries_with, Entry, GivesBetween, GivesRange, is_lt};
ghost use Rattle.cedarwood.specs.Words.{IsEnd, IsNumberedBelow, IsRangePlace, IsWellFormed};
ghost use Rattle.cedarwood.specs.Words.{IsWithinCount, item_count, KeyOutgrows, Memory, nat_cmp};
ghost use Rattle.cedarwood.specs.Words.{Numbered, path_to, slice_cmp, tree_of, UpTo};

use crate::queries::walked::Walked;
use crate::{CedarError, Layout, Trie};
use cedar_walk::Numbered;
use std::alloc::{AllocError, Allocator};
use std::cmp::Ordering;
use std::iter::FusedIterator;
use std::marker::Model;

/// The entries at the keys of a range, each key before its extensions and in iteration order. Each key is written for its item by climbing
/// from its node: so the iteration itself needs no memory. If an allocation is refused, the error is the last item. A clone goes on from the
/// same place, and allocates nothing.
///
/// A contract sees the entries that are left.
#[derive(Drop)]
pub struct RangeEntries<'a, T: Walked, A: Allocator + Copy> {
    pub(crate) trie: &'a T,
    // What all keys begin with, and the node of the first entry that is to come, so many labels below that.
    pub(crate) start: &'a [u8],
    pub(crate) next: Option<Numbered>,
    // The node of the first entry after the range: so no key is compared.
    pub(crate) end: Option<Numbered>,
    // What the range ends before, if it has an end: contracts read it.
    pub(crate) to: Option<&'a [u8]>,
    pub(crate) alloc: A,
}

impl<'a, T: Walked, A: Allocator + Copy> Model for RangeEntries<'a, T, A> {
    ghost Value = { List Entry };

    ghost view = { λ it. entries_left_before (T.shown it.trie.now) it.start.now (option_map (λ to. to.now) it.to) it.next };

    ghost invariant = { λ it. IsWellFormed T.slots (T.shown it.trie.now) × IsRangePlace (T.shown it.trie.now) it.start.now it.next × IsRangePlace (T.shown it.trie.now) it.start.now it.end
        × IsEnd (T.shown it.trie.now) it.start.now (option_map (λ to. to.now) it.to) it.next it.end };
}

/// Gives a buffer a length. The bytes that it has stay, and only new ones are set to 0: all are written over. It allocates only if the
/// length is above the capacity.
fn set_len<A: Allocator>(buffer: &mut Vec<u8, A>, len: usize) -> Result<(), AllocError>
    ensures long { IfOk result (λ _. length buffer.new.items ≡ len) }
    ensures full { OnErr result (vec_capacity buffer.old < len) }
    ensures capacity { vec_capacity buffer.old ≤ vec_capacity buffer.new }
{
    if buffer.len() < len {
        buffer.resize(len, 0)?;
    }
    buffer.truncate(len);
    Ok(())
}

/// Writes the key of a node into a buffer instead of what that held: a path, and then the labels below it.
pub(crate) fn write_key<T: Walked, A: Allocator>(
    trie: &T,
    start: &[u8],
    slot: usize,
    depth: usize,
    key: &mut Vec<u8, A>,
) -> Result<(), AllocError>
    requires well_formed { IsWellFormed T.slots (T.shown trie.now) }
    requires below { IsNumberedBelow (T.shown trie.now) start.now depth slot }
    ensures written { IfOk result (λ _. key.new.items ≡ start.now ++ path_to (T.shown trie.now) depth slot) }
    ensures full { OnErr result (vec_capacity key.old < length start.now + depth) }
    ensures capacity { vec_capacity key.old ≤ vec_capacity key.new }
{
    set_len(key, start.len() + depth)?;
    let bytes = key.as_mut_slice();
    bytes[..start.len()].copy_from_slice(start);
    trie.write_path(slot, depth, bytes);
    Ok(())
}

/// Whether a walk ends at a slot.
#[inline(always)]
pub(crate) fn ends_at(end: Option<Numbered>, slot: usize) -> bool
    ensures { IsTrue result ↔ ((last : Numbered) × (end ≡ Some last) × (last.slot ≡ slot)) }
{
    match end {
        Some(last) => last.slot == slot,
        None => false,
    }
}

/// Whether a path comes before another one by bytes.
fn is_before(from: &[u8], to: &[u8]) -> bool
    ensures { result ≡ is_lt (slice_cmp nat_cmp from.now to.now) }
{
    match from.cmp(to) {
        Ordering::Less => true,
        Ordering::Equal => false,
        Ordering::Greater => false,
    }
}

impl<'a, T: Walked, A: Allocator + Copy> RangeEntries<'a, T, A> {
    // The entries at keys that begin with a prefix.
    pub(crate) fn with_prefix(trie: &'a T, prefix: &'a [u8], alloc: A) -> Self
        requires { IsWellFormed T.slots (T.shown trie.now) }
        ensures { result ≡ entries_with (tree_of (T.shown trie.now)) prefix.now }
    {
        RangeEntries {
            trie,
            start: prefix,
            next: trie.first_numbered(prefix),
            end: None,
            to: None,
            alloc,
        }
    }

    // The entries at a key and after it.
    pub(crate) fn since(trie: &'a T, key: &[u8], alloc: A) -> Self
        requires well_formed { IsWellFormed T.slots (T.shown trie.now) }
        requires ordered { (T.shown trie.now).ordered ≡ true }
        ensures { result ≡ entries_since (tree_of (T.shown trie.now)) key.now }
    {
        RangeEntries {
            trie,
            start: &[],
            next: trie.first_since(key),
            end: None,
            to: None,
            alloc,
        }
    }

    // The entries at a key and after it, before another key.
    pub(crate) fn between(trie: &'a T, from: &[u8], to: &'a [u8], alloc: A) -> Self
        requires well_formed { IsWellFormed T.slots (T.shown trie.now) }
        requires ordered { (T.shown trie.now).ordered ≡ true }
        ensures { result ≡ entries_between (tree_of (T.shown trie.now)) from.now to.now }
    {
        if !is_before(from, to) {
            return RangeEntries {
                trie,
                start: &to[..0],
                next: None,
                end: None,
                to: Some(to),
                alloc,
            };
        }
        let next = trie.first_since(from);
        let end = trie.first_since(to);
        RangeEntries {
            trie,
            start: &to[..0],
            next,
            end,
            to: Some(to),
            alloc,
        }
    }

    /// Writes the next key into a buffer instead of what that held, and returns the key's value: None if no entry is left. So one buffer
    /// serves for many keys. It allocates only if the key is longer than the buffer's capacity, and never lowers that. After a refused
    /// allocation the iteration is where it was, and the buffer may hold anything.
    ///
    /// ```
    /// cedar.build(&[("ne", 1), ("net", 7)])?;
    /// let mut entries = cedar.entries_with_prefix("ne");
    /// let mut key = Vec::new(rt.alloc());
    /// assert_eq!(rt; entries.next_into(&mut key)?, Some(1));
    /// assert_eq!(rt; key.as_slice(), b"ne".as_slice());
    ///
    /// let mut entries = cedar.range("nea", "neu").ok_or("ascending labels")?;
    /// assert_eq!(rt; entries.next_into(&mut key)?, Some(7));
    /// assert_eq!(rt; key.as_slice(), b"net".as_slice());
    /// ```
    ///
    /// # Errors
    /// `Memory` if the key is longer than the buffer's capacity and an allocation was refused.
    pub fn next_into<B: Allocator>(
        &mut self,
        key: &mut Vec<u8, B>,
    ) -> Result<Option<i32>, CedarError>
        //= An item's key can be written into a buffer instead. If that fails with `Memory`, the iteration is where it was. [with refused]
        ensures found { IfOk result (λ found. MatchOption found ((self.old ≡ []) × (self.new ≡ [])) (λ value. self.old ≡ (key.new.items, value) ∷ self.new)) }
        ensures refused { IfErr result (λ e. (e ≡ CedarError.Memory) × (self.new ≡ self.old) × (0 < length self.old)) }

        //= A call that writes a key into a caller's buffer fails only if that key is longer than the buffer's capacity: so a buffer that
        //  has room for it is enough. [also first_into, last_into; by KeyOutgrows]
        ensures full { OnErr result (KeyOutgrows (vec_capacity key.old) self.old) }

        //= Such a call doesn't lower the buffer's capacity. [also first_into, last_into]
        ensures capacity { vec_capacity key.old ≤ vec_capacity key.new }
    {
        let Some(next) = self.next else {
            return Ok(None);
        };
        if ends_at(self.end, next.slot) {
            return Ok(None);
        }
        match write_key(self.trie, self.start, next.slot, next.depth, key) {
            Ok(()) => {
                self.next = self.trie.next_numbered(next.slot, next.depth);
                Ok(Some(next.number))
            }
            Err(_) => Err(CedarError::Memory),
        }
    }
}

impl<'a, T: Walked, A: Allocator + Copy> Clone for RangeEntries<'a, T, A> {
    ghost is_clone = { λ it copy. copy ≡ it };

    ghost is_infallible = { λ _. ⊤ };

    fn clone(&self) -> Result<Self, AllocError> {
        Ok(RangeEntries {
            trie: self.trie,
            start: self.start,
            next: self.next,
            end: self.end,
            to: self.to,
            alloc: self.alloc,
        })
    }
}

impl<'a, T: Walked, A: Allocator + Copy> Iterator for RangeEntries<'a, T, A> {
    type Item = Result<(Vec<u8, A>, i32), CedarError>;

    ghost next_gives = { λ rest item later. MatchOption item ((rest ≡ []) × (later ≡ [])) (λ found. MatchResult found
        (λ entry. rest ≡ (entry.0.items, entry.1) ∷ later)
        (λ error. (error ≡ Memory) × (later ≡ []) × (0 < length rest))) };

    ghost remaining = { item_count (λ (rest : List Entry). rest) };

    fn next(&mut self) -> Option<Result<(Vec<u8, A>, i32), CedarError>> {
        let mut key = Vec::new(self.alloc);
        match self.next_into(&mut key) {
            Ok(Some(number)) => Some(Ok((key, number))),
            Ok(None) => None,
            Err(error) => {
                self.next = None;
                self.end = None;
                Some(Err(error))
            }
        }
    }

    fn size_hint(&self) -> (usize, Option<usize>)
        ensures lower { IsWithinCount result.0 (item_count (λ (rest : List Entry). rest) self.now) }
        ensures upper { IfSome result.1 (UpTo (item_count (λ (rest : List Entry). rest) self.now)) }

        //= The size hint of such an iteration is from 0 on.
        ensures hint { result ≡ (0, None) }
    {
        (0, None)
    }
}

impl<'a, T: Walked, A: Allocator + Copy> FusedIterator for RangeEntries<'a, T, A> {}

impl<L: Layout, const SLOTS: usize, A: Allocator + Copy> Trie<L, SLOTS, A> {
    /// The entries at keys that begin with a prefix, each key before its extensions and in iteration order, and no others. Each key is
    /// written for its item, into memory of the dictionary's own allocator; [`RangeEntries::next_into`] writes it into a buffer of the
    /// caller.
    ///
    /// ```
    /// cedar.build(&[("net", 7), ("ten", 2)])?;
    /// let mut entries = cedar.entries_with_prefix_bytes(b"t");
    /// let (key, value) = entries.next().ok_or("an entry")??;
    /// assert_eq!(rt; (key.as_slice(), value), (b"ten".as_slice(), 2));
    /// ```
    pub fn entries_with_prefix_bytes<'a>(&'a self, prefix: &'a [u8]) -> RangeEntries<'a, Self, A>
        //= `entries_with_prefix` gives the entries of the walk whose keys begin with the prefix, in its order, an item a call. An item may
        //  fail only with `Memory`, and a failed one is the last. [also entries_with_prefix, RangeEntries.next_gives; by entries_with]
        ensures { result ≡ entries_with self.now.state.tree prefix.now }
    {
        RangeEntries::with_prefix(self, prefix, self.table.allocator())
    }

    /// `entries_with_prefix_bytes` for a text prefix.
    ///
    /// ```
    /// cedar.build(&[("net", 7), ("ten", 2)])?;
    /// assert_eq!(rt; cedar.entries_with_prefix("n").count(), 1);
    /// ```
    pub fn entries_with_prefix<'a>(&'a self, prefix: &'a str) -> RangeEntries<'a, Self, A>
        ensures { result ≡ entries_with self.now.state.tree prefix.now }
    {
        self.entries_with_prefix_bytes(prefix.as_bytes())
    }

    /// The entries at a key and at those after it by bytes, in ascending order; None if the dictionary's labels don't ascend. It looks the
    /// key up once, and gives no entry before it. Keys are written as those of [`Trie::entries_with_prefix_bytes`].
    ///
    /// ```
    /// cedar.build(&[("net", 7), ("ten", 2)])?;
    /// let mut entries = cedar.entries_from_bytes(b"neu").ok_or("ascending labels")?;
    /// let (key, value) = entries.next().ok_or("an entry")??;
    /// assert_eq!(rt; (key.as_slice(), value), (b"ten".as_slice(), 2));
    /// ```
    pub fn entries_from_bytes<'a>(&'a self, key: &[u8]) -> Option<RangeEntries<'a, Self, A>>
        //= `entries_from` gives the entries at the key and after it by bytes in the same way, and returns None exactly if the order isn't
        //  ascending. [also entries_from, RangeEntries.next_gives; by entries_since]
        ensures { GivesRange self.now.state (entries_since self.now.state.tree key.now) result }
    {
        if !self.table.ordered() {
            return None;
        }
        Some(RangeEntries::since(self, key, self.table.allocator()))
    }

    /// `entries_from_bytes` for a text key.
    ///
    /// ```
    /// cedar.build(&[("net", 7), ("ten", 2)])?;
    /// let entries = cedar.entries_from("net").ok_or("ascending labels")?;
    /// assert_eq!(rt; entries.count(), 2);
    /// ```
    pub fn entries_from<'a>(&'a self, key: &str) -> Option<RangeEntries<'a, Self, A>>
        ensures { GivesRange self.now.state (entries_since self.now.state.tree key.now) result }
    {
        self.entries_from_bytes(key.as_bytes())
    }

    /// The entries at the keys from `from` on and before `to` by bytes, in ascending order; None if the dictionary's labels don't ascend.
    /// It looks both keys up once, and gives no entry before `from`, none at `to` and none after it.
    ///
    /// ```
    /// cedar.build(&[("net", 7), ("ten", 2)])?;
    /// let entries = cedar.range_bytes(b"net", b"ten").ok_or("ascending labels")?;
    /// assert_eq!(rt; entries.count(), 1);
    /// ```
    pub fn range_bytes<'a>(&'a self, from: &[u8], to: &'a [u8]) -> Option<RangeEntries<'a, Self, A>>
        //= `range` gives those of them before another key in the same way, and no entry if that key isn't above the first. It returns None
        //  exactly if the order isn't ascending. [also range, RangeEntries.next_gives; by entries_between]
        ensures { GivesBetween self.now.state from.now to.now result }
    {
        if self.table.ordered() {
            return Some(RangeEntries::between(self, from, to, self.table.allocator()));
        }
        None
    }

    /// `range_bytes` for text keys.
    ///
    /// ```
    /// cedar.build(&[("net", 7), ("ten", 2)])?;
    /// let entries = cedar.range("n", "u").ok_or("ascending labels")?;
    /// assert_eq!(rt; entries.count(), 2);
    /// ```
    pub fn range<'a>(&'a self, from: &str, to: &'a str) -> Option<RangeEntries<'a, Self, A>>
        ensures { GivesBetween self.now.state from.now to.now result }
    {
        self.range_bytes(from.as_bytes(), to.as_bytes())
    }
}
