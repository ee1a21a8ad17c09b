//! Two dictionaries: the entries of one stored in another, and those that another one lacks.

ghost use Rattle.std.specs.Prelude.{◌<◌, ◌∷◌, ◌≡◌, [], Err, IfErr, IfOk, length, ltb};
ghost use Rattle.std.specs.Prelude.{MatchOption, OnErr, OnOk};
ghost use Rattle.word_lists.specs.Words.{after_put, all_stored, BreaksOff, entries_missing};
ghost use Rattle.word_lists.specs.Words.{has_failed, holds_entry, IsWant, LinesOrFails};
ghost use Rattle.word_lists.specs.Words.{missing_lines, signed_line, StoresFirst, Writes};
ghost use Rattle.word_lists.specs.Words.{WritesBytes, WritesUpTo};

use crate::lines::{StoreError, store_error};
use crate::lists::next_entry;
use crate::word::write_entry;
use crate::write::{ListError, write_whole};
use cedarwood::{Layout, RangeEntries, Trie, Walked, Watched};
use std::alloc::Allocator;
use std::io::Write;

/// Stores the entries that an iteration has left in a dictionary, one after another. Each key is written into a buffer, instead of what
/// that held.
///
/// ```
/// let mut more = Cedar::new(rt.alloc())?;
/// more.build(&[("net", 7), ("ten", 2)])?;
/// cedar.update("net", 1)?;
/// let mut key = Vec::new(rt.alloc());
/// assert!(rt; store_entries(&mut cedar, more.entries_with_prefix(""), &mut key).is_ok());
/// assert_eq!(rt; (cedar.get("net"), cedar.get("ten")), (Some(7), Some(2)));
/// ```
///
/// # Errors
/// `Memory` if an allocation was refused, `SlotLimit` if no slot is left. Then the entries before are stored.
pub fn store_entries<
    L: Layout,
    const SLOTS: usize,
    T: Walked,
    A: Allocator + Copy,
    B: Allocator + Copy,
    C: Allocator,
>(
    trie: &mut Trie<L, SLOTS, A>,
    mut entries: RangeEntries<'_, T, B>,
    key: &mut Vec<u8, C>,
) -> Result<(), StoreError>
    //= Entries that are stored with `Ok` are all stored, one after another, and nothing else.
    ensures ok { OnOk result (trie.new.state ≡ all_stored trie.old.state entries.entry) }

    //= If that fails, for lack of memory or slots, the first entries are stored, and not all. [with want]
    ensures err { OnErr result (StoresFirst trie.old.state trie.new.state entries.entry) }
    ensures want { IfErr result IsWant }

    //= It fails with `SlotLimit` only if all slots that there may be are in use. `max_trial` doesn't change. [with max_trial]
    ensures limit { result ≡ Err StoreError.SlotLimit → trie.new.size ≡ SLOTS }
    ensures max_trial { trie.new.max_trial ≡ trie.old.max_trial }
{
    while let Some(value) = next_stored(&mut entries, key)? {
        store_pair(trie, key, value)?;
    }
    Ok(())
}

/// Stores a key with its number.
fn store_pair<L: Layout, const SLOTS: usize, A: Allocator + Copy>(
    trie: &mut Trie<L, SLOTS, A>,
    key: &[u8],
    value: i32,
) -> Result<(), StoreError>
    ensures ok { OnOk result (trie.new.state ≡ after_put trie.old.state key.now value) }
    ensures err { OnErr result (trie.new.state ≡ trie.old.state) }
    ensures want { IfErr result IsWant }
    ensures limit { result ≡ Err StoreError.SlotLimit → trie.new.size ≡ SLOTS }
    ensures max_trial { trie.new.max_trial ≡ trie.old.max_trial }
{
    match trie.update_bytes(key, value) {
        Ok(()) => Ok(()),
        Err(error) => Err(store_error(error)),
    }
}

/// The number of the next entry, whose key is written into a buffer.
fn next_stored<T: Walked, B: Allocator + Copy, C: Allocator>(
    entries: &mut RangeEntries<'_, T, B>,
    key: &mut Vec<u8, C>,
) -> Result<Option<i32>, StoreError>
    ensures found { IfOk result (λ found. MatchOption found ((entries.old ≡ []) × (entries.new ≡ [])) (λ value. entries.old ≡ (key.new.items, value) ∷ entries.new)) }
    ensures refused { IfErr result (λ e. (e ≡ StoreError.Memory) × (0 < length entries.old)) }
{
    match entries.next_into(key) {
        Ok(found) => Ok(found),
        Err(_) => Err(StoreError::Memory),
    }
}

/// Writes the line of each entry that an iteration has left and another dictionary doesn't hold with the same number, after a sign. Returns
/// whether there is one. Each key is written into a buffer, instead of what that held.
///
/// ```
/// let mut more = Cedar::new(rt.alloc())?;
/// more.build(&[("net", 7), ("ten", 2)])?;
/// cedar.update("net", 7)?;
/// let mut key = Vec::new(rt.alloc());
/// let mut writer = Watched::new(Vec::new(rt.alloc()));
/// assert!(rt; write_lacking(&mut writer, b"+", more.entries_with_prefix(""), &cedar, &mut key) == Ok(true));
/// assert_eq!(rt; writer.into_inner().as_slice(), b"+ten\t2\n".as_slice());
/// ```
///
/// # Errors
/// `Write` if the writer failed, `Memory` if the allocation of a key was refused.
pub fn write_lacking<
    L: Layout,
    const SLOTS: usize,
    T: Walked,
    A: Allocator + Copy,
    B: Allocator + Copy,
    C: Allocator,
    W: Write,
>(
    writer: &mut Watched<W>,
    sign: &[u8],
    mut entries: RangeEntries<'_, T, B>,
    other: &Trie<L, SLOTS, A>,
    key: &mut Vec<u8, C>,
) -> Result<bool, ListError>
    //= A list of the entries that another dictionary lacks, if it returns `Ok`, wrote the line of each entry of the iteration that the
    //  other one doesn't hold with the same number, after the sign and in the iteration's order, and nothing else. [by missing_lines]
    ensures ok { OnOk result (Writes W.contents writer.old writer.new (missing_lines sign.now other.now.state.tree entries.entry)) }

    //= It returns whether there is one.
    ensures any { IfOk result (λ any. any ≡ ltb 0 (length (entries_missing other.now.state.tree entries.entry))) }

    //= One that fails wrote a beginning of these lines, and not all if the writer failed. [with broken]
    ensures err { OnErr result (WritesUpTo W.contents writer.old writer.new (missing_lines sign.now other.now.state.tree entries.entry)) }
    ensures broken { result ≡ Err ListError.Write → BreaksOff W.contents writer.old writer.new (missing_lines sign.now other.now.state.tree entries.entry) }

    //= It fails with `Write` only if a call of the writer failed. With `Memory`, and if it returns `Ok`, none did.
    ensures faults { LinesOrFails (has_failed writer.old) (has_failed writer.new) result }
{
    let mut any = false;
    while let Some(value) = next_entry(&mut entries, key)? {
        any |= write_unless_held(writer, sign, key, value, other)?;
    }
    Ok(any)
}

/// Writes the line of an entry that a dictionary doesn't hold with the same number, after a sign. Returns whether it wrote it.
fn write_unless_held<L: Layout, const SLOTS: usize, A: Allocator + Copy, W: Write>(
    writer: &mut Watched<W>,
    sign: &[u8],
    key: &[u8],
    value: i32,
    other: &Trie<L, SLOTS, A>,
) -> Result<bool, ListError>
    ensures writes { WritesBytes W.contents ListError.Write writer.old writer.new (missing_lines sign.now other.now.state.tree ((key.now, value) ∷ [])) result }
    ensures any { IfOk result (λ any. any ≡ ltb 0 (length (entries_missing other.now.state.tree ((key.now, value) ∷ [])))) }
{
    if holds(other, key, value) {
        return Ok(false);
    }
    write_signed(writer, sign, key, value)?;
    Ok(true)
}

/// Whether a dictionary holds a key with this number.
fn holds<L: Layout, const SLOTS: usize, A: Allocator + Copy>(
    trie: &Trie<L, SLOTS, A>,
    key: &[u8],
    value: i32,
) -> bool
    ensures { result ≡ holds_entry trie.now.state.tree (key.now, value) }
{
    match trie.get_bytes(key) {
        Some(held) => held == value,
        None => false,
    }
}

/// Writes the line of an entry after a sign.
fn write_signed<W: Write>(
    writer: &mut Watched<W>,
    sign: &[u8],
    key: &[u8],
    value: i32,
) -> Result<(), ListError>
    ensures { WritesBytes W.contents ListError.Write writer.old writer.new (signed_line sign.now (key.now, value)) result }
{
    write_whole(writer, sign)?;
    write_entry(writer, key, value)
}
