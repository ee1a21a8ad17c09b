//! The test of a sorted input, and a dictionary made of one.

ghost use Rattle.std.specs.Prelude.{◌<◌, ◌≡◌, ◌≢◌, ◌≤◌, [], get_or, IfSome, IsOk};
ghost use Rattle.std.specs.Prelude.{IsTrue, length, None, OnOk, ℕ};
ghost use Rattle.cedarwood.specs.Words.{AreBytes, entries_by, fault_behind, fault_from};
ghost use Rattle.cedarwood.specs.Words.{fault_of_order, HasNoNul, IsInRange, IsLimit};
ghost use Rattle.cedarwood.specs.Words.{IsSharedFront, IsSortedBuild, key_at, Less, nat_cmp};
ghost use Rattle.cedarwood.specs.Words.{slice_cmp};

use crate::builder::CedarBuilder;
use crate::pair::check_pair;
use crate::trie::Trie;
use crate::{CedarError, Layout, MAX_VALUE, MIN_VALUE};
use cedar_bulk::build_sorted;
use std::alloc::Allocator;
use std::cmp::Ordering;
use std::convert::AsSlice;

/// Tests some pairs, one after another: each by itself, and then its key against the one before it. Keys are bytes or texts.
pub(crate) fn check_sorted<K: AsSlice<u8>>(pairs: &[(K, i32)]) -> Result<(), CedarError>
    ensures faulty { IfSome (fault_from 0 [] (entries_by K.items pairs.now)) (λ e. result ≡ Err e) }
    ensures sound { fault_from 0 [] (entries_by K.items pairs.now) ≡ None → IsOk result }
    ensures bytes { OnOk result (AreBytes (entries_by K.items pairs.now)) }
{
    for index in 0..pairs.len() {
        let before = key_before(pairs, index);
        check_behind(before, &pairs[index], index)?;
    }
    Ok(())
}

/// Tests a pair by itself, and then its key against the one before it. Nearly all pairs have no fault, so that is tested first
/// and quickly.
fn check_behind<K: AsSlice<u8>>(
    before: &[u8],
    pair: &(K, i32),
    index: usize,
) -> Result<(), CedarError>
    requires { HasNoNul before.now }
    ensures faulty { IfSome (fault_behind index before.now (K.items pair.now.0) pair.now.1) (λ e. result ≡ Err e) }
    ensures sound { fault_behind index before.now (K.items pair.now.0) pair.now.1 ≡ None → IsOk result }
    ensures bytes { OnOk result ((i : ℕ) → get_or (K.items pair.now.0) i 0 < 256) }
{
    let key = pair.0.as_slice();
    if is_in_range(pair.1) && goes_behind(before, key) {
        return Ok(());
    }
    check_pair(key, pair.1)?;
    check_order(before, key, index)
}

/// Whether a value can be stored.
fn is_in_range(value: i32) -> bool
    ensures { IsTrue result → IsInRange value }
{
    (MIN_VALUE..=MAX_VALUE).contains(&value)
}

/// Whether a key is above the one before it, which has no byte 0, and has none either. What the two share is read once.
fn goes_behind(before: &[u8], key: &[u8]) -> bool
    requires { HasNoNul before.now }
    ensures above { IsTrue result → slice_cmp nat_cmp before.now key.now ≡ Less }
    ensures clean { IsTrue result → HasNoNul key.now }
    ensures some { IsTrue result → 0 < length key.now }
    ensures bytes { (i : ℕ) → get_or key.now i 0 < 256 }
{
    let shared = shared_front(before, key);
    if shared == key.len() {
        return false;
    }
    if shared < before.len() && key[shared] <= before[shared] {
        return false;
    }
    has_no_nul_from(key, shared)
}

/// How many first bytes two keys share.
fn shared_front(before: &[u8], key: &[u8]) -> usize
    ensures { IsSharedFront before.now key.now result }
{
    let both = before.len().min(key.len());
    let mut shared = 0;
    while shared < both && before[shared] == key[shared] {
        shared += 1;
    }
    shared
}

/// Whether no byte of a key is 0 from a position on. Mostly a few bytes are left, which are read without a loop.
fn has_no_nul_from(key: &[u8], start: usize) -> bool
    requires { start < length key.now }
    ensures { IsTrue result → (i : ℕ) → start ≤ i → i < length key.now → get_or key.now i 0 ≢ 0 }
{
    let left = key.len() - start;
    if left <= 3 {
        return (key[start] != 0) & (key[start + left / 2] != 0) & (key[key.len() - 1] != 0);
    }
    for index in start..key.len() {
        if key[index] == 0 {
            return false;
        }
    }
    true
}

/// The key before the one at an index, or no byte.
fn key_before<K: AsSlice<u8>>(pairs: &[(K, i32)], index: usize) -> &[u8]
    requires { index ≤ length pairs.now }
    ensures { result.now ≡ key_at [] (entries_by K.items pairs.now) index }
{
    if index == 0 {
        return &[];
    }
    pairs[index - 1].0.as_slice()
}

/// Tests that a key is above the one before it.
fn check_order(before: &[u8], key: &[u8], index: usize) -> Result<(), CedarError>
    ensures faulty { IfSome (fault_of_order index (slice_cmp nat_cmp before.now key.now)) (λ e. result ≡ Err e) }
    ensures sound { fault_of_order index (slice_cmp nat_cmp before.now key.now) ≡ None → IsOk result }
    ensures bytes { (i : ℕ) → get_or key.now i 0 < 256 }
{
    match before.cmp(key) {
        Ordering::Less => Ok(()),
        Ordering::Equal => Err(CedarError::DuplicateKey { index }),
        Ordering::Greater => Err(CedarError::KeysNotSorted { index }),
    }
}

impl<L: Layout, const SLOTS: usize, A: Allocator + Copy> Trie<L, SLOTS, A> {
    /// A dictionary of some pairs, whose keys ascend by bytes, with the settings of a builder. Keys are bytes or texts. It allocates
    /// nothing before all pairs are tested.
    pub(crate) fn from_sorted_keys<K: AsSlice<u8>>(
        alloc: A,
        builder: CedarBuilder,
        pairs: &[(K, i32)],
    ) -> Result<Self, CedarError>
        requires limit { IsLimit SLOTS }
        ensures built { IsSortedBuild L.kind SLOTS builder (entries_by K.items pairs.now) result }
    {
        check_sorted(pairs)?;
        Ok(Trie {
            table: build_sorted(alloc, builder.ordered, builder.max_trial, pairs)?,
            search_limit: builder.search_limit,
        })
    }
}
