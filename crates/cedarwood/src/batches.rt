//! Many keys changed in one call.

ghost use Rattle.std.specs.Prelude.{◌++◌, ◌≡◌, drop, IfErr, length, OnOk, take};
ghost use Rattle.cedarwood.specs.Words.{all_stored, entries_of, held_in_turn, IsErasures};
ghost use Rattle.cedarwood.specs.Words.{IsUpdates, keys_erased, keys_of};

use crate::{CedarError, Layout, Trie};
use std::alloc::Allocator;
use std::convert::AsSlice;

/// How many keys are looked up in step before they are changed.
pub(crate) const LANES: usize = 16;

/// The most slots of a table whose keys are changed without a look-up in step before that: at ten bytes a slot such a table takes about as
/// much memory as the caches of a processor's core hold, and the look-up would cost more than the waits that it saves.
pub const CACHED_SLOTS: usize = 131072;

/// Which pair of a batch was refused, and why. Those before it are stored.
//= `==` of two refusals is their equality. [by PartialEq]
#[derive(Clone, Debug, Drop, PartialEq, Eq)]
pub struct RefusedPair {
    /// The index of the pair, counted from 0.
    pub index: usize,
    /// The error of the pair's own update.
    pub error: CedarError,
}

impl<L: Layout, const SLOTS: usize, A: Allocator + Copy> Trie<L, SLOTS, A> {
    /// Stores some pairs as [`Trie::update_bytes`] does one after another: the last value of a key counts.
    ///
    /// If the table has more than [`CACHED_SLOTS`](crate::CACHED_SLOTS) slots, a few keys are looked up in step before they are stored, so
    /// that their waits for memory can overlap if the keys come in no order.
    ///
    /// ```
    /// let pairs: [(&[u8], i32); 2] = [(b"ten", 2), (b"net", 7)];
    /// cedar.update_batch(&pairs)?;
    /// assert_eq!(rt; cedar.len(), 2);
    /// ```
    ///
    /// # Errors
    /// As [`Trie::update_bytes`] of the first pair that is refused, with the index of that pair. The pairs before it are stored, it and
    /// those after it aren't.
    pub fn update_batch(&mut self, pairs: &[(&[u8], i32)]) -> Result<(), RefusedPair>
        //= `update_batch` does as many updates, one after another. A refused one is the last and is reported with its index. [by IsUpdates]
        ensures updates { IsUpdates L.kind SLOTS self.old self.new (entries_of pairs.now) result }

        //= So it stores all pairs in turn, or those before the refused one. [with refused]
        ensures stored { OnOk result (self.new.state ≡ all_stored self.old.state (entries_of pairs.now)) }
        ensures refused { IfErr result (λ refusal. self.new.state ≡ all_stored self.old.state (take refusal.index (entries_of pairs.now))) }

        //= `max_trial` and the search limit don't change. [with search_limit]
        ensures max_trial { self.new.max_trial ≡ self.old.max_trial }
        ensures search_limit { self.new.search_limit ≡ self.old.search_limit }
    {
        for index in 0..pairs.len() {
            if index % LANES == 0 {
                self.pass_in_step(&pairs[index..]);
            }
            let (key, value) = pairs[index];
            if let Err(error) = self.update_bytes(key, value) {
                return Err(RefusedPair { index, error });
            }
        }
        Ok(())
    }

    /// Looks up the keys of the first pairs in step, which brings to the processor what their updates read, unless the table is small.
    pub(crate) fn pass_in_step<K: AsSlice<u8>>(&self, pairs: &[(K, i32)]) {
        if self.node_capacity() <= CACHED_SLOTS {
            return;
        }
        let count = pairs.len().min(LANES);
        let mut keys: [&[u8]; LANES] = [&[]; LANES];
        for lane in 0..count {
            keys[lane] = pairs[lane].0.as_slice();
        }
        self.exact_match_search_batch(&keys[..count], &mut [None; LANES]);
    }

    /// Removes some keys as [`Trie::erase_bytes`] does one after another: `answers[i]` becomes whether `keys[i]` was held then, for as many
    /// keys as there are elements. Keys without an element aren't removed, and elements after the last key stay. It allocates nothing.
    ///
    /// If the table has more than [`CACHED_SLOTS`](crate::CACHED_SLOTS) slots, a few keys are looked up in step before they are removed, so
    /// that their waits for memory can overlap if the keys come in no order.
    ///
    /// ```
    /// cedar.update_bytes(b"net", 7)?;
    /// let keys: [&[u8]; 2] = [b"net", b"net"];
    /// let mut answers = [false; 2];
    /// cedar.erase_batch(&keys, &mut answers);
    /// assert_eq!(rt; answers, [true, false]);
    /// ```
    pub fn erase_batch(&mut self, keys: &[&[u8]], answers: &mut [bool])
        //= `erase_batch` does as many erasures, one after another, for as many keys as there are elements for results. [by IsErasures]
        ensures erasures { IsErasures self.old self.new (take (length answers.old) (keys_of keys.now)) (take (length keys.now) answers.new) }

        //= So each result is whether its key was held after the erasures before it. Places after the last key don't change. The tree is
        //  then what is left after all of these erasures. [with after]
        ensures answers { answers.new ≡ held_in_turn self.old.state (take (length answers.old) (keys_of keys.now)) ++ drop (length keys.now) answers.old }
        ensures after { self.new.state ≡ keys_erased self.old.state (take (length answers.old) (keys_of keys.now)) }

        //= It doesn't change the slots in use, the slots that there are, `max_trial`, and the search limit. [with max_trial, search_limit]
        ensures size { (self.new.size ≡ self.old.size) × (self.new.capacity ≡ self.old.capacity) }
        ensures max_trial { self.new.max_trial ≡ self.old.max_trial }
        ensures search_limit { self.new.search_limit ≡ self.old.search_limit }
    {
        let count = keys.len().min(answers.len());
        // Nothing that an erasure does makes slots.
        let is_large = self.node_capacity() > CACHED_SLOTS;
        for index in 0..count {
            if is_large && index % LANES == 0 {
                self.exact_match_search_batch(&keys[index..count], &mut [None; LANES]);
            }
            answers[index] = self.erase_bytes(keys[index]);
        }
    }
}
