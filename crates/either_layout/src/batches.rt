//! Many pairs stored, many keys erased and many looked up, in one call.

ghost use Rattle.std.specs.Prelude.{◌++◌, ◌≡◌, drop, Err, IfErr, IfSome, IsSome, length, map, None};
ghost use Rattle.std.specs.Prelude.{OnOk, take};
ghost use Rattle.either_layout.specs.Words.{all_stored, entries_of, exact, first_fault};
ghost use Rattle.either_layout.specs.Words.{HasSameSize, held_in_turn, inner_dictionary};
ghost use Rattle.either_layout.specs.Words.{inner_layout, IsBuild, IsErasures, IsRefusedBuild};
ghost use Rattle.either_layout.specs.Words.{IsUpdates, keys_erased, keys_of, most_slots};

use crate::{AnyCedar, on_layout};
use cedarwood::{CedarError, RefusedPair};

impl AnyCedar {
    /// Stores some pairs, one after another: the last value of a key counts. All are tested first.
    ///
    /// # Errors
    /// As [`Trie::build_bytes`](cedarwood::Trie::build_bytes): after a pair's fault nothing has changed, after another error the pairs
    /// before the refused one are stored.
    pub fn build_bytes(&mut self, pairs: &[(&[u8], i32)]) -> Result<(), CedarError>
        //= A build in either layout returns the fault of the first pair that has one, and then nothing has changed. [with unchanged]
        ensures faulty { IfSome (first_fault (entries_of pairs.now)) (λ e. result ≡ Err e) }
        ensures unchanged { IsSome (first_fault (entries_of pairs.now)) → self.new ≡ self.old }

        //= Otherwise it does as many updates of the dictionary there, and stores all pairs in turn, or those before a refused one. [with
        //  stored, refused; by IsBuild, IsRefusedBuild]
        ensures updates { first_fault (entries_of pairs.now) ≡ None
            → IsBuild (inner_layout self.old) most_slots (inner_dictionary self.old) (entries_of pairs.now) result (inner_dictionary self.new) }
        ensures stored { OnOk result ((inner_dictionary self.new).state ≡ all_stored (inner_dictionary self.old).state (entries_of pairs.now)) }
        ensures refused { first_fault (entries_of pairs.now) ≡ None
            → IfErr result (IsRefusedBuild most_slots (inner_dictionary self.old) (inner_dictionary self.new) (entries_of pairs.now)) }

        //= Calls of many pairs or keys don't change the settings. [with search_limit; also update_batch, erase_batch]
        ensures max_trial { (inner_dictionary self.new).max_trial ≡ (inner_dictionary self.old).max_trial }
        ensures search_limit { (inner_dictionary self.new).search_limit ≡ (inner_dictionary self.old).search_limit }
        ensures layout { inner_layout self.new ≡ inner_layout self.old }
    {
        on_layout!(self, cedar => cedar.build_bytes(pairs))
    }

    /// Stores some pairs as `update_bytes` does one after another: the last value of a key counts.
    ///
    /// # Errors
    /// As `update_bytes` of the first pair that is refused, with the index of that pair. The pairs before it are stored, it and those after
    /// it aren't.
    pub fn update_batch(&mut self, pairs: &[(&[u8], i32)]) -> Result<(), RefusedPair>
        //= `update_batch` of either layout does as many updates of the dictionary there, and stores all pairs in turn, or those before the
        //  refused one. [with stored, refused; by IsUpdates]
        ensures updates { IsUpdates (inner_layout self.old) most_slots (inner_dictionary self.old) (inner_dictionary self.new) (entries_of pairs.now) result }
        ensures stored { OnOk result ((inner_dictionary self.new).state ≡ all_stored (inner_dictionary self.old).state (entries_of pairs.now)) }
        ensures refused { IfErr result (λ refusal. (inner_dictionary self.new).state ≡ all_stored (inner_dictionary self.old).state (take refusal.index (entries_of pairs.now))) }
        ensures max_trial { (inner_dictionary self.new).max_trial ≡ (inner_dictionary self.old).max_trial }
        ensures search_limit { (inner_dictionary self.new).search_limit ≡ (inner_dictionary self.old).search_limit }
        ensures layout { inner_layout self.new ≡ inner_layout self.old }
    {
        on_layout!(self, cedar => cedar.update_batch(pairs))
    }

    /// Removes some keys as `erase_bytes` does one after another: `answers[i]` becomes whether `keys[i]` was held then, for as many keys as
    /// there are elements. Keys without an element aren't removed, and elements after the last key stay. It allocates nothing.
    pub fn erase_batch(&mut self, keys: &[&[u8]], answers: &mut [bool])
        //= `erase_batch` of either layout does as many erasures in the dictionary there, for as many keys as there are elements for results.
        //  [with answers, after, size; by IsErasures]
        ensures erasures { IsErasures (inner_dictionary self.old) (inner_dictionary self.new) (take (length answers.old) (keys_of keys.now)) (take (length keys.now) answers.new) }
        ensures answers { answers.new ≡ held_in_turn (inner_dictionary self.old).state (take (length answers.old) (keys_of keys.now)) ++ drop (length keys.now) answers.old }
        ensures after { (inner_dictionary self.new).state ≡ keys_erased (inner_dictionary self.old).state (take (length answers.old) (keys_of keys.now)) }
        ensures size { HasSameSize (inner_dictionary self.old) (inner_dictionary self.new) }
        ensures max_trial { (inner_dictionary self.new).max_trial ≡ (inner_dictionary self.old).max_trial }
        ensures search_limit { (inner_dictionary self.new).search_limit ≡ (inner_dictionary self.old).search_limit }
        ensures layout { inner_layout self.new ≡ inner_layout self.old }
    {
        on_layout!(self, cedar => cedar.erase_batch(keys, answers))
    }

    /// Looks up many keys: `answers[i]` becomes what `exact_match_search_bytes` returns for `keys[i]`, for as many keys as there are
    /// elements; elements after the last key stay as they are. It allocates nothing.
    pub fn exact_match_search_batch(&self, keys: &[&[u8]], answers: &mut [Option<(i32, usize)>])
        //= Look-ups of many keys in either layout: result i is `exact` of the tree and key i, for as many keys as there are elements.
        ensures { answers.new ≡ map (exact (inner_dictionary self.now).state.tree) (take (length answers.old) (keys_of keys.now)) ++ drop (length keys.now) answers.old }
    {
        on_layout!(self, cedar => cedar.exact_match_search_batch(keys, answers))
    }
}
