//! Many pairs stored at once.

ghost use Rattle.std.specs.Prelude.{◌<◌, ◌≡◌, get_or, IfErr, IfSome, IsOk, IsSome, None, OnOk, ℕ};
ghost use Rattle.cedarwood.specs.Words.{all_stored, AreBytes, entries_by, entries_of, fault};
ghost use Rattle.cedarwood.specs.Words.{first_fault, IsBuild, IsRefusedBuild};

use crate::batches::LANES;
use crate::pair::check_pair;
use crate::{CedarError, Layout, Trie};
use std::alloc::Allocator;
use std::convert::AsSlice;

impl<L: Layout, const SLOTS: usize, A: Allocator + Copy> Trie<L, SLOTS, A> {
    /// Stores some pairs, one after another: the last value of a key counts. All are tested first. A few keys are looked up in step before
    /// they are stored, as by [`Trie::update_batch`].
    ///
    /// ```
    /// let pairs: [(&[u8], i32); 2] = [(b"ten", 2), (b"net", 7)];
    /// cedar.build_bytes(&pairs)?;
    /// assert_eq!(rt; cedar.len(), 2);
    /// ```
    ///
    /// # Errors
    /// The fault of the first pair that has one, as of [`Trie::update_bytes`]; then nothing has changed. Without one, `Memory` if an
    /// allocation was refused and `SlotLimit` if the limit of slots allows no further block: then the pairs before the refused one are
    /// stored.
    pub fn build_bytes(&mut self, pairs: &[(&[u8], i32)]) -> Result<(), CedarError>
        //= A build returns the fault of the first pair that has one, and then nothing has changed. [with unchanged; also build]
        ensures faulty { IfSome (first_fault (entries_of pairs.now)) (λ e. result ≡ Err e) }
        ensures unchanged { IsSome (first_fault (entries_of pairs.now)) → self.new ≡ self.old }

        //= Otherwise it does as many updates, one after another, and a refused one is the last. [also build; by IsBuild]
        ensures updates { first_fault (entries_of pairs.now) ≡ None → IsBuild L.kind SLOTS self.old (entries_of pairs.now) result self.new }

        //= So it stores all pairs in turn; or it fails for lack of memory or slots, as an update does, and the pairs before one whose key
        //  isn't held then are stored. [with refused; also build; by IsRefusedBuild]
        ensures stored { OnOk result (self.new.state ≡ all_stored self.old.state (entries_of pairs.now)) }
        ensures refused { first_fault (entries_of pairs.now) ≡ None → IfErr result (IsRefusedBuild SLOTS self.old self.new (entries_of pairs.now)) }

        //= `max_trial` and the search limit don't change. [with search_limit; also build]
        ensures max_trial { self.new.max_trial ≡ self.old.max_trial }
        ensures search_limit { self.new.search_limit ≡ self.old.search_limit }
    {
        self.store_all(pairs)
    }

    /// `build_bytes` for text keys.
    ///
    /// ```
    /// cedar.build(&[("net", 7), ("net", 8)])?;
    /// assert_eq!(rt; cedar.exact_match_search("net"), Some((8, 3)));
    /// ```
    ///
    /// # Errors
    /// As [`Trie::build_bytes`].
    pub fn build(&mut self, pairs: &[(&str, i32)]) -> Result<(), CedarError>
        ensures faulty { IfSome (first_fault (entries_of pairs.now)) (λ e. result ≡ Err e) }
        ensures unchanged { IsSome (first_fault (entries_of pairs.now)) → self.new ≡ self.old }
        ensures updates { first_fault (entries_of pairs.now) ≡ None → IsBuild L.kind SLOTS self.old (entries_of pairs.now) result self.new }
        ensures stored { OnOk result (self.new.state ≡ all_stored self.old.state (entries_of pairs.now)) }
        ensures refused { first_fault (entries_of pairs.now) ≡ None → IfErr result (IsRefusedBuild SLOTS self.old self.new (entries_of pairs.now)) }
        ensures max_trial { self.new.max_trial ≡ self.old.max_trial }
        ensures search_limit { self.new.search_limit ≡ self.old.search_limit }
    {
        self.store_all(pairs)
    }

    fn store_all<K: AsSlice<u8>>(&mut self, pairs: &[(K, i32)]) -> Result<(), CedarError>
        ensures faulty { IfSome (first_fault (entries_by K.items pairs.now)) (λ e. result ≡ Err e) }
        ensures unchanged { IsSome (first_fault (entries_by K.items pairs.now)) → self.new ≡ self.old }
        ensures updates { first_fault (entries_by K.items pairs.now) ≡ None → IsBuild L.kind SLOTS self.old (entries_by K.items pairs.now) result self.new }
    {
        check_pairs(pairs)?;
        for index in 0..pairs.len() {
            if index % LANES == 0 {
                self.pass_in_step(&pairs[index..]);
            }
            let pair = &pairs[index];
            self.update_bytes(pair.0.as_slice(), pair.1)?;
        }
        Ok(())
    }
}

/// Tests some pairs, one after another.
pub(crate) fn check_pairs<K: AsSlice<u8>>(pairs: &[(K, i32)]) -> Result<(), CedarError>
    ensures faulty { IfSome (first_fault (entries_by K.items pairs.now)) (λ e. result ≡ Err e) }
    ensures sound { first_fault (entries_by K.items pairs.now) ≡ None → IsOk result }
    ensures bytes { OnOk result (AreBytes (entries_by K.items pairs.now)) }
{
    for index in 0..pairs.len() {
        check_keyed(&pairs[index])?;
    }
    Ok(())
}

/// Tests a pair, whose key is bytes or a text.
fn check_keyed<K: AsSlice<u8>>(pair: &(K, i32)) -> Result<(), CedarError>
    ensures faulty { IfSome (fault (K.items pair.now.0) pair.now.1) (λ e. result ≡ Err e) }
    ensures sound { fault (K.items pair.now.0) pair.now.1 ≡ None → IsOk result }
    ensures bytes { (i : ℕ) → get_or (K.items pair.now.0) i 0 < 256 }
{
    check_pair(pair.0.as_slice(), pair.1)
}
