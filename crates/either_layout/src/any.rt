//! What a dictionary of either layout is, and how one is made.

ghost use Rattle.std.specs.Prelude.{◌↔◌, ◌≡◌, [], Err, IfErr, IfOk, IfSome, IsTrue, None};
ghost use Rattle.either_layout.specs.Words.{entries_of, fault_from, first_fault, inner_dictionary};
ghost use Rattle.either_layout.specs.Words.{inner_layout, IsBuildShortage, IsEmpty, IsSorted};
ghost use Rattle.either_layout.specs.Words.{layout_for, most_slots, reduced_layout};

use cedarwood::{Cedar, CedarBuilder, CedarError, ReducedCedar};
use std::alloc::{AllocError, Global};

/// A dictionary of the default or of the reduced layout, in memory of the program's own allocator.
///
/// A contract sees the dictionary that it holds (`inner_dictionary`) and the layout of that (`inner_layout`).
#[derive(Drop)]
pub enum AnyCedar {
    /// One of the default layout.
    Default(Cedar<Global>),
    /// One of the reduced layout.
    Reduced(ReducedCedar<Global>),
}

impl AnyCedar {
    /// An empty dictionary with the settings of a builder, of the reduced layout or of the default one.
    ///
    /// # Errors
    /// `Memory` if an allocation was refused.
    #[tactic(auto, using(cedarwood::proofs::DictionaryLemmas::default_limit))]
    pub fn with(
        alloc: Global,
        is_reduced: bool,
        settings: CedarBuilder,
    ) -> Result<AnyCedar, CedarError>
        //= A new dictionary of either layout is empty and has the settings that are given. It fails only for lack of memory. [with refused;
        //  by IsEmpty]
        ensures made { IfOk result (λ a. IsEmpty settings (inner_dictionary a)) }
        ensures refused { IfErr result (λ e. e ≡ CedarError.Memory) }

        //= What is made is of the layout that was asked for. [also from_sorted_bytes, from_pairs_bytes, load_as]
        ensures layout { IfOk result (λ a. inner_layout a ≡ layout_for is_reduced) }
    {
        if is_reduced {
            Ok(AnyCedar::Reduced(ReducedCedar::with(alloc, settings)?))
        } else {
            Ok(AnyCedar::Default(Cedar::with(alloc, settings)?))
        }
    }

    /// A dictionary of some pairs, whose keys ascend by bytes, with the settings of a builder, of the reduced layout or of the default one.
    ///
    /// # Errors
    /// As [`Trie::from_sorted_bytes_with`](cedarwood::Trie::from_sorted_bytes_with).
    #[tactic(auto, using(cedarwood::proofs::DictionaryLemmas::default_limit))]
    pub fn from_sorted_bytes(
        alloc: Global,
        is_reduced: bool,
        settings: CedarBuilder,
        pairs: &[(&[u8], i32)],
    ) -> Result<AnyCedar, CedarError>
        //= A build of sorted pairs in either layout returns their first fault; otherwise the dictionary that `from_sorted_bytes_with` makes
        //  of that layout, or what that lacks. [with made, refused; by IsSorted]
        ensures faulty { IfSome (fault_from 0 [] (entries_of pairs.now)) (λ e. result ≡ Err e) }
        ensures made { IfOk result (λ a. IsSorted (inner_layout a) settings (entries_of pairs.now) (inner_dictionary a)) }
        ensures refused { fault_from 0 [] (entries_of pairs.now) ≡ None → IfErr result (λ e. IsBuildShortage most_slots (entries_of pairs.now) e) }
        ensures layout { IfOk result (λ a. inner_layout a ≡ layout_for is_reduced) }
    {
        if is_reduced {
            match ReducedCedar::from_sorted_bytes_with(alloc, settings, pairs) {
                Ok(cedar) => Ok(AnyCedar::Reduced(cedar)),
                Err(error) => Err(error),
            }
        } else {
            match Cedar::from_sorted_bytes_with(alloc, settings, pairs) {
                Ok(cedar) => Ok(AnyCedar::Default(cedar)),
                Err(error) => Err(error),
            }
        }
    }

    /// A dictionary of some pairs in any order, with the settings of a builder, of the reduced layout or of the default one: the last value
    /// of a key counts.
    ///
    /// # Errors
    /// As [`Trie::from_pairs_bytes_with`](cedarwood::Trie::from_pairs_bytes_with).
    #[tactic(auto, using(cedarwood::proofs::DictionaryLemmas::default_limit))]
    pub fn from_pairs_bytes(
        alloc: Global,
        is_reduced: bool,
        settings: CedarBuilder,
        pairs: &[(&[u8], i32)],
    ) -> Result<AnyCedar, CedarError>
        //= A build of pairs in any order returns the fault of the first pair that has one; otherwise the dictionary that
        //  `from_pairs_bytes_with` makes of that layout, or what that lacks. [with made, refused; by IsSorted]
        ensures faulty { IfSome (first_fault (entries_of pairs.now)) (λ e. result ≡ Err e) }
        ensures made { IfOk result (λ a. IsSorted (inner_layout a) settings (entries_of pairs.now) (inner_dictionary a)) }
        ensures refused { first_fault (entries_of pairs.now) ≡ None → IfErr result (λ e. IsBuildShortage most_slots (entries_of pairs.now) e) }
        ensures layout { IfOk result (λ a. inner_layout a ≡ layout_for is_reduced) }
    {
        if is_reduced {
            match ReducedCedar::from_pairs_bytes_with(alloc, settings, pairs) {
                Ok(cedar) => Ok(AnyCedar::Reduced(cedar)),
                Err(error) => Err(error),
            }
        } else {
            match Cedar::from_pairs_bytes_with(alloc, settings, pairs) {
                Ok(cedar) => Ok(AnyCedar::Default(cedar)),
                Err(error) => Err(error),
            }
        }
    }

    /// Whether the dictionary is of the reduced layout.
    #[must_use]
    pub fn is_reduced(&self) -> bool
        //= `is_reduced` returns whether the dictionary is of the reduced layout.
        ensures { IsTrue result ↔ (inner_layout self.now ≡ reduced_layout) }
    {
        match self {
            AnyCedar::Default(_) => false,
            AnyCedar::Reduced(_) => true,
        }
    }
}

/// A copy has the same layout, and an equal dictionary.
impl Clone for AnyCedar {
    //= A copy of a dictionary of either layout is equal to it in all that a contract sees.
    ghost is_clone = { λ any copy. copy ≡ any };

    fn clone(&self) -> Result<AnyCedar, AllocError> {
        match self {
            AnyCedar::Default(cedar) => Ok(AnyCedar::Default(cedar.clone()?)),
            AnyCedar::Reduced(cedar) => Ok(AnyCedar::Reduced(cedar.clone()?)),
        }
    }
}
