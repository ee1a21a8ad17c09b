//! The settings of a dictionary.

ghost use Rattle.std.specs.Prelude.{◌↔◌, ◌≡◌, ◌≤ℤ◌, IfErr, IfOk, IsOk, pos, true};

use crate::CedarError;
use crate::memory::fits;
use crate::sorted::check_sorted;
use crate::trie::{Cedar, ReducedCedar, Trie};
use std::alloc::Allocator;

/// The settings with which a dictionary is made: whether the labels of each node ascend, how many failed searches for a place
/// close a block of slots, and how many blocks one search tries at most.
///
/// ```
/// let builder = CedarBuilder::new().ordered(false).max_trial(3)?;
/// let cedar = builder.build(rt.alloc())?;
/// ```
//= `==` of two builders is their equality, and a caller's proof can use it. [by PartialEq]
#[derive(Clone, Copy, Debug, PartialEq, Eq)]
pub struct CedarBuilder {
    pub(crate) ordered: bool,
    pub(crate) max_trial: i32,
    pub(crate) search_limit: usize,
    ghost tried: { pos 1 ≤ℤ max_trial },
}

impl CedarBuilder {
    ghost use Rattle.cedarwood.specs.Words.{CedarFitsInMemory, default_layout, entries_of, IsNew};
    ghost use Rattle.cedarwood.specs.Words.{IsSortedBuild, most_slots, no_search_limit};
    ghost use Rattle.cedarwood.specs.Words.{reduced_layout, ReducedFitsInMemory};

    /// Labels ascend, one failed search closes a block, and one search may try all blocks.
    ///
    /// ```
    /// let cedar = CedarBuilder::new().build(rt.alloc())?;
    /// ```
    pub fn new() -> Self
        //= A builder has the settings that its calls name; by default labels ascend, one failed search closes a block, and one search may
        //  try 2^64 - 1 blocks, so all. [with max_trial, search_limit; also ordered, max_trial, search_limit, builder]
        ensures ordered { result.ordered ≡ true }
        ensures max_trial { result.max_trial ≡ pos 1 }
        ensures search_limit { result.search_limit ≡ no_search_limit }
    {
        CedarBuilder {
            ordered: true,
            max_trial: 1,
            search_limit: usize::MAX,
        }
    }

    /// Sets whether the labels of each node ascend. If they don't, a new label goes before the other ones.
    ///
    /// ```
    /// let builder = CedarBuilder::new().ordered(false);
    /// let cedar = builder.build(rt.alloc())?;
    /// ```
    #[must_use]
    pub fn ordered(self, ordered: bool) -> Self
        ensures ordered { result.ordered ≡ ordered }
        ensures max_trial { result.max_trial ≡ self.max_trial }
        ensures search_limit { result.search_limit ≡ self.search_limit }
    {
        CedarBuilder {
            ordered,
            max_trial: self.max_trial,
            search_limit: self.search_limit,
        }
    }

    /// Sets how many failed searches close a block. More of them may pack the slots closer, for more time; no result depends on it, as long
    /// as nothing is refused for memory or slots.
    ///
    /// ```
    /// assert!(rt; CedarBuilder::new().max_trial(0).is_err());
    /// let builder = CedarBuilder::new().max_trial(3)?;
    /// ```
    ///
    /// # Errors
    /// `InvalidMaxTrial` if the number is 0 or less.
    pub fn max_trial(self, max_trial: i32) -> Result<Self, CedarError>
        ensures ordered { IfOk result (λ builder. builder.ordered ≡ self.ordered) }
        ensures max_trial { IfOk result (λ builder. builder.max_trial ≡ max_trial) }
        ensures search_limit { IfOk result (λ builder. builder.search_limit ≡ self.search_limit) }

        //= A `max_trial` is accepted exactly if it is 1 or more, and otherwise refused with an error that has it. [with tested]
        ensures refused { IfErr result (λ e. e ≡ CedarError.InvalidMaxTrial max_trial) }
        ensures tested { IsOk result ↔ (pos 1 ≤ℤ max_trial) }
    {
        if max_trial <= 0 {
            return Err(CedarError::InvalidMaxTrial { value: max_trial });
        }
        Ok(CedarBuilder {
            ordered: self.ordered,
            max_trial,
            search_limit: self.search_limit,
        })
    }

    /// Sets how many blocks one search for places tries at most, as [`Trie::set_search_limit`] does for a dictionary that exists. A build
    /// from pairs isn't bounded by it, but what is stored later is.
    ///
    /// ```
    /// let builder = CedarBuilder::new().search_limit(64);
    /// let cedar = builder.build(rt.alloc())?;
    /// assert_eq!(rt; cedar.search_limit(), 64);
    /// ```
    #[must_use]
    pub fn search_limit(self, blocks: usize) -> Self
        ensures ordered { result.ordered ≡ self.ordered }
        ensures max_trial { result.max_trial ≡ self.max_trial }
        ensures search_limit { result.search_limit ≡ blocks }
    {
        CedarBuilder {
            ordered: self.ordered,
            max_trial: self.max_trial,
            search_limit: blocks,
        }
    }

    /// An empty dictionary with these settings. It allocates from `alloc`.
    ///
    /// ```
    /// let builder = CedarBuilder::new().max_trial(3)?;
    /// let cedar = builder.build(rt.alloc())?;
    /// assert!(rt; cedar.is_empty());
    /// ```
    ///
    /// # Errors
    /// `Memory` if an allocation was refused.
    pub fn build<A: Allocator + Copy>(self, alloc: A) -> Result<Cedar<A>, CedarError>
        //= A new dictionary is empty and unmarked, has these settings and 256 slots; making it fails only with `Memory`. [also with,
        //  Trie::new, build_reduced; by IsNew, tree, unmarked, ordered, max_trial, search_limit, size]
        ensures made { IsNew self result }

        // For calls on it in a function that is generic in the allocator.
        ensures fits { IfOk result (λ _. CedarFitsInMemory A.row A.Allocator) }
    {
        let place: Option<Cedar<A>> = None;
        let has_room = fits(&place);
        match place {
            Some(cedar) => Ok(cedar),
            None if has_room => Trie::with(alloc, self),
            None => Err(CedarError::Memory),
        }
    }

    /// A dictionary of some pairs, whose keys ascend by bytes, with these settings. It allocates from `alloc`.
    ///
    /// ```
    /// let pairs: [(&[u8], i32); 2] = [(b"net", 7), (b"ten", 2)];
    /// let cedar = CedarBuilder::new().from_sorted_bytes(rt.alloc(), &pairs)?;
    /// assert_eq!(rt; cedar.len(), 2);
    /// ```
    ///
    /// # Errors
    /// The first fault of the input: each pair's own of `EmptyKey`, `NulByte` and `InvalidValue`, in this order, and then `DuplicateKey` or
    /// `KeysNotSorted` if its key isn't above the one before it. Without one, `Memory` if an allocation was refused, and `SlotLimit` if the
    /// limit of slots allows no further block.
    pub fn from_sorted_bytes<A: Allocator + Copy>(
        self,
        alloc: A,
        pairs: &[(&[u8], i32)],
    ) -> Result<Cedar<A>, CedarError>
        ensures built { IsSortedBuild default_layout most_slots self (entries_of pairs.now) result }
        ensures fits { IfOk result (λ _. CedarFitsInMemory A.row A.Allocator) }
    {
        let place: Option<Cedar<A>> = None;
        let has_room = fits(&place);
        match place {
            Some(cedar) => Ok(cedar),
            None if has_room => Trie::from_sorted_bytes_with(alloc, self, pairs),
            None => {
                check_sorted(pairs)?;
                Err(CedarError::Memory)
            }
        }
    }

    /// `from_sorted_bytes` for text keys.
    ///
    /// ```
    /// let refused = CedarBuilder::new().from_sorted(rt.alloc(), &[("ten", 2), ("net", 7)]);
    /// assert!(rt; refused.is_err());
    /// ```
    ///
    /// # Errors
    /// As [`CedarBuilder::from_sorted_bytes`].
    pub fn from_sorted<A: Allocator + Copy>(
        self,
        alloc: A,
        pairs: &[(&str, i32)],
    ) -> Result<Cedar<A>, CedarError>
        ensures built { IsSortedBuild default_layout most_slots self (entries_of pairs.now) result }
        ensures fits { IfOk result (λ _. CedarFitsInMemory A.row A.Allocator) }
    {
        let place: Option<Cedar<A>> = None;
        let has_room = fits(&place);
        match place {
            Some(cedar) => Ok(cedar),
            None if has_room => Trie::from_sorted_with(alloc, self, pairs),
            None => {
                check_sorted(pairs)?;
                Err(CedarError::Memory)
            }
        }
    }

    /// `build`, of the dictionary of fewer slots.
    ///
    /// ```
    /// let builder = CedarBuilder::new().max_trial(3)?;
    /// let small = builder.build_reduced(rt.alloc())?;
    /// assert!(rt; small.is_empty());
    /// ```
    ///
    /// # Errors
    /// `Memory` if an allocation was refused.
    pub fn build_reduced<A: Allocator + Copy>(self, alloc: A) -> Result<ReducedCedar<A>, CedarError>
        ensures made { IsNew self result }
        ensures fits { IfOk result (λ _. ReducedFitsInMemory A.row A.Allocator) }
    {
        let place: Option<ReducedCedar<A>> = None;
        let has_room = fits(&place);
        match place {
            Some(cedar) => Ok(cedar),
            None if has_room => ReducedCedar::with(alloc, self),
            None => Err(CedarError::Memory),
        }
    }

    /// `from_sorted_bytes`, of the dictionary of fewer slots.
    ///
    /// ```
    /// let pairs: [(&[u8], i32); 2] = [(b"net", 7), (b"ten", 2)];
    /// let small = CedarBuilder::new().from_sorted_bytes_reduced(rt.alloc(), &pairs)?;
    /// assert_eq!(rt; small.len(), 2);
    /// ```
    ///
    /// # Errors
    /// As [`CedarBuilder::from_sorted_bytes`].
    pub fn from_sorted_bytes_reduced<A: Allocator + Copy>(
        self,
        alloc: A,
        pairs: &[(&[u8], i32)],
    ) -> Result<ReducedCedar<A>, CedarError>
        ensures built { IsSortedBuild reduced_layout most_slots self (entries_of pairs.now) result }
        ensures fits { IfOk result (λ _. ReducedFitsInMemory A.row A.Allocator) }
    {
        let place: Option<ReducedCedar<A>> = None;
        let has_room = fits(&place);
        match place {
            Some(cedar) => Ok(cedar),
            None if has_room => ReducedCedar::from_sorted_bytes_with(alloc, self, pairs),
            None => {
                check_sorted(pairs)?;
                Err(CedarError::Memory)
            }
        }
    }

    /// `from_sorted_bytes_reduced` for text keys.
    ///
    /// ```
    /// let refused = CedarBuilder::new().from_sorted_reduced(rt.alloc(), &[("ten", 2), ("net", 7)]);
    /// assert!(rt; refused.is_err());
    /// ```
    ///
    /// # Errors
    /// As [`CedarBuilder::from_sorted_bytes`].
    pub fn from_sorted_reduced<A: Allocator + Copy>(
        self,
        alloc: A,
        pairs: &[(&str, i32)],
    ) -> Result<ReducedCedar<A>, CedarError>
        ensures built { IsSortedBuild reduced_layout most_slots self (entries_of pairs.now) result }
        ensures fits { IfOk result (λ _. ReducedFitsInMemory A.row A.Allocator) }
    {
        let place: Option<ReducedCedar<A>> = None;
        let has_room = fits(&place);
        match place {
            Some(cedar) => Ok(cedar),
            None if has_room => ReducedCedar::from_sorted_with(alloc, self, pairs),
            None => {
                check_sorted(pairs)?;
                Err(CedarError::Memory)
            }
        }
    }
}

impl Default for CedarBuilder {
    ghost use Rattle.cedarwood.specs.Words.{no_search_limit};

    //= `default` returns the settings of `new`.
    ghost is_default = { λ builder. (builder.ordered ≡ true) × (builder.max_trial ≡ pos 1) × (builder.search_limit ≡ no_search_limit) };

    fn default() -> Self {
        CedarBuilder::new()
    }
}
