//! The calls that change a dictionary of either layout.

ghost use Rattle.std.specs.Prelude.{◌*◌, ◌+◌, ◌-◌, ◌<◌, ◌↔◌, ◌≡◌, ◌≤◌, Err, IfErr, IfOk, IfSome};
ghost use Rattle.std.specs.Prelude.{IsOk, IsSome, IsTrue, None, OnErr, OnOk};
ghost use Rattle.either_layout.specs.Words.{after_erase, capacity_after, fault, HasSameSize};
ghost use Rattle.either_layout.specs.Words.{inner_dictionary, inner_layout, IsCleared};
ghost use Rattle.either_layout.specs.Words.{IsErasedUnder, IsMarked, IsShrunk, IsSound, IsUpdate};
ghost use Rattle.either_layout.specs.Words.{LacksRoom, MarksCut, most_slots, number_at, outcome};
ghost use Rattle.either_layout.specs.Words.{SetsSearchLimit, value_fault};

use crate::{AnyCedar, on_layout};
use cedarwood::CedarError;

impl AnyCedar {
    /// Stores a value at a key, and replaces the value that the key holds, if any.
    ///
    /// # Errors
    /// As [`Trie::update_bytes`](cedarwood::Trie::update_bytes). After an error the dictionary holds what it held.
    #[inline]
    pub fn update_bytes(&mut self, key: &[u8], value: i32) -> Result<(), CedarError>
        //= An update of either layout is an update of the dictionary there, and after a pair's fault nothing has changed. [with unchanged;
        //  also insert_bytes; by IsUpdate]
        ensures updated { IsUpdate (inner_layout self.old) most_slots (inner_dictionary self.old) (inner_dictionary self.new) key.now value result }
        ensures unchanged { IsSome (fault key.now value) → self.new ≡ self.old }

        //= No change changes the layout. [also insert_bytes, erase_bytes, erase_prefix_bytes, clear, try_reserve, shrink_to_fit,
        //  set_search_limit, build_bytes, update_batch, erase_batch]
        ensures layout { inner_layout self.new ≡ inner_layout self.old }
    {
        on_layout!(self, cedar => cedar.update_bytes(key, value))
    }

    /// Stores a value at a key, and returns the value that the key held before, if it held one.
    ///
    /// # Errors
    /// As `update_bytes`.
    #[inline]
    pub fn insert_bytes(&mut self, key: &[u8], value: i32) -> Result<Option<i32>, CedarError>
        ensures updated { IsUpdate (inner_layout self.old) most_slots (inner_dictionary self.old) (inner_dictionary self.new) key.now value (outcome result) }
        ensures unchanged { IsSome (fault key.now value) → self.new ≡ self.old }

        //= An insert returns the value that the key held before, which is in range, of a tree that was sound. [with sound, in_range]
        ensures held { IfOk result (λ held. held ≡ number_at (inner_dictionary self.old).state.tree key.now) }
        ensures sound { OnOk result (IsSound (inner_dictionary self.old).state.tree) }
        ensures in_range { IfOk result (λ held. IfSome held (λ v. value_fault v ≡ None)) }
        ensures layout { inner_layout self.new ≡ inner_layout self.old }
    {
        on_layout!(self, cedar => cedar.insert_bytes(key, value))
    }

    /// Removes a key, and returns whether it was held. It allocates nothing.
    #[inline]
    pub fn erase_bytes(&mut self, key: &[u8]) -> bool
        //= An erasure in either layout returns whether the key was held, and leaves the tree `cut`. [with after]
        ensures answer { IsTrue result ↔ IsSome (number_at (inner_dictionary self.old).state.tree key.now) }
        ensures after { (inner_dictionary self.new).state ≡ after_erase (inner_dictionary self.old).state key.now }

        //= It removes only the key's mark, and changes neither the slots in use and those that there are, nor the settings. [with
        //  marked, size, max_trial, search_limit]
        ensures marks { MarksCut (inner_dictionary self.old).marked (inner_dictionary self.new).marked key.now }
        ensures marked { IsMarked (inner_dictionary self.new) }
        ensures size { HasSameSize (inner_dictionary self.old) (inner_dictionary self.new) }
        ensures max_trial { (inner_dictionary self.new).max_trial ≡ (inner_dictionary self.old).max_trial }
        ensures search_limit { (inner_dictionary self.new).search_limit ≡ (inner_dictionary self.old).search_limit }
        ensures layout { inner_layout self.new ≡ inner_layout self.old }
    {
        on_layout!(self, cedar => cedar.erase_bytes(key))
    }

    /// Removes each key that begins with a prefix, and returns how many these were; the empty prefix removes all. It allocates nothing.
    pub fn erase_prefix_bytes(&mut self, prefix: &[u8]) -> usize
        //= An erasure of the keys that begin with a prefix is one of the dictionary there. [by IsErasedUnder]
        ensures erased { IsErasedUnder (inner_dictionary self.old) (inner_dictionary self.new) prefix.now result }
        ensures layout { inner_layout self.new ≡ inner_layout self.old }
    {
        on_layout!(self, cedar => cedar.erase_prefix_bytes(prefix))
    }

    /// Removes all keys. It neither allocates nor frees memory.
    pub fn clear(&mut self)
        //= `clear` of either layout clears the dictionary there. [by IsCleared]
        ensures cleared { IsCleared (inner_dictionary self.old) (inner_dictionary self.new) }
        ensures layout { inner_layout self.new ≡ inner_layout self.old }
    {
        on_layout!(self, cedar => cedar.clear())
    }

    /// Allocates ahead for `blocks` blocks of 256 slots more than are in use.
    ///
    /// # Errors
    /// `SlotLimit` if there can't be so many slots, otherwise `Memory` if an allocation was refused. After an error nothing has changed.
    pub fn try_reserve(&mut self, blocks: usize) -> Result<(), CedarError>
        //= `try_reserve` of either layout changes neither state, marks and settings, nor the slots in use. [with marked, max_trial,
        //  search_limit, size]
        ensures state { (inner_dictionary self.new).state ≡ (inner_dictionary self.old).state }
        ensures marked { (inner_dictionary self.new).marked ≡ (inner_dictionary self.old).marked }
        ensures max_trial { (inner_dictionary self.new).max_trial ≡ (inner_dictionary self.old).max_trial }
        ensures search_limit { (inner_dictionary self.new).search_limit ≡ (inner_dictionary self.old).search_limit }
        ensures size { (inner_dictionary self.new).size ≡ (inner_dictionary self.old).size }
        ensures layout { inner_layout self.new ≡ inner_layout self.old }

        //= After it there are as many slots as if so many blocks had come into use, and these blocks are spare. If they are spare already,
        //  nothing changes and it doesn't fail. [with spare, enough, asks_nothing]
        ensures capacity { OnOk result ((inner_dictionary self.new).capacity ≡ capacity_after blocks (inner_dictionary self.old).size (inner_dictionary self.old).capacity) }
        ensures spare { OnOk result (256 * blocks ≤ (inner_dictionary self.new).capacity - (inner_dictionary self.new).size) }
        ensures enough { 256 * blocks ≤ (inner_dictionary self.old).capacity - (inner_dictionary self.old).size → self.new ≡ self.old }
        ensures asks_nothing { 256 * blocks ≤ (inner_dictionary self.old).capacity - (inner_dictionary self.old).size → IsOk result }

        //= It fails with `SlotLimit` exactly if there can't be so many slots, and with `Memory` only if the slots have to double and may.
        //  Then nothing has changed. [with refused, unchanged; by LacksRoom]
        ensures limit { most_slots < (inner_dictionary self.old).size + 256 * blocks → result ≡ Err CedarError.SlotLimit }
        ensures refused { IfErr result (LacksRoom most_slots (inner_dictionary self.old) blocks) }
        ensures unchanged { OnErr result (self.new ≡ self.old) }
    {
        on_layout!(self, cedar => cedar.try_reserve(blocks))
    }

    /// Frees memory that growth and erasures have left unused. Keys, values, their order and the settings stay.
    ///
    /// # Errors
    /// As [`Trie::shrink_to_fit`](cedarwood::Trie::shrink_to_fit). After an error nothing has changed.
    pub fn shrink_to_fit(&mut self) -> Result<(), CedarError>
        //= `shrink_to_fit` of either layout shrinks the dictionary there, and changes nothing after an error. [with unchanged; by IsShrunk]
        ensures shrunk { IsShrunk (inner_layout self.old) most_slots (inner_dictionary self.old) (inner_dictionary self.new) result }
        ensures unchanged { OnErr result (self.new ≡ self.old) }
        ensures layout { inner_layout self.new ≡ inner_layout self.old }
    {
        on_layout!(self, cedar => cedar.shrink_to_fit())
    }

    /// Sets how many blocks of slots one search for places tries at most.
    pub fn set_search_limit(&mut self, blocks: usize)
        //= `set_search_limit` of either layout sets that of the dictionary there, and changes nothing else. [by SetsSearchLimit]
        ensures set { SetsSearchLimit (inner_dictionary self.old) (inner_dictionary self.new) blocks }
        ensures layout { inner_layout self.new ≡ inner_layout self.old }
    {
        on_layout!(self, cedar => cedar.set_search_limit(blocks))
    }
}
