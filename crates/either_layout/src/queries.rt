//! The queries of a dictionary of either layout.

ghost use Rattle.std.specs.Prelude.{◌<◌, ◌≡◌, ◌≤◌, IfErr, IfOk, IfSome, is_some, length, None};
ghost use Rattle.either_layout.specs.Words.{entries_with, exact, first_entry, front, GivesEnd};
ghost use Rattle.either_layout.specs.Words.{inner_dictionary, IsSound, last_entry, longest_front};
ghost use Rattle.either_layout.specs.Words.{number_at, predict, value_fault, walk};

use crate::{AnyCedar, on_layout};
use cedarwood::CedarError;
use std::alloc::Global;

impl AnyCedar {
    /// The value at a key and the key's length in bytes, or None if the key isn't held. It allocates nothing.
    #[inline]
    pub fn exact_match_search_bytes(&self, key: &[u8]) -> Option<(i32, usize)>
        //= A look-up in either layout returns `exact` of the tree, which is sound, and a value that is found is in range. [with sound,
        //  in_range]
        ensures answer { result ≡ exact (inner_dictionary self.now).state.tree key.now }
        ensures sound { IsSound (inner_dictionary self.now).state.tree }
        ensures in_range { IfSome result (λ found. value_fault found.0 ≡ None) }
    {
        on_layout!(self, cedar => cedar.exact_match_search_bytes(key))
    }

    /// The value at a key, or None if the key isn't held. It allocates nothing.
    #[inline]
    pub fn get_bytes(&self, key: &[u8]) -> Option<i32>
        //= `get_bytes` of either layout returns the value at the key, `contains_key_bytes` whether there is one. [also contains_key_bytes]
        ensures { result ≡ number_at (inner_dictionary self.now).state.tree key.now }
    {
        on_layout!(self, cedar => cedar.get_bytes(key))
    }

    /// Whether a key is held. It allocates nothing.
    #[inline]
    pub fn contains_key_bytes(&self, key: &[u8]) -> bool
        ensures { result ≡ is_some (number_at (inner_dictionary self.now).state.tree key.now) }
    {
        on_layout!(self, cedar => cedar.contains_key_bytes(key))
    }

    /// The longest key that a text begins with: its value, and how many bytes it has. None if the text begins with no key. It allocates
    /// nothing.
    #[inline]
    pub fn longest_match_bytes(&self, text: &[u8]) -> Option<(i32, usize)>
        //= `longest_match_bytes` of either layout returns the last of `front`, with the length of that prefix in bytes. [with within; by
        //  longest_front]
        ensures longest { result ≡ longest_front (inner_dictionary self.now).state.tree text.now }
        ensures within { IfSome result (λ found. (0 < found.1) × (found.1 ≤ length text.now)) }
    {
        on_layout!(self, cedar => cedar.longest_match_bytes(text))
    }

    /// The keys that a query begins with, shortest first: for each its value, and one less than its bytes.
    ///
    /// # Errors
    /// `Memory` if an allocation was refused.
    pub fn common_prefix_search_bytes(
        &self,
        query: &[u8],
    ) -> Result<Vec<(i32, usize), Global>, CedarError>
        //= The prefix walk and the prediction of either layout are `front` and `predict` of the tree, in vectors. They fail only with
        //  `Memory`. [with refused; also common_prefix_predict_bytes]
        ensures found { IfOk result (λ found. found.items ≡ front (inner_dictionary self.now).state.tree query.now) }
        ensures refused { IfErr result (λ e. e ≡ CedarError.Memory) }
    {
        on_layout!(self, cedar => cedar.common_prefix_search_bytes(query))
    }

    /// The keys that begin with a query, each before its extensions and in iteration order: for each the value, and how many bytes follow
    /// the query.
    ///
    /// # Errors
    /// `Memory` if an allocation was refused.
    pub fn common_prefix_predict_bytes(
        &self,
        query: &[u8],
    ) -> Result<Vec<(i32, usize), Global>, CedarError>
        ensures found { IfOk result (λ found. found.items ≡ predict (inner_dictionary self.now).state.tree query.now) }
        ensures refused { IfErr result (λ e. e ≡ CedarError.Memory) }
    {
        on_layout!(self, cedar => cedar.common_prefix_predict_bytes(query))
    }

    /// How many keys begin with a prefix. It visits each node below the prefix's, and allocates nothing.
    #[must_use]
    pub fn count_prefix_bytes(&self, prefix: &[u8]) -> usize
        //= `count_prefix_bytes` of either layout returns how many entries begin with the prefix. [by entries_with]
        ensures { result ≡ length (entries_with (inner_dictionary self.now).state.tree prefix.now) }
    {
        on_layout!(self, cedar => cedar.count_prefix_bytes(prefix))
    }

    /// The first key in iteration order, with its value, or None if the dictionary is empty.
    ///
    /// # Errors
    /// `Memory` if there is an entry and an allocation was refused.
    pub fn first(&self) -> Result<Option<(Vec<u8, Global>, i32)>, CedarError>
        //= `first` and `last` of either layout return the first and the last entry of the walk, and None exactly if there is none. They fail
        //  only with `Memory`, and only if there is an entry. [with refused; also last; by first_entry, last_entry]
        ensures found { IfOk result (λ found. GivesEnd (inner_dictionary self.now).state.tree (first_entry (inner_dictionary self.now).state.tree) found) }
        ensures refused { IfErr result (λ e. (e ≡ CedarError.Memory) × (0 < length (walk (inner_dictionary self.now).state.tree))) }
    {
        on_layout!(self, cedar => cedar.first())
    }

    /// The last key in iteration order, with its value, or None if the dictionary is empty.
    ///
    /// # Errors
    /// `Memory` if there is an entry and an allocation was refused.
    pub fn last(&self) -> Result<Option<(Vec<u8, Global>, i32)>, CedarError>
        ensures found { IfOk result (λ found. GivesEnd (inner_dictionary self.now).state.tree (last_entry (inner_dictionary self.now).state.tree) found) }
        ensures refused { IfErr result (λ e. (e ≡ CedarError.Memory) × (0 < length (walk (inner_dictionary self.now).state.tree))) }
    {
        on_layout!(self, cedar => cedar.last())
    }
}
