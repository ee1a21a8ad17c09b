//! The first entry and the last one.

ghost use Rattle.std.specs.Prelude.{◌<◌, ◌≡◌, ◌≤◌, [], IfErr, IfOk, IfSome, length};
ghost use Rattle.std.specs.Prelude.{MatchOption, OnErr, Some, vec_capacity};
ghost use Rattle.cedarwood.specs.Words.{first_entry, KeyOutgrows, last_entry, walk};

use crate::queries::ranged::write_key;
use crate::{CedarError, Layout, Trie};
use cedar_walk::last_numbered;
use std::alloc::Allocator;

impl<L: Layout, const SLOTS: usize, A: Allocator + Copy> Trie<L, SLOTS, A> {
    /// The first key in iteration order, with its value, or None if the dictionary is empty. If labels ascend, it is the least key by
    /// bytes. It goes down from the root once. The key is written into memory of the dictionary's own allocator; [`Trie::first_into`]
    /// writes it into a buffer of the caller.
    ///
    /// ```
    /// cedar.build(&[("ten", 2), ("net", 7)])?;
    /// let (key, value) = cedar.first()?.ok_or("an entry")?;
    /// assert_eq!(rt; (key.as_slice(), value), (b"net".as_slice(), 7));
    /// ```
    ///
    /// # Errors
    /// `Memory` if there is an entry and an allocation was refused.
    pub fn first(&self) -> Result<Option<(Vec<u8, A>, i32)>, CedarError>
        //= `first` returns the first entry of the walk, and None exactly if there is none. [also first_into; by first_entry]
        ensures found { IfOk result (λ found. MatchOption found (walk self.now.state.tree ≡ []) (λ entry. first_entry self.now.state.tree ≡ Some (entry.0.items, entry.1))) }

        //= `first` and `last` fail only with `Memory`, and only if there is an entry. [also first_into, last, last_into]
        ensures refused { IfErr result (λ e. (e ≡ CedarError.Memory) × (0 < length (walk self.now.state.tree))) }
    {
        let mut key = Vec::new(self.table.allocator());
        match self.first_into(&mut key) {
            Ok(Some(value)) => Ok(Some((key, value))),
            Ok(None) => Ok(None),
            Err(error) => Err(error),
        }
    }

    /// `first`, with its key written into a buffer instead of what that held. Returns the key's value, or None if the dictionary is empty.
    /// It allocates only if the key is longer than the buffer's capacity, and never lowers that. After a refused allocation the buffer may
    /// hold anything.
    ///
    /// ```
    /// cedar.build(&[("ten", 2), ("net", 7)])?;
    /// let mut key = Vec::new(rt.alloc());
    /// assert_eq!(rt; cedar.first_into(&mut key)?, Some(7));
    /// assert_eq!(rt; key.as_slice(), b"net".as_slice());
    /// ```
    ///
    /// # Errors
    /// `Memory` if the key is longer than the buffer's capacity and an allocation was refused.
    pub fn first_into<B: Allocator>(&self, key: &mut Vec<u8, B>) -> Result<Option<i32>, CedarError>
        ensures found { IfOk result (λ found. MatchOption found (walk self.now.state.tree ≡ []) (λ value. first_entry self.now.state.tree ≡ Some (key.new.items, value))) }
        ensures refused { IfErr result (λ e. (e ≡ CedarError.Memory) × (0 < length (walk self.now.state.tree))) }
        ensures full { OnErr result (KeyOutgrows (vec_capacity key.old) (walk self.now.state.tree)) }
        ensures capacity { vec_capacity key.old ≤ vec_capacity key.new }
    {
        self.entries_with_prefix_bytes(&[]).next_into(key)
    }

    /// The last key in iteration order, with its value, or None if the dictionary is empty. If labels ascend, it is the greatest key by
    /// bytes. It goes down from the root once, at each node to the last child: past at most 255 children. The key is written into memory of
    /// the dictionary's own allocator; [`Trie::last_into`] writes it into a buffer of the caller.
    ///
    /// ```
    /// cedar.build(&[("ten", 2), ("net", 7)])?;
    /// let (key, value) = cedar.last()?.ok_or("an entry")?;
    /// assert_eq!(rt; (key.as_slice(), value), (b"ten".as_slice(), 2));
    /// ```
    ///
    /// # Errors
    /// `Memory` if there is an entry and an allocation was refused.
    pub fn last(&self) -> Result<Option<(Vec<u8, A>, i32)>, CedarError>
        //= `last` returns the last entry of the walk, and None exactly if there is none. [also last_into; by last_entry]
        ensures found { IfOk result (λ found. MatchOption found (walk self.now.state.tree ≡ []) (λ entry. last_entry self.now.state.tree ≡ Some (entry.0.items, entry.1))) }
        ensures refused { IfErr result (λ e. (e ≡ CedarError.Memory) × (0 < length (walk self.now.state.tree))) }
    {
        let mut key = Vec::new(self.table.allocator());
        match self.last_into(&mut key) {
            Ok(Some(value)) => Ok(Some((key, value))),
            Ok(None) => Ok(None),
            Err(error) => Err(error),
        }
    }

    /// `last`, with its key written into a buffer instead of what that held. Returns the key's value, or None if the dictionary is empty.
    /// It allocates only if the key is longer than the buffer's capacity, and never lowers that. After a refused allocation the buffer may
    /// hold anything.
    ///
    /// ```
    /// cedar.build(&[("ten", 2), ("net", 7)])?;
    /// let mut key = Vec::new(rt.alloc());
    /// assert_eq!(rt; cedar.last_into(&mut key)?, Some(2));
    /// assert_eq!(rt; key.as_slice(), b"ten".as_slice());
    /// ```
    ///
    /// # Errors
    /// `Memory` if the key is longer than the buffer's capacity and an allocation was refused.
    pub fn last_into<B: Allocator>(&self, key: &mut Vec<u8, B>) -> Result<Option<i32>, CedarError>
        ensures found { IfOk result (λ found. MatchOption found (walk self.now.state.tree ≡ []) (λ value. last_entry self.now.state.tree ≡ Some (key.new.items, value))) }
        ensures refused { IfErr result (λ e. (e ≡ CedarError.Memory) × (0 < length (walk self.now.state.tree))) }
        ensures full { OnErr result (IfSome (last_entry self.now.state.tree) (λ entry. vec_capacity key.old < length entry.0)) }
        ensures capacity { vec_capacity key.old ≤ vec_capacity key.new }
    {
        let Some(last) = last_numbered(&self.table) else {
            return Ok(None);
        };
        match write_key(self, &[], last.slot, last.depth, key) {
            Ok(()) => Ok(Some(last.number)),
            Err(_) => Err(CedarError::Memory),
        }
    }
}
