//! A value stored, and the one before it returned.

ghost use Rattle.std.specs.Prelude.{◌≡◌, IfOk, IfSome, None, OnOk};
ghost use Rattle.cedarwood.specs.Words.{IsSound, IsUpdate, number_at, outcome, value_fault};

use crate::pair::check_pair;
use crate::{CedarError, Layout, Trie};
use cedar_edit::update;
use std::alloc::Allocator;

impl<L: Layout, const SLOTS: usize, A: Allocator + Copy> Trie<L, SLOTS, A> {
    /// Stores a value at a key, and returns the value that the key held before, if it held one. It goes along the key once.
    ///
    /// ```
    /// assert_eq!(rt; cedar.insert_bytes(b"net", 7)?, None);
    /// assert_eq!(rt; cedar.insert_bytes(b"net", 8)?, Some(7));
    /// ```
    ///
    /// # Errors
    /// As [`Trie::update_bytes`]: after an error the dictionary holds what it held.
    pub fn insert_bytes(&mut self, key: &[u8], value: i32) -> Result<Option<i32>, CedarError>
        //= An insert is an update, and returns the value that the key held before. [with held; also insert]
        ensures updated { IsUpdate L.kind SLOTS self.old self.new key.now value (outcome result) }
        ensures held { IfOk result (λ held. held ≡ number_at self.old.state.tree key.now) }

        //= That value is in range, and the tree was sound. [with in_range]
        ensures sound { OnOk result (IsSound self.old.state.tree) }
        ensures in_range { IfOk result (λ held. IfSome held (λ v. value_fault v ≡ None)) }
    {
        check_pair(key, value)?;
        update(&mut self.table, key, value, self.search_limit).map_err(CedarError::from)
    }

    /// `insert_bytes` for a text key.
    ///
    /// ```
    /// assert_eq!(rt; cedar.insert("ten", 7)?, None);
    /// assert_eq!(rt; cedar.insert("ten", 8)?, Some(7));
    /// ```
    ///
    /// # Errors
    /// As [`Trie::update_bytes`].
    pub fn insert(&mut self, key: &str, value: i32) -> Result<Option<i32>, CedarError>
        ensures updated { IsUpdate L.kind SLOTS self.old self.new key.now value (outcome result) }
        ensures held { IfOk result (λ held. held ≡ number_at self.old.state.tree key.now) }
    {
        self.insert_bytes(key.as_bytes(), value)
    }
}
