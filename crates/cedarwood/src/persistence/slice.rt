//! How a dictionary is saved into memory of the caller's.

ghost use Rattle.std.specs.Prelude.{◌++◌, ◌≡◌, ◌≤◌, drop, length};
ghost use Rattle.cedarwood.specs.Words.{table_bytes};

use crate::{Layout, Trie};
use cedar_file::{put_table, table_len};
use cedar_format::{FULL_MINOR, MINOR};
use std::alloc::Allocator;

impl<L: Layout, const SLOTS: usize, A: Allocator + Copy> Trie<L, SLOTS, A> {
    /// How many bytes the dictionary's file has in format 1.1. This follows from how many slots are in use: no slot is looked at.
    ///
    /// ```
    /// assert_eq!(rt; cedar.saved_len(), 3182);
    /// ```
    #[must_use]
    pub fn saved_len(&self) -> usize
        //= `saved_len` returns how many bytes the dictionary's file has in its version. [also saved_v1_0_len]
        ensures { result ≡ length (table_bytes 1 self.now.table) }
    {
        table_len(&self.table, MINOR)
    }

    /// How many bytes the dictionary's file has in format 1.0. This follows from how many slots there are: no slot is looked at.
    ///
    /// ```
    /// assert_eq!(rt; cedar.saved_v1_0_len(), 3182);
    /// ```
    #[must_use]
    pub fn saved_v1_0_len(&self) -> usize
        ensures { result ≡ length (table_bytes 0 self.now.table) }
    {
        table_len(&self.table, FULL_MINOR)
    }

    /// Writes the dictionary's table in format 1.1 into the first elements of a slice, and returns how many bytes it has. It allocates
    /// nothing. The slice has room for them all: `saved_len` says how many.
    ///
    /// ```
    /// let mut room = [0u8; 4096];
    /// assert!(rt; cedar.saved_len() <= room.len());
    /// assert_eq!(rt; cedar.save_to_slice(&mut room), 3182);
    /// ```
    pub fn save_to_slice(&self, bytes: &mut [u8]) -> usize
        requires room { length (table_bytes 1 self.now.table) ≤ length bytes.old }

        //= A save into a slice writes exactly the bytes of the dictionary's table in its version at the front, and doesn't change those
        //  behind them. [with len; also save_v1_0_to_slice]
        ensures bytes { bytes.new ≡ table_bytes 1 self.now.table ++ drop result bytes.old }
        ensures len { result ≡ length (table_bytes 1 self.now.table) }
    {
        put_table(&self.table, MINOR, bytes)
    }

    /// Writes the dictionary's table in format 1.0 into the first elements of a slice, and returns how many bytes it has. It allocates
    /// nothing. The slice has room for them all: `saved_v1_0_len` says how many.
    ///
    /// ```
    /// let mut room = [0u8; 4096];
    /// assert!(rt; cedar.saved_v1_0_len() <= room.len());
    /// assert_eq!(rt; cedar.save_v1_0_to_slice(&mut room), 3182);
    /// ```
    pub fn save_v1_0_to_slice(&self, bytes: &mut [u8]) -> usize
        requires room { length (table_bytes 0 self.now.table) ≤ length bytes.old }
        ensures bytes { bytes.new ≡ table_bytes 0 self.now.table ++ drop result bytes.old }
        ensures len { result ≡ length (table_bytes 0 self.now.table) }
    {
        put_table(&self.table, FULL_MINOR, bytes)
    }
}
