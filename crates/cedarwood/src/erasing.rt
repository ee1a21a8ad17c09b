//! Erasures of all keys that begin with a prefix, and of a key that was found.

ghost use Rattle.std.specs.Prelude.{◌≡◌, false, None, true, ℕ};
ghost use Rattle.cedarwood.specs.Words.{dictionary_of, fields, IsCleared, IsErasedUnder, IsErasure};
ghost use Rattle.cedarwood.specs.Words.{FindsKey, IsFound, IsWellFormed};

use crate::{Layout, Trie};
use cedar_edit::erase_at;
use cedar_table::Table;
use cedar_walk::first_numbered;
use std::alloc::Allocator;

/// A key that a dictionary holds, as [`Trie::find_bytes`] found it.
#[derive(Clone, Copy, Debug, PartialEq, Eq)]
pub struct Found {
    /// The key's value.
    pub value: i32,
    /// The slot of the key's node.
    pub slot: usize,
}

/// Finds a key in a table.
fn find_in<L: Layout, const SLOTS: usize, A: Allocator>(
    table: &Table<L, SLOTS, A>,
    key: &[u8],
) -> Option<Found>
    requires { IsWellFormed SLOTS (fields table.now) }
    ensures found { (n : ℕ) → FindsKey (dictionary_of n (fields table.now)) key.now result }
    ensures absent { (n : ℕ) → result ≡ None → IsErasure (dictionary_of n (fields table.now)) (dictionary_of n (fields table.now)) key.now false }
{
    let slot = table.node_of(key)?;
    match table.number_of(slot) {
        Some(value) => Some(Found { value, slot }),
        None => None,
    }
}

/// Removes the number of a key that was found in a table. The key itself isn't read: the contract names it.
fn erase_in<L: Layout, const SLOTS: usize, A: Allocator>(
    table: &mut Table<L, SLOTS, A>,
    key: &[u8],
    found: Found,
)
    requires well_formed { IsWellFormed SLOTS (fields table.old) }
    requires found { IsFound (dictionary_of 0 (fields table.old)) key.now found }
    ensures well_formed { IsWellFormed SLOTS (fields table.new) }
    ensures erased { (n : ℕ) → IsErasure (dictionary_of n (fields table.old)) (dictionary_of n (fields table.new)) key.now true }
{
    erase_at(table, found.slot);
}

/// Removes the numbers at a path and below it, always the first one of those that are left, and returns how many there were. Each is looked
/// for from the root on: what was removed may have been the node of the path.
fn erase_under<L: Layout, const SLOTS: usize, A: Allocator>(
    table: &mut Table<L, SLOTS, A>,
    prefix: &[u8],
) -> usize
    requires { IsWellFormed SLOTS (fields table.old) }
    ensures well_formed { IsWellFormed SLOTS (fields table.new) }
    ensures erased { (n : ℕ) → IsErasedUnder (dictionary_of n (fields table.old)) (dictionary_of n (fields table.new)) prefix.now result }
{
    let before = table.entries();
    while let Some(found) = first_numbered(table, prefix) {
        erase_at(table, found.slot);
    }
    before - table.entries()
}

impl<L: Layout, const SLOTS: usize, A: Allocator> Trie<L, SLOTS, A> {
    /// Removes each key that begins with a prefix, and returns how many these were; the empty prefix removes all. It allocates nothing, and
    /// the slots of these keys are free again. For each of them it looks the prefix up once and goes on down to the key.
    ///
    /// ```
    /// cedar.build(&[("net", 7), ("network", 8), ("ten", 2)])?;
    /// assert_eq!(rt; cedar.erase_prefix_bytes(b"net"), 2);
    /// assert_eq!(rt; cedar.len(), 1);
    /// ```
    pub fn erase_prefix_bytes(&mut self, prefix: &[u8]) -> usize
        //= `erase_prefix` returns how many entries begin with the prefix. State and walk are then those without these entries, and each
        //  other key holds what it held. [also erase_prefix; by count, state, others, gone, held]
        //= It removes only the marks of their keys. It doesn't change the order, `max_trial`, the search limit, the slots in use and the
        //  slots that there are. [also erase_prefix; by ordered, marks, marked, size, max_trial, search_limit]
        ensures erased { IsErasedUnder self.old self.new prefix.now result }
    {
        erase_under(&mut self.table, prefix)
    }

    /// `erase_prefix_bytes` for a text prefix.
    ///
    /// ```
    /// cedar.build(&[("net", 7), ("network", 8), ("ten", 2)])?;
    /// assert_eq!(rt; cedar.erase_prefix("netw"), 1);
    /// assert!(rt; cedar.contains_key("net"));
    /// ```
    pub fn erase_prefix(&mut self, prefix: &str) -> usize
        ensures erased { IsErasedUnder self.old self.new prefix.now result }
    {
        self.erase_prefix_bytes(prefix.as_bytes())
    }

    /// Removes all keys. It neither allocates nor frees memory: the slots are free for other keys. For each key it goes from the root down
    /// to it once.
    ///
    /// ```
    /// cedar.build(&[("net", 7), ("ten", 2)])?;
    /// cedar.clear();
    /// assert!(rt; cedar.is_empty());
    /// ```
    pub fn clear(&mut self)
        //= `clear` leaves the empty tree without a mark. It doesn't change the order, `max_trial`, the search limit, the slots in use and the
        //  slots that there are. [by IsCleared]
        ensures cleared { IsCleared self.old self.new }
    {
        erase_under(&mut self.table, &[]);
    }

    /// Finds a key that [`Trie::erase_found`] may then remove without looking it up again, for example if something has to succeed before
    /// the key is removed. Returns None if the key isn't held. It allocates nothing.
    ///
    /// ```
    /// cedar.update_bytes(b"net", 7)?;
    /// assert!(rt; cedar.find_bytes(b"ne").is_none());
    /// let found = cedar.find_bytes(b"net").unwrap();
    /// assert_eq!(rt; found.value, 7);
    /// ```
    pub fn find_bytes(&self, key: &[u8]) -> Option<Found>
        //= `find_bytes` finds a key exactly if it is held, and then has its value. If it finds none, an erasure would change nothing. [with
        //  absent]
        ensures found { FindsKey self.now key.now result }
        ensures absent { result ≡ None → IsErasure self.now self.now key.now false }
    {
        find_in(&self.table, key)
    }

    /// Removes a key that [`Trie::find_bytes`] has found, without looking it up again. Nothing may have changed since: the contract
    /// requires that of the caller. It allocates nothing.
    ///
    /// ```
    /// cedar.update_bytes(b"net", 7)?;
    /// let found = cedar.find_bytes(b"net").unwrap();
    /// cedar.erase_found(b"net", found);
    /// assert!(rt; !cedar.contains_key("net"));
    /// ```
    pub fn erase_found(&mut self, key: &[u8], found: Found)
        requires { IsFound self.old key.now found }

        //= `erase_found` does what `erase_bytes` of the key does.
        ensures { IsErasure self.old self.new key.now true }
    {
        erase_in(&mut self.table, key, found);
    }
}
