//! A dictionary copied.

ghost use Rattle.std.specs.Prelude.{◌≡◌};

use crate::{Layout, Trie};
use std::alloc::{AllocError, Allocator};

/// A copy has an equal table, field by field, with the same settings: so it returns what the original returns, and saves the same bytes. A
/// change of one doesn't show in the other. It allocates from the dictionary's own allocator.
///
/// ```
/// let copy = cedar.clone()?;
/// cedar.update("net", 7)?;
/// assert_eq!(rt; (copy.len(), cedar.len()), (0, 1));
/// ```
impl<L: Layout, const SLOTS: usize, A: Allocator + Copy> Clone for Trie<L, SLOTS, A> {
    //= A clone is equal in all that a contract sees, and its table is equal field by field.
    ghost is_clone = { λ trie copy. copy ≡ trie };

    fn clone(&self) -> Result<Self, AllocError> {
        Ok(Trie {
            table: self.table.clone()?,
            search_limit: self.search_limit,
        })
    }
}
