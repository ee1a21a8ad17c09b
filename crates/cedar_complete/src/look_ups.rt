//! A dictionary that entries are looked up in.

ghost use Rattle.std.specs.Prelude.{IfOk, List};
ghost use Rattle.cedar_complete.specs.Words.{Entry, from_on, IsFirstOf, walk};

use cedarwood::{Layout, Trie};
use last_entries::Ascending;
use std::alloc::{AllocError, Allocator};

/// A dictionary whose labels ascend, as look-ups see it: any [`Trie`]. They know it by this trait alone, since a call on a type with a const
/// parameter needs the size of that type, of which a borrow says nothing.
pub(crate) trait FirstSince {
    /// All entries.
    ghost listed: { Self → List Entry };

    /// The value of the first entry at a byte string or after it, whose key is written into a buffer. Where labels don't ascend it fails.
    fn seek<B: Allocator>(
        &self,
        from: &[u8],
        key: &mut Vec<u8, B>,
    ) -> Result<Option<i32>, AllocError>
        ensures { IfOk result (IsFirstOf (from_on from.now (listed self.now)) key.new.items) };
}

impl<L: Layout, const SLOTS: usize, A: Allocator + Copy> FirstSince for Trie<L, SLOTS, A> {
    ghost listed = { λ trie. walk trie.state.tree };

    fn seek<B: Allocator>(
        &self,
        from: &[u8],
        key: &mut Vec<u8, B>,
    ) -> Result<Option<i32>, AllocError> {
        // That labels ascend was asked before the first look-up.
        let Some(mut entries) = self.entries_from_bytes(from) else {
            return Err(AllocError);
        };
        match entries.next_into(key) {
            Ok(found) => Ok(found),
            Err(_) => Err(AllocError),
        }
    }
}

/// A dictionary to look entries up in.
#[derive(Drop)]
pub(crate) struct Searched<'a, T: FirstSince> {
    pub(crate) trie: &'a T,
}

impl<'a, T: FirstSince> Ascending for Searched<'a, T> {
    ghost entries = { λ searched. T.listed searched.trie.now };

    fn first_since<B: Allocator>(
        &self,
        from: &[u8],
        key: &mut Vec<u8, B>,
    ) -> Result<Option<i32>, AllocError> {
        self.trie.seek(from, key)
    }
}
