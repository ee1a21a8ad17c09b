//! A dictionary shown page by page, in ascending order.

ghost use Rattle.std.specs.Prelude.{◌++◌, ◌∷◌, [], IfOk, map};
ghost use Rattle.uses.specs.Words.{IsPage};

use cedarwood::{CedarError, Layout, Trie};
use std::alloc::{AllocError, Allocator, Global};

/// The first entries at a key and after it by bytes, `most` at most; None if the dictionary's labels don't ascend.
///
/// # Errors
/// `Memory` if there is none for the page or a key.
pub fn page_from<L: Layout, const SLOTS: usize, A: Allocator + Copy>(
    words: &Trie<L, SLOTS, A>,
    alloc: Global,
    key: &[u8],
    most: usize,
) -> Result<Option<Vec<(Vec<u8, A>, i32), Global>>, CedarError>
    //= A page is the first entries at a key and after it, so many at most. There is none exactly if the order isn't ascending.
    ensures { IfOk result (λ page. IsPage words.now.state most key.now page (λ found. map (λ e. (e.0.items, e.1)) found.items)) }
{
    let Some(entries) = words.entries_from_bytes(key) else {
        return Ok(None);
    };
    let mut found = Vec::new(alloc);
    for entry in entries.take(most) {
        found.push(entry?).map_err(AllocError::from)?;
    }
    Ok(Some(found))
}

/// The page after the last key that was shown, even if that key has been erased meanwhile: the next key that there can be is the same with
/// a byte 0 after it, which no key has.
///
/// # Errors
/// As of `page_from`.
pub fn page_behind<L: Layout, const SLOTS: usize, A: Allocator + Copy>(
    words: &Trie<L, SLOTS, A>,
    alloc: Global,
    shown: &[u8],
    most: usize,
) -> Result<Option<Vec<(Vec<u8, A>, i32), Global>>, CedarError>
    //= The page after a key begins at that key with a byte 0 after it, so that no other key is between.
    ensures { IfOk result (λ page. IsPage words.now.state most (shown.now ++ 0 ∷ []) page (λ found. map (λ e. (e.0.items, e.1)) found.items)) }
{
    let mut next = Vec::with_capacity(alloc, shown.len() + 1)?;
    next.extend_from_slice(shown)?;
    next.push(0).map_err(AllocError::from)?;
    page_from(words, alloc, &next, most)
}
