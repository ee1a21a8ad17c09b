//! The first and the last entry in a range.

ghost use Rattle.std.specs.Prelude.{◌≡◌, Err, false, IfErr, IfOk, true};
ghost use Rattle.cedar_complete.specs.Words.{entries_within, entry_told, IsHeadOf, IsLastOf};
ghost use Rattle.cedar_complete.specs.Words.{unless_before};

use crate::error::RangeError;
use crate::look_ups::Searched;
use crate::ranges::entries_in;
use cedarwood::{Layout, RangeEntries, Trie, Walked};
use key_ranges::KeyRange;
use last_entries::last_before;
use std::alloc::Allocator;

/// The first entry in a range: its value and its key, in memory from `alloc`; None if there is none. So the entry at a key or after it (the
/// ceiling), or behind it, is that of a range that starts there.
///
/// ```
/// cedar.build(&[("ne", 1), ("net", 7), ("ten", 2)])?;
/// let range = KeyRange::between(rt.alloc(), Bound::Excluded(b"ne"), Bound::Unbounded)?;
/// let (value, key) = first_in(rt.alloc(), &cedar, &range)?.ok_or("an entry")?;
/// assert_eq!(rt; (value, key.as_slice()), (7, b"net".as_slice()));
/// ```
///
/// # Errors
/// `NotAscending` if labels don't ascend, `Memory` if an allocation was refused.
pub fn first_in<L: Layout, const SLOTS: usize, A: Allocator + Copy, B: Allocator + Copy>(
    alloc: B,
    trie: &Trie<L, SLOTS, A>,
    range: &KeyRange<B>,
) -> Result<Option<(i32, Vec<u8, B>)>, RangeError>
    //= The first entry in a range is the first one of its entries.
    ensures found { IfOk result (λ found. IsHeadOf (entries_within trie.now.state.tree range.now) (entry_told found)) }

    //= Where labels don't ascend, no entry of a range is told, and that is the error; else only memory may be lacking. [with refused; also
    //  last_in, next_matching]
    ensures order { trie.now.state.ordered ≡ false → result ≡ Err RangeError.NotAscending }
    ensures refused { trie.now.state.ordered ≡ true → IfErr result (λ e. e ≡ RangeError.Memory) }
{
    match entries_in(trie, range) {
        Some(entries) => first_of(alloc, entries),
        None => Err(RangeError::NotAscending),
    }
}

/// The first of the entries that are left of a range.
fn first_of<T: Walked, A: Allocator + Copy, B: Allocator + Copy>(
    alloc: B,
    mut entries: RangeEntries<'_, T, A>,
) -> Result<Option<(i32, Vec<u8, B>)>, RangeError>
    ensures found { IfOk result (λ found. IsHeadOf entries.entry (entry_told found)) }
    ensures refused { IfErr result (λ e. e ≡ RangeError.Memory) }
{
    let mut key = Vec::new(alloc);
    match entries.next_into(&mut key) {
        Ok(Some(value)) => Ok(Some((value, key))),
        Ok(None) => Ok(None),
        Err(_) => Err(RangeError::Memory),
    }
}

/// The last entry in a range: its value and its key, in memory from `alloc`; None if there is none. So the entry at a key or before it (the
/// floor), or the one before it, is that of a range that ends there; and a range that goes back before each entry that was found
/// ([`KeyRange::go_back_before`]) gives all of them backwards. It looks first entries up: about one for each byte of the key that it finds,
/// and some more where keys part; so an entry costs more than on the way forwards, and nothing in between is passed.
///
/// ```
/// let mut range = KeyRange::between(rt.alloc(), Bound::Unbounded, Bound::Included(b"nz"))?;
/// let (value, key) = last_in(rt.alloc(), &cedar, &range)?.ok_or("an entry")?;
/// assert_eq!(rt; (value, key.as_slice()), (7, b"net".as_slice()));
/// range.go_back_before(&key)?;
/// let (value, key) = last_in(rt.alloc(), &cedar, &range)?.ok_or("an entry")?;
/// assert_eq!(rt; (value, key.as_slice()), (1, b"ne".as_slice()));
/// ```
///
/// # Errors
/// `NotAscending` if labels don't ascend, `Memory` if an allocation was refused.
pub fn last_in<L: Layout, const SLOTS: usize, A: Allocator + Copy, B: Allocator + Copy>(
    alloc: B,
    trie: &Trie<L, SLOTS, A>,
    range: &KeyRange<B>,
) -> Result<Option<(i32, Vec<u8, B>)>, RangeError>
    //= The last entry in a range is the last one of its entries.
    ensures found { IfOk result (λ found. IsLastOf (entries_within trie.now.state.tree range.now) (entry_told found)) }

    ensures order { trie.now.state.ordered ≡ false → result ≡ Err RangeError.NotAscending }
    ensures refused { trie.now.state.ordered ≡ true → IfErr result (λ e. e ≡ RangeError.Memory) }
{
    if !ascends(trie) {
        return Err(RangeError::NotAscending);
    }
    // Its clause says that the dictionary is valid.
    let _ = trie.len();
    let searched = Searched { trie };
    match last_before(alloc, &searched, range.to()) {
        Ok(found) => Ok(unless_before(range.from(), found)),
        Err(_) => Err(RangeError::Memory),
    }
}

/// Whether a dictionary's labels ascend.
pub(crate) fn ascends<L: Layout, const SLOTS: usize, A: Allocator + Copy>(
    trie: &Trie<L, SLOTS, A>,
) -> bool
    ensures { result ≡ trie.now.state.ordered }
{
    match trie.entries_from_bytes(&[]) {
        Some(_) => true,
        None => false,
    }
}

/// An entry, unless its key comes before a byte string.
fn unless_before<B: Allocator>(
    from: &[u8],
    found: Option<(i32, Vec<u8, B>)>,
) -> Option<(i32, Vec<u8, B>)>
    ensures { entry_told result ≡ unless_before from.now (entry_told found) }
{
    let Some((value, key)) = found else {
        return None;
    };
    if key.as_slice().cmp(from).is_lt() {
        return None;
    }
    Some((value, key))
}
