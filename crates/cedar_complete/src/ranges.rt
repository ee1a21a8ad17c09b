//! The entries in a range.

ghost use Rattle.cedar_complete.specs.Words.{entries_within, GivesRange};

use cedarwood::{Layout, RangeEntries, Trie};
use key_ranges::KeyRange;
use std::alloc::Allocator;

/// The entries whose keys are in a range, in ascending order; None if the dictionary's labels don't ascend. It looks both ends up once, so
/// its cost is that of the entries that are taken, and of the ends' bytes, not of what comes before. The range is borrowed, and may go on
/// behind the last entry that was taken ([`KeyRange::go_on_after`]) once the iteration is done: so pages repeat no entry and leave none out,
/// also if the dictionary changes between them.
///
/// ```
/// cedar.build(&[("ne", 1), ("nest", 9), ("net", 7), ("ten", 2)])?;
/// let mut range = KeyRange::with_prefix(rt.alloc(), b"ne")?;
/// let mut key = Vec::new(rt.alloc());
/// let mut page = entries_in(&cedar, &range).ok_or("ascending labels")?;
/// assert_eq!(rt; page.next_into(&mut key)?, Some(1));
/// assert_eq!(rt; page.next_into(&mut key)?, Some(9));
/// range.go_on_after(&key)?;
/// let mut page = entries_in(&cedar, &range).ok_or("ascending labels")?;
/// assert_eq!(rt; page.next_into(&mut key)?, Some(7));
/// assert_eq!(rt; page.next_into(&mut key)?, None);
/// ```
pub fn entries_in<'a, L: Layout, const SLOTS: usize, A: Allocator + Copy, B: Allocator>(
    trie: &'a Trie<L, SLOTS, A>,
    range: &'a KeyRange<B>,
) -> Option<RangeEntries<'a, Trie<L, SLOTS, A>, A>>
    //= The entries in a range are those of the walk whose keys it holds, in its order; None is returned exactly if labels don't ascend.
    ensures { GivesRange trie.now.state (entries_within trie.now.state.tree range.now) result }
{
    match range.to() {
        Some(to) => trie.range_bytes(range.from(), to),
        None => trie.entries_from_bytes(range.from()),
    }
}
