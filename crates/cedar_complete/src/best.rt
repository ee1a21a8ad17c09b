//! The best few of a dictionary's entries.

ghost use Rattle.std.specs.Prelude.{◌≡◌, IfOk, filter, map};
ghost use Rattle.cedar_complete.specs.Words.{best, entries_with, found_entry, walk};

use best_few::{ByValue, EntryWalk, best_of};
use byte_automata::Automaton;
use cedar_match::{MatchingCursor, Nodes, cursor_matching};
use cedarwood::{EntryCursor, Layout, RangeEntries, Trie, Walked};
use std::alloc::{AllocError, Allocator};

/// The entries that a cursor goes over, to choose from.
#[derive(Drop)]
struct Passing<'a, T: Walked, A: Allocator> {
    cursor: EntryCursor<'a, T, A>,
}

impl<'a, T: Walked, A: Allocator> EntryWalk for Passing<'a, T, A> {
    ghost left = { λ passing. passing.cursor.left };

    ghost held = { λ passing. passing.cursor.key };

    fn next_value(&mut self) -> Result<Option<i32>, AllocError> {
        match self.cursor.advance() {
            Ok(found) => Ok(found),
            Err(_) => Err(AllocError),
        }
    }

    fn held_key(&self) -> &[u8] {
        self.cursor.key()
    }
}

/// The best of the entries whose keys begin with a prefix, `most` at the most, in their order: by value, the highest or the lowest first,
/// and those with the same value by the bytes of their keys. Each is its value and its key. It goes over all entries with the prefix; it
/// holds no more than `most` of them at a time, and one more while that takes the place of another, in memory from `alloc`. An entry that
/// isn't better than those that are held costs a comparison.
///
/// ```
/// cedar.build(&[("net", 7), ("nest", 9), ("ten", 2)])?;
/// let found = best_with_prefix(rt.alloc(), &cedar, b"ne", 1, ByValue::HighestFirst)?;
/// assert_eq!(rt; (found[0].0, found[0].1.as_slice()), (9, b"nest".as_slice()));
/// ```
///
/// # Errors
/// An allocation was refused.
pub fn best_with_prefix<L: Layout, const SLOTS: usize, A: Allocator + Copy, B: Allocator + Copy>(
    alloc: B,
    trie: &Trie<L, SLOTS, A>,
    prefix: &[u8],
    most: usize,
    order: ByValue,
) -> Result<Vec<(i32, Vec<u8, B>), B>, AllocError>
    //= The best entries with a prefix are the first `most` of those in order by value, and with the same value by key. [by best, sort_by_value]
    ensures { IfOk result (λ found. map found_entry found.items ≡ best order most (entries_with trie.now.state.tree prefix.now)) }
{
    best_entries(alloc, trie.entries_with_prefix_bytes(prefix), most, order)
}

/// The best of the entries that are left of a range, as `best_with_prefix` finds them: of all entries after [`Trie::entries_from_bytes`],
/// of those between two keys after [`Trie::range_bytes`], or of those in a range after [`entries_in`].
///
/// [`entries_in`]: crate::entries_in
///
/// ```
/// let entries = cedar.range_bytes(b"net", b"u").ok_or("ascending labels")?;
/// let found = best_entries(rt.alloc(), entries, 9, ByValue::LowestFirst)?;
/// assert_eq!(rt; (found.len(), found[0].0), (2, 2));
/// ```
///
/// # Errors
/// An allocation was refused.
pub fn best_entries<T: Walked, A: Allocator + Copy, B: Allocator + Copy>(
    alloc: B,
    entries: RangeEntries<'_, T, A>,
    most: usize,
    order: ByValue,
) -> Result<Vec<(i32, Vec<u8, B>), B>, AllocError>
    //= The best of what is left of a range, or of what an automaton matches, are found in the same way. [also best_matching]
    ensures { IfOk result (λ found. map found_entry found.items ≡ best order most entries.entry) }
{
    let mut passing = Passing {
        cursor: entries.into_cursor(),
    };
    best_of(alloc, &mut passing, most, order)
}

/// The entries that an automaton matches, to choose from.
#[derive(Drop)]
struct Matches<'a, T: Nodes, M: Automaton + Drop, A: Allocator> {
    walk: MatchingCursor<'a, T, M, A>,
}

impl<'a, T: Nodes, M: Automaton + Drop, A: Allocator> EntryWalk for Matches<'a, T, M, A> {
    ghost left = { λ matches. matches.walk.left };

    ghost held = { λ matches. matches.walk.key };

    fn next_value(&mut self) -> Result<Option<i32>, AllocError> {
        match self.walk.advance() {
            Ok(found) => Ok(found),
            Err(_) => Err(AllocError),
        }
    }

    fn held_key(&self) -> &[u8] {
        self.walk.key()
    }
}

/// The best of the entries whose keys an automaton accepts, as `best_with_prefix` finds them: so the best completions of a prefix with a
/// typo are those of `Beginning::new(Within::one(prefix))`. It goes to no node below one where the automaton can't match any more.
///
/// ```
/// cedar.build(&[("nest", 9), ("net", 7), ("ten", 2)])?;
/// let typed = Beginning::new(Within::one(b"nat"));
/// let found = best_matching(rt.alloc(), &cedar, typed, 1, ByValue::HighestFirst)?;
/// assert_eq!(rt; (found[0].0, found[0].1.as_slice()), (7, b"net".as_slice()));
/// ```
///
/// # Errors
/// An allocation was refused.
pub fn best_matching<L: Layout, const SLOTS: usize, A, B, M>(
    alloc: B,
    trie: &Trie<L, SLOTS, A>,
    automaton: M,
    most: usize,
    order: ByValue,
) -> Result<Vec<(i32, Vec<u8, B>), B>, AllocError>
where
    A: Allocator + Copy,
    B: Allocator + Copy,
    M: Automaton + Drop,
    ensures { IfOk result (λ found. map found_entry found.items ≡ best order most (filter (λ e. M.accepts automaton e.0) (walk trie.now.state.tree))) }
{
    let mut matches = Matches {
        walk: cursor_matching(alloc, trie, automaton),
    };
    best_of(alloc, &mut matches, most, order)
}
