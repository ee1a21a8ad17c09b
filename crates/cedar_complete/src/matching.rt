//! The next entry in a range that an automaton accepts.

ghost use Rattle.std.specs.Prelude.{◌≡◌, Err, false, IfErr, IfOk, OnErr, true};
ghost use Rattle.cedar_complete.specs.Words.{entry_told, GivesAccepted, GoesOnBehind};
ghost use Rattle.cedar_complete.specs.Words.{KeepsAccepted, walk};

use crate::ends::ascends;
use crate::error::RangeError;
use crate::look_ups::Searched;
use accepted_entries::next_accepted;
use byte_automata::Automaton;
use cedarwood::{Layout, Trie};
use key_ranges::KeyRange;
use std::alloc::Allocator;

/// The first entry in a range whose key an automaton accepts: its value and its key, in memory from `alloc`. The range goes on behind it, so
/// the next call finds the next one, also if the dictionary changes between them. None if there is no such entry.
///
/// It makes a look-up for each entry that it comes to, and one for each place where the automaton can't match any more: all entries below
/// that are left out, however many they are. Who wants them all, and changes nothing meanwhile, takes the walk of
/// `cedar_match::cursor_matching`, which goes from node to node.
///
/// ```
/// cedar.build(&[("nest", 9), ("net", 7), ("ten", 2)])?;
/// let near = Within::one(b"nat");
/// let mut range = KeyRange::between(rt.alloc(), Bound::Unbounded, Bound::Unbounded)?;
/// let (value, key) = next_matching(rt.alloc(), &cedar, &mut range, &near)?.ok_or("an entry")?;
/// assert_eq!(rt; (value, key.as_slice()), (7, b"net".as_slice()));
/// assert!(rt; next_matching(rt.alloc(), &cedar, &mut range, &near)?.is_none());
/// ```
///
/// # Errors
/// `NotAscending` if labels don't ascend, `Memory` if an allocation was refused. Then no entry that is accepted was passed.
pub fn next_matching<L, const SLOTS: usize, A, B, M>(
    alloc: B,
    trie: &Trie<L, SLOTS, A>,
    range: &mut KeyRange<B>,
    automaton: &M,
) -> Result<Option<(i32, Vec<u8, B>)>, RangeError>
where
    L: Layout,
    A: Allocator + Copy,
    B: Allocator + Copy,
    M: Automaton,

    //= The next entry that an automaton matches is the first one of those in the range whose keys it accepts, and the range holds the others
    //  of these afterwards. None is returned exactly if there is none. [by accepted_in]
    ensures found { IfOk result (λ found. GivesAccepted (M.accepts automaton.now) (walk trie.now.state.tree) range.old range.new (entry_told found)) }

    //= The range then holds exactly what it held that comes behind the key that was found. [by HoldsBehind]
    ensures behind { IfOk result (λ found. GoesOnBehind range.old range.new (entry_told found)) }

    //= If it isn't told, all of them are still in the range.
    ensures kept { OnErr result (KeepsAccepted (M.accepts automaton.now) (walk trie.now.state.tree) range.old range.new) }
    ensures order { trie.now.state.ordered ≡ false → result ≡ Err RangeError.NotAscending }
    ensures refused { trie.now.state.ordered ≡ true → IfErr result (λ e. e ≡ RangeError.Memory) }
{
    if !ascends(trie) {
        return Err(RangeError::NotAscending);
    }
    // Its clause says that the dictionary is valid.
    let _ = trie.len();
    let searched = Searched { trie };
    match next_accepted(alloc, &searched, range, automaton) {
        Ok(found) => Ok(found),
        Err(_) => Err(RangeError::Memory),
    }
}
