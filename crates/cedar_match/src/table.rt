//! The nodes of a dictionary.

ghost use Rattle.std.specs.Prelude.{◌≡◌, [], filter, length};
ghost use Rattle.cedar_match.specs.Words.{leads_on, node_of, prefixes, StandsIn, walk};

use crate::cursor::MatchingCursor;
use crate::entries::MatchingEntries;
use crate::nodes::{Node, Nodes};
use byte_automata::Automaton;
use cedar_walk::Visited;
use cedarwood::{Layout, Trie, Walked};
use std::alloc::Allocator;

/// A node as a walk over any labelled tree sees it.
#[inline(always)]
fn node_of(visited: Option<Visited>) -> Option<Node>
    ensures { result ≡ node_of visited }
{
    let visited = visited?;
    Some(Node {
        slot: visited.slot,
        depth: visited.depth,
        label: visited.label,
        number: visited.number,
    })
}

impl<L: Layout, const SLOTS: usize, A: Allocator + Copy> Nodes for Trie<L, SLOTS, A> {
    ghost tree = { λ trie. trie.state.tree };

    ghost stands = { λ trie path slot. StandsIn SLOTS trie path slot };

    #[inline(always)]
    fn node_after(&self, slot: usize, depth: usize) -> Option<Node> {
        node_of(self.next_node(slot, depth))
    }

    #[inline(always)]
    fn node_past(&self, slot: usize, depth: usize) -> Option<Node> {
        node_of(self.next_past(slot, depth))
    }
}

/// The entries of a dictionary whose keys an automaton accepts, in iteration order, each with its key lent. The walk goes to no node below one
/// where the automaton can't match any more. It borrows the dictionary. What it allocates, from `alloc`, is the longest key that it comes to,
/// and a state for each of that key's bytes.
///
/// ```
/// cedar.build(&[("nest", 1), ("net", 7), ("ten", 2)])?;
/// let mut walk = cursor_matching(rt.alloc(), &cedar, Within::one(b"tet"));
/// assert_eq!(rt; (walk.advance()?, walk.key()), (Some(7), b"net".as_slice()));
/// assert_eq!(rt; (walk.advance()?, walk.key()), (Some(2), b"ten".as_slice()));
/// ```
#[must_use]
pub fn cursor_matching<'a, L: Layout, const SLOTS: usize, A, M, B>(
    alloc: B,
    trie: &'a Trie<L, SLOTS, A>,
    automaton: M,
) -> MatchingCursor<'a, Trie<L, SLOTS, A>, M, B>
where
    A: Allocator + Copy,
    M: Automaton + Drop,
    B: Allocator + Copy,

    //= The entries that an automaton matches are those of the dictionary, in iteration order, whose keys it accepts, an entry a call.
    //  [also entries_matching]
    ensures left { result.left ≡ filter (λ e. M.accepts automaton e.0) (walk trie.now.state.tree) }

    //= The walk goes to no node but those after each proper prefix of whose path the automaton can match, the empty one among them: it has
    //  so many nodes to go to before the first entry. [also entries_matching; by leads_on]
    ensures nodes { result.nodes ≡ length (filter (leads_on (M.after automaton) (M.may_match automaton) (M.initial automaton)) (prefixes trie.now.state.tree)) }

    //= The cursor holds no key before the first entry.
    ensures key { result.key ≡ [] }
{
    trie.stands_on_its_table();
    MatchingCursor::new(alloc, trie, automaton)
}

/// The entries of a dictionary whose keys an automaton accepts, in iteration order, each with a copy of its key from `alloc`: an iterator. It
/// goes to no node below one where the automaton can't match any more.
///
/// ```
/// cedar.build(&[("nest", 1), ("net", 7), ("ten", 2)])?;
/// for entry in entries_matching(rt.alloc(), &cedar, Pattern::new(b"n*t")?) {
///     let (key, value) = entry?;
///     assert!(rt; key.as_slice().starts_with(b"ne") && (value == 1 || value == 7));
/// }
/// ```
#[must_use]
pub fn entries_matching<'a, L: Layout, const SLOTS: usize, A, M, B>(
    alloc: B,
    trie: &'a Trie<L, SLOTS, A>,
    automaton: M,
) -> MatchingEntries<'a, Trie<L, SLOTS, A>, M, B>
where
    A: Allocator + Copy,
    M: Automaton + Drop,
    B: Allocator + Copy,
    ensures left { result.left ≡ filter (λ e. M.accepts automaton e.0) (walk trie.now.state.tree) }
    ensures nodes { result.nodes ≡ length (filter (leads_on (M.after automaton) (M.may_match automaton) (M.initial automaton)) (prefixes trie.now.state.tree)) }
{
    MatchingEntries::new(cursor_matching(alloc, trie, automaton))
}
