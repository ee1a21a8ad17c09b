//! A dictionary and its automaton in one.

ghost use Rattle.std.specs.Prelude.{◌*◌, ◌+◌, ◌≡◌, ◌≤◌, ◌⊎◌, IfOk, List};
ghost use Rattle.std.specs.List.{All, Contains};
ghost use Rattle.cedar_scan.specs.Words.{held_suffix, IsAutomaton, IsBlankOf, IsHeight};
ghost use Rattle.cedar_scan.specs.Words.{slot_of_path};
ghost use Rattle.cedar_scan.specs.declared.state.ListedKey.{ListedKey};
ghost use Rattle.cedar_scan.specs.declared.state.PlacedNode.{PlacedNode};

use crate::build::build;
use crate::earliest::Earliest;
use crate::overlapping::Overlapping;
use crate::placed::Placed;
use crate::state::{ListedKey, PlacedNode, State};
use crate::step::step;
use crate::stream::Stream;
use cedar_slots::Ticks;
use std::alloc::{AllocError, Allocator};
use std::marker::{Brand, Model};
use std::sync::ledger::{Blank, Ledger};

/// Returns how many labels lead to the lowest of some nodes, or 0 if there is none.
fn lowest_depth(nodes: &[PlacedNode]) -> usize
    ensures most { All (λ n. n.depth ≤ result) nodes.now }
    ensures slot_of_path { (result ≡ 0) ⊎ ((n : PlacedNode) × Contains nodes.now n × (n.depth ≡ result)) }
{
    let mut most = 0;
    for node in nodes {
        let depth = node.depth as usize;
        if most < depth {
            most = depth;
        }
    }
    most
}

/// Returns how many labels lead to the lowest node of a dictionary's tree. It allocates a list of the nodes until it returns.
pub(crate) fn height_of<T: Placed, A: Allocator + Copy>(
    trie: &T,
    alloc: A,
) -> Result<usize, AllocError>
    ensures { IfOk result (λ height. IsHeight (T.tree trie.now) height) }
{
    let nodes = trie.nodes(alloc)?;
    Ok(lowest_depth(&nodes))
}

/// Returns the slot of the longest suffix of what was read of a text that leads to a node. It has no more bytes than the longest key, so
/// that no others are looked at.
fn state_behind<T: Placed, C: Ledger>(
    trie: &T,
    states: &[State],
    height: usize,
    read: &[u8],
    ticks: &mut Ticks<C>,
) -> usize
    requires automaton { (keys : List ListedKey) × IsAutomaton (T.tree trie.now) (slot_of_path states.now) states.now keys }
    requires height { IsHeight (T.tree trie.now) height }
    ensures state { result ≡ slot_of_path states.now (held_suffix (T.tree trie.now) read.now) }
    ensures cost { ticks.new ≤ ticks.old + 2 * height }
{
    let first = read.len().saturating_sub(height);
    let mut state = 0;
    let last = &read[first..];
    for byte in last {
        state = step(trie, states, state, *byte, ticks);
    }
    state
}

/// The same, with a count of its own, which nothing reads.
fn uncounted_state<C: Ledger, T: Placed>(
    trie: &T,
    states: &[State],
    height: usize,
    read: &[u8],
    blank: Blank,
) -> usize
    requires blank { IsBlankOf C.name C.parts blank }
    requires automaton { (keys : List ListedKey) × IsAutomaton (T.tree trie.now) (slot_of_path states.now) states.now keys }
    requires height { IsHeight (T.tree trie.now) height }
    ensures { result ≡ slot_of_path states.now (held_suffix (T.tree trie.now) read.now) }
{
    state_behind(trie, states, height, read, &mut Ticks::<C>::new(blank))
}

/// What a [`Scanner`](crate::Scanner) is, with a dictionary of its own in place of a borrowed one: for whoever keeps a scanner beside other
/// things, or hands it on. It holds what that holds, and the dictionary.
///
/// A contract sees the labelled tree of the dictionary.
#[derive(Drop)]
pub struct OwnedScanner<T: Placed + Drop, A: Allocator> {
    trie: T,
    states: Vec<State, A>,
    keys: Vec<ListedKey, A>,
    // How many labels lead to the lowest node.
    height: usize,
}

impl<T: Placed + Drop, A: Allocator> Model for OwnedScanner<T, A> {
    ghost use Rattle.cedar_scan.specs.Words.{IsAutomaton, IsHeight, slot_of_path, Tree};
    ghost use Rattle.cedar_tree.specs.Stored.{coded_tree};

    ghost Value = { Tree };

    ghost coded = { coded_tree };

    ghost view = { λ it. T.tree it.trie };

    ghost invariant = { λ it. IsAutomaton (T.tree it.trie) (slot_of_path it.states.items) it.states.items it.keys.items × IsHeight (T.tree it.trie) it.height };
}

impl<T: Placed + Drop, A: Allocator + Copy> OwnedScanner<T, A> {
    ghost use Rattle.std.specs.Prelude.{◌*◌, ◌+◌, ◌-◌, ◌≡◌, ◌≤◌, [], IfErr, IfOk, length, min};
    ghost use Rattle.cedar_scan.specs.Words.{earliest_behind, ending_behind, IsHeight, StreamAt};

    /// The automaton of a dictionary, which it takes. It allocates its states and keys from `alloc`, and until it returns lists of the
    /// dictionary's nodes and of their slots, and what sorts of the nodes need.
    ///
    /// ```
    /// cedar.build(&[("he", 1), ("she", 2), ("hers", 3)])?;
    /// let Ok(owned) = OwnedScanner::new(cedar, rt.alloc()) else {
    ///     panic!(rt; "no memory");
    /// };
    /// assert_eq!(rt; owned.longest_len(), 4);
    /// ```
    ///
    /// # Errors
    /// The dictionary, as it was, if an allocation was refused.
    pub fn new(trie: T, alloc: A) -> Result<Self, T>
        //= A scanner that owns its dictionary is made of the dictionary's tree. If there is no memory for it, the dictionary is given back.
        //  [with refused]
        ensures made { IfOk result (λ scanner. scanner ≡ T.tree trie) }
        ensures refused { IfErr result (λ back. back ≡ trie) }
    {
        let Ok(height) = height_of(&trie, alloc) else {
            return Err(trie);
        };
        let Ok(parts) = build(&trie, alloc) else {
            return Err(trie);
        };
        Ok(OwnedScanner {
            trie,
            states: parts.states,
            keys: parts.keys,
            height,
        })
    }

    /// How many bytes the longest key has, or 0 if there is none.
    ///
    /// ```
    /// assert_eq!(rt; owned.longest_len(), 4);
    /// ```
    pub fn longest_len(&self) -> usize
        //= What a scanner says of its longest key is how many labels lead to the lowest node of its dictionary's tree. [also
        //  OwnedLeftmostScanner::longest_len]
        ensures { IsHeight self.now result }
    {
        self.height
    }

    /// Finds the keys in a text that end behind a position, as [`overlapping`](crate::Scanner::overlapping) does: so a search can be left
    /// and gone on with. It reads the bytes before the position again, as many as the longest key has at most. From a position after the
    /// end there are none.
    ///
    /// ```
    /// let mut found = owned.overlapping_from(b"ushers", 4);
    /// assert_eq!(rt; found.next(), Some((2, 4, 3)));
    /// assert_eq!(rt; found.next(), None);
    /// ```
    pub fn overlapping_from<'s>(&'s self, text: &'s [u8], place: usize) -> Overlapping<'s, T>
        //= The overlapping matches behind a position of a text are the keys that end behind it, end after end and at each the longest
        //  first.
        ensures rest { result.rest ≡ ending_behind self.now place text.now }

        //= Besides the bytes before the position, at most two steps for each byte behind it are to come, and one for each byte before it.
        ensures steps { result.steps ≤ min place (length text.now) + 2 * (length text.now - place) }
    {
        let longest = self.longest_len();
        let start = place.min(text.len());
        let state = uncounted_state::<Brand, T>(
            &self.trie,
            &self.states,
            longest,
            &text[..start],
            Blank::new(1),
        );
        Overlapping::behind(&self.trie, &self.states, &self.keys, text, start, state)
    }

    /// Finds keys in a text that don't overlap from a position on, as [`earliest`](crate::Scanner::earliest) does. From the end of a match
    /// it goes on as the whole search would. From a position after the end there are none.
    ///
    /// ```
    /// let mut found = owned.earliest_from(b"she hers", 3);
    /// assert_eq!(rt; found.next(), Some((4, 2, 1)));
    /// assert_eq!(rt; found.next(), None);
    /// ```
    pub fn earliest_from<'s>(&'s self, text: &'s [u8], place: usize) -> Earliest<'s, T>
        //= The earliest matches from a position on are, from there and from the end of each on, the longest of the keys that end first.
        ensures rest { result.rest ≡ earliest_behind self.now place text.now }

        //= At most two steps for each byte from the position on are to come. [also OwnedLeftmostScanner::leftmost_from]
        ensures steps { result.steps ≡ 2 * (length text.now - place) }
    {
        Earliest::behind(&self.trie, &self.states, &self.keys, text, place)
    }

    /// Begins to search a text that comes in pieces, as [`stream`](crate::Scanner::stream) does.
    ///
    /// ```
    /// let mut stream = owned.stream();
    /// assert_eq!(rt; stream.next_in(b"h"), None);
    /// assert_eq!(rt; stream.next_in(b"e"), Some((0, 2, 1)));
    /// ```
    pub fn stream(&self) -> Stream<'_, T>
        //= A stream of a scanner that owns its dictionary begins with nothing read.
        ensures { result ≡ record { tree = self.now; suffix = []; pending = []; read = 0; place = 0 } }
    {
        Stream::new(&self.trie, &self.states, &self.keys)
    }
}
