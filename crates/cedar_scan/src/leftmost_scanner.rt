//! The automaton for leftmost matches, beside a dictionary.

use crate::falls::{KeywordParts, build_parts};
use crate::kind::MatchKind;
use crate::leftmost::Leftmost;
use crate::placed::Placed;
use crate::preferred::PreferredKeys;
use std::alloc::{AllocError, Allocator};
use std::marker::Model;

/// An automaton beside a dictionary, by which keys that don't overlap are found in linear time: of those that begin first one, and so on
/// from its end. It borrows the dictionary, which stays as it is while the scanner lives. It has slots of its own, about one for each
/// node and no more than the dictionary has up to that of its last node, and holds 36 bytes for each. For each node it holds 12 bytes for
/// each key that the node's path gives where it can't go on: at most as many keys as the path has bytes.
///
/// Where a path can't go on, its keys are known, and what is left of it that may still begin a key: so a search never goes back in the text.
/// That is linear maximum matching (Song, Salcianu, Song, Dopson and Zhou, "Fast WordPiece Tokenization", 2021).
///
/// A contract sees the kind of match, and the labelled tree of the dictionary.
#[derive(Drop)]
pub struct LeftmostScanner<'a, T: Placed, A: Allocator> {
    keys: PreferredKeys<'a, T>,
    parts: KeywordParts<A>,
}

impl<'a, T: Placed, A: Allocator> Model for LeftmostScanner<'a, T, A> {
    ghost use Rattle.cedar_scan.specs.Words.{IsKeywordAutomaton, keys_for, leftmost_code};
    ghost use Rattle.cedar_scan.specs.Words.{LeftmostKeys, slot_of_path};

    ghost Value = { LeftmostKeys };

    ghost coded = { leftmost_code };

    ghost view = { λ it. record { kind = it.keys.kind; tree = T.tree it.keys.trie.now } };

    ghost invariant = { λ it. IsKeywordAutomaton (keys_for it.keys.kind (T.tree it.keys.trie.now)) (slot_of_path it.parts.states.items)
        it.parts.states.items it.parts.falls.items it.parts.popped.items };
}

impl<'a, T: Placed, A: Allocator + Copy> LeftmostScanner<'a, T, A> {
    ghost use Rattle.std.specs.Prelude.{◌*◌, ◌≡◌, IfOk, length};
    ghost use Rattle.cedar_scan.specs.Words.{leftmost, LeftmostKeys};

    /// The automaton of a dictionary, for a kind of match. It allocates from `alloc`, and until it returns lists of the dictionary's nodes
    /// and of their slots, and what sorts of the nodes need.
    ///
    /// ```
    /// cedar.build(&[("he", 1), ("her", 2), ("ero", 3)])?;
    /// let longest = LeftmostScanner::new(&cedar, MatchKind::LeftmostLongest, rt.alloc())?;
    /// ```
    ///
    /// # Errors
    /// If an allocation was refused, or if the lists would have 2^32 keys.
    pub fn new(trie: &'a T, kind: MatchKind, alloc: A) -> Result<Self, AllocError>
        //= A scanner for leftmost matches is made of a dictionary's tree and a kind of match.
        ensures { IfOk result (λ scanner. scanner ≡ record { kind = kind; tree = T.tree trie.now }) }
    {
        let keys = PreferredKeys { trie, kind };
        let parts = build_parts(&keys, alloc)?;
        Ok(LeftmostScanner { keys, parts })
    }

    /// Finds keys in a text that don't overlap: from left to right, of the keys that begin at a position the longest, or the one with the
    /// least value, and so on from its end. It returns an iterator, which allocates nothing.
    ///
    /// ```
    /// cedar.build(&[("he", 1), ("her", 2), ("ero", 3)])?;
    /// let longest = LeftmostScanner::new(&cedar, MatchKind::LeftmostLongest, rt.alloc())?;
    /// let mut found = longest.leftmost(b"the heroes");
    /// assert_eq!(rt; found.next(), Some((1, 2, 1)));
    /// assert_eq!(rt; found.next(), Some((4, 3, 2)));
    /// assert_eq!(rt; found.next(), None);
    /// let first = LeftmostScanner::new(&cedar, MatchKind::LeftmostFirst, rt.alloc())?;
    /// let mut found = first.leftmost(b"the heroes");
    /// assert_eq!(rt; found.next(), Some((1, 2, 1)));
    /// assert_eq!(rt; found.next(), Some((4, 2, 1)));
    /// ```
    pub fn leftmost<'s>(&'s self, text: &'s [u8]) -> Leftmost<'s, PreferredKeys<'a, T>>
        //= The leftmost matches of a text are, from left to right, of the keys that begin at a position the one that counts, and so on from
        //  its end, an item a call. [also Leftmost.next_gives]
        ensures rest { result.rest ≡ leftmost self.now.kind self.now.tree text.now }

        //= At most two steps for each byte of the text are to come.
        ensures steps { result.steps ≡ 2 * length text.now }
    {
        Leftmost::new(
            &self.keys,
            &self.parts.states,
            &self.parts.falls,
            &self.parts.popped,
            text,
        )
    }
}
