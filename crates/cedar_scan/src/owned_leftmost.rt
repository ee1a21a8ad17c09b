//! A dictionary and its automaton for leftmost matches in one.

ghost use Rattle.std.specs.Prelude.{◌≡◌};
ghost use Rattle.cedar_scan.specs.Words.{keys_for};

use crate::falls::{KeywordParts, build_parts};
use crate::kind::MatchKind;
use crate::leftmost::Leftmost;
use crate::owned::height_of;
use crate::placed::Placed;
use crate::preferred::PreferredKeys;
use crate::state::PlacedNode;
use std::alloc::{AllocError, Allocator};
use std::marker::Model;

/// What [`PreferredKeys`](crate::PreferredKeys) are, of a dictionary that they own.
#[derive(Drop)]
pub struct OwnedKeys<T: Placed + Drop> {
    trie: T,
    kind: MatchKind,
}

impl<T: Placed + Drop> Placed for OwnedKeys<T> {
    ghost tree = { λ keys. keys_for keys.kind (T.tree keys.trie) };

    ghost slot_of = { λ keys. T.slot_of keys.trie };

    fn nodes<A: Allocator + Copy>(&self, alloc: A) -> Result<Vec<PlacedNode, A>, AllocError> {
        let keys = PreferredKeys {
            trie: &self.trie,
            kind: self.kind,
        };
        keys.nodes(alloc)
    }
}

/// What a [`LeftmostScanner`](crate::LeftmostScanner) is, with a dictionary of its own in place of a borrowed one. It holds what that
/// holds, and the dictionary.
///
/// A contract sees the kind of match, and the labelled tree of the dictionary.
#[derive(Drop)]
pub struct OwnedLeftmostScanner<T: Placed + Drop, A: Allocator> {
    keys: OwnedKeys<T>,
    parts: KeywordParts<A>,
    // How many labels lead to the lowest node.
    height: usize,
}

impl<T: Placed + Drop, A: Allocator> Model for OwnedLeftmostScanner<T, A> {
    ghost use Rattle.cedar_scan.specs.Words.{IsHeight, IsKeywordAutomaton, keys_for, leftmost_code};
    ghost use Rattle.cedar_scan.specs.Words.{LeftmostKeys, slot_of_path};

    ghost Value = { LeftmostKeys };

    ghost coded = { leftmost_code };

    ghost view = { λ it. record { kind = it.keys.kind; tree = T.tree it.keys.trie } };

    ghost invariant = { λ it. IsKeywordAutomaton (keys_for it.keys.kind (T.tree it.keys.trie)) (slot_of_path it.parts.states.items)
        it.parts.states.items it.parts.falls.items it.parts.popped.items × IsHeight (T.tree it.keys.trie) it.height };
}

impl<T: Placed + Drop, A: Allocator + Copy> OwnedLeftmostScanner<T, A> {
    ghost use Rattle.std.specs.Prelude.{◌*◌, ◌-◌, ◌≡◌, IfErr, IfOk, length};
    ghost use Rattle.cedar_scan.specs.Words.{IsHeight, leftmost_from, LeftmostKeys};

    /// The automaton of a dictionary, which it takes, for a kind of match. It allocates from `alloc`, and until it returns lists of the
    /// dictionary's nodes and of their slots, and what sorts of the nodes need.
    ///
    /// ```
    /// cedar.build(&[("he", 1), ("her", 2), ("ero", 3)])?;
    /// let Ok(longest) = OwnedLeftmostScanner::new(cedar, MatchKind::LeftmostLongest, rt.alloc()) else {
    ///     panic!(rt; "no memory");
    /// };
    /// let mut found = longest.leftmost_from(b"the heroes", 0);
    /// assert_eq!(rt; found.next(), Some((1, 2, 1)));
    /// assert_eq!(rt; found.next(), Some((4, 3, 2)));
    /// ```
    ///
    /// # Errors
    /// The dictionary, as it was, if an allocation was refused, or if the lists would have 2^32 keys.
    pub fn new(trie: T, kind: MatchKind, alloc: A) -> Result<Self, T>
        //= A scanner for leftmost matches that owns its dictionary is made of the dictionary's tree and a kind of match. If there is no
        //  memory for it, the dictionary is given back. [with refused]
        ensures made { IfOk result (λ scanner. scanner ≡ record { kind = kind; tree = T.tree trie }) }
        ensures refused { IfErr result (λ back. back ≡ trie) }
    {
        let Ok(height) = height_of(&trie, alloc) else {
            return Err(trie);
        };
        let keys = OwnedKeys { trie, kind };
        match build_parts(&keys, alloc) {
            Ok(parts) => Ok(OwnedLeftmostScanner {
                keys,
                parts,
                height,
            }),
            Err(_) => Err(keys.trie),
        }
    }

    /// How many bytes the longest key has, or 0 if there is none.
    ///
    /// ```
    /// assert_eq!(rt; owned.longest_len(), 4);
    /// ```
    pub fn longest_len(&self) -> usize
        ensures { IsHeight self.now.tree result }
    {
        self.height
    }

    /// Finds keys in a text that don't overlap from a position on, as [`leftmost`](crate::LeftmostScanner::leftmost) does. From the end of
    /// a match it goes on as the whole search would. From a position after the end there are none.
    ///
    /// ```
    /// let mut found = owned.leftmost_from(b"she hers", 3);
    /// assert_eq!(rt; found.next(), Some((4, 4, 3)));
    /// assert_eq!(rt; found.next(), None);
    /// ```
    pub fn leftmost_from<'s>(&'s self, text: &'s [u8], place: usize) -> Leftmost<'s, OwnedKeys<T>>
        //= The leftmost matches from a position on are, from left to right, of the keys that begin at a position the one that counts, and
        //  so on from its end.
        ensures rest { result.rest ≡ leftmost_from self.now.kind self.now.tree place text.now }
        ensures steps { result.steps ≡ 2 * (length text.now - place) }
    {
        Leftmost::behind(
            &self.keys,
            &self.parts.states,
            &self.parts.falls,
            &self.parts.popped,
            text,
            place,
        )
    }
}
