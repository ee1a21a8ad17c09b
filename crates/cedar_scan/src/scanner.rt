//! The automaton beside a dictionary, which texts are searched by.

use crate::build::build;
use crate::earliest::Earliest;
use crate::overlapping::Overlapping;
use crate::placed::Placed;
use crate::state::{ListedKey, State};
use crate::stream::Stream;
use std::alloc::{AllocError, Allocator};
use std::marker::Model;

/// An automaton beside a dictionary, by which texts are searched for its keys in linear time. It borrows the dictionary, which stays as it
/// is while the scanner lives. It has slots of its own, about one for each node and no more than the dictionary has up to that of its last
/// node, and holds 20 bytes for each, and 12 for each key.
///
/// Its links are those of Aho and Corasick ("Efficient string matching", 1975): from each node to the longest proper suffix of its path that
/// leads to a node, and to the longest suffix that is a key.
///
/// A contract sees the labelled tree of the dictionary.
#[derive(Drop)]
pub struct Scanner<'a, T: Placed, A: Allocator> {
    trie: &'a T,
    states: Vec<State, A>,
    keys: Vec<ListedKey, A>,
}

impl<'a, T: Placed, A: Allocator> Model for Scanner<'a, T, A> {
    ghost use Rattle.cedar_scan.specs.Words.{IsAutomaton, slot_of_path, Tree};
    ghost use Rattle.cedar_tree.specs.Stored.{coded_tree};

    ghost Value = { Tree };

    ghost coded = { coded_tree };

    ghost view = { λ it. T.tree it.trie.now };

    ghost invariant = { λ it. IsAutomaton (T.tree it.trie.now) (slot_of_path it.states.items) it.states.items it.keys.items };
}

impl<'a, T: Placed, A: Allocator + Copy> Scanner<'a, T, A> {
    ghost use Rattle.std.specs.Prelude.{◌*◌, ◌≡◌, [], IfOk, length};
    ghost use Rattle.cedar_scan.specs.Words.{earliest, overlapping, StreamAt};

    /// The automaton of a dictionary. It allocates its states and keys from `alloc`, and until it returns lists of the dictionary's nodes and
    /// of their slots, and what sorts of the nodes need.
    ///
    /// ```
    /// cedar.build(&[("he", 1), ("she", 2), ("hers", 3)])?;
    /// let scanner = Scanner::new(&cedar, rt.alloc())?;
    /// ```
    ///
    /// # Errors
    /// If an allocation was refused.
    pub fn new(trie: &'a T, alloc: A) -> Result<Self, AllocError>
        //= A scanner is made of a dictionary's tree.
        ensures { IfOk result (λ scanner. scanner ≡ T.tree trie.now) }
    {
        let parts = build(trie, alloc)?;
        Ok(Scanner {
            trie,
            states: parts.states,
            keys: parts.keys,
        })
    }

    /// Finds all keys in a text, by their ends: at each end the longest first. They may overlap. It returns an iterator, which allocates
    /// nothing.
    ///
    /// ```
    /// cedar.build(&[("he", 1), ("she", 2), ("hers", 3)])?;
    /// let scanner = Scanner::new(&cedar, rt.alloc())?;
    /// let mut found = scanner.overlapping(b"ushers");
    /// assert_eq!(rt; found.next(), Some((1, 3, 2)));
    /// assert_eq!(rt; found.next(), Some((2, 2, 1)));
    /// assert_eq!(rt; found.next(), Some((2, 4, 3)));
    /// assert_eq!(rt; found.next(), None);
    /// ```
    pub fn overlapping<'s>(&'s self, text: &'s [u8]) -> Overlapping<'s, T>
        //= The overlapping matches of a text are the keys that end at each of its positions, end after end and at each the longest first,
        //  an item a call. [also Overlapping.next_gives]
        ensures rest { result.rest ≡ overlapping self.now text.now }

        //= At most two steps for each byte of the text are to come.
        ensures steps { result.steps ≡ 2 * length text.now }
    {
        Overlapping::new(self.trie, &self.states, &self.keys, text)
    }
    /// Finds keys in a text that don't overlap, by their ends: of the keys that end first the longest, and so on from its end. This is the
    /// standard search of the crate aho-corasick. It returns an iterator, which allocates nothing.
    ///
    /// ```
    /// cedar.build(&[("he", 1), ("she", 2), ("hers", 3)])?;
    /// let scanner = Scanner::new(&cedar, rt.alloc())?;
    /// let mut found = scanner.earliest(b"ushers");
    /// assert_eq!(rt; found.next(), Some((1, 3, 2)));
    /// assert_eq!(rt; found.next(), None);
    /// ```
    pub fn earliest<'s>(&'s self, text: &'s [u8]) -> Earliest<'s, T>
        //= The earliest matches of a text are, from its beginning and from the end of each on, the longest of the keys that end first, an
        //  item a call. [also Earliest.next_gives]
        ensures rest { result.rest ≡ earliest self.now text.now }

        //= At most two steps for each byte of the text are to come.
        ensures steps { result.steps ≡ 2 * length text.now }
    {
        Earliest::new(self.trie, &self.states, &self.keys, text)
    }

    /// Begins to search a text that comes in pieces.
    ///
    /// ```
    /// cedar.build(&[("he", 1)])?;
    /// let scanner = Scanner::new(&cedar, rt.alloc())?;
    /// let mut stream = scanner.stream();
    /// assert_eq!(rt; stream.next_in(b"h"), None);
    /// assert_eq!(rt; stream.next_in(b"e"), Some((0, 2, 1)));
    /// ```
    pub fn stream(&self) -> Stream<'_, T>
        //= A stream begins with nothing read.
        ensures { result ≡ record { tree = self.now; suffix = []; pending = []; read = 0; place = 0 } }
    {
        Stream::new(self.trie, &self.states, &self.keys)
    }
}
