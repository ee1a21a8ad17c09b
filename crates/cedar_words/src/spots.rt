//! All keys in a text.

ghost use Rattle.std.specs.Prelude.{◌-◌, ◌≡◌, ◌≤◌, drop, length, List, ⊤};
ghost use Rattle.cedar_words.specs.Words.{AreWithin, front, item_count, Spot, spots_at, spots_from};
ghost use Rattle.cedar_words.specs.Words.{spots_left, Tree, YieldsFirst};

use crate::costs::NextFront;
use cedarwood::{Layout, PrefixIter, Trie, Walked};
use std::alloc::{AllocError, Allocator};
use std::iter::FusedIterator;
use std::marker::Model;

/// What walks over the keys that a text begins with: any dictionary. The matches of a text need nothing else.
pub trait Fronts: Walked {
    /// The labelled tree that the results come from.
    ghost fronts_of: { Self → Tree };

    /// The keys that a text begins with, the shortest first. It allocates nothing.
    ///
    /// ```
    /// cedar.build(&[("he", 1), ("her", 2), ("ero", 3)])?;
    /// let mut fronts = cedar.fronts(b"hero");
    /// assert_eq!(rt; fronts.next(), Some((1, 1)));
    /// assert_eq!(rt; fronts.next(), Some((2, 2)));
    /// ```
    fn fronts<'a>(&'a self, text: &'a [u8]) -> PrefixIter<'a, Self>
        //= The walks that matches are made of have the keys that a text begins with.
        ensures { result.rest ≡ front (fronts_of self.now) text.now };
}

impl<L: Layout, const SLOTS: usize, A: Allocator + Copy> Fronts for Trie<L, SLOTS, A> {
    ghost fronts_of = { λ trie. trie.state.tree };

    fn fronts<'a>(&'a self, text: &'a [u8]) -> PrefixIter<'a, Self> {
        self.common_prefix_iter_bytes(text)
    }
}

/// All keys in a text, position after position, and at each the shortest first: for each where it begins, how many bytes it has, and its
/// value. They may overlap. It allocates nothing, and a clone goes on from the same position.
///
/// A contract sees those that are left.
#[derive(Drop)]
pub struct AllMatches<'a, T: Fronts> {
    trie: &'a T,
    text: &'a [u8],
    // The position, and what is left of the walk there.
    place: usize,
    walk: PrefixIter<'a, T>,
}

impl<'a, T: Fronts> Model for AllMatches<'a, T> {
    ghost Value = { List Spot };

    ghost view = { λ it. spots_left (T.fronts_of it.trie.now) it.text.now it.place it.walk.rest };

    ghost invariant = { λ it. (it.place ≤ length it.text.now) × AreWithin (length it.text.now - it.place) it.walk.rest };
}

/// Finds all keys in a text: position after position, and at each the shortest first. It returns an iterator, which borrows the dictionary
/// and the text and allocates nothing.
///
/// ```
/// cedar.build(&[("he", 1), ("her", 2), ("ero", 3)])?;
/// let mut found = matches(&cedar, b"hero");
/// assert_eq!(rt; found.next(), Some((0, 2, 1)));
/// assert_eq!(rt; found.next(), Some((0, 3, 2)));
/// assert_eq!(rt; found.next(), Some((1, 3, 3)));
/// assert_eq!(rt; found.next(), None);
/// ```
pub fn matches<'a, L: Layout, const SLOTS: usize, A: Allocator + Copy>(
    trie: &'a Trie<L, SLOTS, A>,
    text: &'a [u8],
) -> AllMatches<'a, Trie<L, SLOTS, A>>
    //= The matches of a text are the keys that begin at each of its positions, position after position and at each the shortest first, an
    //  item a call. [also AllMatches.next_gives]
    ensures { result ≡ spots_from trie.now.state.tree 0 text.now }
{
    matches_from(trie, text, 0)
}

/// Finds the keys in a text from a position on, as `matches` does: those that begin there or after it. From a position after the end there
/// are none.
///
/// ```
/// cedar.build(&[("he", 1), ("her", 2), ("ero", 3)])?;
/// let mut later = matches_from(&cedar, b"hero", 1);
/// assert_eq!(rt; later.next(), Some((1, 3, 3)));
/// assert_eq!(rt; later.next(), None);
/// ```
pub fn matches_from<'a, L: Layout, const SLOTS: usize, A: Allocator + Copy>(
    trie: &'a Trie<L, SLOTS, A>,
    text: &'a [u8],
    place: usize,
) -> AllMatches<'a, Trie<L, SLOTS, A>>
    //= The matches from a position on are the keys that begin there or after it.
    ensures { result ≡ spots_from trie.now.state.tree place (drop place text.now) }
{
    let start = place.min(text.len());
    AllMatches {
        trie,
        text,
        place: start,
        walk: trie.common_prefix_iter_bytes(&text[start..]),
    }
}

/// The next key at this position, or at the first position after it where one begins.
fn next_match<'a, T: Fronts>(
    trie: &'a T,
    text: &'a [u8],
    place: &mut usize,
    walk: &mut PrefixIter<'a, T>,
) -> Option<(usize, usize, i32)>
    requires place { place.old ≤ length text.now }
    requires within { AreWithin (length text.now - place.old) walk.old.rest }
    ensures gives { YieldsFirst (spots_at (T.fronts_of trie.now) text.now) (place.old, walk.old.rest) result (place.new, walk.new.rest) }
    ensures place { place.new ≤ length text.now }
    ensures within { AreWithin (length text.now - place.new) walk.new.rest }
{
    while *place < text.len() {
        if let Some((value, others)) = walk.next_front() {
            return Some((*place, others + 1, value));
        }
        *place += 1;
        *walk = trie.fronts(&text[*place..]);
    }
    None
}

impl<'a, T: Fronts> Clone for AllMatches<'a, T> {
    //= Matches that have ended stay ended, and a clone goes on from the same position. [with is_infallible; by FusedIterator]
    ghost is_clone = { λ it copy. copy ≡ it };

    ghost is_infallible = { λ _. ⊤ };

    fn clone(&self) -> Result<Self, AllocError> {
        Ok(AllMatches {
            trie: self.trie,
            text: self.text,
            place: self.place,
            walk: self.walk.clone()?,
        })
    }
}

impl<'a, T: Fronts> Iterator for AllMatches<'a, T> {
    type Item = (usize, usize, i32);

    ghost next_gives = { YieldsFirst (λ (rest : List Spot). rest) };

    ghost remaining = { item_count (λ (rest : List Spot). rest) };

    fn next(&mut self) -> Option<(usize, usize, i32)> {
        next_match(self.trie, self.text, &mut self.place, &mut self.walk)
    }
}

impl<'a, T: Fronts> FusedIterator for AllMatches<'a, T> {}
