//! The keywords of a text, which don't overlap.

ghost use Rattle.std.specs.Prelude.{◌≡◌, drop, List, ⊤};
ghost use Rattle.cedar_words.specs.Words.{item_count, keywords_from, keywords_in};
ghost use Rattle.cedar_words.specs.Words.{keywords_of, Spot, YieldsFirst};

use crate::longest::LongestPrefix;
use crate::segments::{Segments, segment, segment_from};
use cedarwood::{Layout, Trie};
use std::alloc::{AllocError, Allocator};
use std::iter::FusedIterator;
use std::marker::Model;

/// The keywords of a text in their order: for each where it begins, how many bytes it has, and its value. It allocates nothing, and a clone
/// goes on from the same position.
///
/// A contract sees the keywords that are left.
#[derive(Drop)]
pub struct Keywords<'a, T: LongestPrefix> {
    tokens: Segments<'a, T>,
}

impl<'a, T: LongestPrefix> Model for Keywords<'a, T> {
    ghost Value = { List Spot };

    ghost view = { λ it. keywords_of it.tokens };
}

/// Finds the keywords of a text, leftmost longest: of the keys that begin first the longest, and so on from its end. Bytes that no key
/// begins with are passed. It returns an iterator, which borrows the dictionary and the text and allocates nothing.
///
/// ```
/// cedar.build(&[("he", 1), ("her", 2), ("ero", 3)])?;
/// let mut keywords = leftmost_longest(&cedar, b"the heroes");
/// assert_eq!(rt; keywords.next(), Some((1, 2, 1)));
/// assert_eq!(rt; keywords.next(), Some((4, 3, 2)));
/// assert_eq!(rt; keywords.next(), None);
/// ```
pub fn leftmost_longest<'a, L: Layout, const SLOTS: usize, A: Allocator + Copy>(
    trie: &'a Trie<L, SLOTS, A>,
    text: &'a [u8],
) -> Keywords<'a, Trie<L, SLOTS, A>>
    //= The keywords of a text are the tokens of `segment` that have a value, an item a call. [also Keywords.next_gives]
    ensures { result ≡ keywords_in trie.now.state.tree text.now }
{
    Keywords {
        tokens: segment(trie, text),
    }
}

/// Finds the keywords of a text from a position on, as `leftmost_longest` does. From the end of a keyword on they are those that come after
/// it; from a position inside one others may be found. From a position after the text's end there are none.
///
/// ```
/// cedar.build(&[("he", 1), ("her", 2), ("ero", 3)])?;
/// let mut later = leftmost_longest_from(&cedar, b"the heroes", 5);
/// assert_eq!(rt; later.next(), Some((5, 3, 3)));
/// assert_eq!(rt; later.next(), None);
/// ```
pub fn leftmost_longest_from<'a, L: Layout, const SLOTS: usize, A: Allocator + Copy>(
    trie: &'a Trie<L, SLOTS, A>,
    text: &'a [u8],
    place: usize,
) -> Keywords<'a, Trie<L, SLOTS, A>>
    //= The keywords from a position on are the tokens from there on that have a value.
    ensures { result ≡ keywords_from trie.now.state.tree place (drop place text.now) }
{
    Keywords {
        tokens: segment_from(trie, text, place),
    }
}

/// The next token that is a key.
fn next_keyword<T: LongestPrefix>(tokens: &mut Segments<'_, T>) -> Option<(usize, usize, i32)>
    ensures { YieldsFirst keywords_of tokens.old result tokens.new }
{
    while let Some((start, len, value)) = tokens.next() {
        if let Some(value) = value {
            return Some((start, len, value));
        }
    }
    None
}

impl<'a, T: LongestPrefix> Clone for Keywords<'a, T> {
    //= Keywords that have ended stay ended, and a clone goes on from the same position. [with is_infallible; by FusedIterator]
    ghost is_clone = { λ it copy. copy ≡ it };

    ghost is_infallible = { λ _. ⊤ };

    fn clone(&self) -> Result<Self, AllocError> {
        Ok(Keywords {
            tokens: self.tokens.clone()?,
        })
    }
}

impl<'a, T: LongestPrefix> Iterator for Keywords<'a, T> {
    type Item = (usize, usize, i32);

    ghost next_gives = { YieldsFirst (λ (rest : List Spot). rest) };

    ghost remaining = { item_count (λ (rest : List Spot). rest) };

    fn next(&mut self) -> Option<(usize, usize, i32)> {
        next_keyword(&mut self.tokens)
    }
}

impl<'a, T: LongestPrefix> FusedIterator for Keywords<'a, T> {}
