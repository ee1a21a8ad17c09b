//! The tokens of a text, one after another.

ghost use Rattle.std.specs.Prelude.{◌+◌, ◌<◌, ◌^◌, ◌≡◌, ◌≤◌, drop, IfSome, length};
ghost use Rattle.std.specs.Prelude.{List, min, Some, ⊤};
ghost use Rattle.cedar_words.specs.Words.{bytes_in, found_number, IsWithinCount, item_count};
ghost use Rattle.cedar_words.specs.Words.{len_of, longest, segments, Token, tokens_behind};
ghost use Rattle.cedar_words.specs.Words.{UpTo, YieldsFirst};

use crate::longest::LongestPrefix;
use cedarwood::{Layout, Trie};
use std::alloc::{AllocError, Allocator};
use std::iter::FusedIterator;
use std::marker::Model;

/// The tokens of a text in their order: for each where it begins, how many bytes it has, and its value if it has one. It allocates nothing,
/// and a clone goes on from the same position.
///
/// A contract sees the tokens that are left.
#[derive(Drop)]
pub struct Segments<'a, T: LongestPrefix> {
    trie: &'a T,
    // The bytes that no token has yet, and where they begin in the text.
    rest: &'a [u8],
    place: usize,
}

impl<'a, T: LongestPrefix> Model for Segments<'a, T> {
    ghost Value = { List Token };

    ghost view = { λ it. tokens_behind (T.tree it.trie.now) 0 it.place it.rest.now };

    ghost invariant = { λ it. it.place + length it.rest.now < 2 ^ 64 };
}

/// Cuts a text into tokens: at each position the longest key that begins there, with its value, or else one byte without a value. The
/// tokens cover the text in order. They borrow the dictionary and the text, and allocate nothing.
///
/// ```
/// cedar.build(&[("a", 1), ("abc", 3)])?;
/// let mut tokens = segment(&cedar, b"abab");
/// assert_eq!(rt; tokens.next(), Some((0, 1, Some(1))));
/// assert_eq!(rt; tokens.next(), Some((1, 1, None)));
/// ```
pub fn segment<'a, L: Layout, const SLOTS: usize, A: Allocator + Copy>(
    trie: &'a Trie<L, SLOTS, A>,
    text: &'a [u8],
) -> Segments<'a, Trie<L, SLOTS, A>>
    //= The tokens are `segments` of the dictionary's tree and the text, an item a call. [also Segments.next_gives]
    ensures { result ≡ segments trie.now.state.tree text.now }
{
    Segments {
        trie,
        rest: text,
        place: 0,
    }
}

/// Cuts a text into tokens from a position on, as `segment` does. From the end of a token on they are those that come after it; from a
/// position inside one others may be found. From a position after the text's end there are none.
///
/// ```
/// cedar.build(&[("a", 1), ("abc", 3)])?;
/// let mut later = segment_from(&cedar, b"abab", 2);
/// assert_eq!(rt; later.next(), Some((2, 1, Some(1))));
/// assert_eq!(rt; later.next(), Some((3, 1, None)));
/// ```
pub fn segment_from<'a, L: Layout, const SLOTS: usize, A: Allocator + Copy>(
    trie: &'a Trie<L, SLOTS, A>,
    text: &'a [u8],
    place: usize,
) -> Segments<'a, Trie<L, SLOTS, A>>
    //= The tokens from a position on are those of what is left there, each with its position in the whole text.
    ensures { result ≡ tokens_behind trie.now.state.tree 0 place (drop place text.now) }
{
    let start = place.min(text.len());
    Segments {
        trie,
        rest: &text[start..],
        place: start,
    }
}

/// How many bytes the first token of a text has, and its value if it has one.
fn first_token<T: LongestPrefix>(trie: &T, text: &[u8]) -> (usize, Option<i32>)
    requires { 0 < length text.now }
    ensures len { result.0 ≡ len_of (longest (T.tree trie.now) text.now) }
    ensures number { result.1 ≡ found_number (longest (T.tree trie.now) text.now) }
    ensures within { result.0 ≤ length text.now }
{
    match trie.longest_prefix(text) {
        Some((value, others)) => (others + 1, Some(value)),
        None => (1, None),
    }
}

impl<'a, T: LongestPrefix> Clone for Segments<'a, T> {
    //= What has ended stays ended, and a clone goes on from the same position. [with is_infallible; by FusedIterator]
    ghost is_clone = { λ it copy. copy ≡ it };

    ghost is_infallible = { λ _. ⊤ };

    fn clone(&self) -> Result<Self, AllocError> {
        Ok(Segments {
            trie: self.trie,
            rest: self.rest,
            place: self.place,
        })
    }
}

impl<'a, T: LongestPrefix> Iterator for Segments<'a, T> {
    type Item = (usize, usize, Option<i32>);

    ghost next_gives = { YieldsFirst (λ (rest : List Token). rest) };

    ghost remaining = { item_count (λ (rest : List Token). rest) };

    fn next(&mut self) -> Option<(usize, usize, Option<i32>)> {
        if self.rest.is_empty() {
            return None;
        }
        let (len, value) = first_token(self.trie, self.rest);
        let start = self.place;
        self.place += len;
        self.rest = &self.rest[len..];
        Some((start, len, value))
    }

    fn size_hint(&self) -> (usize, Option<usize>)
        //= How many tokens are left is within the size hint. [with upper]
        ensures lower { IsWithinCount result.0 (item_count (λ (rest : List Token). rest) self.now) }
        ensures upper { IfSome result.1 (UpTo (item_count (λ (rest : List Token). rest) self.now)) }

        //= The size hint is from one token, if bytes are left, to as many as there are bytes.
        ensures hint { result ≡ (min (bytes_in self.now) 1, Some (bytes_in self.now)) }
    {
        let left = self.rest.len();
        (left.min(1), Some(left))
    }
}

impl<'a, T: LongestPrefix> FusedIterator for Segments<'a, T> {}
