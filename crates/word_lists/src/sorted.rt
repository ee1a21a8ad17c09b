//! A dictionary made at once of a list whose words ascend.

ghost use Rattle.std.specs.Prelude.{◌<◌, ◌≡◌, IfOk, IfSome, IsTrue, length};
ghost use Rattle.word_lists.specs.Words.{AddsLine, entries_of, fault, IsLimit, line_stored};
ghost use Rattle.word_lists.specs.Words.{lines_in, lines_stored, new_state, pairs_stored};
ghost use Rattle.word_lists.specs.Words.{read_as, State, stored_by};

use crate::lines::{StoreError, split_line, value_of};
use crate::parts::{body, first_len};
use cedarwood::{CedarBuilder, CedarError, Layout, Trie, sorted_is_stored_in_turn};
use memchr::memchr;
use std::alloc::{AllocError, Allocator};

/// A dictionary of the lines of a list, made at once. None if the words don't ascend, a line has a fault, or a word has a backslash: such a
/// list is one for [`crate::store_lines`]. Memory holds a pair for each line.
///
/// ```
/// let made: Option<Cedar<_>> = sorted_list(rt.alloc(), b"net\t7\nten\n")?;
/// assert!(rt; made.is_some_and(|cedar| cedar.get("ten") == Some(2)));
/// ```
///
/// # Errors
/// `Memory` if an allocation was refused.
pub fn sorted_list<L: Layout, const SLOTS: usize, A: Allocator + Copy>(
    alloc: A,
    list: &[u8],
) -> Result<Option<Trie<L, SLOTS, A>>, StoreError>
    requires limit { IsLimit SLOTS }

    //= A dictionary that is made of a list at once holds what the list's lines store one after another in a new ordered dictionary. [by
    //  lines_stored, new_state]
    ensures { IfOk result (λ made. IfSome made (λ trie. trie.state ≡ lines_stored new_state 1 (lines_in list.now))) }
{
    let Some(pairs) = plain_pairs(alloc, list)? else {
        return Ok(None);
    };
    sorted_is_stored_in_turn();
    match Trie::from_sorted_bytes_with(alloc, CedarBuilder::new(), &pairs) {
        Ok(trie) => Ok(Some(trie)),
        Err(CedarError::Memory) => Err(StoreError::Memory),
        Err(_) => Ok(None),
    }
}

/// The pairs of a list, or None if a line has no number, or a word with a backslash. An empty line has no pair.
fn plain_pairs<'a, A: Allocator>(
    alloc: A,
    list: &'a [u8],
) -> Result<Option<Vec<(&'a [u8], i32), A>>, AllocError>
    ensures { IfOk result (λ found. IfSome found (λ pairs. (s : State) → lines_stored s 1 (lines_in list.now) ≡ pairs_stored s (entries_of pairs.items))) }
{
    let mut pairs = Vec::new(alloc);
    let mut rest = list;
    let mut number = 1;
    while !rest.is_empty() {
        let len = first_len(rest);
        let plain = push_line(&mut pairs, body(&rest[..len]), number)?;
        if !plain {
            return Ok(None);
        }
        number += 1;
        rest = &rest[len..];
    }
    Ok(Some(pairs))
}

/// Adds the pair of a line, which has this number, unless it is empty. False if it has none.
fn push_line<'a, A: Allocator>(
    pairs: &mut Vec<(&'a [u8], i32), A>,
    line: &'a [u8],
    number: u64,
) -> Result<bool, AllocError>
    ensures { IfOk result (λ plain. IsTrue plain → AddsLine (entries_of pairs.old.items) (entries_of pairs.new.items) number line.now) }
{
    if line.is_empty() {
        return Ok(true);
    }
    let Some(pair) = plain_pair(line, number) else {
        return Ok(false);
    };
    pairs.push(pair)?;
    Ok(true)
}

/// The word of a line that has this number, and its number; None if it has none, or a backslash.
fn plain_pair(line: &[u8], number: u64) -> Option<(&[u8], i32)>
    requires { 0 < length line.now }
    ensures { IfSome result (λ pair. (s : State) → line_stored s number line.now ≡ stored_by (fault pair.0.now pair.1) s pair.0.now pair.1) }
{
    let (word, figures) = split_line(line);
    if !is_literal(word) {
        return None;
    }
    let value = value_of(figures, number)?;
    Some((word, value))
}

/// Whether a text represents itself, since it has no backslash.
fn is_literal(text: &[u8]) -> bool
    ensures { IsTrue result → read_as text.now ≡ text.now }
{
    match memchr(b'\\', text) {
        Some(_) => false,
        None => true,
    }
}
