//! Long texts, of which a buffer takes as much as it has room for: a call goes on where the one before it ended.

ghost use Rattle.std.specs.Prelude.{◌++◌, ◌+◌, ◌<◌, ◌^◌, ◌∷◌, ◌≡◌, ◌≤◌, ◌⊎◌, drop, IfSome};
ghost use Rattle.std.specs.Prelude.{IsSome, length, map, None, set, take};
ghost use Rattle.cedar_c.specs.Words.{Fit, found_spot, found_spots, found_tokens, front};
ghost use Rattle.cedar_c.specs.Words.{inner_dictionary, shown_in, shown_tree, Tree, WritesPiece};

use crate::reading::Reading;
use crate::walks::Finds;
use cedar_words::LongestPrefix;
use cedarwood::{Layout, Trie};
use either_layout::{AnyCedar, on_layout};
use std::alloc::Allocator;

/// A key or token at a position of a text.
#[repr(C)]
#[derive(Clone, Copy)]
pub struct Found {
    pub place: usize,
    pub length: usize,
    pub value: i32,
}

/// A dictionary whose keys are looked for in texts.
trait Scanned: LongestPrefix {
    ghost scanned: { Self → Tree };

    /// Writes the keys that a text begins with after the first `count` elements of a buffer, as those of the position where the text begins,
    /// and returns how many elements are written then. None says that there is no room for them.
    fn tell_fronts(
        &self,
        text: &[u8],
        place: usize,
        found: &mut [Found],
        count: usize,
    ) -> Option<usize>
        requires { count ≤ length found.old }
        ensures told { IfSome result (λ n. take n found.new ≡ take count found.old ++ map (found_spot place) (front (scanned self.now) text.now)) }
        ensures within { IfSome result (λ n. (n ≤ length found.new) × (count ≤ n)) }
        ensures no_room { result ≡ None → (length found.new < count + length (front (scanned self.now) text.now)) × (take count found.new ≡ take count found.old) }
        ensures room { length found.new ≡ length found.old };
}

impl<L: Layout, const SLOTS: usize, A: Allocator + Copy> Scanned for Trie<L, SLOTS, A> {
    ghost scanned = { λ trie. trie.state.tree };

    fn tell_fronts(
        &self,
        text: &[u8],
        place: usize,
        found: &mut [Found],
        count: usize,
    ) -> Option<usize> {
        tell(
            &mut self.common_prefix_iter_bytes(text),
            place,
            found,
            count,
        )
    }
}

/// Writes what a walk finds after the first `count` elements.
fn tell<F: Finds>(walk: &mut F, place: usize, found: &mut [Found], count: usize) -> Option<usize>
    requires room { count ≤ length found.old }
    requires fit { Fit 1 (F.left walk.old) }
    ensures told { IfSome result (λ n. take n found.new ≡ take count found.old ++ map (found_spot place) (F.left walk.old)) }
    ensures within { IfSome result (λ n. (n ≤ length found.new) × (count ≤ n)) }
    ensures no_room { result ≡ None → (length found.new < count + length (F.left walk.old)) × (take count found.new ≡ take count found.old) }
    ensures room { length found.new ≡ length found.old }
{
    let mut at = count;
    while let Some(front) = walk.next_found() {
        if at == found.len() {
            return None;
        }
        put_at(found, at, place, front);
        at += 1;
    }
    Some(at)
}

/// Writes a key that was found.
pub(crate) fn put_at(found: &mut [Found], at: usize, place: usize, front: (i32, usize))
    requires place { at < length found.old }
    requires fits { front.1 + 1 < 2 ^ 64 }
    ensures { found.new ≡ set found.old at (found_spot place front) }
{
    found[at] = Found {
        place,
        length: front.1 + 1,
        value: front.0,
    };
}

/// Writes the keys in a text from a position on, as those of whole positions, as far as there is room.
fn scan<T: Scanned>(trie: &T, text: &[u8], next: &mut usize, found: &mut [Found]) -> usize
    ensures told { WritesPiece (found_spots (T.scanned trie.now)) text.now next.old next.new (take result found.new) }
    ensures full { (length text.now ≤ next.new) ⊎ (length found.new < result + length (front (T.scanned trie.now) (drop next.new text.now))) }
    ensures within { (result ≤ length found.new) × (next.old ≤ next.new) }
    ensures ends { (next.new ≤ length text.now) ⊎ (next.new ≡ next.old) }
{
    let mut count = 0;
    while *next < text.len() {
        match trie.tell_fronts(&text[*next..], *next, found, count) {
            Some(now) => count = now,
            None => return count,
        }
        *next += 1;
    }
    count
}

/// Writes the tokens of a text from a position on, as far as there is room.
fn cut<T: LongestPrefix>(trie: &T, text: &[u8], next: &mut usize, found: &mut [Found]) -> usize
    ensures told { WritesPiece (found_tokens (T.tree trie.now)) text.now next.old next.new (take result found.new) }
    ensures full { (length text.now ≤ next.new) ⊎ (result ≡ length found.new) }
    ensures within { (result ≤ length found.new) × (next.old ≤ next.new) }
    ensures ends { (next.new ≤ length text.now) ⊎ (next.new ≡ next.old) }
{
    let mut count = 0;
    while *next < text.len() && count < found.len() {
        let token = token_at(trie, &text[*next..], *next);
        *next += token.length;
        found[count] = token;
        count += 1;
    }
    count
}

/// The token at a position, where a text begins.
fn token_at<T: LongestPrefix>(trie: &T, text: &[u8], place: usize) -> Found
    requires { 0 < length text.now }
    ensures first { found_tokens (T.tree trie.now) place text.now ≡ result ∷ found_tokens (T.tree trie.now) (place + result.length) (drop result.length text.now) }
    ensures within { result.length ≤ length text.now }
{
    match trie.longest_prefix(text) {
        Some((value, others)) => Found {
            place,
            length: others + 1,
            value,
        },
        None => Found {
            place,
            length: 1,
            value: -1,
        },
    }
}

/// `scan` of a dictionary of either layout.
fn scan_from(cedar: &AnyCedar, text: &[u8], next: &mut usize, found: &mut [Found]) -> usize
    ensures told { WritesPiece (found_spots (inner_dictionary cedar.now).state.tree) text.now next.old next.new (take result found.new) }
    ensures full { (length text.now ≤ next.new) ⊎ (length found.new < result + length (front (inner_dictionary cedar.now).state.tree (drop next.new text.now))) }
    ensures within { (result ≤ length found.new) × (next.old ≤ next.new) }
    ensures ends { (next.new ≤ length text.now) ⊎ (next.new ≡ next.old) }
{
    on_layout!(cedar, cedar => scan(cedar, text, next, found))
}

/// `cut` of a dictionary of either layout.
fn cut_from(cedar: &AnyCedar, text: &[u8], next: &mut usize, found: &mut [Found]) -> usize
    ensures told { WritesPiece (found_tokens (inner_dictionary cedar.now).state.tree) text.now next.old next.new (take result found.new) }
    ensures full { (length text.now ≤ next.new) ⊎ (result ≡ length found.new) }
    ensures within { (result ≤ length found.new) × (next.old ≤ next.new) }
    ensures ends { (next.new ≤ length text.now) ⊎ (next.new ≡ next.old) }
{
    on_layout!(cedar, cedar => cut(cedar, text, next, found))
}

/// Writes the keys in a text from a position on: position after position, and at each the shortest first. Those of a position are written by
/// the same call: if there is no room left for them, the walk ends, and `next` is this position, so that a call from there goes on.
/// Otherwise it ends after the text. It returns how many elements of the buffer it wrote; what the others have then is left open.
#[unsafe(no_mangle)]
pub extern "C" fn cedar_scan(
    handle: &mut Reading,
    text: &[u8],
    next: &mut usize,
    found: &mut [Found],
) -> usize
    //= A scan writes the keys that occur in a text from `next` on, position after position: those from the old `next` on are those that
    //  were written, and then those from the new one on. [by found_spots]
    ensures told { IsSome (shown_in handle.old) → WritesPiece (found_spots (shown_tree handle.old)) text.now next.old next.new (take result found.new) }

    //= A scan ends where the text does, or where the keys of a position don't fit in the room left. Tokens and keywords end where the text or
    //  the room does. [also cedar_segment, cedar_keywords]
    ensures full { (length text.now ≤ next.new) ⊎ (length found.new < result + length (front (shown_tree handle.old) (drop next.new text.now))) }

    //= `next` never goes back, nor past the text's end unless it was past that before. The call returns at most the room, and 0 if the
    //  handle is closed. [with ends, closed; also cedar_segment, cedar_keywords]
    ensures within { (result ≤ length found.new) × (next.old ≤ next.new) }
    ensures ends { (next.new ≤ length text.now) ⊎ (next.new ≡ next.old) }
    ensures closed { shown_in handle.old ≡ None → result ≡ 0 }
    ensures kept { handle.new ≡ handle.old }
{
    if !handle.is_open() {
        *next = text.len().max(*next);
        return 0;
    }
    scan_from(handle.shown.see().dictionary(), text, next, found)
}

/// Writes the tokens of a text from a position on, where one begins: at each position the longest key that begins there, or otherwise one
/// byte, with the value -1. It ends where the text or the room does, and `next` is where the next token begins, so that a call from there
/// goes on. It returns how many elements of the buffer it wrote; what the others have then is left open.
#[unsafe(no_mangle)]
pub extern "C" fn cedar_segment(
    handle: &mut Reading,
    text: &[u8],
    next: &mut usize,
    found: &mut [Found],
) -> usize
    //= A cut writes the tokens in this way too, with -1 for no value, from a position on where one begins. [by found_tokens]
    ensures told { IsSome (shown_in handle.old) → WritesPiece (found_tokens (shown_tree handle.old)) text.now next.old next.new (take result found.new) }
    ensures full { (length text.now ≤ next.new) ⊎ (result ≡ length found.new) }
    ensures within { (result ≤ length found.new) × (next.old ≤ next.new) }
    ensures ends { (next.new ≤ length text.now) ⊎ (next.new ≡ next.old) }
    ensures closed { shown_in handle.old ≡ None → result ≡ 0 }
    ensures kept { handle.new ≡ handle.old }
{
    if !handle.is_open() {
        *next = text.len().max(*next);
        return 0;
    }
    cut_from(handle.shown.see().dictionary(), text, next, found)
}
