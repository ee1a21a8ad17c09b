//! The keywords of a text, of which a buffer takes as many as it has room for.

ghost use Rattle.std.specs.Prelude.{◌<◌, ◌≡◌, ◌≤◌, ◌⊎◌, IsSome, length, None, take};
ghost use Rattle.cedar_c.specs.Words.{found_keywords, inner_dictionary, shown_in, shown_tree};
ghost use Rattle.cedar_c.specs.Words.{WritesOn, WritesPiece};

use crate::reading::Reading;
use crate::scans::{Found, put_at};
use cedar_words::LongestPrefix;
use either_layout::{AnyCedar, on_layout};

/// Writes the keywords of a text from a position on, as far as there is room.
fn keywords<T: LongestPrefix>(trie: &T, text: &[u8], next: &mut usize, found: &mut [Found]) -> usize
    ensures told { WritesPiece (found_keywords (T.tree trie.now)) text.now next.old next.new (take result found.new) }
    ensures full { (length text.now ≤ next.new) ⊎ (result ≡ length found.new) }
    ensures within { (result ≤ length found.new) × (next.old ≤ next.new) }
    ensures ends { (next.new ≤ length text.now) ⊎ (next.new ≡ next.old) }
{
    let mut count = 0;
    while *next < text.len() && count < found.len() {
        count = pass_token(trie, text, next, found, count);
    }
    count
}

/// Passes the token at a position of a text. If it is a key, this is written after the first `count` elements of a buffer. It returns how
/// many elements are written then.
fn pass_token<T: LongestPrefix>(
    trie: &T,
    text: &[u8],
    next: &mut usize,
    found: &mut [Found],
    count: usize,
) -> usize
    requires place { next.old < length text.now }
    requires room { count < length found.old }
    ensures told { WritesOn (found_keywords (T.tree trie.now)) text.now next.old next.new (take count found.old) (take result found.new) }
    ensures within { (next.old < next.new) × (next.new ≤ length text.now) }
    ensures count { result ≤ length found.new }
    ensures room { length found.new ≡ length found.old }
{
    match trie.longest_prefix(&text[*next..]) {
        Some(front) => {
            put_at(found, count, *next, front);
            *next += front.1 + 1;
            count + 1
        }
        None => {
            *next += 1;
            count
        }
    }
}

/// `keywords` of a dictionary of either layout.
fn find_keywords(cedar: &AnyCedar, text: &[u8], next: &mut usize, found: &mut [Found]) -> usize
    ensures told { WritesPiece (found_keywords (inner_dictionary cedar.now).state.tree) text.now next.old next.new (take result found.new) }
    ensures full { (length text.now ≤ next.new) ⊎ (result ≡ length found.new) }
    ensures within { (result ≤ length found.new) × (next.old ≤ next.new) }
    ensures ends { (next.new ≤ length text.now) ⊎ (next.new ≡ next.old) }
{
    on_layout!(cedar, cedar => keywords(cedar, text, next, found))
}

/// Writes the keywords of a text from a position on, leftmost longest: of the keys that begin first the longest, and so on from its end. It
/// ends where the text or the room does, and `next` is the end of the last one then, so that a call from there goes on. It returns how many
/// elements of the buffer it wrote; what the others have then is left open. It allocates nothing.
#[unsafe(no_mangle)]
pub extern "C" fn cedar_keywords(
    handle: &mut Reading,
    text: &[u8],
    next: &mut usize,
    found: &mut [Found],
) -> usize
    //= Keywords are written in this way too, from a position on where a token begins: those from the old `next` on are those that were
    //  written, and then those from the new one on. [by found_keywords]
    ensures told { IsSome (shown_in handle.old) → WritesPiece (found_keywords (shown_tree handle.old)) text.now next.old next.new (take result found.new) }
    ensures full { (length text.now ≤ next.new) ⊎ (result ≡ length found.new) }
    ensures within { (result ≤ length found.new) × (next.old ≤ next.new) }
    ensures ends { (next.new ≤ length text.now) ⊎ (next.new ≡ next.old) }
    ensures closed { shown_in handle.old ≡ None → result ≡ 0 }
    ensures kept { handle.new ≡ handle.old }
{
    if !handle.is_open() {
        *next = text.len().max(*next);
        return 0;
    }
    find_keywords(handle.shown.see().dictionary(), text, next, found)
}
