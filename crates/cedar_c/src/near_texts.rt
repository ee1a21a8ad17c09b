//! The next entry behind a key that is a few edits of characters away from a text.

ghost use Rattle.std.specs.Prelude.{◌↔◌, ◌≡◌, IfOk, IfSome, None};
ghost use Rattle.cedar_c.specs.Words.{are_near, characters_of, chars, edits_if, inner_dictionary};
ghost use Rattle.cedar_c.specs.Words.{is_wanted_text, shown_in, TellsNearText, TellsWanted};

use crate::entries::is_ordered;
use crate::matching::tell_wanted;
use crate::reading::Reading;
use crate::status::{CLOSED, MEMORY, NOT_ASCENDING, QUERY_NOT_UTF8};
use byte_automata::{Automaton, Beginning, WithinCharacters};
use cedarwood::{Layout, Trie};
use either_layout::{AnyCedar, on_layout};
use std::alloc::{AllocError, Global};
use std::str;

/// The characters of a text.
fn read_characters(alloc: Global, text: &str) -> Result<Vec<char, Global>, AllocError>
    ensures { IfOk result (λ found. found.items ≡ chars text.now) }
{
    text.chars().collect(alloc)
}

/// The keys that are an edit of characters away from some at the most, or if `two_edits` two.
fn within_characters<'a>(query: &'a [char], two_edits: bool) -> WithinCharacters<'a>
    ensures { ⟦<WithinCharacters<'a> as Automaton>⟧.accepts result ≡ (λ key. are_near query.now (edits_if two_edits) (characters_of key)) }
{
    if two_edits {
        WithinCharacters::two(query)
    } else {
        WithinCharacters::one(query)
    }
}

/// Writes the first entry behind a key that is near some characters.
fn near_characters<L: Layout, const SLOTS: usize>(
    trie: &Trie<L, SLOTS, Global>,
    alloc: Global,
    query: &[char],
    two_edits: bool,
    is_beginning: bool,
    behind: &[u8],
    buffer: &mut [u8],
    value: &mut i32,
    needed: &mut usize,
) -> u32
    ensures { TellsWanted (is_wanted_text is_beginning (edits_if two_edits) query.now) trie.now.state behind.now buffer.old buffer.new value.old value.new needed.old needed.new result }
{
    let near = within_characters(query, two_edits);
    if is_beginning {
        let beginning = Beginning::new(near);
        return tell_wanted(trie, alloc, &beginning, behind, buffer, value, needed);
    }
    tell_wanted(trie, alloc, &near, behind, buffer, value, needed)
}

/// Writes the first entry behind a key that is near a text.
fn near_text<L: Layout, const SLOTS: usize>(
    trie: &Trie<L, SLOTS, Global>,
    alloc: Global,
    text: &str,
    two_edits: bool,
    is_beginning: bool,
    behind: &[u8],
    buffer: &mut [u8],
    value: &mut i32,
    needed: &mut usize,
) -> u32
    ensures { TellsWanted (is_wanted_text is_beginning (edits_if two_edits) (chars text.now)) trie.now.state behind.now buffer.old buffer.new value.old value.new needed.old needed.new result }
{
    // Where labels don't ascend, that is told, and not that memory for the characters is wanted.
    if !is_ordered(trie) {
        return NOT_ASCENDING;
    }
    match read_characters(alloc, text) {
        Ok(characters) => near_characters(
            trie,
            alloc,
            &characters,
            two_edits,
            is_beginning,
            behind,
            buffer,
            value,
            needed,
        ),
        Err(_) => MEMORY,
    }
}

/// Writes the first entry behind a key that is near a query, if that is a text.
fn near_text_of<L: Layout, const SLOTS: usize>(
    trie: &Trie<L, SLOTS, Global>,
    alloc: Global,
    query: &[u8],
    two_edits: bool,
    is_beginning: bool,
    behind: &[u8],
    buffer: &mut [u8],
    value: &mut i32,
    needed: &mut usize,
) -> u32
    ensures { TellsNearText is_beginning (edits_if two_edits) trie.now.state query.now behind.now buffer.old buffer.new value.old value.new needed.old needed.new result }
{
    match str::from_utf8(query) {
        Ok(text) => near_text(
            trie,
            alloc,
            text,
            two_edits,
            is_beginning,
            behind,
            buffer,
            value,
            needed,
        ),
        Err(_) => QUERY_NOT_UTF8,
    }
}

/// `near_text_of` a dictionary of either layout.
fn next_near_text(
    cedar: &AnyCedar,
    alloc: Global,
    query: &[u8],
    two_edits: bool,
    is_beginning: bool,
    behind: &[u8],
    buffer: &mut [u8],
    value: &mut i32,
    needed: &mut usize,
) -> u32
    ensures { TellsNearText is_beginning (edits_if two_edits) (inner_dictionary cedar.now).state query.now behind.now buffer.old buffer.new value.old value.new needed.old needed.new result }
{
    on_layout!(cedar, cedar => near_text_of(cedar, alloc, query, two_edits, is_beginning, behind, buffer, value, needed))
}

/// Writes the first entry behind a key whose own key is near a text, as `cedar_next_near` does, but by characters of UTF-8: an edit puts in,
/// takes out or changes a character. A key that isn't UTF-8 isn't near, but it may begin with what is.
///
/// # Errors
/// Those of `cedar_ceiling`, and `QUERY_NOT_UTF8` if the query isn't UTF-8.
#[unsafe(no_mangle)]
pub extern "C" fn cedar_next_near_text(
    handle: &mut Reading,
    alloc: Global,
    query: &[u8],
    two_edits: bool,
    is_beginning: bool,
    behind: &[u8],
    buffer: &mut [u8],
    value: &mut i32,
    needed: &mut usize,
) -> u32
    ensures closed { (result ≡ CLOSED) ↔ (shown_in handle.old ≡ None) }

    //= The next entry that is near a text is found and written in this way, by edits of characters, if the query is UTF-8. If it isn't, that
    //  is the error, and nothing is written. [by near, TellsNearText, wanted_behind, is_wanted_text]
    ensures near { IfSome (shown_in handle.old) (λ a. TellsNearText is_beginning (edits_if two_edits) (inner_dictionary a).state query.now behind.now buffer.old buffer.new value.old value.new needed.old needed.new result) }
    ensures closed_stays { result ≡ CLOSED → (buffer.new ≡ buffer.old) × (value.new ≡ value.old) × (needed.new ≡ needed.old) }
    ensures kept { handle.new ≡ handle.old }
{
    if !handle.is_open() {
        return CLOSED;
    }
    next_near_text(
        handle.shown.see().dictionary(),
        alloc,
        query,
        two_edits,
        is_beginning,
        behind,
        buffer,
        value,
        needed,
    )
}
