//! The cut of least cost of a whole text, written into a buffer of the caller's.

ghost use Rattle.std.specs.Prelude.{◌++◌, ◌<◌, ◌↔◌, ◌≡◌, ◌≤◌, ◌⊎◌, drop, IfSome};
ghost use Rattle.std.specs.Prelude.{length, map, None, set};
ghost use Rattle.cedar_c.specs.Words.{found_token, inner_dictionary, IsLeastCut, LacksRoomForCut};
ghost use Rattle.cedar_c.specs.Words.{prices, shown_in, shown_tree, WritesLeastCut};

use crate::reading::Reading;
use crate::scans::Found;
use crate::status::{CLOSED, MEMORY, NO_ROOM, OK};
use cedar_words::{cheapest, cheapest_by_characters};
use cedarwood::{Layout, Trie};
use either_layout::{AnyCedar, on_layout};
use std::alloc::Global;

/// Cuts a whole text into keys and single bytes whose costs have the least sum, writes these tokens into the first elements of a buffer,
/// and how many they are. A key costs its value. A byte without a value is written with the value -1 and costs `unknown`; if
/// `by_characters`, one that continues a character of UTF-8 costs nothing. Of cuts that cost the same it picks the one with the longer
/// token where they first differ, and with a key rather than a byte. A sum above 2^64 - 1 counts as 2^64 - 1, which no least sum of a text
/// of fewer than 2^32 bytes reaches. There are never more tokens than bytes. It allocates 9 bytes for each byte of the text, and a list of
/// the tokens.
///
/// # Errors
/// `CLOSED` if the handle is closed, `NO_ROOM` if there are more tokens than the buffer has elements: then it writes how many; `MEMORY` if
/// an allocation was refused. After an error the buffer is as it was.
#[unsafe(no_mangle)]
pub extern "C" fn cedar_cheapest(
    handle: &mut Reading,
    alloc: Global,
    text: &[u8],
    unknown: u32,
    by_characters: bool,
    found: &mut [Found],
    needed: &mut usize,
) -> u32
    //= A cut of least cost returns `CLOSED` exactly if the handle is closed, `OK` only if all its tokens fit, `NO_ROOM` only if they don't,
    //  and otherwise `MEMORY`. After any error the buffer is as it was. [with refused, cut, room]
    ensures closed { (result ≡ CLOSED) ↔ (shown_in handle.old ≡ None) }

    //= It writes the tokens of the text's cut of least cost, as `cheapest` or `cheapest_by_characters` has it, into the first elements of a
    //  buffer, and doesn't change the others. In a text of any length this cut comes first among those that cost as little and no more than
    //  2^64 - 1. `needed` is how many tokens there are, and doesn't change if neither `OK` nor `NO_ROOM` is returned. [with room, stays; by
    //  IsLeastCut, prices]
    ensures cut { result ≡ OK → WritesLeastCut (shown_tree handle.old) (prices by_characters unknown text.now) text.now found.old found.new needed.new }
    ensures room { result ≡ NO_ROOM → LacksRoomForCut (shown_tree handle.old) (prices by_characters unknown text.now) text.now found.old needed.new }
    ensures refused { (result ≡ OK) ⊎ (((result ≡ CLOSED) ⊎ (result ≡ MEMORY) ⊎ (result ≡ NO_ROOM)) × (found.new ≡ found.old)) }
    ensures stays { (result ≡ OK) ⊎ (result ≡ NO_ROOM) ⊎ (needed.new ≡ needed.old) }
    ensures kept { handle.new ≡ handle.old }
{
    if !handle.is_open() {
        return CLOSED;
    }
    write_cheapest(
        handle.shown.see().dictionary(),
        alloc,
        text,
        unknown,
        by_characters,
        found,
        needed,
    )
}

/// Writes the tokens of a text's cut of least cost into the first elements of a buffer, and how many they are.
fn write_cheapest(
    cedar: &AnyCedar,
    alloc: Global,
    text: &[u8],
    unknown: u32,
    by_characters: bool,
    found: &mut [Found],
    needed: &mut usize,
) -> u32
    ensures cut { result ≡ OK → WritesLeastCut (inner_dictionary cedar.now).state.tree (prices by_characters unknown text.now) text.now found.old found.new needed.new }
    ensures room { result ≡ NO_ROOM → LacksRoomForCut (inner_dictionary cedar.now).state.tree (prices by_characters unknown text.now) text.now found.old needed.new }
    ensures refused { (result ≡ OK) ⊎ (((result ≡ MEMORY) ⊎ (result ≡ NO_ROOM)) × (found.new ≡ found.old)) }
    ensures stays { (result ≡ OK) ⊎ (result ≡ NO_ROOM) ⊎ (needed.new ≡ needed.old) }
{
    match least_cut(cedar, alloc, text, unknown, by_characters) {
        Some(tokens) => write_whole(tokens.as_slice(), found, needed),
        None => MEMORY,
    }
}

/// `either_cut` of a dictionary of either layout.
fn least_cut(
    cedar: &AnyCedar,
    alloc: Global,
    text: &[u8],
    unknown: u32,
    by_characters: bool,
) -> Option<Vec<(usize, usize, Option<i32>), Global>>
    ensures { IfSome result (λ tokens. IsLeastCut (inner_dictionary cedar.now).state.tree (prices by_characters unknown text.now) text.now tokens.items) }
{
    on_layout!(cedar, cedar => either_cut(cedar, alloc, text, unknown, by_characters))
}

/// The tokens of a text's cut of least cost, or `None` if an allocation is refused.
fn either_cut<L: Layout, const SLOTS: usize>(
    trie: &Trie<L, SLOTS, Global>,
    alloc: Global,
    text: &[u8],
    unknown: u32,
    by_characters: bool,
) -> Option<Vec<(usize, usize, Option<i32>), Global>>
    ensures { IfSome result (λ tokens. IsLeastCut trie.now.state.tree (prices by_characters unknown text.now) text.now tokens.items) }
{
    if by_characters {
        cheapest_by_characters(alloc, trie, text, unknown).ok()
    } else {
        cheapest(alloc, trie, text, unknown).ok()
    }
}

/// Writes some tokens into the first elements of a buffer, if it has room for all, and how many they are.
pub(crate) fn write_whole(
    tokens: &[(usize, usize, Option<i32>)],
    found: &mut [Found],
    needed: &mut usize,
) -> u32
    ensures needed { needed.new ≡ length tokens.now }
    ensures written { result ≡ OK → (found.new ≡ map found_token tokens.now ++ drop (length tokens.now) found.old) × (length tokens.now ≤ length found.old) }
    ensures no_room { (result ≡ OK) ⊎ ((result ≡ NO_ROOM) × (length found.old < length tokens.now) × (found.new ≡ found.old)) }
{
    *needed = tokens.len();
    if found.len() < tokens.len() {
        return NO_ROOM;
    }
    for at in 0..tokens.len() {
        put_token(found, at, tokens[at]);
    }
    OK
}

/// Writes a token at an index.
fn put_token(found: &mut [Found], at: usize, token: (usize, usize, Option<i32>))
    requires { at < length found.old }
    ensures { found.new ≡ set found.old at (found_token token) }
{
    let (place, length, value) = token;
    found[at] = Found {
        place,
        length,
        value: value.unwrap_or(-1),
    };
}
