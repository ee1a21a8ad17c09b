//! The best entries below a prefix by their values, written into two buffers of the caller's.

ghost use Rattle.std.specs.Prelude.{◌++◌, ◌<◌, ◌^◌, ◌↔◌, ◌≡◌, ◌≤◌, ◌⊎◌, drop, IfSome, length};
ghost use Rattle.std.specs.Prelude.{map, None};
ghost use Rattle.cedar_c.specs.Words.{best_below, found_entry, inner_dictionary, keys_in};
ghost use Rattle.cedar_c.specs.Words.{LacksRoomForKeys, order_if, shown_in, shown_tree, spots_of};
ghost use Rattle.cedar_c.specs.Words.{WritesEntries, WritesNothing};

use crate::reading::Reading;
use crate::save::copy_whole;
use crate::scans::Found;
use crate::status::{CLOSED, MEMORY, NO_ROOM, OK};
use cedar_complete::{ByValue, best_with_prefix};
use cedarwood::{Layout, Trie};
use either_layout::{AnyCedar, on_layout};
use std::alloc::Global;

/// The bytes of the keys of some entries, one key after another, or `None` if an allocation is refused.
fn joined_keys(entries: &[(i32, Vec<u8, Global>)], alloc: Global) -> Option<Vec<u8, Global>>
    ensures { IfSome result (λ keys. keys.items ≡ keys_in (map found_entry entries.now)) }
{
    let mut keys = Vec::new(alloc);
    for index in 0..entries.len() {
        keys.extend_from_slice(entries[index].1.as_slice()).ok()?;
    }
    Some(keys)
}

/// Writes where the keys of some entries are if they are written one after another, their lengths and the values.
fn write_spots(entries: &[(i32, Vec<u8, Global>)], found: &mut [Found])
    requires room { length entries.now ≤ length found.old }
    requires short { length (keys_in (map found_entry entries.now)) < 2 ^ 64 }
    ensures { found.new ≡ spots_of 0 (map found_entry entries.now) ++ drop (length entries.now) found.old }
{
    let mut place = 0;
    for index in 0..entries.len() {
        let length = entries[index].1.len();
        found[index] = Found {
            place,
            length,
            value: entries[index].0,
        };
        place += length;
    }
}

/// Writes some entries, for which there are elements enough, if there is room for their keys.
fn tell_entries(
    entries: &[(i32, Vec<u8, Global>)],
    alloc: Global,
    found: &mut [Found],
    keys: &mut [u8],
    count: &mut usize,
    needed: &mut usize,
) -> u32
    requires { length entries.now ≤ length found.old }
    ensures written { result ≡ OK → WritesEntries (map found_entry entries.now) found.old found.new keys.old keys.new count.new needed.new }
    ensures room { result ≡ NO_ROOM → LacksRoomForKeys (map found_entry entries.now) keys.old needed.new }
    ensures refused { (result ≡ OK) ⊎ (((result ≡ MEMORY) ⊎ (result ≡ NO_ROOM)) × WritesNothing found.old found.new keys.old keys.new count.old count.new) }
    ensures stays { (result ≡ OK) ⊎ (result ≡ NO_ROOM) ⊎ (needed.new ≡ needed.old) }
{
    let Some(joined) = joined_keys(entries, alloc) else {
        return MEMORY;
    };
    if copy_whole(joined.as_slice(), keys, needed) != OK {
        return NO_ROOM;
    }
    write_spots(entries, found);
    *count = entries.len();
    OK
}

/// Which values come first.
fn order_if(lowest_first: bool) -> ByValue
    ensures { result ≡ order_if lowest_first }
{
    if lowest_first {
        ByValue::LowestFirst
    } else {
        ByValue::HighestFirst
    }
}

/// The best entries of a dictionary below a prefix, or `None` if an allocation is refused.
fn best_of<L: Layout, const SLOTS: usize>(
    trie: &Trie<L, SLOTS, Global>,
    alloc: Global,
    prefix: &[u8],
    lowest_first: bool,
    most: usize,
) -> Option<Vec<(i32, Vec<u8, Global>), Global>>
    ensures { IfSome result (λ found. map found_entry found.items ≡ best_below trie.now.state.tree prefix.now lowest_first most) }
{
    best_with_prefix(alloc, trie, prefix, most, order_if(lowest_first)).ok()
}

/// `best_of` a dictionary of either layout.
fn best_entries(
    cedar: &AnyCedar,
    alloc: Global,
    prefix: &[u8],
    lowest_first: bool,
    most: usize,
) -> Option<Vec<(i32, Vec<u8, Global>), Global>>
    ensures { IfSome result (λ found. map found_entry found.items ≡ best_below (inner_dictionary cedar.now).state.tree prefix.now lowest_first most) }
{
    on_layout!(cedar, cedar => best_of(cedar, alloc, prefix, lowest_first, most))
}

/// Writes the best of the entries whose keys begin with a prefix, in their order, as many as there are elements at the most: by value, the
/// highest first, or the lowest, and those with the same value by the bytes of their keys. It writes where their keys begin, how long they
/// are and their values into the elements, the keys one after another into the bytes, how many entries they are, and how many bytes their
/// keys have. It goes over all entries with the prefix, and allocates for as many as there are elements, and one more.
///
/// # Errors
/// `CLOSED` if the handle is closed; `NO_ROOM` if their keys have more bytes than there is room for: then it writes how many; `MEMORY` if
/// an allocation was refused. After an error nothing else is written.
#[unsafe(no_mangle)]
pub extern "C" fn cedar_best(
    handle: &mut Reading,
    alloc: Global,
    prefix: &[u8],
    lowest_first: bool,
    found: &mut [Found],
    keys: &mut [u8],
    count: &mut usize,
    needed: &mut usize,
) -> u32
    ensures closed { (result ≡ CLOSED) ↔ (shown_in handle.old ≡ None) }

    //= The best entries below a prefix are the first of those whose keys begin with it in the order of their values, and with the same
    //  value in that of their keys, as many as there are elements at the most. Their keys are one after another in the first bytes, and
    //  each element has where its key is, its length and its value; the others don't change. `count` is how many entries they are, `needed`
    //  how many bytes their keys have. [by written, WritesEntries, best_below]
    ensures written { result ≡ OK → WritesEntries (best_below (shown_tree handle.old) prefix.now lowest_first (length found.old)) found.old found.new keys.old keys.new count.new needed.new }

    //= They are refused with `CLOSED` exactly if the handle is closed, with `NO_ROOM` only if their keys have more bytes than there is room
    //  for: `needed` is how many; and otherwise with `MEMORY`. Then nothing else is written. [with closed, refused, stays]
    ensures room { result ≡ NO_ROOM → LacksRoomForKeys (best_below (shown_tree handle.old) prefix.now lowest_first (length found.old)) keys.old needed.new }
    ensures refused { (result ≡ OK) ⊎ (((result ≡ CLOSED) ⊎ (result ≡ MEMORY) ⊎ (result ≡ NO_ROOM)) × WritesNothing found.old found.new keys.old keys.new count.old count.new) }
    ensures stays { (result ≡ OK) ⊎ (result ≡ NO_ROOM) ⊎ (needed.new ≡ needed.old) }
    ensures kept { handle.new ≡ handle.old }
{
    if !handle.is_open() {
        return CLOSED;
    }
    let best = best_entries(
        handle.shown.see().dictionary(),
        alloc,
        prefix,
        lowest_first,
        found.len(),
    );
    match best {
        Some(entries) => tell_entries(entries.as_slice(), alloc, found, keys, count, needed),
        None => MEMORY,
    }
}
