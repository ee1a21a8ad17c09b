//! The entries next to a key: the last one before it, and the first one behind it.

ghost use Rattle.std.specs.Prelude.{◌↔◌, ◌≡◌, IfSome, None};
ghost use Rattle.cedar_c.specs.Words.{bound_if, bound_map, entries_onwards, entries_upto};
ghost use Rattle.cedar_c.specs.Words.{entry_told, inner_dictionary, IsHeadOf, IsLastOf, shown_in};
ghost use Rattle.cedar_c.specs.Words.{TellsCeiling, TellsEntry, TellsFloor};

use crate::entries::is_ordered;
use crate::reading::Reading;
use crate::save::copy_whole;
use crate::status::{CLOSED, MEMORY, NO_ROOM, NOT_ASCENDING, OK};
use cedar_complete::{KeyRange, first_in, last_in};
use cedarwood::{Layout, Trie};
use either_layout::{AnyCedar, on_layout};
use std::alloc::Global;
use std::ops::Bound;

/// An end at a key, which is included or left out; an open one if the key is empty.
pub(crate) fn bound_at(key: &[u8], is_included: bool) -> Bound<&[u8]>
    ensures { bound_map (λ key. key.now) result ≡ bound_if is_included key.now }
{
    if key.is_empty() {
        return Bound::Unbounded;
    }
    if is_included {
        Bound::Included(key)
    } else {
        Bound::Excluded(key)
    }
}

/// The last entry up to a key, of a dictionary whose labels ascend. None if an allocation is refused.
fn last_upto<L: Layout, const SLOTS: usize>(
    trie: &Trie<L, SLOTS, Global>,
    alloc: Global,
    key: &[u8],
    is_included: bool,
) -> Option<Option<(i32, Vec<u8, Global>)>>
    ensures { IfSome result (λ found. IsLastOf (entries_upto trie.now.state.tree (bound_if is_included key.now)) (entry_told found)) }
{
    let end = bound_at(key, is_included);
    let range = KeyRange::between(alloc, Bound::Unbounded, end).ok()?;
    last_in(alloc, trie, &range).ok()
}

/// The first entry from a key on, of a dictionary whose labels ascend. None if an allocation is refused.
fn first_onwards<L: Layout, const SLOTS: usize>(
    trie: &Trie<L, SLOTS, Global>,
    alloc: Global,
    key: &[u8],
    is_included: bool,
) -> Option<Option<(i32, Vec<u8, Global>)>>
    ensures { IfSome result (λ found. IsHeadOf (entries_onwards trie.now.state.tree (bound_if is_included key.now)) (entry_told found)) }
{
    let start = bound_at(key, is_included);
    let range = KeyRange::between(alloc, start, Bound::Unbounded).ok()?;
    first_in(alloc, trie, &range).ok()
}

/// Writes an entry, if there is one and room for its key.
pub(crate) fn tell_entry(
    found: Option<(i32, Vec<u8, Global>)>,
    buffer: &mut [u8],
    value: &mut i32,
    needed: &mut usize,
) -> u32
    ensures { TellsEntry (entry_told found) buffer.old buffer.new value.old value.new needed.new result }
{
    let Some((number, key)) = found else {
        *needed = 0;
        return OK;
    };
    if copy_whole(key.as_slice(), buffer, needed) != OK {
        return NO_ROOM;
    }
    *value = number;
    OK
}

/// Writes the last entry of a dictionary up to a key.
fn floor_of<L: Layout, const SLOTS: usize>(
    trie: &Trie<L, SLOTS, Global>,
    alloc: Global,
    key: &[u8],
    is_included: bool,
    buffer: &mut [u8],
    value: &mut i32,
    needed: &mut usize,
) -> u32
    ensures { TellsFloor trie.now.state is_included key.now buffer.old buffer.new value.old value.new needed.old needed.new result }
{
    if !is_ordered(trie) {
        return NOT_ASCENDING;
    }
    match last_upto(trie, alloc, key, is_included) {
        Some(found) => tell_entry(found, buffer, value, needed),
        None => MEMORY,
    }
}

/// Writes the first entry of a dictionary from a key on.
fn ceiling_of<L: Layout, const SLOTS: usize>(
    trie: &Trie<L, SLOTS, Global>,
    alloc: Global,
    key: &[u8],
    is_included: bool,
    buffer: &mut [u8],
    value: &mut i32,
    needed: &mut usize,
) -> u32
    ensures { TellsCeiling trie.now.state is_included key.now buffer.old buffer.new value.old value.new needed.old needed.new result }
{
    if !is_ordered(trie) {
        return NOT_ASCENDING;
    }
    match first_onwards(trie, alloc, key, is_included) {
        Some(found) => tell_entry(found, buffer, value, needed),
        None => MEMORY,
    }
}

/// `floor_of` a dictionary of either layout.
fn write_floor(
    cedar: &AnyCedar,
    alloc: Global,
    key: &[u8],
    is_included: bool,
    buffer: &mut [u8],
    value: &mut i32,
    needed: &mut usize,
) -> u32
    ensures { TellsFloor (inner_dictionary cedar.now).state is_included key.now buffer.old buffer.new value.old value.new needed.old needed.new result }
{
    on_layout!(cedar, cedar => floor_of(cedar, alloc, key, is_included, buffer, value, needed))
}

/// `ceiling_of` a dictionary of either layout.
fn write_ceiling(
    cedar: &AnyCedar,
    alloc: Global,
    key: &[u8],
    is_included: bool,
    buffer: &mut [u8],
    value: &mut i32,
    needed: &mut usize,
) -> u32
    ensures { TellsCeiling (inner_dictionary cedar.now).state is_included key.now buffer.old buffer.new value.old value.new needed.old needed.new result }
{
    on_layout!(cedar, cedar => ceiling_of(cedar, alloc, key, is_included, buffer, value, needed))
}

/// Writes the last entry before a key, or at it if `is_included`: the key into the first elements of a buffer, its value, and how many
/// bytes the key has, 0 if there is no such entry. If `key` is empty, it is the last entry of all. It looks first entries up, about one for
/// each byte of the key that it finds, and allocates.
///
/// # Errors
/// `CLOSED` if the handle is closed; `NOT_ASCENDING` if the labels of the dictionary don't ascend; `NO_ROOM` if the key has more bytes than
/// the buffer has elements: then it writes how many; `MEMORY` if an allocation was refused. After an error nothing else is written.
#[unsafe(no_mangle)]
pub extern "C" fn cedar_floor(
    handle: &mut Reading,
    alloc: Global,
    key: &[u8],
    is_included: bool,
    buffer: &mut [u8],
    value: &mut i32,
    needed: &mut usize,
) -> u32
    ensures closed { (result ≡ CLOSED) ↔ (shown_in handle.old ≡ None) }

    //= The floor of a key is the last entry before it, or at it if that is included, and of no key the last one of all. Its key is written
    //  into the first bytes, and its value; the other bytes don't change. `needed` is how many bytes its key has, or 0 if there is none.
    //  [by floor, TellsFloor, TellsNeighbour]
    //= It is refused exactly if the handle is closed, with `NOT_ASCENDING` if labels don't ascend, with `NO_ROOM` if its key has more bytes
    //  than there is room for, and otherwise with `MEMORY`. Then nothing else is written. [with closed, closed_stays; also cedar_ceiling,
    //  cedar_next_near, cedar_next_near_text, cedar_next_fitting]
    ensures floor { IfSome (shown_in handle.old) (λ a. TellsFloor (inner_dictionary a).state is_included key.now buffer.old buffer.new value.old value.new needed.old needed.new result) }
    ensures closed_stays { result ≡ CLOSED → (buffer.new ≡ buffer.old) × (value.new ≡ value.old) × (needed.new ≡ needed.old) }
    ensures kept { handle.new ≡ handle.old }
{
    if !handle.is_open() {
        return CLOSED;
    }
    write_floor(
        handle.shown.see().dictionary(),
        alloc,
        key,
        is_included,
        buffer,
        value,
        needed,
    )
}

/// Writes the first entry behind a key, or at it if `is_included`, as `cedar_floor` writes the last one before it. If `key` is empty, it is
/// the first entry of all. It looks the key up, and allocates for the key that it finds.
///
/// # Errors
/// Those of `cedar_floor`.
#[unsafe(no_mangle)]
pub extern "C" fn cedar_ceiling(
    handle: &mut Reading,
    alloc: Global,
    key: &[u8],
    is_included: bool,
    buffer: &mut [u8],
    value: &mut i32,
    needed: &mut usize,
) -> u32
    ensures closed { (result ≡ CLOSED) ↔ (shown_in handle.old ≡ None) }

    //= The ceiling of a key is the first entry behind it, or at it if that is included, and of no key the first one of all. It is written
    //  as a floor is. [by ceiling, TellsCeiling, TellsNeighbour]
    ensures ceiling { IfSome (shown_in handle.old) (λ a. TellsCeiling (inner_dictionary a).state is_included key.now buffer.old buffer.new value.old value.new needed.old needed.new result) }
    ensures closed_stays { result ≡ CLOSED → (buffer.new ≡ buffer.old) × (value.new ≡ value.old) × (needed.new ≡ needed.old) }
    ensures kept { handle.new ≡ handle.old }
{
    if !handle.is_open() {
        return CLOSED;
    }
    write_ceiling(
        handle.shown.see().dictionary(),
        alloc,
        key,
        is_included,
        buffer,
        value,
        needed,
    )
}
