//! Entries with their keys, a page of them a call.

ghost use Rattle.std.specs.Prelude.{◌++◌, ◌+◌, ◌-◌, ◌↔◌, ◌≡◌, ◌≤◌, [], IfSome, IsSome, IsTrue};
ghost use Rattle.std.specs.Prelude.{drop, length, nat_eq, None, take, true};
ghost use Rattle.cedar_c.specs.Words.{bytes_lacking, ComesToFirst, EndsPage, entries_behind_key};
ghost use Rattle.cedar_c.specs.Words.{entries_left, IsNumberedBelow, IsRangePlace, IsWellFormed};
ghost use Rattle.cedar_c.specs.Words.{number_at, PageOf, shown_in, starts_with, TellsEntries};
ghost use Rattle.cedar_c.specs.Words.{TellsPage, tree_of, visited_key, WritesNothing, WritesPage};

use crate::reading::Reading;
use crate::scans::Found;
use crate::status::{CLOSED, NO_ROOM, NOT_ASCENDING, OK};
use cedar_walk::Numbered;
use cedarwood::{Layout, Trie, Walked};
use either_layout::{AnyCedar, on_layout};
use std::alloc::Global;

/// What a page has: how many entries are written, and the node of the one behind them, if one is left.
#[derive(Clone, Copy)]
pub(crate) struct Page {
    pub(crate) count: usize,
    pub(crate) next: Option<Numbered>,
}

/// Writes the key of a node: a path, and then the labels below it.
pub(crate) fn write_key<T: Walked>(trie: &T, start: &[u8], at: Numbered, key: &mut [u8])
    requires well_formed { IsWellFormed T.slots (T.shown trie.now) }
    requires below { IsNumberedBelow (T.shown trie.now) start.now at.depth at.slot }
    requires room { length key.old ≡ length start.now + at.depth }
    ensures { key.new ≡ visited_key (T.shown trie.now) start.now at }
{
    key[..start.len()].copy_from_slice(start);
    trie.write_path(at.slot, at.depth, key);
}

/// How many bytes the key of a node has.
pub(crate) fn key_length<T: Walked>(trie: &T, start: &[u8], at: Numbered) -> usize
    requires well_formed { IsWellFormed T.slots (T.shown trie.now) }
    requires below { IsNumberedBelow (T.shown trie.now) start.now at.depth at.slot }
    ensures whole { result ≡ length (visited_key (T.shown trie.now) start.now at) }
    ensures parts { result ≡ length start.now + at.depth }
{
    let _ = trie;
    start.len() + at.depth
}

/// Writes the key of a node after the first `used` bytes of a buffer, and returns how many bytes it has: `None` if there is no room for
/// them, or if the key doesn't begin with a prefix.
fn write_entry<T: Walked>(
    trie: &T,
    start: &[u8],
    at: Numbered,
    prefix: &[u8],
    bytes: &mut [u8],
    used: usize,
) -> Option<usize>
    requires well_formed { IsWellFormed T.slots (T.shown trie.now) }
    requires below { IsNumberedBelow (T.shown trie.now) start.now at.depth at.slot }
    requires used { used ≤ length bytes.old }
    ensures kept { (take used bytes.new ≡ take used bytes.old) × (length bytes.new ≡ length bytes.old) }
    ensures left { result ≡ None → EndsPage prefix.now (length bytes.old - used) (visited_key (T.shown trie.now) start.now at) }
    ensures length { IfSome result (λ len. (len ≡ length (visited_key (T.shown trie.now) start.now at)) × (used + len ≤ length bytes.old)) }
    ensures begins { IfSome result (λ _. starts_with nat_eq (visited_key (T.shown trie.now) start.now at) prefix.now ≡ true) }
    ensures written { IfSome result (λ len.
        take (used + len) bytes.new ≡ take used bytes.old ++ (visited_key (T.shown trie.now) start.now at)) }
{
    let len = key_length(trie, start, at);
    if bytes.len() - used < len {
        return None;
    }
    write_key(trie, start, at, &mut bytes[used..used + len]);
    if bytes[used..used + len].starts_with(prefix) {
        Some(len)
    } else {
        None
    }
}

/// Writes a page of the entries that a walk has left: where their keys begin, and the keys. It returns how many they are, and the node of
/// the first one that isn't written.
pub(crate) fn write_page<T: Walked>(
    trie: &T,
    start: &[u8],
    first: Option<Numbered>,
    prefix: &[u8],
    found: &mut [Found],
    bytes: &mut [u8],
) -> Page
    requires well_formed { IsWellFormed T.slots (T.shown trie.now) }
    requires place { IsRangePlace (T.shown trie.now) start.now first }
    ensures written { WritesPage prefix.now (entries_left (T.shown trie.now) start.now first) found.old found.new bytes.old bytes.new result.count }
    ensures left { entries_left (T.shown trie.now) start.now result.next ≡ drop result.count (entries_left (T.shown trie.now) start.now first) }
    ensures place { IsRangePlace (T.shown trie.now) start.now result.next }
{
    let mut next = first;
    let mut used = 0;
    let mut count = 0;
    while count < found.len() {
        let Some(at) = next else {
            return Page { count, next };
        };
        let Some(len) = write_entry(trie, start, at, prefix, bytes, used) else {
            return Page { count, next };
        };
        found[count] = Found {
            place: used,
            length: len,
            value: at.number,
        };
        used += len;
        count += 1;
        next = trie.next_numbered(at.slot, at.depth);
    }
    Page { count, next }
}

/// How many bytes the key needs that a walk comes to first, if it finds no room in a page.
pub(crate) fn lack<T: Walked>(
    trie: &T,
    start: &[u8],
    first: Option<Numbered>,
    places: usize,
    room: usize,
) -> Option<usize>
    requires well_formed { IsWellFormed T.slots (T.shown trie.now) }
    requires place { IsRangePlace (T.shown trie.now) start.now first }
    ensures { result ≡ bytes_lacking places room (entries_left (T.shown trie.now) start.now first) }
{
    let at = first?;
    let len = key_length(trie, start, at);
    if 0 < places && room < len {
        Some(len)
    } else {
        None
    }
}

/// Writes a page of the entries that a walk has left, or how many bytes its first key needs.
fn tell_page<T: Walked>(
    trie: &T,
    start: &[u8],
    first: Option<Numbered>,
    prefix: &[u8],
    found: &mut [Found],
    keys: &mut [u8],
    count: &mut usize,
    need: &mut usize,
) -> u32
    requires well_formed { IsWellFormed T.slots (T.shown trie.now) }
    requires place { IsRangePlace (T.shown trie.now) start.now first }
    ensures { TellsPage prefix.now (entries_left (T.shown trie.now) start.now first) found.old found.new keys.old keys.new count.old count.new need.old need.new result }
{
    match lack(trie, start, first, found.len(), keys.len()) {
        Some(len) => {
            *need = len;
            NO_ROOM
        }
        None => {
            *count = write_page(trie, start, first, prefix, found, keys).count;
            OK
        }
    }
}

/// The node of the first entry after a key.
fn first_behind<T: Walked>(trie: &T, key: &[u8], is_held: bool) -> Option<Numbered>
    requires well_formed { IsWellFormed T.slots (T.shown trie.now) }
    requires ordered { (T.shown trie.now).ordered ≡ true }
    requires held { IsTrue is_held ↔ IsSome (number_at (tree_of (T.shown trie.now)) key.now) }
    ensures { ComesToFirst (T.shown trie.now) [] (entries_behind_key (tree_of (T.shown trie.now)) key.now) result }
{
    let first = trie.first_since(key)?;
    if is_held {
        trie.next_numbered(first.slot, first.depth)
    } else {
        Some(first)
    }
}

/// Whether the labels of a dictionary ascend.
pub(crate) fn is_ordered<L: Layout, const SLOTS: usize>(trie: &Trie<L, SLOTS, Global>) -> bool
    ensures { result ≡ trie.now.state.ordered }
{
    trie.range_bytes(b"", b"").is_some()
}

/// Writes a page of a dictionary's entries.
fn entries_of<L: Layout, const SLOTS: usize>(
    trie: &Trie<L, SLOTS, Global>,
    prefix: &[u8],
    behind: &[u8],
    found: &mut [Found],
    keys: &mut [u8],
    count: &mut usize,
    need: &mut usize,
) -> u32
    ensures { TellsEntries trie.now.state prefix.now behind.now found.old found.new keys.old keys.new count.old count.new need.old need.new result }
{
    trie.stands_on_its_table();
    if behind.is_empty() {
        let first = trie.first_numbered(prefix);
        return tell_page(trie, prefix, first, prefix, found, keys, count, need);
    }
    if !is_ordered(trie) {
        return NOT_ASCENDING;
    }
    let is_held = trie.contains_key_bytes(behind);
    let first = first_behind(trie, behind, is_held);
    tell_page(trie, &behind[..0], first, prefix, found, keys, count, need)
}

/// `entries_of` a dictionary of either layout.
fn entries_from(
    cedar: &AnyCedar,
    prefix: &[u8],
    behind: &[u8],
    found: &mut [Found],
    keys: &mut [u8],
    count: &mut usize,
    need: &mut usize,
) -> u32
    ensures { PageOf prefix.now behind.now found.old found.new keys.old keys.new count.old count.new need.old need.new result cedar.now }
{
    on_layout!(cedar, cedar => entries_of(cedar, prefix, behind, found, keys, count, need))
}

/// Writes a page of the entries whose keys begin with a prefix and come after `behind`, in iteration order: where their keys begin, how
/// long they are and their values into the elements, and the keys one after another into the bytes. It writes how many they are: as many as
/// there are elements and room for. With an element or more, 0 says that no key with the prefix comes next: if `behind` is empty or begins
/// with the prefix, none is left then. If `behind` is empty, the page begins with the first entry. It looks `behind` up, visits no entry
/// before the page, and allocates nothing.
///
/// # Errors
/// `CLOSED` if the handle is closed; `NOT_ASCENDING` if `behind` isn't empty and the labels of the dictionary don't ascend; `NO_ROOM` if
/// there is an element and the next key has more bytes than there is room for: then it writes how many. That next key may be one without
/// the prefix, after the last one with it or before the first. After an error nothing else is written.
#[unsafe(no_mangle)]
pub extern "C" fn cedar_entries_from(
    handle: &mut Reading,
    prefix: &[u8],
    behind: &[u8],
    found: &mut [Found],
    keys: &mut [u8],
    count: &mut usize,
    need: &mut usize,
) -> u32
    ensures closed { (result ≡ CLOSED) ↔ (shown_in handle.old ≡ None) }

    //= A page of entries has those after a key by bytes, or from the first one on if no key is given, in iteration order, as long as their
    //  keys begin with the prefix, and there are elements and room for their bytes. `count` is how many. Each element has where its key is,
    //  its length and its value, and the other elements don't change. The keys are one after another in the first bytes. [by page,
    //  TellsEntries, following, page_of]
    //= It is refused exactly if the handle is closed, with `NOT_ASCENDING` if a key is given and labels don't ascend, and otherwise with
    //  `NO_ROOM` if there is an element and the first key to come, with the prefix or without it, has more bytes than there is room for:
    //  `need` is how many. Then nothing else is written. [with closed, closed_stays]
    ensures page { IfSome (shown_in handle.old) (PageOf prefix.now behind.now found.old found.new keys.old keys.new count.old count.new need.old need.new result) }
    ensures closed_stays { result ≡ CLOSED → WritesNothing found.old found.new keys.old keys.new count.old count.new × (need.new ≡ need.old) }
    ensures kept { handle.new ≡ handle.old }
{
    if !handle.is_open() {
        return CLOSED;
    }
    entries_from(
        handle.shown.see().dictionary(),
        prefix,
        behind,
        found,
        keys,
        count,
        need,
    )
}
