//! A page of the entries below a prefix, with their keys, which ends at the prefix's node.

ghost use Rattle.std.specs.Prelude.{◌<◌, ◌↔◌, ◌≡◌, ◌⊎◌, [], false, IfOk, IfSome, IsSome};
ghost use Rattle.std.specs.Prelude.{IsTrue, length, nat_eq, None, OnErr, true};
ghost use Rattle.cedar_c.specs.Words.{CanGoOnBehind, ComesToNumber, entries_left, entries_since};
ghost use Rattle.cedar_c.specs.Words.{FindsNoRoom, first_length, following_below, is_lt};
ghost use Rattle.cedar_c.specs.Words.{IsNumberedBelow, IsPlaceOf, IsRangePlace, IsWellFormed};
ghost use Rattle.cedar_c.specs.Words.{MayWantMemory, nat_cmp, number_at, PageBelow, path_to};
ghost use Rattle.cedar_c.specs.Words.{prefixed_behind, shown_in};
ghost use Rattle.cedar_c.specs.Words.{slice_cmp, starts_with, TellsBelow, TellsNext, tree_of};
ghost use Rattle.cedar_c.specs.Words.{WritesNothing};

use crate::entries::{is_ordered, key_length, lack, write_key, write_page};
use crate::reading::Reading;
use crate::scans::Found;
use crate::status::{CLOSED, MEMORY, NO_ROOM, NOT_ASCENDING, OK};
use cedar_walk::Numbered;
use cedarwood::{Layout, Trie, Walked};
use either_layout::{AnyCedar, on_layout};
use std::alloc::{AllocError, Global};

/// Whether the key of a node, for which a buffer has just the room, begins with a prefix. It is written there.
fn begins_in<T: Walked>(trie: &T, at: Numbered, prefix: &[u8], key: &mut [u8]) -> bool
    requires well_formed { IsWellFormed T.slots (T.shown trie.now) }
    requires below { IsNumberedBelow (T.shown trie.now) [] at.depth at.slot }
    requires room { length key.old ≡ at.depth }
    ensures answer { result ≡ starts_with nat_eq (path_to (T.shown trie.now) at.depth at.slot) prefix.now }
    ensures room { length key.new ≡ length key.old }
{
    write_key(trie, &[], at, key);
    key.starts_with(prefix)
}

/// Whether the key of a node begins with a prefix. It is written into a buffer, or into memory of its own if that has no room for it.
fn node_begins<T: Walked>(
    trie: &T,
    at: Numbered,
    prefix: &[u8],
    bytes: &mut [u8],
    alloc: Global,
) -> Result<bool, AllocError>
    requires well_formed { IsWellFormed T.slots (T.shown trie.now) }
    requires below { IsNumberedBelow (T.shown trie.now) [] at.depth at.slot }
    ensures answer { IfOk result (λ begins. begins ≡ starts_with nat_eq (path_to (T.shown trie.now) at.depth at.slot) prefix.now) }
    ensures room { length bytes.new ≡ length bytes.old }
    ensures unchanged { length bytes.old < at.depth → bytes.new ≡ bytes.old }
    ensures refused { OnErr result (length bytes.old < at.depth) }
{
    if at.depth <= bytes.len() {
        return Ok(begins_in(trie, at, prefix, &mut bytes[..at.depth]));
    }
    let mut key = Vec::new(alloc);
    key.resize(at.depth, 0)?;
    Ok(begins_in(trie, at, prefix, key.as_mut_slice()))
}

/// Whether the key of the first node at a key or after it begins with a prefix. If the key is held, it is that of the node.
fn first_begins<T: Walked>(
    trie: &T,
    first: Numbered,
    prefix: &[u8],
    behind: &[u8],
    is_held: bool,
    bytes: &mut [u8],
    alloc: Global,
) -> Result<bool, AllocError>
    requires well_formed { IsWellFormed T.slots (T.shown trie.now) }
    requires ordered { (T.shown trie.now).ordered ≡ true }
    requires first { ComesToNumber (T.shown trie.now) [] (entries_since (tree_of (T.shown trie.now)) behind.now) first }
    requires held { IsTrue is_held ↔ IsSome (number_at (tree_of (T.shown trie.now)) behind.now) }
    ensures answer { IfOk result (λ begins. begins ≡ starts_with nat_eq (path_to (T.shown trie.now) first.depth first.slot) prefix.now) }
    ensures room { length bytes.new ≡ length bytes.old }
    ensures unchanged { length bytes.old < first.depth → bytes.new ≡ bytes.old }
    ensures held { IsTrue is_held → bytes.new ≡ bytes.old }
    ensures refused { OnErr result ((length bytes.old < first.depth) × (is_held ≡ false)) }
{
    if is_held {
        return Ok(behind.starts_with(prefix));
    }
    node_begins(trie, first, prefix, bytes, alloc)
}

/// Where a walk below a prefix goes on at a node with the prefix, of which the depth is counted from the root: at the next node if the key
/// of this one was shown, and otherwise at it.
fn place_from<T: Walked>(
    trie: &T,
    first: Numbered,
    prefix: &[u8],
    behind: &[u8],
    is_held: bool,
) -> Option<Numbered>
    requires well_formed { IsWellFormed T.slots (T.shown trie.now) }
    requires ordered { (T.shown trie.now).ordered ≡ true }
    requires first { ComesToNumber (T.shown trie.now) [] (entries_since (tree_of (T.shown trie.now)) behind.now) first }
    requires held { IsTrue is_held ↔ IsSome (number_at (tree_of (T.shown trie.now)) behind.now) }
    requires begins { starts_with nat_eq (path_to (T.shown trie.now) first.depth first.slot) prefix.now ≡ true }
    ensures { IsPlaceOf (T.shown trie.now) prefix.now (prefixed_behind (tree_of (T.shown trie.now)) prefix.now behind.now) result }
{
    let _ = behind;
    let depth = first.depth - prefix.len();
    if is_held {
        return trie.next_numbered(first.slot, depth);
    }
    Some(Numbered {
        slot: first.slot,
        depth,
        number: first.number,
    })
}

/// The node of the first entry below a prefix that comes behind a key, which isn't before the prefix by bytes.
fn first_after<T: Walked>(
    trie: &T,
    prefix: &[u8],
    behind: &[u8],
    is_held: bool,
    bytes: &mut [u8],
    alloc: Global,
) -> Result<Option<Numbered>, AllocError>
    requires well_formed { IsWellFormed T.slots (T.shown trie.now) }
    requires ordered { (T.shown trie.now).ordered ≡ true }
    requires held { IsTrue is_held ↔ IsSome (number_at (tree_of (T.shown trie.now)) behind.now) }
    requires after { is_lt (slice_cmp nat_cmp behind.now prefix.now) ≡ false }
    ensures place { IfOk result (IsPlaceOf (T.shown trie.now) prefix.now (prefixed_behind (tree_of (T.shown trie.now)) prefix.now behind.now)) }
    ensures room { length bytes.new ≡ length bytes.old }
    ensures unchanged { FindsNoRoom (length bytes.old) (prefixed_behind (tree_of (T.shown trie.now)) prefix.now behind.now) → bytes.new ≡ bytes.old }
    ensures refused { OnErr result (MayWantMemory (tree_of (T.shown trie.now)) behind.now (length bytes.old) × (bytes.new ≡ bytes.old)) }
{
    let Some(first) = trie.first_since(behind) else {
        return Ok(None);
    };
    if !first_begins(trie, first, prefix, behind, is_held, bytes, alloc)? {
        return Ok(None);
    }
    Ok(place_from(trie, first, prefix, behind, is_held))
}

/// The node of the first entry below a prefix that comes behind a key, or of the first one below it if no key is given.
fn first_below<T: Walked>(
    trie: &T,
    prefix: &[u8],
    behind: &[u8],
    is_held: bool,
    bytes: &mut [u8],
    alloc: Global,
) -> Result<Option<Numbered>, AllocError>
    requires well_formed { IsWellFormed T.slots (T.shown trie.now) }
    requires ordered { (behind.now ≡ []) ⊎ ((T.shown trie.now).ordered ≡ true) }
    requires held { IsTrue is_held ↔ IsSome (number_at (tree_of (T.shown trie.now)) behind.now) }
    ensures place { IfOk result (IsPlaceOf (T.shown trie.now) prefix.now (following_below (tree_of (T.shown trie.now)) prefix.now behind.now)) }
    ensures room { length bytes.new ≡ length bytes.old }
    ensures unchanged { FindsNoRoom (length bytes.old) (following_below (tree_of (T.shown trie.now)) prefix.now behind.now) → bytes.new ≡ bytes.old }
    ensures refused { OnErr result (MayWantMemory (tree_of (T.shown trie.now)) behind.now (length bytes.old) × (bytes.new ≡ bytes.old)) }
{
    if behind.is_empty() {
        return Ok(trie.first_numbered(prefix));
    }
    if behind.cmp(prefix).is_lt() {
        return Ok(trie.first_numbered(prefix));
    }
    first_after(trie, prefix, behind, is_held, bytes, alloc)
}

/// How many bytes the key has that a walk comes to next, or 0 if none is left.
fn next_length<T: Walked>(trie: &T, start: &[u8], next: Option<Numbered>) -> usize
    requires well_formed { IsWellFormed T.slots (T.shown trie.now) }
    requires place { IsRangePlace (T.shown trie.now) start.now next }
    ensures { result ≡ first_length (entries_left (T.shown trie.now) start.now next) }
{
    match next {
        Some(at) => key_length(trie, start, at),
        None => 0,
    }
}

/// Writes a page of the entries that a walk below a prefix has left and how many bytes the key behind it has, or how many its first key
/// needs.
fn tell_below<T: Walked>(
    trie: &T,
    prefix: &[u8],
    first: Option<Numbered>,
    found: &mut [Found],
    keys: &mut [u8],
    count: &mut usize,
    needed: &mut usize,
) -> u32
    requires well_formed { IsWellFormed T.slots (T.shown trie.now) }
    requires place { IsRangePlace (T.shown trie.now) prefix.now first }
    ensures { TellsNext prefix.now (entries_left (T.shown trie.now) prefix.now first) found.old found.new keys.old keys.new count.old count.new needed.new result }
{
    match lack(trie, prefix, first, found.len(), keys.len()) {
        Some(len) => {
            *needed = len;
            NO_ROOM
        }
        None => {
            let page = write_page(trie, prefix, first, prefix, found, keys);
            *count = page.count;
            *needed = next_length(trie, prefix, page.next);
            OK
        }
    }
}

/// Whether a page can go on behind a key: labels ascend, or no key is given.
fn can_go_on<L: Layout, const SLOTS: usize>(trie: &Trie<L, SLOTS, Global>, behind: &[u8]) -> bool
    ensures { IsTrue result ↔ CanGoOnBehind trie.now.state behind.now }
{
    behind.is_empty() || is_ordered(trie)
}

/// Writes a page of a dictionary's entries below a prefix.
fn page_below<L: Layout, const SLOTS: usize>(
    trie: &Trie<L, SLOTS, Global>,
    alloc: Global,
    prefix: &[u8],
    behind: &[u8],
    found: &mut [Found],
    keys: &mut [u8],
    count: &mut usize,
    needed: &mut usize,
) -> u32
    ensures { TellsBelow trie.now.state prefix.now behind.now found.old found.new keys.old keys.new count.old count.new needed.old needed.new result }
{
    trie.stands_on_its_table();
    if !can_go_on(trie, behind) {
        return NOT_ASCENDING;
    }
    let is_held = trie.contains_key_bytes(behind);
    match first_below(trie, prefix, behind, is_held, keys, alloc) {
        Ok(first) => tell_below(trie, prefix, first, found, keys, count, needed),
        Err(_) => MEMORY,
    }
}

/// `page_below` of a dictionary of either layout.
fn entries_below(
    cedar: &AnyCedar,
    alloc: Global,
    prefix: &[u8],
    behind: &[u8],
    found: &mut [Found],
    keys: &mut [u8],
    count: &mut usize,
    needed: &mut usize,
) -> u32
    ensures { PageBelow prefix.now behind.now found.old found.new keys.old keys.new count.old count.new needed.old needed.new result cedar.now }
{
    on_layout!(cedar, cedar => page_below(cedar, alloc, prefix, behind, found, keys, count, needed))
}

/// Writes a page of the entries below a prefix, behind a key: those whose keys begin with the prefix and come after `behind`, in iteration
/// order; all of them if `behind` is empty. It writes where their keys begin, how long they are and their values into the elements, the
/// keys one after another into the bytes, and how many they are: as many as there are elements and room for. `needed` becomes how many
/// bytes the key behind the page has, or 0 if the page is the last. It looks `behind` up, and goes on from its node as far as the prefix's
/// node. It allocates only if `behind` isn't held and the next key of all has more bytes than there is room for: then that key's bytes.
///
/// # Errors
/// `CLOSED` if the handle is closed; `NOT_ASCENDING` if `behind` isn't empty and the labels of the dictionary don't ascend; `NO_ROOM` if
/// there is an element and the next key with the prefix has more bytes than there is room for: then `needed` becomes how many; `MEMORY` if
/// an allocation was refused. After an error nothing else is written.
#[unsafe(no_mangle)]
pub extern "C" fn cedar_entries_below(
    handle: &mut Reading,
    alloc: Global,
    prefix: &[u8],
    behind: &[u8],
    found: &mut [Found],
    keys: &mut [u8],
    count: &mut usize,
    needed: &mut usize,
) -> u32
    ensures closed { (result ≡ CLOSED) ↔ (shown_in handle.old ≡ None) }

    //= A page below a prefix has those entries after a key by bytes whose keys begin with the prefix, or all of these if no key is given,
    //  in iteration order, as many as there are elements and room for. It is written as other pages are. `needed` is how many bytes the key
    //  of the next of them has, or 0 if none is left. [by page, TellsBelow, following_below, page_of]
    //= It is refused exactly if the handle is closed, with `NOT_ASCENDING` if a key is given and labels don't ascend, and otherwise with
    //  `NO_ROOM` if there is an element and the first of these keys has more bytes than there is room for: `needed` is how many. In place
    //  of all that `MEMORY` may be returned, only if the key that is given isn't held and the first key of all after it has more bytes than
    //  there is room for. Then nothing else is written. [with closed, closed_stays]
    ensures page { IfSome (shown_in handle.old) (PageBelow prefix.now behind.now found.old found.new keys.old keys.new count.old count.new needed.old needed.new result) }
    ensures closed_stays { result ≡ CLOSED → WritesNothing found.old found.new keys.old keys.new count.old count.new × (needed.new ≡ needed.old) }
    ensures kept { handle.new ≡ handle.old }
{
    if !handle.is_open() {
        return CLOSED;
    }
    entries_below(
        handle.shown.see().dictionary(),
        alloc,
        prefix,
        behind,
        found,
        keys,
        count,
        needed,
    )
}
