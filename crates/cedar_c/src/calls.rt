//! The calls that make, copy, change and query a dictionary.

ghost use Rattle.std.specs.Prelude.{◌↔◌, ◌≡◌, ◌⊎◌, IfSome, IsSome, IsTrue};
ghost use Rattle.std.specs.Prelude.{None, option_map, pos, Some, true};
ghost use Rattle.cedar_c.specs.Words.{after_erase, AnyCedar, ChangesBy, content, default_layout};
ghost use Rattle.cedar_c.specs.Words.{ErasesUnder, inner_dictionary, inner_layout, IsCleared};
ghost use Rattle.cedar_c.specs.Words.{IsEmpty, KeepsSlots, layout_for, layout_in};
ghost use Rattle.cedar_c.specs.Words.{longest_front, match_of, number_at, OpensNew, reduced_layout};
ghost use Rattle.cedar_c.specs.Words.{shown_in, shown_tree, state_in, StoresValue, tree_in};

use crate::handle::Handle;
use crate::reading::Reading;
use crate::status::{CLOSED, INVALID_MAX_TRIAL, MEMORY, OK, tell};
use crate::walks::Match;
use cedarwood::{CedarBuilder, Layout, Trie};
use either_layout::{AnyCedar, on_layout};
use std::alloc::Global;

/// An empty dictionary with these settings on the heap.
fn make(alloc: Global, is_reduced: bool, settings: CedarBuilder) -> Option<Box<AnyCedar, Global>>
    ensures made { IfSome result (λ b. IsEmpty settings (inner_dictionary b.value)) }
    ensures layout { IfSome result (λ b. inner_layout b.value ≡ layout_for is_reduced) }
{
    let cedar = AnyCedar::with(alloc, is_reduced, settings).ok()?;
    Box::new(alloc, cedar).ok()
}

/// Opens a handle with an empty dictionary of these settings.
fn renew(handle: &mut Handle, alloc: Global, is_reduced: bool, settings: CedarBuilder) -> u32
    ensures made { result ≡ OK → (a : AnyCedar) × (content handle.new ≡ Some a) × IsEmpty settings (inner_dictionary a) }
    ensures layout { result ≡ OK → layout_in handle.new ≡ Some (layout_for is_reduced) }
    ensures refused { (result ≡ OK) ⊎ ((result ≡ MEMORY) × (content handle.new ≡ content handle.old)) }
{
    match make(alloc, is_reduced, settings) {
        Some(cedar) => {
            let _ = handle.take(alloc);
            *handle = Handle::of(cedar);
            OK
        }
        None => MEMORY,
    }
}

/// Opens a handle with an empty dictionary. If the handle is open, the new one replaces the old one.
///
/// # Errors
/// `MEMORY` if an allocation was refused. Then the handle is as it was.
#[unsafe(no_mangle)]
pub extern "C" fn cedar_new(handle: &mut Handle, alloc: Global) -> u32
    //= The dictionary that was made is of the default layout. [also cedar_new_with, cedar_build, cedar_build_unsorted, cedar_load; by
    //  layout]
    ensures opens { OpensNew default_layout true (pos 1) handle.old handle.new result }
{
    renew_with(handle, alloc, false, true, 1)
}

/// As `cedar_new`, with settings: whether the labels of each node ascend, and how many failed searches for a place close a block.
///
/// # Errors
/// `INVALID_MAX_TRIAL` if `max_trial` is 0 or less, and otherwise `MEMORY` if an allocation was refused. Then the handle is as it was.
#[unsafe(no_mangle)]
pub extern "C" fn cedar_new_with(
    handle: &mut Handle,
    alloc: Global,
    ordered: bool,
    max_trial: i32,
) -> u32
    //= The call opens a handle with an empty dictionary of 256 slots and the settings that are given, or the default ones. Nothing bounds
    //  a search in it. [also cedar_new_reduced, cedar_new; by made]
    //= It fails for lack of memory, and for a `max_trial` exactly if that is below 1. Then the handle has what it had. [also
    //  cedar_new_reduced, cedar_new; by refused, invalid]
    ensures opens { OpensNew default_layout ordered max_trial handle.old handle.new result }
{
    renew_with(handle, alloc, false, ordered, max_trial)
}

/// As `cedar_new_with`, of the reduced layout, which takes fewer slots.
///
/// # Errors
/// As `cedar_new_with`.
#[unsafe(no_mangle)]
pub extern "C" fn cedar_new_reduced(
    handle: &mut Handle,
    alloc: Global,
    ordered: bool,
    max_trial: i32,
) -> u32
    //= The dictionary that was made is of the reduced layout. [also cedar_build_reduced, cedar_build_unsorted_reduced,
    //  cedar_load_reduced; by layout]
    ensures opens { OpensNew reduced_layout ordered max_trial handle.old handle.new result }
{
    renew_with(handle, alloc, true, ordered, max_trial)
}

/// Opens a handle with an empty dictionary of these settings, if there can be such.
fn renew_with(
    handle: &mut Handle,
    alloc: Global,
    is_reduced: bool,
    ordered: bool,
    max_trial: i32,
) -> u32
    ensures opens { OpensNew (layout_for is_reduced) ordered max_trial handle.old handle.new result }
{
    match CedarBuilder::new().ordered(ordered).max_trial(max_trial) {
        Ok(settings) => renew(handle, alloc, is_reduced, settings),
        Err(_) => INVALID_MAX_TRIAL,
    }
}

/// Closes a handle, and gives its memory back.
#[unsafe(no_mangle)]
pub extern "C" fn cedar_free(handle: &mut Handle, alloc: Global)
    //= A handle that is freed is closed.
    ensures { content handle.new ≡ None }
{
    drop(handle.take(alloc));
}

/// Stores a value at a key, and replaces the value that the key holds, if any.
///
/// # Errors
/// `CLOSED` if the handle is closed, and otherwise the number of the error. Then the dictionary holds what it held.
#[unsafe(no_mangle)]
pub extern "C" fn cedar_update(
    handle: &mut Handle,
    key: &[u8],
    value: i32,
    position: &mut usize,
) -> u32
    //= An update returns `CLOSED` exactly if the handle is closed. [also cedar_insert; by closed]
    //= It returns the number of the pair's first fault, with the position of a byte 0, or stores the value. [also cedar_insert; by ok,
    //  faulty]
    //= After any error the tree is as it was, and after a pair's fault the whole dictionary. [also cedar_insert; by err, unchanged]
    //= Updates, inserts and erasures don't change the layout, whatever they return. [also cedar_insert, cedar_update_all.layout,
    //  cedar_erase.kept, cedar_erase_all.kept; by layout]
    //= Without a fault it fails only for lack of memory or slots, only if the key isn't held, and not while a block is spare for each byte.
    //  [also cedar_insert; by memory, limit, spare, refused]
    //= Only an error that has a position writes it (`TellsPosition`). After an error an insert reports neither whether the key was held nor
    //  its value. [also cedar_insert.stores.untold, cedar_update_all.stays, cedar_build.opens, cedar_build_reduced.opens,
    //  cedar_build_unsorted.opens, cedar_build_unsorted_reduced.opens; by stays]
    //= `max_trial` and the search limit don't change. [also cedar_insert, cedar_update_all.trials.search_limit,
    //  cedar_erase.kept, cedar_erase_all.kept; by trials, search_limit]
    ensures stores { StoresValue key.now value handle.old handle.new position.old position.new result }
{
    if !handle.is_open() {
        return CLOSED;
    }
    let answer = handle.held.lend().update_bytes(key, value);
    match answer {
        Ok(()) => OK,
        Err(error) => tell(error, position),
    }
}

/// As `cedar_update`, and writes whether the key was held before, and with which value.
///
/// # Errors
/// As `cedar_update`; then neither is written.
#[unsafe(no_mangle)]
pub extern "C" fn cedar_insert(
    handle: &mut Handle,
    key: &[u8],
    value: i32,
    held: &mut bool,
    before: &mut i32,
    position: &mut usize,
) -> u32
    ensures stores { StoresValue key.now value handle.old handle.new position.old position.new result }

    //= An insert writes whether the key was held, and with which value. [with before]
    ensures held { result ≡ OK → IsTrue held.new ↔ IsSome (number_at (tree_in handle.old) key.now) }
    ensures before { result ≡ OK → IfSome (number_at (tree_in handle.old) key.now) (λ v. before.new ≡ v) }
    ensures untold { (result ≡ OK) ⊎ ((held.new ≡ held.old) × (before.new ≡ before.old)) }
{
    if !handle.is_open() {
        return CLOSED;
    }
    let answer = handle.held.lend().insert_bytes(key, value);
    match answer {
        Ok(number) => {
            *held = number.is_some();
            if let Some(number) = number {
                *before = number;
            }
            OK
        }
        Err(error) => tell(error, position),
    }
}

/// Removes a key, and returns whether it was held.
#[unsafe(no_mangle)]
pub extern "C" fn cedar_erase(handle: &mut Handle, key: &[u8]) -> bool
    //= An erasure returns whether the key was held. The tree is then `cut`, and there are as many slots as before. [with after, kept]
    ensures answer { IsTrue result ↔ IsSome (number_at (tree_in handle.old) key.now) }
    ensures after { state_in handle.new ≡ option_map (λ s. after_erase s key.now) (state_in handle.old) }
    ensures kept { KeepsSlots handle.old handle.new }
{
    if !handle.is_open() {
        return false;
    }
    handle.held.lend().erase_bytes(key)
}

/// Writes the value at a key, and returns whether the key is held.
// Not inlined into the entry for C: its test of the key for NULL would then write one byte of a register that waits for the last value.
#[inline(never)]
#[unsafe(no_mangle)]
pub extern "C" fn cedar_get(handle: &mut Reading, key: &[u8], value: &mut i32) -> bool
    //= A look-up returns whether the key is held, and writes its value or nothing. [with value, absent]
    ensures answer { IsTrue result ↔ IsSome (number_at (shown_tree handle.old) key.now) }
    ensures value { IfSome (number_at (shown_tree handle.old) key.now) (λ v. value.new ≡ v) }
    ensures absent { number_at (shown_tree handle.old) key.now ≡ None → value.new ≡ value.old }

    //= Look-ups, figures, walks, scans, tokens, saves and lists of keys don't change the handle. [also cedar_len, cedar_count_prefix,
    //  cedar_used_slots, cedar_capacity, cedar_spare_blocks, cedar_search_limit, cedar_is_reduced, cedar_prefixes, cedar_predictions,
    //  cedar_prefixes_from, cedar_predictions_from, cedar_scan, cedar_segment, cedar_keywords, cedar_cheapest, cedar_cheapest_by, cedar_save,
    //  cedar_keys, cedar_contains, cedar_longest_prefix, cedar_clone, cedar_entries_from, cedar_entries_below, cedar_first_predictions,
    //  cedar_best, cedar_floor, cedar_ceiling, cedar_next_near, cedar_next_near_text, cedar_next_fitting, cedar_scanner_longest,
    //  cedar_scanner_find]
    ensures kept { handle.new ≡ handle.old }
{
    if !handle.is_open() {
        return false;
    }
    get(handle.shown.see().dictionary(), key, value)
}

/// Writes the value at a key, and returns whether the key is held.
fn get(cedar: &AnyCedar, key: &[u8], value: &mut i32) -> bool
    ensures answer { IsTrue result ↔ IsSome (number_at (inner_dictionary cedar.now).state.tree key.now) }
    ensures value { IfSome (number_at (inner_dictionary cedar.now).state.tree key.now) (λ v. value.new ≡ v) }
    ensures absent { number_at (inner_dictionary cedar.now).state.tree key.now ≡ None → value.new ≡ value.old }
{
    on_layout!(cedar, cedar => get_in(cedar, key, value))
}

/// The same of a dictionary of one layout.
fn get_in<L: Layout, const SLOTS: usize>(
    trie: &Trie<L, SLOTS, Global>,
    key: &[u8],
    value: &mut i32,
) -> bool
    ensures answer { IsTrue result ↔ IsSome (number_at trie.now.state.tree key.now) }
    ensures value { IfSome (number_at trie.now.state.tree key.now) (λ v. value.new ≡ v) }
    ensures absent { number_at trie.now.state.tree key.now ≡ None → value.new ≡ value.old }
{
    // The empty key, which is never held, is tested by itself: otherwise LLVM keeps a way for it into the code after the others' loop, and
    // a hit takes a jump more.
    if key.is_empty() {
        return trie.exact_match_search_bytes(key).is_some();
    }
    match trie.exact_match_search_bytes(key) {
        Some((number, _)) => {
            *value = number;
            true
        }
        None => false,
    }
}

/// Returns whether a key is held. It allocates nothing.
#[unsafe(no_mangle)]
pub extern "C" fn cedar_contains(handle: &mut Reading, key: &[u8]) -> bool
    //= `cedar_contains` returns whether the key is held.
    ensures answer { IsTrue result ↔ IsSome (number_at (shown_tree handle.old) key.now) }
    ensures kept { handle.new ≡ handle.old }
{
    if !handle.is_open() {
        return false;
    }
    handle.shown.see().dictionary().contains_key_bytes(key)
}

/// Writes the value and the length of the longest key that a text begins with, and returns whether there is one; if not, nothing is
/// written. It goes along the text once, and allocates nothing.
#[unsafe(no_mangle)]
pub extern "C" fn cedar_longest_prefix(handle: &mut Reading, text: &[u8], found: &mut Match) -> bool
    //= `cedar_longest_prefix` returns whether a text begins with a key, and writes value and length of the longest such key, or nothing.
    //  [with told, absent; by longest_front]
    ensures answer { IsTrue result ↔ IsSome (longest_front (shown_tree handle.old) text.now) }
    ensures told { IfSome (longest_front (shown_tree handle.old) text.now) (λ longest. found.new ≡ match_of longest) }
    ensures absent { longest_front (shown_tree handle.old) text.now ≡ None → found.new ≡ found.old }
    ensures kept { handle.new ≡ handle.old }
{
    if !handle.is_open() {
        return false;
    }
    let longest = handle.shown.see().dictionary().longest_match_bytes(text);
    match longest {
        Some((value, length)) => {
            *found = Match { value, length };
            true
        }
        None => false,
    }
}

/// Opens a handle with a copy of another one's dictionary. If the handle is open, the new one replaces the old one. A change of one doesn't
/// show in the other.
///
/// # Errors
/// `CLOSED` if the handle that is copied is closed, and `MEMORY` if an allocation was refused. Then the handle is as it was.
#[unsafe(no_mangle)]
pub extern "C" fn cedar_clone(original: &mut Reading, alloc: Global, handle: &mut Handle) -> u32
    //= It returns `CLOSED` exactly if the handle that is copied is closed.
    ensures closed { (result ≡ CLOSED) ↔ (shown_in original.old ≡ None) }

    //= A clone has an equal dictionary, whose table is equal field by field. It fails only for lack of memory; then the handle has what it
    //  had. [with refused]
    ensures cloned { result ≡ OK → content handle.new ≡ shown_in original.old }
    ensures refused { (result ≡ OK) ⊎ (((result ≡ CLOSED) ⊎ (result ≡ MEMORY)) × (content handle.new ≡ content handle.old)) }
    ensures kept { original.new ≡ original.old }
{
    if !original.is_open() {
        return CLOSED;
    }
    let copy = boxed_copy(original.shown.see().dictionary(), alloc);
    match copy {
        Some(cedar) => {
            let _ = handle.take(alloc);
            *handle = Handle::of(cedar);
            OK
        }
        None => MEMORY,
    }
}

/// An equal dictionary on the heap, or `None` if an allocation is refused.
fn boxed_copy(cedar: &AnyCedar, alloc: Global) -> Option<Box<AnyCedar, Global>>
    ensures { IfSome result (λ b. b.value ≡ cedar.now) }
{
    let copy = cedar.clone().ok()?;
    Box::new(alloc, copy).ok()
}

/// Removes each key that begins with a prefix, and writes how many these were; the empty prefix removes all. It neither allocates nor frees
/// memory.
///
/// # Errors
/// `CLOSED` if the handle is closed: then nothing is written.
#[unsafe(no_mangle)]
pub extern "C" fn cedar_erase_prefix(handle: &mut Handle, prefix: &[u8], erased: &mut usize) -> u32
    //= `cedar_erase_prefix` and `cedar_shrink` return `CLOSED` exactly if the handle is closed. [also cedar_shrink]
    ensures closed { (result ≡ CLOSED) ↔ (content handle.old ≡ None) }

    //= An erasure by a prefix removes all keys that begin with it, and no other one, and writes how many these were. It is refused only if
    //  the handle is closed, which then stays closed. [with refused, layout; by erased, ErasesUnder, IsErasedUnder]
    ensures erased { IsSome (content handle.old) → ChangesBy (ErasesUnder prefix.now erased.new) handle.old handle.new }
    ensures layout { layout_in handle.new ≡ layout_in handle.old }
    ensures refused { (result ≡ OK) ⊎ ((result ≡ CLOSED) × (content handle.new ≡ content handle.old) × (erased.new ≡ erased.old)) }
{
    if !handle.is_open() {
        return CLOSED;
    }
    *erased = handle.held.lend().erase_prefix_bytes(prefix);
    OK
}

/// Removes all keys. It neither allocates nor frees memory. On a closed handle it does nothing.
#[unsafe(no_mangle)]
pub extern "C" fn cedar_clear(handle: &mut Handle)
    //= `cedar_clear` removes all keys. Layout, settings and slots don't change. A closed handle stays closed. [with closed, layout; by
    //  cleared, IsCleared]
    ensures cleared { IsSome (content handle.old) → ChangesBy (λ a b. IsCleared (inner_dictionary a) (inner_dictionary b)) handle.old handle.new }
    ensures closed { content handle.old ≡ None → content handle.new ≡ None }
    ensures layout { layout_in handle.new ≡ layout_in handle.old }
{
    if !handle.is_open() {
        return;
    }
    handle.held.lend().clear();
}
