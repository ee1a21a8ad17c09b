//! Many pairs in one call.

ghost use Rattle.std.specs.Prelude.{◌↔◌, ◌≡◌, ◌⊎◌, Err, IfErr, IfSome, IsSome, map, None};
ghost use Rattle.std.specs.Prelude.{OnErr, OnOk, option_map};
ghost use Rattle.cedar_c.specs.Words.{all_stored, content, entries_in, first_fault, HoldsFront};
ghost use Rattle.cedar_c.specs.Words.{HoldsPart, inner_dictionary, inner_layout, IsShortage};
ghost use Rattle.cedar_c.specs.Words.{layout_in, most_slots, RefusesAll, search_limit_in, size_in};
ghost use Rattle.cedar_c.specs.Words.{state_in, StoresFront, StoresPart, taken_pair, TellsPosition};
ghost use Rattle.cedar_c.specs.Words.{trials_in};

use crate::handle::Handle;
use crate::status::{CLOSED, MEMORY, OK, SLOT_LIMIT, tell};
use cedarwood::{CedarError, Layout, Trie};
use either_layout::{AnyCedar, on_layout};
use std::alloc::Global;

/// A key and its value.
#[repr(C)]
#[derive(Clone, Copy)]
pub struct Pair<'a> {
    pub key: &'a [u8],
    pub value: i32,
}

/// The pairs as the dictionary's own calls take them, or `None` if an allocation is refused.
pub(crate) fn take_pairs<'a>(
    alloc: Global,
    pairs: &[Pair<'a>],
) -> Option<Vec<(&'a [u8], i32), Global>>
    ensures { IfSome result (λ v. v.items ≡ map taken_pair pairs.now) }
{
    let mut taken = Vec::new(alloc);
    for index in 0..pairs.len() {
        let pair = pairs[index];
        taken.push((pair.key, pair.value)).ok()?;
    }
    Some(taken)
}

/// Stores some pairs, as the dictionary's own call does; or none, if an allocation is refused.
fn store_all<L: Layout, const SLOTS: usize>(
    trie: &mut Trie<L, SLOTS, Global>,
    alloc: Global,
    pairs: &[Pair<'_>],
) -> Result<(), CedarError>
    ensures stored { OnOk result (trie.new.state ≡ all_stored trie.old.state (entries_in pairs.now)) }
    ensures faulty { IfSome (first_fault (entries_in pairs.now)) (λ e. ((result ≡ Err e) ⊎ (result ≡ Err CedarError.Memory)) × (trie.new ≡ trie.old)) }
    ensures front { StoresFront trie.old.state trie.new.state (entries_in pairs.now) }
    ensures refused { first_fault (entries_in pairs.now) ≡ None → IfErr result IsShortage }
    ensures limit { result ≡ Err CedarError.SlotLimit → trie.new.size ≡ SLOTS }
    ensures part { OnErr result ((trie.new ≡ trie.old) ⊎ StoresPart trie.old.state trie.new.state (entries_in pairs.now)) }
    ensures max_trial { trie.new.max_trial ≡ trie.old.max_trial }
    ensures search_limit { trie.new.search_limit ≡ trie.old.search_limit }
{
    match take_pairs(alloc, pairs) {
        Some(taken) => trie.build_bytes(taken.as_slice()),
        None => Err(CedarError::Memory),
    }
}

/// The same of a dictionary of either layout.
fn store_pairs(cedar: &mut AnyCedar, alloc: Global, pairs: &[Pair<'_>]) -> Result<(), CedarError>
    ensures stored { OnOk result ((inner_dictionary cedar.new).state ≡ all_stored (inner_dictionary cedar.old).state (entries_in pairs.now)) }
    ensures faulty { IfSome (first_fault (entries_in pairs.now)) (λ e. ((result ≡ Err e) ⊎ (result ≡ Err CedarError.Memory)) × (cedar.new ≡ cedar.old)) }
    ensures front { StoresFront (inner_dictionary cedar.old).state (inner_dictionary cedar.new).state (entries_in pairs.now) }
    ensures refused { first_fault (entries_in pairs.now) ≡ None → IfErr result IsShortage }
    ensures layout { inner_layout cedar.new ≡ inner_layout cedar.old }
    ensures limit { result ≡ Err CedarError.SlotLimit → (inner_dictionary cedar.new).size ≡ most_slots }
    ensures part { OnErr result ((cedar.new ≡ cedar.old) ⊎ StoresPart (inner_dictionary cedar.old).state (inner_dictionary cedar.new).state (entries_in pairs.now)) }
    ensures max_trial { (inner_dictionary cedar.new).max_trial ≡ (inner_dictionary cedar.old).max_trial }
    ensures search_limit { (inner_dictionary cedar.new).search_limit ≡ (inner_dictionary cedar.old).search_limit }
{
    on_layout!(cedar, cedar => store_all(cedar, alloc, pairs))
}

/// Stores some pairs, one after another: the last value of a key counts. All are tested first.
///
/// # Errors
/// `CLOSED` if the handle is closed; `MEMORY` if an allocation was refused; the number of the first pair's fault that has one, and then
/// nothing has changed; `MEMORY` or `SLOT_LIMIT` if memory or slots were lacking for a pair: then those before it are stored.
#[unsafe(no_mangle)]
pub extern "C" fn cedar_update_all(
    handle: &mut Handle,
    alloc: Global,
    pairs: &[Pair<'_>],
    position: &mut usize,
) -> u32
    //= Whatever it returns, some first pairs are stored and nothing else. It returns `CLOSED` exactly if the handle is closed. [with front]
    ensures closed { (result ≡ CLOSED) ↔ (content handle.old ≡ None) }

    //= Some pairs are all stored in turn. With a fault among them nothing changes, and the call returns the first fault, or reports lack of
    //  memory. Without one it returns `OK`, `MEMORY` or `SLOT_LIMIT`. [with faulty, refused]
    ensures ok { result ≡ OK → state_in handle.new ≡ option_map (λ s. all_stored s (entries_in pairs.now)) (state_in handle.old) }
    ensures faulty { IsSome (content handle.old) → IfSome (first_fault (entries_in pairs.now)) (RefusesAll handle.old handle.new position.old position.new result) }
    ensures front { HoldsFront handle.old handle.new (entries_in pairs.now) }
    ensures layout { layout_in handle.new ≡ layout_in handle.old }
    ensures refused { IsSome (content handle.old) → first_fault (entries_in pairs.now) ≡ None → (result ≡ OK) ⊎ (result ≡ MEMORY) ⊎ (result ≡ SLOT_LIMIT) }

    //= After an error nothing has changed, or the pairs before one whose key isn't held then are stored. The call returns `SLOT_LIMIT` only
    //  if all slots are in use. [with part]
    ensures limit { result ≡ SLOT_LIMIT → size_in handle.new ≡ most_slots }
    ensures part { (result ≡ OK) ⊎ (content handle.new ≡ content handle.old) ⊎ HoldsPart handle.old handle.new (entries_in pairs.now) }
    ensures stays { TellsPosition result ⊎ (position.new ≡ position.old) }
    ensures trials { trials_in handle.new ≡ trials_in handle.old }
    ensures search_limit { search_limit_in handle.new ≡ search_limit_in handle.old }
{
    if !handle.is_open() {
        return CLOSED;
    }
    let answer = store_pairs(handle.held.lend(), alloc, pairs);
    match answer {
        Ok(()) => OK,
        Err(error) => tell(error, position),
    }
}
