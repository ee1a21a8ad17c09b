//! Many keys removed in one call.

ghost use Rattle.std.specs.Prelude.{◌++◌, ◌+◌, ◌≡◌, drop, IfSome, length, None};
ghost use Rattle.std.specs.Prelude.{option_map, set, take};
ghost use Rattle.cedar_c.specs.Words.{content, HasSameSize, held_in_turn, inner_dictionary};
ghost use Rattle.cedar_c.specs.Words.{inner_layout, KeepsSlots, keys_erased, named_keys, state_in};
ghost use Rattle.cedar_c.specs.Words.{tree_in, walk};

use crate::handle::Handle;
use cedarwood::{CACHED_SLOTS, Layout, Trie};
use either_layout::{AnyCedar, on_layout};
use std::alloc::Global;

/// How many keys are looked up in step before they are removed.
const LANES: usize = 16;

/// A key.
#[repr(C)]
#[derive(Clone, Copy)]
pub struct Key<'a> {
    pub key: &'a [u8],
}

/// Removes some keys, writes for as many as there is room for whether they were held, and returns how many of all were.
fn erase_all<L: Layout, const SLOTS: usize>(
    trie: &mut Trie<L, SLOTS, Global>,
    keys: &[Key<'_>],
    held: &mut [bool],
) -> usize
    ensures count { result + length (walk trie.new.state.tree) ≡ length (walk trie.old.state.tree) }
    ensures held { held.new ≡ take (length held.old) (held_in_turn trie.old.state (named_keys keys.now)) ++ drop (length keys.now) held.old }
    ensures after { trie.new.state ≡ keys_erased trie.old.state (named_keys keys.now) }
    ensures size { (trie.new.size ≡ trie.old.size) × (trie.new.capacity ≡ trie.old.capacity) }
    ensures max_trial { trie.new.max_trial ≡ trie.old.max_trial }
    ensures search_limit { trie.new.search_limit ≡ trie.old.search_limit }
{
    let before = trie.len();
    for index in 0..keys.len() {
        if index % LANES == 0 {
            pass_in_step(trie, &keys[index..]);
        }
        let was_held = trie.erase_bytes(keys[index].key);
        tell(held, index, was_held);
    }
    before - trie.len()
}

/// Writes a result, if there is room for it.
fn tell(held: &mut [bool], index: usize, was_held: bool)
    ensures { held.new ≡ set held.old index was_held }
{
    if index < held.len() {
        held[index] = was_held;
    }
}

/// Looks up the first keys in step, as the dictionary's own `erase_batch` does, which brings to the processor what their erasures read,
/// unless the table is small.
fn pass_in_step<L: Layout, const SLOTS: usize>(trie: &Trie<L, SLOTS, Global>, keys: &[Key<'_>]) {
    if trie.node_capacity() <= CACHED_SLOTS {
        return;
    }
    let count = keys.len().min(LANES);
    let mut lanes: [&[u8]; LANES] = [&[]; LANES];
    for lane in 0..count {
        lanes[lane] = keys[lane].key;
    }
    trie.exact_match_search_batch(&lanes[..count], &mut [None; LANES]);
}

/// The same of a dictionary of either layout.
fn erase_keys(cedar: &mut AnyCedar, keys: &[Key<'_>], held: &mut [bool]) -> usize
    ensures count { result + length (walk (inner_dictionary cedar.new).state.tree) ≡ length (walk (inner_dictionary cedar.old).state.tree) }
    ensures held { held.new ≡ take (length held.old) (held_in_turn (inner_dictionary cedar.old).state (named_keys keys.now)) ++ drop (length keys.now) held.old }
    ensures after { (inner_dictionary cedar.new).state ≡ keys_erased (inner_dictionary cedar.old).state (named_keys keys.now) }
    ensures size { HasSameSize (inner_dictionary cedar.old) (inner_dictionary cedar.new) }
    ensures max_trial { (inner_dictionary cedar.new).max_trial ≡ (inner_dictionary cedar.old).max_trial }
    ensures search_limit { (inner_dictionary cedar.new).search_limit ≡ (inner_dictionary cedar.old).search_limit }
    ensures layout { inner_layout cedar.new ≡ inner_layout cedar.old }
{
    on_layout!(cedar, cedar => erase_all(cedar, keys, held))
}

/// Removes some keys, one after another, and returns how many of them were held. `held[i]` becomes whether `keys[i]` was held then, for as
/// many keys as there is room for; elements after the last key stay. If the table is large, a few keys are looked up in step before they
/// are removed, which is faster if they come in no order. It allocates nothing. On a closed handle it does nothing.
#[unsafe(no_mangle)]
pub extern "C" fn cedar_erase_all(handle: &mut Handle, keys: &[Key<'_>], held: &mut [bool]) -> usize
    //= `cedar_erase_all` removes all of some keys, as erasures one after another do, and returns how many keys fewer are held. There are as
    //  many slots as before. [with after, kept]
    ensures count { result + length (walk (tree_in handle.new)) ≡ length (walk (tree_in handle.old)) }

    //= For as many keys as there is room for it writes whether each was held once those before it were removed. Places after the last key
    //  don't change, and none does if the handle is closed. [with closed]
    ensures held { IfSome (state_in handle.old) (λ s. held.new ≡ take (length held.old) (held_in_turn s (named_keys keys.now)) ++ drop (length keys.now) held.old) }
    ensures closed { content handle.old ≡ None → held.new ≡ held.old }
    ensures after { state_in handle.new ≡ option_map (λ s. keys_erased s (named_keys keys.now)) (state_in handle.old) }
    ensures kept { KeepsSlots handle.old handle.new }
{
    if !handle.is_open() {
        return 0;
    }
    erase_keys(handle.held.lend(), keys, held)
}
