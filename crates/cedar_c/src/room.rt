//! Memory allocated ahead, memory freed, and how many blocks a search for places tries.

ghost use Rattle.std.specs.Prelude.{◌*◌, ◌+◌, ◌-◌, ◌<◌, ◌↔◌, ◌≡◌, ◌≤◌, ◌⊎◌, IsSome, None};
ghost use Rattle.cedar_c.specs.Words.{capacity_after, capacity_in, ChangesBy, content, HasToGrow};
ghost use Rattle.cedar_c.specs.Words.{inner_dictionary, inner_layout, layout_in, marks_in};
ghost use Rattle.cedar_c.specs.Words.{most_slots, search_limit_in, SetsSearchLimit, shown_figure};
ghost use Rattle.cedar_c.specs.Words.{Shrinks, size_in, state_in, trials_in};

use crate::handle::Handle;
use crate::reading::Reading;
use crate::status::{CLOSED, MEMORY, OK, SLOT_LIMIT};
use cedarwood::CedarError;
use either_layout::AnyCedar;

/// Allocates ahead for `blocks` blocks of 256 slots more than are in use, so that an update of a key of as many bytes, or of several keys
/// of as many bytes together, needs no memory. If so many are spare already, nothing changes.
///
/// # Errors
/// `CLOSED` if the handle is closed; `SLOT_LIMIT` if the limit of slots doesn't allow so many blocks, otherwise `MEMORY` if an allocation
/// was refused. After an error nothing has changed.
#[unsafe(no_mangle)]
pub extern "C" fn cedar_reserve(handle: &mut Handle, blocks: usize) -> u32
    //= It returns `CLOSED` exactly if the handle is closed, `SLOT_LIMIT` exactly if the limit doesn't allow so many blocks, and `MEMORY`
    //  only if the slots have to double and may. After any error the dictionary is as it was. [with limit, memory, refused]
    ensures closed { (result ≡ CLOSED) ↔ (content handle.old ≡ None) }

    //= `cedar_reserve` of n blocks leaves n blocks spare. State, marks, settings, layout and slots in use don't change. There are then as
    //  many slots as if n blocks had come into use, and if n were spare nothing changes at all. [with marks, trials, search_limit,
    //  layout, size, capacity, spare, enough, asks_nothing]
    ensures state { state_in handle.new ≡ state_in handle.old }
    ensures marks { marks_in handle.new ≡ marks_in handle.old }
    ensures trials { trials_in handle.new ≡ trials_in handle.old }
    ensures search_limit { search_limit_in handle.new ≡ search_limit_in handle.old }
    ensures layout { layout_in handle.new ≡ layout_in handle.old }
    ensures size { size_in handle.new ≡ size_in handle.old }
    ensures capacity { result ≡ OK → capacity_in handle.new ≡ capacity_after blocks (size_in handle.old) (capacity_in handle.old) }
    ensures spare { result ≡ OK → 256 * blocks ≤ capacity_in handle.new - size_in handle.new }
    ensures enough { 256 * blocks ≤ capacity_in handle.old - size_in handle.old → content handle.new ≡ content handle.old }
    ensures asks_nothing { IsSome (content handle.old) → 256 * blocks ≤ capacity_in handle.old - size_in handle.old → result ≡ OK }
    ensures limit { IsSome (content handle.old) → (result ≡ SLOT_LIMIT) ↔ (most_slots < size_in handle.old + 256 * blocks) }
    ensures memory { result ≡ MEMORY → HasToGrow (size_in handle.old) (capacity_in handle.old) blocks }
    ensures refused { (result ≡ OK) ⊎ (((result ≡ CLOSED) ⊎ (result ≡ MEMORY) ⊎ (result ≡ SLOT_LIMIT)) × (content handle.new ≡ content handle.old)) }
{
    if !handle.is_open() {
        return CLOSED;
    }
    reserve(handle.held.lend(), blocks)
}

/// Allocates ahead for so many blocks more than are in use, and returns what was lacking.
fn reserve(cedar: &mut AnyCedar, blocks: usize) -> u32
    ensures state { (inner_dictionary cedar.new).state ≡ (inner_dictionary cedar.old).state }
    ensures marked { (inner_dictionary cedar.new).marked ≡ (inner_dictionary cedar.old).marked }
    ensures max_trial { (inner_dictionary cedar.new).max_trial ≡ (inner_dictionary cedar.old).max_trial }
    ensures search_limit { (inner_dictionary cedar.new).search_limit ≡ (inner_dictionary cedar.old).search_limit }
    ensures layout { inner_layout cedar.new ≡ inner_layout cedar.old }
    ensures size { (inner_dictionary cedar.new).size ≡ (inner_dictionary cedar.old).size }
    ensures capacity { result ≡ OK → (inner_dictionary cedar.new).capacity ≡ capacity_after blocks (inner_dictionary cedar.old).size (inner_dictionary cedar.old).capacity }
    ensures spare { result ≡ OK → 256 * blocks ≤ (inner_dictionary cedar.new).capacity - (inner_dictionary cedar.new).size }
    ensures enough { 256 * blocks ≤ (inner_dictionary cedar.old).capacity - (inner_dictionary cedar.old).size → (cedar.new ≡ cedar.old) × (result ≡ OK) }
    ensures limit { (result ≡ SLOT_LIMIT) ↔ (most_slots < (inner_dictionary cedar.old).size + 256 * blocks) }
    ensures memory { result ≡ MEMORY → HasToGrow (inner_dictionary cedar.old).size (inner_dictionary cedar.old).capacity blocks }
    ensures refused { (result ≡ OK) ⊎ (((result ≡ MEMORY) ⊎ (result ≡ SLOT_LIMIT)) × (cedar.new ≡ cedar.old)) }
{
    match cedar.try_reserve(blocks) {
        Ok(()) => OK,
        Err(error) => match error {
            CedarError::SlotLimit => SLOT_LIMIT,
            // It has no other error than these two.
            _ => MEMORY,
        },
    }
}

/// Frees memory that growth and erasures have left unused: all keys are put into a new dictionary, which replaces the present one unless it
/// has more slots. Layout and settings stay. While it runs, there are both, and a list of 24 bytes for each key.
///
/// # Errors
/// `CLOSED` if the handle is closed; `MEMORY` if an allocation was refused, and `SLOT_LIMIT` if the limit of slots allows no further block
/// of the new one. After an error nothing has changed.
#[unsafe(no_mangle)]
pub extern "C" fn cedar_shrink(handle: &mut Handle) -> u32
    ensures closed { (result ≡ CLOSED) ↔ (content handle.old ≡ None) }

    //= `cedar_shrink` doesn't change keys, values, their order and the settings, and never leaves more slots than there were. It returns
    //  the result of `shrink_to_fit`. After any error the dictionary is as it was. [with refused, layout; by shrunk, Shrinks, IsShrunk]
    ensures shrunk { IsSome (content handle.old) → Shrinks handle.old handle.new result }
    ensures layout { layout_in handle.new ≡ layout_in handle.old }
    ensures refused { (result ≡ OK) ⊎ (((result ≡ CLOSED) ⊎ (result ≡ MEMORY) ⊎ (result ≡ SLOT_LIMIT)) × (content handle.new ≡ content handle.old)) }
{
    if !handle.is_open() {
        return CLOSED;
    }
    let answer = handle.held.lend().shrink_to_fit();
    match answer {
        Ok(()) => OK,
        Err(cause) => match cause {
            CedarError::SlotLimit => SLOT_LIMIT,
            // Nor has this one.
            _ => MEMORY,
        },
    }
}

/// Lets one search for places try `blocks` blocks of slots at most. On a closed handle it does nothing.
#[unsafe(no_mangle)]
pub extern "C" fn cedar_set_search_limit(handle: &mut Handle, blocks: usize)
    //= `cedar_set_search_limit` sets how many blocks one search tries at most, and changes nothing else that a contract sees. A closed
    //  handle stays closed. [with closed, layout; by set, SetsSearchLimit]
    ensures set { IsSome (content handle.old) → ChangesBy (λ a b. SetsSearchLimit (inner_dictionary a) (inner_dictionary b) blocks) handle.old handle.new }
    ensures closed { content handle.old ≡ None → content handle.new ≡ None }
    ensures layout { layout_in handle.new ≡ layout_in handle.old }
{
    if !handle.is_open() {
        return;
    }
    handle.held.lend().set_search_limit(blocks);
}

/// How many blocks of slots one search for places tries at most.
#[unsafe(no_mangle)]
pub extern "C" fn cedar_search_limit(handle: &mut Reading) -> usize
    //= `cedar_search_limit` returns how many blocks one search tries at most.
    ensures answer { result ≡ shown_figure (λ d. d.search_limit) handle.old }
    ensures kept { handle.new ≡ handle.old }
{
    if !handle.is_open() {
        return 0;
    }
    handle.shown.see().dictionary().search_limit()
}
