//! The dictionary of a store, whose file C keeps (`c/store.c`): each call writes down a plan, and C carries it out before it acknowledges
//! the change. These exports are the library's own, and no program sees them.

ghost use Rattle.std.specs.Prelude.{◌≡◌, ◌≢◌, ◌≤◌, ◌⊎◌, ◌↔◌, ◌+◌, ◌<◌, ◌^◌, false, IfErr, IfOk};
ghost use Rattle.std.specs.Prelude.{IfSome, IsFalse, IsSome, IsTrue, None, Some, is_some, length};
ghost use Rattle.std.specs.Prelude.{option_map, take, true};
ghost use Rattle.cedar_c.specs.Words.{AddsChange, after_erase, after_put, AppendsChange, content};
ghost use Rattle.cedar_c.specs.Words.{CutsNone, damage_of, end_of, ends_closed, erase_at, fault};
ghost use Rattle.cedar_c.specs.Words.{format_if, format_in, format_of, HasExtent, inner_dictionary};
ghost use Rattle.cedar_c.specs.Words.{inner_layout, IsErasurePlan, IsOpening, IsPutPlan};
ghost use Rattle.cedar_c.specs.Words.{LacksChange, LacksRecord, layout_for, layout_in, LoadCause};
ghost use Rattle.cedar_c.specs.Words.{MayCut, number_at, OpensJust, Plain, PlansAppend};
ghost use Rattle.cedar_c.specs.Words.{position_of, put_at, record_count, state_in, state_of};
ghost use Rattle.cedar_c.specs.Words.{status_of, store_status, TellsWhy, tree_in, works_of};

use crate::handle::Handle;
use crate::records::{format_if, place, write_erasure, write_put};
use crate::status::{
    CLOSED, NO_ROOM, OK, OTHER, STORE_CORRUPT, STORE_DAMAGED, STORE_FOREIGN, tell,
};
use cedar_journal::{Extent, Format, HEADER_LEN, extent_of};
use cedar_plan::{HEADER, Plan, plan_append, plan_opening};
use cedar_salvage::may_cut_records;
use cedar_store::{DurableError, count_records, words_of};
use cedarwood::{CedarError, check_pair};
use either_layout::AnyCedar;
use std::alloc::Global;

/// Opens a handle with the dictionary that a file's bytes represent. If the handle is open, the new one replaces the old one. The file was
/// synced, and then read. It writes the plan by which the file is made ready, whose bytes it writes into the first elements of a buffer,
/// where the records end then, how many there are, and whether they have sums. The plan of a file that is at rest has no step.
///
/// # Errors
/// `NO_ROOM` if the buffer has fewer than 14 elements, `STORE_FOREIGN` if the file is of another kind, `STORE_CORRUPT` if one of its
/// records is no change, `MEMORY` and `SLOT_LIMIT`. `STORE_DAMAGED` if somebody else has changed a record; it writes where that begins.
/// Then the handle is as it was, and nothing else is written.
#[unsafe(no_mangle)]
pub extern "C" fn cedar_plan_open(
    handle: &mut Handle,
    alloc: Global,
    is_reduced: bool,
    bytes: &[u8],
    is_summed: &mut bool,
    end: &mut usize,
    records: &mut usize,
    damaged_at: &mut usize,
    buffer: &mut [u8],
    plan: &mut Plan,
) -> u32
    //= A store that is opened has the dictionary that the file's bytes represent, of the layout that was given. [with layout]
    ensures stands { result ≡ OK → (state_of bytes.now ≡ state_in handle.new) × IsSome (content handle.new) }
    ensures layout { result ≡ OK → layout_in handle.new ≡ Some (layout_for is_reduced) }

    //= Once the plan of an opening is carried out, the file is at rest, on the disk, represents that dictionary, and has as many records as
    //  before. A crash at any moment, even if a step fails, leaves a file that represents it. [by IsOpening]
    ensures ready { result ≡ OK → IfSome (state_in handle.new) (IsOpening bytes.now (works_of buffer.new plan.new) (format_if is_summed.new) end.new) }

    //= The plan of an opening cuts the file after its whole records and writes a closed gate there; of a new file it leaves only the
    //  header. It does nothing else, and has no more steps than C has room for. [with steps; by OpensJust]
    ensures works { result ≡ OK → OpensJust bytes.now (works_of buffer.new plan.new) (format_if is_summed.new) end.new }
    ensures steps { result ≡ OK → plan.new.count ≤ 4 }

    //= The plan of an opening has no step if the file ends with the closed gate right behind its records.
    ensures at_rest { result ≡ OK → is_some (format_of bytes.now) ≡ true → ends_closed bytes.now end.new ≡ true → plan.new.count ≡ 0 }

    //= An opening writes how many records the file has.
    ensures counted { result ≡ OK → record_count bytes.now ≡ Some records.new }

    //= A file is refused by its number as foreign, corrupt or damaged exactly as by a store, with the position of the damage, or for lack of
    //  memory or slots. Then the handle has what it had, and no plan is written. [with kept, told; by LoadCause]
    ensures refused { (result ≡ OK) ⊎ ((result ≡ NO_ROOM) × (length buffer.old < 14)) ⊎ TellsWhy bytes.now damaged_at.old damaged_at.new result }
    ensures kept { (result ≡ OK) ⊎ (content handle.new ≡ content handle.old) }
    ensures told { (result ≡ OK)
        ⊎ ((is_summed.new ≡ is_summed.old) × (end.new ≡ end.old) × (records.new ≡ records.old) × (plan.new ≡ plan.old)) }
{
    if let Err(status) = place(&HEADER, buffer) {
        return status;
    }
    match replay_on_heap(alloc, is_reduced, bytes) {
        Ok((cedar, extent)) => {
            let _ = handle.take(alloc);
            *handle = Handle::of(cedar);
            *is_summed = has_sums(extent);
            *end = end_of(extent);
            *records = count_records(bytes, extent);
            *plan = plan_opening(extent, bytes);
            OK
        }
        Err(error) => tell_unread(error, damaged_at),
    }
}

/// Returns whether the plan of an opening of a file of these bytes may cut off more than the record under way: whole records, which no test
/// has found a crash to leave there. False of a file that is refused, and of a new one. It takes a time of 16 times the bytes at most.
#[unsafe(no_mangle)]
pub extern "C" fn cedar_plan_may_cut_records(bytes: &[u8]) -> bool
    //= An opening for which `cedar_plan_may_cut_records` is false cuts off no whole record, or refuses the file.
    ensures none { result ≡ false → CutsNone bytes.now }
    //= If it is true, the opening cuts off whole records, or to say that there are none would take long.
    ensures some { result ≡ true → MayCut bytes.now }
{
    match extent_of(bytes) {
        Ok(extent) => may_cut_records(bytes, extent),
        Err(_) => false,
    }
}

/// Stores a value at a key, and writes whether the key was held before, and with which value. It writes the change's record into the first
/// elements of a buffer, whose other elements may be written to as well, and the plan by which that is appended where the records end; then
/// they end elsewhere. The record has a sum if those of the file have one. One that waits for those of a group has none.
///
/// # Errors
/// `CLOSED`, and the number of the pair's first fault; `STORE_FULL` if the records end after 2^60 bytes; `STORE_TOO_LONG` if the key has
/// 2^32 - 5 bytes or more; `NO_ROOM` if the buffer has fewer elements than the key has bytes and 11 more, or 15 with a sum; `MEMORY` and
/// `SLOT_LIMIT`. Then the dictionary holds what it held, and nothing is reported.
#[unsafe(no_mangle)]
pub extern "C" fn cedar_plan_put(
    handle: &mut Handle,
    alloc: Global,
    key: &[u8],
    value: i32,
    is_summed: bool,
    end: &mut usize,
    buffer: &mut [u8],
    plan: &mut Plan,
    held: &mut bool,
    before: &mut i32,
    position: &mut usize,
) -> u32
    //= A change of a store returns `CLOSED` exactly if the handle is closed. [also cedar_plan_erase]
    ensures closed { (result ≡ CLOSED) ↔ (content handle.old ≡ None) }

    //= A put that returns `OK` has stored the value, and writes whether the key was held, and with which value. After an error the tree is
    //  as it was, and nothing is reported. [with kept, held, before, untold, layout]
    ensures stored { result ≡ OK → state_in handle.new ≡ option_map (λ s. after_put s key.now value) (state_in handle.old) }
    ensures kept { (result ≡ OK) ⊎ (state_in handle.new ≡ state_in handle.old) }
    ensures held { result ≡ OK → IsTrue held.new ↔ IsSome (number_at (tree_in handle.old) key.now) }
    ensures before { result ≡ OK → IfSome (number_at (tree_in handle.old) key.now) (λ v. before.new ≡ v) }
    ensures untold { (result ≡ OK) ⊎ ((held.new ≡ held.old) × (before.new ≡ before.old) × (end.new ≡ end.old) × (plan.new ≡ plan.old)) }
    ensures layout { layout_in handle.new ≡ layout_in handle.old }

    //= Once the plan of a put is carried out, a file that represented the dictionary from before it represents the one with it, on the
    //  disk, and has one record more. A crash at any moment, even if a step fails, leaves the one or the other. [by IsChangePlan]
    ensures planned { result ≡ OK → IfSome (state_in handle.old) (λ s. IsPutPlan (works_of buffer.new plan.new) (format_if is_summed) end.old end.new s key.now value) }

    //= The plan of a change has two steps, and no other one: the record of that change is written after the closed gate, and then that is
    //  opened. The records end behind it then. [with works; also cedar_plan_erase; by AppendsChange]
    ensures steps { result ≡ OK → plan.new.count ≡ 2 }
    ensures works { result ≡ OK → AppendsChange (works_of buffer.new plan.new) (put_at key.now value) (format_if is_summed) end.old end.new (length key.now + 5) }

    //= What a put without a sum that returns `OK` has written is the record of its change, which may follow those of a group without its
    //  last byte. The same holds of an erasure of a key that was held. [also cedar_plan_erase]
    ensures recorded { result ≡ OK → IsFalse is_summed → AddsChange (put_at key.now value) (take (length key.now + 10) buffer.new) }

    //= A put returns the number of the pair's first fault, with the position of a byte 0. Otherwise it is refused only if the records end
    //  too far back, the record is too long or finds no room, or for lack of memory or slots. [with refused]
    ensures faulty { IsSome (content handle.old) → IfSome (fault key.now value) (λ e. (result ≡ status_of e) × (position.new ≡ position_of position.old e)) }
    ensures refused { IsSome (content handle.old) → fault key.now value ≡ None → LacksChange (format_if is_summed) end.old (length key.now + 5) (length buffer.old) result }
{
    if !handle.is_open() {
        return CLOSED;
    }
    plan_put(
        handle.held.lend(),
        alloc,
        key,
        value,
        format_if(is_summed),
        end,
        buffer,
        plan,
        held,
        before,
        position,
    )
}

/// Removes a key, and writes whether it was held; if it was, it writes the record and the plan as `cedar_plan_put` does. Otherwise nothing
/// changes, and there is no plan.
///
/// # Errors
/// `CLOSED`; `STORE_FULL`, `STORE_TOO_LONG`, `NO_ROOM` and `MEMORY` as of `cedar_plan_put`, of a record that is 4 bytes shorter. Then the
/// dictionary holds what it held, and nothing is reported.
#[unsafe(no_mangle)]
pub extern "C" fn cedar_plan_erase(
    handle: &mut Handle,
    alloc: Global,
    key: &[u8],
    is_summed: bool,
    end: &mut usize,
    buffer: &mut [u8],
    plan: &mut Plan,
    held: &mut bool,
) -> u32
    ensures closed { (result ≡ CLOSED) ↔ (content handle.old ≡ None) }

    //= An erasure that returns `OK` writes whether the key was held, and has removed it. After an error, and if the key wasn't held, the
    //  tree is as it was. [with missed, kept, held, untold, layout]
    ensures erased { result ≡ OK → IsTrue held.new → state_in handle.new ≡ option_map (λ s. after_erase s key.now) (state_in handle.old) }
    ensures missed { result ≡ OK → IsFalse held.new → (state_in handle.new ≡ state_in handle.old) × (end.new ≡ end.old) × (plan.new ≡ plan.old) }
    ensures kept { (result ≡ OK) ⊎ (state_in handle.new ≡ state_in handle.old) }
    ensures held { result ≡ OK → IsTrue held.new ↔ IsSome (number_at (tree_in handle.old) key.now) }
    ensures untold { (result ≡ OK) ⊎ ((held.new ≡ held.old) × (end.new ≡ end.old) × (plan.new ≡ plan.old)) }
    ensures layout { layout_in handle.new ≡ layout_in handle.old }

    //= Once the plan of an erasure is carried out, a file that represented the dictionary from before it represents the one without the
    //  key, on the disk, and has one record more. A crash at any moment, even if a step fails, leaves the one or the other. [by
    //  IsChangePlan]
    ensures planned { result ≡ OK → IsTrue held.new
        → IfSome (state_in handle.old) (λ s. IsErasurePlan (works_of buffer.new plan.new) (format_if is_summed) end.old end.new s key.now) }

    ensures steps { result ≡ OK → IsTrue held.new → plan.new.count ≡ 2 }
    ensures works { result ≡ OK → IsTrue held.new
        → AppendsChange (works_of buffer.new plan.new) (erase_at key.now) (format_if is_summed) end.old end.new (length key.now + 1) }
    ensures recorded { result ≡ OK → IsTrue held.new → IsFalse is_summed → AddsChange (erase_at key.now) (take (length key.now + 6) buffer.new) }

    //= An erasure is refused only if the records end too far back, the record is too long or finds no room, or for lack of memory.
    ensures refused { IsSome (content handle.old) → (result ≡ OK) ⊎ LacksRecord (format_if is_summed) end.old (length key.now + 1) (length buffer.old) result }
{
    if !handle.is_open() {
        return CLOSED;
    }
    plan_erase(
        handle.held.lend(),
        alloc,
        key,
        format_if(is_summed),
        end,
        buffer,
        plan,
        held,
    )
}

/// The number of why a file wasn't read as a dictionary. It writes where a damaged record begins.
fn tell_unread(error: DurableError, damaged_at: &mut usize) -> u32
    ensures status { result ≡ store_status error }
    ensures place { damaged_at.new ≡ damage_of damaged_at.old error }
{
    match error {
        DurableError::Foreign => STORE_FOREIGN,
        DurableError::Corrupt => STORE_CORRUPT,
        DurableError::Damaged(at) => {
            *damaged_at = at;
            STORE_DAMAGED
        }
        DurableError::Refused(error) => {
            let mut position = 0;
            tell(error, &mut position)
        }
        _ => OTHER,
    }
}

/// Where the records of a file end once it is opened that goes as far as this.
fn end_of(extent: Extent) -> usize
    ensures { result ≡ end_of extent }
{
    match extent {
        Extent::New => HEADER_LEN,
        Extent::Until(_, end) => end,
    }
}

/// Whether the records of a file have sums once it is opened that goes as far as this.
fn has_sums(extent: Extent) -> bool
    ensures { format_if result ≡ format_in extent }
{
    match extent {
        Extent::New | Extent::Until(Format::Summed, _) => true,
        Extent::Until(Format::Plain, _) => false,
    }
}

/// The dictionary that a file's bytes represent, on the heap, and how far the file goes.
fn replay_on_heap(
    alloc: Global,
    is_reduced: bool,
    bytes: &[u8],
) -> Result<(Box<AnyCedar, Global>, Extent), DurableError>
    ensures stands { IfOk result (λ found. state_of bytes.now ≡ Some (inner_dictionary found.0.value).state) }
    ensures extent { IfOk result (λ found. HasExtent bytes.now found.1) }
    ensures layout { IfOk result (λ found. inner_layout found.0.value ≡ layout_for is_reduced) }
    ensures cause { IfErr result (λ e. LoadCause bytes.now e) }
{
    match replay_file(alloc, is_reduced, bytes) {
        Ok((cedar, extent)) => match Box::new(alloc, cedar) {
            Ok(cedar) => Ok((cedar, extent)),
            Err(_) => Err(DurableError::Refused(CedarError::Memory)),
        },
        Err(error) => Err(error),
    }
}

/// The dictionary that a file's bytes represent, and how far the file goes.
#[tactic(auto, using(cedarwood::proofs::DictionaryLemmas::default_limit))]
fn replay_file(
    alloc: Global,
    is_reduced: bool,
    bytes: &[u8],
) -> Result<(AnyCedar, Extent), DurableError>
    ensures stands { IfOk result (λ found. state_of bytes.now ≡ Some (inner_dictionary found.0).state) }
    ensures extent { IfOk result (λ found. HasExtent bytes.now found.1) }
    ensures layout { IfOk result (λ found. inner_layout found.0 ≡ layout_for is_reduced) }
    ensures cause { IfErr result (λ e. LoadCause bytes.now e) }
{
    if is_reduced {
        match words_of(alloc, bytes) {
            Ok((cedar, extent)) => Ok((AnyCedar::Reduced(cedar), extent)),
            Err(error) => Err(error),
        }
    } else {
        match words_of(alloc, bytes) {
            Ok((cedar, extent)) => Ok((AnyCedar::Default(cedar), extent)),
            Err(error) => Err(error),
        }
    }
}

/// As `cedar_plan_put`, of an open handle.
fn plan_put(
    cedar: &mut AnyCedar,
    alloc: Global,
    key: &[u8],
    value: i32,
    format: Format,
    end: &mut usize,
    buffer: &mut [u8],
    plan: &mut Plan,
    held: &mut bool,
    before: &mut i32,
    position: &mut usize,
) -> u32
    ensures open { result ≢ CLOSED }
    ensures stored { result ≡ OK → (inner_dictionary cedar.new).state ≡ after_put (inner_dictionary cedar.old).state key.now value }
    ensures kept { (result ≡ OK) ⊎ ((inner_dictionary cedar.new).state ≡ (inner_dictionary cedar.old).state) }
    ensures held { result ≡ OK → IsTrue held.new ↔ IsSome (number_at (inner_dictionary cedar.old).state.tree key.now) }
    ensures before { result ≡ OK → IfSome (number_at (inner_dictionary cedar.old).state.tree key.now) (λ v. before.new ≡ v) }
    ensures untold { (result ≡ OK) ⊎ ((held.new ≡ held.old) × (before.new ≡ before.old) × (end.new ≡ end.old) × (plan.new ≡ plan.old)) }
    ensures layout { inner_layout cedar.new ≡ inner_layout cedar.old }
    ensures planned { result ≡ OK → IsPutPlan (works_of buffer.new plan.new) format end.old end.new (inner_dictionary cedar.old).state key.now value }
    ensures steps { result ≡ OK → plan.new.count ≡ 2 }
    ensures works { result ≡ OK → AppendsChange (works_of buffer.new plan.new) (put_at key.now value) format end.old end.new (length key.now + 5) }
    ensures recorded { result ≡ OK → format ≡ Plain → AddsChange (put_at key.now value) (take (length key.now + 10) buffer.new) }
    ensures faulty { IfSome (fault key.now value) (λ e. (result ≡ status_of e) × (position.new ≡ position_of position.old e)) }
    ensures refused { fault key.now value ≡ None → LacksChange format end.old (length key.now + 5) (length buffer.old) result }
{
    if let Err(error) = check_pair(key, value) {
        return tell(error, position);
    }
    let size = match write_put(alloc, format, *end, key, value, buffer) {
        Ok(size) => size,
        Err(status) => return status,
    };
    match cedar.insert_bytes(key, value) {
        Ok(number) => {
            *held = number.is_some();
            if let Some(number) = number {
                *before = number;
            }
            go_on(size, end, plan);
            OK
        }
        Err(error) => tell(error, position),
    }
}

/// As `cedar_plan_erase`, of an open handle.
fn plan_erase(
    cedar: &mut AnyCedar,
    alloc: Global,
    key: &[u8],
    format: Format,
    end: &mut usize,
    buffer: &mut [u8],
    plan: &mut Plan,
    held: &mut bool,
) -> u32
    ensures open { result ≢ CLOSED }
    ensures erased { result ≡ OK → IsTrue held.new → (inner_dictionary cedar.new).state ≡ after_erase (inner_dictionary cedar.old).state key.now }
    ensures missed { result ≡ OK → IsFalse held.new → ((inner_dictionary cedar.new).state ≡ (inner_dictionary cedar.old).state) × (end.new ≡ end.old) × (plan.new ≡ plan.old) }
    ensures kept { (result ≡ OK) ⊎ ((inner_dictionary cedar.new).state ≡ (inner_dictionary cedar.old).state) }
    ensures held { result ≡ OK → IsTrue held.new ↔ IsSome (number_at (inner_dictionary cedar.old).state.tree key.now) }
    ensures untold { (result ≡ OK) ⊎ ((held.new ≡ held.old) × (end.new ≡ end.old) × (plan.new ≡ plan.old)) }
    ensures layout { inner_layout cedar.new ≡ inner_layout cedar.old }
    ensures planned { result ≡ OK → IsTrue held.new
        → IsErasurePlan (works_of buffer.new plan.new) format end.old end.new (inner_dictionary cedar.old).state key.now }
    ensures steps { result ≡ OK → IsTrue held.new → plan.new.count ≡ 2 }
    ensures works { result ≡ OK → IsTrue held.new → AppendsChange (works_of buffer.new plan.new) (erase_at key.now) format end.old end.new (length key.now + 1) }
    ensures recorded { result ≡ OK → IsTrue held.new → format ≡ Plain → AddsChange (erase_at key.now) (take (length key.now + 6) buffer.new) }
    ensures refused { (result ≡ OK) ⊎ LacksRecord format end.old (length key.now + 1) (length buffer.old) result }
{
    if !cedar.contains_key_bytes(key) {
        *held = false;
        return OK;
    }
    match write_erasure(alloc, format, *end, key, buffer) {
        Ok(size) => {
            cedar.erase_bytes(key);
            go_on(size, end, plan);
            *held = true;
            OK
        }
        Err(status) => status,
    }
}

/// Writes the plan by which a record of so many bytes is appended where the records end, and moves that end after it.
pub(crate) fn go_on(size: usize, end: &mut usize, plan: &mut Plan)
    requires room { end.old < 2 ^ 60 }
    requires record { 0 < size }
    requires short { size < 2 ^ 33 }
    ensures planned { PlansAppend plan.new size end.old }
    ensures end { end.new + 1 ≡ end.old + size }
{
    *plan = plan_append(*end, size);
    *end += size - 1;
}
