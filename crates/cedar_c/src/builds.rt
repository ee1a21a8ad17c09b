//! A dictionary of pairs, made at once: of pairs whose keys ascend, or of pairs in any order.

ghost use Rattle.std.specs.Prelude.{◌≡◌, ◌⊎◌, Err, false, IfErr, IfOk, IfSome, None, Some, true};
ghost use Rattle.cedar_c.specs.Words.{AnyCedar, build_fault, BuildsOrLacks, content};
ghost use Rattle.cedar_c.specs.Words.{default_layout, entries_in, entries_of, inner_dictionary};
ghost use Rattle.cedar_c.specs.Words.{inner_layout, IsBuildShortage, IsSorted, layout_for};
ghost use Rattle.cedar_c.specs.Words.{layout_in, most_slots, OpensBuilt, reduced_layout};
ghost use Rattle.cedar_c.specs.Words.{TellsFault, TellsPosition};

use crate::handle::Handle;
use crate::pairs::{Pair, take_pairs};
use crate::status::{INVALID_MAX_TRIAL, OK, tell};
use cedarwood::{CedarBuilder, CedarError};
use either_layout::AnyCedar;
use std::alloc::Global;

/// Which dictionary a build makes: of which layout, and of pairs that come sorted or in any order.
#[derive(Clone, Copy)]
struct Wanted {
    is_reduced: bool,
    is_sorted: bool,
}

/// A dictionary of some pairs with these settings.
fn build_taken(
    alloc: Global,
    wanted: Wanted,
    settings: CedarBuilder,
    pairs: &[(&[u8], i32)],
) -> Result<AnyCedar, CedarError>
    ensures faulty { IfSome (build_fault wanted.is_sorted (entries_of pairs.now)) (λ e. result ≡ Err e) }
    ensures made { IfOk result (λ a. IsSorted (inner_layout a) settings (entries_of pairs.now) (inner_dictionary a)) }
    ensures layout { IfOk result (λ a. inner_layout a ≡ layout_for wanted.is_reduced) }
    ensures refused { build_fault wanted.is_sorted (entries_of pairs.now) ≡ None → IfErr result (λ e. IsBuildShortage most_slots (entries_of pairs.now) e) }
{
    if wanted.is_sorted {
        return AnyCedar::from_sorted_bytes(alloc, wanted.is_reduced, settings, pairs);
    }
    AnyCedar::from_pairs_bytes(alloc, wanted.is_reduced, settings, pairs)
}

/// The same of C's pairs.
fn of_pairs(
    alloc: Global,
    wanted: Wanted,
    settings: CedarBuilder,
    pairs: &[Pair<'_>],
) -> Result<AnyCedar, CedarError>
    ensures faulty { IfSome (build_fault wanted.is_sorted (entries_in pairs.now)) (λ e. (result ≡ Err e) ⊎ (result ≡ Err CedarError.Memory)) }
    ensures made { IfOk result (λ a. IsSorted (inner_layout a) settings (entries_in pairs.now) (inner_dictionary a)) }
    ensures layout { IfOk result (λ a. inner_layout a ≡ layout_for wanted.is_reduced) }
    ensures refused { build_fault wanted.is_sorted (entries_in pairs.now) ≡ None → IfErr result (λ e. IsBuildShortage most_slots (entries_in pairs.now) e) }
{
    match take_pairs(alloc, pairs) {
        Some(taken) => build_taken(alloc, wanted, settings, taken.as_slice()),
        None => Err(CedarError::Memory),
    }
}

/// The same on the heap.
fn make_on_heap(
    alloc: Global,
    wanted: Wanted,
    settings: CedarBuilder,
    pairs: &[Pair<'_>],
) -> Result<Box<AnyCedar, Global>, CedarError>
    ensures faulty { IfSome (build_fault wanted.is_sorted (entries_in pairs.now)) (λ e. (result ≡ Err e) ⊎ (result ≡ Err CedarError.Memory)) }
    ensures made { IfOk result (λ b. IsSorted (inner_layout b.value) settings (entries_in pairs.now) (inner_dictionary b.value)) }
    ensures layout { IfOk result (λ b. inner_layout b.value ≡ layout_for wanted.is_reduced) }
    ensures refused { build_fault wanted.is_sorted (entries_in pairs.now) ≡ None → IfErr result (λ e. IsBuildShortage most_slots (entries_in pairs.now) e) }
{
    let cedar = of_pairs(alloc, wanted, settings, pairs)?;
    match Box::new(alloc, cedar) {
        Ok(cedar) => Ok(cedar),
        Err(_) => Err(CedarError::Memory),
    }
}

/// Opens a handle with a dictionary of some pairs with these settings.
fn renew(
    handle: &mut Handle,
    alloc: Global,
    wanted: Wanted,
    settings: CedarBuilder,
    pairs: &[Pair<'_>],
    position: &mut usize,
) -> u32
    ensures made { result ≡ OK → (a : AnyCedar) × (content handle.new ≡ Some a) × IsSorted (inner_layout a) settings (entries_in pairs.now) (inner_dictionary a) }
    ensures layout { result ≡ OK → layout_in handle.new ≡ Some (layout_for wanted.is_reduced) }
    ensures faulty { IfSome (build_fault wanted.is_sorted (entries_in pairs.now)) (TellsFault position.old position.new result) }
    ensures refused { build_fault wanted.is_sorted (entries_in pairs.now) ≡ None → BuildsOrLacks (entries_in pairs.now) result }
    ensures kept { (result ≡ OK) ⊎ (content handle.new ≡ content handle.old) }
    ensures stays { TellsPosition result ⊎ (position.new ≡ position.old) }
{
    match make_on_heap(alloc, wanted, settings, pairs) {
        Ok(cedar) => {
            let _ = handle.take(alloc);
            *handle = Handle::of(cedar);
            OK
        }
        Err(error) => tell(error, position),
    }
}

/// Opens a handle with a dictionary of some pairs with these settings, if there can be such.
fn renew_with(
    handle: &mut Handle,
    alloc: Global,
    wanted: Wanted,
    ordered: bool,
    max_trial: i32,
    pairs: &[Pair<'_>],
    position: &mut usize,
) -> u32
    ensures opens { OpensBuilt (layout_for wanted.is_reduced) wanted.is_sorted ordered max_trial pairs.now handle.old handle.new position.old position.new result }
{
    match CedarBuilder::new().ordered(ordered).max_trial(max_trial) {
        Ok(settings) => renew(handle, alloc, wanted, settings, pairs, position),
        Err(_) => INVALID_MAX_TRIAL,
    }
}

/// Opens a handle with a dictionary of exactly these pairs, whose keys ascend by bytes. If the handle is open, the new one replaces the old
/// one. The settings are those of `cedar_new_with`.
///
/// # Errors
/// `INVALID_MAX_TRIAL` if `max_trial` is 0 or less. Otherwise the number of the first fault of the input: each pair's own, as of
/// `cedar_update`, and then `DUPLICATE_KEY` or `KEYS_NOT_SORTED` if its key repeats the one before it or is below it; `position` is then
/// its index. Otherwise `MEMORY` if an allocation was refused (which may also come before a fault), and `SLOT_LIMIT` if there can't be
/// slots enough. Then the handle is as it was.
#[unsafe(no_mangle)]
pub extern "C" fn cedar_build(
    handle: &mut Handle,
    alloc: Global,
    ordered: bool,
    max_trial: i32,
    pairs: &[Pair<'_>],
    position: &mut usize,
) -> u32
    //= A sorted build opens the handle with the dictionary of exactly the pairs (`asc`), with the settings that are given, with the marks of
    //  `from_sorted_bytes`, and in no more blocks than that may make. [also cedar_build_reduced; by made]
    //= It returns `INVALID_MAX_TRIAL` if `max_trial` is below 1. Otherwise it returns the number of the input's first fault, with the index
    //  of a key that isn't above the one before it, or reports lack of memory. Without a fault it returns `OK`, or reports lack of memory,
    //  or lack of slots only if 256 times the prefixes are 2^30 or more. [also cedar_build_reduced; by invalid, faulty, refused]
    //= After any error the handle has what it had. [also cedar_build_reduced, cedar_build_unsorted, cedar_build_unsorted_reduced; by kept]
    ensures opens { OpensBuilt default_layout true ordered max_trial pairs.now handle.old handle.new position.old position.new result }
{
    let wanted = Wanted {
        is_reduced: false,
        is_sorted: true,
    };
    renew_with(handle, alloc, wanted, ordered, max_trial, pairs, position)
}

/// As `cedar_build`, of the reduced layout, which takes fewer slots.
///
/// # Errors
/// As `cedar_build`.
#[unsafe(no_mangle)]
pub extern "C" fn cedar_build_reduced(
    handle: &mut Handle,
    alloc: Global,
    ordered: bool,
    max_trial: i32,
    pairs: &[Pair<'_>],
    position: &mut usize,
) -> u32
    ensures opens { OpensBuilt reduced_layout true ordered max_trial pairs.now handle.old handle.new position.old position.new result }
{
    let wanted = Wanted {
        is_reduced: true,
        is_sorted: true,
    };
    renew_with(handle, alloc, wanted, ordered, max_trial, pairs, position)
}

/// Opens a handle with a dictionary of some pairs in any order: the last value of a key counts. If the handle is open, the new one
/// replaces the old one. The pairs are sorted and the dictionary is built at once, faster than by updates of keys in no order. The settings
/// are those of `cedar_new_with`.
///
/// # Errors
/// `INVALID_MAX_TRIAL` if `max_trial` is 0 or less. Otherwise the number of the fault of the first pair that has one, as of `cedar_update`,
/// with the `position` of a byte 0. Otherwise `MEMORY` if an allocation was refused (which may also come before a fault), and `SLOT_LIMIT`
/// if there can't be slots enough. Then the handle is as it was.
#[unsafe(no_mangle)]
pub extern "C" fn cedar_build_unsorted(
    handle: &mut Handle,
    alloc: Global,
    ordered: bool,
    max_trial: i32,
    pairs: &[Pair<'_>],
    position: &mut usize,
) -> u32
    //= A build of pairs in any order opens the handle with the dictionary that storing them in turn makes, with ascending labels (`asc`),
    //  with the settings that are given, with the marks of `from_pairs_bytes`, and in no more blocks than that may make. [also
    //  cedar_build_unsorted_reduced; by made]
    //= It returns `INVALID_MAX_TRIAL` if `max_trial` is below 1. Otherwise it returns the number of the fault of the first pair that has
    //  one, or reports lack of memory. Without a fault it returns `OK`, or reports lack of memory, or lack of slots only if 256 times the
    //  prefixes are 2^30 or more. [also cedar_build_unsorted_reduced; by invalid, faulty, refused]
    ensures opens { OpensBuilt default_layout false ordered max_trial pairs.now handle.old handle.new position.old position.new result }
{
    let wanted = Wanted {
        is_reduced: false,
        is_sorted: false,
    };
    renew_with(handle, alloc, wanted, ordered, max_trial, pairs, position)
}

/// As `cedar_build_unsorted`, of the reduced layout, which takes fewer slots.
///
/// # Errors
/// As `cedar_build_unsorted`.
#[unsafe(no_mangle)]
pub extern "C" fn cedar_build_unsorted_reduced(
    handle: &mut Handle,
    alloc: Global,
    ordered: bool,
    max_trial: i32,
    pairs: &[Pair<'_>],
    position: &mut usize,
) -> u32
    ensures opens { OpensBuilt reduced_layout false ordered max_trial pairs.now handle.old handle.new position.old position.new result }
{
    let wanted = Wanted {
        is_reduced: true,
        is_sorted: false,
    };
    renew_with(handle, alloc, wanted, ordered, max_trial, pairs, position)
}
