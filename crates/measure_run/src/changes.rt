//! Updates, erasures and builds.

use crate::keys::fill;
use crate::watch::Answered;
use crate::{Plan, Workload};
use anyhow::Result;
use cedarwood::{Cedar, CedarError, RefusedPair};
use std::alloc::Global;

/// Changes of a dictionary: updates of a new one, or erasures of one that has all keys; one by one, or by one call.
#[derive(Clone, Copy)]
enum Change {
    UpdateSorted,
    UpdateShuffled,
    Erase,
    UpdateAll,
    EraseAll,
}

const CHANGES: [(&str, Change); 5] = [
    ("update_sorted", Change::UpdateSorted),
    ("update_shuffled", Change::UpdateShuffled),
    ("erase", Change::Erase),
    ("update_all", Change::UpdateAll),
    ("erase_all", Change::EraseAll),
];

/// Measures the changes that are wanted, each on a dictionary of its own.
pub(crate) fn changes(rt: &HostRuntime, plan: Plan<'_>, work: &Workload<'_>) -> Result<()> {
    let (pairs, keys) = (&work.shuffled, &work.erasures);
    let mut answers = vec![in rt.alloc(); false; keys.len()]?;
    for (name, change) in CHANGES {
        for _ in 0..plan.passes_of(name) {
            let mut cedar = match change {
                Change::Erase | Change::EraseAll => fill(rt.alloc(), pairs)?,
                _ => Cedar::new(rt.alloc())?,
            };
            let watch = plan.clock.start(rt)?;
            let (operations, sum) = match change {
                Change::UpdateSorted => (pairs.len(), measured_updates(&mut cedar, &work.sorted)),
                Change::UpdateShuffled => (pairs.len(), measured_updates(&mut cedar, pairs)),
                Change::Erase => (keys.len(), measured_erasures(&mut cedar, keys)),
                Change::UpdateAll => {
                    measured_update_of_all(&mut cedar, pairs)?;
                    (pairs.len(), pairs.len() as u64)
                }
                Change::EraseAll => {
                    let held = measured_erasure_of_all(&mut cedar, keys, &mut answers);
                    (keys.len(), held)
                }
            };
            watch.measure_ends(rt, name, Answered { operations, sum })?;
        }
    }
    Ok(())
}

/// Measures the builds that are wanted.
pub(crate) fn builds(rt: &HostRuntime, plan: Plan<'_>, work: &Workload<'_>) -> Result<()> {
    let operations = work.sorted.len();
    let sum = operations as u64;
    let measures = [
        ("sorted_build", &work.sorted, true),
        ("unsorted_build", &work.shuffled, false),
    ];
    for (name, pairs, is_sorted) in measures {
        for _ in 0..plan.passes_of(name) {
            let watch = plan.clock.start(rt)?;
            let _built = measured_build(rt.alloc(), pairs, is_sorted)?;
            watch.measure_ends(rt, name, Answered { operations, sum })?;
        }
    }
    Ok(())
}

/// Returns how many pairs were stored.
#[inline(never)]
fn measured_updates(cedar: &mut Cedar<Global>, pairs: &[(&[u8], i32)]) -> u64 {
    let mut stored: u64 = 0;
    for (key, value) in pairs {
        if cedar.update_bytes(key, *value).is_ok() {
            stored = stored.wrapping_add(1);
        }
    }
    stored
}

/// Returns how many keys were held.
#[inline(never)]
fn measured_erasures(cedar: &mut Cedar<Global>, keys: &[&[u8]]) -> u64 {
    let mut erased: u64 = 0;
    for key in keys {
        if cedar.erase_bytes(key) {
            erased = erased.wrapping_add(1);
        }
    }
    erased
}

#[inline(never)]
fn measured_update_of_all(
    cedar: &mut Cedar<Global>,
    pairs: &[(&[u8], i32)],
) -> Result<(), RefusedPair> {
    cedar.update_batch(pairs)
}

/// Returns how many keys were held.
#[inline(never)]
fn measured_erasure_of_all(cedar: &mut Cedar<Global>, keys: &[&[u8]], answers: &mut [bool]) -> u64 {
    cedar.erase_batch(keys, answers);
    let mut erased: u64 = 0;
    for answer in answers.iter() {
        erased = erased.wrapping_add(u64::from(*answer));
    }
    erased
}

#[inline(never)]
fn measured_build(
    alloc: Global,
    pairs: &[(&[u8], i32)],
    is_sorted: bool,
) -> Result<Cedar<Global>, CedarError> {
    if is_sorted {
        Cedar::from_sorted_bytes(alloc, pairs)
    } else {
        Cedar::from_pairs_bytes(alloc, pairs)
    }
}
