//! Exact look-ups, one by one and many in a call.

use crate::watch::{Answered, count_of};
use crate::{Plan, Workload};
use anyhow::{Result, ensure};
use cedarwood::Cedar;
use std::alloc::Global;

/// How many keys a call of many look-ups has.
const TOGETHER: usize = 256;

/// Measures the look-ups that are wanted. Each is made once before, one by one, and has to return the same again: so its first pass finds
/// the caches as a later one does.
pub(crate) fn look_ups(
    rt: &HostRuntime,
    plan: Plan<'_>,
    cedar: &Cedar<Global>,
    work: &Workload<'_>,
) -> Result<()> {
    let mut answers = vec![in rt.alloc(); None; TOGETHER]?;
    let measures = [
        ("hit", &work.hits, false),
        ("hit_sorted", &work.sorted_keys, false),
        ("miss", &work.misses, false),
        ("hit_batch", &work.hits, true),
        ("miss_batch", &work.misses, true),
    ];
    for (name, keys, together) in measures {
        let passes = plan.passes_of(name);
        let before = if passes > 0 { look_up(cedar, keys) } else { 0 };
        for _ in 0..passes {
            let watch = plan.clock.start(rt)?;
            let sum = if together {
                measured_batches(cedar, keys, &mut answers)
            } else {
                measured_look_ups(cedar, keys)
            };
            let operations = keys.len();
            watch.measure_ends(rt, name, Answered { operations, sum })?;
            ensure!(sum == before, "{name}: {before} was the sum before");
        }
    }
    Ok(())
}

#[inline(never)]
fn measured_look_ups(cedar: &Cedar<Global>, keys: &[&[u8]]) -> u64 {
    look_up(cedar, keys)
}

/// Looks keys up. A found one adds its number in the list, from 1, times one more than its value.
#[inline]
fn look_up(cedar: &Cedar<Global>, keys: &[&[u8]]) -> u64 {
    let mut sum: u64 = 0;
    let mut line: u64 = 0;
    for key in keys {
        line = line.wrapping_add(1);
        if let Some((value, _)) = cedar.exact_match_search_bytes(key) {
            sum = sum.wrapping_add(line.wrapping_mul(count_of(value)));
        }
    }
    sum
}

/// The same, by calls of many keys.
#[inline(never)]
fn measured_batches(
    cedar: &Cedar<Global>,
    keys: &[&[u8]],
    answers: &mut [Option<(i32, usize)>],
) -> u64 {
    let mut sum: u64 = 0;
    let mut line: u64 = 0;
    for part in keys.chunks(TOGETHER) {
        cedar.exact_match_search_batch(part, answers);
        for (_, answer) in part.iter().zip(answers.iter()) {
            line = line.wrapping_add(1);
            if let Some((value, _)) = answer {
                sum = sum.wrapping_add(line.wrapping_mul(count_of(*value)));
            }
        }
    }
    sum
}
