//! Words that are an edit away from what was asked for.

use crate::completed::{SHOWN, of_found};
use crate::watch::{Answered, Clock, of_entry};
use anyhow::{Context, Result};
use byte_automata::{Beginning, Within};
use cedar_complete::{ByValue, KeyRange, best_matching, next_matching};
use cedar_match::cursor_matching;
use cedarwood::Cedar;
use std::alloc::Global;
use std::ops::Bound;

/// Makes each measure once.
pub(crate) fn all_near(
    rt: &HostRuntime,
    clock: Clock,
    words: &Cedar<Global>,
    queries: &[&[u8]],
) -> Result<()> {
    let watch = clock.start(rt)?;
    let near = walks(rt.alloc(), words, queries, Edits::One)?;
    watch.print(rt, "near", near)?;
    let watch = clock.start(rt)?;
    let looked_up = look_ups(rt.alloc(), words, queries)?;
    watch.print(rt, "near_looked_up", looked_up)?;
    let watch = clock.start(rt)?;
    let nearest = walks(rt.alloc(), words, queries, Edits::Two)?;
    watch.print(rt, "near_two", nearest)?;
    let watch = clock.start(rt)?;
    let best = best_completions(rt.alloc(), words, queries)?;
    watch.print(rt, "near_best", best)
}

/// How far a word is away from a query at most.
#[derive(Clone, Copy)]
enum Edits {
    One,
    Two,
}

/// The words that are so many edits away from each query, by a walk.
#[inline(never)]
fn walks(
    alloc: Global,
    words: &Cedar<Global>,
    queries: &[&[u8]],
    edits: Edits,
) -> Result<Answered> {
    let mut sum: u64 = 0;
    for query in queries {
        let near = match edits {
            Edits::One => Within::one(query),
            Edits::Two => Within::two(query),
        };
        let mut walk = cursor_matching(alloc, words, near);
        for _ in 0..words.len() {
            let Some(value) = walk.advance()? else {
                break;
            };
            sum = sum.wrapping_add(of_entry(walk.key(), value));
        }
    }
    Ok(Answered {
        operations: queries.len(),
        sum,
    })
}

/// The words that are an edit away from each query, by look-ups.
#[inline(never)]
fn look_ups(alloc: Global, words: &Cedar<Global>, queries: &[&[u8]]) -> Result<Answered> {
    let mut sum: u64 = 0;
    for query in queries {
        let near = Within::one(query);
        let mut range = KeyRange::between(alloc, Bound::Unbounded, Bound::Unbounded)?;
        for _ in 0..words.len() {
            let found = next_matching(alloc, words, &mut range, &near)
                .ok()
                .context("a look-up failed")?;
            let Some((value, key)) = found else {
                break;
            };
            sum = sum.wrapping_add(of_entry(&key, value));
        }
    }
    Ok(Answered {
        operations: queries.len(),
        sum,
    })
}

/// The best completions of each query, of which a byte may be wrong.
#[inline(never)]
fn best_completions(alloc: Global, words: &Cedar<Global>, queries: &[&[u8]]) -> Result<Answered> {
    let mut sum: u64 = 0;
    for query in queries {
        let typed = Beginning::new(Within::one(query));
        let found = best_matching(alloc, words, typed, SHOWN, ByValue::HighestFirst)?;
        sum = sum.wrapping_add(of_found(&found));
    }
    Ok(Answered {
        operations: queries.len(),
        sum,
    })
}
