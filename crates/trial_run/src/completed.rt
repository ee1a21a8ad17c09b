//! Times completions. The files `completed`, `words` and `queries` of a folder are files of keys. Of the keys in `completed` that begin with
//! `p` it counts all, finds the best ten, and shows the first ten and ten in the middle; among `words` it finds those that are an edit away
//! from each of `queries`. `bench/completions` writes such folders, and times other programs beside this one.

use crate::keys::{Values, fill, keys_of, pairs, read_all};
use crate::near::all_near;
use crate::watch::{Answered, Clock, of_entry};
use anyhow::{Context, Result, bail};
use cedar_complete::{ByValue, KeyRange, best_with_prefix, entries_in};
use cedarwood::Cedar;
use std::alloc::Global;

/// What is completed.
const PREFIX: &[u8] = b"p";

/// How many entries are shown.
pub(crate) const SHOWN: usize = 10;

/// How often a page is shown.
const PAGES: usize = 10_000;

/// Times completions, and words that are near to others.
pub(crate) fn complete(rt: &HostRuntime, words: &[&str]) -> Result<()> {
    let [folder, passes] = words else {
        bail!("usage: trial_run complete FOLDER PASSES");
    };
    let passes: u32 = passes.parse()?;
    let clock = Clock { runs: passes > 0 };
    let files = read_all(rt, folder, &["completed", "words", "queries"])?;
    let [completed, words, queries] = files.as_slice() else {
        bail!("there are three files");
    };
    let alloc = rt.alloc();
    let completed = pairs(alloc, &keys_of(alloc, completed)?, Values::Scattered)?;
    let words = pairs(alloc, &keys_of(alloc, words)?, Values::Scattered)?;
    let (cedar, words) = (fill(alloc, &completed)?, fill(alloc, &words)?);
    let queries = keys_of(alloc, queries)?;
    for _ in 0..passes.max(1) {
        all_completed(rt, clock, &cedar)?;
        all_near(rt, clock, &words, &queries)?;
    }
    Ok(())
}

/// Makes each measure once.
fn all_completed(rt: &HostRuntime, clock: Clock, cedar: &Cedar<Global>) -> Result<()> {
    let watch = clock.start(rt)?;
    let answered = count(cedar)?;
    watch.print(rt, "counted", answered)?;
    let watch = clock.start(rt)?;
    let predicted = predictions(cedar);
    watch.print(rt, "predicted", predicted)?;
    let watch = clock.start(rt)?;
    let best = best_with_prefix(rt.alloc(), cedar, PREFIX, SHOWN, ByValue::HighestFirst)?;
    let (operations, sum) = (1, of_found(&best));
    watch.print(rt, "best", Answered { operations, sum })?;
    let middle = key_in_the_middle(rt.alloc(), cedar, answered.operations)?;
    let watch = clock.start(rt)?;
    let first = pages(rt.alloc(), cedar, &[])?;
    watch.print(rt, "page_first", first)?;
    let watch = clock.start(rt)?;
    let further = pages(rt.alloc(), cedar, &middle)?;
    watch.print(rt, "page_middle", further)
}

/// A plain walk over all completions, which counts them.
#[inline(never)]
fn count(cedar: &Cedar<Global>) -> Result<Answered> {
    let mut operations: usize = 0;
    let mut cursor = cedar.entries_with_prefix_bytes(PREFIX).into_cursor();
    for _ in 0..cedar.len() {
        if cursor.advance()?.is_none() {
            break;
        }
        operations = operations.wrapping_add(1);
    }
    Ok(Answered {
        operations,
        sum: operations as u64,
    })
}

/// The same without keys.
#[inline(never)]
fn predictions(cedar: &Cedar<Global>) -> Answered {
    let mut operations: usize = 0;
    for _ in cedar.common_prefix_predict_iter_bytes(PREFIX) {
        operations = operations.wrapping_add(1);
    }
    Answered {
        operations,
        sum: operations as u64,
    }
}

/// Returns the key of the last completion of their first half.
fn key_in_the_middle(alloc: Global, cedar: &Cedar<Global>, count: usize) -> Result<Vec<u8>> {
    let mut key = Vec::new(alloc);
    let mut entries = cedar.entries_with_prefix_bytes(PREFIX);
    for _ in 0..count / 2 {
        if entries.next_into(&mut key)?.is_none() {
            break;
        }
    }
    Ok(key)
}

/// A page of completions that come after a key, many times.
#[inline(never)]
fn pages(alloc: Global, cedar: &Cedar<Global>, after: &[u8]) -> Result<Answered> {
    let mut sum: u64 = 0;
    for _ in 0..PAGES {
        let mut range = KeyRange::with_prefix(alloc, PREFIX)?;
        range.go_on_after(after)?;
        let entries = entries_in(cedar, &range).context("labels ascend")?;
        let mut cursor = entries.into_cursor();
        for _ in 0..SHOWN {
            let Some(value) = cursor.advance()? else {
                break;
            };
            sum = sum.wrapping_add(of_entry(cursor.key(), value));
        }
    }
    Ok(Answered {
        operations: PAGES,
        sum,
    })
}

/// Returns the sum over entries that were found.
pub(crate) fn of_found(found: &[(i32, Vec<u8>)]) -> u64 {
    let mut sum: u64 = 0;
    for (value, key) in found {
        sum = sum.wrapping_add(of_entry(key, *value));
    }
    sum
}
