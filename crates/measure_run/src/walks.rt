//! Walks over what a dictionary holds, and over texts.

use crate::watch::{Answered, count_of};
use crate::{Plan, Workload};
use anyhow::Result;
use cedar_words::{matches, segment};
use cedarwood::{Cedar, CedarError};
use std::alloc::Global;

/// A walk.
#[derive(Clone, Copy)]
enum Walk {
    Prefixes,
    Predictions,
    /// All entries, each with a key of its own.
    Entries,
    /// All entries, each with a key that a cursor lends.
    Lent,
    /// All keys in a text: the operations are its bytes.
    Matches,
    /// The tokens of a text, likewise.
    Tokens,
}

const WALKS: [(&str, Walk); 6] = [
    ("prefix_walk", Walk::Prefixes),
    ("prediction", Walk::Predictions),
    ("entries", Walk::Entries),
    ("entries_lent", Walk::Lent),
    ("scan", Walk::Matches),
    ("segment", Walk::Tokens),
];

/// Measures the walks that are wanted.
pub(crate) fn walks(
    rt: &HostRuntime,
    plan: Plan<'_>,
    cedar: &Cedar<Global>,
    work: &Workload<'_>,
) -> Result<()> {
    let text = work.text;
    let operations = text.len();
    for (name, walk) in WALKS {
        for _ in 0..plan.passes_of(name) {
            let watch = plan.clock.start(rt)?;
            let answered = match walk {
                Walk::Prefixes => measured_prefixes(cedar, text),
                Walk::Predictions => measured_predictions(cedar, &work.prefixes),
                Walk::Entries => measured_entries(cedar)?,
                Walk::Lent => measured_cursor(cedar)?,
                Walk::Matches => Answered {
                    operations,
                    sum: measured_matches(cedar, text),
                },
                Walk::Tokens => Answered {
                    operations,
                    sum: measured_tokens(cedar, text),
                },
            };
            watch.measure_ends(rt, name, answered)?;
        }
    }
    Ok(())
}

/// From each character of a text on, all keys that begin there. UTF-8's bytes that begin none are 128 to 191.
#[inline(never)]
fn measured_prefixes(cedar: &Cedar<Global>, text: &[u8]) -> Answered {
    let mut sum: u64 = 0;
    let mut operations: usize = 0;
    for place in 0..text.len() {
        if text[place] & 0xC0 == 0x80 {
            continue;
        }
        operations = operations.wrapping_add(1);
        let mut found = cedar.common_prefix_iter_bytes(&text[place..]);
        for _ in 0..text.len() {
            let Some((value, last)) = found.next() else {
                break;
            };
            let length = (last as u64).wrapping_add(1);
            sum = sum.wrapping_add(
                count_of(value)
                    .wrapping_mul(length)
                    .wrapping_add(place as u64),
            );
        }
    }
    Answered { operations, sum }
}

/// All keys that begin with each of some prefixes. A result comes with how many bytes it has behind the prefix.
#[inline(never)]
fn measured_predictions(cedar: &Cedar<Global>, prefixes: &[&[u8]]) -> Answered {
    let mut sum: u64 = 0;
    let mut line: u64 = 0;
    let mut operations: usize = 0;
    for prefix in prefixes {
        line = line.wrapping_add(1);
        for (value, behind) in cedar.common_prefix_predict_iter_bytes(prefix) {
            operations = operations.wrapping_add(1);
            let length = (prefix.len() as u64).wrapping_add(behind as u64);
            sum = sum.wrapping_add(count_of(value).wrapping_mul(length).wrapping_add(line));
        }
    }
    Answered { operations, sum }
}

#[inline(never)]
fn measured_entries(cedar: &Cedar<Global>) -> Result<Answered, CedarError> {
    let mut sum: u64 = 0;
    let mut operations: usize = 0;
    for entry in cedar.entries()? {
        let (key, value) = entry?;
        operations = operations.wrapping_add(1);
        sum = sum.wrapping_add(of_entry(&key, value));
    }
    Ok(Answered { operations, sum })
}

#[inline(never)]
fn measured_cursor(cedar: &Cedar<Global>) -> Result<Answered, CedarError> {
    let mut sum: u64 = 0;
    let mut operations: usize = 0;
    let mut cursor = cedar.entries_with_prefix_bytes(&[]).into_cursor();
    for _ in 0..cedar.len() {
        let Some(value) = cursor.advance()? else {
            break;
        };
        operations = operations.wrapping_add(1);
        sum = sum.wrapping_add(of_entry(cursor.key(), value));
    }
    Ok(Answered { operations, sum })
}

/// What an entry adds to the sum: its key's length times one more than its value, and its key's last byte.
#[inline(always)]
fn of_entry(key: &[u8], value: i32) -> u64 {
    let last = key.last().copied().unwrap_or(0);
    count_of(value)
        .wrapping_mul(key.len() as u64)
        .wrapping_add(u64::from(last))
}

#[inline(never)]
fn measured_matches(cedar: &Cedar<Global>, text: &[u8]) -> u64 {
    let mut sum: u64 = 0;
    for (start, length, value) in matches(cedar, text) {
        let found = count_of(value).wrapping_mul(length as u64);
        sum = sum.wrapping_add(found.wrapping_add(start as u64));
    }
    sum
}

#[inline(never)]
fn measured_tokens(cedar: &Cedar<Global>, text: &[u8]) -> u64 {
    let mut sum: u64 = 0;
    for (start, length, value) in segment(cedar, text) {
        let found = match value {
            Some(value) => count_of(value).wrapping_mul(length as u64),
            None => 0,
        };
        sum = sum.wrapping_add(found.wrapping_add(start as u64));
    }
    sum
}
