//! Completions: the first keys that begin with a prefix, pages of keys, and all keys.

use crate::digest::Digest;
use crate::made::{Random, Scale, pairs_of, pick};
use crate::words::western;
use anyhow::Result;
use cedarwood::{Cedar, CedarError};
use std::alloc::Global;

/// How many completions are shown.
const SHOWN: usize = 10;

/// Completes prefixes of one to six letters by words that were stored in no order, and lists what a dictionary holds.
pub(crate) fn complete(alloc: Global, scale: Scale) -> Result<Digest> {
    let mut digest = Digest::new();
    let mut random = scale.random(4);
    let words = western(alloc, &mut random, scale.of(300_000))?;
    let words = words.all(alloc)?;
    let mut cedar = Cedar::new(alloc)?;
    cedar.update_batch(&pairs_of(alloc, &words)?)?;
    answer_all(&cedar, &mut random, &words, scale.of(500_000), &mut digest)?;
    for letter in b'a'..b'z' {
        all_below(&cedar, letter, &mut digest);
    }
    list(&cedar, &mut digest)?;
    Ok(digest)
}

/// Answers many queries.
fn answer_all(
    cedar: &Cedar<Global>,
    random: &mut Random,
    words: &[&[u8]],
    count: usize,
    digest: &mut Digest,
) -> Result<(), CedarError> {
    for turn in 0..count {
        answer(cedar, random, words, turn, digest)?;
    }
    Ok(())
}

/// Answers one query: mostly the first completions of a prefix, now and then a page of keys behind one.
fn answer(
    cedar: &Cedar<Global>,
    random: &mut Random,
    words: &[&[u8]],
    turn: usize,
    digest: &mut Digest,
) -> Result<(), CedarError> {
    let word = pick(words, random.below(words.len()));
    let length = random.below(6).wrapping_add(1);
    let prefix = word.get(..length).unwrap_or(word);
    if turn % 4 == 0 {
        return page(cedar, word, digest);
    }
    if turn % 4 == 1 {
        for (value, behind) in cedar.common_prefix_predict_iter_bytes(prefix).take(SHOWN) {
            digest.add(behind as u64);
            digest.add_value(value);
        }
        return Ok(());
    }
    let mut cursor = cedar.entries_with_prefix_bytes(prefix).into_cursor();
    for _ in 0..SHOWN {
        let Some(value) = cursor.advance()? else {
            break;
        };
        digest.add_bytes(cursor.key());
        digest.add_value(value);
    }
    Ok(())
}

/// Lists the keys from a key on, as many as a page shows.
fn page(cedar: &Cedar<Global>, key: &[u8], digest: &mut Digest) -> Result<(), CedarError> {
    let Some(entries) = cedar.entries_from_bytes(key) else {
        return Ok(());
    };
    for entry in entries.take(SHOWN) {
        let (key, value) = entry?;
        digest.add_bytes(&key);
        digest.add_value(value);
    }
    Ok(())
}

/// Adds the values of all words that begin with a letter.
fn all_below(cedar: &Cedar<Global>, letter: u8, digest: &mut Digest) {
    for (value, behind) in cedar.common_prefix_predict_iter_bytes(&[letter]) {
        digest.add(behind as u64);
        digest.add_value(value);
    }
}

/// Lists all entries: each with a key of its own.
fn list(cedar: &Cedar<Global>, digest: &mut Digest) -> Result<(), CedarError> {
    for entry in cedar.entries()? {
        let (key, value) = entry?;
        digest.add_bytes(&key);
        digest.add_value(value);
    }
    Ok(())
}
