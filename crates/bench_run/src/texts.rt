//! Texts by the words of a dictionary: a tokenizer that cuts lines, and a filter that searches them for keywords.

use crate::digest::Digest;
use crate::made::{Scale, pairs_of};
use crate::words::{chinese, keywords, log_lines, prose, western};
use anyhow::Result;
use cedar_words::{cheapest, cheapest_by_characters, leftmost_longest, matches, segment};
use cedarwood::{Cedar, Watched};
use std::alloc::Global;

/// What an unknown byte or character costs: more than most words.
const UNKNOWN: u32 = 400_000;

/// Cuts texts into words, and searches texts for keywords.
pub(crate) fn texts(alloc: Global, scale: Scale) -> Result<Digest> {
    let mut digest = Digest::new();
    cut_lines(alloc, scale, &mut digest)?;
    filter_lines(alloc, scale, &mut digest)?;
    Ok(digest)
}

/// Loads a dictionary of Chinese words from a file's bytes, and cuts lines of text: most greedily, some at least cost.
fn cut_lines(alloc: Global, scale: Scale, digest: &mut Digest) -> Result<()> {
    let mut random = scale.random(1);
    let words = chinese(alloc, &mut random, scale.of(300_000))?;
    let words = words.all(alloc)?;
    let names = western(alloc, &mut random, scale.of(20_000))?;
    let lines = prose(
        alloc,
        &mut random,
        &words,
        &names.all(alloc)?,
        scale.of(60_000),
    )?;
    let file = save_words(alloc, &words)?;
    let cedar = Cedar::load_from_reader(alloc, &mut file.as_slice())?;
    let mut turn: usize = 0;
    for line in lines.all(alloc)? {
        turn = turn.wrapping_add(1);
        match turn % 8 {
            0 => add_tokens(digest, &cheapest(alloc, &cedar, line, UNKNOWN)?),
            1 => add_tokens(
                digest,
                &cheapest_by_characters(alloc, &cedar, line, UNKNOWN)?,
            ),
            _ => {
                for (start, length, value) in segment(&cedar, line) {
                    digest.add(
                        (start as u64)
                            .wrapping_mul(1024)
                            .wrapping_add(length as u64),
                    );
                    digest.add_found(value);
                }
            }
        }
    }
    Ok(())
}

/// Returns the bytes of a file of words, whose values are their indexes in a list.
fn save_words(alloc: Global, words: &[&[u8]]) -> Result<Vec<u8>> {
    let pairs = pairs_of(alloc, words)?;
    let cedar = Cedar::from_pairs_bytes(alloc, &pairs)?;
    let mut writer = Watched::new(Vec::new(alloc));
    cedar.save_to_writer(&mut writer)?;
    Ok(writer.into_inner())
}

/// Adds tokens to a digest.
fn add_tokens(digest: &mut Digest, tokens: &[(usize, usize, Option<i32>)]) {
    for (start, length, value) in tokens {
        digest.add(
            (*start as u64)
                .wrapping_mul(1024)
                .wrapping_add(*length as u64),
        );
        digest.add_found(*value);
    }
}

/// Searches lines of a log for keywords: for all, for those that don't overlap, and for those that begin at each position.
fn filter_lines(alloc: Global, scale: Scale, digest: &mut Digest) -> Result<()> {
    let mut random = scale.random(2);
    let words = keywords(alloc, &mut random, scale.of(100_000))?;
    let words = words.all(alloc)?;
    let names = western(alloc, &mut random, scale.of(20_000))?;
    let lines = log_lines(
        alloc,
        &mut random,
        &words,
        &names.all(alloc)?,
        scale.of(90_000),
    )?;
    let mut cedar = Cedar::new(alloc)?;
    cedar.update_batch(&pairs_of(alloc, &words)?)?;
    let mut turn: usize = 0;
    for line in lines.all(alloc)? {
        turn = turn.wrapping_add(1);
        match turn % 4 {
            0 => add_prefixes(digest, &cedar, line),
            1 => {
                for (start, length, value) in leftmost_longest(&cedar, line) {
                    digest.add(
                        (start as u64)
                            .wrapping_mul(1024)
                            .wrapping_add(length as u64),
                    );
                    digest.add_value(value);
                }
            }
            _ => {
                for (start, length, value) in matches(&cedar, line) {
                    digest.add(
                        (start as u64)
                            .wrapping_mul(1024)
                            .wrapping_add(length as u64),
                    );
                    digest.add_value(value);
                }
            }
        }
    }
    Ok(())
}

/// Adds the keys that begin at each position of a line.
fn add_prefixes(digest: &mut Digest, cedar: &Cedar<Global>, line: &[u8]) {
    for place in 0..line.len() {
        let mut found = cedar.common_prefix_iter_bytes(&line[place..]);
        for _ in 0..line.len() {
            let Some((value, last)) = found.next() else {
                break;
            };
            digest.add(last as u64);
            digest.add_value(value);
        }
    }
}
