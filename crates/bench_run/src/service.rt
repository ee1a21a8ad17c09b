//! A service that keeps a dictionary which changes: keys in no order, look-ups among which are updates and erasures, in both layouts.

use crate::digest::Digest;
use crate::ids::identifiers;
use crate::made::{Random, Scale, pairs_of, pick};
use anyhow::Result;
use cedarwood::{Cedar, Layout, ReducedCedar, Trie};
use std::alloc::Global;

/// How many keys a call of many look-ups or changes has.
const TOGETHER: usize = 64;

/// Fills a dictionary of each layout with keys in no order, and serves calls.
pub(crate) fn service(alloc: Global, scale: Scale) -> Result<Digest> {
    let mut digest = Digest::new();
    let mut random = scale.random(3);
    by_default(alloc, scale, &mut random, &mut digest)?;
    serve_reduced(alloc, scale, &mut random, &mut digest)?;
    Ok(digest)
}

/// In the default layout.
fn by_default(alloc: Global, scale: Scale, random: &mut Random, digest: &mut Digest) -> Result<()> {
    let keys = identifiers(alloc, random, scale.of(700_000))?;
    let mut cedar = Cedar::new(alloc)?;
    serve(alloc, scale, random, &keys.all(alloc)?, &mut cedar, digest)
}

/// In the reduced layout, with half as many keys.
fn serve_reduced(
    alloc: Global,
    scale: Scale,
    random: &mut Random,
    digest: &mut Digest,
) -> Result<()> {
    let keys = identifiers(alloc, random, scale.of(350_000))?;
    let mut cedar = ReducedCedar::new(alloc)?;
    serve(alloc, scale, random, &keys.all(alloc)?, &mut cedar, digest)
}

/// Stores half of the keys. Then of each eight calls seven are look-ups of keys that are held or not, and one stores a new key, stores a new
/// value, or erases a key. At last many keys are looked up, stored and erased a call.
fn serve<L: Layout, const SLOTS: usize>(
    alloc: Global,
    scale: Scale,
    random: &mut Random,
    keys: &[&[u8]],
    cedar: &mut Trie<L, SLOTS, Global>,
    digest: &mut Digest,
) -> Result<()> {
    let (first, later) = keys.split_at(keys.len() / 2);
    let mut value: i32 = 0;
    for key in first {
        value = value.saturating_add(1);
        cedar.update_bytes(key, value)?;
    }
    for turn in 0..scale.of(1_600_000) {
        if turn % 8 == 0 {
            value = value.saturating_add(1);
            change(random, first, later, value, cedar, digest)?;
        } else {
            let from = if turn % 8 < 6 { first } else { later };
            let key = pick(from, random.below(from.len()));
            digest.add_found(cedar.get_bytes(key));
        }
    }
    change_together(alloc, later, cedar, digest)?;
    digest.add(cedar.len() as u64);
    digest.add(cedar.used_node_slots() as u64);
    Ok(())
}

/// Makes one change.
#[inline(always)]
fn change<L: Layout, const SLOTS: usize>(
    random: &mut Random,
    first: &[&[u8]],
    later: &[&[u8]],
    value: i32,
    cedar: &mut Trie<L, SLOTS, Global>,
    digest: &mut Digest,
) -> Result<()> {
    match random.below(8) {
        0..3 => cedar.update_bytes(pick(later, random.below(later.len())), value)?,
        3..6 => digest.add_found(cedar.insert_bytes(
            pick(first, random.below(first.len())),
            value,
        )?),
        6 => digest.add(u64::from(cedar.erase_bytes(pick(first, random.below(first.len()))))),
        _ => digest.add(u64::from(cedar.erase_bytes(pick(later, random.below(later.len()))))),
    }
    Ok(())
}

/// Looks up, stores and erases many keys a call.
fn change_together<L: Layout, const SLOTS: usize>(
    alloc: Global,
    keys: &[&[u8]],
    cedar: &mut Trie<L, SLOTS, Global>,
    digest: &mut Digest,
) -> Result<()> {
    let mut found = [None; TOGETHER];
    let mut erased = [false; TOGETHER];
    let pairs = pairs_of(alloc, keys)?;
    let mut turn: usize = 0;
    for (part, pairs) in keys.chunks(TOGETHER).zip(pairs.chunks(TOGETHER)) {
        turn = turn.wrapping_add(1);
        match turn % 4 {
            0 => cedar.update_batch(pairs)?,
            1 => {
                cedar.erase_batch(part, &mut erased);
                for (_, answer) in part.iter().zip(erased.iter()) {
                    digest.add(u64::from(*answer));
                }
            }
            _ => {
                cedar.exact_match_search_batch(part, &mut found);
                for (_, answer) in part.iter().zip(found.iter()) {
                    digest.add_found(answer.map(|found| found.0));
                }
            }
        }
    }
    Ok(())
}
