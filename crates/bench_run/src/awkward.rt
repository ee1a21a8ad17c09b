//! What is awkward for a double-array trie: long keys with common stems, nodes with all labels, keys in an order that makes families of
//! children move often, and tables of which parts were erased and filled again.

use crate::digest::Digest;
use crate::ids::{addresses, binary};
use crate::made::{Random, Scale, pairs_of};
use anyhow::Result;
use cedarwood::{Cedar, CedarBuilder, Layout, ReducedCedar, Trie};
use std::alloc::Global;

/// Stores, erases and stores again addresses of pages and keys of any bytes.
pub(crate) fn awkward(alloc: Global, scale: Scale) -> Result<Digest> {
    let mut digest = Digest::new();
    let mut random = scale.random(7);
    long_keys(alloc, scale, &mut random, &mut digest)?;
    dense_keys(alloc, scale, &mut random, &mut digest)?;
    newest_first(alloc, scale, &mut random, &mut digest)?;
    Ok(digest)
}

/// Addresses of pages.
fn long_keys(alloc: Global, scale: Scale, random: &mut Random, digest: &mut Digest) -> Result<()> {
    let keys = addresses(alloc, random, scale.of(120_000))?;
    let mut cedar = Cedar::new(alloc)?;
    churn(alloc, &keys.all(alloc)?, &mut cedar, digest)
}

/// Keys of any bytes.
fn dense_keys(alloc: Global, scale: Scale, random: &mut Random, digest: &mut Digest) -> Result<()> {
    let keys = binary(alloc, random, scale.of(400_000))?;
    let mut cedar = Cedar::new(alloc)?;
    churn(alloc, &keys.all(alloc)?, &mut cedar, digest)
}

/// Keys of any bytes, of which the newest labels come first, in the reduced layout.
fn newest_first(
    alloc: Global,
    scale: Scale,
    random: &mut Random,
    digest: &mut Digest,
) -> Result<()> {
    let keys = binary(alloc, random, scale.of(150_000))?;
    let builder = CedarBuilder::new().ordered(false);
    let mut cedar = ReducedCedar::with(alloc, builder)?;
    churn(alloc, &keys.all(alloc)?, &mut cedar, digest)
}

/// Stores most keys, erases every twentieth, stores the rest, and looks all up; then lists and erases what is held below some bytes.
fn churn<L: Layout, const SLOTS: usize>(
    alloc: Global,
    keys: &[&[u8]],
    cedar: &mut Trie<L, SLOTS, Global>,
    digest: &mut Digest,
) -> Result<()> {
    let (first, later) = keys.split_at(keys.len() - keys.len() / 5);
    for (key, value) in &pairs_of(alloc, first)? {
        cedar.update_bytes(key, *value)?;
    }
    for part in first.chunks(20) {
        for key in part.iter().take(1) {
            digest.add(u64::from(cedar.erase_bytes(key)));
        }
    }
    for (key, value) in &pairs_of(alloc, later)? {
        digest.add_found(cedar.insert_bytes(key, *value)?);
    }
    for key in keys {
        digest.add_found(cedar.get_bytes(key));
    }
    digest.add(cedar.used_node_slots() as u64);
    for entry in cedar.entries()? {
        let (key, value) = entry?;
        digest.add_bytes(&key);
        digest.add_value(value);
    }
    for label in 1..=127 {
        digest.add(cedar.erase_prefix_bytes(&[label]) as u64);
    }
    digest.add(cedar.len() as u64);
    Ok(())
}
