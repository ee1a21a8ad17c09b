//! A dictionary is made and kept: of word lists in order and in none, saved, loaded and saved again, in both layouts.

use crate::digest::Digest;
use crate::made::{Scale, pairs_of};
use crate::words::{chinese, western};
use anyhow::Result;
use cedarwood::{Cedar, CedarBuilder, ReducedCedar, Watched};
use std::alloc::Global;

/// Makes dictionaries of lists of Chinese words, and of words of letters.
pub(crate) fn make(alloc: Global, scale: Scale) -> Result<Digest> {
    let mut digest = Digest::new();
    let mut random = scale.random(5);
    for _ in 0..5 {
        let words = chinese(alloc, &mut random, scale.of(200_000))?;
        keep(alloc, &words.all(alloc)?, &mut digest)?;
        let words = western(alloc, &mut random, scale.of(150_000))?;
        keep_reduced(alloc, &words.all(alloc)?, &mut digest)?;
    }
    Ok(digest)
}

/// Makes a dictionary of words in no order, changes and saves it; loads that, lists it, and makes another one of the list, which is in order.
fn keep(alloc: Global, words: &[&[u8]], digest: &mut Digest) -> Result<()> {
    let (first, later) = words.split_at(words.len() - words.len() / 10);
    let mut cedar = Cedar::from_pairs_bytes(alloc, &pairs_of(alloc, first)?)?;
    cedar.update_batch(&pairs_of(alloc, later)?)?;
    let mut writer = Watched::new(Vec::new(alloc));
    cedar.save_to_writer(&mut writer)?;
    let file = writer.into_inner();
    digest.add_bytes(&file);
    let loaded = Cedar::load_from_reader(alloc, &mut file.as_slice())?;
    let mut entries = Vec::new(alloc);
    for entry in loaded.entries()? {
        entries.push(entry?)?;
    }
    let mut pairs: Vec<(&[u8], i32)> = Vec::with_capacity(alloc, entries.len())?;
    for (key, value) in &entries {
        pairs.push((key.as_slice(), *value))?;
    }
    let sorted = Cedar::from_sorted_bytes(alloc, &pairs)?;
    digest.add(sorted.used_node_slots() as u64);
    let mut writer = Watched::new(Vec::new(alloc));
    sorted.save_v1_0_to_writer(&mut writer)?;
    let file = writer.into_inner();
    digest.add_bytes(&file);
    let loaded = Cedar::load_from_reader(alloc, &mut file.as_slice())?;
    digest.add(loaded.len() as u64);
    Ok(())
}

/// Makes a dictionary of the reduced layout, saves it, and loads that.
fn keep_reduced(alloc: Global, words: &[&[u8]], digest: &mut Digest) -> Result<()> {
    let pairs = pairs_of(alloc, words)?;
    let cedar = ReducedCedar::from_pairs_bytes_with(alloc, CedarBuilder::new(), &pairs)?;
    let mut writer = Watched::new(Vec::new(alloc));
    cedar.save_to_writer(&mut writer)?;
    let file = writer.into_inner();
    digest.add_bytes(&file);
    let loaded = ReducedCedar::load_from_reader(alloc, &mut file.as_slice())?;
    digest.add(loaded.len() as u64);
    Ok(())
}
