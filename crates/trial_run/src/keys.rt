//! The keys of files, and dictionaries of them. A file of keys, as bench/workloads.py writes it, is records: four bytes of length, the
//! lowest first, and the key.

use anyhow::{Context, Result};
use cedarwood::Cedar;
use std::alloc::Global;
use std::fs;

/// Reads files of a folder.
pub(crate) fn read_all(rt: &HostRuntime, folder: &str, names: &[&str]) -> Result<Vec<Vec<u8>>> {
    let mut files = Vec::new(rt.alloc());
    for name in names {
        let path = format!(in rt.alloc(); "{folder}/{name}")?;
        let file = fs::read(rt, path).context(format_args!("reading {folder}/{name}"))?;
        files.push(file)?;
    }
    Ok(files)
}

/// Returns the number that four bytes are, the lowest first, and what is behind them.
fn number_in(bytes: &[u8]) -> Option<(u32, &[u8])> {
    let [a, b, c, d, rest @ ..] = bytes else {
        return None;
    };
    Some((u32::from_le_bytes([*a, *b, *c, *d]), rest))
}

/// Returns the keys of a file. They lie one behind the other in memory, in the order in which they are used.
pub(crate) fn keys_of(alloc: Global, file: &[u8]) -> Result<Vec<&[u8]>> {
    let mut keys = Vec::new(alloc);
    let mut rest = file;
    for _ in 0..file.len() {
        if rest.is_empty() {
            break;
        }
        let (length, after) = number_in(rest).context("a length is cut off")?;
        let (key, after) = after
            .split_at_checked(length as usize)
            .context("a key is cut off")?;
        keys.push(key)?;
        rest = after;
    }
    Ok(keys)
}

/// The values of the keys of a list.
#[derive(Clone, Copy)]
pub(crate) enum Values {
    /// The keys' places in the list, from 0 on.
    Places,
    /// What looks random, by their places.
    Scattered,
}

/// Returns keys with their values.
pub(crate) fn pairs<'a>(
    alloc: Global,
    keys: &[&'a [u8]],
    values: Values,
) -> Result<Vec<(&'a [u8], i32)>> {
    let mut pairs = Vec::with_capacity(alloc, keys.len())?;
    let mut place: u64 = 0;
    for key in keys {
        let value = match values {
            Values::Places => i32::try_from(place).unwrap_or(i32::MAX),
            Values::Scattered => {
                i32::try_from(place.wrapping_mul(2_654_435_761) % 2_147_483_629).unwrap_or(0)
            }
        };
        pairs.push((*key, value))?;
        place = place.wrapping_add(1);
    }
    Ok(pairs)
}

/// Returns a dictionary in which pairs were stored one after another.
pub(crate) fn fill(alloc: Global, pairs: &[(&[u8], i32)]) -> Result<Cedar<Global>> {
    let mut cedar = Cedar::new(alloc)?;
    for (key, value) in pairs {
        cedar.update_bytes(key, *value)?;
    }
    Ok(cedar)
}
