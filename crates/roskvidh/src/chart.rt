//! How long a dictionary's words are, as bars in text.

use crate::dictionary::SLOTS;
use crate::fault::Fault;
use cedarwood::{Layout, Trie, Watched};
use std::alloc::Global;
use std::io::Write;

/// The lengths that have a bar each; the last one counts for all that are longer too.
const LENGTHS: usize = 32;

/// How many signs the longest bar has.
const WIDTH: u64 = 50;

const BAR: &str = "##################################################";

/// Writes a line for each length of word that occurs: the length in bytes, how many words have it, and a bar.
pub(crate) fn write_chart<'m, L: Layout, W: Write>(
    alloc: Global,
    trie: &Trie<L, SLOTS, Global>,
    writer: &mut Watched<W>,
) -> Result<(), Fault<'m>> {
    let counts = count_lengths(alloc, trie)?;
    let most = counts.iter().copied().max().unwrap_or(0);
    for (index, count) in counts.iter().enumerate() {
        if 0 < *count {
            write_bar(writer, index.saturating_add(1), *count, most)?;
        }
    }
    Ok(())
}

/// How many words there are of each length, from one byte on.
fn count_lengths<'m, L: Layout>(
    alloc: Global,
    trie: &Trie<L, SLOTS, Global>,
) -> Result<[u64; LENGTHS], Fault<'m>> {
    let mut counts = [0u64; LENGTHS];
    let mut entries = trie.entries_with_prefix_bytes(&[]);
    let mut key = Vec::new(alloc);
    for _ in 0..trie.len() {
        match entries.next_into(&mut key) {
            Ok(Some(_)) => count_one(&mut counts, key.len()),
            Ok(None) => break,
            Err(_) => return Err(Fault::Memory),
        }
    }
    Ok(counts)
}

/// Counts a word of this length.
fn count_one(counts: &mut [u64; LENGTHS], length: usize) {
    if 0 < length && length <= LENGTHS {
        counts[length - 1] = counts[length - 1].saturating_add(1);
    } else {
        counts[LENGTHS - 1] = counts[LENGTHS - 1].saturating_add(1);
    }
}

/// Writes the bar of a length.
fn write_bar<'m, W: Write>(
    writer: &mut Watched<W>,
    length: usize,
    count: u64,
    most: u64,
) -> Result<(), Fault<'m>> {
    let sign = if length == LENGTHS { "+" } else { "" };
    let bar = bar_of(count, most);
    match writeln!(writer, "length {length}{sign}\t{count}\t{bar}") {
        Ok(()) => Ok(()),
        Err(_) => Err(Fault::Write),
    }
}

/// The bar of a count, beside the greatest one: a sign for each word if all have room then, and otherwise a part of the greatest bar,
/// rounded up.
fn bar_of(count: u64, most: u64) -> &'static str {
    let signs = if most <= WIDTH {
        count
    } else {
        (count.saturating_mul(WIDTH).saturating_sub(1) / most).saturating_add(1)
    };
    BAR.get(..signs as usize).unwrap_or(BAR)
}
