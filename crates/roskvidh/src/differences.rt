//! What two dictionaries hold differently.

use crate::dictionary::{SLOTS, load, open};
use crate::fault::Fault;
use crate::request::Dictionary;
use cedarwood::{Layout, Trie, Watched};
use either_layout::on_layout;
use std::alloc::Global;
use std::io::Write;
use std::rt::Files;
use word_lists::write_lacking;

/// Writes the entries of a first dictionary that a second one doesn't hold, after `-`, and then those of the second that the first doesn't,
/// after `+`. Returns whether there is none.
pub(crate) fn diff<'m, F: Files, W: Write>(
    alloc: Global,
    files: &F,
    first: Dictionary<'m>,
    second: Dictionary<'m>,
    writer: &mut Watched<W>,
) -> Result<bool, Fault<'m>> {
    let (reader, kind) = open(alloc, files, first.path)?;
    let any = load(alloc, first, reader, kind)?;
    on_layout!(any, trie => diff_from(alloc, files, &trie, second, writer))
}

/// The same, if the first one is loaded.
fn diff_from<'m, L: Layout, F: Files, W: Write>(
    alloc: Global,
    files: &F,
    first: &Trie<L, SLOTS, Global>,
    second: Dictionary<'m>,
    writer: &mut Watched<W>,
) -> Result<bool, Fault<'m>> {
    let (reader, kind) = open(alloc, files, second.path)?;
    let any = load(alloc, second, reader, kind)?;
    on_layout!(any, trie => write_diff(alloc, first, &trie, writer))
}

/// The same, if both are.
fn write_diff<'m, L: Layout, M: Layout, W: Write>(
    alloc: Global,
    first: &Trie<L, SLOTS, Global>,
    second: &Trie<M, SLOTS, Global>,
    writer: &mut Watched<W>,
) -> Result<bool, Fault<'m>> {
    let mut key = Vec::new(alloc);
    let gone = write_lacking(
        writer,
        b"-",
        first.entries_with_prefix_bytes(&[]),
        second,
        &mut key,
    )?;
    let come = write_lacking(
        writer,
        b"+",
        second.entries_with_prefix_bytes(&[]),
        first,
        &mut key,
    )?;
    Ok(!gone && !come)
}
