//! The line of how many words begin with a prefix.

ghost use Rattle.std.specs.Prelude.{◌≡◌, IfOk, length, ltb};
ghost use Rattle.word_lists.specs.Words.{count_line, entries_with, WritesBytes};

use crate::write::{ListError, write_whole};
use cedarwood::{Layout, Trie, Watched};
use itoa::Buffer;
use std::alloc::Allocator;
use std::io::Write;

/// Writes a line of how many words begin with a prefix, and returns whether there is one. It visits each node below the prefix's, and
/// allocates nothing.
///
/// # Errors
/// `Write` if the writer failed. Then a beginning of the line is written, and not all.
pub fn write_count<L: Layout, const SLOTS: usize, A: Allocator + Copy, W: Write>(
    writer: &mut Watched<W>,
    trie: &Trie<L, SLOTS, A>,
    prefix: &[u8],
) -> Result<bool, ListError>
    //= A count that returns `Ok` wrote the line of how many entries begin with the prefix. [by ok, count_line, entries_with]
    //= One that fails wrote a beginning of that line, and not all; a call of the writer failed. [by err, faults]
    ensures writes { WritesBytes W.contents ListError.Write writer.old writer.new (count_line (length (entries_with trie.now.state.tree prefix.now))) result }

    //= It returns whether there is such an entry.
    ensures found { IfOk result (λ found. found ≡ ltb 0 (length (entries_with trie.now.state.tree prefix.now))) }
{
    let count = trie.count_prefix_bytes(prefix);
    write_figure(writer, count)?;
    Ok(0 < count)
}

/// Writes the line of a number.
fn write_figure<W: Write>(writer: &mut Watched<W>, number: usize) -> Result<(), ListError>
    ensures { WritesBytes W.contents ListError.Write writer.old writer.new (count_line number) result }
{
    let mut figures = Buffer::new();
    write_whole(writer, figures.format(number).as_bytes())?;
    write_whole(writer, b"\n")
}
