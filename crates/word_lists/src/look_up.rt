//! The line of a word that is looked up.

ghost use Rattle.std.specs.Prelude.{◌≡◌, IfOk, is_some};
ghost use Rattle.word_lists.specs.Words.{found_line, number_at, WritesBytes};

use crate::word::write_entry;
use crate::write::ListError;
use cedarwood::{Layout, Trie, Watched};
use std::alloc::Allocator;
use std::io::Write;

/// Writes the line of a word that the dictionary holds, and nothing for another one. Returns whether it is held. It allocates nothing.
///
/// # Errors
/// `Write` if the writer failed. Then a beginning of the line is written, and not all.
pub fn write_number<L: Layout, const SLOTS: usize, A: Allocator + Copy, W: Write>(
    writer: &mut Watched<W>,
    trie: &Trie<L, SLOTS, A>,
    word: &[u8],
) -> Result<bool, ListError>
    //= A look-up that returns `Ok` wrote the line of a word that is held, and nothing for another one. [by ok]
    //= One that fails wrote a beginning of that line, and not all; a call of the writer failed. [by err, faults]
    ensures writes { WritesBytes W.contents ListError.Write writer.old writer.new (found_line word.now (number_at trie.now.state.tree word.now)) result }

    //= It returns whether the word is held.
    ensures held { IfOk result (λ held. held ≡ is_some (number_at trie.now.state.tree word.now)) }
{
    let number = trie.get_bytes(word);
    write_found(writer, word, number)?;
    Ok(number.is_some())
}

/// Writes the line of a word that has a number, and nothing for one that has none.
fn write_found<W: Write>(
    writer: &mut Watched<W>,
    word: &[u8],
    number: Option<i32>,
) -> Result<(), ListError>
    ensures { WritesBytes W.contents ListError.Write writer.old writer.new (found_line word.now number) result }
{
    match number {
        Some(number) => write_entry(writer, word, number),
        None => Ok(()),
    }
}
