//! The words that a text begins with.

ghost use Rattle.std.specs.Prelude.{◌≡◌, IfOk, length, ltb, map};
ghost use Rattle.word_lists.specs.Words.{entry_line, entry_lines, front_entry};
ghost use Rattle.word_lists.specs.Words.{fronts_of, WritesBytes};

use crate::parts::through;
use crate::word::write_entry;
use crate::write::ListError;
use cedar_words::NextFront;
use cedarwood::{Layout, Trie, Watched};
use std::alloc::Allocator;
use std::io::Write;

/// Writes the line of each word that a text begins with, the shortest first, and returns whether there is one. It allocates nothing.
///
/// ```
/// cedar.build(&[("ne", 1), ("net", 7), ("ten", 2)])?;
/// let mut writer = Watched::new(Vec::new(rt.alloc()));
/// assert!(rt; write_fronts(&mut writer, &cedar, b"nets") == Ok(true));
/// assert_eq!(rt; writer.into_inner().as_slice(), b"ne\t1\nnet\t7\n".as_slice());
/// ```
///
/// # Errors
/// `Write` if the writer failed. Then a beginning of the lines is written, and not all.
pub fn write_fronts<L: Layout, const SLOTS: usize, A: Allocator + Copy, W: Write>(
    writer: &mut Watched<W>,
    trie: &Trie<L, SLOTS, A>,
    text: &[u8],
) -> Result<bool, ListError>
    //= A list of the words that a text begins with, if it returns `Ok`, wrote the line of each, the shortest first, and nothing else. [by ok]
    //= One that fails wrote a beginning of these lines, and not all; a call of the writer failed. [by err, faults]
    ensures writes { WritesBytes W.contents ListError.Write writer.old writer.new (entry_lines (fronts_of trie.now.state.tree text.now)) result }

    //= It returns whether there is one.
    ensures any { IfOk result (λ any. any ≡ ltb 0 (length (fronts_of trie.now.state.tree text.now))) }
{
    write_all_fronts(writer, text, &mut trie.common_prefix_iter_bytes(text))
}

/// Writes the lines of some words that a text begins with.
fn write_all_fronts<F: NextFront, W: Write>(
    writer: &mut Watched<W>,
    text: &[u8],
    fronts: &mut F,
) -> Result<bool, ListError>
    ensures writes { WritesBytes W.contents ListError.Write writer.old writer.new (entry_lines (map (front_entry text.now) (F.left fronts.old))) result }
    ensures any { IfOk result (λ any. any ≡ ltb 0 (length (map (front_entry text.now) (F.left fronts.old)))) }
{
    let mut any = false;
    while let Some(front) = fronts.next_front() {
        write_front(writer, text, front)?;
        any = true;
    }
    Ok(any)
}

/// Writes the line of a word that a text begins with, by its number and one less than its bytes.
fn write_front<W: Write>(
    writer: &mut Watched<W>,
    text: &[u8],
    front: (i32, usize),
) -> Result<(), ListError>
    ensures { WritesBytes W.contents ListError.Write writer.old writer.new (entry_line (front_entry text.now front)) result }
{
    let (value, others) = front;
    write_entry(writer, through(text, others), value)
}
