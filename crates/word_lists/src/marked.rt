//! A text with its keywords marked, or replaced.

ghost use Rattle.std.specs.Prelude.{◌≡◌, IfOk, length, ltb};
ghost use Rattle.word_lists.specs.Words.{body_of, keywords_in, line_at, mark_text, marked_line};
ghost use Rattle.word_lists.specs.Words.{marked_token, replaced_line, replaced_token};
ghost use Rattle.word_lists.specs.Words.{replacement, WritesBytes};

use crate::cut::{Style, write_line_tokens};
use crate::parts::{body, part};
use crate::write::{ListError, write_whole};
use cedar_words::{leftmost_longest, segment};
use cedarwood::{Layout, Trie, Watched};
use std::alloc::Allocator;
use std::io::Write;

/// Writes a line in which keywords occur, each of them in the colour of a match, as `grep` marks one. Of a line without one it writes
/// nothing. The keywords are those of [`crate::write_keywords`]. Returns whether there is one. It allocates nothing.
///
/// ```
/// cedar.build(&[("he", 1), ("her", 2), ("ero", 3)])?;
/// let mut writer = Watched::new(Vec::new(rt.alloc()));
/// assert!(rt; write_marked(&mut writer, &cedar, b"the\n") == Ok(true));
/// assert_eq!(rt; writer.into_inner().as_slice(), b"t\x1b[01;31m\x1b[Khe\x1b[m\x1b[K\n".as_slice());
/// ```
///
/// # Errors
/// `Write` if the writer failed. Then a beginning of the line is written, and not all.
pub fn write_marked<L: Layout, const SLOTS: usize, A: Allocator + Copy, W: Write>(
    writer: &mut Watched<W>,
    trie: &Trie<L, SLOTS, A>,
    line: &[u8],
) -> Result<bool, ListError>
    //= A line with marks, if the call returns `Ok`, was written whole, each keyword between the signs of a colour, if it has one, and
    //  otherwise not at all. [by ok, marked_line]
    //= One that fails wrote a beginning of that, and not all; a call of the writer failed. [by err, faults]
    ensures writes { WritesBytes W.contents ListError.Write writer.old writer.new (marked_line trie.now.state.tree line.now) result }

    //= It returns whether there is a keyword.
    ensures any { IfOk result (λ any. any ≡ ltb 0 (length (keywords_in trie.now.state.tree (body_of line.now)))) }
{
    if !has_keyword(trie, body(line)) {
        return Ok(false);
    }
    write_line_tokens(writer, line, Style::Marked, &mut segment(trie, body(line)))?;
    Ok(true)
}

/// Whether a text has a keyword.
fn has_keyword<L: Layout, const SLOTS: usize, A: Allocator + Copy>(
    trie: &Trie<L, SLOTS, A>,
    text: &[u8],
) -> bool
    ensures { result ≡ ltb 0 (length (keywords_in trie.now.state.tree text.now)) }
{
    match leftmost_longest(trie, text).next() {
        Some(_) => true,
        None => false,
    }
}

/// Writes a token of a text; a key in the colour of a match.
pub(crate) fn write_marked_token<W: Write>(
    writer: &mut Watched<W>,
    text: &[u8],
    token: (usize, usize, Option<i32>),
) -> Result<(), ListError>
    ensures { WritesBytes W.contents ListError.Write writer.old writer.new (marked_token text.now token) result }
{
    let (start, len, value) = token;
    match value {
        Some(_) => write_mark(writer, part(text, start, len)),
        None => write_whole(writer, part(text, start, len)),
    }
}

/// Writes a word in the colour of a match.
fn write_mark<W: Write>(writer: &mut Watched<W>, word: &[u8]) -> Result<(), ListError>
    ensures { WritesBytes W.contents ListError.Write writer.old writer.new (mark_text word.now) result }
{
    write_whole(writer, b"\x1b[01;31m\x1b[K")?;
    write_whole(writer, word)?;
    write_whole(writer, b"\x1b[m\x1b[K")
}

/// Writes a line with each of its keywords replaced by the line of a list that has its number, counted from 1; one whose number has no line
/// stays as it is, and so does the text between them. The keywords are those of [`crate::write_keywords`]. It allocates nothing.
///
/// ```
/// cedar.build(&[("he", 1), ("hero", 2), ("ro", 3)])?;
/// let mut writer = Watched::new(Vec::new(rt.alloc()));
/// assert!(rt; write_replaced(&mut writer, &cedar, b"the heroes ro\n", &[b"she", b"idol"]).is_ok());
/// assert_eq!(rt; writer.into_inner().as_slice(), b"tshe idoles ro\n".as_slice());
/// ```
///
/// # Errors
/// `Write` if the writer failed. Then a beginning of the line is written, and not all.
pub fn write_replaced<L: Layout, const SLOTS: usize, A: Allocator + Copy, W: Write>(
    writer: &mut Watched<W>,
    trie: &Trie<L, SLOTS, A>,
    line: &[u8],
    lines: &[&[u8]],
) -> Result<(), ListError>
    //= A line with its keywords replaced, if the call returns `Ok`, was written with the list's line of each keyword's number instead of
    //  the keyword, and the rest as it is. [by ok, replaced_line, replacement]
    //= One that fails wrote a beginning of that, and not all; a call of the writer failed. [by err, faults]
    ensures { WritesBytes W.contents ListError.Write writer.old writer.new (replaced_line trie.now.state.tree lines.now line.now) result }
{
    write_line_tokens(
        writer,
        line,
        Style::Replaced(lines),
        &mut segment(trie, body(line)),
    )
}

/// Writes a token of a text; a key as the line of its number, if there is one.
pub(crate) fn write_replaced_token<W: Write>(
    writer: &mut Watched<W>,
    text: &[u8],
    lines: &[&[u8]],
    token: (usize, usize, Option<i32>),
) -> Result<(), ListError>
    ensures { WritesBytes W.contents ListError.Write writer.old writer.new (replaced_token lines.now text.now token) result }
{
    let (start, len, value) = token;
    match value {
        Some(number) => write_whole(writer, replacement(lines, number, part(text, start, len))),
        None => write_whole(writer, part(text, start, len)),
    }
}

/// The line of a number, counted from 1, or else the word itself.
fn replacement<'a>(lines: &[&'a [u8]], number: i32, own: &'a [u8]) -> &'a [u8]
    ensures { result.now ≡ replacement lines.now number own.now }
{
    if number < 1 {
        return own;
    }
    line_at(lines, number as usize - 1, own)
}

/// The line at a position of a list, or otherwise the word itself.
fn line_at<'a>(lines: &[&'a [u8]], place: usize, own: &'a [u8]) -> &'a [u8]
    ensures { result.now ≡ line_at lines.now place own.now }
{
    if place < lines.len() {
        lines[place]
    } else {
        own
    }
}
