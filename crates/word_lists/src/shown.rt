//! Entries shown as a tree: in text, and as a drawing. No contract says what is written here: tests do.

use crate::lists::next_entry;
use crate::parts::{byte_at, characters_begun, goes_on, part};
use crate::word::{is_plain, is_text, write_bytes};
use crate::write::{ListError, write_line, write_whole};
use cedar_hex::encode_into;
use cedarwood::{RangeEntries, Walked, Watched};
use itoa::Buffer;
use std::alloc::Allocator;
use std::io::Write;
use std::mem;

/// What entries are shown as.
#[derive(Clone, Copy)]
enum Shape {
    /// Lines of text.
    Indented,
    /// Nodes and edges in the language of Graphviz.
    Drawn,
}

/// Writes the entries that an iteration has left as a tree in text, a line each: the word, a tab and its number, with blanks instead of the
/// characters that it shares with the word before it. Returns whether there is one. Memory holds two words.
///
/// ```
/// cedar.build(&[("net", 7), ("network", 3), ("new", 4)])?;
/// let mut writer = Watched::new(Vec::new(rt.alloc()));
/// assert!(rt; write_tree(rt.alloc(), &mut writer, cedar.entries_with_prefix("")) == Ok(true));
/// assert_eq!(rt; writer.into_inner().as_slice(), b"net\t7\n   work\t3\n  w\t4\n".as_slice());
/// ```
///
/// # Errors
/// `Write` if the writer failed, `Memory` if the allocation of a word was refused. Then a beginning of the lines is written, and not all.
pub fn write_tree<T: Walked, A: Allocator + Copy, B: Allocator + Copy, W: Write>(
    alloc: B,
    writer: &mut Watched<W>,
    mut entries: RangeEntries<'_, T, A>,
) -> Result<bool, ListError> {
    write_entries_as(alloc, writer, Shape::Indented, &mut entries)
}

/// Writes the entries that a walk has left as a drawing in the language of Graphviz: a node for each prefix of a word, by edges of a byte
/// each, and a number at the node of each word. Returns whether there is one. Memory holds two words.
///
/// # Errors
/// As of [`write_tree`].
pub fn write_drawing<T: Walked, A: Allocator + Copy, B: Allocator + Copy, W: Write>(
    alloc: B,
    writer: &mut Watched<W>,
    mut entries: RangeEntries<'_, T, A>,
) -> Result<bool, ListError> {
    write_whole(
        writer,
        b"digraph words {\n  rankdir=LR;\n  node [shape=circle, label=\"\"];\n",
    )?;
    let any = write_entries_as(alloc, writer, Shape::Drawn, &mut entries)?;
    write_whole(writer, b"}\n")?;
    Ok(any)
}

/// Writes what is shown of some entries.
fn write_entries_as<T: Walked, A: Allocator + Copy, B: Allocator + Copy, W: Write>(
    alloc: B,
    writer: &mut Watched<W>,
    shape: Shape,
    entries: &mut RangeEntries<'_, T, A>,
) -> Result<bool, ListError> {
    let mut before = Vec::new(alloc);
    let mut key = Vec::new(alloc);
    let mut any = false;
    while let Some(value) = next_entry(entries, &mut key)? {
        write_shown(writer, shape, &before, &key, value)?;
        mem::swap(&mut before, &mut key);
        any = true;
    }
    Ok(any)
}

/// Writes what is shown of an entry after another word.
fn write_shown<W: Write>(
    writer: &mut Watched<W>,
    shape: Shape,
    before: &[u8],
    key: &[u8],
    value: i32,
) -> Result<(), ListError> {
    let shared = shared_len(before, key);
    match shape {
        Shape::Indented => write_blanked(writer, key, value, character_begin(key, shared)),
        Shape::Drawn => write_drawn(writer, key, value, shared),
    }
}

/// How many first bytes two words share.
fn shared_len(before: &[u8], word: &[u8]) -> usize {
    let most = before.len().min(word.len());
    for place in 0..most {
        if byte_at(before, place) != byte_at(word, place) {
            return place;
        }
    }
    most
}

/// Where the character begins that has a position of a word.
fn character_begin(word: &[u8], place: usize) -> usize {
    let mut begin = place;
    while 0 < begin && goes_on(byte_at(word, begin)) {
        begin -= 1;
    }
    begin
}

/// Writes the line of an entry with its first bytes left blank.
fn write_blanked<W: Write>(
    writer: &mut Watched<W>,
    key: &[u8],
    value: i32,
    shared: usize,
) -> Result<(), ListError> {
    let text = is_text(key);
    write_blanks(writer, text, part(key, 0, shared))?;
    write_bytes(writer, text, part(key, shared, key.len()))?;
    let mut figures = Buffer::new();
    write_line(writer, b"\t", figures.format(value).as_bytes())
}

/// Writes as many blanks as some bytes of a word take columns.
fn write_blanks<W: Write>(
    writer: &mut Watched<W>,
    text: bool,
    bytes: &[u8],
) -> Result<(), ListError> {
    for byte in bytes {
        write_whole(writer, part(b"    ", 0, columns_of(text, *byte)))?;
    }
    Ok(())
}

/// How many columns a byte takes as it is written: none if it continues a character, and four of `\x` and two digits.
fn columns_of(text: bool, byte: u8) -> usize {
    if is_plain(text, byte) {
        characters_begun(byte)
    } else {
        4
    }
}

/// Writes the nodes of an entry after its first bytes, each with the edge to it, and its number.
fn write_drawn<W: Write>(
    writer: &mut Watched<W>,
    key: &[u8],
    value: i32,
    shared: usize,
) -> Result<(), ListError> {
    for place in shared..key.len() {
        write_edge(writer, part(key, 0, place), byte_at(key, place))?;
    }
    write_number_line(writer, key, value)
}

/// Writes the edge from a node by a byte to the next one.
fn write_edge<W: Write>(writer: &mut Watched<W>, path: &[u8], byte: u8) -> Result<(), ListError> {
    write_whole(writer, b"  ")?;
    write_node(writer, path)?;
    write_whole(writer, b" -> ")?;
    write_node(writer, path)?;
    write_digits(writer, byte)?;
    write_whole(writer, b" [label=\"")?;
    write_label(writer, byte)?;
    write_whole(writer, b"\"];\n")
}

/// Writes the node of a word, with its number.
fn write_number_line<W: Write>(
    writer: &mut Watched<W>,
    key: &[u8],
    value: i32,
) -> Result<(), ListError> {
    let mut figures = Buffer::new();
    let number = figures.format(value).as_bytes();
    write_whole(writer, b"  ")?;
    write_node(writer, key)?;
    write_whole(writer, b" [label=\"")?;
    write_whole(writer, number)?;
    write_whole(writer, b"\", peripheries=2];\n")
}

/// Writes the name of a node: `n`, and the bytes on the way to it in hexadecimal.
fn write_node<W: Write>(writer: &mut Watched<W>, path: &[u8]) -> Result<(), ListError> {
    write_whole(writer, b"n")?;
    for byte in path {
        write_digits(writer, *byte)?;
    }
    Ok(())
}

/// Writes a byte at an edge: in hexadecimal unless it has a form of its own, and is no sign that Graphviz reads otherwise.
fn write_label<W: Write>(writer: &mut Watched<W>, byte: u8) -> Result<(), ListError> {
    if 33 <= byte && byte <= 126 && byte != b'"' && byte != b'\\' {
        return write_whole(writer, &[byte]);
    }
    write_digits(writer, byte)
}

/// Writes a byte in hexadecimal.
fn write_digits<W: Write>(writer: &mut Watched<W>, byte: u8) -> Result<(), ListError> {
    let mut digits = [0u8; 2];
    encode_into(&[byte], &mut digits);
    write_whole(writer, &digits)
}
