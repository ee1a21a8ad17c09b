//! Parts of a text, and its lines.

ghost use Rattle.std.specs.Prelude.{◌+◌, ◌≡◌, ◌≤◌, ◌<◌, drop, get_or, IfOk, length, map, take};
ghost use Rattle.word_lists.specs.Words.{body_of, characters, characters_begun};
ghost use Rattle.word_lists.specs.Words.{continues_character, drop_through, ending_of, ends_with};
ghost use Rattle.word_lists.specs.Words.{lines_in, take_through, text_part, without_last};

use memchr::memchr;
use std::alloc::{AllocError, Allocator};

/// So many bytes of a text from a position on, or as many as there are.
pub(crate) fn part(text: &[u8], start: usize, len: usize) -> &[u8]
    ensures { result.now ≡ text_part text.now start len }
{
    let rest = &text[start.min(text.len())..];
    &rest[..len.min(rest.len())]
}

/// The bytes of a text up to the one at a position, or all of them.
pub(crate) fn through(text: &[u8], place: usize) -> &[u8]
    ensures { result.now ≡ take (place + 1) text.now }
{
    if place < text.len() {
        &text[..place + 1]
    } else {
        text
    }
}

/// A line without the bytes that end it: byte 10, and a byte 13 before that.
pub(crate) fn body(line: &[u8]) -> &[u8]
    ensures body { result.now ≡ body_of line.now }
    ensures within { length result.now ≤ length line.now }
{
    if ends_with(line, b'\n') {
        without_last(without_last(line, b'\n'), b'\r')
    } else {
        line
    }
}

/// The bytes that end a line.
pub(crate) fn ending(line: &[u8]) -> &[u8]
    ensures { result.now ≡ ending_of line.now }
{
    &line[body(line).len()..]
}

/// A line without its last byte, if that is this one.
fn without_last(line: &[u8], byte: u8) -> &[u8]
    ensures body { result.now ≡ without_last byte line.now }
    ensures within { length result.now ≤ length line.now }
{
    if ends_with(line, byte) {
        &line[..line.len() - 1]
    } else {
        line
    }
}

/// Whether a line ends with a byte.
fn ends_with(line: &[u8], byte: u8) -> bool
    ensures { result ≡ ends_with byte line.now }
{
    0 < line.len() && line[line.len() - 1] == byte
}

/// Whether a byte goes on with a character of UTF-8.
pub(crate) fn goes_on(byte: u8) -> bool
    ensures { result ≡ continues_character byte }
{
    128 <= byte && byte < 192
}

/// How many characters begin before a position, if it is known how many begin before another one. From that on they are counted.
pub(crate) fn characters_before(text: &[u8], known: (usize, usize), place: usize) -> usize
    requires { known.1 ≡ characters (take known.0 text.now) }
    ensures all { result ≡ characters (take place text.now) }
    ensures within { result ≤ length text.now }
{
    if place < known.0 {
        return characters(part(text, 0, place));
    }
    known.1 + characters(part(text, known.0, place - known.0))
}

/// How many characters begin in some bytes.
fn characters(bytes: &[u8]) -> usize
    ensures all { result ≡ characters bytes.now }
    ensures within { result ≤ length bytes.now }
{
    let mut count = 0;
    for byte in bytes {
        count += characters_begun(*byte);
    }
    count
}

/// How many characters begin with a byte: one, or none.
pub(crate) fn characters_begun(byte: u8) -> usize
    ensures all { result ≡ characters_begun byte }
    ensures within { result ≤ 1 }
{
    if goes_on(byte) { 0 } else { 1 }
}

/// The byte at a position, or 0 after the end.
pub(crate) fn byte_at(text: &[u8], place: usize) -> u8
    ensures { result ≡ get_or text.now place 0 }
{
    if place < text.len() { text[place] } else { 0 }
}

/// The lines of a text, each without the bytes that end it: byte 10, and a byte 13 before that.
///
/// ```
/// let lines = list_lines(rt.alloc(), b"net\r\nten")?;
/// assert_eq!(rt; lines.as_slice(), [b"net".as_slice(), b"ten".as_slice()].as_slice());
/// ```
///
/// # Errors
/// If an allocation was refused.
pub fn list_lines<'a, A: Allocator>(
    alloc: A,
    text: &'a [u8],
) -> Result<Vec<&'a [u8], A>, AllocError>
    //= The lines of a text are listed in order, each without the bytes that end it.
    ensures { IfOk result (λ lines. map (λ line. line.now) lines.items ≡ map body_of (lines_in text.now)) }
{
    let mut lines = Vec::new(alloc);
    let mut rest = text;
    while !rest.is_empty() {
        let len = first_len(rest);
        lines.push(body(&rest[..len]))?;
        rest = &rest[len..];
    }
    Ok(lines)
}

/// How many bytes the first line of a text has, with its byte 10.
pub(crate) fn first_len(text: &[u8]) -> usize
    requires { 0 < length text.now }
    ensures first { take result text.now ≡ take_through 10 text.now }
    ensures rest { drop result text.now ≡ drop_through 10 text.now }
    ensures some { 0 < result }
    ensures within { result ≤ length text.now }
{
    match memchr(b'\n', text) {
        Some(at) => at + 1,
        None => text.len(),
    }
}
