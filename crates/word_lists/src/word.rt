//! A word as a person reads it. It allocates nothing.
//!
//! A short word's line is put together before it is written, so that the writer is called once. Room is filled from its end: what is put is
//! before the bytes from a position on, and its own position is returned.

ghost use Rattle.std.specs.Prelude.{◌≡◌, ◌≤◌, ◌++◌, ◌+◌, ◌∷◌, ◌<◌, decimal, drop, IsTrue, length};
ghost use Rattle.word_lists.specs.Words.{byte_text, entry_line, escape, is_plain, is_utf8};
ghost use Rattle.word_lists.specs.Words.{signed_decimal, tab_field, word_text, WritesBytes};

use crate::write::{ListError, write_line, write_whole};
use cedar_hex::encode_into;
use cedarwood::Watched;
use itoa::{Buffer, write_digits};
use std::io::Write;

/// Writes the line of a word and its number. It allocates nothing.
///
/// # Errors
/// `Write` if the writer failed. Then a beginning of the line is written, and not all.
pub fn write_entry<W: Write>(
    writer: &mut Watched<W>,
    word: &[u8],
    number: i32,
) -> Result<(), ListError>
    //= The line of an entry is a word, a tab, its number and byte 10. A call that returns `Ok` wrote all of it, and one that fails a
    //  beginning of it, and not all. [by WritesBytes, entry_line]
    ensures { WritesBytes W.contents ListError.Write writer.old writer.new (entry_line (word.now, number)) result }
{
    if finds_room(word) {
        let mut room = [0; ROOM];
        let start = put_entry(&mut room, word, number);
        return write_whole(writer, &room[start..]);
    }
    write_word(writer, word)?;
    let mut figures = Buffer::new();
    write_line(writer, b"\t", figures.format(number).as_bytes())
}

/// Whether a word is short, and its bytes are written as they are: its line is then put together and written at once.
pub(crate) fn finds_room(word: &[u8]) -> bool
    ensures plain { IsTrue result → word_text word.now ≡ word.now }
    ensures short { IsTrue result → length word.now ≤ 64 }
{
    word.len() <= SHORT && are_plain(is_text(word), word)
}

/// Writes a word.
fn write_word<W: Write>(writer: &mut Watched<W>, word: &[u8]) -> Result<(), ListError>
    ensures { WritesBytes W.contents ListError.Write writer.old writer.new (word_text word.now) result }
{
    write_bytes(writer, is_text(word), word)
}

/// Whether a word is UTF-8.
pub(crate) fn is_text(word: &[u8]) -> bool
    ensures { result ≡ is_utf8 word.now }
{
    match str::from_utf8(word) {
        Ok(_) => true,
        Err(_) => false,
    }
}

/// Writes some bytes of a word, which is UTF-8 or not.
pub(crate) fn write_bytes<W: Write>(
    writer: &mut Watched<W>,
    text: bool,
    bytes: &[u8],
) -> Result<(), ListError>
    ensures { WritesBytes W.contents ListError.Write writer.old writer.new (escape text bytes.now) result }
{
    if are_plain(text, bytes) {
        return write_whole(writer, bytes);
    }
    let mut rest = bytes;
    while !rest.is_empty() {
        let byte = rest[0];
        write_byte(writer, text, byte)?;
        rest = &rest[1..];
    }
    Ok(())
}

/// Whether all of some bytes are written as they are, as in most words: they are then written at once.
fn are_plain(text: bool, bytes: &[u8]) -> bool
    ensures { IsTrue result → escape text bytes.now ≡ bytes.now }
{
    let mut rest = bytes;
    while !rest.is_empty() {
        if !is_plain(text, rest[0]) {
            return false;
        }
        rest = &rest[1..];
    }
    true
}

/// Writes a byte of a word, which is UTF-8 or not.
fn write_byte<W: Write>(writer: &mut Watched<W>, text: bool, byte: u8) -> Result<(), ListError>
    ensures { WritesBytes W.contents ListError.Write writer.old writer.new (byte_text text byte) result }
{
    if is_plain(text, byte) {
        return write_whole(writer, &[byte]);
    }
    let mut digits = [b'\\', b'x', 0, 0];
    encode_into(&[byte], &mut digits[2..]);
    write_whole(writer, &digits)
}

/// Whether a byte is written as it is.
pub(crate) fn is_plain(text: bool, byte: u8) -> bool
    ensures { result ≡ is_plain text byte }
{
    byte != 9 && byte != 10 && byte != 92 && (text || byte < 128)
}

/// How many bytes there is room for.
pub(crate) const ROOM: usize = 128;

/// How many bytes a word may have for its line to find room.
pub(crate) const SHORT: usize = 64;

/// Puts the line of a word, whose bytes are written as they are, and of its number at the end.
pub(crate) fn put_entry(room: &mut [u8; ROOM], word: &[u8], number: i32) -> usize
    requires plain { word_text word.now ≡ word.now }
    requires short { length word.now ≤ 64 }
    ensures written { drop result room.new ≡ entry_line (word.now, number) }
    ensures place { 42 ≤ result }
    ensures within { result ≤ 128 }
{
    let end = put_byte(room, ROOM, b'\n');
    let figures = put_signed(room, end, number);
    let tab = put_byte(room, figures, b'\t');
    put_bytes(room, tab, word)
}

/// Puts a number and a tab.
pub(crate) fn put_field(room: &mut [u8], at: usize, number: u64) -> usize
    requires room { 21 ≤ at }
    requires within { at ≤ length room.old }
    ensures written { drop result room.new ≡ tab_field number ++ drop at room.old }
    ensures place { at ≤ result + 21 }
    ensures before { result ≤ at }
    ensures len { length room.new ≡ length room.old }
{
    let tab = put_byte(room, at, b'\t');
    put_number(room, tab, number)
}

/// Puts a number.
fn put_number(room: &mut [u8], at: usize, number: u64) -> usize
    requires room { 20 ≤ at }
    requires within { at ≤ length room.old }
    ensures written { drop result room.new ≡ decimal number ++ drop at room.old }
    ensures place { at ≤ result + 20 }
    ensures before { result ≤ at }
    ensures len { length room.new ≡ length room.old }
{
    write_digits(number, room, at)
}

/// Puts a number that may have a sign.
fn put_signed(room: &mut [u8], at: usize, number: i32) -> usize
    requires room { 11 ≤ at }
    requires within { at ≤ length room.old }
    ensures written { drop result room.new ≡ signed_decimal number ++ drop at room.old }
    ensures place { at ≤ result + 11 }
    ensures before { result ≤ at }
    ensures len { length room.new ≡ length room.old }
{
    let start = write_digits(number.unsigned_abs() as u64, room, at);
    if number >= 0 {
        return start;
    }
    put_byte(room, start, b'-')
}

/// Puts a byte.
fn put_byte(room: &mut [u8], at: usize, byte: u8) -> usize
    requires room { 0 < at }
    requires within { at ≤ length room.old }
    ensures written { drop result room.new ≡ byte ∷ drop at room.old }
    ensures place { result + 1 ≡ at }
    ensures len { length room.new ≡ length room.old }
{
    room[at - 1] = byte;
    at - 1
}

/// Puts some bytes.
fn put_bytes(room: &mut [u8], at: usize, bytes: &[u8]) -> usize
    requires room { length bytes.now ≤ at }
    requires within { at ≤ length room.old }
    ensures written { drop result room.new ≡ bytes.now ++ drop at room.old }
    ensures place { result + length bytes.now ≡ at }
    ensures len { length room.new ≡ length room.old }
{
    let start = at - bytes.len();
    room[start..at].copy_from_slice(bytes);
    start
}
