//! Numbers at the start of some bytes, at a position among them, and after those in a buffer.

ghost use Rattle.std.specs.Prelude.{◌++◌, ◌+◌, ◌∷◌, ◌≡◌, ◌≤◌, length, take};
ghost use Rattle.cedar_format.specs.Words.{array_vec_len, i16_bytes, i32_bytes, IsI16, IsI32};
ghost use Rattle.cedar_format.specs.Words.{u16_bytes, u64_bytes};

use crate::header::HEADER_LEN;
use arrayvec::ArrayVec;

/// How many bytes of a list are read or written at once, at most.
pub(crate) const BUFFER_LEN: usize = 16384;

/// The bytes of a header on their way to a writer.
pub(crate) type Buffer = ArrayVec<u8, HEADER_LEN>;

/// Appends bytes to those in a buffer.
pub(crate) fn put_bytes(buffer: &mut Buffer, bytes: &[u8])
    requires { array_vec_len buffer.old + length bytes.now ≤ 88 }
    ensures bytes { buffer.new.items ≡ buffer.old.items ++ bytes.now }
    ensures len { array_vec_len buffer.new ≡ array_vec_len buffer.old + length bytes.now }
{
    buffer.try_extend_from_slice(bytes).unwrap();
}

/// Appends a number of 2 bytes to those in a buffer.
#[tactic(auto, unfolding(crate::specs::Numbers::u16_bytes))]
pub(crate) fn put_u16(buffer: &mut Buffer, value: u16)
    requires { array_vec_len buffer.old + 2 ≤ 88 }
    ensures bytes { buffer.new.items ≡ buffer.old.items ++ u16_bytes value }
    ensures len { array_vec_len buffer.new ≡ array_vec_len buffer.old + 2 }
{
    put_bytes(buffer, &value.to_le_bytes());
}

/// Appends a signed number of 4 bytes to those in a buffer.
#[tactic(auto, unfolding(crate::specs::Numbers::i32_bytes))]
pub(crate) fn put_i32(buffer: &mut Buffer, value: i32)
    requires { array_vec_len buffer.old + 4 ≤ 88 }
    ensures bytes { buffer.new.items ≡ buffer.old.items ++ i32_bytes value }
    ensures len { array_vec_len buffer.new ≡ array_vec_len buffer.old + 4 }
    ensures fits { IsI32 value }
{
    put_bytes(buffer, &value.to_le_bytes());
}

/// Appends a number of 8 bytes to those in a buffer.
#[tactic(auto, unfolding(crate::specs::Numbers::u64_bytes))]
pub(crate) fn put_usize(buffer: &mut Buffer, value: usize)
    requires { array_vec_len buffer.old + 8 ≤ 88 }
    ensures bytes { buffer.new.items ≡ buffer.old.items ++ u64_bytes value }
    ensures len { array_vec_len buffer.new ≡ array_vec_len buffer.old + 8 }
{
    put_bytes(buffer, &(value as u64).to_le_bytes());
}

/// Writes a signed number as 2 bytes at a position.
#[tactic(auto, unfolding(crate::specs::Numbers::i16_bytes))]
#[inline(always)]
pub(crate) fn write_i16_at(bytes: &mut [u8], at: usize, value: i16)
    requires { at + 2 ≤ length bytes.old }
    ensures front { take (at + 2) bytes.new ≡ take at bytes.old ++ i16_bytes value }
    ensures len { length bytes.new ≡ length bytes.old }
    ensures fits { IsI16 value }
{
    bytes[at..at + 2].copy_from_slice(&value.to_le_bytes());
}

/// Writes a signed number as 4 bytes at a position.
#[tactic(auto, unfolding(crate::specs::Numbers::i32_bytes))]
#[inline(always)]
pub(crate) fn write_i32_at(bytes: &mut [u8], at: usize, value: i32)
    requires { at + 4 ≤ length bytes.old }
    ensures front { take (at + 4) bytes.new ≡ take at bytes.old ++ i32_bytes value }
    ensures len { length bytes.new ≡ length bytes.old }
    ensures fits { IsI32 value }
{
    bytes[at..at + 4].copy_from_slice(&value.to_le_bytes());
}

pub(crate) fn u16_of(bytes: [u8; 2]) -> u16
    ensures { u16_bytes result ≡ bytes }
{
    u16::from_le_bytes(bytes)
}

pub(crate) fn i16_of(bytes: [u8; 2]) -> i16
    ensures { i16_bytes result ≡ bytes }
{
    i16::from_le_bytes(bytes)
}

pub(crate) fn i32_of(bytes: [u8; 4]) -> i32
    ensures { i32_bytes result ≡ bytes }
{
    i32::from_le_bytes(bytes)
}

pub(crate) fn u64_of(bytes: [u8; 8]) -> u64
    ensures { u64_bytes result ≡ bytes }
{
    u64::from_le_bytes(bytes)
}

/// Takes as many bytes from the start as the buffer has, by one copy.
pub(crate) fn take_bytes(bytes: &mut &[u8], buf: &mut [u8])
    requires { length buf.old ≤ length bytes.old.now }
    ensures { bytes.old.now ≡ buf.new ++ bytes.new.now }
{
    let (front, rest) = bytes.split_at(buf.len());
    *bytes = rest;
    buf.copy_from_slice(front);
}

/// Takes a byte from the start.
pub(crate) fn take_u8(bytes: &mut &[u8]) -> u8
    requires { 1 ≤ length bytes.old.now }
    ensures front { bytes.old.now ≡ result ∷ bytes.new.now }
    ensures len { length bytes.old.now ≡ 1 + length bytes.new.now }
{
    let (front, rest) = bytes.split_at(1);
    *bytes = rest;
    front[0]
}

/// Takes a number of 2 bytes from the start.
pub(crate) fn take_i16(bytes: &mut &[u8]) -> i16
    requires { 2 ≤ length bytes.old.now }
    ensures front { bytes.old.now ≡ i16_bytes result ++ bytes.new.now }
    ensures len { length bytes.old.now ≡ 2 + length bytes.new.now }
    ensures fits { IsI16 result }
{
    let (front, rest) = bytes.split_at(2);
    *bytes = rest;
    i16_of([front[0], front[1]])
}

/// Takes a number of 4 bytes from the start.
pub(crate) fn take_i32(bytes: &mut &[u8]) -> i32
    requires { 4 ≤ length bytes.old.now }
    ensures front { bytes.old.now ≡ i32_bytes result ++ bytes.new.now }
    ensures len { length bytes.old.now ≡ 4 + length bytes.new.now }
    ensures fits { IsI32 result }
{
    let (front, rest) = bytes.split_at(4);
    *bytes = rest;
    i32_of([front[0], front[1], front[2], front[3]])
}
