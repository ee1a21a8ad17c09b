//! The sum, eight bytes at a time. The way is that of "slicing by eight" (Kounavis and Berry, 2005).

ghost use Rattle.std.specs.Prelude.{◌++◌, ◌≡◌, ◌%◌, bit_xor, fold};
ghost use Rattle.crc32c.specs.Sums.{after_byte, crc32c};

use crate::table::{
    byte_after_eight, byte_after_five, byte_after_four, byte_after_one, byte_after_seven,
    byte_after_six, byte_after_three, byte_after_two,
};

/// What the register has before the first byte, and what its last value is combined with.
const ONES: u32 = 0xffff_ffff;

/// Returns the CRC-32C of some bytes.
pub fn crc32c(bytes: &[u8]) -> u32
    //= The sum of some bytes is their CRC-32C, bit for bit as it is defined.
    ensures { result ≡ crc32c bytes.now }
{
    register_after(ONES, bytes) ^ ONES
}

/// Returns the CRC-32C of some bytes and others after them.
pub fn crc32c_joined(first: &[u8], second: &[u8]) -> u32
    //= Bytes in two pieces have the sum that they have in one.
    ensures { result ≡ crc32c (first.now ++ second.now) }
{
    let between = register_after(ONES, first);
    register_after(between, second) ^ ONES
}

/// Returns the register after some bytes more.
fn register_after(before: u32, bytes: &[u8]) -> u32
    ensures { result ≡ fold after_byte before bytes.now }
{
    let mut register = before;
    let mut rest = bytes;
    while let Some((eight, more)) = rest.split_first_chunk::<8>() {
        register = after_eight(register, eight);
        rest = more;
    }
    after_each(register, rest)
}

/// Returns the register after some bytes more, taken one by one.
fn after_each(before: u32, bytes: &[u8]) -> u32
    ensures { result ≡ fold after_byte before bytes.now }
{
    let mut register = before;
    for byte in bytes {
        register = after_byte(register, *byte);
    }
    register
}

/// Returns the register after one byte more.
fn after_byte(register: u32, byte: u8) -> u32
    ensures { result ≡ after_byte register byte }
{
    (register >> 8) ^ byte_after_one(lowest_of(register, byte))
}

/// Returns the register after eight bytes more. What each of them makes of it is read by itself, so none waits for the one before.
fn after_eight(register: u32, bytes: &[u8; 8]) -> u32
    ensures { result ≡ fold after_byte register bytes.now }
{
    let first = byte_after_eight(lowest_of(register, bytes[0]));
    let second = byte_after_seven(lowest_of(register >> 8, bytes[1]));
    let third = byte_after_six(lowest_of(register >> 16, bytes[2]));
    let fourth = byte_after_five(lowest_of(register >> 24, bytes[3]));
    let fifth = byte_after_four(bytes[4]);
    let sixth = byte_after_three(bytes[5]);
    let seventh = byte_after_two(bytes[6]);
    let eighth = byte_after_one(bytes[7]);
    first ^ (second ^ (third ^ (fourth ^ (fifth ^ (sixth ^ (seventh ^ eighth))))))
}

/// Returns the lowest byte of the register combined with a byte.
fn lowest_of(register: u32, byte: u8) -> u8
    ensures { result ≡ bit_xor register byte % 256 }
{
    ((register ^ byte as u32) % 256) as u8
}
