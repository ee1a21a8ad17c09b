//! What is read of a line: where a byte is first in it, and a number in figures.

ghost use Rattle.std.specs.Prelude.{◌<◌, ◌≡◌, IfSome, length, position};
ghost use Rattle.device_lines.specs.Words.{figures_number, is_byte};

use memchr::memchr;

/// Where a byte is first in a text, or None if it isn't there.
///
/// ```
/// assert_eq!(rt; position_of(b'\t', b"net\t7"), Some(3));
/// ```
pub fn position_of(byte: u8, text: &[u8]) -> Option<usize>
    //= `position_of` returns where a byte is first, which is within the text, and None exactly if it isn't there. [with within]
    ensures first { result ≡ position (is_byte byte) text.now }
    ensures within { IfSome result (λ at. at < length text.now) }
{
    memchr(byte, text)
}

/// The number that figures say, or None if they say none of 32 bits: `+`, `-` or neither, and then one or more decimal digits.
///
/// ```
/// assert_eq!(rt; parse_number(b"-07"), Some(-7));
/// assert!(rt; parse_number(b"7 ").is_none());
/// ```
pub fn parse_number(figures: &[u8]) -> Option<i32>
    //= `parse_number` returns the number of 32 bits that figures say, and None exactly if they say none. [by figures_number]
    ensures { result ≡ figures_number figures.now }
{
    let text = str::from_utf8(figures).ok()?;
    text.parse().ok()
}
