//! A word as a person writes it.

ghost use Rattle.std.specs.Prelude.{◌<◌, ◌∷◌, ◌≡◌, ◌≤◌, [], IfOk, length};
ghost use Rattle.word_lists.specs.Words.{decode_sized, first_read, named_of, read_as};

use std::alloc::{AllocError, Allocator};

/// Reads a word from a text into a buffer, instead of what that held: `\x` and two hexadecimal digits of either case are the byte that they
/// name, and every other byte represents itself. After a refused allocation the buffer may hold anything.
///
/// ```
/// let mut word = Vec::new(rt.alloc());
/// read_word(b"a\\x09b", &mut word)?;
/// assert_eq!(rt; word.as_slice(), b"a\tb".as_slice());
/// ```
///
/// # Errors
/// If an allocation was refused.
pub fn read_word<A: Allocator>(text: &[u8], word: &mut Vec<u8, A>) -> Result<(), AllocError>
    //= A word is read as the bytes that its text represents.
    ensures { IfOk result (λ _. word.new.items ≡ read_as text.now) }
{
    word.clear();
    let mut rest = text;
    while !rest.is_empty() {
        let (byte, len) = first_byte(rest);
        word.push(byte)?;
        rest = &rest[len..];
    }
    Ok(())
}

/// The first byte that some text represents, and how many bytes of the text do.
fn first_byte(text: &[u8]) -> (u8, usize)
    requires some { 0 < length text.now }
    ensures first { result ≡ first_read text.now }
    ensures some { 0 < result.1 }
    ensures within { result.1 ≤ length text.now }
{
    match text {
        [b'\\', b'x', high, low, ..] => named_byte(*high, *low),
        _ => (text[0], 1),
    }
}

/// The byte that two digits name after `\x`, and the four bytes that name it; or the backslash alone, if they are no digits.
fn named_byte(high: u8, low: u8) -> (u8, usize)
    ensures named { result ≡ named_of (decode_sized (high ∷ low ∷ []) 1) }
    ensures some { 0 < result.1 }
    ensures within { result.1 ≤ 4 }
{
    let mut named = [0u8];
    match hex::decode_to_slice(&[high, low], &mut named) {
        Ok(()) => (named[0], 4),
        Err(_) => (b'\\', 1),
    }
}
