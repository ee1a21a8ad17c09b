//! Keys as programs make them: identifiers, paths, and bytes of any kind.

use crate::made::{Random, Texts, pick};
use crate::words::{push_digits, push_word};
use std::alloc::{AllocError, Global};

/// The digits of hexadecimal numbers.
const DIGITS: [u8; 16] = *b"0123456789abcdef";

/// Returns identifiers of a service: of users, of sessions, and of names with a number, in no order. Hardly any comes twice.
pub(crate) fn identifiers(
    alloc: Global,
    random: &mut Random,
    count: usize,
) -> Result<Texts, AllocError> {
    let mut texts = Texts::new(alloc);
    for _ in 0..count {
        match random.below(10) {
            0..4 => {
                texts.extend(b"user:")?;
                push_digits(&mut texts, random, 8)?;
            }
            4..7 => {
                texts.extend(b"s/")?;
                push_random_digits(&mut texts, random, 12)?;
            }
            _ => {
                push_word(&mut texts, random)?;
                texts.push(b'.')?;
                push_digits(&mut texts, random, 3)?;
            }
        }
        texts.end()?;
    }
    Ok(texts)
}

/// Writes some hexadecimal digits.
fn push_random_digits(
    texts: &mut Texts,
    random: &mut Random,
    count: usize,
) -> Result<(), AllocError> {
    for _ in 0..count {
        texts.push(DIGITS[random.below(16) & 15])?;
    }
    Ok(())
}

/// Writes bytes in hexadecimal digits.
pub(crate) fn push_hexadecimal(texts: &mut Texts, bytes: &[u8]) -> Result<(), AllocError> {
    for byte in bytes {
        texts.push(DIGITS[usize::from(*byte >> 4)])?;
        texts.push(DIGITS[usize::from(*byte & 15)])?;
    }
    Ok(())
}

/// Returns addresses of pages, of 40 to 200 bytes, with long common stems.
pub(crate) fn addresses(
    alloc: Global,
    random: &mut Random,
    count: usize,
) -> Result<Texts, AllocError> {
    let mut stems = Texts::new(alloc);
    for _ in 0..count / 50 {
        stems.extend(b"https://www.")?;
        push_word(&mut stems, random)?;
        stems.extend(b".example.com/")?;
        let depth = random.below(5).wrapping_add(1);
        for _ in 0..depth {
            push_word(&mut stems, random)?;
            stems.push(b'/')?;
        }
        stems.end()?;
    }
    let stems = stems.all(alloc)?;
    let mut texts = Texts::new(alloc);
    for _ in 0..count {
        texts.extend(pick(&stems, random.rank(stems.len())))?;
        push_word(&mut texts, random)?;
        texts.extend(b"/index.html?id=")?;
        push_digits(&mut texts, random, 6)?;
        if random.happens(300) {
            texts.extend(b"&session=")?;
            push_random_digits(&mut texts, random, 60)?;
        }
        texts.end()?;
    }
    Ok(texts)
}

/// Returns keys of eight bytes, each of which is one of 255: so the nodes on top have all labels.
pub(crate) fn binary(
    alloc: Global,
    random: &mut Random,
    count: usize,
) -> Result<Texts, AllocError> {
    let mut texts = Texts::new(alloc);
    for _ in 0..count {
        for _ in 0..8 {
            texts.push(((random.below(255) & 0xFF) as u8).max(1))?;
        }
        texts.end()?;
    }
    Ok(texts)
}
