//! Words as languages have them, and texts of such words.

use crate::made::{Random, Texts, pick};
use std::alloc::{AllocError, Global};

/// What a syllable begins with.
const ONSETS: [&[u8]; 24] = [
    b"b", b"c", b"d", b"f", b"g", b"h", b"l", b"m", b"n", b"p", b"r", b"s", b"t", b"v", b"w",
    b"st", b"tr", b"pr", b"ch", b"sh", b"th", b"", b"", b"",
];

/// What a syllable has in the middle.
const VOWELS: [&[u8]; 10] = [
    b"a", b"e", b"e", b"i", b"i", b"o", b"u", b"ea", b"io", b"ou",
];

/// What a syllable ends with.
const CODAS: [&[u8]; 12] = [
    b"", b"", b"", b"n", b"r", b"s", b"t", b"l", b"nd", b"ng", b"ck", b"m",
];

/// Writes a character of Chinese in UTF-8, one of 20,000 from U+4E00 on.
fn push_character(texts: &mut Texts, number: usize) -> Result<(), AllocError> {
    let code = (number % 20_000).wrapping_add(0x4E00);
    texts.push((0xE0 | ((code >> 12) & 0x0F)) as u8)?;
    texts.push((0x80 | ((code >> 6) & 0x3F)) as u8)?;
    texts.push((0x80 | (code & 0x3F)) as u8)
}

/// Writes a character of Chinese, frequent ones more often.
fn push_some_character(texts: &mut Texts, random: &mut Random) -> Result<(), AllocError> {
    let most = random.below(7_000).wrapping_add(1);
    let number = random.below(most).wrapping_mul(7_919);
    push_character(texts, number)
}

/// Returns words of one to six Chinese characters, most of two to four. A few come twice.
pub(crate) fn chinese(
    alloc: Global,
    random: &mut Random,
    count: usize,
) -> Result<Texts, AllocError> {
    let mut texts = Texts::new(alloc);
    for _ in 0..count {
        let length = match random.below(100) {
            0..3 => 1,
            3..53 => 2,
            53..78 => 3,
            78..96 => 4,
            96..99 => 5,
            _ => 6,
        };
        for _ in 0..length {
            push_some_character(&mut texts, random)?;
        }
        texts.end()?;
    }
    Ok(texts)
}

/// Writes a word of some syllables.
fn push_syllables(texts: &mut Texts, random: &mut Random, count: usize) -> Result<(), AllocError> {
    for _ in 0..count {
        texts.extend(pick(&ONSETS, random.below(24)))?;
        texts.extend(pick(&VOWELS, random.below(10)))?;
        texts.extend(pick(&CODAS, random.below(12)))?;
    }
    Ok(())
}

/// Writes a word of one to five syllables.
pub(crate) fn push_word(texts: &mut Texts, random: &mut Random) -> Result<(), AllocError> {
    let count = match random.below(20) {
        0..3 => 1,
        3..9 => 2,
        9..15 => 3,
        15..19 => 4,
        _ => 5,
    };
    push_syllables(texts, random, count)
}

/// Returns words of letters. Some come twice.
pub(crate) fn western(
    alloc: Global,
    random: &mut Random,
    count: usize,
) -> Result<Texts, AllocError> {
    let mut texts = Texts::new(alloc);
    for _ in 0..count {
        push_word(&mut texts, random)?;
        texts.end()?;
    }
    Ok(texts)
}

/// Returns keywords and phrases: two to four syllables, or two such words with a space.
pub(crate) fn keywords(
    alloc: Global,
    random: &mut Random,
    count: usize,
) -> Result<Texts, AllocError> {
    let mut texts = Texts::new(alloc);
    for _ in 0..count {
        let first = random.below(3).wrapping_add(2);
        push_syllables(&mut texts, random, first)?;
        if random.happens(300) {
            texts.push(b' ')?;
            let second = random.below(2).wrapping_add(2);
            push_syllables(&mut texts, random, second)?;
        }
        texts.end()?;
    }
    Ok(texts)
}

/// Writes a number of some decimal digits.
pub(crate) fn push_digits(
    texts: &mut Texts,
    random: &mut Random,
    count: usize,
) -> Result<(), AllocError> {
    for _ in 0..count {
        texts.push(b'0'.wrapping_add((random.below(10) & 15) as u8))?;
    }
    Ok(())
}

/// Returns lines of 20 to 200 characters in which words of a list come as often as in a text, with a tail of what no list has: other
/// characters, numbers and names.
pub(crate) fn prose(
    alloc: Global,
    random: &mut Random,
    words: &[&[u8]],
    names: &[&[u8]],
    count: usize,
) -> Result<Texts, AllocError> {
    let mut texts = Texts::new(alloc);
    for _ in 0..count {
        let bytes = random.below(540).wrapping_add(60);
        for _ in 0..bytes {
            if bytes <= texts.pending() {
                break;
            }
            match random.below(100) {
                0..6 => push_some_character(&mut texts, random)?,
                6..8 => push_digits(&mut texts, random, 4)?,
                8..10 => texts.extend(pick(names, random.below(names.len())))?,
                10..16 => texts.extend("，".as_bytes())?,
                _ => texts.extend(pick(words, random.rank(words.len())))?,
            }
        }
        texts.end()?;
    }
    Ok(texts)
}

/// Returns lines of a log: a time, an address, and a message in which a keyword comes now and then.
pub(crate) fn log_lines(
    alloc: Global,
    random: &mut Random,
    words: &[&[u8]],
    names: &[&[u8]],
    count: usize,
) -> Result<Texts, AllocError> {
    let mut texts = Texts::new(alloc);
    for _ in 0..count {
        texts.extend(b"2026-11-26T")?;
        push_digits(&mut texts, random, 6)?;
        texts.extend(b" INFO 10.")?;
        push_digits(&mut texts, random, 2)?;
        texts.extend(b".0.7 ")?;
        let bytes = random.below(180).wrapping_add(40);
        for _ in 0..bytes {
            if bytes <= texts.pending() {
                break;
            }
            if random.happens(100) {
                texts.extend(pick(words, random.rank(words.len())))?;
            } else {
                texts.extend(pick(names, random.below(names.len())))?;
            }
            texts.push(b' ')?;
        }
        texts.end()?;
    }
    Ok(texts)
}
