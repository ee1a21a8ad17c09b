//! Unknown runs of one character, and of characters of one class.

ghost use Rattle.std.specs.Prelude.{◌+◌, ◌<◌, ◌≡◌, Bool, IfSome, length, List, slice_index_or, ℕ};
ghost use Rattle.cedar_words.specs.Cuts.{character_price};
ghost use Rattle.cedar_words.specs.Runs.{are_one_script, byte_run, character_code, character_len};
ghost use Rattle.cedar_words.specs.Runs.{character_run, class_len, class_run, is_between};
ghost use Rattle.cedar_words.specs.Runs.{is_continuation, is_han, is_hangul, is_hiragana};
ghost use Rattle.cedar_words.specs.Runs.{is_katakana, is_letter, is_numeral, LeavesCharacters};
ghost use Rattle.cedar_words.specs.Runs.{low_bits};

use crate::models::{UnknownRun, UnknownRuns};

/// Each character of UTF-8 by itself: a byte and those that continue its character, 128 to 191. A position inside a character has the one
/// byte there.
#[derive(Clone, Copy)]
pub struct OneCharacter {
    /// What it costs.
    pub cost: u32,
}

impl UnknownRuns for OneCharacter {
    ghost run_at = { λ it text place. character_run it.cost text place };

    fn run(&self, text: &[u8], place: usize) -> UnknownRun {
        UnknownRun {
            len: character_len(text, place),
            cost: self.cost,
            beside_keys: true,
        }
    }
}

/// Each byte by itself, where a character of UTF-8 costs once: a byte that continues one, 128 to 191, costs nothing. `cheapest_by_characters`
/// has this rule.
#[derive(Clone, Copy)]
pub struct CharacterBytes {
    /// What a byte costs that continues no character.
    pub cost: u32,
}

impl UnknownRuns for CharacterBytes {
    ghost run_at = { λ it text place. byte_run (character_price it.cost text place) };

    fn run(&self, text: &[u8], place: usize) -> UnknownRun {
        UnknownRun {
            len: 1,
            cost: character_price(self.cost, text[place]),
            beside_keys: true,
        }
    }
}

/// Which characters go into one run.
pub trait CharacterClasses {
    /// Whether they do.
    ghost alike: { Self → ℕ → ℕ → Bool };

    /// Whether a character may stand in a run that begins with the first one, both by their numbers in Unicode. The result depends on
    /// these alone.
    fn are_alike(&self, first: u32, other: u32) -> bool
        //= Whether a character may stand in a run that another begins depends on their numbers alone.
        ensures { result ≡ alike self.now first other };
}

/// Letters of Latin, Greek and Cyrillic go with such letters, digits with digits, and Han, Hiragana, Katakana and Hangul each with their own.
/// Any other character stands by itself.
#[derive(Clone, Copy)]
pub struct Scripts {}

impl CharacterClasses for Scripts {
    ghost alike = { λ _ first other. are_one_script first other };

    fn are_alike(&self, first: u32, other: u32) -> bool {
        is_letter(first) && is_letter(other)
            || is_numeral(first) && is_numeral(other)
            || is_han(first) && is_han(other)
            || is_hiragana(first) && is_hiragana(other)
            || is_katakana(first) && is_katakana(other)
            || is_hangul(first) && is_hangul(other)
    }
}

/// A run of characters that are alike, such as a word of letters or a number. It costs the same whatever its length is.
///
/// ```
/// let rule = OneClass { classes: Scripts {}, cost: 100, most: 24 };
/// assert_eq!(rt; rule.run("ab12".as_bytes(), 0).len, 2);
/// assert_eq!(rt; rule.run("网球x".as_bytes(), 0).len, 6);
/// assert_eq!(rt; rule.run("..".as_bytes(), 0).len, 1);
/// ```
#[derive(Clone, Copy)]
pub struct OneClass<C: CharacterClasses> {
    /// Which characters are alike.
    pub classes: C,
    /// What a run costs.
    pub cost: u32,
    /// How many characters a run has at most: a longer one is parted. 0 counts as 1. A cut looks at so many from each position.
    pub most: usize,
}

impl<C: CharacterClasses> UnknownRuns for OneClass<C> {
    ghost run_at = { λ it text place. class_run (C.alike it.classes) it.most it.cost text place };

    fn run(&self, text: &[u8], place: usize) -> UnknownRun {
        UnknownRun {
            len: class_len(&self.classes, self.most, text, place),
            cost: self.cost,
            beside_keys: true,
        }
    }
}

/// What a byte costs, so that its character costs once.
fn character_price(cost: u32, byte: u8) -> u32
    ensures { (text : List ℕ) (place : ℕ) → slice_index_or text place 0 ≡ byte → result ≡ character_price cost text place }
{
    if 128 <= byte {
        if 192 <= byte { cost } else { 0 }
    } else {
        cost
    }
}

/// Whether a byte continues a character of UTF-8.
fn is_continuation(byte: u8) -> bool
    ensures { result ≡ is_continuation byte }
{
    128 <= byte && byte < 192
}

/// How many bytes the character at a position has.
fn character_len(text: &[u8], place: usize) -> usize
    requires { place < length text.now }
    ensures { result ≡ character_len text.now place }
{
    if is_continuation(text[place]) {
        return 1;
    }
    let mut end = place + 1;
    while end < text.len() && is_continuation(text[end]) {
        end += 1;
    }
    end - place
}

/// The last six bits of a byte, or 0 behind the end.
fn low_bits(bytes: &[u8], index: usize) -> u32
    ensures bits { result ≡ low_bits bytes.now index }
    ensures small { result < 64 }
{
    match bytes.get(index) {
        Some(byte) => u32::from(*byte % 64),
        None => 0,
    }
}

/// The number of the character that some bytes begin with.
fn character_code(bytes: &[u8]) -> u32
    requires { 0 < length bytes.now }
    ensures { result ≡ character_code bytes.now }
{
    let lead = u32::from(bytes[0]);
    if lead < 192 {
        lead
    } else if lead < 224 {
        lead % 32 * 64 + low_bits(bytes, 1)
    } else if lead < 240 {
        (lead % 16 * 64 + low_bits(bytes, 1)) * 64 + low_bits(bytes, 2)
    } else {
        ((lead % 8 * 64 + low_bits(bytes, 1)) * 64 + low_bits(bytes, 2)) * 64 + low_bits(bytes, 3)
    }
}

/// How many more characters a run may have, once it has the first of some bytes: that may be one of them, or continue one. `None` if the
/// run ends before it.
fn left_behind<C: CharacterClasses>(
    classes: &C,
    first: u32,
    left: usize,
    bytes: &[u8],
) -> Option<usize>
    ensures goes { LeavesCharacters (C.alike classes.now) first left bytes.now result }
    ensures some { IfSome result (λ _. 0 < length bytes.now) }
{
    if bytes.is_empty() {
        return None;
    }
    if is_continuation(bytes[0]) {
        return Some(left);
    }
    if left == 0 || !classes.are_alike(first, character_code(bytes)) {
        return None;
    }
    Some(left - 1)
}

/// How many bytes the run of one class at a position has.
fn class_len<C: CharacterClasses>(classes: &C, most: usize, text: &[u8], place: usize) -> usize
    requires { place < length text.now }
    ensures { result ≡ class_len (C.alike classes.now) most text.now place }
{
    if is_continuation(text[place]) {
        return 1;
    }
    let first = character_code(&text[place..]);
    let mut end = place + 1;
    let mut left = most.saturating_sub(1);
    while let Some(more) = left_behind(classes, first, left, &text[end..]) {
        left = more;
        end += 1;
    }
    end - place
}

fn is_between(code: u32, first: u32, last: u32) -> bool
    ensures { result ≡ is_between first last code }
{
    first <= code && code <= last
}

fn is_letter(code: u32) -> bool
    ensures { result ≡ is_letter code }
{
    is_between(code, 0x41, 0x5A)
        || is_between(code, 0x61, 0x7A)
        || is_between(code, 0xC0, 0xD6)
        || is_between(code, 0xD8, 0xF6)
        || is_between(code, 0xF8, 0x24F)
        || is_between(code, 0x370, 0x52F)
        || is_between(code, 0x1E00, 0x1FFF)
        || is_between(code, 0xFF21, 0xFF3A)
        || is_between(code, 0xFF41, 0xFF5A)
}

fn is_numeral(code: u32) -> bool
    ensures { result ≡ is_numeral code }
{
    is_between(code, 0x30, 0x39) || is_between(code, 0xFF10, 0xFF19)
}

fn is_han(code: u32) -> bool
    ensures { result ≡ is_han code }
{
    is_between(code, 0x4E00, 0x9FFF)
        || is_between(code, 0x3400, 0x4DBF)
        || is_between(code, 0x3005, 0x3005)
        || is_between(code, 0x3007, 0x3007)
        || is_between(code, 0x2E80, 0x2FD5)
        || is_between(code, 0xF900, 0xFAFF)
        || is_between(code, 0x2_0000, 0x3_FFFF)
}

fn is_hiragana(code: u32) -> bool
    ensures { result ≡ is_hiragana code }
{
    is_between(code, 0x3041, 0x309F)
}

fn is_katakana(code: u32) -> bool
    ensures { result ≡ is_katakana code }
{
    is_between(code, 0x30A1, 0x30FA)
        || is_between(code, 0x30FC, 0x30FF)
        || is_between(code, 0x31F0, 0x31FF)
        || is_between(code, 0xFF66, 0xFF9F)
}

fn is_hangul(code: u32) -> bool
    ensures { result ≡ is_hangul code }
{
    is_between(code, 0xAC00, 0xD7A3)
        || is_between(code, 0x1100, 0x11FF)
        || is_between(code, 0x3130, 0x318F)
}
