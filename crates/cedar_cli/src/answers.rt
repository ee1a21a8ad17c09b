//! The answers of queries, as lines: entries, pairs of numbers, and tokens. They allocate only what an iteration does.

ghost use Rattle.std.specs.Prelude.{[], ℕ, ℤ, ◌*◌, ◌++◌, ◌∷◌, ◌≡◌, codes, length, List};
ghost use Rattle.std.specs.Prelude.{MatchOption, OnErr, OnOk};
ghost use Rattle.cedar_cli.specs.Words.{AnswersOrFails, BreaksOff, colon_field, encode_lower};
ghost use Rattle.cedar_cli.specs.Words.{has_failed, hex_entry_line, hex_entry_lines, number_text};
ghost use Rattle.cedar_cli.specs.Words.{pair_text, pairs_text, spaced_texts, token_text};
ghost use Rattle.cedar_cli.specs.Words.{tokens_text, Writes, WritesBytes};

use crate::script::ScriptError;
use crate::write::{write_line, write_whole};
use cedar_hex::encode_into;
use cedar_words::{LongestPrefix, Segments};
use cedarwood::{Entries, PrefixIter, PrefixPredictIter, Walked, Watched};
use itoa::Buffer;
use std::alloc::Allocator;
use std::io::Write;

/// How many bytes of a key are made digits at a time.
const PIECE: usize = 64;

/// Writes the line of each entry, and then that of their end.
pub(crate) fn write_entries<T: Walked, A: Allocator + Copy, W: Write>(
    writer: &mut Watched<W>,
    mut entries: Entries<'_, T, A>,
) -> Result<(), ScriptError>
    ensures ok { OnOk result (Writes W.contents writer.old writer.new ((hex_entry_lines entries.entry ++ codes "end") ++ 10 ∷ [])) }
    ensures err { OnErr result (BreaksOff W.contents writer.old writer.new ((hex_entry_lines entries.entry ++ codes "end") ++ 10 ∷ [])) }
    ensures faults { AnswersOrFails (has_failed writer.old) (has_failed writer.new) result }
    ensures never_full { result ≡ Err ScriptError.SlotLimit → ⊥ }
{
    while let Some(entry) = entries.next() {
        let Ok((key, value)) = entry else {
            return Err(ScriptError::Memory);
        };
        write_entry(writer, &key, value)?;
    }
    write_whole(writer, b"end\n")
}

/// Writes the line of an entry.
fn write_entry<W: Write>(writer: &mut Watched<W>, key: &[u8], value: i32) -> Result<(), ScriptError>
    ensures { WritesBytes W.contents ScriptError.Write writer.old writer.new (hex_entry_line (key.now, value)) result }
{
    write_digits(writer, key)?;
    let mut figures = Buffer::new();
    write_line(writer, b" ", figures.format(value).as_bytes())
}

/// Writes some bytes in hexadecimal.
fn write_digits<W: Write>(writer: &mut Watched<W>, bytes: &[u8]) -> Result<(), ScriptError>
    ensures { WritesBytes W.contents ScriptError.Write writer.old writer.new (encode_lower bytes.now) result }
{
    let mut digits = [0u8; 2 * PIECE];
    let mut rest = bytes;
    while !rest.is_empty() {
        let count = rest.len().min(PIECE);
        write_piece(writer, &rest[..count], &mut digits[..2 * count])?;
        rest = &rest[count..];
    }
    Ok(())
}

/// Writes some bytes in hexadecimal, with room for their digits.
fn write_piece<W: Write>(
    writer: &mut Watched<W>,
    bytes: &[u8],
    digits: &mut [u8],
) -> Result<(), ScriptError>
    requires room { length digits.old ≡ 2 * length bytes.now }
    ensures { WritesBytes W.contents ScriptError.Write writer.old writer.new (encode_lower bytes.now) result }
{
    encode_into(bytes, digits);
    write_whole(writer, digits)
}

/// What finds pairs, each of a value and a count of bytes, one after another.
pub(crate) trait Pairs {
    /// Those that are still to come.
    ghost left: { Self → List (ℤ × ℕ) };

    /// The next one.
    fn next_pair(&mut self) -> Option<(i32, usize)>
        ensures { MatchOption result (left self.old ≡ []) (λ pair. left self.old ≡ pair ∷ left self.new) };
}

impl<'a, T: Walked> Pairs for PrefixIter<'a, T> {
    ghost left = { λ walk. walk.rest };

    fn next_pair(&mut self) -> Option<(i32, usize)> {
        self.next()
    }
}

impl<'a, T: Walked> Pairs for PrefixPredictIter<'a, T> {
    ghost left = { λ rest. rest };

    fn next_pair(&mut self) -> Option<(i32, usize)> {
        self.next()
    }
}

/// Writes the line of some pairs.
pub(crate) fn write_pairs<P: Pairs, W: Write>(
    writer: &mut Watched<W>,
    pairs: &mut P,
) -> Result<(), ScriptError>
    ensures { WritesBytes W.contents ScriptError.Write writer.old writer.new (pairs_text (P.left pairs.old) ++ 10 ∷ []) result }
{
    let Some(first) = pairs.next_pair() else {
        return write_whole(writer, b"none\n");
    };
    write_pair(writer, first)?;
    write_further(writer, pairs)
}

/// Writes some pairs, each after a space, and byte 10.
fn write_further<P: Pairs, W: Write>(
    writer: &mut Watched<W>,
    pairs: &mut P,
) -> Result<(), ScriptError>
    ensures { WritesBytes W.contents ScriptError.Write writer.old writer.new (spaced_texts pair_text (P.left pairs.old) ++ 10 ∷ []) result }
{
    while let Some(pair) = pairs.next_pair() {
        write_after_space(writer, pair)?;
    }
    write_whole(writer, b"\n")
}

/// Writes a space and a pair.
fn write_after_space<W: Write>(
    writer: &mut Watched<W>,
    pair: (i32, usize),
) -> Result<(), ScriptError>
    ensures { WritesBytes W.contents ScriptError.Write writer.old writer.new (codes " " ++ pair_text pair) result }
{
    write_whole(writer, b" ")?;
    write_pair(writer, pair)
}

/// Writes a pair.
fn write_pair<W: Write>(writer: &mut Watched<W>, pair: (i32, usize)) -> Result<(), ScriptError>
    ensures { WritesBytes W.contents ScriptError.Write writer.old writer.new (pair_text pair) result }
{
    let (value, count) = pair;
    let mut figures = Buffer::new();
    // A call for each part: then the one of a byte is a store.
    write_whole(writer, figures.format(value).as_bytes())?;
    write_whole(writer, b":")?;
    write_whole(writer, figures.format(count).as_bytes())
}

/// Writes the line of some tokens.
pub(crate) fn write_tokens<T: LongestPrefix, W: Write>(
    writer: &mut Watched<W>,
    mut tokens: Segments<'_, T>,
) -> Result<(), ScriptError>
    ensures { WritesBytes W.contents ScriptError.Write writer.old writer.new (tokens_text tokens.entry ++ 10 ∷ []) result }
{
    let Some(first) = tokens.next() else {
        return write_whole(writer, b"none\n");
    };
    write_token(writer, first)?;
    write_spaced(writer, tokens)
}

/// Writes some tokens, each after a space, and byte 10.
fn write_spaced<T: LongestPrefix, W: Write>(
    writer: &mut Watched<W>,
    mut tokens: Segments<'_, T>,
) -> Result<(), ScriptError>
    ensures { WritesBytes W.contents ScriptError.Write writer.old writer.new (spaced_texts token_text tokens.entry ++ 10 ∷ []) result }
{
    while let Some(token) = tokens.next() {
        write_next(writer, token)?;
    }
    write_whole(writer, b"\n")
}

/// Writes a space and a token.
fn write_next<W: Write>(
    writer: &mut Watched<W>,
    token: (usize, usize, Option<i32>),
) -> Result<(), ScriptError>
    ensures { WritesBytes W.contents ScriptError.Write writer.old writer.new (codes " " ++ token_text token) result }
{
    write_whole(writer, b" ")?;
    write_token(writer, token)
}

/// Writes a token.
fn write_token<W: Write>(
    writer: &mut Watched<W>,
    token: (usize, usize, Option<i32>),
) -> Result<(), ScriptError>
    ensures { WritesBytes W.contents ScriptError.Write writer.old writer.new (token_text token) result }
{
    let (start, len, value) = token;
    write_field(writer, start)?;
    write_field(writer, len)?;
    write_value(writer, value)
}

/// Writes a number and a colon.
fn write_field<W: Write>(writer: &mut Watched<W>, number: usize) -> Result<(), ScriptError>
    ensures { WritesBytes W.contents ScriptError.Write writer.old writer.new (colon_field number) result }
{
    let mut figures = Buffer::new();
    write_whole(writer, figures.format(number).as_bytes())?;
    write_whole(writer, b":")
}

/// Writes a token's value, or `-`.
fn write_value<W: Write>(writer: &mut Watched<W>, value: Option<i32>) -> Result<(), ScriptError>
    ensures { WritesBytes W.contents ScriptError.Write writer.old writer.new (number_text value) result }
{
    match value {
        Some(value) => {
            let mut figures = Buffer::new();
            write_whole(writer, figures.format(value).as_bytes())
        }
        None => write_whole(writer, b"-"),
    }
}
