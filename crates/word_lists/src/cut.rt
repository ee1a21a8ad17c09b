//! A text cut into tokens, with a sign between them.

ghost use Rattle.std.specs.Prelude.{◌∷◌, ◌≡◌, [], Err, List, MatchOption, OnOk};
ghost use Rattle.word_lists.specs.Words.{BreaksOff, greedy_line, has_failed, is_parted};
ghost use Rattle.word_lists.specs.Words.{LinesOrFails, OnBestLine, OnCheapestLine, parted_token};
ghost use Rattle.word_lists.specs.Words.{parting, style_text, styled_line, styled_text, Token};
ghost use Rattle.word_lists.specs.Words.{Writes, WritesBytes};

use crate::marked::{write_marked_token, write_replaced_token};
use crate::parts::{body, byte_at, ending, goes_on, part};
use crate::write::{ListError, write_whole};
use cedar_words::{
    CostModel, LongestPrefix, Segments, cheapest_by, cheapest_by_characters, segment,
};
use cedarwood::{Layout, Trie, Watched};
use std::alloc::Allocator;
use std::io::Write;

/// Writes a line with a sign between its tokens: at each position the longest key that begins there, or otherwise one byte. A byte without
/// a number that continues a character of UTF-8 isn't parted from what is before it. The bytes that end the line, byte 10 and a byte 13
/// before it, are written after them. It allocates nothing.
///
/// ```
/// cedar.build(&[("he", 1), ("hero", 2)])?;
/// let mut writer = Watched::new(Vec::new(rt.alloc()));
/// assert!(rt; write_cut(&mut writer, &cedar, b"heroes\n", b"/").is_ok());
/// assert_eq!(rt; writer.into_inner().as_slice(), b"hero/e/s\n".as_slice());
/// ```
///
/// # Errors
/// `Write` if the writer failed. Then a beginning of the line is written, and not all.
pub fn write_cut<L: Layout, const SLOTS: usize, A: Allocator + Copy, W: Write>(
    writer: &mut Watched<W>,
    trie: &Trie<L, SLOTS, A>,
    line: &[u8],
    sign: &[u8],
) -> Result<(), ListError>
    //= A cut that returns `Ok` wrote the tokens of the line, with a sign between them, and the bytes that end it. [by ok]
    //= One that fails wrote a beginning of that, and not all; a call of the writer failed. [by err, faults]
    ensures { WritesBytes W.contents ListError.Write writer.old writer.new (greedy_line trie.now.state.tree sign.now line.now) result }
{
    write_line_tokens(
        writer,
        line,
        Style::Parted(sign),
        &mut segment(trie, body(line)),
    )
}

/// How a token is written.
#[derive(Clone, Copy)]
pub(crate) enum Style<'a> {
    /// As it is, with this sign before it.
    Parted(&'a [u8]),
    /// As it is; a key in the colour of a match.
    Marked,
    /// As it is; a key as the line of its number in this list, counted from 1, if there is one.
    Replaced(&'a [&'a [u8]]),
}

/// Writes the tokens of a line, and the bytes that end the line.
pub(crate) fn write_line_tokens<T: Tokens, W: Write>(
    writer: &mut Watched<W>,
    line: &[u8],
    style: Style<'_>,
    tokens: &mut T,
) -> Result<(), ListError>
    ensures { WritesBytes W.contents ListError.Write writer.old writer.new (styled_line style.entry line.now (T.left tokens.old)) result }
{
    write_tokens(writer, body(line), style, tokens)?;
    write_whole(writer, ending(line))
}

/// What finds tokens of a text, one after another.
pub(crate) trait Tokens {
    /// Those that are still to come.
    ghost left: { Self → List Token };

    /// The next one.
    fn next_token(&mut self) -> Option<(usize, usize, Option<i32>)>
        ensures { MatchOption result (left self.old ≡ []) (λ token. left self.old ≡ token ∷ left self.new) };
}

impl<'a, T: LongestPrefix> Tokens for Segments<'a, T> {
    ghost left = { λ rest. rest };

    fn next_token(&mut self) -> Option<(usize, usize, Option<i32>)> {
        self.next()
    }
}

/// Tokens in a list.
#[derive(Drop)]
struct Listed<'a> {
    rest: &'a [(usize, usize, Option<i32>)],
}

impl<'a> Tokens for Listed<'a> {
    ghost left = { λ listed. listed.rest.now };

    fn next_token(&mut self) -> Option<(usize, usize, Option<i32>)> {
        let (first, rest) = self.rest.split_first()?;
        self.rest = rest;
        Some(*first)
    }
}

/// Writes tokens of a text.
fn write_tokens<T: Tokens, W: Write>(
    writer: &mut Watched<W>,
    text: &[u8],
    style: Style<'_>,
    tokens: &mut T,
) -> Result<(), ListError>
    ensures { WritesBytes W.contents ListError.Write writer.old writer.new (styled_text style.entry text.now (T.left tokens.old)) result }
{
    while let Some(token) = tokens.next_token() {
        write_token(writer, text, style, token)?;
    }
    Ok(())
}

/// Writes a token of a text.
fn write_token<W: Write>(
    writer: &mut Watched<W>,
    text: &[u8],
    style: Style<'_>,
    token: (usize, usize, Option<i32>),
) -> Result<(), ListError>
    ensures { WritesBytes W.contents ListError.Write writer.old writer.new (style_text style.entry text.now token) result }
{
    match style {
        Style::Parted(sign) => write_parted(writer, text, sign, token),
        Style::Marked => write_marked_token(writer, text, token),
        Style::Replaced(lines) => write_replaced_token(writer, text, lines, token),
    }
}

/// Writes a line as [`write_cut`] does, by its cheapest cut: a key costs its number, and a character that no key has this much. It
/// allocates memory for the tokens.
///
/// ```
/// cedar.build(&[("he", 1), ("hero", 2), ("ro", 0)])?;
/// let mut writer = Watched::new(Vec::new(rt.alloc()));
/// assert!(rt; write_cheapest_cut(rt.alloc(), &mut writer, &cedar, b"hero\n", 9, b"/").is_ok());
/// assert_eq!(rt; writer.into_inner().as_slice(), b"he/ro\n".as_slice());
/// ```
///
/// # Errors
/// `Write` if the writer failed, `Memory` if an allocation was refused.
pub fn write_cheapest_cut<L: Layout, const SLOTS: usize, A: Allocator + Copy, W: Write>(
    alloc: A,
    writer: &mut Watched<W>,
    trie: &Trie<L, SLOTS, A>,
    line: &[u8],
    unknown: u32,
    sign: &[u8],
) -> Result<(), ListError>
    //= A cut by cost that returns `Ok` wrote the tokens of a cheapest cut of the line, with a sign between them, and the bytes that end it.
    //  In a line of any length this cut comes first among those that cost as little and no more than 2^64 - 1. Of a line of fewer than 2^32
    //  bytes there is only one such cut. [by IsCheapestCut]
    ensures ok { OnOk result (OnCheapestLine trie.now.state.tree unknown sign.now line.now (Writes W.contents writer.old writer.new)) }

    //= One that fails with `Write` wrote a beginning of that, and not all; with `Memory` it wrote nothing. [with memory]
    ensures err { result ≡ Err ListError.Write → OnCheapestLine trie.now.state.tree unknown sign.now line.now (BreaksOff W.contents writer.old writer.new) }
    ensures memory { result ≡ Err ListError.Memory → writer.new ≡ writer.old }

    //= It fails with `Write` only if a call of the writer failed. With `Memory`, and if it returns `Ok`, none did.
    ensures faults { LinesOrFails (has_failed writer.old) (has_failed writer.new) result }
{
    let Ok(tokens) = cheapest_by_characters(alloc, trie, body(line), unknown) else {
        return Err(ListError::Memory);
    };
    let mut listed = Listed { rest: &tokens };
    write_line_tokens(writer, line, Style::Parted(sign), &mut listed)
}

/// Writes a line as [`write_cut`] does, by its best cut by a model of costs (`cheapest_by` of `cedar_words`): what a word costs by its number,
/// and which bytes may be a token that no word is. It allocates memory for the tokens.
///
/// ```
/// cedar.build(&[("he", 0), ("hero", 1), ("ro", 2)])?;
/// let keys = CostTable { costs: &[1, 9, 1], beyond: 0 };
/// let model = Priced { keys, unknown: OneCharacter { cost: 9 } };
/// let mut writer = Watched::new(Vec::new(rt.alloc()));
/// assert!(rt; write_cut_by(rt.alloc(), &mut writer, &cedar, b"hero\n", &model, b"/").is_ok());
/// assert_eq!(rt; writer.into_inner().as_slice(), b"he/ro\n".as_slice());
/// ```
///
/// # Errors
/// `Write` if the writer failed, `Memory` if an allocation was refused.
pub fn write_cut_by<L: Layout, const SLOTS: usize, A: Allocator + Copy, M: CostModel, W: Write>(
    alloc: A,
    writer: &mut Watched<W>,
    trie: &Trie<L, SLOTS, A>,
    line: &[u8],
    model: &M,
    sign: &[u8],
) -> Result<(), ListError>
    //= A cut by a model that returns `Ok` wrote the tokens of the line's best cut by it, with a sign between them, and the bytes that end the
    //  line. [by OnBestLine]
    ensures ok { OnOk result (OnBestLine trie.now.state.tree (M.key_cost model.now) (M.unknown_at model.now) sign.now line.now (Writes W.contents writer.old writer.new)) }

    //= One that fails with `Write` wrote a beginning of that, and not all; with `Memory` it wrote nothing. [with memory]
    ensures err { result ≡ Err ListError.Write → OnBestLine trie.now.state.tree (M.key_cost model.now) (M.unknown_at model.now) sign.now line.now (BreaksOff W.contents writer.old writer.new) }
    ensures memory { result ≡ Err ListError.Memory → writer.new ≡ writer.old }

    //= It fails with `Write` only if a call of the writer failed. With `Memory`, and if it returns `Ok`, none did.
    ensures faults { LinesOrFails (has_failed writer.old) (has_failed writer.new) result }
{
    let Ok(tokens) = cheapest_by(alloc, trie, body(line), model) else {
        return Err(ListError::Memory);
    };
    let mut listed = Listed { rest: &tokens };
    write_line_tokens(writer, line, Style::Parted(sign), &mut listed)
}

/// Writes a token of a text, and the sign before it, if there is one.
fn write_parted<W: Write>(
    writer: &mut Watched<W>,
    text: &[u8],
    sign: &[u8],
    token: (usize, usize, Option<i32>),
) -> Result<(), ListError>
    ensures { WritesBytes W.contents ListError.Write writer.old writer.new (parted_token sign.now text.now token) result }
{
    write_whole(writer, parting(text, sign, token))?;
    write_whole(writer, part(text, token.0, token.1))
}

/// What comes before a token: the sign, or nothing.
fn parting<'a>(text: &[u8], sign: &'a [u8], token: (usize, usize, Option<i32>)) -> &'a [u8]
    ensures { result.now ≡ parting sign.now text.now token }
{
    if is_parted(text, token) {
        sign
    } else {
        &sign[..0]
    }
}

/// Whether a sign comes before a token.
fn is_parted(text: &[u8], token: (usize, usize, Option<i32>)) -> bool
    ensures { result ≡ is_parted text.now token }
{
    let (start, _, value) = token;
    0 < start && (value.is_some() || !goes_on(byte_at(text, start)))
}
