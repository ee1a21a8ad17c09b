//! The words that occur in a text, a line each.

ghost use Rattle.std.specs.Prelude.{◌++◌, ◌+◌, ◌∷◌, ◌≡◌, ◌≤◌, [], IfOk, length, List};
ghost use Rattle.std.specs.Prelude.{ltb, MatchOption, take};
ghost use Rattle.word_lists.specs.Words.{body_of, characters, entry_line, keyword_lines};
ghost use Rattle.word_lists.specs.Words.{keywords_in, match_lines, Spot, spot_line, spot_lines};
ghost use Rattle.word_lists.specs.Words.{spots_from, tab_field, word_text, WritesBytes};

use crate::parts::{body, characters_before, part};
use crate::word::{ROOM, finds_room, put_entry, put_field, write_entry};
use crate::write::{ListError, write_whole};
use cedar_words::{AllMatches, Fronts, Keywords, LongestPrefix, leftmost_longest, matches};
use cedarwood::{Layout, Trie, Watched};
use itoa::Buffer;
use std::alloc::Allocator;
use std::io::Write;

/// What finds words in a text, one after another.
trait Spots {
    /// Those that are still to come.
    ghost left: { Self → List Spot };

    /// The next one.
    fn next_spot(&mut self) -> Option<(usize, usize, i32)>
        ensures { MatchOption result (left self.old ≡ []) (λ spot. left self.old ≡ spot ∷ left self.new) };
}

impl<'a, T: Fronts> Spots for AllMatches<'a, T> {
    ghost left = { λ rest. rest };

    fn next_spot(&mut self) -> Option<(usize, usize, i32)> {
        self.next()
    }
}

impl<'a, T: LongestPrefix> Spots for Keywords<'a, T> {
    ghost left = { λ rest. rest };

    fn next_spot(&mut self) -> Option<(usize, usize, i32)> {
        self.next()
    }
}

/// Writes a line for each word that occurs in a line of a text: the line's number, the column, the word and its number, with tabs between
/// them. A column counts characters from 1: bytes that don't continue a character of UTF-8. Words may overlap. Returns whether there is
/// one. It allocates nothing.
///
/// ```
/// cedar.build(&[("he", 1), ("her", 2), ("ero", 3)])?;
/// let mut writer = Watched::new(Vec::new(rt.alloc()));
/// assert!(rt; write_matches(&mut writer, &cedar, b"ahe", 5) == Ok(true));
/// assert_eq!(rt; writer.into_inner().as_slice(), b"5\t2\the\t1\n".as_slice());
/// ```
///
/// # Errors
/// `Write` if the writer failed. Then a beginning of the lines is written, and not all.
pub fn write_matches<L: Layout, const SLOTS: usize, A: Allocator + Copy, W: Write>(
    writer: &mut Watched<W>,
    trie: &Trie<L, SLOTS, A>,
    line: &[u8],
    number: u64,
) -> Result<bool, ListError>
    //= A scan that returns `Ok` wrote a line for each key that occurs in the text's line, position after position and at each the shortest
    //  first, and nothing else. [by ok]
    //= One that fails wrote a beginning of these lines, and not all; a call of the writer failed. [by err, faults; also write_keywords]
    ensures writes { WritesBytes W.contents ListError.Write writer.old writer.new (match_lines trie.now.state.tree number line.now) result }

    //= It returns whether there is one. [also write_keywords]
    ensures any { IfOk result (λ any. any ≡ ltb 0 (length (spots_from trie.now.state.tree 0 (body_of line.now)))) }
{
    let text = body(line);
    write_spots(writer, text, number, &mut matches(trie, text))
}

/// Writes the lines of the words that don't overlap, as [`write_matches`] does: of those that begin first the longest, and so on after its
/// end.
///
/// ```
/// cedar.build(&[("he", 1), ("her", 2), ("ero", 3)])?;
/// let mut writer = Watched::new(Vec::new(rt.alloc()));
/// assert!(rt; write_keywords(&mut writer, &cedar, b"hero", 1) == Ok(true));
/// assert_eq!(rt; writer.into_inner().as_slice(), b"1\t1\ther\t2\n".as_slice());
/// ```
///
/// # Errors
/// As of [`write_matches`].
pub fn write_keywords<L: Layout, const SLOTS: usize, A: Allocator + Copy, W: Write>(
    writer: &mut Watched<W>,
    trie: &Trie<L, SLOTS, A>,
    line: &[u8],
    number: u64,
) -> Result<bool, ListError>
    //= A scan for the longest words alone wrote a line for each keyword: of the keys that begin first the longest, and so on from its end.
    //  [by ok]
    ensures writes { WritesBytes W.contents ListError.Write writer.old writer.new (keyword_lines trie.now.state.tree number line.now) result }
    ensures any { IfOk result (λ any. any ≡ ltb 0 (length (keywords_in trie.now.state.tree (body_of line.now)))) }
{
    let text = body(line);
    write_spots(writer, text, number, &mut leftmost_longest(trie, text))
}

/// Writes the lines of some words.
fn write_spots<S: Spots, W: Write>(
    writer: &mut Watched<W>,
    text: &[u8],
    line: u64,
    spots: &mut S,
) -> Result<bool, ListError>
    ensures writes { WritesBytes W.contents ListError.Write writer.old writer.new (spot_lines line text.now (S.left spots.old)) result }
    ensures any { IfOk result (λ any. any ≡ ltb 0 (length (S.left spots.old))) }
{
    let mut any = false;
    let mut known = (0, 0);
    while let Some(spot) = spots.next_spot() {
        let before = characters_before(text, known, spot.0);
        write_spot(writer, text, line, before, spot)?;
        known = (spot.0, before);
        any = true;
    }
    Ok(any)
}

/// Writes the line of a word, before which so many characters begin.
fn write_spot<W: Write>(
    writer: &mut Watched<W>,
    text: &[u8],
    line: u64,
    before: usize,
    spot: (usize, usize, i32),
) -> Result<(), ListError>
    requires before { before ≡ characters (take spot.0 text.now) }
    requires within { before ≤ length text.now }
    ensures { WritesBytes W.contents ListError.Write writer.old writer.new (spot_line line text.now spot) result }
{
    let (start, len, value) = spot;
    let column = column_of(text, before);
    let word = part(text, start, len);
    if finds_room(word) {
        return write_short(writer, line, column, word, value);
    }
    write_field(writer, line)?;
    write_field(writer, column)?;
    write_entry(writer, word, value)
}

/// Writes the line of a short word, whose bytes are written as they are, at once.
fn write_short<W: Write>(
    writer: &mut Watched<W>,
    line: u64,
    column: u64,
    word: &[u8],
    number: i32,
) -> Result<(), ListError>
    requires plain { word_text word.now ≡ word.now }
    requires short { length word.now ≤ 64 }
    ensures { WritesBytes W.contents ListError.Write writer.old writer.new (tab_field line ++ (tab_field column ++ entry_line (word.now, number))) result }
{
    let mut room = [0; ROOM];
    let entry = put_entry(&mut room, word, number);
    let place = put_field(&mut room, entry, column);
    let start = put_field(&mut room, place, line);
    write_whole(writer, &room[start..])
}

/// The column of a word, before which so many of a text's characters begin.
fn column_of(text: &[u8], before: usize) -> u64
    requires { before ≤ length text.now }
    ensures { result ≡ 1 + before }
{
    let _ = text;
    1 + before as u64
}

/// Writes a number and a tab.
fn write_field<W: Write>(writer: &mut Watched<W>, number: u64) -> Result<(), ListError>
    ensures { WritesBytes W.contents ListError.Write writer.old writer.new (tab_field number) result }
{
    let mut figures = Buffer::new();
    write_whole(writer, figures.format(number).as_bytes())?;
    write_whole(writer, b"\t")
}
