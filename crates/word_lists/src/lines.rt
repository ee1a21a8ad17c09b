//! The lines of a word list, stored in a dictionary.

ghost use Rattle.std.specs.Prelude.{◌<◌, ◌∷◌, ◌≡◌, ◌≤◌, [], Err, IfErr, IfOk, IfSome, is_some};
ghost use Rattle.std.specs.Prelude.{length, List, ltb, None, OnErr, OnOk, Option, option_map};
ghost use Rattle.word_lists.specs.Words.{absent_of, Adds, before_first, ErasesFirstLines, fault};
ghost use Rattle.word_lists.specs.Words.{figures_of, is_tab, line_absent};
ghost use Rattle.word_lists.specs.Words.{line_erased, line_refusal, line_stored, line_told};
ghost use Rattle.word_lists.specs.Words.{lines_absent, lines_erased, lines_in, lines_stored};
ghost use Rattle.word_lists.specs.Words.{list_told, Memory, number_at, number_with, OnKnown};
ghost use Rattle.word_lists.specs.Words.{own_line_number, position, stored_by, StoresFirstLines};
ghost use Rattle.word_lists.specs.Words.{TakesNext, Told, told_by, told_one, want_of};

use crate::parts::body;
use crate::read::read_word;
use cedarwood::{CedarError, Layout, Trie};
use device_lines::{parse_number, position_of};
use std::alloc::{AllocError, Allocator};
use std::io;
use std::io::{BufRead, ErrorKind};

/// Why a line of a list is no entry of its own.
#[derive(Clone, Copy, Debug, PartialEq, Eq)]
pub enum LineFault {
    /// Its word has no byte.
    EmptyWord,
    /// Its word has a byte 0.
    NulByte,
    /// What follows the tab is no number from 0 to 2147483645, or there is none and so many lines are before it.
    Number,
    /// An earlier line has its word. The later number counts.
    Repeated,
}

/// Why a list was not stored to its end.
#[derive(Debug, Drop)]
pub enum StoreError {
    /// The reader failed.
    Read(io::Error),
    /// An allocation was refused.
    Memory,
    /// No slot is left in the dictionary.
    SlotLimit,
}

impl From<AllocError> for StoreError {
    //= A failed allocation becomes `Memory`.
    ghost from_gives = { λ _ e. e ≡ Memory };

    fn from(_: AllocError) -> StoreError {
        StoreError::Memory
    }
}

/// What is reported of lines that are no entries of their own.
pub trait LineFaults {
    /// What it heard, line after line, if that is known: the number of each line, its bytes and its fault.
    ghost told: { Self → Option (List Told) } = { λ _. None };

    /// Hears of a line: its number, counted from 1, its bytes without those that end it, and what is wrong with it.
    fn tell(&mut self, number: u64, line: &[u8], fault: LineFault)
        //= What a reporter heard, if it says so, has one line more then: its number, its bytes and its fault. [by Adds]
        ensures { Adds (told self.old) (told self.new) ((number, line.now, fault) ∷ []) };
}

/// Stores each line of what a reader has left, one after another: a word, or a word, a tab and its number. Without a number it is that
/// of the line, counted from 1. Words are read as [`crate::read_word`] does. Empty lines are passed over. Memory holds one line and its
/// word.
///
/// # Errors
/// `Read` if the reader failed, `Memory` if an allocation was refused, `SlotLimit` if no slot is left. Then the lines before are stored.
pub fn store_lines<L: Layout, const SLOTS: usize, A: Allocator + Copy, R: BufRead, F: LineFaults>(
    alloc: A,
    trie: &mut Trie<L, SLOTS, A>,
    reader: &mut R,
    faults: &mut F,
) -> Result<(), StoreError>
    //= A list that is stored with `Ok` stored each line of what the reader had left, in order, if that is known and is fewer than 2^63
    //  bytes: its word, as its text before the first tab reads, has the number in figures after the tab, or otherwise the line's own. Empty
    //  lines and those that have a fault store nothing. [by lines_stored, line_stored, lines_in]
    ensures ok { OnOk result (OnKnown (R.remaining reader.old) (λ input. trie.new.state ≡ lines_stored trie.old.state 1 (lines_in input))) }

    //= It reported exactly the lines that are no entries of their own, each once and in order, and each with the reason: no number, a fault
    //  of word or number, or a word that was held. [by lines_told, line_told]
    ensures told { OnOk result (OnKnown (R.remaining reader.old) (λ input. Adds (F.told faults.old) (F.told faults.new) (list_told trie.old.state input))) }

    //= One that fails stored and reported the first lines, and no other.
    ensures err { OnErr result (StoresFirstLines (R.remaining reader.old) trie.old.state trie.new.state (F.told faults.old) (F.told faults.new)) }

    //= It fails with `SlotLimit` only if all slots that there may be are in use.
    ensures limit { result ≡ Err StoreError.SlotLimit → trie.new.size ≡ SLOTS }
{
    let mut line = Vec::new(alloc);
    let mut word = Vec::new(alloc);
    for number in 1..u64::MAX {
        let more = next_line(reader, &mut line)?;
        if !more {
            return Ok(());
        }
        pass_line(trie, body(&line), number, &mut word, faults)?;
    }
    Ok(())
}

/// Reads the next line, with the byte 10 that ends it, into the buffer instead of what that held. Returns false if there is none.
fn next_line<A: Allocator, R: BufRead>(
    reader: &mut R,
    line: &mut Vec<u8, A>,
) -> Result<bool, StoreError>
    ensures next { IfOk result (λ more. TakesNext (R.remaining reader.old) (R.remaining reader.new) line.new.items more) }
    ensures no_slots { IfErr result (λ e. e ≡ StoreError.SlotLimit → ⊥) }
{
    line.clear();
    match reader.read_until(b'\n', line) {
        Ok(_) => Ok(has_bytes(line)),
        Err(error) => Err(read_error(error)),
    }
}

/// Whether there is a byte.
fn has_bytes(line: &[u8]) -> bool
    ensures { result ≡ ltb 0 (length line.now) }
{
    0 < line.len()
}

/// What a fault of a reader says: the line found no memory, or the reader failed.
fn read_error(error: io::Error) -> StoreError
    ensures { result ≡ StoreError.SlotLimit → ⊥ }
{
    match error.kind() {
        ErrorKind::OutOfMemory => StoreError::Memory,
        _ => StoreError::Read(error),
    }
}

/// Stores a line, which has this number, and reports it if it is no entry of its own.
fn pass_line<L: Layout, const SLOTS: usize, A: Allocator + Copy, F: LineFaults>(
    trie: &mut Trie<L, SLOTS, A>,
    line: &[u8],
    number: u64,
    word: &mut Vec<u8, A>,
    faults: &mut F,
) -> Result<(), StoreError>
    ensures ok { OnOk result (trie.new.state ≡ line_stored trie.old.state number line.now) }
    ensures told { OnOk result (Adds (F.told faults.old) (F.told faults.new) (told_one number line.now (line_told trie.old.state number line.now))) }
    ensures err { OnErr result ((trie.new.state ≡ trie.old.state) × (faults.new ≡ faults.old)) }
    ensures limit { result ≡ Err StoreError.SlotLimit → trie.new.size ≡ SLOTS }
{
    match store_line(trie, line, number, word)? {
        Some(fault) => faults.tell(number, line, fault),
        None => {}
    }
    Ok(())
}

/// Stores a line, which has this number, unless it is empty, and says what is wrong with it.
fn store_line<L: Layout, const SLOTS: usize, A: Allocator + Copy>(
    trie: &mut Trie<L, SLOTS, A>,
    line: &[u8],
    number: u64,
    word: &mut Vec<u8, A>,
) -> Result<Option<LineFault>, StoreError>
    ensures ok { OnOk result (trie.new.state ≡ line_stored trie.old.state number line.now) }
    ensures told { IfOk result (λ told. told ≡ line_told trie.old.state number line.now) }
    ensures err { OnErr result (trie.new.state ≡ trie.old.state) }
    ensures limit { result ≡ Err StoreError.SlotLimit → trie.new.size ≡ SLOTS }
{
    if line.is_empty() {
        return Ok(None);
    }
    let (text, figures) = split_line(line);
    let Some(value) = value_of(figures, number) else {
        return Ok(Some(LineFault::Number));
    };
    read_word(text, word)?;
    store_word(trie, word, value)
}

/// Stores a word with its number, and says what is wrong with them.
fn store_word<L: Layout, const SLOTS: usize, A: Allocator + Copy>(
    trie: &mut Trie<L, SLOTS, A>,
    word: &[u8],
    value: i32,
) -> Result<Option<LineFault>, StoreError>
    ensures ok { OnOk result (trie.new.state ≡ stored_by (fault word.now value) trie.old.state word.now value) }
    ensures told { IfOk result (λ told. told ≡ told_by (fault word.now value) (is_some (number_at trie.old.state.tree word.now))) }
    ensures err { OnErr result (trie.new.state ≡ trie.old.state) }
    ensures limit { result ≡ Err StoreError.SlotLimit → trie.new.size ≡ SLOTS }
{
    match trie.insert_bytes(word, value) {
        Ok(held) => Ok(repeat_fault(held)),
        Err(error) => refusal(error),
    }
}

/// What is reported of a word that held a number before, or none.
fn repeat_fault(held: Option<i32>) -> Option<LineFault>
    ensures { result ≡ told_by None (is_some held) }
{
    match held {
        Some(_) => Some(LineFault::Repeated),
        None => None,
    }
}

/// What a refused entry says of its line, or of the dictionary.
fn refusal(error: CedarError) -> Result<Option<LineFault>, StoreError>
    ensures { result ≡ line_refusal error }
{
    match error {
        CedarError::EmptyKey => Ok(Some(LineFault::EmptyWord)),
        CedarError::NulByte { .. } => Ok(Some(LineFault::NulByte)),
        CedarError::InvalidValue { .. } => Ok(Some(LineFault::Number)),
        other => Err(store_error(other)),
    }
}

/// What a refused update says of the dictionary, if its key and its value have no fault.
pub(crate) fn store_error(error: CedarError) -> StoreError
    ensures { result ≡ want_of error }
{
    match error {
        CedarError::SlotLimit => StoreError::SlotLimit,
        _ => StoreError::Memory,
    }
}

/// Takes the word of each line of what a reader has left out of a dictionary, one after another. A line is a word, or a word, a tab and
/// what doesn't count. Empty lines are passed over. Memory holds one line and its word. Returns how many lines had a word that wasn't
/// held.
///
/// # Errors
/// `Read` if the reader failed, `Memory` if an allocation was refused. Then the words of the lines before are taken out.
pub fn erase_lines<L: Layout, const SLOTS: usize, A: Allocator + Copy, R: BufRead>(
    alloc: A,
    trie: &mut Trie<L, SLOTS, A>,
    reader: &mut R,
) -> Result<u64, StoreError>
    //= An erasure of lines that returns `Ok` removed the word of each line of what the reader had left, and no other, if that is known and
    //  is fewer than 2^63 bytes. [by lines_erased, line_erased]
    ensures ok { OnOk result (OnKnown (R.remaining reader.old) (λ input. trie.new.state ≡ lines_erased trie.old.state (lines_in input))) }

    //= It returns how many lines have a word that wasn't held once those of the lines before were removed. [by lines_absent]
    ensures absent { IfOk result (λ absent. OnKnown (R.remaining reader.old) (λ input. absent ≡ lines_absent trie.old.state (lines_in input))) }

    //= If it fails, the words of the first lines are removed, and no other. It never fails with `SlotLimit`. [with no_slots]
    ensures err { OnErr result (ErasesFirstLines (R.remaining reader.old) trie.old.state trie.new.state) }
    ensures no_slots { IfErr result (λ e. e ≡ StoreError.SlotLimit → ⊥) }
{
    let mut line = Vec::new(alloc);
    let mut word = Vec::new(alloc);
    let mut absent = 0;
    for turn in 0..u64::MAX {
        let more = next_line(reader, &mut line)?;
        if !more {
            return Ok(absent);
        }
        let missing = erase_line(trie, body(&line), &mut word)?;
        absent += missing;
    }
    Ok(absent)
}

/// Takes the word of a line out of a dictionary, and returns how many words weren't held: none or one. An empty line has none.
fn erase_line<L: Layout, const SLOTS: usize, A: Allocator + Copy>(
    trie: &mut Trie<L, SLOTS, A>,
    line: &[u8],
    word: &mut Vec<u8, A>,
) -> Result<u64, AllocError>
    ensures ok { OnOk result (trie.new.state ≡ line_erased trie.old.state line.now) }
    ensures absent { IfOk result (λ absent. absent ≡ line_absent trie.old.state line.now) }
    ensures one { IfOk result (λ absent. absent ≤ 1) }
    ensures err { OnErr result (trie.new.state ≡ trie.old.state) }
{
    if line.is_empty() {
        return Ok(0);
    }
    read_word(split_line(line).0, word)?;
    Ok(absent_of(trie.erase_bytes(word)))
}

/// How many words weren't held, if it is known whether one was.
fn absent_of(held: bool) -> u64
    ensures absent { result ≡ absent_of held }
    ensures one { result ≤ 1 }
{
    if held { 0 } else { 1 }
}

/// What is before the first tab of a line, and what is after it; the whole line, and None, if there is none.
pub(crate) fn split_line(line: &[u8]) -> (&[u8], Option<&[u8]>)
    ensures word { result.0.now ≡ before_first is_tab line.now }
    ensures figures { option_map (λ text. text.now) result.1 ≡ figures_of line.now }
{
    match tab_in(line) {
        Some(at) => (&line[..at], Some(&line[at + 1..])),
        None => (line, None),
    }
}

/// Where the first tab is.
fn tab_in(line: &[u8]) -> Option<usize>
    ensures first { result ≡ position is_tab line.now }
    ensures within { IfSome result (λ at. at < length line.now) }
{
    position_of(b'\t', line)
}

/// The number of a line's word: the one that is written, or else the line's own.
pub(crate) fn value_of(figures: Option<&[u8]>, number: u64) -> Option<i32>
    ensures { result ≡ number_with number (option_map (λ text. text.now) figures.entry) }
{
    match figures {
        Some(figures) => parse_number(figures),
        None => own_number(number),
    }
}

/// The number of a line that has none, if it is one of 32 bits.
fn own_number(number: u64) -> Option<i32>
    ensures { result ≡ own_line_number number }
{
    i32::try_from(number).ok()
}
