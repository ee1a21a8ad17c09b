//! Texts that are cut and scanned, line by line.

use crate::costs::{Costs, Unknown};
use crate::dictionary::SLOTS;
use crate::fault::Fault;
use crate::request::{Reading, Task};
use cedar_words::{CostTable, KeyCosts, OneCharacter, OneClass, Priced, Scripts, ValueIsCost};
use cedarwood::{Layout, Trie, Watched};
use std::alloc::Global;
use std::io::{BufRead, Write};
use word_lists::{
    ListError, read_word, write_cheapest_cut, write_cut, write_cut_by, write_keywords,
    write_marked, write_matches,
};

/// How many characters a run of one class has at most.
const LONGEST_RUN: usize = 24;

/// Reads a text, and writes it cut, or the words that occur in it. Returns false if there was none to find.
pub(crate) fn read_text<'m, L: Layout, R: BufRead, W: Write>(
    alloc: Global,
    trie: &Trie<L, SLOTS, Global>,
    reading: Reading<'m>,
    costs: &Costs,
    text: &mut R,
    writer: &mut Watched<W>,
) -> Result<bool, Fault<'m>> {
    let mut sign = Vec::new(alloc);
    read_word(sign_of(reading.task).as_bytes(), &mut sign)?;
    let mut line = Vec::new(alloc);
    // A cut finds nothing, and a scan of no line doesn't either.
    let mut found = is_cut(reading.task);
    for number in 1..u64::MAX {
        if !next_line(text, reading.text, &mut line)? {
            break;
        }
        found = answer_line(
            alloc,
            trie,
            reading.task,
            costs,
            &line,
            number,
            &sign,
            writer,
        )? || found;
    }
    Ok(found)
}

/// Reads the next line, with its byte 10, into the buffer instead of what that held. Returns false if there is none.
pub(crate) fn next_line<'m, R: BufRead>(
    text: &mut R,
    path: Option<&'m str>,
    line: &mut Vec<u8>,
) -> Result<bool, Fault<'m>> {
    line.clear();
    match text.read_until(b'\n', line) {
        Ok(count) => Ok(0 < count),
        Err(error) => Err(Fault::Read(path, error)),
    }
}

/// Writes the result of the task for a line. Returns false if no word was found in it.
fn answer_line<L: Layout, W: Write>(
    alloc: Global,
    trie: &Trie<L, SLOTS, Global>,
    task: Task<'_>,
    costs: &Costs,
    line: &[u8],
    number: u64,
    sign: &[u8],
    writer: &mut Watched<W>,
) -> Result<bool, ListError> {
    match task {
        Task::Cut(_) => write_cut(writer, trie, line, sign)?,
        Task::CutByCost(_, _) => cut_by_cost(alloc, writer, trie, line, costs, sign)?,
        Task::ScanMarked => return write_marked(writer, trie, line),
        Task::Scan => return write_matches(writer, trie, line, number),
        Task::ScanLongest => return write_keywords(writer, trie, line, number),
    }
    Ok(true)
}

/// Writes a line cut at least cost.
fn cut_by_cost<L: Layout, W: Write>(
    alloc: Global,
    writer: &mut Watched<W>,
    trie: &Trie<L, SLOTS, Global>,
    line: &[u8],
    costs: &Costs,
    sign: &[u8],
) -> Result<(), ListError> {
    let Some(words) = &costs.words else {
        return cut_by_numbers(alloc, writer, trie, line, costs.unknown, sign);
    };
    let keys = CostTable {
        costs: words.as_slice(),
        beyond: u32::MAX,
    };
    cut_by_model(alloc, writer, trie, line, keys, costs.unknown, sign)
}

/// Writes a line cut at least cost, where words cost their numbers.
fn cut_by_numbers<L: Layout, W: Write>(
    alloc: Global,
    writer: &mut Watched<W>,
    trie: &Trie<L, SLOTS, Global>,
    line: &[u8],
    unknown: Unknown,
    sign: &[u8],
) -> Result<(), ListError> {
    match unknown {
        Unknown::Character(cost) => write_cheapest_cut(alloc, writer, trie, line, cost, sign),
        Unknown::Run(_) => {
            let keys = ValueIsCost {};
            cut_by_model(alloc, writer, trie, line, keys, unknown, sign)
        }
    }
}

/// Writes a line by its best cut, where words and other text cost this much.
fn cut_by_model<L: Layout, K: KeyCosts + Copy, W: Write>(
    alloc: Global,
    writer: &mut Watched<W>,
    trie: &Trie<L, SLOTS, Global>,
    line: &[u8],
    keys: K,
    unknown: Unknown,
    sign: &[u8],
) -> Result<(), ListError> {
    match unknown {
        Unknown::Character(cost) => {
            let unknown = OneCharacter { cost };
            write_cut_by(alloc, writer, trie, line, &Priced { keys, unknown }, sign)
        }
        Unknown::Run(cost) => {
            let unknown = OneClass {
                classes: Scripts {},
                cost,
                most: LONGEST_RUN,
            };
            write_cut_by(alloc, writer, trie, line, &Priced { keys, unknown }, sign)
        }
    }
}

/// Whether a text is to be cut.
fn is_cut(task: Task<'_>) -> bool {
    match task {
        Task::Cut(_) | Task::CutByCost(_, _) => true,
        Task::Scan | Task::ScanLongest | Task::ScanMarked => false,
    }
}

/// The sign between words, as the arguments have it.
fn sign_of<'m>(task: Task<'m>) -> &'m str {
    match task {
        Task::Cut(sign) | Task::CutByCost(_, sign) => sign,
        Task::Scan | Task::ScanLongest | Task::ScanMarked => "",
    }
}
