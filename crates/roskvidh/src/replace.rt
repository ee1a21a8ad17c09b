//! Texts with words replaced by others, which a list of two columns names.

use crate::build::{empty, tell_line};
use crate::dictionary::SLOTS;
use crate::fault::Fault;
use crate::input::{Source, open, read_file};
use crate::meter::Meter;
use crate::request::Replace;
use crate::texts::next_line;
use cedarwood::{CedarError, DefaultLayout, Trie, Watched};
use memchr::memchr;
use std::alloc::{AllocError, Global};
use std::io::{BufRead, Read, Write};
use std::rt::Files;
use word_lists::{list_lines, read_word, write_replaced};

/// What is in the second column of each line, one text after another.
#[derive(Drop)]
struct Texts {
    bytes: Vec<u8>,
    /// Where each one ends.
    ends: Vec<usize>,
}

impl Texts {
    /// One text more.
    fn push(&mut self, text: &[u8]) -> Result<(), AllocError> {
        self.bytes.extend_from_slice(text)?;
        self.ends.push(self.bytes.len())?;
        Ok(())
    }

    /// The texts, each by itself.
    fn list(&self, alloc: Global) -> Result<Vec<&[u8]>, AllocError> {
        let mut texts = Vec::new(alloc);
        let mut start = 0;
        for end in &self.ends {
            texts.push(self.bytes.get(start..*end).unwrap_or(&[]))?;
            start = *end;
        }
        Ok(texts)
    }
}

/// Writes a text with the words of a list replaced by what is after them in its lines.
pub(crate) fn replace<'m, F: Files, R: Read + Drop, M: Meter + Drop, W: Write, E: Write>(
    alloc: Global,
    files: &F,
    asked: Replace<'m>,
    source: Source<R, M>,
    writer: &mut Watched<W>,
    errors: &mut Watched<E>,
) -> Result<(), Fault<'m>> {
    let list = read_file(alloc, files, asked.list)?;
    let mut words = empty::<DefaultLayout>(alloc, true)?;
    let texts = store_words(alloc, &mut words, asked, &list, errors)?;
    replace_text(alloc, files, &words, &texts, asked.text, source, writer)
}

/// Writes the text of a path, or of standard input, with its words replaced.
fn replace_text<'m, F: Files, R: Read + Drop, M: Meter + Drop, W: Write>(
    alloc: Global,
    files: &F,
    words: &Trie<DefaultLayout, SLOTS, Global>,
    texts: &Texts,
    path: Option<&'m str>,
    source: Source<R, M>,
    writer: &mut Watched<W>,
) -> Result<(), Fault<'m>> {
    let texts = texts.list(alloc)?;
    let mut reader = open(alloc, files, path, source)?;
    replace_lines(alloc, words, &texts, path, &mut reader, writer)
}

/// Writes each line of a text with its words replaced.
fn replace_lines<'m, R: BufRead, W: Write>(
    alloc: Global,
    words: &Trie<DefaultLayout, SLOTS, Global>,
    texts: &[&[u8]],
    path: Option<&'m str>,
    reader: &mut R,
    writer: &mut Watched<W>,
) -> Result<(), Fault<'m>> {
    let mut line = Vec::new(alloc);
    for _ in 0..u64::MAX {
        if !next_line(reader, path, &mut line)? {
            break;
        }
        write_replaced(writer, words, &line, texts)?;
    }
    Ok(())
}

/// Stores the word of each line of a list, with the number of the line, and reports lines that have none to store. What they are replaced
/// by has the same numbers.
fn store_words<'m, E: Write>(
    alloc: Global,
    words: &mut Trie<DefaultLayout, SLOTS, Global>,
    asked: Replace<'m>,
    list: &[u8],
    errors: &mut Watched<E>,
) -> Result<Texts, Fault<'m>> {
    let lines = list_lines(alloc, list)?;
    let mut texts = Texts {
        bytes: Vec::new(alloc),
        ends: Vec::new(alloc),
    };
    let is_told = store_each(alloc, words, asked.list, &lines, &mut texts, errors)?;
    if asked.strict && is_told {
        return Err(Fault::Strict(Some(asked.list)));
    }
    Ok(texts)
}

/// The same for the lines of a list, one by one. Returns whether a line was reported.
fn store_each<'m, E: Write>(
    alloc: Global,
    words: &mut Trie<DefaultLayout, SLOTS, Global>,
    name: &str,
    lines: &[&[u8]],
    texts: &mut Texts,
    errors: &mut Watched<E>,
) -> Result<bool, Fault<'m>> {
    let mut word = Vec::new(alloc);
    let mut number = 0u64;
    let mut is_told = false;
    for line in lines {
        number = number.saturating_add(1);
        if let Some(why) = store_word(words, line, number, &mut word, texts)? {
            tell_line(errors, name, number, line, why);
            is_told = true;
        }
    }
    Ok(is_told)
}

/// Stores the word of a line with this number, and what it is replaced by, and returns what is wrong with the line. An empty one has
/// neither.
fn store_word<'m>(
    words: &mut Trie<DefaultLayout, SLOTS, Global>,
    line: &[u8],
    number: u64,
    word: &mut Vec<u8>,
    texts: &mut Texts,
) -> Result<Option<&'static str>, Fault<'m>> {
    let Some(at) = memchr(b'\t', line) else {
        texts.push(&[])?;
        return Ok(if line.is_empty() {
            None
        } else {
            Some("no tab, passed over")
        });
    };
    push_text(line, at, word, texts)?;
    read_word(line.get(..at).unwrap_or(&[]), word)?;
    let Ok(value) = i32::try_from(number) else {
        return Err(Fault::SlotLimit);
    };
    insert(words, word, value)
}

/// One text more: that behind the tab of a line.
fn push_text<'m>(
    line: &[u8],
    at: usize,
    word: &mut Vec<u8>,
    texts: &mut Texts,
) -> Result<(), Fault<'m>> {
    read_word(line.get(at..).unwrap_or(&[]).get(1..).unwrap_or(&[]), word)?;
    Ok(texts.push(word)?)
}

/// Stores a word, and returns what is wrong with it.
fn insert<'m>(
    words: &mut Trie<DefaultLayout, SLOTS, Global>,
    word: &[u8],
    value: i32,
) -> Result<Option<&'static str>, Fault<'m>> {
    match words.insert_bytes(word, value) {
        Ok(None) => Ok(None),
        Ok(Some(_)) => Ok(Some("a word that an earlier line has, whose text this one replaces")),
        Err(CedarError::EmptyKey) => Ok(Some("no word, passed over")),
        Err(CedarError::NulByte { .. }) => Ok(Some("a word with a byte 0, passed over")),
        Err(CedarError::Memory) => Err(Fault::Memory),
        Err(_) => Err(Fault::SlotLimit),
    }
}
