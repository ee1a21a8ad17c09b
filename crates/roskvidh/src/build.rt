//! A dictionary made of a word list.

use crate::dictionary::SLOTS;
use crate::fault::{Fault, name_of, store_fault};
use crate::input::{Source, open, read_all};
use crate::meter::Meter;
use crate::request::{Build, List};
use cedarwood::{CedarBuilder, DefaultLayout, Layout, ReducedLayout, Trie, Watched};
use std::alloc::Global;
use std::io::{BufRead, Read, Write};
use std::rt::Files;
use word_lists::{LineFault, LineFaults, sorted_list, store_lines};

/// Reports lines on standard error, and counts them.
#[derive(Drop)]
struct Teller<'a, E> {
    errors: &'a mut Watched<E>,
    /// The name of the list.
    name: &'a str,
    /// How many lines were reported.
    told: u64,
}

impl<'a, E: Write> LineFaults for Teller<'a, E> {
    fn tell(&mut self, number: u64, line: &[u8], fault: LineFault) {
        tell_line(self.errors, self.name, number, line, words_for(fault));
        self.told = self.told.saturating_add(1);
    }
}

/// Reports a line of a list with this name, and what it is.
pub(crate) fn tell_line<E: Write>(
    errors: &mut Watched<E>,
    name: &str,
    number: u64,
    line: &[u8],
    why: &str,
) {
    let _ = write!(errors, "roskvidh: {name}:{number}: {why}: ");
    let _ = errors.write_all(line);
    let _ = errors.write_all(b"\n");
}

/// What is reported of a line.
fn words_for(fault: LineFault) -> &'static str {
    match fault {
        LineFault::EmptyWord => "no word, passed over",
        LineFault::NulByte => "a word with a byte 0, passed over",
        LineFault::Number => "no number from 0 to 2147483645, passed over",
        LineFault::Repeated => "a word that an earlier line has, whose number this one replaces",
    }
}

/// Stores the entries of a word list, and reports its lines that are no entries of their own.
pub(crate) fn store_list<'m, L: Layout, R: BufRead, E: Write>(
    alloc: Global,
    trie: &mut Trie<L, SLOTS, Global>,
    list: List<'m>,
    reader: &mut R,
    errors: &mut Watched<E>,
) -> Result<(), Fault<'m>> {
    let name = name_of(list.path);
    let mut teller = Teller {
        errors,
        name,
        told: 0,
    };
    if let Err(error) = store_lines(alloc, trie, reader, &mut teller) {
        return Err(store_fault(list.path, error));
    }
    if list.strict && 0 < teller.told {
        return Err(Fault::Strict(list.path));
    }
    Ok(())
}

/// Makes a dictionary of a word list, and saves it.
pub(crate) fn build<'m, F: Files, R: Read + Drop, M: Meter + Drop, E: Write>(
    alloc: Global,
    files: &F,
    asked: Build<'m>,
    source: Source<R, M>,
    errors: &mut Watched<E>,
) -> Result<(), Fault<'m>> {
    let mut list = open(alloc, files, asked.list.path, source)?;
    if asked.reduced {
        build_of::<ReducedLayout, _, _, _>(alloc, files, asked, &mut list, errors)
    } else {
        build_of::<DefaultLayout, _, _, _>(alloc, files, asked, &mut list, errors)
    }
}

/// Makes a dictionary of this layout.
fn build_of<'m, L: Layout, F: Files, R: BufRead, E: Write>(
    alloc: Global,
    files: &F,
    asked: Build<'m>,
    list: &mut R,
    errors: &mut Watched<E>,
) -> Result<(), Fault<'m>> {
    let bytes = read_all(alloc, asked.list.path, list)?;
    let trie = trie_of::<L, E>(alloc, asked, &bytes, errors)?;
    match trie.save_to_path_noted(files, asked.output) {
        Ok(_) => Ok(()),
        Err(failed) => Err(Fault::Save(asked.output, failed.error)),
    }
}

/// A dictionary of a word list. One whose words ascend, and have no fault, is made at once.
fn trie_of<'m, L: Layout, E: Write>(
    alloc: Global,
    asked: Build<'m>,
    list: &[u8],
    errors: &mut Watched<E>,
) -> Result<Trie<L, SLOTS, Global>, Fault<'m>> {
    let ordered = !asked.unordered;
    if ordered {
        match sorted_list(alloc, list) {
            Ok(Some(trie)) => return Ok(trie),
            Ok(None) => {}
            Err(error) => return Err(store_fault(asked.list.path, error)),
        }
    }
    let mut trie = empty::<L>(alloc, ordered)?;
    let mut rest = list;
    store_list(alloc, &mut trie, asked.list, &mut rest, errors)?;
    Ok(trie)
}

/// An empty dictionary of this layout.
pub(crate) fn empty<'m, L: Layout>(
    alloc: Global,
    ordered: bool,
) -> Result<Trie<L, SLOTS, Global>, Fault<'m>> {
    match Trie::with(alloc, CedarBuilder::new().ordered(ordered)) {
        Ok(trie) => Ok(trie),
        Err(_) => Err(Fault::Memory),
    }
}
