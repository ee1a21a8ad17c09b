//! What is done for each command, and the status that it ends with.

use crate::build::build;
use crate::changes::change;
use crate::costs::costs_for;
use crate::dictionary::{load, open};
use crate::differences::diff;
use crate::fault::{Fault, is_closed, tell};
use crate::input::Source;
use crate::meter::{Meter, Progress};
use crate::queries::answer;
use crate::recover::recover;
use crate::replace::replace;
use crate::request::{Asked, Dictionary, Query, Reading, Request, Terminals, tells_progress};
use crate::texts::read_text;
use cedar_disk::LockFile;
use cedarwood::Watched;
use either_layout::on_layout;
use std::alloc::Global;
use std::io::{Read, Write};
use std::rt::Files;
use std::time::Clock;

/// The status of a run that did all that the arguments say.
pub(crate) const DONE: u8 = 0;

/// The status if nothing was found.
pub(crate) const NOT_FOUND: u8 = 1;

/// The status if the arguments are wrong.
pub(crate) const USAGE: u8 = 2;

/// The status if a file can't be read or written, or memory or slots ran out.
pub(crate) const FILES: u8 = 3;

/// The status if another program has the store open that was to be changed.
pub(crate) const LOCKED: u8 = 4;

/// Does what the arguments say, and returns the status to end with. A closed pipe ends it without a word.
pub(crate) fn run<F: Files + Clock + Copy + Drop, R: Read + Drop, W: Write, E: Write + Drop>(
    alloc: Global,
    files: &F,
    asked: Asked<'_>,
    input: R,
    writer: &mut Watched<W>,
    errors: &mut Watched<E>,
    progress: E,
    terminals: Terminals,
) -> u8
where
    F::File: LockFile,
{
    let is_told = tells_progress(asked, terminals);
    let meter = Progress::new(files, progress, is_told, terminals.errors);
    let source = Source {
        standard: input,
        meter,
    };
    end_request(alloc, files, asked.request, source, writer, errors)
}

/// Does what the arguments say, and returns the status to end with.
fn end_request<F: Files + Copy + Drop, R: Read + Drop, M: Meter + Drop, W: Write, E: Write>(
    alloc: Global,
    files: &F,
    request: Request<'_>,
    source: Source<R, M>,
    writer: &mut Watched<W>,
    errors: &mut Watched<E>,
) -> u8
where
    F::File: LockFile,
{
    match answer_request(alloc, files, request, source, writer, errors) {
        Ok(true) => DONE,
        Ok(false) => NOT_FOUND,
        Err(Fault::Write) if is_closed(writer) => DONE,
        Err(fault) => {
            let _ = writer.flush();
            let status = status_of(&fault);
            tell(errors, fault);
            status
        }
    }
}

/// The status that a fault ends with.
fn status_of(fault: &Fault<'_>) -> u8 {
    match fault {
        Fault::Locked(_) => LOCKED,
        Fault::Unknown(_) => USAGE,
        _ => FILES,
    }
}

/// Does what the arguments say, and flushes what was written. Returns false if nothing was found.
fn answer_request<'m, F: Files + Copy + Drop, R: Read + Drop, M: Meter + Drop, W: Write, E: Write>(
    alloc: Global,
    files: &F,
    request: Request<'m>,
    source: Source<R, M>,
    writer: &mut Watched<W>,
    errors: &mut Watched<E>,
) -> Result<bool, Fault<'m>>
where
    F::File: LockFile,
{
    let found = do_request(alloc, files, request, source, writer, errors)?;
    match writer.flush() {
        Ok(()) => Ok(found),
        Err(_) => Err(Fault::Write),
    }
}

/// Does what the arguments say. Returns false if nothing was found.
fn do_request<'m, F: Files + Copy + Drop, R: Read + Drop, M: Meter + Drop, W: Write, E: Write>(
    alloc: Global,
    files: &F,
    request: Request<'m>,
    source: Source<R, M>,
    writer: &mut Watched<W>,
    errors: &mut Watched<E>,
) -> Result<bool, Fault<'m>>
where
    F::File: LockFile,
{
    match request {
        Request::Build(asked) => true_if_done(build(alloc, files, asked, source, errors)),
        Request::Query(dictionary, query) => ask(alloc, files, dictionary, query, writer),
        Request::Text(dictionary, reading) => {
            read(alloc, files, dictionary, reading, source, writer)
        }
        Request::Change(dictionary, asked) => {
            change(alloc, files, dictionary, asked, source, errors)
        }
        Request::Diff(first, second) => diff(alloc, files, first, second, writer),
        Request::Replace(asked) => true_if_done(replace(
            alloc, files, asked, source, writer, errors,
        )),
        Request::Recover(asked) => true_if_done(recover(alloc, files, asked, writer, errors)),
    }
}

/// The result of a command that looks for nothing.
pub(crate) fn true_if_done<'m>(done: Result<(), Fault<'m>>) -> Result<bool, Fault<'m>> {
    match done {
        Ok(()) => Ok(true),
        Err(fault) => Err(fault),
    }
}

/// Runs a query on a dictionary's file.
fn ask<'m, F: Files, W: Write>(
    alloc: Global,
    files: &F,
    dictionary: Dictionary<'m>,
    query: Query<'m>,
    writer: &mut Watched<W>,
) -> Result<bool, Fault<'m>> {
    let (reader, kind) = open(alloc, files, dictionary.path)?;
    let any = load(alloc, dictionary, reader, kind)?;
    on_layout!(any, trie => answer(alloc, &trie, dictionary, kind, query, writer))
}

/// Reads a text by a dictionary's file.
fn read<'m, F: Files, R: Read + Drop, M: Meter + Drop, W: Write>(
    alloc: Global,
    files: &F,
    dictionary: Dictionary<'m>,
    reading: Reading<'m>,
    source: Source<R, M>,
    writer: &mut Watched<W>,
) -> Result<bool, Fault<'m>> {
    let costs = costs_for(alloc, files, reading)?;
    let (reader, kind) = open(alloc, files, dictionary.path)?;
    let mut text = crate::input::open(alloc, files, reading.text, source)?;
    let any = load(alloc, dictionary, reader, kind)?;
    on_layout!(any, trie => read_text(alloc, &trie, reading, &costs, &mut text, writer))
}
