//! A dictionary's file of either layout, and a store's.

use crate::fault::Fault;
use crate::input::read_all;
use crate::request::Dictionary;
use cedar_journal::{PLAIN_HEADER, SUMMED_HEADER};
use cedar_store::read_store;
use cedarwood::{Cedar, CedarPersistenceError, MOST_SLOTS, Source, Watched};
use either_layout::{AnyCedar, names_reduced};
use std::alloc::Global;
use std::fs::File;
use std::io::{BufReader, Chain, Cursor, Read, Take};
use std::rt::Files;

/// How many slots a dictionary may have.
pub(crate) const SLOTS: usize = MOST_SLOTS;

/// How many bytes tell what a file is: byte 13 of a dictionary is that of its layout, and a store's header has 13 bytes.
const HEAD_LEN: usize = 14;

/// Reads a file: its first bytes once more, which were read to learn what it is, and then the others.
pub(crate) type FileReader<F> = Chain<Take<Cursor<[u8; HEAD_LEN]>>, BufReader<F>>;

/// What a dictionary's file is.
#[derive(Clone, Copy, PartialEq, Eq)]
pub(crate) enum Kind {
    /// A dictionary of the default layout, as it was saved.
    Default,
    /// One of the reduced layout.
    Reduced,
    /// A store: the changes that make a dictionary, one after another.
    Store,
}

/// Opens a dictionary's file, and returns what it is. The first bytes may come in any pieces, as a pipe gives them.
pub(crate) fn open<'m, F: Files>(
    alloc: Global,
    files: &F,
    path: &'m str,
) -> Result<(FileReader<F::File>, Kind), Fault<'m>> {
    let file = match File::open(files, path) {
        Ok(file) => file,
        Err(error) => return Err(Fault::Load(path, CedarPersistenceError::Io(error))),
    };
    let Ok(buffered) = BufReader::new(alloc, file) else {
        return Err(Fault::Memory);
    };
    let mut reader = Watched::new(buffered);
    let mut head = [0; HEAD_LEN];
    let (count, fault) = reader.read_available(&mut head);
    let kind = kind_of(&head[..count]);
    if let Some(error) = fault {
        return Err(Fault::Load(path, CedarPersistenceError::Io(error)));
    }
    let begun = Cursor::new(head).take(count as u64);
    Ok((begun.chain(reader.into_inner()), kind))
}

/// What a file is that begins with these bytes.
fn kind_of(head: &[u8]) -> Kind {
    if head.starts_with(&SUMMED_HEADER) || head.starts_with(&PLAIN_HEADER) {
        Kind::Store
    } else if names_reduced(head) {
        Kind::Reduced
    } else {
        Kind::Default
    }
}

/// Loads a dictionary of this kind.
pub(crate) fn load<'m, R: Read + Drop>(
    alloc: Global,
    dictionary: Dictionary<'m>,
    reader: R,
    kind: Kind,
) -> Result<AnyCedar, Fault<'m>> {
    if kind == Kind::Store {
        return Ok(AnyCedar::Default(load_store(alloc, dictionary.path, reader)?));
    }
    let mut source = Watched::new(reader);
    let is_reduced = kind == Kind::Reduced;
    match AnyCedar::load_as(alloc, is_reduced, &mut source, dictionary.limit) {
        Ok(any) => Ok(any),
        Err(error) => Err(Fault::Load(dictionary.path, error)),
    }
}

/// Makes the dictionary that a store's file represents. The file isn't locked and doesn't change, so another program may change it
/// meanwhile.
fn load_store<'m, R: Read + Drop>(
    alloc: Global,
    path: &'m str,
    reader: R,
) -> Result<Cedar<Global>, Fault<'m>> {
    let mut changes = reader;
    let bytes = read_all(alloc, Some(path), &mut changes)?;
    match read_store(alloc, &bytes) {
        Ok(trie) => Ok(trie),
        Err(error) => Err(Fault::Store(path, error)),
    }
}
