//! Dictionaries that are changed: a list's entries stored, its words removed, another dictionary's entries stored, or only the file's
//! format and layout.

use crate::build::{empty, store_list};
use crate::dictionary::{Kind, SLOTS, load, open};
use crate::durable::change_store;
use crate::fault::{Fault, store_fault};
use crate::input;
use crate::input::Source;
use crate::meter::Meter;
use crate::request::{Change, Dictionary, How, List};
use crate::run::true_if_done;
use cedar_disk::LockFile;
use cedarwood::{DefaultLayout, Layout, ReducedLayout, Trie, Watched};
use either_layout::on_layout;
use std::alloc::Global;
use std::io::{Read, Write};
use std::rt::Files;
use word_lists::{erase_lines, store_entries};

/// Changes a dictionary, and saves it. Returns false if a word to remove wasn't held.
pub(crate) fn change<'m, F: Files + Copy + Drop, R: Read + Drop, M: Meter + Drop, E: Write>(
    alloc: Global,
    files: &F,
    dictionary: Dictionary<'m>,
    asked: Change<'m>,
    source: Source<R, M>,
    errors: &mut Watched<E>,
) -> Result<bool, Fault<'m>>
where
    F::File: LockFile,
{
    if asked.is_store {
        return change_store(alloc, files, dictionary.path, asked.how, source, errors);
    }
    let (reader, kind) = open(alloc, files, dictionary.path)?;
    if kind == Kind::Store && is_in_place(asked.how) {
        return change_store(alloc, files, dictionary.path, asked.how, source, errors);
    }
    let any = load(alloc, dictionary, reader, kind)?;
    let is_reduced = any.is_reduced();
    on_layout!(any, trie => change_loaded(alloc, files, trie, is_reduced, asked, source, errors))
}

/// Whether a change is saved in the dictionary's own file.
fn is_in_place(how: How<'_>) -> bool {
    match how {
        How::Add(_) | How::Remove(_) => true,
        How::Merge(_) | How::Convert(_) => false,
    }
}

/// Changes a dictionary that is loaded, which is of the reduced layout or not, and saves it.
fn change_loaded<'m, L: Layout, F: Files, R: Read + Drop, M: Meter + Drop, E: Write>(
    alloc: Global,
    files: &F,
    mut trie: Trie<L, SLOTS, Global>,
    reduced: bool,
    asked: Change<'m>,
    source: Source<R, M>,
    errors: &mut Watched<E>,
) -> Result<bool, Fault<'m>> {
    match asked.how {
        How::Convert(Some(wanted)) if wanted != reduced => {
            return convert(alloc, files, &trie, wanted, asked);
        }
        _ => {}
    }
    let all = change_words(alloc, files, &mut trie, asked.how, source, errors)?;
    save(files, &trie, asked)?;
    Ok(all)
}

/// Makes a change in a dictionary, except that of its layout. Returns false if a word to remove wasn't held.
pub(crate) fn change_words<'m, L: Layout, F: Files, R: Read + Drop, M: Meter + Drop, E: Write>(
    alloc: Global,
    files: &F,
    trie: &mut Trie<L, SLOTS, Global>,
    how: How<'m>,
    source: Source<R, M>,
    errors: &mut Watched<E>,
) -> Result<bool, Fault<'m>> {
    match how {
        How::Add(list) => true_if_done(add(alloc, files, trie, list, source, errors)),
        How::Remove(path) => remove(alloc, files, trie, path, source),
        How::Merge(other) => true_if_done(merge(alloc, files, trie, other)),
        How::Convert(_) => Ok(true),
    }
}

/// Stores the entries of a list.
fn add<'m, L: Layout, F: Files, R: Read + Drop, M: Meter + Drop, E: Write>(
    alloc: Global,
    files: &F,
    trie: &mut Trie<L, SLOTS, Global>,
    list: List<'m>,
    source: Source<R, M>,
    errors: &mut Watched<E>,
) -> Result<(), Fault<'m>> {
    let mut reader = input::open(alloc, files, list.path, source)?;
    store_list(alloc, trie, list, &mut reader, errors)
}

/// Removes the words of a list from a dictionary, and returns whether all were held.
fn remove<'m, L: Layout, F: Files, R: Read + Drop, M: Meter + Drop>(
    alloc: Global,
    files: &F,
    trie: &mut Trie<L, SLOTS, Global>,
    path: Option<&'m str>,
    source: Source<R, M>,
) -> Result<bool, Fault<'m>> {
    let mut reader = input::open(alloc, files, path, source)?;
    match erase_lines(alloc, trie, &mut reader) {
        Ok(absent) => Ok(absent == 0),
        Err(error) => Err(store_fault(path, error)),
    }
}

/// Stores the entries of another dictionary.
fn merge<'m, L: Layout, F: Files>(
    alloc: Global,
    files: &F,
    trie: &mut Trie<L, SLOTS, Global>,
    other: Dictionary<'m>,
) -> Result<(), Fault<'m>> {
    let (reader, kind) = open(alloc, files, other.path)?;
    let any = load(alloc, other, reader, kind)?;
    on_layout!(any, more => store_all(alloc, trie, &more))
}

/// Stores all entries of a dictionary in another one.
fn store_all<'m, L: Layout, M: Layout>(
    alloc: Global,
    trie: &mut Trie<L, SLOTS, Global>,
    more: &Trie<M, SLOTS, Global>,
) -> Result<(), Fault<'m>> {
    let mut key = Vec::new(alloc);
    match store_entries(trie, more.entries_with_prefix_bytes(&[]), &mut key) {
        Ok(()) => Ok(()),
        Err(error) => Err(store_fault(None, error)),
    }
}

/// Saves a dictionary's entries in the other layout.
fn convert<'m, L: Layout, F: Files>(
    alloc: Global,
    files: &F,
    trie: &Trie<L, SLOTS, Global>,
    reduced: bool,
    asked: Change<'m>,
) -> Result<bool, Fault<'m>> {
    true_if_done(if reduced {
        convert_to::<ReducedLayout, L, F>(alloc, files, trie, asked)
    } else {
        convert_to::<DefaultLayout, L, F>(alloc, files, trie, asked)
    })
}

/// Saves a dictionary's entries in a layout.
fn convert_to<'m, M: Layout, L: Layout, F: Files>(
    alloc: Global,
    files: &F,
    trie: &Trie<L, SLOTS, Global>,
    asked: Change<'m>,
) -> Result<(), Fault<'m>> {
    let mut other = empty::<M>(alloc, trie.entries_from_bytes(&[]).is_some())?;
    store_all(alloc, &mut other, trie)?;
    save(files, &other, asked)
}

/// Saves a dictionary.
fn save<'m, L: Layout, F: Files>(
    files: &F,
    trie: &Trie<L, SLOTS, Global>,
    asked: Change<'m>,
) -> Result<(), Fault<'m>> {
    let saved = if asked.old_format {
        trie.save_v1_0_to_path_noted(files, asked.output)
    } else {
        trie.save_to_path_noted(files, asked.output)
    };
    match saved {
        Ok(_) => Ok(()),
        Err(failed) => Err(Fault::Save(asked.output, failed.error)),
    }
}
