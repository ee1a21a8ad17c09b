//! Stores that are changed: a list's entries stored, or its words removed, as one change, of which a crash leaves all or none.

ghost use Rattle.std.specs.Prelude.{IfErr, OnOk};
ghost use Rattle.roskvidh.specs.Words.{all_changed, changes_told, HasState, IfOk, IsBatchCause};
ghost use Rattle.roskvidh.specs.Words.{IsReady, IsReadyStore, IsTriedAnew, LeavesStore, Only};
ghost use Rattle.roskvidh.specs.Words.{state_of_words};

use crate::changes::change_words;
use crate::dictionary::SLOTS;
use crate::fault::Fault;
use crate::input::Source;
use crate::kept::keep_and_tell;
use crate::meter::Meter;
use crate::request::How;
use cedar_disk::{FileDevice, LockFile, OpenError};
use cedar_journal::ReplaceDevice;
use cedar_store::{CedarStore, Change, DurableError};
use cedarwood::{DefaultLayout, Trie, Watched};
use std::alloc::{AllocError, Global};
use std::io::{Read, Write};
use std::rt::Files;

/// The dictionary of a store.
type Words = Trie<DefaultLayout, SLOTS, Global>;

/// A word whose number a change sets, or None if it is removed.
#[derive(Drop)]
struct Changed {
    word: Vec<u8>,
    number: Option<i32>,
}

/// Makes a change in the store at a path, which is made if it is missing or empty. Returns false if a word to remove wasn't held.
pub(crate) fn change_store<'m, F: Files + Copy + Drop, R: Read + Drop, M: Meter + Drop, E: Write>(
    alloc: Global,
    files: &F,
    path: &'m str,
    how: How<'m>,
    source: Source<R, M>,
    errors: &mut Watched<E>,
) -> Result<bool, Fault<'m>>
where
    F::File: LockFile,
{
    match FileDevice::open(*files, alloc, path) {
        Ok(device) => change_on(alloc, files, device, path, how, source, errors),
        Err(OpenError::Memory) => Err(Fault::Memory),
        Err(OpenError::Locked) => Err(Fault::Locked(path)),
        Err(OpenError::Io(error)) => Err(Fault::Read(Some(path), error)),
    }
}

/// Makes a change in the store on a device: it is made in a copy of the dictionary, and what differs there is the change of the store.
fn change_on<
    'm,
    D: ReplaceDevice + Drop,
    F: Files + Copy + Drop,
    R: Read + Drop,
    M: Meter + Drop,
    E: Write,
>(
    alloc: Global,
    files: &F,
    device: D,
    path: &'m str,
    how: How<'m>,
    source: Source<R, M>,
    errors: &mut Watched<E>,
) -> Result<bool, Fault<'m>>
where
    F::File: LockFile,
    requires restarted { Only (D.seen device) (D.may_leave device) }
{
    let mut device = device;
    keep_and_tell(alloc, files, &mut device, path, errors)?;
    let mut store = open_store(alloc, device, path)?;
    let (changes, all) = changes_of(alloc, files, store.dictionary(), how, source, errors)?;
    let batch = batch_of(alloc, &changes)?;
    match apply(&mut store, &batch) {
        Ok(()) => Ok(all),
        Err(error) => Err(Fault::Store(path, error)),
    }
}

/// Makes some changes as one. If the device fails, all of the dictionary is written to a new file, since another run would read what the
/// system shows of the old one, and the disk needn't have that.
///
/// # Errors
/// As of `apply_batch`. `Device` if the device has failed, and so has the compaction, which the store reports; then the store has failed.
fn apply<D: ReplaceDevice + Drop>(
    store: &mut CedarStore<Global, D>,
    batch: &[Change<'_>],
) -> Result<(), DurableError>
    requires ready { IsReady D.seen D.may_leave store.old.journal.device store.old.journal.format store.old.journal.end (store.old.words.state) store.old.failed }
    ensures made { OnOk result (HasState state_of_words store.new (all_changed (store.old.words.state) (changes_told batch.now))) }
    ensures ready { OnOk result (IsReadyStore D.seen D.may_leave state_of_words store.new) }
    ensures tried { IfErr result (IsTriedAnew store.new) }
    ensures err { IfErr result (LeavesStore state_of_words store.old store.new (all_changed (store.old.words.state) (changes_told batch.now))) }
    ensures cause { IfErr result (IsBatchCause D.faults D.full store.old store.new (changes_told batch.now)) }
{
    match store.apply_batch(batch) {
        Err(DurableError::Device(error)) => match store.compact() {
            Ok(()) => Ok(()),
            Err(_) => Err(DurableError::Device(error)),
        },
        answer => answer,
    }
}

/// What a change would do in a dictionary, and whether a word to remove was held.
fn changes_of<'m, F: Files, R: Read + Drop, M: Meter + Drop, E: Write>(
    alloc: Global,
    files: &F,
    before: &Words,
    how: How<'m>,
    source: Source<R, M>,
    errors: &mut Watched<E>,
) -> Result<(Vec<Changed>, bool), Fault<'m>> {
    let mut words = before.clone()?;
    let all = change_words(alloc, files, &mut words, how, source, errors)?;
    Ok((changes_between(alloc, before, &words)?, all))
}

/// Opens the store on a device.
fn open_store<'m, D: ReplaceDevice + Drop>(
    alloc: Global,
    device: D,
    path: &'m str,
) -> Result<CedarStore<Global, D>, Fault<'m>>
    requires restarted { Only (D.seen device) (D.may_leave device) }
    ensures ready { IfOk result (λ store. IsReady D.seen D.may_leave store.journal.device store.journal.format store.journal.end (store.words.state) store.failed) }
{
    match CedarStore::open(alloc, device) {
        Ok(store) => Ok(store),
        Err((error, _)) => Err(Fault::Store(path, error)),
    }
}

/// What has to be changed in a dictionary so that it holds what another one does. What is removed comes last.
fn changes_between<'m>(
    alloc: Global,
    before: &Words,
    after: &Words,
) -> Result<Vec<Changed>, Fault<'m>> {
    let mut changes = Vec::new(alloc);
    note_stored(alloc, before, after, &mut changes)?;
    note_removed(alloc, before, after, &mut changes)?;
    Ok(changes)
}

/// Notes the entries that a dictionary doesn't have and another one has.
fn note_stored<'m>(
    alloc: Global,
    before: &Words,
    after: &Words,
    changes: &mut Vec<Changed>,
) -> Result<(), Fault<'m>> {
    let mut word = Vec::new(alloc);
    let mut entries = after.entries_with_prefix_bytes(&[]);
    for _ in 0..after.len() {
        match entries.next_into(&mut word) {
            Ok(Some(number)) => note_number(before, &word, number, changes)?,
            Ok(None) => break,
            Err(_) => return Err(Fault::Memory),
        }
    }
    Ok(())
}

/// Notes the words that a dictionary has and another one doesn't have.
fn note_removed<'m>(
    alloc: Global,
    before: &Words,
    after: &Words,
    changes: &mut Vec<Changed>,
) -> Result<(), Fault<'m>> {
    let mut word = Vec::new(alloc);
    let mut entries = before.entries_with_prefix_bytes(&[]);
    for _ in 0..before.len() {
        match entries.next_into(&mut word) {
            Ok(Some(_)) => note_absent(after, &word, changes)?,
            Ok(None) => break,
            Err(_) => return Err(Fault::Memory),
        }
    }
    Ok(())
}

/// Notes a word's number if a dictionary doesn't have it.
fn note_number(
    before: &Words,
    word: &Vec<u8>,
    number: i32,
    changes: &mut Vec<Changed>,
) -> Result<(), AllocError> {
    if before.get_bytes(word) != Some(number) {
        note(changes, word, Some(number))?;
    }
    Ok(())
}

/// Notes a word as removed if a dictionary doesn't have it.
fn note_absent(
    after: &Words,
    word: &Vec<u8>,
    changes: &mut Vec<Changed>,
) -> Result<(), AllocError> {
    if after.get_bytes(word).is_none() {
        note(changes, word, None)?;
    }
    Ok(())
}

/// Notes the change of a word.
fn note(changes: &mut Vec<Changed>, word: &Vec<u8>, number: Option<i32>) -> Result<(), AllocError> {
    changes.push(Changed {
        word: word.clone()?,
        number,
    })?;
    Ok(())
}

/// The changes, as a store takes them.
fn batch_of(alloc: Global, changes: &[Changed]) -> Result<Vec<Change<'_>>, AllocError> {
    let mut batch = Vec::new(alloc);
    for changed in changes {
        batch.push(change_of(changed))?;
    }
    Ok(batch)
}

/// A change, as a store takes it.
fn change_of(changed: &Changed) -> Change<'_> {
    let key = changed.word.as_slice();
    match changed.number {
        Some(value) => Change::Update { key, value },
        None => Change::Erase { key },
    }
}
