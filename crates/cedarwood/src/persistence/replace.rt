//! Saves by path: a new file takes the place of the one of its name once it is whole.

ghost use Rattle.std.specs.Prelude.{◌≡◌, [], IfErr, IfOk, MatchOption, OnOk};
ghost use Rattle.std.specs.Io.Buffered.{writer_buffer, writer_inner};
ghost use Rattle.whole_files.specs.Beginnings.{not_begun_opened, unplaced_bytes, unplaced_path};
ghost use Rattle.whole_files.specs.PathFiles.{path_calls};
ghost use Rattle.whole_files.specs.SpecialFiles.{sent_calls, special_told};
ghost use Rattle.whole_files.specs.Words.{address, IsPlaced, IsSentTo};
ghost use Rattle.cedarwood.specs.Words.{AllocationFailed, Appends, FailsToWrite, Io, IsBufferless};
ghost use Rattle.cedarwood.specs.Words.{IsSavedAt, IsTableFile, IsUnsavedAt, IsVersion, PassesAgain};
ghost use Rattle.cedarwood.specs.Words.{table_bytes, TellsError};

use crate::{CedarPersistenceError, Layout, SaveFailed, Saved, Trie, Unsaved, Watched};
use cedar_file::write_table;
use std::alloc::Allocator;
use std::io::{self, BufWriter, ErrorKind, Write};
use std::rt::Files;
use whole_files::{
    NotBegun, NotPlaced, PathCalls, Sent, Special, Unplaced, begin_beside, begin_special,
};

/// How many bytes a buffer of a file has.
const BUFFER_LEN: usize = 8192;

impl<L: Layout, const SLOTS: usize, A: Allocator + Copy> Trie<L, SLOTS, A> {
    /// Replaces what is at `path` by the dictionary's file in a minor version of the format. What isn't a file is written to.
    pub(crate) fn save_file<F: Files>(
        &self,
        files: &F,
        path: &str,
        minor: u16,
    ) -> Result<Saved<F>, SaveFailed<F>>
        requires version { IsVersion minor }
        ensures saved { IfOk result (IsSavedAt path.now (table_bytes minor self.now.table)) }
        ensures unplaced { IfErr result (IsUnsavedAt path.now (table_bytes minor self.now.table)) }
        ensures err { IfErr result (λ failed. FailsToWrite failed.error) }
        ensures told { IfErr result TellsError }
        ensures file { OnOk result (IsTableFile minor SLOTS self.now.table (table_bytes minor self.now.table)) }
        ensures passes { OnOk result (PassesAgain L.kind SLOTS minor self.now.table) }
    {
        match begin_special(files, path, self.table.allocator()) {
            Ok(Some(special)) => Ok(Saved::Sent(self.send(special, path, minor)?)),
            Ok(None) => Ok(Saved::Placed(self.save_in_place(files, path, minor)?)),
            Err(failed) => Err(SaveFailed {
                error: fault_of(&failed),
                done: Unsaved::NotBegun(failed),
            }),
        }
    }

    /// Replaces the file at `path`, and returns what was done there.
    fn save_in_place<F: Files>(
        &self,
        files: &F,
        path: &str,
        minor: u16,
    ) -> Result<PathCalls<F>, SaveFailed<F>>
        requires version { IsVersion minor }
        ensures saved { IfOk result (λ calls. IsPlaced path.now (table_bytes minor self.now.table) (path_calls calls)) }
        ensures unplaced { IfErr result (IsUnsavedAt path.now (table_bytes minor self.now.table)) }
        ensures err { IfErr result (λ failed. FailsToWrite failed.error) }
        ensures told { IfErr result TellsError }
        ensures file { OnOk result (IsTableFile minor SLOTS self.now.table (table_bytes minor self.now.table)) }
        ensures passes { OnOk result (PassesAgain L.kind SLOTS minor self.now.table) }
    {
        match begin_beside(files, path, self.table.allocator()) {
            Ok(new) => self.fill(new, path, minor),
            Err(failed) => Err(SaveFailed {
                error: fault_of(&failed),
                done: Unsaved::NotBegun(failed),
            }),
        }
    }

    /// Writes the dictionary to a new file, which is to take the place of the one at a path.
    fn fill<F: Files>(
        &self,
        new: BufWriter<Unplaced<'_, F>, A>,
        _path: &str,
        minor: u16,
    ) -> Result<PathCalls<F>, SaveFailed<F>>
        requires version { IsVersion minor }
        requires empty { unplaced_bytes (writer_inner new) ≡ [] }
        requires path { unplaced_path (writer_inner new) ≡ _path.now }
        requires buffer { writer_buffer new ≡ [] }
        ensures saved { IfOk result (λ calls. IsPlaced _path.now (table_bytes minor self.now.table) (path_calls calls)) }
        ensures unplaced { IfErr result (IsUnsavedAt _path.now (table_bytes minor self.now.table)) }
        ensures err { IfErr result (λ failed. FailsToWrite failed.error) }
        ensures told { IfErr result TellsError }
        ensures file { OnOk result (IsTableFile minor SLOTS self.now.table (table_bytes minor self.now.table)) }
        ensures passes { OnOk result (PassesAgain L.kind SLOTS minor self.now.table) }
    {
        match self.write_buffered(new, minor) {
            Ok(whole) => put_in_place(whole),
            Err(Unwritten { writer, error }) => Err(SaveFailed {
                error: CedarPersistenceError::Io(error),
                done: Unsaved::Made(writer.into_new().give_up()),
            }),
        }
    }

    /// Writes the dictionary to what is at a path and isn't a file, and returns what that took.
    fn send<F: Files>(
        &self,
        special: BufWriter<Special<F>, A>,
        _path: &str,
        minor: u16,
    ) -> Result<Sent<F>, SaveFailed<F>>
        requires version { IsVersion minor }
        requires told { special_told (writer_inner special) ≡ address _path.now }
        requires buffer { writer_buffer special ≡ [] }
        ensures sent { IfOk result (λ sent. IsSentTo _path.now (table_bytes minor self.now.table) (sent_calls sent)) }
        ensures unplaced { IfErr result (IsUnsavedAt _path.now (table_bytes minor self.now.table)) }
        ensures err { IfErr result (λ failed. FailsToWrite failed.error) }
        ensures told { IfErr result TellsError }
        ensures file { OnOk result (IsTableFile minor SLOTS self.now.table (table_bytes minor self.now.table)) }
        ensures passes { OnOk result (PassesAgain L.kind SLOTS minor self.now.table) }
    {
        match self.write_buffered(special, minor) {
            Ok(whole) => Ok(whole.into_sent()),
            Err(Unwritten { writer, error }) => Err(SaveFailed {
                error: CedarPersistenceError::Io(error),
                done: Unsaved::Sent(writer.into_sent()),
            }),
        }
    }

    /// Writes the dictionary through a buffer, which it flushes, and returns the writer.
    fn write_buffered<W: Write + Drop>(
        &self,
        writer: BufWriter<W, A>,
        minor: u16,
    ) -> Result<W, Unwritten<W>>
        requires version { IsVersion minor }
        requires buffer { writer_buffer writer ≡ [] }
        ensures bytes { IfOk result (λ written. Appends (W.contents (writer_inner writer)) (W.contents written) (table_bytes minor self.now.table)) }
        ensures file { OnOk result (IsTableFile minor SLOTS self.now.table (table_bytes minor self.now.table)) }
        ensures passes { OnOk result (PassesAgain L.kind SLOTS minor self.now.table) }
    {
        let mut watched = Watched::new(writer);
        if let Err(error) = write_table(&self.table, minor, &mut watched) {
            return Err(out_of_buffer(watched.into_inner(), io_error(error)));
        }
        let mut buffered = watched.into_inner();
        if let Err(error) = buffered.flush() {
            return Err(out_of_buffer(buffered, error));
        }
        let (written, _) = buffered.into_parts();
        Ok(written)
    }
}

/// A writer to which a dictionary wasn't written whole, and why. Text of a longer life, as that in the errors of a load, isn't in it: a call
/// with a new file for its writer that could return such text wouldn't be proved.
#[derive(Drop)]
struct Unwritten<W> {
    writer: W,
    error: io::Error,
}

/// Takes the writer out of its buffer. Bytes that are still in the buffer are lost.
fn out_of_buffer<W: Write + Drop, A: Allocator>(
    buffered: BufWriter<W, A>,
    error: io::Error,
) -> Unwritten<W> {
    let (writer, _) = buffered.into_parts();
    Unwritten { writer, error }
}

/// The writer's error: `write_table` fails with no other.
fn io_error(error: CedarPersistenceError) -> io::Error {
    match error {
        CedarPersistenceError::Io(error) => error,
        _ => ErrorKind::Other.into(),
    }
}

/// Gives a new file that is whole its place.
fn put_in_place<F: Files>(whole: Unplaced<'_, F>) -> Result<PathCalls<F>, SaveFailed<F>>
    ensures placed { IfOk result (λ calls. IsPlaced (unplaced_path whole.entry) (unplaced_bytes whole.entry) (path_calls calls)) }
    ensures unplaced { IfErr result (IsUnsavedAt (unplaced_path whole.entry) (unplaced_bytes whole.entry)) }
    ensures err { IfErr result (λ failed. FailsToWrite failed.error) }
    ensures told { IfErr result TellsError }
{
    match whole.into_new().put_in_place() {
        Ok(calls) => Ok(calls),
        Err(NotPlaced { error, calls }) => Err(SaveFailed {
            error: CedarPersistenceError::Io(error),
            done: Unsaved::Made(calls),
        }),
    }
}

/// Why nothing was begun, as an error of the dictionary's files.
fn fault_of<F>(failed: &NotBegun<F>) -> CedarPersistenceError
    ensures err { FailsToWrite result }
    ensures told { MatchOption failed.now.error (IsBufferless (not_begun_opened failed.now) result) (λ cause. result ≡ Io cause) }
{
    match &failed.error {
        Some(error) => CedarPersistenceError::Io(*error),
        None => no_room(),
    }
}

/// What is returned where there is no memory for a buffer.
pub(crate) fn no_room() -> CedarPersistenceError
    ensures { result ≡ AllocationFailed 8192 }
{
    CedarPersistenceError::AllocationFailed {
        requested: BUFFER_LEN,
    }
}
