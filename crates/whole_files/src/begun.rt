//! How the writing of a whole file at a path begins: with what it is written to, behind a buffer.
//!
//! A failure that comes before the first write is told by a `NotBegun`. This is believed: that where one is made here, nothing was made for
//! the path, or what was made is dropped, and so removed.

ghost use Rattle.std.specs.Prelude.{◌≡◌, ◌++◌, ◌∷◌, [], IfErr, IfOk, None, Some};
ghost use Rattle.std.specs.Io.Buffered.{writer_buffer, writer_inner};
ghost use Rattle.whole_files.specs.Beginnings.{not_begun_calls, not_begun_opened, unplaced_bytes};
ghost use Rattle.whole_files.specs.Beginnings.{unplaced_new, unplaced_path};
ghost use Rattle.whole_files.specs.SpecialFiles.{special_told};
ghost use Rattle.whole_files.specs.Words.{address, ForSome, not_begun, was_opened};

use crate::history::History;
use crate::not_begun::NotBegun;
use crate::special::{Special, special_at};
use crate::whole::NewFile;
use std::alloc::Allocator;
use std::io::{self, BufWriter, Write};
use std::rt::Files;

/// A new file, beside the one whose place it is to take. Where it is dropped it is removed, and nothing else.
pub struct Unplaced<'a, F: Files> {
    file: NewFile<'a, F>,
}

impl<'a, F: Files> Unplaced<'a, F> {
    /// Returns the file, which isn't removed any more where it is dropped.
    pub fn into_new(self) -> NewFile<'a, F>
        //= A new file that was begun is handed out as it is.
        ensures { result ≡ unplaced_new self.entry }
    {
        let Unplaced { file } = self;
        file
    }
}

impl<F: Files> Write for Unplaced<'_, F> {
    // The path comes first: so whoever wrote through a buffer knows still whose place it is to take.
    //= What was written to a new file that was begun is known: the path whose place it is to take, and behind that exactly the bytes of the
    //  writes that succeeded.
    ghost contents = { λ new. Some (address (unplaced_path new) ++ unplaced_bytes new) };

    fn write(&mut self, buf: &[u8]) -> io::Result<usize> {
        self.file.write(buf)
    }

    fn flush(&mut self) -> io::Result<()> {
        self.file.flush()
    }
}

impl<F: Files> Drop for Unplaced<'_, F> {
    fn drop(self) {
        let Unplaced { file } = self;
        let _ = file.give_up();
    }
}

/// Makes a new file beside the one at `path`, as `NewFile::beside` does, and then a buffer of 8192 bytes for it.
///
/// # Errors
/// That of making the file, with `error`; or there is no memory for the buffer, and `error` is None.
pub fn begin_beside<'a, F: Files, A: Allocator>(
    files: &'a F,
    path: &'a str,
    alloc: A,
) -> Result<BufWriter<Unplaced<'a, F>, A>, NotBegun<F>>
    //= A new file that was begun is empty, is to have the name at the path, and has an empty buffer. [with path, buffer]
    ensures empty { IfOk result (λ new. unplaced_bytes (writer_inner new) ≡ []) }
    ensures path { IfOk result (λ new. unplaced_path (writer_inner new) ≡ path.now) }
    ensures buffer { IfOk result (λ new. writer_buffer new ≡ []) }
    //= What wasn't begun is noted at the path that was given. [also begin_special]
    ensures none { IfErr result (λ failed. not_begun_calls failed ≡ not_begun path.now ∷ []) }
    //= Want of memory is told only where a new file was made, or something was opened that isn't a file: so never of an opening that failed.
    //  [also begin_special]
    ensures memory { IfErr result (λ failed. failed.error ≡ None → not_begun_opened failed ≡ was_opened ∷ []) }
{
    match NewFile::beside(files, path) {
        Ok(file) => {
            let opened = file.opening();
            match BufWriter::new(alloc, Unplaced { file }) {
                Ok(new) => Ok(new),
                Err(_) => Err(NotBegun::at(path, None, opened)), // The file was dropped, and so removed.
            }
        }
        Err(error) => Err(NotBegun::at(path, Some(error), History::new())),
    }
}

/// Opens what is at `path` and isn't a file, as `special_at` does, and then makes a buffer of 8192 bytes for it. None where `special_at`
/// returns that.
///
/// # Errors
/// That of opening it, with `error`; or there is no memory for the buffer, and `error` is None.
pub fn begin_special<F: Files, A: Allocator>(
    files: &F,
    path: &str,
    alloc: A,
) -> Result<Option<BufWriter<Special<F>, A>>, NotBegun<F>>
    //= What is begun at a path and isn't a file has taken no byte yet, and has an empty buffer. [with buffer]
    ensures told { IfOk result (λ found. ForSome found (λ special. special_told (writer_inner special) ≡ address path.now)) }
    ensures buffer { IfOk result (λ found. ForSome found (λ special. writer_buffer special ≡ [])) }
    ensures none { IfErr result (λ failed. not_begun_calls failed ≡ not_begun path.now ∷ []) }
    ensures memory { IfErr result (λ failed. failed.error ≡ None → not_begun_opened failed ≡ was_opened ∷ []) }
{
    match special_at(files, path) {
        Ok(Some(special)) => {
            let opened = special.opening();
            match BufWriter::new(alloc, special) {
                Ok(buffered) => Ok(Some(buffered)),
                Err(_) => Err(NotBegun::at(path, None, opened)),
            }
        }
        Ok(None) => Ok(None),
        Err(error) => Err(NotBegun::at(path, Some(error), History::new())),
    }
}
