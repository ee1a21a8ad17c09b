//! A file that is written beside another one, and the calls on it. Whatever is done to its bytes and its name is done here, and each call
//! of the system is noted with its result.
//!
//! No contract can say what the system does. So this is believed: that each function here makes the call that its clause notes. The fields
//! are private, so that no other module notes a call, or takes one that failed for one that was made.
//!
//! The trait `Files` says nothing of its calls, so a type of one's own may answer a rename and make none. What is noted has the type of the
//! files that the calls were made on. So where that is a type parameter, no calls on a type of one's own are taken for calls on it.

ghost use Rattle.std.specs.Prelude.{◌≡◌, ◌∷◌, [], false, IfOk};
ghost use Rattle.std.specs.Prelude.{is_ok, length, OnErr, OnOk, true};
ghost use Rattle.whole_files.specs.NotedFiles.{beside_calls, made_as, still_beside};
ghost use Rattle.whole_files.specs.OpenedFiles.{folder_calls};
ghost use Rattle.whole_files.specs.Words.{folder_sync_call, HasJustTaken, LiesBeside};
ghost use Rattle.whole_files.specs.Words.{LiesIn, MayLeave, Only, open_call, opened_new, path_of};
ghost use Rattle.whole_files.specs.Words.{seen_after, sync_call, took_name, TookSome};
ghost use Rattle.whole_files.specs.Words.{was_opened, write_by_outcome};

use crate::history::{History, NAMED, OPENED, SYNCED};
use crate::looks::{look_like, make_new};
use crate::opening::{Folder, MADE, OPENED_AT, TO_WRITE};
use crate::wrote::{MAX_OFFSET, Wrote, wrote_of};
use std::fs::{self, Metadata, OpenFile};
use std::io::{self, Write};
use std::marker::PhantomData;
use std::rt::Files;

const TOOK_NAME: u64 = 7;

/// A file, with the calls on it.
#[derive(Drop)]
pub(crate) struct Noted<F: Files> {
    file: F::File,
    // Whether it is the one beside.
    is_beside: bool,
    // Under which name it was made.
    made: History,
    history: History,
}

/// The calls on a file that was made beside the one at a path, among the files `F`: what was done there, each call with its result. It
/// occupies no memory.
#[derive(Drop)]
pub struct PathCalls<F> {
    history: History,
    among: PhantomData<F>,
}

/// Makes a file beside the one at a path, to be written from its start on. Nothing that has the name is opened, and no link is followed.
pub(crate) fn make_beside<F: Files>(
    files: &F,
    name: &str,
    _path: &str,
    mode: u32,
) -> io::Result<Noted<F>>
    requires names { LiesBeside _path.now name.now }
    ensures noted { IfOk result (λ made. beside_calls made ≡ open_call [] ∷ []) }
    ensures name { IfOk result (λ made. still_beside made ≡ true) }
    ensures own { IfOk result (λ made. made_as made ≡ opened_new name.now ∷ []) }
{
    let file = make_new(files, name, mode)?;
    let mut made = History::new();
    made.note(&[OPENED_AT, MADE, 1], name.as_bytes());
    let mut history = History::new();
    history.note(&[OPENED, 0, 1], &[]);
    Ok(Noted {
        file,
        is_beside: true,
        made,
        history,
    })
}

impl<F: Files> Noted<F> {
    ghost use Rattle.whole_files.specs.PathFiles.{path_calls};

    /// Writes some of the bytes at the end of a file that was made beside another one: there the last call ended.
    pub(crate) fn append(&mut self, end: usize, bytes: &[u8]) -> Wrote
        requires beside { still_beside self.old ≡ true }
        requires end { end ≡ length (seen_after (beside_calls self.old)) }
        ensures noted { beside_calls self.new ≡ write_by_outcome end bytes.now result ∷ beside_calls self.old }
        ensures took { TookSome end (length bytes.now) result }
        ensures name { still_beside self.new ≡ still_beside self.old }
        ensures own { made_as self.new ≡ made_as self.old }
    {
        let wrote = write_on(&mut self.file, end, bytes);
        self.history.note_write(end, bytes, wrote);
        wrote
    }

    /// Hands on what the file itself holds back: nothing, if it is one of the system.
    pub(crate) fn flush(&mut self) -> io::Result<()>
        ensures noted { beside_calls self.new ≡ beside_calls self.old }
        ensures name { still_beside self.new ≡ still_beside self.old }
        ensures own { made_as self.new ≡ made_as self.old }
    {
        self.file.flush()
    }

    /// Gives the file the owner and the permissions of another one, as far as the system allows that.
    pub(crate) fn look_like(&self, files: &F, name: &str, other: &Metadata) -> io::Result<()> {
        look_like(&self.file, files, name, other)
    }

    /// Waits until the disk has the bytes, the length and the permissions.
    pub(crate) fn sync(&mut self) -> io::Result<()>
        ensures noted { beside_calls self.new ≡ sync_call (is_ok result) ∷ beside_calls self.old }
        ensures name { still_beside self.new ≡ still_beside self.old }
        ensures own { made_as self.new ≡ made_as self.old }
    {
        let answer = self.file.sync_all();
        self.history.note_answer(SYNCED, 0, &[], answer)
    }

    /// Gives this file, which was made beside the one at a path, that one's name.
    pub(crate) fn take_path(&mut self, files: &F, name: &str, path: &str) -> io::Result<()>
        requires beside { still_beside self.old ≡ true }
        requires names { LiesBeside path.now name.now }
        requires own { made_as self.old ≡ opened_new name.now ∷ [] }
        requires durable { Only (seen_after (beside_calls self.old)) (MayLeave (beside_calls self.old)) }
        ensures noted { beside_calls self.new ≡ took_name path.now (is_ok result) ∷ beside_calls self.old }
        ensures kept { OnErr result (still_beside self.new ≡ true) }
        ensures taken { OnOk result (still_beside self.new ≡ false) }
        ensures own { made_as self.new ≡ made_as self.old }
    {
        let answer = fs::rename(files, name, path);
        self.is_beside = answer.is_err();
        let taken = path.as_bytes();
        self.history.note_answer(TOOK_NAME, 0, taken, answer)
    }

    /// Waits until the disk has the names of the folder of the path whose name this file has just taken.
    pub(crate) fn sync_folder(&mut self, folder: &Folder<F>, _path: &str) -> io::Result<()>
        requires taken { HasJustTaken _path.now (beside_calls self.old) }
        requires home { LiesIn _path.now (path_of (folder_calls folder.now)) }
        ensures noted { beside_calls self.new ≡ folder_sync_call (is_ok result) ∷ beside_calls self.old }
        ensures name { still_beside self.new ≡ still_beside self.old }
    {
        let answer = folder.sync();
        self.history.note_answer(NAMED, 0, &[], answer)
    }

    /// Notes that the file was opened, for whoever outlives it.
    pub(crate) fn opening(&self) -> History
        ensures { result.calls ≡ was_opened ∷ [] }
    {
        let mut opened = History::new();
        opened.note(&[OPENED_AT, TO_WRITE, 1], &[]);
        opened
    }

    /// Removes the file, which was made beside the one at a path.
    pub(crate) fn remove(&self, files: &F, name: &str, _path: &str)
        requires beside { still_beside self.now ≡ true }
        requires names { LiesBeside _path.now name.now }
        requires own { made_as self.now ≡ opened_new name.now ∷ [] }
    {
        let _ = fs::remove_file(files, name);
    }

    /// Returns what was done.
    pub(crate) fn into_calls(self) -> PathCalls<F>
        ensures { path_calls result ≡ beside_calls self }
    {
        let Noted { history, .. } = self;
        PathCalls {
            history,
            among: PhantomData,
        }
    }
}

// Writes some of the bytes by one call, where the last one ended.
fn write_on<T: Write>(file: &mut T, at: usize, bytes: &[u8]) -> Wrote
    ensures { TookSome at (length bytes.now) result }
{
    if at > MAX_OFFSET {
        return Wrote::Full(io::ErrorKind::FileTooLarge.into());
    }
    wrote_of(at, bytes, file.write(bytes))
}
