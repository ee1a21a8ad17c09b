//! A file and the calls on it. Whatever is done to its bytes and its name is done here, and each call of the system is noted with its
//! result.
//!
//! No contract can say what the system does. So this is believed: that each function here makes the call that its clause notes. The fields
//! are private, so that no other module notes a call, or takes one that failed for one that was made.
//!
//! The trait `Files` says nothing of its calls, so a type of one's own may answer a rename and make none. What is noted has the type of the
//! files that the calls were made on. So where that is a type parameter, no calls on a type of one's own are taken for calls on it.

ghost use Rattle.std.specs.Prelude.{◌≡◌, ◌≤◌, ◌∷◌, [], false, IfOk, IfSome};
ghost use Rattle.std.specs.Prelude.{is_ok, length, true};
ghost use Rattle.cedar_disk.specs.NotedFiles.{is_beside, noted_calls};
ghost use Rattle.cedar_disk.specs.OpenedFiles.{found_path};
ghost use Rattle.cedar_disk.specs.Words.{compaction_path, folder_calls, folder_sync_call};
ghost use Rattle.cedar_disk.specs.Words.{is_locked_after, LiesIn, lock_call, MayLeave, Only};
ghost use Rattle.cedar_disk.specs.Words.{open_call, opened_as, path_of, refused_call, rename_call};
ghost use Rattle.cedar_disk.specs.Words.{seen_after, sync_call, TookSome, truncate_call, way_of};
ghost use Rattle.cedar_disk.specs.Words.{write_by_outcome};

use crate::names::compaction_beside;
use crate::opening::{Found, Wanted, find_file};
use crate::system::{is_file_itself, lock_file, read_all};
use crate::{LockFile, OpenError};
use std::alloc::Allocator;
use std::fs::{self, Metadata, OpenFile};
use std::io::{self, Seek, SeekFrom, Write};
use std::rt::Files;
use whole_files::{
    Folder, History, MAX_OFFSET, NAMED, OPENED, SYNCED, Wrote, look_like, make_new, open_folder_of,
    wrote_of,
};

const SHORTENED: u64 = 2;

const RENAMED: u64 = 4;

const REFUSED: u64 = 6;

const LOCKED: u64 = 8;

/// Where a file lies: its folder, and its path, as it was found.
#[derive(Drop)]
pub(crate) struct Place<F: Files + Drop, A: Allocator> {
    files: F,
    folder: Folder<F>,
    found: Found<F, A>,
    ghost home: { LiesIn (found_path found) (path_of (folder_calls folder)) },
}

/// A file, with the calls on it.
#[derive(Drop)]
pub(crate) struct Noted<F: Files> {
    file: F::File,
    // Whether it is the one beside.
    is_beside: bool,
    history: History,
}

impl<F: Files + Drop, A: Allocator + Copy> Place<F, A> {
    ghost use Rattle.cedar_disk.specs.PathFiles.{place_opening, place_path};

    /// Finds the file that is wanted at `path`, or creates it. Links in the path are followed now and not later.
    pub(crate) fn find(
        files: F,
        alloc: A,
        path: &str,
        wanted: Wanted,
    ) -> Result<Place<F, A>, OpenError>
        ensures opening { IfOk result (λ place. place_opening place ≡ opened_as (way_of wanted) path.now ∷ []) }
    {
        let found = find_file(&files, alloc, path, wanted)?;
        let folder = open_folder_of(&files, found.path())?;
        Ok(Place {
            files,
            folder,
            found,
        })
    }

    /// Opens the file and locks it: before it is synced, read or written.
    ///
    /// # Errors
    /// `Locked` if another opening has it.
    pub(crate) fn lock(&self) -> Result<Noted<F>, OpenError>
    where
        F::File: LockFile,
        ensures noted { IfOk result (λ file. noted_calls file ≡ lock_call true ∷ []) }
        ensures name { IfOk result (λ file. is_beside file ≡ false) }
    {
        let file = lock_file(&self.files, self.path())?;
        let mut history = History::new();
        history.note(&[LOCKED, 0, 1], &[]);
        Ok(Noted {
            file,
            is_beside: false,
            history,
        })
    }

    /// Removes the file that a crash in a replacement has left beside one that is locked. Whatever else has its name stays.
    pub(crate) fn clear(&self, _held: &Noted<F>)
        requires held { is_locked_after (noted_calls _held.now) ≡ true }
    {
        let path = self.path();
        let Some(name) = compaction_beside(path) else {
            return;
        };
        if is_file_itself(&self.files, name.as_str()) {
            remove_made(&self.files, name.as_str(), path);
        }
    }

    /// Puts a file that was locked, and its name, on the disk, and reads it.
    pub(crate) fn read(&self, held: Noted<F>, alloc: A) -> io::Result<(Noted<F>, Vec<u8, A>)>
        requires held { noted_calls held ≡ lock_call true ∷ [] }
        requires name { is_beside held ≡ false }
        ensures noted { IfOk result (λ read. noted_calls read.0 ≡ open_call read.1.items ∷ lock_call true ∷ []) }
        ensures name { IfOk result (λ read. is_beside read.0 ≡ false) }
        ensures bytes { IfOk result (λ read. IfSome (F.File.remaining held.file) (λ left. read.1.items ≡ left)) }
    {
        let mut file = held;
        file.file.sync_all()?;
        self.folder.sync()?;
        let bytes = read_all(&mut file.file, alloc)?;
        file.history.note(&[OPENED, 0, 1], &bytes);
        Ok((file, bytes))
    }

    /// Returns the files that it lies among.
    pub(crate) fn files(&self) -> &F {
        &self.files
    }

    /// Returns the path.
    pub(crate) fn path(&self) -> &str
        ensures { result.now ≡ place_path self.now }
    {
        self.found.path()
    }
}

/// Makes the file that is to take the place of the one at a path, to be written from its start on. Nothing that has its name is opened, and
/// no link is followed.
pub(crate) fn make_successor<F: Files>(
    files: &F,
    name: &str,
    _path: &str,
    mode: u32,
) -> io::Result<Noted<F>>
    requires names { name.now ≡ compaction_path _path.now }
    ensures noted { IfOk result (λ made. noted_calls made ≡ open_call [] ∷ []) }
    ensures name { IfOk result (λ made. is_beside made ≡ true) }
{
    let file = make_new(files, name, mode)?;
    let mut history = History::new();
    history.note(&[OPENED, 0, 1], &[]);
    Ok(Noted {
        file,
        is_beside: true,
        history,
    })
}

/// Removes such a file.
pub(crate) fn remove_made<F: Files>(files: &F, name: &str, _path: &str)
    requires names { name.now ≡ compaction_path _path.now }
{
    let _ = fs::remove_file(files, name);
}

impl<F: Files> Noted<F> {
    ghost use Rattle.cedar_disk.specs.PathFiles.{place_path};

    /// Notes a call of the device for which none of the system is made.
    pub(crate) fn refuse(&mut self)
        ensures noted { noted_calls self.new ≡ refused_call ∷ noted_calls self.old }
        ensures name { is_beside self.new ≡ is_beside self.old }
    {
        self.history.note_call(REFUSED, 0, false, &[]);
    }

    /// Writes some of the bytes, the first of them at `at`.
    pub(crate) fn write(&mut self, at: usize, bytes: &[u8]) -> Wrote
        ensures noted { noted_calls self.new ≡ write_by_outcome at bytes.now result ∷ noted_calls self.old }
        ensures took { TookSome at (length bytes.now) result }
        ensures name { is_beside self.new ≡ is_beside self.old }
    {
        let wrote = write_some(&mut self.file, at, bytes);
        self.history.note_write(at, bytes, wrote);
        wrote
    }

    /// Returns what the system says of the file.
    pub(crate) fn metadata(&self) -> io::Result<Metadata> {
        self.file.metadata()
    }

    /// Gives the file the owner and the permissions of another one, as far as the system allows that.
    pub(crate) fn look_like(&self, files: &F, name: &str, other: &Metadata) -> io::Result<()> {
        look_like(&self.file, files, name, other)
    }

    /// Cuts the file to its first `len` bytes.
    pub(crate) fn cut(&mut self, len: usize) -> io::Result<()>
        ensures noted { noted_calls self.new ≡ truncate_call len (is_ok result) ∷ noted_calls self.old }
        ensures name { is_beside self.new ≡ is_beside self.old }
    {
        let answer = self.file.set_len(len as u64);
        self.history.note_answer(SHORTENED, len, &[], answer)
    }

    /// Waits until the disk has the bytes and the length, and of a file beside the permissions too.
    pub(crate) fn sync(&mut self) -> io::Result<()>
        ensures noted { noted_calls self.new ≡ sync_call (is_ok result) ∷ noted_calls self.old }
        ensures name { is_beside self.new ≡ is_beside self.old }
    {
        let answer = if self.is_beside {
            self.file.sync_all()
        } else {
            self.file.sync_data()
        };
        self.history.note_answer(SYNCED, 0, &[], answer)
    }

    /// Locks the file.
    ///
    /// # Errors
    /// `WouldBlock` if another opening has it locked.
    pub(crate) fn lock(&mut self) -> io::Result<()>
    where
        F::File: LockFile,
        ensures noted { noted_calls self.new ≡ lock_call (is_ok result) ∷ noted_calls self.old }
        ensures name { is_beside self.new ≡ is_beside self.old }
    {
        let answer = self.file.lock_alone();
        self.history.note_answer(LOCKED, 0, &[], answer)
    }

    /// Gives this file, which lies beside and is locked, the name of the other one; or removes it, if that fails.
    pub(crate) fn take_name<A: Allocator>(
        &mut self,
        place: &Place<F, A>,
        name: &str,
        other: Noted<F>,
        bytes: &[u8],
    ) -> io::Result<()>
    where
        F: Drop,
        requires beside { is_beside self.old ≡ true }
        requires names { name.now ≡ compaction_path (place_path place.now) }
        requires locked { is_locked_after (noted_calls self.old) ≡ true }
        requires other { is_beside other ≡ false }
        requires bytes { seen_after (noted_calls self.old) ≡ bytes.now }
        requires durable { Only bytes.now (MayLeave (noted_calls self.old)) }
        ensures noted { noted_calls self.new ≡ rename_call bytes.now (is_ok result) ∷ noted_calls other }
        ensures name { is_beside self.new ≡ false }
    {
        let Noted { history, .. } = other;
        let path = place.found.path();
        let answer = fs::rename(&place.files, name, path);
        if answer.is_err() {
            remove_made(&place.files, name, path);
        }
        self.is_beside = false;
        self.history = history;
        self.history.note_answer(RENAMED, 0, bytes, answer)
    }

    /// Waits until the disk has the file's name.
    pub(crate) fn sync_name<A: Allocator>(&mut self, place: &Place<F, A>) -> io::Result<()>
    where
        F: Drop,
        ensures noted { noted_calls self.new ≡ folder_sync_call (is_ok result) ∷ noted_calls self.old }
        ensures name { is_beside self.new ≡ is_beside self.old }
    {
        let answer = place.folder.sync();
        self.history.note_answer(NAMED, 0, &[], answer)
    }
}

// Writes some of the bytes by one call.
fn write_some<T: Write + Seek>(file: &mut T, at: usize, bytes: &[u8]) -> Wrote
    ensures { TookSome at (length bytes.now) result }
{
    if at > MAX_OFFSET {
        return Wrote::Full(io::ErrorKind::FileTooLarge.into());
    }
    wrote_of(at, bytes, write_once(file, at, bytes))
}

fn write_once<T: Write + Seek>(file: &mut T, at: usize, bytes: &[u8]) -> io::Result<usize>
    ensures { IfOk result (λ count. count ≤ length bytes.now) }
{
    file.seek(SeekFrom::Start(at as u64))?;
    file.write(bytes)
}
