//! Files that are opened to be read, and folders, by their paths. Each opening is noted with its path.
//!
//! No contract can say what the system does. So this is believed, as of `noted.rt`: that `open_folder` and `open_to_read` make the call
//! that their clause notes. The fields are private, so that nothing else notes one. Each note has the type of the files that the
//! call was made on: what is open elsewhere, through a type of one's own, has another one.

ghost use Rattle.std.specs.Prelude.{◌≡◌, ◌∷◌, [], IfOk};
ghost use Rattle.whole_files.specs.OpenedFiles.{file_to_read, folder_calls, read_calls};
ghost use Rattle.whole_files.specs.Words.{LiesIn, opened_folder, opened_to_read, path_of};

use crate::history::History;
use crate::names::folder_of;
use std::fs::{self, OpenFile};
use std::io::{self, Read};
use std::marker::PhantomData;
use std::rt::Files;

/// The kind of an opening by a path.
pub const OPENED_AT: u64 = 11;

/// How a file is noted that the opening has made.
pub(crate) const MADE: u64 = 2;

const TO_READ: u64 = 3;

const FOLDER: u64 = 4;

pub(crate) const TO_WRITE: u64 = 6;

/// A folder that is open, so that its names can be synced.
#[derive(Drop)]
pub struct Folder<F: Files> {
    opened: F::File,
    history: History,
}

impl<F: Files> Folder<F> {
    /// Waits until the disk has its names.
    pub fn sync(&self) -> io::Result<()> {
        self.opened.sync_all()
    }
}

/// Opens the folder that the file at a path lies in.
pub fn open_folder_of<F: Files>(files: &F, path: &str) -> io::Result<Folder<F>>
    //= A folder that is opened for a path is the one that the file at the path lies in.
    ensures lies { IfOk result (λ folder. LiesIn path.now (path_of (folder_calls folder))) }
{
    open_folder(files, folder_of(path))
}

// Opens the folder at a path.
fn open_folder<F: Files>(files: &F, path: &str) -> io::Result<Folder<F>>
    ensures noted { IfOk result (λ folder. folder_calls folder ≡ opened_folder path.now ∷ []) }
{
    let opened = fs::open(files, path)?;
    let mut history = History::new();
    history.note(&[OPENED_AT, FOLDER, 1], path.as_bytes());
    Ok(Folder { opened, history })
}

/// A file `T` that was opened among the files `F` to be read, and no more.
#[derive(Drop)]
pub struct FileToRead<F, T: Read + OpenFile + Drop> {
    file: T,
    history: History,
    among: PhantomData<F>,
}

impl<F, T: Read + OpenFile + Drop> FileToRead<F, T> {
    /// Returns the file.
    pub fn into_file(self) -> T
        //= A file that was opened to be read is handed out as it is.
        ensures { result ≡ file_to_read self }
    {
        let FileToRead { file, .. } = self;
        file
    }
}

/// Opens the file at a path to be read. It isn't locked, created or written.
///
/// # Errors
/// That of the system.
pub fn open_to_read<F: Files>(files: &F, path: &str) -> io::Result<FileToRead<F, F::File>>
    //= A file that was opened to be read was opened at the path that was given, among the files that were given.
    ensures noted { IfOk result (λ opened. read_calls opened ≡ opened_to_read path.now ∷ []) }
{
    let file = fs::open(files, path)?;
    let mut history = History::new();
    history.note(&[OPENED_AT, TO_READ, 1], path.as_bytes());
    Ok(FileToRead {
        file,
        history,
        among: PhantomData,
    })
}
