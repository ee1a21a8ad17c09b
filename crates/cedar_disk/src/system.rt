//! How a file is found, opened and read.

ghost use Rattle.std.specs.Prelude.{◌≡◌, IfErr, IfOk, IfSome};
ghost use Rattle.cedar_disk.specs.Words.{file_to_read, IsUnlocked, Memory, OfFileAt, TellsKind};

use crate::LockFile;
use std::alloc::{AllocError, Allocator};
use std::fs::{self, OpenFile, OpenOptions};
use std::io::{self, Read};
use std::rt::Files;
use whole_files::{FileToRead, leads_to, open_to_read};

/// Why a file wasn't opened.
#[derive(Clone, Copy, Debug)]
pub enum OpenError {
    /// An allocation failed.
    Memory,
    /// Another opening has the file locked. Nothing was written.
    Locked,
    /// The system's error. `Unsupported`: what is at the path isn't a file.
    Io(io::Error),
}

impl From<AllocError> for OpenError {
    //= A failed allocation becomes `Memory`.
    ghost from_gives = { λ _ e. e ≡ Memory };

    fn from(_: AllocError) -> Self {
        OpenError::Memory
    }
}

impl From<io::Error> for OpenError {
    //= The system's error is passed on, except one of the kind `OutOfMemory`, which becomes `Memory`.
    ghost from_gives = { TellsKind };

    fn from(error: io::Error) -> Self {
        match error.kind() {
            io::ErrorKind::OutOfMemory => OpenError::Memory,
            _ => OpenError::Io(error),
        }
    }
}

/// Opens a file to be read and written. Nothing but a file is opened.
pub(crate) fn open_file<F: Files>(files: &F, path: &str) -> io::Result<F::File> {
    let file = OpenOptions::new().read(true).write(true).open(files, path)?;
    if file.metadata()?.is_file() {
        Ok(file)
    } else {
        Err(io::ErrorKind::Unsupported.into())
    }
}

/// How often a file is opened anew since another one has its path by the time it is locked.
const TRIES: usize = 100;

/// Opens the file at a path to be read and written, and locks it. Whoever replaces a file has it locked, and locks the new one before that
/// gets the path. So a file that was replaced while it was opened is recognized by its path, and then the new one is opened.
pub(crate) fn lock_file<F: Files>(files: &F, path: &str) -> Result<F::File, OpenError>
where
    F::File: LockFile,
{
    for _ in 0..TRIES {
        let file = open_file(files, path)?;
        match file.lock_alone() {
            Ok(()) => {}
            Err(error) if error.kind() == io::ErrorKind::WouldBlock => return Err(
                OpenError::Locked,
            ),
            Err(error) => return Err(OpenError::Io(error)),
        }
        if leads_to(files, path, &file.metadata()?) {
            return Ok(file);
        }
    }
    Err(OpenError::Locked)
}

/// Reads the file at a path as it is, to look at it: it isn't locked, created or written, so it may lie where nothing can be written, and
/// another program may have it open. Whatever a store has acknowledged before this call begins is in these bytes.
///
/// # Errors
/// `Memory` if an allocation failed, `Io` if a system call failed, or if something other than a file is at the path.
pub fn read_file<F: Files, A: Allocator>(
    files: &F,
    alloc: A,
    path: &str,
) -> Result<Vec<u8, A>, OpenError>
    //= What is read of a file by its path is all that was left, where that is known, in a file that was opened at this path, among the
    //  files that were given, to be read. [by OfFileAt]
    ensures bytes { IfOk result (λ bytes. OfFileAt F F.File.remaining path.now (λ left. IfSome left (λ all. bytes.items ≡ all))) }
    //= A file that is only looked at is never told to be locked. [by IsUnlocked]
    ensures err { IfErr result IsUnlocked }
{
    read_opened(open_to_read(files, path)?, alloc)
}

// Reads all of what was opened, if it is a file.
fn read_opened<F, T: Read + OpenFile + Drop, A: Allocator>(
    opened: FileToRead<F, T>,
    alloc: A,
) -> Result<Vec<u8, A>, OpenError>
    ensures bytes { IfOk result (λ bytes. IfSome (T.remaining (file_to_read opened)) (λ left. bytes.items ≡ left)) }
    ensures err { IfErr result IsUnlocked }
{
    let mut file = opened.into_file();
    if !file.metadata()?.is_file() {
        return Err(OpenError::Io(io::ErrorKind::Unsupported.into()));
    }
    Ok(read_all(&mut file, alloc)?)
}

/// Reads all of a file that is open.
pub(crate) fn read_all<R: Read, A: Allocator>(file: &mut R, alloc: A) -> io::Result<Vec<u8, A>>
    //= What is read of a file that is open is all that is left in it, where that is known: of a file that a device holds, and of one that is
    //  only looked at. No contract of the system's files says which bytes these are. [also read_opened, Place::read]
    ensures bytes { IfOk result (λ bytes. IfSome (R.remaining file.old) (λ left. bytes.items ≡ left)) }
{
    let mut bytes = Vec::new(alloc);
    file.read_to_end(&mut bytes)?;
    Ok(bytes)
}

/// Whether a file is at a path, and no link to one.
pub(crate) fn is_file_itself<F: Files>(files: &F, path: &str) -> bool {
    match fs::symlink_metadata(files, path) {
        Ok(found) => found.is_file(),
        Err(_) => false,
    }
}
