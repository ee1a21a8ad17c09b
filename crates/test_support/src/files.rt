//! A file system with one file and its folder, whose calls fail at the points that a test sets.

use crate::device::{Ending, FailingReader};
use std::alloc::Allocator;
use std::cell::Cell;
use std::fs::{Metadata, OpenFile, OpenOptions};
use std::io;
use std::io::{ErrorKind, Read, Seek, SeekFrom, Write};
use std::rt::Files;

/// What the file's calls do.
#[derive(Clone, Copy, Debug)]
pub struct FilePlan {
    /// Whether it can be opened, or created.
    pub opens: bool,
    /// Under how many names, one after another, another file is there already where one is to be made.
    pub taken: u32,
    /// How many bytes are read or written before a fault.
    pub room: usize,
    /// Whether it can be flushed.
    pub flushes: bool,
    /// Whether it can be synced.
    pub syncs: bool,
    /// Whether it can be renamed.
    pub moves: bool,
    /// Whether the folder can be opened.
    pub opens_folder: bool,
    /// Whether the folder can be synced.
    pub syncs_folder: bool,
}

impl FilePlan {
    /// All calls succeed.
    pub const GOOD: FilePlan = FilePlan {
        opens: true,
        taken: 0,
        room: usize::MAX,
        flushes: true,
        syncs: true,
        moves: true,
        opens_folder: true,
        syncs_folder: true,
    };
}

/// What was done with the file.
#[derive(Clone, Copy, Debug, PartialEq, Eq)]
pub struct FileUse {
    /// How often it was opened for reading, made, and opened to be written whether or not it is there.
    pub opened: u32,
    pub made: u32,
    pub cut: u32,
    /// How often a file was to be made under a name that was taken.
    pub taken: u32,
    /// How many bytes were written, and whether they are those that were expected.
    pub written: usize,
    pub as_expected: bool,
    /// How many flushes there were, including the failed ones.
    pub flushes: u32,
    /// How often it was synced and renamed, including the failed calls, and removed.
    pub syncs: u32,
    pub moves: u32,
    pub removed: u32,
    /// How often the folder was opened and synced, including the failed calls.
    pub folders: u32,
    pub names: u32,
}

impl FileUse {
    /// Nothing was done.
    pub const NONE: FileUse = FileUse {
        opened: 0,
        made: 0,
        cut: 0,
        taken: 0,
        written: 0,
        as_expected: true,
        flushes: 0,
        syncs: 0,
        moves: 0,
        removed: 0,
        folders: 0,
        names: 0,
    };
}

/// A file system with one file, at any path but `.`, which is its folder. It is read as some bytes; what is written to it is compared with
/// them.
#[derive(Clone, Copy)]
pub struct FakeFiles<'a> {
    bytes: &'a [u8],
    plan: FilePlan,
    uses: &'a Cell<FileUse>,
}

/// The file or the folder, once it is open.
#[derive(Drop)]
pub struct FakeFile<'a> {
    is_folder: bool,
    bytes: &'a [u8],
    reader: FailingReader<'a>,
    plan: FilePlan,
    uses: &'a Cell<FileUse>,
}

/// A directory without names.
#[derive(Drop)]
pub struct NoNames;

fn err_unsupported<T>() -> io::Result<T> {
    Err(io::Error::from(ErrorKind::Unsupported))
}

// One more of a count.
fn more(count: u32) -> u32 {
    count.saturating_add(1)
}

fn done_if(works: bool) -> io::Result<()> {
    if works {
        return Ok(());
    }
    Err(io::Error::from(ErrorKind::Other))
}

impl<'a> FakeFiles<'a> {
    /// Makes a file of these bytes, or for them, which follows the plan and notes its uses.
    pub fn new(bytes: &'a [u8], plan: FilePlan, uses: &'a Cell<FileUse>) -> FakeFiles<'a> {
        FakeFiles { bytes, plan, uses }
    }

    // Notes how the file is opened. It can't be made where another one has its name.
    fn note_opening(&self, how: &OpenOptions) -> io::Result<()> {
        let mut uses = self.uses.get();
        if how.asks_create_new() && uses.taken < self.plan.taken {
            uses.taken = more(uses.taken);
            self.uses.set(uses);
            return Err(io::Error::from(ErrorKind::AlreadyExists));
        }
        if how.asks_create_new() {
            uses.made = more(uses.made);
        } else if how.asks_write() {
            uses.cut = more(uses.cut);
        } else {
            uses.opened = more(uses.opened);
        }
        self.uses.set(uses);
        Ok(())
    }

    fn open_folder(&self) -> io::Result<FakeFile<'a>> {
        let mut uses = self.uses.get();
        uses.folders = more(uses.folders);
        self.uses.set(uses);
        if !self.plan.opens_folder {
            return Err(io::Error::from(ErrorKind::PermissionDenied));
        }
        Ok(self.open_fake(true))
    }

    fn open_fake(&self, is_folder: bool) -> FakeFile<'a> {
        let ending = if self.plan.room < self.bytes.len() {
            Ending::Fault
        } else {
            Ending::Quiet
        };
        FakeFile {
            is_folder,
            bytes: self.bytes,
            reader: FailingReader::new(self.bytes, self.plan.room, 1000, ending),
            plan: self.plan,
            uses: self.uses,
        }
    }
}

impl<'a> Files for FakeFiles<'a> {
    type File = FakeFile<'a>;

    type Dir = NoNames;

    fn open_file(&self, how: &OpenOptions, path: &str) -> io::Result<FakeFile<'a>> {
        how.check()?;
        if path == "." {
            return self.open_folder();
        }
        self.note_opening(how)?;
        if !self.plan.opens {
            return Err(io::Error::from(ErrorKind::NotFound));
        }
        Ok(self.open_fake(false))
    }

    fn open_dir(&self, _path: &str) -> io::Result<NoNames> {
        err_unsupported()
    }

    fn metadata(&self, _path: &str) -> io::Result<Metadata> {
        Err(io::Error::from(ErrorKind::NotFound))
    }

    fn symlink_metadata(&self, _path: &str) -> io::Result<Metadata> {
        err_unsupported()
    }

    fn copy(&self, _from: &str, _to: &str) -> io::Result<u64> {
        err_unsupported()
    }

    fn rename(&self, _from: &str, _to: &str) -> io::Result<()> {
        let mut uses = self.uses.get();
        uses.moves = more(uses.moves);
        self.uses.set(uses);
        done_if(self.plan.moves)
    }

    fn remove_file(&self, _path: &str) -> io::Result<()> {
        let mut uses = self.uses.get();
        uses.removed = more(uses.removed);
        self.uses.set(uses);
        Ok(())
    }

    fn create_dir(&self, _path: &str) -> io::Result<()> {
        err_unsupported()
    }

    fn remove_dir(&self, _path: &str) -> io::Result<()> {
        err_unsupported()
    }

    fn remove_dir_all<B: Allocator>(&self, _alloc: B, _path: &str) -> io::Result<()> {
        err_unsupported()
    }
}

impl Read for FakeFile<'_> {
    fn read(&mut self, buf: &mut [u8]) -> io::Result<usize> {
        self.reader.read(buf)
    }
}

impl Write for FakeFile<'_> {
    fn write(&mut self, buf: &[u8]) -> io::Result<usize> {
        let mut uses = self.uses.get();
        let room = self.plan.room.saturating_sub(uses.written);
        if room == 0 && !buf.is_empty() {
            return Err(io::Error::from(ErrorKind::Other));
        }
        let count = buf.len().min(room);
        let expected = self.bytes.get(uses.written..).unwrap_or_default();
        uses.as_expected = uses.as_expected && expected.starts_with(&buf[..count]);
        uses.written = uses.written.saturating_add(count);
        self.uses.set(uses);
        Ok(count)
    }

    fn flush(&mut self) -> io::Result<()> {
        let mut uses = self.uses.get();
        uses.flushes = more(uses.flushes);
        self.uses.set(uses);
        done_if(self.plan.flushes)
    }
}

impl Seek for FakeFile<'_> {
    fn seek(&mut self, _to: SeekFrom) -> io::Result<u64> {
        err_unsupported()
    }
}

impl OpenFile for FakeFile<'_> {
    fn metadata(&self) -> io::Result<Metadata> {
        err_unsupported()
    }

    fn set_len(&self, _size: u64) -> io::Result<()> {
        err_unsupported()
    }

    fn sync_all(&self) -> io::Result<()> {
        let mut uses = self.uses.get();
        if self.is_folder {
            uses.names = more(uses.names);
            self.uses.set(uses);
            return done_if(self.plan.syncs_folder);
        }
        uses.syncs = more(uses.syncs);
        self.uses.set(uses);
        done_if(self.plan.syncs)
    }

    fn sync_data(&self) -> io::Result<()> {
        err_unsupported()
    }
}

impl Read for NoNames {
    fn read(&mut self, _buf: &mut [u8]) -> io::Result<usize> {
        Ok(0)
    }
}
