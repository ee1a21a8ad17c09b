//! Files that are opened by their paths to be written. Each opening is noted with its path, and with which file was wanted.
//!
//! No contract can say what the system does. So this is believed, as of `noted.rt`: that `find_file` makes the call that its clause notes.
//! The fields are private, so that nothing else notes one. The note has the type of the files that the call was made on: what is open
//! elsewhere, through a type of one's own, has another one.

ghost use Rattle.std.specs.Prelude.{◌≡◌, ◌∷◌, [], IfOk};
ghost use Rattle.cedar_disk.specs.OpenedFiles.{found_calls, found_path};
ghost use Rattle.cedar_disk.specs.Words.{opened_as, way_of};

use std::alloc::Allocator;
use std::fs::{OpenFile, OpenOptions};
use std::io;
use std::marker::PhantomData;
use std::path::PathBuf;
use std::rt::Files;
use whole_files::{History, OPENED_AT};

/// Which file an opening takes.
#[derive(Clone, Copy, Debug, PartialEq, Eq)]
pub(crate) enum Wanted {
    /// The one that is there, or a new one.
    Any,
    /// Only one that is there.
    Existing,
    /// Only a new one.
    New,
}

impl Wanted {
    // The number that an opening is noted with.
    pub(crate) fn way(self) -> u64
        ensures { result ≡ way_of self }
    {
        match self {
            Wanted::Any => 0,
            Wanted::Existing => 1,
            Wanted::New => 2,
        }
    }
}

/// The path of a file that was found among the files `F`, with no link in it.
#[derive(Drop)]
pub(crate) struct Found<F, A: Allocator> {
    path: PathBuf<A>,
    history: History,
    among: PhantomData<F>,
}

impl<F, A: Allocator> Found<F, A> {
    /// Returns the path.
    pub(crate) fn path(&self) -> &str
        ensures { result.now ≡ found_path self.now }
    {
        self.path.as_str()
    }
}

/// Finds the file that is wanted at a path, or creates it.
pub(crate) fn find_file<F: Files, A: Allocator>(
    files: &F,
    alloc: A,
    path: &str,
    wanted: Wanted,
) -> io::Result<Found<F, A>>
    ensures noted { IfOk result (λ found. found_calls found ≡ opened_as (way_of wanted) path.now ∷ []) }
{
    OpenOptions::new()
        .read(true)
        .write(true)
        .create(wanted == Wanted::Any)
        .create_new(wanted == Wanted::New)
        .open(files, path)?;
    let real = files.canonicalize(alloc, path)?;
    let mut history = History::new();
    history.note(&[OPENED_AT, wanted.way(), 1], path.as_bytes());
    Ok(Found {
        path: real,
        history,
        among: PhantomData,
    })
}
