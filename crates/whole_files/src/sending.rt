//! What was written to something that isn't a file, as it was noted.

ghost use Rattle.std.specs.Prelude.{◌≡◌, ◌++◌, ◌∷◌, [], IfOk};
ghost use Rattle.whole_files.specs.Words.{address, IsNoFile, told_after, was_opened};

use crate::history::History;
use crate::opening::{OPENED_AT, TO_WRITE};
use std::fs::Metadata;
use std::io::{self, ErrorKind};
use std::marker::PhantomData;

const FOUND: u64 = 9;

const SENT: u64 = 10;

/// What was written to something that is among the files `F` and isn't a file.
#[derive(Drop)]
pub struct Sent<F> {
    found: Metadata,
    history: History,
    among: PhantomData<F>,
    ghost special: { IsNoFile found },
}

impl<F> Sent<F> {
    ghost use Rattle.whole_files.specs.SpecialFiles.{sent_calls};

    /// Something at a path, once it is open and the system has said what it is. Nothing was written to it.
    ///
    /// # Errors
    /// `Unsupported` if it is a file.
    pub(crate) fn at(path: &str, found: Metadata) -> io::Result<Sent<F>>
        ensures { IfOk result (λ sent. told_after (sent_calls sent) ≡ address path.now) }
    {
        if found.is_file() {
            return Err(ErrorKind::Unsupported.into());
        }
        let mut history = History::new();
        history.note(&[FOUND, 0, 1], path.as_bytes());
        Ok(Sent {
            found,
            history,
            among: PhantomData,
        })
    }

    /// Notes bytes that were taken.
    pub(crate) fn note(&mut self, bytes: &[u8])
        ensures { told_after (sent_calls self.new) ≡ told_after (sent_calls self.old) ++ bytes.now }
    {
        self.history.note(&[SENT, 0, 1], bytes);
    }

    /// Notes that it was opened, for whoever outlives it.
    pub(crate) fn opening(&self) -> History
        ensures { result.calls ≡ was_opened ∷ [] }
    {
        let mut opened = History::new();
        opened.note(&[OPENED_AT, TO_WRITE, 1], &[]);
        opened
    }

    /// Returns what the system said of it once it was open: it isn't a file.
    pub fn found_metadata(&self) -> &Metadata
        //= What is written to as it is isn't a file, by what the system says of it once it is open.
        ensures { IsNoFile result.now }
    {
        &self.found
    }
}
