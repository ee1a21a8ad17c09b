//! A list of calls that only clauses read. It occupies no memory.

ghost use Rattle.std.specs.Prelude.{◌≡◌, is_ok, length, List, [], ◌∷◌};
ghost use Rattle.whole_files.specs.Words.{Call, call_of, call_with, ftrue, TookSome};
ghost use Rattle.whole_files.specs.Words.{write_by_outcome};

use crate::wrote::Wrote;
use std::io;
use std::marker::{Model, PhantomData};

/// The kind of the call by which a file was opened.
pub const OPENED: u64 = 0;

const WRITTEN: u64 = 1;

/// The kind of a sync of a file.
pub const SYNCED: u64 = 3;

/// The kind of a sync of the folder that has a file's name.
pub const NAMED: u64 = 5;

const FOUND_NO_ROOM: u64 = 9;

const INTERRUPTED: u64 = 10;

/// The calls on one file, the newest first.
#[derive(Drop)]
pub struct History {
    marker: PhantomData<u8>,
    pub ghost calls: { List Call },
}

impl Model for History {
    ghost also_owns = { λ _. ftrue };
}

impl History {
    /// Returns a list without calls.
    pub fn new() -> History
        //= A list of notes begins without any.
        ensures { result.calls ≡ [] }
    {
        History {
            marker: PhantomData,
        }
    }

    /// Adds a call. The numbers are its kind, its offset or length, and 1 for success.
    pub fn note(&mut self, _numbers: &[u64], _bytes: &[u8])
        //= A note adds one call to the list, of what it is given, and changes no other one.
        //  [also note_call, note_answer.noted, note_write.noted]
        ensures { self.new.calls ≡ call_of _numbers.now _bytes.now ∷ self.old.calls }
    {}

    /// Adds a call of a kind.
    pub fn note_call(&mut self, kind: u64, at: usize, ok: bool, bytes: &[u8])
        ensures { self.new.calls ≡ call_with kind at ok bytes.now ∷ self.old.calls }
    {
        self.note(&[kind, at as u64, u64::from(ok)], bytes);
    }

    /// Adds a call with its result, and returns that.
    pub fn note_answer(
        &mut self,
        kind: u64,
        at: usize,
        bytes: &[u8],
        answer: io::Result<()>,
    ) -> io::Result<()>
        ensures noted { self.new.calls ≡ call_with kind at (is_ok result) bytes.now ∷ self.old.calls }
        //= The answer of a call that is noted is handed on as it is, and its note has just that outcome.
        ensures same { result ≡ answer }
    {
        match answer {
            Ok(()) => {
                self.note_call(kind, at, true, bytes);
                Ok(())
            }
            Err(error) => {
                self.note_call(kind, at, false, bytes);
                Err(error)
            }
        }
    }

    /// Adds what a call did that writes these bytes at this offset.
    pub fn note_write(&mut self, at: usize, bytes: &[u8], wrote: Wrote)
        requires took { TookSome at (length bytes.now) wrote }
        ensures noted { self.new.calls ≡ write_by_outcome at bytes.now wrote ∷ self.old.calls }
    {
        match wrote {
            Wrote::Bytes(count) => self.note_call(WRITTEN, at, true, &bytes[..count]),
            Wrote::Nothing => self.note_call(INTERRUPTED, 0, true, &[]),
            Wrote::Full(_) => self.note_call(FOUND_NO_ROOM, 0, false, &[]),
            Wrote::Failed(_) => self.note_call(WRITTEN, at, false, bytes),
        }
    }
}
