//! What is at a path and isn't a file, such as a pipe or a device: it is written to as it is.
//!
//! Nothing else in the crate writes to it. This is believed, as of `noted.rt`: that it is opened at the path that is noted, and that its
//! bytes are those that a `write` takes.

ghost use Rattle.std.specs.Prelude.{◌≡◌, ◌∷◌, [], IfOk, Some};
ghost use Rattle.whole_files.specs.Words.{address, ForSome, told_after, was_opened};
ghost use Rattle.whole_files.specs.SpecialFiles.{sent_calls, special_told};

use crate::history::History;
use crate::sending::Sent;
use std::fs::{self, OpenFile, OpenOptions};
use std::io::{self, Write};
use std::rt::Files;

/// What is at a path and isn't a file, open to be written to. It is a writer, which notes what it takes.
#[derive(Drop)]
pub struct Special<F: Files> {
    file: F::File,
    sent: Sent<F>,
}

/// Opens what is at `path` to be written to, unless it is a file: then nothing is opened. It is neither made nor cut. None if a file is
/// there, or nothing, or if the system doesn't say.
///
/// # Errors
/// That of opening it. `Unsupported` if a file has come to be there meanwhile.
pub fn special_at<F: Files>(files: &F, path: &str) -> io::Result<Option<Special<F>>>
    //= What is opened at a path and isn't a file has taken no byte yet.
    ensures { IfOk result (λ found. ForSome found (λ special. special_told special ≡ address path.now)) }
{
    match fs::metadata(files, path) {
        Ok(found) if !found.is_file() => Ok(Some(open_special(files, path)?)),
        _ => Ok(None),
    }
}

/// Opens what isn't a file.
fn open_special<F: Files>(files: &F, path: &str) -> io::Result<Special<F>>
    ensures { IfOk result (λ special. special_told special ≡ address path.now) }
{
    let file = OpenOptions::new().write(true).open(files, path)?;
    let found = file.metadata()?;
    let sent = Sent::at(path, found)?;
    Ok(Special { file, sent })
}

impl<F: Files> Special<F> {
    /// Notes that it was opened, for whoever outlives it.
    pub(crate) fn opening(&self) -> History
        ensures { result.calls ≡ was_opened ∷ [] }
    {
        self.sent.opening()
    }

    /// Closes it, and returns what was written to it.
    pub fn into_sent(self) -> Sent<F>
        //= Once it is closed, exactly what was written to it is known.
        ensures { told_after (sent_calls result) ≡ special_told self }
    {
        let Special { sent, .. } = self;
        sent
    }
}

impl<F: Files> Write for Special<F> {
    //= What was written to something that isn't a file is known: where it is, and behind that exactly the bytes of the writes that succeeded.
    ghost contents = { λ special. Some (special_told special) };

    fn write(&mut self, buf: &[u8]) -> io::Result<usize> {
        let count = self.file.write(buf)?;
        self.sent.note(&buf[..count]);
        Ok(count)
    }

    fn flush(&mut self) -> io::Result<()> {
        self.file.flush()
    }
}
