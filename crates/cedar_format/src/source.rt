//! What a file is loaded from: a watched reader, or bytes in memory.

ghost use Rattle.std.specs.Prelude.{◌<◌, ◌≡◌, ◌≢◌, ◌≤◌, Bool, false, IfErr, IfNone, IfSome, length};
ghost use Rattle.std.specs.Prelude.{List, OnOk, OnSome, Option, Some, take, true, ℕ};
ghost use Rattle.cedar_format.specs.Words.{Consumes, device_of, EndsShort, error_kind, has_failed};
ghost use Rattle.cedar_format.specs.Words.{Io, is_broken, is_cut, IsAtEnd, IsLack, Misses};
ghost use Rattle.cedar_format.specs.Words.{TellsBreaks, Truncated};

use crate::buffer::take_bytes;
use crate::error::CedarPersistenceError;
use device_lines::Watched;
use std::io;
use std::io::{ErrorKind, Read};

/// What a file is loaded from, and whether its reading has failed.
///
/// The calls that load know only what this trait says of it. A [`Watched`] reader has failed if one of its calls
/// did. Bytes in memory, `&[u8]`, never fail, and begin after what was taken.
pub trait Source {
    /// The bytes that are left, if they are known.
    ghost remaining: { Self → Option (List ℕ) };

    /// Whether a read has failed so far.
    ghost failed: { Self → Bool };

    /// Whether a read has been broken off so far, by a fault that is neither an end of the input nor an interruption.
    ghost broken: { Self → Bool };

    /// Whether a read returned the input's end as a fault so far.
    ghost cut: { Self → Bool };

    /// Fills the buffer.
    ///
    /// # Errors
    /// `Truncated` if fewer bytes were left; `Io` if the reading failed.
    fn fill(&mut self, buf: &mut [u8]) -> Result<(), CedarPersistenceError>
        //= A `Source` fills a buffer with exactly the bytes that it had left, or its reading failed, or too few were left. [with misses]
        ensures bytes { OnOk result (Consumes (remaining self.old) (remaining self.new) buf.new) }
        ensures misses { IfErr result (Misses (remaining self.old) (failed self.new) (length buf.old)) }

        //= An end of the input is where the bytes end, unless a read returned it as a fault. [also read_available.ended.cuts; by
        //  EndsShort]
        ensures short { IfErr result (EndsShort (remaining self.old) (cut self.new) (length buf.old)) }

        //= A device that has failed stays failed. [also read_available, write_lists.failed, read_header.failed, write_header.failed,
        //  write_i16.failed, write_i32.failed, write_usize.failed]
        ensures stays { failed self.old ≡ true → failed self.new ≡ true }

        //= If a read was broken off, no buffer is filled and no end of the input is reported; a fault comes only before the buffer is full.
        //  [also read_available.short.whole.early]
        ensures told { TellsBreaks (broken self.old) (broken self.new) result };

    /// Fills the buffer as far as the input goes. Returns how many bytes came, and the fault that ended them.
    fn read_available(&mut self, buf: &mut [u8]) -> (usize, Option<io::Error>)
        //= As far as the input goes, a buffer is filled with exactly the bytes that came; with fewer only at the input's end or if the
        //  reading failed. [with bytes, ended, fault]
        ensures within { result.0 ≤ length buf.new }
        ensures bytes { Consumes (remaining self.old) (remaining self.new) (take result.0 buf.new) }
        ensures ended { IfNone result.1 (result.0 < length buf.new → IsAtEnd (remaining self.new)) }
        ensures fault { OnSome result.1 (failed self.new ≡ true) }
        ensures short { OnSome result.1 (result.0 < length buf.new) }
        ensures stays { failed self.old ≡ true → failed self.new ≡ true }
        ensures whole { IfNone result.1 (broken self.new ≡ broken self.old) }
        ensures early { IfSome result.1 (λ e. error_kind e ≡ ErrorKind.UnexpectedEof → broken self.new ≡ broken self.old) }
        ensures cuts { IfSome result.1 (λ e. error_kind e ≡ ErrorKind.UnexpectedEof → cut self.new ≡ true) };
}

impl Source for &[u8] {
    ghost remaining = { λ bytes. Some bytes.now };

    ghost failed = { λ bytes. false };

    ghost broken = { λ bytes. false };

    ghost cut = { λ bytes. false };

    fn fill(&mut self, buf: &mut [u8]) -> Result<(), CedarPersistenceError> {
        if self.len() < buf.len() {
            return Err(CedarPersistenceError::Truncated);
        }
        take_bytes(self, buf);
        Ok(())
    }

    fn read_available(&mut self, buf: &mut [u8]) -> (usize, Option<io::Error>) {
        let count = self.len().min(buf.len());
        take_bytes(self, &mut buf[..count]);
        (count, None)
    }
}

impl<R: Read> Source for Watched<R> {
    ghost remaining = { λ w. R.remaining (device_of w) };

    ghost failed = { has_failed };

    ghost broken = { is_broken };

    ghost cut = { is_cut };

    fn fill(&mut self, buf: &mut [u8]) -> Result<(), CedarPersistenceError> {
        match self.read_exact(buf) {
            Ok(()) => Ok(()),
            Err(error) => Err(fault_of(error)),
        }
    }

    fn read_available(&mut self, buf: &mut [u8]) -> (usize, Option<io::Error>) {
        let mut filled = 0;
        let mut tries = u64::MAX;
        while filled < buf.len() {
            match self.read(&mut buf[filled..]) {
                Ok(0) => return (filled, None),
                Ok(count) => filled += count,
                Err(error) => {
                    if error.kind() != ErrorKind::Interrupted || tries == 0 {
                        return (filled, Some(error));
                    }
                    tries -= 1;
                }
            }
        }
        (filled, None)
    }
}

/// Returns the error for a fault of the reader: its own end of input is an end of input.
pub(crate) fn fault_of(error: io::Error) -> CedarPersistenceError
    ensures end { error_kind error ≡ ErrorKind.UnexpectedEof → result ≡ Truncated }
    ensures only { result ≡ Truncated → error_kind error ≡ ErrorKind.UnexpectedEof }
    ensures other { error_kind error ≢ ErrorKind.UnexpectedEof → result ≡ Io error }
    ensures room { IsLack result → ⊥ }
{
    if error.kind() == ErrorKind::UnexpectedEof {
        CedarPersistenceError::Truncated
    } else {
        CedarPersistenceError::Io(error)
    }
}
