//! Reads and writes of a watched device: single ones, and those of whole buffers, which try again after an interruption.
//!
//! The flags of `Watched` are out of reach here. So only a failed call of the device sets them.

ghost use Rattle.std.specs.Prelude.{◌||◌, ◌≡◌, ◌≢◌, false, IfErr, is_err, length};
ghost use Rattle.std.specs.Prelude.{OnErr, OnOk, true};
ghost use Rattle.device_lines.specs.Words.{Appends, Consumes, device_of, EndsWithin, error_kind};
ghost use Rattle.device_lines.specs.Words.{has_failed, is_broken, is_cut, is_write_fault, Keeps};
ghost use Rattle.device_lines.specs.Words.{ReadConsumes, ReadsAtMost, WriteAppends, WritesAtMost};

use crate::watched::Watched;
use std::io;
use std::io::{ErrorKind, Read, Write};

impl<R: Read> Read for Watched<R> {
    ghost remaining = { λ w. R.remaining (device_of w) };

    fn read(&mut self, buf: &mut [u8]) -> io::Result<usize>
        //= A read gives no more bytes than its buffer has, and a write takes no more than it is given. [also write]
        ensures bound { ReadsAtMost result buf.new }

        //= A `read`, a `write` and a `flush` say about the bytes what the types of their devices say. [also write, flush]
        ensures bytes { ReadConsumes (R.remaining (device_of self.old)) (R.remaining (device_of self.new)) result buf.new }

        //= A `read`, a `write` and a `flush` set `failed()` exactly if they return a fault; a `write` also if it takes none of some bytes.
        //  [also write, flush]
        ensures failed { has_failed self.new ≡ (has_failed self.old || is_err result) }
        ensures whole { OnOk result (is_broken self.new ≡ is_broken self.old) }
        ensures interrupted { IfErr result (λ e. error_kind e ≡ ErrorKind.Interrupted → is_broken self.new ≡ is_broken self.old) }
        ensures early { IfErr result (λ e. error_kind e ≡ ErrorKind.UnexpectedEof → is_broken self.new ≡ is_broken self.old) }
        ensures broken { IfErr result (λ e. error_kind e ≢ ErrorKind.Interrupted → error_kind e ≢ ErrorKind.UnexpectedEof → is_broken self.new ≡ true) }
        ensures kept { OnOk result (is_cut self.new ≡ is_cut self.old) }
        ensures sound { IfErr result (λ e. error_kind e ≢ ErrorKind.UnexpectedEof → is_cut self.new ≡ is_cut self.old) }
        ensures cut { IfErr result (λ e. error_kind e ≡ ErrorKind.UnexpectedEof → is_cut self.new ≡ true) }
    {
        self.read_once(buf)
    }

    // An interrupted read is tried again. It still counts as a fault, but not as one that broke off.
    fn read_exact(&mut self, buf: &mut [u8]) -> io::Result<()>
        //= `read_exact` and `write_all` state what was read and written if they succeed; if `write_all` fails, a call of the device failed.
        //  [with ended, kind; also write_all.bytes.err]
        ensures bytes { OnOk result (Consumes (R.remaining (device_of self.old)) (R.remaining (device_of self.new)) buf.new) }
        ensures ended { OnErr result (has_failed self.new ≡ false → EndsWithin (R.remaining (device_of self.old)) (length buf.old)) }
        ensures kind { IfErr result (λ e. has_failed self.new ≡ false → error_kind e ≡ ErrorKind.UnexpectedEof) }

        //= A device that has failed stays failed. [also read, write, flush, write_all]
        ensures failed { has_failed self.old ≡ true → has_failed self.new ≡ true }
        ensures whole { OnOk result (is_broken self.new ≡ is_broken self.old) }
        ensures early { IfErr result (λ e. error_kind e ≡ ErrorKind.UnexpectedEof → is_broken self.new ≡ is_broken self.old) }
        ensures broken { IfErr result (λ e. error_kind e ≢ ErrorKind.Interrupted → error_kind e ≢ ErrorKind.UnexpectedEof → is_broken self.new ≡ true) }
        ensures kept { OnOk result (is_cut self.new ≡ is_cut self.old) }
        ensures sound { IfErr result (λ e. error_kind e ≢ ErrorKind.UnexpectedEof → is_cut self.new ≡ is_cut self.old) }

        //= A `read_exact` that returns an end of the input has found fewer bytes than its buffer takes, unless a read returned that end as
        //  a fault.
        ensures short { IfErr result (λ e. error_kind e ≡ ErrorKind.UnexpectedEof → is_cut self.new ≡ false → EndsWithin (R.remaining (device_of self.old)) (length buf.old)) }
    {
        let mut filled = 0;
        let mut tries = u64::MAX;
        while filled < buf.len() {
            match self.read_once(&mut buf[filled..]) {
                Ok(0) => return Err(io::Error::from(ErrorKind::UnexpectedEof)),
                Ok(count) => filled += count,
                Err(error) => {
                    if error.kind() != ErrorKind::Interrupted || tries == 0 {
                        return Err(error);
                    }
                    tries -= 1;
                }
            }
        }
        Ok(())
    }
}

impl<W: Write> Write for Watched<W> {
    ghost contents = { λ w. W.contents (device_of w) };

    fn write(&mut self, buf: &[u8]) -> io::Result<usize>
        ensures bound { WritesAtMost result buf.now }
        ensures bytes { WriteAppends (W.contents (device_of self.old)) (W.contents (device_of self.new)) result buf.now }
        ensures failed { has_failed self.new ≡ (has_failed self.old || is_write_fault result buf.now) }
    {
        self.write_once(buf)
    }

    fn flush(&mut self) -> io::Result<()>
        ensures bytes { Keeps (W.contents (device_of self.old)) (W.contents (device_of self.new)) }
        ensures failed { has_failed self.new ≡ (has_failed self.old || is_err result) }
    {
        self.flush_once()
    }

    // An interrupted write is tried again. It still counts as a fault.
    fn write_all(&mut self, buf: &[u8]) -> io::Result<()>
        ensures bytes { OnOk result (Appends (W.contents (device_of self.old)) (W.contents (device_of self.new)) buf.now) }
        ensures err { OnErr result (has_failed self.new ≡ true) }
        ensures failed { has_failed self.old ≡ true → has_failed self.new ≡ true }
    {
        let mut rest = buf;
        let mut tries = u64::MAX;
        while !rest.is_empty() {
            match self.write_once(rest) {
                Ok(0) => return Err(io::Error::from(ErrorKind::WriteZero)),
                Ok(count) => rest = &rest[count..],
                Err(error) => {
                    if error.kind() != ErrorKind::Interrupted || tries == 0 {
                        return Err(error);
                    }
                    tries -= 1;
                }
            }
        }
        Ok(())
    }
}
