//! A reader or writer that remembers whether one of its calls failed.

ghost use Rattle.std.specs.Prelude.{◌||◌, ◌≡◌, ◌≢◌, false, IfErr, is_err, OnOk, true};
ghost use Rattle.device_lines.specs.Words.{device_of, error_kind, has_failed, is_broken};
ghost use Rattle.device_lines.specs.Words.{is_cut, is_write_fault, Keeps, ReadConsumes};
ghost use Rattle.device_lines.specs.Words.{ReadsAtMost, WriteAppends, WritesAtMost};

use std::io;
use std::io::{ErrorKind, Read, Write};

/// Passes its calls on to a reader or writer, and remembers whether one of them failed.
///
/// Its bytes are known if those of the device inside are: a contract can name what a reader has left and what a
/// writer holds.
#[derive(Drop)]
pub struct Watched<D> {
    device: D,
    failed: bool,
    broken: bool,
    cut: bool,
}

impl<D> Watched<D> {
    /// Watches a device, of which no call has failed yet.
    pub fn new(device: D) -> Self
        //= A watched device has not failed at first, and is the device that was given. [with fresh; also into_inner]
        ensures device { device_of result ≡ device }
        ensures fresh { has_failed result ≡ false }

        //= `broken()` is false at first; a `read` sets it exactly if it returns a fault that is neither an end of the input nor an
        //  interruption, and a call of a whole buffer only by such a `read`. [also read.whole.interrupted.early.broken,
        //  read_exact.whole.early.broken]
        ensures whole { is_broken result ≡ false }

        //= `cut()` is false at first; a `read` sets it exactly if it returns an end of the input as a fault, of the kind
        //  `UnexpectedEof`, and a call of a whole buffer only by such a `read`. [also read.kept.sound.cut, read_exact.kept.sound]
        ensures uncut { is_cut result ≡ false }
    {
        Watched {
            device,
            failed: false,
            broken: false,
            cut: false,
        }
    }

    /// Returns whether a call failed, or a write of some bytes took none.
    pub fn failed(&self) -> bool
        //= `failed`, `broken` and `cut` return these three flags. [also broken, cut]
        ensures { result ≡ has_failed self.now }
    {
        self.failed
    }

    /// Returns whether a read was broken off: by a fault that is neither an end of the input nor an interruption.
    pub fn broken(&self) -> bool
        ensures { result ≡ is_broken self.now }
    {
        self.broken
    }

    /// Returns whether a read returned the input's end as a fault, of the kind `UnexpectedEof`. Only such a reader can stop in front
    /// of its end without a call that is broken off.
    pub fn cut(&self) -> bool
        ensures { result ≡ is_cut self.now }
    {
        self.cut
    }

    /// Returns the device.
    pub fn into_inner(self) -> D
        ensures { result ≡ device_of self }
    {
        self.device
    }
}

// Only these three calls set the flags. The calls that read and write whole buffers are in `retries`, where the fields are out of reach, so
// they can't set them by themselves.

impl<R: Read> Watched<R> {
    /// Reads from the device once.
    pub(crate) fn read_once(&mut self, buf: &mut [u8]) -> io::Result<usize>
        ensures bound { ReadsAtMost result buf.new }
        ensures bytes { ReadConsumes (R.remaining (device_of self.old)) (R.remaining (device_of self.new)) result buf.new }
        ensures failed { has_failed self.new ≡ (has_failed self.old || is_err result) }
        ensures whole { OnOk result (is_broken self.new ≡ is_broken self.old) }
        ensures interrupted { IfErr result (λ e. error_kind e ≡ ErrorKind.Interrupted → is_broken self.new ≡ is_broken self.old) }
        ensures early { IfErr result (λ e. error_kind e ≡ ErrorKind.UnexpectedEof → is_broken self.new ≡ is_broken self.old) }
        ensures broken { IfErr result (λ e. error_kind e ≢ ErrorKind.Interrupted → error_kind e ≢ ErrorKind.UnexpectedEof → is_broken self.new ≡ true) }
        ensures kept { OnOk result (is_cut self.new ≡ is_cut self.old) }
        ensures sound { IfErr result (λ e. error_kind e ≢ ErrorKind.UnexpectedEof → is_cut self.new ≡ is_cut self.old) }
        ensures cut { IfErr result (λ e. error_kind e ≡ ErrorKind.UnexpectedEof → is_cut self.new ≡ true) }
    {
        let Watched {
            device,
            failed,
            broken,
            cut,
        } = self;
        let taken = device.read(buf);
        if let Err(error) = &taken {
            *failed = true;
            let kind = error.kind();
            if kind == ErrorKind::UnexpectedEof {
                *cut = true;
            } else if kind != ErrorKind::Interrupted {
                *broken = true;
            }
        }
        taken
    }
}

impl<W: Write> Watched<W> {
    /// Writes to the device once.
    pub(crate) fn write_once(&mut self, buf: &[u8]) -> io::Result<usize>
        ensures bound { WritesAtMost result buf.now }
        ensures bytes { WriteAppends (W.contents (device_of self.old)) (W.contents (device_of self.new)) result buf.now }
        ensures failed { has_failed self.new ≡ (has_failed self.old || is_write_fault result buf.now) }
        ensures whole { is_broken self.new ≡ is_broken self.old }
        ensures kept { is_cut self.new ≡ is_cut self.old }
    {
        let Watched { device, failed, .. } = self;
        let written = device.write(buf);
        match &written {
            Ok(0) if !buf.is_empty() => *failed = true,
            Ok(_) => {}
            Err(_) => *failed = true,
        }
        written
    }

    /// Flushes the device once.
    pub(crate) fn flush_once(&mut self) -> io::Result<()>
        ensures bytes { Keeps (W.contents (device_of self.old)) (W.contents (device_of self.new)) }
        ensures failed { has_failed self.new ≡ (has_failed self.old || is_err result) }
        ensures whole { is_broken self.new ≡ is_broken self.old }
        ensures kept { is_cut self.new ≡ is_cut self.old }
    {
        let Watched { device, failed, .. } = self;
        let flushed = device.flush();
        if flushed.is_err() {
            *failed = true;
        }
        flushed
    }
}
