//! How far a list or a text is read, reported on standard error while the program is at work for more than a second.

use std::io::Write;
use std::time::{Clock, Duration};

/// How many milliseconds pass between two reports.
const TOLD_AFTER: u128 = 1000;

/// What counts the bytes that are read.
pub(crate) trait Meter {
    /// Counts some bytes. None is the end of the input.
    fn count(&mut self, bytes: usize);
}

/// Reports each second how much is read.
#[derive(Drop)]
pub(crate) struct Progress<'c, C, E> {
    clock: &'c C,
    errors: E,
    /// Whether lines are written anew in one place.
    in_place: bool,
    /// Whether anything is reported.
    is_told: bool,
    /// How many bytes are read.
    read: u64,
    /// When it was last reported, or the first byte came.
    told: Option<Duration>,
    /// Whether a line is on the terminal.
    stands: bool,
}

impl<'c, C: Clock, E: Write> Progress<'c, C, E> {
    /// One that reports or doesn't: on a terminal in one place, or otherwise a line each time.
    pub(crate) fn new(
        clock: &'c C,
        errors: E,
        is_told: bool,
        in_place: bool,
    ) -> Progress<'c, C, E> {
        Progress {
            clock,
            errors,
            in_place,
            is_told,
            read: 0,
            told: None,
            stands: false,
        }
    }

    /// Whether a second has passed since the last report.
    fn is_due(&mut self) -> bool {
        let Ok(now) = self.clock.monotonic() else {
            return false;
        };
        match self.told {
            Some(told) if now.saturating_sub(told).as_millis() < TOLD_AFTER => false,
            told => {
                self.told = Some(now);
                told.is_some()
            }
        }
    }

    /// Reports how much is read.
    fn tell(&mut self) {
        let read = self.read / 1048576;
        let _ = if self.in_place {
            self.stands = true;
            write!(self.errors, "\rroskvidh: {read} MiB read")
        } else {
            writeln!(self.errors, "roskvidh: {read} MiB read")
        };
    }

    /// Removes the line from the terminal.
    fn clear(&mut self) {
        if self.stands {
            self.stands = false;
            let _ = self.errors.write_all(b"\r\x1b[K");
        }
    }
}

impl<'c, C: Clock, E: Write> Meter for Progress<'c, C, E> {
    fn count(&mut self, bytes: usize) {
        if !self.is_told {
            return;
        }
        if bytes == 0 {
            self.clear();
            return;
        }
        self.read = self.read.saturating_add(bytes as u64);
        if self.is_due() {
            self.tell();
        }
    }
}
