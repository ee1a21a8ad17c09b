//! What C has of a scanner that is only read.

ghost use Rattle.std.specs.Prelude.{◌<◌, ◌↔◌, IsSome, IsTrue};

use crate::shown_scanner::ShownScanner;

/// A scanner that is lent for reading, or none while it is closed: the same words as a `ScannerHandle`'s.
#[repr(C)]
#[derive(Drop)]
pub struct ScannerReading {
    pub(crate) shown: ShownScanner,
    is_open: u32,
    ghost tells: { (0 < is_open) ↔ IsSome shown.value },
}

impl ScannerReading {
    pub(crate) fn is_open(&self) -> bool
        ensures { IsTrue result ↔ IsSome self.now.shown.value }
    {
        self.is_open != 0
    }
}
