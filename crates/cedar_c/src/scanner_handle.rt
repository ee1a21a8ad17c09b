//! What C has of a scanner.

// Not this crate's `Words`: those name the struct.
ghost use Rattle.std.specs.Prelude.{◌<◌, ◌↔◌, ◌≡◌, IsSome, None, option_map, Some};

use crate::any_scanner::AnyScanner;
use crate::held_scanner::HeldScanner;
use crate::loose::Loose;
use std::alloc::Global;
use std::mem;

/// What C has of a scanner: the scanner, or none while it is closed. Whether it is open is a word, as in a `Handle`.
#[repr(C)]
#[derive(Drop)]
pub struct ScannerHandle {
    pub(crate) held: HeldScanner,
    is_open: u32,
    ghost tells: { (0 < is_open) ↔ IsSome held.value },
}

impl ScannerHandle {
    fn new_closed() -> ScannerHandle
        ensures { result.held.value ≡ None }
    {
        ScannerHandle {
            held: HeldScanner::none(),
            is_open: 0,
        }
    }

    pub(crate) fn of(scanner: Box<AnyScanner, Global>) -> ScannerHandle
        ensures { result.held.value ≡ Some scanner.value }
    {
        ScannerHandle {
            held: HeldScanner::of(Loose::of(scanner)),
            is_open: 1,
        }
    }

    /// Takes the scanner out, which closes the handle.
    pub(crate) fn take(&mut self, alloc: Global) -> Option<Box<AnyScanner, Global>>
        ensures taken { option_map (λ b. b.value) result ≡ self.old.held.value }
        ensures closed { self.new.held.value ≡ None }
    {
        if self.is_open == 0 {
            return None;
        }
        let ScannerHandle { held, .. } = mem::replace(self, ScannerHandle::new_closed());
        Some(held.into_loose(alloc).into_box())
    }
}
