//! A scanner on the heap, as a pointer that C can keep.

ghost use Rattle.std.specs.Prelude.{◌≡◌, Option, None, Some, IsSome};
ghost use Rattle.cedar_c.specs.FieldWords.{AnyScanner, coded_option, held_scanner_owns};
ghost use Rattle.cedar_c.specs.FieldWords.{scanner_code};

use crate::any_scanner::AnyScanner;
use crate::loose::Loose;
use std::alloc::Global;
use std::marker::{Model, Send};

/// A pointer to a scanner, whose type C can't see, or no scanner. Dropped, it forgets the scanner.
#[repr(C)]
#[derive(Drop)]
pub struct HeldScanner {
    at: *mut u8,
    pub(crate) ghost value: { Option AnyScanner } by { coded_option scanner_code },
}

impl Model for HeldScanner {
    ghost also_owns = { λ h. held_scanner_owns h.at h.value };
}

impl HeldScanner {
    /// No scanner.
    pub(crate) fn none() -> HeldScanner
        ensures { result.value ≡ None }
    {
        HeldScanner {
            at: std::ptr::null_mut(),
        }
    }

    pub(crate) fn of(scanner: Loose<AnyScanner, Global>) -> HeldScanner
        ensures { result.value ≡ Some scanner.value }
    {
        let Loose { at, alloc: _ } = scanner;
        HeldScanner { at: at as *mut u8 }
    }

    pub(crate) fn into_loose(self, alloc: Global) -> Loose<AnyScanner, Global>
        requires { IsSome self.value }
        ensures { self.value ≡ Some result.value }
    {
        let HeldScanner { at } = self;
        Loose {
            at: at as *mut AnyScanner,
            alloc,
        }
    }
}

// What it owns is the scanner and its block, which any thread may use and free.
unsafe impl Send for HeldScanner {}
