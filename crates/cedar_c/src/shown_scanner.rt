//! A scanner that is lent for reading, as a pointer that C can copy.

ghost use Rattle.std.specs.Prelude.{◌≡◌, ℕ, Option, Some, IsSome};
ghost use Rattle.cedar_c.specs.FieldWords.{AnyScanner, coded_option, held_scanner_lends};
ghost use Rattle.cedar_c.specs.FieldWords.{scanner_code, shown_scanner_owns};

use crate::any_scanner::AnyScanner;
use std::marker::{Model, Send};

/// A pointer to a scanner that isn't freed while it is read, or to none. It has a lifetime of its own, for which the scanner is lent, and
/// so any number of them may have the same scanner.
#[repr(C)]
#[derive(Drop)]
pub struct ShownScanner {
    at: *const u8,
    pub(crate) ghost value: { Option AnyScanner } by { coded_option scanner_code },
    ghost life: { ℕ },
}

impl Model for ShownScanner {
    ghost also_owns = { λ s. shown_scanner_owns s.at s.value s.life };
}

impl ShownScanner {
    ghost use Rattle.cedar_c.specs.Words.{as_shown_scanner, LendsSeenScanner, sem};

    /// The same pointer, as one that is read through a `&`: no type with such a pointer may cross to C.
    pub(crate) fn see(&mut self) -> &mut SeenScanner
        ensures* writes_back { sem 𝓛 (LendsSeenScanner self.entry result) }
        ensures same { self.old ≡ as_shown_scanner result.now }
    {
        unsafe { &mut *(&raw mut *self as *mut SeenScanner) }
    }
}

// What it owns is the right to end its lifetime, and a `&` to a scanner, which any thread may read.
unsafe impl Send for ShownScanner {}

/// What a `ShownScanner` is while it is borrowed.
#[repr(C)]
pub(crate) struct SeenScanner {
    at: *const u8,
    pub(crate) ghost value: { Option AnyScanner } by { coded_option scanner_code },
    ghost life: { ℕ },
}

impl Model for SeenScanner {
    ghost also_owns = { λ s. shown_scanner_owns s.at s.value s.life };

    ghost also_shares = { λ s _ κ. held_scanner_lends s.at s.value κ };
}

impl SeenScanner {
    /// The scanner.
    pub(crate) fn scanner(&self) -> &AnyScanner
        requires { IsSome self.now.value }
        ensures { self.now.value ≡ Some result.now }
    {
        unsafe { &*(self.at as *const AnyScanner) }
    }
}
