//! A dictionary that is lent for reading, as a pointer that C can copy.

ghost use Rattle.std.specs.Prelude.{◌≡◌, ℕ, Option, Some, IsSome};
ghost use Rattle.cedar_c.specs.FieldWords.{any_code, AnyCedar, coded_option};
ghost use Rattle.cedar_c.specs.FieldWords.{held_lends, shown_owns};

use either_layout::AnyCedar;
use std::marker::{Model, Send};

/// A pointer to a dictionary that isn't changed while it is read, or to none. It has a lifetime of its own, for which the dictionary
/// is lent, and so any number of them may have the same dictionary.
#[repr(C)]
#[derive(Drop)]
pub struct Shown {
    at: *const u8,
    pub(crate) ghost value: { Option AnyCedar } by { coded_option any_code },
    ghost life: { ℕ },
}

impl Model for Shown {
    ghost also_owns = { λ s. shown_owns s.at s.value s.life };
}

impl Shown {
    ghost use Rattle.cedar_c.specs.Words.{as_shown, LendsSeen, sem};

    /// The same pointer, as one that is read through a `&`: no type with such a pointer may cross to C.
    pub(crate) fn see(&mut self) -> &mut Seen
        ensures* writes_back { sem 𝓛 (LendsSeen self.entry result) }
        ensures same { self.old ≡ as_shown result.now }
    {
        unsafe { &mut *(&raw mut *self as *mut Seen) }
    }
}

// What it owns is the right to end its lifetime, and a `&` to a dictionary, which any thread may read.
unsafe impl Send for Shown {}

/// What a `Shown` is while it is borrowed.
#[repr(C)]
pub(crate) struct Seen {
    at: *const u8,
    pub(crate) ghost value: { Option AnyCedar } by { coded_option any_code },
    ghost life: { ℕ },
}

impl Model for Seen {
    ghost also_owns = { λ s. shown_owns s.at s.value s.life };

    ghost also_shares = { λ s _ κ. held_lends s.at s.value κ };
}

impl Seen {
    /// The dictionary.
    pub(crate) fn dictionary(&self) -> &AnyCedar
        requires { IsSome self.now.value }
        ensures { self.now.value ≡ Some result.now }
    {
        unsafe { &*(self.at as *const AnyCedar) }
    }
}
