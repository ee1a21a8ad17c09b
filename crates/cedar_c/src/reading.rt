//! What C has of a dictionary that is only read.

ghost use Rattle.std.specs.Prelude.{◌<◌, IsSome, IsTrue, ◌↔◌};

use crate::shown::Shown;

/// A dictionary that is lent for reading, or none while it is closed: the same words as a `Handle`'s.
#[repr(C)]
#[derive(Drop)]
pub struct Reading {
    pub(crate) shown: Shown,
    is_open: u32,
    ghost tells: { (0 < is_open) ↔ IsSome shown.value },
}

impl Reading {
    pub(crate) fn is_open(&self) -> bool
        ensures { IsTrue result ↔ IsSome self.now.shown.value }
    {
        self.is_open != 0
    }
}
