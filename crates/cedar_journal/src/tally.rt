//! A count that only clauses read. It occupies no memory.

ghost use Rattle.std.specs.Prelude.{◌+◌, ◌≡◌, ℕ};
ghost use Rattle.std.specs.Borrow.{ftrue};

use std::marker::{Model, PhantomData};

/// A number that goes up by one at a time.
#[derive(Drop)]
pub(crate) struct Tally {
    marker: PhantomData<u8>,
    pub ghost number: { ℕ },
}

impl Model for Tally {
    ghost also_owns = { λ _. ftrue };
}

impl Tally {
    /// Returns a count of nothing.
    pub(crate) fn new() -> Tally
        ensures { result.number ≡ 0 }
    {
        Tally {
            marker: PhantomData,
        }
    }

    /// Counts one more.
    pub(crate) fn raise(&mut self)
        ensures { self.new.number ≡ self.old.number + 1 }
    {}
}
