//! Why no slot can be given.

ghost use Rattle.std.specs.Prelude.{◌≡◌};
ghost use Rattle.cedar_slots.specs.declared.shortage.Shortage.TheVariants.{Memory};

use std::alloc::AllocError;

/// What an edit of a table lacked.
#[derive(Clone, Copy, Debug, PartialEq, Eq)]
pub enum Shortage {
    /// An allocation failed.
    Memory,
    /// No slot is left, and the limit of slots allows no further block.
    SlotLimit,
}

impl From<AllocError> for Shortage {
    //= A failed allocation becomes `Memory`.
    ghost from_gives = { λ _ error. error ≡ Memory };

    fn from(_: AllocError) -> Shortage {
        Shortage::Memory
    }
}
