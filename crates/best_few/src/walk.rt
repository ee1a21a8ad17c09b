//! What entries are taken from.

ghost use Rattle.std.specs.Prelude.{◌∷◌, ◌≡◌, [], IfOk, List, MatchOption, ℕ};
ghost use Rattle.best_few.specs.Words.{Entry};

use std::alloc::AllocError;

/// Gives entries one after another, and lends the key of the one that it gave last.
pub trait EntryWalk {
    /// The entries that are left.
    ghost left: { Self → List Entry };

    /// The key that is lent.
    ghost held: { Self → List ℕ };

    /// Goes to the next entry, and returns its value: None if no entry is left.
    ///
    /// # Errors
    /// An allocation was refused.
    fn next_value(&mut self) -> Result<Option<i32>, AllocError>
        //= A walk to choose from gives the next entry each call, and then holds its key.
        ensures { IfOk result (λ found. MatchOption found (left self.old ≡ []) (λ value. left self.old ≡ (held self.new, value) ∷ left self.new)) };

    /// The key of the entry that was given last.
    fn held_key(&self) -> &[u8]
        //= It lends the key that it holds.
        ensures { result.now ≡ held self.now };
}
