//! A count of steps that takes no room at run time.

ghost use Rattle.std.specs.Prelude.{◌+◌, ◌<◌, ◌≡◌, ℕ};

use std::marker::Model;
use std::sync::ledger::{Blank, Book, Ledger, Share};

/// A count of reads, or of bytes requested from the allocator. It takes no bytes, and only `tick` and `add` change it.
///
/// The count is the total of a ledger of std, whose tokens have no bytes either. A plain field would cost room and
/// additions, or could be set back. Tokens of two ledgers must not be mixed. Nothing of them is there at run time, so
/// their type keeps them apart: the count, and each call that counts, has the ledger as a type parameter `C`. A caller
/// passes `Brand` for it, and a fresh `Blank`.
#[derive(Drop)]
pub struct Ticks<C: Ledger> {
    book: Book<C>,
    share: Share<C>,
}

impl<C: Ledger> Model for Ticks<C> {
    ghost Value = { ℕ };

    ghost view = { λ s. s.book.total };

    ghost invariant = { λ s. 0 < s.share.parts };
}

impl<C: Ledger> Ticks<C> {
    /// Makes a count without ticks.
    pub fn new(blank: Blank) -> Ticks<C>
        requires name { blank.name ≡ C.name }
        requires parts { blank.parts ≡ C.parts }
        requires some { 0 < blank.parts }

        //= A count of ticks begins at 0; a tick adds one, `add` an amount. [also tick, add]
        ensures { result ≡ 0 }
    {
        let (book, share) = blank.open::<C>();
        Ticks { book, share }
    }

    /// Counts one more read.
    pub fn tick(&mut self)
        ensures { self.new ≡ self.old + 1 }
    {
        self.book.add(&mut self.share, 1);
    }

    /// Counts an amount at once.
    pub fn add(&mut self, amount: u64)
        ensures { self.new ≡ self.old + amount }
    {
        self.book.add(&mut self.share, amount);
    }
}
