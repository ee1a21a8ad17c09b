//! The prefix walk with a count of its own.

ghost use Rattle.std.specs.Prelude.{◌*◌, ◌+◌, ◌≡◌, ◌≤◌};
ghost use Rattle.cedarwood.specs.Words.{counted_walk_code, CountedWalk, IsBlankOf};
ghost use Rattle.cedarwood.specs.Words.{item_count, YieldsFirst};

use crate::Ticks;
use crate::queries::prefix::PrefixIter;
use crate::queries::walked::Walked;
use std::iter::FusedIterator;
use std::marker::Model;
use std::sync::ledger::{Blank, Ledger};

/// A prefix walk that counts its comparisons of a check field.
///
/// A contract sees the items that are left, the count, and how many bytes the query has.
#[derive(Drop)]
pub struct CountedPrefixIter<'a, T: Walked, C: Ledger> {
    walk: PrefixIter<'a, T>,
    ticks: Ticks<C>,
}

impl<'a, T: Walked, C: Ledger> Model for CountedPrefixIter<'a, T, C> {
    ghost Value = { CountedWalk };

    ghost coded = { counted_walk_code };

    ghost view = { λ it. record { rest = it.walk.rest; ticks = it.ticks; query = it.walk.query } };

    ghost invariant = { λ it. it.ticks + 2 * it.walk.left ≤ 2 * it.walk.query };
}

impl<'a, T: Walked, C: Ledger> CountedPrefixIter<'a, T, C> {
    pub(crate) fn new(walk: PrefixIter<'a, T>, blank: Blank) -> Self
        requires blank { IsBlankOf C.name C.parts blank }
        requires begins { walk.left ≡ walk.query }
        ensures rest { result.rest ≡ walk.entry.rest }
        ensures ticks { result.ticks ≡ 0 }
        ensures query { result.query ≡ walk.entry.query }
    {
        CountedPrefixIter {
            walk,
            ticks: Ticks::new(blank),
        }
    }

    /// Says that at any time there were at most twice as many comparisons as the query has bytes.
    ///
    /// ```
    /// cedar.update("net", 7)?;
    /// let mut fronts = cedar.common_prefix_iter_counted::<C>(b"nets", blank);
    /// assert_eq!(rt; fronts.next(), Some((7, 2)));
    /// fronts.comparisons_are_few();
    /// ```
    pub fn comparisons_are_few(&self)
        ensures { self.now.ticks ≤ 2 * self.now.query }
    {
        let _ = &self.walk;
    }
}

impl<'a, T: Walked, C: Ledger> Iterator for CountedPrefixIter<'a, T, C> {
    type Item = (i32, usize);

    ghost next_gives = { λ walk item later. YieldsFirst (λ (walk : CountedWalk). walk.rest) walk item later × (later.query ≡ walk.query) };

    ghost remaining = { item_count (λ (walk : CountedWalk). walk.rest) };

    fn next(&mut self) -> Option<(i32, usize)> {
        self.walk.next_counted(&mut self.ticks)
    }
}

impl<'a, T: Walked, C: Ledger> FusedIterator for CountedPrefixIter<'a, T, C> {}
