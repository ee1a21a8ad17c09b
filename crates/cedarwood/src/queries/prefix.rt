//! The prefix walk: the values of the keys that a query begins with.

ghost use Rattle.std.specs.Prelude.{◌*◌, ◌+◌, ◌-◌, ◌≡◌, ◌≤◌, IfSome, length, Some, ⊤};
ghost use Rattle.cedarwood.specs.Words.{front, front_from, IsBlankOf, IsPrefixPlace, IsWellFormed};
ghost use Rattle.cedarwood.specs.Words.{IsWithinCount, item_count, MakesProgress, prefix_walk_code};
ghost use Rattle.cedarwood.specs.Words.{PrefixWalk, tree_of, UpTo, YieldsFirst};

use crate::Ticks;
use crate::queries::walked::Walked;
use std::alloc::AllocError;
use std::iter::FusedIterator;
use std::marker::{Brand, Model};
use std::sync::ledger::{Blank, Ledger};

/// The keys that a query begins with, shortest first: for each its value, and one less than its bytes. It allocates nothing, and a clone
/// goes on from the same place.
///
/// A contract sees the items that are left, how many bytes of the query are still to be looked at, and how many it has.
#[derive(Drop)]
pub struct PrefixIter<'a, T: Walked> {
    trie: &'a T,
    query: &'a [u8],
    // How many bytes of the query the walk has passed, all of them once it has ended; and the node that they lead to.
    place: usize,
    node: usize,
}

impl<'a, T: Walked> Model for PrefixIter<'a, T> {
    ghost Value = { PrefixWalk };

    ghost coded = { prefix_walk_code };

    ghost view = { λ it. record {
      rest = front_from (tree_of (T.shown it.trie.now)) it.query.now it.place;
      left = length it.query.now - it.place;
      query = length it.query.now;
    } };

    ghost invariant = { λ it. IsPrefixPlace T.slots (T.shown it.trie.now) it.query.now it.place it.node };
}

impl<'a, T: Walked> PrefixIter<'a, T> {
    // Before the first byte of the query.
    pub(crate) fn new(trie: &'a T, query: &'a [u8]) -> Self
        requires { IsWellFormed T.slots (T.shown trie.now) }
        ensures rest { result.rest ≡ front (tree_of (T.shown trie.now)) query.now }
        ensures left { result.left ≡ length query.now }
        ensures query { result.query ≡ length query.now }
    {
        PrefixIter {
            trie,
            query,
            place: 0,
            node: 0,
        }
    }

    /// The next item. It counts each comparison of a check field, at most two for a byte of the query: so a whole walk makes at most twice
    /// as many as the query has bytes.
    ///
    /// ```
    /// cedar.update("net", 7)?;
    /// let mut fronts = cedar.common_prefix_iter_bytes(b"nets");
    /// assert_eq!(rt; fronts.next_counted(&mut ticks), Some((7, 2)));
    /// ```
    pub fn next_counted<C: Ledger>(&mut self, ticks: &mut Ticks<C>) -> Option<(i32, usize)>
        //= A counted step of a prefix walk gives its next item. [with query; also uncounted_step]
        ensures gives { YieldsFirst (λ (walk : PrefixWalk). walk.rest) self.old result self.new }
        ensures query { self.new.query ≡ self.old.query }

        //= It counts at most two comparisons for each byte of the query. [also comparisons_are_few]
        ensures cost { ticks.new + 2 * self.new.left ≤ ticks.old + 2 * self.old.left }
    {
        if self.place == self.query.len() {
            return None;
        }
        let Some(front) = self
            .trie
            .next_front(self.query, self.place, self.node, ticks)
        else {
            self.place = self.query.len();
            return None;
        };
        self.place = front.len;
        self.node = front.slot;
        Some((front.number, front.len - 1))
    }
}

impl<'a, T: Walked> Clone for PrefixIter<'a, T> {
    //= A clone of a prefix walk, of a prediction or of the entries of a range goes on from the same place and can't fail. What has ended
    //  stays ended. [with is_infallible; also PrefixPredictIter, RangeEntries; by FusedIterator]
    ghost is_clone = { λ it copy. copy ≡ it };

    ghost is_infallible = { λ _. ⊤ };

    fn clone(&self) -> Result<Self, AllocError> {
        Ok(PrefixIter {
            trie: self.trie,
            query: self.query,
            place: self.place,
            node: self.node,
        })
    }
}

impl<'a, T: Walked> Iterator for PrefixIter<'a, T> {
    type Item = (i32, usize);

    //= `next` of a prefix walk gives its next item.
    ghost next_gives = { YieldsFirst (λ (walk : PrefixWalk). walk.rest) };

    ghost remaining = { item_count (λ (walk : PrefixWalk). walk.rest) };

    fn next(&mut self) -> Option<(i32, usize)>
        ensures steps { YieldsFirst (λ (walk : PrefixWalk). walk.rest) self.old result self.new }

        //= A step of a prefix walk that gives an item leaves fewer items, so a loop over it ends.
        ensures goes { MakesProgress (λ (_ : PrefixWalk). ⊤) (item_count (λ (walk : PrefixWalk). walk.rest)) self.old result self.new }
        ensures query { self.new.query ≡ self.old.query }
    {
        uncounted_step::<Brand, T>(self, Blank::new(1))
    }

    fn size_hint(&self) -> (usize, Option<usize>)
        ensures lower { IsWithinCount result.0 (item_count (λ (walk : PrefixWalk). walk.rest) self.now) }
        ensures upper { IfSome result.1 (UpTo (item_count (λ (walk : PrefixWalk). walk.rest) self.now)) }

        //= The size hint of a prefix walk is from 0 to the query's length, that of a prediction from 0 on. [also
        //  PrefixPredictIter::size_hint]
        ensures hint { result ≡ (0, Some self.now.query) }
    {
        (0, Some(self.query.len()))
    }
}

impl<'a, T: Walked> FusedIterator for PrefixIter<'a, T> {}

/// Takes a step with a count of its own, which nothing reads.
fn uncounted_step<C: Ledger, T: Walked>(
    walk: &mut PrefixIter<'_, T>,
    blank: Blank,
) -> Option<(i32, usize)>
    requires { IsBlankOf C.name C.parts blank }
    ensures gives { YieldsFirst (λ (walk : PrefixWalk). walk.rest) walk.old result walk.new }
    ensures query { walk.new.query ≡ walk.old.query }
{
    walk.next_counted(&mut Ticks::<C>::new(blank))
}
