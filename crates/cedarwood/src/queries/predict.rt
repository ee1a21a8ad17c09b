//! The prediction: the values of all keys that begin with a query.

ghost use Rattle.std.specs.Prelude.{◌≡◌, [], IfSome, List, MatchOption, None, ℕ, ℤ, ⊤};
ghost use Rattle.cedarwood.specs.Words.{GoesOnTo, IsPredictPlace, IsWellFormed};
ghost use Rattle.cedarwood.specs.Words.{IsWithinCount, item_count, predict, predicted_from};
ghost use Rattle.cedarwood.specs.Words.{tree_of, UpTo, YieldsFirst};

use crate::queries::walked::Walked;
use cedar_walk::{Numbered, PendingSiblings};
use std::alloc::AllocError;
use std::iter::FusedIterator;
use std::marker::Model;

/// Where the walk is.
#[derive(Clone, Copy)]
pub(crate) enum PredictPlace {
    /// The query's node hasn't been looked for.
    Start,
    /// It has been at this node, which has a number, so many labels below the query's, and not yet below it.
    Node { slot: usize, depth: usize },
    /// Nothing is left.
    End,
}

/// The keys that begin with a query, each before its extensions and in iteration order: for each the value, and how many bytes follow the
/// query. It allocates nothing, and a clone goes on from the same place. The iterator is of 248 bytes, most of which are the next nodes to
/// which it has still to come: so it mostly reads nothing of the nodes above.
///
/// A contract sees the items that are left.
#[derive(Drop)]
pub struct PrefixPredictIter<'a, T: Walked> {
    trie: &'a T,
    query: &'a [u8],
    place: PredictPlace,
    siblings: PendingSiblings,
}

impl<'a, T: Walked> Model for PrefixPredictIter<'a, T> {
    ghost Value = { List (ℤ × ℕ) };

    ghost view = { λ it. predicted_from (T.shown it.trie.now) it.query.now it.place };

    ghost invariant = { λ it. IsWellFormed T.slots (T.shown it.trie.now) × IsPredictPlace (T.shown it.trie.now) it.query.now it.place it.siblings };
}

impl<'a, T: Walked> PrefixPredictIter<'a, T> {
    // Before the query's node is looked for.
    pub(crate) fn new(trie: &'a T, query: &'a [u8]) -> Self
        requires { IsWellFormed T.slots (T.shown trie.now) }
        ensures { result ≡ predict (tree_of (T.shown trie.now)) query.now }
    {
        PrefixPredictIter {
            trie,
            query,
            place: PredictPlace::Start,
            siblings: PendingSiblings::new(),
        }
    }
}

/// The node with a number that a walk comes to next, and the siblings that it keeps from there on.
#[inline(always)]
fn numbered_next<T: Walked>(
    trie: &T,
    query: &[u8],
    place: PredictPlace,
    siblings: &mut PendingSiblings,
) -> Option<Numbered>
    requires well_formed { IsWellFormed T.slots (T.shown trie.now) }
    requires place { IsPredictPlace (T.shown trie.now) query.now place siblings.old }
    ensures { MatchOption result (predicted_from (T.shown trie.now) query.now place ≡ []) (GoesOnTo (T.shown trie.now) query.now place siblings.new) }
{
    match place {
        PredictPlace::Start => trie.first_with_pending(query, siblings),
        PredictPlace::Node { slot, depth } => trie.next_with_pending(slot, depth, siblings),
        PredictPlace::End => None,
    }
}

impl<'a, T: Walked> Clone for PrefixPredictIter<'a, T> {
    ghost is_clone = { λ it copy. copy ≡ it };

    ghost is_infallible = { λ _. ⊤ };

    fn clone(&self) -> Result<Self, AllocError> {
        Ok(PrefixPredictIter {
            trie: self.trie,
            query: self.query,
            place: self.place,
            siblings: self.siblings.clone()?,
        })
    }
}

impl<'a, T: Walked> Iterator for PrefixPredictIter<'a, T> {
    type Item = (i32, usize);

    ghost next_gives = { YieldsFirst (λ (rest : List (ℤ × ℕ)). rest) };

    ghost remaining = { item_count (λ (rest : List (ℤ × ℕ)). rest) };

    #[inline(always)]
    fn next(&mut self) -> Option<(i32, usize)> {
        let Some(next) = numbered_next(self.trie, self.query, self.place, &mut self.siblings) else {
            self.place = PredictPlace::End;
            return None;
        };
        self.place = PredictPlace::Node {
            slot: next.slot,
            depth: next.depth,
        };
        Some((next.number, next.depth))
    }

    fn size_hint(&self) -> (usize, Option<usize>)
        ensures lower { IsWithinCount result.0 (item_count (λ (rest : List (ℤ × ℕ)). rest) self.now) }
        ensures upper { IfSome result.1 (UpTo (item_count (λ (rest : List (ℤ × ℕ)). rest) self.now)) }
        ensures hint { result ≡ (0, None) }
    {
        (0, None)
    }
}

impl<'a, T: Walked> FusedIterator for PrefixPredictIter<'a, T> {}
