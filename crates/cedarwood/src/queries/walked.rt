//! What walks that are under way read of a dictionary.

ghost use Rattle.std.specs.Prelude.{◌*◌, ◌++◌, ◌+◌, ◌-◌, ◌<◌, ◌≡◌, ◌≤◌, [], IfOk, IfSome, length};
ghost use Rattle.std.specs.Prelude.{List, MatchOption, OnErr, take, true, vec_capacity, ℕ};
ghost use Rattle.cedarwood.specs.Words.{cells_in, ComesToFirst, entries_since, Fields};
ghost use Rattle.cedarwood.specs.Words.{front_length, GoesToNode, GoesToNumber, IsBelow};
ghost use Rattle.cedarwood.specs.Words.{IsNextFront, IsNumberedBelow, IsOnQuery, IsPending};
ghost use Rattle.cedarwood.specs.Words.{IsWellFormed, KeyGoesOn, NextKeyOutgrows, node_at, path_to};
ghost use Rattle.cedarwood.specs.Words.{SkipsToNode, tree_of, walk};

use crate::{Layout, Ticks, Trie};
use cedar_walk::{
    Front, Numbered, PendingSiblings, Visited, first_numbered, first_since, first_with_pending,
    next_held_front, node_after, node_past, numbered_after, numbered_after_with_key,
    numbered_after_with_pending, write_path,
};
use std::alloc::{AllocError, Allocator};
use std::sync::ledger::Ledger;

/// A dictionary, as its walks see it: any [`Trie`]. A walk knows it by this trait alone, since a call on a type with a const parameter
/// needs the size of that type, of which a borrow says nothing.
pub trait Walked {
    /// How many slots it may have.
    ghost slots: { ℕ };

    /// The fields of the table that it is kept in.
    ghost shown: { Self → Fields };

    /// The next prefix of a query that is held.
    fn next_front<C: Ledger>(
        &self,
        query: &[u8],
        place: usize,
        node: usize,
        ticks: &mut Ticks<C>,
    ) -> Option<Front>
        requires well_formed { IsWellFormed slots (shown self.now) }
        requires on { IsOnQuery (shown self.now) query.now place node }

        //= What a walk reads of a dictionary comes from its table. [with on, cost; also first_numbered, first_since, next_numbered,
        //  next_node, next_past, write_path]
        ensures answer { IsNextFront (tree_of (shown self.now)) query.now place result }
        ensures on { MatchOption result (place ≤ length query.now) (λ front. (place < front.len) × IsOnQuery (shown self.now) query.now front.len front.slot) }
        ensures cost { ticks.new ≤ ticks.old + 2 * (front_length query.now result - place) };

    /// The first node with a number of those that begin at a query's node, and go on below it.
    fn first_numbered(&self, query: &[u8]) -> Option<Numbered>
        requires { IsWellFormed slots (shown self.now) }
        ensures { ComesToFirst (shown self.now) query.now (walk (node_at (tree_of (shown self.now)) query.now)) result };

    /// The next node with a number of a walk that has been at one.
    fn next_numbered(&self, node: usize, depth: usize) -> Option<Numbered>
        requires well_formed { IsWellFormed slots (shown self.now) }
        requires below { (start : List ℕ) × IsNumberedBelow (shown self.now) start depth node }
        ensures { GoesToNumber (shown self.now) depth node result };

    /// The first node with a number of those that begin at a query's node, and go on below it, with the siblings that a walk from there
    /// keeps. What was kept before is forgotten.
    fn first_with_pending(&self, query: &[u8], siblings: &mut PendingSiblings) -> Option<Numbered>
        requires { IsWellFormed slots (shown self.now) }

        //= A walk that keeps siblings gets the same nodes, and keeps those that are right for the node. [with kept; also next_with_pending]
        ensures found { ComesToFirst (shown self.now) query.now (walk (node_at (tree_of (shown self.now)) query.now)) result }
        ensures kept { IfSome result (λ next. IsPending (shown self.now) siblings.new next.depth next.slot) };

    /// The next node with a number of a walk that has been at one, and keeps siblings.
    fn next_with_pending(
        &self,
        node: usize,
        depth: usize,
        siblings: &mut PendingSiblings,
    ) -> Option<Numbered>
        requires well_formed { IsWellFormed slots (shown self.now) }
        requires below { (start : List ℕ) × IsNumberedBelow (shown self.now) start depth node }
        requires kept { IsPending (shown self.now) siblings.old depth node }
        ensures found { GoesToNumber (shown self.now) depth node result }
        ensures kept { IfSome result (λ next. IsPending (shown self.now) siblings.new next.depth next.slot) };

    /// The next node with a number of a walk that has been at one, with a key that is kept in step: it ended in the path to the one node,
    /// and ends in that to the other. It allocates only if the buffer has no room for the next key. If that is refused, the key may hold
    /// anything.
    fn next_with_key<B: Allocator>(
        &self,
        node: usize,
        depth: usize,
        key: &mut Vec<u8, B>,
    ) -> Result<Option<Numbered>, AllocError>
        requires well_formed { IsWellFormed slots (shown self.now) }
        requires below { (start : List ℕ) × IsNumberedBelow (shown self.now) start depth node }
        requires room { depth ≤ length key.old.items }

        //= A walk whose key is kept in step gets the same node, and ends its key in that node's path. [with key]
        ensures found { IfOk result (GoesToNumber (shown self.now) depth node) }
        ensures key { IfOk result (λ found. MatchOption found (key.new.items ≡ key.old.items) (KeyGoesOn (shown self.now) depth node key.old.items key.new.items)) }

        //= It fails only if a node is left and its key is longer than the buffer's capacity, which never falls. [with capacity; by
        //  NextKeyOutgrows]
        ensures full { OnErr result (NextKeyOutgrows (shown self.now) depth node (length key.old.items) (vec_capacity key.old)) }
        ensures capacity { vec_capacity key.old ≤ vec_capacity key.new };

    /// The next node of a walk.
    fn next_node(&self, node: usize, depth: usize) -> Option<Visited>
        requires well_formed { IsWellFormed slots (shown self.now) }
        requires below { (start : List ℕ) × IsBelow (cells_in (shown self.now)) start depth node }
        ensures { GoesToNode (shown self.now) depth node result };

    /// The next node of a walk that leaves out all below a node.
    fn next_past(&self, node: usize, depth: usize) -> Option<Visited>
        requires well_formed { IsWellFormed slots (shown self.now) }
        requires below { (start : List ℕ) × IsBelow (cells_in (shown self.now)) start depth node }
        ensures { SkipsToNode (shown self.now) depth node result };

    /// The first node with a number at a key or after it by bytes, of a dictionary whose labels ascend.
    fn first_since(&self, key: &[u8]) -> Option<Numbered>
        requires well_formed { IsWellFormed slots (shown self.now) }
        requires ordered { (shown self.now).ordered ≡ true }
        ensures { ComesToFirst (shown self.now) [] (entries_since (tree_of (shown self.now)) key.now) result };

    /// Writes the last labels on the way to a node, `depth` of them, after the first bytes of a key.
    fn write_path(&self, node: usize, depth: usize, key: &mut [u8])
        requires well_formed { IsWellFormed slots (shown self.now) }
        requires below { (start : List ℕ) × IsBelow (cells_in (shown self.now)) start depth node }
        requires room { depth ≤ length key.old }
        ensures { key.new ≡ take (length key.old - depth) key.old ++ path_to (shown self.now) depth node };
}

impl<L: Layout, const SLOTS: usize, A: Allocator + Copy> Walked for Trie<L, SLOTS, A> {
    ghost slots = { SLOTS };

    ghost shown = { λ trie. trie.table };

    fn next_front<C: Ledger>(
        &self,
        query: &[u8],
        place: usize,
        node: usize,
        ticks: &mut Ticks<C>,
    ) -> Option<Front> {
        next_held_front(&self.table, query, place, node, ticks)
    }

    #[inline(always)]
    fn first_numbered(&self, query: &[u8]) -> Option<Numbered> {
        first_numbered(&self.table, query)
    }

    #[inline(always)]
    fn next_numbered(&self, node: usize, depth: usize) -> Option<Numbered> {
        numbered_after(&self.table, node, depth)
    }

    #[inline(always)]
    fn first_with_pending(&self, query: &[u8], siblings: &mut PendingSiblings) -> Option<Numbered> {
        first_with_pending(&self.table, query, siblings)
    }

    #[inline(always)]
    fn next_with_pending(
        &self,
        node: usize,
        depth: usize,
        siblings: &mut PendingSiblings,
    ) -> Option<Numbered> {
        numbered_after_with_pending(&self.table, node, depth, siblings)
    }

    #[inline(always)]
    fn next_with_key<B: Allocator>(
        &self,
        node: usize,
        depth: usize,
        key: &mut Vec<u8, B>,
    ) -> Result<Option<Numbered>, AllocError> {
        numbered_after_with_key(&self.table, node, depth, key)
    }

    #[inline(always)]
    fn next_node(&self, node: usize, depth: usize) -> Option<Visited> {
        node_after(&self.table, node, depth)
    }

    #[inline(always)]
    fn next_past(&self, node: usize, depth: usize) -> Option<Visited> {
        node_past(&self.table, node, depth)
    }

    fn first_since(&self, key: &[u8]) -> Option<Numbered> {
        first_since(&self.table, key)
    }

    fn write_path(&self, node: usize, depth: usize, key: &mut [u8]) {
        write_path(&self.table, node, depth, key);
    }
}
