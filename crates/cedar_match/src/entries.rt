//! The walk by an automaton as an iterator, which copies its keys.

ghost use Rattle.std.specs.Prelude.{◌+◌, ◌<◌, ◌≡◌, [], cond, IfErr, IfNone, IfOk, IfSome};
ghost use Rattle.cedar_match.specs.Words.{at_most, CountsItem, GivesCopy, GivesItem, IsBlankOf};
ghost use Rattle.cedar_match.specs.Words.{IsWithinCount, match_walk_code, MatchWalk, UpTo};

use crate::cursor::MatchingCursor;
use crate::nodes::Nodes;
use byte_automata::Automaton;
use cedarwood::{CedarError, Ticks};
use std::alloc::Allocator;
use std::iter::FusedIterator;
use std::marker::{Brand, Model};
use std::sync::ledger::{Blank, Ledger};

/// The entries of a dictionary whose keys an automaton accepts, in iteration order. Each key is copied for its item; if an allocation is
/// refused, the error is the last item.
///
/// A contract sees the key of the last item, the entries that are left, and how many nodes the walk still goes to.
#[derive(Drop)]
pub struct MatchingEntries<'a, T: Nodes, M: Automaton + Drop, A: Allocator + Copy> {
    walk: MatchingCursor<'a, T, M, A>,
    failed: bool,
}

impl<'a, T: Nodes, M: Automaton + Drop, A: Allocator + Copy> Model
    for MatchingEntries<'a, T, M, A> {
    ghost Value = { MatchWalk };

    ghost coded = { match_walk_code };

    ghost view = { λ it. record {
      key = it.walk.key;
      left = cond it.failed [] it.walk.left;
      nodes = cond it.failed 0 it.walk.nodes;
    } };
}

/// The next entry of a walk, with a copy of its key. It counts each node that it comes to. If it is refused memory, it may have passed
/// that entry.
fn next_copied<T: Nodes, M: Automaton + Drop, A: Allocator + Copy, C: Ledger>(
    walk: &mut MatchingCursor<'_, T, M, A>,
    ticks: &mut Ticks<C>,
) -> Result<Option<(Vec<u8, A>, i32)>, CedarError>
    ensures found { IfOk result (GivesCopy walk.old walk.new) }
    ensures done { IfOk result (λ found. IfNone found (walk.new.nodes ≡ 0)) }
    ensures refused { IfErr result (λ e. (e ≡ CedarError.Memory) × (0 < walk.old.nodes)) }
    ensures cost { ticks.new + walk.new.nodes ≡ ticks.old + walk.old.nodes }
{
    let Some(value) = walk.advance_counted(ticks)? else {
        return Ok(None);
    };
    match walk.copied_key() {
        Ok(key) => Ok(Some((key, value))),
        Err(_) => Err(CedarError::Memory),
    }
}

impl<'a, T: Nodes, M: Automaton + Drop, A: Allocator + Copy> MatchingEntries<'a, T, M, A> {
    // Those that a cursor has left.
    pub(crate) fn new(walk: MatchingCursor<'a, T, M, A>) -> Self
        ensures left { result.left ≡ walk.entry.left }
        ensures nodes { result.nodes ≡ walk.entry.nodes }
    {
        MatchingEntries {
            walk,
            failed: false,
        }
    }

    /// `next`, which counts each node that the walk comes to: over a whole iteration, those nodes at each of whose proper prefixes the
    /// automaton can match.
    ///
    /// ```
    /// let mut entries = entries_matching(alloc, &cedar, Prefix::new(b"n"));
    /// let (key, value) = entries.next_counted(&mut ticks).ok_or("an entry")??;
    /// assert_eq!(rt; (key.as_slice(), value), (b"net".as_slice(), 7));
    /// ```
    ///
    /// # Errors
    /// An item is `Memory` if an allocation was refused. It is the last one.
    pub fn next_counted<C: Ledger>(
        &mut self,
        ticks: &mut Ticks<C>,
    ) -> Option<Result<(Vec<u8, A>, i32), CedarError>>
        //= A counted step over the entries that an automaton matches gives the next item, and goes on to another node. After the
        //  last one no node is left to go to. [with fewer, done; also next_item]
        ensures gives { GivesItem self.old result self.new }
        ensures fewer { IfSome result (λ _. self.new.nodes < self.old.nodes) }
        ensures done { IfNone result (self.new.nodes ≡ 0) }

        //= It counts one for each node that it comes to, and never comes to it again.
        ensures cost { CountsItem self.old self.new ticks.old ticks.new result }
    {
        if self.failed {
            return None;
        }
        match next_copied(&mut self.walk, ticks) {
            Ok(Some(entry)) => Some(Ok(entry)),
            Ok(None) => None,
            Err(_) => {
                self.failed = true;
                Some(Err(CedarError::Memory))
            }
        }
    }
}

/// Gives the next item with a count of its own, which nothing reads.
fn next_item<C: Ledger, T: Nodes, M: Automaton + Drop, A: Allocator + Copy>(
    entries: &mut MatchingEntries<'_, T, M, A>,
    blank: Blank,
) -> Option<Result<(Vec<u8, A>, i32), CedarError>>
    requires { IsBlankOf C.name C.parts blank }
    ensures gives { GivesItem entries.old result entries.new }
    ensures fewer { IfSome result (λ _. entries.new.nodes < entries.old.nodes) }
{
    entries.next_counted(&mut Ticks::<C>::new(blank))
}

impl<'a, T, M, A> Iterator for MatchingEntries<'a, T, M, A>
where
    T: Nodes,
    M: Automaton + Drop,
    A: Allocator + Copy,
{
    type Item = Result<(Vec<u8, A>, i32), CedarError>;

    //= The entries that an automaton matches come one after another. An item may fail only with `Memory`, and then it is the last one.
    ghost next_gives = { GivesItem };

    ghost remaining = { λ it. at_most it.nodes };

    fn next(&mut self) -> Option<Result<(Vec<u8, A>, i32), CedarError>> {
        next_item::<Brand, T, M, A>(self, Blank::new(1))
    }
}

impl<'a, T: Nodes, M: Automaton + Drop, A: Allocator + Copy> FusedIterator
    for MatchingEntries<'a, T, M, A> {}
