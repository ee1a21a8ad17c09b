//! The walk by an automaton, which lends its keys.

ghost use Rattle.std.specs.Prelude.{◌+◌, ◌<◌, ◌≡◌, ◌≤◌, [], fold, IfErr, IfNone, IfOk, length};
ghost use Rattle.std.specs.Prelude.{OnErr, take, vec_capacity};
ghost use Rattle.cedar_match.specs.Words.{CountsNodes, entries_to_come, GivesMatch, GoesToMatch};
ghost use Rattle.cedar_match.specs.Words.{HasNoMoreToCome, IsBlankOf, IsMatchPlaceOf, leads_on};
ghost use Rattle.cedar_match.specs.Words.{LeadsToNext, LeavesNoNode, match_walk_code, MatchWalk};
ghost use Rattle.cedar_match.specs.Words.{nodes_to_come, path_on, states_along, StopsBeforeNode};

use crate::nodes::{Node, Nodes};
use byte_automata::Automaton;
use cedarwood::{CedarError, Ticks};
use std::alloc::{AllocError, Allocator};
use std::marker::{Brand, Model};
use std::sync::ledger::{Blank, Ledger};

/// The entries of a dictionary whose keys an automaton accepts, one after another in iteration order, each with its key lent from a buffer of
/// the walk's. It goes to no node below one where the automaton can't match any more.
///
/// A contract sees the key that it holds, the entries that are left, and how many nodes it still goes to.
#[derive(Drop)]
pub struct MatchingCursor<'a, T: Nodes, M: Automaton + Drop, A: Allocator> {
    trie: &'a T,
    automaton: M,
    // The node that the walk has been at, and its key.
    slot: usize,
    key: Vec<u8, A>,
    // The state after one byte of the key, two, and so on.
    states: Vec<M::State, A>,
}

impl<'a, T: Nodes, M: Automaton + Drop, A: Allocator> Model for MatchingCursor<'a, T, M, A> {
    ghost Value = { MatchWalk };

    ghost coded = { match_walk_code };

    ghost view = { λ it. record {
      key = it.key.items;
      left = entries_to_come (T.tree it.trie.now) (M.accepts it.automaton) it.key.items;
      nodes = nodes_to_come (T.tree it.trie.now) (leads_on (M.after it.automaton) (M.may_match it.automaton) (M.initial it.automaton)) it.key.items;
    } };

    ghost invariant = { λ it. IsMatchPlaceOf (T.stands it.trie.now) M.after M.may_match M.initial it.automaton it.key.items it.states.items it.slot };
}

/// The state after the first bytes of a key.
#[inline(always)]
fn state_at<M: Automaton>(automaton: &M, key: &[u8], states: &[M::State], depth: usize) -> M::State
    requires states { states.now ≡ states_along (M.after automaton.now) (M.initial automaton.now) key.now }
    requires within { depth ≤ length key.now }
    ensures { result ≡ fold (M.after automaton.now) (M.initial automaton.now) (take depth key.now) }
{
    if depth == 0 {
        return automaton.start();
    }
    states[depth - 1]
}

/// The next node to which an automaton leads from one.
#[inline(always)]
fn node_on<T: Nodes, M: Automaton>(
    trie: &T,
    automaton: &M,
    slot: usize,
    key: &[u8],
    states: &[M::State],
) -> Option<Node>
    requires { IsMatchPlaceOf (T.stands trie.now) M.after M.may_match M.initial automaton.now key.now states.now slot }
    ensures { LeadsToNext (T.stands trie.now) (T.tree trie.now) M.accepts M.after M.may_match M.initial automaton.now key.now result }
{
    let depth = key.len();
    let state = state_at(automaton, key, states, depth);
    if automaton.can_match(&state) {
        return trie.node_after(slot, depth);
    }
    trie.node_past(slot, depth)
}

/// Makes room for one byte more in a key, and for its state.
fn make_room<S: Drop, A: Allocator>(
    key: &mut Vec<u8, A>,
    states: &mut Vec<S, A>,
) -> Result<(), AllocError>
    ensures key { key.new.items ≡ key.old.items }
    ensures states { states.new.items ≡ states.old.items }
    ensures key_room { IfOk result (λ _. length key.new.items < vec_capacity key.new) }
    ensures states_room { IfOk result (λ _. length states.new.items < vec_capacity states.new) }
{
    key.reserve(1)?;
    states.reserve(1)
}

/// Changes a key, for which there is room, to that of the next node, and the states with it. It returns the state at that node.
#[inline(always)]
fn enter<M: Automaton, A: Allocator>(
    automaton: &M,
    next: Node,
    key: &mut Vec<u8, A>,
    states: &mut Vec<M::State, A>,
) -> M::State
    requires states { states.old.items ≡ states_along (M.after automaton.now) (M.initial automaton.now) key.old.items }
    requires deep { (0 < next.depth) × (next.depth ≤ length key.old.items + 1) }
    requires key_room { length key.old.items < vec_capacity key.old }
    requires states_room { length states.old.items < vec_capacity states.old }
    ensures key { key.new.items ≡ path_on key.old.items next }
    ensures states { states.new.items ≡ states_along (M.after automaton.now) (M.initial automaton.now) key.new.items }
    ensures state { result ≡ fold (M.after automaton.now) (M.initial automaton.now) key.new.items }
{
    let above = next.depth - 1;
    let before = state_at(automaton, key, states, above);
    let state = automaton.step(&before, next.label);
    key.truncate(above);
    states.truncate(above);
    key.push(next.label).unwrap();
    states.push(state).unwrap();
    state
}

/// Goes on from a node to the next one whose entry is wanted: the key and the states become those of that node. It counts each node that it
/// comes to. If it is refused memory, it stands at the last node that it came to, and has passed no entry that is wanted.
fn next_match<T: Nodes, M: Automaton, A: Allocator, C: Ledger>(
    trie: &T,
    automaton: &M,
    slot: &mut usize,
    key: &mut Vec<u8, A>,
    states: &mut Vec<M::State, A>,
    ticks: &mut Ticks<C>,
) -> Result<Option<i32>, AllocError>
    requires { IsMatchPlaceOf (T.stands trie.now) M.after M.may_match M.initial automaton.now key.old.items states.old.items slot.old }
    ensures at { IsMatchPlaceOf (T.stands trie.now) M.after M.may_match M.initial automaton.now key.new.items states.new.items slot.new }
    ensures found { IfOk result (GoesToMatch (T.tree trie.now) M.accepts M.after M.may_match M.initial automaton.now key.old.items key.new.items) }
    ensures done { IfOk result (LeavesNoNode (T.tree trie.now) M.after M.may_match M.initial automaton.now key.new.items) }
    ensures fewer { HasNoMoreToCome (T.tree trie.now) M.after M.may_match M.initial automaton.now key.old.items key.new.items }
    ensures refused { OnErr result (StopsBeforeNode (T.tree trie.now) M.accepts M.after M.may_match M.initial automaton.now key.old.items key.new.items) }
    ensures cost { CountsNodes (T.tree trie.now) M.after M.may_match M.initial automaton.now key.old.items key.new.items ticks.old ticks.new }
{
    while let Some(next) = node_on(trie, automaton, *slot, key, states) {
        make_room(key, states)?;
        ticks.tick();
        let state = enter(automaton, next, key, states);
        *slot = next.slot;
        if let Some(number) = next.number {
            if automaton.is_match(&state) {
                return Ok(Some(number));
            }
        }
    }
    Ok(None)
}

impl<'a, T: Nodes, M: Automaton + Drop, A: Allocator> MatchingCursor<'a, T, M, A> {
    // Before the first node below the root.
    pub(crate) fn new(alloc: A, trie: &'a T, automaton: M) -> Self
    where
        A: Copy,
        requires { T.stands trie.now [] 0 }
        ensures key { result.key ≡ [] }
        ensures left { result.left ≡ entries_to_come (T.tree trie.now) (M.accepts automaton) [] }
        ensures nodes { result.nodes ≡ nodes_to_come (T.tree trie.now) (leads_on (M.after automaton) (M.may_match automaton) (M.initial automaton)) [] }
    {
        MatchingCursor {
            trie,
            automaton,
            slot: 0,
            key: Vec::new(alloc),
            states: Vec::new(alloc),
        }
    }

    /// Goes to the next entry whose key is accepted, and returns its value: None if none is left. Its key is [`MatchingCursor::key`] until the next
    /// call. It allocates only if the key is longer than each one before. After a refused allocation the call can be made again, and no
    /// entry is lost.
    ///
    /// ```
    /// cedar.build(&[("nest", 1), ("net", 7), ("ten", 2)])?;
    /// let mut walk = cursor_matching(rt.alloc(), &cedar, Within::one(b"nat"));
    /// assert_eq!(rt; walk.advance()?, Some(7));
    /// assert_eq!(rt; walk.key(), b"net".as_slice());
    /// assert_eq!(rt; walk.advance()?, None);
    /// ```
    ///
    /// # Errors
    /// `Memory` if an allocation was refused.
    pub fn advance(&mut self) -> Result<Option<i32>, CedarError>
        //= A walk by an automaton gives the next entry that is left each call, and then holds its key. If that fails with `Memory`, none
        //  is lost, and the walk has a node to go to. It never goes back to a node, and where no entry is left, none is left to go to.
        //  [with refused, fewer, done; also advance_counted]
        ensures found { IfOk result (GivesMatch self.old self.new) }
        ensures done { IfOk result (λ found. IfNone found (self.new.nodes ≡ 0)) }
        ensures refused { IfErr result (λ e. (e ≡ CedarError.Memory) × (self.new.left ≡ self.old.left) × (0 < self.new.nodes)) }
        ensures fewer { self.new.nodes ≤ self.old.nodes }
    {
        advance_uncounted::<Brand, T, M, A>(self, Blank::new(1))
    }

    /// `advance`, which counts each node that it comes to: over a whole walk, those nodes at each of whose proper prefixes the automaton can
    /// match.
    ///
    /// ```
    /// cedar.build(&[("net", 7), ("ten", 2)])?;
    /// let mut walk = cursor_matching(alloc, &cedar, Prefix::new(b"n"));
    /// assert_eq!(rt; walk.advance_counted(&mut ticks)?, Some(7));
    /// ```
    ///
    /// # Errors
    /// `Memory` if an allocation was refused.
    pub fn advance_counted<C: Ledger>(
        &mut self,
        ticks: &mut Ticks<C>,
    ) -> Result<Option<i32>, CedarError>
        ensures found { IfOk result (GivesMatch self.old self.new) }
        ensures done { IfOk result (λ found. IfNone found (self.new.nodes ≡ 0)) }
        ensures refused { IfErr result (λ e. (e ≡ CedarError.Memory) × (self.new.left ≡ self.old.left) × (0 < self.new.nodes)) }
        ensures fewer { self.new.nodes ≤ self.old.nodes }

        //= A walk by an automaton counts one for each node that it comes to, and never comes to it again.
        ensures cost { ticks.new + self.new.nodes ≡ ticks.old + self.old.nodes }
    {
        let found = next_match(
            self.trie,
            &self.automaton,
            &mut self.slot,
            &mut self.key,
            &mut self.states,
            ticks,
        );
        match found {
            Ok(value) => Ok(value),
            Err(_) => Err(CedarError::Memory),
        }
    }

    /// The key of the entry that [`MatchingCursor::advance`] gave last. It is empty before the first one; after the last one, and after a refused
    /// allocation, it may hold anything.
    ///
    /// ```
    /// cedar.build(&[("net", 7), ("ten", 2)])?;
    /// let mut walk = cursor_matching(rt.alloc(), &cedar, Prefix::new(b"t"));
    /// assert_eq!(rt; (walk.advance()?, walk.key()), (Some(2), b"ten".as_slice()));
    /// ```
    #[must_use]
    pub fn key(&self) -> &[u8]
        //= `key` of a walk by an automaton lends the key that it holds.
        ensures { result.now ≡ self.now.key }
    {
        self.key.as_slice()
    }
}

impl<'a, T: Nodes, M: Automaton + Drop, A: Allocator + Copy> MatchingCursor<'a, T, M, A> {
    // A copy of the key that it holds.
    pub(crate) fn copied_key(&self) -> Result<Vec<u8, A>, AllocError>
        ensures { IfOk result (λ key. key.items ≡ self.now.key) }
    {
        let mut key = Vec::new(*self.key.allocator());
        key.extend_from_slice(&self.key)?;
        Ok(key)
    }
}

/// Goes on with a count of its own, which nothing reads.
fn advance_uncounted<C: Ledger, T: Nodes, M: Automaton + Drop, A: Allocator>(
    walk: &mut MatchingCursor<'_, T, M, A>,
    blank: Blank,
) -> Result<Option<i32>, CedarError>
    requires { IsBlankOf C.name C.parts blank }
    ensures found { IfOk result (GivesMatch walk.old walk.new) }
    ensures done { IfOk result (λ found. IfNone found (walk.new.nodes ≡ 0)) }
    ensures refused { IfErr result (λ e. (e ≡ CedarError.Memory) × (walk.new.left ≡ walk.old.left) × (0 < walk.new.nodes)) }
    ensures fewer { walk.new.nodes ≤ walk.old.nodes }
{
    walk.advance_counted(&mut Ticks::<C>::new(blank))
}
