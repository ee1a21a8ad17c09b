//! Look-ups of many keys in step, so that their waits for memory overlap.

ghost use Rattle.std.specs.Prelude.{◌++◌, ◌+◌, ◌≡◌, ◌≤◌, drop, length, map, Some, take};
ghost use Rattle.cedar_walk.specs.Words.{AreLanes, exact, fields, IsLane, IsWellFormed};
ghost use Rattle.cedar_walk.specs.Words.{keys_of, tree_of};

use cedar_model::Layout;
use cedar_slots::Ticks;
use cedar_table::Table;
use std::alloc::Allocator;
use std::sync::ledger::Ledger;

/// How many keys go in step.
const LANES: usize = 16;

/// How many bytes of each key are passed in step: about as many as a word has. The rest of longer keys is passed key by key.
const STEPS: usize = 9;

/// Passes one more byte of a key, if there is one.
#[inline(always)]
fn pass<L: Layout, const SLOTS: usize, A: Allocator, C: Ledger>(
    table: &Table<L, SLOTS, A>,
    key: &[u8],
    passed: usize,
    node: usize,
    ticks: &mut Ticks<C>,
) -> Option<usize>
    requires { IsLane (fields table.now) key.now passed (Some node) }
    ensures { IsLane (fields table.now) key.now (passed + 1) result }
{
    if passed < key.len() {
        return table.follow(node, key[passed], ticks);
    }
    Some(node)
}

/// Passes one more byte of each key.
#[inline(always)]
fn pass_each<L: Layout, const SLOTS: usize, A: Allocator, C: Ledger>(
    table: &Table<L, SLOTS, A>,
    keys: &[&[u8]],
    passed: usize,
    lanes: &mut [Option<usize>; LANES],
    ticks: &mut Ticks<C>,
)
    requires few { length keys.now ≤ 16 }
    requires lanes { AreLanes (fields table.now) (keys_of keys.now) passed lanes.old }
    ensures { AreLanes (fields table.now) (keys_of keys.now) (passed + 1) lanes.new }
{
    for lane in 0..keys.len() {
        if let Some(node) = lanes[lane] {
            lanes[lane] = pass(table, keys[lane], passed, node, ticks);
        }
    }
}

/// Returns what the rest of a key leads to.
#[inline(always)]
fn end_lane<L: Layout, const SLOTS: usize, A: Allocator, C: Ledger>(
    table: &Table<L, SLOTS, A>,
    key: &[u8],
    passed: usize,
    lane: Option<usize>,
    ticks: &mut Ticks<C>,
) -> Option<(i32, usize)>
    requires { IsLane (fields table.now) key.now passed lane }
    ensures { result ≡ exact (tree_of (fields table.now)) key.now }
{
    let mut node = lane?;
    let mut at = passed;
    while at < key.len() {
        node = pass(table, key, at, node, ticks)?;
        at += 1;
    }
    let value = table.number(node, ticks)?;
    Some((value, key.len()))
}

/// Looks up the numbers of at most as many keys as there are lanes, and the keys' lengths.
fn search_in_step<L: Layout, const SLOTS: usize, A: Allocator, C: Ledger>(
    table: &Table<L, SLOTS, A>,
    keys: &[&[u8]],
    answers: &mut [Option<(i32, usize)>],
    ticks: &mut Ticks<C>,
)
    requires well_formed { IsWellFormed SLOTS (fields table.now) }
    requires few { length keys.now ≤ 16 }
    requires same { length answers.old ≡ length keys.now }
    ensures { answers.new ≡ map (exact (tree_of (fields table.now))) (keys_of keys.now) }
{
    let mut lanes = [Some(0); LANES];
    for passed in 0..STEPS {
        pass_each(table, keys, passed, &mut lanes, ticks);
    }
    for lane in 0..keys.len() {
        answers[lane] = end_lane(table, keys[lane], STEPS, lanes[lane], ticks);
    }
}

/// Looks up the numbers of some keys, and the keys' lengths, as far as there is room for results; what comes after these stays. It
/// allocates nothing.
pub fn exact_match_search_batch<L: Layout, const SLOTS: usize, A: Allocator, C: Ledger>(
    table: &Table<L, SLOTS, A>,
    keys: &[&[u8]],
    answers: &mut [Option<(i32, usize)>],
    ticks: &mut Ticks<C>,
)
    requires { IsWellFormed SLOTS (fields table.now) }

    //= `exact_match_search_batch` of some keys, on a well-formed table: each result is `exact` of its tree and its key, for as many keys as
    //  there are elements for results; elements after the last key stay. Nothing is said about its count.
    ensures { answers.new ≡ map (exact (tree_of (fields table.now))) (take (length answers.old) (keys_of keys.now)) ++ drop (length keys.now) answers.old }
{
    let count = keys.len().min(answers.len());
    let mut start = 0;
    while start < count {
        let end = start + LANES.min(count - start);
        search_in_step(table, &keys[start..end], &mut answers[start..end], ticks);
        start = end;
    }
}
