//! The best few, kept in a heap while entries go by.

ghost use Rattle.std.specs.Prelude.{◌+◌, ◌≡◌, ◌≤◌, IfOk, map, OnOk};
ghost use Rattle.best_few.specs.Words.{best, entry_cmp, found_entry, heap_items, heap_len, is_lt};
ghost use Rattle.best_few.specs.Words.{IsHeap, KeepsBest, KeepsOneMore, kept_cmp, LowestFirst};
ghost use Rattle.best_few.specs.Words.{PrecedesLast, TellsIfBefore, turned_entry};

use crate::order::ByValue;
use crate::walk::EntryWalk;
use std::alloc::{AllocError, Allocator};
use std::cmp::Ordering;
use std::collections::BinaryHeap;

/// The best of the entries that a walk gives, `most` at the most, in their order: by value, and those with the same value by key. Each is
/// its value and its key. It keeps no more than so many at any time, and one more while that takes the place of another, in memory from
/// `alloc`. An entry that isn't better than those that are kept costs a comparison.
///
/// # Errors
/// An allocation was refused, by the walk or here.
pub fn best_of<W: EntryWalk, A: Allocator + Copy>(
    alloc: A,
    walk: &mut W,
    most: usize,
    order: ByValue,
) -> Result<Vec<(i32, Vec<u8, A>), A>, AllocError>
    //= The best of some entries are the first `most` of them in order: by value, and those with the same value by key. [by best, sort_by_value]
    ensures { IfOk result (λ found. map found_entry found.items ≡ best order most (W.left walk.old)) }
{
    let mut kept = BinaryHeap::new(alloc);
    while let Some(value) = walk.next_value()? {
        offer(alloc, &mut kept, most, order.turn(value), walk.held_key())?;
    }
    let mut found = kept.into_sorted_vec();
    turn_back(order, &mut found);
    Ok(found)
}

/// Keeps an entry, if it is one of the best so far. The lower its number, the better it is.
fn offer<A: Allocator + Copy>(
    alloc: A,
    kept: &mut BinaryHeap<(i32, Vec<u8, A>), A>,
    most: usize,
    number: i32,
    key: &[u8],
) -> Result<(), AllocError>
    requires heap { IsHeap kept_cmp (heap_items kept.old) }
    requires few { heap_len kept.old ≤ most }
    ensures heap { OnOk result (IsHeap kept_cmp (heap_items kept.new)) }
    ensures few { OnOk result (heap_len kept.new ≤ most) }
    ensures best { OnOk result (KeepsBest most (heap_items kept.old) (key.now, number) (heap_items kept.new)) }
{
    if kept.len() < most {
        return keep(alloc, kept, number, key);
    }
    if comes_before_last(kept, number, key) {
        return replace_last(alloc, kept, number, key);
    }
    Ok(())
}

/// Keeps one entry more.
fn keep<A: Allocator + Copy>(
    alloc: A,
    kept: &mut BinaryHeap<(i32, Vec<u8, A>), A>,
    number: i32,
    key: &[u8],
) -> Result<(), AllocError>
    requires { IsHeap kept_cmp (heap_items kept.old) }
    ensures heap { OnOk result (IsHeap kept_cmp (heap_items kept.new)) }
    ensures len { OnOk result (heap_len kept.new ≡ heap_len kept.old + 1) }
    ensures one { OnOk result (KeepsOneMore (heap_items kept.old) (key.now, number) (heap_items kept.new)) }
{
    let copy = Vec::from_slice(alloc, key)?;
    kept.push((number, copy))?;
    Ok(())
}

/// Keeps an entry in place of the last of those that are kept.
fn replace_last<A: Allocator + Copy>(
    alloc: A,
    kept: &mut BinaryHeap<(i32, Vec<u8, A>), A>,
    number: i32,
    key: &[u8],
) -> Result<(), AllocError>
    requires heap { IsHeap kept_cmp (heap_items kept.old) }
    requires last { PrecedesLast (key.now, number) (heap_items kept.old) }
    ensures heap { OnOk result (IsHeap kept_cmp (heap_items kept.new)) }
    ensures len { OnOk result (heap_len kept.new ≡ heap_len kept.old) }
    ensures best { OnOk result (KeepsBest (heap_len kept.old) (heap_items kept.old) (key.now, number) (heap_items kept.new)) }
{
    let copy = Vec::from_slice(alloc, key)?;
    let _ = kept.pop();
    kept.push((number, copy))?;
    Ok(())
}

/// Whether an entry comes before the last of those that are kept: no, if none is.
fn comes_before_last<A: Allocator>(
    kept: &BinaryHeap<(i32, Vec<u8, A>), A>,
    number: i32,
    key: &[u8],
) -> bool
    ensures { IsHeap kept_cmp (heap_items kept.now) → TellsIfBefore (key.now, number) (heap_items kept.now) result }
{
    match kept.peek() {
        Some((last, last_key)) => comes_before(number, key, *last, last_key.as_slice()),
        None => false,
    }
}

/// Whether an entry comes before another one.
fn comes_before(number: i32, key: &[u8], other: i32, other_key: &[u8]) -> bool
    ensures { result ≡ is_lt (entry_cmp LowestFirst (key.now, number) (other_key.now, other)) }
{
    match number.cmp(&other) {
        Ordering::Less => true,
        Ordering::Equal => key.cmp(other_key).is_lt(),
        Ordering::Greater => false,
    }
}

/// Gives the numbers of some entries their values again.
fn turn_back<A: Allocator>(order: ByValue, found: &mut Vec<(i32, Vec<u8, A>), A>)
    ensures { map found_entry found.new.items ≡ map (turned_entry order) (map found_entry found.old.items) }
{
    for index in 0..found.len() {
        found[index].0 = order.turn(found[index].0);
    }
}
