//! Sorted pairs that go on below one node, and what they say about its number and its labels.

ghost use Rattle.std.specs.Prelude.{◌+◌, ◌<◌, ◌↔◌, ◌≡◌, ◌≤◌, [], get_or, IsTrue, length, OnOk};
ghost use Rattle.cedar_bulk.specs.Words.{AddsSpans, based_behind, entries_by, first_label};
ghost use Rattle.cedar_bulk.specs.Words.{first_number, Forest, GoesOnAlike, IsDeeper, IsTreeOfSpan};
ghost use Rattle.cedar_bulk.specs.Words.{labels, Lists, parts_of, run, slot_labels, Tree};

use arrayvec::ArrayVec;
use std::alloc::{AllocError, Allocator};
use std::convert::AsSlice;

/// The labels of one node, and 0 for its number: as many as there can be, so that a set of labels allocates nothing.
pub(crate) type Labels = ArrayVec<u8, 256>;

/// Sorted pairs whose keys have the same first `depth` bytes, and the slot of the node to which these lead. It has neither
/// number nor label yet.
#[derive(Drop)]
pub(crate) struct Span<'a, K> {
    pub(crate) node: usize,
    pub(crate) depth: usize,
    pub(crate) pairs: &'a [(K, i32)],
}

/// Returns the byte of a key after its first `depth` ones, or 0 if there is none.
fn label_at<K: AsSlice<u8>>(pair: &(K, i32), depth: usize) -> u8
    ensures { result ≡ get_or (K.items pair.now.0) depth 0 }
{
    let key = pair.0.as_slice();
    if depth < key.len() { key[depth] } else { 0 }
}

/// Returns whether the pair at an index has the label of the first pair. Those that have it come first.
fn has_first_label<K: AsSlice<u8>>(
    pairs: &[(K, i32)],
    depth: usize,
    label: u8,
    index: usize,
) -> bool
    requires lists { (f : Forest) × Lists depth (entries_by K.items pairs.now) f }
    requires first { first_label depth (entries_by K.items pairs.now) ≡ label }
    requires inside { index < length pairs.now }
    ensures { IsTrue result ↔ (index < run depth label (entries_by K.items pairs.now)) }
{
    label_at(&pairs[index], depth) == label
}

/// Returns how many of the first pairs have the label of the first one: at least `low`, and at most `high`.
fn run_between<K: AsSlice<u8>>(
    pairs: &[(K, i32)],
    depth: usize,
    label: u8,
    low: usize,
    high: usize,
) -> usize
    requires lists { (f : Forest) × Lists depth (entries_by K.items pairs.now) f }
    requires first { first_label depth (entries_by K.items pairs.now) ≡ label }
    requires least { low ≤ run depth label (entries_by K.items pairs.now) }
    requires most { run depth label (entries_by K.items pairs.now) ≤ high }
    requires inside { high ≤ length pairs.now }
    ensures { result ≡ run depth label (entries_by K.items pairs.now) }
{
    let mut low = low;
    let mut high = high;
    while low < high {
        let middle = low + (high - low) / 2;
        if has_first_label(pairs, depth, label, middle) {
            low = middle + 1;
        } else {
            high = middle;
        }
    }
    low
}

/// Returns how many of the first pairs have the label of the first one. Often that is all of them, or one. Otherwise it searches for
/// the end near the start: in steps that double, and then by halves.
fn run_length<K: AsSlice<u8>>(pairs: &[(K, i32)], depth: usize, label: u8) -> usize
    requires lists { (f : Forest) × Lists depth (entries_by K.items pairs.now) f }
    requires first { first_label depth (entries_by K.items pairs.now) ≡ label }
    requires some { 0 < length pairs.now }
    ensures count { result ≡ run depth label (entries_by K.items pairs.now) }
    ensures some { 0 < result }
    ensures within { result ≤ length pairs.now }
{
    let last = pairs.len() - 1;
    if has_first_label(pairs, depth, label, last) {
        return pairs.len();
    }
    if !has_first_label(pairs, depth, label, 1) {
        return 1;
    }
    let mut low = 2;
    while low < last - low {
        if !has_first_label(pairs, depth, label, low + low) {
            return run_between(pairs, depth, label, low, low + low);
        }
        low += low + 1;
    }
    run_between(pairs, depth, label, low, last)
}

/// Returns whether no pair ends here and all go on with one label.
pub(crate) fn go_on_alike<K: AsSlice<u8>>(pairs: &[(K, i32)], depth: usize) -> bool
    requires some { 0 < length pairs.now }
    requires tree { (t : Tree) × IsTreeOfSpan depth (entries_by K.items pairs.now) t }
    ensures { IsTrue result → GoesOnAlike depth (entries_by K.items pairs.now) }
{
    let key = pairs[0].0.as_slice();
    if key.len() <= depth {
        return false;
    }
    has_first_label(pairs, depth, key[depth], pairs.len() - 1)
}

/// Returns the number of the first pair, if its key has no byte after its first `depth` ones.
pub(crate) fn number_at<K: AsSlice<u8>>(pairs: &[(K, i32)], depth: usize) -> Option<i32>
    ensures { result ≡ first_number depth (entries_by K.items pairs.now) }
{
    match pairs.first() {
        Some(pair) if pair.0.as_slice().len() <= depth => Some(pair.1),
        _ => None,
    }
}

/// Returns the depth one byte deeper into a key that is longer.
fn deeper(key: &[u8], depth: usize) -> usize
    requires { depth < length key.now }
    ensures { result ≡ depth + 1 }
{
    depth + 1
}

/// Returns how deep the pairs with the first pair's label lead.
pub(crate) fn depth_below<K: AsSlice<u8>>(pairs: &[(K, i32)], depth: usize) -> usize
    requires { IsDeeper depth (entries_by K.items pairs.now) }
    ensures { result ≡ depth + 1 }
{
    deeper(pairs[0].0.as_slice(), depth)
}

/// Returns the label of the first pair.
pub(crate) fn first_label_at<K: AsSlice<u8>>(pairs: &[(K, i32)], depth: usize) -> u8
    requires { 0 < length pairs.now }
    ensures { result ≡ first_label depth (entries_by K.items pairs.now) }
{
    label_at(&pairs[0], depth)
}

/// Sets a list of labels to the label 0 alone if there is a number, and otherwise to no label.
fn begin_labels(wanted: &mut Labels, number: Option<i32>)
    ensures { wanted.new.items ≡ slot_labels number [] }
{
    wanted.clear();
    if number.is_some() {
        wanted.push(0);
    }
}

/// Sets a list of labels to those of some pairs, ascending, after the 0 of a number, if there is one, and adds a span for each of
/// these labels. The slots of the spans begin at 0, since no base is known yet.
pub(crate) fn list_spans<'a, K: AsSlice<u8>, A: Allocator>(
    wanted: &mut Labels,
    pending: &mut Vec<Span<'a, K>, A>,
    number: Option<i32>,
    pairs: &'a [(K, i32)],
    depth: usize,
) -> Result<(), AllocError>
    requires { (f : Forest) × Lists depth (entries_by K.items pairs.now) f }
    ensures labels { OnOk result ((f : Forest) → Lists depth (entries_by K.items pairs.now) f → wanted.new.items ≡ slot_labels number (labels f)) }
    ensures spans { OnOk result ((f : Forest) → Lists depth (entries_by K.items pairs.now) f → AddsSpans K.items 0 f pending.old.items pending.new.items) }
{
    begin_labels(wanted, number);
    let mut start = 0;
    while start < pairs.len() {
        let rest = &pairs[start..];
        let label = first_label_at(rest, depth);
        let count = run_length(rest, depth, label);
        wanted.push(label);
        let span = Span {
            node: usize::from(label),
            depth: depth_below(rest, depth),
            pairs: &rest[..count],
        };
        pending.push(span)?;
        start += count;
    }
    Ok(())
}

/// Moves the slots of the spans after the first ones from 0 to a base.
pub(crate) fn move_spans<'a, K: AsSlice<u8>, A: Allocator>(
    pending: &mut Vec<Span<'a, K>, A>,
    first: usize,
    base: usize,
)
    requires { first ≤ length pending.old.items }
    ensures { parts_of K.items pending.new.items ≡ based_behind first base (parts_of K.items pending.old.items) }
{
    for index in first..pending.len() {
        let span = &mut pending[index];
        span.node = base ^ span.node;
    }
}
