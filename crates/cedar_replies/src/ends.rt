//! The ends of ranges as values.

ghost use Rattle.std.specs.Prelude.{◌≡◌, IfOk, List, ℕ};
ghost use Rattle.cedar_replies.specs.Words.{bound_map, end_at, holds, is_between_ends};

use cedar_complete::KeyRange;
use std::alloc::{AllocError, Allocator};
use std::ops::Bound;

/// The ends of a range: at byte strings, each of which is included or left out. One without a byte is an open end.
#[derive(Clone, Copy, Debug)]
pub struct KeyEnds<'a> {
    /// Where the range begins.
    pub from: &'a [u8],
    /// Whether that belongs to it.
    pub from_included: bool,
    /// Where it ends.
    pub to: &'a [u8],
    /// Whether that belongs to it.
    pub to_included: bool,
}

/// An end at a byte string, which is included or left out; an open one if that has no byte.
fn end_at(at: &[u8], is_included: bool) -> Bound<&[u8]>
    ensures { bound_map (λ at. at.now) result ≡ end_at is_included at.now }
{
    if at.is_empty() {
        return Bound::Unbounded;
    }
    if is_included {
        Bound::Included(at)
    } else {
        Bound::Excluded(at)
    }
}

/// The range between two ends.
pub(crate) fn range_of<A: Allocator + Copy>(
    alloc: A,
    ends: &KeyEnds<'_>,
) -> Result<KeyRange<A>, AllocError>
    ensures { IfOk result (λ range. (w : List ℕ) → holds range w ≡ is_between_ends ends.now w) }
{
    let start = end_at(ends.from, ends.from_included);
    let end = end_at(ends.to, ends.to_included);
    KeyRange::between(alloc, start, end)
}
