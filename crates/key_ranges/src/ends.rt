//! The ends of ranges.

ghost use Rattle.std.specs.Prelude.{◌++◌, ◌∷◌, ◌≡◌, [], IfOk, List, option_map, ℕ};
ghost use Rattle.key_ranges.specs.Words.{bound_map, ends_before, follows_start, is_ge};
ghost use Rattle.key_ranges.specs.Words.{nat_cmp, precedes_stop, slice_cmp};

use std::alloc::{AllocError, Allocator};
use std::ops::Bound;

/// The first byte string behind another one.
pub(crate) fn behind<A: Allocator + Copy>(alloc: A, key: &[u8]) -> Result<Vec<u8, A>, AllocError>
    ensures { IfOk result (λ next. next.items ≡ key.now ++ 0 ∷ []) }
{
    let mut next = Vec::with_capacity(alloc, key.len() + 1)?;
    next.extend_from_slice(key)?;
    next.push(0)?;
    Ok(next)
}

/// The first byte string of a range that starts so.
pub(crate) fn start_of<A: Allocator + Copy>(
    alloc: A,
    start: Bound<&[u8]>,
) -> Result<Vec<u8, A>, AllocError>
    ensures { IfOk result (λ from. (w : List ℕ) → is_ge (slice_cmp nat_cmp w from.items) ≡ follows_start (bound_map (λ key. key.now) start.entry) w) }
{
    match start {
        Bound::Included(key) => Vec::from_slice(alloc, key),
        Bound::Excluded(key) => behind(alloc, key),
        Bound::Unbounded => Ok(Vec::new(alloc)),
    }
}

/// What a range ends before that ends so.
pub(crate) fn end_of<A: Allocator + Copy>(
    alloc: A,
    end: Bound<&[u8]>,
) -> Result<Option<Vec<u8, A>>, AllocError>
    ensures { IfOk result (λ to. (w : List ℕ) → ends_before (option_map (λ to. to.items) to) w ≡ precedes_stop (bound_map (λ key. key.now) end.entry) w) }
{
    match end {
        Bound::Included(key) => Ok(Some(behind(alloc, key)?)),
        Bound::Excluded(key) => Ok(Some(Vec::from_slice(alloc, key)?)),
        Bound::Unbounded => Ok(None),
    }
}

/// Whether a byte string comes before an end, if there is one.
pub(crate) fn comes_before<A: Allocator>(key: &[u8], end: &Option<Vec<u8, A>>) -> bool
    ensures { result ≡ ends_before (option_map (λ to. to.items) end.now) key.now }
{
    match end {
        Some(to) => key.cmp(to.as_slice()).is_lt(),
        None => true,
    }
}
