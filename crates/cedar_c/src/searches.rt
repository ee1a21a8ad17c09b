//! What the iterators of a scanner give, written into a buffer as far as there is room.

ghost use Rattle.std.specs.Prelude.{◌+◌, ◌++◌, ◌-◌, ◌<◌, ◌≡◌, ◌≤◌, ◌⊎◌, length, map, set, take};
ghost use Rattle.cedar_c.specs.Words.{earliest_behind, ending_behind, found_keyword, keys_ending};
ghost use Rattle.cedar_c.specs.Words.{leftmost_from};

use crate::scans::Found;
use cedar_scan::{OwnedLeftmostScanner, OwnedScanner, Placed};
use std::alloc::Global;

/// Writes a key that was found: where it begins, how many bytes it has, and its value.
fn put_spot(found: &mut [Found], at: usize, spot: (usize, usize, i32))
    requires { at < length found.old }
    ensures { found.new ≡ set found.old at (found_keyword spot) }
{
    let (place, length, value) = spot;
    found[at] = Found {
        place,
        length,
        value,
    };
}

/// Moves a position to the byte at which a key ends, unless it is there: then the keys before that one are whole, so many.
fn move_before(end: usize, count: usize, next: &mut usize, whole: &mut usize)
    ensures { ((next.old + 1 < end) × (next.new ≡ end - 1) × (whole.new ≡ count)) ⊎ ((end ≤ next.old + 1) × (next.new ≡ next.old) × (whole.new ≡ whole.old)) }
{
    if end > 0 && *next < end - 1 {
        *next = end - 1;
        *whole = count;
    }
}

/// Writes the keys of a text that end behind a position. Those that end at one byte are written together, or not at all.
pub(crate) fn write_overlapping<T: Placed + Drop>(
    scanner: &OwnedScanner<T, Global>,
    text: &[u8],
    next: &mut usize,
    found: &mut [Found],
) -> usize
    ensures told { map found_keyword (ending_behind scanner.now next.old text.now) ≡ take result found.new ++ map found_keyword (ending_behind scanner.now next.new text.now) }
    ensures full { (length text.now ≤ next.new) ⊎ (length found.new < result + length (keys_ending scanner.now (take (next.new + 1) text.now))) }
    ensures within { (result ≤ length found.new) × (next.old ≤ next.new) }
    ensures ends { (next.new ≤ length text.now) ⊎ (next.new ≡ next.old) }
{
    let mut walk = scanner.overlapping_from(text, *next);
    let mut count = 0;
    // How many of these end where `next` is, or before it.
    let mut whole = 0;
    while let Some(spot) = walk.next() {
        move_before(spot.0 + spot.1, count, next, &mut whole);
        if count == found.len() {
            return whole;
        }
        put_spot(found, count, spot);
        count += 1;
    }
    *next = text.len().max(*next);
    count
}

/// Writes keys that don't overlap from a position on: of those that end first the longest, and so on from its end.
pub(crate) fn write_earliest<T: Placed + Drop>(
    scanner: &OwnedScanner<T, Global>,
    text: &[u8],
    next: &mut usize,
    found: &mut [Found],
) -> usize
    ensures told { map found_keyword (earliest_behind scanner.now next.old text.now) ≡ take result found.new ++ map found_keyword (earliest_behind scanner.now next.new text.now) }
    ensures full { (length text.now ≤ next.new) ⊎ (result ≡ length found.new) }
    ensures within { (result ≤ length found.new) × (next.old ≤ next.new) }
    ensures ends { (next.new ≤ length text.now) ⊎ (next.new ≡ next.old) }
{
    let mut walk = scanner.earliest_from(text, *next);
    let mut count = 0;
    while count < found.len() {
        let Some(spot) = walk.next() else {
            *next = text.len().max(*next);
            return count;
        };
        put_spot(found, count, spot);
        count += 1;
        *next = spot.0 + spot.1;
    }
    count
}

/// Writes keys that don't overlap from a position on: of those that begin first the one that counts, and so on from its end.
pub(crate) fn write_leftmost<T: Placed + Drop>(
    scanner: &OwnedLeftmostScanner<T, Global>,
    text: &[u8],
    next: &mut usize,
    found: &mut [Found],
) -> usize
    ensures told { map found_keyword (leftmost_from scanner.now.kind scanner.now.tree next.old text.now) ≡ take result found.new ++ map found_keyword (leftmost_from scanner.now.kind scanner.now.tree next.new text.now) }
    ensures full { (length text.now ≤ next.new) ⊎ (result ≡ length found.new) }
    ensures within { (result ≤ length found.new) × (next.old ≤ next.new) }
    ensures ends { (next.new ≤ length text.now) ⊎ (next.new ≡ next.old) }
{
    let mut walk = scanner.leftmost_from(text, *next);
    let mut count = 0;
    while count < found.len() {
        let Some(spot) = walk.next() else {
            *next = text.len().max(*next);
            return count;
        };
        put_spot(found, count, spot);
        count += 1;
        *next = spot.0 + spot.1;
    }
    count
}
