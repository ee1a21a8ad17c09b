//! Scanners: keys found in a text in linear time, by an automaton that owns a copy of its dictionary.

ghost use Rattle.std.specs.Prelude.{◌↔◌, ◌≡◌, ◌≤◌, ◌⊎◌, IfSome, IsSome, length, None, Some, take};
ghost use Rattle.cedar_c.specs.Words.{AnyScanner, inner_dictionary, IsFullAt, IsHeight};
ghost use Rattle.cedar_c.specs.Words.{scanned_tree, scanner_by, scanner_in, shown_in};
ghost use Rattle.cedar_c.specs.Words.{shown_scanner_in, shown_tree, WritesFound};

use crate::any_scanner::AnyScanner;
use crate::reading::Reading;
use crate::scanner_handle::ScannerHandle;
use crate::scanner_reading::ScannerReading;
use crate::scans::Found;
use crate::searches::{write_earliest, write_leftmost, write_overlapping};
use crate::status::{CLOSED, MEMORY, OK, UNKNOWN_SEARCH};
use either_layout::AnyCedar;
use std::alloc::Global;

/// How many kinds of searches there are, by their numbers from 0 on.
const SEARCHES: u32 = 4;

/// Opens a handle with a scanner of a copy of a dictionary. If the handle is open, the new one replaces the old one. Later changes of the
/// dictionary don't change the scanner. `search` says what it finds: 0 all keys, by their ends; 1 keys that don't overlap, of those that
/// end first the longest; 2 keys that don't overlap, of those that begin first the longest, or 3 the one with the least value.
///
/// # Errors
/// `CLOSED` if the dictionary is closed, `UNKNOWN_SEARCH` if `search` is above 3, and `MEMORY` if an allocation was refused. Then the
/// handle is as it was.
#[unsafe(no_mangle)]
pub extern "C" fn cedar_scanner_new(
    original: &mut Reading,
    alloc: Global,
    search: u32,
    handle: &mut ScannerHandle,
) -> u32
    //= It returns `CLOSED` exactly if the dictionary is closed, and of an open one `UNKNOWN_SEARCH` exactly if no search has the number.
    //  [with unknown]
    ensures closed { (result ≡ CLOSED) ↔ (shown_in original.old ≡ None) }
    ensures unknown { IsSome (shown_in original.old) → ((result ≡ UNKNOWN_SEARCH) ↔ (SEARCHES ≤ search)) }

    //= A scanner that was made is that of the dictionary's tree for this search. Otherwise memory was wanting, or the call was refused, and
    //  the handle has what it had. The dictionary isn't changed. [with refused, kept; by scanner_by]
    ensures made { result ≡ OK → (scanner_in handle.new ≡ scanner_by search (shown_tree original.old)) × IsSome (scanner_in handle.new) }
    ensures refused { (result ≡ OK) ⊎ (((result ≡ CLOSED) ⊎ (result ≡ UNKNOWN_SEARCH) ⊎ (result ≡ MEMORY)) × (scanner_in handle.new ≡ scanner_in handle.old)) }
    ensures kept { original.new ≡ original.old }
{
    if !original.is_open() {
        return CLOSED;
    }
    if search >= SEARCHES {
        return UNKNOWN_SEARCH;
    }
    let made = boxed_scanner(original.shown.see().dictionary(), alloc, search);
    match made {
        Some(scanner) => {
            let _ = handle.take(alloc);
            *handle = ScannerHandle::of(scanner);
            OK
        }
        None => MEMORY,
    }
}

/// A scanner of a copy of a dictionary on the heap, or `None` if an allocation is refused, or if no search has the number.
fn boxed_scanner(cedar: &AnyCedar, alloc: Global, search: u32) -> Option<Box<AnyScanner, Global>>
    ensures { IfSome result (λ b. scanner_by search (inner_dictionary cedar.now).state.tree ≡ Some b.value) }
{
    let copy = cedar.clone().ok()?;
    let scanner = AnyScanner::new(copy, search, alloc)?;
    Box::new(alloc, scanner).ok()
}

/// Closes the handle of a scanner, and gives its memory back.
#[unsafe(no_mangle)]
pub extern "C" fn cedar_scanner_free(handle: &mut ScannerHandle, alloc: Global)
    //= A scanner's handle that is freed is closed.
    ensures { scanner_in handle.new ≡ None }
{
    drop(handle.take(alloc));
}

/// Returns how many bytes the longest key of a scanner has: at most so many end at one byte of a text. 0 if the handle is closed.
#[unsafe(no_mangle)]
pub extern "C" fn cedar_scanner_longest(handle: &mut ScannerReading) -> usize
    //= What `cedar_scanner_longest` returns is how many labels lead to the lowest node of the tree, or 0 if the handle is closed. [with
    //  closed]
    ensures height { IfSome (shown_scanner_in handle.old) (λ scanner. IsHeight (scanned_tree scanner) result) }
    ensures closed { shown_scanner_in handle.old ≡ None → result ≡ 0 }
    ensures kept { handle.new ≡ handle.old }
{
    if !handle.is_open() {
        return 0;
    }
    handle.shown.see().scanner().longest_len()
}

/// Writes what a scanner finds in a text from a position on, as far as there is room. Of all keys those that end at one byte are written by
/// the same call: if there is no room left for them, the call ends, and `next` is the position of that byte. Of keys that don't overlap
/// `next` is the end of the last one if there is no room for more. A call from there goes on. At the end of the text `next` is the text's
/// length. It returns how many elements of the buffer it wrote; what the others have then is left open. It allocates nothing. It takes at
/// most two steps for each byte from `next` on that it reads, and one for each key; of all keys it reads as many bytes before `next` as the
/// longest key has, and of keys that begin first it may read as many behind the last one.
#[unsafe(no_mangle)]
pub extern "C" fn cedar_scanner_find(
    handle: &mut ScannerReading,
    text: &[u8],
    next: &mut usize,
    found: &mut [Found],
) -> usize
    //= What a scanner finds from the old `next` on is what was written, and then what it finds from the new one on. [by WritesFound]
    ensures told { IfSome (shown_scanner_in handle.old) (λ scanner. WritesFound scanner text.now next.old next.new (take result found.new)) }

    //= The call ends where the text does, or where there is no room for more: of keys that overlap, for all that end at the next byte. [by
    //  IsFullAt]
    ensures full { IfSome (shown_scanner_in handle.old) (λ scanner. (length text.now ≤ next.new) ⊎ IsFullAt scanner text.now next.new result (length found.new)) }

    //= `next` never goes back, nor past the text's end unless it was past that before. A search returns at most the room. If the handle is
    //  closed, it returns 0 and ends where the text does. [with ends, closed, through]
    ensures within { (result ≤ length found.new) × (next.old ≤ next.new) }
    ensures ends { (next.new ≤ length text.now) ⊎ (next.new ≡ next.old) }
    ensures closed { shown_scanner_in handle.old ≡ None → result ≡ 0 }
    ensures through { shown_scanner_in handle.old ≡ None → length text.now ≤ next.new }
    ensures kept { handle.new ≡ handle.old }
{
    if !handle.is_open() {
        *next = text.len().max(*next);
        return 0;
    }
    handle.shown.see().scanner().find(text, next, found)
}

impl AnyScanner {
    fn find(&self, text: &[u8], next: &mut usize, found: &mut [Found]) -> usize
        ensures told { WritesFound self.now text.now next.old next.new (take result found.new) }
        ensures full { (length text.now ≤ next.new) ⊎ IsFullAt self.now text.now next.new result (length found.new) }
        ensures within { (result ≤ length found.new) × (next.old ≤ next.new) }
        ensures ends { (next.new ≤ length text.now) ⊎ (next.new ≡ next.old) }
    {
        match self {
            AnyScanner::Overlapping(scanner) => write_overlapping(scanner, text, next, found),
            AnyScanner::Earliest(scanner) => write_earliest(scanner, text, next, found),
            AnyScanner::Leftmost(scanner) => write_leftmost(scanner, text, next, found),
        }
    }
}
