//! The next entry behind a key that is near a query or fits a pattern.

ghost use Rattle.std.specs.Prelude.{◌↔◌, ◌≡◌, IfSome, None};
ghost use Rattle.cedar_c.specs.Words.{edits_if, entry_told, inner_dictionary, IsHeadOf, is_near};
ghost use Rattle.cedar_c.specs.Words.{is_wanted_near, shown_in, TellsFitting, TellsWanted};
ghost use Rattle.cedar_c.specs.Words.{wanted_behind};

use crate::entries::is_ordered;
use crate::neighbours::{bound_at, tell_entry};
use crate::reading::Reading;
use crate::status::{CLOSED, MEMORY, NOT_ASCENDING, PATTERN_TOO_LONG};
use byte_automata::{Automaton, Beginning, Pattern, Within};
use cedar_complete::{KeyRange, next_matching};
use cedarwood::{Layout, Trie};
use either_layout::{AnyCedar, on_layout};
use std::alloc::Global;
use std::ops::Bound;

/// The first entry behind a key that an automaton accepts, of a dictionary whose labels ascend. None if an allocation is refused.
fn next_wanted<L: Layout, const SLOTS: usize, M: Automaton>(
    trie: &Trie<L, SLOTS, Global>,
    alloc: Global,
    behind: &[u8],
    wanted: &M,
) -> Option<Option<(i32, Vec<u8, Global>)>>
    ensures { IfSome result (λ found. IsHeadOf (wanted_behind (M.accepts wanted.now) trie.now.state.tree behind.now) (entry_told found)) }
{
    let start = bound_at(behind, false);
    let mut range = KeyRange::between(alloc, start, Bound::Unbounded).ok()?;
    next_matching(alloc, trie, &mut range, wanted).ok()
}

/// Writes the first entry behind a key that an automaton accepts.
pub(crate) fn tell_wanted<L: Layout, const SLOTS: usize, M: Automaton>(
    trie: &Trie<L, SLOTS, Global>,
    alloc: Global,
    wanted: &M,
    behind: &[u8],
    buffer: &mut [u8],
    value: &mut i32,
    needed: &mut usize,
) -> u32
    ensures { TellsWanted (M.accepts wanted.now) trie.now.state behind.now buffer.old buffer.new value.old value.new needed.old needed.new result }
{
    if !is_ordered(trie) {
        return NOT_ASCENDING;
    }
    match next_wanted(trie, alloc, behind, wanted) {
        Some(found) => tell_entry(found, buffer, value, needed),
        None => MEMORY,
    }
}

/// The keys that are an edit away from a query at the most, or if `two_edits` two.
fn within<'a>(query: &'a [u8], two_edits: bool) -> Within<'a>
    ensures { ⟦<Within<'a> as Automaton>⟧.accepts result ≡ is_near query.now (edits_if two_edits) }
{
    if two_edits {
        Within::two(query)
    } else {
        Within::one(query)
    }
}

/// Writes the first entry behind a key that is near a query.
fn near_of<L: Layout, const SLOTS: usize>(
    trie: &Trie<L, SLOTS, Global>,
    alloc: Global,
    text: &[u8],
    two_edits: bool,
    is_beginning: bool,
    behind: &[u8],
    buffer: &mut [u8],
    value: &mut i32,
    needed: &mut usize,
) -> u32
    ensures { TellsWanted (is_wanted_near is_beginning (edits_if two_edits) text.now) trie.now.state behind.now buffer.old buffer.new value.old value.new needed.old needed.new result }
{
    let near = within(text, two_edits);
    if is_beginning {
        let beginning = Beginning::new(near);
        return tell_wanted(trie, alloc, &beginning, behind, buffer, value, needed);
    }
    tell_wanted(trie, alloc, &near, behind, buffer, value, needed)
}

/// Writes the first entry behind a key that fits a pattern.
fn fitting_of<L: Layout, const SLOTS: usize>(
    trie: &Trie<L, SLOTS, Global>,
    alloc: Global,
    pattern: &[u8],
    behind: &[u8],
    buffer: &mut [u8],
    value: &mut i32,
    needed: &mut usize,
) -> u32
    ensures { TellsFitting trie.now.state pattern.now behind.now buffer.old buffer.new value.old value.new needed.old needed.new result }
{
    match Pattern::new(pattern) {
        Ok(fitting) => tell_wanted(trie, alloc, &fitting, behind, buffer, value, needed),
        Err(_) => PATTERN_TOO_LONG,
    }
}

/// `near_of` a dictionary of either layout.
fn next_near(
    cedar: &AnyCedar,
    alloc: Global,
    text: &[u8],
    two_edits: bool,
    is_beginning: bool,
    behind: &[u8],
    buffer: &mut [u8],
    value: &mut i32,
    needed: &mut usize,
) -> u32
    ensures { TellsWanted (is_wanted_near is_beginning (edits_if two_edits) text.now) (inner_dictionary cedar.now).state behind.now buffer.old buffer.new value.old value.new needed.old needed.new result }
{
    on_layout!(cedar, cedar => near_of(cedar, alloc, text, two_edits, is_beginning, behind, buffer, value, needed))
}

/// `fitting_of` a dictionary of either layout.
fn next_fitting(
    cedar: &AnyCedar,
    alloc: Global,
    pattern: &[u8],
    behind: &[u8],
    buffer: &mut [u8],
    value: &mut i32,
    needed: &mut usize,
) -> u32
    ensures { TellsFitting (inner_dictionary cedar.now).state pattern.now behind.now buffer.old buffer.new value.old value.new needed.old needed.new result }
{
    on_layout!(cedar, cedar => fitting_of(cedar, alloc, pattern, behind, buffer, value, needed))
}

/// Writes the first entry behind a key whose own key is near a query: one edit away at the most, or two if `two_edits`, or it begins with
/// what is, if `is_beginning`. An edit puts in, takes out or changes a byte (Levenshtein 1966). If `behind` is empty, it is the first one of
/// all. It is written as `cedar_ceiling` writes an entry. It makes a look-up for each entry that it comes to, and one for each place where
/// no key that goes on so can be near: all keys below that are left out. It allocates.
///
/// # Errors
/// Those of `cedar_ceiling`.
#[unsafe(no_mangle)]
pub extern "C" fn cedar_next_near(
    handle: &mut Reading,
    alloc: Global,
    query: &[u8],
    two_edits: bool,
    is_beginning: bool,
    behind: &[u8],
    buffer: &mut [u8],
    value: &mut i32,
    needed: &mut usize,
) -> u32
    ensures closed { (result ≡ CLOSED) ↔ (shown_in handle.old ≡ None) }

    //= The next entry that is near is the first one behind a key, or of all if no key is given, whose key is one edit of bytes away from the
    //  query at the most, or two if the flag says so, or begins with what is. It is written, or refused, as a ceiling is. [by near,
    //  TellsWanted, wanted_behind, is_wanted_near]
    ensures near { IfSome (shown_in handle.old) (λ a. TellsWanted (is_wanted_near is_beginning (edits_if two_edits) query.now) (inner_dictionary a).state behind.now buffer.old buffer.new value.old value.new needed.old needed.new result) }
    ensures closed_stays { result ≡ CLOSED → (buffer.new ≡ buffer.old) × (value.new ≡ value.old) × (needed.new ≡ needed.old) }
    ensures kept { handle.new ≡ handle.old }
{
    if !handle.is_open() {
        return CLOSED;
    }
    next_near(
        handle.shown.see().dictionary(),
        alloc,
        query,
        two_edits,
        is_beginning,
        behind,
        buffer,
        value,
        needed,
    )
}

/// Writes the first entry behind a key whose own key fits a pattern, in which `?` stands for any byte and `*` for any bytes, also none. It is
/// written as `cedar_ceiling` writes an entry, and found as `cedar_next_near` finds one.
///
/// # Errors
/// Those of `cedar_ceiling`, and `PATTERN_TOO_LONG` if the pattern has more than 63 bytes.
#[unsafe(no_mangle)]
pub extern "C" fn cedar_next_fitting(
    handle: &mut Reading,
    alloc: Global,
    pattern: &[u8],
    behind: &[u8],
    buffer: &mut [u8],
    value: &mut i32,
    needed: &mut usize,
) -> u32
    ensures closed { (result ≡ CLOSED) ↔ (shown_in handle.old ≡ None) }

    //= The next entry that fits a pattern is found and written in this way, if the pattern has at most 63 bytes. If it has more, that is the
    //  error, and nothing is written. [by fitting, TellsFitting, wanted_behind, fits]
    ensures fitting { IfSome (shown_in handle.old) (λ a. TellsFitting (inner_dictionary a).state pattern.now behind.now buffer.old buffer.new value.old value.new needed.old needed.new result) }
    ensures closed_stays { result ≡ CLOSED → (buffer.new ≡ buffer.old) × (value.new ≡ value.old) × (needed.new ≡ needed.old) }
    ensures kept { handle.new ≡ handle.old }
{
    if !handle.is_open() {
        return CLOSED;
    }
    next_fitting(
        handle.shown.see().dictionary(),
        alloc,
        pattern,
        behind,
        buffer,
        value,
        needed,
    )
}
