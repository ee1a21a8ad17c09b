//! Walks of a dictionary in pieces: a call goes on where the one before it ended.

ghost use Rattle.std.specs.Prelude.{◌+◌, ◌<◌, ◌^◌, ◌≡◌, [], drop, false, IsTrue, length, take};
ghost use Rattle.cedar_c.specs.Words.{all_longer, filled_matches, Fit, front, front_keys};
ghost use Rattle.cedar_c.specs.Words.{inner_dictionary, predict, predicted_keys, shown_tree};

use crate::reading::Reading;
use crate::walks::{Finds, Match, put_at};
use cedarwood::{Layout, Trie};
use either_layout::{AnyCedar, on_layout};
use std::alloc::Global;

/// Passes over the first of what a walk finds, and returns whether it finds so many.
fn pass<F: Finds>(walk: &mut F, count: usize) -> bool
    ensures passed { IsTrue result → F.left walk.new ≡ drop count (F.left walk.old) }
    ensures ended { result ≡ false → drop count (F.left walk.old) ≡ [] }
{
    let mut passed = 0;
    while passed < count {
        let Some(_) = walk.next_found() else {
            return false;
        };
        passed += 1;
    }
    true
}

/// Writes what a walk finds into the elements of a buffer, until it is full or nothing is left, and returns how many it wrote. Each key has
/// `more` bytes more than the walk says.
fn fill_page<F: Finds>(walk: &mut F, more: usize, matches: &mut [Match]) -> usize
    requires { Fit more (F.left walk.old) }
    ensures count { result ≡ length (take (length matches.old) (F.left walk.old)) }
    ensures filled { matches.new ≡ filled_matches matches.old (all_longer more (F.left walk.old)) }
{
    let mut count = 0;
    while count < matches.len() {
        let Some(found) = walk.next_found() else {
            return count;
        };
        put_at(matches, count, found, more);
        count += 1;
    }
    count
}

/// Writes what a walk finds from a position of it on, as far as there is room, which is then the position to go on at.
fn go_on<F: Finds>(walk: &mut F, more: usize, next: &mut usize, matches: &mut [Match]) -> usize
    requires count { length (F.left walk.old) < 2 ^ 64 }
    requires fit { Fit more (F.left walk.old) }
    ensures count { result ≡ length (take (length matches.old) (drop next.old (F.left walk.old))) }
    ensures filled { matches.new ≡ filled_matches matches.old (all_longer more (drop next.old (F.left walk.old))) }
    ensures next { next.new ≡ next.old + result }
{
    if !pass(walk, *next) {
        return 0;
    }
    let count = fill_page(walk, more, matches);
    *next += count;
    count
}

/// Writes the keys that a text begins with from a position of the walk on.
fn go_on_prefixes<L: Layout, const SLOTS: usize>(
    trie: &Trie<L, SLOTS, Global>,
    text: &[u8],
    next: &mut usize,
    matches: &mut [Match],
) -> usize
    ensures count { result ≡ length (take (length matches.old) (drop next.old (front trie.now.state.tree text.now))) }
    ensures filled { matches.new ≡ filled_matches matches.old (drop next.old (front_keys trie.now.state.tree text.now)) }
    ensures next { next.new ≡ next.old + result }
{
    // A walk gives the index of a key's last byte.
    go_on(&mut trie.common_prefix_iter_bytes(text), 1, next, matches)
}

/// Writes the first keys that begin with a text, as far as there is room.
fn fill_first_predictions<L: Layout, const SLOTS: usize>(
    trie: &Trie<L, SLOTS, Global>,
    text: &[u8],
    matches: &mut [Match],
) -> usize
    ensures count { result ≡ length (take (length matches.old) (predict trie.now.state.tree text.now)) }
    ensures filled { matches.new ≡ filled_matches matches.old (predicted_keys trie.now.state.tree text.now) }
{
    // No key has more bytes than there are slots.
    trie.stands_on_its_table();
    fill_page(
        &mut trie.common_prefix_predict_iter_bytes(text),
        text.len(),
        matches,
    )
}

/// Writes the keys that begin with a text from a position of the walk on.
fn go_on_predictions<L: Layout, const SLOTS: usize>(
    trie: &Trie<L, SLOTS, Global>,
    text: &[u8],
    next: &mut usize,
    matches: &mut [Match],
) -> usize
    ensures count { result ≡ length (take (length matches.old) (drop next.old (predict trie.now.state.tree text.now))) }
    ensures filled { matches.new ≡ filled_matches matches.old (drop next.old (predicted_keys trie.now.state.tree text.now)) }
    ensures next { next.new ≡ next.old + result }
{
    // There are no more of them than keys, and no key has more bytes than there are slots.
    let _ = trie.len();
    trie.stands_on_its_table();
    go_on(
        &mut trie.common_prefix_predict_iter_bytes(text),
        text.len(),
        next,
        matches,
    )
}

/// `go_on_prefixes` of a dictionary of either layout.
fn prefixes_from(cedar: &AnyCedar, text: &[u8], next: &mut usize, matches: &mut [Match]) -> usize
    ensures count { result ≡ length (take (length matches.old) (drop next.old (front (inner_dictionary cedar.now).state.tree text.now))) }
    ensures filled { matches.new ≡ filled_matches matches.old (drop next.old (front_keys (inner_dictionary cedar.now).state.tree text.now)) }
    ensures next { next.new ≡ next.old + result }
{
    on_layout!(cedar, cedar => go_on_prefixes(cedar, text, next, matches))
}

/// `fill_first_predictions` of a dictionary of either layout.
fn first_predictions(cedar: &AnyCedar, text: &[u8], matches: &mut [Match]) -> usize
    ensures count { result ≡ length (take (length matches.old) (predict (inner_dictionary cedar.now).state.tree text.now)) }
    ensures filled { matches.new ≡ filled_matches matches.old (predicted_keys (inner_dictionary cedar.now).state.tree text.now) }
{
    on_layout!(cedar, cedar => fill_first_predictions(cedar, text, matches))
}

/// `go_on_predictions` of a dictionary of either layout.
fn predictions_from(cedar: &AnyCedar, text: &[u8], next: &mut usize, matches: &mut [Match]) -> usize
    ensures count { result ≡ length (take (length matches.old) (drop next.old (predict (inner_dictionary cedar.now).state.tree text.now))) }
    ensures filled { matches.new ≡ filled_matches matches.old (drop next.old (predicted_keys (inner_dictionary cedar.now).state.tree text.now)) }
    ensures next { next.new ≡ next.old + result }
{
    on_layout!(cedar, cedar => go_on_predictions(cedar, text, next, matches))
}

/// As `cedar_prefixes`, without the first `next` of them: it returns how many it wrote, and sets `next` to where the same call goes on.
#[unsafe(no_mangle)]
pub extern "C" fn cedar_prefixes_from(
    handle: &mut Reading,
    text: &[u8],
    next: &mut usize,
    matches: &mut [Match],
) -> usize
    //= A walk in pieces writes what such a walk has after the first `next`, as far as there are elements, and doesn't change the others. It
    //  returns how many it wrote and adds that to `next`. [with filled, next; also cedar_predictions_from]
    ensures count { result ≡ length (take (length matches.old) (drop next.old (front (shown_tree handle.old) text.now))) }
    ensures filled { matches.new ≡ filled_matches matches.old (drop next.old (front_keys (shown_tree handle.old) text.now)) }
    ensures next { next.new ≡ next.old + result }
    ensures kept { handle.new ≡ handle.old }
{
    if !handle.is_open() {
        return 0;
    }
    prefixes_from(handle.shown.see().dictionary(), text, next, matches)
}

/// As `cedar_predictions`, without the first `next` of them: it returns how many it wrote, and sets `next` to where the same call goes on.
#[unsafe(no_mangle)]
pub extern "C" fn cedar_predictions_from(
    handle: &mut Reading,
    text: &[u8],
    next: &mut usize,
    matches: &mut [Match],
) -> usize
    ensures count { result ≡ length (take (length matches.old) (drop next.old (predict (shown_tree handle.old) text.now))) }
    ensures filled { matches.new ≡ filled_matches matches.old (drop next.old (predicted_keys (shown_tree handle.old) text.now)) }
    ensures next { next.new ≡ next.old + result }
    ensures kept { handle.new ≡ handle.old }
{
    if !handle.is_open() {
        return 0;
    }
    predictions_from(handle.shown.see().dictionary(), text, next, matches)
}

/// As `cedar_predictions`, but it returns how many keys it wrote, and goes no further than these.
#[unsafe(no_mangle)]
pub extern "C" fn cedar_first_predictions(
    handle: &mut Reading,
    text: &[u8],
    matches: &mut [Match],
) -> usize
    //= The first predictions are written as all are, and how many were written is returned. [with filled]
    ensures count { result ≡ length (take (length matches.old) (predict (shown_tree handle.old) text.now)) }
    ensures filled { matches.new ≡ filled_matches matches.old (predicted_keys (shown_tree handle.old) text.now) }
    ensures kept { handle.new ≡ handle.old }
{
    if !handle.is_open() {
        return 0;
    }
    first_predictions(handle.shown.see().dictionary(), text, matches)
}
