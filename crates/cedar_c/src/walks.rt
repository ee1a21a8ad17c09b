//! Walks of a dictionary, written into a buffer of the caller's.

ghost use Rattle.std.specs.Prelude.{◌+◌, ◌<◌, ◌^◌, ◌∷◌, ◌≡◌, [], length, List, MatchOption, ℕ, ℤ};
ghost use Rattle.cedar_c.specs.Words.{all_longer, filled_from, filled_matches, Fit, front};
ghost use Rattle.cedar_c.specs.Words.{front_keys, inner_dictionary, longer, predict};
ghost use Rattle.cedar_c.specs.Words.{predicted_keys, shown_tree};

use crate::reading::Reading;
use cedarwood::{Layout, PrefixIter, PrefixPredictIter, Trie, Walked};
use either_layout::{AnyCedar, on_layout};
use std::alloc::Global;

/// A key that a walk found: its value, and how many bytes it has.
#[repr(C)]
#[derive(Clone, Copy)]
pub struct Match {
    pub value: i32,
    pub length: usize,
}

/// What finds keys, one after another.
pub(crate) trait Finds {
    /// Those that are still to come.
    ghost left: { Self → List (ℤ × ℕ) };

    /// The next one.
    fn next_found(&mut self) -> Option<(i32, usize)>
        ensures { MatchOption result (left self.old ≡ []) (λ found. left self.old ≡ found ∷ left self.new) };
}

impl<'a, T: Walked> Finds for PrefixIter<'a, T> {
    ghost left = { λ walk. walk.rest };

    #[inline(always)]
    fn next_found(&mut self) -> Option<(i32, usize)> {
        self.next()
    }
}

impl<'a, T: Walked> Finds for PrefixPredictIter<'a, T> {
    ghost left = { λ rest. rest };

    #[inline(always)]
    fn next_found(&mut self) -> Option<(i32, usize)> {
        self.next()
    }
}

/// Writes what a walk finds into the first elements, as far as there are any, and returns how many it found. Each key has `more` bytes more
/// than the walk gives for it.
fn fill<F: Finds>(walk: &mut F, more: usize, matches: &mut [Match]) -> usize
    requires count { length (F.left walk.old) < 2 ^ 64 }
    requires fit { Fit more (F.left walk.old) }
    ensures count { result ≡ length (F.left walk.old) }
    ensures filled { matches.new ≡ filled_matches matches.old (all_longer more (F.left walk.old)) }
{
    let mut count = 0;
    while let Some(found) = walk.next_found() {
        put_at(matches, count, found, more);
        count += 1;
    }
    count
}

/// Writes what was found, and has `more` bytes than that, at an index, if there is this element.
#[inline(always)]
pub(crate) fn put_at(matches: &mut [Match], place: usize, found: (i32, usize), more: usize)
    requires { found.1 + more < 2 ^ 64 }
    ensures { (rest : List (ℤ × ℕ)) → filled_from (place + 1) matches.new rest ≡ filled_from place matches.old (longer more found ∷ rest) }
{
    if place < matches.len() {
        matches[place] = Match {
            value: found.0,
            length: found.1 + more,
        };
    }
}

/// Writes the keys that a text begins with, and says how many it has.
fn fill_prefixes<L: Layout, const SLOTS: usize>(
    trie: &Trie<L, SLOTS, Global>,
    text: &[u8],
    matches: &mut [Match],
) -> usize
    ensures count { result ≡ length (front trie.now.state.tree text.now) }
    ensures filled { matches.new ≡ filled_matches matches.old (front_keys trie.now.state.tree text.now) }
{
    // A walk gives the index of a key's last byte.
    fill(&mut trie.common_prefix_iter_bytes(text), 1, matches)
}

/// Writes the keys that begin with a text, and says how many there are.
fn fill_predictions<L: Layout, const SLOTS: usize>(
    trie: &Trie<L, SLOTS, Global>,
    text: &[u8],
    matches: &mut [Match],
) -> usize
    ensures count { result ≡ length (predict trie.now.state.tree text.now) }
    ensures filled { matches.new ≡ filled_matches matches.old (predicted_keys trie.now.state.tree text.now) }
{
    // There are no more of them than keys, and no key has more bytes than there are slots.
    let _ = trie.len();
    trie.stands_on_its_table();
    fill(
        &mut trie.common_prefix_predict_iter_bytes(text),
        text.len(),
        matches,
    )
}

/// `fill_prefixes` of a dictionary of either layout.
fn write_prefixes(cedar: &AnyCedar, text: &[u8], matches: &mut [Match]) -> usize
    ensures count { result ≡ length (front (inner_dictionary cedar.now).state.tree text.now) }
    ensures filled { matches.new ≡ filled_matches matches.old (front_keys (inner_dictionary cedar.now).state.tree text.now) }
{
    on_layout!(cedar, cedar => fill_prefixes(cedar, text, matches))
}

/// `fill_predictions` of a dictionary of either layout.
fn write_predictions(cedar: &AnyCedar, text: &[u8], matches: &mut [Match]) -> usize
    ensures count { result ≡ length (predict (inner_dictionary cedar.now).state.tree text.now) }
    ensures filled { matches.new ≡ filled_matches matches.old (predicted_keys (inner_dictionary cedar.now).state.tree text.now) }
{
    on_layout!(cedar, cedar => fill_predictions(cedar, text, matches))
}

/// Writes the keys that a text begins with into the first elements of a buffer, shortest first, as many as there is room for, and returns
/// how many the text has: for each the value and the length. It is one walk.
#[unsafe(no_mangle)]
pub extern "C" fn cedar_prefixes(handle: &mut Reading, text: &[u8], matches: &mut [Match]) -> usize
    //= A walk writes the value and the length of each key that a text begins with, or of each key that begins with it, into the first
    //  elements of a buffer, as far as there are elements, and doesn't change the others. It returns how many there are (`front`,
    //  `predict`). [with filled; also cedar_predictions; by front_keys, predicted_keys]
    ensures count { result ≡ length (front (shown_tree handle.old) text.now) }
    ensures filled { matches.new ≡ filled_matches matches.old (front_keys (shown_tree handle.old) text.now) }
    ensures kept { handle.new ≡ handle.old }
{
    if !handle.is_open() {
        return 0;
    }
    write_prefixes(handle.shown.see().dictionary(), text, matches)
}

/// Writes the keys that begin with a text into the first elements of a buffer, in iteration order, as many as there is room for, and
/// returns how many there are: for each the value, and the length of the whole key. It is one walk.
#[unsafe(no_mangle)]
pub extern "C" fn cedar_predictions(
    handle: &mut Reading,
    text: &[u8],
    matches: &mut [Match],
) -> usize
    ensures count { result ≡ length (predict (shown_tree handle.old) text.now) }
    ensures filled { matches.new ≡ filled_matches matches.old (predicted_keys (shown_tree handle.old) text.now) }
    ensures kept { handle.new ≡ handle.old }
{
    if !handle.is_open() {
        return 0;
    }
    write_predictions(handle.shown.see().dictionary(), text, matches)
}
