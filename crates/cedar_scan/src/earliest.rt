//! Keys in a text that don't overlap, by their ends.

ghost use Rattle.std.specs.Prelude.{◌*◌, ◌+◌, ◌-◌, ◌<◌, ◌^◌, ◌≡◌, ◌≤◌, if◌then◌else◌, [], is_some};
ghost use Rattle.std.specs.Prelude.{length, ℕ, ⊤};
ghost use Rattle.cedar_scan.specs.Words.{CostsFirst, earliest, earliest_behind, earliest_from};
ghost use Rattle.cedar_scan.specs.Words.{GivesEarliest, IsAutomaton, IsBlankOf, item_count};
ghost use Rattle.cedar_scan.specs.Words.{slot_of_path, scan_code, ScanLeft};
ghost use Rattle.cedar_scan.specs.Words.{YieldsFirst};

use crate::placed::Placed;
use crate::scan::{Cursor, FoundKey, read_byte, take_found};
use crate::state::{ListedKey, State};
use cedar_slots::Ticks;
use std::alloc::AllocError;
use std::iter::FusedIterator;
use std::marker::{Brand, Model};
use std::sync::ledger::{Blank, Ledger};

/// Keys in a text that don't overlap, by their ends: for each where it begins, how many bytes it has, and its value. It allocates nothing,
/// and a clone goes on from the same position.
///
/// A contract sees the items that are left, and how many steps they take at most, beside one for each item.
#[derive(Drop)]
pub struct Earliest<'a, T: Placed> {
    trie: &'a T,
    states: &'a [State],
    keys: &'a [ListedKey],
    // What is left of the text behind the last key, and where that begins.
    text: &'a [u8],
    offset: usize,
}

impl<'a, T: Placed> Model for Earliest<'a, T> {
    ghost Value = { ScanLeft };

    ghost coded = { scan_code };

    ghost view = { λ it. record {
      rest = earliest_from (T.tree it.trie.now) [] it.offset it.text.now;
      steps = 2 * length it.text.now;
    } };

    ghost invariant = { λ it. IsAutomaton (T.tree it.trie.now) (slot_of_path it.states.now) it.states.now it.keys.now × (it.offset + length it.text.now < 2 ^ 64) };
}

/// Finds the key that ends first in a text, and where it ends.
fn first_end<T: Placed, C: Ledger>(
    trie: &T,
    states: &[State],
    keys: &[ListedKey],
    text: &[u8],
    ticks: &mut Ticks<C>,
) -> Option<(FoundKey, usize)>
    requires { IsAutomaton (T.tree trie.now) (slot_of_path states.now) states.now keys.now }
    ensures gives { (offset : ℕ) → GivesEarliest (T.tree trie.now) offset text.now result }
    ensures cost { CostsFirst text.now result ticks.old ticks.new }
{
    let mut cursor = Cursor {
        place: 0,
        state: 0,
        pending: 0,
    };
    while cursor.place < text.len() {
        read_byte(trie, states, keys, text, &mut cursor, ticks);
        if cursor.pending != 0 {
            let found = take_found(trie, states, keys, text, &mut cursor, ticks);
            return Some((found, cursor.place));
        }
    }
    None
}

impl<'a, T: Placed> Earliest<'a, T> {
    // Before the first byte of the text.
    pub(crate) fn new(
        trie: &'a T,
        states: &'a [State],
        keys: &'a [ListedKey],
        text: &'a [u8],
    ) -> Self
        requires { IsAutomaton (T.tree trie.now) (slot_of_path states.now) states.now keys.now }
        ensures rest { result.rest ≡ earliest (T.tree trie.now) text.now }
        ensures steps { result.steps ≡ 2 * length text.now }
    {
        Earliest {
            trie,
            states,
            keys,
            text,
            offset: 0,
        }
    }

    // Before the byte at a position of the text.
    pub(crate) fn behind(
        trie: &'a T,
        states: &'a [State],
        keys: &'a [ListedKey],
        text: &'a [u8],
        place: usize,
    ) -> Self
        requires { IsAutomaton (T.tree trie.now) (slot_of_path states.now) states.now keys.now }
        ensures rest { result.rest ≡ earliest_behind (T.tree trie.now) place text.now }
        ensures steps { result.steps ≡ 2 * (length text.now - place) }
    {
        let offset = place.min(text.len());
        Earliest {
            trie,
            states,
            keys,
            text: &text[offset..],
            offset,
        }
    }

    /// The next item. It counts its steps as [`Overlapping::next_counted`](crate::Overlapping::next_counted) does: so a whole scan counts at
    /// most two for each byte of the text, and one for each item.
    ///
    /// ```
    /// let mut found = scanner.earliest(b"she");
    /// assert_eq!(rt; found.next_counted(&mut ticks), Some((0, 3, 2)));
    /// ```
    pub fn next_counted<C: Ledger>(&mut self, ticks: &mut Ticks<C>) -> Option<(usize, usize, i32)>
        //= A counted step of earliest matches gives the next item. [also uncounted_first]
        ensures gives { YieldsFirst (λ (walk : ScanLeft). walk.rest) self.old result self.new }

        //= It takes at most the steps that were to come less those that are then, and one for the item.
        ensures cost { ticks.new + self.new.steps ≤ ticks.old + self.old.steps + (if is_some result then 1 else 0) }
    {
        let Some((found, end)) = first_end(self.trie, self.states, self.keys, self.text, ticks)
        else {
            // Nothing is left.
            self.text = &self.text[..0];
            return None;
        };
        let place = self.offset + end;
        self.text = &self.text[end..];
        self.offset = place;
        Some((place - found.len, found.len, found.value))
    }
}

impl<'a, T: Placed> Clone for Earliest<'a, T> {
    //= Earliest matches that have ended stay ended, and a clone goes on from the same position. [with is_infallible; by FusedIterator]
    ghost is_clone = { λ it copy. copy ≡ it };

    ghost is_infallible = { λ _. ⊤ };

    fn clone(&self) -> Result<Self, AllocError> {
        Ok(Earliest {
            trie: self.trie,
            states: self.states,
            keys: self.keys,
            text: self.text,
            offset: self.offset,
        })
    }
}

impl<'a, T: Placed> Iterator for Earliest<'a, T> {
    type Item = (usize, usize, i32);

    ghost next_gives = { YieldsFirst (λ (walk : ScanLeft). walk.rest) };

    ghost remaining = { item_count (λ (walk : ScanLeft). walk.rest) };

    fn next(&mut self) -> Option<(usize, usize, i32)> {
        uncounted_first::<Brand, T>(self, Blank::new(1))
    }
}

impl<'a, T: Placed> FusedIterator for Earliest<'a, T> {}

/// Takes a step with a count of its own, which nothing reads.
fn uncounted_first<C: Ledger, T: Placed>(
    walk: &mut Earliest<'_, T>,
    blank: Blank,
) -> Option<(usize, usize, i32)>
    requires { IsBlankOf C.name C.parts blank }
    ensures { YieldsFirst (λ (walk : ScanLeft). walk.rest) walk.old result walk.new }
{
    walk.next_counted(&mut Ticks::<C>::new(blank))
}
