//! All keys in a text, by their ends.

ghost use Rattle.std.specs.Prelude.{◌*◌, ◌+◌, ◌-◌, ◌≡◌, ◌≤◌, [], if◌then◌else◌, is_some};
ghost use Rattle.std.specs.Prelude.{length, take, ⊤};
ghost use Rattle.cedar_scan.specs.Words.{all_left, ending_behind, held_suffix, IsAutomaton};
ghost use Rattle.cedar_scan.specs.Words.{IsBlankOf, IsCursor, item_count, overlapping, scan_code};
ghost use Rattle.cedar_scan.specs.Words.{slot_of_path, ScanLeft, steps_left, YieldsFirst};

use crate::placed::Placed;
use crate::scan::{Cursor, next_found};
use crate::state::{ListedKey, State};
use cedar_slots::Ticks;
use std::alloc::AllocError;
use std::iter::FusedIterator;
use std::marker::{Brand, Model};
use std::sync::ledger::{Blank, Ledger};

/// All keys in a text, by their ends: for each where it begins, how many bytes it has, and its value. At each end the longest comes first.
/// It allocates nothing, and a clone goes on from the same position.
///
/// A contract sees the items that are left, and how many steps they take at most, beside one for each item.
#[derive(Drop)]
pub struct Overlapping<'a, T: Placed> {
    trie: &'a T,
    states: &'a [State],
    keys: &'a [ListedKey],
    text: &'a [u8],
    cursor: Cursor,
}

impl<'a, T: Placed> Model for Overlapping<'a, T> {
    ghost Value = { ScanLeft };

    ghost coded = { scan_code };

    ghost view = { λ it. record {
      rest = all_left (T.tree it.trie.now) it.keys.now [] 0 it.text.now it.cursor;
      steps = steps_left (T.tree it.trie.now) it.states.now it.text.now it.cursor;
    } };

    ghost invariant = { λ it. IsAutomaton (T.tree it.trie.now) (slot_of_path it.states.now) it.states.now it.keys.now
        × IsCursor (T.tree it.trie.now) (slot_of_path it.states.now) it.keys.now [] it.text.now it.cursor };
}

impl<'a, T: Placed> Overlapping<'a, T> {
    // Before the first byte of the text.
    pub(crate) fn new(
        trie: &'a T,
        states: &'a [State],
        keys: &'a [ListedKey],
        text: &'a [u8],
    ) -> Self
        requires { IsAutomaton (T.tree trie.now) (slot_of_path states.now) states.now keys.now }
        ensures rest { result.rest ≡ overlapping (T.tree trie.now) text.now }
        ensures steps { result.steps ≡ 2 * length text.now }
    {
        Overlapping {
            trie,
            states,
            keys,
            text,
            cursor: Cursor {
                place: 0,
                state: 0,
                pending: 0,
            },
        }
    }

    // Behind so many bytes of the text. The longest suffix of these that leads to a node has this slot.
    pub(crate) fn behind(
        trie: &'a T,
        states: &'a [State],
        keys: &'a [ListedKey],
        text: &'a [u8],
        place: usize,
        state: usize,
    ) -> Self
        requires automaton { IsAutomaton (T.tree trie.now) (slot_of_path states.now) states.now keys.now }
        requires place { place ≤ length text.now }
        requires state { state ≡ slot_of_path states.now (held_suffix (T.tree trie.now) (take place text.now)) }
        ensures rest { result.rest ≡ ending_behind (T.tree trie.now) place text.now }
        ensures steps { result.steps ≤ place + 2 * (length text.now - place) }
    {
        Overlapping {
            trie,
            states,
            keys,
            text,
            cursor: Cursor {
                place,
                state,
                pending: 0,
            },
        }
    }

    /// The next item. It counts each test of a child, with the failure link that is followed if there is none, and one step for each item
    /// that is given. So a whole scan counts at most two for each byte of the text, and one for each item.
    ///
    /// ```
    /// let mut found = scanner.overlapping(b"she");
    /// assert_eq!(rt; found.next_counted(&mut ticks), Some((0, 3, 2)));
    /// ```
    pub fn next_counted<C: Ledger>(&mut self, ticks: &mut Ticks<C>) -> Option<(usize, usize, i32)>
        //= A counted step of overlapping matches gives the next item. [also uncounted_next]
        ensures gives { YieldsFirst (λ (walk : ScanLeft). walk.rest) self.old result self.new }

        //= It takes at most the steps that were to come less those that are then, and one for the item.
        ensures cost { ticks.new + self.new.steps ≤ ticks.old + self.old.steps + (if is_some result then 1 else 0) }
    {
        let cursor = &mut self.cursor;
        let Some(found) = next_found(self.trie, self.states, self.keys, self.text, cursor, ticks)
        else {
            return None;
        };
        Some((self.cursor.place - found.len, found.len, found.value))
    }
}

impl<'a, T: Placed> Clone for Overlapping<'a, T> {
    //= Overlapping matches that have ended stay ended, and a clone goes on from the same position. [with is_infallible; by FusedIterator]
    ghost is_clone = { λ it copy. copy ≡ it };

    ghost is_infallible = { λ _. ⊤ };

    fn clone(&self) -> Result<Self, AllocError> {
        Ok(Overlapping {
            trie: self.trie,
            states: self.states,
            keys: self.keys,
            text: self.text,
            cursor: self.cursor,
        })
    }
}

impl<'a, T: Placed> Iterator for Overlapping<'a, T> {
    type Item = (usize, usize, i32);

    ghost next_gives = { YieldsFirst (λ (walk : ScanLeft). walk.rest) };

    ghost remaining = { item_count (λ (walk : ScanLeft). walk.rest) };

    fn next(&mut self) -> Option<(usize, usize, i32)> {
        uncounted_next::<Brand, T>(self, Blank::new(1))
    }
}

impl<'a, T: Placed> FusedIterator for Overlapping<'a, T> {}

/// Takes a step with a count of its own, which nothing reads.
fn uncounted_next<C: Ledger, T: Placed>(
    walk: &mut Overlapping<'_, T>,
    blank: Blank,
) -> Option<(usize, usize, i32)>
    requires { IsBlankOf C.name C.parts blank }
    ensures { YieldsFirst (λ (walk : ScanLeft). walk.rest) walk.old result walk.new }
{
    walk.next_counted(&mut Ticks::<C>::new(blank))
}
