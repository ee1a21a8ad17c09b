//! Leftmost matches of a text: keys that don't overlap, of those that begin first the longest.

ghost use Rattle.std.specs.Prelude.{◌*◌, ◌+◌, ◌-◌, ◌≡◌, ◌≤◌, ◌≢◌, drop, length, ⊤};
ghost use Rattle.cedar_scan.specs.Words.{CantGoOn, ScansOn, ScansOnOrEnds, IsBlankOf};
ghost use Rattle.cedar_scan.specs.Words.{IsKeywordAutomaton, IsKeywordCursor, item_count};
ghost use Rattle.cedar_scan.specs.Words.{keyword_code, KeywordsLeft, slot_of_path};
ghost use Rattle.cedar_scan.specs.Words.{keywords_from, keywords_in, keywords_left, tests_left};
ghost use Rattle.cedar_scan.specs.Words.{YieldsFirst};

use crate::falls::{Fall, Popped};
use crate::placed::Placed;
use crate::state::State;
use crate::step::child_of;
use cedar_slots::Ticks;
use std::alloc::AllocError;
use std::iter::FusedIterator;
use std::marker::{Brand, Model};
use std::sync::ledger::{Blank, Ledger};

/// Where a search for leftmost matches is.
#[derive(Clone, Copy)]
pub(crate) struct KeywordCursor {
    /// How many bytes of the text it has read.
    pub(crate) place: usize,
    /// The slot of the node whose path the last of these are.
    pub(crate) slot: usize,
    /// Where the path began that couldn't go on last, and which of its keys are still to be given.
    pub(crate) base: usize,
    pub(crate) next: usize,
    pub(crate) last: usize,
}

/// Leaves a node that can't go on: for what is left of its path once its keys are given.
fn fall<T: Placed>(
    trie: &T,
    states: &[State],
    falls: &[Fall],
    popped: &[Popped],
    text: &[u8],
    cursor: &mut KeywordCursor,
)
    requires automaton { IsKeywordAutomaton (T.tree trie.now) (slot_of_path states.now) states.now falls.now popped.now }
    requires cursor { IsKeywordCursor (T.tree trie.now) (slot_of_path states.now) states.now popped.now text.now cursor.old }
    requires none { cursor.old.next ≡ cursor.old.last }
    requires other { cursor.old.slot ≢ 0 }
    requires stops { CantGoOn states.now text.now cursor.old }
    ensures { ScansOn (T.tree trie.now) (slot_of_path states.now) states.now popped.now text.now cursor.old cursor.new 0 0 }
{
    let fall = falls[cursor.slot];
    cursor.base = cursor.place - fall.depth as usize;
    cursor.next = fall.first as usize;
    cursor.last = fall.last as usize;
    cursor.slot = fall.to as usize;
}

/// Leaves the node at the end of the text, unless it is the root: then nothing is left.
fn leave_last<T: Placed>(
    trie: &T,
    states: &[State],
    falls: &[Fall],
    popped: &[Popped],
    text: &[u8],
    cursor: &mut KeywordCursor,
) -> bool
    requires automaton { IsKeywordAutomaton (T.tree trie.now) (slot_of_path states.now) states.now falls.now popped.now }
    requires cursor { IsKeywordCursor (T.tree trie.now) (slot_of_path states.now) states.now popped.now text.now cursor.old }
    requires none { cursor.old.next ≡ cursor.old.last }
    requires end { cursor.old.place ≡ length text.now }
    ensures { ScansOnOrEnds (T.tree trie.now) (slot_of_path states.now) states.now popped.now text.now cursor.old result cursor.new 0 0 }
{
    if cursor.slot == 0 {
        return false;
    }
    fall(trie, states, falls, popped, text, cursor);
    true
}

/// Goes on by one byte, or by a fall, where no key is to be given. Returns whether anything was left.
fn go_on<T: Placed, C: Ledger>(
    trie: &T,
    states: &[State],
    falls: &[Fall],
    popped: &[Popped],
    text: &[u8],
    cursor: &mut KeywordCursor,
    ticks: &mut Ticks<C>,
) -> bool
    requires automaton { IsKeywordAutomaton (T.tree trie.now) (slot_of_path states.now) states.now falls.now popped.now }
    requires cursor { IsKeywordCursor (T.tree trie.now) (slot_of_path states.now) states.now popped.now text.now cursor.old }
    requires none { cursor.old.next ≡ cursor.old.last }
    ensures { ScansOnOrEnds (T.tree trie.now) (slot_of_path states.now) states.now popped.now text.now cursor.old result cursor.new ticks.old ticks.new }
{
    if cursor.place == text.len() {
        return leave_last(trie, states, falls, popped, text, cursor);
    }
    ticks.tick();
    if let Some(child) = child_of(states, cursor.slot, text[cursor.place]) {
        cursor.slot = child;
        cursor.place += 1;
        return true;
    }
    if cursor.slot == 0 {
        cursor.place += 1;
        return true;
    }
    fall(trie, states, falls, popped, text, cursor);
    true
}

/// Gives the next match, or that none is left.
fn next_keyword<T: Placed, C: Ledger>(
    trie: &T,
    states: &[State],
    falls: &[Fall],
    popped: &[Popped],
    text: &[u8],
    cursor: &mut KeywordCursor,
    ticks: &mut Ticks<C>,
) -> Option<(usize, usize, i32)>
    requires automaton { IsKeywordAutomaton (T.tree trie.now) (slot_of_path states.now) states.now falls.now popped.now }
    requires cursor { IsKeywordCursor (T.tree trie.now) (slot_of_path states.now) states.now popped.now text.now cursor.old }
    ensures gives { YieldsFirst (keywords_left (T.tree trie.now) states.now popped.now text.now) cursor.old result cursor.new }
    ensures cursor { IsKeywordCursor (T.tree trie.now) (slot_of_path states.now) states.now popped.now text.now cursor.new }
    ensures cost { ticks.new + tests_left (T.tree trie.now) states.now text.now cursor.new ≤ ticks.old + tests_left (T.tree trie.now) states.now text.now cursor.old }
{
    while cursor.next == cursor.last {
        let told = go_on(trie, states, falls, popped, text, cursor, ticks);
        if !told {
            return None;
        }
    }
    let key = popped[cursor.next];
    cursor.next += 1;
    let start = cursor.base + key.before as usize;
    Some((start, key.len as usize, key.value))
}

/// Leftmost matches of a text in their order: for each where it begins, how many bytes it has, and its value. It allocates nothing, and a
/// clone goes on from the same position.
///
/// A contract sees the matches that are left, and how many steps they take at most.
#[derive(Drop)]
pub struct Leftmost<'a, T: Placed> {
    trie: &'a T,
    states: &'a [State],
    falls: &'a [Fall],
    popped: &'a [Popped],
    text: &'a [u8],
    cursor: KeywordCursor,
}

impl<'a, T: Placed> Model for Leftmost<'a, T> {
    ghost Value = { KeywordsLeft };

    ghost coded = { keyword_code };

    ghost view = { λ it. record {
      rest = keywords_left (T.tree it.trie.now) it.states.now it.popped.now it.text.now it.cursor;
      steps = tests_left (T.tree it.trie.now) it.states.now it.text.now it.cursor;
    } };

    ghost invariant = { λ it. IsKeywordAutomaton (T.tree it.trie.now) (slot_of_path it.states.now) it.states.now it.falls.now it.popped.now
        × IsKeywordCursor (T.tree it.trie.now) (slot_of_path it.states.now) it.states.now it.popped.now it.text.now it.cursor };
}

impl<'a, T: Placed> Leftmost<'a, T> {
    // Before the first byte of the text.
    pub(crate) fn new(
        trie: &'a T,
        states: &'a [State],
        falls: &'a [Fall],
        popped: &'a [Popped],
        text: &'a [u8],
    ) -> Self
        requires { IsKeywordAutomaton (T.tree trie.now) (slot_of_path states.now) states.now falls.now popped.now }
        ensures rest { result.rest ≡ keywords_in (T.tree trie.now) text.now }
        ensures steps { result.steps ≡ 2 * length text.now }
    {
        Leftmost {
            trie,
            states,
            falls,
            popped,
            text,
            cursor: KeywordCursor {
                place: 0,
                slot: 0,
                base: 0,
                next: 0,
                last: 0,
            },
        }
    }

    // Before the byte at a position of the text.
    pub(crate) fn behind(
        trie: &'a T,
        states: &'a [State],
        falls: &'a [Fall],
        popped: &'a [Popped],
        text: &'a [u8],
        place: usize,
    ) -> Self
        requires { IsKeywordAutomaton (T.tree trie.now) (slot_of_path states.now) states.now falls.now popped.now }
        ensures rest { result.rest ≡ keywords_from (T.tree trie.now) place (drop place text.now) }
        ensures steps { result.steps ≡ 2 * (length text.now - place) }
    {
        Leftmost {
            trie,
            states,
            falls,
            popped,
            text,
            cursor: KeywordCursor {
                place: place.min(text.len()),
                slot: 0,
                base: 0,
                next: 0,
                last: 0,
            },
        }
    }

    /// The next match. It counts each test of a child: at most two for each byte of the text, whatever the keys and the text are.
    ///
    /// ```
    /// let mut found = longest.leftmost(b"she");
    /// assert_eq!(rt; found.next_counted(&mut ticks), Some((0, 3, 2)));
    /// ```
    pub fn next_counted<C: Ledger>(&mut self, ticks: &mut Ticks<C>) -> Option<(usize, usize, i32)>
        //= A counted step of leftmost matches gives the next one. [also uncounted_keyword]
        ensures gives { YieldsFirst (λ (walk : KeywordsLeft). walk.rest) self.old result self.new }

        //= It takes at most the steps that were to come less those that are then: a match itself takes none.
        ensures cost { ticks.new + self.new.steps ≤ ticks.old + self.old.steps }
    {
        next_keyword(
            self.trie,
            self.states,
            self.falls,
            self.popped,
            self.text,
            &mut self.cursor,
            ticks,
        )
    }
}

impl<'a, T: Placed> Clone for Leftmost<'a, T> {
    //= Leftmost matches that have ended stay ended, and a clone goes on from the same position. [with is_infallible; by FusedIterator]
    ghost is_clone = { λ it copy. copy ≡ it };

    ghost is_infallible = { λ _. ⊤ };

    fn clone(&self) -> Result<Self, AllocError> {
        Ok(Leftmost {
            trie: self.trie,
            states: self.states,
            falls: self.falls,
            popped: self.popped,
            text: self.text,
            cursor: self.cursor,
        })
    }
}

impl<'a, T: Placed> Iterator for Leftmost<'a, T> {
    type Item = (usize, usize, i32);

    ghost next_gives = { YieldsFirst (λ (walk : KeywordsLeft). walk.rest) };

    ghost remaining = { item_count (λ (walk : KeywordsLeft). walk.rest) };

    fn next(&mut self) -> Option<(usize, usize, i32)> {
        uncounted_keyword::<Brand, T>(self, Blank::new(1))
    }
}

impl<'a, T: Placed> FusedIterator for Leftmost<'a, T> {}

/// Takes a step with a count of its own, which nothing reads.
fn uncounted_keyword<C: Ledger, T: Placed>(
    walk: &mut Leftmost<'_, T>,
    blank: Blank,
) -> Option<(usize, usize, i32)>
    requires { IsBlankOf C.name C.parts blank }
    ensures { YieldsFirst (λ (walk : KeywordsLeft). walk.rest) walk.old result walk.new }
{
    walk.next_counted(&mut Ticks::<C>::new(blank))
}
