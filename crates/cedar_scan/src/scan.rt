//! A scan over a piece of a text, key after key.

ghost use Rattle.std.specs.Prelude.{◌+◌, ◌<◌, ◌≡◌, ◌≢◌, length, List, ℕ};
ghost use Rattle.cedar_scan.specs.Words.{CostsNext, CostsStep, GivesNextFound, GivesPending};
ghost use Rattle.cedar_scan.specs.Words.{GoesOnByByte, IsAutomaton, IsCursor, slot_of_path};

use crate::placed::Placed;
use crate::state::{ListedKey, State};
use crate::step::step;
use cedar_slots::Ticks;
use std::sync::ledger::Ledger;

/// Where a scan over a piece of a text is.
#[derive(Clone, Copy)]
pub(crate) struct Cursor {
    /// How many bytes of the piece it has read.
    pub(crate) place: usize,
    /// The slot of the longest suffix of the text so far that leads to a node.
    pub(crate) state: usize,
    /// The index of the longest key that ends here and is still to be given, or 0.
    pub(crate) pending: usize,
}

/// A key that was found to end where a scan is.
#[derive(Clone, Copy)]
pub(crate) struct FoundKey {
    /// How many bytes it has.
    pub(crate) len: usize,
    /// Its value.
    pub(crate) value: i32,
}

/// Reads one byte more.
pub(crate) fn read_byte<T: Placed, C: Ledger>(
    trie: &T,
    states: &[State],
    keys: &[ListedKey],
    piece: &[u8],
    cursor: &mut Cursor,
    ticks: &mut Ticks<C>,
)
    requires automaton { IsAutomaton (T.tree trie.now) (slot_of_path states.now) states.now keys.now }
    requires cursor { (before : List ℕ) × IsCursor (T.tree trie.now) (slot_of_path states.now) keys.now before piece.now cursor.old }
    requires inside { cursor.old.place < length piece.now }
    requires none { cursor.old.pending ≡ 0 }
    ensures goes { GoesOnByByte (T.tree trie.now) (slot_of_path states.now) keys.now piece.now cursor.old cursor.new }
    ensures cost { CostsStep (T.tree trie.now) states.now cursor.old cursor.new ticks.old ticks.new }
{
    cursor.state = step(trie, states, cursor.state, piece[cursor.place], ticks);
    cursor.place += 1;
    cursor.pending = states[cursor.state].output as usize;
}

/// Gives the key that is pending. The link to the next one is a tick.
pub(crate) fn take_found<T: Placed, C: Ledger>(
    trie: &T,
    states: &[State],
    keys: &[ListedKey],
    piece: &[u8],
    cursor: &mut Cursor,
    ticks: &mut Ticks<C>,
) -> FoundKey
    requires automaton { IsAutomaton (T.tree trie.now) (slot_of_path states.now) states.now keys.now }
    requires cursor { (before : List ℕ) × IsCursor (T.tree trie.now) (slot_of_path states.now) keys.now before piece.now cursor.old }
    requires some { cursor.old.pending ≢ 0 }
    ensures gives { GivesPending (T.tree trie.now) (slot_of_path states.now) keys.now piece.now cursor.old result cursor.new }
    ensures place { cursor.new.place ≡ cursor.old.place }
    ensures state { cursor.new.state ≡ cursor.old.state }
    ensures cost { ticks.new ≡ ticks.old + 1 }
{
    let found = keys[cursor.pending];
    ticks.tick();
    cursor.pending = found.next as usize;
    FoundKey {
        len: found.len as usize,
        value: found.value,
    }
}

/// Gives the next key that ends in the piece, or that none is left.
pub(crate) fn next_found<T: Placed, C: Ledger>(
    trie: &T,
    states: &[State],
    keys: &[ListedKey],
    piece: &[u8],
    cursor: &mut Cursor,
    ticks: &mut Ticks<C>,
) -> Option<FoundKey>
    requires automaton { IsAutomaton (T.tree trie.now) (slot_of_path states.now) states.now keys.now }
    requires cursor { (before : List ℕ) × IsCursor (T.tree trie.now) (slot_of_path states.now) keys.now before piece.now cursor.old }
    ensures gives { GivesNextFound (T.tree trie.now) (slot_of_path states.now) keys.now piece.now cursor.old result cursor.new }
    ensures cost { CostsNext (T.tree trie.now) states.now piece.now cursor.old result cursor.new ticks.old ticks.new }
{
    while cursor.pending == 0 {
        if cursor.place == piece.len() {
            return None;
        }
        read_byte(trie, states, keys, piece, cursor, ticks);
    }
    Some(take_found(trie, states, keys, piece, cursor, ticks))
}
