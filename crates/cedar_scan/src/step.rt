//! A step of the automaton.

ghost use Rattle.std.specs.Prelude.{◌<◌, ◌≡◌, length};
ghost use Rattle.cedar_scan.specs.Words.{child_in, GoesToSuffix, IsStepFrom, may_have};
ghost use Rattle.cedar_scan.specs.Words.{slot_of_path, StepsWithin};

use crate::placed::Placed;
use crate::state::State;
use cedar_slots::Ticks;
use std::sync::ledger::Ledger;

/// Whether a child of a node may have a label. Most labels are refused by this, and nothing else has to be read for them.
fn may_have(state: &State, label: u8) -> bool
    ensures { result ≡ may_have state.now label }
{
    (state.labels >> (u32::from(label) % 32)) % 2 == 1
}

/// Returns the slot of a node's child under a label.
pub(crate) fn child_of(states: &[State], slot: usize, label: u8) -> Option<usize>
    requires { slot < length states.now }
    ensures { result ≡ child_in states.now slot label }
{
    let state = &states[slot];
    if !may_have(state, label) {
        return None;
    }
    let child = (state.base ^ u32::from(label)) as usize;
    if child < states.len() && states[child].owner as usize == slot {
        Some(child)
    } else {
        None
    }
}

/// Goes on from a node by one byte: to the longest suffix of its path and the byte that leads to a node. Each test of a child is a tick,
/// with the failure link that is followed if there is none.
pub(crate) fn step<T: Placed, C: Ledger>(
    trie: &T,
    states: &[State],
    from: usize,
    label: u8,
    ticks: &mut Ticks<C>,
) -> usize
    requires { IsStepFrom (T.tree trie.now) (slot_of_path states.now) states.now from }
    ensures goes { GoesToSuffix (T.tree trie.now) (slot_of_path states.now) from label result }
    ensures cost { StepsWithin (T.tree trie.now) (slot_of_path states.now) from label ticks.old ticks.new }
{
    let mut slot = from;
    loop {
        ticks.tick();
        if let Some(child) = child_of(states, slot, label) {
            return child;
        }
        if slot == 0 {
            return 0;
        }
        slot = states[slot].failure as usize;
    }
}
