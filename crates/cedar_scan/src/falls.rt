//! What is given where a path can't go on, of the longest keys that begin first.

ghost use Rattle.std.specs.Prelude.{◌≡◌, ◌≤◌, IfOk, length, map, None};
ghost use Rattle.cedar_scan.specs.Words.{AddsFall, AddsPopped, AreByDepth, AreFalls, AreNodes};
ghost use Rattle.cedar_scan.specs.Words.{CanFall, FallsTo, IsGoto, IsKeywordAutomaton, IsPlacing};
ghost use Rattle.cedar_scan.specs.Words.{placed_by, popped_at, pops_of, slot_of_path};

use crate::build::{place_nodes, slots_of};
use crate::placed::Placed;
use crate::places::nodes_anew;
use crate::state::{BLANK, PlacedNode, State};
use crate::step::child_of;
use std::alloc::{AllocError, Allocator};

/// Where a scan goes on from a node that has no child under the next byte, and which keys it gives then.
#[derive(Clone, Copy)]
pub(crate) struct Fall {
    /// The slot of what is left of the node's path.
    pub(crate) to: u32,
    /// The keys that it gives, as the indices of the first and of the one behind the last.
    pub(crate) first: u32,
    pub(crate) last: u32,
    /// How many bytes the node's path has.
    pub(crate) depth: u32,
}

/// A fall to the root that gives nothing.
const NO_FALL: Fall = Fall {
    to: 0,
    first: 0,
    last: 0,
    depth: 0,
};

/// A key that is given by a fall.
#[derive(Clone, Copy)]
pub(crate) struct Popped {
    /// Where it begins in the node's path.
    pub(crate) before: u32,
    /// How many bytes it has, and its value.
    pub(crate) len: u32,
    pub(crate) value: i32,
}

/// Gives the keys of a fall once more, so many bytes later.
fn copy_popped<A: Allocator>(
    popped: &mut Vec<Popped, A>,
    fall: Fall,
    shift: u32,
) -> Result<(), AllocError>
    requires range { fall.first ≤ fall.last }
    requires inside { fall.last ≤ length popped.old.items }
    ensures { IfOk result (λ _. AddsPopped popped.old.items (map (popped_at shift) (pops_of fall popped.old.items)) popped.new.items) }
{
    for index in fall.first..fall.last {
        let key = popped[index as usize];
        let Some(before) = key.before.checked_add(shift) else {
            return Err(AllocError);
        };
        popped.push(Popped {
            before,
            len: key.len,
            value: key.value,
        })?;
    }
    Ok(())
}

/// Gives the keys of a node's front, and of what is left of that, until what is left has a child under the node's label. Returns the slot of
/// that child, or 0.
fn fall_on<T: Placed, A: Allocator>(
    trie: &T,
    places: &[u32],
    states: &[State],
    falls: &[Fall],
    popped: &mut Vec<Popped, A>,
    node: PlacedNode,
) -> Result<usize, AllocError>
    requires can { CanFall (T.tree trie.now) (placed_by places.now (T.slot_of trie.now)) states.now falls.now popped.old.items node }
    requires none { node.number ≡ None }
    ensures { IfOk result (λ to. FallsTo (T.tree trie.now) (placed_by places.now (T.slot_of trie.now)) node popped.old.items to popped.new.items) }
{
    if node.parent == 0 {
        return Ok(0);
    }
    let front = node.depth - 1;
    let mut slot = node.parent as usize;
    loop {
        let fall = falls[slot];
        copy_popped(popped, fall, front - fall.depth)?;
        slot = fall.to as usize;
        if let Some(child) = child_of(states, slot, node.label) {
            return Ok(child);
        }
        if slot == 0 {
            return Ok(0);
        }
    }
}

/// Gives the keys of a node, and returns the slot of what is left of its path: a key gives itself, and nothing is left.
fn fall_of<T: Placed, A: Allocator>(
    trie: &T,
    places: &[u32],
    states: &[State],
    falls: &[Fall],
    popped: &mut Vec<Popped, A>,
    node: PlacedNode,
) -> Result<usize, AllocError>
    requires { CanFall (T.tree trie.now) (placed_by places.now (T.slot_of trie.now)) states.now falls.now popped.old.items node }
    ensures { IfOk result (λ to. FallsTo (T.tree trie.now) (placed_by places.now (T.slot_of trie.now)) node popped.old.items to popped.new.items) }
{
    let Some(value) = node.number else {
        return fall_on(trie, places, states, falls, popped, node);
    };
    popped.push(Popped {
        before: 0,
        len: node.depth,
        value,
    })?;
    Ok(0)
}

/// Writes where a scan goes on from a node, and which keys it gives then.
fn add_fall<T: Placed, A: Allocator>(
    trie: &T,
    places: &[u32],
    states: &[State],
    falls: &mut [Fall],
    popped: &mut Vec<Popped, A>,
    node: PlacedNode,
) -> Result<(), AllocError>
    requires { CanFall (T.tree trie.now) (placed_by places.now (T.slot_of trie.now)) states.now falls.old popped.old.items node }
    ensures { IfOk result (λ _. AddsFall (T.tree trie.now) (placed_by places.now (T.slot_of trie.now)) node falls.old popped.old.items falls.new popped.new.items) }
{
    let Ok(first) = u32::try_from(popped.len()) else {
        return Err(AllocError);
    };
    let to = fall_of(trie, places, states, falls, popped, node)?;
    let Ok(last) = u32::try_from(popped.len()) else {
        return Err(AllocError);
    };
    falls[node.slot as usize] = Fall {
        to: to as u32,
        first,
        last,
        depth: node.depth,
    };
    Ok(())
}

/// Writes that of each node: the nodes with shorter paths have theirs by then.
fn add_falls<T: Placed, A: Allocator>(
    trie: &T,
    places: &[u32],
    nodes: &[PlacedNode],
    states: &[State],
    falls: &mut [Fall],
    popped: &mut Vec<Popped, A>,
) -> Result<(), AllocError>
    requires placed { IsPlacing (T.tree trie.now) (placed_by places.now (T.slot_of trie.now)) }
    requires nodes { AreNodes (T.tree trie.now) (placed_by places.now (T.slot_of trie.now)) nodes.now }
    requires sorted { AreByDepth nodes.now }
    requires goto { IsGoto (T.tree trie.now) (placed_by places.now (T.slot_of trie.now)) states.now }
    requires size { length falls.old ≡ length states.now }
    ensures { IfOk result (λ _. AreFalls (T.tree trie.now) (placed_by places.now (T.slot_of trie.now)) falls.new popped.new.items) }
{
    for node in nodes {
        add_fall(trie, places, states, falls, popped, *node)?;
    }
    Ok(())
}

/// What an automaton for keywords has, by slot, and the keys that are given.
#[derive(Drop)]
pub(crate) struct KeywordParts<A: Allocator> {
    pub(crate) states: Vec<State, A>,
    pub(crate) falls: Vec<Fall, A>,
    pub(crate) popped: Vec<Popped, A>,
}

/// Makes the automaton of a dictionary for keywords. It allocates its parts, and until it returns lists of the nodes and of their slots, and
/// what sorts of the nodes need.
pub(crate) fn build_parts<T: Placed, A: Allocator + Copy>(
    trie: &T,
    alloc: A,
) -> Result<KeywordParts<A>, AllocError>
    ensures { IfOk result (λ made. IsKeywordAutomaton (T.tree trie.now) (slot_of_path made.states.items) made.states.items made.falls.items made.popped.items) }
{
    let placed = nodes_anew(trie, alloc)?;
    let slots = slots_of(&placed.nodes);
    let mut states = vec![in alloc; BLANK; slots]?;
    place_nodes(trie, &placed.places, &placed.nodes, &mut states);
    let mut falls = vec![in alloc; NO_FALL; slots]?;
    let mut popped = Vec::new(alloc);
    add_falls(
        trie,
        &placed.places,
        &placed.nodes,
        &states,
        &mut falls,
        &mut popped,
    )?;
    Ok(KeywordParts {
        states,
        falls,
        popped,
    })
}
