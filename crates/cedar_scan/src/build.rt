//! The automaton of a dictionary, made of the list of its nodes: first each node gets its place, then its links, the shorter paths first.

ghost use Rattle.std.specs.Prelude.{◌<◌, ◌∷◌, ◌^◌, ◌≡◌, ◌≤◌, [], IfOk, length, ℕ};
ghost use Rattle.cedar_scan.specs.Words.{AreByDepth, AreLaid, AreLinkedFirst, AreNodes};
ghost use Rattle.cedar_scan.specs.Words.{AreSlotsWithin, blank, CanLink, CanListKey, FailsTo};
ghost use Rattle.cedar_scan.specs.Words.{GetsLinks, IsAutomaton, IsBlankOf, IsGoto, IsPlacing};
ghost use Rattle.cedar_scan.specs.Words.{ListsKey, no_key, placed_by, slot_of_path, state_at};
ghost use Rattle.cedar_scan.specs.Words.{with_node};

use crate::placed::Placed;
use crate::places::nodes_anew;
use crate::state::{BLANK, ListedKey, NO_KEY, PlacedNode, State};
use crate::step::step;
use cedar_slots::Ticks;
use std::alloc::{AllocError, Allocator};
use std::marker::Brand;
use std::sync::ledger::{Blank, Ledger};

/// Writes where a node is: below the one above it, and in its own slot which one that is.
fn place_node(states: &mut [State], node: PlacedNode)
    requires parent { node.parent < length states.old }
    requires slot { node.slot < length states.old }
    ensures { states.new ≡ with_node states.old node }
{
    let above = &mut states[node.parent as usize];
    above.base = node.slot ^ u32::from(node.label);
    above.labels |= 1 << (u32::from(node.label) % 32);
    let state = &mut states[node.slot as usize];
    state.owner = node.parent;
}

/// Gives each node its place.
pub(crate) fn place_nodes<T: Placed>(
    trie: &T,
    places: &[u32],
    nodes: &[PlacedNode],
    states: &mut [State],
)
    requires placed { IsPlacing (T.tree trie.now) (placed_by places.now (T.slot_of trie.now)) }
    requires nodes { AreNodes (T.tree trie.now) (placed_by places.now (T.slot_of trie.now)) nodes.now }
    requires some { 0 < length states.old }
    requires within { AreSlotsWithin (length states.old) nodes.now }
    requires free { (y : ℕ) → y < length states.old → state_at states.old y ≡ blank }
    ensures { AreLaid (T.tree trie.now) (placed_by places.now (T.slot_of trie.now)) nodes.now (length nodes.now) states.new }
{
    for node in nodes {
        place_node(states, *node);
    }
}

/// Returns where the failure link of a node leads: on by its label from where that of the node above it does.
fn failure_of<T: Placed, C: Ledger>(
    trie: &T,
    places: &[u32],
    states: &[State],
    node: PlacedNode,
    ticks: &mut Ticks<C>,
) -> usize
    requires { CanLink (T.tree trie.now) (placed_by places.now (T.slot_of trie.now)) states.now node }
    ensures { FailsTo (T.tree trie.now) (placed_by places.now (T.slot_of trie.now)) node result }
{
    if node.parent == 0 {
        return 0;
    }
    let above = states[node.parent as usize].failure as usize;
    step(trie, states, above, node.label, ticks)
}

/// Lists the key that a node is, if it is one, with a link to the longest key that is a proper suffix of it: `shorter` is that one's index.
/// Returns the index of the longest key that ends where the node's path does.
fn list_key<A: Allocator>(
    keys: &mut Vec<ListedKey, A>,
    node: PlacedNode,
    shorter: u32,
) -> Result<u32, AllocError>
    ensures { IfOk result (λ index. ListsKey node shorter keys.old.items index keys.new.items) }
{
    let Some(value) = node.number else {
        return Ok(shorter);
    };
    // There are fewer than 2^30 nodes.
    let Ok(index) = u32::try_from(keys.len()) else {
        return Err(AllocError);
    };
    keys.push(ListedKey {
        len: node.depth,
        value,
        next: shorter,
    })?;
    Ok(index)
}

/// Writes the links of a node, and lists the key that it is, if it is one.
fn link_node<T: Placed, C: Ledger, A: Allocator>(
    trie: &T,
    places: &[u32],
    states: &mut [State],
    keys: &mut Vec<ListedKey, A>,
    node: PlacedNode,
    ticks: &mut Ticks<C>,
) -> Result<(), AllocError>
    requires can { CanLink (T.tree trie.now) (placed_by places.now (T.slot_of trie.now)) states.old node }
    requires listed { CanListKey (T.tree trie.now) (placed_by places.now (T.slot_of trie.now)) states.old keys.old.items node }
    ensures { IfOk result (λ _. GetsLinks (T.tree trie.now) (placed_by places.now (T.slot_of trie.now)) node states.old keys.old.items states.new keys.new.items) }
{
    let failure = failure_of(trie, places, states, node, ticks);
    let shorter = states[failure].output;
    let output = list_key(keys, node, shorter)?;
    let state = &mut states[node.slot as usize];
    state.failure = failure as u32;
    state.output = output;
    Ok(())
}

/// Gives each node its links: the nodes with shorter paths have theirs by then.
fn link_nodes<T: Placed, C: Ledger, A: Allocator>(
    trie: &T,
    places: &[u32],
    nodes: &[PlacedNode],
    states: &mut [State],
    keys: &mut Vec<ListedKey, A>,
    ticks: &mut Ticks<C>,
) -> Result<(), AllocError>
    requires placed { IsPlacing (T.tree trie.now) (placed_by places.now (T.slot_of trie.now)) }
    requires nodes { AreNodes (T.tree trie.now) (placed_by places.now (T.slot_of trie.now)) nodes.now }
    requires sorted { AreByDepth nodes.now }
    requires first { AreLinkedFirst (T.tree trie.now) (placed_by places.now (T.slot_of trie.now)) nodes.now 0 states.old keys.old.items }
    ensures { IfOk result (λ _. IsAutomaton (T.tree trie.now) (placed_by places.now (T.slot_of trie.now)) states.new keys.new.items) }
{
    for node in nodes {
        link_node(trie, places, states, keys, *node, ticks)?;
    }
    Ok(())
}

/// Returns how many slots there are up to the last one of a node.
pub(crate) fn slots_of(nodes: &[PlacedNode]) -> usize
    ensures some { 0 < result }
    ensures few { result ≤ 2 ^ 32 }
    ensures within { AreSlotsWithin result nodes.now }
{
    let mut slots = 1;
    for node in nodes {
        let slot = node.slot as usize;
        if slots <= slot {
            slots = slot + 1;
        }
    }
    slots
}

/// The parts of an automaton.
#[derive(Drop)]
pub(crate) struct ScanParts<A: Allocator> {
    /// What is read of each node, by its slot.
    pub(crate) states: Vec<State, A>,
    /// The keys, by the indices that the states have.
    pub(crate) keys: Vec<ListedKey, A>,
}

/// Begins the list of keys: nothing is at index 0. There is room for each key of some nodes.
fn begin_keys<A: Allocator>(nodes: &[PlacedNode], alloc: A) -> Result<Vec<ListedKey, A>, AllocError>
    ensures { IfOk result (λ keys. keys.items ≡ no_key ∷ []) }
{
    let mut room: usize = 1;
    for node in nodes {
        room = room.saturating_add(usize::from(node.number.is_some()));
    }
    let mut keys = Vec::with_capacity(alloc, room)?;
    keys.push(NO_KEY)?;
    Ok(keys)
}

/// Makes the automaton of a dictionary, by a count of steps that nothing reads.
fn build_with<T: Placed, C: Ledger, A: Allocator + Copy>(
    trie: &T,
    alloc: A,
    unread: Blank,
) -> Result<ScanParts<A>, AllocError>
    requires { IsBlankOf C.name C.parts unread }
    ensures { IfOk result (λ made. IsAutomaton (T.tree trie.now) (slot_of_path made.states.items) made.states.items made.keys.items) }
{
    let placed = nodes_anew(trie, alloc)?;
    let mut states = vec![in alloc; BLANK; slots_of(&placed.nodes)]?;
    place_nodes(trie, &placed.places, &placed.nodes, &mut states);
    let mut keys = begin_keys(&placed.nodes, alloc)?;
    let mut ticks = Ticks::<C>::new(unread);
    link_nodes(
        trie,
        &placed.places,
        &placed.nodes,
        &mut states,
        &mut keys,
        &mut ticks,
    )?;
    Ok(ScanParts { states, keys })
}

/// Makes the automaton of a dictionary: a state for each slot up to the last one of a node, and a list of the keys. It allocates these, and
/// until it returns lists of the nodes and of their slots, and what sorts of the nodes need.
pub(crate) fn build<T: Placed, A: Allocator + Copy>(
    trie: &T,
    alloc: A,
) -> Result<ScanParts<A>, AllocError>
    ensures { IfOk result (λ made. IsAutomaton (T.tree trie.now) (slot_of_path made.states.items) made.states.items made.keys.items) }
{
    build_with::<T, Brand, A>(trie, alloc, Blank::new(1))
}
