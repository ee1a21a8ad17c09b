//! The nodes of a dictionary, listed for a scanner.

ghost use Rattle.std.specs.Prelude.{◌-◌, ◌<◌, ◌∷◌, ◌≡◌, ◌≤◌, [], IfOk, length, slice_index};
ghost use Rattle.cedar_scan.specs.Words.{AreNodes, IsWellFormed, slot_in, tree_of};

use crate::placed::Placed;
use crate::state::PlacedNode;
use cedarwood::{Layout, Trie, Walked};
use std::alloc::{AllocError, Allocator};

/// Returns the slots on the way to the root: its own.
fn root_way<A: Allocator + Copy>(alloc: A) -> Result<Vec<u32, A>, AllocError>
    ensures { IfOk result (λ way. way.items ≡ 0 ∷ []) }
{
    let mut way = Vec::new(alloc);
    way.push(0)?;
    Ok(way)
}

/// Returns the slot of the node above one so many labels below the root, from the slots on the way to it.
fn slot_above(way: &[u32], depth: usize) -> u32
    requires below { 0 < depth }
    requires within { depth ≤ length way.now }
    ensures { result ≡ slice_index way.now (depth - 1) }
{
    way[depth - 1]
}

/// Lists the nodes below the root, each before its children. It allocates the list, and one of the slots on the way to a node.
fn list_nodes<T: Walked, A: Allocator + Copy>(
    trie: &T,
    alloc: A,
) -> Result<Vec<PlacedNode, A>, AllocError>
    requires { IsWellFormed T.slots (T.shown trie.now) }
    ensures { IfOk result (λ nodes. AreNodes (tree_of (T.shown trie.now)) (slot_in (T.shown trie.now)) nodes.items) }
{
    let mut nodes = Vec::new(alloc);
    let mut way = root_way(alloc)?;
    let mut at = 0;
    let mut depth = 0;
    while let Some(next) = trie.next_node(at, depth) {
        let parent = slot_above(&way, next.depth);
        let slot = next.slot as u32;
        let below = next.depth as u32;
        nodes.push(PlacedNode {
            slot,
            parent,
            depth: below,
            label: next.label,
            number: next.number,
        })?;
        way.truncate(next.depth);
        way.push(slot)?;
        at = next.slot;
        depth = next.depth;
    }
    Ok(nodes)
}

impl<L: Layout, const SLOTS: usize, B: Allocator + Copy> Placed for Trie<L, SLOTS, B> {
    ghost tree = { λ trie. trie.state.tree };

    ghost slot_of = { λ trie. slot_in trie.table };

    fn nodes<A: Allocator + Copy>(&self, alloc: A) -> Result<Vec<PlacedNode, A>, AllocError> {
        self.stands_on_its_table();
        list_nodes(self, alloc)
    }
}
