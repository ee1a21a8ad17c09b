//! Walks over a range of keys: the first entry at or after a key, and the path of a node that a walk has reached.

ghost use Rattle.std.specs.Prelude.{◌++◌, ◌-◌, ◌<◌, ◌∷◌, ◌≡◌, ◌≤◌, ◌⊎◌, [], length};
ghost use Rattle.std.specs.Prelude.{List, take, true, ℕ};
ghost use Rattle.cedar_walk.specs.Words.{AboveFrom, BeginsAtFirst, below, cells, ComesToFirst};
ghost use Rattle.cedar_walk.specs.Words.{entries_since, fields, IsAt, IsBelow, IsReached};
ghost use Rattle.cedar_walk.specs.Words.{IsWellFormed, left_above, node_at, path_to, tree_of};

use crate::visits::{
    Numbered, Place, child_under, first_child, first_numbered, next_after, numbered_from, parent,
};
use cedar_model::Layout;
use cedar_table::Table;
use std::alloc::Allocator;

/// The deepest node on the way along a key: its slot, and how many bytes of the key lead to it.
#[derive(Clone, Copy)]
pub(crate) struct Reached {
    slot: usize,
    depth: usize,
}

/// Returns the label of a node below the one above it: a slot is its owner's base with this label.
#[inline(always)]
fn label_below<L: Layout, const SLOTS: usize, A: Allocator>(
    table: &Table<L, SLOTS, A>,
    above: usize,
    node: usize,
) -> u8
    requires well_formed { IsWellFormed SLOTS (fields table.now) }
    requires at { (w : List ℕ) × (l : ℕ) × IsAt (cells table.now) w above × IsAt (cells table.now) (w ++ l ∷ []) node }
    ensures { result ≡ below (cells table.now) above node }
{
    (table.base_of(above) ^ node) as u8
}

/// Writes the last `depth` labels on the way to a node over the end of a key, after its prefix, by climbing: so a walk holds no path.
pub fn write_path<L: Layout, const SLOTS: usize, A: Allocator>(
    table: &Table<L, SLOTS, A>,
    node: usize,
    depth: usize,
    key: &mut [u8],
)
    requires well_formed { IsWellFormed SLOTS (fields table.now) }
    requires below { (start : List ℕ) × IsBelow (cells table.now) start depth node }
    requires room { depth ≤ length key.old }

    //= `write_path` writes the path to a node over the last bytes of a key, and changes none in front of them.
    ensures { key.new ≡ take (length key.old - depth) key.old ++ path_to (fields table.now) depth node }
{
    let front = key.len() - depth;
    let mut slot = node;
    let mut steps = depth;
    while steps != 0 {
        steps -= 1;
        let above = parent(table, slot);
        key[front + steps] = label_below(table, above, slot);
        slot = above;
    }
}

/// Follows a key as far as its bytes lead to nodes.
fn way_along<L: Layout, const SLOTS: usize, A: Allocator>(
    table: &Table<L, SLOTS, A>,
    key: &[u8],
) -> Reached
    requires { IsWellFormed SLOTS (fields table.now) }
    ensures { IsReached (fields table.now) key.now result }
{
    let mut slot = 0;
    let mut depth = 0;
    while depth < key.len() {
        let label = key[depth];
        let below = table.slot_below(slot, label);
        // Label 0 leads to the slot of a number, which is no node.
        if label == 0 || !table.is_owned_by(below, slot) {
            return Reached { slot, depth };
        }
        slot = below;
        depth += 1;
    }
    Reached { slot, depth }
}

/// Returns the label of a node's first child above a label, or 0.
fn child_above<L: Layout, const SLOTS: usize, A: Allocator>(
    table: &Table<L, SLOTS, A>,
    node: usize,
    label: u8,
) -> u8
    requires well_formed { IsWellFormed SLOTS (fields table.now) }
    requires ordered { (fields table.now).ordered ≡ true }
    requires at { (w : List ℕ) × IsAt (cells table.now) w node }
    ensures first { (w : List ℕ) → IsAt (cells table.now) w node → AboveFrom (node_at (tree_of (fields table.now)) w).children label result }
    ensures above { (result ≡ 0) ⊎ (label < result) }
{
    let mut next = first_child(table, node);
    while next != 0 {
        if next > label {
            return next;
        }
        next = table.sibling(table.slot_below(node, next));
    }
    next
}

/// Returns where a walk goes on below a node, after a label under which it has no child: to the first child above that label, or
/// otherwise as a walk does that has finished all below the node.
fn place_above<L: Layout, const SLOTS: usize, A: Allocator>(
    table: &Table<L, SLOTS, A>,
    node: usize,
    depth: usize,
    label: u8,
) -> Option<Place>
    requires well_formed { IsWellFormed SLOTS (fields table.now) }
    requires ordered { (fields table.now).ordered ≡ true }
    requires below { IsBelow (cells table.now) [] depth node }
    ensures { BeginsAtFirst (fields table.now) (left_above (fields table.now) depth node label) result }
{
    let next = child_above(table, node, label);
    if next != 0 {
        return Some(child_under(table, node, next, depth + 1));
    }
    next_after(table, node, depth)
}

/// Returns the first entry at or after a key by bytes, in a table whose labels ascend. It allocates nothing.
pub fn first_since<L: Layout, const SLOTS: usize, A: Allocator>(
    table: &Table<L, SLOTS, A>,
    key: &[u8],
) -> Option<Numbered>
    requires well_formed { IsWellFormed SLOTS (fields table.now) }
    requires ordered { (fields table.now).ordered ≡ true }

    //= `first_since` finds the first entry at a key or after it by bytes, and returns `None` if there is none.
    ensures { ComesToFirst (fields table.now) [] (entries_since (tree_of (fields table.now)) key.now) result }
{
    if key.is_empty() {
        return first_numbered(table, key);
    }
    let reached = way_along(table, key);
    if reached.depth == key.len() {
        return Some(numbered_from(table, reached.slot, reached.depth));
    }
    let place = place_above(table, reached.slot, reached.depth, key[reached.depth])?;
    Some(numbered_from(table, place.slot, place.depth))
}
