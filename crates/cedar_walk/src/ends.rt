//! The last node of a walk.

ghost use Rattle.std.specs.Prelude.{◌≡◌, [], MatchOption};
ghost use Rattle.cedar_walk.specs.Words.{fields, GoesPast, IsLastNumber, IsOnLastWay};
ghost use Rattle.cedar_walk.specs.Words.{IsWellFormed, left_at, tree_of, walk};

use crate::visits::{
    Numbered, Place, child_under, first_child, next_sibling, numbered_from, parent,
};
use cedar_model::Layout;
use cedar_table::Table;
use std::alloc::Allocator;

/// Returns where the path to the last node of a walk goes on from a node: to the sibling after it, or otherwise to its first child. So
/// it passes all children of a node, and nothing below any of them but the last.
#[inline(always)]
fn place_nearer<L: Layout, const SLOTS: usize, A: Allocator>(
    table: &Table<L, SLOTS, A>,
    place: Place,
) -> Option<Place>
    requires well_formed { IsWellFormed SLOTS (fields table.now) }
    requires on { IsOnLastWay (fields table.now) place }
    ensures { MatchOption result (left_at (fields table.now) [] place.depth place.slot ≡ []) (GoesPast (fields table.now) place) }
{
    let beside = next_sibling(table, place.slot);
    let above = parent(table, place.slot);
    if beside != 0 {
        return Some(child_under(table, above, beside, place.depth));
    }
    let first = first_child(table, place.slot);
    if first != 0 {
        return Some(child_under(table, place.slot, first, place.depth + 1));
    }
    None
}

/// Returns the last node with a number of a walk from the root. It allocates nothing.
pub fn last_numbered<L: Layout, const SLOTS: usize, A: Allocator>(
    table: &Table<L, SLOTS, A>,
) -> Option<Numbered>
    requires { IsWellFormed SLOTS (fields table.now) }

    //= `last_numbered` returns the last node with a number of a walk from the root, or that there is none.
    ensures { MatchOption result (walk (tree_of (fields table.now)) ≡ []) (IsLastNumber (fields table.now)) }
{
    let label = first_child(table, 0);
    if label == 0 {
        return None;
    }
    let mut place = child_under(table, 0, label, 1);
    while let Some(next) = place_nearer(table, place) {
        place = next;
    }
    Some(numbered_from(table, place.slot, place.depth))
}
