//! A step of a walk that leaves out what is below a node.

ghost use Rattle.std.specs.Prelude.{List, ℕ};
ghost use Rattle.cedar_walk.specs.Words.{cells, fields, IsBelow, IsWellFormed, SkipsToNode};

use crate::visits::{Visited, next_after};
use cedar_model::Layout;
use cedar_table::Table;
use std::alloc::Allocator;

/// Returns the next node of a walk that has been at a node, `depth` labels below the one where it began, and leaves out all below it: the
/// sibling after it, or otherwise the one after the nearest node above it that has one. It allocates nothing.
#[inline(always)]
pub fn node_past<L: Layout, const SLOTS: usize, A: Allocator>(
    table: &Table<L, SLOTS, A>,
    node: usize,
    depth: usize,
) -> Option<Visited>
    requires well_formed { IsWellFormed SLOTS (fields table.now) }
    requires below { (start : List ℕ) × IsBelow (cells table.now) start depth node }

    //= `node_past` returns the next node of a walk that leaves out what is below a node, with its number, or that nothing is left.
    ensures { SkipsToNode (fields table.now) depth node result }
{
    let place = next_after(table, node, depth)?;
    Some(Visited {
        slot: place.slot,
        depth: place.depth,
        label: place.label,
        number: table.number_of(place.slot),
    })
}
