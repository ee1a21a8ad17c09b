//! Numbers in the base fields of their own nodes: in a layout that keeps them there, the number of each node that owns no slot.

ghost use Rattle.std.specs.Prelude.{◌<◌, ◌↔◌, ◌≡◌, ◌≢◌, is_some, IsTrue, List, None, OnOk, pos, ℕ};
ghost use Rattle.cedar_edit.specs.Words.{AtBase, base_of, below, cells, EditsNode, fields};
ghost use Rattle.cedar_edit.specs.Words.{FieldSet, Forest, HasNode, IsAt, IsTable, KeepsOtherMarks};
ghost use Rattle.cedar_edit.specs.Words.{MakesIfFull, MayMakeBlock, node_at, OwnNumber};
ghost use Rattle.cedar_edit.specs.Words.{OwnsNothing, reduced_layout, root_of, SameFrame, size_of};
ghost use Rattle.cedar_edit.specs.Words.{TableHolds};
ghost use Rattle.cedar_edit.specs.Words.{MayLoseOwn, MayMoveOwn};

use crate::edit::number::set_number;
use cedar_model::{Layout, Stored};
use cedar_slots::Shortage;
use cedar_table::Table;
use std::alloc::Allocator;

/// Returns whether a node below the root owns no slot and keeps its number, if it gets one, in its own base field.
pub(crate) fn keeps_own<L: Layout, const SLOTS: usize, A: Allocator>(
    table: &Table<L, SLOTS, A>,
    node: usize,
) -> bool
    requires { node < size_of (fields table.now) }
    ensures { IsTrue result ↔ (((fields table.now).layout ≡ reduced_layout) × (base_of (cells table.now) node ≡ 0)) }
{
    L::keeps_numbers() && table.base_of(node) == 0
}

/// Returns whether a node has a number, in its own base field or in a slot.
pub(crate) fn has_number<L: Layout, const SLOTS: usize, A: Allocator>(
    table: &Table<L, SLOTS, A>,
    node: usize,
) -> bool
    requires sound { IsTable SLOTS (fields table.now).places }
    requires node_in { node < size_of (fields table.now) }
    requires node { (f : Forest) × HasNode (fields table.now) f node }
    ensures { (f : Forest) (w : List ℕ) → TableHolds (fields table.now) f → IsAt (cells table.now) w node → result ≡ is_some (node_at (root_of f) w).number }
{
    match table.stored_at(node) {
        Stored::AtBase(base) => table.is_owned_by(base, node),
        Stored::OwnNumber(_) => true,
        Stored::Nothing => false,
    }
}

/// Drops the number that a node keeps in its own base field. The node then has no base.
pub(crate) fn drop_own_number<L: Layout, const SLOTS: usize, A: Allocator>(
    table: &mut Table<L, SLOTS, A>,
    node: usize,
)
    requires { MayLoseOwn SLOTS (fields table.old) node }
    ensures sound { IsTable SLOTS (fields table.new).places }
    ensures set { FieldSet (cells table.old) (cells table.new) node (AtBase 0) }
    ensures tree { EditsNode (size_of (fields table.old)) (cells table.old) (fields table.new) node (λ _. None) (λ u. u) }
    ensures frame { SameFrame (fields table.old) (fields table.new) }
{
    table.set_base(node, 0);
}

/// Moves a number from its node's own base field into a slot, so that labels can be added below the node. If memory
/// or slots are lacking, all slots are as before.
pub(crate) fn move_number<L: Layout, const SLOTS: usize, A: Allocator>(
    table: &mut Table<L, SLOTS, A>,
    node: usize,
    value: i32,
) -> Result<(), Shortage>
    requires { MayMoveOwn SLOTS (fields table.old) node value }
    ensures sound { IsTable SLOTS (fields table.new).places }
    ensures tree { (f : Forest) → TableHolds (fields table.old) f → TableHolds (fields table.new) f }
    ensures at { (w : List ℕ) (s : ℕ) → IsAt (cells table.old) w s → IsAt (cells table.new) w s }
    ensures others { OnOk result (KeepsOtherMarks (cells table.old) (cells table.new) node) }
    ensures moved { OnOk result ((cells table.new).check (below (cells table.new) node 0) ≡ pos node) }
    ensures made { OnOk result (MakesIfFull (fields table.old) (fields table.new)) }
    ensures step { MayMakeBlock SLOTS (fields table.old) (fields table.new) result }
{
    let slot = table.find_place()?;
    table.set_base(node, slot);
    set_number(table, node, value);
    Ok(())
}
