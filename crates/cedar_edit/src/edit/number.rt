//! A node's number set, and dropped.

ghost use Rattle.std.specs.Prelude.{◌<◌, ◌≡◌, ◌⊎◌, None, pos, Some, ℕ};
ghost use Rattle.cedar_edit.specs.Words.{below, cells, cells_besides, DropsNumber, EditsNode};
ghost use Rattle.cedar_edit.specs.Words.{fields, Forest, HasNode, Held, InRange, IsNodeOf, IsTable};
ghost use Rattle.cedar_edit.specs.Words.{OwnsNothing, SameFrame, SetsNumber, size_of};
ghost use Rattle.cedar_edit.specs.Words.{MayLoseNumber, NumbersAlone, NumbersReserved};
ghost use Rattle.cedar_edit.specs.Words.{TakesNumber};

use cedar_model::Layout;
use cedar_slots::NodeRecord;
use cedar_table::Table;
use std::alloc::Allocator;

/// Sets the number of a node that has a base: over the one in its slot, or otherwise in its slot for one, which is free.
#[inline(always)]
pub(crate) fn set_number<L: Layout, const SLOTS: usize, A: Allocator>(
    table: &mut Table<L, SLOTS, A>,
    node: usize,
    value: i32,
)
    requires { TakesNumber SLOTS (fields table.old) node }
    ensures sound { IsTable SLOTS (fields table.new).places }
    ensures set { SetsNumber (size_of (fields table.old)) (cells table.old) (cells table.new) node value }
    ensures tree { EditsNode (size_of (fields table.old)) (cells table.old) (fields table.new) node (λ _. Some value) (λ u. u) }
    ensures root_check { (cells table.new).check 0 ≡ (cells table.old).check 0 }
    ensures frame { SameFrame (fields table.old) (fields table.new) }
{
    let slot = table.slot_below(node, 0);
    if table.is_owned_by(slot, node) {
        let record = NodeRecord {
            base: value,
            check: node as i32,
        };
        table.write_node(slot, record);
        return;
    }
    table.pop_e_node(slot, value, node);
    let first = table.child(node);
    table.set_sibling(slot, first);
    table.set_child(node, 0);
}

/// Sets the number of a node that has a base and owns no slot yet, in `slot`, the one for it. The node names no label, and neither
/// does a slot just taken.
pub(crate) fn set_only<L: Layout, const SLOTS: usize, A: Allocator>(
    table: &mut Table<L, SLOTS, A>,
    node: usize,
    slot: usize,
    value: i32,
)
    requires { NumbersAlone SLOTS (fields table.old) node slot }
    ensures sound { IsTable SLOTS (fields table.new).places }
    ensures set { SetsNumber (size_of (fields table.old)) (cells table.old) (cells table.new) node value }
    ensures tree { EditsNode (size_of (fields table.old)) (cells table.old) (fields table.new) node (λ _. Some value) (λ u. u) }
    ensures keeps { (x : ℕ) → Held (cells table.old) x → Held (cells table.new) x }
    ensures taken { Held (cells table.new) slot }
    ensures root_check { (cells table.new).check 0 ≡ (cells table.old).check 0 }
    ensures frame { SameFrame (fields table.old) (fields table.new) }
{
    table.pop_e_node(slot, value, node);
}

/// Sets the number of a node whose slot for one is reserved for it.
pub(crate) fn set_reserved<L: Layout, const SLOTS: usize, A: Allocator>(
    table: &mut Table<L, SLOTS, A>,
    node: usize,
    value: i32,
)
    requires { NumbersReserved SLOTS (fields table.old) node }
    ensures sound { IsTable SLOTS (fields table.new).places }
    ensures set { SetsNumber (size_of (fields table.old)) (cells_besides (fields table.old) node 0) (cells table.new) node value }
    ensures tree { EditsNode (size_of (fields table.old)) (cells_besides (fields table.old) node 0) (fields table.new) node (λ _. Some value) (λ u. u) }
    ensures root_check { (cells table.new).check 0 ≡ (cells table.old).check 0 }
    ensures frame { SameFrame (fields table.old) (fields table.new) }
{
    let slot = table.child_slot(node, 0);
    table.claim(slot, value, node);
    let next = table.child(node);
    table.set_sibling(slot, next);
    table.set_child(node, 0);
}

/// Drops the number of a node that has a slot for it, and gives the slot back.
pub(crate) fn drop_number<L: Layout, const SLOTS: usize, A: Allocator>(
    table: &mut Table<L, SLOTS, A>,
    node: usize,
)
    requires { MayLoseNumber SLOTS (fields table.old) node }
    ensures sound { IsTable SLOTS (fields table.new).places }
    ensures dropped { DropsNumber (size_of (fields table.old)) (cells table.old) (cells table.new) node }
    ensures tree { EditsNode (size_of (fields table.old)) (cells table.old) (fields table.new) node (λ _. None) (λ u. u) }
    ensures root_check { (cells table.new).check 0 ≡ (cells table.old).check 0 }
    ensures frame { SameFrame (fields table.old) (fields table.new) }
{
    let slot = table.child_slot(node, 0);
    let first = table.sibling(slot);
    table.set_child(node, first);
    table.push_e_node(slot);
}
