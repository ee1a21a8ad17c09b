//! Room for a new label below a node: one of two sets of slots is moved to another base, and meanwhile the slot for the
//! label is kept back.

ghost use Rattle.std.specs.Prelude.{◌<◌, ◌≡◌, ◌≢◌, ◌≤◌, bit_xor, IfOk, length, List, OnOk, pos, ℕ};
ghost use Rattle.cedar_edit.specs.Words.{Among, below, cells, ChainsRest, fields, IsNode, IsTable};
ghost use Rattle.cedar_edit.specs.Words.{MayMakeBlock, MovesForLabel, OwnsLabels, Reserves};
ghost use Rattle.cedar_edit.specs.Words.{SetReserved, size_of, StandsBelow, TellsLonger, WantsSlot};
ghost use Rattle.cedar_edit.specs.Words.{with_label};
ghost use Rattle.cedar_edit.specs.Words.{AreTwoNodes};

use crate::relocation::moving::{goes_before, relocate_around, relocate_with};
use arrayvec::ArrayVec;
use cedar_model::Layout;
use cedar_slots::Shortage;
use cedar_table::Table;
use std::alloc::Allocator;

/// Moves the slots that `node` owns, those of `labels`, to a base from which there is room for `wanted`
/// too, and keeps back the slot there for the new label. If no room is found, the tree is as it was, slot by slot.
#[inline(always)]
fn move_set_with<L: Layout, const SLOTS: usize, A: Allocator>(
    table: &mut Table<L, SLOTS, A>,
    node: usize,
    labels: &[u8],
    wanted: &[u8],
    label: u8,
    search_limit: usize,
) -> Result<usize, Shortage>
    requires node { StandsBelow SLOTS (fields table.old) node }
    requires owned { OwnsLabels (size_of (fields table.old)) (cells table.old) node labels.now }
    requires all { (l : ℕ) → Among labels.now l → Among wanted.now l }
    requires some { 0 < length wanted.now }
    requires few { length wanted.now ≤ 256 }
    requires listed { Among wanted.now label }
    requires new { Among labels.now label → ⊥ }
    ensures sound { IsTable SLOTS (fields table.new).places }
    ensures moved { IfOk result (λ base. SetReserved (fields table.old) (fields table.new) node base (bit_xor base label) labels.now wanted.now) }
    ensures step { MayMakeBlock SLOTS (fields table.old) (fields table.new) result }
{
    let base = table.place_for(wanted, search_limit)?;
    relocate_with(table, node, base, labels, label);
    Ok(base)
}

/// Moves the slots that `node` owns, those of `labels`, to another base, and keeps back the one of them that
/// another node wants. If no room is found, the tree is as it was, slot by slot.
#[inline(always)]
fn move_set_around<L: Layout, const SLOTS: usize, A: Allocator>(
    table: &mut Table<L, SLOTS, A>,
    node: usize,
    labels: &[u8],
    slot: usize,
    search_limit: usize,
) -> Result<usize, Shortage>
    requires node { StandsBelow SLOTS (fields table.old) node }
    requires owned { OwnsLabels (size_of (fields table.old)) (cells table.old) node labels.now }
    requires mine { (cells table.old).check slot ≡ pos node }
    requires some { 0 < length labels.now }
    requires few { length labels.now ≤ 256 }
    ensures sound { IsTable SLOTS (fields table.new).places }
    ensures moved { IfOk result (λ base. SetReserved (fields table.old) (fields table.new) node base slot labels.now labels.now) }
    ensures step { MayMakeBlock SLOTS (fields table.old) (fields table.new) result }
{
    let base = table.place_for(labels, search_limit)?;
    relocate_around(table, node, base, labels, slot);
    Ok(base)
}

/// Returns the second label of the slots that a node owns, its number's label being 0, or 0 if there is none.
fn second_label<L: Layout, const SLOTS: usize, A: Allocator>(
    table: &Table<L, SLOTS, A>,
    node: usize,
) -> u8
    requires node_in { node < size_of (fields table.now) }
    requires not_root { node ≢ 0 }
    requires node { IsNode (size_of (fields table.now)) (cells table.now) node }
    ensures { ChainsRest (size_of (fields table.now)) (cells table.now) node result }
{
    let base = table.base_of(node);
    if table.has_number_slot(node) {
        return table.sibling(base);
    }
    let first = table.child(node);
    if first == 0 {
        return 0;
    }
    table.sibling(base ^ usize::from(first))
}

/// Returns whether one node owns more slots than another that owns some. Both sets are read in step, so no more of the
/// longer one is read than the other has.
fn is_longer<L: Layout, const SLOTS: usize, A: Allocator>(
    table: &Table<L, SLOTS, A>,
    one: usize,
    other: usize,
) -> bool
    requires { AreTwoNodes (fields table.now) one other }
    ensures { TellsLonger (size_of (fields table.now)) (cells table.now) one other result }
{
    let mut left = second_label(table, one);
    let mut right = second_label(table, other);
    let left_base = table.base_of(one);
    let right_base = table.base_of(other);
    while left != 0 && right != 0 {
        left = table.sibling(left_base ^ usize::from(left));
        right = table.sibling(right_base ^ usize::from(right));
    }
    left != 0
}

/// Returns the labels that a node owns with a new one at its place among them, for which `MOST` leaves room. It allocates
/// nothing.
fn labels_with<const MOST: usize, L: Layout, const SLOTS: usize, A: Allocator>(
    table: &Table<L, SLOTS, A>,
    labels: &[u8],
    label: u8,
) -> ArrayVec<u8, MOST>
    requires few { length labels.now < MOST }
    ensures { result.items ≡ with_label (fields table.now).ordered label labels.now }
{
    let mut wanted = ArrayVec::new();
    let mut placed = false;
    for other in labels {
        if !placed && goes_before(table, label, *other) {
            wanted.push(label);
            placed = true;
        }
        wanted.push(*other);
    }
    if !placed {
        wanted.push(label);
    }
    wanted
}

/// Moves the slots that `node` owns, those of `labels`, to a base from which there is room for a new label too, and keeps
/// that one back. The labels in `wanted` are those and the new one.
#[inline(always)]
fn move_labels_with<L: Layout, const SLOTS: usize, A: Allocator>(
    table: &mut Table<L, SLOTS, A>,
    node: usize,
    labels: &[u8],
    wanted: &[u8],
    label: u8,
    search_limit: usize,
) -> Result<(), Shortage>
    requires node { StandsBelow SLOTS (fields table.old) node }
    requires owned { OwnsLabels (size_of (fields table.old)) (cells table.old) node labels.now }
    requires absent { (cells table.old).check (below (cells table.old) node label) ≢ pos node }
    requires wanted { wanted.now ≡ with_label (fields table.old).ordered label labels.now }
    ensures sound { IsTable SLOTS (fields table.new).places }
    ensures moved { OnOk result (MovesForLabel (fields table.old) (fields table.new) node label) }
    ensures step { MayMakeBlock SLOTS (fields table.old) (fields table.new) result }
{
    move_set_with(table, node, labels, wanted, label, search_limit)?;
    Ok(())
}

/// Does what `move_with` does, however many slots the node owns. Its two lists of 256 labels are zeroed at its start, so it
/// is no part of its callers.
#[inline(never)]
fn move_many_with<L: Layout, const SLOTS: usize, A: Allocator>(
    table: &mut Table<L, SLOTS, A>,
    node: usize,
    label: u8,
    search_limit: usize,
) -> Result<(), Shortage>
    requires node { StandsBelow SLOTS (fields table.old) node }
    requires absent { (cells table.old).check (below (cells table.old) node label) ≢ pos node }
    ensures sound { IsTable SLOTS (fields table.new).places }
    ensures moved { OnOk result (MovesForLabel (fields table.old) (fields table.new) node label) }
    ensures step { MayMakeBlock SLOTS (fields table.old) (fields table.new) result }
{
    let labels = table.all_labels_of(node);
    let wanted: ArrayVec<u8, 256> = labels_with(table, &labels, label);
    move_labels_with(table, node, &labels, &wanted, label, search_limit)
}

/// Moves the slots that `node` owns to a base from which there is room for a new label too, and keeps that one back. Most
/// sets have up to 16 labels, and are listed in an array of that length.
fn move_with<L: Layout, const SLOTS: usize, A: Allocator>(
    table: &mut Table<L, SLOTS, A>,
    node: usize,
    label: u8,
    search_limit: usize,
) -> Result<(), Shortage>
    requires node { StandsBelow SLOTS (fields table.old) node }
    requires absent { (cells table.old).check (below (cells table.old) node label) ≢ pos node }
    ensures sound { IsTable SLOTS (fields table.new).places }
    ensures moved { OnOk result (MovesForLabel (fields table.old) (fields table.new) node label) }
    ensures step { MayMakeBlock SLOTS (fields table.old) (fields table.new) result }
{
    if let Some(labels) = table.labels_of::<16>(node) {
        let wanted: ArrayVec<u8, 17> = labels_with(table, &labels, label);
        return move_labels_with(table, node, &labels, &wanted, label, search_limit);
    }
    move_many_with(table, node, label, search_limit)
}

/// Does what `move_away` does, however many slots the node owns.
#[inline(never)]
fn move_many_away<L: Layout, const SLOTS: usize, A: Allocator>(
    table: &mut Table<L, SLOTS, A>,
    node: usize,
    slot: usize,
    search_limit: usize,
) -> Result<usize, Shortage>
    requires node { StandsBelow SLOTS (fields table.old) node }
    requires mine { (cells table.old).check slot ≡ pos node }
    ensures sound { IsTable SLOTS (fields table.new).places }
    ensures moved { IfOk result (λ base. (ls : List ℕ) × SetReserved (fields table.old) (fields table.new) node base slot ls ls) }
    ensures step { MayMakeBlock SLOTS (fields table.old) (fields table.new) result }
{
    let labels = table.all_labels_of(node);
    move_set_around(table, node, &labels, slot, search_limit)
}

/// Moves the slots that `node` owns, of which `slot` is one, to another base, and returns that. The slot is kept back.
fn move_away<L: Layout, const SLOTS: usize, A: Allocator>(
    table: &mut Table<L, SLOTS, A>,
    node: usize,
    slot: usize,
    search_limit: usize,
) -> Result<usize, Shortage>
    requires node { StandsBelow SLOTS (fields table.old) node }
    requires mine { (cells table.old).check slot ≡ pos node }
    ensures sound { IsTable SLOTS (fields table.new).places }
    ensures moved { IfOk result (λ base. (ls : List ℕ) × SetReserved (fields table.old) (fields table.new) node base slot ls ls) }
    ensures step { MayMakeBlock SLOTS (fields table.old) (fields table.new) result }
{
    if let Some(labels) = table.labels_of::<16>(node) {
        return move_set_around(table, node, &labels, slot, search_limit);
    }
    move_many_away(table, node, slot, search_limit)
}

/// Keeps back the slot that the node's base has for a label and that another node owns, and returns where the node
/// is then. It moves that owner's set of slots, or the node's own set if the owner's is longer. If no room is
/// found, all slots are as before.
pub(crate) fn resolve<L: Layout, const SLOTS: usize, A: Allocator>(
    table: &mut Table<L, SLOTS, A>,
    node: usize,
    label: u8,
    search_limit: usize,
) -> Result<usize, Shortage>
    requires { WantsSlot SLOTS (fields table.old) node label }
    ensures sound { IsTable SLOTS (fields table.new).places }

    //= If another node owns a wanted slot, room is made: the tree stays, and the node's slot for the new label is kept back for it.
    ensures reserved { IfOk result (Reserves (fields table.old) (fields table.new) node label) }

    //= If no room is found for it, all slots are as before; it makes one block at most. [by MayMakeBlock]
    ensures step { MayMakeBlock SLOTS (fields table.old) (fields table.new) result }
{
    let slot = table.child_slot(node, label);
    let owner = table.owner(slot);
    if is_longer(table, owner, node) {
        move_with(table, node, label, search_limit)?;
        return Ok(node);
    }
    let moves = table.is_owned_by(node, owner);
    let old_base = table.base_of(owner);
    let new_base = move_away(table, owner, slot, search_limit)?;
    if moves {
        return Ok(new_base ^ old_base ^ node);
    }
    Ok(node)
}
