//! One step of an update: to the child under a label, which is added if there is none, or to the number.

ghost use Rattle.std.specs.Prelude.{◌<◌, ◌≡◌, ◌≢◌, ◌⊎◌, IfOk, IsTrue, OnOk, pos, Some, true, ℕ, ℤ};
ghost use Rattle.cedar_edit.specs.Words.{AtBase, base_of, below, cells, EditsNode, fields, Forest};
ghost use Rattle.cedar_edit.specs.Words.{HasNode, Held, is_value, IsTable, LacksNumberSlot};
ghost use Rattle.cedar_edit.specs.Words.{MayMakeBlock, OwnNumber, OwnsNothing, Placed, PutsInBase};
ghost use Rattle.cedar_edit.specs.Words.{PutsInSlot, PutsMark, size_of, StepsTo, TableHolds};
ghost use Rattle.cedar_edit.specs.Words.{TakesFreeSlot, TakesNoBlock, TakesSingle, WantsSlot};
ghost use Rattle.cedar_edit.specs.Words.{ExtendsLeaf, GoesToSlot, NumbersLeaf, PutsNumberAt};
ghost use Rattle.cedar_edit.specs.Words.{StepsOneOn};

use crate::edit::leaf::{add_label, add_only, add_reserved};
use crate::edit::number::{set_number, set_only, set_reserved};
use crate::edit::own::keeps_own;
use crate::relocation::resolve::resolve;
use cedar_model::Layout;
use cedar_slots::Shortage;
use cedar_table::Table;
use std::alloc::Allocator;

/// Gives a leaf that has no base yet its first one: where the first free slot is that of `label`, which it returns. A block is
/// made only if no slot outside block 0 is free.
#[inline(always)]
fn first_base<L: Layout, const SLOTS: usize, A: Allocator>(
    table: &mut Table<L, SLOTS, A>,
    node: usize,
    label: u8,
) -> Result<usize, Shortage>
    requires sound { IsTable SLOTS (fields table.old).places }
    requires node_in { node < size_of (fields table.old) }
    requires not_root { node ≢ 0 }
    requires node { (f : Forest) × HasNode (fields table.old) f node }
    requires leaf { (cells table.old).stored node ≡ AtBase 0 }
    ensures sound { IsTable SLOTS (fields table.new).places }
    ensures slot { IfOk result (λ slot. slot ≡ below (cells table.new) node label) }
    ensures placed { OnOk result (Placed (fields table.old) (fields table.new) node label node) }
    ensures alone { OnOk result (OwnsNothing (cells table.new) node) }
    ensures tree { (f : Forest) → TableHolds (fields table.old) f → TableHolds (fields table.new) f }
    ensures step { MayMakeBlock SLOTS (fields table.old) (fields table.new) result }
    ensures made { TakesFreeSlot (fields table.old) (fields table.new) result }
    ensures keeps { OnOk result ((x : ℕ) → Held (cells table.old) x → Held (cells table.new) x) }
{
    let slot = table.find_place()?;
    table.set_base(node, slot ^ usize::from(label));
    Ok(slot)
}

/// Adds a child to a leaf that has no base yet, and returns the child's slot, the first free one. Nothing is looked for: the leaf
/// owns no slot, and the child is a leaf of the same kind. If memory or slots are lacking, all slots are as before.
#[inline(always)]
pub(crate) fn extend_leaf<L: Layout, const SLOTS: usize, A: Allocator>(
    table: &mut Table<L, SLOTS, A>,
    node: usize,
    label: u8,
) -> Result<usize, Shortage>
    requires { ExtendsLeaf SLOTS (fields table.old) node label }
    ensures sound { IsTable SLOTS (fields table.new).places }
    ensures stepped { IfOk result (StepsTo (fields table.old) (fields table.new) node label) }
    ensures step { MayMakeBlock SLOTS (fields table.old) (fields table.new) result }
    ensures absent { (cells table.old).check (below (cells table.old) node label) ≢ pos node }
    ensures single { OnOk result (TakesSingle (fields table.old) (fields table.new)) }
{
    let slot = first_base(table, node, label)?;
    add_only(table, node, slot, label);
    Ok(slot)
}

/// Sets the number of a leaf that has no base yet, in the first free slot. If memory or slots are lacking, all slots are as before.
fn number_leaf<L: Layout, const SLOTS: usize, A: Allocator>(
    table: &mut Table<L, SLOTS, A>,
    node: usize,
    value: i32,
) -> Result<(), Shortage>
    requires { NumbersLeaf SLOTS (fields table.old) node }
    ensures sound { IsTable SLOTS (fields table.new).places }
    ensures set { OnOk result (EditsNode (size_of (fields table.old)) (cells table.old) (fields table.new) node (λ _. Some value) (λ u. u)) }
    ensures marks { OnOk result (PutsMark (cells table.old) (cells table.new) node true) }
    ensures step { MayMakeBlock SLOTS (fields table.old) (fields table.new) result }
    ensures absent { (cells table.old).check (below (cells table.old) node 0) ≢ pos node }
    ensures made { TakesFreeSlot (fields table.old) (fields table.new) result }
    ensures single { OnOk result (TakesSingle (fields table.old) (fields table.new)) }
{
    let slot = first_base(table, node, 0)?;
    set_only(table, node, slot, value);
    Ok(())
}

/// Returns whether a node is a leaf below the root that has no base yet: it names no label, owns no slot and has no number.
fn is_new_leaf<L: Layout, const SLOTS: usize, A: Allocator>(
    table: &Table<L, SLOTS, A>,
    node: usize,
) -> bool
    requires node_in { node < size_of (fields table.now) }
    requires node { (f : Forest) × HasNode (fields table.now) f node }
    requires no_own_number { (v : ℤ) → (cells table.now).stored node ≢ OwnNumber v }
    ensures leaf { IsTrue result → (node ≢ 0) × ((cells table.now).stored node ≡ AtBase 0) }
    ensures based { (IsTrue result → ⊥) → ((base_of (cells table.now) node ≡ 0) × (node ≡ 0)) ⊎ (base_of (cells table.now) node ≢ 0) }
{
    node != 0 && table.base_of(node) == 0
}

/// Returns whether a slot that the base of a node has for a label, and that the node doesn't own, is held. A base of 0 is the root's:
/// block 0 is its own, and no other node holds a slot there.
fn is_taken<L: Layout, const SLOTS: usize, A: Allocator>(
    table: &Table<L, SLOTS, A>,
    node: usize,
    slot: usize,
) -> bool
    requires node_in { node < size_of (fields table.now) }
    requires slot_in { slot < size_of (fields table.now) }
    requires apart { base_of (cells table.now) node ≢ 0 → slot ≢ 0 }
    ensures taken { IsTrue result → (base_of (cells table.now) node ≢ 0) × ((Held (cells table.now) slot → ⊥) → ⊥) }
    ensures open { (IsTrue result → ⊥) → base_of (cells table.now) node ≢ 0 → Held (cells table.now) slot → ⊥ }
{
    if table.base_of(node) == 0 {
        return false;
    }
    !table.is_free_slot(slot)
}

/// Adds a child under a label whose slot another node owns, and returns the child's slot.
fn add_over<L: Layout, const SLOTS: usize, A: Allocator>(
    table: &mut Table<L, SLOTS, A>,
    node: usize,
    label: u8,
    search_limit: usize,
) -> Result<usize, Shortage>
    requires wants { WantsSlot SLOTS (fields table.old) node label }
    requires positive { 0 < label }
    ensures sound { IsTable SLOTS (fields table.new).places }
    ensures stepped { IfOk result (StepsTo (fields table.old) (fields table.new) node label) }
    ensures step { MayMakeBlock SLOTS (fields table.old) (fields table.new) result }
{
    let node = resolve(table, node, label, search_limit)?;
    Ok(add_reserved(table, node, label))
}

/// Sets the number of a node when another node owns the slot for it.
fn put_over<L: Layout, const SLOTS: usize, A: Allocator>(
    table: &mut Table<L, SLOTS, A>,
    node: usize,
    value: i32,
    search_limit: usize,
) -> Result<(), Shortage>
    requires { WantsSlot SLOTS (fields table.old) node 0 }
    ensures sound { IsTable SLOTS (fields table.new).places }
    ensures set { OnOk result (EditsNode (size_of (fields table.old)) (cells table.old) (fields table.new) node (λ _. Some value) (λ u. u)) }
    ensures marks { OnOk result (PutsMark (cells table.old) (cells table.new) node true) }
    ensures step { MayMakeBlock SLOTS (fields table.old) (fields table.new) result }
{
    let node = resolve(table, node, 0, search_limit)?;
    set_reserved(table, node, value);
    Ok(())
}

/// Goes from a node to its child under a label, and returns the child's slot. If there is no such child, it is added
/// as a leaf without number: at its ascending place if the table is ordered, and first if not. If memory or
/// slots are lacking, all slots are as before.
///
/// `add_rest` comes here only where there is no such child, since `known_front` has gone through those that there are. The call is one step
/// of any walk all the same, and its contract says both.
pub(crate) fn follow_or_add<L: Layout, const SLOTS: usize, A: Allocator>(
    table: &mut Table<L, SLOTS, A>,
    node: usize,
    label: u8,
    search_limit: usize,
) -> Result<usize, Shortage>
    requires { StepsOneOn SLOTS (fields table.old) node label }
    ensures sound { IsTable SLOTS (fields table.new).places }

    //= `follow_or_add` goes to a node's child or adds it as a bare leaf, at its ascending place or first.
    ensures stepped { IfOk result (StepsTo (fields table.old) (fields table.new) node label) }

    //= If it fails, all slots are as before; it makes one block at most; at the root it makes none and doesn't fail. [with at_root; by
    //  MayMakeBlock]
    //= Calls that make one block at most keep the order, the entries and `max_trial`. [also put_number; by MayMakeBlock, MayAddBlock]
    ensures step { MayMakeBlock SLOTS (fields table.old) (fields table.new) result }

    //= If the child is there, it makes no block, doesn't fail and changes no slot. [with stays]
    ensures owned { (cells table.old).check (below (cells table.old) node label) ≡ pos node → TakesNoBlock (fields table.old) (fields table.new) result }
    ensures stays { (cells table.old).check (below (cells table.old) node label) ≡ pos node → cells table.new ≡ cells table.old }
    ensures at_root { node ≡ 0 → TakesNoBlock (fields table.old) (fields table.new) result }
{
    if is_new_leaf(table, node) {
        return extend_leaf(table, node, label);
    }
    let slot = table.slot_below(node, label);
    if table.is_owned_by(slot, node) {
        return Ok(slot);
    }
    if is_taken(table, node, slot) {
        return add_over(table, node, label, search_limit);
    }
    Ok(add_label(table, node, label))
}

/// Sets the number of a node below the root in a slot, over the one that it has there. If memory or slots are
/// lacking, all slots are as before.
fn put_in_slot<L: Layout, const SLOTS: usize, A: Allocator>(
    table: &mut Table<L, SLOTS, A>,
    node: usize,
    value: i32,
    search_limit: usize,
) -> Result<(), Shortage>
    requires { GoesToSlot SLOTS (fields table.old) node }
    ensures sound { IsTable SLOTS (fields table.new).places }
    ensures set { OnOk result (EditsNode (size_of (fields table.old)) (cells table.old) (fields table.new) node (λ _. Some value) (λ u. u)) }
    ensures marks { OnOk result (PutsMark (cells table.old) (cells table.new) node true) }
    ensures step { MayMakeBlock SLOTS (fields table.old) (fields table.new) result }
    ensures owned { (cells table.old).check (below (cells table.old) node 0) ≡ pos node → TakesNoBlock (fields table.old) (fields table.new) result }
    ensures leaf { (cells table.old).stored node ≡ AtBase 0 → TakesFreeSlot (fields table.old) (fields table.new) result }
    ensures single { OnOk result ((cells table.old).stored node ≡ AtBase 0 → TakesSingle (fields table.old) (fields table.new)) }
{
    if is_new_leaf(table, node) {
        return number_leaf(table, node, value);
    }
    let slot = table.slot_below(node, 0);
    if table.is_owned_by(slot, node) {
        set_number(table, node, value);
        return Ok(());
    }
    if is_taken(table, node, slot) {
        return put_over(table, node, value, search_limit);
    }
    set_number(table, node, value);
    Ok(())
}

/// Sets the number of a node below the root, over the one that it has: in its own base field, if the layout keeps it there for a
/// node that owns no slot, and otherwise in a slot. If memory or slots are lacking, all slots are as before.
pub(crate) fn put_number<L: Layout, const SLOTS: usize, A: Allocator>(
    table: &mut Table<L, SLOTS, A>,
    node: usize,
    value: i32,
    search_limit: usize,
) -> Result<(), Shortage>
    requires { PutsNumberAt SLOTS (fields table.old) node value }
    ensures sound { IsTable SLOTS (fields table.new).places }

    //= `put_number` sets a node's number; if it fails, all slots are as before; it makes one block at most. [with step; by MayMakeBlock]
    ensures set { OnOk result (EditsNode (size_of (fields table.old)) (cells table.old) (fields table.new) node (λ _. Some value) (λ u. u)) }

    //= In the reduced layout the number of a node without base goes into its own base field, and otherwise into a slot. [with marks_own]
    ensures marks { OnOk result (PutsInSlot (fields table.old) (fields table.new) node) }
    ensures marks_own { OnOk result (PutsInBase (fields table.old) (fields table.new) node) }
    ensures step { MayMakeBlock SLOTS (fields table.old) (fields table.new) result }

    //= Over a number it makes no block and doesn't fail. [with own]
    ensures owned { (cells table.old).check (below (cells table.old) node 0) ≡ pos node → TakesNoBlock (fields table.old) (fields table.new) result }
    ensures own { (v : ℤ) → (cells table.old).stored node ≡ OwnNumber v → TakesNoBlock (fields table.old) (fields table.new) result }
    ensures leaf { (cells table.old).stored node ≡ AtBase 0 → TakesNoBlock (fields table.old) (fields table.new) result ⊎ LacksNumberSlot (fields table.old) }

    //= A number that a leaf without base gets takes one slot at most, for which a block is made only if no slot outside block 0 is free.
    //  [by TakesSingle]
    ensures single { OnOk result ((cells table.old).stored node ≡ AtBase 0 → TakesSingle (fields table.old) (fields table.new)) }
{
    if keeps_own(table, node) {
        table.set_own_number(node, value);
        return Ok(());
    }
    put_in_slot(table, node, value, search_limit)
}
