//! A node with all of its slots at once: its number's and its labels'.

ghost use Rattle.std.specs.Prelude.{◌<◌, ◌∷◌, ◌≡◌, ◌≢◌, ◌≤◌, [], IfErr, IfOk, IfSome, length};
ghost use Rattle.std.specs.Prelude.{MatchOption, None, OnErr, OnOk, Some, true, ℕ};
ghost use Rattle.cedar_bulk.specs.Words.{base_of, below, cells, fields, Fills, GetsBase};
ghost use Rattle.cedar_bulk.specs.Words.{GetsNumber, GoesLast, Held, is_value, IsTable, IsUnfilled};
ghost use Rattle.cedar_bulk.specs.Words.{KeepsOwn, MakesBlocks, MakesIfFull, MayRefuse, SameFrame};
ghost use Rattle.cedar_bulk.specs.Words.{SameSettings, size_of, StaysBare, StaysOwn, TakesOne};
ghost use Rattle.cedar_bulk.specs.Words.{WantsBase, WantsChain, WantsNumber, WantsSlots};

use crate::append::{append_labels, slot_at};
use cedar_slots::Shortage;
use cedar_table::{Layout, Table};
use std::alloc::Allocator;

/// Gives a node below the root that has neither number nor label a base from which the slots of all labels are free, of which 0 means
/// the number, and returns the base. All growth of a build from sorted pairs happens here.
#[inline(always)]
fn find_base<L: Layout, const SLOTS: usize, A: Allocator>(
    table: &mut Table<L, SLOTS, A>,
    node: usize,
    wanted: &[u8],
) -> Result<usize, Shortage>
    requires wants { WantsBase SLOTS (fields table.old) node wanted.now }
    requires not_root { node ≢ 0 }
    ensures sound { IsTable SLOTS (fields table.new).places }
    ensures based { OnOk result (GetsBase (size_of (fields table.old)) (size_of (fields table.new)) (cells table.old) (cells table.new) node wanted.now) }
    ensures base { IfOk result (λ base. base ≡ base_of (cells table.new) node) }
    ensures refused { IfErr result (λ error. MayRefuse (fields table.new).places SLOTS error) }
    ensures blocks { (n : ℕ) × (n ≤ 1) × OnErr result (n ≡ 0) × MakesBlocks n (fields table.old) (fields table.new) }
    ensures alone { OnOk result (length wanted.now ≡ 1 → MakesIfFull (fields table.old) (fields table.new)) }
    ensures root_check { (cells table.new).check 0 ≡ (cells table.old).check 0 }
    ensures settings { SameSettings (fields table.old) (fields table.new) }
{
    let base = table.place_for(wanted, usize::MAX)?;
    table.set_base(node, base);
    Ok(base)
}

/// Gives a node that has neither number nor label a base from which the slots of all labels are free, of which 0 means the
/// number, and returns the base. The root keeps its base.
#[inline(always)]
fn give_base<L: Layout, const SLOTS: usize, A: Allocator>(
    table: &mut Table<L, SLOTS, A>,
    node: usize,
    wanted: &[u8],
) -> Result<usize, Shortage>
    requires { WantsBase SLOTS (fields table.old) node wanted.now }
    ensures sound { IsTable SLOTS (fields table.new).places }
    ensures based { OnOk result (GetsBase (size_of (fields table.old)) (size_of (fields table.new)) (cells table.old) (cells table.new) node wanted.now) }
    ensures base { IfOk result (λ base. base ≡ base_of (cells table.new) node) }
    ensures refused { IfErr result (λ error. MayRefuse (fields table.new).places SLOTS error) }
    ensures blocks { (n : ℕ) × (n ≤ 1) × OnErr result (n ≡ 0) × (node ≡ 0 → n ≡ 0) × MakesBlocks n (fields table.old) (fields table.new) }
    ensures alone { OnOk result (length wanted.now ≡ 1 → MakesIfFull (fields table.old) (fields table.new)) }
    ensures root_check { (cells table.new).check 0 ≡ (cells table.old).check 0 }
    ensures settings { SameSettings (fields table.old) (fields table.new) }
{
    if node == 0 {
        return Ok(0);
    }
    find_base(table, node, wanted)
}

/// Takes the slot for the number of a node that has neither number nor label, and returns it.
#[inline(always)]
fn take_number<L: Layout, const SLOTS: usize, A: Allocator>(
    table: &mut Table<L, SLOTS, A>,
    node: usize,
    base: usize,
    value: i32,
) -> usize
    requires { WantsNumber SLOTS (fields table.old) node base }
    ensures sound { IsTable SLOTS (fields table.new).places }
    ensures gets { GetsNumber (size_of (fields table.old)) (cells table.old) (cells table.new) node (Some value) }
    ensures ends { (l : ℕ) → GoesLast (size_of (fields table.new)) (cells table.new) node l (Some result) }
    ensures taken { Held (cells table.new) (below (cells table.old) node 0) }
    ensures root_check { (cells table.new).check 0 ≡ (cells table.old).check 0 }
    ensures frame { SameFrame (fields table.old) (fields table.new) }
{
    let slot = slot_at(base, 0);
    table.pop_e_node(slot, value, node);
    slot
}

/// Takes the slot for the number, if there is one, and returns the slot that the first label goes after, unless it begins
/// the chain.
#[inline(always)]
fn begin_chain<L: Layout, const SLOTS: usize, A: Allocator>(
    table: &mut Table<L, SLOTS, A>,
    node: usize,
    base: usize,
    number: Option<i32>,
) -> Option<usize>
    requires { WantsChain SLOTS (fields table.old) node base number }
    ensures sound { IsTable SLOTS (fields table.new).places }
    ensures gets { GetsNumber (size_of (fields table.old)) (cells table.old) (cells table.new) node number }
    ensures ends { (l : ℕ) → GoesLast (size_of (fields table.new)) (cells table.new) node l result }
    ensures taken { IfSome number (λ v. Held (cells table.new) (below (cells table.old) node 0)) }
    ensures root_check { (cells table.new).check 0 ≡ (cells table.old).check 0 }
    ensures frame { SameFrame (fields table.old) (fields table.new) }
{
    match number {
        Some(value) => Some(take_number(table, node, base, value)),
        None if node == 0 => Some(0),
        None => None,
    }
}

/// Gives a node that has neither number nor label a slot for its number, if there is one, and ascending labels, each a leaf
/// without number. All these slots are found at once, and taken in ascending order. Returns where they begin.
#[inline(always)]
fn place_node<L: Layout, const SLOTS: usize, A: Allocator>(
    table: &mut Table<L, SLOTS, A>,
    node: usize,
    number: Option<i32>,
    wanted: &[u8],
    labels: &[u8],
) -> Result<usize, Shortage>
    requires { WantsSlots SLOTS (fields table.old) node number wanted.now labels.now }
    ensures sound { IsTable SLOTS (fields table.new).places }
    ensures fills { OnOk result (Fills (size_of (fields table.old)) (size_of (fields table.new)) (cells table.old) (cells table.new) node number labels.now) }
    ensures base { IfOk result (λ base. base ≡ base_of (cells table.new) node) }
    ensures refused { IfErr result (λ error. MayRefuse (fields table.new).places SLOTS error) }
    ensures blocks { (n : ℕ) × (n ≤ 1) × OnErr result (n ≡ 0) × (node ≡ 0 → n ≡ 0) × MakesBlocks n (fields table.old) (fields table.new) }
    ensures alone { OnOk result (length wanted.now ≡ 1 → TakesOne (fields table.old) (fields table.new)) }
    ensures root_check { (cells table.new).check 0 ≡ (cells table.old).check 0 }
    ensures settings { SameSettings (fields table.old) (fields table.new) }
{
    let base = give_base(table, node, wanted)?;
    let before = begin_chain(table, node, base, number);
    append_labels(table, node, base, before, labels);
    Ok(base)
}

/// Gives a node below the root that has neither number nor label one label, a leaf without number, and returns its slot.
#[inline(always)]
pub(crate) fn name_alone<L: Layout, const SLOTS: usize, A: Allocator>(
    table: &mut Table<L, SLOTS, A>,
    node: usize,
    label: u8,
) -> Result<usize, Shortage>
    requires bare { IsUnfilled SLOTS (fields table.old) node }
    requires not_root { node ≢ 0 }
    requires positive { 0 < label }
    ensures sound { IsTable SLOTS (fields table.new).places }
    ensures fills { OnOk result (Fills (size_of (fields table.old)) (size_of (fields table.new)) (cells table.old) (cells table.new) node None (label ∷ [])) }
    ensures slot { IfOk result (λ slot. slot ≡ below (cells table.new) node label) }
    ensures refused { IfErr result (λ error. MayRefuse (fields table.new).places SLOTS error) }
    ensures blocks { (n : ℕ) × (n ≤ 1) × OnErr result (n ≡ 0) × MakesBlocks n (fields table.old) (fields table.new) }
    ensures alone { OnOk result (TakesOne (fields table.old) (fields table.new)) }
    ensures root_check { (cells table.new).check 0 ≡ (cells table.old).check 0 }
    ensures settings { SameSettings (fields table.old) (fields table.new) }
{
    let labels = [label];
    let base = find_base(table, node, &labels)?;
    append_labels(table, node, base, None, &labels);
    Ok(slot_at(base, label))
}

/// Returns the number that a node with these labels keeps in its own base field: it has one there if there are no labels and the
/// layout keeps such numbers so.
fn own_number<L: Layout>(number: Option<i32>, labels: &[u8]) -> Option<i32>
    ensures { MatchOption result (StaysBare L.kind number labels.now) (StaysOwn L.kind number labels.now) }
{
    if labels.is_empty() && L::keeps_numbers() {
        return number;
    }
    None
}

/// Gives a node that has neither number nor label a number, if there is one, and ascending labels, each a leaf without
/// number, and returns where their slots begin. A number without labels goes into the node's own base field, if the layout
/// keeps it there; then no slot follows.
#[inline(always)]
pub(crate) fn fill_node<L: Layout, const SLOTS: usize, A: Allocator>(
    table: &mut Table<L, SLOTS, A>,
    node: usize,
    number: Option<i32>,
    wanted: &[u8],
    labels: &[u8],
) -> Result<usize, Shortage>
    requires wants { WantsSlots SLOTS (fields table.old) node number wanted.now labels.now }
    requires value { IfSome number (λ v. is_value v ≡ true) }
    ensures sound { IsTable SLOTS (fields table.new).places }
    ensures fills { OnOk result (Fills (size_of (fields table.old)) (size_of (fields table.new)) (cells table.old) (cells table.new) node number labels.now) }
    ensures base { IfOk result (λ base. base ≡ base_of (cells table.new) node) }
    ensures own { OnOk result (KeepsOwn L.kind (cells table.new) node number labels.now) }
    ensures refused { IfErr result (λ error. MayRefuse (fields table.new).places SLOTS error) }
    ensures blocks { (n : ℕ) × (n ≤ 1) × OnErr result (n ≡ 0) × (node ≡ 0 → n ≡ 0) × MakesBlocks n (fields table.old) (fields table.new) }
    ensures alone { OnOk result (length wanted.now ≡ 1 → TakesOne (fields table.old) (fields table.new)) }
    ensures root_check { (cells table.new).check 0 ≡ (cells table.old).check 0 }
    ensures settings { SameSettings (fields table.old) (fields table.new) }
{
    if let Some(value) = own_number::<L>(number, labels) {
        table.set_own_number(node, value);
        return Ok(0);
    }
    place_node(table, node, number, wanted, labels)
}
