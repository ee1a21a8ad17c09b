//! One node of a table, read and written: its base, its owner, its slots for labels, its labels, and the node of a key.

ghost use Rattle.std.specs.Prelude.{◌<◌, ◌^◌, ◌↔◌, ◌≡◌, ◌≢◌, [], IsTrue, length, MatchOption, None};
ghost use Rattle.std.specs.Prelude.{pos, Some, true, ℕ};
ghost use Rattle.cedar_table.specs.Words.{base_of, below, cells, ChecksAt, EditsNode, fields};
ghost use Rattle.cedar_table.specs.Words.{FieldSet, Forest, HasNode, Held, is_value, IsEmptyAt};
ghost use Rattle.cedar_table.specs.Words.{IsNode, IsNodeAt, IsTable, IsWellFormed, Links, Nothing};
ghost use Rattle.cedar_table.specs.Words.{OfFamily, owned_slots, OwnNumber, OwnsNothing, Rebased};
ghost use Rattle.cedar_table.specs.Words.{reduced_layout, SameFrame, size_of, tree_of};

use crate::table::Table;
use arrayvec::ArrayVec;
use cedar_model::{Layout, Stored};
use cedar_slots::NodeRecord;
use std::alloc::Allocator;

impl<L: Layout, const SLOTS: usize, A: Allocator> Table<L, SLOTS, A> {
    /// Returns what the base field of a node says. In the default layout that is a base, with no test.
    pub fn stored_at_node(&self, node: usize) -> Stored
        requires node_in { node < size_of (fields self.now) }
        requires says { (cells self.now).stored node ≢ Nothing }
        ensures { result ≡ (cells self.now).stored node }
    {
        L::read_node(self.base(node))
    }

    /// Returns where a node's slots begin, or 0 if its base field doesn't say.
    pub fn base_of(&self, node: usize) -> usize
        requires { node < size_of (fields self.now) }

        //= `base_of`, `child_slot`: where a node's slots begin, and its slot for a label. [also child_slot, slot_below]
        ensures { result ≡ base_of (cells self.now) node }
    {
        match self.stored_at(node) {
            Stored::AtBase(base) => base,
            Stored::OwnNumber(_) => 0,
            Stored::Nothing => 0,
        }
    }

    /// Returns the slot for a label below a node.
    pub fn child_slot(&self, node: usize, label: u8) -> usize
        requires { node < size_of (fields self.now) }
        ensures { result ≡ below (cells self.now) node label }
    {
        self.base_of(node) ^ usize::from(label)
    }

    /// Returns the slot for a label below a slot that is known to be a node's.
    pub fn slot_below(&self, node: usize, label: u8) -> usize
        requires node_in { node < size_of (fields self.now) }
        requires says { (cells self.now).stored node ≢ Nothing }
        ensures { result ≡ below (cells self.now) node label }
    {
        node_base(self, node) ^ usize::from(label)
    }

    /// Returns the owner of a held slot that isn't the root's.
    pub fn owner(&self, slot: usize) -> usize
        requires slot_in { slot < size_of (fields self.now) }
        requires owned { (c : ℕ) × ((cells self.now).check slot ≡ pos c) }

        //= `owner` returns the owner of a slot.
        ensures { (cells self.now).check slot ≡ pos result }
    {
        self.places.slots.nodes.at(slot).check as usize
    }

    /// Returns whether a slot belongs to an owner. The read isn't counted.
    pub fn is_owned_by(&self, slot: usize, owner: usize) -> bool
        requires slot_in { slot < size_of (fields self.now) }
        requires owner_in { owner < size_of (fields self.now) }

        //= `is_owned_by` returns whether a slot belongs to this owner.
        ensures { IsTrue result ↔ ((cells self.now).check slot ≡ pos owner) }
    {
        self.places.slots.nodes.at(slot).check == owner as i32
    }

    /// Returns whether a slot other than the root's is free.
    pub fn is_free_slot(&self, slot: usize) -> bool
        requires slot_in { slot < size_of (fields self.now) }
        requires not_root { slot ≢ 0 }

        //= `is_free_slot` returns whether a slot isn't held.
        ensures { IsTrue result ↔ (Held (cells self.now) slot → ⊥) }
    {
        self.places.slots.nodes.at(slot).check < 0
    }

    /// Returns whether a node has a slot for its number. Only a node that names no first label can have one, so the check of that
    /// slot, which is mostly far away, is seldom read.
    pub fn has_number_slot(&self, node: usize) -> bool
        requires node_in { node < size_of (fields self.now) }
        requires not_root { node ≢ 0 }
        requires node { IsNode (size_of (fields self.now)) (cells self.now) node }

        //= `has_number_slot` returns whether a node owns its slot for label 0.
        ensures { IsTrue result ↔ ((cells self.now).check (below (cells self.now) node 0) ≡ pos node) }
    {
        if self.child(node) != 0 {
            return false;
        }
        self.is_owned_by(node_base(self, node), node)
    }

    /// Returns the first label of a node's chain, which begins after its number's slot, if it has one.
    pub fn first_label(&self, node: usize) -> u8
        requires node_in { node < size_of (fields self.now) }
        requires not_root { node ≢ 0 }
        requires node { IsNode (size_of (fields self.now)) (cells self.now) node }

        //= `first_label` returns the first label of a node's chain, or 0.
        ensures { OfFamily (fields self.now) node (λ h ls. Links (cells self.now) node result ls) }
    {
        if self.has_number_slot(node) {
            return self.sibling(self.base_of(node));
        }
        self.child(node)
    }

    /// Returns the labels under which a node owns slots, if there are no more than `MOST`: 0 first, if it has a slot for its number,
    /// and then those along its chain. It allocates nothing, and reads no more of a longer chain.
    pub fn labels_of<const MOST: usize>(&self, node: usize) -> Option<ArrayVec<u8, MOST>>
        requires some { 0 < MOST }
        requires node_in { node < size_of (fields self.now) }
        requires not_root { node ≢ 0 }
        requires node { IsNode (size_of (fields self.now)) (cells self.now) node }

        //= `labels_of` returns the labels under which a node owns slots, 0 for its number first; `None` if they are more than it may
        //  return.
        ensures { OfFamily (fields self.now) node (λ h ls. MatchOption result (MOST < length (owned_slots h ls)) (λ labels. labels.items ≡ owned_slots h ls)) }
    {
        let mut labels = number_label(self, node);
        let base = self.base_of(node);
        let mut label = self.first_label(node);
        while label != 0 {
            if labels.len() == MOST {
                return None;
            }
            labels.push(label);
            label = self.sibling(base ^ usize::from(label));
        }
        Some(labels)
    }

    /// Returns the labels under which a node owns slots, in the same order, however many they are.
    pub fn all_labels_of(&self, node: usize) -> ArrayVec<u8, 256>
        requires node_in { node < size_of (fields self.now) }
        requires not_root { node ≢ 0 }
        requires node { IsNode (size_of (fields self.now)) (cells self.now) node }

        //= `all_labels_of` returns all of them.
        ensures { OfFamily (fields self.now) node (λ h ls. result.items ≡ owned_slots h ls) }
    {
        match self.labels_of(node) {
            Some(labels) => labels,
            None => unreachable!(),
        }
    }

    /// Returns the slot of a key's node, if there is one.
    pub fn node_of(&self, key: &[u8]) -> Option<usize>
        requires { IsWellFormed SLOTS (fields self.now) }

        //= `node_of` returns the slot of a path's node. If it returns `None`, the tree has no number there, and nothing below.
        ensures { MatchOption result (IsEmptyAt (tree_of (fields self.now)) key.now) (IsNodeAt (fields self.now) key.now) }
    {
        let mut node = 0;
        for &label in key {
            let slot = self.slot_below(node, label);
            // Label 0 leads to the slot of a number, which is no node.
            if label == 0 || !self.is_owned_by(slot, node) {
                return None;
            }
            node = slot;
        }
        Some(node)
    }

    /// Makes `owner` the owner of the held slot `slot`.
    pub fn set_check(&mut self, slot: usize, owner: usize)
        requires sound { IsTable SLOTS (fields self.old).places }
        requires slot_in { slot < size_of (fields self.old) }
        requires slot_held { Held (cells self.old) slot }
        requires owner_in { owner < 2 ^ 31 }
        ensures sound { IsTable SLOTS (fields self.new).places }

        //= `set_check` makes a slot belong to an owner, and changes nothing else.
        ensures at { ChecksAt (cells self.old) (cells self.new) slot owner }
        ensures frame { SameFrame (fields self.old) (fields self.new) }
    {
        let node = NodeRecord {
            base: self.base(slot),
            check: owner as i32,
        };
        self.write_node(slot, node);
    }

    /// Sets where the slots of `node` begin.
    pub fn set_base(&mut self, node: usize, base: usize)
        requires sound { IsTable SLOTS (fields self.old).places }
        requires node_in { node < size_of (fields self.old) }
        requires base_in { base < size_of (fields self.old) }
        requires node_held { Held (cells self.old) node }
        requires not_root { node ≢ 0 }
        ensures sound { IsTable SLOTS (fields self.new).places }

        //= `set_base` sets where the slots of a node begin, and changes nothing else.
        ensures rebased { Rebased (cells self.old) (cells self.new) node base }
        ensures frame { SameFrame (fields self.old) (fields self.new) }
    {
        let record = NodeRecord {
            base: L::base_field(base),
            check: self.places.slots.nodes.at(node).check,
        };
        self.write_node(node, record);
    }

    /// Sets the number of a node that owns no slot, in its own base field.
    pub fn set_own_number(&mut self, node: usize, value: i32)
        requires sound { IsTable SLOTS (fields self.old).places }
        requires node_in { node < size_of (fields self.old) }
        requires not_root { node ≢ 0 }
        requires node { (f : Forest) × HasNode (fields self.old) f node }
        requires alone { OwnsNothing (cells self.old) node }
        requires layout { (fields self.old).layout ≡ reduced_layout }
        requires value { is_value value ≡ true }
        ensures sound { IsTable SLOTS (fields self.new).places }

        //= `set_own_number` sets a number in the base field of a node that owns no slot, and changes nothing else: the tree has that number
        //  there then. [with tree]
        ensures set { FieldSet (cells self.old) (cells self.new) node (OwnNumber value) }
        ensures tree { EditsNode (size_of (fields self.old)) (cells self.old) (fields self.new) node (λ _. Some value) (λ u. u) }
        ensures frame { SameFrame (fields self.old) (fields self.new) }
    {
        let record = NodeRecord {
            base: value,
            check: self.places.slots.nodes.at(node).check,
        };
        self.write_node(node, record);
    }
}

/// Returns where a node's slots begin, or 0 if its base field has its own number. In the default layout there is no test.
fn node_base<L: Layout, const SLOTS: usize, A: Allocator>(
    table: &Table<L, SLOTS, A>,
    node: usize,
) -> usize
    requires node_in { node < size_of (fields table.now) }
    requires says { (cells table.now).stored node ≢ Nothing }
    ensures { result ≡ base_of (cells table.now) node }
{
    match table.stored_at_node(node) {
        Stored::AtBase(base) => base,
        Stored::OwnNumber(_) => 0,
        Stored::Nothing => 0,
    }
}

/// Returns the label 0 alone if the node has a slot for its number, and otherwise no label.
fn number_label<L: Layout, const SLOTS: usize, A: Allocator, const MOST: usize>(
    table: &Table<L, SLOTS, A>,
    node: usize,
) -> ArrayVec<u8, MOST>
    requires some { 0 < MOST }
    requires node_in { node < size_of (fields table.now) }
    requires not_root { node ≢ 0 }
    requires node { IsNode (size_of (fields table.now)) (cells table.now) node }
    ensures { OfFamily (fields table.now) node (λ h ls. result.items ≡ owned_slots h []) }
{
    let mut labels = ArrayVec::new();
    if table.has_number_slot(node) {
        labels.push(0);
        return labels;
    }
    labels
}
