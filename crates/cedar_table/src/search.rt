//! Exact search: from a node to its child under a label, and to its number.

use crate::table::Table;
use cedar_model::{Layout, Stored};
use cedar_slots::Ticks;
use std::alloc::Allocator;
use std::sync::ledger::Ledger;

impl<L: Layout, const SLOTS: usize, A: Allocator> Table<L, SLOTS, A> {
    ghost use Rattle.std.specs.Prelude.{◌+◌, ◌<◌, ◌↔◌, ◌≡◌, ◌≤◌, IsTrue, length, OnSome, pos};
    ghost use Rattle.cedar_table.specs.Words.{cells, exact, fields, FindsChild, IsWellFormed};
    ghost use Rattle.cedar_table.specs.Words.{OfNode, size_of, Stands, Tree, tree_of};

    /// Returns whether a slot belongs to an owner: one comparison of a check field with a slot's number.
    pub(crate) fn belongs<C: Ledger>(&self, slot: usize, owner: usize, ticks: &mut Ticks<C>) -> bool
        requires slot_in { slot < size_of (fields self.now) }
        requires owner_in { owner < size_of (fields self.now) }
        ensures answer { IsTrue result ↔ ((cells self.now).check slot ≡ pos owner) }
        ensures cost { ticks.new ≡ ticks.old + 1 }
    {
        let check = self.check(slot, ticks);
        check == owner as i32
    }

    /// Returns the slot of a node's child under a label.
    pub fn follow<C: Ledger>(&self, node: usize, label: u8, ticks: &mut Ticks<C>) -> Option<usize>
        requires node_in { node < size_of (fields self.now) }
        requires node { (t : Tree) × Stands (size_of (fields self.now)) (cells self.now) node t }

        //= `follow` returns the slot of the child under a label, or that there is none, `number` a node's number; each counts one
        //  comparison at most. [with cost; also number]
        ensures answer { OfNode (fields self.now) node (FindsChild (fields self.now) label result) }
        ensures cost { ticks.new ≤ ticks.old + 1 }

        //= A step of `follow` to a child counts exactly one comparison.
        ensures found { OnSome result (ticks.new ≡ ticks.old + 1) }
    {
        if label == 0 {
            return None;
        }
        let Stored::AtBase(base) = self.stored_at_node(node) else {
            return None;
        };
        let slot = base ^ usize::from(label);
        if self.belongs(slot, node, ticks) {
            Some(slot)
        } else {
            None
        }
    }

    /// Returns the number of a node.
    pub fn number<C: Ledger>(&self, node: usize, ticks: &mut Ticks<C>) -> Option<i32>
        requires node_in { node < size_of (fields self.now) }
        requires node { (t : Tree) × Stands (size_of (fields self.now)) (cells self.now) node t }
        ensures answer { OfNode (fields self.now) node (λ t. result ≡ t.number) }
        ensures cost { ticks.new ≤ ticks.old + 1 }

        //= `number` never lowers the count of comparisons.
        ensures grows { ticks.old ≤ ticks.new }
    {
        match self.stored_at_node(node) {
            Stored::OwnNumber(value) => Some(value),
            Stored::AtBase(base) => {
                if self.belongs(base, node, ticks) {
                    Some(self.base(base))
                } else {
                    None
                }
            }
            Stored::Nothing => None,
        }
    }

    /// Returns the number of a node. The read isn't counted. A node that names a first label has none, so the slot that its number would
    /// have, which is mostly far away, is seldom read.
    #[inline(always)]
    pub fn number_of(&self, node: usize) -> Option<i32>
        requires node_in { node < size_of (fields self.now) }
        requires node { (t : Tree) × Stands (size_of (fields self.now)) (cells self.now) node t }

        //= `number_of` returns a node's number.
        ensures { OfNode (fields self.now) node (λ t. result ≡ t.number) }
    {
        if self.child(node) != 0 {
            return None;
        }
        match self.stored_at_node(node) {
            Stored::OwnNumber(value) => Some(value),
            Stored::AtBase(base) => {
                if self.is_owned_by(base, node) {
                    Some(self.base(base))
                } else {
                    None
                }
            }
            Stored::Nothing => None,
        }
    }

    /// Returns the number of a key, and the key's length. It allocates nothing.
    pub fn exact_match_search_counted<C: Ledger>(
        &self,
        key: &[u8],
        ticks: &mut Ticks<C>,
    ) -> Option<(i32, usize)>
        requires { IsWellFormed SLOTS (fields self.now) }

        //= `exact_match_search_counted` on a well-formed table returns `exact` of its tree.
        ensures answer { result ≡ exact (tree_of (fields self.now)) key.now }

        //= It counts at most one comparison of a check field more than the key has bytes, and a hit at least one for each byte. [with
        //  least]
        ensures cost { ticks.new ≤ ticks.old + length key.now + 1 }
        ensures least { OnSome result (ticks.old + length key.now ≤ ticks.new) }
    {
        let mut node = 0;
        let mut rest = key;
        // Four labels a turn: the turn's own instructions are a third of a step.
        while let [first, second, third, fourth, after @ ..] = rest {
            node = self.follow(node, *first, ticks)?;
            node = self.follow(node, *second, ticks)?;
            node = self.follow(node, *third, ticks)?;
            node = self.follow(node, *fourth, ticks)?;
            rest = after;
        }
        for label in rest {
            node = self.follow(node, *label, ticks)?;
        }
        let value = self.number(node, ticks)?;
        Some((value, key.len()))
    }
}
