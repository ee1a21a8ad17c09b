//! The chain of a node's labels: what a slot says about the next one, and a slot put into the chain.

ghost use Rattle.std.specs.Prelude.{◌<◌, ◌≢◌, MatchOption};
ghost use Rattle.cedar_table.specs.Words.{cells, fields, Held, IsTable, LinkedBehind, LinkedChild};
ghost use Rattle.cedar_table.specs.Words.{LinksIn, SameFrame, SetsChild, SetsSibling, size_of};

use crate::table::Table;
use cedar_model::Layout;
use cedar_slots::NInfoRecord;
use std::alloc::Allocator;

impl<L: Layout, const SLOTS: usize, A: Allocator> Table<L, SLOTS, A> {
    /// Makes `label` the one after that of the held slot `slot`.
    pub fn set_sibling(&mut self, slot: usize, label: u8)
        requires sound { IsTable SLOTS (fields self.old).places }
        requires slot_in { slot < size_of (fields self.old) }
        requires slot_held { Held (cells self.old) slot }
        ensures sound { IsTable SLOTS (fields self.new).places }

        //= `set_sibling` sets the label after a slot's, and changes nothing else.
        ensures set { SetsSibling (cells self.old) (cells self.new) slot label }
        ensures frame { SameFrame (fields self.old) (fields self.new) }
    {
        let info = NInfoRecord {
            sibling: label,
            child: self.child(slot),
        };
        self.write_info(slot, info);
    }

    /// Makes `label` the one that begins the chain of the held slot `slot`.
    pub fn set_child(&mut self, slot: usize, label: u8)
        requires sound { IsTable SLOTS (fields self.old).places }
        requires slot_in { slot < size_of (fields self.old) }
        requires slot_held { Held (cells self.old) slot }
        ensures sound { IsTable SLOTS (fields self.new).places }

        //= `set_child` sets the label that begins a slot's chain, and changes nothing else.
        ensures set { SetsChild (cells self.old) (cells self.new) slot label }
        ensures frame { SameFrame (fields self.old) (fields self.new) }
    {
        let info = NInfoRecord {
            sibling: self.sibling(slot),
            child: label,
        };
        self.write_info(slot, info);
    }

    /// Puts `slot`, which has `label`, into the chain of `node`: after the slot `before`, or first of all.
    pub fn link(&mut self, before: Option<usize>, node: usize, slot: usize, label: u8)
        requires sound { IsTable SLOTS (fields self.old).places }
        requires before { MatchOption before (Unit {0}) (λ b. (b < size_of (fields self.old)) × Held (cells self.old) b × (b ≢ slot)) }
        requires node_in { node < size_of (fields self.old) }
        requires slot_in { slot < size_of (fields self.old) }
        requires node_held { Held (cells self.old) node }
        requires slot_held { Held (cells self.old) slot }
        requires apart { node ≢ slot }
        ensures sound { IsTable SLOTS (fields self.new).places }

        //= `link` puts a slot into a node's chain, behind another one or first of all, and changes nothing else.
        ensures linked { LinksIn (cells self.old) (cells self.new) before node slot label }
        ensures frame { SameFrame (fields self.old) (fields self.new) }
    {
        match before {
            Some(before) => link_behind(self, before, slot, label),
            None => link_first(self, node, slot, label),
        }
    }
}

/// Puts `slot`, which has `label`, into its chain after the slot `before`.
fn link_behind<L: Layout, const SLOTS: usize, A: Allocator>(
    table: &mut Table<L, SLOTS, A>,
    before: usize,
    slot: usize,
    label: u8,
)
    requires sound { IsTable SLOTS (fields table.old).places }
    requires before_in { before < size_of (fields table.old) }
    requires slot_in { slot < size_of (fields table.old) }
    requires before_held { Held (cells table.old) before }
    requires slot_held { Held (cells table.old) slot }
    requires apart { before ≢ slot }
    ensures sound { IsTable SLOTS (fields table.new).places }
    ensures linked { LinkedBehind (cells table.old) (cells table.new) before slot label }
    ensures frame { SameFrame (fields table.old) (fields table.new) }
{
    let next = table.sibling(before);
    table.set_sibling(slot, next);
    table.set_sibling(before, label);
}

/// Puts `slot`, which has `label`, first into the chain of `node`.
fn link_first<L: Layout, const SLOTS: usize, A: Allocator>(
    table: &mut Table<L, SLOTS, A>,
    node: usize,
    slot: usize,
    label: u8,
)
    requires sound { IsTable SLOTS (fields table.old).places }
    requires node_in { node < size_of (fields table.old) }
    requires slot_in { slot < size_of (fields table.old) }
    requires node_held { Held (cells table.old) node }
    requires slot_held { Held (cells table.old) slot }
    requires apart { node ≢ slot }
    ensures sound { IsTable SLOTS (fields table.new).places }
    ensures linked { LinkedChild (cells table.old) (cells table.new) node slot label }
    ensures frame { SameFrame (fields table.old) (fields table.new) }
{
    let next = table.child(node);
    table.set_sibling(slot, next);
    table.set_child(node, label);
}
