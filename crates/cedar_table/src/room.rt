//! Room for blocks that are not in use yet.

ghost use Rattle.std.specs.Prelude.{◌*◌, ◌+◌, ◌<◌, ◌^◌, ◌≡◌, ◌≤◌, IfErr, OnErr, OnOk};
ghost use Rattle.cedar_table.specs.Words.{blocks_after, capacity_of, cells, fields, Grown};
ghost use Rattle.cedar_table.specs.Words.{IsWellFormed, LacksBlocks, MakesRoom, marks};
ghost use Rattle.cedar_table.specs.Words.{SameSettings, size_of, tree_of};

use crate::table::Table;
use cedar_model::Layout;
use cedar_slots::{BLOCK_SIZE, Shortage};
use std::alloc::Allocator;

/// Returns how many blocks a table of `blocks` has once `more` than the `active` ones are in use: it doubles until they have room.
fn doubled_for(blocks: usize, active: usize, more: usize) -> usize
    requires some { 0 < blocks }
    requires active { active ≤ blocks }
    requires fits { active + more ≤ 2 ^ 22 }
    ensures room { result ≡ blocks_after more active blocks }
    ensures no_less { blocks ≤ result }
{
    let mut room = blocks;
    while room < active + more {
        room *= 2;
    }
    room
}

impl<L: Layout, const SLOTS: usize, A: Allocator> Table<L, SLOTS, A> {
    /// Allocates the memory for `blocks` more blocks than are in use. The table doubles until they have room, as it would if they came
    /// into use one after another. If they have room, it allocates nothing.
    pub fn try_reserve(&mut self, blocks: usize) -> Result<(), Shortage>
        requires { IsWellFormed SLOTS (fields self.old) }

        //= `try_reserve` of n blocks leaves room for them in a table whose slots, tree, marks and settings are the same, and which has as
        //  many blocks as if n had come into use; a refused one leaves the table as it was, and says what it lacks. [with grown, cells,
        //  tree, marks, settings, capacity, spare, enough, refused, unchanged]
        ensures well_formed { IsWellFormed SLOTS (fields self.new) }
        ensures grown { Grown (fields self.old).places (fields self.new).places }
        ensures cells { cells self.new ≡ cells self.old }
        ensures tree { tree_of (fields self.new) ≡ tree_of (fields self.old) }
        ensures marks { marks (fields self.new) ≡ marks (fields self.old) }
        ensures settings { SameSettings (fields self.old) (fields self.new) }
        ensures capacity { OnOk result (MakesRoom blocks (fields self.old) (fields self.new)) }
        ensures spare { OnOk result (size_of (fields self.new) + 256 * blocks ≤ capacity_of (fields self.new)) }
        ensures enough { size_of (fields self.old) + 256 * blocks ≤ capacity_of (fields self.old) → fields self.new ≡ fields self.old }
        ensures refused { IfErr result (LacksBlocks (fields self.old) SLOTS blocks) }
        ensures unchanged { OnErr result (fields self.new ≡ fields self.old) }
    {
        if blocks <= self.spare_blocks() {
            return Ok(());
        }
        let active = self.places.blocks.active;
        if blocks > SLOTS / BLOCK_SIZE - active {
            return Err(Shortage::SlotLimit);
        }
        let room = doubled_for(self.places.blocks.records.len(), active, blocks);
        self.places.grow(room)?;
        Ok(())
    }
}
