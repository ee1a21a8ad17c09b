//! Tests of whether a table from a file has its slots, rings, blocks and lists as they must be, and represents a tree.

ghost use Rattle.std.specs.Prelude.{◌*◌, ◌+◌, ◌≤ℤ◌, ◌≤◌, length, OkIff, pos};
ghost use Rattle.cedar_file.specs.Words.{capacity_of, fields, IsPowerOfTwo, IsSlotLimit};
ghost use Rattle.cedar_file.specs.Words.{IsTable, IsWellFormed};

use crate::check::places::check_sound;
use crate::check::tree::check_tree;
use cedar_slots::{Corrupt, Ticks};
use cedar_table::{Layout, Table};
use std::alloc::Allocator;
use std::sync::ledger::Ledger;

/// Tests whether untrusted slots, rings, blocks and lists are those of a table. The sizes and `max_trial` are tested
/// before, and what the held slots represent isn't tested. It allocates nothing, and reads at most five records a slot
/// and 512 more.
pub fn check_places<L: Layout, const SLOTS: usize, A: Allocator, C: Ledger>(
    table: &Table<L, SLOTS, A>,
    reads: &mut Ticks<C>,
) -> Result<(), Corrupt>
    requires doubled { IsPowerOfTwo (length (fields table.now).places.blocks.records) }
    requires limit { IsSlotLimit SLOTS }
    requires within { capacity_of (fields table.now) ≤ SLOTS }
    requires tried { pos 1 ≤ℤ (fields table.now).places.blocks.max_trial }

    //= `check_places`, on records of the right sizes: `Ok` exactly if the table `IsTable`, with at most five counted reads a slot and 512
    //  more. [with cost]
    ensures answer { OkIff result (IsTable SLOTS (fields table.now).places) tt }
    ensures cost { reads.new ≤ reads.old + 5 * capacity_of (fields table.now) + 512 }
{
    check_sound(table.places(), reads)
}

/// Tests whether untrusted records are those of a well-formed table. The sizes and `max_trial` are tested before. It
/// allocates nothing, and reads at most sixteen records a slot and 1024 more.
pub fn check_well_formed<L: Layout, const SLOTS: usize, A: Allocator, C: Ledger>(
    table: &Table<L, SLOTS, A>,
    reads: &mut Ticks<C>,
) -> Result<(), Corrupt>
    requires doubled { IsPowerOfTwo (length (fields table.now).places.blocks.records) }
    requires limit { IsSlotLimit SLOTS }
    requires within { capacity_of (fields table.now) ≤ SLOTS }
    requires tried { pos 1 ≤ℤ (fields table.now).places.blocks.max_trial }

    //= `check_well_formed` is `check_places` and then `check_tree`: on records of the right sizes `Ok` exactly if they are a well-formed
    //  table of the layout.
    ensures answer { OkIff result (IsWellFormed SLOTS (fields table.now)) tt }

    //= It counts at most sixteen reads a slot and 1024 more.
    ensures cost { reads.new ≤ reads.old + 16 * capacity_of (fields table.now) + 1024 }
{
    check_places(table, reads)?;
    check_tree(table, reads)
}
