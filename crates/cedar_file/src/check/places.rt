//! Tests of whether a table from a file has its slots, rings, blocks and lists as they must be.

ghost use Rattle.std.specs.Prelude.{◌*◌, ◌+◌, ◌-◌, ◌<◌, ◌≡◌, ◌≤ℤ◌, ◌≤◌, length};
ghost use Rattle.std.specs.Prelude.{List, OkIff, pos, ℕ};
ghost use Rattle.cedar_file.specs.Words.{BlankBlocks, BlankSlots, blocks_of, FreeBlock};
ghost use Rattle.cedar_file.specs.Words.{HasFree, IsPowerOfTwo, places_of, reject_at};
ghost use Rattle.cedar_file.specs.Words.{Rejects, Shaped, Sound};

use crate::check::lists::{check_lists, check_ranges, read_block};
use crate::check::rings::{check_ring, count_free, read_free, read_info, read_node};
use cedar_slots::{BLOCK_SIZE, BlockRecord, Corrupt, Places, Ticks, root_count};
use std::alloc::Allocator;
use std::sync::ledger::Ledger;

/// Tests whether the free slots of `block` are in one ring, as its record counts them.
fn check_block<A: Allocator, C: Ledger>(
    places: &Places<A>,
    block: usize,
    reads: &mut Ticks<C>,
) -> Result<(), Corrupt>
    requires shaped { Shaped (places_of places.now) }
    requires block_in { block < places.now.blocks.active }
    ensures answer { OkIff result ((xs : List ℕ) × FreeBlock (places_of places.now) block xs) tt }
    ensures cost { reads.new ≤ reads.old + 1026 }
{
    let count = count_free(&places.slots, block, reads)?;
    let record = read_block(&places.blocks, block, reads);
    if record.num != count as i16 + root_count(block) {
        return Err(Corrupt::blocks(block, "invalid free-slot count"));
    }
    if count == 0 {
        return Ok(());
    }
    if record.e_head < 0 || record.e_head as usize / BLOCK_SIZE != block {
        return Err(Corrupt::blocks(block, "free-list head is outside its block"));
    }
    let head = record.e_head as usize;
    if !read_free(&places.slots, head, reads) {
        return Err(Corrupt::free_list(head, "free-node membership mismatch"));
    }
    check_ring(&places.slots, block, head, count, reads)
}

/// Tests whether the free slots of each block in use are in one ring.
fn check_rings<A: Allocator, C: Ledger>(
    places: &Places<A>,
    reads: &mut Ticks<C>,
) -> Result<(), Corrupt>
    requires { Shaped (places_of places.now) }

    //= The test of rings is `Ok` exactly if each block in use has its ring, the test of lists exactly if each list links exactly the blocks
    //  that belong in it. [also check_lists]
    ensures answer { OkIff result (HasFree (places_of places.now)) tt }
    ensures cost { reads.new ≤ reads.old + 1026 * places.now.blocks.active }
{
    for block in 0..places.blocks.active {
        check_block(places, block, reads)?;
    }
    Ok(())
}

/// Returns the reject value for `free` free slots. The read is counted.
fn read_reject<A: Allocator, C: Ledger>(
    places: &Places<A>,
    free: usize,
    reads: &mut Ticks<C>,
) -> i16
    requires { free < length places.now.reject.items }
    ensures value { result ≡ reject_at places.now.reject.items free }
    ensures cost { reads.new ≡ reads.old + 1 }
{
    reads.tick();
    places.reject[free]
}

/// Tests whether each reject value is in range.
fn check_rejects<A: Allocator, C: Ledger>(
    places: &Places<A>,
    reads: &mut Ticks<C>,
) -> Result<(), Corrupt>
    requires { length places.now.reject.items ≡ 257 }
    ensures answer { OkIff result (Rejects places.now.reject.items) tt }
    ensures cost { reads.new ≤ reads.old + 257 }
{
    for free in 0..257 {
        let value = read_reject(places, free, reads);
        if value < 1 || value > free as i16 + 1 {
            return Err(Corrupt::reject(free, "value is outside its heuristic range"));
        }
    }
    Ok(())
}

/// Tests whether each slot that is not in use is blank.
fn check_idle_slots<A: Allocator, C: Ledger>(
    places: &Places<A>,
    reads: &mut Ticks<C>,
) -> Result<(), Corrupt>
    requires { Shaped (places_of places.now) }
    ensures answer { OkIff result (BlankSlots (places_of places.now)) tt }
    ensures cost { reads.new ≤ reads.old + 2 * (256 * (length places.now.blocks.records.items - places.now.blocks.active)) }
{
    for slot in BLOCK_SIZE * places.blocks.active..places.slots.nodes.len() {
        let node = read_node(&places.slots, slot, reads);
        let info = read_info(&places.slots, slot, reads);
        if node.base != 0 || node.check != 0 || info.sibling != 0 || info.child != 0 {
            return Err(Corrupt::nodes(slot, "inactive node is not zero initialized"));
        }
    }
    Ok(())
}

/// Tests whether each block that is not in use is blank.
fn check_idle_blocks<A: Allocator, C: Ledger>(
    places: &Places<A>,
    reads: &mut Ticks<C>,
) -> Result<(), Corrupt>
    requires { Shaped (places_of places.now) }
    ensures answer { OkIff result (BlankBlocks (blocks_of places.now.blocks)) tt }
    ensures cost { reads.new ≤ reads.old + (length places.now.blocks.records.items - places.now.blocks.active) }
{
    for block in places.blocks.active..places.blocks.records.len() {
        if read_block(&places.blocks, block, reads) != BlockRecord::BLANK {
            return Err(Corrupt::blocks(block, "inactive block is not initialized"));
        }
    }
    Ok(())
}

/// Tests whether slots, rings, blocks, lists and reject values are as they must be.
pub(crate) fn check_sound<A: Allocator, C: Ledger>(
    places: &Places<A>,
    reads: &mut Ticks<C>,
) -> Result<(), Corrupt>
    requires shaped { Shaped (places_of places.now) }
    requires doubled { IsPowerOfTwo (length places.now.blocks.records.items) }
    requires rejects { length places.now.reject.items ≡ 257 }
    requires tried { pos 1 ≤ℤ places.now.blocks.max_trial }

    //= `check_sound` tests untrusted slots, blocks and reject values of the right sizes and with `max_trial` above 0: `Ok` exactly if they
    //  are `Sound`.
    ensures answer { OkIff result (Sound (places_of places.now)) tt }

    //= It counts at most five reads of records for each slot and 512 more.
    ensures cost { reads.new ≤ reads.old + 5 * (256 * length places.now.blocks.records.items) + 512 }
{
    check_idle_slots(places, reads)?;
    check_idle_blocks(places, reads)?;
    check_rejects(places, reads)?;
    check_ranges(&places.blocks, reads)?;
    check_rings(places, reads)?;
    check_lists(&places.blocks, reads)
}
