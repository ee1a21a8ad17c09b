//! Tests of whether the free slots of a block are in one ring, for untrusted slots.
//!
//! A ring is walked from its head for as many steps as the block has free slots. Each step goes to a free slot of the
//! block that names the slot before it, so no slot is met twice unless the walk comes back to the head. If it doesn't
//! before its last step, it has met all free slots of the block, and its last step leads back. No marks are kept.

ghost use Rattle.std.specs.Prelude.{◌*◌, ◌+◌, ◌<◌, ◌^◌, ◌≡◌, ◌≤◌, length, OkIff, true};
ghost use Rattle.cedar_file.specs.Words.{free_count, free_here, HasBlankLabels, HasRing, info_at};
ghost use Rattle.cedar_file.specs.Words.{is_free, node_record_at, SlotLink, slots_of, StepsFrom};

use cedar_slots::{BLOCK_SIZE, Corrupt, NInfoRecord, NodeRecord, Slots, Ticks};
use std::alloc::Allocator;
use std::sync::ledger::Ledger;

/// Returns the node record of a slot. The read is counted.
pub(crate) fn read_node<A: Allocator, C: Ledger>(
    slots: &Slots<A>,
    slot: usize,
    reads: &mut Ticks<C>,
) -> NodeRecord
    requires { slot < length slots.now.nodes.items }
    ensures value { result ≡ node_record_at slots.now.nodes.items slot }
    ensures cost { reads.new ≡ reads.old + 1 }
{
    reads.tick();
    slots.nodes.read(slot)
}

/// Returns the labels of a slot. The read is counted.
pub(crate) fn read_info<A: Allocator, C: Ledger>(
    slots: &Slots<A>,
    slot: usize,
    reads: &mut Ticks<C>,
) -> NInfoRecord
    requires { slot < length slots.now.infos.items }
    ensures value { result ≡ info_at slots.now.infos.items slot }
    ensures cost { reads.new ≡ reads.old + 1 }
{
    reads.tick();
    slots.infos.read(slot)
}

/// Returns whether a slot is free.
pub(crate) fn read_free<A: Allocator, C: Ledger>(
    slots: &Slots<A>,
    slot: usize,
    reads: &mut Ticks<C>,
) -> bool
    requires { slot < length slots.now.nodes.items }
    ensures value { result ≡ is_free slots.now.nodes.items slot }
    ensures cost { reads.new ≡ reads.old + 1 }
{
    let node = read_node(slots, slot, reads);
    slot != 0 && node.check < 0
}

/// Returns how many slots of `block` are free, if none of them has a label.
pub(crate) fn count_free<A: Allocator, C: Ledger>(
    slots: &Slots<A>,
    block: usize,
    reads: &mut Ticks<C>,
) -> Result<usize, Corrupt>
    requires fits { length slots.now.nodes.items ≤ 2 ^ 30 }
    requires block_in { 256 * block + 256 ≤ length slots.now.nodes.items }
    requires infos { length slots.now.infos.items ≡ length slots.now.nodes.items }
    ensures answer { OkIff result (HasBlankLabels (slots_of slots.now) block) (free_count slots.now.nodes.items block) }
    ensures cost { reads.new ≤ reads.old + 512 }
{
    let mut count: usize = 0;
    for place in 0..BLOCK_SIZE {
        let slot = BLOCK_SIZE * block + place;
        if read_free(slots, slot, reads) {
            let info = read_info(slots, slot, reads);
            if info.sibling != 0 || info.child != 0 {
                return Err(Corrupt::n_infos(slot, "free node retains trie links"));
            }
            count += 1;
        }
    }
    Ok(count)
}

/// Returns the free slot after the free slot `slot` of `block`.
fn follow_ring<A: Allocator, C: Ledger>(
    slots: &Slots<A>,
    block: usize,
    slot: usize,
    reads: &mut Ticks<C>,
) -> Result<usize, Corrupt>
    requires fits { length slots.now.nodes.items ≤ 2 ^ 30 }
    requires block_in { 256 * block + 256 ≤ length slots.now.nodes.items }
    requires here { free_here slots.now.nodes.items block slot ≡ true }
    ensures answer { StepsFrom (SlotLink slots.now.nodes.items) (free_here slots.now.nodes.items block) slot result }
    ensures cost { reads.new ≤ reads.old + 2 }
{
    let next = read_node(slots, slot, reads).check.unsigned_abs() as usize;
    if next / BLOCK_SIZE != block {
        return Err(Corrupt::free_list(slot, "next link leaves block"));
    }
    let after = read_node(slots, next, reads);
    if next == 0 || after.check >= 0 {
        return Err(Corrupt::free_list(next, "free node has nonnegative link"));
    }
    if after.base != -(slot as i32) {
        return Err(Corrupt::free_list(slot, "links are not reciprocal"));
    }
    Ok(next)
}

/// Tests whether the `count` free slots of `block` are in a ring, of which `head` is one.
pub(crate) fn check_ring<A: Allocator, C: Ledger>(
    slots: &Slots<A>,
    block: usize,
    head: usize,
    count: usize,
    reads: &mut Ticks<C>,
) -> Result<(), Corrupt>
    requires fits { length slots.now.nodes.items ≤ 2 ^ 30 }
    requires block_in { 256 * block + 256 ≤ length slots.now.nodes.items }
    requires head_here { free_here slots.now.nodes.items block head ≡ true }
    requires all { count ≡ free_count slots.now.nodes.items block }
    ensures answer { OkIff result (HasRing (SlotLink slots.now.nodes.items) (free_here slots.now.nodes.items block) head) tt }
    ensures cost { reads.new ≤ reads.old + 2 * count }
{
    let mut slot = head;
    for turn in 0..count {
        if turn != 0 && slot == head {
            return Err(Corrupt::free_list(head, "cycle is shorter than block count"));
        }
        slot = follow_ring(slots, block, slot, reads)?;
    }
    Ok(())
}
