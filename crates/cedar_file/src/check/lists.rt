//! Tests of whether untrusted blocks are in the lists that their counts name.
//!
//! A list is walked like a ring of free slots: from its head for as many steps as it must have blocks, each step to a
//! block that belongs there and names the one before it. The walk along the full list begins and ends at block 0.

ghost use Rattle.std.specs.Prelude.{◌*◌, ◌+◌, ◌<◌, ◌≡◌, ◌≢◌, ◌≤ℤ◌, ◌≤◌, length, OkIff, pos, true};
ghost use Rattle.cedar_file.specs.Words.{block_at, BlockLink, blocks_of, counts_at, CountsInRange};
ghost use Rattle.cedar_file.specs.Words.{Full, HasList, HasLists, HasRing, in_ring, Pruned};
ghost use Rattle.cedar_file.specs.Words.{ring_count, Sized, StepsFrom};

use cedar_slots::{BlockRecord, BlockType, Blocks, Corrupt, Counts, Ticks};
use std::alloc::Allocator;
use std::sync::ledger::Ledger;

/// Returns the record of a block. The read is counted.
pub(crate) fn read_block<A: Allocator, C: Ledger>(
    blocks: &Blocks<A>,
    block: usize,
    reads: &mut Ticks<C>,
) -> BlockRecord
    requires { block < length blocks.now.records.items }
    ensures value { result ≡ block_at blocks.now.records.items block }
    ensures cost { reads.new ≡ reads.old + 1 }
{
    reads.tick();
    blocks.records.read(block)
}

/// Returns the counts of a block. The read is counted.
fn read_counts<A: Allocator, C: Ledger>(
    blocks: &Blocks<A>,
    block: usize,
    reads: &mut Ticks<C>,
) -> Counts
    requires { block < length blocks.now.records.items }
    ensures value { result ≡ counts_at blocks.now.records.items block }
    ensures cost { reads.new ≡ reads.old + 1 }
{
    let record = read_block(blocks, block, reads);
    Counts {
        num: record.num,
        reject: record.reject,
        trial: record.trial,
        e_head: record.e_head,
    }
}

/// Tests whether what a search for places may read in `block` is in range.
fn check_range<A: Allocator, C: Ledger>(
    blocks: &Blocks<A>,
    block: usize,
    reads: &mut Ticks<C>,
) -> Result<(), Corrupt>
    requires { block < length blocks.now.records.items }
    ensures answer { OkIff result (CountsInRange (blocks_of blocks.now) block) tt }
    ensures cost { reads.new ≤ reads.old + 1 }
{
    let record = read_block(blocks, block, reads);
    if record.reject < 1 || record.reject > 257 {
        return Err(Corrupt::blocks(block, "invalid rejection threshold"));
    }
    if record.trial < 0 || record.trial > blocks.max_trial {
        return Err(Corrupt::blocks(block, "invalid trial count"));
    }
    if block == 0 && record.trial != 0 {
        return Err(Corrupt::blocks(0, "root block has trial metadata"));
    }
    Ok(())
}

/// Tests whether what a search for places may read is in range in all blocks in use.
pub(crate) fn check_ranges<A: Allocator, C: Ledger>(
    blocks: &Blocks<A>,
    reads: &mut Ticks<C>,
) -> Result<(), Corrupt>
    requires sized { Sized (blocks_of blocks.now) }
    requires tried { pos 1 ≤ℤ blocks.now.max_trial }
    ensures answer { OkIff result (Pruned (blocks_of blocks.now)) tt }
    ensures cost { reads.new ≤ reads.old + blocks.now.active }
{
    for block in 0..blocks.active {
        check_range(blocks, block, reads)?;
    }
    Ok(())
}

/// Returns whether `block` is one of those that a list's ring must have.
fn belongs_in<A: Allocator, C: Ledger>(
    blocks: &Blocks<A>,
    list: BlockType,
    block: usize,
    reads: &mut Ticks<C>,
) -> bool
    requires { Sized (blocks_of blocks.now) }
    ensures value { result ≡ in_ring (blocks_of blocks.now) list block }
    ensures cost { reads.new ≤ reads.old + 1 }
{
    if block >= blocks.active {
        return false;
    }
    if block == 0 {
        return list == BlockType::Full;
    }
    let counts = read_counts(blocks, block, reads);
    blocks.list_of(counts) == list
}

/// Returns how many blocks a list's ring must have.
fn count_ring<A: Allocator, C: Ledger>(
    blocks: &Blocks<A>,
    list: BlockType,
    reads: &mut Ticks<C>,
) -> usize
    requires { Sized (blocks_of blocks.now) }
    ensures value { result ≡ ring_count (blocks_of blocks.now) list }
    ensures cost { reads.new ≤ reads.old + blocks.now.active }
{
    let mut count: usize = 0;
    for block in 0..blocks.active {
        if belongs_in(blocks, list, block, reads) {
            count += 1;
        }
    }
    count
}

/// Returns the block after `block` in the ring of a list.
fn follow_list<A: Allocator, C: Ledger>(
    blocks: &Blocks<A>,
    list: BlockType,
    block: usize,
    reads: &mut Ticks<C>,
) -> Result<usize, Corrupt>
    requires sized { Sized (blocks_of blocks.now) }
    requires here { in_ring (blocks_of blocks.now) list block ≡ true }
    ensures answer { StepsFrom (BlockLink blocks.now.records.items) (in_ring (blocks_of blocks.now) list) block result }
    ensures cost { reads.new ≤ reads.old + 3 }
{
    let next = read_block(blocks, block, reads).next;
    if next < 0 || next as usize >= blocks.active {
        return Err(Corrupt::block_lists(block, "next block is invalid"));
    }
    let next = next as usize;
    if read_block(blocks, next, reads).prev != block as i32 {
        return Err(Corrupt::block_lists(block, "links are not reciprocal"));
    }
    if !belongs_in(blocks, list, next, reads) {
        return Err(Corrupt::block_lists(next, "block is in the wrong category"));
    }
    Ok(next)
}

/// Tests whether the `count` blocks that a list's ring must have are in a ring, of which `first` is one.
fn check_cycle<A: Allocator, C: Ledger>(
    blocks: &Blocks<A>,
    list: BlockType,
    first: usize,
    count: usize,
    reads: &mut Ticks<C>,
) -> Result<(), Corrupt>
    requires sized { Sized (blocks_of blocks.now) }
    requires first_here { in_ring (blocks_of blocks.now) list first ≡ true }
    requires all { count ≡ ring_count (blocks_of blocks.now) list }
    ensures answer { OkIff result (HasRing (BlockLink blocks.now.records.items) (in_ring (blocks_of blocks.now) list) first) tt }
    ensures cost { reads.new ≤ reads.old + 3 * count }
{
    let mut block = first;
    for turn in 0..count {
        if turn != 0 && block == first {
            return Err(Corrupt::block_lists(first, "block is in the wrong category"));
        }
        block = follow_list(blocks, list, block, reads)?;
    }
    Ok(())
}

/// Tests whether the full blocks are in the full list, whose ring block 0 closes.
fn check_full_list<A: Allocator, C: Ledger>(
    blocks: &Blocks<A>,
    reads: &mut Ticks<C>,
) -> Result<(), Corrupt>
    requires { Sized (blocks_of blocks.now) }
    ensures answer { OkIff result (HasList (blocks_of blocks.now) Full) tt }
    ensures cost { reads.new ≤ reads.old + 4 * blocks.now.active + 1 }
{
    if read_block(blocks, 0, reads).next != blocks.full_head {
        return Err(Corrupt::block_lists(0, "full head is not the successor of block zero"));
    }
    let count = count_ring(blocks, BlockType::Full, reads);
    check_cycle(blocks, BlockType::Full, 0, count, reads)
}

/// Tests whether the blocks that the closed or the open list must have are in it.
fn check_list<A: Allocator, C: Ledger>(
    blocks: &Blocks<A>,
    list: BlockType,
    reads: &mut Ticks<C>,
) -> Result<(), Corrupt>
    requires sized { Sized (blocks_of blocks.now) }
    requires other { list ≢ Full }
    ensures answer { OkIff result (HasList (blocks_of blocks.now) list) tt }
    ensures cost { reads.new ≤ reads.old + 4 * blocks.now.active + 1 }
{
    let count = count_ring(blocks, list, reads);
    let head = blocks.head(list);
    if count == 0 {
        if head != 0 {
            return Err(Corrupt::block_lists(0, "head is outside active blocks"));
        }
        return Ok(());
    }
    if head < 0 || !belongs_in(blocks, list, head as usize, reads) {
        return Err(Corrupt::block_lists(0, "head is outside active blocks"));
    }
    check_cycle(blocks, list, head as usize, count, reads)
}

/// Tests whether each block in use but block 0 is in the list that its counts name, and in no other.
pub(crate) fn check_lists<A: Allocator, C: Ledger>(
    blocks: &Blocks<A>,
    reads: &mut Ticks<C>,
) -> Result<(), Corrupt>
    requires { Sized (blocks_of blocks.now) }
    ensures answer { OkIff result (HasLists (blocks_of blocks.now)) tt }
    ensures cost { reads.new ≤ reads.old + 12 * blocks.now.active + 3 }
{
    check_list(blocks, BlockType::Open, reads)?;
    check_list(blocks, BlockType::Closed, reads)?;
    check_full_list(blocks, reads)
}
