//! The blocks, and the lists that they are in.

ghost use Rattle.std.specs.Prelude.{◌+ℤ◌, ◌+◌, ◌<ℤ◌, ◌<◌, ◌^◌, ◌≡◌, ◌≤ℤ◌, ◌≤◌, IsTrue, length};
ghost use Rattle.std.specs.Prelude.{List, pos, unsigned_abs, ℕ, ℤ};

use crate::padded::Padded;
use crate::records::BlockRecord;
use std::alloc::Allocator;

/// What a block counts, and where its free slots begin.
#[derive(Clone, Copy)]
pub struct Counts {
    /// How many slots are free; in block 0 the root counts too.
    pub num: i16,
    /// A set of this many labels finds no place in the block.
    pub reject: i16,
    /// How often a search for a place has failed in the block.
    pub trial: i32,
    /// The head of the empty slots, as the original calls free ones: a free slot of the block, if it has one.
    pub e_head: i32,
}

impl Counts {
    ghost use Rattle.cedar_slots.specs.Words.{fresh_counts, int_max, kind_of};

    /// Returns the counts of the block of this number while all of its slots are free.
    fn fresh(block: usize) -> Counts
        requires { block < 2 ^ 22 }
        ensures { result ≡ fresh_counts block }
    {
        Counts {
            num: 256,
            reject: 257,
            trial: 0,
            e_head: (256 * block) as i32,
        }
    }

    /// Returns the counts after `slot` was taken, which came before `next` in its ring.
    pub(crate) fn less(self, slot: usize, next: usize) -> Counts
        requires some { pos 1 ≤ℤ self.num }
        requires slot_fits { slot < 2 ^ 31 }
        requires next_fits { next < 2 ^ 31 }
        ensures num { (n : ℕ) → self.num ≡ pos (n + 1) → result.num ≡ pos n }
        ensures head_taken { self.e_head ≡ pos slot → result.e_head ≡ pos next }
        ensures head_kept { (self.e_head ≡ pos slot → ⊥) → result.e_head ≡ self.e_head }
        ensures trial { result.trial ≡ self.trial }
        ensures reject { result.reject ≡ self.reject }
    {
        let e_head = if self.e_head == slot as i32 {
            next as i32
        } else {
            self.e_head
        };
        Counts {
            num: self.num - 1,
            e_head,
            ..self
        }
    }

    /// Returns the counts of a block whose free slots begin with `slot`.
    pub(crate) fn beginning_at(self, slot: usize) -> Counts
        requires { slot < 2 ^ 31 }
        ensures num { result.num ≡ self.num }
        ensures reject { result.reject ≡ self.reject }
        ensures trial { result.trial ≡ self.trial }
        ensures e_head { result.e_head ≡ pos slot }
    {
        Counts {
            e_head: slot as i32,
            ..self
        }
    }

    /// Returns the counts after `wanted` labels have found no place in the block.
    pub(crate) fn after_failure(self, wanted: i16, max_trial: i32) -> Counts
        requires { self.trial <ℤ max_trial }
        ensures num { result.num ≡ self.num }
        ensures reject { result.reject ≡ wanted }
        ensures trial { result.trial ≡ self.trial +ℤ pos 1 }
        ensures e_head { result.e_head ≡ self.e_head }
    {
        Counts {
            reject: wanted,
            trial: self.trial + 1,
            ..self
        }
    }

    /// Returns the number of the slot at which the free ones begin, if there is one.
    pub(crate) fn head(self) -> usize
        requires { pos 0 ≤ℤ self.e_head }
        ensures { result ≡ unsigned_abs self.e_head }
    {
        self.e_head as usize
    }

    /// Returns the counts after a slot was given back to the block's other free slots. `floor` is what no
    /// block with as many free slots rejects.
    pub(crate) fn more(self, floor: i16) -> Counts
        requires { self.num <ℤ pos 256 }
        ensures num { (n : ℕ) → self.num ≡ pos n → result.num ≡ pos (n + 1) }
        ensures e_head { result.e_head ≡ self.e_head }
        ensures trial { result.trial ≡ pos 0 }
        ensures reject { result.reject ≡ int_max self.reject floor }
    {
        let trial = 0;
        Counts {
            num: self.num + 1,
            reject: self.reject.max(floor),
            trial,
            ..self
        }
    }

    /// Returns whether these counts name the list that the block's counts before named, as far as that shows without a list: both
    /// leave the block several free slots, and it is closed by its trials now exactly if it was before.
    fn keeps_list(self, before: Counts, max_trial: i32) -> bool
        ensures { IsTrue result → kind_of max_trial self ≡ kind_of max_trial before }
    {
        if before.num < 2 || self.num < 2 {
            return false;
        }
        if self.trial == max_trial {
            before.trial == max_trial
        } else {
            before.trial != max_trial
        }
    }

    /// Returns the counts of a block without free slots after `slot` was given back.
    pub(crate) fn one(self, slot: usize, floor: i16) -> Counts
        requires num { self.num <ℤ pos 256 }
        requires fits { slot < 2 ^ 31 }
        ensures num { (n : ℕ) → self.num ≡ pos n → result.num ≡ pos (n + 1) }
        ensures e_head { result.e_head ≡ pos slot }
        ensures trial { result.trial ≡ self.trial }
        ensures reject { result.reject ≡ int_max self.reject floor }
    {
        Counts {
            num: self.num + 1,
            reject: self.reject.max(floor),
            e_head: slot as i32,
            ..self
        }
    }
}

/// The list that a block is in.
#[derive(Clone, Copy, PartialEq, Eq)]
pub enum BlockType {
    Open,
    Closed,
    Full,
}

/// All blocks, including those that are not in use, and the heads of their three lists.
#[derive(Drop)]
pub struct Blocks<A: Allocator> {
    pub records: Padded<BlockRecord, A>,
    pub full_head: i32,
    pub closed_head: i32,
    pub open_head: i32,
    /// How many blocks are in use, including block 0.
    pub active: usize,
    pub max_trial: i32,
    pub ghost ready: { active ≤ records.used },
    pub ghost within: { records.used ≤ length records.items },
}

impl<A: Allocator> Blocks<A> {
    ghost use Rattle.cedar_slots.specs.Words.{block_at, blocks_of, BlockType, counts_at};
    ghost use Rattle.cedar_slots.specs.Words.{fresh_counts, HasLists, head_of, KeepsCounts};
    ghost use Rattle.cedar_slots.specs.Words.{KeepsLinks, kind_of, linked_blocks, ListRings};
    ghost use Rattle.cedar_slots.specs.Words.{next_at, occurs, Popped, prev_at, PutsFirst};
    ghost use Rattle.cedar_slots.specs.Words.{SameFrom, SetsCounts, Sized};

    /// Returns the first block of a list, or 0.
    pub fn head(&self, list: BlockType) -> i32
        //= `head` returns the head of a list.
        ensures { result ≡ head_of (blocks_of self.now) list }
    {
        match list {
            BlockType::Open => self.open_head,
            BlockType::Closed => self.closed_head,
            BlockType::Full => self.full_head,
        }
    }

    /// Returns the number of a list's first block, or 0.
    pub(crate) fn first(&self, list: BlockType) -> usize
        ensures { result ≡ unsigned_abs (head_of (blocks_of self.now) list) }
    {
        self.head(list).unsigned_abs() as usize
    }

    /// Returns the block after `block` in its list.
    pub(crate) fn next(&self, block: usize) -> usize
        requires { block < self.now.records.used }
        ensures { result ≡ unsigned_abs (next_at self.now.records.items block) }
    {
        self.records.at(block).next.unsigned_abs() as usize
    }

    /// Returns the block before `block` in its list.
    pub(crate) fn previous(&self, block: usize) -> usize
        requires { block < self.now.records.used }
        ensures { result ≡ unsigned_abs (prev_at self.now.records.items block) }
    {
        self.records.at(block).prev.unsigned_abs() as usize
    }

    /// Makes `to` the block after `from`.
    fn link(&mut self, from: usize, to: usize)
        requires from_in { from < self.old.records.used }
        requires to_in { to < self.old.records.used }
        requires from_fits { from < 2 ^ 31 }
        requires to_fits { to < 2 ^ 31 }
        ensures records { self.new.records.items ≡ linked_blocks self.old.records.items from to }
        ensures heads { (list : BlockType) → head_of (blocks_of self.new) list ≡ head_of (blocks_of self.old) list }
        ensures counts { KeepsCounts self.old.records.items self.new.records.items }
        ensures others { (b : ℕ) → (b ≡ from → ⊥) → (b ≡ to → ⊥) → block_at self.new.records.items b ≡ block_at self.old.records.items b }
        ensures active { self.new.active ≡ self.old.active }
        ensures max_trial { self.new.max_trial ≡ self.old.max_trial }
        ensures len { length self.new.records.items ≡ length self.old.records.items }
        ensures used { self.new.records.used ≡ self.old.records.used }
    {
        let record = self.records.at(from);
        let next = to as i32;
        self.records.set(from, BlockRecord { next, ..record });
        let record = self.records.at(to);
        let prev = from as i32;
        self.records.set(to, BlockRecord { prev, ..record });
    }

    /// Returns the list that a block's counts name.
    pub fn list_of(&self, counts: Counts) -> BlockType
        //= `list_of` returns the list that these counts name.
        ensures { result ≡ kind_of self.now.max_trial counts }
    {
        let max_trial = self.max_trial;
        if counts.num == 0 {
            BlockType::Full
        } else if counts.num == 1 || counts.trial == max_trial {
            BlockType::Closed
        } else {
            BlockType::Open
        }
    }

    fn set_head(&mut self, list: BlockType, block: usize)
        requires { block < 2 ^ 31 }
        ensures made { head_of (blocks_of self.new) list ≡ pos block }
        ensures others { (other : BlockType) → (other ≡ list → ⊥) → head_of (blocks_of self.new) other ≡ head_of (blocks_of self.old) other }
        ensures records { self.new.records ≡ self.old.records }
        ensures active { self.new.active ≡ self.old.active }
        ensures max_trial { self.new.max_trial ≡ self.old.max_trial }
    {
        match list {
            BlockType::Open => self.open_head = block as i32,
            BlockType::Closed => self.closed_head = block as i32,
            BlockType::Full => self.full_head = block as i32,
        }
    }

    /// Takes `block` out of a list.
    fn pop_block(&mut self, block: usize, list: BlockType)
        requires block_in { block < self.old.active }
        requires previous_in { unsigned_abs (prev_at self.old.records.items block) < self.old.active }
        requires next_in { unsigned_abs (next_at self.old.records.items block) < self.old.active }
        requires active_in { self.old.active ≤ length self.old.records.items }
        requires fits { length self.old.records.items ≤ 2 ^ 30 }
        ensures idle { SameFrom self.old.active self.old.records.items self.new.records.items }
        ensures popped { (lists : BlockType → List ℕ) → ListRings (blocks_of self.old) lists → 0 < occurs block (lists list) → Popped (blocks_of self.new) lists list block }
        ensures counts { KeepsCounts self.old.records.items self.new.records.items }
        ensures len { length self.new.records.items ≡ length self.old.records.items }
        ensures used { self.new.records.used ≡ self.old.records.used }
        ensures active { self.new.active ≡ self.old.active }
        ensures max_trial { self.new.max_trial ≡ self.old.max_trial }
    {
        let previous = self.previous(block);
        let next = self.next(block);
        if next == block {
            self.set_head(list, 0);
        } else {
            let head = self.head(list);
            self.link(previous, next);
            if head == block as i32 {
                self.set_head(list, next);
            }
        }
    }

    /// Puts `block` into a list, as its head.
    fn push_block(&mut self, block: usize, list: BlockType)
        requires block_in { block < self.old.active }
        requires head_in { unsigned_abs (head_of (blocks_of self.old) list) < self.old.active }
        requires last_in { unsigned_abs (prev_at self.old.records.items (unsigned_abs (head_of (blocks_of self.old) list))) < self.old.active }
        requires active_in { self.old.active ≤ length self.old.records.items }
        requires fits { length self.old.records.items ≤ 2 ^ 30 }
        ensures idle { SameFrom self.old.active self.old.records.items self.new.records.items }
        ensures pushed { PutsFirst (blocks_of self.old) (blocks_of self.new) list block }
        ensures counts { KeepsCounts self.old.records.items self.new.records.items }
        ensures len { length self.new.records.items ≡ length self.old.records.items }
        ensures used { self.new.records.used ≡ self.old.records.used }
        ensures active { self.new.active ≡ self.old.active }
        ensures max_trial { self.new.max_trial ≡ self.old.max_trial }
    {
        let head = self.first(list);
        self.set_head(list, block);
        if head == 0 && list != BlockType::Full {
            self.link(block, block);
        } else {
            let last = self.previous(head);
            self.link(last, block);
            self.link(block, head);
        }
    }

    fn write_counts(&mut self, block: usize, counts: Counts)
        requires { block < self.old.records.used }
        ensures made { counts_at self.new.records.items block ≡ counts }
        ensures others { (b : ℕ) → (b ≡ block → ⊥) → block_at self.new.records.items b ≡ block_at self.old.records.items b }
        ensures links { KeepsLinks self.old.records.items self.new.records.items }
        ensures heads { (list : BlockType) → head_of (blocks_of self.new) list ≡ head_of (blocks_of self.old) list }
        ensures len { length self.new.records.items ≡ length self.old.records.items }
        ensures used { self.new.records.used ≡ self.old.records.used }
        ensures active { self.new.active ≡ self.old.active }
        ensures max_trial { self.new.max_trial ≡ self.old.max_trial }
    {
        let record = self.records.at(block);
        let changed = BlockRecord {
            num: counts.num,
            reject: counts.reject,
            trial: counts.trial,
            e_head: counts.e_head,
            ..record
        };
        self.records.set(block, changed);
    }

    /// Returns the counts of `block`.
    pub fn counts(&self, block: usize) -> Counts
        requires { block < self.now.records.used }

        //= `counts` returns what a block's record counts.
        ensures { result ≡ counts_at self.now.records.items block }
    {
        let record = self.records.at(block);
        Counts {
            num: record.num,
            reject: record.reject,
            trial: record.trial,
            e_head: record.e_head,
        }
    }

    /// Sets the counts of `block`, and moves it to the list that they now name.
    fn set_counts_and_list(&mut self, block: usize, counts: Counts)
        requires lists { HasLists (blocks_of self.old) }
        requires sized { Sized (blocks_of self.old) }
        requires block_in { block < self.old.active }
        ensures { SetsCounts self.old self.new block counts }
    {
        let from = self.list_of(self.counts(block));
        let to = self.list_of(counts);
        self.write_counts(block, counts);
        if block != 0 && from != to {
            self.pop_block(block, from);
            self.push_block(block, to);
        }
    }

    /// `set_counts_and_list` with counts that are passed one by one: otherwise each caller stores them in memory, though it mostly
    /// needs no list.
    fn set_each_count(&mut self, block: usize, num: i16, reject: i16, trial: i32, e_head: i32)
        requires lists { HasLists (blocks_of self.old) }
        requires sized { Sized (blocks_of self.old) }
        requires block_in { block < self.old.active }
        ensures { SetsCounts self.old self.new block (record { num = num; reject = reject; trial = trial; e_head = e_head }) }
    {
        let counts = Counts {
            num,
            reject,
            trial,
            e_head,
        };
        self.set_counts_and_list(block, counts);
    }

    /// Sets the counts of `block`, whatever they were.
    #[inline(always)]
    pub(crate) fn set_counts(&mut self, block: usize, counts: Counts)
        requires lists { HasLists (blocks_of self.old) }
        requires sized { Sized (blocks_of self.old) }
        requires block_in { block < self.old.active }

        //= `set_counts` sets the counts of a block, and the lists are then right for it; no other block's counts change.
        //  [by lists, made, others]
        ensures { SetsCounts self.old self.new block counts }
    {
        let old = self.counts(block);
        self.change_counts(block, old, counts);
    }

    /// `set_counts` where the counts were `old`. Mostly the block stays in the list that it is in, which shows without a list.
    // Otherwise the counts go through memory in two widths, and each call waits for them.
    #[inline(always)]
    pub(crate) fn change_counts(&mut self, block: usize, old: Counts, counts: Counts)
        requires was { old ≡ counts_at self.old.records.items block }
        requires lists { HasLists (blocks_of self.old) }
        requires sized { Sized (blocks_of self.old) }
        requires block_in { block < self.old.active }
        ensures { SetsCounts self.old self.new block counts }
    {
        if counts.keeps_list(old, self.max_trial) {
            self.write_counts(block, counts);
        } else {
            self.set_each_count(
                block,
                counts.num,
                counts.reject,
                counts.trial,
                counts.e_head,
            );
        }
    }

    /// `change_counts` once the block has one more free slot and its trials begin anew. An open block stays open, which shows without a
    /// list.
    #[inline(always)]
    pub(crate) fn add_counts(&mut self, block: usize, old: Counts, counts: Counts)
        requires was { old ≡ counts_at self.old.records.items block }
        requires lists { HasLists (blocks_of self.old) }
        requires sized { Sized (blocks_of self.old) }
        requires block_in { block < self.old.active }
        requires tried { pos 1 ≤ℤ self.old.max_trial }
        requires more { counts.num ≡ old.num +ℤ pos 1 }
        requires anew { counts.trial ≡ pos 0 }
        ensures { SetsCounts self.old self.new block counts }
    {
        let limit = self.max_trial;
        if counts.num < 3 || old.trial == limit {
            self.set_each_count(
                block,
                counts.num,
                counts.reject,
                counts.trial,
                counts.e_head,
            );
        } else {
            self.write_counts(block, counts);
        }
    }

    /// Puts the first block that is not in use into use, with all of its slots free, as the head of
    /// the open list.
    pub(crate) fn activate(&mut self)
        requires lists { HasLists (blocks_of self.old) }
        requires sized { Sized (blocks_of self.old) }
        requires room { self.old.active < self.old.records.used }
        requires tried { pos 1 ≤ℤ self.old.max_trial }

        //= `activate` puts the first idle block into use with fresh counts, and the lists stay right. [with active, made, others]
        ensures lists { HasLists (blocks_of self.new) }
        ensures active { self.new.active ≡ self.old.active + 1 }
        ensures made { counts_at self.new.records.items self.old.active ≡ fresh_counts self.old.active }
        ensures others { (b : ℕ) → (b ≡ self.old.active → ⊥) → counts_at self.new.records.items b ≡ counts_at self.old.records.items b }
        ensures idle { SameFrom (self.old.active + 1) self.old.records.items self.new.records.items }
        ensures len { length self.new.records.items ≡ length self.old.records.items }
        ensures used { self.new.records.used ≡ self.old.records.used }
        ensures max_trial { self.new.max_trial ≡ self.old.max_trial }
    {
        let block = self.active;
        self.active += 1;
        self.write_counts(block, Counts::fresh(block));
        self.push_block(block, BlockType::Open);
    }
}
