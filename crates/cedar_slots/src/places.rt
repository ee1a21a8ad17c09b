//! The slots and their blocks together: which slots are free, and where free ones are found.

ghost use Rattle.std.specs.Prelude.{if◌then◌else◌, ◌*◌, ◌+◌, ◌/◌, ◌<◌, ◌==◌, ◌^◌, ◌≡◌, ◌≤ℤ◌, ◌≤◌};
ghost use Rattle.std.specs.Prelude.{◌⊎◌, count_by, false, IfErr, IfNone, IfOk, IfSome, int_lt};
ghost use Rattle.std.specs.Prelude.{length, not, OnErr, OnOk, pos, slice_set, true, ℕ};
ghost use Rattle.cedar_slots.specs.Places.{reject_at};

use crate::blocks::{BlockType, Blocks};
use crate::padded::Padded;
use crate::records::{BlockRecord, NInfoRecord, NodeRecord};
use crate::shortage::Shortage;
use crate::slots::{BLOCK_SIZE, Slots};
use std::alloc::{AllocError, Allocator};

#[derive(Drop)]
pub struct Places<A: Allocator> {
    pub slots: Slots<A>,
    pub blocks: Blocks<A>,
    /// For each number of free slots, the number of labels from which on a set finds no place in a block with as many.
    pub reject: Vec<i16, A>,
    pub ghost nodes_ready: { slots.nodes.used ≡ 256 * blocks.records.used },
    pub ghost infos_ready: { slots.infos.used ≡ 256 * blocks.records.used },
}

/// Returns how many slots of `block` are counted as free and are in no ring: the root alone.
pub fn root_count(block: usize) -> i16
    //= `root_count` is 1 of block 0, and 0 of any other block.
    ensures { result ≡ pos (if block == 0 then 1 else 0) }
{
    if block == 0 { 1 } else { 0 }
}

/// Returns the reject values of a new table: a block with n free slots can't take n + 1 labels.
fn first_rejects<A: Allocator>(alloc: A) -> Result<Vec<i16, A>, AllocError>
    ensures len { IfOk result (λ rejects. length rejects.items ≡ 257) }
    ensures values { IfOk result (λ rejects. (i : ℕ) → i ≤ 256 → reject_at rejects.items i ≡ pos (i + 1)) }
{
    let mut rejects = vec![in alloc; 0i16; 257]?;
    for free in 0..257 {
        rejects[free] = (free + 1) as i16;
    }
    Ok(rejects)
}

impl<A: Allocator> Places<A> {
    ghost use Rattle.cedar_slots.specs.Words.{AddsBlock, AddsNeededBlock, blocks_of, counts_at};
    ghost use Rattle.cedar_slots.specs.Words.{FreesSlot, Grown, is_free, IsBase, IsFreePlace};
    ghost use Rattle.cedar_slots.specs.Words.{IsNewPlaces, IsOpenBlock, IsPowerOfTwo, IsSlotLimit};
    ghost use Rattle.cedar_slots.specs.Words.{IsStart, KeepsOrAdds, MayRefuse, node_record_at};
    ghost use Rattle.cedar_slots.specs.Words.{NoneFree, places_of, range_with_len, reject_at};
    ghost use Rattle.cedar_slots.specs.Words.{Rejects, room_for_one, SameSlots, Shaped, slots_of};
    ghost use Rattle.cedar_slots.specs.Words.{Sound, TakesSlot, TriesAtMost, Within};

    /// One block, in which the root alone is held.
    pub fn new(alloc: A, root: NodeRecord, max_trial: i32) -> Result<Places<A>, AllocError>
    where
        A: Copy,
        requires { pos 1 ≤ℤ max_trial }

        //= A new table is `Sound`.
        ensures sound { IfOk result (λ places. Sound (places_of places)) }

        //= It has one block, in which only the root is held, with the node that is given. [with root]
        ensures made { IfOk result (λ places. IsNewPlaces (places_of places) max_trial) }
        ensures root { IfOk result (λ places. node_record_at places.slots.nodes.items 0 ≡ root) }
    {
        let nodes = vec![in alloc; NodeRecord::BLANK; BLOCK_SIZE]?;
        let infos = vec![in alloc; NInfoRecord::BLANK; BLOCK_SIZE]?;
        let mut slots = Slots {
            nodes: Padded::of(nodes),
            infos: Padded::of(infos),
        };
        slots.free_root_block(root);
        let records = vec![in alloc; BlockRecord::ROOT; 1]?;
        let reject = first_rejects(alloc)?;
        Ok(Places {
            slots,
            blocks: Blocks {
                records: Padded::of(records),
                full_head: 0,
                closed_head: 0,
                open_head: 0,
                active: 1,
                max_trial,
            },
            reject,
        })
    }

    /// Returns how many slots are held.
    pub fn held_slots(&self) -> usize
        requires { Sound (places_of self.now) }

        //= `held_slots` returns the number of held slots: those in use that aren't free.
        ensures { result ≡ count_by (λ s. not (is_free self.now.slots.nodes.items s)) (range_with_len 0 (256 * self.now.blocks.active)) }
    {
        let mut free: usize = 0;
        for block in 0..self.blocks.active {
            free += self.blocks.counts(block).num as usize;
        }
        1 + BLOCK_SIZE * self.blocks.active - free
    }

    /// Returns the number of labels from which on a set finds no place in a block with `num` free slots.
    fn reject_for(&self, num: i16) -> i16
        requires rejects { Rejects self.now.reject.items }
        requires natural { pos 0 ≤ℤ num }
        requires at_most { num ≤ℤ pos 256 }
        ensures value { (n : ℕ) → num ≡ pos n → result ≡ reject_at self.now.reject.items n }
        ensures bounds { Within (pos 1) result (pos 257) }
    {
        self.reject[num as usize]
    }

    /// Takes the free slot `slot`, and stores `node` in it. The name is the original's, whose e stands for empty: free.
    pub fn pop_e_node(&mut self, slot: usize, node: NodeRecord)
        requires sound { Sound (places_of self.old) }
        requires slot_in { slot / 256 < self.old.blocks.active }
        requires slot_free { is_free self.old.slots.nodes.items slot ≡ true }
        requires node_used { int_lt node.check (pos 0) ≡ false }

        //= Calls that change a table keep `Sound`, whatever the order of rings and lists. [also push_e_node, write_node, write_info,
        //  add_block, find_place, find_places, grow]
        ensures sound { Sound (places_of self.new) }

        //= `pop_e_node` takes the named free slot and stores the node there; no other slot becomes free or held, and neither another held
        //  slot's node nor any slot's labels change.
        ensures takes_slot { TakesSlot (slots_of self.old.slots) (slots_of self.new.slots) slot node }

        //= `pop_e_node` and `push_e_node` keep the number of blocks in use, the number of blocks, and `max_trial`. [with capacity,
        //  max_trial; also push_e_node]
        ensures active { self.new.blocks.active ≡ self.old.blocks.active }
        ensures capacity { length self.new.blocks.records.items ≡ length self.old.blocks.records.items }
        ensures max_trial { self.new.blocks.max_trial ≡ self.old.blocks.max_trial }
    {
        let block = slot / BLOCK_SIZE;
        let next = self.slots.next_free(slot);
        self.slots.take(slot, node);
        // Read after the writes above, so that what stays as it is needn't be written again.
        let counts = self.blocks.counts(block);
        self.blocks
            .change_counts(block, counts, counts.less(slot, next));
    }

    /// Frees `slot`, which comes in its block after the free slot at the head, if there is one. The e of the name stands for empty, as
    /// that of `pop_e_node`.
    pub fn push_e_node(&mut self, slot: usize)
        requires sound { Sound (places_of self.old) }
        requires slot_in { slot / 256 < self.old.blocks.active }
        requires slot_used { is_free self.old.slots.nodes.items slot ≡ false }
        requires not_root { 0 < slot }
        ensures sound { Sound (places_of self.new) }

        //= `push_e_node` frees the named slot and clears its labels; no other slot becomes free or held, and neither another held slot's
        //  node nor another slot's labels change.
        ensures frees_slot { FreesSlot (slots_of self.old.slots) (slots_of self.new.slots) slot }
        ensures active { self.new.blocks.active ≡ self.old.blocks.active }
        ensures capacity { length self.new.blocks.records.items ≡ length self.old.blocks.records.items }
        ensures max_trial { self.new.blocks.max_trial ≡ self.old.blocks.max_trial }
    {
        let block = slot / BLOCK_SIZE;
        let counts = self.blocks.counts(block);
        if counts.num == root_count(block) {
            let floor = self.reject_for(counts.num + 1);
            self.slots.give_alone(slot);
            self.blocks
                .change_counts(block, counts, counts.one(slot, floor));
        } else {
            let head = counts.head();
            self.slots.give_after(head, slot);
            // Read again after the writes above, so that nothing of them is kept meanwhile, and what stays as it is needn't be written.
            let counts = self.blocks.counts(block);
            let floor = self.reject_for(counts.num + 1);
            self.blocks.add_counts(block, counts, counts.more(floor));
        }
    }

    /// Stores `node` in a slot in use that isn't free.
    pub fn write_node(&mut self, slot: usize, node: NodeRecord)
        requires sound { Sound (places_of self.old) }
        requires slot_in { slot < 256 * self.old.blocks.active }
        requires slot_used { is_free self.old.slots.nodes.items slot ≡ false }
        requires node_used { (slot ≡ 0) ⊎ (int_lt node.check (pos 0) ≡ false) }
        ensures sound { Sound (places_of self.new) }

        //= `write_node` and `write_info` change only the named record, and no block. [with infos, blocks, capacity; also write_info]
        ensures nodes { self.new.slots.nodes.items ≡ slice_set self.old.slots.nodes.items slot node }
        ensures infos { self.new.slots.infos.items ≡ self.old.slots.infos.items }
        ensures blocks { blocks_of self.new.blocks ≡ blocks_of self.old.blocks }
        ensures capacity { length self.new.blocks.records.items ≡ length self.old.blocks.records.items }
    {
        self.slots.nodes.set(slot, node);
    }

    /// Stores `info` in a slot in use that isn't free.
    pub fn write_info(&mut self, slot: usize, info: NInfoRecord)
        requires sound { Sound (places_of self.old) }
        requires slot_in { slot < 256 * self.old.blocks.active }
        requires slot_used { is_free self.old.slots.nodes.items slot ≡ false }
        ensures sound { Sound (places_of self.new) }
        ensures nodes { self.new.slots.nodes.items ≡ self.old.slots.nodes.items }
        ensures infos { self.new.slots.infos.items ≡ slice_set self.old.slots.infos.items slot info }
        ensures blocks { blocks_of self.new.blocks ≡ blocks_of self.old.blocks }
        ensures capacity { length self.new.blocks.records.items ≡ length self.old.blocks.records.items }
    {
        self.slots.infos.set(slot, info);
    }

    /// Returns a free slot outside block 0, if there is one.
    pub(crate) fn free_slot(&self) -> Option<usize>
        requires { Sound (places_of self.now) }

        //= `free_slot` returns a free slot outside block 0, or says that there is none. [with none]
        ensures found { IfSome result (λ slot. IsFreePlace (places_of self.now) slot) }
        ensures none { IfNone result (NoneFree (places_of self.now)) }
    {
        let closed = self.blocks.first(BlockType::Closed);
        if closed != 0 {
            return Some(self.blocks.counts(closed).head());
        }
        let open = self.blocks.first(BlockType::Open);
        if open != 0 {
            return Some(self.blocks.counts(open).head());
        }
        None
    }

    /// Makes the tables as long as `room` blocks need. All memory is allocated before the first of them grows.
    pub fn grow(&mut self, room: usize) -> Result<(), AllocError>
        requires sound { Sound (places_of self.old) }
        requires doubled { IsPowerOfTwo room }
        requires more { length self.old.blocks.records.items ≤ room }
        requires most { room ≤ 2 ^ 22 }
        ensures sound { Sound (places_of self.new) }

        //= `grow` changes nothing but that blank slots and blocks come to the ends: if it succeeds, there are as many blocks as it was
        //  asked for. [with len]
        ensures grown { Grown (places_of self.old) (places_of self.new) }
        ensures len { OnOk result (length self.new.blocks.records.items ≡ room) }

        //= If it fails, the table is as it was, field by field.
        ensures err { OnErr result (places_of self.new ≡ places_of self.old) }
    {
        let more = room - self.blocks.records.len();
        self.slots.nodes.reserve(BLOCK_SIZE * more)?;
        self.slots.infos.reserve(BLOCK_SIZE * more)?;
        self.blocks.records.reserve(more)?;
        self.slots.nodes.extend(BLOCK_SIZE * more);
        self.slots.infos.extend(BLOCK_SIZE * more);
        self.blocks.records.extend(more);
        Ok(())
    }

    /// Makes room for one more block, if there is none: the tables double.
    fn make_room(&mut self, slots: usize) -> Result<(), AllocError>
        requires sound { Sound (places_of self.old) }
        requires limit { IsSlotLimit slots }
        requires below { 256 * self.old.blocks.active < slots }
        requires within { 256 * length self.old.blocks.records.items ≤ slots }
        ensures shaped { Shaped (places_of self.new) }
        ensures doubled { IsPowerOfTwo (length self.new.blocks.records.items) }
        ensures grown { Grown (places_of self.old) (places_of self.new) }
        ensures within { 256 * length self.new.blocks.records.items ≤ slots }
        ensures room { OnOk result (self.new.blocks.active < length self.new.blocks.records.items) }
        ensures capacity { OnOk result (length self.new.blocks.records.items ≡ room_for_one (places_of self.old)) }
        ensures full { OnErr result (self.old.blocks.active ≡ length self.old.blocks.records.items) }
        ensures err { OnErr result (places_of self.new ≡ places_of self.old) }
    {
        let blocks = self.blocks.records.len();
        if self.blocks.active < blocks {
            return Ok(());
        }
        self.grow(2 * blocks)
    }

    /// Writes to memory the records of the block that comes next into use, and of its slots, if they aren't there yet.
    fn bring_in(&mut self)
        requires shaped { Shaped (places_of self.old) }
        requires room { self.old.blocks.active < length self.old.blocks.records.items }
        ensures places { places_of self.new ≡ places_of self.old }
        ensures used { self.new.blocks.active < self.new.blocks.records.used }
    {
        let block = self.blocks.active;
        if self.blocks.records.used() == block {
            let slots = BLOCK_SIZE * (block + 1);
            self.slots.nodes.bring_in(slots);
            self.slots.infos.bring_in(slots);
            self.blocks.records.bring_in(block + 1);
        }
    }

    /// Puts one more block into use, and returns its number. The tables double if all of their
    /// blocks are in use, up to `slots` slots.
    pub fn add_block(&mut self, slots: usize) -> Result<usize, Shortage>
        requires sound { Sound (places_of self.old) }
        requires limit { IsSlotLimit slots }
        requires within { 256 * length self.old.blocks.records.items ≤ slots }
        ensures sound { Sound (places_of self.new) }

        //= There are never more slots than the limit. [also find_place, find_places]
        ensures within { 256 * length self.new.blocks.records.items ≤ slots }

        //= `add_block`, `find_place` and `find_places` don't change `max_trial`. [also find_place, find_places]
        ensures max_trial { self.new.blocks.max_trial ≡ self.old.blocks.max_trial }

        //= `add_block` puts the next block into use with all of its slots free, and changes no other slot.
        //= The number of blocks then doubles exactly if all were in use. [by capacity]
        ensures added { IfOk result (λ block. AddsBlock (places_of self.old) (places_of self.new) block) }

        //= It changes what is counted of no other block.
        ensures others { IfOk result (λ block. (b : ℕ) → (b ≡ block → ⊥) → counts_at self.new.blocks.records.items b ≡ counts_at self.old.blocks.records.items b) }

        //= It fails for lack of memory only if all blocks are in use and the limit isn't reached, for lack of slots only if as many as the
        //  limit allows are in use: so not for lack of memory while blocks are spare.
        ensures refused { IfErr result (λ error. MayRefuse (places_of self.old) slots error) }

        //= After a refusal the table is as it was, field by field.
        ensures unchanged { OnErr result (places_of self.new ≡ places_of self.old) }
    {
        if BLOCK_SIZE * self.blocks.active == slots {
            return Err(Shortage::SlotLimit);
        }
        self.make_room(slots)?;
        self.bring_in();
        let block = self.blocks.active;
        self.slots.free_block(BLOCK_SIZE * block);
        self.blocks.activate();
        Ok(block)
    }

    /// Returns a free slot outside block 0. A block is made only if there is none.
    pub fn find_place(&mut self, slots: usize) -> Result<usize, Shortage>
        requires sound { Sound (places_of self.old) }
        requires limit { IsSlotLimit slots }
        requires within { 256 * length self.old.blocks.records.items ≤ slots }
        ensures sound { Sound (places_of self.new) }
        ensures within { 256 * length self.new.blocks.records.items ≤ slots }
        ensures max_trial { self.new.blocks.max_trial ≡ self.old.blocks.max_trial }

        //= `find_place` returns a free slot outside block 0.
        ensures found { IfOk result (λ slot. IsFreePlace (places_of self.new) slot) }

        //= It makes a block, or fails, only if no slot outside block 0 is free. [with refused]
        ensures made { IfOk result (λ slot. (places_of self.new ≡ places_of self.old) ⊎ AddsNeededBlock (places_of self.old) (places_of self.new) (slot / 256)) }
        ensures refused { IfErr result (λ error. NoneFree (places_of self.old) × MayRefuse (places_of self.old) slots error) }

        //= After a refusal the table is as it was.
        ensures unchanged { OnErr result (places_of self.new ≡ places_of self.old) }
    {
        if let Some(slot) = self.free_slot() {
            return Ok(slot);
        }
        let block = self.add_block(slots)?;
        Ok(BLOCK_SIZE * block)
    }

    /// Makes `slot` the first free slot of its block.
    fn begin_at(&mut self, slot: usize)
        requires sound { Sound (places_of self.old) }
        requires place { IsFreePlace (places_of self.old) slot }
        ensures sound { Sound (places_of self.new) }
        ensures same { SameSlots (places_of self.old) (places_of self.new) }
        ensures others { (b : ℕ) → (b ≡ slot / 256 → ⊥) → counts_at self.new.blocks.records.items b ≡ counts_at self.old.blocks.records.items b }
    {
        let block = slot / BLOCK_SIZE;
        let counts = self.blocks.counts(block);
        self.blocks
            .change_counts(block, counts, counts.beginning_at(slot));
    }

    /// Notes that `wanted` labels found no place in a block with `num` free slots.
    fn lower_reject(&mut self, num: i16, wanted: i16)
        requires rejects { Rejects self.old.reject.items }
        requires natural { pos 0 ≤ℤ num }
        requires at_most { num ≤ℤ pos 256 }
        requires some { pos 1 ≤ℤ wanted }
        ensures rejects { Rejects self.new.reject.items }
        ensures slots { slots_of self.new.slots ≡ slots_of self.old.slots }
        ensures blocks { blocks_of self.new.blocks ≡ blocks_of self.old.blocks }
    {
        let index = num as usize;
        self.reject[index] = self.reject[index].min(wanted);
    }

    /// Notes that `wanted` labels found no place in `block`, which is closed after `max_trial` times.
    fn count_failure(&mut self, block: usize, wanted: i16)
        requires sound { Sound (places_of self.old) }
        requires open { IsOpenBlock (blocks_of self.old.blocks) block }
        requires some { pos 1 ≤ℤ wanted }
        requires few { wanted ≤ℤ pos 256 }
        ensures sound { Sound (places_of self.new) }
        ensures same { SameSlots (places_of self.old) (places_of self.new) }
        ensures max_trial { self.new.blocks.max_trial ≡ self.old.blocks.max_trial }
        ensures others { (b : ℕ) → (b ≡ block → ⊥) → counts_at self.new.blocks.records.items b ≡ counts_at self.old.blocks.records.items b }
    {
        let counts = self.blocks.counts(block);
        self.lower_reject(counts.num, wanted);
        let max_trial = self.blocks.max_trial;
        self.blocks
            .set_counts(block, counts.after_failure(wanted, max_trial));
    }

    /// Returns the first free slot of `block` that the first label can take with room for all others,
    /// if the block's `reject` allows a search.
    fn start_in(&self, block: usize, labels: &[u8]) -> Option<usize>
        requires sound { Sound (places_of self.now) }
        requires not_root { 0 < block }
        requires block_in { block < self.now.blocks.active }
        requires some { 0 < length labels.now }
        requires few { length labels.now ≤ 256 }
        ensures { IfSome result (λ slot. IsStart (places_of self.now) block slot labels.now) }
    {
        let counts = self.blocks.counts(block);
        let wanted = labels.len() as i16;
        if counts.num < wanted || counts.reject <= wanted {
            return None;
        }
        let first = usize::from(labels[0]);
        let (_, others) = labels.split_at(1);
        let head = counts.head();
        let mut slot = head;
        for _ in 0..BLOCK_SIZE {
            // The first label would be on `slot` itself.
            if self.slots.fits(slot ^ first, others) {
                return Some(slot);
            }
            slot = self.slots.next_free(slot);
            if slot == head {
                return None;
            }
        }
        None
    }

    /// A base from which all labels have free slots, in an open block, as far as `reject` and
    /// `max_trial` allow a search. It tries `search_limit` blocks at most.
    fn search(&mut self, labels: &[u8], search_limit: usize) -> Option<usize>
        requires sound { Sound (places_of self.old) }
        requires some { 0 < length labels.now }
        requires few { length labels.now ≤ 256 }
        ensures sound { Sound (places_of self.new) }
        ensures same { SameSlots (places_of self.old) (places_of self.new) }
        ensures found { IfSome result (λ base. IsBase (places_of self.new) base labels.now) }
        ensures tried { TriesAtMost search_limit (blocks_of self.old.blocks) (blocks_of self.new.blocks) }
    {
        let head = self.blocks.first(BlockType::Open);
        if head == 0 {
            return None;
        }
        let last = self.blocks.previous(head);
        let mut block = head;
        for turn in 0..self.blocks.active.min(search_limit) {
            if let Some(slot) = self.start_in(block, labels) {
                self.begin_at(slot);
                return Some(slot ^ usize::from(labels[0]));
            }
            let next = self.blocks.next(block);
            self.count_failure(block, labels.len() as i16);
            if block == last {
                return None;
            }
            block = next;
        }
        None
    }

    /// A base from which all labels have free slots, outside block 0: in an open block that fits
    /// them all, as far as rejections and trials allow a search, else in a new one. A search tries `search_limit`
    /// open blocks at most. No clause says which base it is.
    pub fn find_places(
        &mut self,
        labels: &[u8],
        slots: usize,
        search_limit: usize,
    ) -> Result<usize, Shortage>
        requires sound { Sound (places_of self.old) }
        requires some { 0 < length labels.now }
        requires few { length labels.now ≤ 256 }
        requires limit { IsSlotLimit slots }
        requires within { 256 * length self.old.blocks.records.items ≤ slots }
        ensures sound { Sound (places_of self.new) }
        ensures within { 256 * length self.new.blocks.records.items ≤ slots }
        ensures max_trial { self.new.blocks.max_trial ≡ self.old.blocks.max_trial }

        //= `find_places` returns a base outside block 0 from which the slot of each label is free.
        ensures found { IfOk result (λ base. IsBase (places_of self.new) base labels.now) }

        //= It leaves all slots as they were, or makes one block; after a refusal all slots are as they were. [with err]
        ensures made { IfOk result (λ base. KeepsOrAdds (places_of self.old) (places_of self.new) (base / 256)) }

        //= It fails as `add_block` does.
        ensures refused { IfErr result (λ error. MayRefuse (places_of self.old) slots error) }
        ensures err { OnErr result (SameSlots (places_of self.old) (places_of self.new)) }

        //= It changes what is counted of `search_limit` open blocks at most, beside the block that it makes.
        ensures tried { TriesAtMost (search_limit + 1) (blocks_of self.old.blocks) (blocks_of self.new.blocks) }
    {
        if let Some(base) = self.search(labels, search_limit) {
            return Ok(base);
        }
        let block = self.add_block(slots)?;
        Ok(BLOCK_SIZE * block ^ usize::from(labels[0]))
    }
}
