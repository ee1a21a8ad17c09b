//! The slots, and the rings of the free ones.

ghost use Rattle.std.specs.Prelude.{◌*◌, ◌+◌, ◌-◌, ◌/◌, ◌<◌, ◌^◌, ◌≡◌, ◌≤ℤ◌, ◌≤◌, ◌⊎◌};
ghost use Rattle.std.specs.Prelude.{bit_xor, IsTrue, length, pos, slice_index_or, slice_set};
ghost use Rattle.std.specs.Prelude.{true, unsigned_abs, ℕ};

use crate::padded::Padded;
use crate::records::{NInfoRecord, NodeRecord};
use std::alloc::Allocator;

/// The slots of a block.
pub const BLOCK_SIZE: usize = 256;

/// All slots, including those that are not in use.
#[derive(Drop)]
pub struct Slots<A: Allocator> {
    pub nodes: Padded<NodeRecord, A>,
    pub infos: Padded<NInfoRecord, A>,
    pub ghost nodes_within: { nodes.used ≤ length nodes.items },
    pub ghost infos_within: { infos.used ≤ length infos.items },
}

impl<A: Allocator> Slots<A> {
    ghost use Rattle.cedar_slots.specs.Words.{AllFree, base_at, blank_info, check_at, given_after};
    ghost use Rattle.cedar_slots.specs.Words.{given_alone, is_free, node_record_at};
    ghost use Rattle.cedar_slots.specs.Words.{nodes_after_link, nodes_after_take, SlotLink};

    /// Returns the free slot after `slot` in its ring.
    pub(crate) fn next_free(&self, slot: usize) -> usize
        requires slot_in { slot < self.now.nodes.used }
        requires is_link { check_at self.now.nodes.items slot ≤ℤ pos 0 }
        ensures { result ≡ unsigned_abs (check_at self.now.nodes.items slot) }
    {
        // A link is never above 0, so its sign needn't be tested.
        -i64::from(self.nodes.at(slot).check) as usize
    }

    /// Returns the free slot before `slot` in its ring.
    pub(crate) fn previous_free(&self, slot: usize) -> usize
        requires slot_in { slot < self.now.nodes.used }
        requires is_link { base_at self.now.nodes.items slot ≤ℤ pos 0 }
        ensures { result ≡ unsigned_abs (base_at self.now.nodes.items slot) }
    {
        -i64::from(self.nodes.at(slot).base) as usize
    }

    /// Makes `to` the free slot after `from`.
    pub(crate) fn link(&mut self, from: usize, to: usize)
        requires from_in { from < self.old.nodes.used }
        requires to_in { to < self.old.nodes.used }
        requires from_fits { from < 2 ^ 31 }
        requires to_fits { to < 2 ^ 31 }
        ensures nodes { self.new.nodes.items ≡ nodes_after_link self.old.nodes.items from to }
        ensures infos { self.new.infos.items ≡ self.old.infos.items }
        ensures len { length self.new.nodes.items ≡ length self.old.nodes.items }
        ensures used { self.new.nodes.used ≡ self.old.nodes.used }
        ensures infos_used { self.new.infos.used ≡ self.old.infos.used }
    {
        let node = self.nodes.at(from);
        let check = -(to as i32);
        self.nodes.set(from, NodeRecord { check, ..node });
        let node = self.nodes.at(to);
        let base = -(from as i32);
        self.nodes.set(to, NodeRecord { base, ..node });
    }

    /// Takes `slot` out of its ring, and stores `node` in it.
    #[tactic(auto, unfolding(crate::specs::Slots::nodes_after_take))]
    pub(crate) fn take(&mut self, slot: usize, node: NodeRecord)
        requires slot_in { slot < self.old.nodes.used }
        requires previous_in { unsigned_abs (base_at self.old.nodes.items slot) < self.old.nodes.used }
        requires next_in { unsigned_abs (check_at self.old.nodes.items slot) < self.old.nodes.used }
        requires to_previous { base_at self.old.nodes.items slot ≤ℤ pos 0 }
        requires to_next { check_at self.old.nodes.items slot ≤ℤ pos 0 }
        requires fits { self.old.nodes.used ≤ 2 ^ 30 }
        ensures nodes { self.new.nodes.items ≡ nodes_after_take self.old.nodes.items slot node }
        ensures infos { self.new.infos.items ≡ self.old.infos.items }
        ensures len { length self.new.nodes.items ≡ length self.old.nodes.items }
        ensures used { self.new.nodes.used ≡ self.old.nodes.used }
        ensures infos_used { self.new.infos.used ≡ self.old.infos.used }
    {
        let previous = self.previous_free(slot);
        let next = self.next_free(slot);
        self.link(previous, next);
        self.nodes.set(slot, node);
    }

    /// Makes `slot` the one free slot of its block.
    #[tactic(auto, unfolding(crate::specs::Slots::given_alone))]
    pub(crate) fn give_alone(&mut self, slot: usize)
        requires slot_in { slot < self.old.nodes.used }
        requires slot_in_infos { slot < self.old.infos.used }
        requires fits { self.old.nodes.used ≤ 2 ^ 30 }
        ensures nodes { self.new.nodes.items ≡ given_alone self.old.nodes.items slot }
        ensures infos { self.new.infos.items ≡ slice_set self.old.infos.items slot blank_info }
        ensures len { length self.new.nodes.items ≡ length self.old.nodes.items }
        ensures used { self.new.nodes.used ≡ self.old.nodes.used }
        ensures infos_used { self.new.infos.used ≡ self.old.infos.used }
        ensures infos_len { length self.new.infos.items ≡ length self.old.infos.items }
    {
        self.link(slot, slot);
        self.infos.set(slot, NInfoRecord::BLANK);
    }

    /// Makes `slot` free, and puts it after the free slot `head`.
    #[tactic(auto, unfolding(crate::specs::Slots::given_after))]
    pub(crate) fn give_after(&mut self, head: usize, slot: usize)
        requires slot_in { slot < self.old.nodes.used }
        requires slot_in_infos { slot < self.old.infos.used }
        requires head_in { head < self.old.nodes.used }
        requires next_in { unsigned_abs (check_at self.old.nodes.items head) < self.old.nodes.used }
        requires to_next { check_at self.old.nodes.items head ≤ℤ pos 0 }
        requires fits { self.old.nodes.used ≤ 2 ^ 30 }
        ensures nodes { self.new.nodes.items ≡ given_after self.old.nodes.items head slot }
        ensures infos { self.new.infos.items ≡ slice_set self.old.infos.items slot blank_info }
        ensures len { length self.new.nodes.items ≡ length self.old.nodes.items }
        ensures used { self.new.nodes.used ≡ self.old.nodes.used }
        ensures infos_used { self.new.infos.used ≡ self.old.infos.used }
        ensures infos_len { length self.new.infos.items ≡ length self.old.infos.items }
    {
        let next = self.next_free(head);
        self.link(head, slot);
        self.link(slot, next);
        self.infos.set(slot, NInfoRecord::BLANK);
    }

    /// Frees the 256 slots from `first` on, each of which comes before the next one in their ring.
    pub(crate) fn free_block(&mut self, first: usize)
        requires block_in { first + 256 ≤ self.old.nodes.used }
        requires fits { self.old.nodes.used ≤ 2 ^ 30 }
        ensures steps { (s : ℕ) → first ≤ s → s < first + 255 → SlotLink self.new.nodes.items s (s + 1) }
        ensures last { SlotLink self.new.nodes.items (first + 255) first }
        ensures outside { (s : ℕ) → (s < first) ⊎ (first + 256 ≤ s) → node_record_at self.new.nodes.items s ≡ node_record_at self.old.nodes.items s }
        ensures infos { self.new.infos.items ≡ self.old.infos.items }
        ensures len { length self.new.nodes.items ≡ length self.old.nodes.items }
        ensures used { self.new.nodes.used ≡ self.old.nodes.used }
        ensures infos_used { self.new.infos.used ≡ self.old.infos.used }
    {
        let last = first + 255;
        for slot in first..last {
            self.link(slot, slot + 1);
        }
        self.link(last, first);
    }

    /// Stores the root, and frees all other slots of block 0, each before the next one in their ring.
    pub(crate) fn free_root_block(&mut self, root: NodeRecord)
        requires all { length self.old.nodes.items ≡ 256 }
        requires used { self.old.nodes.used ≡ 256 }
        ensures root { node_record_at self.new.nodes.items 0 ≡ root }
        ensures steps { (s : ℕ) → 1 ≤ s → s < 255 → SlotLink self.new.nodes.items s (s + 1) }
        ensures last { SlotLink self.new.nodes.items 255 1 }
        ensures infos { self.new.infos.items ≡ self.old.infos.items }
        ensures len { length self.new.nodes.items ≡ length self.old.nodes.items }
        ensures used { self.new.nodes.used ≡ self.old.nodes.used }
        ensures infos_used { self.new.infos.used ≡ self.old.infos.used }
    {
        for slot in 1..255 {
            self.link(slot, slot + 1);
        }
        self.link(255, 1);
        self.nodes.set(0, root);
    }

    /// Returns whether `slot`, which isn't the root's, is free.
    pub(crate) fn is_free(&self, slot: usize) -> bool
        requires slot_in { slot < self.now.nodes.used }
        requires not_root { 0 < slot }
        ensures { result ≡ is_free self.now.nodes.items slot }
    {
        self.nodes.at(slot).check < 0
    }

    /// Returns whether the slots of the first and of the last label are free from `base` on, as they are if all labels' slots are.
    /// Both are read, since a branch between them would often be mispredicted.
    fn ends_fit(&self, base: usize, labels: &[u8]) -> bool
        requires fits { self.now.nodes.used ≤ 2 ^ 30 }
        requires base_in { 256 * (base / 256) + 256 ≤ self.now.nodes.used }
        requires not_root { 0 < base / 256 }
        requires some { 0 < length labels.now }
        ensures first { IsTrue result → is_free self.now.nodes.items (bit_xor base (slice_index_or labels.now 0 0)) ≡ true }
        ensures last { IsTrue result → is_free self.now.nodes.items (bit_xor base (slice_index_or labels.now (length labels.now - 1) 0)) ≡ true }
        ensures only { AllFree self.now.nodes.items base labels.now → IsTrue result }
    {
        let first = self.is_free(base ^ usize::from(labels[0]));
        let last = self.is_free(base ^ usize::from(labels[labels.len() - 1]));
        first & last
    }

    /// Returns whether each label's slot is free from `base` on.
    pub(crate) fn fits(&self, base: usize, labels: &[u8]) -> bool
        requires fits { self.now.nodes.used ≤ 2 ^ 30 }
        requires base_in { 256 * (base / 256) + 256 ≤ self.now.nodes.used }
        requires not_root { 0 < base / 256 }
        ensures fits { IsTrue result → AllFree self.now.nodes.items base labels.now }
        ensures only { AllFree self.now.nodes.items base labels.now → IsTrue result }
    {
        if labels.is_empty() {
            return true;
        }
        if !self.ends_fit(base, labels) {
            return false;
        }
        if labels.len() <= 2 {
            return true;
        }
        for &label in labels {
            if !self.is_free(base ^ usize::from(label)) {
                return false;
            }
        }
        true
    }
}
