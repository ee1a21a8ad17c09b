//! The table: slots in blocks, free or held, with the settings that it was made with.

ghost use Rattle.std.specs.Prelude.{◌*◌, ◌+◌, ◌-◌, ◌/◌, ◌<◌, ◌^◌, ◌↔◌, ◌≡◌, ◌≤◌, ◌≤ℤ◌, ◌⊎◌};
ghost use Rattle.std.specs.Prelude.{count_by, IfErr, IfOk, IsTrue, length, negsuc, OnErr, pos, ℕ};
ghost use Rattle.cedar_slots.specs.Words.{places_of, Shaped};

use cedar_model::{Layout, Stored};
use cedar_slots::{BLOCK_SIZE, BlockRecord, NInfoRecord, NodeRecord, Places, Shortage, Ticks};
use std::alloc::Allocator;
use std::marker::PhantomData;
use std::sync::ledger::Ledger;

/// A double-array trie's table. It has up to `SLOTS` slots, in blocks of 256: the root, the slots that others
/// own, and free ones.
#[derive(Drop)]
pub struct Table<L: Layout, const SLOTS: usize, A: Allocator> {
    pub(crate) layout: PhantomData<L>,
    pub(crate) ordered: bool,
    pub(crate) entries: usize,
    pub(crate) places: Places<A>,
    // Only what has at most one proof can be a ghost field, so the rings and lists, `IsTable`, are in the calls' clauses.
    ghost shaped: { Shaped (places_of places) },
    ghost rejects: { length places.reject.items ≡ 257 },
}

impl<L: Layout, const SLOTS: usize, A: Allocator> Table<L, SLOTS, A> {
    ghost use Rattle.cedar_table.specs.Words.{AddsBlock, block_at, capacity_of, cells};
    ghost use Rattle.cedar_table.specs.Words.{cells_without, check_at, empty_tree, fields, Gives};
    ghost use Rattle.cedar_table.specs.Words.{HasNoPlace, HasPlaces, Held, InfoWritten, is_held};
    ghost use Rattle.cedar_table.specs.Words.{IsNewPlaces, IsPlace, IsSlotLimit, IsTable};
    ghost use Rattle.cedar_table.specs.Words.{IsWellFormed, KeepsOrAdds, MakesBlocks};
    ghost use Rattle.cedar_table.specs.Words.{MakesNeededBlock, MayClaim, MayRefuse, Memory};
    ghost use Rattle.cedar_table.specs.Words.{NodeWritten, range_with_len, reading, reject_at};
    ghost use Rattle.cedar_table.specs.Words.{SameFrame, SameHeld, SameSettings, SameSlots};
    ghost use Rattle.cedar_table.specs.Words.{size_of, Takes, tree_of, with_count};

    /// A table with one block, in which the root alone is held. It represents the empty tree.
    pub fn new(alloc: A, ordered: bool, max_trial: i32) -> Result<Self, Shortage>
    where
        A: Copy,
        requires tried { pos 1 ≤ℤ max_trial }
        requires limit { IsSlotLimit SLOTS }

        //= A new table is well-formed and represents the empty tree; only the root is held. [with tree, sound, bare]
        ensures well_formed { IfOk result (λ table. IsWellFormed SLOTS (fields table)) }
        ensures tree { IfOk result (λ table. tree_of (fields table) ≡ empty_tree) }
        ensures sound { IfOk result (λ table. IsTable SLOTS (fields table).places) }

        //= Its settings are those asked for, and it has no entries. [with ordered, entries]
        ensures made { IfOk result (λ table. IsNewPlaces (fields table).places max_trial) }

        //= The root has the check -1 and the base 0. [with root_base]
        ensures root_check { IfOk result (λ table. (cells table).check 0 ≡ negsuc 0) }
        ensures root_base { IfOk result (λ table. (cells table).stored 0 ≡ Stored.AtBase 0) }
        ensures ordered { IfOk result (λ table. (fields table).ordered ≡ ordered) }
        ensures entries { IfOk result (λ table. (fields table).entries ≡ 0) }
        ensures bare { IfOk result (λ table. (s : ℕ) → Held (cells table) s → s ≡ 0) }

        //= It fails only for lack of memory.
        ensures refused { IfErr result (λ error. error ≡ Memory) }
    {
        let root = NodeRecord {
            base: L::base_field(0),
            check: -1,
        };
        Ok(Table {
            layout: PhantomData,
            ordered,
            entries: 0,
            places: Places::new(alloc, root, max_trial)?,
        })
    }

    /// Returns the table's allocator.
    pub fn allocator(&self) -> A
    where
        A: Copy,
    {
        *self.places.slots.nodes.allocator()
    }

    /// Takes the free slot `slot` for `owner`, with `base` in its base field. The e of the name, the original's, stands for empty: free.
    pub fn pop_e_node(&mut self, slot: usize, base: i32, owner: usize)
        requires sound { IsTable SLOTS (fields self.old).places }
        requires slot_in { slot < size_of (fields self.old) }
        requires slot_free { Held (cells self.old) slot → ⊥ }
        requires owner_in { owner < 2 ^ 31 }

        //= Calls that write to a table keep `IsTable`. [also claim, push_e_node, write_node, write_info, add_block, find_place,
        //  find_places, set_sibling, set_child, set_check]
        ensures sound { IsTable SLOTS (fields self.new).places }

        //= `pop_e_node`, `push_e_node`, `write_node` and `write_info` take, give back or write the one slot that is named; nothing else
        //  that is held changes. [also push_e_node.gives, write_node.written, write_info.written]
        ensures takes { Takes (cells self.old) (cells self.new) slot owner }

        //= The slot's base field is the one that is given, and says what the layout reads in it. [with stored; also claim]
        ensures base { (cells self.new).base slot ≡ base }
        ensures stored { (cells self.new).stored slot ≡ reading L.kind base }

        //= Calls that make no block keep the number of slots in use, the number of slots, the order, the entries and `max_trial`. [also
        //  claim, push_e_node, write_node, write_info, set_sibling, set_child, link, set_check, set_base, set_own_number; by SameFrame]
        ensures frame { SameFrame (fields self.old) (fields self.new) }
    {
        let node = NodeRecord {
            base,
            check: owner as i32,
        };
        self.places.pop_e_node(slot, node);
    }

    /// Takes the held slot `slot`, which is no part of the tree, for `owner`, with `base` in its base field and no labels.
    pub fn claim(&mut self, slot: usize, base: i32, owner: usize)
        requires { MayClaim SLOTS (fields self.old) slot owner }
        ensures sound { IsTable SLOTS (fields self.new).places }

        //= `claim` takes a held slot that is no part of the tree, as `pop_e_node` takes a free one; nothing else that is held changes.
        ensures takes { Takes (cells_without (cells self.old) slot) (cells self.new) slot owner }
        ensures base { (cells self.new).base slot ≡ base }
        ensures stored { (cells self.new).stored slot ≡ reading L.kind base }
        ensures frame { SameFrame (fields self.old) (fields self.new) }
    {
        let check = owner as i32;
        self.write_node(slot, NodeRecord { base, check });
        let info = NInfoRecord {
            sibling: 0,
            child: 0,
        };
        self.write_info(slot, info);
    }

    /// Gives the held slot `slot`, which isn't the root, back to the free ones of its block. The e stands for empty here too.
    pub fn push_e_node(&mut self, slot: usize)
        requires sound { IsTable SLOTS (fields self.old).places }
        requires slot_in { slot < size_of (fields self.old) }
        requires slot_held { Held (cells self.old) slot }
        requires not_root { 0 < slot }
        ensures sound { IsTable SLOTS (fields self.new).places }
        ensures gives { Gives (cells self.old) (cells self.new) slot }
        ensures frame { SameFrame (fields self.old) (fields self.new) }
    {
        self.places.push_e_node(slot);
    }

    /// Stores `node` in a held slot. The check of a slot other than the root's has to name an owner.
    pub fn write_node(&mut self, slot: usize, node: NodeRecord)
        requires sound { IsTable SLOTS (fields self.old).places }
        requires slot_in { slot < size_of (fields self.old) }
        requires slot_held { Held (cells self.old) slot }
        requires owner { (slot ≡ 0) ⊎ (pos 0 ≤ℤ node.check) }
        ensures sound { IsTable SLOTS (fields self.new).places }
        ensures written { NodeWritten (reading L.kind) (cells self.old) (cells self.new) slot node.base node.check }
        ensures frame { SameFrame (fields self.old) (fields self.new) }
    {
        self.places.write_node(slot, node);
    }

    /// Stores `info` in a held slot.
    pub fn write_info(&mut self, slot: usize, info: NInfoRecord)
        requires sound { IsTable SLOTS (fields self.old).places }
        requires slot_in { slot < size_of (fields self.old) }
        requires slot_held { Held (cells self.old) slot }
        ensures sound { IsTable SLOTS (fields self.new).places }
        ensures written { InfoWritten (cells self.old) (cells self.new) slot info.sibling info.child }
        ensures frame { SameFrame (fields self.old) (fields self.new) }
    {
        self.places.write_info(slot, info);
    }

    /// Puts one more block into use, and returns its number. The table doubles if all of its blocks are in use.
    pub fn add_block(&mut self) -> Result<usize, Shortage>
        requires { IsTable SLOTS (fields self.old).places }
        ensures sound { IsTable SLOTS (fields self.new).places }

        //= `add_block`, `find_place` and `find_places` change nothing that is held, and no setting; they find places and make blocks as
        //  those of `cedar_slots` do. [with refused, held, settings; also find_place.found.made.refused.held.settings,
        //  find_places.found.made.refused.held.settings]
        ensures added { IfOk result (λ block. AddsBlock (fields self.old).places (fields self.new).places block) }
        ensures refused { IfErr result (λ error. MayRefuse (fields self.old).places SLOTS error) }
        ensures held { SameHeld (cells self.old) (cells self.new) }
        ensures settings { SameSettings (fields self.old) (fields self.new) }

        //= After a refusal of `add_block` or `find_place` the table is as it was, field by field. [also find_place]
        ensures unchanged { OnErr result (fields self.new ≡ fields self.old) }
    {
        self.places.add_block(SLOTS)
    }

    /// Returns a free slot outside block 0. A block is made only if there is none.
    pub fn find_place(&mut self) -> Result<usize, Shortage>
        requires { IsTable SLOTS (fields self.old).places }
        ensures sound { IsTable SLOTS (fields self.new).places }
        ensures found { IfOk result (IsPlace (size_of (fields self.new)) (cells self.new)) }
        ensures made { IfOk result (λ slot. (fields self.new ≡ fields self.old) ⊎ MakesNeededBlock (fields self.old) (fields self.new) (slot / 256)) }
        ensures refused { IfErr result (λ error. HasNoPlace (fields self.old) × MayRefuse (fields self.old).places SLOTS error) }
        ensures held { SameHeld (cells self.old) (cells self.new) }
        ensures settings { SameSettings (fields self.old) (fields self.new) }
        ensures unchanged { OnErr result (fields self.new ≡ fields self.old) }
    {
        self.places.find_place(SLOTS)
    }

    /// Returns a base outside block 0 from which each label's slot is free: in an open block, as far as rejections and trials
    /// allow a search, otherwise in a new block. What a search learns about blocks is kept, even if it is refused. It tries
    /// `search_limit` open blocks at most.
    pub fn find_places(&mut self, labels: &[u8], search_limit: usize) -> Result<usize, Shortage>
        requires sound { IsTable SLOTS (fields self.old).places }
        requires some { 0 < length labels.now }
        requires few { length labels.now ≤ 256 }
        ensures sound { IsTable SLOTS (fields self.new).places }
        ensures found { IfOk result (λ base. HasPlaces (size_of (fields self.new)) (cells self.new) base labels.now) }
        ensures made { IfOk result (λ base. KeepsOrAdds (fields self.old).places (fields self.new).places (base / 256)) }
        ensures refused { IfErr result (λ error. MayRefuse (fields self.old).places SLOTS error) }
        ensures held { SameHeld (cells self.old) (cells self.new) }
        ensures settings { SameSettings (fields self.old) (fields self.new) }

        //= After a refusal of `find_places` or `place_for` all slots are as they were. [also place_for.unchanged]
        ensures same { OnErr result (SameSlots (fields self.old).places (fields self.new).places) }
    {
        self.places.find_places(labels, SLOTS, search_limit)
    }

    /// Returns a base from which there is room for all labels. A single label goes where the first free slot is. The move
    /// of a set makes a block here or not at all. A search for several tries `search_limit` open blocks at most.
    #[inline(always)]
    pub fn place_for(&mut self, labels: &[u8], search_limit: usize) -> Result<usize, Shortage>
        requires sound { IsTable SLOTS (fields self.old).places }
        requires some { 0 < length labels.now }
        requires few { length labels.now ≤ 256 }

        //= The steps by which a table is written from outside keep `IsTable`: a base for some labels, a node's base, a label's place in a
        //  chain, a number in a node's own base field. [also set_base, link, set_own_number]
        ensures sound { IsTable SLOTS (fields self.new).places }

        //= `place_for` returns a base from which the slot of each label is free and outside block 0.
        ensures found { IfOk result (λ base. HasPlaces (size_of (fields self.new)) (cells self.new) base labels.now) }

        //= It fails as `add_block` does, makes one block at most, and changes nothing that is held, and no setting. [with held, blocks,
        //  settings]
        ensures refused { IfErr result (λ error. MayRefuse (fields self.old).places SLOTS error) }
        ensures held { SameHeld (cells self.old) (cells self.new) }
        ensures blocks { (n : ℕ) × (n ≤ 1) × MakesBlocks n (fields self.old) (fields self.new) }
        ensures unchanged { OnErr result (SameSlots (fields self.old).places (fields self.new).places) }

        //= A single label is never refused and needs no block, unless no slot outside block 0 is free.
        ensures single { length labels.now ≡ 1 → (OnErr result ⊥ × MakesBlocks 0 (fields self.old) (fields self.new)) ⊎ HasNoPlace (fields self.old) }
        ensures settings { SameSettings (fields self.old) (fields self.new) }
    {
        if labels.len() == 1 {
            let slot = self.find_place()?;
            return Ok(slot ^ usize::from(labels[0]));
        }
        self.find_places(labels, search_limit)
    }

    /// Returns how many slots are in use, including free ones.
    pub fn size(&self) -> usize
        //= `size`, `capacity`, `spare_blocks`, `entries`, `ordered`, `max_trial`, the heads, and single fields return what their names say.
        //  [also capacity, spare_blocks, entries, ordered, max_trial, full_head, closed_head, open_head, block, reject, base, stored_at,
        //  sibling, child]
        ensures { result ≡ size_of (fields self.now) }
    {
        BLOCK_SIZE * self.places.blocks.active
    }

    /// Returns how many slots there are, in use or not.
    pub fn capacity(&self) -> usize
        ensures { result ≡ capacity_of (fields self.now) }
    {
        BLOCK_SIZE * self.places.blocks.records.len()
    }

    /// Returns how many blocks can be put into use before the table has to grow.
    pub fn spare_blocks(&self) -> usize
        ensures { result ≡ (capacity_of (fields self.now) - size_of (fields self.now)) / 256 }
    {
        self.places.blocks.records.len() - self.places.blocks.active
    }

    /// Returns how many slots are held, including the root: all slots in use less those that the blocks count as free.
    pub fn used_node_slots(&self) -> usize
        requires { IsTable SLOTS (fields self.now).places }

        //= `used_node_slots` is the number of held slots. [with test]
        ensures count { result ≡ count_by (is_held (cells self.now)) (range_with_len 0 (size_of (fields self.now))) }
        ensures test { (s : ℕ) → IsTrue (is_held (cells self.now) s) ↔ Held (cells self.now) s }
    {
        self.places.held_slots()
    }

    /// Returns the stated number of keys.
    pub fn entries(&self) -> usize
        ensures { result ≡ (fields self.now).entries }
    {
        self.entries
    }

    /// Sets the stated number of keys, as whoever puts keys into the table by its slots has to. No slot changes.
    pub fn set_entries(&mut self, entries: usize)
        //= `set_entries` sets the stated number of keys, and nothing else.
        ensures { fields self.new ≡ with_count (fields self.old) entries }
    {
        self.entries = entries;
    }

    /// Returns whether the labels of each node ascend.
    pub fn ordered(&self) -> bool
        ensures { result ≡ (fields self.now).ordered }
    {
        self.ordered
    }

    /// Returns how many failed searches close a block.
    pub fn max_trial(&self) -> i32
        ensures { result ≡ (fields self.now).places.blocks.max_trial }
    {
        self.places.blocks.max_trial
    }

    /// The first full block, or 0.
    pub fn full_head(&self) -> i32
        ensures { result ≡ (fields self.now).places.blocks.full_head }
    {
        self.places.blocks.full_head
    }

    /// Returns the first closed block, or 0.
    pub fn closed_head(&self) -> i32
        ensures { result ≡ (fields self.now).places.blocks.closed_head }
    {
        self.places.blocks.closed_head
    }

    /// Returns the first open block, or 0.
    pub fn open_head(&self) -> i32
        ensures { result ≡ (fields self.now).places.blocks.open_head }
    {
        self.places.blocks.open_head
    }

    /// Returns the record of a block, in use or not.
    pub fn block(&self, block: usize) -> BlockRecord
        requires { 256 * block < capacity_of (fields self.now) }
        ensures { result ≡ block_at (fields self.now).places.blocks.records block }
    {
        self.places.blocks.records.read(block)
    }

    /// Returns the number of labels from which on a set finds no place in a block with `free` free slots.
    pub fn reject(&self, free: usize) -> i16
        requires { free ≤ 256 }
        ensures { result ≡ reject_at (fields self.now).places.reject free }
    {
        self.places.reject[free]
    }

    /// Returns the base field of a slot in use.
    pub fn base(&self, slot: usize) -> i32
        requires { slot < size_of (fields self.now) }
        ensures { result ≡ (cells self.now).base slot }
    {
        self.places.slots.nodes.at(slot).base
    }

    /// Returns what the base field of a node says.
    pub fn stored_at(&self, node: usize) -> Stored
        requires { node < size_of (fields self.now) }

        //= `stored_at` and `stored_at_node` return what a node's base field says. [also stored_at_node]
        ensures { result ≡ (cells self.now).stored node }
    {
        L::read_base(self.base(node))
    }

    /// Returns the check field of a slot in use. The read is counted.
    pub fn check<C: Ledger>(&self, slot: usize, ticks: &mut Ticks<C>) -> i32
        requires { slot < size_of (fields self.now) }

        //= `check` returns a slot's check field, and counts one read. [with cell, counted]
        ensures field { result ≡ check_at (fields self.now).places.slots.nodes slot }
        ensures cell { slot < size_of (fields self.now) → result ≡ (cells self.now).check slot }
        ensures counted { ticks.new ≡ ticks.old + 1 }
    {
        ticks.tick();
        self.places.slots.nodes.at(slot).check
    }

    /// Returns whether a slot in use is held: it is the root, or its check field names an owner. The read is counted.
    pub fn is_held<C: Ledger>(&self, slot: usize, ticks: &mut Ticks<C>) -> bool
        requires { slot < size_of (fields self.now) }

        //= `is_held` returns whether a slot is held, and counts one read. [with counted]
        ensures held { IsTrue result ↔ Held (cells self.now) slot }
        ensures counted { ticks.new ≡ ticks.old + 1 }
    {
        let check = self.check(slot, ticks);
        slot == 0 || check >= 0
    }

    /// Returns the label after a slot's in its chain, or 0.
    pub fn sibling(&self, slot: usize) -> u8
        requires { slot < size_of (fields self.now) }
        ensures { result ≡ (cells self.now).sibling slot }
    {
        self.places.slots.infos.at(slot).sibling
    }

    /// Returns the label that begins a node's chain, or 0.
    pub fn child(&self, slot: usize) -> u8
        requires { slot < size_of (fields self.now) }
        ensures { result ≡ (cells self.now).child slot }
    {
        self.places.slots.infos.at(slot).child
    }
}
