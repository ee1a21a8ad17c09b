//! A table as its parts: it is made from them when it is loaded, and returns them when it is saved.

ghost use Rattle.std.specs.Prelude.{◌*◌, ◌≡◌, ◌≤◌, length};
ghost use Rattle.cedar_table.specs.Words.{blank_block, blank_info, blank_node, fields};
ghost use Rattle.cedar_table.specs.Words.{parts_fields, places_of, Shaped, size_of, with_blanks};

use crate::table::Table;
use cedar_model::Layout;
use cedar_slots::{
    BLOCK_SIZE, BlockRecord, Blocks, NInfoRecord, NodeRecord, Padded, Places, Slots,
};
use std::alloc::Allocator;
use std::marker::PhantomData;

/// What a table is made from. `size` is how many slots are in use.
#[derive(Drop)]
pub struct Parts<A: Allocator> {
    pub ordered: bool,
    pub entries: usize,
    pub size: usize,
    pub max_trial: i32,
    pub full_head: i32,
    pub closed_head: i32,
    pub open_head: i32,
    pub nodes: Vec<NodeRecord, A>,
    pub n_infos: Vec<NInfoRecord, A>,
    pub blocks: Vec<BlockRecord, A>,
    pub reject: Vec<i16, A>,
}

impl<L: Layout, const SLOTS: usize, A: Allocator> Table<L, SLOTS, A> {
    /// The table of some parts of the right sizes. Its lists are moved and not copied, and nothing else of them is tested.
    pub fn from_records(parts: Parts<A>) -> Self
        requires shaped { Shaped (parts_fields L.kind parts).places }
        requires rejects { length parts.reject.items ≡ 257 }

        //= `from_records` makes the table from some parts, field by field; `node_records` and calls like it return what is in memory, and
        //  all else is blank. [also node_records.all.some, info_records.all.some, block_records.all.some, reject_values]
        ensures { fields result ≡ parts_fields L.kind parts }
    {
        Table {
            layout: PhantomData,
            ordered: parts.ordered,
            entries: parts.entries,
            places: Places {
                slots: Slots {
                    nodes: Padded::of(parts.nodes),
                    infos: Padded::of(parts.n_infos),
                },
                blocks: Blocks {
                    records: Padded::of(parts.blocks),
                    full_head: parts.full_head,
                    closed_head: parts.closed_head,
                    open_head: parts.open_head,
                    active: parts.size / BLOCK_SIZE,
                    max_trial: parts.max_trial,
                },
                reject: parts.reject,
            },
        }
    }

    /// Returns slots, blocks and reject values together, to be tested.
    pub fn places(&self) -> &Places<A>
        //= `places` returns slots, blocks and reject values, whose sizes are those of a table. [with shaped, rejects]
        ensures places { places_of result.now ≡ (fields self.now).places }
        ensures shaped { Shaped (fields self.now).places }
        ensures rejects { length (fields self.now).places.reject ≡ 257 }
    {
        &self.places
    }

    /// Returns the slots that are in memory, to be written out: those in use, and maybe more. All others are blank.
    pub fn node_records(&self) -> &[NodeRecord]
        ensures all { (fields self.now).places.slots.nodes ≡ with_blanks blank_node (length (fields self.now).places.slots.nodes) result.now }
        ensures some { size_of (fields self.now) ≤ length result.now }
    {
        self.places.slots.nodes.front()
    }

    /// Returns the labels of the slots that are in memory, to be written out. All others are blank.
    pub fn info_records(&self) -> &[NInfoRecord]
        ensures all { (fields self.now).places.slots.infos ≡ with_blanks blank_info (length (fields self.now).places.slots.infos) result.now }
        ensures some { size_of (fields self.now) ≤ length result.now }
    {
        self.places.slots.infos.front()
    }

    /// Returns the blocks that are in memory, to be written out. All others are blank.
    pub fn block_records(&self) -> &[BlockRecord]
        ensures all { (fields self.now).places.blocks.records ≡ with_blanks blank_block (length (fields self.now).places.blocks.records) result.now }
        ensures some { size_of (fields self.now) ≤ 256 * length result.now }
    {
        self.places.blocks.records.front()
    }

    /// Returns all reject values, to be written out.
    pub fn reject_values(&self) -> &[i16]
        ensures { result.now ≡ (fields self.now).places.reject }
    {
        self.places.reject.as_slice()
    }
}
