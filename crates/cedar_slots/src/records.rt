//! The records of slots and blocks, as a file has them too.

ghost use Rattle.cedar_slots.specs.Blocks.{blank_block};
ghost use Rattle.cedar_slots.specs.Slots.{blank_info, blank_node};

use crate::padded::Blank;

/// A slot's numbers. In a free slot `check` names the next one of its ring, and `base` the one before.
#[derive(Clone, Copy, Debug, PartialEq, Eq)]
pub struct NodeRecord {
    pub base: i32,
    pub check: i32,
}

/// The next label of a slot's chain, and the first label below it.
#[derive(Clone, Copy, Debug, PartialEq, Eq)]
pub struct NInfoRecord {
    pub sibling: u8,
    pub child: u8,
}

impl NodeRecord {
    /// A slot that is not in use.
    pub const BLANK: NodeRecord = NodeRecord { base: 0, check: 0 };
}

impl NInfoRecord {
    /// The labels of a slot that is free or not in use.
    pub const BLANK: NInfoRecord = NInfoRecord {
        sibling: 0,
        child: 0,
    };
}

/// A block of 256 slots, with its neighbours in its list.
#[derive(Clone, Copy, Debug, PartialEq, Eq)]
pub struct BlockRecord {
    /// The block before this one in its list.
    pub prev: i32,
    /// The block after this one in its list.
    pub next: i32,
    /// How many slots are free; in block 0 the root counts too.
    pub num: i16,
    /// A set of this many labels finds no place in the block.
    pub reject: i16,
    /// How often a search for a place has failed in the block.
    pub trial: i32,
    /// The head of the empty slots, as the original calls free ones: a free slot of the block, if it has one.
    pub e_head: i32,
}

impl BlockRecord {
    /// Block 0 with only the root held: it is in no list but the ring of the full one.
    pub const ROOT: BlockRecord = BlockRecord {
        prev: 0,
        next: 0,
        num: 256,
        reject: 257,
        trial: 0,
        e_head: 1,
    };

    /// A block that is not in use.
    pub const BLANK: BlockRecord = BlockRecord {
        prev: 0,
        next: 0,
        num: 256,
        reject: 257,
        trial: 0,
        e_head: 0,
    };
}

impl Blank for NodeRecord {
    ghost BLANK = { blank_node };

    const BLANK: NodeRecord = NodeRecord { base: 0, check: 0 };
}

impl Blank for NInfoRecord {
    ghost BLANK = { blank_info };

    const BLANK: NInfoRecord = NInfoRecord {
        sibling: 0,
        child: 0,
    };
}

impl Blank for BlockRecord {
    ghost BLANK = { blank_block };

    const BLANK: BlockRecord = BlockRecord {
        prev: 0,
        next: 0,
        num: 256,
        reject: 257,
        trial: 0,
        e_head: 0,
    };
}
