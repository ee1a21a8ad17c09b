//! What is wrong with a table that was read from bytes.

/// A fault of a table's fields: in which part of them, at which place of that part, and why.
#[derive(Clone, Copy, Debug, PartialEq, Eq)]
pub struct Corrupt {
    pub section: &'static str,
    pub index: usize,
    pub reason: &'static str,
}

impl Corrupt {
    /// Returns a fault of a reject value.
    pub fn reject(index: usize, reason: &'static str) -> Corrupt {
        Corrupt {
            section: "reject",
            index,
            reason,
        }
    }

    /// Returns a fault of a slot's own fields.
    pub fn nodes(slot: usize, reason: &'static str) -> Corrupt {
        Corrupt {
            section: "nodes",
            index: slot,
            reason,
        }
    }

    /// Returns a fault of a block's own fields.
    pub fn blocks(block: usize, reason: &'static str) -> Corrupt {
        Corrupt {
            section: "blocks",
            index: block,
            reason,
        }
    }

    /// Returns a fault in a ring of free slots.
    pub fn free_list(slot: usize, reason: &'static str) -> Corrupt {
        Corrupt {
            section: "free-list",
            index: slot,
            reason,
        }
    }

    /// Returns a fault of a slot's labels.
    pub fn n_infos(slot: usize, reason: &'static str) -> Corrupt {
        Corrupt {
            section: "n_infos",
            index: slot,
            reason,
        }
    }

    /// Returns a fault in a list of blocks.
    pub fn block_lists(block: usize, reason: &'static str) -> Corrupt {
        Corrupt {
            section: "block-lists",
            index: block,
            reason,
        }
    }

    /// Returns a fault of a slot of the tree.
    pub fn trie(slot: usize, reason: &'static str) -> Corrupt {
        Corrupt {
            section: "trie",
            index: slot,
            reason,
        }
    }

    /// Returns a fault in the chain of labels below a slot.
    pub fn siblings(slot: usize, reason: &'static str) -> Corrupt {
        Corrupt {
            section: "siblings",
            index: slot,
            reason,
        }
    }

    /// Returns the fault of a chain that names a slot of another node, or of none.
    pub fn child_owner(slot: usize) -> Corrupt {
        Corrupt::siblings(slot, "child ownership link is invalid")
    }
}
