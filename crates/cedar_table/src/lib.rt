//! The table of slots of a double-array trie, whose held slots represent a labelled tree: its nodes read and written one at
//! a time, and look-ups. Updates, erasures and walks are in crates above it.
#![tactic(auto)]

mod chain;
mod clone;
mod nodes;
mod parts;
mod room;
mod search;
mod table;

pub use cedar_model::{
    DefaultLayout, Layout, ReducedLayout, Stored, full_blocks_are_counted, held_slots_are_counted,
    held_slots_are_named, marks_are_read, one_path, one_tree, slots_stay,
};
pub use cedar_slots::{BLOCK_SIZE, BlockRecord, Corrupt, NInfoRecord, NodeRecord, Shortage, Ticks};
pub use parts::Parts;
pub use table::Table;
