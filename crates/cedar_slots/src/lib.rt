//! The slots of a double-array trie and where new ones are found: the rings of free slots, the blocks of 256
//! slots, and the three lists of blocks. Nothing here knows what the slots represent.
#![tactic(auto)]

mod blocks;
mod corrupt;
mod padded;
mod places;
mod records;
mod shortage;
mod slots;
mod ticks;

pub use blocks::{BlockType, Blocks, Counts};
pub use corrupt::Corrupt;
pub use padded::{Blank, Padded};
pub use places::{Places, root_count};
pub use records::{BlockRecord, NInfoRecord, NodeRecord};
pub use shortage::Shortage;
pub use slots::{BLOCK_SIZE, Slots};
pub use ticks::Ticks;
