//! The test of an untrusted table, such as one from a file: whether its slots, rings, blocks and lists are as they must be, and
//! whether its held slots represent a tree. It only reads, counts its reads and allocates nothing.

mod lists;
mod places;
mod rings;
mod tree;
mod whole;

pub use tree::check_tree;
pub use whole::{check_places, check_well_formed};
