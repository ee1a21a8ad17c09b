//! A table made from sorted pairs at once: each node gets all of its slots together, and not one after another as by updates.
//! It represents the tree of its pairs all the same.
#![tactic(auto)]

mod append;
mod fill;
mod sorted;
mod spans;

pub use sorted::build_sorted;
