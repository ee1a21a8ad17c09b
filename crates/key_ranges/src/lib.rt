//! Ranges of byte strings in their order: with their ends included, left out or open, those that begin with a prefix, and those behind one of
//! them. A range owns its ends.
#![tactic(auto)]

mod ends;
mod laws;
mod prefix;
mod range;

pub use laws::{
    pages_join, pages_join_backwards, prefix_ranges_have_their_entries, ranges_have_what_they_hold,
};
pub use range::KeyRange;
