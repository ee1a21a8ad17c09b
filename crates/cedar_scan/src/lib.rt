//! A text searched for the keys of a dictionary in linear time.
//!
//! In the examples `rt` is the program's runtime, `cedar` a new dictionary, `scanner` the scanner of one with the keys `he`, `she` and
//! `hers` and the values 1, 2 and 3 if it isn't made there, `longest` one for its longest leftmost matches, and `ticks` a count. `owned` is
//! a scanner that owns the dictionary with these three keys, for all matches or for the longest leftmost ones.
#![tactic(auto)]

mod build;
mod earliest;
mod falls;
mod kind;
mod laws;
mod leftmost;
mod leftmost_scanner;
mod nodes;
mod overlapping;
mod owned;
mod owned_leftmost;
mod placed;
mod places;
mod preferred;
mod scan;
mod scanner;
mod state;
mod step;
mod stream;
mod weights;

pub use earliest::Earliest;
pub use kind::MatchKind;
pub use laws::{
    held_suffixes_are_longest, leftmost_are_plain, overlapping_are_all_keys, pieces_join,
};
pub use leftmost::Leftmost;
pub use leftmost_scanner::LeftmostScanner;
pub use overlapping::Overlapping;
pub use owned::OwnedScanner;
pub use owned_leftmost::{OwnedKeys, OwnedLeftmostScanner};
pub use placed::Placed;
pub use preferred::PreferredKeys;
pub use scanner::Scanner;
pub use state::PlacedNode;
pub use stream::Stream;
