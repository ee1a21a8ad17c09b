//! The entries of a dictionary whose keys an automaton accepts: a walk that leaves out whatever is below a node where it can't match any more.
#![tactic(auto)]

mod cursor;
mod entries;
mod nodes;
mod table;

pub use cursor::MatchingCursor;
pub use entries::MatchingEntries;
pub use nodes::{Node, Nodes};
pub use table::{cursor_matching, entries_matching};
