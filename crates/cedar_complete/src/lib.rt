//! Completions as people type: the best few of a dictionary's entries, pages of them, ranges with ends of any kind, and what an automaton
//! accepts of them, such as what is an edit away.
//!
//! ```
//! cedar.build(&[("net", 7), ("nest", 9), ("ten", 2)])?;
//! let found = best_with_prefix(rt.alloc(), &cedar, b"ne", 1, ByValue::HighestFirst)?;
//! assert_eq!(rt; (found[0].0, found[0].1.as_slice()), (9, b"nest".as_slice()));
//! ```
#![tactic(auto)]

mod best;
mod ends;
mod error;
mod look_ups;
mod matching;
mod ranges;

pub use best::{best_entries, best_matching, best_with_prefix};
pub use best_few::ByValue;
pub use ends::{first_in, last_in};
pub use error::RangeError;
pub use key_ranges::KeyRange;
pub use matching::next_matching;
pub use ranges::entries_in;
