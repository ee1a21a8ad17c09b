//! Walks over a table: the nodes one after another, the prefixes of a query, and look-ups of many keys in step.
#![tactic(auto)]

mod batch;
mod ends;
mod fronts;
mod keys;
mod past;
mod pending;
mod ranges;
mod visits;

pub use batch::exact_match_search_batch;
pub use ends::last_numbered;
pub use fronts::{Front, next_held_front};
pub use keys::numbered_after_with_key;
pub use past::node_past;
pub use pending::{
    PendingSibling, PendingSiblings, first_with_pending, numbered_after_with_pending,
};
pub use ranges::{first_since, write_path};
pub use visits::{Numbered, Visited, first_numbered, node_after, numbered_after};
