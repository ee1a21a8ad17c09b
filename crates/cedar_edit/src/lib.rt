//! Keys put into a table and erased: labels and numbers of its nodes, and sets of slots moved to another base if a new
//! label finds no room.
#![tactic(auto)]

mod edit;
mod keys;
mod relocation;

pub use keys::erase::{erase, erase_at};
pub use keys::put::update;
