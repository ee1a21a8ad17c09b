//! What slots represent: the definitions by which a table of slots is one labelled tree, and their laws. Of the code only the
//! layouts of a base field are here, since a node's meaning depends on them.
#![tactic(auto)]

mod laws;
mod layout;

pub use laws::{
    full_blocks_are_counted, held_slots_are_counted, held_slots_are_named, marks_are_read,
    one_path, one_tree, slots_stay,
};
pub use layout::{DefaultLayout, Layout, ReducedLayout, Stored};
