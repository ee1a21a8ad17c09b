//! A table as a file: the bytes that are written for one, and the table that the bytes of a file encode, which is tested before
//! anybody gets it.
#![tactic(auto)]

mod check;
mod load;
mod save;

pub use check::{check_places, check_tree, check_well_formed};
pub use load::load_table;
pub use save::{put_table, table_len, write_table};
