//! What is whole in a store's file that somebody else has damaged, for whoever makes a new store of it; and what an opening would cut off
//! such a file, kept beside it. The damaged file is only read.
#![tactic(auto)]

mod change;
mod cut;
mod held;
mod keep;
mod opening;
mod record;
mod whole;

pub use change::{Kind, kind_of};
pub use cut::may_cut_records;
pub use keep::{KeepError, Kept, keep_cut};
pub use opening::{OpenedStore, OpeningError, UnopenedStore, keep_and_open};
pub use record::format_of;
pub use whole::{salvage, store_with};
