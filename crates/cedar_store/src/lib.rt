//! A dictionary that is kept on a device: an acknowledged change isn't lost, whenever the process or the machine stops.
//!
//! The file is a journal of changes. Opening makes them again.
#![tactic(auto)]

mod batch;
mod change;
mod compact;
mod compaction;
mod counts;
mod error;
mod faults;
mod frames;
mod last_puts;
mod replay;
mod store;
mod words;

pub use change::Change;
pub use compaction::{CompactError, Compaction};
pub use error::DurableError;
// For whoever keeps the file by other means than a device.
pub use counts::count_records;
pub use frames::{erase_payload, put_payload};
pub use replay::{BATCH, read_store, words_of};
pub use store::{CedarStore, ReducedStore, Store};
pub use words::{Made, Words};
