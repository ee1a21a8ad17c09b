//! Readers and writers that remember whether one of their calls failed, whole writes to them, and what is read of lines of text: what
//! files, scripts and word lists share.
#![tactic(auto)]

mod lines;
mod retries;
mod watched;
mod write;

pub use lines::{parse_number, position_of};
pub use watched::Watched;
pub use write::{WriteFault, write_both, write_line, write_whole};
