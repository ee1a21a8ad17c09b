//! The last of some entries that ascend, found by look-ups of first ones: of the first entry at a byte string or after it. So no walk goes
//! backwards, and nothing that lies before is passed. [`Ascending`] is what such look-ups are made in.
#![tactic(auto)]

mod last;
mod near;
mod source;

pub use last::last_before;
pub use source::{Ascending, first_between};
