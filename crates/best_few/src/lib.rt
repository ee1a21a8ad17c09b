//! The best few of some entries: those whose values come first, in their order. A heap holds them while the entries go by, so it takes
//! memory for so many entries, however many go by.
#![tactic(auto)]

mod few;
mod laws;
mod order;
mod walk;

pub use few::best_of;
pub use laws::order_is_an_order;
pub use order::ByValue;
pub use walk::EntryWalk;
