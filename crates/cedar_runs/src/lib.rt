//! Any list of calls of a store, with a crash at any moment, as one theorem.
//!
//! [`make_store_call`] makes a call, and [`run_store_calls`] those of a list, one after another. Their contracts say what a crash at any
//! moment leaves: the dictionary after the calls that were acknowledged, with the call under way or without it.
//! [`acknowledged_calls_stay`] says the same of a store that is opened, called and stopped again and again.
#![tactic(auto)]

mod call;
mod laws;
mod run;

pub use call::{Outcome, StoreCall};
pub use laws::acknowledged_calls_stay;
pub use run::{begin_session, make_store_call, run_store_calls};
