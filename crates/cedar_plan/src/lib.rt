//! What has to be done to a journal's file, as steps for somebody else to carry out: for a library that makes no system calls.
//!
//! A step is a cut or a write, and waits until the disk has it. Whoever carries out the steps of a plan in their order, and stops at the
//! first that fails, has a journal from which no crash takes an acknowledged record.
#![tactic(auto)]

mod laws;
mod plan;

pub use laws::{appends_are_safe, openings_are_safe, withdrawals_are_safe};
pub use plan::{CUT, HEADER, Plan, Step, WRITE, plan_append, plan_opening, record_of};
