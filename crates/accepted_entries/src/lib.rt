//! The entries whose keys an automaton accepts, one after another, by look-ups of first ones: of the first entry at a byte string or after
//! it. Where the automaton can't match any more, the next look-up is behind all that begin with the bytes that it has read. So nothing of
//! what is left out there is passed.
#![tactic(auto)]

mod next;
mod reading;

pub use next::{next_accepted, next_accepted_counted};
