//! Any list of calls on dictionaries of either layout, whichever the program learns as it runs, as one theorem.
//!
//! Dictionaries of a run are of one layout: an [`AnyTries`] is a list of them, and looks once which layout it has. `AnyTries::of` begins a
//! run with a dictionary of either layout, as `load_any` of `either_layout` loads it from a file. Its calls are those of `cedar_calls`.
//!
//! ```
//! let words = AnyCedar::load_any(rt.alloc(), saved, 1048576)?;
//! let Ok(mut tries) = AnyTries::of(rt.alloc(), words) else { return };
//! let mut answers = tries.reserve_for_calls(rt.alloc(), calls)?;
//! tries.run_calls(rt.alloc(), calls, &mut answers);
//! ```
#![tactic(auto)]

mod run;
mod tries;

pub use tries::AnyTries;
