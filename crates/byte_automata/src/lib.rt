//! Automata over bytes: each says of a key, byte after byte, whether it is wanted, and where it says that it can't match any more no key that
//! goes on so is. A walk over the keys of a dictionary leaves out whatever is below such a place.
//!
//! ```
//! let near = Both::new(Prefix::new(b"n"), Within::one(b"net"));
//! assert!(rt; accepts_key(&near, b"nets"));
//! assert!(rt; !near.can_match(&near.step(&near.start(), b'x')));
//! ```
#![tactic(auto)]

mod automaton;
mod borrowed;
mod case;
mod characters;
mod distance;
mod front;
mod laws;
mod pairs;
mod pattern;
mod prefix;
mod rows;

pub use automaton::{Automaton, accepts_key};
pub use case::AnyCase;
pub use characters::{Reading, WithinCharacters};
pub use distance::Within;
pub use front::Beginning;
pub use laws::{characters_are_read, only_utf8_is_read};
pub use pairs::{Both, Either};
pub use pattern::{MOST_PATTERN_BYTES, Pattern, PatternError};
pub use prefix::Prefix;
pub use rows::Band;
