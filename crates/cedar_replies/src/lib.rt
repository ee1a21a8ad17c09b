//! What a dictionary replies to questions, as values. A [`Question`] is one of the dictionary, or one about a text by its keys, about
//! completions, or about entries whose keys are written into a buffer.
//!
//! [`reply_to`] asks a dictionary, and its contract says what a [`Reply`] may be: the words of it are in `specs/`. `cedar_calls` makes
//! runs of such questions and of changes.
#![tactic(auto)]

mod answer;
mod buffers;
mod completions;
mod ends;
mod model;
mod place;
mod question;
mod reply;
mod texts;

pub use answer::{BufferReply, CompletionReply, Reply, TextReply};
pub use cedar_complete::ByValue;
pub use ends::KeyEnds;
pub use model::ModelTables;
pub use place::places;
pub use question::{BufferQuery, CompletionQuery, Figure, Question, TextQuery};
pub use reply::reply_to;
