//! Any list of calls, on any number of dictionaries, as one theorem. A [`Call`] is one of the dictionary, or one about a text by its keys.
//!
//! [`reserve_for_calls`] makes room, which may be refused. [`run_calls`] then makes the calls of a list one after another, and its contract
//! says what they return and what they leave: whatever the calls are, each result is that of a labelled tree for each dictionary, which
//! the calls carry on. The words of that contract are in `specs/`; docs/THEOREM.md reads it aloud.
#![tactic(auto)]

mod answer;
mod call;
mod change;
mod laws;
mod make;
mod run;

pub use answer::{Answer, Changed};
pub use call::{Call, Change};
pub use cedar_replies::{
    BufferQuery, BufferReply, ByValue, CompletionQuery, CompletionReply, Figure, KeyEnds,
    ModelTables, Question, Reply, TextQuery, TextReply,
};
pub use laws::{
    keys_stand_alone, keys_stand_alone_in_runs, runs_agree, saves_load_again, trees_decide,
};
pub use run::{reserve_for_calls, run_calls};
