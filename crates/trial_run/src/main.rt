//! The program that stores are tried by, and searches, cuts and completions are timed by. `trial_run JOB ..` does a job. Each has its words
//! behind it:
//!
//! - `kill VERB ..` makes numbered records of a journal, or numbered changes of a dictionary on a disk (kill.rt).
//! - `scan FOLDER PASSES [searches | cuts | all]` times searches and cuts of a text (searches.rt, cuts.rt).
//! - `complete FOLDER PASSES` times completions (completed.rt, near.rt).
//! - `all FOLDER PASSES` does all three, one after another: the first makes three records in `numbers.journal`.
//!
//! The last two print for each pass of each measure a line `measure TAB nanoseconds TAB operations TAB sum`. With 0 passes each measure is
//! made once and no clock is read: its nanoseconds are 0.
#![tactic(auto)]

ghost use Rattle.cedar_store.specs.Words.{IsReady, Only};

mod completed;
mod cuts;
mod kept;
mod keys;
mod kill;
mod near;
mod searches;
mod watch;
mod words;

use anyhow::{Result, bail};
use std::env;

fn main(rt: HostRuntime) -> Result<()> {
    let words: Vec<String> = env::args(&rt)?.skip(1).collect(rt.alloc())?;
    let words: Vec<&str> = words.iter().map(|word| word.as_str()).collect(rt.alloc())?;
    let [job, words @ ..] = words.as_slice() else {
        bail!("usage: trial_run kill | scan | complete | all ..");
    };
    match *job {
        "kill" => kill::kill(&rt, words),
        "scan" => searches::scan(&rt, words),
        "complete" => completed::complete(&rt, words),
        "all" => all(&rt, words),
        _ => bail!("there is no job {job}"),
    }
}

/// Does each job once.
fn all(rt: &HostRuntime, words: &[&str]) -> Result<()> {
    let [folder, passes] = words else {
        bail!("usage: trial_run all FOLDER PASSES");
    };
    kill::kill(rt, &["append", "numbers.journal", "3"])?;
    searches::scan(rt, &[*folder, *passes, "all"])?;
    completed::complete(rt, words)
}
