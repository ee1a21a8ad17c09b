//! The job that `tests/kill` kills, and that `tests/two`, `tests/power`, `tests/faults` and bench/durable.py watch: it appends numbered
//! records to a journal, or makes numbered changes in a dictionary, and tells what is there. What it prints of a record or a change comes
//! once that is acknowledged. Its verbs, with their words:
//!
//! - `append PATH COUNT` appends records, numbered on from those that are there, and prints the number of each.
//! - `rewrite PATH COUNT` puts the file's own bytes in its place so many times, and prints a number for each.
//! - `list PATH` prints how many records are there, if they are the first ones.
//! - `change PATH FIRST COUNT` makes changes, numbered from FIRST on, and prints the number of each.
//! - `insist PATH FIRST COUNT` goes on after a change that isn't made: then it prints its number and why.
//! - `persist PATH FIRST COUNT` also puts the file anew in its place then, and says so if that succeeds.
//! - `batch PATH FIRST COUNT SIZE` makes changes SIZE at a time as one, and prints each time how many are acknowledged.
//! - `grow PATH FIRST COUNT SIZE` does the same, and the file is never compacted; `fill` too, with a key for each change.
//! - `mend PATH` puts the file anew in its place, and prints how many entries it has. `len PATH` only prints that.
//! - `entries PATH` prints the entries, a key, a space and a value a line. `look PATH` does so without opening the file to change it.
//! - `reopen PATH..` does for each file what `entries` does, and then prints whether it was opened.

ghost use Rattle.cedar_store.specs.Words.{Only};

use crate::kept::{append, open, rewrite};
use crate::words::{Turns, on_store};
use anyhow::{Result, bail};
use cedar_disk::{FileDevice, OpenError, read_file};
use cedar_journal::ReplaceDevice;
use cedar_store::read_store;
use cedarwood::Cedar;
use std::alloc::Global;

/// What is done with a file.
#[derive(Clone, Copy)]
pub(crate) enum Work {
    Append,
    Rewrite,
    List,
    Change,
    Insist,
    Persist,
    Batch,
    Grow,
    Fill,
    Mend,
    Len,
    Entries,
    Look,
}

/// The verbs that have one path.
const VERBS: [(&str, Work); 13] = [
    ("append", Work::Append),
    ("rewrite", Work::Rewrite),
    ("list", Work::List),
    ("change", Work::Change),
    ("insist", Work::Insist),
    ("persist", Work::Persist),
    ("batch", Work::Batch),
    ("grow", Work::Grow),
    ("fill", Work::Fill),
    ("mend", Work::Mend),
    ("len", Work::Len),
    ("entries", Work::Entries),
    ("look", Work::Look),
];

/// Does what a verb says.
pub(crate) fn kill(rt: &HostRuntime, words: &[&str]) -> Result<()> {
    let [verb, words @ ..] = words else {
        bail!("usage: trial_run kill VERB PATH ..");
    };
    if *verb == "reopen" {
        return reopen(rt, words);
    }
    let [path, numbers @ ..] = words else {
        bail!("{verb} has no path");
    };
    let turns = turns_of(rt.alloc(), numbers)?;
    match work_of(verb) {
        Some(Work::Look) => look(rt, path),
        Some(Work::Rewrite) => {
            for turn in 0..turns.count {
                do_at(rt, path, Work::Rewrite, turns)?;
                println!(rt; "{turn}")?;
            }
            Ok(())
        }
        Some(work) => do_at(rt, path, work, turns),
        None => bail!("there is no verb {verb}"),
    }
}

fn work_of(verb: &str) -> Option<Work> {
    for (name, work) in VERBS {
        if name == verb {
            return Some(work);
        }
    }
    None
}

/// Returns what the numbers behind a path say: how many there are, or the first and how many, perhaps with a size.
fn turns_of(alloc: Global, words: &[&str]) -> Result<Turns> {
    let mut numbers: Vec<u64> = Vec::new(alloc);
    for word in words {
        numbers.push(word.parse()?)?;
    }
    let (first, count, size) = match numbers.as_slice() {
        [] => (0, 0, 1),
        [count] => (0, *count, 1),
        [first, count] => (*first, *count, 1),
        [first, count, size] => (*first, *count, *size),
        _ => bail!("a verb has three numbers at most"),
    };
    Ok(Turns { first, count, size })
}

/// Opens the file at a path, and does this with it. It is the one place with the type of a file's device: what follows is generic in it,
/// and so is proved once.
fn do_at(rt: &HostRuntime, path: &str, work: Work, turns: Turns) -> Result<()> {
    match FileDevice::open(rt, rt.alloc(), path) {
        Ok(device) => do_on(rt, device, work, turns),
        Err(OpenError::Locked) => bail!("another program has the file open"),
        Err(OpenError::Memory) => bail!("out of memory"),
        Err(OpenError::Io(_)) => bail!("the disk failed"),
    }
}

fn do_on<D: ReplaceDevice + Drop>(
    rt: &HostRuntime,
    device: D,
    work: Work,
    turns: Turns,
) -> Result<()>
    requires restarted { Only (D.seen device) (D.may_leave device) }
{
    match work {
        Work::Append => append(rt, device, turns.count),
        Work::List => {
            let (_, count) = open(device, rt.alloc())?;
            println!(rt; "{count}")?;
            Ok(())
        }
        Work::Rewrite => rewrite(device, rt.alloc()),
        _ => on_store(rt, device, work, turns),
    }
}

fn look(rt: &HostRuntime, path: &str) -> Result<()> {
    let Ok(bytes) = read_file(rt, rt.alloc(), path) else {
        bail!("the file isn't read");
    };
    let words: Cedar<Global> = read_store(rt.alloc(), &bytes)?;
    print_all(rt, &words)
}

/// Prints the entries of a dictionary.
pub(crate) fn print_all(rt: &HostRuntime, words: &Cedar<Global>) -> Result<()> {
    for entry in words.entries()? {
        let (key, value) = entry?;
        println!(rt; "{} {value}", str::from_utf8(&key)?)?;
    }
    Ok(())
}

fn reopen(rt: &HostRuntime, paths: &[&str]) -> Result<()> {
    let turns = turns_of(rt.alloc(), &[])?;
    for path in paths {
        match do_at(rt, path, Work::Entries, turns) {
            Ok(()) => println!(rt; "= opened")?,
            Err(error) => println!(rt; "= {error}")?,
        }
    }
    Ok(())
}
