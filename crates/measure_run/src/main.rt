//! The subject `here` of `./measure`: this repository's library, called from Rattle and measured as bench/cpp/measures.hpp measures the
//! others. `measure_run FOLDER PASSES MEASURE..` reads the files of a workload that bench/workloads.py wrote, and prints for each pass of
//! each measure a line `measure TAB nanoseconds TAB operations TAB sum`. With 0 passes each measure is made once and no clock is read: its
//! nanoseconds are 0.
//!
//! What is timed is in a function whose name begins with `measured`, and nothing else is: callgrind counts these functions alone. It is a
//! program of its own, since a call of the library is inlined into its loop only where nothing else in the program makes that call.
#![tactic(auto)]

mod changes;
mod files;
mod keys;
mod look_ups;
mod walks;
mod watch;

use anyhow::{Context, Result, bail};
use cedarwood::Cedar;
use changes::{builds, changes};
use files::saves;
use keys::{Values, fill, keys_of, pairs};
use look_ups::look_ups;
use std::alloc::Global;
use std::time::{CpuClock, Instant};
use std::{env, fs};
use walks::walks;
use watch::Clock;

/// The measures that are wanted, and how often each is made.
#[derive(Clone, Copy)]
pub(crate) struct Plan<'a> {
    pub(crate) clock: Clock,
    passes: u32,
    measures: &'a [&'a str],
}

impl Plan<'_> {
    /// Returns how often a measure is made: never if it isn't wanted.
    pub(crate) fn passes_of(self, name: &str) -> u32 {
        if self.measures.iter().any(|measure| *measure == name) {
            self.passes.max(1)
        } else {
            0
        }
    }
}

/// What the files of a workload hold.
#[derive(Drop)]
pub(crate) struct Workload<'a> {
    pub(crate) sorted: Vec<(&'a [u8], i32)>,
    pub(crate) shuffled: Vec<(&'a [u8], i32)>,
    pub(crate) sorted_keys: Vec<&'a [u8]>,
    pub(crate) hits: Vec<&'a [u8]>,
    pub(crate) misses: Vec<&'a [u8]>,
    pub(crate) erasures: Vec<&'a [u8]>,
    pub(crate) prefixes: Vec<&'a [u8]>,
    pub(crate) text: &'a [u8],
}

/// The files of a workload, in the order in which `workload_of` takes them.
const FILES: [&str; 8] = [
    "sorted",
    "shuffled",
    "shuffled.values",
    "hits",
    "misses",
    "erasures",
    "prefixes",
    "text",
];

fn main(rt: HostRuntime) -> Result<()> {
    let words: Vec<String> = env::args(&rt)?.skip(1).collect(rt.alloc())?;
    let words: Vec<&str> = words.iter().map(|word| word.as_str()).collect(rt.alloc())?;
    let [folder, passes, measures @ ..] = words.as_slice() else {
        bail!("usage: measure_run FOLDER PASSES MEASURE..");
    };
    let passes: u32 = passes.parse()?;
    let clock = Clock { runs: passes > 0 };
    let plan = Plan {
        clock,
        passes,
        measures,
    };
    let mut files = Vec::new(rt.alloc());
    for name in FILES {
        let path = format!(in rt.alloc(); "{folder}/{name}")?;
        files.push(fs::read(&rt, path).context(format_args!("reading {folder}/{name}"))?)?;
    }
    let work = workload_of(rt.alloc(), &files)?;
    make_all(&rt, plan, &work)
}

/// Returns what a workload's files hold.
fn workload_of(alloc: Global, files: &[Vec<u8>]) -> Result<Workload<'_>> {
    let [
        sorted,
        shuffled,
        values,
        hits,
        misses,
        erasures,
        prefixes,
        text,
    ] = files
    else {
        bail!("a workload has other files");
    };
    let sorted_keys = keys_of(alloc, sorted)?;
    Ok(Workload {
        sorted: pairs(alloc, &sorted_keys, Values::Places)?,
        shuffled: pairs(alloc, &keys_of(alloc, shuffled)?, Values::Of(values))?,
        sorted_keys,
        hits: keys_of(alloc, hits)?,
        misses: keys_of(alloc, misses)?,
        erasures: keys_of(alloc, erasures)?,
        prefixes: keys_of(alloc, prefixes)?,
        text,
    })
}

/// Makes the measures that are wanted: first by how much the process grows that stores the keys in sorted order.
fn make_all(rt: &HostRuntime, plan: Plan<'_>, work: &Workload<'_>) -> Result<()> {
    let alloc = rt.alloc();
    if plan.passes_of("resident") > 0 {
        let before = resident_bytes(rt)?;
        let _cedar = fill(alloc, &work.sorted)?;
        let grown = resident_bytes(rt)?.saturating_sub(before);
        println!(rt; "resident\t{grown}\t{}\t0", work.sorted.len())?;
    }
    let cedar = fill(alloc, &work.sorted)?;
    look_ups(rt, plan, &cedar, work)?;
    walks(rt, plan, &cedar, work)?;
    changes(rt, plan, work)?;
    builds(rt, plan, work)?;
    saves(rt, plan, &cedar, work)?;
    if plan.passes_of("latency") > 0 {
        latency(rt, alloc, &work.shuffled)?;
    }
    Ok(())
}

/// How many bytes a page of memory has.
const PAGE: u64 = 4096;

/// Returns how much memory of the process is in use.
fn resident_bytes(rt: &HostRuntime) -> Result<u64> {
    let text = fs::read_to_string(rt, "/proc/self/statm")?;
    let word = text.as_str().split(' ').nth(1).context("statm")?;
    let pages: u64 = word.parse()?;
    Ok(pages.wrapping_mul(PAGE))
}

/// Which times of single updates are printed: so many of a million updates take longer.
const LEVELS: [(&str, usize); 6] = [
    ("latency_50", 500_000),
    ("latency_90", 100_000),
    ("latency_99", 10_000),
    ("latency_99.9", 1_000),
    ("latency_99.99", 100),
    ("latency_most", 0),
];

/// Times each update by itself, and prints which times so many updates exceed. A level that less than one update lies above isn't printed.
/// The time of an update is the least of what the clock and the processor's clock say, so that one that was interrupted doesn't count as
/// slow. The reading of both is in it.
fn latency(rt: &HostRuntime, alloc: Global, pairs: &[(&[u8], i32)]) -> Result<()> {
    let mut cedar = Cedar::new(alloc)?;
    let mut times = Vec::with_capacity(alloc, pairs.len())?;
    for (key, value) in pairs {
        let used = rt.thread_cpu_time()?;
        let begun = Instant::now(rt)?;
        cedar.update_bytes(key, *value)?;
        let spent = begun.elapsed(rt)?;
        let used = rt.thread_cpu_time()?.saturating_sub(used);
        let time = spent.min(used).as_nanos();
        times.push(u64::try_from(time).unwrap_or(u64::MAX))?;
    }
    times.sort_unstable();
    for (name, slower) in LEVELS {
        let above = times.len().saturating_mul(slower) / 1_000_000;
        let place = times.len().saturating_sub(1).saturating_sub(above);
        if (above > 0 || slower == 0)
            && let Some(time) = times.get(place)
        {
            println!(rt; "{name}\t{time}\t1\t0")?;
        }
    }
    Ok(())
}
