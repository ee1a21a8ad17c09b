//! The program that bench/run times: jobs that a user of the dictionary waits for, on inputs that it makes from a number. `bench_run JOB SEED`
//! does a job and prints a digest of all its answers. `bench_run JOB SEED PARTS` does a part of it: one of so many.
//!
//! Each job calls the libraries' public functions alone, and none twice on one input.
#![tactic(auto)]

mod awkward;
mod complete;
mod digest;
mod ids;
mod made;
mod make;
mod scripts;
mod service;
mod texts;
mod words;

use anyhow::{Result, bail};
use digest::Digest;
use made::Scale;
use std::alloc::Global;
use std::env;

/// The jobs.
const JOBS: [&str; 6] = ["texts", "service", "complete", "make", "scripts", "awkward"];

fn main(rt: HostRuntime) -> Result<()> {
    let words: Vec<String> = env::args(&rt)?.skip(1).collect(rt.alloc())?;
    let (name, seed, parts) = match words.as_slice() {
        [name, seed] => (name, seed.as_str().parse()?, 1),
        [name, seed, parts] => (name, seed.as_str().parse()?, parts.as_str().parse()?),
        _ => bail!("usage: bench_run JOB SEED [PARTS]"),
    };
    let scale = Scale { seed, parts };
    if name.as_str() != "all" {
        return print_job(&rt, name.as_str(), scale);
    }
    for job in JOBS {
        print_job(&rt, job, scale)?;
    }
    Ok(())
}

/// Does a job, and prints its name and the digest of its answers.
fn print_job(rt: &HostRuntime, name: &str, scale: Scale) -> Result<()> {
    let digest = digest_of(rt.alloc(), name, scale)?.sum();
    println!(rt; "{name} {digest:016x}")?;
    Ok(())
}

/// Does a job, and returns the digest of its answers.
fn digest_of(alloc: Global, name: &str, scale: Scale) -> Result<Digest> {
    match name {
        "texts" => texts::texts(alloc, scale),
        "service" => service::service(alloc, scale),
        "complete" => complete::complete(alloc, scale),
        "make" => make::make(alloc, scale),
        "scripts" => scripts::scripts(alloc, scale),
        "awkward" => awkward::awkward(alloc, scale),
        _ => bail!("no job of this name"),
    }
}
