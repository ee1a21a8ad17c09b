//! Files in memory.

use crate::watch::Answered;
use crate::{Plan, Workload};
use anyhow::Result;
use cedarwood::{Cedar, CedarPersistenceError, Watched};
use std::alloc::Global;

/// Measures saves and loads that are wanted, and prints the file's size.
pub(crate) fn saves(
    rt: &HostRuntime,
    plan: Plan<'_>,
    cedar: &Cedar<Global>,
    work: &Workload<'_>,
) -> Result<()> {
    let operations = work.sorted.len();
    // Not as a measure: what is counted goes to the next one that ends.
    let mut writer = Watched::new(Vec::new(rt.alloc()));
    cedar.save_to_writer(&mut writer)?;
    let mut file = writer.into_inner();
    if plan.passes_of("file") > 0 {
        println!(rt; "file\t{}\t{operations}\t0", file.len())?;
    }
    for _ in 0..plan.passes_of("save") {
        file.clear();
        let mut writer = Watched::new(file);
        let watch = plan.clock.start(rt)?;
        measured_save(cedar, &mut writer)?;
        watch.measure_ends(rt, "save", Answered { operations, sum: 0 })?;
        file = writer.into_inner();
    }
    for _ in 0..plan.passes_of("load") {
        let watch = plan.clock.start(rt)?;
        let _loaded = measured_load(rt.alloc(), &file)?;
        watch.measure_ends(rt, "load", Answered { operations, sum: 1 })?;
    }
    Ok(())
}

#[inline(never)]
fn measured_save(
    cedar: &Cedar<Global>,
    writer: &mut Watched<Vec<u8>>,
) -> Result<(), CedarPersistenceError> {
    cedar.save_to_writer(writer)
}

#[inline(never)]
fn measured_load(alloc: Global, file: &[u8]) -> Result<Cedar<Global>, CedarPersistenceError> {
    let mut rest = file;
    Cedar::load_from_reader(alloc, &mut rest)
}
