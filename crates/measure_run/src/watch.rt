//! How measures are timed and printed.

use anyhow::Result;
use std::time::{CpuClock, Duration};

/// Whether measures are timed.
#[derive(Clone, Copy)]
pub(crate) struct Clock {
    pub(crate) runs: bool,
}

impl Clock {
    /// Begins a measure.
    pub(crate) fn start(self, rt: &HostRuntime) -> Result<Watch> {
        let begun = if self.runs {
            Some(rt.thread_cpu_time()?)
        } else {
            None
        };
        Ok(Watch { begun })
    }
}

/// When a measure began, by the processor's time of the thread; None if it isn't timed.
#[derive(Clone, Copy)]
pub(crate) struct Watch {
    begun: Option<Duration>,
}

/// What a measure has returned: of how many operations, and a sum by which programs are compared.
#[derive(Clone, Copy)]
pub(crate) struct Answered {
    pub(crate) operations: usize,
    pub(crate) sum: u64,
}

impl Watch {
    /// Prints the line of a measure that has just ended. callgrind writes what it has counted at each call of this function.
    #[inline(never)]
    pub(crate) fn measure_ends(
        self,
        rt: &HostRuntime,
        name: &str,
        answered: Answered,
    ) -> Result<()> {
        let spent = match self.begun {
            Some(begun) => rt.thread_cpu_time()?.saturating_sub(begun).as_nanos(),
            None => 0,
        };
        let Answered { operations, sum } = answered;
        println!(rt; "{name}\t{spent}\t{operations}\t{sum}")?;
        Ok(())
    }
}

/// Returns one more than a value, as a number that sums are made of.
#[inline(always)]
pub(crate) fn count_of(value: i32) -> u64 {
    u64::from(value.cast_unsigned()).wrapping_add(1)
}
