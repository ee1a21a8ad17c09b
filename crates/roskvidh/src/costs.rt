//! What words cost in a cut, and text that no word has.

use crate::fault::Fault;
use crate::input::read_file;
use crate::request::{Costing, Reading, Task};
use std::alloc::Global;
use std::rt::Files;
use word_lists::{CostsError, costs_of, list_lines};

/// The greatest cost: that of text that no word has, and of a word without a line in the file of costs, if nothing else is said.
const GREATEST: u32 = u32::MAX;

/// What `--unknown` says of runs of one class, and what a cost stands behind.
const CLASS: &str = "class";

/// What tokens cost in a cut.
#[derive(Drop)]
pub(crate) struct Costs {
    /// What words cost by their numbers; None if their numbers are their costs.
    pub words: Option<Vec<u32>>,
    pub unknown: Unknown,
}

/// What text costs that no word has.
#[derive(Clone, Copy)]
pub(crate) enum Unknown {
    /// A character costs this much.
    Character(u32),
    /// A run of characters of one class costs this much.
    Run(u32),
}

/// What tokens cost in the cut of a text, if it is cut by cost.
pub(crate) fn costs_for<'m, F: Files>(
    alloc: Global,
    files: &F,
    reading: Reading<'m>,
) -> Result<Costs, Fault<'m>> {
    match reading.task {
        Task::CutByCost(costing, _) => read_costs(alloc, files, costing),
        Task::Cut(_) | Task::Scan | Task::ScanLongest | Task::ScanMarked => Ok(Costs {
            words: None,
            unknown: Unknown::Character(GREATEST),
        }),
    }
}

/// What the arguments say of costs.
fn read_costs<'m, F: Files>(
    alloc: Global,
    files: &F,
    costing: Costing<'m>,
) -> Result<Costs, Fault<'m>> {
    let unknown = unknown_of(costing.unknown)?;
    let words = match costing.words {
        Some(path) => Some(word_costs(alloc, files, path)?),
        None => None,
    };
    Ok(Costs { words, unknown })
}

/// What `--unknown` says: a cost, or `class`, which a cost may follow; None if it says neither.
fn parse_unknown(text: &str) -> Option<Unknown> {
    if text == CLASS {
        return Some(Unknown::Run(GREATEST));
    }
    match text.split_once('=') {
        Some((class, cost)) if class == CLASS => Some(Unknown::Run(cost.parse().ok()?)),
        Some(_) => None,
        None => Some(Unknown::Character(text.parse().ok()?)),
    }
}

/// What text costs that no word has: as the arguments say, if they say it.
fn unknown_of<'m>(said: Option<&'m str>) -> Result<Unknown, Fault<'m>> {
    match said {
        Some(text) => parse_unknown(text).ok_or(Fault::Unknown(text)),
        None => Ok(Unknown::Character(GREATEST)),
    }
}

/// What words cost by their numbers, as the lines of a file say it.
fn word_costs<'m, F: Files>(
    alloc: Global,
    files: &F,
    path: &'m str,
) -> Result<Vec<u32>, Fault<'m>> {
    let text = read_file(alloc, files, path)?;
    let lines = list_lines(alloc, &text)?;
    match costs_of(alloc, &lines) {
        Ok(costs) => Ok(costs),
        Err(CostsError::Line(index)) => Err(Fault::Cost(path, index)),
        Err(CostsError::Memory) => Err(Fault::Memory),
    }
}
