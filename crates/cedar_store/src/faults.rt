//! The faults of a batch's changes, found without memory.

ghost use Rattle.std.specs.Prelude.{◌≡◌, IfSome, IsOk, None};
ghost use Rattle.cedar_store.specs.Words.{change_fault, change_told, changes_told};
ghost use Rattle.cedar_store.specs.Words.{first_refused};

use crate::{Change, DurableError};
use cedarwood::{CedarError, check_pair};

/// Returns the refusal of the first change that has a fault, with its index, or None if none has one.
pub(crate) fn first_refused(changes: &[Change<'_>]) -> Option<DurableError>
    ensures { result ≡ first_refused 0 (changes_told changes.now) }
{
    for index in 0..changes.len() {
        match check_change(&changes[index]) {
            Ok(()) => {}
            Err(error) => return Some(DurableError::RefusedAt { index, error }),
        }
    }
    None
}

/// Tests a change: if it is an update, its pair.
fn check_change(change: &Change<'_>) -> Result<(), CedarError>
    ensures faulty { IfSome (change_fault (change_told change.now)) (λ e. result ≡ Err e) }
    ensures sound { change_fault (change_told change.now) ≡ None → IsOk result }
{
    match change {
        Change::Update { key, value } => check_pair(key, *value),
        Change::Erase { .. } => Ok(()),
    }
}
