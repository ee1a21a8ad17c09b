//! A save whose caller promises what is at the path from then on.

ghost use Rattle.std.specs.Prelude.{IfOk, IfSome};
ghost use Rattle.uses.specs.Words.{IsThere, path_calls, table_bytes};

use cedarwood::{Cedar, CedarPersistenceError, PathCalls, Saved, whole_files_are_safe};
use std::alloc::Global;
use std::rt::Files;

/// Saves a dictionary in a file, and returns the calls on it. None if what is at the path isn't a file: then it was written to that.
///
/// # Errors
/// Those of `save_to_path`.
pub fn keep<F: Files>(
    words: &Cedar<Global>,
    files: &F,
    path: &str,
) -> Result<Option<PathCalls<F>>, CedarPersistenceError>
    //= A new file of exactly the dictionary's bytes was given its place at the path, and from now on the path leads to these bytes, whatever
    //  crash comes. [by IsThere]
    ensures { IfOk result (λ done. IfSome done (λ calls. IsThere path.now (table_bytes 1 words.now.table) (path_calls calls))) }
{
    match words.save_to_path_noted(files, path) {
        Ok(Saved::Placed(calls)) => {
            whole_files_are_safe();
            Ok(Some(calls))
        }
        Ok(Saved::Sent(_)) => Ok(None),
        Err(failed) => Err(failed.error),
    }
}
