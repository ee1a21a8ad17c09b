//! A dictionary of whichever layout its file has.

ghost use Rattle.std.specs.Prelude.{IfOk};
ghost use Rattle.uses.specs.Words.{IsValueIn};

use cedarwood::{CedarPersistenceError, DEFAULT_LOAD_MEMORY_LIMIT};
use either_layout::AnyCedar;
use std::alloc::Global;

/// The value at a key of the dictionary that was saved in a file, whichever layout that names, or None if the key isn't held there.
///
/// # Errors
/// Those of a load.
pub fn value_in(
    alloc: Global,
    file: &[u8],
    key: &[u8],
) -> Result<Option<i32>, CedarPersistenceError>
    //= What is found in a file is what the dictionary of its bytes holds at the key. [by IsValueIn]
    ensures { IfOk result (IsValueIn file.now key.now) }
{
    let words = AnyCedar::load_any(alloc, file, DEFAULT_LOAD_MEMORY_LIMIT)?;
    Ok(words.get_bytes(key))
}
