//! What comes behind all byte strings with a prefix.

ghost use Rattle.std.specs.Prelude.{◌<◌, ◌≡◌, ◌≢◌, ◌≤◌, ◌-◌, ◌⊎◌, get_or, IfOk, length, option_map};
ghost use Rattle.std.specs.Prelude.{take};
ghost use Rattle.key_ranges.specs.Words.{successor};

use std::alloc::{AllocError, Allocator};

/// The first byte string behind all that begin with a prefix: None if there is none, since each byte of the prefix is the highest.
pub(crate) fn behind_prefix<A: Allocator + Copy>(
    alloc: A,
    prefix: &[u8],
) -> Result<Option<Vec<u8, A>>, AllocError>
    ensures { IfOk result (λ to. option_map (λ to. to.items) to ≡ successor prefix.now) }
{
    let len = len_that_counts(prefix);
    if len == 0 {
        return Ok(None);
    }
    let last = len - 1;
    let mut to = Vec::from_slice(alloc, &prefix[..last])?;
    to.push(prefix[last] + 1)?;
    Ok(Some(to))
}

/// How many bytes a prefix has without the highest ones at its end.
fn len_that_counts(prefix: &[u8]) -> usize
    ensures within { result ≤ length prefix.now }
    ensures same { successor (take result prefix.now) ≡ successor prefix.now }
    ensures last { (result ≡ 0) ⊎ ((0 < result) × (get_or prefix.now (result - 1) 0 < 255)) }
{
    let mut len = prefix.len();
    while 0 < len && prefix[len - 1] == 255 {
        len -= 1;
    }
    len
}
