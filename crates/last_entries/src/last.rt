//! The last entry before an end.

ghost use Rattle.std.specs.Prelude.{IfOk, option_map};
ghost use Rattle.last_entries.specs.Words.{AscendByKeys, before_end, entry_told, IsLastOf};

use crate::near::{Near, nearer};
use crate::source::{Ascending, first_between};
use std::alloc::{AllocError, Allocator};

/// The last entry whose key comes before an end, or of all if there is none: its value and its key, in memory from `alloc`; None if there is
/// no such entry. It looks first entries up: for each byte of the key one, and where keys part some more, as many as a search by halves takes.
///
/// # Errors
/// An allocation was refused, by a look-up or here.
pub fn last_before<S: Ascending, A: Allocator + Copy>(
    alloc: A,
    source: &S,
    to: Option<&[u8]>,
) -> Result<Option<(i32, Vec<u8, A>)>, AllocError>
    requires { AscendByKeys (S.entries source.now) }

    //= A search for the last entry finds the last one before an end, or of all, and returns None exactly if there is none.
    ensures { IfOk result (λ found. IsLastOf (before_end (option_map (λ z. z.now) to.entry) (S.entries source.now)) (entry_told found)) }
{
    let mut key = Vec::new(alloc);
    let Some(value) = first_between(source, &[], to, &mut key)? else {
        return Ok(None);
    };
    let mut near = Near {
        key,
        value,
        depth: 0,
        highest: 255,
        step: 1,
    };
    while !nearer(alloc, source, to, &mut near)? {}
    Ok(Some((near.value, near.key)))
}
