//! Places for results.

ghost use Rattle.std.specs.Prelude.{◌<◌, ◌≡◌, IfOk, OnErr, vec_len};

use std::alloc::{AllocError, Allocator};

/// As many elements as there are results to come. None need no memory.
pub fn places<T: Copy, A: Allocator>(
    alloc: A,
    unset: T,
    count: usize,
) -> Result<Vec<T, A>, AllocError>
    //= `places` makes as many elements as there are results to come, or is refused memory, but not for none. [with refused]
    ensures len { IfOk result (λ v. vec_len v ≡ count) }
    ensures refused { OnErr result (0 < count) }
{
    if count == 0 {
        return Ok(Vec::new(alloc));
    }
    vec![in alloc; unset; count]
}
