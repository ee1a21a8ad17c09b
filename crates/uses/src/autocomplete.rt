//! What a typed text may become.

ghost use Rattle.std.specs.Prelude.{◌≡◌, IfOk, map, take};
ghost use Rattle.uses.specs.Words.{entries_with};

use cedarwood::{CedarError, Layout, Trie};
use std::alloc::{AllocError, Allocator, Global};

/// The first entries whose keys begin with a text, `most` at most.
///
/// # Errors
/// `Memory` if there is none for the result or a key.
pub fn complete<L: Layout, const SLOTS: usize, A: Allocator + Copy>(
    words: &Trie<L, SLOTS, A>,
    alloc: Global,
    typed: &str,
    most: usize,
) -> Result<Vec<(Vec<u8, A>, i32), Global>, CedarError>
    //= The first entries whose keys begin with a text, so many at most, are the first of `entries_with`.
    ensures { IfOk result (λ found. map (λ e. (e.0.items, e.1)) found.items ≡ take most (entries_with words.now.state.tree typed.now)) }
{
    let mut found = Vec::new(alloc);
    for entry in words.entries_with_prefix(typed).take(most) {
        found.push(entry?).map_err(AllocError::from)?;
    }
    Ok(found)
}
