//! What may be meant by what somebody types.

ghost use Rattle.std.specs.Prelude.{◌≡◌, IfOk, map};
ghost use Rattle.uses.specs.Words.{found_entry, suggestions};

use byte_automata::{Beginning, Within};
use cedar_complete::{ByValue, best_matching, best_with_prefix};
use cedarwood::{Layout, Trie};
use std::alloc::{AllocError, Allocator, Global};

/// The best entries whose keys begin with a text, `most` at most: those with the highest values, these first. If there is none, the text may
/// have a typo: then the best of those that begin with what is one edit away from it.
///
/// # Errors
/// An allocation was refused.
pub fn suggest<L: Layout, const SLOTS: usize, A: Allocator + Copy>(
    words: &Trie<L, SLOTS, A>,
    alloc: Global,
    typed: &str,
    most: usize,
) -> Result<Vec<(i32, Vec<u8>)>, AllocError>
    //= What is suggested are the best entries that begin with a text, or where none does, those that begin with what is one edit away from
    //  it. [by suggestions]
    ensures { IfOk result (λ found. map found_entry found.items ≡ suggestions words.now.state.tree typed.now most) }
{
    let typed = typed.as_bytes();
    let found = best_with_prefix(alloc, words, typed, most, ByValue::HighestFirst)?;
    if !found.is_empty() {
        return Ok(found);
    }
    let typo = Beginning::new(Within::one(typed));
    best_matching(alloc, words, typo, most, ByValue::HighestFirst)
}
