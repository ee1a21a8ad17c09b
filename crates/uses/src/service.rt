//! A dictionary that a service reads.

ghost use Rattle.std.specs.Prelude.{◌≡◌, OnErr, OnOk};
ghost use Rattle.uses.specs.Words.{all_stored, entries_of};

use cedarwood::{CedarError, Layout, Trie};
use std::alloc::Allocator;

/// Stores some pairs in a dictionary, one after another: all of them, or none. So a service goes on with what it had if memory runs out in
/// between, or if a pair has a fault.
///
/// # Errors
/// Those of a build; also `Memory` if there is none for the copy that is made first.
pub fn publish<L: Layout, const SLOTS: usize, A: Allocator + Copy>(
    live: &mut Trie<L, SLOTS, A>,
    pairs: &[(&str, i32)],
) -> Result<(), CedarError>
    //= All pairs are stored, or the dictionary is as it was. [with none]
    ensures all { OnOk result (live.new.state ≡ all_stored live.old.state (entries_of pairs.now)) }
    ensures none { OnErr result (live.new ≡ live.old) }
{
    let mut next = live.clone()?;
    next.build(pairs)?;
    *live = next;
    Ok(())
}
