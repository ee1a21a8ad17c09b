//! New dictionaries.

ghost use Rattle.std.specs.Prelude.{◌+◌, ◌<◌, ◌≡◌, ◌≤◌, vec_capacity, vec_len};
ghost use Rattle.cedar_calls.specs.Words.{IsCopy, IsSlotLimit, IsStep, Joins};

use crate::{Answer, Call};
use cedarwood::{CedarError, Layout, Trie};
use std::alloc::Allocator;

/// Puts what was made after the other dictionaries, for which there is room.
pub(crate) fn join<L: Layout, const SLOTS: usize, A: Allocator + Copy, E: Drop>(
    tries: &mut Vec<Trie<L, SLOTS, A>, A>,
    made: Result<Trie<L, SLOTS, A>, E>,
) -> Result<(), E>
    requires room { vec_len tries.old < vec_capacity tries.old }
    ensures joins { Joins tries.old.items made result tries.new.items }
    ensures len { vec_len tries.new ≤ vec_len tries.old + 1 }
    ensures capacity { vec_capacity tries.new ≡ vec_capacity tries.old }
{
    tries.push_reserved(made?);
    Ok(())
}

/// Loads another dictionary.
pub(crate) fn load<L: Layout, const SLOTS: usize, A: Allocator + Copy>(
    tries: &mut Vec<Trie<L, SLOTS, A>, A>,
    alloc: A,
    bytes: &[u8],
    limit: usize,
) -> Answer<A>
    requires limit { IsSlotLimit SLOTS }
    requires room { vec_len tries.old < vec_capacity tries.old }
    ensures step { IsStep L.kind SLOTS tries.old.items (Call.Load bytes.entry limit) result tries.new.items }
    ensures len { vec_len tries.new ≤ vec_len tries.old + 1 }
    ensures capacity { vec_capacity tries.new ≡ vec_capacity tries.old }
{
    let mut left = bytes;
    let loaded = Trie::load_from_reader_with_limit(alloc, &mut left, limit);
    if let Ok(trie) = &loaded {
        trie.stands_on_its_table();
    }
    Answer::Loaded(join(tries, loaded))
}

/// A copy of a dictionary.
pub(crate) fn copy<L: Layout, const SLOTS: usize, A: Allocator + Copy>(
    trie: &Trie<L, SLOTS, A>,
) -> Result<Trie<L, SLOTS, A>, CedarError>
    ensures { IsCopy trie.now result }
{
    Ok(trie.clone()?)
}
