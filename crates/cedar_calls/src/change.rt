//! Changes of a dictionary.

ghost use Rattle.cedar_calls.specs.Words.{IsChange, IsErasedBatch, IsErasedFound, IsValid, keys_of};

use crate::{Change, Changed};
use cedar_replies::places;
use cedarwood::{CedarError, Layout, Trie};
use std::alloc::Allocator;

/// Says that a dictionary is valid. Its tree is sound, on which it rests what a removal does to other keys.
pub(crate) fn is_valid<L: Layout, const SLOTS: usize, A: Allocator + Copy>(trie: &Trie<L, SLOTS, A>)
    ensures { IsValid SLOTS trie.now }
{
    let _ = trie.len();
}

/// Makes a change. A renewed dictionary and what is said of a batch of erasures are allocated from `alloc`, and all else from the
/// dictionary's own allocator.
pub(crate) fn make_change<L: Layout, const SLOTS: usize, A: Allocator + Copy>(
    trie: &mut Trie<L, SLOTS, A>,
    alloc: A,
    change: &Change<'_>,
) -> Changed<A>
    ensures { IsChange L.kind SLOTS trie.old change.now result trie.new }
{
    match change {
        Change::Update { key, value } => Changed::Updated(trie.update_bytes(key, *value)),
        Change::Insert { key, value } => Changed::Inserted(trie.insert_bytes(key, *value)),
        Change::Erase { key } => Changed::Erased(trie.erase_bytes(key)),
        Change::EraseFound { key } => Changed::ErasedFound(erase_found(trie, key)),
        Change::EraseBatch { keys } => Changed::ErasedBatch(erase_batch(trie, alloc, keys)),
        Change::ErasePrefix { prefix } => Changed::ErasedPrefix(trie.erase_prefix_bytes(prefix)),
        Change::Clear => {
            trie.clear();
            Changed::Cleared
        }
        Change::Shrink => Changed::Shrunk(trie.shrink_to_fit()),
        Change::Renew { settings } => Changed::Renewed(trie.renew(alloc, *settings)),
        Change::Build { pairs } => Changed::Built(trie.build_bytes(pairs)),
        Change::UpdateBatch { pairs } => Changed::UpdatedBatch(trie.update_batch(pairs)),
        Change::Reserve { blocks } => Changed::Reserved(trie.try_reserve(*blocks)),
        Change::SetSearchLimit { blocks } => {
            trie.set_search_limit(*blocks);
            Changed::SearchLimitSet
        }
    }
}

/// Finds a key, removes it where it was found, and returns what it held.
fn erase_found<L: Layout, const SLOTS: usize, A: Allocator + Copy>(
    trie: &mut Trie<L, SLOTS, A>,
    key: &[u8],
) -> Option<i32>
    ensures { IsErasedFound trie.old trie.new key.now result }
{
    let found = trie.find_bytes(key)?;
    trie.erase_found(key, found);
    Some(found.value)
}

/// Removes some keys by one call, once there is room for what it says of them.
fn erase_batch<L: Layout, const SLOTS: usize, A: Allocator + Copy>(
    trie: &mut Trie<L, SLOTS, A>,
    alloc: A,
    keys: &[&[u8]],
) -> Result<Vec<bool, A>, CedarError>
    ensures { IsErasedBatch trie.old trie.new (keys_of keys.now) result }
{
    let mut held = places(alloc, false, keys.len())?;
    trie.erase_batch(keys, &mut held);
    Ok(held)
}
