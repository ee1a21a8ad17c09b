//! How often each word occurs.

ghost use Rattle.std.specs.Prelude.{◌≡◌, IfOk, List, OnOk, option_map, ℕ};
ghost use Rattle.uses.specs.Words.{after_put, count_of, number_at, one_more};

use cedarwood::{Cedar, CedarError, Layout, MAX_VALUE, Trie};
use std::alloc::{Allocator, Global};

/// A dictionary that has how often each word occurs, up to the greatest value.
///
/// # Errors
/// Those of an update: a word may be empty or have a byte 0, and memory or slots may run out.
pub fn count(alloc: Global, words: &[&str]) -> Result<Cedar<Global>, CedarError>
    //= Each word holds how often it occurs among some words, up to the greatest value, and no other word holds anything.
    ensures { IfOk result (λ counts. (word : List ℕ) → number_at counts.state.tree word ≡ count_of word words.now) }
{
    let mut counts = Cedar::new(alloc)?;
    for word in words {
        add(&mut counts, word)?;
    }
    Ok(counts)
}

/// Adds one to the count of a word.
fn add<L: Layout, const SLOTS: usize, A: Allocator + Copy>(
    counts: &mut Trie<L, SLOTS, A>,
    word: &str,
) -> Result<(), CedarError>
    ensures { OnOk result (counts.new.state ≡ after_put counts.old.state word.now (one_more (number_at counts.old.state.tree word.now))) }
{
    let count = next_count(counts.exact_match_search(word));
    counts.update(word, count)
}

/// One more than a count that is held, up to the greatest value.
fn next_count(held: Option<(i32, usize)>) -> i32
    ensures { result ≡ one_more (option_map (λ found. found.0) held) }
{
    match held {
        Some((count, _)) if count < MAX_VALUE => count + 1,
        Some(_) => MAX_VALUE,
        None => 1,
    }
}
