//! Replies about completions.

ghost use Rattle.std.specs.Prelude.{◌≡◌, filter, map};
ghost use Rattle.cedar_replies.specs.Words.{best, Collects, CollectsAscending, edits_counted};
ghost use Rattle.cedar_replies.specs.Words.{entries_between_ends, entries_with, entries_within};
ghost use Rattle.cedar_replies.specs.Words.{entry_told, first_of_list, found_entry, is_close};
ghost use Rattle.cedar_replies.specs.Words.{is_near, IsCompletionReply, IsFittingReply, last_of_list};
ghost use Rattle.cedar_replies.specs.Words.{walk, where_ascending};

use crate::ends::range_of;
use crate::reply::{add, collect};
use crate::{CompletionQuery, CompletionReply, KeyEnds};
use byte_automata::{Automaton, Beginning, Pattern, Within};
use cedar_complete::{
    ByValue, KeyRange, RangeError, best_with_prefix, entries_in, first_in, last_in,
};
use cedar_match::{MatchingCursor, Nodes, cursor_matching};
use cedarwood::{CedarError, Layout, Trie};
use std::alloc::Allocator;

/// Answers a question about completions. All that is collected is allocated from `alloc`.
pub(crate) fn completion_reply<L: Layout, const SLOTS: usize, A: Allocator + Copy>(
    trie: &Trie<L, SLOTS, A>,
    alloc: A,
    query: &CompletionQuery<'_>,
) -> CompletionReply<A>
    ensures { IsCompletionReply trie.now.state query.now result }
{
    match query {
        CompletionQuery::Best {
            prefix,
            most,
            order,
        } => CompletionReply::Best(best_of(trie, alloc, prefix, *most, *order)),
        CompletionQuery::InRange { ends } => CompletionReply::Range(in_range(trie, alloc, ends)),
        CompletionQuery::FirstIn { ends } => CompletionReply::End(first_at(trie, alloc, ends)),
        CompletionQuery::LastIn { ends } => CompletionReply::End(last_at(trie, alloc, ends)),
        CompletionQuery::Near {
            text,
            two_edits,
            is_beginning,
        } => CompletionReply::Wanted(near(trie, alloc, text, *two_edits, *is_beginning)),
        CompletionQuery::Fitting { pattern } => fitting(trie, alloc, pattern),
    }
}

/// The best entries whose keys begin with a prefix.
fn best_of<L: Layout, const SLOTS: usize, A: Allocator + Copy>(
    trie: &Trie<L, SLOTS, A>,
    alloc: A,
    prefix: &[u8],
    most: usize,
    order: ByValue,
) -> Result<Vec<(i32, Vec<u8, A>), A>, CedarError>
    ensures { Collects result (λ found. map found_entry found.items ≡ best order most (entries_with trie.now.state.tree prefix.now)) }
{
    match best_with_prefix(alloc, trie, prefix, most, order) {
        Ok(found) => Ok(found),
        Err(_) => Err(CedarError::Memory),
    }
}

/// The entries between two ends with their keys, if labels ascend.
fn in_range<L: Layout, const SLOTS: usize, A: Allocator + Copy>(
    trie: &Trie<L, SLOTS, A>,
    alloc: A,
    ends: &KeyEnds<'_>,
) -> Result<Option<Vec<(Vec<u8, A>, i32), A>>, CedarError>
    ensures { CollectsAscending result (λ v. map (λ e. (e.0.items, e.1)) v.items) trie.now.state.ordered (entries_between_ends trie.now.state.tree ends.now) }
{
    match range_of(alloc, ends) {
        Ok(range) => collect_range(trie, alloc, &range),
        Err(_) => Err(CedarError::Memory),
    }
}

/// The entries of a range with their keys, if labels ascend.
fn collect_range<L: Layout, const SLOTS: usize, A: Allocator + Copy>(
    trie: &Trie<L, SLOTS, A>,
    alloc: A,
    range: &KeyRange<A>,
) -> Result<Option<Vec<(Vec<u8, A>, i32), A>>, CedarError>
    ensures { CollectsAscending result (λ v. map (λ e. (e.0.items, e.1)) v.items) trie.now.state.ordered (entries_within trie.now.state.tree range.now) }
{
    let Some(entries) = entries_in(trie, range) else {
        return Ok(None);
    };
    Ok(Some(collect(alloc, entries)?))
}

/// The first entry between two ends, if labels ascend.
fn first_at<L: Layout, const SLOTS: usize, A: Allocator + Copy>(
    trie: &Trie<L, SLOTS, A>,
    alloc: A,
    ends: &KeyEnds<'_>,
) -> Result<Option<Option<(i32, Vec<u8, A>)>>, CedarError>
    ensures { CollectsAscending result entry_told trie.now.state.ordered (first_of_list (entries_between_ends trie.now.state.tree ends.now)) }
{
    match range_of(alloc, ends) {
        Ok(range) => where_ascending(first_in(alloc, trie, &range)),
        Err(_) => Err(CedarError::Memory),
    }
}

/// The last entry between two ends, if labels ascend.
fn last_at<L: Layout, const SLOTS: usize, A: Allocator + Copy>(
    trie: &Trie<L, SLOTS, A>,
    alloc: A,
    ends: &KeyEnds<'_>,
) -> Result<Option<Option<(i32, Vec<u8, A>)>>, CedarError>
    ensures { CollectsAscending result entry_told trie.now.state.ordered (last_of_list (entries_between_ends trie.now.state.tree ends.now)) }
{
    match range_of(alloc, ends) {
        Ok(range) => where_ascending(last_in(alloc, trie, &range)),
        Err(_) => Err(CedarError::Memory),
    }
}

/// What was found in a range, and nothing if labels don't ascend.
fn where_ascending<T>(found: Result<T, RangeError>) -> Result<Option<T>, CedarError>
    ensures { result ≡ where_ascending found }
{
    match found {
        Ok(found) => Ok(Some(found)),
        Err(RangeError::NotAscending) => Ok(None),
        Err(RangeError::Memory) => Err(CedarError::Memory),
    }
}

/// The keys that are an edit away from a text at the most, or if `two_edits` two.
fn within<'a>(text: &'a [u8], two_edits: bool) -> Within<'a>
    ensures { ⟦<Within<'a> as Automaton>⟧.accepts result ≡ is_near text.now (edits_counted two_edits) }
{
    if two_edits {
        Within::two(text)
    } else {
        Within::one(text)
    }
}

/// The entries whose keys are near a text, or begin with what is.
fn near<L: Layout, const SLOTS: usize, A: Allocator + Copy>(
    trie: &Trie<L, SLOTS, A>,
    alloc: A,
    text: &[u8],
    two_edits: bool,
    is_beginning: bool,
) -> Result<Vec<(Vec<u8, A>, i32), A>, CedarError>
    ensures { Collects result (λ found. map (λ e. (e.0.items, e.1)) found.items ≡ filter (λ e. is_close is_beginning (edits_counted two_edits) text.now e.0) (walk trie.now.state.tree)) }
{
    let near = within(text, two_edits);
    if is_beginning {
        let beginning = Beginning::new(near);
        return collect_accepted(trie, alloc, beginning);
    }
    collect_accepted(trie, alloc, near)
}

/// The entries whose keys fit a pattern, unless that is too long.
fn fitting<L: Layout, const SLOTS: usize, A: Allocator + Copy>(
    trie: &Trie<L, SLOTS, A>,
    alloc: A,
    pattern: &[u8],
) -> CompletionReply<A>
    ensures { IsFittingReply trie.now.state.tree pattern.now result }
{
    match Pattern::new(pattern) {
        Ok(fitting) => CompletionReply::Wanted(collect_accepted(trie, alloc, fitting)),
        Err(_) => CompletionReply::PatternTooLong,
    }
}

/// The entries whose keys an automaton accepts.
fn collect_accepted<L: Layout, const SLOTS: usize, A: Allocator + Copy, M: Automaton + Drop>(
    trie: &Trie<L, SLOTS, A>,
    alloc: A,
    automaton: M,
) -> Result<Vec<(Vec<u8, A>, i32), A>, CedarError>
    ensures { Collects result (λ found. map (λ e. (e.0.items, e.1)) found.items ≡ filter (λ e. M.accepts automaton e.0) (walk trie.now.state.tree)) }
{
    collect_matching(alloc, cursor_matching(alloc, trie, automaton))
}

/// What a walk by an automaton has left. Each key is copied.
fn collect_matching<T: Nodes, M: Automaton + Drop, A: Allocator + Copy>(
    alloc: A,
    mut walk: MatchingCursor<'_, T, M, A>,
) -> Result<Vec<(Vec<u8, A>, i32), A>, CedarError>
    ensures { Collects result (λ found. map (λ e. (e.0.items, e.1)) found.items ≡ walk.entry.left) }
{
    let mut found = Vec::new(alloc);
    while let Some(value) = walk.advance()? {
        let copy = Vec::from_slice(alloc, walk.key())?;
        add(&mut found, (copy, value))?;
    }
    Ok(found)
}
