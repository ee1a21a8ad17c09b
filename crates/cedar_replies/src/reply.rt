//! Replies of a dictionary.

ghost use Rattle.std.specs.Prelude.{◌++◌, ◌∷◌, ◌≡◌, [], cond, map, OnOk, option_map, string_bytes};
ghost use Rattle.cedar_replies.specs.Words.{AreTexts, Collects, CollectsEntries, CollectsRange};
ghost use Rattle.cedar_replies.specs.Words.{CollectsSome, entries_between, entries_since};
ghost use Rattle.cedar_replies.specs.Words.{entries_with, exact, first_entry, front, IsFigure};
ghost use Rattle.cedar_replies.specs.Words.{IsReply, IsTableFile, keys_of, last_entry, predict, walk};

use crate::buffers::buffer_reply;
use crate::completions::completion_reply;
use crate::place::places;
use crate::texts::text_reply;
use crate::{Figure, Question, Reply};
use cedarwood::{CedarError, EntryError, Layout, RangeEntries, Trie, Watched};
use std::alloc::{AllocError, Allocator};

/// Queries a dictionary. The lists of a batch and of entries, and the bytes of a file, are allocated from `alloc`; the lists of prefixes
/// and predictions, and each entry's key, from the dictionary's own allocator. An empty list is not allocated.
pub fn reply_to<L: Layout, const SLOTS: usize, A: Allocator + Copy>(
    trie: &Trie<L, SLOTS, A>,
    alloc: A,
    question: &Question<'_>,
) -> Reply<A>
    //= `reply_to` changes nothing, and returns what the rows of `cedarwood`, `cedar_words`, `cedar_complete` and `cedar_match` say of such a
    //  query. If a result is collected it may be `Memory`. [by IsReply, IsTextReply, IsCompletionReply, IsBufferReply]
    ensures { IsReply L.kind SLOTS trie.now question.now result }
{
    match question {
        Question::Exact { key } => Reply::Exact(trie.exact_match_search_bytes(key)),
        Question::Get { key } => Reply::Value(trie.get_bytes(key)),
        Question::ContainsKey { key } => Reply::IsHeld(trie.contains_key_bytes(key)),
        Question::Longest { text } => Reply::Longest(trie.longest_match_bytes(text)),
        Question::Batch { keys } => Reply::Batch(batch(trie, alloc, keys)),
        Question::Prefixes { query } => Reply::Prefixes(prefixes(trie, alloc, query)),
        Question::Predictions { query } => Reply::Predictions(predictions(trie, alloc, query)),
        Question::First => Reply::End(first(trie)),
        Question::Last => Reply::End(last(trie)),
        Question::Entries => Reply::Entries(entries(trie, alloc)),
        Question::TextEntries => Reply::TextEntries(text_entries(trie, alloc)),
        Question::EntriesWith { prefix } => Reply::Entries(beginning_with(trie, alloc, prefix)),
        Question::EntriesFrom { key } => Reply::Range(since(trie, alloc, key)),
        Question::Range { from, to } => Reply::Range(between(trie, alloc, from, to)),
        Question::CountPrefix { prefix } => Reply::Count(trie.count_prefix_bytes(prefix)),
        Question::InBuffer { ask } => Reply::InBuffer(buffer_reply(trie, alloc, ask)),
        Question::InText { text, ask } => Reply::InText(text_reply(trie, alloc, text, ask)),
        Question::Complete { ask } => Reply::Completed(completion_reply(trie, alloc, ask)),
        Question::Len => Reply::Len(trie.len()),
        Question::Figure { figure } => Reply::Figure(figure_of(trie, *figure)),
        Question::IsEmpty => Reply::IsEmpty(trie.is_empty()),
        Question::Stats => Reply::Stats(trie.memory_stats()),
        Question::Save => Reply::Saved(save(trie, alloc, false)),
        Question::SaveV1_0 => Reply::Saved(save(trie, alloc, true)),
    }
}

/// The values at some keys, by one call.
fn batch<L: Layout, const SLOTS: usize, A: Allocator + Copy>(
    trie: &Trie<L, SLOTS, A>,
    alloc: A,
    keys: &[&[u8]],
) -> Result<Vec<Option<(i32, usize)>, A>, CedarError>
    ensures { CollectsSome result (λ found. found.items ≡ map (exact trie.now.state.tree) (keys_of keys.now)) (keys_of keys.now) }
{
    let mut found = places(alloc, None, keys.len())?;
    trie.exact_match_search_batch(keys, &mut found);
    Ok(found)
}

/// The prefixes of a query that are held. They are collected only if there is one.
fn prefixes<L: Layout, const SLOTS: usize, A: Allocator + Copy>(
    trie: &Trie<L, SLOTS, A>,
    alloc: A,
    query: &[u8],
) -> Result<Vec<(i32, usize), A>, CedarError>
    ensures { CollectsSome result (λ found. found.items ≡ front trie.now.state.tree query.now) (front trie.now.state.tree query.now) }
{
    if trie.common_prefix_iter_bytes(query).next().is_some() {
        return trie.common_prefix_search_bytes(query);
    }
    Ok(Vec::new(alloc))
}

/// The keys that begin with a query. They are collected only if there is one.
fn predictions<L: Layout, const SLOTS: usize, A: Allocator + Copy>(
    trie: &Trie<L, SLOTS, A>,
    alloc: A,
    query: &[u8],
) -> Result<Vec<(i32, usize), A>, CedarError>
    ensures { CollectsSome result (λ found. found.items ≡ predict trie.now.state.tree query.now) (predict trie.now.state.tree query.now) }
{
    if trie
        .common_prefix_predict_iter_bytes(query)
        .next()
        .is_some()
    {
        return trie.common_prefix_predict_bytes(query);
    }
    Ok(Vec::new(alloc))
}

/// A figure.
fn figure_of<L: Layout, const SLOTS: usize, A: Allocator + Copy>(
    trie: &Trie<L, SLOTS, A>,
    which: Figure,
) -> usize
    ensures { IsFigure L.kind trie.now which result }
{
    match which {
        Figure::UsedSlots => trie.used_node_slots(),
        Figure::Capacity => trie.node_capacity(),
        Figure::AllocatedBytes => trie.allocated_bytes(),
        Figure::SpareBlocks => trie.spare_blocks(),
        Figure::SearchLimit => trie.search_limit(),
    }
}

/// The first entry.
fn first<L: Layout, const SLOTS: usize, A: Allocator + Copy>(
    trie: &Trie<L, SLOTS, A>,
) -> Result<Option<(Vec<u8, A>, i32)>, CedarError>
    ensures { CollectsSome result (λ found. option_map (λ e. (e.0.items, e.1)) found ≡ first_entry trie.now.state.tree) (walk trie.now.state.tree) }
{
    trie.first()
}

/// The last entry.
fn last<L: Layout, const SLOTS: usize, A: Allocator + Copy>(
    trie: &Trie<L, SLOTS, A>,
) -> Result<Option<(Vec<u8, A>, i32)>, CedarError>
    ensures { CollectsSome result (λ found. option_map (λ e. (e.0.items, e.1)) found ≡ last_entry trie.now.state.tree) (walk trie.now.state.tree) }
{
    trie.last()
}

/// All keys with their values. They are collected only if there is one.
fn entries<L: Layout, const SLOTS: usize, A: Allocator + Copy>(
    trie: &Trie<L, SLOTS, A>,
    alloc: A,
) -> Result<Vec<(Vec<u8, A>, i32), A>, CedarError>
    ensures { CollectsEntries result (walk trie.now.state.tree) }
{
    if trie.is_empty() {
        return Ok(Vec::new(alloc));
    }
    some_entries(trie, alloc)
}

/// The same, without asking first whether there is one.
fn some_entries<L: Layout, const SLOTS: usize, A: Allocator + Copy>(
    trie: &Trie<L, SLOTS, A>,
    alloc: A,
) -> Result<Vec<(Vec<u8, A>, i32), A>, CedarError>
    ensures { Collects result (λ found. map (λ e. (e.0.items, e.1)) found.items ≡ walk trie.now.state.tree) }
{
    let mut found = Vec::with_capacity(alloc, trie.len())?;
    for entry in trie.entries()? {
        found.push_reserved(entry?);
    }
    Ok(found)
}

/// All keys as texts with their values, and `None` for each that isn't UTF-8. They are collected only if there is one.
fn text_entries<L: Layout, const SLOTS: usize, A: Allocator + Copy>(
    trie: &Trie<L, SLOTS, A>,
    alloc: A,
) -> Result<Vec<Option<(String<A>, i32)>, A>, CedarError>
    ensures { CollectsSome result (λ found. AreTexts (map (option_map (λ e. (string_bytes e.0, e.1))) found.items) (walk trie.now.state.tree)) (walk trie.now.state.tree) }
{
    if trie.is_empty() {
        return Ok(Vec::new(alloc));
    }
    some_texts(trie, alloc)
}

/// The same, without asking first whether there is one.
fn some_texts<L: Layout, const SLOTS: usize, A: Allocator + Copy>(
    trie: &Trie<L, SLOTS, A>,
    alloc: A,
) -> Result<Vec<Option<(String<A>, i32)>, A>, CedarError>
    ensures { Collects result (λ found. AreTexts (map (option_map (λ e. (string_bytes e.0, e.1))) found.items) (walk trie.now.state.tree)) }
{
    let mut found = Vec::with_capacity(alloc, trie.len())?;
    for entry in trie.entries_str()? {
        let text = match entry {
            Ok(text) => Some(text),
            Err(EntryError::Utf8 { value: _ }) => None,
            Err(EntryError::Memory) => return Err(CedarError::Memory),
        };
        found.push_reserved(text);
    }
    Ok(found)
}

/// Collects one more.
pub(crate) fn add<T: Drop, A: Allocator>(found: &mut Vec<T, A>, item: T) -> Result<(), AllocError>
    ensures { OnOk result (found.new.items ≡ found.old.items ++ item ∷ []) }
{
    found.push(item)?;
    Ok(())
}

/// What is left of a range of entries. Nothing is allocated if that is none.
pub(crate) fn collect<L: Layout, const SLOTS: usize, A: Allocator + Copy>(
    alloc: A,
    entries: RangeEntries<'_, Trie<L, SLOTS, A>, A>,
) -> Result<Vec<(Vec<u8, A>, i32), A>, CedarError>
    ensures { CollectsEntries result entries.entry }
{
    let mut found = Vec::new(alloc);
    for entry in entries {
        add(&mut found, entry?)?;
    }
    Ok(found)
}

/// The keys that begin with a prefix, with their values.
fn beginning_with<L: Layout, const SLOTS: usize, A: Allocator + Copy>(
    trie: &Trie<L, SLOTS, A>,
    alloc: A,
    prefix: &[u8],
) -> Result<Vec<(Vec<u8, A>, i32), A>, CedarError>
    ensures { CollectsEntries result (entries_with trie.now.state.tree prefix.now) }
{
    collect(alloc, trie.entries_with_prefix_bytes(prefix))
}

/// The keys from one on with their values, if labels ascend.
fn since<L: Layout, const SLOTS: usize, A: Allocator + Copy>(
    trie: &Trie<L, SLOTS, A>,
    alloc: A,
    key: &[u8],
) -> Result<Option<Vec<(Vec<u8, A>, i32), A>>, CedarError>
    ensures { CollectsRange result (λ v. map (λ e. (e.0.items, e.1)) v.items) trie.now.state.ordered (entries_since trie.now.state.tree key.now) }
{
    let Some(entries) = trie.entries_from_bytes(key) else {
        return Ok(None);
    };
    Ok(Some(collect(alloc, entries)?))
}

/// The keys from one on and before another one with their values, if labels ascend.
fn between<L: Layout, const SLOTS: usize, A: Allocator + Copy>(
    trie: &Trie<L, SLOTS, A>,
    alloc: A,
    from: &[u8],
    to: &[u8],
) -> Result<Option<Vec<(Vec<u8, A>, i32), A>>, CedarError>
    ensures { CollectsRange result (λ v. map (λ e. (e.0.items, e.1)) v.items) trie.now.state.ordered (entries_between trie.now.state.tree from.now to.now) }
{
    let Some(entries) = trie.range_bytes(from, to) else {
        return Ok(None);
    };
    Ok(Some(collect(alloc, entries)?))
}

/// The bytes of a dictionary's file, in format 1.0 or 1.1. A write to them fails only if an allocation is refused.
fn save<L: Layout, const SLOTS: usize, A: Allocator + Copy>(
    trie: &Trie<L, SLOTS, A>,
    alloc: A,
    in_1_0: bool,
) -> Result<Vec<u8, A>, CedarError>
    ensures { Collects result (λ bytes. IsTableFile (cond in_1_0 0 1) SLOTS trie.now.table bytes.items) }
{
    let mut writer = Watched::new(Vec::new(alloc));
    let written = if in_1_0 {
        trie.save_v1_0_to_writer(&mut writer)
    } else {
        trie.save_to_writer(&mut writer)
    };
    match written {
        Ok(()) => Ok(writer.into_inner()),
        Err(_) => Err(CedarError::Memory),
    }
}
