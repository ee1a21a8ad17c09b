//! Replies about texts, by the keys of a dictionary.

ghost use Rattle.std.specs.Prelude.{◌≡◌, IfOk};
ghost use Rattle.cedar_replies.specs.Words.{character_price, CollectsAll, CollectsFew, CollectsSome};
ghost use Rattle.cedar_replies.specs.Words.{cost_in_table, earliest, IsBestCut, IsBestCuts};
ghost use Rattle.cedar_replies.specs.Words.{IsCheapCut, IsTextReply, leftmost, lists_of, overlapping};
ghost use Rattle.cedar_replies.specs.Words.{run_in_table};

use crate::reply::add;
use crate::{ModelTables, TextQuery, TextReply};
use cedar_scan::{Earliest, Leftmost, LeftmostScanner, MatchKind, Overlapping, Placed, Scanner};
use cedar_words::{
    AllMatches, Edge, Edges, Fronts, Keywords, LongestPrefix, NextFront, Segments, cheapest,
    cheapest_by, cheapest_by_characters, cheapest_cuts, lattice, leftmost_longest,
    leftmost_longest_from, matches, matches_from, segment, segment_from,
};
use cedarwood::{CedarError, Layout, Trie};
use std::alloc::{AllocError, Allocator};

/// Answers a question about a text. Lists are allocated from `alloc`, and an empty one isn't allocated.
pub(crate) fn text_reply<L: Layout, const SLOTS: usize, A: Allocator + Copy>(
    trie: &Trie<L, SLOTS, A>,
    alloc: A,
    text: &[u8],
    query: &TextQuery<'_>,
) -> TextReply<A>
    ensures { IsTextReply trie.now.state.tree text.now query.now result }
{
    match query {
        TextQuery::LongestPrefix => TextReply::Longest(trie.longest_prefix(text)),
        TextQuery::Fronts => TextReply::Fronts(collect_fronts(alloc, trie.fronts(text))),
        TextQuery::Segment => TextReply::Tokens(collect_tokens(alloc, segment(trie, text))),
        TextQuery::SegmentFrom { place } => {
            TextReply::Tokens(collect_tokens(alloc, segment_from(trie, text, *place)))
        }
        TextQuery::LeftmostLongest => {
            TextReply::Keys(collect_keywords(alloc, leftmost_longest(trie, text)))
        }
        TextQuery::LeftmostLongestFrom { place } => {
            let words = leftmost_longest_from(trie, text, *place);
            TextReply::Keys(collect_keywords(alloc, words))
        }
        TextQuery::Matches => TextReply::Keys(collect_matches(alloc, matches(trie, text))),
        TextQuery::MatchesFrom { place } => {
            TextReply::Keys(collect_matches(alloc, matches_from(trie, text, *place)))
        }
        TextQuery::Overlapping => TextReply::Keys(all_ends(trie, alloc, text)),
        TextQuery::Earliest => TextReply::Keys(first_ends(trie, alloc, text)),
        TextQuery::Leftmost { kind } => {
            TextReply::Keys(first_beginnings(trie, alloc, text, *kind))
        }
        TextQuery::Cheapest { unknown } => {
            TextReply::Tokens(least_cut(trie, alloc, text, *unknown))
        }
        TextQuery::CheapestByCharacters { unknown } => {
            TextReply::Tokens(least_cut_by_characters(trie, alloc, text, *unknown))
        }
        TextQuery::CheapestBy { model } => TextReply::Tokens(best_cut(trie, alloc, text, model)),
        TextQuery::CheapestCuts { model, most } => {
            TextReply::Cuts(best_cuts(trie, alloc, text, model, *most))
        }
        TextQuery::Lattice { model } => {
            TextReply::Edges(collect_edges(alloc, lattice(trie, text, model)))
        }
    }
}

/// What is left of a walk over the keys that a text begins with.
fn collect_fronts<F: NextFront + Drop, A: Allocator + Copy>(
    alloc: A,
    mut walk: F,
) -> Result<Vec<(i32, usize), A>, CedarError>
    ensures { CollectsAll result (F.left walk) }
{
    let mut found = Vec::new(alloc);
    while let Some(front) = walk.next_front() {
        add(&mut found, front)?;
    }
    Ok(found)
}

/// The tokens that are left.
fn collect_tokens<L: Layout, const SLOTS: usize, A: Allocator + Copy>(
    alloc: A,
    segments: Segments<'_, Trie<L, SLOTS, A>>,
) -> Result<Vec<(usize, usize, Option<i32>), A>, CedarError>
    ensures { CollectsAll result segments.entry }
{
    let mut found = Vec::new(alloc);
    for token in segments {
        add(&mut found, token)?;
    }
    Ok(found)
}

/// The keywords that are left.
fn collect_keywords<L: Layout, const SLOTS: usize, A: Allocator + Copy>(
    alloc: A,
    words: Keywords<'_, Trie<L, SLOTS, A>>,
) -> Result<Vec<(usize, usize, i32), A>, CedarError>
    ensures { CollectsAll result words.entry }
{
    let mut found = Vec::new(alloc);
    for word in words {
        add(&mut found, word)?;
    }
    Ok(found)
}

/// The matches that are left.
fn collect_matches<L: Layout, const SLOTS: usize, A: Allocator + Copy>(
    alloc: A,
    spots: AllMatches<'_, Trie<L, SLOTS, A>>,
) -> Result<Vec<(usize, usize, i32), A>, CedarError>
    ensures { CollectsAll result spots.entry }
{
    let mut found = Vec::new(alloc);
    for spot in spots {
        add(&mut found, spot)?;
    }
    Ok(found)
}

/// All keys in a text, by their ends. A scanner is made only if the text has a byte.
fn all_ends<L: Layout, const SLOTS: usize, A: Allocator + Copy>(
    trie: &Trie<L, SLOTS, A>,
    alloc: A,
    text: &[u8],
) -> Result<Vec<(usize, usize, i32), A>, CedarError>
    ensures { CollectsSome result (λ found. found.items ≡ overlapping trie.now.state.tree text.now) text.now }
{
    if text.is_empty() {
        return Ok(Vec::new(alloc));
    }
    let scanner = Scanner::new(trie, alloc)?;
    Ok(collect_ends(alloc, scanner.overlapping(text))?)
}

/// The keys in a text that don't overlap and end first. A scanner is made only if the text has a byte.
fn first_ends<L: Layout, const SLOTS: usize, A: Allocator + Copy>(
    trie: &Trie<L, SLOTS, A>,
    alloc: A,
    text: &[u8],
) -> Result<Vec<(usize, usize, i32), A>, CedarError>
    ensures { CollectsSome result (λ found. found.items ≡ earliest trie.now.state.tree text.now) text.now }
{
    if text.is_empty() {
        return Ok(Vec::new(alloc));
    }
    let scanner = Scanner::new(trie, alloc)?;
    Ok(collect_first_ends(alloc, scanner.earliest(text))?)
}

/// The keys in a text that don't overlap, from left to right. A scanner is made only if the text has a byte.
fn first_beginnings<L: Layout, const SLOTS: usize, A: Allocator + Copy>(
    trie: &Trie<L, SLOTS, A>,
    alloc: A,
    text: &[u8],
    kind: MatchKind,
) -> Result<Vec<(usize, usize, i32), A>, CedarError>
    ensures { CollectsSome result (λ found. found.items ≡ leftmost kind trie.now.state.tree text.now) text.now }
{
    if text.is_empty() {
        return Ok(Vec::new(alloc));
    }
    let scanner = LeftmostScanner::new(trie, kind, alloc)?;
    Ok(collect_beginnings(alloc, scanner.leftmost(text))?)
}

/// The keys that are left of those by their ends.
fn collect_ends<T: Placed, A: Allocator + Copy>(
    alloc: A,
    spots: Overlapping<'_, T>,
) -> Result<Vec<(usize, usize, i32), A>, AllocError>
    ensures { IfOk result (λ found. found.items ≡ spots.entry.rest) }
{
    let mut found = Vec::new(alloc);
    for spot in spots {
        add(&mut found, spot)?;
    }
    Ok(found)
}

/// The keys that are left of those that don't overlap.
fn collect_first_ends<T: Placed, A: Allocator + Copy>(
    alloc: A,
    spots: Earliest<'_, T>,
) -> Result<Vec<(usize, usize, i32), A>, AllocError>
    ensures { IfOk result (λ found. found.items ≡ spots.entry.rest) }
{
    let mut found = Vec::new(alloc);
    for spot in spots {
        add(&mut found, spot)?;
    }
    Ok(found)
}

/// The keys that are left of those from left to right.
fn collect_beginnings<T: Placed, A: Allocator + Copy>(
    alloc: A,
    spots: Leftmost<'_, T>,
) -> Result<Vec<(usize, usize, i32), A>, AllocError>
    ensures { IfOk result (λ found. found.items ≡ spots.entry.rest) }
{
    let mut found = Vec::new(alloc);
    for spot in spots {
        add(&mut found, spot)?;
    }
    Ok(found)
}

/// The tokens that are left of those that cuts from each position on may begin with.
fn collect_edges<L: Layout, const SLOTS: usize, A: Allocator + Copy>(
    alloc: A,
    edges: Edges<'_, Trie<L, SLOTS, A>, ModelTables<'_>>,
) -> Result<Vec<Edge, A>, CedarError>
    ensures { CollectsAll result edges.entry }
{
    let mut found = Vec::new(alloc);
    for edge in edges {
        add(&mut found, edge)?;
    }
    Ok(found)
}

/// The tokens of a cheapest cut. They are looked for only if the text has a byte.
fn least_cut<L: Layout, const SLOTS: usize, A: Allocator + Copy>(
    trie: &Trie<L, SLOTS, A>,
    alloc: A,
    text: &[u8],
    unknown: u32,
) -> Result<Vec<(usize, usize, Option<i32>), A>, CedarError>
    ensures { CollectsSome result (λ found. IsCheapCut trie.now.state.tree (λ _. unknown) text.now found.items) text.now }
{
    if text.is_empty() {
        return Ok(Vec::new(alloc));
    }
    Ok(cheapest(alloc, trie, text, unknown)?)
}

/// The same by characters.
fn least_cut_by_characters<L: Layout, const SLOTS: usize, A: Allocator + Copy>(
    trie: &Trie<L, SLOTS, A>,
    alloc: A,
    text: &[u8],
    unknown: u32,
) -> Result<Vec<(usize, usize, Option<i32>), A>, CedarError>
    ensures { CollectsSome result (λ found. IsCheapCut trie.now.state.tree (character_price unknown text.now) text.now found.items) text.now }
{
    if text.is_empty() {
        return Ok(Vec::new(alloc));
    }
    Ok(cheapest_by_characters(alloc, trie, text, unknown)?)
}

/// The tokens of the best cut by a model. They are looked for only if the text has a byte.
fn best_cut<L: Layout, const SLOTS: usize, A: Allocator + Copy>(
    trie: &Trie<L, SLOTS, A>,
    alloc: A,
    text: &[u8],
    model: &ModelTables<'_>,
) -> Result<Vec<(usize, usize, Option<i32>), A>, CedarError>
    ensures { CollectsSome result (λ found. IsBestCut trie.now.state.tree (cost_in_table model.now.costs.now model.now.beyond) (run_in_table model.now.runs.now model.now.beyond) text.now found.items) text.now }
{
    if text.is_empty() {
        return Ok(Vec::new(alloc));
    }
    Ok(cheapest_by(alloc, trie, text, model)?)
}

/// The tokens of the best cuts by a model. They are looked for only if some are wanted.
fn best_cuts<L: Layout, const SLOTS: usize, A: Allocator + Copy>(
    trie: &Trie<L, SLOTS, A>,
    alloc: A,
    text: &[u8],
    model: &ModelTables<'_>,
    most: usize,
) -> Result<Vec<Vec<(usize, usize, Option<i32>), A>, A>, CedarError>
    ensures { CollectsFew result (λ cuts. IsBestCuts trie.now.state.tree (cost_in_table model.now.costs.now model.now.beyond) (run_in_table model.now.runs.now model.now.beyond) text.now most (lists_of cuts.items)) most }
{
    if most == 0 {
        return Ok(Vec::new(alloc));
    }
    Ok(cheapest_cuts(alloc, trie, text, model, most)?)
}
