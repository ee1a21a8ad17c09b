//! The best cuts of a text by a model, in their order.

ghost use Rattle.std.specs.Prelude.{◌+◌, ◌++◌, ◌-◌, ◌<◌, ◌∷◌, ◌≡◌, ◌≤◌, [], drop, IfOk, length};
ghost use Rattle.std.specs.Prelude.{slice_index_or, Some, take};
ghost use Rattle.cedar_words.specs.Words.{AreWays, AreWithin, best_ways, front, insert_way};
ghost use Rattle.cedar_words.specs.Words.{IsBestCuts, key_ways, lists_of, no_way, own_run, put_way};
ghost use Rattle.cedar_words.specs.Words.{put_ways, run_ways, step_ways, way_along, way_at};
ghost use Rattle.cedar_words.specs.Words.{way_before, ways_along, ways_behind, WaysGoOn};

use crate::costs::NextFront;
use crate::models::{CostModel, UnknownRun};
use crate::spots::Fronts;
use cedarwood::{Layout, Trie};
use std::alloc::{AllocError, Allocator};

/// A cut of the last bytes of a text: what it costs, or 2^64 - 1 if it costs more, its first token, and the place of what follows that
/// among the best cuts of the bytes behind it.
#[derive(Clone, Copy)]
struct Way {
    cost: u64,
    len: usize,
    value: Option<i32>,
    rank: usize,
}

/// Whether a way comes before another of the same position: the cheaper, of those that cost the same the one with the longer token first,
/// or with a key, or with what comes first behind it.
fn comes_before(one: Way, other: Way) -> bool
    ensures { result ≡ way_before one other }
{
    if one.cost < other.cost {
        true
    } else if other.cost < one.cost {
        false
    } else if other.len < one.len {
        true
    } else if one.len < other.len {
        false
    } else {
        match (one.value, other.value) {
            (Some(_), None) => true,
            (None, Some(_)) => false,
            (Some(_), Some(_)) => one.rank < other.rank,
            (None, None) => one.rank < other.rank,
        }
    }
}

/// Where a way belongs among ways that are in order.
fn index_of(ways: &[Way], way: Way) -> usize
    ensures within { result ≤ length ways.now }
    ensures splits { insert_way way ways.now ≡ take result ways.now ++ way ∷ drop result ways.now }
{
    for index in 0..ways.len() {
        if comes_before(way, ways[index]) {
            return index;
        }
    }
    ways.len()
}

/// Puts a way among the best, in its place, and leaves so many of them at most.
fn put_way<B: Allocator>(ways: &mut Vec<Way, B>, way: Way, most: usize) -> Result<(), AllocError>
    ensures { IfOk result (λ _. ways.new.items ≡ put_way most ways.old.items way) }
{
    let index = index_of(ways, way);
    ways.insert(index, way)?;
    ways.truncate(most);
    Ok(())
}

/// Puts the ways over a token at a price among the best: one for each of the ways behind it.
fn put_step<B: Allocator>(
    ways: &mut Vec<Way, B>,
    behind: &[Way],
    price: u32,
    len: usize,
    value: Option<i32>,
    most: usize,
) -> Result<(), AllocError>
    ensures { IfOk result (λ _. ways.new.items ≡ put_ways most ways.old.items (step_ways price len value 0 behind.now)) }
{
    for rank in 0..behind.len() {
        let way = Way {
            cost: u64::from(price).saturating_add(behind[rank].cost),
            len,
            value,
            rank,
        };
        put_way(ways, way, most)?;
    }
    Ok(())
}

/// Puts the ways over so many bytes at a price among the best, where those of fewer bytes than are left are known.
fn put_token<B: Allocator>(
    ways: &mut Vec<Way, B>,
    later: &[Vec<Way, B>],
    price: u32,
    len: usize,
    value: Option<i32>,
    most: usize,
) -> Result<(), AllocError>
    requires some { 0 < len }
    requires within { len ≤ length later.now }
    ensures { IfOk result (λ _. ways.new.items ≡ put_ways most ways.old.items (step_ways price len value 0 (ways_behind (lists_of later.now) len))) }
{
    let left = later.len() - len;
    put_step(ways, &later[left], price, len, value, most)
}

/// Puts the ways over a key among the best.
fn put_key<M: CostModel, B: Allocator>(
    ways: &mut Vec<Way, B>,
    later: &[Vec<Way, B>],
    model: &M,
    front: (i32, usize),
    most: usize,
) -> Result<(), AllocError>
    requires { front.1 < length later.now }
    ensures { IfOk result (λ _. ways.new.items ≡ put_ways most ways.old.items (step_ways (M.key_cost model.now front.0) (front.1 + 1) (Some front.0) 0 (ways_behind (lists_of later.now) (front.1 + 1)))) }
{
    let price = model.cost(front.0);
    put_token(ways, later, price, front.1 + 1, Some(front.0), most)
}

/// Puts the ways over the keys that a walk finds among the best.
fn put_keys<F: NextFront, M: CostModel, B: Allocator>(
    ways: &mut Vec<Way, B>,
    later: &[Vec<Way, B>],
    model: &M,
    walk: &mut F,
    most: usize,
) -> Result<(), AllocError>
    requires { AreWithin (length later.now) (F.left walk.old) }
    ensures { IfOk result (λ _. ways.new.items ≡ put_ways most ways.old.items (key_ways (M.key_cost model.now) (lists_of later.now) (F.left walk.old))) }
{
    while let Some(front) = walk.next_front() {
        put_key(ways, later, model, front, most)?;
    }
    Ok(())
}

/// Puts the ways over an unknown run among the best.
fn put_run<B: Allocator>(
    ways: &mut Vec<Way, B>,
    later: &[Vec<Way, B>],
    run: UnknownRun,
    most: usize,
) -> Result<(), AllocError>
    requires { 0 < length later.now }
    ensures { IfOk result (λ _. ways.new.items ≡ put_ways most ways.old.items (run_ways (lists_of later.now) (Some run))) }
{
    let len = run.len.min(later.len()).max(1);
    put_token(ways, later, run.cost, len, None, most)
}

/// Puts the ways over a first key, those over the keys that a walk finds behind it, and those over an unknown run that may stand beside
/// keys, among the best.
fn put_beside<F: NextFront, M: CostModel, B: Allocator>(
    ways: &mut Vec<Way, B>,
    later: &[Vec<Way, B>],
    model: &M,
    first: (i32, usize),
    walk: &mut F,
    run: UnknownRun,
    most: usize,
) -> Result<(), AllocError>
    requires first { first.1 < length later.now }
    requires within { AreWithin (length later.now) (F.left walk.old) }
    ensures { IfOk result (λ _. ways.new.items ≡ put_ways most ways.old.items (key_ways (M.key_cost model.now) (lists_of later.now) (first ∷ F.left walk.old) ++ run_ways (lists_of later.now) (own_run run (first ∷ F.left walk.old)))) }
{
    put_key(ways, later, model, first, most)?;
    put_keys(ways, later, model, walk, most)?;
    if run.beside_keys {
        return put_run(ways, later, run, most);
    }
    Ok(())
}

/// Puts the ways over the keys that a walk finds and an unknown run among the best.
fn put_all<F: NextFront, M: CostModel, B: Allocator>(
    ways: &mut Vec<Way, B>,
    later: &[Vec<Way, B>],
    model: &M,
    walk: &mut F,
    run: UnknownRun,
    most: usize,
) -> Result<(), AllocError>
    requires some { 0 < length later.now }
    requires within { AreWithin (length later.now) (F.left walk.old) }
    ensures { IfOk result (λ _. ways.new.items ≡ put_ways most ways.old.items (key_ways (M.key_cost model.now) (lists_of later.now) (F.left walk.old) ++ run_ways (lists_of later.now) (own_run run (F.left walk.old)))) }
{
    match walk.next_front() {
        None => put_run(ways, later, run, most),
        Some(first) => put_beside(ways, later, model, first, walk, run, most),
    }
}

/// The best ways from a position of a text on, where those of fewer bytes of its end are known.
fn ways_from<T: Fronts, M: CostModel, B: Allocator>(
    alloc: B,
    trie: &T,
    text: &[u8],
    model: &M,
    place: usize,
    later: &[Vec<Way, B>],
    most: usize,
) -> Result<Vec<Way, B>, AllocError>
    requires some { place < length text.now }
    requires later { length later.now ≡ length text.now - place }
    ensures { IfOk result (λ ways. ways.items ≡ best_ways most (M.key_cost model.now) (lists_of later.now) (M.unknown_at model.now text.now place) (front (T.fronts_of trie.now) (drop place text.now))) }
{
    let run = model.unknown(text, place);
    let mut ways = Vec::new(alloc);
    put_all(
        &mut ways,
        later,
        model,
        &mut trie.fronts(&text[place..]),
        run,
        most,
    )?;
    Ok(ways)
}

/// The ways of no bytes: one, if there may be any.
fn end_ways<B: Allocator>(alloc: B, most: usize) -> Result<Vec<Way, B>, AllocError>
    ensures { IfOk result (λ ways. ways.items ≡ take most (no_way ∷ [])) }
{
    let mut end = Vec::new(alloc);
    end.push(Way {
        cost: 0,
        len: 0,
        value: None,
        rank: 0,
    })?;
    end.truncate(most);
    Ok(end)
}

/// The best ways of the last bytes of a text: none of them, one, and so on up to all.
fn all_ways<T: Fronts, M: CostModel, B: Allocator + Copy>(
    alloc: B,
    trie: &T,
    text: &[u8],
    model: &M,
    most: usize,
) -> Result<Vec<Vec<Way, B>, B>, AllocError>
    ensures len { IfOk result (λ table. length table.items ≡ length text.now + 1) }
    ensures ways { IfOk result (λ table. AreWays most (T.fronts_of trie.now) (M.key_cost model.now) (M.unknown_at model.now text.now) text.now (lists_of table.items)) }
{
    let mut table = Vec::with_capacity(alloc, text.len() + 1)?;
    table.push(end_ways(alloc, most)?)?;
    for left in 1..text.len() + 1 {
        let ways = ways_from(alloc, trie, text, model, text.len() - left, &table, most)?;
        table.push(ways)?;
    }
    Ok(table)
}

/// A way of so many of the last bytes, by its rank.
fn way_at<B: Allocator>(table: &[Vec<Way, B>], left: usize, rank: usize) -> Way
    requires low { left < length table.now }
    requires rank { rank < length (slice_index_or (lists_of table.now) left []) }
    ensures { result ≡ way_at (lists_of table.now) left rank }
{
    let ways: &[Way] = &table[left];
    ways[rank]
}

/// The tokens along a way over a whole text.
fn tokens_of_way<B: Allocator + Copy>(
    alloc: B,
    table: &[Vec<Way, B>],
    rank: usize,
) -> Result<Vec<(usize, usize, Option<i32>), B>, AllocError>
    requires some { 0 < length table.now }
    requires closed { WaysGoOn (lists_of table.now) }
    requires rank { rank < length (slice_index_or (lists_of table.now) (length table.now - 1) []) }
    ensures { IfOk result (λ tokens. tokens.items ≡ way_along (lists_of table.now) 0 0 (length table.now - 1) rank) }
{
    let mut tokens = Vec::new(alloc);
    let mut left = table.len() - 1;
    let mut place = 0;
    let mut rank = rank;
    while 0 < left {
        let way = way_at(table, left, rank);
        tokens.push((place, way.len, way.value))?;
        place += way.len;
        left -= way.len;
        rank = way.rank;
    }
    Ok(tokens)
}

/// The tokens along all ways over a whole text.
fn tokens_of_all<B: Allocator + Copy>(
    alloc: B,
    table: &[Vec<Way, B>],
) -> Result<Vec<Vec<(usize, usize, Option<i32>), B>, B>, AllocError>
    requires some { 0 < length table.now }
    requires closed { WaysGoOn (lists_of table.now) }
    ensures { IfOk result (λ cuts. lists_of cuts.items ≡ ways_along (lists_of table.now) (length table.now - 1)) }
{
    let mut cuts = Vec::new(alloc);
    let end = table.len() - 1;
    let ways: &[Way] = &table[end];
    for rank in 0..ways.len() {
        let tokens = tokens_of_way(alloc, table, rank)?;
        cuts.push(tokens)?;
    }
    Ok(cuts)
}

/// The best cuts of a text.
fn ranked_cuts<T: Fronts, M: CostModel, B: Allocator + Copy>(
    alloc: B,
    trie: &T,
    text: &[u8],
    model: &M,
    most: usize,
) -> Result<Vec<Vec<(usize, usize, Option<i32>), B>, B>, AllocError>
    ensures { IfOk result (λ cuts. IsBestCuts (T.fronts_of trie.now) (M.key_cost model.now) (M.unknown_at model.now text.now) text.now most (lists_of cuts.items)) }
{
    let table = all_ways(alloc, trie, text, model, most)?;
    tokens_of_all(alloc, &table)
}

/// Returns the best cuts of a text by a model, `most` of them at most, in their order. A cut comes before another if it costs less, or as much
/// and has the longer token where they first differ, or a key rather than an unknown run of as many bytes. Fewer are returned only if the
/// text has no more cuts.
///
/// A sum above 2^64 - 1 counts as 2^64 - 1, for what is left from each token on.
///
/// For each byte of the text, and once more, it keeps a vector of up to `most` ways of 32 bytes, which has room for one more, and frees them
/// when it ends. Each result is a vector too. Each position costs a prefix walk, and each key that begins there as many steps as there are
/// ways behind it, each of which is put among those so far.
///
/// # Errors
/// `AllocError` if an allocation is refused.
///
/// ```
/// cedar.build(&[("a", 5), ("ab", 6), ("b", 2)])?;
/// let model = Priced { keys: ValueIsCost {}, unknown: OneByte { cost: 10 } };
/// let cuts = cheapest_cuts(rt.alloc(), &cedar, b"ab", &model, 3)?;
/// assert_eq!(rt; cuts.len(), 3);
/// assert_eq!(rt; cuts[0].as_slice(), [(0, 2, Some(6))].as_slice());
/// assert_eq!(rt; cuts[1].as_slice(), [(0, 1, Some(5)), (1, 1, Some(2))].as_slice());
/// assert_eq!(rt; cuts[2].as_slice(), [(0, 1, None), (1, 1, Some(2))].as_slice());
/// ```
pub fn cheapest_cuts<
    L: Layout,
    const SLOTS: usize,
    A: Allocator + Copy,
    B: Allocator + Copy,
    M: CostModel,
>(
    alloc: B,
    trie: &Trie<L, SLOTS, A>,
    text: &[u8],
    model: &M,
    most: usize,
) -> Result<Vec<Vec<(usize, usize, Option<i32>), B>, B>, AllocError>
    //= The best cuts of a text by a model are cuts of it, so many at most, in their order: the cheaper first, of those that cost the same the
    //  one with the longer token where they first differ, or with a key. Any other cut comes behind all of them, and there is one only if
    //  they are as many as wanted. [by IsBestCuts]
    ensures { IfOk result (λ cuts. IsBestCuts trie.now.state.tree (M.key_cost model.now) (M.unknown_at model.now text.now) text.now most (lists_of cuts.items)) }
{
    ranked_cuts(alloc, trie, text, model, most)
}
