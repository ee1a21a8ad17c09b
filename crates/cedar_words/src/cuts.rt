//! The best cut of a text by a model: of keys, and of unknown runs.

ghost use Rattle.std.specs.Prelude.{◌+◌, ◌-◌, ◌<◌, ◌≡◌, ◌≤◌, drop, IfOk, length};
ghost use Rattle.cedar_words.specs.Words.{AreCostsBy, AreKeptBy, AreWithin, beside_run, best_by};
ghost use Rattle.cedar_words.specs.Words.{best_cut_by, best_priced, front, IsBestCut, kept_at};
ghost use Rattle.cedar_words.specs.Words.{kept_value, or_run, priced_step, run_step, step_from};
ghost use Rattle.cedar_words.specs.Words.{TellsStep};

use crate::costs::{NextFront, Step, cheaper, over};
use crate::models::{CostModel, UnknownRun};
use crate::spots::Fronts;
use cedarwood::{Layout, Trie};
use std::alloc::{AllocError, Allocator};

/// What is kept of the first step over the last bytes of a text, in eight bytes.
#[derive(Clone, Copy)]
struct Kept {
    // How many bytes it goes over. 0 says that these are more than 65,535: it is looked for once more.
    len: u16,
    // Whether they are a key, and its value; of an unknown run 0.
    is_key: bool,
    value: i32,
}

/// What says nothing of a step.
const NOTHING: Kept = Kept {
    len: 0,
    is_key: false,
    value: 0,
};

/// What is known of the last bytes of a text: none of them, one, and so on up to all.
#[derive(Drop)]
struct Ends<B: Allocator> {
    // What they cost.
    costs: Vec<u64, B>,
    // The first step over them.
    kept: Vec<Kept, B>,
}

/// The step over an unknown run.
fn over_run(later: &[u64], run: UnknownRun) -> Step
    requires { 0 < length later.now }
    ensures { result ≡ run_step later.now run }
{
    let len = run.len.min(later.len()).max(1);
    over(later, run.cost, len, None)
}

/// The step over a key.
fn over_key<M: CostModel>(model: &M, later: &[u64], front: (i32, usize)) -> Step
    requires { front.1 < length later.now }
    ensures { result ≡ priced_step (M.key_cost model.now) later.now front }
{
    over(later, model.cost(front.0), front.1 + 1, Some(front.0))
}

/// The best of a step and of those over the keys that a walk finds. Of those that cost the same it is the last, which is the longest.
fn best_key<F: NextFront, M: CostModel>(walk: &mut F, model: &M, later: &[u64], first: Step) -> Step
    requires within { AreWithin (length later.now) (F.left walk.old) }
    ensures { result ≡ best_priced (M.key_cost model.now) later.now first (F.left walk.old) }
{
    let mut best = first;
    while let Some(front) = walk.next_front() {
        best = cheaper(best, over_key(model, later, front));
    }
    best
}

/// The better of a step over a key and one over an unknown run: of two that cost the same the longer, and the key if both are as long.
fn or_run(best: Step, run: Step) -> Step
    ensures { result ≡ or_run best run }
{
    if best.cost < run.cost {
        best
    } else if run.cost < best.cost {
        run
    } else if best.len < run.len {
        run
    } else {
        best
    }
}

/// The better of a step over a key and an unknown run, if that may stand beside keys.
fn beside_run(later: &[u64], run: UnknownRun, best: Step) -> Step
    requires { 0 < length later.now }
    ensures { result ≡ beside_run later.now run best }
{
    if run.beside_keys {
        or_run(best, over_run(later, run))
    } else {
        best
    }
}

/// The best of an unknown run and of the keys that a walk finds.
#[inline(always)]
fn best_of_walk<F: NextFront, M: CostModel>(
    walk: &mut F,
    model: &M,
    later: &[u64],
    run: UnknownRun,
) -> Step
    requires some { 0 < length later.now }
    requires within { AreWithin (length later.now) (F.left walk.old) }
    ensures { result ≡ best_by (M.key_cost model.now) later.now run (F.left walk.old) }
{
    match walk.next_front() {
        None => over_run(later, run),
        Some(front) => {
            let best = best_key(walk, model, later, over_key(model, later, front));
            beside_run(later, run, best)
        }
    }
}

/// The best first step from a position of a text on, if it is known what fewer bytes of its end cost. A cut makes it at each position, and
/// tokens make it once more where they are long. Without both attributes one of the two functions is a call at each position.
#[inline(always)]
fn best_step<T: Fronts, M: CostModel>(
    trie: &T,
    model: &M,
    text: &[u8],
    place: usize,
    later: &[u64],
) -> Step
    requires some { place < length text.now }
    requires later { length later.now ≡ length text.now - place }
    ensures best { result ≡ best_by (M.key_cost model.now) later.now (M.unknown_at model.now text.now place) (front (T.fronts_of trie.now) (drop place text.now)) }
    ensures some { 0 < result.len }
    ensures within { result.len ≤ length text.now - place }
{
    let run = model.unknown(text, place);
    best_of_walk(&mut trie.fronts(&text[place..]), model, later, run)
}

/// What is kept of a step.
fn kept_of(step: Step) -> Kept
    ensures { TellsStep step result }
{
    if step.len > 65535 {
        return NOTHING;
    }
    match step.value {
        None => Kept {
            len: step.len as u16,
            is_key: false,
            value: 0,
        },
        Some(value) => Kept {
            len: step.len as u16,
            is_key: true,
            value,
        },
    }
}

/// What the last bytes of a text cost, and by which first steps.
fn ends_of<T: Fronts, M: CostModel, B: Allocator + Copy>(
    alloc: B,
    trie: &T,
    text: &[u8],
    model: &M,
) -> Result<Ends<B>, AllocError>
    ensures costs { IfOk result (λ ends. AreCostsBy (T.fronts_of trie.now) (M.key_cost model.now) (M.unknown_at model.now text.now) text.now ends.costs.items) }
    ensures kept { IfOk result (λ ends. AreKeptBy (T.fronts_of trie.now) (M.key_cost model.now) (M.unknown_at model.now text.now) text.now ends.costs.items ends.kept.items) }
{
    let mut costs = Vec::with_capacity(alloc, text.len() + 1)?;
    let mut kept = Vec::with_capacity(alloc, text.len() + 1)?;
    costs.push(0)?;
    kept.push(NOTHING)?;
    for left in 1..text.len() + 1 {
        let step = best_step(trie, model, text, text.len() - left, &costs);
        costs.push(step.cost)?;
        kept.push(kept_of(step))?;
    }
    Ok(Ends { costs, kept })
}

/// What is kept of the first step over so many of the last bytes.
fn kept_at(kept: &[Kept], left: usize) -> Kept
    requires { left < length kept.now }
    ensures { result ≡ kept_at kept.now left }
{
    kept[left]
}

/// The value of a step's key, if it goes over one.
fn kept_value(kept: Kept) -> Option<i32>
    ensures { result ≡ kept_value kept }
{
    if kept.is_key { Some(kept.value) } else { None }
}

/// The first token of the best cut of what is left of a text from a position on: how many bytes it has, and its value if it is a key.
fn best_token<T: Fronts, M: CostModel>(
    trie: &T,
    text: &[u8],
    model: &M,
    costs: &[u64],
    kept: &[Kept],
    place: usize,
) -> (usize, Option<i32>)
    requires some { place < length text.now }
    requires costs { AreCostsBy (T.fronts_of trie.now) (M.key_cost model.now) (M.unknown_at model.now text.now) text.now costs.now }
    requires kept { AreKeptBy (T.fronts_of trie.now) (M.key_cost model.now) (M.unknown_at model.now text.now) text.now costs.now kept.now }
    ensures some { 0 < result.0 }
    ensures within { result.0 ≤ length text.now - place }
    ensures len { result.0 ≡ (step_from (T.fronts_of trie.now) (M.key_cost model.now) (M.unknown_at model.now text.now) text.now costs.now place).len }
    ensures value { result.1 ≡ (step_from (T.fronts_of trie.now) (M.key_cost model.now) (M.unknown_at model.now text.now) text.now costs.now place).value }
{
    let left = text.len() - place;
    let told = kept_at(kept, left);
    let len = usize::from(told.len);
    if 0 < len {
        return (len, kept_value(told));
    }
    let step = best_step(trie, model, text, place, &costs[..left]);
    (step.len, step.value)
}

/// The tokens along the best steps over a text.
fn best_tokens<T: Fronts, M: CostModel, B: Allocator>(
    alloc: B,
    trie: &T,
    text: &[u8],
    model: &M,
    costs: &[u64],
    kept: &[Kept],
) -> Result<Vec<(usize, usize, Option<i32>), B>, AllocError>
    requires costs { AreCostsBy (T.fronts_of trie.now) (M.key_cost model.now) (M.unknown_at model.now text.now) text.now costs.now }
    requires kept { AreKeptBy (T.fronts_of trie.now) (M.key_cost model.now) (M.unknown_at model.now text.now) text.now costs.now kept.now }
    ensures { IfOk result (λ cut. cut.items ≡ best_cut_by (T.fronts_of trie.now) (M.key_cost model.now) (M.unknown_at model.now text.now) text.now costs.now) }
{
    let mut tokens = Vec::new(alloc);
    let mut place = 0;
    while place < text.len() {
        let (len, value) = best_token(trie, text, model, costs, kept, place);
        tokens.push((place, len, value))?;
        place += len;
    }
    Ok(tokens)
}

/// The tokens of the best cut of a text.
fn best_cut<T: Fronts, M: CostModel, B: Allocator + Copy>(
    alloc: B,
    trie: &T,
    text: &[u8],
    model: &M,
) -> Result<Vec<(usize, usize, Option<i32>), B>, AllocError>
    ensures { IfOk result (λ tokens. IsBestCut (T.fronts_of trie.now) (M.key_cost model.now) (M.unknown_at model.now text.now) text.now tokens.items) }
{
    let ends = ends_of(alloc, trie, text, model)?;
    best_tokens(alloc, trie, text, model, &ends.costs, &ends.kept)
}

/// Cuts a text into keys and unknown runs so that they cost the least together, by a model of costs: it says what a key costs by its value,
/// and which run of bytes a cut may take at a position without a key, and at what cost. It returns for each token where it begins, how many
/// bytes it has, and its value if it is a key. So values can be ids, with costs in a table of their own.
///
/// Of cuts that cost the same it is the one with the longer token where they first differ, and with a key rather than an unknown run of as
/// many bytes. A sum above 2^64 - 1 counts as 2^64 - 1, for what is left from each token on. So a text of any length has one result, which
/// is the same in both layouts.
///
/// It allocates sixteen bytes for each byte of the text and sixteen more, in two allocations, and frees them when it ends; the result grows
/// as any vector does. Each position costs a prefix walk and one call of `unknown`, and each key that begins there one call of `cost`; where
/// the cut has a token of more than 65,535 bytes, both are made once more.
///
/// # Errors
/// `AllocError` if an allocation is refused.
///
/// ```
/// cedar.build(&[("a", 0), ("ab", 1), ("bcd", 2)])?;
/// let keys = CostTable { costs: &[5, 6, 1], beyond: 0 };
/// let model = Priced { keys, unknown: OneCharacter { cost: 10 } };
/// let tokens = cheapest_by(rt.alloc(), &cedar, "abcd网".as_bytes(), &model)?;
/// assert_eq!(rt; tokens.as_slice(), [(0, 1, Some(0)), (1, 3, Some(2)), (4, 3, None)].as_slice());
/// ```
pub fn cheapest_by<
    L: Layout,
    const SLOTS: usize,
    A: Allocator + Copy,
    B: Allocator + Copy,
    M: CostModel,
>(
    alloc: B,
    trie: &Trie<L, SLOTS, A>,
    text: &[u8],
    model: &M,
) -> Result<Vec<(usize, usize, Option<i32>), B>, AllocError>
    //= The cut by a model is one of the text into keys and unknown runs. No cut costs less, if sums above 2^64 - 1 count as 2^64 - 1, and of
    //  those that cost as little it is the one with the longer token where lengths first differ, which has each key that the other has
    //  before that. One rule says so of texts of any length. [by IsBestCut]
    ensures { IfOk result (λ tokens. IsBestCut trie.now.state.tree (M.key_cost model.now) (M.unknown_at model.now text.now) text.now tokens.items) }
{
    best_cut(alloc, trie, text, model)
}
