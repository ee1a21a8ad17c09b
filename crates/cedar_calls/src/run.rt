//! Runs of calls, one after another.

ghost use Rattle.std.specs.Prelude.{◌+◌, ◌<◌, ◌≡◌, ◌≤◌, [], IfOk, length, OnErr, OnOk};
ghost use Rattle.std.specs.Prelude.{vec_capacity, vec_len};
ghost use Rattle.cedar_calls.specs.Words.{AddsRun, IsSlotLimit, IsStep};

use crate::change::{is_valid, make_change};
use crate::make::{copy, join, load};
use crate::{Answer, Call};
use cedar_replies::reply_to;
use cedarwood::{Layout, Trie};
use std::alloc::{AllocError, Allocator};

/// Makes room for the results of some calls, and for as many more dictionaries as there are calls: so [`run_calls`] can make them. The
/// results are empty, and are allocated from `alloc`.
///
/// # Errors
/// `AllocError` if there is no memory for that, and there is a call. All dictionaries are as they were in any case.
pub fn reserve_for_calls<L: Layout, const SLOTS: usize, A: Allocator + Copy>(
    tries: &mut Vec<Trie<L, SLOTS, A>, A>,
    alloc: A,
    calls: &[Call<'_>],
) -> Result<Vec<Answer<A>, A>, AllocError>
    //= Room for the results of some calls, and for as many further dictionaries, may be refused, but not for an empty list. All
    //  dictionaries are as they were in any case: no call was made. [with none, results, dictionaries, refused]
    ensures unchanged { tries.new.items ≡ tries.old.items }
    ensures none { IfOk result (λ answers. answers.items ≡ []) }
    ensures results { IfOk result (λ answers. vec_len answers + length calls.now ≤ vec_capacity answers) }
    ensures dictionaries { OnOk result (vec_len tries.new + length calls.now ≤ vec_capacity tries.new) }
    ensures refused { OnErr result (0 < length calls.now) }
{
    let answers = Vec::with_capacity(alloc, calls.len())?;
    tries.reserve(calls.len())?;
    Ok(answers)
}

/// Makes some calls one after another, and adds their results, one for each call. There has to be room for these, and for as many further
/// dictionaries as there are calls: [`reserve_for_calls`] makes it. Dictionaries that are new, loaded or renewed are allocated from
/// `alloc`; a copy, and one that is changed, from the dictionary's own allocator. So are lists of prefixes and predictions and the keys of
/// entries; everything else in a reply is from `alloc`.
pub fn run_calls<L: Layout, const SLOTS: usize, A: Allocator + Copy>(
    tries: &mut Vec<Trie<L, SLOTS, A>, A>,
    alloc: A,
    calls: &[Call<'_>],
    answers: &mut Vec<Answer<A>, A>,
)
    requires limit { IsSlotLimit SLOTS }
    requires results { vec_len answers.old + length calls.now ≤ vec_capacity answers.old }
    requires dictionaries { vec_len tries.old + length calls.now ≤ vec_capacity tries.old }

    //= Calls on any number of dictionaries, loads of any bytes among them, are a run, for which there is room: one result for each call
    //  comes after the results that were there, and each call begins with the dictionaries that the one before it left. [with count; by
    //  AddsRun, IsRun]
    //= A new dictionary, a build of sorted or unsorted pairs, a load or a clone comes after the others. If it is refused, none was made.
    //  All others are as they were. [by IsStep, Makes]
    //= What it is, and what it is refused with, is as the rows of `cedarwood` say of such a call. A clone fails only for lack of memory.
    //  [by IsNew, IsSortedBuild, IsUnsortedBuild, IsLoad, IsCopy]
    //= A dictionary that was loaded is the one that the table of its bytes holds. [by IsLoad, IsOnTable]
    //= If a dictionary is dropped, those after it come one earlier, and all others are as they were. [by DropsAt]
    //= An update, an insert, an erasure of a key, of some keys, of what was found, of a prefix or of all, `renew`, a build, a batch of
    //  updates, `try_reserve`, `set_search_limit` or `shrink_to_fit` changes only the dictionary at its index, as the rows of `cedarwood`
    //  say. [by ChangesAt, IsChange]
    //= A query of the dictionary changes nothing, and returns what they say. If a result is collected it may be `Memory`, but only if
    //  there is something to collect. [by AsksAt, IsReply, CollectsSome, CollectsRange]
    //= A query for completions, or for what is in a range, changes nothing, and returns what the rows of `cedar_complete` and `cedar_match`
    //  say. It may be `Memory` also if there is nothing to collect. [by AsksAt, IsCompletionReply, Collects, CollectsAscending]
    //= A query about a text changes nothing, and returns what the rows of `cedar_words` say: its tokens, keywords, matches and prefixes,
    //  also from a position on, what a scanner finds, a cut of least cost, the best cut by a model or the best few, or the tokens that such
    //  cuts from each position on may begin with. If it is collected it may be `Memory`, but only if there is something to collect, a byte
    //  to cut or to search, or a cut that is wanted. [by AsksAt, IsTextReply, CollectsAll, CollectsFew, IsCheapCut, IsBestCut, IsBestCuts]
    //= A query whose keys are written into a buffer changes nothing, and returns what one without a buffer does. The first entry and the
    //  last one are refused only if the key is longer than the room that the buffer was made with. [by AsksAt, IsBufferReply]
    //= A call on a dictionary that isn't there returns `Missing`, and all are as they were. [by MissesAt]
    //= A dictionary that is changed was valid before. [by IsStep, IsValid]
    ensures run { AddsRun L.kind SLOTS tries.old.items calls.now answers.old.items answers.new.items tries.new.items }
    ensures count { vec_len answers.new ≡ vec_len answers.old + length calls.now }
{
    for call in calls {
        answers.push_reserved(make_call(tries, alloc, call));
    }
}

/// Makes a call.
fn make_call<L: Layout, const SLOTS: usize, A: Allocator + Copy>(
    tries: &mut Vec<Trie<L, SLOTS, A>, A>,
    alloc: A,
    call: &Call<'_>,
) -> Answer<A>
    requires limit { IsSlotLimit SLOTS }
    requires room { vec_len tries.old < vec_capacity tries.old }
    ensures step { IsStep L.kind SLOTS tries.old.items call.now result tries.new.items }
    ensures len { vec_len tries.new ≤ vec_len tries.old + 1 }
    ensures capacity { vec_capacity tries.new ≡ vec_capacity tries.old }
{
    match call {
        Call::New { settings } => Answer::Made(join(tries, Trie::with(alloc, *settings))),
        Call::Sorted { settings, pairs } => {
            let made = Trie::from_sorted_bytes_with(alloc, *settings, pairs);
            Answer::Made(join(tries, made))
        }
        Call::Unsorted { settings, pairs } => {
            let made = Trie::from_pairs_bytes_with(alloc, *settings, pairs);
            Answer::Made(join(tries, made))
        }
        Call::Load { bytes, limit } => load(tries, alloc, bytes, *limit),
        Call::Clone { index } => match tries.get(*index) {
            Some(trie) => {
                let copied = copy(trie);
                Answer::Made(join(tries, copied))
            }
            None => Answer::Missing,
        },
        Call::Drop { index } => drop_at(tries, *index),
        Call::Change { index, change } => match tries.get_mut(*index) {
            Some(trie) => {
                is_valid(trie);
                Answer::Changed(make_change(trie, alloc, change))
            }
            None => Answer::Missing,
        },
        Call::Ask { index, question } => match tries.get(*index) {
            Some(trie) => {
                trie.stands_on_its_table();
                Answer::Replied(reply_to(trie, alloc, question))
            }
            None => Answer::Missing,
        },
    }
}

/// Drops a dictionary.
fn drop_at<L: Layout, const SLOTS: usize, A: Allocator + Copy>(
    tries: &mut Vec<Trie<L, SLOTS, A>, A>,
    index: usize,
) -> Answer<A>
    ensures step { IsStep L.kind SLOTS tries.old.items (Call.Drop index) result tries.new.items }
    ensures len { vec_len tries.new ≤ vec_len tries.old }
    ensures capacity { vec_capacity tries.new ≡ vec_capacity tries.old }
{
    if index < tries.len() {
        let _dropped = tries.remove(index);
        return Answer::Dropped;
    }
    Answer::Missing
}
