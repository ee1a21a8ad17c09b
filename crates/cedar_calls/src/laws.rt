//! What follows from a run's steps alone.

ghost use Rattle.cedar_calls.specs.Words.{KeysStandAlone, KeysStandAloneInRuns, RunsAgree};
ghost use Rattle.cedar_calls.specs.Words.{SavesLoadAgain, TreesDecide};

use crate::{Answer, Call};
use cedar_replies::Reply;
use std::alloc::Allocator;

/// Trees and their orders alone decide what a run returns: whatever the layout, the limit of slots, `max_trial`, the marks and the tables,
/// calls without a load, none of which runs out of memory or slots, return what one function of the states (tree and order) gives, and
/// leave the states that another one gives. Keys as texts are among these results; tokens, keywords, matches and cuts of a text; and in the
/// default layout how many slots are held. Results that depend on places (how many slots there are, how many bytes and blocks, a file's
/// bytes) may be in the list, and aren't compared.
pub fn trees_decide<A: Allocator>(calls: &[Call<'_>], answers: &[Answer<A>])
    //= For calls without a load, of which none was refused for memory or slots, the results are one function of the states at the start
    //  (tree and order) and the calls, and the states at the end are another: layout, limit, `max_trial`, marks, sizes and tables have no
    //  part in them. Keys as texts are among these results; tokens, keywords, matches and cuts of texts; and in the default layout how
    //  many slots are held. [by TreesDecide]
    ensures { TreesDecide calls.now answers.now }
{}

/// Two runs of the same calls agree, loads among them: from the same states (tree and order) they return the same and leave the same
/// states, as long as none runs out of memory or slots. Calls count as the same if they differ only in `max_trial`, and what is compared is
/// as for `trees_decide`. With a load, both runs have one layout and one limit of slots: then its refusals, and the tree that it makes,
/// follow from its bytes and its limit alone.
pub fn runs_agree<A: Allocator, B: Allocator>(
    calls: &[Call<'_>],
    answers: &[Answer<A>],
    others: &[Call<'_>],
    replies: &[Answer<B>],
)
    //= Two runs of the same calls from the same states (tree and order) return the same and leave the same states, loads among them, if
    //  nothing was refused for memory or slots. Calls may differ in `max_trial`, in the search limit, in a buffer's room and in where their
    //  bytes lie; runs may differ in layout, limit and allocator, but with a load among the calls layout and limit are one. [by RunsAgree]
    ensures { RunsAgree calls.now answers.now others.now replies.now }
{}

/// Keys stand alone: what a key holds after some changes of a dictionary follows from what it held before, change by change, and of a
/// change that isn't of this key nothing is read. So the last stored value or removal of it decides.
pub fn keys_stand_alone()
    //= What a key holds after some changes follows from what it held before, change by change, and changes of other keys have no part in it
    //  (if the trees on the way are sound, as dictionaries' are). [by KeysStandAlone]
    ensures { KeysStandAlone }
{}

/// Keys stand alone in any run: what the dictionaries hold at a key follows call by call from what they held at it before, and nothing is
/// read of any other key. A further dictionary begins with no number at the key, with that of its pairs, of its file's table or of the
/// dictionary that it copies; from then on the last accepted change of this key in this dictionary decides.
pub fn keys_stand_alone_in_runs<A: Allocator>(calls: &[Call<'_>], answers: &[Answer<A>])
    //= What the dictionaries of any run hold at a key follows call by call from what they held at this key, and no other key is read. [by
    //  KeysStandAloneInRuns]
    ensures { KeysStandAloneInRuns calls.now answers.now }
{}

/// What was saved of a dictionary loads as one with its tree and its order, in any run of the same layout and limit of slots, whatever
/// calls were made between, if the load returns `Ok`.
pub fn saves_load_again<A: Allocator>(saved: &Reply<A>)
    //= What was saved of a dictionary in a run loads, in this or another run of the same layout and limit of slots, as one with its tree
    //  and its order, if the load returns `Ok`. [by SavesLoadAgain]
    ensures { SavesLoadAgain saved.now }
{}
