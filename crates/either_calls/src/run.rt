//! Runs of calls on dictionaries of either layout.

ghost use Rattle.std.specs.Prelude.{◌+◌, ◌<◌, ◌≡◌, ◌≤◌, [], IfOk, length, OnErr, OnOk};
ghost use Rattle.std.specs.Prelude.{vec_capacity, vec_len};
ghost use Rattle.either_calls.specs.Words.{AddsRun, HasRoomFor, layout_of, most_slots, tries_in};

use crate::AnyTries;
use cedar_calls::{Answer, Call, reserve_for_calls, run_calls};
use std::alloc::{AllocError, Global};

impl AnyTries {
    /// Makes room for the results of some calls, and for as many more dictionaries as there are calls, as `reserve_for_calls` of
    /// `cedar_calls` does: so `run_calls` can make them. The results are empty, and are allocated from `alloc`.
    ///
    /// # Errors
    /// `AllocError` if there is no memory for that, and there is a call. All dictionaries are as they were in any case.
    pub fn reserve_for_calls(
        &mut self,
        alloc: Global,
        calls: &[Call<'_>],
    ) -> Result<Vec<Answer<Global>, Global>, AllocError>
        //= Room for calls on dictionaries of either layout is made and refused as for those of one layout: all dictionaries and the layout
        //  are as they were in any case. [with layout, none, results, dictionaries, refused; by HasRoomFor]
        ensures unchanged { tries_in self.new ≡ tries_in self.old }
        ensures layout { layout_of self.new ≡ layout_of self.old }
        ensures none { IfOk result (λ answers. answers.items ≡ []) }
        ensures results { IfOk result (λ answers. vec_len answers + length calls.now ≤ vec_capacity answers) }
        ensures dictionaries { OnOk result (HasRoomFor self.new (length calls.now)) }
        ensures refused { OnErr result (0 < length calls.now) }
    {
        match self {
            AnyTries::Default(tries) => reserve_for_calls(tries, alloc, calls),
            AnyTries::Reduced(tries) => reserve_for_calls(tries, alloc, calls),
        }
    }

    /// Makes some calls one after another, and adds their results, one for each call, as `run_calls` of `cedar_calls` does. There has to be
    /// room for these, and for as many further dictionaries as there are calls: `reserve_for_calls` makes it. It looks once which layout the
    /// dictionaries have, before the first call. A dictionary that is made or loaded is of this layout.
    #[tactic(auto, using(cedarwood::proofs::DictionaryLemmas::default_limit))]
    pub fn run_calls(
        &mut self,
        alloc: Global,
        calls: &[Call<'_>],
        answers: &mut Vec<Answer<Global>, Global>,
    )
        requires results { vec_len answers.old + length calls.now ≤ vec_capacity answers.old }
        requires dictionaries { HasRoomFor self.old (length calls.now) }

        //= Calls on dictionaries of either layout are a run of that layout, whose words `cedar_calls` has: each result is that of a labelled
        //  tree for each dictionary, which the calls carry on. The layout stays, and there is one result for each call. [with layout, count;
        //  by AddsRun]
        ensures run { AddsRun (layout_of self.old) most_slots (tries_in self.old) calls.now answers.old.items answers.new.items (tries_in self.new) }
        ensures layout { layout_of self.new ≡ layout_of self.old }
        ensures count { vec_len answers.new ≡ vec_len answers.old + length calls.now }
    {
        match self {
            AnyTries::Default(tries) => run_calls(tries, alloc, calls, answers),
            AnyTries::Reduced(tries) => run_calls(tries, alloc, calls, answers),
        }
    }
}
