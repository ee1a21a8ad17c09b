//! Automata made of two others.

ghost use Rattle.std.specs.Prelude.{◌&&◌, ◌||◌, ◌≡◌};
ghost use Rattle.byte_automata.specs.Words.{both_after, both_prune, both_tell, either_prunes};
ghost use Rattle.byte_automata.specs.Words.{either_tells};

use crate::Automaton;

/// The keys that two automata both accept.
#[derive(Clone, Copy)]
pub struct Both<M, N> {
    first: M,
    second: N,
}

/// The keys that one of two automata accepts, or both.
#[derive(Clone, Copy)]
pub struct Either<M, N> {
    first: M,
    second: N,
}

impl<M: Automaton, N: Automaton> Both<M, N> {
    /// The keys that both accept.
    ///
    /// ```
    /// let wanted = Both::new(Prefix::new(b"ne"), Within::one(b"net"));
    /// assert!(rt; accepts_key(&wanted, b"nest"));
    /// assert!(rt; !accepts_key(&wanted, b"nut"));
    /// ```
    pub fn new(first: M, second: N) -> Self
        //= `Both::new` accepts what both automata accept that were given.
        ensures { ⟦<Both<M, N> as Automaton>⟧.accepts result ≡ (λ key. M.accepts first key && N.accepts second key) }
    {
        Both { first, second }
    }
}

impl<M: Automaton, N: Automaton> Either<M, N> {
    /// The keys that one of the two accepts, or both.
    ///
    /// ```
    /// let wanted = Either::new(Prefix::new(b"ne"), Within::one(b"net"));
    /// assert!(rt; accepts_key(&wanted, b"nut"));
    /// assert!(rt; !accepts_key(&wanted, b"ten"));
    /// ```
    pub fn new(first: M, second: N) -> Self
        //= `Either::new` accepts what one of them accepts, or both.
        ensures { ⟦<Either<M, N> as Automaton>⟧.accepts result ≡ (λ key. M.accepts first key || N.accepts second key) }
    {
        Either { first, second }
    }
}

impl<M: Automaton, N: Automaton> Automaton for Both<M, N> {
    type State = (M::State, N::State);

    ghost accepts = { λ it key. M.accepts it.first key && N.accepts it.second key };

    ghost initial = { λ it. (M.initial it.first, N.initial it.second) };

    ghost after = { λ it. both_after (M.after it.first) (N.after it.second) };

    ghost matches = { λ it state. M.matches it.first state.0 && N.matches it.second state.1 };

    ghost may_match = { λ it state. M.may_match it.first state.0 && N.may_match it.second state.1 };

    fn start(&self) -> (M::State, N::State) {
        (self.first.start(), self.second.start())
    }

    fn step(&self, state: &(M::State, N::State), byte: u8) -> (M::State, N::State) {
        (
            self.first.step(&state.0, byte),
            self.second.step(&state.1, byte),
        )
    }

    fn is_match(&self, state: &(M::State, N::State)) -> bool {
        self.first.is_match(&state.0) && self.second.is_match(&state.1)
    }

    fn can_match(&self, state: &(M::State, N::State)) -> bool {
        self.first.can_match(&state.0) && self.second.can_match(&state.1)
    }

    //= `Both` accepts exactly the keys that both accept. As soon as it can't match any more, no key that goes on is accepted. [with
    //  prunes]
    ghost tells = { λ it. both_tell (M.after it.first) (N.after it.second) (M.matches it.first) (N.matches it.second) (M.accepts it.first) (N.accepts it.second)
        (M.initial it.first) (N.initial it.second) (M.tells it.first) (N.tells it.second) };

    ghost prunes = { λ it. both_prune (M.after it.first) (N.after it.second) (M.may_match it.first) (N.may_match it.second) (M.accepts it.first) (N.accepts it.second)
        (M.initial it.first) (N.initial it.second) (M.prunes it.first) (N.prunes it.second) };
}

impl<M: Automaton, N: Automaton> Automaton for Either<M, N> {
    type State = (M::State, N::State);

    ghost accepts = { λ it key. M.accepts it.first key || N.accepts it.second key };

    ghost initial = { λ it. (M.initial it.first, N.initial it.second) };

    ghost after = { λ it. both_after (M.after it.first) (N.after it.second) };

    ghost matches = { λ it state. M.matches it.first state.0 || N.matches it.second state.1 };

    ghost may_match = { λ it state. M.may_match it.first state.0 || N.may_match it.second state.1 };

    fn start(&self) -> (M::State, N::State) {
        (self.first.start(), self.second.start())
    }

    fn step(&self, state: &(M::State, N::State), byte: u8) -> (M::State, N::State) {
        (
            self.first.step(&state.0, byte),
            self.second.step(&state.1, byte),
        )
    }

    fn is_match(&self, state: &(M::State, N::State)) -> bool {
        self.first.is_match(&state.0) || self.second.is_match(&state.1)
    }

    fn can_match(&self, state: &(M::State, N::State)) -> bool {
        self.first.can_match(&state.0) || self.second.can_match(&state.1)
    }

    //= `Either` accepts exactly the keys that one of the two accepts, or both. As soon as it can't match any more, no key that goes on is
    //  accepted. [with prunes]
    ghost tells = { λ it. either_tells (M.after it.first) (N.after it.second) (M.matches it.first) (N.matches it.second) (M.accepts it.first) (N.accepts it.second)
        (M.initial it.first) (N.initial it.second) (M.tells it.first) (N.tells it.second) };

    ghost prunes = { λ it. either_prunes (M.after it.first) (N.after it.second) (M.may_match it.first) (N.may_match it.second) (M.accepts it.first) (N.accepts it.second)
        (M.initial it.first) (N.initial it.second) (M.prunes it.first) (N.prunes it.second) };
}
