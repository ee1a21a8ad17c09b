//! Keys that begin with what another automaton accepts.

ghost use Rattle.std.specs.Prelude.{◌≡◌};
ghost use Rattle.byte_automata.specs.Words.{front_after, front_may_match, front_prunes};
ghost use Rattle.byte_automata.specs.Words.{front_tells, has_front, is_none, without_match};

use crate::Automaton;

/// The keys that another automaton accepts some front of: the empty one, the first byte, or more.
#[derive(Clone, Copy)]
pub struct Beginning<M> {
    inner: M,
}

impl<M: Automaton> Beginning<M> {
    /// The keys that begin with what an automaton accepts. So `Beginning::new(Within::one(prefix))` has what completes a prefix with a typo.
    ///
    /// ```
    /// let wanted = Beginning::new(Within::one(b"net"));
    /// assert!(rt; accepts_key(&wanted, b"nutshell"));
    /// assert!(rt; !accepts_key(&wanted, b"nobody"));
    /// ```
    pub fn new(inner: M) -> Self
        //= `Beginning::new` accepts what has a front that is accepted by the automaton that was given. [by has_front]
        ensures { ⟦<Beginning<M> as Automaton>⟧.accepts result ≡ has_front (M.accepts inner) }
    {
        Beginning { inner }
    }

    /// The state, unless what was read is accepted.
    fn without_match(&self, state: M::State) -> Option<M::State>
        ensures { result ≡ without_match (M.matches self.now.inner) state }
    {
        if self.inner.is_match(&state) {
            return None;
        }
        Some(state)
    }
}

impl<M: Automaton> Automaton for Beginning<M> {
    /// What the other one knows, as long as it has accepted nothing.
    type State = Option<M::State>;

    ghost accepts = { λ it. has_front (M.accepts it.inner) };

    ghost initial = { λ it. without_match (M.matches it.inner) (M.initial it.inner) };

    ghost after = { λ it. front_after (M.matches it.inner) (M.after it.inner) };

    ghost matches = { λ _. is_none };

    ghost may_match = { λ it. front_may_match (M.may_match it.inner) };

    fn start(&self) -> Option<M::State> {
        self.without_match(self.inner.start())
    }

    fn step(&self, state: &Option<M::State>, byte: u8) -> Option<M::State> {
        match state {
            Some(inside) => self.without_match(self.inner.step(inside, byte)),
            None => None,
        }
    }

    fn is_match(&self, state: &Option<M::State>) -> bool {
        state.is_none()
    }

    fn can_match(&self, state: &Option<M::State>) -> bool {
        match state {
            Some(inside) => self.inner.can_match(inside),
            None => true,
        }
    }

    //= `Beginning` accepts exactly the keys some front of which the other automaton accepts. As soon as it can't match any more, no key
    //  that goes on is accepted. [with prunes; by has_front]
    ghost tells = { λ it. front_tells (M.matches it.inner) (M.after it.inner) (M.initial it.inner) (M.accepts it.inner) (M.tells it.inner) };

    ghost prunes = { λ it. front_prunes (M.matches it.inner) (M.may_match it.inner) (M.after it.inner) (M.initial it.inner) (M.accepts it.inner) (M.tells it.inner) (M.prunes it.inner) };
}
