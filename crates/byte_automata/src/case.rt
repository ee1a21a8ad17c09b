//! Keys whose letters are read without regard to their case.

ghost use Rattle.std.specs.Prelude.{◌≡◌, map};
ghost use Rattle.byte_automata.specs.Words.{lower_after, lower_of, lower_prunes, lower_tells};

use crate::Automaton;

/// The keys that another automaton accepts, once their letters A to Z are read as a to z. So what that one looks for has to be in lower case.
#[derive(Clone, Copy)]
pub struct AnyCase<M> {
    inner: M,
}

/// Returns a letter A to Z as one of a to z, and each other byte as it is.
fn lower(byte: u8) -> u8
    ensures { result ≡ lower_of byte }
{
    if b'A' <= byte && byte <= b'Z' {
        return byte + 32;
    }
    byte
}

impl<M: Automaton> AnyCase<M> {
    /// The keys that an automaton accepts in lower case.
    ///
    /// ```
    /// let wanted = AnyCase::new(Prefix::new(b"ne"));
    /// assert!(rt; accepts_key(&wanted, b"NEt"));
    /// ```
    pub fn new(inner: M) -> Self
        //= `AnyCase::new` accepts what is accepted in lower case by the automaton that was given. [by lower_of]
        ensures { ⟦<AnyCase<M> as Automaton>⟧.accepts result ≡ (λ key. M.accepts inner (map lower_of key)) }
    {
        AnyCase { inner }
    }
}

impl<M: Automaton> Automaton for AnyCase<M> {
    type State = M::State;

    ghost accepts = { λ it key. M.accepts it.inner (map lower_of key) };

    ghost initial = { λ it. M.initial it.inner };

    ghost after = { λ it. lower_after (M.after it.inner) };

    ghost matches = { λ it. M.matches it.inner };

    ghost may_match = { λ it. M.may_match it.inner };

    fn start(&self) -> M::State {
        self.inner.start()
    }

    fn step(&self, state: &M::State, byte: u8) -> M::State {
        self.inner.step(state, lower(byte))
    }

    fn is_match(&self, state: &M::State) -> bool {
        self.inner.is_match(state)
    }

    fn can_match(&self, state: &M::State) -> bool {
        self.inner.can_match(state)
    }

    //= `AnyCase` accepts exactly the keys that the other automaton accepts in lower case. As soon as it can't match any more, no key that
    //  goes on is accepted. [with prunes; by lower_of]
    ghost tells = { λ it. lower_tells (M.after it.inner) (M.initial it.inner) (M.matches it.inner) (M.accepts it.inner) (M.tells it.inner) };

    ghost prunes = { λ it. lower_prunes (M.after it.inner) (M.initial it.inner) (M.may_match it.inner) (M.accepts it.inner) (M.prunes it.inner) };
}
