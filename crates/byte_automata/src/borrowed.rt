//! A borrowed automaton, as an automaton of its own.

use crate::Automaton;

impl<M: Automaton> Automaton for &M {
    type State = M::State;

    ghost accepts = { λ it. M.accepts it.now };

    ghost initial = { λ it. M.initial it.now };

    ghost after = { λ it. M.after it.now };

    ghost matches = { λ it. M.matches it.now };

    ghost may_match = { λ it. M.may_match it.now };

    fn start(&self) -> M::State {
        (**self).start()
    }

    fn step(&self, state: &M::State, byte: u8) -> M::State {
        (**self).step(state, byte)
    }

    fn is_match(&self, state: &M::State) -> bool {
        (**self).is_match(state)
    }

    fn can_match(&self, state: &M::State) -> bool {
        (**self).can_match(state)
    }

    //= A borrowed automaton accepts what the automaton accepts, and can't match any more where that one can't. [with prunes]
    ghost tells = { λ it. M.tells it.now };

    ghost prunes = { λ it. M.prunes it.now };
}
