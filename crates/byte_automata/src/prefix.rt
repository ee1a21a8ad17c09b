//! Keys that begin with some bytes.

ghost use Rattle.std.specs.Prelude.{◌≡◌, Some};
ghost use Rattle.byte_automata.specs.Words.{begins_with, is_some, prefix_after, prefix_ended};
ghost use Rattle.byte_automata.specs.Words.{prefix_prunes, prefix_tells};

use crate::Automaton;

/// The keys that begin with some bytes.
#[derive(Clone, Copy)]
pub struct Prefix<'a> {
    bytes: &'a [u8],
}

impl<'a> Prefix<'a> {
    /// The keys that begin with these bytes.
    ///
    /// ```
    /// let wanted = Prefix::new(b"ne");
    /// assert!(rt; accepts_key(&wanted, b"net"));
    /// assert!(rt; !accepts_key(&wanted, b"n"));
    /// ```
    pub fn new(bytes: &'a [u8]) -> Self
        //= A prefix accepts the keys that begin with the bytes that were given.
        ensures { ⟦<Prefix<'a> as Automaton>⟧.accepts result ≡ begins_with bytes.now }
    {
        Prefix { bytes }
    }
}

impl<'a> Automaton for Prefix<'a> {
    /// How many bytes of the prefix were read, unless a byte differed.
    type State = Option<usize>;

    ghost accepts = { λ it. begins_with it.bytes.now };

    ghost initial = { λ _. Some 0 };

    ghost after = { λ it. prefix_after it.bytes.now };

    ghost matches = { λ it. prefix_ended it.bytes.now };

    ghost may_match = { λ _. is_some };

    fn start(&self) -> Option<usize> {
        Some(0)
    }

    fn step(&self, state: &Option<usize>, byte: u8) -> Option<usize> {
        let read = (*state)?;
        if self.bytes.len() <= read {
            return Some(read);
        }
        if self.bytes[read] == byte {
            return Some(read + 1);
        }
        None
    }

    fn is_match(&self, state: &Option<usize>) -> bool {
        match *state {
            Some(read) => self.bytes.len() <= read,
            None => false,
        }
    }

    fn can_match(&self, state: &Option<usize>) -> bool {
        state.is_some()
    }

    //= A prefix accepts exactly the keys that begin with its bytes. As soon as it can't match any more, no key that goes on is accepted.
    //  [with prunes]
    ghost tells = { λ it. prefix_tells it.bytes.now };

    ghost prunes = { λ it. prefix_prunes it.bytes.now };
}
