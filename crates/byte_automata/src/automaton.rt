//! What an automaton is.

ghost use Rattle.std.specs.Prelude.{◌++◌, ◌≡◌, Bool, false, fold, List, ℕ};

/// What reads a key byte after byte, and says whether it wants it. Its answers depend on itself and on the bytes alone.
///
/// A contract sees which keys it accepts.
pub trait Automaton {
    /// What it knows of the bytes that it has read.
    type State: Copy;

    /// Whether it accepts some bytes.
    ghost accepts: { Self → List ℕ → Bool };

    /// What it knows before the first byte.
    ghost initial: { Self → Self.State };

    /// What it knows after one byte more.
    ghost after: { Self → Self.State → ℕ → Self.State };

    /// Whether the bytes that it has read are accepted.
    ghost matches: { Self → Self.State → Bool };

    /// Whether they, or any that go on from them, may be.
    ghost may_match: { Self → Self.State → Bool };

    /// The state before the first byte.
    ///
    /// ```
    /// let wanted = Prefix::new(b"n");
    /// assert!(rt; wanted.can_match(&wanted.start()));
    /// ```
    fn start(&self) -> Self::State
        //= What an automaton returns depends on itself, the state and the byte alone. [also step, is_match, can_match]
        ensures { result ≡ initial self.now };

    /// The state after one byte more.
    ///
    /// ```
    /// let wanted = Prefix::new(b"n");
    /// let state = wanted.step(&wanted.start(), b'n');
    /// assert!(rt; wanted.is_match(&state));
    /// ```
    fn step(&self, state: &Self::State, byte: u8) -> Self::State
        ensures { result ≡ after self.now state.now byte };

    /// Whether the bytes that were read are accepted.
    ///
    /// ```
    /// let wanted = Prefix::new(b"n");
    /// assert!(rt; !wanted.is_match(&wanted.start()));
    /// ```
    fn is_match(&self, state: &Self::State) -> bool
        ensures { result ≡ matches self.now state.now };

    /// Whether the bytes that were read, or any that go on from them, may be accepted. If it is false, none is.
    ///
    /// ```
    /// let wanted = Prefix::new(b"n");
    /// assert!(rt; !wanted.can_match(&wanted.step(&wanted.start(), b'x')));
    /// ```
    fn can_match(&self, state: &Self::State) -> bool
        ensures { result ≡ may_match self.now state.now };

    /// The state after some bytes says whether they are accepted.
    ghost tells: { (it : Self) (read : List ℕ) → matches it (fold (after it) (initial it) read) ≡ accepts it read };

    /// Where it can't match any more, no bytes that go on are accepted.
    ghost prunes: { (it : Self) (read rest : List ℕ) → may_match it (fold (after it) (initial it) read) ≡ false → accepts it (read ++ rest) ≡ false };
}

/// Whether an automaton accepts a key, by one step for each of its bytes.
///
/// ```
/// let wanted = Pattern::new(b"n?t")?;
/// assert!(rt; accepts_key(&wanted, b"net"));
/// assert!(rt; !accepts_key(&wanted, b"nest"));
/// ```
#[must_use]
pub fn accepts_key<M: Automaton>(automaton: &M, key: &[u8]) -> bool
    //= `accepts_key` returns whether an automaton accepts a key.
    ensures { result ≡ M.accepts automaton.now key.now }
{
    let mut state = automaton.start();
    for byte in key {
        state = automaton.step(&state, *byte);
    }
    automaton.is_match(&state)
}
