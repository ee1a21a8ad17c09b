//! Keys that fit a pattern.

ghost use Rattle.std.specs.Prelude.{◌+◌, ◌<◌, ◌^◌, ◌≡◌, ◌≤◌, false, IfErr, IfOk, length};
ghost use Rattle.byte_automata.specs.Words.{fits, pattern_after, pattern_end, pattern_may};
ghost use Rattle.byte_automata.specs.Words.{pattern_prunes, pattern_start, pattern_tells};

use crate::Automaton;
use std::error::Error;
use std::fmt;

/// How many bytes a pattern may have.
pub const MOST_PATTERN_BYTES: usize = 63;

/// Why a pattern can't be taken.
#[derive(Clone, Copy, Debug, PartialEq, Eq)]
pub enum PatternError {
    /// It has more than [`MOST_PATTERN_BYTES`] bytes.
    TooLong {
        /// How many it has.
        bytes: usize,
    },
}

/// The keys that fit a pattern, in which `?` stands for any one byte, `*` for any bytes, also none, and each other byte for itself.
///
/// It keeps a bit for each place of the pattern where the bytes so far may end, so it allocates nothing.
#[derive(Clone, Copy)]
pub struct Pattern<'a> {
    bytes: &'a [u8],
    ghost short: { length bytes.now ≤ 63 },
}

/// The places of a pattern after one byte more, a bit for each. `enters` says whether what is before the pattern leads into it.
#[tactic(auto, unfolding(crate::specs::Patterns::pattern_after))]
fn places_after(pattern: &[u8], places: u64, enters: bool, byte: u8) -> u64
    requires { length pattern.now ≤ 63 }
    ensures places { result ≡ pattern_after pattern.now places enters byte }
    ensures low { result < 2 ^ (length pattern.now + 1) }
{
    match pattern {
        [] => u64::from(enters),
        [first, rest @ ..] => {
            let here = places % 2 == 1;
            if *first == b'*' {
                let stays = here || enters;
                u64::from(stays) + 2 * places_after(rest, places / 2, stays, byte)
            } else {
                let passes = here && (*first == b'?' || *first == byte);
                u64::from(enters) + 2 * places_after(rest, places / 2, passes, byte)
            }
        }
    }
}

/// The places of a pattern before the first byte.
#[tactic(auto, unfolding(crate::specs::Patterns::pattern_start))]
fn first_places(pattern: &[u8]) -> u64
    requires { length pattern.now ≤ 63 }
    ensures places { result ≡ pattern_start pattern.now }
    ensures low { result < 2 ^ (length pattern.now + 1) }
{
    match pattern {
        [] => 1,
        [first, rest @ ..] => {
            if *first == b'*' {
                1 + 2 * first_places(rest)
            } else {
                1
            }
        }
    }
}

/// Whether the end of a pattern is among some of its places.
#[tactic(auto, unfolding(crate::specs::Patterns::pattern_end))]
fn has_end(pattern: &[u8], places: u64) -> bool
    ensures { result ≡ pattern_end pattern.now places }
{
    match pattern {
        [] => places % 2 == 1,
        [_, rest @ ..] => has_end(rest, places / 2),
    }
}

impl<'a> Pattern<'a> {
    /// The keys that fit a pattern.
    ///
    /// ```
    /// let wanted = Pattern::new(b"n*t?")?;
    /// assert!(rt; accepts_key(&wanted, b"nests"));
    /// assert!(rt; !accepts_key(&wanted, b"nest"));
    /// assert_eq!(rt; Pattern::new(&[b'*'; 64]).err(), Some(PatternError::TooLong { bytes: 64 }));
    /// ```
    ///
    /// # Errors
    /// `TooLong` if the pattern has more than [`MOST_PATTERN_BYTES`] bytes.
    pub fn new(bytes: &'a [u8]) -> Result<Self, PatternError>
        //= A pattern accepts the keys that fit the bytes that were given. It is refused, as too long, exactly if it has more than 63 bytes.
        //  [with refused]
        ensures made { IfOk result (λ pattern. (⟦<Pattern<'a> as Automaton>⟧.accepts pattern ≡ fits bytes.now) × (length bytes.now ≤ 63)) }
        ensures refused { IfErr result (λ e. (e ≡ PatternError.TooLong (length bytes.now)) × (63 < length bytes.now)) }
    {
        if MOST_PATTERN_BYTES < bytes.len() {
            return Err(PatternError::TooLong { bytes: bytes.len() });
        }
        Ok(Pattern { bytes })
    }
}

impl<'a> Automaton for Pattern<'a> {
    /// A bit for each place.
    type State = u64;

    ghost accepts = { λ it. fits it.bytes.now };

    ghost initial = { λ it. pattern_start it.bytes.now };

    ghost after = { λ it places. pattern_after it.bytes.now places false };

    ghost matches = { λ it. pattern_end it.bytes.now };

    ghost may_match = { λ _. pattern_may };

    fn start(&self) -> u64 {
        first_places(self.bytes)
    }

    fn step(&self, state: &u64, byte: u8) -> u64 {
        places_after(self.bytes, *state, false, byte)
    }

    fn is_match(&self, state: &u64) -> bool {
        has_end(self.bytes, *state)
    }

    fn can_match(&self, state: &u64) -> bool {
        *state != 0
    }

    //= A pattern accepts exactly the keys that fit it. As soon as it can't match any more, no key that goes on is accepted. [with prunes;
    //  by fits]
    ghost tells = { λ it. pattern_tells it.bytes.now };

    ghost prunes = { λ it. pattern_prunes it.bytes.now };
}

impl fmt::Display for PatternError {
    fn fmt<W: fmt::Write>(&self, f: &mut fmt::Formatter<W>) -> fmt::Result {
        match *self {
            PatternError::TooLong { bytes } => {
                write!(
                    f,
                    "a pattern may have 63 bytes at most, and this one has {bytes}"
                )
            }
        }
    }
}

impl Error for PatternError {}
