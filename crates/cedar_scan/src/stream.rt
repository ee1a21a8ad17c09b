//! A text that comes in pieces.

ghost use Rattle.std.specs.Prelude.{◌+◌, ◌<◌, ◌≡◌, ◌^◌, [], length};
ghost use Rattle.cedar_scan.specs.Words.{CostsInPiece, IsAutomaton, IsBlankOf, IsStream};
ghost use Rattle.cedar_scan.specs.Words.{keys_from, NextInPiece, path_in, slot_of_path};
ghost use Rattle.cedar_scan.specs.Words.{stream_code, StreamAt};

use crate::placed::Placed;
use crate::scan::{Cursor, next_found};
use crate::state::{ListedKey, State};
use cedar_slots::Ticks;
use std::marker::{Brand, Model};
use std::sync::ledger::{Blank, Ledger};

/// A scan over a text that comes in pieces: it gives what a scan over the whole text would. It allocates nothing.
///
/// A contract sees the dictionary's tree, the longest suffix of the text so far that leads to a node, the keys that end here and are still
/// to be given, how many bytes of the present piece were read, and how many of the text.
#[derive(Drop)]
pub struct Stream<'a, T: Placed> {
    trie: &'a T,
    states: &'a [State],
    keys: &'a [ListedKey],
    state: usize,
    pending: usize,
    read: usize,
    place: u64,
}

impl<'a, T: Placed> Model for Stream<'a, T> {
    ghost Value = { StreamAt };

    ghost coded = { stream_code };

    ghost view = { λ it. record {
      tree = T.tree it.trie.now;
      suffix = path_in (T.tree it.trie.now) it.states.now it.state;
      pending = keys_from it.keys.now it.pending;
      read = it.read;
      place = it.place;
    } };

    ghost invariant = { λ it. IsStream (T.tree it.trie.now) (slot_of_path it.states.now) it.states.now it.keys.now it.state it.pending it.place };
}

impl<'a, T: Placed> Stream<'a, T> {
    // Before the first piece.
    pub(crate) fn new(trie: &'a T, states: &'a [State], keys: &'a [ListedKey]) -> Self
        requires { IsAutomaton (T.tree trie.now) (slot_of_path states.now) states.now keys.now }
        ensures { result ≡ record { tree = T.tree trie.now; suffix = []; pending = []; read = 0; place = 0 } }
    {
        Stream {
            trie,
            states,
            keys,
            state: 0,
            pending: 0,
            read: 0,
            place: 0,
        }
    }

    /// The next key that ends in a piece of the text: where it begins in the whole text, how many bytes it has, and its value. It may begin
    /// in a piece before. After `None` the piece has been read, and the next call is for the next piece; before that each call is for the
    /// same one.
    ///
    /// ```
    /// cedar.build(&[("he", 1), ("hers", 3)])?;
    /// let scanner = Scanner::new(&cedar, rt.alloc())?;
    /// let mut stream = scanner.stream();
    /// assert_eq!(rt; stream.next_in(b"ush"), None);
    /// assert_eq!(rt; stream.next_in(b"ers"), Some((2, 2, 1)));
    /// assert_eq!(rt; stream.next_in(b"ers"), Some((2, 4, 3)));
    /// assert_eq!(rt; stream.next_in(b"ers"), None);
    /// ```
    pub fn next_in(&mut self, piece: &[u8]) -> Option<(u64, usize, i32)>
        requires { self.old.place + length piece.now < 2 ^ 64 }
        //= A stream gives the next key that ends in a piece, and after the last one it goes on with what it has read. [also
        //  Stream::next_counted.gives]
        ensures { NextInPiece piece.now self.old result self.new }
    {
        uncounted_in::<Brand, T>(self, piece, Blank::new(1))
    }

    /// `next_in`, with a count of its steps as [`Overlapping::next_counted`](crate::Overlapping::next_counted) has it.
    ///
    /// ```
    /// let mut stream = scanner.stream();
    /// assert_eq!(rt; stream.next_counted(b"he", &mut ticks), Some((0, 2, 1)));
    /// ```
    pub fn next_counted<C: Ledger>(
        &mut self,
        piece: &[u8],
        ticks: &mut Ticks<C>,
    ) -> Option<(u64, usize, i32)>
        requires { self.old.place + length piece.now < 2 ^ 64 }
        ensures gives { NextInPiece piece.now self.old result self.new }

        //= It takes at most two steps for each byte that it reads, and one for the key; each byte by which the suffix grows is paid for one
        //  by which it is shorter later.
        ensures cost { CostsInPiece self.old result self.new ticks.old ticks.new }
    {
        let from = self.read.min(piece.len());
        let mut cursor = Cursor {
            place: 0,
            state: self.state,
            pending: self.pending,
        };
        let found = next_found(
            self.trie,
            self.states,
            self.keys,
            &piece[from..],
            &mut cursor,
            ticks,
        );
        let end = self.place + cursor.place as u64;
        self.state = cursor.state;
        self.pending = cursor.pending;
        self.place = end;
        let Some(found) = found else {
            self.read = 0;
            return None;
        };
        self.read = from + cursor.place;
        Some((end - found.len as u64, found.len, found.value))
    }
}

/// Takes a step with a count of its own, which nothing reads.
fn uncounted_in<C: Ledger, T: Placed>(
    stream: &mut Stream<'_, T>,
    piece: &[u8],
    blank: Blank,
) -> Option<(u64, usize, i32)>
    requires blank { IsBlankOf C.name C.parts blank }
    requires place { stream.old.place + length piece.now < 2 ^ 64 }
    ensures { NextInPiece piece.now stream.old result stream.new }
{
    stream.next_counted(piece, &mut Ticks::<C>::new(blank))
}
