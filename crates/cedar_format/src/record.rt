//! The records that a file has lists of: those of a table, and single numbers.

ghost use Rattle.std.specs.Prelude.{◌++◌, ◌+◌, ◌<◌, ◌≡◌, ◌≤◌, length, List, take, ℕ};
ghost use Rattle.cedar_format.specs.Words.{block_bytes, FitsBlock, FitsInfo, FitsNode, i16_bytes};
ghost use Rattle.cedar_format.specs.Words.{info_bytes, IsI16, length-append, length-i16_bytes};
ghost use Rattle.cedar_format.specs.Words.{length-i32_bytes, node_bytes, rules};

use crate::buffer::{take_i16, take_i32, take_u8, write_i16_at, write_i32_at};
use cedar_slots::{BlockRecord, NInfoRecord, NodeRecord};

/// A record that a file has a list of.
pub(crate) trait Record: Copy + Drop {
    /// How many bytes each takes, in a file as in memory.
    ghost LEN: { ℕ };

    const LEN: usize;

    /// The bytes of one.
    ghost bytes_of: { Self → List ℕ };

    /// Its numbers fit their types.
    ghost Fits: { Self → Type 0 };

    /// Takes one from the start of some bytes.
    fn take_from(bytes: &mut &[u8]) -> Self
        requires { LEN ≤ length bytes.old.now }
        ensures front { bytes.old.now ≡ bytes_of result ++ bytes.new.now }
        ensures len { length bytes.old.now ≡ LEN + length bytes.new.now }
        ensures fits { Fits result };

    /// Writes its bytes at a position. The bytes before that position stay.
    fn write_at(&self, bytes: &mut [u8], at: usize)
        requires { at + LEN ≤ length bytes.old }
        ensures front { take (at + LEN) bytes.new ≡ take at bytes.old ++ bytes_of self.now }
        ensures len { length bytes.new ≡ length bytes.old }
        ensures fits { Fits self.now };

    ghost same_len: { (item : Self) → length (bytes_of item) ≡ LEN };

    ghost some: { 0 < LEN };

    ghost small: { LEN ≤ 20 };
}

impl Record for NodeRecord {
    ghost LEN = { 8 };

    const LEN: usize = 8;

    ghost bytes_of = { node_bytes };

    ghost Fits = { FitsNode };

    fn take_from(bytes: &mut &[u8]) -> NodeRecord {
        let base = take_i32(bytes);
        let check = take_i32(bytes);
        NodeRecord { base, check }
    }

    #[inline(always)]
    fn write_at(&self, bytes: &mut [u8], at: usize) {
        write_i32_at(bytes, at, self.base);
        write_i32_at(bytes, at + 4, self.check);
    }

    ghost same_len = { λ node. Prim.search (rules, length-append, length-i32_bytes) };

    ghost some = { Prim.search rules };

    ghost small = { Prim.search rules };
}

impl Record for NInfoRecord {
    ghost LEN = { 2 };

    const LEN: usize = 2;

    ghost bytes_of = { info_bytes };

    ghost Fits = { FitsInfo };

    fn take_from(bytes: &mut &[u8]) -> NInfoRecord {
        let sibling = take_u8(bytes);
        let child = take_u8(bytes);
        NInfoRecord { sibling, child }
    }

    #[inline(always)]
    fn write_at(&self, bytes: &mut [u8], at: usize) {
        bytes[at] = self.sibling;
        bytes[at + 1] = self.child;
    }

    ghost same_len = { λ info. Prim.search rules };

    ghost some = { Prim.search rules };

    ghost small = { Prim.search rules };
}

impl Record for BlockRecord {
    ghost LEN = { 20 };

    const LEN: usize = 20;

    ghost bytes_of = { block_bytes };

    ghost Fits = { FitsBlock };

    fn take_from(bytes: &mut &[u8]) -> BlockRecord {
        let prev = take_i32(bytes);
        let next = take_i32(bytes);
        let num = take_i16(bytes);
        let reject = take_i16(bytes);
        let trial = take_i32(bytes);
        let e_head = take_i32(bytes);
        BlockRecord {
            prev,
            next,
            num,
            reject,
            trial,
            e_head,
        }
    }

    #[inline(always)]
    fn write_at(&self, bytes: &mut [u8], at: usize) {
        write_i32_at(bytes, at, self.prev);
        write_i32_at(bytes, at + 4, self.next);
        write_i16_at(bytes, at + 8, self.num);
        write_i16_at(bytes, at + 10, self.reject);
        write_i32_at(bytes, at + 12, self.trial);
        write_i32_at(bytes, at + 16, self.e_head);
    }

    ghost same_len = { λ block. Prim.search (rules, length-append, length-i16_bytes, length-i32_bytes) };

    ghost some = { Prim.search rules };

    ghost small = { Prim.search rules };
}

impl Record for i16 {
    ghost LEN = { 2 };

    const LEN: usize = 2;

    ghost bytes_of = { i16_bytes };

    ghost Fits = { IsI16 };

    fn take_from(bytes: &mut &[u8]) -> i16 {
        take_i16(bytes)
    }

    #[inline(always)]
    fn write_at(&self, bytes: &mut [u8], at: usize) {
        write_i16_at(bytes, at, *self);
    }

    ghost same_len = { length-i16_bytes };

    ghost some = { Prim.search rules };

    ghost small = { Prim.search rules };
}
