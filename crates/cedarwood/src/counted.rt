//! Calls whose steps are counted, called with counts of their own that nothing reads.

ghost use Rattle.std.specs.Prelude.{◌++◌, ◌≡◌, drop, IfOk, IfSome, length, map, None, take, ℕ};
ghost use Rattle.cedarwood.specs.Words.{exact, Fields, IsBlankOf, IsLimit, IsSound, keys_of};
ghost use Rattle.cedarwood.specs.Words.{LayoutKind, LoadsBy, no_search_limit, TellsBreaks};
ghost use Rattle.cedarwood.specs.Words.{Tree, value_fault};

use crate::{CedarPersistenceError, Layout, Source, Ticks, Trie};
use cedar_walk::exact_match_search_batch;
use std::alloc::Allocator;
use std::sync::ledger::{Blank, Ledger};

/// A dictionary whose calls count their steps: any [`Trie`]. A ledger for a count is picked if no type that is passed has a const
/// parameter: so a count isn't made in the trie's own call, but in a function over this trait.
pub(crate) trait Counted<A: Allocator + Copy> {
    ghost kind: { LayoutKind };

    ghost slots: { ℕ };

    ghost tree: { Self → Tree };

    ghost table: { Self → Fields };

    ghost search_limit: { Self → ℕ };

    /// The value at a key and the key's length.
    fn search<C: Ledger>(&self, key: &[u8], ticks: &mut Ticks<C>) -> Option<(i32, usize)>
        ensures answer { result ≡ exact (tree self.now) key.now }
        ensures sound { IsSound (tree self.now) }
        ensures in_range { IfSome result (λ found. value_fault found.0 ≡ None) };

    /// The values at some keys and the keys' lengths.
    fn search_batch<C: Ledger>(
        &self,
        keys: &[&[u8]],
        answers: &mut [Option<(i32, usize)>],
        ticks: &mut Ticks<C>,
    )
        ensures { answers.new ≡ map (exact (tree self.now)) (take (length answers.old) (keys_of keys.now)) ++ drop (length keys.now) answers.old };

    /// What was saved.
    fn load<S: Source, C: Ledger, D: Ledger>(
        alloc: A,
        reader: &mut S,
        memory_limit: usize,
        asked: &mut Ticks<C>,
        reads: &mut Ticks<D>,
    ) -> Result<Self, CedarPersistenceError>
        requires { IsLimit slots }
        ensures loads { LoadsBy table kind slots memory_limit (S.remaining reader.old) (S.remaining reader.new) (S.failed reader.new) (S.cut reader.new) result }
        ensures told { TellsBreaks (S.broken reader.old) (S.broken reader.new) result }
        ensures unbounded { IfOk result (λ loaded. search_limit loaded ≡ no_search_limit) };
}

impl<L: Layout, const SLOTS: usize, A: Allocator + Copy> Counted<A> for Trie<L, SLOTS, A> {
    ghost kind = { L.kind };

    ghost slots = { SLOTS };

    ghost tree = { λ trie. trie.state.tree };

    ghost table = { λ trie. trie.table };

    ghost search_limit = { λ trie. trie.search_limit };

    fn search<C: Ledger>(&self, key: &[u8], ticks: &mut Ticks<C>) -> Option<(i32, usize)> {
        self.exact_match_search_counted(key, ticks)
    }

    fn search_batch<C: Ledger>(
        &self,
        keys: &[&[u8]],
        answers: &mut [Option<(i32, usize)>],
        ticks: &mut Ticks<C>,
    ) {
        exact_match_search_batch(&self.table, keys, answers, ticks);
    }

    fn load<S: Source, C: Ledger, D: Ledger>(
        alloc: A,
        reader: &mut S,
        memory_limit: usize,
        asked: &mut Ticks<C>,
        reads: &mut Ticks<D>,
    ) -> Result<Self, CedarPersistenceError> {
        Self::load_counted(alloc, reader, memory_limit, asked, reads)
    }
}

/// Searches for a key.
pub(crate) fn search_uncounted<C: Ledger, T: Counted<A>, A: Allocator + Copy>(
    searched: &T,
    key: &[u8],
    blank: Blank,
) -> Option<(i32, usize)>
    requires { IsBlankOf C.name C.parts blank }
    ensures answer { result ≡ exact (T.tree searched.now) key.now }
    ensures sound { IsSound (T.tree searched.now) }
    ensures in_range { IfSome result (λ found. value_fault found.0 ≡ None) }
{
    searched.search(key, &mut Ticks::<C>::new(blank))
}

/// Searches for many keys.
pub(crate) fn search_batch_uncounted<C: Ledger, T: Counted<A>, A: Allocator + Copy>(
    searched: &T,
    keys: &[&[u8]],
    answers: &mut [Option<(i32, usize)>],
    blank: Blank,
)
    requires { IsBlankOf C.name C.parts blank }
    ensures { answers.new ≡ map (exact (T.tree searched.now)) (take (length answers.old) (keys_of keys.now)) ++ drop (length keys.now) answers.old }
{
    searched.search_batch(keys, answers, &mut Ticks::<C>::new(blank));
}

/// Loads what was saved.
pub(crate) fn load_uncounted<C: Ledger, D: Ledger, T: Counted<A>, A: Allocator + Copy, S: Source>(
    alloc: A,
    reader: &mut S,
    memory_limit: usize,
    asked_blank: Blank,
    reads_blank: Blank,
) -> Result<T, CedarPersistenceError>
    requires limit { IsLimit T.slots }
    requires asked_blank { IsBlankOf C.name C.parts asked_blank }
    requires reads_blank { IsBlankOf D.name D.parts reads_blank }
    ensures loads { LoadsBy T.table T.kind T.slots memory_limit (S.remaining reader.old) (S.remaining reader.new) (S.failed reader.new) (S.cut reader.new) result }
    ensures told { TellsBreaks (S.broken reader.old) (S.broken reader.new) result }
    ensures unbounded { IfOk result (λ loaded. T.search_limit loaded ≡ no_search_limit) }
{
    let asked = &mut Ticks::<C>::new(asked_blank);
    let reads = &mut Ticks::<D>::new(reads_blank);
    T::load(alloc, reader, memory_limit, asked, reads)
}
