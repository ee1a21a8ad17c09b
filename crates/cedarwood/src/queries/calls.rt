//! The iterations of a dictionary: the prefix walk and the prediction, as iterators and collected, and all entries.

ghost use Rattle.std.specs.Prelude.{◌≡◌, IfErr, IfOk, IsOk, length};
ghost use Rattle.cedarwood.specs.Words.{front, IsBlankOf, predict, walk};

use crate::queries::counted::CountedPrefixIter;
use crate::queries::entries::{Entries, Utf8Entries};
use crate::queries::predict::PrefixPredictIter;
use crate::queries::prefix::PrefixIter;
use crate::{CedarError, Layout, Trie};
use std::alloc::Allocator;
use std::sync::ledger::{Blank, Ledger};

impl<L: Layout, const SLOTS: usize, A: Allocator + Copy> Trie<L, SLOTS, A> {
    /// The keys that a query begins with, shortest first: for each its value, and one less than its bytes. The iterator borrows the
    /// dictionary and the query, and allocates nothing.
    ///
    /// ```
    /// cedar.build(&[("ne", 1), ("net", 7)])?;
    /// let mut fronts = cedar.common_prefix_iter_bytes(b"nest");
    /// assert_eq!(rt; fronts.next(), Some((1, 1)));
    /// assert_eq!(rt; fronts.next(), None);
    /// ```
    pub fn common_prefix_iter_bytes<'a>(&'a self, query: &'a [u8]) -> PrefixIter<'a, Self>
        //= A prefix walk gives `front` of the tree, an item a call. [also common_prefix_iter, PrefixIter::next.steps.query]
        ensures rest { result.rest ≡ front self.now.state.tree query.now }

        //= A new prefix walk has all bytes of its query left. [with query; also common_prefix_iter]
        ensures left { result.left ≡ length query.now }
        ensures query { result.query ≡ length query.now }
    {
        // Its table is well-formed.
        let _ = &self.table;
        PrefixIter::new(self, query)
    }

    /// `common_prefix_iter_bytes` for a text query.
    ///
    /// ```
    /// cedar.build(&[("ne", 1), ("net", 7)])?;
    /// assert_eq!(rt; cedar.common_prefix_iter("nets").last(), Some((7, 2)));
    /// ```
    pub fn common_prefix_iter<'a>(&'a self, query: &'a str) -> PrefixIter<'a, Self>
        ensures rest { result.rest ≡ front self.now.state.tree query.now }
        ensures left { result.left ≡ length query.now }
        ensures query { result.query ≡ length query.now }
    {
        self.common_prefix_iter_bytes(query.as_bytes())
    }

    /// `common_prefix_iter_bytes`, and counts its comparisons of a check field: never more than twice as many as the query has bytes.
    ///
    /// ```
    /// cedar.update("net", 7)?;
    /// let mut fronts = cedar.common_prefix_iter_counted::<C>(b"nets", blank);
    /// assert_eq!(rt; fronts.next(), Some((7, 2)));
    /// ```
    pub fn common_prefix_iter_counted<'a, C: Ledger>(
        &'a self,
        query: &'a [u8],
        blank: Blank,
    ) -> CountedPrefixIter<'a, Self, C>
        requires { IsBlankOf C.name C.parts blank }

        //= A prefix walk that counts gives `front` of the tree too, and counts from 0 on. [with ticks; also CountedPrefixIter.next_gives]
        ensures rest { result.rest ≡ front self.now.state.tree query.now }
        ensures ticks { result.ticks ≡ 0 }

        //= The walk knows how many bytes its query has.
        ensures query { result.query ≡ length query.now }
    {
        CountedPrefixIter::new(self.common_prefix_iter_bytes(query), blank)
    }

    /// The items of `common_prefix_iter_bytes` in a vector from the dictionary's own allocator.
    ///
    /// ```
    /// cedar.build(&[("ne", 1), ("net", 7)])?;
    /// let found = cedar.common_prefix_search_bytes(b"nets")?;
    /// assert_eq!(rt; found.as_slice(), [(1, 1), (7, 2)].as_slice());
    /// ```
    ///
    /// # Errors
    /// `Memory` if an allocation was refused.
    pub fn common_prefix_search_bytes(
        &self,
        query: &[u8],
    ) -> Result<Vec<(i32, usize), A>, CedarError>
        //= The vectors of prefix walks and of predictions have these lists, and fail only with `Memory`. [with refused; also
        //  common_prefix_predict_bytes, common_prefix_search, common_prefix_predict]
        ensures found { IfOk result (λ found. found.items ≡ front self.now.state.tree query.now) }
        ensures refused { IfErr result (λ e. e ≡ CedarError.Memory) }
    {
        let found = self
            .common_prefix_iter_bytes(query)
            .collect(self.table.allocator())?;
        Ok(found)
    }

    /// `common_prefix_search_bytes` for a text query.
    ///
    /// ```
    /// cedar.build(&[("ne", 1), ("net", 7)])?;
    /// let fronts = cedar.common_prefix_search("nest")?;
    /// assert_eq!(rt; fronts.as_slice(), [(1, 1)].as_slice());
    /// ```
    ///
    /// # Errors
    /// `Memory` if an allocation was refused.
    pub fn common_prefix_search(&self, query: &str) -> Result<Vec<(i32, usize), A>, CedarError>
        ensures found { IfOk result (λ found. found.items ≡ front self.now.state.tree query.now) }
        ensures refused { IfErr result (λ e. e ≡ CedarError.Memory) }
    {
        self.common_prefix_search_bytes(query.as_bytes())
    }

    /// The keys that begin with a query, each before its extensions and in iteration order: for each the value, and how many bytes follow
    /// the query. The iterator borrows the dictionary and the query, and allocates nothing.
    ///
    /// ```
    /// cedar.build(&[("ne", 1), ("net", 7)])?;
    /// let mut below = cedar.common_prefix_predict_iter_bytes(b"n");
    /// assert_eq!(rt; below.next(), Some((1, 1)));
    /// assert_eq!(rt; below.next(), Some((7, 2)));
    /// ```
    pub fn common_prefix_predict_iter_bytes<'a>(
        &'a self,
        query: &'a [u8],
    ) -> PrefixPredictIter<'a, Self>
        //= A prediction gives `predict` of the tree, an item a call. [also common_prefix_predict_iter, PrefixPredictIter.next_gives]
        ensures { result ≡ predict self.now.state.tree query.now }
    {
        // Its table is well-formed.
        let _ = &self.table;
        PrefixPredictIter::new(self, query)
    }

    /// `common_prefix_predict_iter_bytes` for a text query.
    ///
    /// ```
    /// cedar.build(&[("ne", 1), ("net", 7)])?;
    /// assert_eq!(rt; cedar.common_prefix_predict_iter("net").next(), Some((7, 0)));
    /// ```
    pub fn common_prefix_predict_iter<'a>(&'a self, query: &'a str) -> PrefixPredictIter<'a, Self>
        ensures { result ≡ predict self.now.state.tree query.now }
    {
        self.common_prefix_predict_iter_bytes(query.as_bytes())
    }

    /// The items of `common_prefix_predict_iter_bytes` in a vector from the dictionary's own allocator.
    ///
    /// ```
    /// cedar.build(&[("ne", 1), ("net", 7)])?;
    /// let found = cedar.common_prefix_predict_bytes(b"n")?;
    /// assert_eq!(rt; found.as_slice(), [(1, 1), (7, 2)].as_slice());
    /// ```
    ///
    /// # Errors
    /// `Memory` if an allocation was refused.
    pub fn common_prefix_predict_bytes(
        &self,
        query: &[u8],
    ) -> Result<Vec<(i32, usize), A>, CedarError>
        ensures found { IfOk result (λ found. found.items ≡ predict self.now.state.tree query.now) }
        ensures refused { IfErr result (λ e. e ≡ CedarError.Memory) }
    {
        let found = self
            .common_prefix_predict_iter_bytes(query)
            .collect(self.table.allocator())?;
        Ok(found)
    }

    /// `common_prefix_predict_bytes` for a text query.
    ///
    /// ```
    /// cedar.build(&[("ne", 1), ("net", 7)])?;
    /// let below = cedar.common_prefix_predict("net")?;
    /// assert_eq!(rt; below.as_slice(), [(7, 0)].as_slice());
    /// ```
    ///
    /// # Errors
    /// `Memory` if an allocation was refused.
    pub fn common_prefix_predict(&self, query: &str) -> Result<Vec<(i32, usize), A>, CedarError>
        ensures found { IfOk result (λ found. found.items ≡ predict self.now.state.tree query.now) }
        ensures refused { IfErr result (λ e. e ≡ CedarError.Memory) }
    {
        self.common_prefix_predict_bytes(query.as_bytes())
    }

    /// All keys with their values, in iteration order. Each key is copied for its item, into memory of the dictionary's own allocator. The
    /// call itself can't be refused; only an item can.
    ///
    /// ```
    /// cedar.build(&[("net", 7), ("ten", 2)])?;
    /// let mut entries = cedar.entries()?;
    /// let (key, value) = entries.next().ok_or("an entry")??;
    /// assert_eq!(rt; (key.as_slice(), value), (b"net".as_slice(), 7));
    /// ```
    ///
    /// # Errors
    /// None: it is always `Ok`.
    pub fn entries(&self) -> Result<Entries<'_, Self, A>, CedarError>
        //= `entries` gives the walk of the tree, an item a call. Items may fail only with `Memory`, and a failed one is the last. [with
        //  refused; also Entries.next_gives]
        ensures entries { IfOk result (λ entries. entries ≡ walk self.now.state.tree) }
        ensures refused { IfErr result (λ e. e ≡ CedarError.Memory) }

        //= The calls `entries` and `entries_str` themselves aren't refused. [also entries_str]
        ensures made { IsOk result }
    {
        Ok(Entries::new(self, self.table.allocator(), self.table.entries()))
    }

    /// `entries` with keys as text.
    ///
    /// ```
    /// cedar.build(&[("net", 7), ("ten", 2)])?;
    /// let mut entries = cedar.entries_str()?;
    /// let (key, value) = entries.next().ok_or("an entry")??;
    /// assert_eq!(rt; (key.as_str(), value), ("net", 7));
    /// ```
    ///
    /// # Errors
    /// None: it is always `Ok`.
    pub fn entries_str(&self) -> Result<Utf8Entries<'_, Self, A>, CedarError>
        //= `entries_str` gives the same as text. A key that isn't UTF-8 gives an error with its value instead of its item, and the iteration
        //  goes on after it. [with refused; also Utf8Entries.next_gives]
        ensures entries { IfOk result (λ entries. entries ≡ walk self.now.state.tree) }

        ensures refused { IfErr result (λ e. e ≡ CedarError.Memory) }
        ensures made { IsOk result }
    {
        Ok(Utf8Entries::new(self.entries()?))
    }
}
