//! How a dictionary is loaded: from a watched reader, or from bytes in memory.

ghost use Rattle.std.specs.Prelude.{◌*◌, ◌+◌, ◌≡◌, IfOk};
ghost use Rattle.cedarwood.specs.Words.{CountsWithin, default_load_limit, IsLimit, layout_byte};
ghost use Rattle.cedarwood.specs.Words.{LoadsBy, need, no_search_limit, TellsBreaks};

use crate::counted::load_uncounted;
use crate::{CedarPersistenceError, DEFAULT_LOAD_MEMORY_LIMIT, Layout, Source, Ticks, Trie};
use cedar_file::load_table;
use std::alloc::Allocator;
use std::marker::Brand;
use std::sync::ledger::{Blank, Ledger};

impl<L: Layout, const SLOTS: usize, A: Allocator + Copy> Trie<L, SLOTS, A> {
    /// Loads the dictionary that was saved. It allocates from `alloc`. It counts the bytes that it allocates, and the records that it reads
    /// to test the table.
    ///
    /// ```
    /// let mut file = Watched::new(saved);
    /// let again = Cedar::load_counted(rt.alloc(), &mut file, 1048576, &mut asked, &mut reads)?;
    /// ```
    ///
    /// # Errors
    /// The first fault of the header and of the input's length, if there is one; `CorruptData` if the bytes are of no well-formed table;
    /// `AllocationFailed` with the number of elements if an allocation was refused, once the header has passed; `Io` if the reader failed,
    /// which bytes in memory never do.
    pub fn load_counted<S: Source, C: Ledger, D: Ledger>(
        alloc: A,
        reader: &mut S,
        memory_limit: usize,
        asked: &mut Ticks<C>,
        reads: &mut Ticks<D>,
    ) -> Result<Self, CedarPersistenceError>
        requires limit { IsLimit SLOTS }

        //= A dictionary is loaded only from exactly the bytes of its table in one of the versions, and the table is well-formed, even if
        //  the reader fails. [also load_from_reader_with_limit, load_from_reader; by LoadsBy, bytes, formed]
        //= From a reader whose bytes are known and that doesn't fail, and so from any bytes in memory, a load returns the first refusal of
        //  header and length. Otherwise it returns the dictionary whose table the bytes are in one of the versions, or that they are of no
        //  well-formed table in any; or, once the header has passed, that a list found no room. [also load_from_reader_with_limit,
        //  load_from_reader; by answer, LoadAnswers]
        //= From a reader that fails, too, its bytes decide the result, unless that is `Io`, or a read returned an end of the input as a
        //  fault. [also load_from_reader_with_limit, load_from_reader; by decided]
        //= A load returns `Io` only if the reader failed, now or before, and so never from bytes in memory. [also
        //  load_from_reader_with_limit, load_from_reader; by io]
        //= Lack of memory is reported only with the number of elements of one of the four lists of a header that has passed, even if the
        //  reader fails. [also load_from_reader_with_limit, load_from_reader; by lacks, LacksNoMore]
        ensures loads { LoadsBy (λ trie. trie.table) L.kind SLOTS memory_limit (S.remaining reader.old) (S.remaining reader.new) (S.failed reader.new) (S.cut reader.new) result }

        //= If a read was broken off, a load returns neither a dictionary nor `Truncated`. [also load_from_reader_with_limit,
        //  load_from_reader; by TellsBreaks]
        ensures told { TellsBreaks (S.broken reader.old) (S.broken reader.new) result }

        //= A file has no search limit: nothing bounds the searches of what was loaded. [also load_from_reader_with_limit, load_from_reader,
        //  load_from_path_with_limit, load_from_path]
        ensures unbounded { IfOk result (λ trie. trie.search_limit ≡ no_search_limit) }

        //= By its counts, before the header has passed it allocates nothing and reads no record for the table's test. Then it allocates at
        //  most the need, and makes at most sixteen reads a slot and 1024 more. [with reads]
        ensures asked { CountsWithin (layout_byte L.kind) SLOTS memory_limit (S.remaining reader.old) need asked.old asked.new }
        ensures reads { CountsWithin (layout_byte L.kind) SLOTS memory_limit (S.remaining reader.old) (λ h. 16 * h.capacity + 1024) reads.old reads.new }
    {
        let table = load_table(alloc, reader, memory_limit, asked, reads)?;
        Ok(Trie {
            table,
            search_limit: usize::MAX,
        })
    }

    /// Loads the dictionary that was saved, if it needs at most `memory_limit` bytes of memory. It allocates from `alloc`. A reader is
    /// handed over in a `Watched`, and bytes in memory as they are.
    ///
    /// ```
    /// let mut file = Watched::new(saved);
    /// let again = Cedar::load_from_reader_with_limit(rt.alloc(), &mut file, 1048576)?;
    /// assert_eq!(rt; again.len(), cedar.len());
    /// ```
    ///
    /// # Errors
    /// As `load_counted`.
    pub fn load_from_reader_with_limit<S: Source>(
        alloc: A,
        reader: &mut S,
        memory_limit: usize,
    ) -> Result<Self, CedarPersistenceError>
        requires limit { IsLimit SLOTS }
        ensures loads { LoadsBy (λ trie. trie.table) L.kind SLOTS memory_limit (S.remaining reader.old) (S.remaining reader.new) (S.failed reader.new) (S.cut reader.new) result }
        ensures told { TellsBreaks (S.broken reader.old) (S.broken reader.new) result }
        ensures unbounded { IfOk result (λ trie. trie.search_limit ≡ no_search_limit) }
    {
        load_uncounted::<Brand, Brand, Self, A, S>(
            alloc,
            reader,
            memory_limit,
            Blank::new(1),
            Blank::new(1),
        )
    }

    /// `load_from_reader_with_limit` with the default limit, 2^29 bytes.
    ///
    /// ```
    /// let mut file = Watched::new(saved);
    /// let again = Cedar::load_from_reader(rt.alloc(), &mut file)?;
    /// assert_eq!(rt; again.len(), cedar.len());
    ///
    /// let again = Cedar::load_from_reader(rt.alloc(), &mut &saved[..])?;
    /// assert_eq!(rt; again.len(), cedar.len());
    /// ```
    ///
    /// # Errors
    /// As `load_counted`.
    pub fn load_from_reader<S: Source>(
        alloc: A,
        reader: &mut S,
    ) -> Result<Self, CedarPersistenceError>
        requires limit { IsLimit SLOTS }
        ensures loads { LoadsBy (λ trie. trie.table) L.kind SLOTS default_load_limit (S.remaining reader.old) (S.remaining reader.new) (S.failed reader.new) (S.cut reader.new) result }
        ensures told { TellsBreaks (S.broken reader.old) (S.broken reader.new) result }
        ensures unbounded { IfOk result (λ trie. trie.search_limit ≡ no_search_limit) }
    {
        Self::load_from_reader_with_limit(alloc, reader, DEFAULT_LOAD_MEMORY_LIMIT)
    }
}
