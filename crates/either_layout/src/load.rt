//! How a dictionary is loaded, of the layout that is asked for, or of the one that its file names.

ghost use Rattle.std.specs.Prelude.{◌≡◌, false, IfErr, IfOk, List, Option, Some, slice_get, ℕ};
ghost use Rattle.either_layout.specs.Words.{file_layout, inner_dictionary, inner_layout};
ghost use Rattle.either_layout.specs.Words.{IsLimit, IsWellFormed, LacksInEither, layout_for};
ghost use Rattle.either_layout.specs.Words.{LoadsAnyFrom, LoadsAnyOpened, LoadsBy, most_slots};
ghost use Rattle.either_layout.specs.Words.{names_reduced_layout, no_search_limit, table_in};
ghost use Rattle.either_layout.specs.Words.{TellsBreaks};

use crate::AnyCedar;
use cedarwood::{Cedar, CedarPersistenceError, Layout, ReducedCedar, Source, Trie, Watched};
use std::alloc::Global;
use std::io;
use std::io::{BufReader, Cursor, ErrorKind, Read};
use std::rt::Files;
use whole_files::open_to_read;

/// Where a file has the byte of its layout.
const LAYOUT_PLACE: usize = 13;

/// How many bytes a file has up to that byte.
const HEAD_LEN: usize = 14;

/// The byte of the reduced layout.
const REDUCED_LAYOUT: u8 = 1;

/// How many bytes the buffer of a file has.
const BUFFER_LEN: usize = 8192;

/// Whether a file that begins with these bytes names the reduced layout. Fewer than 14 bytes name none.
#[must_use]
pub fn names_reduced(bytes: &[u8]) -> bool
    //= `names_reduced` returns whether a file's byte 13, which is that of its layout, is there and names the reduced one. [by
    //  names_reduced_layout]
    ensures { result ≡ names_reduced_layout (slice_get bytes.now 13) }
{
    match bytes.get(LAYOUT_PLACE) {
        Some(byte) => *byte == REDUCED_LAYOUT,
        None => false,
    }
}

impl AnyCedar {
    /// Loads a dictionary of the reduced layout or of the default one, if it needs at most `memory_limit` bytes of memory. A reader is
    /// handed over in a `Watched`, and bytes in memory as they are.
    ///
    /// # Errors
    /// As [`Trie::load_counted`](cedarwood::Trie::load_counted): a file of the other layout is refused with `LayoutMismatch`.
    #[tactic(auto, using(cedarwood::proofs::DictionaryLemmas::default_limit))]
    pub fn load_as<S: Source>(
        alloc: Global,
        is_reduced: bool,
        reader: &mut S,
        memory_limit: usize,
    ) -> Result<AnyCedar, CedarPersistenceError>
        //= A load of a named layout loads what the dictionary's own load of that layout does, and fails as that does. [with told; by LoadsBy,
        //  TellsBreaks]
        ensures loads { LoadsBy table_in (layout_for is_reduced) most_slots memory_limit (S.remaining reader.old) (S.remaining reader.new) (S.failed reader.new) (S.cut reader.new) result }
        ensures told { TellsBreaks (S.broken reader.old) (S.broken reader.new) result }

        //= Nothing bounds the searches of a dictionary that was loaded. [also load_any, load_any_from_path]
        ensures unbounded { IfOk result (λ a. (inner_dictionary a).search_limit ≡ no_search_limit) }
        ensures layout { IfOk result (λ a. inner_layout a ≡ layout_for is_reduced) }
    {
        if is_reduced {
            match ReducedCedar::load_from_reader_with_limit(alloc, reader, memory_limit) {
                Ok(cedar) => Ok(AnyCedar::Reduced(cedar)),
                Err(error) => Err(error),
            }
        } else {
            match Cedar::load_from_reader_with_limit(alloc, reader, memory_limit) {
                Ok(cedar) => Ok(AnyCedar::Default(cedar)),
                Err(error) => Err(error),
            }
        }
    }

    /// Loads the dictionary of a file's bytes, of the layout that the file names, if it needs at most `memory_limit` bytes of memory.
    ///
    /// # Errors
    /// As [`Trie::load_counted`](cedarwood::Trie::load_counted) of that layout. A file that names neither layout is refused as by the
    /// default one: with `LayoutMismatch`, unless something before that byte is wrong.
    #[tactic(auto, using(cedarwood::proofs::DictionaryLemmas::default_limit))]
    pub fn load_any(
        alloc: Global,
        bytes: &[u8],
        memory_limit: usize,
    ) -> Result<AnyCedar, CedarPersistenceError>
        //= A load of any file's bytes is that of the layout that the file names: the default one, unless its byte names the reduced one. What
        //  is loaded is of that layout. [with layout; by LoadsBy, file_layout]
        ensures loads { (left : Option (List ℕ)) × LoadsBy table_in (file_layout bytes.now) most_slots memory_limit (Some bytes.now) left false false result }
        ensures layout { IfOk result (λ a. inner_layout a ≡ file_layout bytes.now) }
        ensures unbounded { IfOk result (λ a. (inner_dictionary a).search_limit ≡ no_search_limit) }
    {
        let is_reduced = names_reduced(bytes);
        if is_reduced {
            match load_bytes(alloc, bytes, memory_limit) {
                Ok(cedar) => Ok(AnyCedar::Reduced(cedar)),
                Err(error) => Err(error),
            }
        } else {
            match load_bytes(alloc, bytes, memory_limit) {
                Ok(cedar) => Ok(AnyCedar::Default(cedar)),
                Err(error) => Err(error),
            }
        }
    }

    /// Loads the dictionary that was saved in a file, of the layout that the file names, through a buffer of 8192 bytes, if its table needs
    /// at most `memory_limit` bytes of memory.
    ///
    /// # Errors
    /// As `load_any`; also `Io` if the file can't be opened or read, and `AllocationFailed` with 8192 if there is no memory for the buffer.
    pub fn load_any_from_path<F: Files>(
        alloc: Global,
        files: &F,
        path: &str,
        memory_limit: usize,
    ) -> Result<AnyCedar, CedarPersistenceError>
        //= A load of either layout by path that succeeds returns a well-formed table. Lack of memory is reported as by a load by path of one
        //  of the layouts. [with lacks; by LacksInEither]
        ensures formed { IfOk result (λ a. IsWellFormed most_slots (table_in a)) }
        ensures lacks { IfErr result (LacksInEither memory_limit) }

        //= A load of either layout by path has opened a file at just that path, among the files that it was given, and returns what `load_any`
        //  makes of that file's bytes, from the first to the last, as far as they are known: of the layout that they name, under the limit
        //  that the load was given. Or there was no memory for the buffer; or the system hasn't opened the file, or a read of it failed, and
        //  the load returns `Io`. No contract of the system's files says which bytes these are. [by LoadsAnyFrom, LoadsAnyOpened, LoadsBy,
        //  decided, NamesLayout]
        ensures loads { LoadsAnyFrom F memory_limit F.File.remaining path.now result }
        ensures unbounded { IfOk result (λ a. (inner_dictionary a).search_limit ≡ no_search_limit) }
    {
        let opened = open_to_read(files, path)?;
        AnyCedar::load_opened(alloc, opened.into_file(), memory_limit)
    }

    /// Loads the dictionary that was saved in a file that is open, of the layout that its first 14 bytes name. They are read first, and then
    /// once more as what comes before the others. A file ends where a read of it returns nothing: one that returns an end of the input as
    /// a fault may have bytes left.
    fn load_opened<R: Read + Drop>(
        alloc: Global,
        file: R,
        memory_limit: usize,
    ) -> Result<AnyCedar, CedarPersistenceError>
        ensures loads { LoadsAnyOpened memory_limit (R.remaining file) result }
        ensures formed { IfOk result (λ a. IsWellFormed most_slots (table_in a)) }
        ensures lacks { IfErr result (LacksInEither memory_limit) }
        ensures unbounded { IfOk result (λ a. (inner_dictionary a).search_limit ≡ no_search_limit) }
    {
        let Ok(buffered) = BufReader::new(alloc, file) else {
            return Err(CedarPersistenceError::AllocationFailed {
                requested: BUFFER_LEN,
            });
        };
        let mut reader = Watched::new(buffered);
        let mut head = [0; HEAD_LEN];
        let (count, fault) = reader.read_available(&mut head);
        if let Some(error) = fault {
            return Err(CedarPersistenceError::Io(error));
        }
        if count < HEAD_LEN {
            return AnyCedar::load_any(alloc, &head[..count], memory_limit);
        }
        let is_reduced = names_reduced(&head);
        let mut whole = Watched::new(Cursor::new(head).chain(reader.into_inner()));
        let loaded = AnyCedar::load_as(alloc, is_reduced, &mut whole, memory_limit);
        let cut = whole.cut();
        if cut {
            return Err(CedarPersistenceError::Io(io::Error::from(ErrorKind::UnexpectedEof)));
        }
        loaded
    }
}

/// The dictionary of a layout that a file's bytes are of, if they are of one. What is left of the bytes is in a variable of its own, and so in
/// registers: a load from a reader that is lent takes a quarter to a third more instructions.
fn load_bytes<L: Layout, const SLOTS: usize>(
    alloc: Global,
    bytes: &[u8],
    memory_limit: usize,
) -> Result<Trie<L, SLOTS, Global>, CedarPersistenceError>
    requires limit { IsLimit SLOTS }
    ensures loads { (left : Option (List ℕ)) × LoadsBy (λ trie. trie.table) L.kind SLOTS memory_limit (Some bytes.now) left false false result }
    ensures unbounded { IfOk result (λ trie. trie.search_limit ≡ no_search_limit) }
{
    let mut left = bytes;
    Trie::load_from_reader_with_limit(alloc, &mut left, memory_limit)
}
