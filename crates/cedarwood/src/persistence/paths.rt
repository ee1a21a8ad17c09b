//! Files by their paths, through a buffer.

ghost use Rattle.std.specs.Prelude.{◌≡◌};
ghost use Rattle.cedarwood.specs.Words.{default_load_limit, FailsToWrite, IfErr, IfOk, IsLimit};
ghost use Rattle.cedarwood.specs.Words.{IsSavedAt, IsTableFile, IsUnsavedAt, IsWellFormed};
ghost use Rattle.cedarwood.specs.Words.{LacksByPath, layout_byte, LoadsFrom, LoadsOpened};
ghost use Rattle.cedarwood.specs.Words.{no_search_limit, OnOk, PassesAgain, table_bytes};
ghost use Rattle.cedarwood.specs.Words.{TellsError};

use crate::persistence::replace::no_room;
use crate::{
    CedarPersistenceError, DEFAULT_LOAD_MEMORY_LIMIT, Layout, SaveFailed, Saved, Trie, Watched,
};
use cedar_format::{FULL_MINOR, MINOR};
use std::alloc::Allocator;
use std::io;
use std::io::{BufReader, ErrorKind, Read};
use std::rt::Files;
use whole_files::open_to_read;

impl<L: Layout, const SLOTS: usize, A: Allocator + Copy> Trie<L, SLOTS, A> {
    /// Writes the dictionary's file as `save_to_writer` does, and replaces the one at `path` by it. A new file is made beside that one: `path`
    /// with `.new` after it, or with `.1.new` to `.99.new` where a name is taken (of a name that would be too long the first bytes come
    /// before that). It is written through a buffer of 8192 bytes, flushed, and given the old file's owner and group where the system
    /// allows that, and its mode, but set-user-ID and set-group-ID only with both. Once it is on the disk it is renamed, and its folder is
    /// synced. The buffer comes from the dictionary's own allocator; nothing else is allocated.
    ///
    /// So whatever crash comes, the file at `path` is the old one or the new one, whole; after `Ok` it is the new one. If several programs
    /// save to one path, it is the file of one of them. After an error the old file is as it was, and the new one is removed if that is
    /// possible; but if only its folder couldn't be synced, the new one stays in its place. A new file that a crash has left stays too.
    ///
    /// If `path` leads to something other than a file, such as a pipe or a device, that is written to as it is. A link is replaced by the
    /// file, which has the mode of what the link leads to.
    ///
    /// It returns what it did, so that proofs about a caller can go by the calls that were made.
    ///
    /// ```
    /// cedar.save_to_path(files, "words.cedar")?;
    /// ```
    ///
    /// # Errors
    /// `Io` if a call on a file failed, if the new one's path would have more than 4095 bytes, or if all its hundred names are taken;
    /// `AllocationFailed` with 8192 if there is no memory for the buffer, which is allocated once the new file is made.
    pub fn save_to_path<F: Files>(
        &self,
        files: &F,
        path: &str,
    ) -> Result<Saved<F>, CedarPersistenceError>
        //= A save to a path that succeeds has given the name there, among the files that it was given, to a new file of exactly the
        //  table's bytes, once they were on the disk, and has then put the name on the disk. Or what is there isn't a file, and took
        //  exactly these bytes. [also save_v1_0_to_path, save_to_path_noted, save_v1_0_to_path_noted; by IsSavedAt]
        ensures saved { IfOk result (IsSavedAt path.now (table_bytes 1 self.now.table)) }

        //= A save to a path fails only with `Io`, or with `AllocationFailed` of the 8192 bytes of its buffer. [also
        //  save_v1_0_to_path, save_to_path_noted, save_v1_0_to_path_noted; by FailsToWrite]
        ensures err { IfErr result FailsToWrite }
        ensures file { OnOk result (IsTableFile 1 SLOTS self.now.table (table_bytes 1 self.now.table)) }
        ensures passes { OnOk result (PassesAgain L.kind SLOTS 1 self.now.table) }
    {
        match self.save_to_path_noted(files, path) {
            Ok(saved) => Ok(saved),
            Err(failed) => Err(failed.error),
        }
    }

    /// `save_to_path`, which returns what it did if it fails, too.
    ///
    /// ```
    /// match cedar.save_to_path_noted(files, "words.cedar") {
    ///     Ok(saved) => assert!(rt; matches!(saved, Saved::Placed(_))),
    ///     Err(failed) => return Err(failed.error.into()),
    /// }
    /// ```
    ///
    /// # Errors
    /// As `save_to_path`, with what was done.
    pub fn save_to_path_noted<F: Files>(
        &self,
        files: &F,
        path: &str,
    ) -> Result<Saved<F>, SaveFailed<F>>
        ensures saved { IfOk result (IsSavedAt path.now (table_bytes 1 self.now.table)) }

        //= If it fails, it tells what was done: nothing was begun at the path; or a new file was made, and nothing was done at the path, or
        //  the disk had the file's bytes before a rename that failed, or before a sync of the folder that did; or something that isn't
        //  a file took a part. [also save_v1_0_to_path_noted; by IsUnsavedAt, IsUnsaved]
        ensures unplaced { IfErr result (IsUnsavedAt path.now (table_bytes 1 self.now.table)) }
        ensures err { IfErr result (λ failed. FailsToWrite failed.error) }

        //= Its error is that of what was done: of the system once something was made or opened there; and else the one that the `NotBegun`
        //  has, or, where it has none, want of memory for the 8192 bytes of the buffer, once something was opened to be written to.
        //  [also save_v1_0_to_path_noted; by TellsError, IsErrorOf, IsBufferless]
        ensures told { IfErr result TellsError }
        ensures file { OnOk result (IsTableFile 1 SLOTS self.now.table (table_bytes 1 self.now.table)) }
        ensures passes { OnOk result (PassesAgain L.kind SLOTS 1 self.now.table) }
    {
        self.save_file(files, path, MINOR)
    }

    /// `save_to_path` in format 1.0.
    ///
    /// ```
    /// cedar.save_v1_0_to_path(files, "words.cedar")?;
    /// ```
    ///
    /// # Errors
    /// As `save_to_path`.
    pub fn save_v1_0_to_path<F: Files>(
        &self,
        files: &F,
        path: &str,
    ) -> Result<Saved<F>, CedarPersistenceError>
        ensures saved { IfOk result (IsSavedAt path.now (table_bytes 0 self.now.table)) }
        ensures err { IfErr result FailsToWrite }
        ensures file { OnOk result (IsTableFile 0 SLOTS self.now.table (table_bytes 0 self.now.table)) }
        ensures passes { OnOk result (PassesAgain L.kind SLOTS 0 self.now.table) }
    {
        match self.save_v1_0_to_path_noted(files, path) {
            Ok(saved) => Ok(saved),
            Err(failed) => Err(failed.error),
        }
    }

    /// `save_to_path_noted` in format 1.0.
    ///
    /// ```
    /// match cedar.save_v1_0_to_path_noted(files, "words.cedar") {
    ///     Ok(saved) => assert!(rt; matches!(saved, Saved::Placed(_))),
    ///     Err(failed) => return Err(failed.error.into()),
    /// }
    /// ```
    ///
    /// # Errors
    /// As `save_to_path_noted`.
    pub fn save_v1_0_to_path_noted<F: Files>(
        &self,
        files: &F,
        path: &str,
    ) -> Result<Saved<F>, SaveFailed<F>>
        ensures saved { IfOk result (IsSavedAt path.now (table_bytes 0 self.now.table)) }
        ensures unplaced { IfErr result (IsUnsavedAt path.now (table_bytes 0 self.now.table)) }
        ensures err { IfErr result (λ failed. FailsToWrite failed.error) }
        ensures told { IfErr result TellsError }
        ensures file { OnOk result (IsTableFile 0 SLOTS self.now.table (table_bytes 0 self.now.table)) }
        ensures passes { OnOk result (PassesAgain L.kind SLOTS 0 self.now.table) }
    {
        self.save_file(files, path, FULL_MINOR)
    }

    /// Loads the dictionary that was saved in a file, through a buffer of 8192 bytes, if its table needs at most `memory_limit` bytes of
    /// memory. It allocates table and buffer from `alloc`.
    ///
    /// ```
    /// let again = Cedar::load_from_path_with_limit(rt.alloc(), files, "words.cedar", 1048576)?;
    /// assert_eq!(rt; again.len(), cedar.len());
    /// ```
    ///
    /// # Errors
    /// As `load_from_reader_with_limit`; also `Io` if the file can't be opened, and then `AllocationFailed` with 8192 if there is no memory
    /// for the buffer. Any other `AllocationFailed` is for a list of a file whose header has passed.
    pub fn load_from_path_with_limit<F: Files>(
        alloc: A,
        files: &F,
        path: &str,
        memory_limit: usize,
    ) -> Result<Self, CedarPersistenceError>
        requires limit { IsLimit SLOTS }

        //= A load by path that succeeds returns a well-formed table. [also load_from_path]
        ensures formed { IfOk result (λ trie. IsWellFormed SLOTS trie.table) }

        //= In a load by path, lack of memory is of the buffer's 8192 bytes, or of one of the four lists of a header that has passed, under
        //  the limit that the load was given. [also load_from_path; by LacksByPath]
        ensures lacks { IfErr result (LacksByPath (layout_byte L.kind) SLOTS memory_limit) }

        //= A load by path has opened a file at just that path, among the files that it was given, and the bytes of that file decide the
        //  result, from the first to the last, as far as they are known, and as for bytes in memory: a dictionary comes only with just the
        //  bytes of its table, and a refusal is the one that they give, under the limit that the load was given. Or there was no memory for
        //  the buffer; or the system hasn't opened the file, or a read of it failed, and the load returns `Io`. No contract of the system's
        //  files says which bytes these are. [also load_from_path; by LoadsFrom, LoadsOpened, decided]
        ensures loads { LoadsFrom F (λ trie. trie.table) L.kind SLOTS memory_limit F.File.remaining path.now result }
        ensures unbounded { IfOk result (λ trie. trie.search_limit ≡ no_search_limit) }
    {
        let opened = open_to_read(files, path)?;
        Self::load_opened(alloc, opened.into_file(), memory_limit)
    }

    /// Loads the dictionary that was saved in a file that is open. A file ends where a read of it returns nothing: one that returns an
    /// end of the input as a fault may have bytes left.
    fn load_opened<R: Read + Drop>(
        alloc: A,
        file: R,
        memory_limit: usize,
    ) -> Result<Self, CedarPersistenceError>
        requires limit { IsLimit SLOTS }
        ensures loads { LoadsOpened (λ trie. trie.table) L.kind SLOTS memory_limit (R.remaining file) result }
        ensures unbounded { IfOk result (λ trie. trie.search_limit ≡ no_search_limit) }
    {
        let Ok(buffered) = BufReader::new(alloc, file) else {
            return Err(no_room());
        };
        let mut reader = Watched::new(buffered);
        let loaded = Self::load_from_reader_with_limit(alloc, &mut reader, memory_limit);
        let cut = reader.cut();
        if cut {
            return Err(CedarPersistenceError::Io(io::Error::from(ErrorKind::UnexpectedEof)));
        }
        loaded
    }

    /// `load_from_path_with_limit` with the default limit, 2^29 bytes.
    ///
    /// ```
    /// let again = Cedar::load_from_path(rt.alloc(), files, "words.cedar")?;
    /// assert_eq!(rt; again.len(), cedar.len());
    /// ```
    ///
    /// # Errors
    /// As `load_from_path_with_limit`.
    pub fn load_from_path<F: Files>(
        alloc: A,
        files: &F,
        path: &str,
    ) -> Result<Self, CedarPersistenceError>
        requires limit { IsLimit SLOTS }
        ensures formed { IfOk result (λ trie. IsWellFormed SLOTS trie.table) }
        ensures lacks { IfErr result (LacksByPath (layout_byte L.kind) SLOTS default_load_limit) }
        ensures loads { LoadsFrom F (λ trie. trie.table) L.kind SLOTS default_load_limit F.File.remaining path.now result }
        ensures unbounded { IfOk result (λ trie. trie.search_limit ≡ no_search_limit) }
    {
        Self::load_from_path_with_limit(alloc, files, path, DEFAULT_LOAD_MEMORY_LIMIT)
    }
}
