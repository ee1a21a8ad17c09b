//! How a dictionary is saved.

ghost use Rattle.std.specs.Prelude.{◌≡◌, IfErr, OnOk, true};
ghost use Rattle.cedarwood.specs.Words.{Appends, device_of, has_failed, IsIo, IsTableFile};
ghost use Rattle.cedarwood.specs.Words.{PassesAgain, table_bytes};

use crate::{CedarPersistenceError, Layout, Trie, Watched};
use cedar_file::write_table;
use cedar_format::{FULL_MINOR, MINOR};
use std::alloc::Allocator;
use std::io::Write;

impl<L: Layout, const SLOTS: usize, A: Allocator + Copy> Trie<L, SLOTS, A> {
    /// Writes the dictionary's table in format 1.1, which lists the slots and blocks that are in use, in pieces of some thousand bytes. It
    /// allocates nothing and flushes nothing.
    ///
    /// ```
    /// let mut file = Watched::new(Vec::new(rt.alloc()));
    /// cedar.save_to_writer(&mut file)?;
    /// let saved = file.into_inner();
    /// ```
    ///
    /// # Errors
    /// `Io` if the writer failed. What was written before that is left open.
    pub fn save_to_writer<W: Write>(
        &self,
        writer: &mut Watched<W>,
    ) -> Result<(), CedarPersistenceError>
        //= A save that succeeds wrote exactly the bytes of the dictionary's table in its version: 1.1, or 1.0 if the name of the call has
        //  it. [also save_v1_0_to_writer]
        ensures bytes { OnOk result (Appends (W.contents (device_of writer.old)) (W.contents (device_of writer.new)) (table_bytes 1 self.now.table)) }

        //= The bytes that a save writes are the file of a well-formed table, which passes all steps of a load except those on memory, under
        //  a limit of at least its need. [with passes; also save_v1_0_to_writer, save_to_path, save_v1_0_to_path,
        //  save_to_path_noted, save_v1_0_to_path_noted]
        ensures file { OnOk result (IsTableFile 1 SLOTS self.now.table (table_bytes 1 self.now.table)) }
        ensures passes { OnOk result (PassesAgain L.kind SLOTS 1 self.now.table) }

        //= It fails only if its writer failed. [also save_v1_0_to_writer]
        ensures err { IfErr result (λ e. IsIo e × (has_failed writer.new ≡ true)) }

        //= A writer that has failed stays failed. [also save_v1_0_to_writer]
        ensures failed { has_failed writer.old ≡ true → has_failed writer.new ≡ true }
    {
        write_table(&self.table, MINOR, writer)
    }

    /// Writes the dictionary's table in format 1.0, which lists all slots and blocks, in pieces of some thousand bytes. It allocates
    /// nothing and flushes nothing.
    ///
    /// ```
    /// let mut file = Watched::new(Vec::new(rt.alloc()));
    /// cedar.save_v1_0_to_writer(&mut file)?;
    /// let saved = file.into_inner();
    /// ```
    ///
    /// # Errors
    /// `Io` if the writer failed. What was written before that is left open.
    pub fn save_v1_0_to_writer<W: Write>(
        &self,
        writer: &mut Watched<W>,
    ) -> Result<(), CedarPersistenceError>
        ensures bytes { OnOk result (Appends (W.contents (device_of writer.old)) (W.contents (device_of writer.new)) (table_bytes 0 self.now.table)) }
        ensures file { OnOk result (IsTableFile 0 SLOTS self.now.table (table_bytes 0 self.now.table)) }
        ensures passes { OnOk result (PassesAgain L.kind SLOTS 0 self.now.table) }
        ensures err { IfErr result (λ e. IsIo e × (has_failed writer.new ≡ true)) }
        ensures failed { has_failed writer.old ≡ true → has_failed writer.new ≡ true }
    {
        write_table(&self.table, FULL_MINOR, writer)
    }
}
