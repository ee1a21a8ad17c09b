//! How a dictionary of either layout is saved.

ghost use Rattle.std.specs.Prelude.{◌++◌, ◌≡◌, ◌≤◌, drop, IfErr, IfOk, length, OnOk, true};
ghost use Rattle.either_layout.specs.Words.{Appends, device_of, FailsToWrite, has_failed};
ghost use Rattle.either_layout.specs.Words.{inner_layout, IsIo, IsSavedAt, IsTableFile};
ghost use Rattle.either_layout.specs.Words.{most_slots, PassesAgain, table_bytes, table_in};

use crate::{AnyCedar, on_layout};
use cedarwood::{CedarPersistenceError, Saved, Watched};
use std::io::Write;
use std::rt::Files;

impl AnyCedar {
    /// Writes the dictionary's table in format 1.1, which lists the slots and blocks that are in use. It allocates nothing and flushes
    /// nothing.
    ///
    /// # Errors
    /// `Io` if the writer failed. What was written before that is left open.
    pub fn save_to_writer<W: Write>(
        &self,
        writer: &mut Watched<W>,
    ) -> Result<(), CedarPersistenceError>
        //= A save of either layout that succeeds wrote exactly the bytes of the dictionary's table in its version: 1.1, or 1.0 if the name
        //  of the call has it. [also save_v1_0_to_writer]
        ensures bytes { OnOk result (Appends (W.contents (device_of writer.old)) (W.contents (device_of writer.new)) (table_bytes 1 (table_in self.now))) }

        //= The bytes that a save of either layout writes are the file of a well-formed table, which passes all steps of a load of its layout
        //  except those on memory. [with passes; also save_v1_0_to_writer, save_to_path, save_v1_0_to_path]
        ensures file { OnOk result (IsTableFile 1 most_slots (table_in self.now) (table_bytes 1 (table_in self.now))) }
        ensures passes { OnOk result (PassesAgain (inner_layout self.now) most_slots 1 (table_in self.now)) }

        //= A save to a writer fails only if the writer failed, and one that has failed stays failed. [with failed; also
        //  save_v1_0_to_writer]
        ensures err { IfErr result (λ e. IsIo e × (has_failed writer.new ≡ true)) }
        ensures failed { has_failed writer.old ≡ true → has_failed writer.new ≡ true }
    {
        on_layout!(self, cedar => cedar.save_to_writer(writer))
    }

    /// `save_to_writer` in format 1.0, which lists all slots and blocks.
    ///
    /// # Errors
    /// As `save_to_writer`.
    pub fn save_v1_0_to_writer<W: Write>(
        &self,
        writer: &mut Watched<W>,
    ) -> Result<(), CedarPersistenceError>
        ensures bytes { OnOk result (Appends (W.contents (device_of writer.old)) (W.contents (device_of writer.new)) (table_bytes 0 (table_in self.now))) }
        ensures file { OnOk result (IsTableFile 0 most_slots (table_in self.now) (table_bytes 0 (table_in self.now))) }
        ensures passes { OnOk result (PassesAgain (inner_layout self.now) most_slots 0 (table_in self.now)) }
        ensures err { IfErr result (λ e. IsIo e × (has_failed writer.new ≡ true)) }
        ensures failed { has_failed writer.old ≡ true → has_failed writer.new ≡ true }
    {
        on_layout!(self, cedar => cedar.save_v1_0_to_writer(writer))
    }

    /// How many bytes the dictionary's file has in format 1.1. No slot is looked at.
    #[must_use]
    pub fn saved_len(&self) -> usize
        //= `saved_len` of either layout returns how many bytes the dictionary's file has in its version. [also saved_v1_0_len]
        ensures { result ≡ length (table_bytes 1 (table_in self.now)) }
    {
        on_layout!(self, cedar => cedar.saved_len())
    }

    /// `saved_len` in format 1.0.
    #[must_use]
    pub fn saved_v1_0_len(&self) -> usize
        ensures { result ≡ length (table_bytes 0 (table_in self.now)) }
    {
        on_layout!(self, cedar => cedar.saved_v1_0_len())
    }

    /// Writes the dictionary's table in format 1.1 into the first elements of a slice, and returns how many bytes it has. It allocates
    /// nothing. The slice has room for them all: `saved_len` says how many.
    ///
    /// ```
    /// let mut room = [0u8; 4096];
    /// assert!(rt; words.saved_len() <= room.len());
    /// let count = words.save_to_slice(&mut room);
    /// ```
    pub fn save_to_slice(&self, bytes: &mut [u8]) -> usize
        requires room { length (table_bytes 1 (table_in self.now)) ≤ length bytes.old }

        //= A save of either layout into a slice writes exactly the bytes of the dictionary's table in its version at the front, and doesn't
        //  change those behind them. [with len; also save_v1_0_to_slice]
        ensures bytes { bytes.new ≡ table_bytes 1 (table_in self.now) ++ drop result bytes.old }
        ensures len { result ≡ length (table_bytes 1 (table_in self.now)) }
    {
        on_layout!(self, cedar => cedar.save_to_slice(bytes))
    }

    /// `save_to_slice` in format 1.0. The slice has room for as many bytes as `saved_v1_0_len` says.
    pub fn save_v1_0_to_slice(&self, bytes: &mut [u8]) -> usize
        requires room { length (table_bytes 0 (table_in self.now)) ≤ length bytes.old }
        ensures bytes { bytes.new ≡ table_bytes 0 (table_in self.now) ++ drop result bytes.old }
        ensures len { result ≡ length (table_bytes 0 (table_in self.now)) }
    {
        on_layout!(self, cedar => cedar.save_v1_0_to_slice(bytes))
    }

    /// Replaces the file at `path` by the dictionary's file, as [`Trie::save_to_path`](cedarwood::Trie::save_to_path) does: whatever crash
    /// comes, the file there is the old one or the new one, whole. It returns what it did.
    ///
    /// # Errors
    /// As `Trie::save_to_path`.
    pub fn save_to_path<F: Files>(
        &self,
        files: &F,
        path: &str,
    ) -> Result<Saved<F>, CedarPersistenceError>
        //= A save of either layout to a path that succeeds did there what one of the dictionary's own call does, with exactly the bytes of
        //  its table. [also save_v1_0_to_path; by IsSavedAt]
        ensures saved { IfOk result (IsSavedAt path.now (table_bytes 1 (table_in self.now))) }

        //= A save to a path fails only with `Io`, or with `AllocationFailed` of the 8192 bytes of its buffer. [also save_v1_0_to_path; by
        //  FailsToWrite]
        ensures err { IfErr result FailsToWrite }
        ensures file { OnOk result (IsTableFile 1 most_slots (table_in self.now) (table_bytes 1 (table_in self.now))) }
        ensures passes { OnOk result (PassesAgain (inner_layout self.now) most_slots 1 (table_in self.now)) }
    {
        on_layout!(self, cedar => cedar.save_to_path(files, path))
    }

    /// `save_to_path` in format 1.0.
    ///
    /// # Errors
    /// As `save_to_path`.
    pub fn save_v1_0_to_path<F: Files>(
        &self,
        files: &F,
        path: &str,
    ) -> Result<Saved<F>, CedarPersistenceError>
        ensures saved { IfOk result (IsSavedAt path.now (table_bytes 0 (table_in self.now))) }
        ensures err { IfErr result FailsToWrite }
        ensures file { OnOk result (IsTableFile 0 most_slots (table_in self.now) (table_bytes 0 (table_in self.now))) }
        ensures passes { OnOk result (PassesAgain (inner_layout self.now) most_slots 0 (table_in self.now)) }
    {
        on_layout!(self, cedar => cedar.save_v1_0_to_path(files, path))
    }
}
