//! A store's file made short: one record for each entry.

ghost use Rattle.std.specs.Prelude.{◌+◌, ◌-◌, ◌<◌, ◌^◌, ◌≡◌, ◌⊎◌, false, IfErr, IfOk, IsErrOf};
ghost use Rattle.std.specs.Prelude.{length, None, OnErr, OnOk, Some, true};
ghost use Rattle.cedar_store.specs.Words.{AddsPayload, after_payloads, all_erased_late, all_stored};
ghost use Rattle.cedar_store.specs.Words.{AllByRecursion, AreLastPuts, changes_told, CompactCause};
ghost use Rattle.cedar_store.specs.Words.{compacted_length, CrashLeavesOldOr, CrashLeavesState};
ghost use Rattle.cedar_store.specs.Words.{CrashLeavesStateOrOld, end_behind, FailsByDevice};
ghost use Rattle.cedar_store.specs.Words.{fault, IfKept, image_bytes, is_beyond, is_due};
ghost use Rattle.cedar_store.specs.Words.{IsBeforeReplacing, IsConsistent, IsFailureTold};
ghost use Rattle.cedar_store.specs.Words.{IsLookedAfter, IsLookedAfterError};
ghost use Rattle.cedar_store.specs.Words.{IsLookedAfterRecord, IsPutBehind, IsReadyStore, IsSeenTo};
ghost use Rattle.cedar_store.specs.Words.{IsSettled, IsShortened, IsShortenedIfDue, KeepsCount};
ghost use Rattle.cedar_store.specs.Words.{KeepsFile};
ghost use Rattle.cedar_store.specs.Words.{LeavesChange, LeavesUncompacted, LeavesUnwritten};
ghost use Rattle.cedar_store.specs.Words.{new_state, payload_of, payloads_of, record_count};
ghost use Rattle.cedar_store.specs.Words.{state_with, walk};

use crate::batch::erase_rest;
use crate::frames::put_payload;
use crate::last_puts::LastPuts;
use crate::store::Store;
use crate::words::Words;
use crate::{Change, CompactError, DurableError};
use cedar_journal::{DeviceError, Format, Frame, Image, ReplaceDevice, ReplaceError};
use cedarwood::{Entries, Walked};
use std::alloc::Allocator;

impl<T: Words, A: Allocator + Copy, D: ReplaceDevice> Store<T, A, D> {
    /// Replaces the file that has all changes by one of version 2 with a record for each entry. It is made beside that, so what was
    /// acknowledged stays, whenever the process or the machine stops.
    ///
    /// A store that has failed goes on after it: what the dictionary has is on the disk then, with the change at which the device failed.
    ///
    /// # Errors
    /// `Memory` and `TooLong`: nothing has changed. `Kept`: the old file is there, as it was. After these the store goes on, unless it had
    /// failed before. `Failed`: the device failed, and so has the store; the old file is there or the new one.
    pub fn compact(&mut self) -> Result<(), CompactError>
        requires ready { IsReadyStore D.seen D.may_leave T.state self.old }

        //= A file that was compacted has one record for each entry and nothing else, and is of version 2. It represents the dictionary, on
        //  the disk, and the dictionary is as it was. So a store that had failed goes on. [with each, whole, format, ready, words]
        ensures compacted { OnOk result ((self.new.failed ≡ false)
            × (length (D.seen self.new.journal.device) ≡ compacted_length (walk (T.state self.old.words).tree))) }
        ensures each { OnOk result (record_count (D.seen self.new.journal.device) ≡ Some (length (walk (T.state self.old.words).tree))) }
        ensures whole { OnOk result (self.new.journal.end + 1 ≡ length (D.seen self.new.journal.device)) }
        ensures format { OnOk result (self.new.journal.format ≡ Format.Summed) }
        ensures ready { IsReadyStore D.seen D.may_leave T.state self.new }
        ensures words { self.new.words ≡ self.old.words }
        ensures counted { KeepsCount D.seen self.old self.new }

        //= A compaction leaves the rule as it was, and what came of it is reported from then on. [with told]
        ensures rule { self.new.compaction ≡ self.old.compaction }
        ensures told { self.new.last_compaction ≡ Some result }

        //= A compaction counts as a look at the file's length. One that fails doesn't. [with unlooked]
        ensures looked { OnOk result (self.new.base ≡ self.new.journal.end) }
        ensures unlooked { OnErr result (self.new.base ≡ self.old.base) }

        //= A crash at any moment of a compaction leaves a file that represents the dictionary. If the store had failed before, it leaves
        //  such a file or what it might have left before. [with any_moment_failed]
        ensures any_moment { self.old.failed ≡ false → CrashLeavesState D.moment D.left_since T.state self.old self.new }
        ensures any_moment_failed { CrashLeavesStateOrOld D.moment D.left_since D.may_leave T.state self.old self.new }

        //= A compaction fails only for lack of memory, if the record of an entry would be too long, or if a call of the device has failed:
        //  that has kept the file, or, if `Failed` is returned, it isn't known which file is there.
        ensures cause { IfErr result (λ e. CompactCause (D.faults self.old.journal.device) (D.faults self.new.journal.device) (D.is_lost self.new.journal.device) e) }

        //= After `Failed` the store has failed. After `Kept` the file is as it was, byte for byte, and so is what a crash may leave. After
        //  any other error nothing was asked of the device. After these the store has failed only if it had before.
        ensures err { IfErr result (LeavesUncompacted D.seen D.may_leave self.old self.new) }
    {
        let result = self.write_anew();
        self.last_compaction = Some(result);
        result
    }

    /// Returns how many bytes shorter the file would be if it were compacted now. The new file is made in memory for that, in the time and
    /// the memory that its entries take.
    ///
    /// # Errors
    /// `Memory` and `TooLong`, as of `compact`.
    pub fn bytes_to_gain(&self) -> Result<usize, CompactError>
        //= A store says how many bytes shorter its file would be if it were compacted, or 0; or there is no memory, or the record of an
        //  entry would be too long. [with cause]
        ensures gain { IfOk result (λ bytes. bytes ≡ self.now.journal.end - (compacted_length (walk (T.state self.now.words).tree) - 1)) }
        ensures cause { IfErr result (λ error. IsBeforeReplacing error) }
    {
        let image = self.words.image(self.alloc)?;
        Ok(
            self.journal
                .end
                .saturating_sub(image.bytes().len().saturating_sub(1)),
        )
    }

    /// Replaces the file by one with a record for each entry.
    fn write_anew(&mut self) -> Result<(), CompactError>
        requires ready { IsReadyStore D.seen D.may_leave T.state self.old }
        ensures compacted { OnOk result ((self.new.failed ≡ false)
            × (length (D.seen self.new.journal.device) ≡ compacted_length (walk (T.state self.old.words).tree))) }
        ensures each { OnOk result (record_count (D.seen self.new.journal.device) ≡ Some (length (walk (T.state self.old.words).tree))) }
        ensures whole { OnOk result (self.new.journal.end + 1 ≡ length (D.seen self.new.journal.device)) }
        ensures format { OnOk result (self.new.journal.format ≡ Format.Summed) }
        ensures ready { IsReadyStore D.seen D.may_leave T.state self.new }
        ensures words { self.new.words ≡ self.old.words }
        ensures counted { KeepsCount D.seen self.old self.new }
        ensures looked { OnOk result (self.new.base ≡ self.new.journal.end) }
        ensures unlooked { OnErr result (self.new.base ≡ self.old.base) }
        ensures rule { self.new.compaction ≡ self.old.compaction }
        ensures any_moment { self.old.failed ≡ false → CrashLeavesState D.moment D.left_since T.state self.old self.new }
        ensures any_moment_failed { CrashLeavesStateOrOld D.moment D.left_since D.may_leave T.state self.old self.new }
        ensures cause { IfErr result (λ e. CompactCause (D.faults self.old.journal.device) (D.faults self.new.journal.device) (D.is_lost self.new.journal.device) e) }
        ensures err { IfErr result (LeavesUncompacted D.seen D.may_leave self.old self.new) }
    {
        let image = self.words.image(self.alloc)?;
        match self.put_in_place(&image) {
            Ok(()) => Ok(()),
            Err(error) => Err(CompactError::from(error)),
        }
    }

    /// Writes a record of changes of which the dictionary has the updates, makes the erasures in it, and makes the file short if it has grown
    /// too long. If there was no room for the record, the dictionary stays as it is.
    pub(crate) fn acknowledge(
        &mut self,
        frame: &Frame<A>,
        changes: &[Change<'_>],
        puts: &LastPuts<A>,
    ) -> Result<(), DurableError>
        requires linked { AreLastPuts puts.now.heads.items puts.now.links.items (changes_told changes.now) }
        requires settled { IsSettled D.seen D.may_leave self.old.journal.device self.old.journal.format self.old.journal.end }
        requires usable { self.old.failed ≡ false }
        requires room { self.old.journal.end < 2 ^ 60 }
        requires ordered { (all_erased_late (T.state self.old.words) (changes_told changes.now)).ordered ≡ true }
        requires stands { state_with (payload_of frame.now) (D.seen self.old.journal.device)
            ≡ Some (all_erased_late (T.state self.old.words) (changes_told changes.now)) }
        ensures ready { OnOk result (IsReadyStore D.seen D.may_leave T.state self.new) }
        ensures done { OnOk result (self.new.failed ≡ false) }
        ensures made { OnOk result (T.state self.new.words ≡ all_erased_late (T.state self.old.words) (changes_told changes.now)) }
        ensures due { OnOk result (is_beyond self.new.compaction self.new.base self.new.journal.end ≡ false) }
        ensures recorded { OnOk result (AddsPayload D.seen (payload_of frame.now) self.old self.new
            ⊎ IsShortenedIfDue D.seen T.state (end_behind self.old (length (payload_of frame.now))) self.old self.new) }
        ensures looked_after { OnOk result (IsLookedAfterRecord D.seen D.faults T.state (length (payload_of frame.now)) self.old self.new) }
        ensures told { IfErr result (IsLookedAfterError D.faults D.is_lost self.old self.new) }
        ensures err { IfErr result (LeavesUnwritten D.faults D.full self.old self.new) }
        ensures left { IfErr result (LeavesChange D.seen D.may_leave T.state self.old self.new
            (all_erased_late (T.state self.old.words) (changes_told changes.now))) }
        ensures counted { KeepsCount D.seen self.old self.new }
        ensures rule { self.new.compaction ≡ self.old.compaction }
        ensures any_moment { CrashLeavesOldOr D.seen D.moment D.left_since self.old self.new
            (all_erased_late (T.state self.old.words) (changes_told changes.now)) }
    {
        match self.append(frame) {
            Ok(()) => {
                erase_rest(&mut self.words, changes, puts);
                self.compact_if_due()
            }
            Err(error) => {
                if !self.failed {
                    return Err(error);
                }
                erase_rest(&mut self.words, changes, puts);
                Err(error)
            }
        }
    }

    /// Compacts the file if it is too long for what the entries take. It is looked at again once it is so much longer than it is now: so
    /// all looks together cost no more than what was written, times a constant.
    fn compact_if_due(&mut self) -> Result<(), DurableError>
        requires consistent { IsConsistent D.seen D.may_leave self.old.journal.device self.old.journal.format self.old.journal.end (T.state self.old.words) }
        requires usable { self.old.failed ≡ false }
        requires ordered { (T.state self.old.words).ordered ≡ true }
        ensures ready { IsReadyStore D.seen D.may_leave T.state self.new }
        ensures done { OnOk result (self.new.failed ≡ false) }
        ensures due { OnOk result (is_beyond self.new.compaction self.new.base self.new.journal.end ≡ false) }
        ensures untouched { is_due self.old self.old.journal.end ≡ false → self.new ≡ self.old }
        ensures recorded { OnOk result ((D.seen self.new.journal.device ≡ D.seen self.old.journal.device)
            ⊎ IsShortenedIfDue D.seen T.state self.old.journal.end self.old self.new) }
        ensures looked_after { OnOk result (IsLookedAfter D.seen D.faults T.state self.old.journal.end self.old self.new) }
        ensures told { OnErr result (IsFailureTold D.is_lost self.new) }
        ensures err { IfErr result (FailsByDevice D.faults self.old self.new) }
        ensures words { self.new.words ≡ self.old.words }
        ensures counted { KeepsCount D.seen self.old self.new }
        ensures rule { self.new.compaction ≡ self.old.compaction }
        ensures any_moment { CrashLeavesState D.moment D.left_since T.state self.old self.new }
    {
        let end = self.journal.end;
        if !self.compaction.is_beyond(self.base, end) {
            return Ok(());
        }
        self.base = end;
        // Lack of memory and a device that keeps the file are no errors of the change, which is acknowledged.
        match self.words.image(self.alloc) {
            Ok(image) => self.replace_if_shorter(&image),
            Err(error) => {
                self.last_compaction = Some(Err(error));
                Ok(())
            }
        }
    }

    /// Replaces the file by one of the entries, if it is too long for these.
    fn replace_if_shorter(&mut self, image: &Image<A>) -> Result<(), DurableError>
        requires consistent { IsConsistent D.seen D.may_leave self.old.journal.device self.old.journal.format self.old.journal.end (T.state self.old.words) }
        requires usable { self.old.failed ≡ false }
        requires ordered { (T.state self.old.words).ordered ≡ true }
        requires made { after_payloads new_state (payloads_of image.now) ≡ Some (T.state self.old.words) }
        requires count { length (payloads_of image.now) ≡ length (walk (T.state self.old.words).tree) }
        requires length { length (image_bytes image.now) ≡ compacted_length (walk (T.state self.old.words).tree) }
        requires looked_at { self.old.base ≡ self.old.journal.end }
        ensures ready { IsReadyStore D.seen D.may_leave T.state self.new }
        ensures done { OnOk result ((self.new.failed ≡ false) × (self.new.base ≡ self.new.journal.end)) }
        ensures recorded { OnOk result ((D.seen self.new.journal.device ≡ D.seen self.old.journal.device) ⊎ IsShortened D.seen T.state self.old self.new) }
        ensures looked_at { OnOk result (IsSeenTo D.seen D.faults T.state self.old.journal.end self.old self.new) }
        ensures told { OnErr result (IsFailureTold D.is_lost self.new) }
        ensures err { IfErr result (FailsByDevice D.faults self.old self.new) }
        ensures words { self.new.words ≡ self.old.words }
        ensures counted { KeepsCount D.seen self.old self.new }
        ensures rule { self.new.compaction ≡ self.old.compaction }
        ensures any_moment { CrashLeavesState D.moment D.left_since T.state self.old self.new }
    {
        if !self
            .compaction
            .is_beyond(image.bytes().len(), self.journal.end)
        {
            return Ok(());
        }
        match self.put_in_place(image) {
            Ok(()) => {
                self.last_compaction = Some(Ok(()));
                Ok(())
            }
            Err(ReplaceError::Kept(error)) => {
                self.last_compaction = Some(Err(CompactError::Kept(error)));
                Ok(())
            }
            Err(ReplaceError::Failed) => {
                self.last_compaction = Some(Err(CompactError::Failed));
                Err(DurableError::Device(DeviceError::Failed))
            }
        }
    }

    /// Replaces the file by one that represents the dictionary, whatever the file has that is there.
    fn put_in_place(&mut self, image: &Image<A>) -> Result<(), ReplaceError>
        requires made { after_payloads new_state (payloads_of image.now) ≡ Some (T.state self.old.words) }
        requires count { length (payloads_of image.now) ≡ length (walk (T.state self.old.words).tree) }
        ensures ready { IsReadyStore D.seen D.may_leave T.state self.old → IsReadyStore D.seen D.may_leave T.state self.new }
        ensures done { OnOk result ((self.new.failed ≡ false) × (self.new.base ≡ self.new.journal.end)) }
        ensures bytes { OnOk result (D.seen self.new.journal.device ≡ image_bytes image.now) }
        ensures each { OnOk result (record_count (D.seen self.new.journal.device) ≡ Some (length (walk (T.state self.old.words).tree))) }
        ensures whole { OnOk result (self.new.journal.end + 1 ≡ length (D.seen self.new.journal.device)) }
        ensures format { OnOk result (self.new.journal.format ≡ Format.Summed) }
        ensures kept { IfKept result (KeepsFile D.seen D.may_leave self.old self.new) }
        ensures err_end { OnErr result ((self.new.base ≡ self.old.base) × (self.new.journal.end ≡ self.old.journal.end)) }
        ensures untold { self.new.last_compaction ≡ self.old.last_compaction }
        ensures failed { OnErr result (D.faults self.old.journal.device < D.faults self.new.journal.device) }
        ensures lost { IsErrOf result ReplaceError.Failed → (self.new.failed ≡ true) × D.is_lost self.new.journal.device }
        ensures words { self.new.words ≡ self.old.words }
        ensures counted { KeepsCount D.seen self.old self.new }
        ensures rule { self.new.compaction ≡ self.old.compaction }
        ensures any_moment { CrashLeavesStateOrOld D.moment D.left_since D.may_leave T.state self.old self.new }
    {
        match self.journal.device.replace(image.bytes()) {
            Ok(()) => {
                let end = image.bytes().len().saturating_sub(1);
                let records = self.words.count();
                self.journal.format = Format::Summed;
                self.journal.end = end;
                self.base = end;
                self.records = records;
                self.failed = false;
                Ok(())
            }
            Err(ReplaceError::Kept(error)) => Err(ReplaceError::Kept(error)),
            Err(ReplaceError::Failed) => {
                self.failed = true;
                Err(ReplaceError::Failed)
            }
        }
    }
}

/// The file in which each entry that a walk has left is put, one after another.
pub(crate) fn image_of<T: Walked, A: Allocator + Copy, B: Allocator + Copy>(
    mut entries: Entries<'_, T, A>,
    alloc: B,
) -> Result<Image<B>, CompactError>
    requires { AllByRecursion (λ e. fault e.0 e.1 ≡ None) entries }
    ensures made { IfOk result (λ image. after_payloads new_state (payloads_of image) ≡ Some (all_stored new_state entries.entry)) }
    ensures length { IfOk result (λ image. length (image_bytes image) ≡ compacted_length entries.entry) }
    ensures count { IfOk result (λ image. length (payloads_of image) ≡ length entries.entry) }
    ensures cause { IfErr result (λ error. IsBeforeReplacing error) }
{
    let mut image = Image::new(alloc)?;
    while let Some(entry) = entries.next() {
        let Ok((key, value)) = entry else {
            return Err(CompactError::Memory);
        };
        push_entry(&mut image, alloc, &key, value)?;
    }
    Ok(image)
}

/// Adds an entry after the others of a file.
fn push_entry<B: Allocator + Copy>(
    image: &mut Image<B>,
    alloc: B,
    key: &[u8],
    value: i32,
) -> Result<(), CompactError>
    requires { fault key.now value ≡ None }
    ensures pushed { OnOk result (IsPutBehind key.now value (payloads_of image.old) (payloads_of image.new)) }
    ensures longer { OnOk result (length (image_bytes image.new) ≡ length (image_bytes image.old) + (14 + length key.now)) }
    ensures cause { IfErr result (λ error. IsBeforeReplacing error) }
{
    let payload = put_payload(alloc, key, value)?;
    let frame = Frame::new(alloc, &payload)?;
    image.push(&frame)?;
    Ok(())
}
