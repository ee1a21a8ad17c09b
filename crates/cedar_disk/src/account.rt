//! A file, and what the calls on it so far make of it. `specs/Calls.antt` has the model.

ghost use Rattle.std.specs.Prelude.{◌≡◌, ◌<◌, ◌≤◌, ◌⊎◌, ◌∷◌, [], false, IsErrOf, IsTrue, length};
ghost use Rattle.std.specs.Prelude.{List, OnErr, OnOk, take, true, ℕ};
ghost use Rattle.cedar_disk.specs.Words.{all_within, compaction_path, Cut, faults_in, Follows};
ghost use Rattle.cedar_disk.specs.Words.{HasCauseIn, is_locked_after, is_named_after};
ghost use Rattle.cedar_disk.specs.Words.{is_usable_after, LeavesOnly, LeftSince, lock_call};
ghost use Rattle.cedar_disk.specs.Words.{MayLeave, Only, open_call, overlay, refused_call};
ghost use Rattle.cedar_disk.specs.Words.{seen_after, TimePasses, Torn};
ghost use Rattle.cedar_disk.specs.NotedFiles.{is_beside, noted_calls};

use crate::noted::{Noted, Place};
use crate::writes::{put_in_place, write_all};
use cedar_journal::DeviceError;
use std::alloc::Allocator;
use std::mem;
use std::rt::Files;

/// A file, and whether it is to be synced, and can be.
#[derive(Drop)]
pub(crate) struct Account<F: Files> {
    file: Noted<F>,
    /// Whether something was written or cut since the last sync.
    is_dirty: bool,
    /// Whether a call has failed that may have changed something.
    has_failed: bool,
    /// Whether a call has failed that was to give the name to another file.
    has_lost_name: bool,
    ghost usable: { has_failed ≡ false → IsTrue (is_usable_after (noted_calls file)) },
    ghost known: { has_lost_name ≡ false → IsTrue (is_named_after (noted_calls file)) },
    ghost lost: { has_lost_name ≡ true → is_named_after (noted_calls file) ≡ false },
    ghost clean: { is_dirty ≡ false → Only (seen_after (noted_calls file)) (MayLeave (noted_calls file)) },
    ghost within: { IsTrue (all_within (noted_calls file)) },
    ghost placed: { is_beside file ≡ false },
}

impl<F: Files> Account<F> {
    ghost use Rattle.cedar_disk.specs.Accounts.{calls_of};
    ghost use Rattle.cedar_disk.specs.PathFiles.{place_path};

    /// Takes a file that was locked, opened and read.
    pub(crate) fn of_file(file: Noted<F>, _bytes: &[u8]) -> Account<F>
        requires noted { noted_calls file ≡ open_call _bytes.now ∷ lock_call true ∷ [] }
        requires name { is_beside file ≡ false }
        ensures calls { calls_of result ≡ open_call _bytes.now ∷ lock_call true ∷ [] }
    {
        Account {
            file,
            is_dirty: false,
            has_failed: false,
            has_lost_name: false,
        }
    }

    /// Returns whether a call may be made: none has failed before.
    pub(crate) fn is_usable(&self) -> bool
        ensures { IsTrue result → IsTrue (is_usable_after (calls_of self.now)) }
    {
        !self.has_failed
    }

    /// Returns whether another file may take the name: no call for that has failed before.
    pub(crate) fn has_name(&self) -> bool
        ensures known { IsTrue result → IsTrue (is_named_after (calls_of self.now)) }
        ensures lost { result ≡ false → is_named_after (calls_of self.now) ≡ false }
    {
        !self.has_lost_name
    }

    /// Notes a call of the device for which none of the system is made, and returns its error.
    pub(crate) fn refuse(&mut self) -> DeviceError
        ensures calls { calls_of self.new ≡ refused_call ∷ calls_of self.old }
        ensures failed { result ≡ DeviceError.Failed }
    {
        self.file.refuse();
        DeviceError::Failed
    }

    /// Writes bytes, and past the end too. If there is no room for all of them, the first are there, and the file can still be used.
    pub(crate) fn write(&mut self, at: usize, bytes: &[u8]) -> Result<(), DeviceError>
        requires usable { IsTrue (is_usable_after (calls_of self.old)) }
        requires within { at ≤ length (seen_after (calls_of self.old)) }
        ensures written { OnOk result (seen_after (calls_of self.new) ≡ overlay (seen_after (calls_of self.old)) at bytes.now) }
        ensures no_room { IsErrOf result DeviceError.NoRoom → Torn at (length bytes.now) (seen_after (calls_of self.old)) (seen_after (calls_of self.new)) }
        ensures crash { Follows (Torn at (length bytes.now)) (MayLeave (calls_of self.old)) (MayLeave (calls_of self.new)) }
        ensures time { TimePasses (calls_of self.old) (calls_of self.new) }
        ensures cause { HasCauseIn (calls_of self.old) (calls_of self.new) result }
    {
        self.is_dirty = true;
        match write_all(&mut self.file, at, bytes) {
            Ok(()) => Ok(()),
            Err(DeviceError::NoRoom) => Err(DeviceError::NoRoom),
            Err(error) => {
                self.has_failed = true;
                Err(error)
            }
        }
    }

    /// Writes bytes over others. If there is no room for them, the file can't be used any more.
    pub(crate) fn write_over(&mut self, at: usize, bytes: &[u8]) -> Result<(), DeviceError>
        requires usable { IsTrue (is_usable_after (calls_of self.old)) }
        requires within { at ≤ length (seen_after (calls_of self.old)) }
        ensures written { OnOk result (seen_after (calls_of self.new) ≡ overlay (seen_after (calls_of self.old)) at bytes.now) }
        ensures crash { Follows (Torn at (length bytes.now)) (MayLeave (calls_of self.old)) (MayLeave (calls_of self.new)) }
        ensures time { TimePasses (calls_of self.old) (calls_of self.new) }
        ensures cause { HasCauseIn (calls_of self.old) (calls_of self.new) result }
        ensures roomy { IsErrOf result DeviceError.NoRoom → ⊥ }
    {
        match self.write(at, bytes) {
            Ok(()) => Ok(()),
            Err(_) => Err(self.fail()),
        }
    }

    /// Notes that the file can't be used any more, and returns the error.
    fn fail(&mut self) -> DeviceError
        ensures calls { calls_of self.new ≡ refused_call ∷ calls_of self.old }
        ensures failed { result ≡ DeviceError.Failed }
    {
        self.has_failed = true;
        self.refuse()
    }

    /// Cuts the file.
    pub(crate) fn cut(&mut self, len: usize) -> Result<(), DeviceError>
        requires usable { IsTrue (is_usable_after (calls_of self.old)) }
        requires within { len ≤ length (seen_after (calls_of self.old)) }
        ensures cut { OnOk result (seen_after (calls_of self.new) ≡ take len (seen_after (calls_of self.old))) }
        ensures crash { Follows (Cut len) (MayLeave (calls_of self.old)) (MayLeave (calls_of self.new)) }
        ensures time { TimePasses (calls_of self.old) (calls_of self.new) }
        ensures cause { HasCauseIn (calls_of self.old) (calls_of self.new) result }
        ensures roomy { IsErrOf result DeviceError.NoRoom → ⊥ }
    {
        self.is_dirty = true;
        match self.file.cut(len) {
            Ok(()) => Ok(()),
            Err(_) => {
                self.has_failed = true;
                Err(DeviceError::Failed)
            }
        }
    }

    /// Puts all that was written and cut on the disk. If all is there already, nothing is asked of the system.
    pub(crate) fn sync(&mut self) -> Result<(), DeviceError>
        requires usable { IsTrue (is_usable_after (calls_of self.old)) }
        ensures durable { OnOk result (Only (seen_after (calls_of self.old)) (MayLeave (calls_of self.new))) }
        ensures seen { seen_after (calls_of self.new) ≡ seen_after (calls_of self.old) }
        ensures crash { (c : List ℕ) → MayLeave (calls_of self.new) c → MayLeave (calls_of self.old) c }
        ensures time { TimePasses (calls_of self.old) (calls_of self.new) }
        ensures cause { HasCauseIn (calls_of self.old) (calls_of self.new) result }
        ensures roomy { IsErrOf result DeviceError.NoRoom → ⊥ }
    {
        if !self.is_dirty {
            return Ok(());
        }
        match self.file.sync() {
            Ok(()) => {
                self.is_dirty = false;
                Ok(())
            }
            Err(_) => {
                self.has_failed = true; // No later sync shows what the disk has.
                Err(DeviceError::Failed)
            }
        }
    }

    /// Returns the file.
    pub(crate) fn file(&self) -> &Noted<F> {
        &self.file
    }

    /// Gives another file the name of this one, which it replaces. Whatever has failed on this one counts no more then.
    ///
    /// # Errors
    /// `Failed` if a call failed: the disk has the one or the other.
    pub(crate) fn replace<A: Allocator>(
        &mut self,
        place: &Place<F, A>,
        name: &str,
        fresh: Noted<F>,
        bytes: &[u8],
    ) -> Result<(), DeviceError>
    where
        F: Drop,
        requires known { IsTrue (is_named_after (calls_of self.old)) }
        requires name { is_beside fresh ≡ true }
        requires names { name.now ≡ compaction_path (place_path place.now) }
        requires locked { is_locked_after (noted_calls fresh) ≡ true }
        requires bytes { seen_after (noted_calls fresh) ≡ bytes.now }
        requires fresh { Only bytes.now (MayLeave (noted_calls fresh)) }
        ensures replaced { OnOk result (seen_after (calls_of self.new) ≡ bytes.now) }
        ensures durable { OnOk result (Only bytes.now (MayLeave (calls_of self.new))) }
        ensures crash { (c : List ℕ) → MayLeave (calls_of self.new) c → MayLeave (calls_of self.old) c ⊎ (c ≡ bytes.now) }
        ensures time { TimePasses (calls_of self.old) (calls_of self.new) }
        ensures any_moment { LeavesOnly length LeftSince (calls_of self.old) (calls_of self.new)
            (λ c. MayLeave (calls_of self.old) c ⊎ (c ≡ bytes.now)) }
        ensures fault { OnErr result (faults_in (calls_of self.old) < faults_in (calls_of self.new)) }
        ensures lost { OnErr result (is_named_after (calls_of self.new) ≡ false) }
        ensures faults { faults_in (calls_of self.old) ≤ faults_in (calls_of self.new) }
    {
        let old = mem::replace(&mut self.file, fresh);
        match put_in_place(&mut self.file, place, name, old, bytes) {
            Ok(()) => {
                self.is_dirty = false;
                self.has_failed = false;
                Ok(())
            }
            Err(_) => {
                self.is_dirty = true;
                self.has_failed = true;
                self.has_lost_name = true;
                Err(DeviceError::Failed)
            }
        }
    }
}
