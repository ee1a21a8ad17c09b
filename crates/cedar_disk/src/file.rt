//! A file of the operating system as a device.

ghost use Rattle.std.specs.Prelude.{◌≡◌, ◌≤◌, ◌∷◌, [], false, IfOk, IsErrOf, length, List, OnOk, take};
ghost use Rattle.std.specs.Prelude.{true, ℕ};
ghost use Rattle.cedar_disk.specs.Words.{counts_now, Cut, faults_in, Follows, ForSome, full_in};
ghost use Rattle.cedar_disk.specs.Words.{HasCauseIn, is_locked_after, is_named_after, LeftSince};
ghost use Rattle.cedar_disk.specs.Words.{MayLeave, Only, only_now, opened_any, opened_as};
ghost use Rattle.cedar_disk.specs.Words.{opened_existing, opened_new, seen_after, TimePasses, Torn};
ghost use Rattle.cedar_disk.specs.Words.{way_of};
ghost use Rattle.cedar_disk.specs.Accounts.{calls_of};
ghost use Rattle.cedar_journal.specs.Device.{HasReadCause, Holds};

use crate::noted::Place;
use crate::opening::Wanted;
use crate::writes::make_file;
use crate::{Account, LockFile, OpenError};
use cedar_journal::{Device, DeviceError, ReplaceDevice, ReplaceError};
use std::alloc::Allocator;
use std::io::ErrorKind;
use std::rt::Files;

/// A file of the operating system to which nobody else writes: it is locked until the device is dropped.
///
/// It holds the bytes that were read when it was opened, until it is first written, cut or replaced. From then on a read fails with
/// `Failed`: nothing would show whether what comes is what was written. Open the file again to read it.
///
/// Once a system call has failed to write, cut or sync, each later one but `replace` fails with `Failed`: after a sync that failed no other
/// one shows what the disk has. `replace` puts another file in its place, with which the device goes on. Once a system call has failed to
/// rename or to sync the folder, each later call fails with `Failed`. Open the file again, and replace its bytes with what was read.
///
/// A `sync` asks nothing of the system if nothing was written or cut since the last one.
#[derive(Drop)]
pub struct FileDevice<F: Files + Drop, A: Allocator> {
    place: Place<F, A>,
    held: Option<Vec<u8, A>>,
    account: Account<F>,
    ghost held_is: { ForSome held (λ bytes. bytes.items ≡ seen_after (calls_of account)) },
}

impl<F: Files + Drop, A: Allocator + Copy> FileDevice<F, A> {
    ghost use Rattle.cedar_disk.specs.FileDevices.{device_calls, device_opening};

    /// Opens the file at `path`, or creates it, locks it, and puts it and its name on the disk. Then it is read.
    ///
    /// Links in the path are followed now and not later. A file that replaces this one is made beside it, at the path with
    /// `.cedar-compaction` after it. What a crash has left of one is removed.
    ///
    /// # Errors
    /// `Locked` if another opening has the file, in this process or another one: then nothing was written. `Memory` if an allocation failed,
    /// `Io` if a system call failed, or if something other than a file is at the path.
    pub fn open(files: F, alloc: A, path: &str) -> Result<FileDevice<F, A>, OpenError>
    where
        F::File: LockFile,
        //= A file that was opened is on the disk: a crash leaves what a read returns. [also open_existing, create_new]
        ensures durable { IfOk result (λ device. Only (seen_after (device_calls device)) (MayLeave (device_calls device))) }
        //= It was locked before any other call on it. [also open_existing, create_new]
        ensures locked { IfOk result (λ device. is_locked_after (device_calls device) ≡ true) }
        //= It was opened at the path that was given: with `open` whether it was there or not; with `open_existing` as one that was there;
        //  and with `create_new` as one that the opening creates. [also open_existing, create_new]
        ensures opening { IfOk result (λ device. device_opening device ≡ opened_any path.now ∷ []) }
    {
        FileDevice::open_wanted(files, alloc, path, Wanted::Any)
    }

    /// `open`, but only of a file that is there.
    ///
    /// # Errors
    /// As of `open`; `Io` of the kind `NotFound` if nothing is at the path.
    pub fn open_existing(files: F, alloc: A, path: &str) -> Result<FileDevice<F, A>, OpenError>
    where
        F::File: LockFile,
        ensures durable { IfOk result (λ device. Only (seen_after (device_calls device)) (MayLeave (device_calls device))) }
        ensures locked { IfOk result (λ device. is_locked_after (device_calls device) ≡ true) }
        ensures opening { IfOk result (λ device. device_opening device ≡ opened_existing path.now ∷ []) }
    {
        FileDevice::open_wanted(files, alloc, path, Wanted::Existing)
    }

    /// `open`, but only of a file that this call creates.
    ///
    /// # Errors
    /// As of `open`; `Io` of the kind `AlreadyExists` if something is at the path, also a link that leads nowhere.
    pub fn create_new(files: F, alloc: A, path: &str) -> Result<FileDevice<F, A>, OpenError>
    where
        F::File: LockFile,
        ensures durable { IfOk result (λ device. Only (seen_after (device_calls device)) (MayLeave (device_calls device))) }
        ensures locked { IfOk result (λ device. is_locked_after (device_calls device) ≡ true) }
        ensures opening { IfOk result (λ device. device_opening device ≡ opened_new path.now ∷ []) }
        //= A file that was created is empty.
        ensures empty { IfOk result (λ device. seen_after (device_calls device) ≡ []) }
    {
        let device = FileDevice::open_wanted(files, alloc, path, Wanted::New)?;
        match &device.held {
            // Another process may have been faster to lock it, and have written it.
            Some(bytes) if bytes.is_empty() => Ok(device),
            _ => Err(OpenError::Io(ErrorKind::AlreadyExists.into())),
        }
    }

    /// Opens the file that is wanted at a path.
    fn open_wanted(
        files: F,
        alloc: A,
        path: &str,
        wanted: Wanted,
    ) -> Result<FileDevice<F, A>, OpenError>
    where
        F::File: LockFile,
        ensures durable { IfOk result (λ device. Only (seen_after (device_calls device)) (MayLeave (device_calls device))) }
        ensures locked { IfOk result (λ device. is_locked_after (device_calls device) ≡ true) }
        ensures opening { IfOk result (λ device. device_opening device ≡ opened_as (way_of wanted) path.now ∷ []) }
    {
        let place = Place::find(files, alloc, path, wanted)?;
        let file = place.lock()?;
        place.clear(&file);
        let (file, bytes) = place.read(file, alloc)?;
        let account = Account::of_file(file, &bytes);
        Ok(FileDevice {
            place,
            held: Some(bytes),
            account,
        })
    }
}

impl<F: Files + Drop, A: Allocator + Copy> Device for FileDevice<F, A> {
    ghost use Rattle.cedar_disk.specs.FileDevices.{device_calls, device_opening};

    //= A file of the operating system is a device. The list of its calls, each noted with its result, gives what a read returns, and what a
    //  crash may leave, and counts its failures and the writes that found no room. [with may_leave, moment, left_since, faults, full]
    ghost seen = { λ device. seen_after (device_calls device) };

    ghost may_leave = { λ device. MayLeave (device_calls device) };

    ghost moment = { λ device. length (device_calls device) };

    ghost left_since = { λ device. LeftSince (device_calls device) };

    ghost faults = { λ device. faults_in (device_calls device) };

    ghost full = { λ device. full_in (device_calls device) };

    ghost counts_now = { λ device. counts_now (device_calls device) };

    ghost only_now = { λ device. only_now (device_calls device) };

    fn read<B: Allocator>(&mut self, alloc: B) -> Result<Vec<u8, B>, DeviceError>
        //= Each call of such a device does what the trait says. [with seen, crash, time, cause, room; also write_at.written,
        //  write_at.no_room, write_at.crash, write_at.time, write_at.cause, write_over.written, write_over.crash, write_over.time,
        //  write_over.cause, write_over.roomy, cut.cut, cut.crash, cut.time, cut.cause, cut.roomy, sync.durable, sync.seen, sync.crash,
        //  sync.time, sync.cause, sync.roomy]
        ensures bytes { IfOk result (λ bytes. bytes.items ≡ seen_after (device_calls self.old)) }
        ensures seen { seen_after (device_calls self.new) ≡ seen_after (device_calls self.old) }
        ensures crash { (c : List ℕ) → MayLeave (device_calls self.new) c → MayLeave (device_calls self.old) c }
        ensures time { TimePasses (device_calls self.old) (device_calls self.new) }
        ensures cause { HasReadCause (faults_in (device_calls self.old)) (faults_in (device_calls self.new)) result }
        ensures room { full_in (device_calls self.new) ≡ full_in (device_calls self.old) }
        //= It remains the file that was opened: at which path, and whether as a new one, stays. [also write_at, write_over, cut, sync]
        ensures opening { device_opening self.new ≡ device_opening self.old }
    {
        match &self.held {
            Some(bytes) => Ok(bytes.to_vec(alloc)?),
            None => Err(self.account.refuse()),
        }
    }

    fn write_at(&mut self, at: usize, bytes: &[u8]) -> Result<(), DeviceError>
        requires { at ≤ length (seen_after (device_calls self.old)) }
        ensures written { OnOk result (Holds (seen_after (device_calls self.old)) at bytes.now (seen_after (device_calls self.new))) }
        ensures no_room { IsErrOf result DeviceError.NoRoom
            → Torn at (length bytes.now) (seen_after (device_calls self.old)) (seen_after (device_calls self.new)) }
        ensures crash { Follows (Torn at (length bytes.now)) (MayLeave (device_calls self.old)) (MayLeave (device_calls self.new)) }
        ensures time { TimePasses (device_calls self.old) (device_calls self.new) }
        ensures cause { HasCauseIn (device_calls self.old) (device_calls self.new) result }
        ensures opening { device_opening self.new ≡ device_opening self.old }
    {
        if !self.account.is_usable() {
            return Err(self.account.refuse());
        }
        self.held = None;
        self.account.write(at, bytes)
    }

    fn write_over(&mut self, at: usize, bytes: &[u8]) -> Result<(), DeviceError>
        requires { at ≤ length (seen_after (device_calls self.old)) }
        ensures written { OnOk result (Holds (seen_after (device_calls self.old)) at bytes.now (seen_after (device_calls self.new))) }
        ensures crash { Follows (Torn at (length bytes.now)) (MayLeave (device_calls self.old)) (MayLeave (device_calls self.new)) }
        ensures time { TimePasses (device_calls self.old) (device_calls self.new) }
        ensures cause { HasCauseIn (device_calls self.old) (device_calls self.new) result }
        ensures roomy { IsErrOf result DeviceError.NoRoom → ⊥ }
        ensures opening { device_opening self.new ≡ device_opening self.old }
    {
        if !self.account.is_usable() {
            return Err(self.account.refuse());
        }
        self.held = None;
        self.account.write_over(at, bytes)
    }

    fn cut(&mut self, len: usize) -> Result<(), DeviceError>
        requires { len ≤ length (seen_after (device_calls self.old)) }
        ensures cut { OnOk result (seen_after (device_calls self.new) ≡ take len (seen_after (device_calls self.old))) }
        ensures crash { Follows (Cut len) (MayLeave (device_calls self.old)) (MayLeave (device_calls self.new)) }
        ensures time { TimePasses (device_calls self.old) (device_calls self.new) }
        ensures cause { HasCauseIn (device_calls self.old) (device_calls self.new) result }
        ensures roomy { IsErrOf result DeviceError.NoRoom → ⊥ }
        ensures opening { device_opening self.new ≡ device_opening self.old }
    {
        if !self.account.is_usable() {
            return Err(self.account.refuse());
        }
        self.held = None;
        self.account.cut(len)
    }

    fn sync(&mut self) -> Result<(), DeviceError>
        ensures durable { OnOk result (Only (seen_after (device_calls self.old)) (MayLeave (device_calls self.new))) }
        ensures seen { seen_after (device_calls self.new) ≡ seen_after (device_calls self.old) }
        ensures crash { (c : List ℕ) → MayLeave (device_calls self.new) c → MayLeave (device_calls self.old) c }
        ensures time { TimePasses (device_calls self.old) (device_calls self.new) }
        ensures cause { HasCauseIn (device_calls self.old) (device_calls self.new) result }
        ensures roomy { IsErrOf result DeviceError.NoRoom → ⊥ }
        ensures opening { device_opening self.new ≡ device_opening self.old }
    {
        if !self.account.is_usable() {
            return Err(self.account.refuse());
        }
        self.account.sync()
    }
}

impl<F: Files + Drop, A: Allocator + Copy> ReplaceDevice for FileDevice<F, A>
where
    F::File: LockFile,
{
    ghost use Rattle.cedar_disk.specs.FileDevices.{device_calls};

    //= Which bytes a file of the operating system has isn't known once a call has failed that was to give its name to another one, or to put
    //  that on the disk.
    ghost is_lost = { λ device. is_named_after (device_calls device) ≡ false };

    fn replace(&mut self, bytes: &[u8]) -> Result<(), ReplaceError> {
        if !self.account.has_name() {
            self.account.refuse();
            return Err(ReplaceError::Failed);
        }
        let like = self.account.file();
        let made = make_file(&self.place, like, bytes);
        let Ok((name, fresh)) = made else {
            return Err(ReplaceError::Kept(self.account.refuse()));
        };
        self.held = None;
        match self
            .account
            .replace(&self.place, name.as_str(), fresh, bytes)
        {
            Ok(()) => Ok(()),
            Err(_) => Err(ReplaceError::Failed),
        }
    }
}
