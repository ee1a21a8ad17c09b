//! The store: a dictionary, and the journal of its changes.

ghost use Rattle.std.specs.Prelude.{◌+◌, ◌<◌, ◌^◌, ◌≡◌, ◌≤◌, ◌∷◌, IfErr, IfOk, IfSome};
ghost use Rattle.std.specs.Prelude.{IsErrOf, IsOk, OnErr, OnOk, Some, [], false};
ghost use Rattle.std.specs.Prelude.{if◌then◌else◌, is_some, length, true};
ghost use Rattle.cedar_store.specs.Words.{AddsPayload, after_erase, after_put, all_changed};
ghost use Rattle.cedar_store.specs.Words.{AllByRecursion, batch_length, changes_told};
ghost use Rattle.cedar_store.specs.Words.{CrashLeavesEither, CrashLeavesRecord, end_behind};
ghost use Rattle.cedar_store.specs.Words.{ends_closed, erase_at, fault, file_payloads};
ghost use Rattle.cedar_store.specs.Words.{first_refused, format_named, format_of, HasExtent};
ghost use Rattle.cedar_store.specs.Words.{HasState, IsBatchCause, IsBeforeWrites, IsCorrupt};
ghost use Rattle.cedar_store.specs.Words.{IsCounted, IsEraseCause, IsFaultless, IsLookedAfterError};
ghost use Rattle.cedar_store.specs.Words.{IsLookedAfterRecord, IsOpenCause, IsPutCause};
ghost use Rattle.cedar_store.specs.Words.{IsReadyStore, IsRecordedIn, IsSettled, IsUnlooked};
ghost use Rattle.cedar_store.specs.Words.{KeepsCount, LeavesOnly, LeavesStore, LeavesUnwritten};
ghost use Rattle.cedar_store.specs.Words.{number_at, Only, payload_of, put_at, ReadCause, state_of};

use crate::batch::{make, take_all_back};
use crate::counts::count_records;
use crate::frames::{erase_frame, put_frame};
use crate::last_puts::LastPuts;
use crate::replay::words_of;
use crate::words::{Made, Words, take_back};
use crate::{Change, CompactError, Compaction, DurableError};
use cedar_journal::{Device, DeviceError, Extent, Frame, Journal, JournalError, ReplaceDevice};
use cedarwood::{Cedar, CedarError, ReducedCedar};
use std::alloc::Allocator;

/// A dictionary whose changes are on a device before they are acknowledged.
///
/// Once the device has failed in a change, the dictionary has that change and the file may lack it. So each later change is refused, until
/// [`Store::compact`] has written the dictionary to a new file; look-ups go on.
#[derive(Drop)]
pub struct Store<T: Words, A: Allocator, D: Device> {
    pub(crate) alloc: A,
    pub(crate) journal: Journal<D>,
    pub(crate) words: T,
    pub(crate) failed: bool,
    pub(crate) compaction: Compaction,
    // Where the records ended at the last look at whether the file is too long: 0 before.
    pub(crate) base: usize,
    // How many records the file has, unless the device has failed.
    pub(crate) records: usize,
    // What came of the last compaction, if there was one.
    pub(crate) last_compaction: Option<Result<(), CompactError>>,
}

/// The default store of a dictionary.
pub type CedarStore<A, D> = Store<Cedar<A>, A, D>;

/// The store of a dictionary of the reduced layout.
pub type ReducedStore<A, D> = Store<ReducedCedar<A>, A, D>;

/// Reads a file, and returns the dictionary that it represents, how far it goes, and its bytes.
fn read_words<T: Made<A>, A: Allocator + Copy, D: Device>(
    alloc: A,
    device: &mut D,
) -> Result<(T, Extent, Vec<u8, A>), DurableError>
    requires limit { T.limit }
    requires restarted { Only (D.seen device.old) (D.may_leave device.old) }
    ensures made { IfOk result (λ found. state_of (D.seen device.old) ≡ Some (T.state found.0)) }
    ensures extent { IfOk result (λ found. HasExtent (D.seen device.new) found.1) }
    ensures bytes { IfOk result (λ found. found.2.items ≡ D.seen device.new) }
    ensures seen { D.seen device.new ≡ D.seen device.old }
    ensures durable { Only (D.seen device.new) (D.may_leave device.new) }
    ensures any_moment { LeavesOnly D.moment D.left_since device.old device.new (λ c. c ≡ D.seen device.old) }
    ensures cause { IfErr result (λ error. IsOpenCause D.seen D.faults D.full device.old device.new error) }
    ensures unfailed { IfErr result (λ error. IsBeforeWrites error → D.faults device.new ≡ D.faults device.old) }
    ensures done { OnOk result (D.faults device.new ≡ D.faults device.old) }
    ensures room { D.full device.new ≡ D.full device.old }
{
    let bytes = read_file(alloc, device)?;
    let (words, extent) = words_of(alloc, &bytes)?;
    Ok((words, extent, bytes))
}

/// Reads a file.
fn read_file<A: Allocator, D: Device>(alloc: A, device: &mut D) -> Result<Vec<u8, A>, DurableError>
    requires { Only (D.seen device.old) (D.may_leave device.old) }
    ensures bytes { IfOk result (λ bytes. bytes.items ≡ D.seen device.old) }
    ensures seen { D.seen device.new ≡ D.seen device.old }
    ensures durable { Only (D.seen device.new) (D.may_leave device.new) }
    ensures any_moment { LeavesOnly D.moment D.left_since device.old device.new (λ c. c ≡ D.seen device.old) }
    ensures cause { IfErr result (λ error. ReadCause (D.faults device.old) (D.faults device.new) error) }
    ensures unfailed { IfErr result (λ error. IsBeforeWrites error → D.faults device.new ≡ D.faults device.old) }
    ensures done { OnOk result (D.faults device.new ≡ D.faults device.old) }
    ensures room { D.full device.new ≡ D.full device.old }
{
    match device.read(alloc) {
        Ok(bytes) => Ok(bytes),
        Err(DeviceError::Memory) => Err(DurableError::Refused(CedarError::Memory)),
        // A read asks for no room.
        Err(DeviceError::NoRoom) => Err(DurableError::Device(DeviceError::Failed)),
        Err(DeviceError::Failed) => Err(DurableError::Device(DeviceError::Failed)),
    }
}

impl<T: Made<A>, A: Allocator + Copy, D: Device> Store<T, A, D> {
    /// Opens a file that a crash may have left: makes its changes again, and cuts the file after the whole records, if more follows than a
    /// closed gate. What it cuts is lost, unless it is kept before, as `keep_and_open` of `cedar_salvage` does. A new file gets its header.
    ///
    /// # Errors
    /// With the device: `Foreign` if the file is of another kind, `Damaged` if a record is damaged, `Corrupt` if one is not a change,
    /// `Refused` if memory or slots were refused, also the memory for the file's bytes; then nothing has been written. `Device` if the
    /// device failed; the file represents the same dictionary.
    pub fn open(alloc: A, device: D) -> Result<Self, (DurableError, D)>
        requires limit { T.limit }
        // After a restart, what is read is what is on the disk.
        requires restarted { Only (D.seen device) (D.may_leave device) }

        //= An opened store is ready, and its dictionary is the one that the file represented. So no store is opened of a file of another
        //  kind, or of one with a record that is no change. [with made, sound]
        ensures ready { IfOk result (λ store. (store.failed ≡ false) × IsReadyStore D.seen D.may_leave T.state store) }
        ensures made { IfOk result (λ store. state_of (D.seen device) ≡ Some (T.state store.words)) }
        ensures sound { IfOk result (λ _. IsCorrupt (D.seen device) → ⊥) }

        //= An opened store has counted the records of its file. [by IsCounted]
        ensures counted { IfOk result (λ store. IsCounted D.seen store) }

        //= Its records are of the version that the file's header names; those of a new file are of version 2.
        ensures format { IfOk result (λ store. store.journal.format ≡ format_named (format_of (D.seen device))) }

        //= The rule of a store that was opened is the default: its file may be twice as long as its entries take, and 64 KiB. Its length
        //  hasn't been looked at, and no compaction is reported. [with unlooked, told]
        ensures rule { IfOk result (λ store. store.compaction ≡ Compaction.Beyond 2 65536) }
        ensures unlooked { IfOk result (λ store. store.base ≡ 0) }
        ensures told { IfOk result (λ store. store.last_compaction ≡ None) }

        //= A crash at any moment while it is opened leaves a file that represents the same dictionary, even if it isn't opened. [with
        //  any_moment_err]
        ensures any_moment { IfOk result (λ store. LeavesOnly D.moment D.left_since device store.journal.device
            (λ c. state_of c ≡ state_of (D.seen device))) }
        ensures any_moment_err { IfErr result (λ e. LeavesOnly D.moment D.left_since device e.1
            (λ c. state_of c ≡ state_of (D.seen device))) }

        //= A file is refused as foreign only if it is of another kind, as damaged if a record is damaged, at the position of the first such
        //  one, as corrupt if one of its records is no change, and otherwise only for lack of memory or slots, or by the device: its
        //  `NoRoom` is returned only if a write has found no room, and any other error of it only if a call of it has failed. If that is
        //  not what is returned, no call of the device has failed. [with unfailed]
        ensures cause { IfErr result (λ e. IsOpenCause D.seen D.faults D.full device e.1 e.0) }
        ensures unfailed { IfErr result (λ e. IsBeforeWrites e.0 → D.faults e.1 ≡ D.faults device) }

        //= A file that is refused for any other reason than the device stays byte for byte as it was, whenever a crash comes. [with seen]
        ensures untouched { IfErr result (λ e. IsBeforeWrites e.0 → LeavesOnly D.moment D.left_since device e.1 (λ c. c ≡ D.seen device)) }
        ensures seen { IfErr result (λ e. IsBeforeWrites e.0 → D.seen e.1 ≡ D.seen device) }

        //= Opening a file that ends with the closed gate right behind its records writes nothing: it stays byte for byte as it was,
        //  whenever a crash comes.
        ensures at_rest { IfOk result (λ store. is_some (format_of (D.seen device)) ≡ true → ends_closed (D.seen device) store.journal.end ≡ true
            → LeavesOnly D.moment D.left_since device store.journal.device (λ c. c ≡ D.seen device)) }
    {
        let mut device = device;
        match read_words(alloc, &mut device) {
            Ok((words, extent, bytes)) => {
                let records = count_records(&bytes, extent);
                match Journal::open_read(device, extent, &bytes) {
                    Ok(journal) => Ok(Store {
                        alloc,
                        journal,
                        words,
                        failed: false,
                        compaction: Compaction::default(),
                        base: 0,
                        records,
                        last_compaction: None,
                    }),
                    Err((error, device)) => Err((DurableError::Device(error), device)),
                }
            }
            Err(error) => Err((error, device)),
        }
    }
}

impl<T: Words, A: Allocator + Copy, D: Device> Store<T, A, D> {
    /// The dictionary, for look-ups and walks.
    pub fn dictionary(&self) -> &T
        //= All calls that don't change the dictionary of a store can be made on it.
        ensures { result.now ≡ self.now.words }
    {
        &self.words
    }

    /// Whether the device has failed in a change or a compaction. Then each later change is refused, until `compact` has written the
    /// dictionary to a new file.
    pub fn has_failed(&self) -> bool
        //= A store says whether it has failed.
        ensures { result ≡ self.now.failed }
    {
        self.failed
    }

    /// Hands the device back.
    pub fn into_device(self) -> D
        //= A store returns its device.
        ensures { result ≡ self.journal.device }
    {
        self.journal.device
    }

    /// Returns how many bytes the header and the records of the file take. The file has one byte more, a closed gate, and after that maybe
    /// what a crash or an error has left.
    pub fn file_len(&self) -> usize
        //= A store says where the records of its file end.
        ensures { result ≡ self.now.journal.end }
    {
        self.journal.end
    }

    /// Returns how many records the file has: one for each change and each batch that was acknowledged since it was new or was compacted, and
    /// one for each entry that it had then. If the store has failed, the file may have another number of them.
    pub fn records(&self) -> usize
        //= A store says its count of records.
        ensures { result ≡ self.now.records }
    {
        self.records
    }

    /// Returns where the records ended when the file's length was last looked at, in bytes: by a change that found it too long for what it had
    /// at the look before, or by a compaction, which counts where they end then. 0 if it wasn't since the store was opened.
    pub fn last_look(&self) -> usize
        //= A store says where the records of its file ended at the last look at its length.
        ensures { result ≡ self.now.base }
    {
        self.base
    }

    /// Returns what came of the last compaction since the store was opened, by a call or by the rule: None if there was none.
    pub fn last_compaction(&self) -> Option<Result<(), CompactError>>
        //= A store says what came of the last compaction.
        ensures { result ≡ self.now.last_compaction }
    {
        self.last_compaction
    }

    /// When the store compacts its file by itself.
    pub fn compaction(&self) -> Compaction
        //= A store says when it compacts its file by itself.
        ensures { result ≡ self.now.compaction }
    {
        self.compaction
    }

    /// Sets when the store compacts its file by itself: at the end of a change, from the next one on.
    pub fn set_compaction(&mut self, compaction: Compaction)
        //= When it does can be set, which changes nothing else.
        ensures { self.new ≡ record self.old { compaction = compaction } }
    {
        self.compaction = compaction;
    }
}

impl<T: Words, A: Allocator + Copy, D: ReplaceDevice> Store<T, A, D> {
    /// Stores a value at a key, and returns the value that the key held before, if it held one. At `Ok` the change is acknowledged: each
    /// crash from then on leaves a file that has it.
    ///
    /// # Errors
    /// `Refused` by the pair's first fault, or if memory or slots were refused, `TooLong` and `Full`: then nothing has changed, in the
    /// dictionary or in the file. `NoRoom` if there was no room for the record: the change isn't made, and the store goes on. `Device` if the
    /// device failed, and `Failed` from then on.
    pub fn insert_bytes(&mut self, key: &[u8], value: i32) -> Result<Option<i32>, DurableError>
        requires ready { IsReadyStore D.seen D.may_leave T.state self.old }

        //= An acknowledged insert or update has stored the value in the dictionary, and the file represents it, on the disk. [with ready;
        //  also insert, update_bytes, update]
        ensures stored { OnOk result (HasState T.state self.new (after_put (T.state self.old.words) key.now value)) }
        ensures ready { IsReadyStore D.seen D.may_leave T.state self.new }

        //= An insert returns the value that the key held before. [also insert]
        ensures held { IfOk result (λ held. held ≡ number_at (T.state self.old.words).tree key.now) }

        //= A crash at any moment of an insert or update leaves a file that represents the dictionary from before it, with the change or
        //  without. [also insert, update_bytes, update]
        ensures any_moment { CrashLeavesEither D.moment D.left_since T.state self.old self.new (after_put (T.state self.old.words) key.now value) }

        //= On a store that has failed no change is made: dictionary, file and rule are as they were. [with untouched; also insert,
        //  update_bytes, update]
        ensures failed { self.old.failed ≡ true → result ≡ Err DurableError.Failed }
        ensures untouched { self.old.failed ≡ true → self.new ≡ self.old }

        //= A change leaves the rule as it was. It adds one record to those of the file, and leaves them, unless by the rule the file is
        //  too long then for what it had at the last look: it may have been made short instead, which is reported. By `Never` no file is
        //  too long. [with recorded; also insert, update_bytes, update]
        ensures rule { self.new.compaction ≡ self.old.compaction }
        ensures recorded { OnOk result (IsRecordedIn D.seen T.state (length key.now + 5) self.old self.new (put_at key.now value ∷ [])) }

        //= An acknowledged change looks after the length of its file, by the rule. If the file isn't too long for what it had at the last
        //  look, its records end with the change's, and no look and no compaction is reported. Otherwise it is looked at: it isn't too long
        //  for its entries; or it was, and was made short; or it was kept as it was, for lack of memory, for a record that would be too
        //  long, or by the device; then `last_compaction` has the reason. [by IsLookedAfter; also insert, update_bytes, update,
        //  erase_bytes, erase, apply_batch]
        ensures looked_after { OnOk result (IsLookedAfterRecord D.seen D.faults T.state (length key.now + 5) self.old self.new) }

        //= A change that fails has looked at nothing and reports no compaction, unless it fails by the device: then it may report one after
        //  which it isn't known which file is there. [by IsLookedAfterError; also insert, update_bytes, update, erase_bytes, erase, apply_batch]
        ensures told { IfErr result (IsLookedAfterError D.faults D.is_lost self.old self.new) }

        //= The count of a store stays that of its file's records, in each change and each compaction, as long as the store hasn't failed.
        //  [also insert, update_bytes, update, erase_bytes, erase, apply_batch, compact]
        ensures counted { KeepsCount D.seen self.old self.new }

        //= A pair that has a fault is refused with its first one, if the store hasn't failed. [also insert, update_bytes, update]
        ensures faulty { self.old.failed ≡ false → IfSome (fault key.now value) (λ e. result ≡ Err (DurableError.Refused e)) }

        //= Otherwise it fails only if the store has failed before, for lack of memory, for lack of slots of a key that isn't held, if the
        //  record is too long or the records end too far back, or by the device. It returns `NoRoom` only if a write has found no room and
        //  no call of the device has failed, and an error of the device only if one has. [also insert, update_bytes, update]
        ensures cause { IfErr result (IsPutCause D.faults D.full T.state self.old self.new key.now value) }

        //= After an error of the device the store has failed. After `NoRoom` it hasn't: the dictionary is as it was, and so is where the
        //  records end; the file represents it, on the disk. After any other, the dictionary, the file and the store are as they were.
        //  [also insert, update_bytes, update]
        ensures err { IfErr result (LeavesStore T.state self.old self.new (after_put (T.state self.old.words) key.now value)) }
    {
        if self.failed {
            return Err(DurableError::Failed);
        }
        let held = self.words.put(key, value)?;
        let puts = LastPuts::unlinked(self.alloc);
        match put_frame(self.alloc, self.journal.end, key, value) {
            Ok(frame) => match self.acknowledge(&frame, &[], &puts) {
                Ok(()) => Ok(held),
                Err(error) => {
                    if self.failed {
                        return Err(error);
                    }
                    take_back(&mut self.words, key, held);
                    Err(error)
                }
            },
            Err(error) => {
                take_back(&mut self.words, key, held);
                Err(error)
            }
        }
    }

    /// `insert_bytes` for a text key.
    ///
    /// # Errors
    /// As [`Store::insert_bytes`].
    pub fn insert(&mut self, key: &str, value: i32) -> Result<Option<i32>, DurableError>
        requires ready { IsReadyStore D.seen D.may_leave T.state self.old }
        ensures stored { OnOk result (HasState T.state self.new (after_put (T.state self.old.words) key.now value)) }
        ensures ready { IsReadyStore D.seen D.may_leave T.state self.new }
        ensures held { IfOk result (λ held. held ≡ number_at (T.state self.old.words).tree key.now) }
        ensures any_moment { CrashLeavesEither D.moment D.left_since T.state self.old self.new (after_put (T.state self.old.words) key.now value) }
        ensures failed { self.old.failed ≡ true → result ≡ Err DurableError.Failed }
        ensures untouched { self.old.failed ≡ true → self.new ≡ self.old }
        ensures rule { self.new.compaction ≡ self.old.compaction }
        ensures counted { KeepsCount D.seen self.old self.new }
        ensures recorded { OnOk result (IsRecordedIn D.seen T.state (length key.now + 5) self.old self.new (put_at key.now value ∷ [])) }
        ensures looked_after { OnOk result (IsLookedAfterRecord D.seen D.faults T.state (length key.now + 5) self.old self.new) }
        ensures told { IfErr result (IsLookedAfterError D.faults D.is_lost self.old self.new) }
        ensures faulty { self.old.failed ≡ false → IfSome (fault key.now value) (λ e. result ≡ Err (DurableError.Refused e)) }
        ensures cause { IfErr result (IsPutCause D.faults D.full T.state self.old self.new key.now value) }
        ensures err { IfErr result (LeavesStore T.state self.old self.new (after_put (T.state self.old.words) key.now value)) }
    {
        self.insert_bytes(key.as_bytes(), value)
    }

    /// Stores a value at a key, and replaces the value that the key holds, if any. At `Ok` the change is acknowledged.
    ///
    /// # Errors
    /// As [`Store::insert_bytes`].
    pub fn update_bytes(&mut self, key: &[u8], value: i32) -> Result<(), DurableError>
        requires ready { IsReadyStore D.seen D.may_leave T.state self.old }
        ensures stored { OnOk result (HasState T.state self.new (after_put (T.state self.old.words) key.now value)) }
        ensures ready { IsReadyStore D.seen D.may_leave T.state self.new }
        ensures any_moment { CrashLeavesEither D.moment D.left_since T.state self.old self.new (after_put (T.state self.old.words) key.now value) }
        ensures failed { self.old.failed ≡ true → result ≡ Err DurableError.Failed }
        ensures untouched { self.old.failed ≡ true → self.new ≡ self.old }
        ensures rule { self.new.compaction ≡ self.old.compaction }
        ensures counted { KeepsCount D.seen self.old self.new }
        ensures recorded { OnOk result (IsRecordedIn D.seen T.state (length key.now + 5) self.old self.new (put_at key.now value ∷ [])) }
        ensures looked_after { OnOk result (IsLookedAfterRecord D.seen D.faults T.state (length key.now + 5) self.old self.new) }
        ensures told { IfErr result (IsLookedAfterError D.faults D.is_lost self.old self.new) }
        ensures faulty { self.old.failed ≡ false → IfSome (fault key.now value) (λ e. result ≡ Err (DurableError.Refused e)) }
        ensures cause { IfErr result (IsPutCause D.faults D.full T.state self.old self.new key.now value) }
        ensures err { IfErr result (LeavesStore T.state self.old self.new (after_put (T.state self.old.words) key.now value)) }
    {
        match self.insert_bytes(key, value) {
            Ok(_) => Ok(()),
            Err(error) => Err(error),
        }
    }

    /// `update_bytes` for a text key.
    ///
    /// # Errors
    /// As [`Store::insert_bytes`].
    pub fn update(&mut self, key: &str, value: i32) -> Result<(), DurableError>
        requires ready { IsReadyStore D.seen D.may_leave T.state self.old }
        ensures stored { OnOk result (HasState T.state self.new (after_put (T.state self.old.words) key.now value)) }
        ensures ready { IsReadyStore D.seen D.may_leave T.state self.new }
        ensures any_moment { CrashLeavesEither D.moment D.left_since T.state self.old self.new (after_put (T.state self.old.words) key.now value) }
        ensures failed { self.old.failed ≡ true → result ≡ Err DurableError.Failed }
        ensures untouched { self.old.failed ≡ true → self.new ≡ self.old }
        ensures rule { self.new.compaction ≡ self.old.compaction }
        ensures counted { KeepsCount D.seen self.old self.new }
        ensures recorded { OnOk result (IsRecordedIn D.seen T.state (length key.now + 5) self.old self.new (put_at key.now value ∷ [])) }
        ensures looked_after { OnOk result (IsLookedAfterRecord D.seen D.faults T.state (length key.now + 5) self.old self.new) }
        ensures told { IfErr result (IsLookedAfterError D.faults D.is_lost self.old self.new) }
        ensures faulty { self.old.failed ≡ false → IfSome (fault key.now value) (λ e. result ≡ Err (DurableError.Refused e)) }
        ensures cause { IfErr result (IsPutCause D.faults D.full T.state self.old self.new key.now value) }
        ensures err { IfErr result (LeavesStore T.state self.old self.new (after_put (T.state self.old.words) key.now value)) }
    {
        self.update_bytes(key.as_bytes(), value)
    }

    /// Removes a key, and returns whether it was held. At `Ok` the change is acknowledged. A key that isn't held makes no change: nothing
    /// is written.
    ///
    /// # Errors
    /// `Refused` if memory for the record was refused, `TooLong` and `Full`: then nothing has changed. `Device` if the device failed, and
    /// `Failed` from then on.
    pub fn erase_bytes(&mut self, key: &[u8]) -> Result<bool, DurableError>
        requires ready { IsReadyStore D.seen D.may_leave T.state self.old }

        //= An acknowledged erasure has removed the key from the dictionary, and the file represents it, on the disk. It returns whether the
        //  key was held. If it wasn't, the store is as it was. [with ready, answer, missed; also erase]
        ensures erased { IfOk result (λ held. HasState T.state self.new (if held then after_erase (T.state self.old.words) key.now else (T.state self.old.words))) }
        ensures ready { IsReadyStore D.seen D.may_leave T.state self.new }
        ensures answer { IfOk result (λ held. held ≡ is_some (number_at (T.state self.old.words).tree key.now)) }
        ensures missed { IfOk result (λ held. held ≡ false → self.new ≡ self.old) }

        //= A crash at any moment of an erasure leaves a file that represents the dictionary from before it, with the change or without.
        //  [also erase]
        ensures any_moment { CrashLeavesEither D.moment D.left_since T.state self.old self.new (after_erase (T.state self.old.words) key.now) }

        //= On a store that has failed no change is made: dictionary, file and rule are as they were. [with untouched; also erase]
        ensures failed { self.old.failed ≡ true → result ≡ Err DurableError.Failed }
        ensures untouched { self.old.failed ≡ true → self.new ≡ self.old }

        //= An erasure leaves the rule as it was, and the file as a change does. [with recorded; also erase]
        ensures rule { self.new.compaction ≡ self.old.compaction }
        ensures counted { KeepsCount D.seen self.old self.new }
        ensures recorded { IfOk result (λ held. held ≡ true → IsRecordedIn D.seen T.state (length key.now + 1) self.old self.new (erase_at key.now ∷ [])) }
        ensures looked_after { IfOk result (λ held. held ≡ true → IsLookedAfterRecord D.seen D.faults T.state (length key.now + 1) self.old self.new) }
        ensures told { IfErr result (IsLookedAfterError D.faults D.is_lost self.old self.new) }

        //= An erasure fails only if the store has failed before, for lack of memory, if the record is too long or the records end too far
        //  back, or by the device. It returns `NoRoom` only if a write has found no room and no call of the device has failed, and an error
        //  of the device only if one has. [also erase]
        ensures cause { IfErr result (IsEraseCause D.faults D.full self.old self.new (length key.now + 1)) }

        //= After an error of the device the store has failed. After `NoRoom` it hasn't: the dictionary is as it was, and the file
        //  represents it. After any other, the dictionary, the file and the store are as they were. [also erase]
        ensures err { IfErr result (LeavesStore T.state self.old self.new (after_erase (T.state self.old.words) key.now)) }
    {
        if self.failed {
            return Err(DurableError::Failed);
        }
        if !self.words.holds(key) {
            return Ok(false);
        }
        let erasure = erase_frame(self.alloc, self.journal.end, key)?;
        let puts = LastPuts::unlinked(self.alloc);
        self.acknowledge(&erasure, &[Change::Erase { key }], &puts)?;
        Ok(true)
    }

    /// `erase_bytes` for a text key.
    ///
    /// # Errors
    /// As [`Store::erase_bytes`].
    pub fn erase(&mut self, key: &str) -> Result<bool, DurableError>
        requires ready { IsReadyStore D.seen D.may_leave T.state self.old }
        ensures erased { IfOk result (λ held. HasState T.state self.new (if held then after_erase (T.state self.old.words) key.now else (T.state self.old.words))) }
        ensures ready { IsReadyStore D.seen D.may_leave T.state self.new }
        ensures answer { IfOk result (λ held. held ≡ is_some (number_at (T.state self.old.words).tree key.now)) }
        ensures missed { IfOk result (λ held. held ≡ false → self.new ≡ self.old) }
        ensures any_moment { CrashLeavesEither D.moment D.left_since T.state self.old self.new (after_erase (T.state self.old.words) key.now) }
        ensures failed { self.old.failed ≡ true → result ≡ Err DurableError.Failed }
        ensures untouched { self.old.failed ≡ true → self.new ≡ self.old }
        ensures rule { self.new.compaction ≡ self.old.compaction }
        ensures counted { KeepsCount D.seen self.old self.new }
        ensures recorded { IfOk result (λ held. held ≡ true → IsRecordedIn D.seen T.state (length key.now + 1) self.old self.new (erase_at key.now ∷ [])) }
        ensures looked_after { IfOk result (λ held. held ≡ true → IsLookedAfterRecord D.seen D.faults T.state (length key.now + 1) self.old self.new) }
        ensures told { IfErr result (IsLookedAfterError D.faults D.is_lost self.old self.new) }
        ensures cause { IfErr result (IsEraseCause D.faults D.full self.old self.new (length key.now + 1)) }
        ensures err { IfErr result (LeavesStore T.state self.old self.new (after_erase (T.state self.old.words) key.now)) }
    {
        self.erase_bytes(key.as_bytes())
    }

    /// Makes some changes, one after another, as one: at `Ok` all of them are acknowledged, and a crash at any moment leaves a file that
    /// has all of them or none. They are one record, and cost the two syncs of one change. A key ends with what its last change says. No
    /// changes are no change: nothing is written.
    ///
    /// An erasure isn't made if an update behind it puts its key. If erasures stand before updates, in a batch of 128 changes or more, that is
    /// found by a sum over the key's bytes, in memory of 16 bytes for each change. The time grows with the number of the changes then, unless
    /// keys are chosen so that their sums agree.
    ///
    /// # Errors
    /// `RefusedAt` with the index of a change whose pair has a fault, or for which memory or slots were refused; `Refused` if memory for
    /// the batch or its record was refused, `TooLong` and `Full`: then nothing has changed. `NoRoom` if there was no room for it: nothing is
    /// made, and the store goes on. `Device` if the device failed, and `Failed` from then on.
    pub fn apply_batch(&mut self, changes: &[Change<'_>]) -> Result<(), DurableError>
        requires ready { IsReadyStore D.seen D.may_leave T.state self.old }

        //= Once a batch is acknowledged, the dictionary is as all of its changes leave it, one after another, and the file represents that,
        //  on the disk. A batch of no changes leaves the store as it was. [with ready, nothing]
        ensures made { OnOk result (HasState T.state self.new (all_changed (T.state self.old.words) (changes_told changes.now))) }
        ensures ready { IsReadyStore D.seen D.may_leave T.state self.new }
        ensures nothing { OnOk result (changes.now ≡ [] → self.new ≡ self.old) }

        //= A crash at any moment of a batch leaves a file that represents the dictionary from before it, or the one with all of its
        //  changes.
        ensures any_moment { CrashLeavesEither D.moment D.left_since T.state self.old self.new (all_changed (T.state self.old.words) (changes_told changes.now)) }

        //= On a store that has failed no batch is made: dictionary, file and rule are as they were. [with untouched]
        ensures failed { self.old.failed ≡ true → result ≡ Err DurableError.Failed }
        ensures untouched { self.old.failed ≡ true → self.new ≡ self.old }

        //= A batch leaves the rule as it was, and the file as a change does. [with recorded]
        ensures rule { self.new.compaction ≡ self.old.compaction }
        ensures counted { KeepsCount D.seen self.old self.new }
        ensures recorded { OnOk result ((changes.now ≡ [] → ⊥) → IsRecordedIn D.seen T.state (batch_length (changes_told changes.now)) self.old self.new (changes_told changes.now)) }
        ensures looked_after { OnOk result ((changes.now ≡ [] → ⊥) → IsLookedAfterRecord D.seen D.faults T.state (batch_length (changes_told changes.now)) self.old self.new) }
        ensures told { IfErr result (IsLookedAfterError D.faults D.is_lost self.old self.new) }

        //= A batch in which a pair has a fault is refused with the first such pair's index and fault, whatever memory there is, if the
        //  store hasn't failed.
        ensures first { self.old.failed ≡ false → IfSome (first_refused 0 (changes_told changes.now)) (λ e. result ≡ Err e) }

        //= A batch in which one pair has a fault is refused. Otherwise it fails only if the store has failed before, for lack of memory or
        //  slots, if the record is too long or the records end too far back, or by the device. It returns `NoRoom` only if a write has found
        //  no room and no call of the device has failed, and an error of the device only if one has. [with cause]
        ensures faulty { IsOk result → AllByRecursion IsFaultless (changes_told changes.now) }
        ensures cause { IfErr result (IsBatchCause D.faults D.full self.old self.new (changes_told changes.now)) }

        //= After an error of the device the store has failed and the dictionary has all of a batch. After `NoRoom` it hasn't: the
        //  dictionary is as it was, and the file represents it. After any other, the dictionary, the file and the store are as they were.
        ensures err { IfErr result (LeavesStore T.state self.old self.new (all_changed (T.state self.old.words) (changes_told changes.now))) }
    {
        if self.failed {
            return Err(DurableError::Failed);
        }
        if changes.is_empty() {
            return Ok(());
        }
        let batch = make(&mut self.words, self.alloc, self.journal.end, changes)?;
        match self.acknowledge(&batch.frame, changes, &batch.puts) {
            Ok(()) => Ok(()),
            Err(error) => {
                if self.failed {
                    return Err(error);
                }
                take_all_back(&mut self.words, changes, &batch.held);
                Err(error)
            }
        }
    }

    /// Writes a record of a change.
    pub(crate) fn append(&mut self, frame: &Frame<A>) -> Result<(), DurableError>
        requires settled { IsSettled D.seen D.may_leave self.old.journal.device self.old.journal.format self.old.journal.end }
        requires room { self.old.journal.end < 2 ^ 60 }
        ensures settled { OnOk result (IsSettled D.seen D.may_leave self.new.journal.device self.new.journal.format self.new.journal.end) }
        ensures longer { OnOk result (self.new.journal.end ≡ end_behind self.old (length (payload_of frame.now))) }
        ensures acknowledged { OnOk result (AddsPayload D.seen (payload_of frame.now) self.old self.new) }
        ensures failed { OnOk result (self.new.failed ≡ self.old.failed) }
        ensures faults { D.faults self.old.journal.device ≤ D.faults self.new.journal.device }
        ensures no_room { IsErrOf result DurableError.NoRoom → IsSettled D.seen D.may_leave self.new.journal.device self.new.journal.format self.new.journal.end }
        ensures same_left { IsErrOf result DurableError.NoRoom → file_payloads (D.seen self.new.journal.device) ≡ file_payloads (D.seen self.old.journal.device) }
        ensures end { OnErr result (self.new.journal.end ≡ self.old.journal.end) }
        ensures err { IfErr result (LeavesUnwritten D.faults D.full self.old self.new) }
        ensures words { self.new.words ≡ self.old.words }
        ensures unlooked { IsUnlooked self.old self.new }
        ensures rule { self.new.compaction ≡ self.old.compaction }
        ensures counted { KeepsCount D.seen self.old self.new }
        ensures any_moment { CrashLeavesRecord D.seen D.moment D.left_since (payload_of frame.now) self.old self.new }
    {
        match self.journal.append(frame) {
            Ok(()) => {
                let records = self.records.saturating_add(1);
                self.records = records;
                Ok(())
            }
            Err(JournalError::Full) => Err(DurableError::Full),
            Err(JournalError::NoRoom) => Err(DurableError::NoRoom),
            Err(JournalError::Device(error)) => {
                self.failed = true;
                Err(DurableError::Device(error))
            }
        }
    }
}
