//! The opening of a store that loses nothing: what it would cut off the file is kept before.

ghost use Rattle.std.specs.Prelude.{◌≡◌, false, IfErr, IfNone, IfOk, IfSome, is_some, None, Some};
ghost use Rattle.std.specs.Prelude.{string_bytes, true};
ghost use Rattle.cedar_salvage.specs.Words.{CutsNone, default_rule, ends_closed, format_named};
ghost use Rattle.cedar_salvage.specs.Words.{format_of, IsBeforeWriting, IsCorrupt, IsCounted};
ghost use Rattle.cedar_salvage.specs.Words.{IsCutOf, IsOfOpening, IsOpenedAt, IsOpeningCause};
ghost use Rattle.cedar_salvage.specs.Words.{IsReadyStore, IsUnfailed, LeavesOnly, MayLeave, Only};
ghost use Rattle.cedar_salvage.specs.Words.{seen_after, state_of};
ghost use Rattle.cedar_disk.specs.FileDevices.{device_calls, device_opening};

use crate::keep::{KeepError, Kept, keep_cut};
use cedar_disk::LockFile;
use cedar_journal::Device;
use cedar_store::{DurableError, Made, Store, Words};
use std::alloc::Allocator;
use std::rt::Files;

/// A store that was opened, and the file that has what was cut off its own.
#[derive(Drop)]
pub struct OpenedStore<T: Words, F: Files + Drop, A: Allocator, D: Device> {
    /// The store.
    pub store: Store<T, A, D>,
    /// What was cut off its file, or None if nothing had to be kept.
    pub kept: Option<Kept<F, A>>,
}

/// A store that wasn't opened.
#[derive(Drop)]
pub struct UnopenedStore<F: Files + Drop, A: Allocator, D: Device> {
    /// Why.
    pub error: OpeningError,
    /// What the opening would cut off the store's file, if it was kept. If the device has failed, it may be cut off.
    pub kept: Option<Kept<F, A>>,
    /// The store's device.
    pub device: D,
}

/// Why a store wasn't opened.
#[derive(Debug, Drop)]
pub enum OpeningError {
    /// What the opening would cut off wasn't kept. So it wasn't tried, and the store's file is as it was.
    Keep(KeepError),
    /// The opening failed, as `Store::open` says.
    Open(DurableError),
}

/// Opens the store on a device, whose file is at a path. What the opening cuts off that file is kept before, if whole records may be in it:
/// in a file beside it, as by `keep_cut`. If it can't be kept, the store isn't opened.
///
/// Returns the store, and the file with what was kept, or None if nothing had to be kept.
///
/// # Errors
/// With the device, and with what was kept: `Keep` with an error of `keep_cut`, or `Open` with an error of `Store::open`. A file in which
/// something was kept stays.
pub fn keep_and_open<T: Made<A>, F: Files + Copy + Drop, A: Allocator + Copy, D: Device>(
    alloc: A,
    files: F,
    device: D,
    path: &str,
) -> Result<OpenedStore<T, F, A, D>, UnopenedStore<F, A, D>>
where
    F::File: LockFile,
    requires limit { T.limit }
    requires restarted { Only (D.seen device) (D.may_leave device) }

    //= If the opening may cut off whole records, the store is opened so only once the header and all that the opening cuts off are in the
    //  file that is returned, and on the disk. [with durable]
    ensures kept { IfOk result (λ opened. IfSome opened.kept (λ k. IsCutOf (D.seen device) (seen_after (device_calls k.device)))) }
    ensures durable { IfOk result (λ opened. IfSome opened.kept (λ k. Only (seen_after (device_calls k.device)) (MayLeave (device_calls k.device)))) }

    //= That file was opened at the path that is told with it, as a new one or as one that was there, even if the store isn't opened. [with
    //  named_err]
    ensures named { IfOk result (λ opened. IfSome opened.kept (λ k. IsOpenedAt (string_bytes k.path) (device_opening k.device))) }
    ensures named_err { IfErr result (λ e. IfSome e.kept (λ k. IsOpenedAt (string_bytes k.path) (device_opening k.device))) }

    //= A store is opened so without anything that is kept only if the opening cuts off no whole record.
    ensures none { IfOk result (λ opened. IfNone opened.kept (CutsNone (D.seen device))) }

    //= If the opening fails, the same holds of what it would cut off, or has cut off. [with durable_err, none_err]
    ensures kept_err { IfErr result (λ e. IfSome e.kept (λ k. IsCutOf (D.seen device) (seen_after (device_calls k.device)))) }
    ensures durable_err { IfErr result (λ e. IfSome e.kept (λ k. Only (seen_after (device_calls k.device)) (MayLeave (device_calls k.device)))) }
    ensures none_err { IfErr result (λ e. IsOfOpening e.error → IfNone e.kept (CutsNone (D.seen device))) }

    //= A store that is opened so is as `Store::open` returns it: ready, with the dictionary that the file represented; so the file is of
    //  no other kind, and each record is a change. [with made, sound]
    ensures ready { IfOk result (λ opened. (opened.store.failed ≡ false) × IsReadyStore D.seen D.may_leave T.state opened.store) }
    ensures made { IfOk result (λ opened. state_of (D.seen device) ≡ Some (T.state opened.store.words)) }
    ensures sound { IfOk result (λ _. IsCorrupt (D.seen device) → ⊥) }

    //= Its records are counted and of the version that the header names, its rule is the default, its length hasn't been looked at, and no
    //  compaction is reported. [with format, rule, unlooked, told; by IsCounted]
    ensures counted { IfOk result (λ opened. IsCounted D.seen opened.store) }
    ensures format { IfOk result (λ opened. opened.store.journal.format ≡ format_named (format_of (D.seen device))) }
    ensures rule { IfOk result (λ opened. opened.store.compaction ≡ default_rule) }
    ensures unlooked { IfOk result (λ opened. opened.store.base ≡ 0) }
    ensures told { IfOk result (λ opened. opened.store.last_compaction ≡ None) }

    //= A crash at any moment meanwhile leaves a file that represents the same dictionary, even if the store isn't opened. [with
    //  any_moment_err]
    ensures any_moment { IfOk result (λ opened. LeavesOnly D.moment D.left_since device opened.store.journal.device
        (λ c. state_of c ≡ state_of (D.seen device))) }
    ensures any_moment_err { IfErr result (λ e. LeavesOnly D.moment D.left_since device e.device
        (λ c. state_of c ≡ state_of (D.seen device))) }

    //= If what the opening would cut off can't be kept, or the opening refuses the file for any other reason than the device, the file
    //  stays byte for byte as it was, whenever a crash comes. [with seen]
    ensures untouched { IfErr result (λ e. IsBeforeWriting e.error → LeavesOnly D.moment D.left_since device e.device (λ c. c ≡ D.seen device)) }
    ensures seen { IfErr result (λ e. IsBeforeWriting e.error → D.seen e.device ≡ D.seen device) }

    //= An opening that fails does so for the reasons of `Store::open`, or since nothing could be kept; and then for `Unread` only if a call of
    //  the device has failed. If the error isn't the device's, none has. [with unfailed; by IsOpeningCause, KeepCause]
    ensures cause { IfErr result (λ e. IsOpeningCause D.seen D.faults D.full device e.device e.error) }
    ensures unfailed { IfErr result (λ e. IsUnfailed e.error → D.faults e.device ≡ D.faults device) }

    //= A file that ends with the closed gate right behind its records stays byte for byte as it was, whenever a crash comes.
    ensures at_rest { IfOk result (λ opened. is_some (format_of (D.seen device)) ≡ true → ends_closed (D.seen device) opened.store.journal.end ≡ true
        → LeavesOnly D.moment D.left_since device opened.store.journal.device (λ c. c ≡ D.seen device)) }
{
    let mut device = device;
    match keep_cut(alloc, files, &mut device, path) {
        Ok(kept) => match Store::open(alloc, device) {
            Ok(store) => Ok(OpenedStore { store, kept }),
            Err((error, device)) => Err(UnopenedStore {
                error: OpeningError::Open(error),
                kept,
                device,
            }),
        },
        Err(error) => Err(UnopenedStore {
            error: OpeningError::Keep(error),
            kept: None,
            device,
        }),
    }
}
