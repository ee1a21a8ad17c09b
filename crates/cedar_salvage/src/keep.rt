//! What an opening would cut off a store's file, kept beside it.

ghost use Rattle.std.specs.Prelude.{◌+◌, ◌++◌, ◌∷◌, ◌≡◌, ◌≤◌, [], bit_and, drop, IfErr, IfNone};
ghost use Rattle.std.specs.Prelude.{IfOk, IfSome, length, List, OnOk, string_bytes, take};
ghost use Rattle.std.specs.Fs.{metadata_mode, permissions_mode};
ghost use Rattle.cedar_salvage.specs.Words.{CutsNone, Elapses, IsCutOf, IsOpenedAt, IsReadable};
ghost use Rattle.cedar_salvage.specs.Words.{KeepCause, MayLeave, Memory, Only, opened_new, seen_after};
ghost use Rattle.cedar_disk.specs.FileDevices.{device_calls, device_opening};

use crate::cut::may_cut_records;
use crate::held::held_beside;
use cedar_disk::{FileDevice, LockFile, OpenError};
use cedar_journal::{Device, DeviceError, Extent, HEADER_LEN, extent_of};
use std::alloc::{AllocError, Allocator};
use std::fs::{self, Metadata, Permissions};
use std::io::{self, ErrorKind};
use std::os::unix::fs::PermissionsExt;
use std::path::PathBuf;
use std::rt::Files;

/// How many files beside a store's may keep what was cut off it.
pub(crate) const MOST_KEPT: usize = 100;

/// What such a file takes of the mode of the store's: not set-user-ID and set-group-ID, since it doesn't get that one's owner and group.
const KEPT_MODE_BITS: u32 = 0o1777;

/// A file beside a store's. It is on the disk, and locked until this is dropped.
#[derive(Drop)]
pub struct Kept<F: Files + Drop, A: Allocator> {
    /// The path at which it was opened.
    pub path: String<A>,
    /// The file.
    pub device: FileDevice<F, A>,
}

/// Why what an opening would cut off wasn't kept.
#[derive(Clone, Copy, Debug)]
pub enum KeepError {
    /// An allocation failed.
    Memory,
    /// The store's device couldn't be read.
    Unread,
    /// No new file could be made: the system's error, or `AlreadyExists` if all names are taken.
    Unmade(io::Error),
    /// The new file couldn't be written or put on the disk. It was removed.
    Unwritten(DeviceError),
}

impl From<AllocError> for KeepError {
    //= A failed allocation becomes `Memory`.
    ghost from_gives = { λ _ e. e ≡ Memory };

    fn from(_: AllocError) -> Self {
        KeepError::Memory
    }
}

/// Keeps what the opening of the store on a device would cut off its file, if whole records may be in it (`may_cut_records`). It is put
/// behind the header into a new file at the path with `.cut` after it, or with `.1.cut` and so on to `.99.cut` where a name is taken. That
/// is the file of a store, from which `salvage` takes the records. Where a name is that of a file with the very same bytes, which an earlier
/// call has kept, that one is returned, and none is made. If the path is a link, the file is beside what that leads to. Call this before the
/// store is opened, or make both calls by `keep_and_open`. The store's file is only read.
///
/// Returns None if nothing has to be kept: the opening would cut off no whole record, or the file is of another kind or damaged.
///
/// # Errors
/// `Memory` if an allocation failed, `Unread` if the device couldn't be read, `Unmade` or `Unwritten` if a new file couldn't be made. Don't
/// open the store then.
pub fn keep_cut<D: Device, F: Files + Copy + Drop, A: Allocator + Copy>(
    alloc: A,
    files: F,
    device: &mut D,
    path: &str,
) -> Result<Option<Kept<F, A>>, KeepError>
where
    F::File: LockFile,
    //= If the opening of a store may cut off whole records, the header and all that it would cut off are in the file that is returned,
    //  and on the disk. [with durable]
    ensures kept { IfOk result (λ kept. IfSome kept (λ k. IsCutOf (D.seen device.old) (seen_after (device_calls k.device)))) }
    ensures durable { IfOk result (λ kept. IfSome kept (λ k. Only (seen_after (device_calls k.device)) (MayLeave (device_calls k.device)))) }
    //= That file was opened at the path that is returned with it, as a new one or as one that was there. [by IsOpenedAt]
    ensures named { IfOk result (λ kept. IfSome kept (λ k. IsOpenedAt (string_bytes k.path) (device_opening k.device))) }
    //= Nothing is kept only if the opening would cut off no whole record, or if the file represents no records.
    ensures none { IfOk result (λ kept. IfNone kept (CutsNone (D.seen device.old))) }
    //= The store's file stays as it was. [with restarted, time]
    ensures seen { D.seen device.new ≡ D.seen device.old }
    ensures restarted { Only (D.seen device.old) (D.may_leave device.old) → Only (D.seen device.new) (D.may_leave device.new) }
    ensures time { Elapses (D.moment device.old) (D.moment device.new) (D.left_since device.old) (D.left_since device.new) (D.may_leave device.new) }
    //= No call of its device has failed, unless `Unread` is returned, and no write has found no room. [with unfailed, room]
    ensures done { OnOk result (D.faults device.new ≡ D.faults device.old) }
    ensures unfailed { IfErr result (λ error. IsReadable error → D.faults device.new ≡ D.faults device.old) }
    ensures room { D.full device.new ≡ D.full device.old }
    //= `Unread` is returned only if a call of its device has failed. [by KeepCause]
    ensures cause { IfErr result (KeepCause (D.faults device.old) (D.faults device.new)) }
{
    let bytes = match device.read(alloc) {
        Ok(bytes) => bytes,
        Err(DeviceError::Memory) => return Err(KeepError::Memory),
        Err(DeviceError::NoRoom) => return Err(KeepError::Unread), // A read asks for no room.
        Err(DeviceError::Failed) => return Err(KeepError::Unread),
    };
    let Some(end) = cut_at(&bytes) else {
        return Ok(None);
    };
    let kept = keep(alloc, files, path, &bytes[..HEADER_LEN], &bytes[end..])?;
    Ok(Some(kept))
}

/// Where an opening would cut a file, if it may cut off whole records.
fn cut_at(bytes: &[u8]) -> Option<usize>
    ensures within { IfSome result (λ end. (13 ≤ length bytes.now) × (end ≤ length bytes.now)) }
    ensures some { IfSome result (λ end. IsCutOf bytes.now (take 13 bytes.now ++ drop end bytes.now)) }
    ensures none { IfNone result (CutsNone bytes.now) }
{
    let Ok(extent) = extent_of(bytes) else {
        return None;
    };
    if !may_cut_records(bytes, extent) {
        return None;
    }
    match extent {
        Extent::New => None,
        Extent::Until(_, end) => Some(end),
    }
}

/// Where a path leads to, if it is a link. A compaction replaces the file there, too.
fn behind_link<F: Files, A: Allocator>(
    alloc: A,
    files: &F,
    path: &str,
) -> Result<Option<PathBuf<A>>, KeepError>
    ensures err { IfErr result IsReadable }
{
    match fs::symlink_metadata(files, path) {
        Ok(found) if found.is_symlink() => {}
        _ => return Ok(None),
    }
    match files.canonicalize(alloc, path) {
        Ok(real) => Ok(Some(real)),
        Err(error) if error.kind() == ErrorKind::OutOfMemory => Err(KeepError::Memory),
        Err(error) => Err(KeepError::Unmade(error)),
    }
}

/// Returns the file of a header and some bytes beside one, or beside what that leads to if it is a link.
fn keep<F: Files + Copy + Drop, A: Allocator + Copy>(
    alloc: A,
    files: F,
    path: &str,
    header: &[u8],
    bytes: &[u8],
) -> Result<Kept<F, A>, KeepError>
where
    F::File: LockFile,
    ensures filled { IfOk result (λ kept. seen_after (device_calls kept.device) ≡ header.now ++ bytes.now) }
    ensures durable { IfOk result (λ kept. Only (seen_after (device_calls kept.device)) (MayLeave (device_calls kept.device))) }
    ensures named { IfOk result (λ kept. IsOpenedAt (string_bytes kept.path) (device_opening kept.device)) }
    ensures err { IfErr result IsReadable }
{
    match behind_link(alloc, &files, path)? {
        Some(real) => keep_beside(alloc, files, real.as_str(), header, bytes),
        None => keep_beside(alloc, files, path, header, bytes),
    }
}

/// Returns the file of a header and some bytes beside one, which is made if there is none.
fn keep_beside<F: Files + Copy + Drop, A: Allocator + Copy>(
    alloc: A,
    files: F,
    path: &str,
    header: &[u8],
    bytes: &[u8],
) -> Result<Kept<F, A>, KeepError>
where
    F::File: LockFile,
    ensures filled { IfOk result (λ kept. seen_after (device_calls kept.device) ≡ header.now ++ bytes.now) }
    ensures durable { IfOk result (λ kept. Only (seen_after (device_calls kept.device)) (MayLeave (device_calls kept.device))) }
    ensures named { IfOk result (λ kept. IsOpenedAt (string_bytes kept.path) (device_opening kept.device)) }
    ensures err { IfErr result IsReadable }
{
    if let Some(held) = held_beside(alloc, files, path, header, bytes)? {
        return Ok(held);
    }
    let mut kept = make_beside(alloc, files, path)?;
    // Before a byte is in it.
    look_like(&files, path, &kept.path);
    match fill(&mut kept.device, header, bytes) {
        Ok(()) => Ok(kept),
        Err(error) => {
            // It is this call's own, and still locked.
            let _ = fs::remove_file(&files, &kept.path);
            Err(KeepError::Unwritten(error))
        }
    }
}

/// Gives the file of this name the permissions of the one at a path, as far as the system allows it, but for set-user-ID and set-group-ID.
fn look_like<F: Files>(files: &F, path: &str, name: &str) {
    if let Ok(looks) = fs::metadata(files, path) {
        let _ = fs::set_permissions(files, name, kept_permissions(&looks));
    }
}

/// Returns the permissions of a file that keeps what was cut off one of these looks.
fn kept_permissions(looks: &Metadata) -> Permissions
    ensures { permissions_mode result ≡ bit_and (metadata_mode looks.now) 0o1777 }
{
    Permissions::from_mode(looks.permissions().mode() & KEPT_MODE_BITS)
}

/// Makes a new file beside one, at the first name that is free.
fn make_beside<F: Files + Copy + Drop, A: Allocator + Copy>(
    alloc: A,
    files: F,
    path: &str,
) -> Result<Kept<F, A>, KeepError>
where
    F::File: LockFile,
    ensures empty { IfOk result (λ kept. seen_after (device_calls kept.device) ≡ []) }
    ensures named { IfOk result (λ kept. device_opening kept.device ≡ opened_new (string_bytes kept.path) ∷ []) }
    ensures err { IfErr result IsReadable }
{
    for number in 0..MOST_KEPT {
        let path = name_beside(alloc, path, number)?;
        match FileDevice::create_new(files, alloc, &path) {
            Ok(device) => return Ok(Kept { path, device }),
            Err(OpenError::Memory) => return Err(KeepError::Memory),
            Err(OpenError::Locked) => {}
            Err(OpenError::Io(error)) if error.kind() == ErrorKind::AlreadyExists => {}
            Err(OpenError::Io(error)) => return Err(KeepError::Unmade(error)),
        }
    }
    Err(KeepError::Unmade(ErrorKind::AlreadyExists.into()))
}

/// The name of the file that is tried in this turn.
pub(crate) fn name_beside<A: Allocator>(
    alloc: A,
    path: &str,
    number: usize,
) -> Result<String<A>, KeepError>
    ensures err { IfErr result IsReadable }
{
    let name = if number == 0 {
        format!(in alloc; "{path}.cut")
    } else {
        format!(in alloc; "{path}.{number}.cut")
    };
    match name {
        Ok(name) => Ok(name),
        Err(AllocError) => Err(KeepError::Memory),
    }
}

/// Writes a header and some bytes to an empty file. They are on the disk then.
fn fill<F: Files + Drop, A: Allocator + Copy>(
    device: &mut FileDevice<F, A>,
    header: &[u8],
    bytes: &[u8],
) -> Result<(), DeviceError>
    requires empty { seen_after (device_calls device.old) ≡ [] }
    ensures filled { OnOk result (seen_after (device_calls device.new) ≡ header.now ++ bytes.now) }
    ensures durable { OnOk result (Only (seen_after (device_calls device.new)) (MayLeave (device_calls device.new))) }
    ensures opening { OnOk result (device_opening device.new ≡ device_opening device.old) }
{
    device.write_at(0, header)?;
    device.write_at(header.len(), bytes)?;
    device.sync()?;
    Ok(())
}
