//! What an earlier call has kept beside a store's file.

ghost use Rattle.std.specs.Prelude.{◌++◌, ◌∷◌, ◌≡◌, [], false, IfErr, IfOk, IfSome, string_bytes, true};
ghost use Rattle.cedar_salvage.specs.Words.{IsReadable, MayLeave, Only, opened_existing, seen_after};
ghost use Rattle.cedar_disk.specs.FileDevices.{device_calls, device_opening};

use crate::keep::{KeepError, Kept, MOST_KEPT, name_beside};
use cedar_disk::{FileDevice, LockFile, OpenError};
use cedar_journal::{Device, DeviceError};
use std::alloc::Allocator;
use std::fs::{self, Metadata};
use std::rt::Files;

/// Returns the file beside one that has exactly a header and some bytes, if there is one in front of the first name that is free.
pub(crate) fn held_beside<F: Files + Copy + Drop, A: Allocator + Copy>(
    alloc: A,
    files: F,
    path: &str,
    header: &[u8],
    bytes: &[u8],
) -> Result<Option<Kept<F, A>>, KeepError>
where
    F::File: LockFile,
    ensures filled { IfOk result (λ held. IfSome held (λ kept. seen_after (device_calls kept.device) ≡ header.now ++ bytes.now)) }
    ensures durable { IfOk result (λ held. IfSome held (λ kept. Only (seen_after (device_calls kept.device)) (MayLeave (device_calls kept.device)))) }
    ensures named { IfOk result (λ held. IfSome held (λ kept. device_opening kept.device ≡ opened_existing (string_bytes kept.path) ∷ [])) }
    ensures err { IfErr result IsReadable }
{
    for number in 0..MOST_KEPT {
        let path = name_beside(alloc, path, number)?;
        let Ok(found) = fs::symlink_metadata(&files, &path) else {
            return Ok(None);
        };
        if is_so_long(&found, header, bytes) {
            if let Some(device) = held_at(alloc, files, &path, header, bytes)? {
                return Ok(Some(Kept { path, device }));
            }
        }
    }
    Ok(None)
}

/// Whether this is a file, and no link, that is as long as a header and some bytes. No other one has to be read.
fn is_so_long(found: &Metadata, header: &[u8], bytes: &[u8]) -> bool {
    found.is_file() && found.len().checked_sub(header.len() as u64) == Some(bytes.len() as u64)
}

/// Returns the file at a path, if it can be opened and has exactly a header and some bytes.
fn held_at<F: Files + Copy + Drop, A: Allocator + Copy>(
    alloc: A,
    files: F,
    path: &str,
    header: &[u8],
    bytes: &[u8],
) -> Result<Option<FileDevice<F, A>>, KeepError>
where
    F::File: LockFile,
    ensures filled { IfOk result (λ held. IfSome held (λ device. seen_after (device_calls device) ≡ header.now ++ bytes.now)) }
    ensures durable { IfOk result (λ held. IfSome held (λ device. Only (seen_after (device_calls device)) (MayLeave (device_calls device)))) }
    ensures named { IfOk result (λ held. IfSome held (λ device. device_opening device ≡ opened_existing path.now ∷ [])) }
    ensures err { IfErr result IsReadable }
{
    let mut device = match FileDevice::open_existing(files, alloc, path) {
        Ok(device) => device,
        Err(OpenError::Memory) => return Err(KeepError::Memory),
        // Another process has it, or this one may not have it.
        Err(_) => return Ok(None),
    };
    let held = match device.read(alloc) {
        Ok(held) => held,
        Err(DeviceError::Memory) => return Err(KeepError::Memory),
        Err(_) => return Ok(None),
    };
    if !are_both(&held, header, bytes) {
        return Ok(None);
    }
    Ok(Some(device))
}

/// Whether some bytes are a header and others behind it.
fn are_both(held: &[u8], header: &[u8], bytes: &[u8]) -> bool
    ensures same { result ≡ true → held.now ≡ header.now ++ bytes.now }
    ensures other { result ≡ false → held.now ≡ header.now ++ bytes.now → ⊥ }
{
    match held.strip_prefix(header) {
        Some(rest) => rest == bytes,
        None => false,
    }
}
