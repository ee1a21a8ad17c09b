//! Bytes written by as many calls as the system takes for them.

ghost use Rattle.std.specs.Prelude.{◌≡◌, ◌≤◌, ◌∷◌, [], false, IfOk, IsErrOf};
ghost use Rattle.std.specs.Prelude.{length, OnErr, OnOk, true};
ghost use Rattle.cedar_disk.specs.Words.{AreWritten, AreWrittenInPart, compaction_path};
ghost use Rattle.cedar_disk.specs.Words.{folder_sync_call, HasCauseIn, is_locked_after, IsUnplaced};
ghost use Rattle.cedar_disk.specs.Words.{MayLeave, Only, open_call, rename_call, seen_after};
ghost use Rattle.cedar_disk.specs.Words.{Spoils};
ghost use Rattle.cedar_disk.specs.NotedFiles.{is_beside, noted_calls};
ghost use Rattle.cedar_disk.specs.PathFiles.{place_path};

use crate::LockFile;
use crate::names::compaction_beside;
use crate::noted::{Noted, Place, make_successor, remove_made};
use arrayvec::ArrayString;
use cedar_journal::DeviceError;
use std::alloc::Allocator;
use std::io;
use std::rt::Files;
use whole_files::{OWN_MODE, PATH_LEN, Wrote};

/// Writes all of the bytes from the byte `at` on.
///
/// # Errors
/// `NoRoom` if there was no room for all of them: then the first of them were written. `Failed` if a call failed: then any of them may be
/// there.
pub(crate) fn write_all<F: Files>(
    file: &mut Noted<F>,
    at: usize,
    bytes: &[u8],
) -> Result<(), DeviceError>
    requires within { at ≤ length (seen_after (noted_calls file.old)) }
    ensures written { OnOk result (AreWritten at (length bytes.now) bytes.now (noted_calls file.old) (noted_calls file.new)) }
    ensures spoils { Spoils at (length bytes.now) (noted_calls file.old) (noted_calls file.new) }
    ensures no_room { IsErrOf result DeviceError.NoRoom → AreWrittenInPart at bytes.now (noted_calls file.old) (noted_calls file.new) }
    ensures cause { HasCauseIn (noted_calls file.old) (noted_calls file.new) result }
    ensures name { is_beside file.new ≡ is_beside file.old }
{
    let mut done = 0;
    let mut tries = u64::MAX;
    while done < bytes.len() {
        match file.write(at.saturating_add(done), &bytes[done..]) {
            Wrote::Bytes(count) => done += count,
            Wrote::Nothing => {
                if tries == 0 {
                    file.refuse();
                    return Err(DeviceError::Failed);
                }
                tries -= 1;
            }
            Wrote::Full(_) => return Err(DeviceError::NoRoom),
            Wrote::Failed(_) => return Err(DeviceError::Failed),
        }
    }
    Ok(())
}

/// Makes a file of these bytes beside the one of a place, with that one's owner and permissions, puts it on the disk and locks it. Returns
/// it with its name.
///
/// # Errors
/// `NoRoom` if there was no room for the bytes, `Failed` if a call failed. If a file was made, it is removed then.
pub(crate) fn make_file<F: Files + Drop, A: Allocator + Copy>(
    place: &Place<F, A>,
    like: &Noted<F>,
    bytes: &[u8],
) -> Result<(ArrayString<PATH_LEN>, Noted<F>), DeviceError>
where
    F::File: LockFile,
    ensures names { IfOk result (λ made. made.0.bytes ≡ compaction_path (place_path place.now)) }
    ensures locked { IfOk result (λ made. is_locked_after (noted_calls made.1) ≡ true) }
    ensures name { IfOk result (λ made. is_beside made.1 ≡ true) }
    ensures bytes { IfOk result (λ made. seen_after (noted_calls made.1) ≡ bytes.now) }
    ensures durable { IfOk result (λ made. Only bytes.now (MayLeave (noted_calls made.1))) }
{
    let files = place.files();
    let path = place.path();
    let Some(name) = compaction_beside(path) else {
        return Err(DeviceError::Failed);
    };
    let Ok(mut file) = make_successor(files, name.as_str(), path, OWN_MODE) else {
        return Err(DeviceError::Failed);
    };
    match fill_like(&mut file, files, name.as_str(), like, bytes) {
        Ok(()) => Ok((name, file)),
        Err(error) => {
            remove_made(files, name.as_str(), path);
            Err(error)
        }
    }
}

/// Gives a file that was made another one's owner and permissions, fills it and locks it.
fn fill_like<F: Files>(
    file: &mut Noted<F>,
    files: &F,
    name: &str,
    like: &Noted<F>,
    bytes: &[u8],
) -> Result<(), DeviceError>
where
    F::File: LockFile,
    requires made { noted_calls file.old ≡ open_call [] ∷ [] }
    ensures bytes { OnOk result (seen_after (noted_calls file.new) ≡ bytes.now) }
    ensures durable { OnOk result (Only bytes.now (MayLeave (noted_calls file.new))) }
    ensures locked { OnOk result (is_locked_after (noted_calls file.new) ≡ true) }
    ensures name { is_beside file.new ≡ is_beside file.old }
{
    let Ok(looks) = like.metadata() else {
        return Err(DeviceError::Failed);
    };
    if file.look_like(files, name, &looks).is_err() {
        return Err(DeviceError::Failed);
    }
    fill(file, bytes)?;
    if file.lock().is_err() {
        return Err(DeviceError::Failed);
    }
    Ok(())
}

/// Writes a file that was made, and puts it on the disk.
fn fill<F: Files>(file: &mut Noted<F>, bytes: &[u8]) -> Result<(), DeviceError>
    requires made { noted_calls file.old ≡ open_call [] ∷ [] }
    ensures bytes { OnOk result (seen_after (noted_calls file.new) ≡ bytes.now) }
    ensures durable { OnOk result (Only bytes.now (MayLeave (noted_calls file.new))) }
    ensures name { is_beside file.new ≡ is_beside file.old }
{
    write_all(file, 0, bytes)?;
    if file.sync().is_err() {
        return Err(DeviceError::Failed);
    }
    Ok(())
}

/// Gives the file beside the name of another one, and puts that on the disk.
///
/// # Errors
/// That of a call that failed. The disk has the one file or the other then.
pub(crate) fn put_in_place<F: Files + Drop, A: Allocator>(
    file: &mut Noted<F>,
    place: &Place<F, A>,
    name: &str,
    other: Noted<F>,
    bytes: &[u8],
) -> io::Result<()>
    requires beside { is_beside file.old ≡ true }
    requires names { name.now ≡ compaction_path (place_path place.now) }
    requires locked { is_locked_after (noted_calls file.old) ≡ true }
    requires other { is_beside other ≡ false }
    requires bytes { seen_after (noted_calls file.old) ≡ bytes.now }
    requires durable { Only bytes.now (MayLeave (noted_calls file.old)) }
    ensures placed { OnOk result (noted_calls file.new ≡ folder_sync_call true ∷ rename_call bytes.now true ∷ noted_calls other) }
    ensures unknown { OnErr result (IsUnplaced bytes.now (noted_calls other) (noted_calls file.new)) }
    ensures name { is_beside file.new ≡ false }
{
    file.take_name(place, name, other, bytes)?;
    file.sync_name(place)?;
    Ok(())
}
