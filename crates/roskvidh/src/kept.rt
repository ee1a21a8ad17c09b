//! What the opening of a store would cut off its file, kept beside it.

ghost use Rattle.std.specs.Prelude.{◌≡◌};
ghost use Rattle.roskvidh.specs.Words.{Only};

use crate::fault::Fault;
use cedar_disk::LockFile;
use cedar_journal::Device;
use cedar_salvage::{KeepError, keep_cut};
use cedarwood::Watched;
use std::alloc::Global;
use std::io::Write;
use std::rt::Files;

/// Keeps what the opening of the store on a device would cut off its file, if whole records may be in it, and returns where.
pub(crate) fn keep_and_tell<'m, D: Device, F: Files + Copy + Drop, E: Write>(
    alloc: Global,
    files: &F,
    device: &mut D,
    path: &'m str,
    errors: &mut Watched<E>,
) -> Result<(), Fault<'m>>
where
    F::File: LockFile,
    requires restarted { Only (D.seen device.old) (D.may_leave device.old) }
    ensures restarted { Only (D.seen device.new) (D.may_leave device.new) }
{
    match keep_cut(alloc, *files, device, path) {
        Ok(Some(kept)) => {
            tell_kept(errors, path, &kept.path);
            Ok(())
        }
        Ok(None) => Ok(()),
        Err(KeepError::Memory) => Err(Fault::Memory),
        Err(_) => Err(Fault::Unkept(path)),
    }
}

/// Tells where what is cut off a store is kept.
fn tell_kept<E: Write>(errors: &mut Watched<E>, path: &str, name: &str) {
    let _ = writeln!(
        errors,
        "roskvidh: {path}: what stood behind its end may have whole records, and is kept in {name}"
    );
}
