//! New files, and what the system says of files: their owners and permissions, and which one is at a path.

ghost use Rattle.std.specs.Prelude.{◌≡◌, bit_and, false, true};
ghost use Rattle.std.specs.Fs.{metadata_mode, permissions_mode};

use std::fs::{self, Metadata, OpenFile, OpenOptions, Permissions};
use std::io;
use std::os::unix::fs::{MetadataExt, OpenOptionsExt, PermissionsExt, lchown};
use std::rt::Files;

/// The permissions of a file that is to take the place of another one, until it is whole.
pub const OWN_MODE: u32 = 0o600;

/// What a call that sets a file's permissions takes of a mode.
const MODE_BITS: u32 = 0o7777;

/// That without set-user-ID and set-group-ID, by which a program runs as the file's owner and group.
const MODE_BITS_OF_ANY_OWNER: u32 = 0o1777;

/// Makes a file to be written from its start on. Nothing that has the name is opened, and no link is followed.
pub fn make_new<F: Files>(files: &F, name: &str, mode: u32) -> io::Result<F::File> {
    OpenOptions::new()
        .write(true)
        .create_new(true)
        .mode(mode)
        .open(files, name)
}

/// Returns what is known of the file at a path, or None if nothing is there that a link leads to.
///
/// # Errors
/// `Unsupported` if something other than a file is there.
pub(crate) fn file_at<F: Files>(files: &F, path: &str) -> io::Result<Option<Metadata>> {
    match fs::metadata(files, path) {
        Ok(found) if found.is_file() => Ok(Some(found)),
        Ok(_) => Err(io::ErrorKind::Unsupported.into()),
        Err(error) if is_nothing(error.kind()) => Ok(None),
        Err(error) => Err(error),
    }
}

// Whether an error says that nothing is at a path: also where links only lead to each other.
fn is_nothing(kind: io::ErrorKind) -> bool {
    kind == io::ErrorKind::NotFound || kind == io::ErrorKind::FilesystemLoop
}

/// Gives a file beside another one that one's owner, as far as the system allows it, and its permissions, if the system has any. A file
/// that couldn't have both owner and group runs as neither.
pub fn look_like<F: Files>(
    file: &F::File,
    files: &F,
    name: &str,
    other: &Metadata,
) -> io::Result<()> {
    let is_kept = match file.metadata() {
        Ok(made) => keep_owner(files, name, &made, other),
        Err(_) => false,
    };
    match file.set_permissions(permissions_like(other, is_kept)) {
        Err(error) if error.kind() == io::ErrorKind::Unsupported => Ok(()),
        answer => answer,
    }
}

// The permissions of a file that is to look like another one. Whether it could have that one's owner and group decides whether it may run
// as these.
fn permissions_like(other: &Metadata, is_kept: bool) -> Permissions
    ensures kept { is_kept ≡ true → permissions_mode result ≡ bit_and (metadata_mode other.now) 0o7777 }
    ensures dropped { is_kept ≡ false → permissions_mode result ≡ bit_and (metadata_mode other.now) 0o1777 }
{
    let mode = other.permissions().mode();
    if is_kept {
        return Permissions::from_mode(mode & MODE_BITS);
    }
    Permissions::from_mode(mode & MODE_BITS_OF_ANY_OWNER)
}

// Gives the file of these looks the owner and group of another one, or else the group alone, as far as the system allows that. Returns
// whether it has both. This goes by the file's name, since `Files` has no such call on an open file: so only while the name leads to the
// file.
fn keep_owner<F: Files>(files: &F, name: &str, made: &Metadata, like: &Metadata) -> bool {
    if made.uid() == like.uid() && made.gid() == like.gid() {
        return true;
    }
    if !leads_to(files, name, made) {
        return false;
    }
    if lchown(files, name, Some(like.uid()), Some(like.gid())).is_ok() {
        return true;
    }
    let _ = lchown(files, name, None, Some(like.gid()));
    false
}

/// Whether a name is that of a file, and not of a link.
pub fn leads_to<F: Files>(files: &F, name: &str, file: &Metadata) -> bool {
    match fs::symlink_metadata(files, name) {
        Ok(found) => found.dev() == file.dev() && found.ino() == file.ino(),
        Err(_) => false,
    }
}
