//! The lock on a file, which one opening at a time has.

use std::fs::{File, TryLockError};
use std::io::{self, ErrorKind};

/// A file that can be locked.
pub trait LockFile {
    /// Locks the file for this opening alone, until it is closed. It doesn't wait.
    ///
    /// # Errors
    /// `WouldBlock` if another opening of the file has it locked; otherwise that of the system.
    fn lock_alone(&self) -> io::Result<()>;
}

impl LockFile for File {
    fn lock_alone(&self) -> io::Result<()> {
        match self.try_lock() {
            Ok(()) => Ok(()),
            Err(TryLockError::WouldBlock) => Err(ErrorKind::WouldBlock.into()),
            Err(TryLockError::Error(error)) => Err(error),
        }
    }
}
