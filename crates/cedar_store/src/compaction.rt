//! When a file is compacted, and why it wasn't.

ghost use Rattle.std.specs.Prelude.{◌≡◌};
ghost use Rattle.cedar_store.specs.Words.{compact_error, compact_error_text, CompactMemory};
ghost use Rattle.cedar_store.specs.Words.{default_rule, is_beyond, replace_error, Some};

use cedar_journal::{DeviceError, FrameError, ReplaceError};
use std::alloc::AllocError;
use std::error::Error;
use std::fmt;

/// When a store compacts its file by itself, at the end of a change.
#[derive(Clone, Copy, Debug, PartialEq, Eq)]
pub enum Compaction {
    /// Never: only `compact` does it, and each change makes the file longer.
    Never,
    /// If the file is longer than `factor` times what its entries take, and `spare` bytes more.
    Beyond {
        /// A factor below 2 counts as 2: otherwise the cost wouldn't be linear in what is written.
        factor: usize,
        /// So many bytes a file may always be too long.
        spare: usize,
    },
}

impl Default for Compaction {
    //= The rule of a store that was opened is: twice what the entries take, and 64 KiB.
    ghost is_default = { λ rule. rule ≡ default_rule };

    /// Twice what the entries take, and 64 KiB.
    fn default() -> Self {
        Compaction::Beyond {
            factor: 2,
            spare: 65536,
        }
    }
}

impl Compaction {
    /// Whether a file whose records end here is too long for so many bytes.
    pub(crate) fn is_beyond(self, bytes: usize, end: usize) -> bool
        ensures { result ≡ is_beyond self bytes end }
    {
        match self {
            Compaction::Never => false,
            Compaction::Beyond { factor, spare } => {
                let more = bytes.saturating_mul(factor.max(2) - 1);
                bytes.saturating_add(more).saturating_add(spare) < end
            }
        }
    }
}

/// Why a file wasn't compacted. What was acknowledged stays in any case.
#[derive(Clone, Copy, Debug, PartialEq, Eq)]
pub enum CompactError {
    /// An allocation was refused. Nothing has changed.
    Memory,
    /// The record of an entry would have 2^32 bytes or more. Nothing has changed.
    TooLong,
    /// The device kept the file as it was. Nothing has changed.
    Kept(DeviceError),
    /// The device failed: the old file is there or the new one. Open the file again, and compact it then.
    Failed,
}

impl From<AllocError> for CompactError {
    //= Lack of memory for a compaction is reported as `Memory`.
    ghost from_gives = { λ _ error. error ≡ CompactMemory };

    fn from(_: AllocError) -> CompactError {
        CompactError::Memory
    }
}

impl From<FrameError> for CompactError {
    //= The reason why no record of an entry could be made is passed on.
    ghost from_gives = { λ inner error. error ≡ compact_error inner };

    fn from(inner: FrameError) -> CompactError {
        match inner {
            FrameError::Memory => CompactError::Memory,
            FrameError::TooLong => CompactError::TooLong,
        }
    }
}

impl From<ReplaceError> for CompactError {
    //= The reason why the file wasn't replaced is passed on.
    ghost from_gives = { λ inner error. error ≡ replace_error inner };

    fn from(inner: ReplaceError) -> CompactError {
        match inner {
            ReplaceError::Kept(error) => CompactError::Kept(error),
            ReplaceError::Failed => CompactError::Failed,
        }
    }
}

impl fmt::Display for CompactError {
    //= So is the text of each error of a compaction. [by compact_error_text]
    ghost output = { λ error. Some (compact_error_text error) };

    fn fmt<W: fmt::Write>(&self, f: &mut fmt::Formatter<W>) -> fmt::Result {
        match self {
            CompactError::Memory => f.write_str("out of memory: the file is as it was"),
            CompactError::TooLong => f.write_str(
                "the record of an entry would have 2^32 bytes or more",
            ),
            CompactError::Kept(DeviceError::Memory) => {
                f.write_str("the device is out of memory: the file is as it was")
            }
            CompactError::Kept(DeviceError::NoRoom) => {
                f.write_str("the device has no room: the file is as it was")
            }
            CompactError::Kept(DeviceError::Failed) => {
                f.write_str("the device kept the file as it was")
            }
            CompactError::Failed => {
                f.write_str("the device failed: the old file is there or the new one")
            }
        }
    }
}

impl Error for CompactError {}
