//! Why a call of a store is refused, and the texts of that, each of which a contract knows byte by byte.

ghost use Rattle.std.specs.Prelude.{◌≡◌};
ghost use Rattle.cedar_store.specs.Words.{durable_error_text, file_error, frame_error};
ghost use Rattle.cedar_store.specs.Words.{journal_error, Device, Full, Memory, Refused, Some};
ghost use Rattle.cedar_store.specs.Words.{TooLong};

use cedar_journal::{DeviceError, FileFault, FrameError, JournalError};
use cedarwood::CedarError;
use std::alloc::{AllocError, AllocFailed};
use std::error::Error;
use std::fmt;

/// Why a call of a store was refused.
#[derive(Clone, Debug, Drop, PartialEq, Eq)]
pub enum DurableError {
    /// The file is of another kind. Nothing has been written.
    Foreign,
    /// A record of the file is not a change of a dictionary. Nothing has been written.
    Corrupt,
    /// The record that begins at this byte of the file was changed by somebody else: it isn't whole, or has another sum. Nothing has been
    /// written.
    Damaged(usize),
    /// The pair has a fault, or memory or slots were refused. Nothing has changed.
    Refused(CedarError),
    /// A change of a batch has a fault, or if none has one, memory or slots were refused for it. Nothing has changed.
    RefusedAt {
        /// The index of the change, counted from 0.
        index: usize,
        /// The error of the change's own update.
        error: CedarError,
    },
    /// The change has 2^32 bytes or more. Nothing has changed.
    TooLong,
    /// The file's records end after 2^60 bytes. Nothing has changed.
    Full,
    /// There was no room for the record: on the disk, in what the owner may have of it, or in what the process may write. Nothing has
    /// changed, and the store goes on.
    NoRoom,
    /// The device failed. In a change: the dictionary has it, and the file has it or not. From then on each change is refused by `Failed`,
    /// until `compact` has written the dictionary to a new file.
    Device(DeviceError),
    /// The device failed in an earlier change. Nothing has changed: compact the store, or open the file again and compact it then.
    Failed,
}

impl From<FileFault> for DurableError {
    //= A file of another kind is reported as `Foreign`, and one with a damaged record as `Damaged`, with the record's position.
    ghost from_gives = { λ fault error. error ≡ file_error fault };

    fn from(fault: FileFault) -> DurableError {
        match fault {
            FileFault::Foreign => DurableError::Foreign,
            FileFault::Damaged(at) => DurableError::Damaged(at),
        }
    }
}

impl From<CedarError> for DurableError {
    //= What a dictionary refuses is passed on as `Refused`.
    ghost from_gives = { λ inner error. error ≡ Refused inner };

    fn from(inner: CedarError) -> DurableError {
        DurableError::Refused(inner)
    }
}

impl From<AllocError> for DurableError {
    //= Lack of memory is reported as `Memory`.
    ghost from_gives = { λ _ error. error ≡ Refused Memory };

    fn from(_: AllocError) -> DurableError {
        DurableError::Refused(CedarError::Memory)
    }
}

impl<T: Drop> From<AllocFailed<T>> for DurableError {
    //= So is lack of room for one value more.
    ghost from_gives = { λ _ error. error ≡ Refused Memory };

    fn from(_: AllocFailed<T>) -> DurableError {
        DurableError::Refused(CedarError::Memory)
    }
}

impl From<FrameError> for DurableError {
    //= The reason why no record could be made is passed on.
    ghost from_gives = { λ inner error. error ≡ frame_error inner };

    fn from(inner: FrameError) -> DurableError {
        match inner {
            FrameError::Memory => DurableError::Refused(CedarError::Memory),
            FrameError::TooLong => DurableError::TooLong,
        }
    }
}

impl From<JournalError> for DurableError {
    //= The reason why a record wasn't written is passed on.
    ghost from_gives = { λ inner error. error ≡ journal_error inner };

    fn from(inner: JournalError) -> DurableError {
        match inner {
            JournalError::Full => DurableError::Full,
            JournalError::NoRoom => DurableError::NoRoom,
            JournalError::Device(error) => DurableError::Device(error),
        }
    }
}

impl From<DeviceError> for DurableError {
    //= A device's error is passed on as `Device`.
    ghost from_gives = { λ inner error. error ≡ Device inner };

    fn from(inner: DeviceError) -> DurableError {
        DurableError::Device(inner)
    }
}

impl fmt::Display for DurableError {
    //= The text of each error of a store is given byte by byte. [by durable_error_text]
    ghost output = { λ error. Some (durable_error_text error) };

    fn fmt<W: fmt::Write>(&self, f: &mut fmt::Formatter<W>) -> fmt::Result {
        match self {
            DurableError::Foreign => f.write_str("the file is of another kind"),
            DurableError::Corrupt => f.write_str(
                "a record of the file is no change of a dictionary",
            ),
            DurableError::Damaged(at) => write!(
                f,
                "the record at byte {at} of the file is damaged"
            ),
            DurableError::Refused(error) => write!(f, "{error}"),
            DurableError::RefusedAt { index, error } => {
                write!(f, "change {index} of the batch: {error}")
            }
            DurableError::TooLong => f.write_str("the record would have 2^32 bytes or more"),
            DurableError::Full => f.write_str("the records of the file end behind 2^60 bytes"),
            DurableError::NoRoom => f.write_str("there is no room for the record"),
            DurableError::Device(DeviceError::Memory) => f.write_str("the device is out of memory"),
            DurableError::Device(DeviceError::NoRoom) => f.write_str("the device has no room"),
            DurableError::Device(DeviceError::Failed) => f.write_str("the device failed"),
            DurableError::Failed => {
                f.write_str("the device failed in an earlier change: compact the store")
            }
        }
    }
}

impl Error for DurableError {}
