//! A journal on a device that may crash: records of bytes, each on the disk before it is acknowledged. What the bytes say is the caller's
//! business. A change that must be made whole or not at all is one record.
#![tactic(auto)]

mod device;
mod format;
mod frame;
mod image;
mod journal;
mod laws;
mod memory;
mod records;
mod repair;
mod replace;
mod tally;

pub use device::{Device, DeviceError};
pub use format::Format;
pub use frame::{Frame, FrameError, MAX_PAYLOAD, push_frame};
pub use image::Image;
pub use journal::{Journal, JournalError, MAX_END};
pub use laws::crashes_are_accepted;
pub use memory::Memory;
pub use records::{
    Extent, FileFault, HEADER_LEN, PLAIN_HEADER, SUMMED_HEADER, extent_of, first_payload,
    next_payload,
};
pub use replace::{ReplaceDevice, ReplaceError};
