//! A record as it is written: made before anything is written, so that a lack of memory changes nothing.

ghost use Rattle.std.specs.Prelude.{◌+◌, ◌++◌, ◌<◌, ◌^◌, ◌≡◌, ◌≤◌, IfOk, IsErrOf, length, OnOk};
ghost use Rattle.cedar_journal.specs.Fields.{frame_of, length_bytes, Memory};
ghost use Rattle.cedar_journal.specs.Fields.{payload_of_frame, Summed};

use crate::Format;
use crc32c::crc32c_joined;
use std::alloc::{AllocError, AllocFailed, Allocator};

/// The length of the longest payload: four bytes hold it.
pub const MAX_PAYLOAD: usize = 4294967295;

/// Why no record can be made of a payload.
#[derive(Clone, Copy, Debug, PartialEq, Eq)]
pub enum FrameError {
    /// An allocation failed.
    Memory,
    /// The payload is longer than `MAX_PAYLOAD`.
    TooLong,
}

impl From<AllocError> for FrameError {
    //= A lack of memory for a frame becomes `Memory`.
    ghost from_gives = { λ _ e. e ≡ Memory };

    fn from(_: AllocError) -> Self {
        FrameError::Memory
    }
}

impl<T: Drop> From<AllocFailed<T>> for FrameError {
    //= So does a lack of room for one more byte.
    ghost from_gives = { λ _ e. e ≡ Memory };

    fn from(_: AllocFailed<T>) -> Self {
        FrameError::Memory
    }
}

/// A record without its gate, and with the closed gate after it, as it is written in either format.
#[derive(Drop)]
pub struct Frame<A: Allocator> {
    // That of version 2. Without its sum, which comes first, it is that of version 1.
    bytes: Vec<u8, A>,
    ghost framed: { bytes.items ≡ frame_of Summed (payload_of_frame bytes.items) },
    ghost short: { length bytes.items < 4294967305 },
    ghost some: { 9 ≤ length bytes.items },
}

impl<A: Allocator> Frame<A> {
    ghost use Rattle.cedar_journal.specs.Words.{overhead, payload_of};

    /// Returns the record of a payload. It allocates the payload's length and 9 bytes.
    ///
    /// # Errors
    /// `TooLong` if the payload is longer than `MAX_PAYLOAD`, `Memory` if the allocation failed.
    pub fn new(alloc: A, payload: &[u8]) -> Result<Frame<A>, FrameError>
        //= A frame has the payload that it was made from; exactly a payload of 2^32 bytes or more is refused as too long. [with long,
        //  refused]
        ensures payload { IfOk result (λ frame. payload_of frame ≡ payload.now) }
        ensures long { IsErrOf result FrameError.TooLong → 2 ^ 32 ≤ length payload.now }
        ensures refused { 2 ^ 32 ≤ length payload.now → IsErrOf result FrameError.TooLong }
    {
        if payload.len() > MAX_PAYLOAD {
            return Err(FrameError::TooLong);
        }
        let mut bytes = Vec::with_capacity(alloc, payload.len() + 9)?;
        push_frame(&mut bytes, payload)?;
        Ok(Frame { bytes })
    }

    /// Returns how many bytes the record has in a format, its gate included.
    pub fn len(&self, format: Format) -> usize
        //= A record has so many bytes as its payload and what its format adds.
        ensures { result ≡ overhead format + length (payload_of self.now) }
    {
        match format {
            Format::Plain => self.bytes.len() - 4,
            Format::Summed => self.bytes.len(),
        }
    }

    /// Returns what is written after the record's gate.
    pub(crate) fn bytes(&self, format: Format) -> &[u8]
        ensures bytes { result.now ≡ frame_of format (payload_of self.now) }
        ensures short { length (payload_of self.now) < 4294967296 }
    {
        match format {
            Format::Plain => &self.bytes[4..],
            Format::Summed => &self.bytes,
        }
    }
}

/// Adds what a record of version 2 has after its gate, and a closed gate after it, to some bytes.
///
/// # Errors
/// If an allocation failed. It allocates nothing if there is room for 9 bytes and the payload.
pub fn push_frame<A: Allocator>(bytes: &mut Vec<u8, A>, payload: &[u8]) -> Result<(), AllocError>
    requires { length payload.now < 4294967296 }
    //= The bytes of a record of version 2 are added to others: its sum, its length, the payload, and a closed gate.
    ensures { OnOk result (bytes.new.items ≡ bytes.old.items ++ frame_of Summed payload.now) }
{
    let length = digits(payload.len());
    let sum = digits(crc32c_joined(&length, payload) as usize);
    bytes.extend_from_slice(&sum)?;
    bytes.extend_from_slice(&length)?;
    bytes.extend_from_slice(payload)?;
    bytes.extend_from_slice(&[0])?;
    Ok(())
}

/// Returns a number in four bytes, the lowest first.
fn digits(number: usize) -> [u8; 4]
    ensures { result ≡ length_bytes number }
{
    [
        (number % 256) as u8,
        (number / 256 % 256) as u8,
        (number / 65536 % 256) as u8,
        (number / 16777216 % 256) as u8,
    ]
}
