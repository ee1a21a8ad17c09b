//! The records of changes, written into a buffer of the caller's.

ghost use Rattle.std.specs.Prelude.{◌≡◌, ◌+◌, ◌<◌, ◌^◌, ◌++◌, ◌∷◌, ℕ, IfErr, IfOk};
ghost use Rattle.std.specs.Prelude.{List, None, OnOk, length};
ghost use Rattle.cedar_c.specs.Words.{erase_at, fault, format_if, frame_of, IsRecord};
ghost use Rattle.cedar_c.specs.Words.{LacksRecord, opening, overhead, put_at};

use crate::save::copy_whole;
use crate::status::{MEMORY, NO_ROOM, OK, STORE_FULL, STORE_TOO_LONG};
use cedar_journal::{Format, FrameError, MAX_END};
use cedar_plan::record_of;
use cedar_store::{erase_payload, put_payload};
use std::alloc::Global;

/// Writes the record of a put into the first elements of a buffer, for a file with records of this format that end here, and returns how
/// many bytes it has. The pair has no fault.
///
/// # Errors
/// The number of why there is none: the records end too far back, the payload is too long, the buffer is too short, or an allocation was
/// refused.
pub(crate) fn write_put(
    alloc: Global,
    format: Format,
    end: usize,
    key: &[u8],
    value: i32,
    buffer: &mut [u8],
) -> Result<usize, u32>
    requires { fault key.now value ≡ None }
    ensures written { IfOk result (λ size. IsRecord (put_at key.now value) format end (length key.now + 5) size buffer.new) }
    ensures refused { IfErr result (λ status. LacksRecord format end (length key.now + 5) (length buffer.old) status) }
{
    match put_payload(alloc, key, value) {
        Ok(payload) => match write_record(alloc, format, end, &payload, buffer) {
            Ok(size) => Ok(size),
            Err(status) => Err(status),
        },
        Err(_) => Err(MEMORY),
    }
}

/// As `write_put`, of an erasure.
pub(crate) fn write_erasure(
    alloc: Global,
    format: Format,
    end: usize,
    key: &[u8],
    buffer: &mut [u8],
) -> Result<usize, u32>
    ensures written { IfOk result (λ size. IsRecord (erase_at key.now) format end (length key.now + 1) size buffer.new) }
    ensures refused { IfErr result (λ status. LacksRecord format end (length key.now + 1) (length buffer.old) status) }
{
    match erase_payload(alloc, key) {
        Ok(payload) => match write_record(alloc, format, end, &payload, buffer) {
            Ok(size) => Ok(size),
            Err(status) => Err(status),
        },
        Err(_) => Err(MEMORY),
    }
}

/// Writes the record of a payload into the first elements of a buffer, for a file with records of this format that end here.
fn write_record(
    alloc: Global,
    format: Format,
    end: usize,
    payload: &[u8],
    buffer: &mut [u8],
) -> Result<usize, u32>
    ensures size { IfOk result (λ size. size ≡ 1 + overhead format + length payload.now) }
    ensures short { OnOk result (length payload.now < 2 ^ 32) }
    ensures room { OnOk result (end < 2 ^ 60) }
    ensures written { OnOk result ((rest : List ℕ) × (buffer.new ≡ (opening format ∷ frame_of format payload.now) ++ rest)) }
    ensures refused { IfErr result (λ status. LacksRecord format end (length payload.now) (length buffer.old) status) }
{
    if end >= MAX_END {
        return Err(STORE_FULL);
    }
    match record_of(alloc, format, payload) {
        Ok(record) => match place(&record, buffer) {
            Ok(()) => Ok(record.len()),
            Err(status) => Err(status),
        },
        Err(FrameError::TooLong) => Err(STORE_TOO_LONG),
        Err(FrameError::Memory) => Err(MEMORY),
    }
}

/// The format of records that have a sum or not.
pub(crate) fn format_if(is_summed: bool) -> Format
    ensures { result ≡ format_if is_summed }
{
    if is_summed {
        Format::Summed
    } else {
        Format::Plain
    }
}

/// Writes some bytes into the first elements of a buffer.
///
/// # Errors
/// `NO_ROOM` if the buffer has fewer elements.
pub(crate) fn place(bytes: &[u8], buffer: &mut [u8]) -> Result<(), u32>
    ensures written { OnOk result ((rest : List ℕ) × (buffer.new ≡ bytes.now ++ rest)) }
    ensures refused { IfErr result (λ status. (status ≡ NO_ROOM) × (length buffer.old < length bytes.now)) }
{
    let mut needed = 0;
    match copy_whole(bytes, buffer, &mut needed) {
        OK => Ok(()),
        _ => Err(NO_ROOM),
    }
}
