//! Changes as records.

ghost use Rattle.std.specs.Prelude.{◌*◌, ◌+◌, ◌++◌, ◌<◌, ◌^◌, ◌≡◌, ◌∷◌, [], IfErr, IfOk};
ghost use Rattle.std.specs.Prelude.{None, OnOk, Some, length, pos};
ghost use Rattle.cedar_store.specs.Words.{batch_length, change_length, change_of, change_told};
ghost use Rattle.cedar_store.specs.Words.{changes_of, changes_told, erase_at, fault};
ghost use Rattle.cedar_store.specs.Words.{number_of_bytes, payload_of, put_at};
ghost use Rattle.cedar_store.specs.Words.{value_fault, AllByRecursion, FrameCause, IsFaultless};
ghost use Rattle.cedar_store.specs.Words.{IsRecorded, PayloadCause};

use crate::replay::{BATCH, ERASE, PUT};
use crate::{Change, DurableError};
use cedar_journal::{Frame, MAX_END, MAX_PAYLOAD};
use std::alloc::{AllocError, Allocator};

/// The record of a put, for a file whose records end here. The pair has no fault.
pub(crate) fn put_frame<A: Allocator + Copy>(
    alloc: A,
    end: usize,
    key: &[u8],
    value: i32,
) -> Result<Frame<A>, DurableError>
    requires { fault key.now value ≡ None }
    ensures change { IfOk result (λ frame. changes_of (payload_of frame) ≡ Some (put_at key.now value ∷ [])) }
    ensures length { IfOk result (λ frame. length (payload_of frame) ≡ length key.now + 5) }
    ensures room { OnOk result (end < 2 ^ 60) }
    ensures cause { IfErr result (λ error. FrameCause end (length key.now + 5) error) }
{
    let payload = put_payload(alloc, key, value)?;
    frame_of(alloc, end, &payload)
}

/// The record of an erasure, for a file whose records end here.
pub(crate) fn erase_frame<A: Allocator + Copy>(
    alloc: A,
    end: usize,
    key: &[u8],
) -> Result<Frame<A>, DurableError>
    ensures change { IfOk result (λ frame. changes_of (payload_of frame) ≡ Some (erase_at key.now ∷ [])) }
    ensures length { IfOk result (λ frame. length (payload_of frame) ≡ length key.now + 1) }
    ensures room { OnOk result (end < 2 ^ 60) }
    ensures cause { IfErr result (λ error. FrameCause end (length key.now + 1) error) }
{
    let payload = erase_payload(alloc, key)?;
    frame_of(alloc, end, &payload)
}

/// The record of a batch, for a file whose records end here. No pair has a fault.
pub(crate) fn batch_frame<A: Allocator + Copy>(
    alloc: A,
    end: usize,
    changes: &[Change<'_>],
) -> Result<Frame<A>, DurableError>
    requires { AllByRecursion IsFaultless (changes_told changes.now) }
    ensures change { IfOk result (λ frame. changes_of (payload_of frame) ≡ Some (changes_told changes.now)) }
    ensures length { IfOk result (λ frame. length (payload_of frame) ≡ batch_length (changes_told changes.now)) }
    ensures room { OnOk result (end < 2 ^ 60) }
    ensures cause { IfErr result (λ error. FrameCause end (batch_length (changes_told changes.now)) error) }
{
    let payload = batch_payload(alloc, changes)?;
    frame_of(alloc, end, &payload)
}

/// The record of a payload, for a file whose records end here.
fn frame_of<A: Allocator + Copy>(
    alloc: A,
    end: usize,
    payload: &[u8],
) -> Result<Frame<A>, DurableError>
    ensures payload { IfOk result (λ frame. payload_of frame ≡ payload.now) }
    ensures room { OnOk result (end < 2 ^ 60) }
    ensures cause { IfErr result (λ error. FrameCause end (length payload.now) error) }
{
    if end >= MAX_END {
        return Err(DurableError::Full);
    }
    Ok(Frame::new(alloc, payload)?)
}

/// Returns the payload of a put, and allocates as many bytes for it. The pair has no fault.
///
/// # Errors
/// If the allocation was refused.
pub fn put_payload<A: Allocator + Copy>(
    alloc: A,
    key: &[u8],
    value: i32,
) -> Result<Vec<u8, A>, AllocError>
    requires { fault key.now value ≡ None }
    //= The payload of a put has that change, and 5 bytes more than the key. [with length]
    ensures change { IfOk result (λ payload. change_of payload.items ≡ Some (put_at key.now value)) }

    //= Read as a list of changes, each of these payloads has its change alone. [also erase_payload]
    ensures alone { IfOk result (λ payload. changes_of payload.items ≡ Some (put_at key.now value ∷ [])) }
    ensures length { IfOk result (λ payload. length payload.items ≡ length key.now + 5) }
{
    let number = value as u32;
    let mut payload = Vec::with_capacity(alloc, key.len() + 5)?;
    payload.push(PUT)?;
    payload.push((number % 256) as u8)?;
    payload.push((number / 256 % 256) as u8)?;
    payload.push((number / 65536 % 256) as u8)?;
    payload.push((number / 16777216 % 256) as u8)?;
    payload.extend_from_slice(key)?;
    Ok(payload)
}

/// Returns the payload of an erasure, and allocates as many bytes for it.
///
/// # Errors
/// If the allocation was refused.
pub fn erase_payload<A: Allocator + Copy>(alloc: A, key: &[u8]) -> Result<Vec<u8, A>, AllocError>
    //= The payload of an erasure has that change, and one byte more than the key. [with length]
    ensures change { IfOk result (λ payload. change_of payload.items ≡ Some (erase_at key.now)) }
    ensures alone { IfOk result (λ payload. changes_of payload.items ≡ Some (erase_at key.now ∷ [])) }
    ensures length { IfOk result (λ payload. length payload.items ≡ length key.now + 1) }
{
    let mut payload = Vec::with_capacity(alloc, key.len() + 1)?;
    payload.push(ERASE)?;
    payload.extend_from_slice(key)?;
    Ok(payload)
}

/// The payload of a batch: after the operation, each change as a record of its own.
fn batch_payload<A: Allocator + Copy>(
    alloc: A,
    changes: &[Change<'_>],
) -> Result<Vec<u8, A>, DurableError>
    requires { AllByRecursion IsFaultless (changes_told changes.now) }
    ensures change { IfOk result (λ payload. changes_of payload.items ≡ Some (changes_told changes.now)) }
    ensures length { IfOk result (λ payload. length payload.items ≡ batch_length (changes_told changes.now)) }
    ensures cause { IfErr result (λ error. PayloadCause (batch_length (changes_told changes.now)) error) }
{
    let mut payload = Vec::with_capacity(alloc, batch_room(changes))?;
    payload.push(BATCH)?;
    for index in 0..changes.len() {
        push_change(&mut payload, &changes[index])?;
    }
    Ok(payload)
}

/// How many bytes the payload of a batch has, so that it is allocated once.
fn batch_room(changes: &[Change<'_>]) -> usize {
    let mut room: usize = 1;
    for change in changes {
        room = room.saturating_add(change_room(change));
    }
    room
}

/// How many bytes the record of a change has in a batch.
fn change_room(change: &Change<'_>) -> usize {
    match change {
        Change::Update { key, .. } => key.len().saturating_add(10),
        Change::Erase { key } => key.len().saturating_add(6),
    }
}

/// Writes a change as a record after some bytes: an open gate, the payload's length, and the payload.
fn push_change<A: Allocator>(
    bytes: &mut Vec<u8, A>,
    change: &Change<'_>,
) -> Result<(), DurableError>
    requires { IsFaultless (change_told change.now) }
    ensures pushed { OnOk result (IsRecorded (change_told change.now) bytes.old.items bytes.new.items) }
    ensures cause { IfErr result (λ error. PayloadCause (change_length (change_told change.now)) error) }
{
    match change {
        Change::Update { key, value } => push_put(bytes, key, *value),
        Change::Erase { key } => push_erase(bytes, key),
    }
}

/// Writes a put as a record after some bytes. The pair has no fault.
fn push_put<A: Allocator>(
    bytes: &mut Vec<u8, A>,
    key: &[u8],
    value: i32,
) -> Result<(), DurableError>
    requires { fault key.now value ≡ None }
    ensures pushed { OnOk result (IsRecorded (put_at key.now value) bytes.old.items bytes.new.items) }
    ensures cause { IfErr result (λ error. PayloadCause (length key.now + 5) error) }
{
    let len = key.len() + 5;
    if len > MAX_PAYLOAD {
        return Err(DurableError::TooLong);
    }
    let number = value as u32;
    let head = [
        1,
        (len % 256) as u8,
        (len / 256 % 256) as u8,
        (len / 65536 % 256) as u8,
        (len / 16777216 % 256) as u8,
        PUT,
        (number % 256) as u8,
        (number / 256 % 256) as u8,
        (number / 65536 % 256) as u8,
        (number / 16777216 % 256) as u8,
    ];
    bytes.extend_from_slice(&head)?;
    bytes.extend_from_slice(key)?;
    Ok(())
}

/// Writes an erasure as a record after some bytes.
fn push_erase<A: Allocator>(bytes: &mut Vec<u8, A>, key: &[u8]) -> Result<(), DurableError>
    ensures pushed { OnOk result (IsRecorded (erase_at key.now) bytes.old.items bytes.new.items) }
    ensures cause { IfErr result (λ error. PayloadCause (length key.now + 1) error) }
{
    let len = key.len() + 1;
    if len > MAX_PAYLOAD {
        return Err(DurableError::TooLong);
    }
    let head = [
        1,
        (len % 256) as u8,
        (len / 256 % 256) as u8,
        (len / 65536 % 256) as u8,
        (len / 16777216 % 256) as u8,
        ERASE,
    ];
    bytes.extend_from_slice(&head)?;
    bytes.extend_from_slice(key)?;
    Ok(())
}
