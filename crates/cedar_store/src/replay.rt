//! The changes of a file, made again.

ghost use Rattle.std.specs.Prelude.{◌*◌, ◌+◌, ◌≡◌, IfErr, IfOk, OnOk, Some, option_map};
ghost use Rattle.cedar_store.specs.Words.{after, all_changed, batch_of, change_of, after_change};
ghost use Rattle.cedar_store.specs.Words.{payloads_read, new_state, put_of, records_read};
ghost use Rattle.cedar_store.specs.Words.{after_payloads, state_of, HasExtent, IsShortage};
ghost use Rattle.cedar_store.specs.Words.{AreUndamaged, LoadCause, ReplayCause};

use crate::DurableError;
use crate::words::{Made, Words};
use cedar_journal::{Extent, Format, HEADER_LEN, extent_of, first_payload, next_payload};
use cedarwood::{CedarError, MAX_VALUE};
use std::alloc::Allocator;

/// The operation of a payload that erases a key.
pub(crate) const ERASE: u8 = 0;

/// The operation of a payload that puts a value at a key.
pub(crate) const PUT: u8 = 1;

/// The operation of a payload that makes several changes.
pub const BATCH: u8 = 2;

/// Returns the dictionary that a file's bytes represent, and how far the file goes.
///
/// # Errors
/// `Foreign` if the file is of another kind, `Damaged` if a record is damaged, `Corrupt` if one is not a change, `Refused` if memory or
/// slots were refused.
pub fn words_of<T: Made<A>, A: Allocator>(
    alloc: A,
    bytes: &[u8],
) -> Result<(T, Extent), DurableError>
    requires limit { T.limit }
    //= A file's bytes are read as the dictionary that they represent. They are refused exactly as by an opening.
    //  [with extent, cause]
    ensures made { IfOk result (λ found. state_of bytes.now ≡ Some (T.state found.0)) }
    ensures extent { IfOk result (λ found. HasExtent bytes.now found.1) }
    ensures cause { IfErr result (λ error. LoadCause bytes.now error) }
{
    let extent = extent_of(bytes)?;
    let mut words = T::make(alloc)?;
    make_changes(&mut words, bytes, extent)?;
    Ok((words, extent))
}

/// Returns the dictionary that a store's bytes represent, for whoever only looks. Nothing is written, so the bytes may be those that
/// `read_file` of `cedar_disk` has read while another program changes the store.
///
/// # Errors
/// As of [`words_of`].
pub fn read_store<T: Made<A>, A: Allocator>(alloc: A, bytes: &[u8]) -> Result<T, DurableError>
    requires limit { T.limit }
    //= A store's bytes that are only looked at give the dictionary that they represent, and are refused as by an opening. [with cause]
    ensures made { IfOk result (λ words. state_of bytes.now ≡ Some (T.state words)) }
    ensures cause { IfErr result (λ error. LoadCause bytes.now error) }
{
    let (words, _) = words_of(alloc, bytes)?;
    Ok(words)
}

/// Makes the changes of a file that goes as far as this, in a new dictionary.
fn make_changes<T: Words>(words: &mut T, bytes: &[u8], extent: Extent) -> Result<(), DurableError>
    requires extent { HasExtent bytes.now extent }
    requires new { (T.state words.old) ≡ new_state }
    ensures state { OnOk result (state_of bytes.now ≡ Some (T.state words.new)) }
    ensures cause { IfErr result (λ error. LoadCause bytes.now error) }
{
    match extent {
        Extent::New => Ok(()),
        Extent::Until(format, _) => replay(words, format, &bytes[HEADER_LEN..]),
    }
}

/// Makes the changes of some records, one after another.
fn replay<T: Words>(words: &mut T, format: Format, bytes: &[u8]) -> Result<(), DurableError>
    requires sound { AreUndamaged format bytes.now }
    ensures state { OnOk result (after_payloads (T.state words.old) (payloads_read (records_read format bytes.now)) ≡ Some (T.state words.new)) }
    ensures cause { IfErr result (λ error. ReplayCause (after_payloads (T.state words.old) (payloads_read (records_read format bytes.now))) error) }
{
    let mut at = 0;
    while let Some(payload) = next_payload(format, &bytes[at..]) {
        apply(words, payload)?;
        at += format.overhead() + payload.len();
    }
    Ok(())
}

/// Makes the changes of a payload.
fn apply<T: Words>(words: &mut T, payload: &[u8]) -> Result<(), DurableError>
    ensures state { OnOk result (after (T.state words.old) payload.now ≡ Some (T.state words.new)) }
    ensures cause { IfErr result (λ error. ReplayCause (after (T.state words.old) payload.now) error) }
{
    if payload.is_empty() {
        return Err(DurableError::Corrupt);
    }
    if payload[0] == BATCH {
        return apply_batch(words, &payload[1..]);
    }
    apply_one(words, payload)
}

/// Makes the changes of a batch, whose records these bytes are, with nothing after them.
fn apply_batch<T: Words>(words: &mut T, bytes: &[u8]) -> Result<(), DurableError>
    ensures state { OnOk result (option_map (all_changed (T.state words.old)) (batch_of bytes.now) ≡ Some (T.state words.new)) }
    ensures cause { IfErr result (λ error. ReplayCause (option_map (all_changed (T.state words.old)) (batch_of bytes.now)) error) }
{
    let mut done = 0;
    while let Some(part) = first_payload(&bytes[done..]) {
        apply_one(words, part)?;
        done += 5 + part.len();
    }
    if done < bytes.len() {
        return Err(DurableError::Corrupt);
    }
    Ok(())
}

/// Makes the change of a payload that has one.
fn apply_one<T: Words>(words: &mut T, payload: &[u8]) -> Result<(), DurableError>
    ensures state { OnOk result (option_map (after_change (T.state words.old)) (change_of payload.now) ≡ Some (T.state words.new)) }
    ensures cause { IfErr result (λ error. ReplayCause (option_map (after_change (T.state words.old)) (change_of payload.now)) error) }
{
    if payload.is_empty() {
        return Err(DurableError::Corrupt);
    }
    let rest = &payload[1..];
    if payload[0] == ERASE {
        words.remove(rest);
        return Ok(());
    }
    if payload[0] == PUT {
        return put_again(words, rest);
    }
    Err(DurableError::Corrupt)
}

/// Puts the value of a payload without its operation.
fn put_again<T: Words>(words: &mut T, bytes: &[u8]) -> Result<(), DurableError>
    ensures state { OnOk result (option_map (after_change (T.state words.old)) (put_of bytes.now) ≡ Some (T.state words.new)) }
    ensures cause { IfErr result (λ error. ReplayCause (option_map (after_change (T.state words.old)) (put_of bytes.now)) error) }
{
    if bytes.len() < 4 {
        return Err(DurableError::Corrupt);
    }
    let value = number(bytes[0], bytes[1], bytes[2], bytes[3]);
    if value > MAX_VALUE as u32 {
        return Err(DurableError::Corrupt);
    }
    match words.put_over(&bytes[4..], value as i32) {
        Ok(()) => Ok(()),
        Err(error) => Err(refusal(error)),
    }
}

/// A number of four bytes, the lowest first.
fn number(a: u8, b: u8, c: u8, d: u8) -> u32
    ensures { result ≡ a + 256 * b + 65536 * c + 16777216 * d }
{
    a as u32 + 256 * (b as u32) + 65536 * (c as u32) + 16777216 * (d as u32)
}

/// What the refusal of a record's pair says: that memory or slots are wanting, or that the pair has a fault, which the store never writes.
fn refusal(error: CedarError) -> DurableError
    ensures shortage { IsShortage error → result ≡ DurableError.Refused error }
    ensures fault { (IsShortage error → ⊥) → result ≡ DurableError.Corrupt }
{
    match error {
        CedarError::Memory | CedarError::SlotLimit => DurableError::Refused(error),
        _ => DurableError::Corrupt,
    }
}
