//! Payloads, and whether they are changes of a dictionary.

ghost use Rattle.std.specs.Prelude.{◌*◌, ◌+◌, ◌<◌, ◌==◌, ◌≡◌, get_or, IfSome, is_some};
ghost use Rattle.std.specs.Prelude.{length, not, position};
ghost use Rattle.cedar_salvage.specs.Words.{batch_of, change_of, is_change, is_kind};
ghost use Rattle.cedar_salvage.specs.Words.{key_fault, put_of};

use cedar_journal::first_payload;
use cedar_store::BATCH;
use cedarwood::MAX_VALUE;

/// The operation of a payload that erases a key.
const ERASE: u8 = 0;

/// The operation of a payload that puts a value at a key.
const PUT: u8 = 1;

/// What a change is.
#[derive(Clone, Copy, Debug, PartialEq, Eq)]
pub enum Kind {
    /// A value is put at a key.
    Put,
    /// A key is erased.
    Erasure,
    /// Several changes are made as one.
    Batch,
}

/// Returns what change a payload is, or None if it is none.
pub fn kind_of(payload: &[u8]) -> Option<Kind>
    //= A payload is found to be a change exactly if it is one, and of which kind. [with kind]
    ensures change { is_some result ≡ is_change payload.now }
    ensures kind { IfSome result (λ kind. is_kind (get_or payload.now 0 0) kind) }
{
    if payload.is_empty() {
        return None;
    }
    if payload[0] == BATCH {
        return batch_kind(&payload[1..]);
    }
    single_kind(payload)
}

/// Whether a payload is a change.
pub(crate) fn is_change(payload: &[u8]) -> bool
    ensures { result ≡ is_change payload.now }
{
    kind_of(payload).is_some()
}

/// The kind of a payload that is a batch, without its operation.
fn batch_kind(bytes: &[u8]) -> Option<Kind>
    ensures change { is_some result ≡ is_some (batch_of bytes.now) }
    ensures kind { IfSome result (λ kind. kind ≡ Kind.Batch) }
{
    if is_batch(bytes) {
        return Some(Kind::Batch);
    }
    None
}

/// The kind of a payload that has one change.
fn single_kind(payload: &[u8]) -> Option<Kind>
    requires some { 0 < length payload.now }
    ensures change { is_some result ≡ is_some (change_of payload.now) }
    ensures kind { IfSome result (λ kind. is_kind (get_or payload.now 0 0) kind) }
{
    if payload[0] == ERASE {
        return Some(Kind::Erasure);
    }
    if payload[0] == PUT {
        return put_kind(&payload[1..]);
    }
    None
}

/// The kind of a payload that puts a value, without its operation.
fn put_kind(bytes: &[u8]) -> Option<Kind>
    ensures change { is_some result ≡ is_some (put_of bytes.now) }
    ensures kind { IfSome result (λ kind. kind ≡ Kind.Put) }
{
    if is_put(bytes) {
        return Some(Kind::Put);
    }
    None
}

/// Whether these are the records of a batch, with nothing after them.
fn is_batch(bytes: &[u8]) -> bool
    ensures { result ≡ is_some (batch_of bytes.now) }
{
    let mut done = 0;
    while let Some(part) = first_payload(&bytes[done..]) {
        if !is_single(part) {
            return false;
        }
        done += 5 + part.len();
    }
    done == bytes.len()
}

/// Whether a payload has one change.
fn is_single(payload: &[u8]) -> bool
    ensures { result ≡ is_some (change_of payload.now) }
{
    if payload.is_empty() {
        return false;
    }
    single_kind(payload).is_some()
}

/// Whether these are a value in four bytes, and a key at which it can be put.
fn is_put(bytes: &[u8]) -> bool
    ensures { result ≡ is_some (put_of bytes.now) }
{
    if bytes.len() < 4 {
        return false;
    }
    if number(bytes[0], bytes[1], bytes[2], bytes[3]) > MAX_VALUE as usize {
        return false;
    }
    is_key(&bytes[4..])
}

/// Whether a key has a byte or more, and no byte 0.
fn is_key(key: &[u8]) -> bool
    ensures { result ≡ not (is_some (key_fault key.now)) }
{
    if key.is_empty() {
        return false;
    }
    match nul_position(key) {
        Some(_) => false,
        None => true,
    }
}

/// The position of a key's first byte 0.
fn nul_position(key: &[u8]) -> Option<usize>
    ensures { result ≡ position (λ byte. byte == 0) key.now }
{
    key.iter().position(|byte| *byte == 0)
}

/// A number of four bytes, the lowest first.
pub(crate) fn number(a: u8, b: u8, c: u8, d: u8) -> usize
    ensures { result ≡ a + 256 * b + 65536 * c + 16777216 * d }
{
    a as usize + 256 * (b as usize) + 65536 * (c as usize) + 16777216 * (d as usize)
}
