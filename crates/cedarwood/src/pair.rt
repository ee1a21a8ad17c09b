//! The test of a pair before it is stored.

ghost use Rattle.std.specs.Prelude.{◌<◌, ◌==◌, ◌≡◌, get_or, IfSome, IsOk, None, position, ℕ};
ghost use Rattle.cedarwood.specs.Words.{fault, key_fault, value_fault};

use crate::{CedarError, MAX_VALUE, MIN_VALUE};

/// Tests a pair, as each call does that stores one: its key, and then its value.
///
/// ```
/// assert_eq!(rt; check_pair(b"net", 7), Ok(()));
/// assert_eq!(rt; check_pair(b"", 7), Err(CedarError::EmptyKey));
/// ```
///
/// # Errors
/// The pair's first fault of `EmptyKey`, `NulByte` and `InvalidValue`, in this order.
pub fn check_pair(key: &[u8], value: i32) -> Result<(), CedarError>
    //= `check_pair` returns the pair's first fault, and `Ok` if it has none. The bytes of a key are numbers below 256. [with sound, bytes]
    ensures faulty { IfSome (fault key.now value) (λ e. result ≡ Err e) }
    ensures sound { fault key.now value ≡ None → IsOk result }
    ensures bytes { (i : ℕ) → get_or key.now i 0 < 256 }
{
    check_key(key)?;
    check_value(value)
}

/// Tests that a key has a byte or more, and no byte 0.
fn check_key(key: &[u8]) -> Result<(), CedarError>
    ensures faulty { IfSome (key_fault key.now) (λ e. result ≡ Err e) }
    ensures sound { key_fault key.now ≡ None → IsOk result }
{
    if key.is_empty() {
        return Err(CedarError::EmptyKey);
    }
    match nul_position(key) {
        Some(position) => Err(CedarError::NulByte { position }),
        None => Ok(()),
    }
}

/// The position of a key's first byte 0.
fn nul_position(key: &[u8]) -> Option<usize>
    ensures { result ≡ position (λ byte. byte == 0) key.now }
{
    key.iter().position(|byte| *byte == 0)
}

/// Tests that a value can be stored.
fn check_value(value: i32) -> Result<(), CedarError>
    ensures faulty { IfSome (value_fault value) (λ e. result ≡ Err e) }
    ensures sound { value_fault value ≡ None → IsOk result }
{
    if (MIN_VALUE..=MAX_VALUE).contains(&value) {
        Ok(())
    } else {
        Err(CedarError::InvalidValue { value })
    }
}
