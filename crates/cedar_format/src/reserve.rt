//! Room for a table's lists.

ghost use Rattle.std.specs.Prelude.{◌*◌, ◌+◌, ◌<◌, ◌^◌, ◌≡◌, ◌≤◌, IfErr, OnOk};
ghost use Rattle.std.specs.Prelude.{vec_capacity, vec_len};
ghost use Rattle.cedar_format.specs.Words.{AllocationFailed, refusal_of};

use crate::error::CedarPersistenceError;
use crate::record::Record;
use cedar_slots::Ticks;
use std::alloc::Allocator;
use std::sync::ledger::Ledger;

/// Makes room for exactly `len` more elements.
///
/// # Errors
/// `AllocationFailed` with `len` if the allocation failed.
pub fn reserve_exact<T, A: Allocator>(
    vec: &mut Vec<T, A>,
    len: usize,
) -> Result<(), CedarPersistenceError>
    //= Room for so many more elements is made, or refused with their number; the elements stay. [with ok, err]
    ensures items { vec.new.items ≡ vec.old.items }
    ensures ok { OnOk result (vec_len vec.new + len ≤ vec_capacity vec.new) }

    //= If there was no room for more, there is room for exactly so many then.
    ensures exact { OnOk result (vec_capacity vec.old ≤ vec_len vec.old + len → vec_capacity vec.new ≡ vec_len vec.old + len) }
    ensures err { IfErr result (λ e. refusal_of e ≡ AllocationFailed len) }
{
    match vec.reserve_exact(len) {
        Ok(()) => Ok(()),
        Err(_) => Err(CedarPersistenceError::AllocationFailed { requested: len }),
    }
}

/// Makes room for exactly `len` more records, and counts the bytes that it requests from the allocator.
pub(crate) fn reserve_counted<T: Record, A: Allocator, C: Ledger>(
    vec: &mut Vec<T, A>,
    len: usize,
    asked: &mut Ticks<C>,
) -> Result<(), CedarPersistenceError>
    requires { len * T.LEN < 2 ^ 64 }
    ensures items { vec.new.items ≡ vec.old.items }
    ensures ok { OnOk result (vec_len vec.new + len ≤ vec_capacity vec.new) }
    ensures exact { OnOk result (vec_capacity vec.old ≤ vec_len vec.old + len → vec_capacity vec.new ≡ vec_len vec.old + len) }
    ensures err { IfErr result (λ e. refusal_of e ≡ AllocationFailed len) }
    ensures counted { asked.new ≡ asked.old + len * T.LEN }
{
    asked.add((len * T::LEN) as u64);
    reserve_exact(vec, len)
}
