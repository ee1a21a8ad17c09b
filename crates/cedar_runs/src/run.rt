//! Calls of a store, one after another.

ghost use Rattle.std.specs.Prelude.{◌+◌, ◌≡◌, ◌≤◌, IfErr, IfOk, length, vec_capacity, vec_len};
ghost use Rattle.cedar_runs.specs.Words.{after_call, after_erase, after_put, all_changed};
ghost use Rattle.cedar_runs.specs.Words.{BeginsSession, changes_told, IsOpenCause, IsReadyStore};
ghost use Rattle.cedar_runs.specs.Words.{IsStoreStep};
ghost use Rattle.cedar_runs.specs.Words.{KeepsState, MakesStoreCalls, Only, outcome_of};
ghost use Rattle.cedar_runs.specs.Words.{outcome_of_compaction, outcome_of_erasure, point_of};

use crate::{Outcome, StoreCall};
use cedar_journal::{Device, ReplaceDevice};
use cedar_store::{Change, CompactError, DurableError, Made, Store, Words};
use std::alloc::Allocator;

/// Opens a store on a device that a crash may have left.
///
/// # Errors
/// As `Store::open`, with the device.
pub fn begin_session<T: Made<A>, A: Allocator + Copy, D: Device>(
    alloc: A,
    device: D,
) -> Result<Store<T, A, D>, (DurableError, D)>
    requires limit { T.limit }
    requires restarted { Only (D.seen device) (D.may_leave device) }
    //= An opening begins a session: the dictionary is the one that the file represents, and a crash while the file is opened, or once it
    //  was opened, leaves a file that represents it. The same holds of a crash if it isn't opened. [with ready, refused]
    ensures begins { IfOk result (λ store. BeginsSession D.seen D.moment D.left_since D.may_leave device (point_of T.state store)) }
    ensures ready { IfOk result (λ store. IsReadyStore D.seen D.may_leave T.state store) }
    ensures refused { IfErr result (λ e. KeepsState D.seen D.moment D.left_since device e.1) }

    //= No session begins only for a cause for which a store isn't opened, and the error tells which: the file is of another kind, a record
    //  is damaged or no change, memory or slots are wanting, or the device has failed or has no room. [by IsOpenCause]
    ensures cause { IfErr result (λ e. IsOpenCause D.seen D.faults D.full device e.1 e.0) }
{
    Store::open(alloc, device)
}

/// Makes some calls one after another, and adds what came of them, one outcome for each call. There has to be room for these.
pub fn run_store_calls<T: Words, A: Allocator + Copy, D: ReplaceDevice>(
    store: &mut Store<T, A, D>,
    calls: &[StoreCall<'_>],
    outcomes: &mut Vec<Outcome, A>,
)
    requires ready { IsReadyStore D.seen D.may_leave T.state store.old }
    requires room { vec_len outcomes.old + length calls.now ≤ vec_capacity outcomes.old }

    //= After calls of a store it is ready for further ones. [also make_store_call]
    ensures ready { IsReadyStore D.seen D.may_leave T.state store.new }
    //= Calls of a store are a run: one outcome for each call comes after those that were there, and each call begins with the dictionary
    //  and the disk that the one before it left. [with count; by AddsStoreRun, IsStoreRun]
    //= A crash at any moment of a call leaves a file that represents the dictionary after the calls that were acknowledged before it, or
    //  the one with the call under way. Once it is acknowledged, it represents only the dictionary with it. [by IsCallStep, IsKnown]
    //= A call in which nothing was to be done, or that was refused, leaves the dictionary as it was, and what a crash may leave. [by
    //  IsCallStep]
    //= If the device fails in a call, the dictionary has the change, and a crash leaves it with or without it. So it stays until a
    //  compaction is acknowledged: from then on a crash leaves it with the change. [by IsCallStep]
    ensures run { MakesStoreCalls D.moment D.left_since D.may_leave T.state store.old calls.now outcomes.old.items outcomes.new.items store.new }
    ensures count { vec_len outcomes.new ≡ vec_len outcomes.old + length calls.now }
{
    for index in 0..calls.len() {
        outcomes.push_reserved(make_store_call(store, &calls[index]));
    }
}

/// Makes a call.
pub fn make_store_call<T: Words, A: Allocator + Copy, D: ReplaceDevice>(
    store: &mut Store<T, A, D>,
    call: &StoreCall<'_>,
) -> Outcome
    requires ready { IsReadyStore D.seen D.may_leave T.state store.old }
    ensures ready { IsReadyStore D.seen D.may_leave T.state store.new }
    //= So is a single call a step of a run. [by IsCallStep]
    ensures step { IsStoreStep D.moment D.left_since D.may_leave T.state store.old (after_call (T.state store.old.words) call.now) result store.new }
{
    match call {
        StoreCall::Update { key, value } => update(store, key, *value),
        StoreCall::Erase { key } => erase(store, key),
        StoreCall::Batch { changes } => apply(store, changes),
        StoreCall::Compact => compact(store),
        StoreCall::Rule { compaction } => {
            store.set_compaction(*compaction);
            Outcome::Nothing
        }
    }
}

fn update<T: Words, A: Allocator + Copy, D: ReplaceDevice>(
    store: &mut Store<T, A, D>,
    key: &[u8],
    value: i32,
) -> Outcome
    requires ready { IsReadyStore D.seen D.may_leave T.state store.old }
    ensures ready { IsReadyStore D.seen D.may_leave T.state store.new }
    ensures step { IsStoreStep D.moment D.left_since D.may_leave T.state store.old (after_put (T.state store.old.words) key.now value) result store.new }
{
    match store.update_bytes(key, value) {
        Ok(()) => Outcome::Made,
        Err(error) => outcome_of(error),
    }
}

fn erase<T: Words, A: Allocator + Copy, D: ReplaceDevice>(
    store: &mut Store<T, A, D>,
    key: &[u8],
) -> Outcome
    requires ready { IsReadyStore D.seen D.may_leave T.state store.old }
    ensures ready { IsReadyStore D.seen D.may_leave T.state store.new }
    ensures step { IsStoreStep D.moment D.left_since D.may_leave T.state store.old (after_erase (T.state store.old.words) key.now) result store.new }
{
    match store.erase_bytes(key) {
        Ok(held) => outcome_of_erasure(held),
        Err(error) => outcome_of(error),
    }
}

fn apply<T: Words, A: Allocator + Copy, D: ReplaceDevice>(
    store: &mut Store<T, A, D>,
    changes: &[Change<'_>],
) -> Outcome
    requires ready { IsReadyStore D.seen D.may_leave T.state store.old }
    ensures ready { IsReadyStore D.seen D.may_leave T.state store.new }
    ensures step { IsStoreStep D.moment D.left_since D.may_leave T.state store.old (all_changed (T.state store.old.words) (changes_told changes.now)) result store.new }
{
    match store.apply_batch(changes) {
        Ok(()) => Outcome::Made,
        Err(error) => outcome_of(error),
    }
}

fn compact<T: Words, A: Allocator + Copy, D: ReplaceDevice>(store: &mut Store<T, A, D>) -> Outcome
    requires ready { IsReadyStore D.seen D.may_leave T.state store.old }
    ensures ready { IsReadyStore D.seen D.may_leave T.state store.new }
    ensures step { IsStoreStep D.moment D.left_since D.may_leave T.state store.old (T.state store.old.words) result store.new }
{
    match store.compact() {
        Ok(()) => Outcome::Made,
        Err(error) => outcome_of_compaction(error),
    }
}

/// What came of an erasure that found its key, or didn't.
fn outcome_of_erasure(held: bool) -> Outcome
    ensures { result ≡ outcome_of_erasure held }
{
    if held {
        Outcome::Made
    } else {
        Outcome::Nothing
    }
}

/// What an error of a compaction says came of it.
fn outcome_of_compaction(error: CompactError) -> Outcome
    ensures { result ≡ outcome_of_compaction error }
{
    match error {
        CompactError::Memory => Outcome::Nothing,
        CompactError::TooLong => Outcome::Nothing,
        CompactError::Kept(_) => Outcome::Nothing,
        CompactError::Failed => Outcome::Failed,
    }
}

/// What an error of a change says came of it.
fn outcome_of(error: DurableError) -> Outcome
    ensures { result ≡ outcome_of error }
{
    match error {
        DurableError::Device(_) => Outcome::Failed,
        DurableError::Foreign => Outcome::Nothing,
        DurableError::Damaged(_) => Outcome::Nothing,
        DurableError::Corrupt => Outcome::Nothing,
        DurableError::Refused(_) => Outcome::Nothing,
        DurableError::RefusedAt { .. } => Outcome::Nothing,
        DurableError::TooLong => Outcome::Nothing,
        DurableError::Full => Outcome::Nothing,
        DurableError::NoRoom => Outcome::Nothing,
        DurableError::Failed => Outcome::Nothing,
    }
}
