//! A batch of changes, made in a dictionary.
//!
//! An update can be undone without memory, and an erasure can't: its key would need slots again. So the updates are made first, and the
//! erasures once nothing can be refused any more. One whose key a later change puts again isn't made at all. What each key holds in the end
//! is what its last change sets, so the tree is the one that all changes leave in their order.

ghost use Rattle.std.specs.Prelude.{◌+◌, ◌<◌, ◌^◌, ◌≡◌, ◌≤◌, ◌⊎◌, IfErr, IfOk, IfSome, List, OnErr};
ghost use Rattle.std.specs.Prelude.{OnOk, Some, drop, false, if◌then◌else◌, length, true, ℕ};
ghost use Rattle.cedar_store.specs.Words.{all_changed, all_erased_late, all_updated};
ghost use Rattle.cedar_store.specs.Words.{batch_length, change_at};
ghost use Rattle.cedar_store.specs.Words.{change_fault, change_told, changes_of, changes_told};
ghost use Rattle.cedar_store.specs.Words.{after_erase, first_refused, is_put_by, late_erased};
ghost use Rattle.cedar_store.specs.Words.{only_updated, payload_of, AllByRecursion, AreHeld};
ghost use Rattle.cedar_store.specs.Words.{AreLastPuts};
ghost use Rattle.cedar_store.specs.Words.{HasKey, IsFaultless, IsHeld, IsRefusedAt, IsShortage};
ghost use Rattle.cedar_store.specs.Words.{PrepareCause, State};

use crate::faults::first_refused;
use crate::frames::batch_frame;
use crate::last_puts::{LastPuts, updates_end};
use crate::words::{Words, take_back};
use crate::{Change, DurableError};
use cedar_journal::Frame;
use cedarwood::CedarError;
use std::alloc::Allocator;

/// A batch whose updates are made, and whose record isn't written.
#[derive(Drop)]
pub(crate) struct Prepared<A: Allocator> {
    /// The record.
    pub(crate) frame: Frame<A>,
    /// What the key of each update held before it.
    pub(crate) held: Vec<Option<i32>, A>,
    /// Which keys are put behind each erasure.
    pub(crate) puts: LastPuts<A>,
}

/// Makes the updates of a batch in a dictionary whose labels ascend, and the batch's record for a file whose records end here. If anything is
/// refused, the dictionary stays as it was. `erase_rest` makes the rest, and `take_all_back` undoes it. Neither allocates.
pub(crate) fn make<T: Words, A: Allocator + Copy>(
    words: &mut T,
    alloc: A,
    end: usize,
    changes: &[Change<'_>],
) -> Result<Prepared<A>, DurableError>
    requires { (T.state words.old).ordered ≡ true }
    ensures updated { OnOk result ((T.state words.new) ≡ all_updated (T.state words.old) (changes_told changes.now)) }
    ensures made { OnOk result (all_erased_late (T.state words.new) (changes_told changes.now) ≡ all_changed (T.state words.old) (changes_told changes.now)) }
    ensures held { IfOk result (λ batch. AreHeld (T.state words.old) (changes_told changes.now) batch.held.items) }
    ensures long { IfOk result (λ batch. length changes.now ≤ length batch.held.items) }
    ensures faultless { OnOk result (AllByRecursion IsFaultless (changes_told changes.now)) }
    ensures change { IfOk result (λ batch. changes_of (payload_of batch.frame) ≡ Some (changes_told changes.now)) }
    ensures length { IfOk result (λ batch. length (payload_of batch.frame) ≡ batch_length (changes_told changes.now)) }
    ensures puts { IfOk result (λ batch. AreLastPuts batch.puts.heads.items batch.puts.links.items (changes_told changes.now)) }
    ensures room { OnOk result (end < 2 ^ 60) }
    ensures faulty { IfSome (first_refused 0 (changes_told changes.now)) (λ error. result ≡ Err error) }
    ensures err { OnErr result ((T.state words.new) ≡ (T.state words.old)) }
    ensures cause { IfErr result (λ error. PrepareCause (changes_told changes.now) end error) }
{
    // A dictionary is sound, and its labels ascend: so what each key holds decides its tree.
    let _ = words.count();
    match prepare(words, alloc, end, changes) {
        Ok(batch) => Ok(batch),
        Err(error) => Err(reason(changes, end, error)),
    }
}

/// Why a batch isn't made: its first fault, whatever came before that, or else what kept it from being prepared.
fn reason(changes: &[Change<'_>], end: usize, error: DurableError) -> DurableError
    requires { PrepareCause (changes_told changes.now) end error }
    ensures fault { IfSome (first_refused 0 (changes_told changes.now)) (λ told. result ≡ told) }
    ensures cause { PrepareCause (changes_told changes.now) end result }
{
    match first_refused(changes) {
        Some(told) => told,
        None => error,
    }
}

/// Makes the updates of a batch, and the batch's record for a file whose records end here. If anything is refused, no update stays.
fn prepare<T: Words, A: Allocator + Copy>(
    words: &mut T,
    alloc: A,
    end: usize,
    changes: &[Change<'_>],
) -> Result<Prepared<A>, DurableError>
    ensures updated { OnOk result ((T.state words.new) ≡ all_updated (T.state words.old) (changes_told changes.now)) }
    ensures held { IfOk result (λ batch. AreHeld (T.state words.old) (changes_told changes.now) batch.held.items) }
    ensures long { IfOk result (λ batch. length changes.now ≤ length batch.held.items) }
    ensures keys { OnOk result (AllByRecursion HasKey (changes_told changes.now)) }
    ensures faultless { OnOk result (AllByRecursion IsFaultless (changes_told changes.now)) }
    ensures change { IfOk result (λ batch. changes_of (payload_of batch.frame) ≡ Some (changes_told changes.now)) }
    ensures length { IfOk result (λ batch. length (payload_of batch.frame) ≡ batch_length (changes_told changes.now)) }
    ensures puts { IfOk result (λ batch. AreLastPuts batch.puts.heads.items batch.puts.links.items (changes_told changes.now)) }
    ensures room { OnOk result (end < 2 ^ 60) }
    ensures err { OnErr result ((T.state words.new) ≡ (T.state words.old)) }
    ensures cause { IfErr result (λ error. PrepareCause (changes_told changes.now) end error) }
{
    let mut held = Vec::with_capacity(alloc, changes.len())?;
    held.resize(changes.len(), None)?;
    let puts = LastPuts::new(alloc, changes)?;
    update_all(words, changes, &mut held)?;
    match batch_frame(alloc, end, changes) {
        Ok(frame) => Ok(Prepared { frame, held, puts }),
        Err(error) => {
            take_all_back(words, changes, &held);
            Err(error)
        }
    }
}

/// Makes the updates among some changes, and notes what each key held before. If one is refused, none stays.
fn update_all<T: Words>(
    words: &mut T,
    changes: &[Change<'_>],
    held: &mut [Option<i32>],
) -> Result<(), DurableError>
    requires { length held.old ≡ length changes.now }
    ensures updated { OnOk result ((T.state words.new) ≡ all_updated (T.state words.old) (changes_told changes.now)) }
    ensures held { OnOk result (AreHeld (T.state words.old) (changes_told changes.now) held.new) }
    ensures keys { OnOk result (AllByRecursion HasKey (changes_told changes.now)) }
    ensures faultless { OnOk result (AllByRecursion IsFaultless (changes_told changes.now)) }
    ensures err { OnErr result ((T.state words.new) ≡ (T.state words.old)) }
    ensures cause { IfErr result (λ error. IsRefusedAt (changes_told changes.now) error) }
{
    for index in 0..changes.len() {
        match update_one(words, &changes[index]) {
            Ok(before) => held[index] = before,
            Err(error) => {
                take_all_back(words, &changes[..index], held);
                return Err(DurableError::RefusedAt { index, error });
            }
        }
    }
    Ok(())
}

/// Makes a change if it is an update, and returns what its key held before.
fn update_one<T: Words>(words: &mut T, change: &Change<'_>) -> Result<Option<i32>, CedarError>
    ensures updated { OnOk result ((T.state words.new) ≡ only_updated (T.state words.old) (change_told change.now)) }
    ensures held { IfOk result (λ held. IsHeld (T.state words.old) (change_told change.now) held) }
    ensures key { OnOk result (HasKey (change_told change.now)) }
    ensures faultless { OnOk result (IsFaultless (change_told change.now)) }
    ensures err { OnErr result ((T.state words.new) ≡ (T.state words.old)) }
    ensures cause { IfErr result (λ error. (change_fault (change_told change.now) ≡ Some error) ⊎ IsShortage error) }
{
    match change {
        Change::Update { key, value } => {
            let held = words.put(key, *value)?;
            // A dictionary is sound, and holds the key: so it is one.
            let _ = words.count();
            Ok(held)
        }
        Change::Erase { .. } => Ok(None),
    }
}

/// Takes the updates among some changes back, whose keys held this before, the last one first. It allocates nothing.
pub(crate) fn take_all_back<T: Words>(words: &mut T, changes: &[Change<'_>], held: &[Option<i32>])
    requires { length changes.now ≤ length held.now }
    ensures { (s : State) → AreHeld s (changes_told changes.now) held.now → T.state words.old ≡ all_updated s (changes_told changes.now) → T.state words.new ≡ s }
{
    let mut left = changes.len();
    while left > 0 {
        left -= 1;
        take_one_back(words, &changes[left], held[left]);
    }
}

/// Takes a change back if it is an update, whose key held this before.
fn take_one_back<T: Words>(words: &mut T, change: &Change<'_>, held: Option<i32>)
    ensures { (s : State) → IsHeld s (change_told change.now) held → T.state words.old ≡ only_updated s (change_told change.now) → T.state words.new ≡ s }
{
    match change {
        Change::Update { key, .. } => take_back(words, key, held),
        Change::Erase { .. } => {}
    }
}

/// Makes the erasures among some changes, but of keys that a later change puts.
pub(crate) fn erase_rest<T: Words, A: Allocator + Copy>(
    words: &mut T,
    changes: &[Change<'_>],
    puts: &LastPuts<A>,
)
    requires { AreLastPuts puts.now.heads.items puts.now.links.items (changes_told changes.now) }
    ensures { (T.state words.new) ≡ all_erased_late (T.state words.old) (changes_told changes.now) }
{
    let end = updates_end(changes);
    for index in 0..changes.len() {
        erase_late(words, changes, puts, index, end);
    }
}

/// Makes the change at an index if it is an erasure, unless a later change puts its key. The updates end here.
fn erase_late<T: Words, A: Allocator + Copy>(
    words: &mut T,
    changes: &[Change<'_>],
    puts: &LastPuts<A>,
    index: usize,
    end: usize,
)
    requires linked { AreLastPuts puts.now.heads.items puts.now.links.items (changes_told changes.now) }
    requires inside { index < length changes.now }
    requires within { end ≤ length changes.now }
    requires no_more { (path : List ℕ) → is_put_by path (drop end (changes_told changes.now)) ≡ false }
    ensures { (T.state words.new) ≡ late_erased (T.state words.old) (change_at (changes_told changes.now) index) (drop (index + 1) (changes_told changes.now)) }
{
    match &changes[index] {
        Change::Update { .. } => {}
        Change::Erase { key } => {
            erase_unless(words, key, puts.is_put(key, changes, index + 1, end))
        }
    }
}

/// Erases a key, unless a later change puts it.
fn erase_unless<T: Words>(words: &mut T, key: &[u8], put: bool)
    ensures { (T.state words.new) ≡ (if put then (T.state words.old) else after_erase (T.state words.old) key.now) }
{
    if !put {
        words.remove(key);
    }
}
