//! Which keys a batch puts behind one of its changes.
//!
//! Each erasure of a batch asks whether a later change puts its key. To look through all later changes would take time that grows with
//! the square of the batch. So the updates of a long batch are linked: each to the one before it whose key has the same place, which is a
//! sum over the key's bytes. Where few changes share a place, an answer takes the same time however long the batch is.

ghost use Rattle.std.specs.Prelude.{◌<◌, ◌≡◌, ◌≤◌, fold, IfOk, List, [], drop, false, length};
ghost use Rattle.std.specs.Prelude.{replicate, ℕ};
ghost use Rattle.cedar_store.specs.Words.{AreLastPuts, AreLinkedPuts, change_told, changes_told};
ghost use Rattle.cedar_store.specs.Words.{heads_with, is_put_by, key_place, links_with, puts};
ghost use Rattle.cedar_store.specs.Words.{sum_with};

use crate::Change;
use std::alloc::{AllocError, Allocator};

/// From how many changes on the updates of a batch are linked. The later changes of fewer are looked through faster.
const LINKED_FROM: usize = 128;

/// The updates of a batch, linked by the places of their keys. Without memory if they aren't linked.
#[derive(Drop)]
pub(crate) struct LastPuts<A: Allocator> {
    // By place: 1 + the index of the last update whose key has it, or 0 if none has. Empty if the updates aren't linked.
    pub(crate) heads: Vec<usize, A>,
    // By the index of an update: 1 + the index of the last one before it whose key has the same place, or 0 if none has.
    pub(crate) links: Vec<usize, A>,
}

impl<A: Allocator + Copy> LastPuts<A> {
    /// Those of a batch whose updates aren't linked. It allocates nothing.
    pub(crate) fn unlinked(alloc: A) -> Self
        ensures { result.heads.items ≡ [] }
    {
        LastPuts {
            heads: Vec::new(alloc),
            links: Vec::new(alloc),
        }
    }

    /// Links the updates of a batch, if that makes its erasures faster. It allocates 16 bytes for each change then, and else nothing.
    pub(crate) fn new(alloc: A, changes: &[Change<'_>]) -> Result<Self, AllocError>
        ensures { IfOk result (λ puts. AreLastPuts puts.heads.items puts.links.items (changes_told changes.now)) }
    {
        if changes.len() < LINKED_FROM || !is_erased_before_puts(changes) {
            return Ok(LastPuts::unlinked(alloc));
        }
        let mut heads = zeros(alloc, changes.len())?;
        let mut links = zeros(alloc, changes.len())?;
        link_all(&mut heads, &mut links, changes);
        Ok(LastPuts { heads, links })
    }

    /// Whether one of some changes from an index on puts a value at a key. The updates end here.
    pub(crate) fn is_put(&self, key: &[u8], changes: &[Change<'_>], next: usize, end: usize) -> bool
        requires linked { AreLastPuts self.now.heads.items self.now.links.items (changes_told changes.now) }
        requires within { end ≤ length changes.now }
        requires no_more { (path : List ℕ) → is_put_by path (drop end (changes_told changes.now)) ≡ false }
        ensures { result ≡ is_put_by key.now (drop next (changes_told changes.now)) }
    {
        if self.heads.is_empty() || next >= end {
            is_among(key, changes, next, end)
        } else {
            is_linked(&self.heads, &self.links, key, changes, next)
        }
    }
}

/// As many zeros.
fn zeros<A: Allocator>(alloc: A, count: usize) -> Result<Vec<usize, A>, AllocError>
    ensures { IfOk result (λ zeros. zeros.items ≡ replicate count 0) }
{
    let mut zeros = Vec::with_capacity(alloc, count)?;
    zeros.resize(count, 0)?;
    Ok(zeros)
}

/// Links the updates among some changes. There are as many places as changes.
fn link_all(heads: &mut [usize], links: &mut [usize], changes: &[Change<'_>])
    requires places { heads.old ≡ replicate (length changes.now) 0 }
    requires unlinked { length links.old ≡ length changes.now }
    ensures { AreLinkedPuts heads.new links.new (changes_told changes.now) (length changes.now) }
{
    for index in 0..changes.len() {
        link(heads, links, index, &changes[index]);
    }
}

/// Links the change at an index, if it is an update, to the last one before it whose key has the same place.
fn link(heads: &mut [usize], links: &mut [usize], index: usize, change: &Change<'_>)
    requires some { 0 < length heads.old }
    requires within { index < length links.old }
    ensures heads { heads.new ≡ heads_with heads.old index (change_told change.now) }
    ensures links { links.new ≡ links_with heads.old links.old index (change_told change.now) }
{
    match change {
        Change::Update { key, .. } => {
            let place = place_of(key, heads.len());
            links[index] = heads[place];
            heads[place] = index + 1;
        }
        Change::Erase { .. } => {}
    }
}

/// The place of a key, of so many.
#[tactic(auto, unfolding(crate::specs::Links::key_place))]
fn place_of(key: &[u8], places: usize) -> usize
    requires { 0 < places }
    ensures is { result ≡ key_place places key.now }
    ensures inside { result < places }
{
    sum_of(key) % places
}

/// The sum over a key's bytes.
fn sum_of(key: &[u8]) -> usize
    ensures { result ≡ fold sum_with 0 key.now }
{
    let mut sum = 0;
    for byte in key {
        sum = (sum + *byte as usize) * 16777619 % 4294967296;
    }
    sum
}

/// Whether one of some linked changes from an index on puts a value at a key.
fn is_linked(
    heads: &[usize],
    links: &[usize],
    key: &[u8],
    changes: &[Change<'_>],
    next: usize,
) -> bool
    requires some { 0 < length heads.now }
    requires linked { AreLinkedPuts heads.now links.now (changes_told changes.now) (length changes.now) }
    ensures { result ≡ is_put_by key.now (drop next (changes_told changes.now)) }
{
    let mut at = heads[place_of(key, heads.len())];
    while at > next {
        let last = at - 1;
        if puts(key, &changes[last]) {
            return true;
        }
        at = links[last];
    }
    false
}

/// Whether one of some changes from an index on puts a value at a key. The updates end here.
fn is_among(key: &[u8], changes: &[Change<'_>], next: usize, end: usize) -> bool
    requires within { end ≤ length changes.now }
    requires no_more { (path : List ℕ) → is_put_by path (drop end (changes_told changes.now)) ≡ false }
    ensures { result ≡ is_put_by key.now (drop next (changes_told changes.now)) }
{
    for index in next..end {
        if puts(key, &changes[index]) {
            return true;
        }
    }
    false
}

/// Whether a change puts a value at a key.
fn puts(path: &[u8], change: &Change<'_>) -> bool
    ensures { result ≡ puts path.now (change_told change.now) }
{
    match change {
        Change::Update { key, .. } => path == *key,
        Change::Erase { .. } => false,
    }
}

/// Whether an erasure comes before an update.
fn is_erased_before_puts(changes: &[Change<'_>]) -> bool {
    for index in 0..updates_end(changes) {
        if !is_update(&changes[index]) {
            return true;
        }
    }
    false
}

/// Where the last update among some changes ends: after it there are only erasures.
pub(crate) fn updates_end(changes: &[Change<'_>]) -> usize
    ensures within { result ≤ length changes.now }
    ensures no_more { (path : List ℕ) → is_put_by path (drop result (changes_told changes.now)) ≡ false }
{
    let mut end = changes.len();
    while end > 0 {
        let last = end - 1;
        if is_update(&changes[last]) {
            return end;
        }
        end = last;
    }
    end
}

/// Whether a change is an update.
fn is_update(change: &Change<'_>) -> bool
    ensures { result ≡ false → (path : List ℕ) → puts path (change_told change.now) ≡ false }
{
    match change {
        Change::Update { .. } => true,
        Change::Erase { .. } => false,
    }
}
