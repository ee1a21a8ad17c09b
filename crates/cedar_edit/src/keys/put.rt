//! A key's number put.

ghost use Rattle.std.specs.Prelude.{◌+◌, ◌*◌, ◌<◌, ◌==◌, ◌≡◌, ◌≢◌, ◌≤◌, [], cond, drop, get_or};
ghost use Rattle.std.specs.Prelude.{IfErr, IfOk, length, OnErr, OnOk, pos, take, true};
ghost use Rattle.cedar_edit.specs.Words.{AtBase, below, cells, fields, HasWay, is_value, IsKey};
ghost use Rattle.cedar_edit.specs.Words.{IsWellFormed, joins, KeepsMarks, marks, NewMark};
ghost use Rattle.cedar_edit.specs.Words.{PutsInMarks, PutsKey, PutsMarks, size_of, StaysSmall};
ghost use Rattle.cedar_edit.specs.Words.{TakenBack, TakesNewNode, tree_of, Walked, WalksIn};

use crate::keys::erase::trim;
use crate::keys::step::{extend_leaf, follow_or_add, put_number};
use crate::keys::way::{close_way, make_way};
use cedar_model::Layout;
use cedar_slots::Shortage;
use cedar_table::Table;
use std::alloc::Allocator;

/// Returns the slot of the last node that a key leads to, and how many of its labels lead there.
fn known_front<L: Layout, const SLOTS: usize, A: Allocator>(
    table: &Table<L, SLOTS, A>,
    key: &[u8],
) -> (usize, usize)
    requires well_formed { IsWellFormed SLOTS (fields table.now) }
    requires key { IsKey key.now }
    requires way { HasWay (cells table.now) 0 key.now }
    ensures within { result.1 ≤ length key.now }
    ensures walked { Walked SLOTS (fields table.now) (fields table.now) key.now (take result.1 key.now) (drop result.1 key.now) result.0 }
    ensures ends { result.1 < length key.now → (cells table.now).check (below (cells table.now) result.0 (get_or key.now result.1 0)) ≢ pos result.0 }
{
    let mut node = 0;
    for length in 0..key.len() {
        let slot = table.slot_below(node, key[length]);
        if !table.is_owned_by(slot, node) {
            return (node, length);
        }
        node = slot;
    }
    (node, key.len())
}

/// Adds the nodes that a key still lacks behind `front`, to which its first `known` bytes lead, as bare leaves, and returns the slot of the
/// key's node. If memory or slots are lacking, it removes the leaves again.
// By itself, so that an update over nodes that are there has all that its loop needs in registers.
#[inline(never)]
fn add_rest<L: Layout, const SLOTS: usize, A: Allocator>(
    table: &mut Table<L, SLOTS, A>,
    key: &[u8],
    front: usize,
    known: usize,
    search_limit: usize,
) -> Result<usize, Shortage>
    requires well_formed { IsWellFormed SLOTS (fields table.old) }
    requires key { IsKey key.now }
    requires way { HasWay (cells table.old) 0 key.now }
    requires more { known < length key.now }
    requires front { Walked SLOTS (fields table.old) (fields table.old) key.now (take known key.now) (drop known key.now) front }
    requires ends { (cells table.old).check (below (cells table.old) front (get_or key.now known 0)) ≢ pos front }
    ensures walked { IfOk result (Walked SLOTS (fields table.old) (fields table.new) key.now key.now []) }
    ensures leaf { IfOk result (λ node. ((cells table.new).stored node ≡ AtBase 0) × (node ≢ 0)) }
    ensures packs { OnOk result (StaysSmall (size_of (fields table.old) + 256 * cond (known == 0) 0 1) (fields table.new)) }
    ensures refused { IfErr result (TakenBack SLOTS (fields table.old) (fields table.new) key.now) }
{
    let mut node = match follow_or_add(table, front, key[known], search_limit) {
        Ok(child) => child,
        Err(error) => {
            trim(table, front);
            return Err(error);
        }
    };
    // From here on each node is a leaf just made.
    for index in known + 1..key.len() {
        match extend_leaf(table, node, key[index]) {
            Ok(child) => node = child,
            Err(error) => {
                trim(table, node);
                return Err(error);
            }
        }
    }
    Ok(node)
}

/// Follows a key from the root, adds the missing nodes as bare leaves, and returns the slot of the key's node. If memory
/// or slots are lacking, it removes the leaves again.
fn walk_in<L: Layout, const SLOTS: usize, A: Allocator>(
    table: &mut Table<L, SLOTS, A>,
    key: &[u8],
    search_limit: usize,
) -> Result<usize, Shortage>
    requires well_formed { IsWellFormed SLOTS (fields table.old) }
    requires key { IsKey key.now }
    requires way { HasWay (cells table.old) 0 key.now }
    ensures walked { IfOk result (Walked SLOTS (fields table.old) (fields table.new) key.now key.now []) }
    ensures packs { IfOk result (WalksIn (fields table.old) (fields table.new) key.now) }
    ensures refused { IfErr result (TakenBack SLOTS (fields table.old) (fields table.new) key.now) }
{
    let (front, length) = known_front(table, key);
    if length == key.len() {
        return Ok(front);
    }
    add_rest(table, key, front, length, search_limit)
}

/// Puts the number `value` at a key, none of whose proper prefixes keeps its number in its node's own base field. Returns the
/// number that was there before. If memory or slots are lacking, the tree is as before.
fn put_along<L: Layout, const SLOTS: usize, A: Allocator>(
    table: &mut Table<L, SLOTS, A>,
    key: &[u8],
    value: i32,
    search_limit: usize,
) -> Result<Option<i32>, Shortage>
    requires well_formed { IsWellFormed SLOTS (fields table.old) }
    requires key { IsKey key.now }
    requires value { is_value value ≡ true }
    requires way { HasWay (cells table.old) 0 key.now }
    ensures puts { PutsKey SLOTS (fields table.old) (fields table.new) key.now value result }
    ensures small { OnOk result (StaysSmall (size_of (fields table.old) + 256 * joins (tree_of (fields table.old)) key.now) (fields table.new)) }
    ensures marks { KeepsMarks (cells table.old) (cells table.new) }
    ensures new_mark { OnOk result (NewMark (fields table.old) (fields table.new) key.now) }
    ensures lacking { TakesNewNode (fields table.old) (fields table.new) key.now result }
{
    let end = walk_in(table, key, search_limit)?;
    let held = table.number_of(end);
    let is_new = held.is_none();
    if let Err(error) = put_number(table, end, value, search_limit) {
        trim(table, end);
        return Err(error);
    }
    if is_new {
        table.set_entries(table.entries() + 1);
    }
    Ok(held)
}

/// Puts the number `value` at a key, and returns the number that was there before, if the key was held. If memory or slots are
/// lacking, the tree is as before, though blocks may have been made. An update of a key of n bytes makes n blocks at most, and
/// tries to make no further one. Over a number it makes none. A new first byte alone makes one only if no slot outside block 0
/// is free.
pub fn update<L: Layout, const SLOTS: usize, A: Allocator>(
    table: &mut Table<L, SLOTS, A>,
    key: &[u8],
    value: i32,
    search_limit: usize,
) -> Result<Option<i32>, Shortage>
    requires well_formed { IsWellFormed SLOTS (fields table.old) }
    requires key { IsKey key.now }
    requires value { is_value value ≡ true }

    //= The table is well-formed after an update, also after a refusal. [by PutsKey, well_formed]
    //= `update` of a key with a value in range, on any well-formed table, however it was made: the tree is then `put` of the old one, in
    //  the table's order. [by put]
    //= It returns the number that the key held before, or that there was none. [by held]
    //= After a refusal the tree is the old one. [by taken_back]
    //= It fails for lack of memory only if all blocks are in use and there may be more, for lack of slots only if there may not be more.
    //  [by refused]
    //= A key of n bytes makes n blocks at most, and fewer than n if the update fails. [by blocks]
    //= Over a number it makes no block and doesn't fail. [by over]
    //= A new first byte alone makes a block, or fails, only in the default layout and only if no slot outside block 0 is free. [by
    //  one_byte]
    //= One slot alone is taken wherever one is free outside block 0. So it makes at most one block if another key has its first byte, and
    //  none otherwise; unless at most 255 slots outside block 0 are free then, or none was before. [by packs, PacksKey]
    //= The order and `max_trial` stay the same. [also erase.modes; by modes]
    ensures puts { PutsKey SLOTS (fields table.old) (fields table.new) key.now value result }

    //= After a refusal each number is where it was, in a slot or in its node's own base field. [with marks_stay]
    //= So as many slots are then held as before. [with marks_stay; by slots_stay]
    ensures marks { OnErr result (KeepsMarks (cells table.old) (cells table.new)) }
    ensures marks_stay { OnErr result (marks (fields table.new) ≡ marks (fields table.old)) }

    //= Over a number, each number stays as it was; otherwise the number of each held proper prefix of the key has a slot, and each other
    //  number stays as it was. [by over, fronts, others]
    //= A new key's number has a slot if the key is a prefix of a held one; in the reduced layout only then. [by new]
    ensures new_marks { OnOk result (PutsMarks (fields table.old) (fields table.new) key.now) }

    //= The tree of marks says the same in the reduced layout.
    ensures marks_put { OnOk result (PutsInMarks (fields table.old) (fields table.new) key.now) }
{
    let moved = make_way(table, key)?;
    match put_along(table, key, value, search_limit) {
        Ok(held) => Ok(held),
        Err(error) => {
            close_way(table, key, moved);
            Err(error)
        }
    }
}
