//! A number that is in the way of a new label: it moves from its node's own base field into a slot, and back if the
//! label is refused.

ghost use Rattle.std.specs.Prelude.{◌<◌, ◌≡◌, IfErr, IfOk, is_some, length, List, MatchOption};
ghost use Rattle.std.specs.Prelude.{None, OnErr, OnOk, pos, Some, take, true, ℕ};
ghost use Rattle.cedar_edit.specs.Words.{below, cells, fields, Forest, HasNode, HasWay, IsAt};
ghost use Rattle.cedar_edit.specs.Words.{IsInWay, IsKey, IsOwnAt, IsWellFormed, KeepsMarks};
ghost use Rattle.cedar_edit.specs.Words.{KeepsOtherMarks, LacksLoneNumber, MakesAtMost};
ghost use Rattle.cedar_edit.specs.Words.{MakesIfFull, MayRefuse, MovesIn, MovesPrefixOut};
ghost use Rattle.cedar_edit.specs.Words.{number_at, OwnsNumberAlone, reduced_layout, SameFrame};
ghost use Rattle.cedar_edit.specs.Words.{SameModes, size_of, tree_of};

use crate::edit::number::drop_number;
use crate::edit::own::move_number;
use cedar_model::{Layout, Stored};
use cedar_slots::Shortage;
use cedar_table::Table;
use std::alloc::Allocator;

/// Returns the length of the proper prefix of a key whose node keeps its number in its own base field, if there is one.
fn own_front<L: Layout, const SLOTS: usize, A: Allocator>(
    table: &Table<L, SLOTS, A>,
    key: &[u8],
) -> Option<usize>
    requires well_formed { IsWellFormed SLOTS (fields table.now) }
    requires key { IsKey key.now }
    ensures { MatchOption result (HasWay (cells table.now) 0 key.now) (λ n. (n < length key.now) × IsOwnAt (cells table.now) (take n key.now)) }
{
    let mut node = 0;
    for length in 0..key.len() {
        if let Stored::OwnNumber(_) = table.stored_at(node) {
            return Some(length);
        }
        let slot = table.child_slot(node, key[length]);
        if !table.is_owned_by(slot, node) {
            return None;
        }
        node = slot;
    }
    None
}

/// Moves the number of a key from its node's own base field into a slot. If memory or slots are lacking, everything is as
/// before.
fn move_out<L: Layout, const SLOTS: usize, A: Allocator>(
    table: &mut Table<L, SLOTS, A>,
    key: &[u8],
) -> Result<(), Shortage>
    requires well_formed { IsWellFormed SLOTS (fields table.old) }
    requires own { IsOwnAt (cells table.old) key.now }
    ensures well_formed { IsWellFormed SLOTS (fields table.new) }
    ensures tree { tree_of (fields table.new) ≡ tree_of (fields table.old) }
    ensures at { (w : List ℕ) (s : ℕ) → IsAt (cells table.old) w s → IsAt (cells table.new) w s }
    ensures moved { OnOk result ((s : ℕ) → IsAt (cells table.new) key.now s → (cells table.new).check (below (cells table.new) s 0) ≡ pos s) }
    ensures others { OnOk result ((s : ℕ) → IsAt (cells table.old) key.now s → KeepsOtherMarks (cells table.old) (cells table.new) s) }
    ensures stays { OnErr result (KeepsMarks (cells table.old) (cells table.new)) }
    ensures refused { IfErr result (λ error. MayRefuse (fields table.new).places SLOTS error) }
    ensures blocks { MakesAtMost 1 (fields table.old) (fields table.new) result }
    ensures made { OnOk result (MakesIfFull (fields table.old) (fields table.new)) }
    ensures modes { SameModes (fields table.old) (fields table.new) }
{
    let Some(node) = table.node_of(key) else {
        return Ok(());
    };
    if let Stored::OwnNumber(value) = table.stored_at(node) {
        move_number(table, node, value)?;
    }
    Ok(())
}

/// Returns the number of a node that owns the slot for it and no other.
fn lone_number<L: Layout, const SLOTS: usize, A: Allocator>(
    table: &Table<L, SLOTS, A>,
    node: usize,
) -> Option<i32>
    requires node_in { node < size_of (fields table.now) }
    requires node { (f : Forest) × HasNode (fields table.now) f node }
    ensures { MatchOption result (LacksLoneNumber (cells table.now) node) (OwnsNumberAlone (cells table.now) node) }
{
    let slot = table.base_of(node);
    if table.is_owned_by(slot, node) && table.sibling(slot) == 0 {
        return Some(table.base(slot));
    }
    None
}

/// Moves the number of a key from its slot into its node's own base field, if the node owns no other slot.
fn move_in<L: Layout, const SLOTS: usize, A: Allocator>(table: &mut Table<L, SLOTS, A>, key: &[u8])
    requires well_formed { IsWellFormed SLOTS (fields table.old) }
    requires layout { (fields table.old).layout ≡ reduced_layout }
    ensures well_formed { IsWellFormed SLOTS (fields table.new) }
    ensures tree { tree_of (fields table.new) ≡ tree_of (fields table.old) }
    ensures here { MovesIn (cells table.old) (cells table.new) key.now }
    ensures others { (s : ℕ) → IsAt (cells table.old) key.now s → KeepsOtherMarks (cells table.old) (cells table.new) s }
    ensures frame { SameFrame (fields table.old) (fields table.new) }
{
    let Some(node) = table.node_of(key) else {
        return;
    };
    let Some(value) = lone_number(table, node) else {
        return;
    };
    drop_number(table, node);
    table.set_own_number(node, value);
}

/// Moves the number of a key's prefix that is in the way of the next label, and returns the prefix's length. If
/// memory or slots are lacking, everything is as before.
pub(crate) fn make_way<L: Layout, const SLOTS: usize, A: Allocator>(
    table: &mut Table<L, SLOTS, A>,
    key: &[u8],
) -> Result<Option<usize>, Shortage>
    requires well_formed { IsWellFormed SLOTS (fields table.old) }
    requires key { IsKey key.now }
    ensures well_formed { IsWellFormed SLOTS (fields table.new) }
    ensures tree { tree_of (fields table.new) ≡ tree_of (fields table.old) }
    ensures way { OnOk result (HasWay (cells table.new) 0 key.now) }
    ensures none { IfOk result (λ moved. moved ≡ None → fields table.new ≡ fields table.old) }
    ensures moved { IfOk result (λ moved. (n : ℕ) → moved ≡ Some n → IsInWay (fields table.new) key.now n) }
    ensures moves { IfOk result (λ moved. (n : ℕ) → moved ≡ Some n → MovesPrefixOut (fields table.old) (fields table.new) key.now n) }
    ensures stays { OnErr result (KeepsMarks (cells table.old) (cells table.new)) }
    ensures over { is_some (number_at (tree_of (fields table.old)) key.now) ≡ true → IfOk result (λ moved. moved ≡ None) × OnErr result ⊥ }
    ensures one_byte { length key.now ≡ 1 → IfOk result (λ moved. moved ≡ None) × OnErr result ⊥ }
    ensures refused { IfErr result (λ error. MayRefuse (fields table.new).places SLOTS error) }
    ensures blocks { MakesAtMost 1 (fields table.old) (fields table.new) result }
    ensures made { OnOk result (MakesIfFull (fields table.old) (fields table.new)) }
    ensures modes { SameModes (fields table.old) (fields table.new) }
{
    if !L::keeps_numbers() {
        return Ok(None);
    }
    let Some(length) = own_front(table, key) else {
        return Ok(None);
    };
    move_out(table, &key[..length])?;
    Ok(Some(length))
}

/// Puts back the number that was moved for a key.
pub(crate) fn close_way<L: Layout, const SLOTS: usize, A: Allocator>(
    table: &mut Table<L, SLOTS, A>,
    key: &[u8],
    moved: Option<usize>,
)
    requires well_formed { IsWellFormed SLOTS (fields table.old) }
    requires moved { MatchOption moved (Unit {0}) (λ n. (n < length key.now) × ((fields table.old).layout ≡ reduced_layout)) }
    ensures well_formed { IsWellFormed SLOTS (fields table.new) }
    ensures tree { tree_of (fields table.new) ≡ tree_of (fields table.old) }
    ensures none { moved ≡ None → cells table.new ≡ cells table.old }
    ensures here { (n : ℕ) → moved ≡ Some n → MovesIn (cells table.old) (cells table.new) (take n key.now) }
    ensures others { (n : ℕ) (s : ℕ) → moved ≡ Some n → IsAt (cells table.old) (take n key.now) s → KeepsOtherMarks (cells table.old) (cells table.new) s }
    ensures frame { SameFrame (fields table.old) (fields table.new) }
{
    if let Some(length) = moved {
        move_in(table, &key[..length]);
    }
}
