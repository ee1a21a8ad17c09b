//! A walk from number to number that keeps the key of its node. So an item costs the labels in which its key differs from the one
//! before, and no climb to the node where the walk began.

ghost use Rattle.std.specs.Prelude.{◌≡◌, ◌≢◌, ◌≤◌, IfOk, length, List, MatchOption};
ghost use Rattle.std.specs.Prelude.{OnErr, vec_capacity, ℕ};
ghost use Rattle.cedar_walk.specs.Words.{cells, fields, FindsNumber, FirstKeyOutgrows};
ghost use Rattle.cedar_walk.specs.Words.{GoesToNumber, IsBelow, IsNumberedBelow, IsWellFormed};
ghost use Rattle.cedar_walk.specs.Words.{KeyGoesOn, NextKeyOutgrows};
ghost use Rattle.cedar_walk.specs.Words.{GoesOnBelow};

use crate::visits::{Numbered, label_after_number, number_held, place_after};
use cedar_model::Layout;
use cedar_table::Table;
use std::alloc::{AllocError, Allocator};

/// Does what `numbered_from` does, and writes the labels on the way down after the key of the node where it begins.
#[inline(always)]
fn numbered_from_with_key<L: Layout, const SLOTS: usize, A: Allocator, B: Allocator>(
    table: &Table<L, SLOTS, A>,
    node: usize,
    depth: usize,
    key: &mut Vec<u8, B>,
) -> Result<Numbered, AllocError>
    requires { GoesOnBelow SLOTS (fields table.now) node depth }
    ensures found { IfOk result (FindsNumber (fields table.now) depth node) }
    ensures key { IfOk result (KeyGoesOn (fields table.now) depth node key.old.items key.new.items) }
    ensures full { OnErr result (FirstKeyOutgrows (fields table.now) depth node (length key.old.items) (vec_capacity key.old)) }
    ensures capacity { vec_capacity key.old ≤ vec_capacity key.new }
{
    let mut slot = node;
    let mut steps = depth;
    let mut label = table.child(slot);
    while label != 0 {
        key.push(label)?;
        slot = table.slot_below(slot, label);
        steps += 1;
        label = table.child(slot);
    }
    Ok(Numbered {
        slot,
        depth: steps,
        number: number_held(table, slot),
    })
}

/// Does what `numbered_after` does, and keeps a key in step: its last `depth` bytes were the path to the one node, it then ends in the
/// path to the other, and the bytes before that stay. If no node is left, all of the key stays. It allocates only if the new key has more
/// bytes than the buffer has room for, and fails only if that is refused. Then the key may hold anything, and `numbered_after` and
/// `write_path` return what this call would have.
#[inline(always)]
pub fn numbered_after_with_key<L: Layout, const SLOTS: usize, A: Allocator, B: Allocator>(
    table: &Table<L, SLOTS, A>,
    node: usize,
    depth: usize,
    key: &mut Vec<u8, B>,
) -> Result<Option<Numbered>, AllocError>
    requires well_formed { IsWellFormed SLOTS (fields table.now) }
    requires below { (start : List ℕ) × IsNumberedBelow (fields table.now) start depth node }
    requires room { depth ≤ length key.old.items }

    //= `numbered_after_with_key` returns the node that `numbered_after` returns, and its key, if the key was that of the node before. [with
    //  key]
    ensures found { IfOk result (GoesToNumber (fields table.now) depth node) }
    ensures key { IfOk result (λ found. MatchOption found (key.new.items ≡ key.old.items) (KeyGoesOn (fields table.now) depth node key.old.items key.new.items)) }

    //= `numbered_after_with_key` fails only if a node is left and the key of the next one is longer than the buffer's capacity, which never
    //  falls. [with capacity; by NextKeyOutgrows]
    ensures full { OnErr result (NextKeyOutgrows (fields table.now) depth node (length key.old.items) (vec_capacity key.old)) }
    ensures capacity { vec_capacity key.old ≤ vec_capacity key.new }
{
    let front = key.len() - depth;
    let label = label_after_number(table, node);
    let Some(place) = place_after(table, node, depth, label) else {
        return Ok(None);
    };
    key.truncate(front + (place.depth - 1));
    key.push(place.label)?;
    let next = numbered_from_with_key(table, place.slot, place.depth, key)?;
    Ok(Some(next))
}
