//! A walk from number to number that keeps the siblings that it has still to visit. So it mostly goes on at a slot that it knows,
//! and reads nothing of the nodes above.

ghost use Rattle.std.specs.Prelude.{◌-◌, ◌<◌, ◌∷◌, ◌≡◌, ◌≢◌, ◌≤◌, [], IfSome, List};
ghost use Rattle.std.specs.Prelude.{MatchOption, ℕ, ⊤};
ghost use Rattle.cedar_walk.specs.Words.{below, cells, ComesToFirst, fields, FindsNumber};
ghost use Rattle.cedar_walk.specs.Words.{first_sibling_label, GoesKeeping, GoesToNumber, IsAt};
ghost use Rattle.cedar_walk.specs.Words.{IsBelow, IsNumberedBelow, IsPending, IsWellFormed};
ghost use Rattle.cedar_walk.specs.Words.{kept_behind, node_at, NoneLeft, owner_of, tree_of, walk};
ghost use Rattle.cedar_walk.specs.Words.{GoesOnWith, GoesOnPending, MayKeep};

use crate::visits::{
    Numbered, Place, child_under, first_child, label_after_number, next_after, next_sibling,
    number_held,
};
use cedar_model::Layout;
use cedar_table::Table;
use std::alloc::{AllocError, Allocator};
use std::marker::Model;

/// How many siblings are kept.
const ROOM: usize = 16;

/// A sibling that a walk has still to visit: its slot, how many labels it is below the node where the walk began, and the last of
/// these. Nothing has been read of it yet.
#[derive(Clone, Copy)]
pub struct PendingSibling {
    slot: u32,
    depth: u32,
    label: u8,
}

/// The nearest siblings that a walk has still to visit: those after nodes on the way to where it is.
///
/// A contract sees them as a list, the nearest first.
#[derive(Drop)]
pub struct PendingSiblings {
    kept: [PendingSibling; ROOM],
    len: usize,
}

impl Model for PendingSiblings {
    ghost use Rattle.std.specs.Prelude.{◌≤◌, List};
    ghost use Rattle.cedar_walk.specs.Pending.{nearest_first};
    ghost use Rattle.cedar_walk.specs.declared.pending.PendingSibling.{PendingSibling};

    ghost Value = { List PendingSibling };

    ghost view = { λ siblings. nearest_first siblings.kept siblings.len };

    ghost invariant = { λ siblings. siblings.len ≤ 16 };
}

impl PendingSiblings {
    /// Makes an empty list of siblings.
    #[inline(always)]
    pub fn new() -> Self
        //= A new list of pending siblings is empty.
        ensures { result ≡ [] }
    {
        let blank = PendingSibling {
            slot: 0,
            depth: 0,
            label: 0,
        };
        PendingSiblings {
            kept: [blank; ROOM],
            len: 0,
        }
    }

    /// Forgets all siblings.
    #[inline(always)]
    fn clear(&mut self)
        ensures { self.new ≡ [] }
    {
        self.len = 0;
    }

    // If there is no room, the farther ones are forgotten: a walk that comes back to them climbs.
    #[inline(always)]
    fn push(&mut self, sibling: PendingSibling)
        ensures { self.new ≡ sibling ∷ kept_behind self.old }
    {
        if self.len == ROOM {
            self.kept[0] = sibling;
            self.len = 1;
            return;
        }
        self.kept[self.len] = sibling;
        self.len += 1;
    }

    #[inline(always)]
    fn pop(&mut self) -> Option<PendingSibling>
        ensures { MatchOption result ((self.old ≡ []) × (self.new ≡ [])) (λ sibling. self.old ≡ sibling ∷ self.new) }
    {
        if self.len == 0 {
            return None;
        }
        self.len -= 1;
        Some(self.kept[self.len])
    }
}

impl Clone for PendingSiblings {
    //= A clone of pending siblings is equal, and never fails. [with is_infallible]
    ghost is_clone = { λ siblings copy. copy ≡ siblings };

    ghost is_infallible = { λ _. ⊤ };

    fn clone(&self) -> Result<Self, AllocError> {
        Ok(PendingSiblings {
            kept: self.kept,
            len: self.len,
        })
    }
}

/// Keeps the sibling after a node that a walk visits, if there is one.
#[inline(always)]
fn keep_sibling<L: Layout, const SLOTS: usize, A: Allocator>(
    table: &Table<L, SLOTS, A>,
    node: usize,
    depth: usize,
    label: u8,
    siblings: &mut PendingSiblings,
)
    requires { MayKeep SLOTS (fields table.now) node depth label siblings.old }
    ensures { IsPending (fields table.now) siblings.new depth node }
{
    let next = next_sibling(table, node);
    // A branch, and no number added to the length: otherwise the next slot would wait for what is read here.
    if next != 0 {
        let base = node ^ usize::from(label);
        siblings.push(PendingSibling {
            slot: (base ^ usize::from(next)) as u32,
            depth: depth as u32,
            label: next,
        });
    }
}

/// Returns where a walk goes on that has been at a node whose first child has this label: to that child, or otherwise to the
/// nearest sibling that is kept, or, if none is, to the one that a climb finds.
#[inline(always)]
fn place_with_pending<L: Layout, const SLOTS: usize, A: Allocator>(
    table: &Table<L, SLOTS, A>,
    node: usize,
    depth: usize,
    label: u8,
    siblings: &mut PendingSiblings,
) -> Option<Place>
    requires { GoesOnWith SLOTS (fields table.now) node depth label siblings.old }
    ensures { MatchOption result (NoneLeft (fields table.now) depth node) (GoesKeeping (fields table.now) depth node siblings.new) }
{
    if label != 0 {
        return Some(child_under(table, node, label, depth + 1));
    }
    if let Some(sibling) = siblings.pop() {
        return Some(Place {
            slot: sibling.slot as usize,
            depth: sibling.depth as usize,
            label: sibling.label,
        });
    }
    next_after(table, node, depth)
}

/// Does what `numbered_from` does, and keeps the siblings after the nodes on the way down.
#[inline(always)]
fn numbered_from_with_pending<L: Layout, const SLOTS: usize, A: Allocator>(
    table: &Table<L, SLOTS, A>,
    node: usize,
    depth: usize,
    siblings: &mut PendingSiblings,
) -> Numbered
    requires { GoesOnPending SLOTS (fields table.now) node depth siblings.old }
    ensures found { FindsNumber (fields table.now) depth node result }
    ensures kept { IsPending (fields table.now) siblings.new result.depth result.slot }
{
    let mut slot = node;
    let mut steps = depth;
    let mut label = table.child(slot);
    while label != 0 {
        slot = table.slot_below(slot, label);
        steps += 1;
        keep_sibling(table, slot, steps, label, siblings);
        label = table.child(slot);
    }
    Numbered {
        slot,
        depth: steps,
        number: number_held(table, slot),
    }
}

/// Does what `numbered_after` does, for a walk that keeps the siblings that it has still to visit.
#[inline(always)]
pub fn numbered_after_with_pending<L: Layout, const SLOTS: usize, A: Allocator>(
    table: &Table<L, SLOTS, A>,
    node: usize,
    depth: usize,
    siblings: &mut PendingSiblings,
) -> Option<Numbered>
    requires well_formed { IsWellFormed SLOTS (fields table.now) }
    requires below { (start : List ℕ) × IsNumberedBelow (fields table.now) start depth node }
    requires kept { IsPending (fields table.now) siblings.old depth node }

    //= `numbered_after_with_pending` returns the node that `numbered_after` returns, and the siblings that are kept are right for that
    //  node. [with kept]
    ensures found { GoesToNumber (fields table.now) depth node result }
    ensures kept { IfSome result (λ next. IsPending (fields table.now) siblings.new next.depth next.slot) }
{
    let label = label_after_number(table, node);
    let place = place_with_pending(table, node, depth, label, siblings)?;
    keep_sibling(table, place.slot, place.depth, place.label, siblings);
    Some(numbered_from_with_pending(table, place.slot, place.depth, siblings))
}

/// Does what `first_numbered` does, for a walk that keeps the siblings that it has still to visit. What was kept before is
/// forgotten.
pub fn first_with_pending<L: Layout, const SLOTS: usize, A: Allocator>(
    table: &Table<L, SLOTS, A>,
    query: &[u8],
    siblings: &mut PendingSiblings,
) -> Option<Numbered>
    requires { IsWellFormed SLOTS (fields table.now) }

    //= `first_with_pending` returns the node that `first_numbered` returns, and the siblings that are kept are right for that node. [with
    //  kept]
    ensures found { ComesToFirst (fields table.now) query.now (walk (node_at (tree_of (fields table.now)) query.now)) result }
    ensures kept { IfSome result (λ next. IsPending (fields table.now) siblings.new next.depth next.slot) }
{
    siblings.clear();
    let node = table.node_of(query)?;
    if node != 0 {
        return Some(numbered_from_with_pending(table, node, 0, siblings));
    }
    let label = first_child(table, node);
    if label == 0 {
        return None;
    }
    let place = child_under(table, node, label, 1);
    keep_sibling(table, place.slot, place.depth, place.label, siblings);
    Some(numbered_from_with_pending(table, place.slot, place.depth, siblings))
}
