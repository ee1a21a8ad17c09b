//! A walk over the nodes of a tree, each before its children: from a node to the next one, by the slots alone.

ghost use Rattle.std.specs.Prelude.{◌++◌, ◌<◌, ◌∷◌, ◌≡◌, ◌≢◌, [], List, pos, Some, true, ℕ, ℤ};
ghost use Rattle.cedar_walk.specs.Words.{below, cells, ComesToFirst, fields, FindsNumber};
ghost use Rattle.cedar_walk.specs.Words.{first_sibling_label, GoesToNode, GoesToNumber};
ghost use Rattle.cedar_walk.specs.Words.{GoesToPlace, has_label, IsAt, IsBelow, IsNumberedBelow};
ghost use Rattle.cedar_walk.specs.Words.{IsWellFormed, label_after, left_after, left_at, node_at};
ghost use Rattle.cedar_walk.specs.Words.{size_of, Stands, Tree, tree_of, walk};
ghost use Rattle.cedar_walk.specs.Words.{GoesOnBelow, HasChildUnder, HoldsNumber, StandsUnder};

use cedar_model::{Layout, Stored};
use cedar_table::Table;
use std::alloc::Allocator;

/// A node that a walk visits.
#[derive(Clone, Copy, Debug, PartialEq, Eq)]
pub struct Visited {
    /// The node's slot.
    pub slot: usize,
    /// How many labels it is below the node where the walk began.
    pub depth: usize,
    /// The last of these labels.
    pub label: u8,
    /// The node's number, if it has one.
    pub number: Option<i32>,
}

/// A node with a number that a walk visits.
#[derive(Clone, Copy, Debug, PartialEq, Eq)]
pub struct Numbered {
    /// The node's slot.
    pub slot: usize,
    /// How many labels it is below the node where the walk began.
    pub depth: usize,
    /// Its number.
    pub number: i32,
}

/// A place that a walk reaches, before anything of the node there is read: its slot, how many labels it is below the node where the
/// walk began, and the last of these.
#[derive(Clone, Copy)]
pub(crate) struct Place {
    pub(crate) slot: usize,
    pub(crate) depth: usize,
    pub(crate) label: u8,
}

/// Returns the label of a node's first child, or 0.
#[inline(always)]
pub(crate) fn first_child<L: Layout, const SLOTS: usize, A: Allocator>(
    table: &Table<L, SLOTS, A>,
    node: usize,
) -> u8
    requires well_formed { IsWellFormed SLOTS (fields table.now) }
    requires at { (w : List ℕ) × IsAt (cells table.now) w node }

    //= `first_child` and `next_sibling` return the label of the first child, and of the sibling after a node, or 0. [also next_sibling]
    ensures { (w : List ℕ) → IsAt (cells table.now) w node → result ≡ first_sibling_label (node_at (tree_of (fields table.now)) w).children }
{
    // Most nodes name their first label, and neither the root nor one with a number does.
    let label = table.child(node);
    if label != 0 {
        return label;
    }
    if node == 0 {
        return table.sibling(node);
    }
    table.first_label(node)
}

/// Returns the label of the sibling after a node, or 0.
#[inline(always)]
pub(crate) fn next_sibling<L: Layout, const SLOTS: usize, A: Allocator>(
    table: &Table<L, SLOTS, A>,
    node: usize,
) -> u8
    requires { StandsUnder SLOTS (fields table.now) node }
    ensures { (w : List ℕ) (l : ℕ) → IsAt (cells table.now) (w ++ l ∷ []) node → result ≡ label_after (tree_of (fields table.now)) w l }
{
    table.sibling(node)
}

/// Returns the node above a node.
#[inline(always)]
pub(crate) fn parent<L: Layout, const SLOTS: usize, A: Allocator>(
    table: &Table<L, SLOTS, A>,
    node: usize,
) -> usize
    requires { StandsUnder SLOTS (fields table.now) node }

    //= `parent` returns the slot of the node above. [with check]
    ensures above { (w : List ℕ) (l : ℕ) → IsAt (cells table.now) (w ++ l ∷ []) node → IsAt (cells table.now) w result }
    ensures check { (cells table.now).check node ≡ pos result }
{
    table.owner(node)
}

/// Returns the number of a node that is known to have one: if the layout keeps each in a slot of its own, there is no test.
#[inline(always)]
pub(crate) fn number_held<L: Layout, const SLOTS: usize, A: Allocator>(
    table: &Table<L, SLOTS, A>,
    node: usize,
) -> i32
    requires { HoldsNumber (fields table.now) node }
    ensures { (t : Tree) → Stands (size_of (fields table.now)) (cells table.now) node t → t.number ≡ Some result }
{
    match table.stored_at_node(node) {
        Stored::OwnNumber(value) => value,
        Stored::AtBase(base) => table.base(base),
        Stored::Nothing => 0,
    }
}

/// Returns the label of the first child of a node that is known to have a number, or 0. It is the sibling of the number's slot.
#[inline(always)]
pub(crate) fn label_after_number<L: Layout, const SLOTS: usize, A: Allocator>(
    table: &Table<L, SLOTS, A>,
    node: usize,
) -> u8
    requires well_formed { IsWellFormed SLOTS (fields table.now) }
    requires held { (w : List ℕ) × (v : ℤ) × IsAt (cells table.now) w node × ((node_at (tree_of (fields table.now)) w).number ≡ Some v) }
    ensures { (w : List ℕ) → IsAt (cells table.now) w node → result ≡ first_sibling_label (node_at (tree_of (fields table.now)) w).children }
{
    match table.stored_at_node(node) {
        Stored::AtBase(base) => table.sibling(base),
        Stored::OwnNumber(_) => 0,
        Stored::Nothing => 0,
    }
}

/// Returns the child of a node under a label that it has.
#[inline(always)]
pub(crate) fn child_under<L: Layout, const SLOTS: usize, A: Allocator>(
    table: &Table<L, SLOTS, A>,
    node: usize,
    label: u8,
    depth: usize,
) -> Place
    requires { HasChildUnder SLOTS (fields table.now) node label }
    ensures slot { result.slot ≡ below (cells table.now) node label }
    ensures depth { result.depth ≡ depth }
    ensures label { result.label ≡ label }
{
    Place {
        slot: table.slot_below(node, label),
        depth,
        label,
    }
}

/// Returns the next node of a walk that has finished all below a node: the sibling after it, or the one after the nearest node
/// above it that has one, short of the node `depth` labels above, where the walk began.
#[inline(always)]
pub(crate) fn next_after<L: Layout, const SLOTS: usize, A: Allocator>(
    table: &Table<L, SLOTS, A>,
    node: usize,
    depth: usize,
) -> Option<Place>
    requires well_formed { IsWellFormed SLOTS (fields table.now) }
    requires below { (start : List ℕ) × IsBelow (cells table.now) start depth node }
    ensures { GoesToPlace left_after (fields table.now) depth node result }
{
    let mut slot = node;
    let mut steps = depth;
    while steps != 0 {
        let label = next_sibling(table, slot);
        let parent = parent(table, slot);
        if label != 0 {
            return Some(child_under(table, parent, label, steps));
        }
        slot = parent;
        steps -= 1;
    }
    None
}

/// Returns where a walk goes on that has been at a node whose first child has this label: to that child, or otherwise to the
/// sibling after the node, or otherwise to the one after the nearest node above it that has one.
#[inline(always)]
pub(crate) fn place_after<L: Layout, const SLOTS: usize, A: Allocator>(
    table: &Table<L, SLOTS, A>,
    node: usize,
    depth: usize,
    label: u8,
) -> Option<Place>
    requires well_formed { IsWellFormed SLOTS (fields table.now) }
    requires below { (start : List ℕ) × IsBelow (cells table.now) start depth node }
    requires first { (w : List ℕ) → IsAt (cells table.now) w node → label ≡ first_sibling_label (node_at (tree_of (fields table.now)) w).children }
    ensures { GoesToPlace left_at (fields table.now) depth node result }
{
    if label != 0 {
        return Some(child_under(table, node, label, depth + 1));
    }
    next_after(table, node, depth)
}

/// Returns the next node of a walk that has been at a node, `depth` labels below the one where it began, and not yet below it: its
/// first child, or otherwise the sibling after it, or otherwise the one after the nearest node above it that has one. It allocates
/// nothing.
#[inline(always)]
pub fn node_after<L: Layout, const SLOTS: usize, A: Allocator>(
    table: &Table<L, SLOTS, A>,
    node: usize,
    depth: usize,
) -> Option<Visited>
    requires well_formed { IsWellFormed SLOTS (fields table.now) }
    requires below { (start : List ℕ) × IsBelow (cells table.now) start depth node }

    //= `node_after` returns the next node of a walk that has been at a node, with its number, or that nothing is left.
    ensures { GoesToNode (fields table.now) depth node result }
{
    let label = first_child(table, node);
    let place = place_after(table, node, depth, label)?;
    Some(Visited {
        slot: place.slot,
        depth: place.depth,
        label: place.label,
        number: table.number_of(place.slot),
    })
}

/// Returns the first node with a number of those that begin at a node other than the root, `depth` labels below the one where the
/// walk began, and go on below it. A node that names a first label has no number, and each other one has one: nothing else is
/// tested on the way down.
#[inline(always)]
pub(crate) fn numbered_from<L: Layout, const SLOTS: usize, A: Allocator>(
    table: &Table<L, SLOTS, A>,
    node: usize,
    depth: usize,
) -> Numbered
    requires { GoesOnBelow SLOTS (fields table.now) node depth }
    ensures { FindsNumber (fields table.now) depth node result }
{
    let mut slot = node;
    let mut steps = depth;
    let mut label = table.child(slot);
    while label != 0 {
        slot = table.slot_below(slot, label);
        steps += 1;
        label = table.child(slot);
    }
    Numbered {
        slot,
        depth: steps,
        number: number_held(table, slot),
    }
}

/// Returns the next node with a number of a walk that has been at one, `depth` labels below the node where it began, and not yet
/// below it. It allocates nothing.
#[inline(always)]
pub fn numbered_after<L: Layout, const SLOTS: usize, A: Allocator>(
    table: &Table<L, SLOTS, A>,
    node: usize,
    depth: usize,
) -> Option<Numbered>
    requires well_formed { IsWellFormed SLOTS (fields table.now) }
    requires below { (start : List ℕ) × IsNumberedBelow (fields table.now) start depth node }

    //= `numbered_after` returns the next node with a number of a walk that has been at one, or that none is left.
    ensures { GoesToNumber (fields table.now) depth node result }
{
    let label = label_after_number(table, node);
    let place = place_after(table, node, depth, label)?;
    Some(numbered_from(table, place.slot, place.depth))
}

/// Returns the first node with a number of those that begin at a query's node, and go on below it.
pub fn first_numbered<L: Layout, const SLOTS: usize, A: Allocator>(
    table: &Table<L, SLOTS, A>,
    query: &[u8],
) -> Option<Numbered>
    requires { IsWellFormed SLOTS (fields table.now) }

    //= `first_numbered` returns the first node with a number at or below a query's node, or that there is none.
    ensures { ComesToFirst (fields table.now) query.now (walk (node_at (tree_of (fields table.now)) query.now)) result }
{
    let node = table.node_of(query)?;
    if node != 0 {
        return Some(numbered_from(table, node, 0));
    }
    let label = first_child(table, node);
    if label == 0 {
        return None;
    }
    let place = child_under(table, node, label, 1);
    Some(numbered_from(table, place.slot, place.depth))
}
