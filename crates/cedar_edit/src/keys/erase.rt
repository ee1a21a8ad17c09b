//! A key erased, and nodes that are left with neither number nor child.

ghost use Rattle.std.specs.Prelude.{◌<◌, ◌↔◌, ◌≡◌, is_some, IsTrue, List, None, true, ℕ};
ghost use Rattle.cedar_edit.specs.Words.{capacity_of, cells, cut, EditsNode, fields, Forest};
ghost use Rattle.cedar_edit.specs.Words.{HasNode, is_bare, IsAt, IsTable, IsWellFormed, KeepsMarks};
ghost use Rattle.cedar_edit.specs.Words.{KeepsOtherMarks, marks, MarksCut, node_at, number_at};
ghost use Rattle.cedar_edit.specs.Words.{RemovesNode, root_of, SameFrame, SameModes, size_of};
ghost use Rattle.cedar_edit.specs.Words.{TellsBare, tree_of, TrimsNode};

use crate::edit::leaf::remove_label;
use crate::edit::number::drop_number;
use crate::edit::own::{drop_own_number, has_number};
use cedar_model::{Layout, Stored};
use cedar_table::Table;
use std::alloc::Allocator;

/// Returns whether a node has neither number nor child and isn't the root.
fn is_bare<L: Layout, const SLOTS: usize, A: Allocator>(
    table: &Table<L, SLOTS, A>,
    node: usize,
) -> bool
    requires node_in { node < size_of (fields table.now) }
    requires sound { IsTable SLOTS (fields table.now).places }
    requires node { (f : Forest) × HasNode (fields table.now) f node }
    ensures { TellsBare (size_of (fields table.now)) (cells table.now) node result }
{
    if node == 0 {
        return false;
    }
    match table.stored_at(node) {
        Stored::AtBase(base) => !table.is_owned_by(base, node) && table.child(node) == 0,
        Stored::OwnNumber(_) => false,
        Stored::Nothing => false,
    }
}

/// Returns whether a node's chain has one label, that of `slot`, and no number's slot before it.
fn has_one_label<L: Layout, const SLOTS: usize, A: Allocator>(
    table: &Table<L, SLOTS, A>,
    node: usize,
    slot: usize,
    label: u8,
) -> bool
    requires node_in { node < size_of (fields table.now) }
    requires slot_in { slot < size_of (fields table.now) }
    ensures { IsTrue result ↔ (((cells table.now).child node ≡ label) × ((cells table.now).sibling slot ≡ 0)) }
{
    table.child(node) == label && table.sibling(slot) == 0
}

/// Removes a node below the root that has neither number nor child. Returns the node above it, and whether that now has
/// neither and isn't the root. Its labels show this beforehand, so the slot of its number needn't be read.
fn remove_bare<L: Layout, const SLOTS: usize, A: Allocator>(
    table: &mut Table<L, SLOTS, A>,
    node: usize,
) -> (usize, bool)
    requires sound { IsTable SLOTS (fields table.old).places }
    requires node_in { node < size_of (fields table.old) }
    requires not_root { 0 < node }
    requires node { (f : Forest) × (n : HasNode (fields table.old) f node) × (is_bare (node_at (root_of f) n.path) ≡ true) }
    ensures sound { IsTable SLOTS (fields table.new).places }
    ensures inside { result.0 < size_of (fields table.old) }
    ensures bare { TellsBare (size_of (fields table.new)) (cells table.new) result.0 result.1 }
    ensures tree { RemovesNode (fields table.old) (fields table.new) node result.0 }
    ensures marks { KeepsMarks (cells table.old) (cells table.new) }
    ensures root_check { (cells table.new).check 0 ≡ (cells table.old).check 0 }
    ensures frame { SameFrame (fields table.old) (fields table.new) }
{
    let owner = table.owner(node);
    // The step from a base to a slot also turns a slot into its label.
    let label = (table.base_of(owner) ^ node) as u8;
    let is_last = has_one_label(table, owner, node, label);
    remove_label(table, owner, label);
    (owner, is_last)
}

/// Removes a node that has neither number nor child, and then each node above it that is left so. The root stays,
/// and so does any other node with a number or a child.
pub(crate) fn trim<L: Layout, const SLOTS: usize, A: Allocator>(
    table: &mut Table<L, SLOTS, A>,
    node: usize,
)
    requires sound { IsTable SLOTS (fields table.old).places }
    requires node_in { node < size_of (fields table.old) }
    requires node { (f : Forest) × HasNode (fields table.old) f node }
    ensures sound { IsTable SLOTS (fields table.new).places }

    //= `trim` removes a bare node and each node above it that then is bare, and keeps all marks. [with marks]
    ensures tree { TrimsNode (fields table.old) (fields table.new) node }
    ensures marks { KeepsMarks (cells table.old) (cells table.new) }
    ensures root_check { (cells table.new).check 0 ≡ (cells table.old).check 0 }
    ensures frame { SameFrame (fields table.old) (fields table.new) }
{
    let mut node = node;
    let mut bare = is_bare(table, node);
    while bare {
        let (owner, is_left_bare) = remove_bare(table, node);
        node = owner;
        bare = is_left_bare;
    }
}

/// Drops the number of a node, wherever it is kept.
fn drop_any_number<L: Layout, const SLOTS: usize, A: Allocator>(
    table: &mut Table<L, SLOTS, A>,
    node: usize,
)
    requires sound { IsTable SLOTS (fields table.old).places }
    requires node_in { node < size_of (fields table.old) }
    requires not_root { 0 < node }
    requires node { (f : Forest) × (n : HasNode (fields table.old) f node) × (is_some (node_at (root_of f) n.path).number ≡ true) }
    ensures sound { IsTable SLOTS (fields table.new).places }
    ensures tree { EditsNode (size_of (fields table.old)) (cells table.old) (fields table.new) node (λ _. None) (λ u. u) }
    ensures at { (w : List ℕ) → IsAt (cells table.old) w node → IsAt (cells table.new) w node }
    ensures others { KeepsOtherMarks (cells table.old) (cells table.new) node }
    ensures root_check { (cells table.new).check 0 ≡ (cells table.old).check 0 }
    ensures frame { SameFrame (fields table.old) (fields table.new) }
{
    match table.stored_at(node) {
        Stored::AtBase(_) => drop_number(table, node),
        _ => drop_own_number(table, node),
    }
}

/// Removes the number of a node that has one, and then each node that is left with neither number nor child. It allocates
/// nothing.
#[inline(always)]
pub fn erase_at<L: Layout, const SLOTS: usize, A: Allocator>(
    table: &mut Table<L, SLOTS, A>,
    node: usize,
)
    requires well_formed { IsWellFormed SLOTS (fields table.old) }
    requires node_in { node < size_of (fields table.old) }
    requires held { (w : List ℕ) × IsAt (cells table.old) w node × (is_some (number_at (tree_of (fields table.old)) w) ≡ true) }

    //= `erase_at` of a node with a number does what `erase` of the path to it does. [with tree, marks, marks_cut, modes]
    ensures well_formed { IsWellFormed SLOTS (fields table.new) }
    ensures tree { (w : List ℕ) → IsAt (cells table.old) w node → tree_of (fields table.new) ≡ cut (tree_of (fields table.old)) w }
    ensures marks { KeepsOtherMarks (cells table.old) (cells table.new) node }
    ensures marks_cut { (w : List ℕ) → IsAt (cells table.old) w node → MarksCut (marks (fields table.old)) (marks (fields table.new)) w }
    ensures size { size_of (fields table.new) ≡ size_of (fields table.old) }
    ensures capacity { capacity_of (fields table.new) ≡ capacity_of (fields table.old) }
    ensures modes { SameModes (fields table.old) (fields table.new) }
{
    drop_any_number(table, node);
    trim(table, node);
    table.set_entries(table.entries() - 1);
}

/// Removes a key's number, and then each node that is left with neither number nor child. Returns whether the key
/// was held. It allocates nothing.
pub fn erase<L: Layout, const SLOTS: usize, A: Allocator>(
    table: &mut Table<L, SLOTS, A>,
    key: &[u8],
) -> bool
    requires well_formed { IsWellFormed SLOTS (fields table.old) }

    //= `erase`: the tree is then `cut` of the old one, and the table is well-formed. [with tree]
    ensures well_formed { IsWellFormed SLOTS (fields table.new) }
    ensures tree { tree_of (fields table.new) ≡ cut (tree_of (fields table.old)) key.now }

    //= If the key has a node, each other number stays as it was; of the marks exactly the key's is removed. [with marks_cut]
    ensures marks { (s : ℕ) → IsAt (cells table.old) key.now s → KeepsOtherMarks (cells table.old) (cells table.new) s }
    ensures marks_cut { MarksCut (marks (fields table.old)) (marks (fields table.new)) key.now }

    //= It returns whether the key was held, and can't fail.
    ensures held { result ≡ is_some (number_at (tree_of (fields table.old)) key.now) }

    //= The number of slots in use and the number of slots stay the same. [with capacity; also erase_at]
    ensures size { size_of (fields table.new) ≡ size_of (fields table.old) }
    ensures capacity { capacity_of (fields table.new) ≡ capacity_of (fields table.old) }
    ensures modes { SameModes (fields table.old) (fields table.new) }
{
    let Some(node) = table.node_of(key) else {
        return false;
    };
    if !has_number(table, node) {
        return false;
    }
    erase_at(table, node);
    true
}
