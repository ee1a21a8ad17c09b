//! A label added to a node, and one removed.

ghost use Rattle.std.specs.Prelude.{◌++◌, ◌<◌, ◌∷◌, ◌≡◌, ◌≢◌, [], List, MatchOption, None, pos, ℕ};
ghost use Rattle.cedar_edit.specs.Words.{AddsLabel, AddsLeaf, base_of, below, cells, cells_besides};
ghost use Rattle.cedar_edit.specs.Words.{ComesBehind, EditsNode, fields, Forest, GoesBehind};
ghost use Rattle.cedar_edit.specs.Words.{HasChain, HasNode, Held, InRange, IsAt, IsNodeOf, IsTable};
ghost use Rattle.cedar_edit.specs.Words.{LeadsTo, Node, OwnsNothing, Removes, SameFrame};
ghost use Rattle.cedar_edit.specs.Words.{SeeksBehind, SeeksPlace, SetsChild, SetsSibling, size_of};
ghost use Rattle.cedar_edit.specs.Words.{TakesAlone, without};
ghost use Rattle.cedar_edit.specs.Words.{MayLoseLabel, SeeksOwned, TakesFree, TakesReserved};

use cedar_model::Layout;
use cedar_slots::BLOCK_SIZE;
use cedar_table::Table;
use std::alloc::Allocator;

/// Returns the last slot of the chain from `start` on before `label` comes.
fn last_before<L: Layout, const SLOTS: usize, A: Allocator>(
    table: &Table<L, SLOTS, A>,
    node: usize,
    start: usize,
    label: u8,
) -> usize
    requires { SeeksBehind (fields table.now) node start label }
    ensures { GoesBehind (size_of (fields table.now)) (cells table.now) (fields table.now).ordered node label result }
{
    let mut before = start;
    for _step in 0..BLOCK_SIZE {
        let next = table.sibling(before);
        if !table.ordered() || next == 0 || label < next {
            return before;
        }
        before = table.child_slot(node, next);
    }
    unreachable!()
}

/// Returns the slot that a new label goes after, unless the label begins the node's chain: the first slot of an ordered chain
/// whose next label is greater, or otherwise the slot before all labels.
#[inline(always)]
fn slot_before<L: Layout, const SLOTS: usize, A: Allocator>(
    table: &Table<L, SLOTS, A>,
    node: usize,
    label: u8,
) -> Option<usize>
    requires { SeeksPlace (fields table.now) node label }
    ensures { ComesBehind (fields table.now) node label result }
{
    if node == 0 || table.has_number_slot(node) {
        let lead = table.child_slot(node, 0);
        return Some(last_before(table, node, lead, label));
    }
    let first = table.child(node);
    if !table.ordered() || first == 0 || label < first {
        return None;
    }
    let start = table.child_slot(node, first);
    Some(last_before(table, node, start, label))
}

/// Takes the slot of `label` below `node`, and returns it. The new leaf goes to its ascending place if the table
/// is ordered. If not, it goes before all others, after the slot of the node's number. The node has a base, unless it is the
/// root, and its slot for the label is free.
pub(crate) fn add_label<L: Layout, const SLOTS: usize, A: Allocator>(
    table: &mut Table<L, SLOTS, A>,
    node: usize,
    label: u8,
) -> usize
    requires { TakesFree SLOTS (fields table.old) node label }
    ensures sound { IsTable SLOTS (fields table.new).places }
    ensures slot { result ≡ below (cells table.new) node label }

    //= `add_label`, `remove_label`, `set_number`, `drop_number` change one node's own slots; the tree changes only at that node. [with
    //  tree; also remove_label.removed.tree, set_number.set.tree, drop_number.dropped.tree]
    ensures added { AddsLabel (size_of (fields table.old)) (fields table.old).ordered (cells table.old) (cells table.new) node label }
    ensures tree { AddsLeaf (size_of (fields table.old)) (fields table.old).ordered (cells table.old) (fields table.new) node label }
    ensures leaf { (w : List ℕ) → IsAt (cells table.old) w node → IsAt (cells table.new) (w ++ label ∷ []) result }
    ensures paths { (w : List ℕ) (s : ℕ) → IsAt (cells table.old) w s → IsAt (cells table.new) w s }
    ensures root_check { (cells table.new).check 0 ≡ (cells table.old).check 0 }

    //= Calls that make no block keep the number of slots in use, the number of slots, the order, the entries and `max_trial`. [also
    //  remove_label, set_number, drop_number, trim; by SameFrame]
    ensures frame { SameFrame (fields table.old) (fields table.new) }
{
    let slot = table.slot_below(node, label);
    let before = slot_before(table, node, label);
    table.pop_e_node(slot, L::base_field(0), node);
    table.link(before, node, slot, label);
    slot
}

/// Takes the slot `child`, which is that of `label`, below a node that has a base and owns no slot yet. So nothing is looked for: the
/// node's chain begins and ends with the label, and a slot just taken names no label after its own.
pub(crate) fn add_only<L: Layout, const SLOTS: usize, A: Allocator>(
    table: &mut Table<L, SLOTS, A>,
    node: usize,
    child: usize,
    label: u8,
)
    requires { TakesAlone SLOTS (fields table.old) node child label }
    ensures sound { IsTable SLOTS (fields table.new).places }
    ensures slot { child ≡ below (cells table.new) node label }
    ensures added { AddsLabel (size_of (fields table.old)) (fields table.old).ordered (cells table.old) (cells table.new) node label }
    ensures tree { AddsLeaf (size_of (fields table.old)) (fields table.old).ordered (cells table.old) (fields table.new) node label }
    ensures leaf { (w : List ℕ) → IsAt (cells table.old) w node → IsAt (cells table.new) (w ++ label ∷ []) child }
    ensures keeps { (x : ℕ) → Held (cells table.old) x → Held (cells table.new) x }
    ensures taken { Held (cells table.new) child }
    ensures root_check { (cells table.new).check 0 ≡ (cells table.old).check 0 }
    ensures frame { SameFrame (fields table.old) (fields table.new) }
{
    table.pop_e_node(child, L::base_field(0), node);
    table.set_child(node, label);
}

/// Takes the slot of `label` below `node`, which is reserved for it, and returns it. The new leaf goes where
/// `add_label` puts one.
pub(crate) fn add_reserved<L: Layout, const SLOTS: usize, A: Allocator>(
    table: &mut Table<L, SLOTS, A>,
    node: usize,
    label: u8,
) -> usize
    requires { TakesReserved SLOTS (fields table.old) node label }
    ensures sound { IsTable SLOTS (fields table.new).places }
    ensures slot { result ≡ below (cells table.new) node label }
    ensures added { AddsLabel (size_of (fields table.old)) (fields table.old).ordered (cells_besides (fields table.old) node label) (cells table.new) node label }
    ensures tree { AddsLeaf (size_of (fields table.old)) (fields table.old).ordered (cells_besides (fields table.old) node label) (fields table.new) node label }
    ensures leaf { (w : List ℕ) → IsAt (cells_besides (fields table.old) node label) w node → IsAt (cells table.new) (w ++ label ∷ []) result }
    ensures root_check { (cells table.new).check 0 ≡ (cells table.old).check 0 }
    ensures frame { SameFrame (fields table.old) (fields table.new) }
{
    let slot = table.child_slot(node, label);
    let before = slot_before(table, node, label);
    table.claim(slot, L::base_field(0), node);
    table.link(before, node, slot, label);
    slot
}

/// Returns the slot whose chain goes on with `label`, unless the node's own slot leads to it.
fn slot_to<L: Layout, const SLOTS: usize, A: Allocator>(
    table: &Table<L, SLOTS, A>,
    node: usize,
    label: u8,
) -> Option<usize>
    requires { SeeksOwned (fields table.now) node label }
    ensures { MatchOption result ((cells table.now).child node ≡ label) (LeadsTo (size_of (fields table.now)) (cells table.now) node label) }
{
    let first = table.child(node);
    if first == label {
        return None;
    }
    let mut before = table.child_slot(node, first);
    for _step in 0..BLOCK_SIZE {
        let next = table.sibling(before);
        if next == label {
            return Some(before);
        }
        before = table.child_slot(node, next);
    }
    unreachable!()
}

/// Makes `next` follow the slot `before`, or otherwise begin the chain of `node`.
fn lead_to<L: Layout, const SLOTS: usize, A: Allocator>(
    table: &mut Table<L, SLOTS, A>,
    before: Option<usize>,
    node: usize,
    next: u8,
)
    requires sound { IsTable SLOTS (fields table.old).places }
    requires before { MatchOption before (Unit {0}) (λ b. (b < size_of (fields table.old)) × Held (cells table.old) b) }
    requires node_in { node < size_of (fields table.old) }
    requires node_held { Held (cells table.old) node }
    ensures sound { IsTable SLOTS (fields table.new).places }
    ensures set { MatchOption before (SetsChild (cells table.old) (cells table.new) node next) (λ b. SetsSibling (cells table.old) (cells table.new) b next) }
    ensures frame { SameFrame (fields table.old) (fields table.new) }
{
    match before {
        Some(before) => table.set_sibling(before, next),
        None => table.set_child(node, next),
    }
}

/// Takes the leaf of `label`, which has no number, out of the chain of `node`, and gives its slot back.
pub(crate) fn remove_label<L: Layout, const SLOTS: usize, A: Allocator>(
    table: &mut Table<L, SLOTS, A>,
    node: usize,
    label: u8,
)
    requires { MayLoseLabel SLOTS (fields table.old) node label }
    ensures sound { IsTable SLOTS (fields table.new).places }
    ensures removed { Removes (size_of (fields table.old)) (cells table.old) (cells table.new) node label }
    ensures tree { EditsNode (size_of (fields table.old)) (cells table.old) (fields table.new) node (λ n. n) (λ u. without u label) }
    ensures root_check { (cells table.new).check 0 ≡ (cells table.old).check 0 }
    ensures frame { SameFrame (fields table.old) (fields table.new) }
{
    let slot = table.child_slot(node, label);
    let next = table.sibling(slot);
    let before = slot_to(table, node, label);
    lead_to(table, before, node, next);
    table.push_e_node(slot);
}
