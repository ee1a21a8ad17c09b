//! All labels of a node, one after another.

ghost use Rattle.std.specs.Prelude.{◌++◌, ◌<◌, ◌∷◌, ◌≡◌, ◌≢◌, ◌⊎◌, [], bit_xor, List};
ghost use Rattle.std.specs.Prelude.{MatchOption, pos, ℕ};
ghost use Rattle.cedar_bulk.specs.Words.{AppendsLeaf, AtBase, below, capacity_of, cells, fields};
ghost use Rattle.cedar_bulk.specs.Words.{GetsLabels, Held, IsAt, IsTable, LinksIn, SameFrame};
ghost use Rattle.cedar_bulk.specs.Words.{SameSettings, size_of, WantsLabel, WantsLabels};

use cedar_table::{Layout, Table};
use std::alloc::Allocator;

/// Returns the slot for a label below a node whose slots begin at `base`.
pub(crate) fn slot_at(base: usize, label: u8) -> usize
    ensures { result ≡ bit_xor base label }
{
    base ^ usize::from(label)
}

/// Puts `slot`, which has `label`, into the chain of `node` behind all others: after the slot `before`, or first of all. No label
/// comes after that of `slot`, which says so already since it was free: so it needn't be written.
#[inline(always)]
fn link_last<L: Layout, const SLOTS: usize, A: Allocator>(
    table: &mut Table<L, SLOTS, A>,
    before: Option<usize>,
    node: usize,
    slot: usize,
    label: u8,
)
    requires sound { IsTable SLOTS (fields table.old).places }
    requires before { MatchOption before (Unit {0}) (λ b. (b < size_of (fields table.old)) × Held (cells table.old) b × (b ≢ slot)) }
    requires node_in { node < size_of (fields table.old) }
    requires node_held { Held (cells table.old) node }
    requires last { MatchOption before ((cells table.old).child node ≡ 0) (λ b. (cells table.old).sibling b ≡ 0) }
    requires fresh { (cells table.old).sibling slot ≡ 0 }
    ensures sound { IsTable SLOTS (fields table.new).places }
    ensures linked { LinksIn (cells table.old) (cells table.new) before node slot label }
    ensures frame { SameFrame (fields table.old) (fields table.new) }
{
    match before {
        Some(before) => table.set_sibling(before, label),
        None => table.set_child(node, label),
    }
}

/// Takes the slot of `label` below `node`, whose slots begin at `base`, and returns it. The new leaf comes after all labels of
/// the node, which are lower: after the slot `before`, or first of all. The order of the table doesn't matter.
#[inline(always)]
fn append_label<L: Layout, const SLOTS: usize, A: Allocator>(
    table: &mut Table<L, SLOTS, A>,
    node: usize,
    base: usize,
    before: Option<usize>,
    label: u8,
) -> usize
    requires { WantsLabel SLOTS (fields table.old) node base before label }
    ensures sound { IsTable SLOTS (fields table.new).places }
    ensures slot { result ≡ below (cells table.old) node label }
    ensures tree { AppendsLeaf (fields table.old) (fields table.new) node label }
    ensures leaf { (w : List ℕ) → IsAt (cells table.old) w node → IsAt (cells table.new) (w ++ label ∷ []) result }
    ensures paths { (w : List ℕ) (s : ℕ) → IsAt (cells table.old) w s → IsAt (cells table.new) w s }
    ensures stays { (x : ℕ) → Held (cells table.old) x → (cells table.new).stored x ≡ (cells table.old).stored x }
    ensures keeps { (x : ℕ) → Held (cells table.old) x → Held (cells table.new) x }
    ensures held { (x : ℕ) → Held (cells table.new) x → Held (cells table.old) x ⊎ (x ≡ result) }
    ensures bare { (cells table.new).stored result ≡ AtBase 0 }
    ensures owner { (cells table.new).check result ≡ pos node }
    ensures last { (cells table.new).sibling result ≡ 0 }
    ensures root_check { (cells table.new).check 0 ≡ (cells table.old).check 0 }
    ensures size { size_of (fields table.new) ≡ size_of (fields table.old) }
    ensures capacity { capacity_of (fields table.new) ≡ capacity_of (fields table.old) }
    ensures settings { SameSettings (fields table.old) (fields table.new) }
{
    let slot = slot_at(base, label);
    table.pop_e_node(slot, L::base_field(0), node);
    link_last(table, before, node, slot, label);
    slot
}

/// Takes the slots of ascending labels below `node`, whose slots begin at `base` and which has no label yet. Each comes after the
/// one before it, and the first one after the slot `before`, or first of all.
#[inline(always)]
pub(crate) fn append_labels<L: Layout, const SLOTS: usize, A: Allocator>(
    table: &mut Table<L, SLOTS, A>,
    node: usize,
    base: usize,
    before: Option<usize>,
    labels: &[u8],
)
    requires { WantsLabels SLOTS (fields table.old) node base before labels.now }
    ensures sound { IsTable SLOTS (fields table.new).places }
    ensures gets { GetsLabels (size_of (fields table.old)) (cells table.old) (cells table.new) node labels.now }
    ensures root_check { (cells table.new).check 0 ≡ (cells table.old).check 0 }
    ensures frame { SameFrame (fields table.old) (fields table.new) }
{
    let mut before = before;
    for &label in labels {
        let slot = append_label(table, node, base, before, label);
        before = Some(slot);
    }
}
