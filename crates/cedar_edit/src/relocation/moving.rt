//! Moving the slots of a node to another base.

ghost use Rattle.std.specs.Prelude.{◌<◌, ◌^◌, ◌≡◌, ◌≢◌, bit_xor, List, pos, true, ℕ};
ghost use Rattle.cedar_edit.specs.Words.{Always, Among, base_of, cells, cells_without, Family};
ghost use Rattle.cedar_edit.specs.Words.{fields, goes_before, Head, IsNode, IsNumber, IsPlace};
ghost use Rattle.cedar_edit.specs.Words.{IsTable, Links, MayReserve, Movable, MovesSlot, Relocated};
ghost use Rattle.cedar_edit.specs.Words.{Renames, RenamesAround, Repointed, Repoints};
ghost use Rattle.cedar_edit.specs.Words.{RepointsUnder, SameFrame, SameHeld, single, size_of};
ghost use Rattle.cedar_edit.specs.Words.{without_reserved};

use cedar_model::Layout;
use cedar_slots::NInfoRecord;
use cedar_table::Table;
use std::alloc::Allocator;

/// Makes `to` the owner of the slots that `from` owns under the labels from `first` on in its chain.
fn repoint_chain<L: Layout, const SLOTS: usize, A: Allocator>(
    table: &mut Table<L, SLOTS, A>,
    from: usize,
    first: u8,
    to: usize,
)
    requires sound { IsTable SLOTS (fields table.old).places }
    requires from_in { from < size_of (fields table.old) }
    requires based { base_of (cells table.old) from < size_of (fields table.old) }
    requires to_in { to < 2 ^ 31 }
    requires chain { (ls : List ℕ) × Links (cells table.old) from first ls }
    ensures sound { IsTable SLOTS (fields table.new).places }
    ensures repointed { (ls : List ℕ) → Links (cells table.old) from first ls → Repointed (cells table.old) (cells table.new) from to (Among ls) }
    ensures frame { SameFrame (fields table.old) (fields table.new) }
{
    let base = table.base_of(from);
    let mut label = first;
    while label != 0 {
        let slot = base ^ usize::from(label);
        table.set_check(slot, to);
        label = table.sibling(slot);
    }
}

/// Makes `to` the owner of the slot of `from`'s number, if it has one, and returns the label after it.
fn repoint_number<L: Layout, const SLOTS: usize, A: Allocator>(
    table: &mut Table<L, SLOTS, A>,
    from: usize,
    to: usize,
) -> u8
    requires sound { IsTable SLOTS (fields table.old).places }
    requires from_in { from < size_of (fields table.old) }
    requires not_root { from ≢ 0 }
    requires to_in { to < 2 ^ 31 }
    requires node { IsNode (size_of (fields table.old)) (cells table.old) from }
    ensures sound { IsTable SLOTS (fields table.new).places }
    ensures number { Repointed (cells table.old) (cells table.new) from to IsNumber }
    ensures chain { (h : Head) (ls : List ℕ) → Family (size_of (fields table.old)) (cells table.old) from h ls → Links (cells table.new) from result ls }
    ensures frame { SameFrame (fields table.old) (fields table.new) }
{
    if table.has_number_slot(from) {
        let slot = table.base_of(from);
        table.set_check(slot, to);
        return table.sibling(slot);
    }
    table.child(from)
}

/// Makes `to` the owner of all that the node `from` owns: the slot of its number first, then along its chain.
fn repoint<L: Layout, const SLOTS: usize, A: Allocator>(
    table: &mut Table<L, SLOTS, A>,
    from: usize,
    to: usize,
)
    requires { Repoints SLOTS (fields table.old) from to }
    ensures sound { IsTable SLOTS (fields table.new).places }
    ensures repointed { Repointed (cells table.old) (cells table.new) from to Always }
    ensures frame { SameFrame (fields table.old) (fields table.new) }
{
    let first = repoint_number(table, from, to);
    repoint_chain(table, from, first, to);
}

/// Makes `to` the owner of all that `from` owns, which is the slot of its owner's label `label`. Nothing belongs to the
/// slot of a number.
fn repoint_under<L: Layout, const SLOTS: usize, A: Allocator>(
    table: &mut Table<L, SLOTS, A>,
    from: usize,
    to: usize,
    label: u8,
)
    requires { RepointsUnder SLOTS (fields table.old) from to label }
    ensures sound { IsTable SLOTS (fields table.new).places }
    ensures repointed { Repointed (cells table.old) (cells table.new) from to Always }
    ensures frame { SameFrame (fields table.old) (fields table.new) }
{
    if label != 0 {
        repoint(table, from, to);
    }
}

/// Copies what the slot `from` has, which `owner` owns under `label`, to the free slot `to`. The slot `from` is held
/// as before, but is no longer part of the tree.
fn copy_slot<L: Layout, const SLOTS: usize, A: Allocator>(
    table: &mut Table<L, SLOTS, A>,
    from: usize,
    to: usize,
    owner: usize,
    label: u8,
)
    requires { MovesSlot SLOTS (fields table.old) from to owner label }
    ensures sound { IsTable SLOTS (fields table.new).places }
    ensures still { (cells table.new).check from ≡ pos owner }
    ensures renamed { Renames (cells table.old) (cells_without (cells table.new) from) (single from to) }
    ensures frame { SameFrame (fields table.old) (fields table.new) }
{
    repoint_under(table, from, to, label);
    let base = table.base(from);
    table.pop_e_node(to, base, owner);
    let info = NInfoRecord {
        sibling: table.sibling(from),
        child: table.child(from),
    };
    table.write_info(to, info);
}

/// Moves what the slot `from` has, which `owner` owns under `label`, to the free slot `to`.
fn move_slot<L: Layout, const SLOTS: usize, A: Allocator>(
    table: &mut Table<L, SLOTS, A>,
    from: usize,
    to: usize,
    owner: usize,
    label: u8,
)
    requires { MovesSlot SLOTS (fields table.old) from to owner label }
    ensures sound { IsTable SLOTS (fields table.new).places }
    ensures renamed { Renames (cells table.old) (cells table.new) (single from to) }
    ensures frame { SameFrame (fields table.old) (fields table.new) }
{
    copy_slot(table, from, to, owner, label);
    table.push_e_node(from);
}

/// Moves what the slot `from` has to the free slot `to`. The slot `wanted` isn't given back, but reserved.
fn pass_slot<L: Layout, const SLOTS: usize, A: Allocator>(
    table: &mut Table<L, SLOTS, A>,
    from: usize,
    to: usize,
    owner: usize,
    label: u8,
    wanted: usize,
)
    requires { MovesSlot SLOTS (fields table.old) from to owner label }
    ensures sound { IsTable SLOTS (fields table.new).places }
    ensures kept { from ≢ wanted → Renames (cells table.old) (cells table.new) (single from to) }
    ensures passed { from ≡ wanted → RenamesAround (cells table.old) (cells table.new) wanted (single from to) }
    ensures frame { SameFrame (fields table.old) (fields table.new) }
{
    if from == wanted {
        copy_slot(table, from, to, owner, label);
        table.set_check(from, 0);
        return;
    }
    move_slot(table, from, to, owner, label);
}

/// Takes a free slot to be reserved, once it is time and if it isn't reserved yet. The slot is held in the root's name.
fn reserve<L: Layout, const SLOTS: usize, A: Allocator>(
    table: &mut Table<L, SLOTS, A>,
    slot: usize,
    reserved: bool,
    now: bool,
) -> bool
    requires { MayReserve SLOTS (fields table.old) slot reserved }
    ensures sound { IsTable SLOTS (fields table.new).places }
    ensures marked { result ≡ true → (cells table.new).check slot ≡ pos 0 }
    ensures seen { SameHeld (without_reserved reserved (cells table.old) slot) (without_reserved result (cells table.new) slot) }
    ensures now { now ≡ true → result ≡ true }
    ensures frame { SameFrame (fields table.old) (fields table.new) }
{
    if reserved || !now {
        return reserved;
    }
    table.pop_e_node(slot, L::base_field(0), 0);
    true
}

/// Returns whether a new label goes before one that a node owns: the lower one first if the table is ordered, and if not,
/// the new one before all but the 0 of a number.
pub(crate) fn goes_before<L: Layout, const SLOTS: usize, A: Allocator>(
    table: &Table<L, SLOTS, A>,
    label: u8,
    other: u8,
) -> bool
    ensures { result ≡ goes_before (fields table.now).ordered label other }
{
    if table.ordered() {
        label < other
    } else {
        other != 0
    }
}

/// Moves the slots that `parent` owns, those of `labels`, to the base `base`: one after another, each
/// with all that it has, so that the chains are as they were. The old slot `wanted` is kept back for another node,
/// and the others are given back.
pub(crate) fn relocate_around<L: Layout, const SLOTS: usize, A: Allocator>(
    table: &mut Table<L, SLOTS, A>,
    parent: usize,
    base: usize,
    labels: &[u8],
    wanted: usize,
)
    requires sound { IsTable SLOTS (fields table.old).places }
    requires parent_in { parent < size_of (fields table.old) }
    requires movable { Movable (size_of (fields table.old)) (cells table.old) parent base labels.now }
    requires mine { (cells table.old).check wanted ≡ pos parent }
    ensures sound { IsTable SLOTS (fields table.new).places }

    //= A relocation renames the slots of one node's set and keeps the tree; each node's labels stay in their order. [also relocate_with]
    ensures relocated { Relocated (size_of (fields table.old)) (cells table.old) (cells_without (cells table.new) wanted) parent base }
    ensures reserved { (cells table.new).check wanted ≡ pos 0 }
    ensures root_check { (cells table.new).check 0 ≡ (cells table.old).check 0 }
    ensures frame { SameFrame (fields table.old) (fields table.new) }
{
    let old_base = table.base_of(parent);
    for label in labels {
        let from = old_base ^ usize::from(*label);
        let to = base ^ usize::from(*label);
        pass_slot(table, from, to, parent, *label, wanted);
    }
    table.set_base(parent, base);
}

/// Moves the slots that `parent` owns, those of `labels`, to the base `new_base`, one after another. The slot
/// there for a new label is taken when its turn among them comes, and kept back for it.
#[inline(always)]
pub(crate) fn relocate_with<L: Layout, const SLOTS: usize, A: Allocator>(
    table: &mut Table<L, SLOTS, A>,
    parent: usize,
    new_base: usize,
    labels: &[u8],
    label: u8,
)
    requires sound { IsTable SLOTS (fields table.old).places }
    requires parent_in { parent < size_of (fields table.old) }
    requires movable { Movable (size_of (fields table.old)) (cells table.old) parent new_base labels.now }
    requires new { Among labels.now label → ⊥ }
    requires place { IsPlace (size_of (fields table.old)) (cells table.old) (bit_xor new_base label) }
    ensures sound { IsTable SLOTS (fields table.new).places }
    ensures relocated { Relocated (size_of (fields table.old)) (cells table.old) (cells_without (cells table.new) (bit_xor new_base label)) parent new_base }
    ensures reserved { (cells table.new).check (bit_xor new_base label) ≡ pos 0 }
    ensures root_check { (cells table.new).check 0 ≡ (cells table.old).check 0 }
    ensures frame { SameFrame (fields table.old) (fields table.new) }
{
    let old_base = table.base_of(parent);
    let slot = new_base ^ usize::from(label);
    let mut reserved = false;
    for other in labels {
        let now = goes_before(table, label, *other);
        reserved = reserve(table, slot, reserved, now);
        let from = old_base ^ usize::from(*other);
        let to = new_base ^ usize::from(*other);
        move_slot(table, from, to, parent, *other);
    }
    reserve(table, slot, reserved, true);
    table.set_base(parent, new_base);
}
