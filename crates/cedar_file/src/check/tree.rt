//! Tests of whether the held slots of a table represent a tree.

ghost use Rattle.std.specs.Prelude.{◌*◌, ◌+◌, ◌/◌, ◌<◌, ◌^◌, ◌↔◌, ◌≡◌, ◌≢◌, ◌≤◌, count_by, IfOk};
ghost use Rattle.std.specs.Prelude.{IsTrue, MatchOption, OnErr, OnOk, pos, ℕ};
ghost use Rattle.cedar_file.specs.Words.{AtBased, AtNode, AtOwn, AtValued, base_in, block_at, cells};
ghost use Rattle.cedar_file.specs.Words.{ComesBackIn, fields, GoesDown, GoesOn, GoesUp, is_held};
ghost use Rattle.cedar_file.specs.Words.{is_value, IsTable, IsWellFormed, LooksLikeRoot, MeetsNode};
ghost use Rattle.cedar_file.specs.Words.{range_with_len, reading, size_of, StepsDown, StepsUp};
ghost use Rattle.cedar_file.specs.Words.{walk_start};

use cedar_slots::{BLOCK_SIZE, BlockRecord, Corrupt, NInfoRecord, NodeRecord, Ticks};
use cedar_table::{Layout, Stored, Table};
use std::alloc::Allocator;
use std::sync::ledger::Ledger;

/// A walk over the nodes of a table: each before those below it, and these before its next sibling. It keeps no stack: a
/// node's check field leads back to the node above.
#[derive(Clone, Copy)]
pub(crate) struct Walk {
    /// The node below which the walk goes on, and where the slots of that node begin.
    node: usize,
    base: usize,
    /// The label of its child that comes next, or 0 if all that is below the node was met.
    label: u8,
    /// How many slots were met, and how many numbers.
    met: usize,
    numbers: usize,
}

/// Returns whether a key may have this number.
fn is_in_range(value: i32) -> bool
    ensures { result ≡ is_value value }
{
    (0..=2147483645).contains(&value)
}

/// Returns whether a check field names this owner.
fn names(check: i32, owner: usize) -> bool
    requires { owner < 2 ^ 31 }
    ensures { IsTrue result ↔ (check ≡ pos owner) }
{
    check == owner as i32
}

/// Returns the record of a slot in use. The read is counted.
fn read_node<L: Layout, const SLOTS: usize, A: Allocator, C: Ledger>(
    table: &Table<L, SLOTS, A>,
    slot: usize,
    reads: &mut Ticks<C>,
) -> NodeRecord
    requires { slot < size_of (fields table.now) }
    ensures base { result.base ≡ (cells table.now).base slot }
    ensures stored { reading L.kind result.base ≡ (cells table.now).stored slot }
    ensures check { result.check ≡ (cells table.now).check slot }
    ensures counted { reads.new ≡ reads.old + 1 }
{
    let base = table.base(slot);
    let check = table.check(slot, reads);
    NodeRecord { base, check }
}

/// Returns the labels of a slot in use. The read is counted.
fn read_info<L: Layout, const SLOTS: usize, A: Allocator, C: Ledger>(
    table: &Table<L, SLOTS, A>,
    slot: usize,
    reads: &mut Ticks<C>,
) -> NInfoRecord
    requires { slot < size_of (fields table.now) }
    ensures sibling { result.sibling ≡ (cells table.now).sibling slot }
    ensures child { result.child ≡ (cells table.now).child slot }
    ensures counted { reads.new ≡ reads.old + 1 }
{
    reads.tick();
    let sibling = table.sibling(slot);
    let child = table.child(slot);
    NInfoRecord { sibling, child }
}

/// Returns the owner that a check field names, if that is a slot in use.
fn owner_named<L: Layout, const SLOTS: usize, A: Allocator>(
    table: &Table<L, SLOTS, A>,
    check: i32,
) -> Option<usize>
    ensures { MatchOption result ((c : ℕ) → c < size_of (fields table.now) → check ≢ pos c) (λ c. (check ≡ pos c) × (c < size_of (fields table.now))) }
{
    if check < 0 {
        return None;
    }
    let owner = check as usize;
    if owner >= table.size() {
        return None;
    }
    Some(owner)
}

/// Returns where the slots of a node with this base field begin, or 0 if it doesn't say.
fn base_in<L: Layout>(field: i32) -> usize
    ensures { result ≡ base_in (reading L.kind field) }
{
    match L::read_base(field) {
        Stored::AtBase(base) => base,
        Stored::OwnNumber(_) => 0,
        Stored::Nothing => 0,
    }
}

/// Meets a node that keeps its number in its own base field.
fn meet_own<L: Layout, const SLOTS: usize, A: Allocator, C: Ledger>(
    table: &Table<L, SLOTS, A>,
    walk: Walk,
    slot: usize,
    value: i32,
    reads: &mut Ticks<C>,
) -> Result<Walk, Corrupt>
    requires { AtOwn (fields table.now) walk slot value }
    ensures meets { MeetsNode (size_of (fields table.now)) (cells table.now) walk slot result }
    ensures cost { reads.new ≡ reads.old + 1 }
{
    let info = read_info(table, slot, reads);
    if !is_in_range(value) {
        return Err(Corrupt::trie(slot, "invalid reduced-layout sentinel"));
    }
    if info.child != 0 {
        return Err(Corrupt::trie(slot, "inline value node has children"));
    }
    Ok(Walk {
        node: slot,
        base: 0,
        label: 0,
        met: walk.met + 1,
        numbers: walk.numbers + 1,
    })
}

/// Meets a node and the slot of its number.
fn meet_valued<L: Layout, const SLOTS: usize, A: Allocator, C: Ledger>(
    table: &Table<L, SLOTS, A>,
    walk: Walk,
    slot: usize,
    base: usize,
    value: i32,
    child: u8,
    reads: &mut Ticks<C>,
) -> Result<Walk, Corrupt>
    requires { AtValued (fields table.now) walk slot base value child }
    ensures meets { MeetsNode (size_of (fields table.now)) (cells table.now) walk slot result }
    ensures cost { reads.new ≡ reads.old + 1 }
{
    let info = read_info(table, base, reads);
    if child != 0 || info.child != 0 || !is_in_range(value) {
        return Err(Corrupt::trie(base, "invalid terminal value node"));
    }
    if base < BLOCK_SIZE {
        return Err(Corrupt::trie(slot, "base lies in block zero"));
    }
    Ok(Walk {
        node: slot,
        base,
        label: info.sibling,
        met: walk.met + 2,
        numbers: walk.numbers + 1,
    })
}

/// Meets a node with a base.
fn meet_based<L: Layout, const SLOTS: usize, A: Allocator, C: Ledger>(
    table: &Table<L, SLOTS, A>,
    walk: Walk,
    slot: usize,
    base: usize,
    reads: &mut Ticks<C>,
) -> Result<Walk, Corrupt>
    requires { AtBased (fields table.now) walk slot base }
    ensures meets { MeetsNode (size_of (fields table.now)) (cells table.now) walk slot result }
    ensures cost { reads.new ≤ reads.old + 3 }
{
    if base >= table.size() {
        return Err(Corrupt::trie(slot, "base is outside active nodes"));
    }
    let child = read_info(table, slot, reads).child;
    let number = read_node(table, base, reads);
    if names(number.check, slot) {
        return meet_valued(table, walk, slot, base, number.base, child, reads);
    }
    if child == 0 {
        return Err(Corrupt::trie(slot, "structural node has no children"));
    }
    if base < BLOCK_SIZE {
        return Err(Corrupt::trie(slot, "base lies in block zero"));
    }
    Ok(Walk {
        node: slot,
        base,
        label: child,
        met: walk.met + 1,
        numbers: walk.numbers,
    })
}

/// Goes on to the child under the walk's label, if its slot is the node's and looks like a node.
fn go_down<L: Layout, const SLOTS: usize, A: Allocator, C: Ledger>(
    table: &Table<L, SLOTS, A>,
    walk: Walk,
    reads: &mut Ticks<C>,
) -> Result<Walk, Corrupt>
    requires at { AtNode (fields table.now) walk }
    requires label { 0 < walk.label }
    ensures down { IfOk result (StepsDown (size_of (fields table.now)) (cells table.now) walk) }
    ensures faulty { OnErr result (GoesDown (size_of (fields table.now)) (cells table.now) walk → ⊥) }
    ensures cost { reads.new ≤ reads.old + 4 }
{
    let slot = walk.base ^ usize::from(walk.label);
    if slot >= table.size() {
        return Err(Corrupt::child_owner(walk.node));
    }
    let node = read_node(table, slot, reads);
    if !names(node.check, walk.node) {
        return Err(Corrupt::child_owner(walk.node));
    }
    match L::read_base(node.base) {
        Stored::AtBase(base) => meet_based(table, walk, slot, base, reads),
        Stored::OwnNumber(value) => meet_own(table, walk, slot, value, reads),
        Stored::Nothing => Err(Corrupt::trie(slot, "invalid default-layout base")),
    }
}

/// Goes back up from a node below which all was met, and on to its next sibling's label.
fn go_up<L: Layout, const SLOTS: usize, A: Allocator, C: Ledger>(
    table: &Table<L, SLOTS, A>,
    walk: Walk,
    reads: &mut Ticks<C>,
) -> Result<Walk, Corrupt>
    requires inside { walk.node < size_of (fields table.now) }
    requires not_root { walk.node ≢ 0 }
    requires label { walk.label ≡ 0 }
    ensures up { IfOk result (StepsUp (size_of (fields table.now)) (fields table.now).ordered (cells table.now) walk) }
    ensures faulty { OnErr result ((c : ℕ) → GoesUp (size_of (fields table.now)) (fields table.now).ordered (cells table.now) walk c → ⊥) }
    ensures cost { reads.new ≤ reads.old + 3 }
{
    let node = read_node(table, walk.node, reads);
    let Some(owner) = owner_named(table, node.check) else {
        return Err(Corrupt::child_owner(walk.node));
    };
    let base = base_in::<L>(read_node(table, owner, reads).base);
    let label = read_info(table, walk.node, reads).sibling;
    // The step from a base to a slot also turns a slot into its label.
    if table.ordered() && label != 0 && usize::from(label) <= base ^ walk.node {
        return Err(Corrupt::siblings(owner, "ordered sibling chain is not sorted"));
    }
    Ok(Walk {
        node: owner,
        base,
        label,
        met: walk.met,
        numbers: walk.numbers,
    })
}

/// One step of a walk that isn't back at the root yet.
fn go_on<L: Layout, const SLOTS: usize, A: Allocator, C: Ledger>(
    table: &Table<L, SLOTS, A>,
    walk: Walk,
    reads: &mut Ticks<C>,
) -> Result<Walk, Corrupt>
    requires at { AtNode (fields table.now) walk }
    requires away { walk.label ≡ 0 → walk.node ≢ 0 }
    ensures on { IfOk result (GoesOn (size_of (fields table.now)) (fields table.now).ordered (cells table.now) walk) }
    ensures faulty { OnErr result ((next : Walk) → GoesOn (size_of (fields table.now)) (fields table.now).ordered (cells table.now) walk next → ⊥) }
    ensures cost { reads.new ≤ reads.old + 4 }
{
    if walk.label != 0 {
        return go_down(table, walk, reads);
    }
    go_up(table, walk, reads)
}

/// Returns where a walk begins, if the root's slot looks like it.
fn begin_walk<L: Layout, const SLOTS: usize, A: Allocator, C: Ledger>(
    table: &Table<L, SLOTS, A>,
    reads: &mut Ticks<C>,
) -> Result<Walk, Corrupt>
    ensures root { IfOk result (λ walk. LooksLikeRoot (cells table.now) × (walk ≡ walk_start (cells table.now))) }
    ensures faulty { OnErr result (LooksLikeRoot (cells table.now) → ⊥) }
    ensures cost { reads.new ≡ reads.old + 2 }
{
    let root = read_node(table, 0, reads);
    let info = read_info(table, 0, reads);
    let Stored::AtBase(base) = L::read_base(root.base) else {
        return Err(Corrupt::nodes(0, "invalid root sentinel"));
    };
    if base != 0 || root.check != -1 {
        return Err(Corrupt::nodes(0, "invalid root sentinel"));
    }
    if info.child != 0 {
        return Err(Corrupt::trie(0, "root child sentinel is not zero"));
    }
    Ok(Walk {
        node: 0,
        base: 0,
        label: info.sibling,
        met: 1,
        numbers: 0,
    })
}

/// Walks over the whole tree. Each node is entered once and left once: a walk of more steps goes round in a chain of
/// labels.
fn walk_tree<L: Layout, const SLOTS: usize, A: Allocator, C: Ledger>(
    table: &Table<L, SLOTS, A>,
    start: Walk,
    reads: &mut Ticks<C>,
) -> Result<Walk, Corrupt>
    requires root { LooksLikeRoot (cells table.now) }
    requires start { start ≡ walk_start (cells table.now) }
    ensures ended { IfOk result (λ walk. ComesBackIn (fields table.now) start walk.met walk.numbers) }
    ensures faulty { OnErr result ((met numbers : ℕ) → ComesBackIn (fields table.now) start met numbers → ⊥) }
    ensures cost { reads.new ≤ reads.old + 8 * size_of (fields table.now) }
{
    let mut walk = start;
    for _step in 0..2 * table.size() {
        if walk.label == 0 && walk.node == 0 {
            return Ok(walk);
        }
        walk = go_on(table, walk, reads)?;
    }
    Err(Corrupt::siblings(walk.node, "sibling chain contains a cycle"))
}

/// Returns the record of a block in use. The read is counted.
fn read_block<L: Layout, const SLOTS: usize, A: Allocator, C: Ledger>(
    table: &Table<L, SLOTS, A>,
    block: usize,
    reads: &mut Ticks<C>,
) -> BlockRecord
    requires { 256 * block < size_of (fields table.now) }
    ensures value { result ≡ block_at (fields table.now).places.blocks.records block }
    ensures counted { reads.new ≡ reads.old + 1 }
{
    reads.tick();
    table.block(block)
}

/// Returns how many slots are held, by what the blocks count as free. Each block's record is a counted read.
fn count_held<L: Layout, const SLOTS: usize, A: Allocator, C: Ledger>(
    table: &Table<L, SLOTS, A>,
    reads: &mut Ticks<C>,
) -> usize
    requires { IsTable SLOTS (fields table.now).places }
    ensures count { result ≡ count_by (is_held (cells table.now)) (range_with_len 0 (size_of (fields table.now))) }
    ensures cost { reads.new ≡ reads.old + size_of (fields table.now) / 256 }
{
    let mut free: usize = 0;
    for block in 0..table.size() / BLOCK_SIZE {
        free += read_block(table, block, reads).num as usize;
    }
    1 + table.size() - free
}

/// Tests whether the held slots represent a tree: they are exactly those of its nodes and numbers, with values in range, labels
/// in their order and as many entries as the table says. A slot is met once on the walk over the nodes, since it has one owner:
/// so if as many were met as are held, these are all. It allocates nothing.
pub fn check_tree<L: Layout, const SLOTS: usize, A: Allocator, C: Ledger>(
    table: &Table<L, SLOTS, A>,
    reads: &mut Ticks<C>,
) -> Result<(), Corrupt>
    requires { IsTable SLOTS (fields table.now).places }

    //= `check_tree`, on a table that `IsTable`: `Ok` exactly if it is well-formed. [with faulty]
    ensures well_formed { OnOk result (IsWellFormed SLOTS (fields table.now)) }
    ensures faulty { OnErr result (IsWellFormed SLOTS (fields table.now) → ⊥) }

    //= It counts at most 8 reads for a slot in use, one for a block and 2 more.
    ensures cost { reads.new ≤ reads.old + 8 * size_of (fields table.now) + size_of (fields table.now) / 256 + 2 }
{
    let start = begin_walk(table, reads)?;
    let walk = walk_tree(table, start, reads)?;
    if walk.met != count_held(table, reads) {
        return Err(Corrupt::trie(0, "occupied node is unreachable"));
    }
    if walk.numbers != table.entries() {
        return Err(Corrupt {
            section: "entries",
            index: 0,
            reason: "entry count does not match trie values",
        });
    }
    Ok(())
}
