//! A table made from sorted pairs: each node gets all of its slots at once, the last child's subtree first.

ghost use Rattle.std.specs.Prelude.{◌*◌, ◌++◌, ◌+◌, ◌<◌, ◌∷◌, ◌≡◌, ◌≢◌, ◌≤ℤ◌, ◌≤◌, []};
ghost use Rattle.std.specs.Prelude.{IfErr, IfOk, length, List, None, OnErr, OnOk};
ghost use Rattle.std.specs.Prelude.{option_to_list, pos, true, ℕ};
ghost use Rattle.cedar_bulk.specs.Words.{AddsChildren, AllByRecursion, ArePathsAscending};
ghost use Rattle.cedar_bulk.specs.Words.{ArePathsKeys, asc, AtBase, cells, count_crowded_forest};
ghost use Rattle.cedar_bulk.specs.Words.{CoversChildren, empty_tree, EndsFilling, entries_by};
ghost use Rattle.cedar_bulk.specs.Words.{fields, Filling, FillsSpan, FillsTail, Forest};
ghost use Rattle.cedar_bulk.specs.Words.{GoesOnAlike, HasBlocksFor, HoldsTree, is_value, IsPacked};
ghost use Rattle.cedar_bulk.specs.Words.{IsSlotLimit, IsTable, IsTreeOfSpan, IsUnfilled};
ghost use Rattle.cedar_bulk.specs.Words.{IsWellFormed, KeepsOwnOf, labels, LacksMemoryOr};
ghost use Rattle.cedar_bulk.specs.Words.{MakesBlocks, marks, MayRefuse, none, OfTree, Packs};
ghost use Rattle.cedar_bulk.specs.Words.{PacksNext, PacksSpan, PacksTail, PacksTurn, Part, part_of};
ghost use Rattle.cedar_bulk.specs.Words.{parts_of, prefixes, prefixes_forest, SameModes};
ghost use Rattle.cedar_bulk.specs.Words.{SameSettings, size_of, SlotLimit, SortedMarks, TakesOne};
ghost use Rattle.cedar_bulk.specs.Words.{Tree, tree_of, TurnsNext, WantsMore, WantsMoreThan};

use crate::fill::{fill_node, name_alone};
use crate::spans::{
    Labels, Span, depth_below, first_label_at, go_on_alike, list_spans, move_spans, number_at,
};
use arrayvec::ArrayVec;
use cedar_slots::Shortage;
use cedar_table::{Layout, Table};
use std::alloc::Allocator;
use std::convert::AsSlice;

/// Gives the node of a span its number and its labels, and adds a span for each of these. The labels are listed in `wanted`.
fn fill_span<'a, L: Layout, const SLOTS: usize, A: Allocator, K: AsSlice<u8>>(
    table: &mut Table<L, SLOTS, A>,
    span: Span<'a, K>,
    wanted: &mut Labels,
    pending: &mut Vec<Span<'a, K>, A>,
) -> Result<(), Shortage>
    requires bare { IsUnfilled SLOTS (fields table.old) span.node }
    requires tree { (t : Tree) × IsTreeOfSpan span.depth (entries_by K.items span.pairs.now) t × (span.node ≡ 0 → t.number ≡ None) }
    ensures sound { IsTable SLOTS (fields table.new).places }
    ensures fills { OnOk result (FillsSpan K.items (fields table.old) (fields table.new) span.entry) }
    ensures own { OnOk result (KeepsOwnOf K.items L.kind (fields table.new) span.entry) }
    ensures spans { OnOk result (AddsChildren K.items (fields table.new) span.entry pending.old.items pending.new.items) }
    ensures refused { IfErr result (LacksMemoryOr (MayRefuse (fields table.new).places SLOTS SlotLimit × MakesBlocks 0 (fields table.old) (fields table.new))) }
    ensures blocks { (n : ℕ) × (n ≤ 1) × (span.entry.node ≡ 0 → n ≡ 0) × MakesBlocks n (fields table.old) (fields table.new) }
    ensures packs { OnOk result (PacksSpan K.items (fields table.old) (fields table.new) span.entry) }
    ensures root_check { (cells table.new).check 0 ≡ (cells table.old).check 0 }
    ensures settings { SameSettings (fields table.old) (fields table.new) }
{
    let number = number_at(span.pairs, span.depth);
    let skipped = usize::from(number.is_some());
    let (_, below) = span.pairs.split_at(skipped);
    let first = pending.len();
    list_spans(wanted, pending, number, below, span.depth)?;
    let listed = wanted.as_slice();
    let (_, labels) = listed.split_at(skipped);
    let base = fill_node(table, span.node, number, listed, labels)?;
    move_spans(pending, first, base);
    Ok(())
}

/// Gives the node of a span whose pairs all go on with one label this label, and returns the span of the label's child.
fn fill_alike<'a, L: Layout, const SLOTS: usize, A: Allocator, K: AsSlice<u8>>(
    table: &mut Table<L, SLOTS, A>,
    span: Span<'a, K>,
) -> Result<Span<'a, K>, Shortage>
    requires bare { IsUnfilled SLOTS (fields table.old) span.node }
    requires not_root { span.node ≢ 0 }
    requires some { 0 < length span.pairs.now }
    requires alike { GoesOnAlike span.depth (entries_by K.items span.pairs.now) }
    requires tree { (t : Tree) × IsTreeOfSpan span.depth (entries_by K.items span.pairs.now) t }
    ensures sound { IsTable SLOTS (fields table.new).places }
    ensures fills { OnOk result (FillsSpan K.items (fields table.old) (fields table.new) span.entry) }
    ensures own { OnOk result (KeepsOwnOf K.items L.kind (fields table.new) span.entry) }
    ensures spans { IfOk result (λ child. CoversChildren K.items (fields table.new) span.entry (child ∷ [])) }
    ensures refused { IfErr result (λ error. MayRefuse (fields table.new).places SLOTS error) }
    ensures blocks { (n : ℕ) × (n ≤ 1) × OnErr result (n ≡ 0) × MakesBlocks n (fields table.old) (fields table.new) }
    ensures alone { OnOk result (TakesOne (fields table.old) (fields table.new)) }
    ensures root_check { (cells table.new).check 0 ≡ (cells table.old).check 0 }
    ensures settings { SameSettings (fields table.old) (fields table.new) }
{
    let label = first_label_at(span.pairs, span.depth);
    let node = name_alone(table, span.node, label)?;
    Ok(Span {
        node,
        depth: depth_below(span.pairs, span.depth),
        pairs: span.pairs,
    })
}

/// Gives the node of a span below the root its number and its labels, and returns the span whose turn is next, if one is left:
/// that of the last child, or otherwise the last one that waits.
fn fill_next<'a, L: Layout, const SLOTS: usize, A: Allocator, K: AsSlice<u8>>(
    table: &mut Table<L, SLOTS, A>,
    span: Span<'a, K>,
    wanted: &mut Labels,
    pending: &mut Vec<Span<'a, K>, A>,
) -> Result<Option<Span<'a, K>>, Shortage>
    requires bare { IsUnfilled SLOTS (fields table.old) span.node }
    requires not_root { span.node ≢ 0 }
    requires tree { (t : Tree) × IsTreeOfSpan span.depth (entries_by K.items span.pairs.now) t }
    ensures sound { IsTable SLOTS (fields table.new).places }
    ensures fills { OnOk result (FillsSpan K.items (fields table.old) (fields table.new) span.entry) }
    ensures own { OnOk result (KeepsOwnOf K.items L.kind (fields table.new) span.entry) }
    ensures spans { IfOk result (λ next. AddsChildren K.items (fields table.new) span.entry pending.old.items (pending.new.items ++ option_to_list next)) }
    ensures last { IfOk result (λ next. next ≡ None → length pending.new.items ≡ 0) }
    ensures refused { IfErr result (LacksMemoryOr (MayRefuse (fields table.new).places SLOTS SlotLimit × MakesBlocks 0 (fields table.old) (fields table.new))) }
    ensures blocks { (n : ℕ) × (n ≤ 1) × MakesBlocks n (fields table.old) (fields table.new) }
    ensures packs { OnOk result (PacksSpan K.items (fields table.old) (fields table.new) span.entry) }
    ensures root_check { (cells table.new).check 0 ≡ (cells table.old).check 0 }
    ensures settings { SameSettings (fields table.old) (fields table.new) }
{
    if go_on_alike(span.pairs, span.depth) {
        let child = fill_alike(table, span)?;
        return Ok(Some(child));
    }
    fill_span(table, span, wanted, pending)?;
    Ok(pending.pop())
}

/// Gives the node of a span of one pair what the pair's key has from there on: the next label, the one below that, and so on, and
/// then the number. Each of these nodes is alone below the one before it, so none of them waits, nor is any pair looked at again.
fn fill_tail<L: Layout, const SLOTS: usize, A: Allocator, K: AsSlice<u8>>(
    table: &mut Table<L, SLOTS, A>,
    span: Span<'_, K>,
) -> Result<(), Shortage>
    requires one { length span.pairs.now ≡ 1 }
    requires filling { (ps : List Part) × (g : Forest) × (most : ℕ) × Filling SLOTS (fields table.old) (ps ++ part_of K.items span ∷ []) g most }
    ensures filled { OnOk result (FillsTail SLOTS (fields table.old) (fields table.new) (part_of K.items span.entry)) }
    ensures refused { IfErr result (LacksMemoryOr (WantsMore SLOTS (fields table.old) (part_of K.items span.entry))) }
    ensures blocks { (n : ℕ) × MakesBlocks n (fields table.old) (fields table.new) }
    ensures packs { OnOk result (PacksTail SLOTS (fields table.old) (fields table.new) (part_of K.items span.entry)) }
    ensures root_check { (cells table.new).check 0 ≡ (cells table.old).check 0 }
    ensures settings { SameSettings (fields table.old) (fields table.new) }
{
    let pair = &span.pairs[0];
    let key = pair.0.as_slice();
    let mut node = span.node;
    let mut depth = span.depth;
    while depth < key.len() {
        node = name_alone(table, node, key[depth])?;
        depth += 1;
    }
    fill_node(table, node, Some(pair.1), &[0], &[])?;
    Ok(())
}

/// Fills the node of a span that comes behind all those that wait, or for one pair all nodes of its key, and returns the span whose
/// turn is next, if one is left.
fn fill_turn<'a, L: Layout, const SLOTS: usize, A: Allocator, K: AsSlice<u8>>(
    table: &mut Table<L, SLOTS, A>,
    span: Span<'a, K>,
    wanted: &mut Labels,
    pending: &mut Vec<Span<'a, K>, A>,
) -> Result<Option<Span<'a, K>>, Shortage>
    requires filling { (g : Forest) × (most : ℕ) × Filling SLOTS (fields table.old) (parts_of K.items pending.old.items ++ part_of K.items span ∷ []) g most }
    ensures turn { IfOk result (TurnsNext K.items SLOTS (fields table.old) (fields table.new) pending.old.items span.entry pending.new.items) }
    ensures last { IfOk result (λ next. next ≡ None → length pending.new.items ≡ 0) }
    ensures refused { IfErr result (LacksMemoryOr (WantsMoreThan SLOTS (fields table.old) (parts_of K.items pending.old.items ++ part_of K.items span.entry ∷ []))) }
    ensures blocks { (n : ℕ) × MakesBlocks n (fields table.old) (fields table.new) }
    ensures packs { IfOk result (PacksNext K.items SLOTS (fields table.old) (fields table.new) pending.old.items span.entry pending.new.items) }
    ensures root_check { (cells table.new).check 0 ≡ (cells table.old).check 0 }
    ensures settings { SameSettings (fields table.old) (fields table.new) }
{
    if span.pairs.len() == 1 {
        fill_tail(table, span)?;
        return Ok(pending.pop());
    }
    fill_next(table, span, wanted, pending)
}

/// Fills the node of each span, and those of their children in turn, the last ones first. `wanted` is room for the labels of
/// one node.
fn fill_pending<'a, L: Layout, const SLOTS: usize, A: Allocator, K: AsSlice<u8>>(
    table: &mut Table<L, SLOTS, A>,
    wanted: &mut Labels,
    pending: &mut Vec<Span<'a, K>, A>,
) -> Result<(), Shortage>
    requires filling { (g : Forest) × (most : ℕ) × Filling SLOTS (fields table.old) (parts_of K.items pending.old.items) g most }
    ensures filled { OnOk result (EndsFilling SLOTS (fields table.old) (fields table.new) (parts_of K.items pending.old.items)) }
    ensures refused { IfErr result (LacksMemoryOr (WantsMoreThan SLOTS (fields table.old) (parts_of K.items pending.old.items))) }
    ensures blocks { (n : ℕ) × MakesBlocks n (fields table.old) (fields table.new) }
    ensures packs { OnOk result (PacksTurn SLOTS (fields table.old) (fields table.new) (parts_of K.items pending.old.items) []) }
    ensures root_check { (cells table.new).check 0 ≡ (cells table.old).check 0 }
    ensures settings { SameSettings (fields table.old) (fields table.new) }
{
    let mut next = pending.pop();
    while let Some(span) = next {
        next = fill_turn(table, span, wanted, pending)?;
    }
    Ok(())
}

/// Makes an empty table the table of some pairs.
fn fill<L: Layout, const SLOTS: usize, A: Allocator, K: AsSlice<u8>>(
    table: &mut Table<L, SLOTS, A>,
    alloc: A,
    pairs: &[(K, i32)],
) -> Result<(), Shortage>
    requires new { IsTable SLOTS (fields table.old).places }
    requires root_base { (cells table.old).stored 0 ≡ AtBase 0 }
    requires empty { HoldsTree (size_of (fields table.old)) (cells table.old) none }
    requires one { (fields table.old).places.blocks.active ≡ 1 }
    requires tree { (t : Tree) × IsTreeOfSpan 0 (entries_by K.items pairs.now) t × (t.number ≡ None) }
    ensures filled { OnOk result (OfTree (entries_by K.items pairs.now) (λ f. Filling SLOTS (fields table.new) [] f (1 + length (prefixes_forest f)))) }
    ensures refused { IfErr result (LacksMemoryOr (OfTree (entries_by K.items pairs.now) (λ f. SLOTS ≤ 256 * length (prefixes_forest f)))) }
    ensures blocks { (n : ℕ) × MakesBlocks n (fields table.old) (fields table.new) }
    ensures packs { OnOk result (OfTree (entries_by K.items pairs.now) (λ f. Packs (length (labels f)) (256 * count_crowded_forest f) (fields table.new))) }
    ensures root_check { (cells table.new).check 0 ≡ (cells table.old).check 0 }
    ensures settings { SameSettings (fields table.old) (fields table.new) }
{
    let mut pending = Vec::new(alloc);
    let mut wanted = ArrayVec::new();
    let span = Span {
        node: 0,
        depth: 0,
        pairs,
    };
    fill_span(table, span, &mut wanted, &mut pending)?;
    fill_pending(table, &mut wanted, &mut pending)
}

/// Makes a new table the table of some pairs, whose keys ascend.
fn fill_sorted<L: Layout, const SLOTS: usize, A: Allocator, K: AsSlice<u8>>(
    table: &mut Table<L, SLOTS, A>,
    alloc: A,
    pairs: &[(K, i32)],
) -> Result<(), Shortage>
    requires well_formed { IsWellFormed SLOTS (fields table.old) }
    requires empty { tree_of (fields table.old) ≡ empty_tree }
    requires root_base { (cells table.old).stored 0 ≡ AtBase 0 }
    requires one { (fields table.old).places.blocks.active ≡ 1 }
    requires keys { ArePathsKeys (entries_by K.items pairs.now) }
    requires ascending { ArePathsAscending (entries_by K.items pairs.now) }
    requires values { AllByRecursion (λ e. is_value e.1 ≡ true) (entries_by K.items pairs.now) }
    ensures well_formed { OnOk result (IsWellFormed SLOTS (fields table.new)) }
    ensures tree { OnOk result (tree_of (fields table.new) ≡ asc (entries_by K.items pairs.now)) }
    ensures marks { OnOk result (SortedMarks L.kind (asc (entries_by K.items pairs.now)) (marks (fields table.new))) }
    ensures blocks { OnOk result ((n : ℕ) × (n ≤ length (prefixes (asc (entries_by K.items pairs.now)))) × MakesBlocks n (fields table.old) (fields table.new)) }
    ensures packed { OnOk result (IsPacked (asc (entries_by K.items pairs.now)) (fields table.new)) }
    ensures refused { IfErr result (LacksMemoryOr (SLOTS ≤ 256 * length (prefixes (asc (entries_by K.items pairs.now))))) }
    ensures modes { SameModes (fields table.old) (fields table.new) }
{
    if pairs.is_empty() {
        return Ok(());
    }
    fill(table, alloc, pairs)?;
    table.set_entries(pairs.len());
    Ok(())
}

/// Makes a table of some pairs of a key and its number, whose keys ascend by bytes, each below the next. It represents their
/// one tree with ascending labels, even if a new label would not go to its ascending place. Keys are bytes or texts. It makes
/// at most one block for each distinct nonempty prefix of a key. At most 255 slots outside the first block are free, and 256 others
/// for each node below the root that takes several slots.
///
/// `ordered` and `max_trial` are the settings of the table that is made. It may be refused for memory, or with `SlotLimit` where
/// 256 times the number of these prefixes is `SLOTS` or more; then no table is made. So
/// `build_sorted(alloc, true, 1, &[("a", 1), ("ab", 2)])` gives a table of two keys.
pub fn build_sorted<L: Layout, const SLOTS: usize, A: Allocator + Copy, K: AsSlice<u8>>(
    alloc: A,
    ordered: bool,
    max_trial: i32,
    pairs: &[(K, i32)],
) -> Result<Table<L, SLOTS, A>, Shortage>
    requires tried { pos 1 ≤ℤ max_trial }
    requires limit { IsSlotLimit SLOTS }
    requires keys { ArePathsKeys (entries_by K.items pairs.now) }
    requires ascending { ArePathsAscending (entries_by K.items pairs.now) }
    requires values { AllByRecursion (λ e. is_value e.1 ≡ true) (entries_by K.items pairs.now) }

    //= `build_sorted` of pairs whose keys, bytes or texts, ascend: the table is well-formed and represents their one tree with ascending
    //  labels, whatever its order is. [with tree]
    ensures well_formed { IfOk result (λ table. IsWellFormed SLOTS (fields table)) }
    ensures tree { IfOk result (λ table. tree_of (fields table) ≡ asc (entries_by K.items pairs.now)) }

    //= By default each number has a slot of its own; in the reduced layout exactly those do whose keys begin longer ones. [by SortedMarks]
    ensures marks { IfOk result (λ table. SortedMarks L.kind (asc (entries_by K.items pairs.now)) (marks (fields table))) }

    //= Its order and `max_trial` are the given ones. [with max_trial]
    ensures ordered { IfOk result (λ table. (fields table).ordered ≡ ordered) }
    ensures max_trial { IfOk result (λ table. (fields table).places.blocks.max_trial ≡ max_trial) }

    //= It makes at most one block for each distinct nonempty prefix of a key, beside the first one.
    ensures blocks { IfOk result (λ table. HasBlocksFor (asc (entries_by K.items pairs.now)) (fields table)) }

    //= At most 255 of the slots outside the first block are free, and 256 others for each node below the root that takes several slots: for
    //  several labels, or for a number and a label. [by IsPacked]
    ensures packed { IfOk result (λ table. IsPacked (asc (entries_by K.items pairs.now)) (fields table)) }

    //= It fails for lack of memory, or of slots if 256 times the number of these prefixes is the limit or more.
    ensures refused { IfErr result (LacksMemoryOr (SLOTS ≤ 256 * length (prefixes (asc (entries_by K.items pairs.now))))) }
{
    let mut table = Table::new(alloc, ordered, max_trial)?;
    fill_sorted(&mut table, alloc, pairs)?;
    Ok(table)
}
