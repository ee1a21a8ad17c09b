//! Laws of what a table represents.

ghost use Rattle.std.specs.Prelude.{if◌then◌else◌, ◌+◌, ◌↔◌, ◌≡◌, length, List, None, true, ℕ};
ghost use Rattle.cedar_model.specs.Words.{Cells, cells_in, count_held, default_layout, Fields};
ghost use Rattle.cedar_model.specs.Words.{Forest, FullBlocksCount, HasMark, HoldsTree, is_held};
ghost use Rattle.cedar_model.specs.Words.{IsWellFormed, MarkedAt, marks, occurs};
ghost use Rattle.cedar_model.specs.Words.{OneTreeHoldsAsMany, prefixes, size_of, slots_of_tree};
ghost use Rattle.cedar_model.specs.Words.{SlotsHaveOnePath, tree_of, tree_slots, walk};

/// Slots represent one tree at most, and those of a table the one that is read from it.
pub fn one_tree()
    //= Slots represent one labelled tree at most, and a table's is `tree_of`. [with read]
    ensures only { (size : ℕ) (slots : Cells) (f : Forest) (g : Forest) → HoldsTree size slots f → HoldsTree size slots g → f ≡ g }
    ensures read { (table : Fields) (f : Forest) → HoldsTree (size_of table) (cells_in table) f → tree_of table ≡ record { number = None; children = f } }
{}

/// No two paths from the root lead to one slot, be it a node's or a number's.
pub fn one_path()
    //= No two paths from the root lead to one slot.
    ensures { SlotsHaveOnePath }
{}

/// The tree names each held slot once, and no other.
pub fn held_slots_are_named()
    //= The tree names each held slot once, and no other.
    ensures { (limit : ℕ) (table : Fields) (s : ℕ) → IsWellFormed limit table → occurs s (tree_slots table) ≡ (if is_held (cells_in table) s then 1 else 0) }
{}

/// So as many slots are held as the tree names: one for the root, one for each prefix of a key, and one for each entry
/// whose number is in a slot of its own, which by default is each.
pub fn held_slots_are_counted()
    //= As many slots are held as the tree names.
    ensures named { (limit : ℕ) (table : Fields) → IsWellFormed limit table → count_held table ≡ length (tree_slots table) }

    //= In the default layout that is one, plus the prefixes, plus the entries.
    ensures by_default { (limit : ℕ) (table : Fields) → IsWellFormed limit table → table.layout ≡ default_layout → count_held table ≡ slots_of_tree (tree_of table) }

    //= In either layout it is one, plus the distinct nonempty prefixes, plus the numbers that have slots of their own.
    ensures marked { (limit : ℕ) (table : Fields) → IsWellFormed limit table → count_held table ≡ 1 + length (prefixes (tree_of table)) + length (walk (marks table)) }
{}

/// Two tables that represent one tree hold equally many slots, if each number is kept in the one as in the other: in a slot, or in
/// its node's own base field.
pub fn slots_stay()
    //= Two well-formed tables with one tree, whose numbers are kept alike, hold equally many slots.
    ensures { OneTreeHoldsAsMany }
{}

/// The tree of marks has exactly the numbers that are in slots of their own.
pub fn marks_are_read()
    //= The tree of marks has exactly the numbers that have slots of their own.
    ensures { (limit : ℕ) (table : Fields) (w : List ℕ) → IsWellFormed limit table → HasMark (marks table) w ↔ MarkedAt (cells_in table) w true }
{}

/// If no slot outside block 0 is free, each slot there is held, and in block 0 exactly those of the root and of its
/// children: so the slots in use can be counted from the tree.
pub fn full_blocks_are_counted()
    //= In the default layout, if no slot outside block 0 is free, the slots in use and the root's children are together as many as the
    //  tree's slots and 255.
    ensures { FullBlocksCount }
{}
