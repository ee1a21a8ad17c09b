//! Laws of the dictionary's states and files.

ghost use Rattle.std.specs.Prelude.{◌++◌, ◌-◌, ◌<◌, ◌↔◌, ◌≡◌, All, Contains, filter, IsTrue};
ghost use Rattle.std.specs.Prelude.{length, List, map, nat_eq, true, ℕ};
ghost use Rattle.cedarwood.specs.Words.{all_stored, AreSameFigures, asc, entries_since};
ghost use Rattle.cedarwood.specs.Words.{entries_with, Entry, front, is_lt, IsAscending};
ghost use Rattle.cedarwood.specs.Words.{LoadedFilesSaveAgain, nat_cmp, new_state, OwnFilesLoad};
ghost use Rattle.cedarwood.specs.Words.{predict, slice_cmp, starts_with, Tree, walk};

use crate::MemoryStats;

/// The state of a sorted input is the one that storing its pairs one after another in a new dictionary makes, if labels ascend: so the
/// dictionary of `from_sorted_bytes` returns what a new one returns after `build_bytes` of the same pairs.
pub fn sorted_is_stored_in_turn()
    //= Its state is the one that storing the pairs in turn in a new ordered dictionary makes.
    ensures { (pairs : List Entry) → all_stored new_state pairs ≡ record { tree = asc pairs; ordered = true } }
{}

/// What a prefix walk gives is within its text: the prefix whose last byte has the index `n` is `&text[..n + 1]`.
pub fn fronts_lie_within()
    //= Each prefix that a prefix walk gives is within its text.
    ensures { (tree : Tree) (text : List ℕ) → All (λ found. found.1 < length text) (front tree text) }
{}

/// The entries with a prefix are those of all entries whose keys begin with it, and a prediction gives for each of them the value and how
/// many bytes follow the prefix.
pub fn prefixed_are_of_all_entries()
    //= An entry is among those with a prefix exactly if it is among all entries and its key begins with the prefix.
    ensures held { (tree : Tree) (prefix : List ℕ) (e : Entry) → Contains (entries_with tree prefix) e ↔ (Contains (walk tree) e × (starts_with nat_eq e.0 prefix ≡ true)) }

    //= A prediction gives their values, in their order, and how many bytes of their keys follow the prefix.
    ensures predicted { (tree : Tree) (prefix : List ℕ) → predict tree prefix ≡ map (λ e. (e.1, length e.0 - length prefix)) (entries_with tree prefix) }
{}

/// If labels ascend, all entries are those whose keys are below a key, and then those that `entries_from` gives: so it leaves out exactly
/// what is below, and pages that each begin where the one before ended miss nothing.
pub fn entries_from_leave_out_what_is_below()
    //= If labels ascend, all entries are those below a key, and then those from the key on.
    ensures { (tree : Tree) (key : List ℕ) → IsAscending tree.children → walk tree ≡ filter (λ e. is_lt (slice_cmp nat_cmp e.0 key)) (walk tree) ++ entries_since tree key }
{}

/// What a load makes of the bytes that a save wrote is the same table, if it finds room: `save_to_writer` and `save_v1_0_to_writer` say
/// that they are the table's own file in their version, and `LoadAnswers` is what each load says of its result.
pub fn saved_tables_load_again()
    //= A load of what was saved in either version, under a limit of at least its need, returns the same table, or a list found no room.
    //  This follows by `file` of a save and `answer` of a load.
    ensures { OwnFilesLoad }
{}

/// What a load makes of some bytes is saved as these bytes, in the version of the file: with `LoadAnswers` of a load that returned `Ok`,
/// the bytes that the save of that version appends are those that were read.
pub fn loaded_files_save_again()
    //= A save of what was loaded, in the version of the bytes that were read, writes these bytes. This follows by `answer` of a load and
    //  `bytes` of a save.
    ensures { LoadedFilesSaveAgain }
{}

/// Figures are equal exactly if all four of them are: so a caller's proof can use `==` of what `memory_stats` returns.
#[must_use]
pub fn figures_are_equal_by_their_fields(one: MemoryStats, other: MemoryStats) -> bool
    //= `==` of two figures returns whether all four of them are equal.
    ensures { IsTrue result ↔ AreSameFigures one other }
{
    one == other
}
