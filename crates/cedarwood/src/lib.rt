//! A mutable dictionary from byte strings to whole numbers.
//!
//! A key is a nonempty byte string without byte 0, a value a whole number from [`MIN_VALUE`] to [`MAX_VALUE`]. All lengths and positions
//! count bytes. Whatever calls are made, every result is that of one labelled tree, which the contracts carry from call to call:
//! `run_calls` of `cedar_calls` says so of any list of calls.
//!
//! ```
//! let mut cedar = Cedar::new(rt.alloc())?;
//! cedar.update_bytes(b"net", 7)?;
//! assert_eq!(rt; cedar.exact_match_search_bytes(b"net"), Some((7, 3)));
//! assert!(rt; cedar.erase_bytes(b"net"));
//! ```
//!
//! In the examples `rt` is the program's runtime, `cedar` a new [`Cedar`] if it isn't made there, `saved` the bytes that a save of it
//! wrote, and `files` the place of such a file by the name `words.cedar`. `blank`, `ticks`, `asked` and `reads` are for counts, whose
//! ledgers are `C` and `D`. `examples/calls.txt` has the lines of each example in tests, and `tests/run` runs them.
#![tactic(auto)]

mod batches;
mod build;
mod builder;
mod clone;
mod counted;
mod erasing;
mod error;
mod figures;
mod heads;
mod insert;
mod laws;
mod memory;
mod pair;
pub mod persistence;
mod queries;
mod room;
mod shrink;
mod sorted;
mod texts;
mod trie;
mod unsorted;

pub use batches::{CACHED_SLOTS, RefusedPair};
pub use builder::CedarBuilder;
// What was done at a path, and what becomes of it.
pub use cedar_format::{
    CedarPersistenceError, Source, Watched, one_table_for_its_bytes, well_formed_tables_pass,
};
pub use cedar_table::{DefaultLayout, Layout, ReducedLayout, Ticks};
pub use whole_files::{NotBegun, PathCalls, Sent, whole_files_are_safe};
// Laws of the tree that all results come from, for whoever proves something of a dictionary's callers.
pub use cedar_tree::{
    cut_undoes_put, front_is_exact, keys_come_before_extensions, predict_is_part_of_walk,
    walk_ascends, walk_is_map,
};
pub use erasing::Found;
pub use error::CedarError;
pub use figures::MemoryStats;
pub use laws::{
    entries_from_leave_out_what_is_below, figures_are_equal_by_their_fields, fronts_lie_within,
    loaded_files_save_again, prefixed_are_of_all_entries, saved_tables_load_again,
    sorted_is_stored_in_turn,
};
pub use memory::fits;
pub use pair::check_pair;
pub use persistence::{SaveFailed, Saved, Unsaved};
pub use queries::counted::CountedPrefixIter;
pub use queries::cursor::EntryCursor;
pub use queries::entries::{Entries, EntryError, Utf8Entries};
pub use queries::predict::PrefixPredictIter;
pub use queries::prefix::PrefixIter;
pub use queries::ranged::RangeEntries;
pub use queries::walked::Walked;
pub use trie::{Cedar, ReducedCedar, Trie};

/// How many bytes a load may allocate, if no other limit is given.
pub const DEFAULT_LOAD_MEMORY_LIMIT: usize = 536870912;

/// The greatest limit of slots, 2^30, which is that of [`Cedar`] and [`ReducedCedar`].
pub const MOST_SLOTS: usize = 1073741824;

/// The least value that can be stored.
pub const MIN_VALUE: i32 = 0;

/// The greatest value that can be stored, two below the greatest `i32`.
pub const MAX_VALUE: i32 = 2147483645;
