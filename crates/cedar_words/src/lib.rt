//! Texts by the keys of a dictionary. `segment` cuts a text into tokens: at each position the longest key that begins there, with its
//! value, or otherwise one byte without a value. `cheapest` cuts it so that the costs of its tokens have the least sum. `matches` finds all
//! keys in it, `leftmost_longest` those that don't overlap.
//!
//! ```
//! let mut cedar = Cedar::new(rt.alloc())?;
//! cedar.build(&[("a", 1), ("abc", 3)])?;
//! let tokens: Vec<(usize, usize, Option<i32>)> = segment(&cedar, b"ababc").collect(rt.alloc())?;
//! let wanted = [(0, 1, Some(1)), (1, 1, None), (2, 3, Some(3))];
//! assert_eq!(rt; tokens.as_slice(), wanted.as_slice());
//! ```
#![tactic(auto)]

mod classes;
mod costs;
mod cuts;
mod edges;
mod keywords;
mod laws;
mod longest;
mod models;
mod ranked;
mod segments;
mod spots;

pub use classes::{CharacterBytes, CharacterClasses, OneCharacter, OneClass, Scripts};
pub use costs::{NextFront, cheapest, cheapest_by_characters};
pub use cuts::cheapest_by;
pub use edges::{Edge, Edges, lattice};
pub use keywords::{Keywords, leftmost_longest, leftmost_longest_from};
pub use laws::{
    best_cut_is_cheapest, best_cut_is_one, best_cuts_begin_with_the_best, capped_is_cheapest,
    cheapest_is_one, cuts_cover, keys_part_no_character, keywords_are_leftmost,
    lattice_has_all_tokens, matches_are_keys, model_cuts_cover, model_cuts_part_no_character,
    runs_keep_characters, tokens_are_longest, tokens_cover, tokens_go_on, tokens_lie_within,
    tokens_part_no_character, utf8_keys_stay,
};
pub use longest::LongestPrefix;
pub use models::{
    CostModel, CostTable, KeyCosts, OneByte, Priced, UnknownRun, UnknownRuns, ValueIsCost,
    WhereNoKeyBegins,
};
pub use ranked::cheapest_cuts;
pub use segments::{Segments, segment, segment_from};
pub use spots::{AllMatches, Fronts, matches, matches_from};
