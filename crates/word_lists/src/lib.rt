//! Lists of words: what a dictionary of words holds, written as lines that a person reads.
//!
//! A line is a word, a tab, its number and byte 10. A word's byte is written as it is, except byte 9, byte 10 and the backslash, which are
//! written as `\x` and two hexadecimal digits in lower case; so is each byte from 128 on of a word that isn't UTF-8.
#![tactic(auto)]

mod costs;
mod counts;
mod cut;
mod fronts;
mod lines;
mod lists;
mod look_up;
mod marked;
mod pairs;
mod parts;
mod read;
mod scan;
mod shown;
mod sorted;
mod word;
mod write;

pub use costs::{CostsError, costs_of};
pub use counts::write_count;
pub use cut::{write_cheapest_cut, write_cut, write_cut_by};
pub use fronts::write_fronts;
pub use lines::{LineFault, LineFaults, StoreError, erase_lines, store_lines};
pub use lists::{write_entries, write_next_entries};
pub use look_up::write_number;
pub use marked::{write_marked, write_replaced};
pub use pairs::{store_entries, write_lacking};
pub use parts::list_lines;
pub use read::read_word;
pub use scan::{write_keywords, write_matches};
pub use shown::{write_drawing, write_tree};
pub use sorted::sorted_list;
pub use word::write_entry;
pub use write::ListError;
