//! The script language of the dictionary, and the program that runs scripts.
//!
//! A script has a command a line. The answer to each line is one line, or as many as there are entries and one more:
//!
//! | line | answer |
//! |---|---|
//! | `+ K V` | `ok`, or `refused EmptyKey`, `refused NulByte P`, `refused InvalidValue V` |
//! | `- K` | `erased` or `absent` |
//! | `= K` | the value and the key's length in bytes, as `7 3`, or `none` |
//! | `< K` | the prefixes of K that are held, each as `V:N`: its value, and one less than its bytes; `none` if there is none |
//! | `> K` | the keys that begin with K, each as `V:N`: its value, and how many bytes follow K; `none` if there is none |
//! | `? K` | how many keys begin with K, as `2` |
//! | `*` | a line `H V` for each key in iteration order, H in lower case hexadecimal, and then `end` |
//! | `#` | how many keys are held, and how many slots, as `2 5` |
//! | `/ K` | the tokens of K, each as `S:L:V`: where it begins, its length in bytes and its value, `-` if it has none; `none` for the empty K |
//! | any other | `bad line` |
//!
//! A key K is a nonempty, even number of hexadecimal digits of either case, or `.` for the empty key; a value V
//! an optional sign and decimal digits, in the range of an `i32`. One space parts the fields.
#![tactic(auto)]

mod answers;
mod command;
mod flushes;
mod options;
mod program;
mod reasons;
mod script;
mod verbs;
mod write;

pub use command::BadLine;
pub use program::{DONE, FAULT, REFUSED, USAGE, run_program, run_program_with, tell_usage};
pub use reasons::{LineReports, NoReports};
pub use script::{ScriptError, run_script, run_script_with_reports};
