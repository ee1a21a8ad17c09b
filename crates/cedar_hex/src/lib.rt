//! Hexadecimal digits, two for each byte, read and written by sums and bounds, and without a branch for each digit: a processor
//! mispredicts every other branch on the digits of keys. So LLVM makes instructions of it that take many bytes at once.
//!
//! The definitions of the kit's crate `hex` say which digits represent which bytes.
#![tactic(auto)]

mod digits;

pub use digits::{decode_into, encode_into};
