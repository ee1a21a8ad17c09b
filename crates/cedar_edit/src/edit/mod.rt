//! Changes of one node: its labels and its number.

pub(crate) mod leaf;
pub(crate) mod number;
pub(crate) mod own;
