//! Queries of a dictionary: exact searches, prefix walks, predictions and entries.

mod batch;
mod calls;
pub(crate) mod counted;
mod counts;
pub(crate) mod cursor;
mod ends;
pub(crate) mod entries;
mod lookups;
pub(crate) mod predict;
pub(crate) mod prefix;
pub(crate) mod ranged;
pub(crate) mod walked;
