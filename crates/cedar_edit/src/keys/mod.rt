//! Keys put and erased.

pub(crate) mod erase;
pub(crate) mod put;
mod step;
mod way;
