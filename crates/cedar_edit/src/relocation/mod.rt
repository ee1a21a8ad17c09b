//! Sets of slots moved to another base, so that a new label finds room.

mod moving;
pub(crate) mod resolve;
