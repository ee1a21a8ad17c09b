//! The dictionary of a scanner.

// Not from this crate's `Words`: those name `Held`, whose ghost field names the scanners that stand on this type.
ghost use Rattle.cedar_scan.specs.Words.{slot_in};
ghost use Rattle.either_layout.specs.Words.{inner_dictionary};

use cedar_scan::{Placed, PlacedNode};
use either_layout::{AnyCedar, on_layout};
use std::alloc::{AllocError, Allocator};

/// The dictionary of a scanner, of either layout.
#[derive(Drop)]
pub struct ScannedCedar {
    pub(crate) cedar: AnyCedar,
}

impl Placed for ScannedCedar {
    ghost tree = { λ it. (inner_dictionary it.cedar).state.tree };

    ghost slot_of = { λ it. slot_in (inner_dictionary it.cedar).table };

    fn nodes<A: Allocator + Copy>(&self, alloc: A) -> Result<Vec<PlacedNode, A>, AllocError> {
        on_layout!(&self.cedar, cedar => cedar.nodes(alloc))
    }
}
