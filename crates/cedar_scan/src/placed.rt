//! A dictionary, as a scanner is built from it.

ghost use Rattle.std.specs.Prelude.{IfOk, List, ℕ};
ghost use Rattle.cedar_scan.specs.Words.{AreNodes, IsPlacing, Tree};

use crate::state::PlacedNode;
use std::alloc::{AllocError, Allocator};

/// A dictionary whose nodes are each in a slot of its own.
pub trait Placed {
    /// The labelled tree that its results come from.
    ghost tree: { Self → Tree };

    /// The slot of each path that leads to a node.
    ghost slot_of: { Self → List ℕ → ℕ };

    /// Lists the nodes below the root. It allocates the list.
    fn nodes<A: Allocator + Copy>(&self, alloc: A) -> Result<Vec<PlacedNode, A>, AllocError>
        //= The nodes that a scanner is built from are those of the dictionary's tree, each in a slot of its own. [with nodes]
        ensures placed { IsPlacing (tree self.now) (slot_of self.now) }
        ensures nodes { IfOk result (λ list. AreNodes (tree self.now) (slot_of self.now) list.items) };
}
