//! The labelled tree as a plain program: each node owns its children. Its queries follow the definitions
//! word for word, so other forms of the tree are compared with it.
#![tactic(auto)]

mod node;
mod tree;

pub use tree::PlainTree;
