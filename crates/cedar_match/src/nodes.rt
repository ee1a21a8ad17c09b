//! What a walk needs of a dictionary: its nodes, one after another.

ghost use Rattle.std.specs.Prelude.{◌≡◌, length, List, ℕ};
ghost use Rattle.cedar_match.specs.Words.{StepsOn, left_from, left_past, Tree};

/// A node that a walk comes to.
#[derive(Clone, Copy)]
pub struct Node {
    /// Its slot.
    pub slot: usize,
    /// How many labels it is below the root.
    pub depth: usize,
    /// The last of these labels.
    pub label: u8,
    /// Its number, if it has one.
    pub number: Option<i32>,
}

/// The nodes of a labelled tree, each before its children, children in their order.
pub trait Nodes {
    /// The tree.
    ghost tree: { Self → Tree };

    /// A slot is the node at the end of a path from the root.
    ghost stands: { Self → List ℕ → ℕ → Type 0 };

    /// The next node of a walk that has been at a node, `depth` labels below the root, and not yet below it.
    fn node_after(&self, slot: usize, depth: usize) -> Option<Node>
        requires { (path : List ℕ) × stands self.now path slot × (length path ≡ depth) }
        //= A walk goes over the nodes of a tree by two steps: to the next node, or to the next one that isn't below. [also node_past]
        ensures { StepsOn (stands self.now) (tree self.now) (left_from (tree self.now)) slot depth result };

    /// The next node of a walk that has been at a node, `depth` labels below the root, and leaves out all below it.
    fn node_past(&self, slot: usize, depth: usize) -> Option<Node>
        requires { (path : List ℕ) × stands self.now path slot × (length path ≡ depth) }
        ensures { StepsOn (stands self.now) (tree self.now) (left_past (tree self.now)) slot depth result };
}
