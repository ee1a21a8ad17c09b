//! Laws of the nodes that a cut passes on its way up.

ghost use Rattle.std.specs.Prelude.{◌++◌, ◌∷◌, ◌≡◌, [], List, ℕ};
ghost use Rattle.cedar_tree.specs.Words.{CutLeafChangesItsNode, CutNumberChangesItsNode};
ghost use Rattle.cedar_tree.specs.Words.{IsAscending, node_at, subtree, Tree, without_leaf};
ghost use Rattle.cedar_tree.specs.Words.{without_number};

/// A path that is one label longer leads to the child under it.
pub fn paths_go_on()
    //= A path that is one label longer leads to the child under it.
    ensures { (t : Tree) (w : List ℕ) (l : ℕ) → node_at t (w ++ l ∷ []) ≡ subtree (node_at t w).children l }
{}

/// The node that a leaf was taken from lacks its label, and the node whose number was dropped has none. Otherwise they are as they
/// were.
pub fn cut_nodes_stay()
    //= The node that a leaf was taken from lacks its label, and is otherwise as it was.
    ensures leaf { CutLeafChangesItsNode }

    //= The node whose number was dropped has none, and is otherwise as it was.
    ensures number { CutNumberChangesItsNode }
{}

/// Ascending labels still ascend without a leaf, and without a number.
pub fn edits_stay_ascending()
    //= Ascending labels still ascend without a leaf, and without a number. [with number]
    ensures leaf { (t : Tree) (w : List ℕ) (l : ℕ) → IsAscending t.children → IsAscending (without_leaf t w l).children }
    ensures number { (t : Tree) (path : List ℕ) → IsAscending t.children → IsAscending (without_number t path).children }
{}
