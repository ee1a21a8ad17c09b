//! Laws of a tree that grows by bare leaves along a path, and of how they are removed again.

ghost use Rattle.std.specs.Prelude.{◌++◌, ◌≡◌, List, true, ℕ};
ghost use Rattle.cedar_tree.specs.Words.{cut, CutForgetsLeaf, is_bare, IsSoundBelow, LeafHasPath};
ghost use Rattle.cedar_tree.specs.Words.{LeafIsBare, LeafKeepsAscending, LeafKeepsNumbers, node_at};
ghost use Rattle.cedar_tree.specs.Words.{Tree};

/// A new leaf is at the end of its path, has neither number nor child, brings no number, and keeps ascending labels
/// ascending.
pub fn leaf_stands_at_its_path()
    //= A new leaf is at the end of its path and is bare. [with bare]
    ensures path { LeafHasPath }
    ensures bare { LeafIsBare }

    //= It brings no number, and keeps ascending labels ascending. [with ascending]
    ensures numbers { LeafKeepsNumbers }
    ensures ascending { LeafKeepsAscending }
{}

/// A cut from a new leaf upwards is as if the leaf had never been added; a cut beyond a bare node is one of that node; and in a
/// tree whose nodes have a number or a child each, a cut changes nothing if there is no node.
pub fn cut_takes_leaves_back()
    //= A cut from a new leaf upwards is as if the leaf had never been added.
    ensures leaf { CutForgetsLeaf }

    //= A cut beyond a bare node is one of that node.
    ensures past { (t : Tree) (w : List ℕ) (rest : List ℕ) → is_bare (node_at t w) ≡ true → cut t (w ++ rest) ≡ cut t w }

    //= A cut changes nothing at a path that has no node, in a sound tree.
    ensures sound { (t : Tree) (w : List ℕ) → IsSoundBelow t.children → is_bare (node_at t w) ≡ true → cut t w ≡ t }
{}
