//! Laws by which a put and a cut go along a path, one node at a time.

ghost use Rattle.std.specs.Prelude.{◌∷◌, ◌≡◌, Bool, false, List, None, ℕ, ℤ};
ghost use Rattle.cedar_tree.specs.Words.{cut, CutEndsAbove, CutTakesLeaf, HasPath, is_bare};
ghost use Rattle.cedar_tree.specs.Words.{node_at, put, PutAddsLeaf, Tree, with_number};
ghost use Rattle.cedar_tree.specs.Words.{without_number};

/// A put makes the same tree if the next node of its path, which is missing, was first added as a bare leaf; and if no node is
/// missing, it sets the number.
pub fn put_goes_along_its_path()
    //= A put makes the same tree if the next missing node of its path was first added as a bare leaf.
    ensures leaf { PutAddsLeaf }

    //= If no node is missing, a put sets the number.
    ensures number { (t : Tree) (ordered : Bool) (l : ℕ) (path : List ℕ) (v : ℤ) → HasPath t (l ∷ path) → put t ordered (l ∷ path) v ≡ with_number t (l ∷ path) v }
{}

/// A cut makes the same tree if the number at its path was first dropped, and if a bare node of its path was first taken from a
/// parent that has its label once.
pub fn cut_goes_up_its_path()
    //= A cut makes the same tree if the number at its path was first dropped.
    ensures number { (t : Tree) (l : ℕ) (path : List ℕ) → cut (without_number t (l ∷ path)) (l ∷ path) ≡ cut t (l ∷ path) }

    //= A cut makes the same tree if a bare node of its path was first taken from a parent that has its label once.
    ensures leaf { CutTakesLeaf }
{}

/// A cut changes nothing more once the node at its path has no number and isn't bare, or once the path ends at the root
/// or at a node that isn't bare.
pub fn cut_ends()
    //= A cut changes nothing if the node at its path has no number and isn't bare.
    ensures there { (t : Tree) (path : List ℕ) → (node_at t path).number ≡ None → is_bare (node_at t path) ≡ false → cut t path ≡ t }

    //= A cut changes nothing if its path leaves the tree at the root, or at a node that isn't bare.
    ensures above { CutEndsAbove }
{}
