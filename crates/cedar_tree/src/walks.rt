//! Laws of walks that are under way.

ghost use Rattle.std.specs.Prelude.{◌+◌, ◌-◌, ◌<◌, ◌∷◌, ◌≡◌, ◌≤◌, [], false, length, List};
ghost use Rattle.std.specs.Prelude.{slice_index, take, ℕ};
ghost use Rattle.cedar_tree.specs.Words.{behind, cons_option, empty_tree, forwards, found_at};
ghost use Rattle.cedar_tree.specs.Words.{front, front_from, has_label, node_at, node_up, none};
ghost use Rattle.cedar_tree.specs.Words.{subtree, Tree, tree_visits, visited_entries, visits_after};
ghost use Rattle.cedar_tree.specs.Words.{visits_left, walk, WalkGoesDown, WalkGoesRight};
ghost use Rattle.cedar_tree.specs.Words.{WalkVisitsPredicted};

/// A walk over all nodes goes on to the first child of its node, or otherwise to the sibling after it, or otherwise to the one after
/// the nearest node above that has one. The walk from there on is then what it has left.
pub fn walks_go_on()
    //= A walk over all nodes goes on to the first child, otherwise to the next sibling, otherwise to the one after the nearest node above
    //  that has one (among siblings with distinct labels). [with leaf, right, up]
    ensures down { WalkGoesDown }
    ensures leaf { (t : Tree) (up : List ℕ) → (node_up t up).children ≡ none → visits_left t up ≡ visits_after t up }
    ensures right { WalkGoesRight }
    ensures up { (t : Tree) (up : List ℕ) (l : ℕ) → behind (node_up t up).children l ≡ none → visits_after t (l ∷ up) ≡ visits_after t up }
{}

/// From the root on, a walk over all nodes visits all entries, in their order; from the node of a query on, what is predicted
/// for it.
pub fn walks_begin()
    //= From the root on it visits all entries in their order.
    ensures entries { (t : Tree) → walk t ≡ visited_entries (tree_visits t) }

    //= From the node of a query on it visits what is predicted for it (sound tree).
    ensures predicted { WalkVisitsPredicted }

    //= The node at the end of a climbed path is that of the path reversed.
    ensures nodes { (t : Tree) (up : List ℕ) → node_up t up ≡ node_at t (forwards up) }
{}

/// The prefix walk goes on a byte at a time, and ends if no node is reached.
pub fn front_goes_on()
    //= The prefix walk goes on a byte at a time and ends at the query's end. [with more, node, ends]
    ensures begins { (t : Tree) (q : List ℕ) → front_from t q 0 ≡ front t q }
    ensures more { (t : Tree) (q : List ℕ) (n : ℕ) → n < length q → front_from t q n ≡ cons_option (found_at t q n) (front_from t q (n + 1)) }
    ensures node { (t : Tree) (q : List ℕ) (n : ℕ) → n < length q → node_at t (take (n + 1) q) ≡ subtree (node_at t (take n q)).children (slice_index q n) }

    //= It ends if no node is reached, and then the query has none. [with gone]
    ensures off { (t : Tree) (q : List ℕ) (n : ℕ) → n < length q → has_label (node_at t (take n q)).children (slice_index q n) ≡ false → front_from t q n ≡ [] }
    ensures gone { (t : Tree) (q : List ℕ) (n : ℕ) → n < length q → has_label (node_at t (take n q)).children (slice_index q n) ≡ false → node_at t q ≡ empty_tree }

    //= It has no more results left than the query has bytes left.
    ensures few { (t : Tree) (q : List ℕ) (n : ℕ) → length (front_from t q n) ≤ length q - n }
    ensures ends { (t : Tree) (q : List ℕ) → front_from t q (length q) ≡ [] }
{}
