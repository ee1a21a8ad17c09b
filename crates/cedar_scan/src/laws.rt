//! Laws of what a scanner finds.

ghost use Rattle.std.specs.Prelude.{◌↔◌, Contains, List, ℕ};
ghost use Rattle.cedar_scan.specs.Words.{AreByEnd, FirstIsLongestLeft, held_suffix, IsLongestHeld};
ghost use Rattle.cedar_scan.specs.Words.{IsPermutation, LongestAreKeywords, OccursIn, overlapping};
ghost use Rattle.cedar_scan.specs.Words.{PiecesGoOn, PiecesJoin, Occurrence, all_beginning, Tree};

/// A scan stands for the longest suffix of what it has read that leads to a node.
pub fn held_suffixes_are_longest()
    //= The suffix that a scan stands for leads to a node, and no longer one does.
    ensures { (tree : Tree) (text : List ℕ) → IsLongestHeld tree text (held_suffix tree text) }
{}

/// The overlapping matches of a scanner are those of a plain search, which looks for the keys that begin at each position, as `matches` of
/// `cedar_words` does: each once, in another order. They ascend by their ends, and at one end from the longest to the shortest.
pub fn overlapping_are_all_keys()
    //= The overlapping matches of a text are what a search at each of its positions finds, in another order.
    ensures same { (tree : Tree) (text : List ℕ) → IsPermutation (all_beginning tree 0 text) (overlapping tree text) }

    //= A key is among them exactly if it occurs in the text.
    ensures exact { (tree : Tree) (text : List ℕ) (s : Occurrence) → Contains (overlapping tree text) s ↔ OccursIn tree text s }

    //= They ascend by their ends, and at one end from the longest to the shortest: so each is among them once.
    ensures order { (tree : Tree) (text : List ℕ) → AreByEnd (overlapping tree text) }
{}

/// What a stream finds in pieces is what is found in the whole text.
pub fn pieces_join()
    //= What is found in two pieces of a text, the second one from the suffix of the first on, is what is found in both together.
    ensures two { (tree : Tree) (first : List ℕ) (second : List ℕ) → PiecesJoin tree first second }

    //= So it is behind whatever was read before: what is found in a piece, and in the next one from the suffix that a stream holds then
    //  on, is what is found in both as one piece. So any number of pieces join.
    ensures any { (tree : Tree) (read : List ℕ) (place : ℕ) (piece : List ℕ) (next : List ℕ) → PiecesGoOn tree read place piece next }
{}

/// The leftmost matches of the longest keys are the keywords of `leftmost_longest` of `cedar_words`, and the scanner finds those of either
/// kind by the keys alone that can count at some position.
pub fn leftmost_are_plain()
    //= The leftmost matches of the longest keys are the keywords that `leftmost_longest` finds.
    ensures longest { (tree : Tree) (text : List ℕ) → LongestAreKeywords tree text }

    //= Of the keys that begin at a position the one that counts is the longest of those that can count at all.
    ensures preferred { (tree : Tree) (text : List ℕ) → FirstIsLongestLeft tree text }
{}
