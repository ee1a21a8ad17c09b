//! Which entries of a tree are in a range.

ghost use Rattle.std.specs.Prelude.{◌++◌, ◌∷◌, ◌≡◌, Bool, filter, List, nat_eq, ℕ};
ghost use Rattle.key_ranges.specs.Words.{entries_within, Entry, holds, HoldsBefore, HoldsBehind};
ghost use Rattle.key_ranges.specs.Words.{HoldsPrefixed, IsAscending, IsSound, KeySpan, starts_with};
ghost use Rattle.key_ranges.specs.Words.{Tree, walk};

/// A range has the entries at whose keys a test holds, if that test says what the range holds: as the clause of [`KeyRange::between`] does.
///
/// [`KeyRange::between`]: crate::KeyRange::between
pub fn ranges_have_what_they_hold()
    //= The entries of a range are those of the walk whose keys it holds, in its order.
    ensures { (tree : Tree) (span : KeySpan) (test : List ℕ → Bool) → ((w : List ℕ) → holds span w ≡ test w) → entries_within tree span ≡ filter (λ e. test e.0) (walk tree) }
{}

/// The range of a prefix has the entries whose keys begin with it.
pub fn prefix_ranges_have_their_entries()
    //= Of a sound tree the range of a prefix has the entries of the walk whose keys begin with it, in its order.
    ensures { (tree : Tree) (span : KeySpan) (prefix : List ℕ) → IsSound tree → HoldsPrefixed span prefix → entries_within tree span ≡ filter (λ e. starts_with nat_eq e.0 prefix) (walk tree) }
{}

/// Pages join: a range that goes on after the last entry of a page has exactly the entries that were left. So pages repeat no entry and leave
/// none out.
pub fn pages_join()
    //= If labels ascend, and the entries of a range are those of a page, its last one and others, then the range that goes on after the
    //  last one's key has exactly these others.
    ensures { (tree : Tree) (old new : KeySpan) (page : List Entry) (last : Entry) (rest : List Entry) → IsAscending tree.children → HoldsBehind old new last.0 → entries_within tree old ≡ page ++ last ∷ rest → entries_within tree new ≡ rest }
{}

/// Pages join backwards too: a range that goes back before the first entry of a page has exactly the entries that were left before it.
pub fn pages_join_backwards()
    //= If labels ascend, and the entries of a range are some, the first one of a page and its others, then the range that goes back before
    //  that first one's key has exactly those before it.
    ensures { (tree : Tree) (old new : KeySpan) (rest : List Entry) (first : Entry) (page : List Entry) → IsAscending tree.children → HoldsBefore old new first.0 → entries_within tree old ≡ rest ++ first ∷ page → entries_within tree new ≡ rest }
{}
