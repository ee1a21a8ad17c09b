//! Laws of the tokens of a text.

ghost use Rattle.std.specs.Prelude.{◌+◌, ◌↔◌, ◌<◌, ◌^◌, ◌∷◌, ◌≡◌, ◌≤◌, [], All, Bool};
ghost use Rattle.std.specs.Prelude.{Contains};
ghost use Rattle.std.specs.Prelude.{drop, IsUtf8, length, List, ℕ, ℤ};
ghost use Rattle.cedar_words.specs.Words.{all_stored, AreAdjacent, AreWholeCharacters, bytes_in};
ghost use Rattle.cedar_words.specs.Words.{character_run, class_run, cost_by, cost_with, cut};
ghost use Rattle.cedar_words.specs.Words.{edges_from, empty_tree, Entry, HasOneBestCut};
ghost use Rattle.cedar_words.specs.Words.{HasOneCheapest, HasUtf8Keys, IsAheadCapped, IsBestCut};
ghost use Rattle.cedar_words.specs.Words.{IsBestCuts};
ghost use Rattle.cedar_words.specs.Words.{IsCheapestBy, IsCheapestByModel, IsCut, IsCutBy};
ghost use Rattle.cedar_words.specs.Words.{IsEdgeOf, IsKeyIn, IsLeastCapped, IsLeftmost, IsLongest};
ghost use Rattle.cedar_words.specs.Words.{IsSoundBelow, keywords_from, keywords_in};
ghost use Rattle.cedar_words.specs.Words.{only_without_key, PartsNoCharacter, put};
ghost use Rattle.cedar_words.specs.Words.{RunsKeepCharacters, segments, Spot, spots_from, State};
ghost use Rattle.cedar_words.specs.Words.{Token, tokens_behind, TokensGoOn, Tree};
ghost use Rattle.cedar_words.specs.declared.edges.Edge.{Edge};
ghost use Rattle.cedar_words.specs.declared.models.UnknownRun.{UnknownRun};

/// The tokens of a text cover it in order: each begins where the one before it ended, has one byte or more, and together they have
/// the bytes of the text.
pub fn tokens_cover()
    //= Each token begins where the one before it ended, the first at 0, and has one byte or more. The last one ends with the text.
    ensures covers { (tree : Tree) (text : List ℕ) → AreAdjacent (segments tree text) 0 (length text) }

    //= Together they have the bytes of the text.
    ensures bytes { (tree : Tree) (text : List ℕ) → bytes_in (segments tree text) ≡ length text }
{}

/// A token is within its text: its bytes are `&text[start..start + len]`.
pub fn tokens_lie_within()
    //= Each token is within the text.
    ensures { (tree : Tree) (text : List ℕ) → All (λ token. token.0 + token.1 ≤ length text) (segments tree text) }
{}

/// Each token is the longest key that begins at its position, with its value, or one byte if none does.
pub fn tokens_are_longest()
    //= Each is the longest key at its position: its value is what its bytes hold, nothing longer there is held, and without a value it is
    //  one byte.
    ensures { (tree : Tree) (text : List ℕ) → All (IsLongest tree text) (segments tree text) }
{}

/// The tokens from a position on are the one there, and then those from its end on.
pub fn tokens_go_on()
    //= The tokens from a position on are the one there, and then those from its end on. [with more]
    ensures ends { (tree : Tree) (place : ℕ) → tokens_behind tree 0 place [] ≡ [] }
    ensures more { (tree : Tree) (place : ℕ) (text : List ℕ) → TokensGoOn tree place text }
{}

/// The tokens of any cut cover the text in order, as those of `segment` do.
pub fn cuts_cover()
    //= The tokens of any cut by cost cover the text: each begins where the one before it ended, the first at 0, and the last one ends with
    //  it.
    ensures { (tree : Tree) (text : List ℕ) (tokens : List Token) → IsCut tree text tokens → AreAdjacent tokens 0 (length text) }
{}

/// One text has one cheapest cut: so the result depends on the tree alone, and is the same in both layouts.
pub fn cheapest_is_one()
    //= Two cuts that are both the cheapest, and first among those that cost as little, are the same.
    ensures { (tree : Tree) (unknown : ℕ → ℕ) (text : List ℕ) → HasOneCheapest tree unknown text }
{}

/// A cut by cost is the cheapest in a text of any length, if it costs less than 2^64: what the clauses `capped` and `ahead` of `cheapest`
/// say is then what `least` says of shorter texts. If every cut of a text costs 2^64 or more, they say nothing of it.
pub fn capped_is_cheapest()
    //= A cut by cost of a text of any length that costs less than 2^64 is the cheapest, and first among those that cost as little. This
    //  follows by `cut`, `capped` and `ahead` of `cheapest` and `cheapest_by_characters`.
    ensures { (tree : Tree) (unknown : ℕ → ℕ) (text : List ℕ) (tokens : List Token) → IsCut tree text tokens → IsLeastCapped tree unknown text tokens → IsAheadCapped tree unknown text tokens → cost_by unknown tokens < 2 ^ 64 → IsCheapestBy tree unknown text tokens }
{}

/// The matches of a text are exactly the keys that occur in it.
pub fn matches_are_keys()
    //= A key is among the matches of a text exactly if these bytes of the text, one or more, are that key: each match is one, and none is
    //  left out.
    ensures { (tree : Tree) (text : List ℕ) (found : Spot) → Contains (spots_from tree 0 text) found ↔ IsKeyIn tree text found }
{}

/// No key begins before the first keyword of a text, between two or after the last, and each is the longest key at its position.
pub fn keywords_are_leftmost()
    //= No key begins before the first keyword of a text, between two or after the last one, and each is the longest key that begins at its
    //  position.
    ensures { (tree : Tree) (text : List ℕ) → IsLeftmost tree text 0 (keywords_in tree text) }
{}

/// In a text that is UTF-8 a key that is UTF-8 neither begins nor ends inside a character: so a match or a keyword of a `&str` is
/// `&text[start..start + len]`, if the dictionary's keys are texts too.
pub fn keys_part_no_character()
    //= In a text that is UTF-8, over keys that are, each key that occurs is whole characters: it begins and ends where characters do, or
    //  with the text. So is each keyword, also from a position on. [with keywords, later; by HasUtf8Keys]
    ensures keys { (tree : Tree) (text : List ℕ) (found : Spot) → IsUtf8 text → HasUtf8Keys tree → IsKeyIn tree text found → AreWholeCharacters text found.0 found.1 }
    ensures keywords { (tree : Tree) (text : List ℕ) → IsUtf8 text → HasUtf8Keys tree → All (λ found. AreWholeCharacters text found.0 found.1) (keywords_in tree text) }
    ensures later { (tree : Tree) (text : List ℕ) (place : ℕ) → IsUtf8 text → HasUtf8Keys tree → All (λ found. AreWholeCharacters text found.0 found.1) (keywords_from tree place (drop place text)) }
{}

/// So it is with the tokens that have a value, of `segment` and of any cut by cost. A token without one is a single byte: it is a character
/// exactly if it is ASCII, below 128. Neighbours without a value, joined, are whole characters again, since they begin and end where tokens
/// with a value end and begin, or the text.
pub fn tokens_part_no_character()
    //= In a text that is UTF-8, over keys that are, each token with a value is whole characters, of `segment`, of `segment_from` and of any
    //  cut by cost; one without a value is so exactly if its byte is below 128. [with later, cuts; by PartsNoCharacter]
    ensures tokens { (tree : Tree) (text : List ℕ) → IsUtf8 text → HasUtf8Keys tree → All (PartsNoCharacter text) (segments tree text) }
    ensures later { (tree : Tree) (text : List ℕ) (place : ℕ) → IsUtf8 text → HasUtf8Keys tree → All (PartsNoCharacter text) (tokens_behind tree 0 place (drop place text)) }
    ensures cuts { (tree : Tree) (text : List ℕ) (tokens : List Token) → IsUtf8 text → HasUtf8Keys tree → IsCut tree text tokens → All (PartsNoCharacter text) tokens }
{}

/// A dictionary whose keys are UTF-8 keeps such keys: a new one has none, and each call that takes its keys as `&str` stores UTF-8. A
/// sorted build is one of the same pairs in turn.
pub fn utf8_keys_stay()
    //= A tree whose keys are all UTF-8 stays so when a key that is UTF-8 is stored, or some pairs of such keys in turn, and when a key is
    //  erased. The empty tree is so. [with stored, built, erased]
    ensures none { HasUtf8Keys empty_tree }
    ensures stored { (tree : Tree) (ordered : Bool) (key : List ℕ) (number : ℤ) → HasUtf8Keys tree → IsUtf8 key → HasUtf8Keys (put tree ordered key number) }
    ensures built { (state : State) (pairs : List Entry) → HasUtf8Keys state.tree → All (λ pair. IsUtf8 pair.0) pairs → HasUtf8Keys (all_stored state pairs).tree }
    ensures erased { (tree : Tree) (key : List ℕ) → IsSoundBelow tree.children → HasUtf8Keys tree → HasUtf8Keys (cut tree key) }
{}

/// The tokens of any cut by a model cover the text in order, as those of `segment` do: so `&text[start..start + len]` exists for each.
pub fn model_cuts_cover()
    //= The tokens of any cut by a model cover the text: each begins where the one before it ended, the first at 0, has one byte or more, and
    //  the last one ends with the text.
    ensures { (tree : Tree) (run : ℕ → UnknownRun) (text : List ℕ) (tokens : List Token) → IsCutBy tree run text tokens → AreAdjacent tokens 0 (length text) }
{}

/// The lattice of a text has at each position exactly the tokens that a cut from there on may begin with.
pub fn lattice_has_all_tokens()
    //= A token is in the lattice of a text by a model exactly if a cut from its position on may begin with it: its bytes, one or more, are a
    //  key with its value, or the unknown run at its position, which stands beside keys only if the model says so. It has its cost.
    ensures { (tree : Tree) (key : ℤ → ℕ) (run : ℕ → UnknownRun) (text : List ℕ) (edge : Edge) → Contains (edges_from tree key run 0 text) edge ↔ IsEdgeOf tree key run text edge }
{}

/// One text has one best cut by a model: so the result depends on the tree and the model alone, and is the same in both layouts.
pub fn best_cut_is_one()
    //= Two cuts by one model that are both the best are the same, in a text of any length.
    ensures { (tree : Tree) (key : ℤ → ℕ) (run : ℕ → UnknownRun) (text : List ℕ) → HasOneBestCut tree key run text }
{}

/// The best cut by a model is the cheapest, if it costs less than 2^64. No cut of a text of fewer than 2^32 bytes costs as much.
pub fn best_cut_is_cheapest()
    //= The best cut by a model is the cheapest of all, and first among those that cost as little, if it costs less than 2^64.
    ensures { (tree : Tree) (key : ℤ → ℕ) (run : ℕ → UnknownRun) (text : List ℕ) (tokens : List Token) → IsBestCut tree key run text tokens → cost_with key run tokens < 2 ^ 64 → IsCheapestByModel tree key run text tokens }
{}

/// The first of the best cuts by a model is the best cut.
pub fn best_cuts_begin_with_the_best()
    //= The first of the best cuts by a model is the best cut, which `cheapest_by` returns.
    ensures { (tree : Tree) (key : ℤ → ℕ) (run : ℕ → UnknownRun) (text : List ℕ) (most : ℕ) (first : List Token) (cuts : List (List Token)) → IsBestCuts tree key run text most (first ∷ cuts) → IsBestCut tree key run text first }
{}

/// In a text that is UTF-8, over keys that are, each token of a cut by a model of whole characters is whole characters: so it is
/// `&text[start..start + len]` of a `&str` too, also where it has no value.
pub fn model_cuts_part_no_character()
    //= In a text that is UTF-8, over keys that are, no token of a cut parts a character, if the model's unknown runs don't: each token begins
    //  and ends where characters do, or with the text. [by RunsKeepCharacters]
    ensures { (tree : Tree) (run : ℕ → UnknownRun) (text : List ℕ) (tokens : List Token) → IsUtf8 text → HasUtf8Keys tree → RunsKeepCharacters run text → IsCutBy tree run text tokens → All (λ token. AreWholeCharacters text token.0 token.1) tokens }
{}

/// The rules `OneCharacter` and `OneClass` part no character, and `WhereNoKeyBegins` keeps what its rule keeps.
pub fn runs_keep_characters()
    //= A run of one character, or of characters of one class, that begins where a character does ends where one does, or with the text. So do
    //  runs that stand only where no key begins, if those of their rule do. [with classes, only]
    ensures characters { (text : List ℕ) (cost : ℕ) → RunsKeepCharacters (character_run cost text) text }
    ensures classes { (text : List ℕ) (alike : ℕ → ℕ → Bool) (most cost : ℕ) → RunsKeepCharacters (class_run alike most cost text) text }
    ensures only { (text : List ℕ) (run : ℕ → UnknownRun) → RunsKeepCharacters run text → RunsKeepCharacters (λ place. only_without_key (run place)) text }
{}
