//! The labelled tree that a dictionary's results come from: definitions for contracts, and their laws. The statements of the
//! laws are in specs/Statements.antt, and those of laws that go one node at a time in specs/StepLaws.antt.
#![tactic(auto)]

ghost use Rattle.cedar_tree.specs.Statements.{PutIsReadBack, PutStaysLocal, CutIsReadBack};
ghost use Rattle.cedar_tree.specs.Statements.{CutStaysLocal, LaterPutStands, HeldPutChangesNothing};
ghost use Rattle.cedar_tree.specs.Statements.{MissedCutChangesNothing, CutUndoesPut, CutForgetsPut};
ghost use Rattle.cedar_tree.specs.Statements.{PutKeepsSound, CutKeepsSound, PutKeepsPassing};
ghost use Rattle.cedar_tree.specs.Statements.{CutKeepsPassing, FoundPasses, PutKeepsAscending};
ghost use Rattle.cedar_tree.specs.Statements.{CutKeepsAscending, WalkHasHeld, WalkHasEachOnce};
ghost use Rattle.cedar_tree.specs.Statements.{PutKeepsOtherEntries, CutKeepsOtherEntries};
ghost use Rattle.cedar_tree.specs.Statements.{KeysComeBeforeExtensions, FrontHasHeld, FrontAscends};
ghost use Rattle.cedar_tree.specs.Statements.{PredictHasHeld, PredictIsPartOfWalk};
ghost use Rattle.cedar_tree.specs.Statements.{PredictIsWalkOfNode, PredictOfNothingIsWalk};
ghost use Rattle.cedar_tree.specs.Statements.{PrefixesHaveFronts, PrefixesHaveNoOther};
ghost use Rattle.cedar_tree.specs.Statements.{PutCountsEntries, CutCountsEntries};
ghost use Rattle.cedar_tree.specs.Statements.{PutCountsPrefixes, CutCountsPrefixes, PutCountsSlots};
ghost use Rattle.cedar_tree.specs.Statements.{CutCountsSlots, MissingAreBareFronts, NodesAreFronts};
ghost use Rattle.cedar_tree.specs.Statements.{HeldMissesNone, CutMissesMore, WalkAscends, OneTree};
ghost use Rattle.cedar_tree.specs.Statements.{BuiltIsSound, BuiltIsAscending, BuiltPasses};
ghost use Rattle.cedar_tree.specs.Statements.{BuiltHoldsLast, SortedPairsHaveTree};
ghost use Rattle.cedar_tree.specs.Statements.{PairsHaveOneTree, EntriesAreKeys, EntriesMakeTree};

mod cuts;
mod edits;
mod puts;
mod walks;

pub use cuts::{cut_nodes_stay, edits_stay_ascending, paths_go_on};
pub use edits::{cut_ends, cut_goes_up_its_path, put_goes_along_its_path};
pub use puts::{cut_takes_leaves_back, leaf_stands_at_its_path};
pub use walks::{front_goes_on, walks_begin, walks_go_on};

/// A put number is read back at its path, and each other path's number stays.
pub fn put_is_read_back()
    //= What was put is read back at its path.
    ensures there { PutIsReadBack }

    //= A put keeps the number at each other path.
    ensures elsewhere { PutStaysLocal }
{}

/// A cut number is no longer held, and each other path's number stays.
pub fn cut_is_read_back()
    //= After a cut of a sound tree nothing is at its path.
    ensures there { CutIsReadBack }

    //= A cut of a sound tree keeps the number at each other path.
    ensures elsewhere { CutStaysLocal }
{}

/// Of two puts at a path the later one counts.
pub fn later_put_stands()
    //= Of two puts at a path the later one counts.
    ensures { LaterPutStands }
{}

/// A put of what is held changes nothing, nor does a cut of what isn't.
pub fn nothing_changes()
    //= A put of what is held changes nothing.
    ensures put { HeldPutChangesNothing }

    //= A cut of what isn't held changes nothing in a sound tree.
    ensures cut { MissedCutChangesNothing }
{}

/// A cut undoes a put of a path that isn't held; of any path, what is left is as without the put.
pub fn cut_undoes_put()
    //= A cut undoes a put of a path that wasn't held, in a sound tree.
    ensures new { CutUndoesPut }

    //= After a cut of a sound tree it is as if there had been no put at that path.
    ensures any { CutForgetsPut }
{}

/// A put at a key and a cut keep a tree sound.
pub fn soundness_is_kept()
    //= A put at a key keeps a tree sound.
    ensures put { PutKeepsSound }

    //= So does a cut.
    ensures cut { CutKeepsSound }
{}

/// If each number passes a test, this stays so after a put of one that passes and after a cut, and each number
/// that is found passes.
pub fn numbers_keep_passing()
    //= If all numbers pass a test, they do so after a put of one that passes, and after a cut. [with cut]
    ensures put { PutKeepsPassing }
    ensures cut { CutKeepsPassing }

    //= A number that is found then passes it.
    ensures found { FoundPasses }
{}

/// An ordered put and a cut keep the labels ascending.
pub fn labels_stay_ascending()
    //= An ordered put and a cut keep ascending labels ascending. [with cut]
    ensures put { PutKeepsAscending }
    ensures cut { CutKeepsAscending }
{}

/// The walk has exactly the number that is held at a path, once.
pub fn walk_is_map()
    //= The walk of a sound tree has an entry exactly if it is held.
    ensures has { WalkHasHeld }

    //= It has one entry at each path that is held, and none elsewhere.
    ensures once { WalkHasEachOnce }
{}

/// A cut removes the entry at its path from the walk, and a put keeps those at other paths, in their order.
pub fn other_entries_stay()
    //= A put keeps the entries at other paths, in their order (sound tree, path of labels).
    ensures put { PutKeepsOtherEntries }

    //= A cut removes the entry at its path from the walk, and no other (sound tree).
    ensures cut { CutKeepsOtherEntries }
{}

/// A key comes before its extensions in the walk, whatever the order of labels.
pub fn keys_come_before_extensions()
    //= A key comes before its extensions in the walk, whatever the order of labels (sound tree).
    ensures { KeysComeBeforeExtensions }
{}

/// The prefix walk has v at n exactly if the first n + 1 bytes are held with v, and its positions ascend: so it has
/// each once.
pub fn front_is_exact()
    //= `front` has v at n exactly if the first n + 1 bytes of the query are held with v.
    ensures has { FrontHasHeld }

    //= Its positions ascend, so it has each once.
    ensures ascends { FrontAscends }
{}

/// The predictions are exactly the numbers that are held at a query or after it, each with the number of bytes after it, in
/// the order of the walk; for the empty query that is the whole walk.
pub fn predict_is_part_of_walk()
    //= `predict` of a sound tree has v with m exactly if some key of m bytes more than the query begins with it and holds v.
    ensures has { PredictHasHeld }

    //= The predictions are part of the walk, in its order.
    ensures part { PredictIsPartOfWalk }

    //= They are the walk of the query's node (sound tree).
    ensures node { PredictIsWalkOfNode }

    //= For the empty query they are the whole walk.
    ensures whole { PredictOfNothingIsWalk }
{}

/// `prefixes` has each prefix of a key but the empty one, once.
pub fn prefixes_are_fronts()
    //= The prefixes of a sound tree have each nonempty prefix of a key once.
    ensures fronts { PrefixesHaveFronts }

    //= They have no other path.
    ensures no_other { PrefixesHaveNoOther }
{}

/// A put adds an entry if its path isn't held, and a cut removes the one that is.
pub fn walk_counts()
    //= A put adds an entry exactly if its path isn't held; a cut removes one exactly if it is. [with cut]
    ensures put { PutCountsEntries }
    ensures cut { CutCountsEntries }
{}

/// A put adds a prefix for each node of its path that the tree doesn't have, and a cut removes those that it
/// leaves bare.
pub fn prefix_counts()
    //= A put adds a prefix for each node of its path that is missing; a cut removes those that it leaves bare. [with cut]
    ensures put { PutCountsPrefixes }
    ensures cut { CutCountsPrefixes }
{}

/// So the slots that a tree takes grow and shrink by the nodes that come and go, and by the number.
pub fn slot_counts()
    //= A put takes a slot for each missing node and one for a new number; a cut gives back one for each node that it leaves bare and one
    //  for the number. [with cut]
    ensures put { PutCountsSlots }
    ensures cut { CutCountsSlots }
{}

/// The missing nodes of a path are the prefixes that lead to no node, which are those that no key begins with. No node of a
/// held path is missing, and after a cut those that it left bare are missing too.
pub fn missing_nodes_are_counted()
    //= The missing nodes of a path are its prefixes that lead to no node (sound tree).
    ensures fronts { MissingAreBareFronts }

    //= A nonempty path leads to a node exactly if some key begins with it (sound tree).
    ensures nodes { NodesAreFronts }

    //= No node of a held path is missing.
    ensures held { HeldMissesNone }

    //= After a cut those nodes that it left bare are missing too (sound tree).
    ensures cut { CutMissesMore }
{}

/// The paths of the walk ascend if the labels do.
pub fn walk_ascends()
    //= The paths of the walk ascend by bytes if the labels ascend.
    ensures { WalkAscends }
{}

/// Two sound trees whose labels ascend, and which hold the same, are one.
pub fn one_tree()
    //= Two sound trees with ascending labels that hold the same are one.
    ensures { OneTree }
{}

/// The tree that some pairs make is sound if their paths are keys. Its labels ascend, its numbers pass a test if
/// those of the pairs do, and at each path it holds what the last pair with it has.
pub fn asc_is_built()
    //= The tree of pairs at keys is sound.
    ensures sound { BuiltIsSound }

    //= Its labels ascend.
    ensures ascending { BuiltIsAscending }

    //= Its numbers pass a test that those of the pairs pass.
    ensures numbers { BuiltPasses }

    //= At each path it holds what the last pair with this path has.
    ensures holds { BuiltHoldsLast }
{}

/// Pairs whose paths are keys and ascend by bytes have one tree, with labels in ascending order and exactly these
/// entries: the one that putting them one after another makes.
pub fn sorted_pairs_have_one_tree()
    //= Pairs whose paths are keys and ascend by bytes have a tree: the one that putting them in order makes.
    ensures exists { SortedPairsHaveTree }

    //= They have no other.
    ensures unique { PairsHaveOneTree }
{}

/// The entries of a sound tree are at keys, and they make the tree again if its labels ascend.
pub fn entries_make_the_tree()
    //= The entries of a sound tree are at keys.
    ensures keys { EntriesAreKeys }

    //= They make the tree again if its labels ascend.
    ensures tree { EntriesMakeTree }
{}
