//! All tokens that cuts from each position of a text on may begin with, by a model.

ghost use Rattle.std.specs.Prelude.{◌-◌, ◌<◌, ◌^◌, ◌≡◌, ◌≤◌, length, List, ⊤, ℕ, ℤ};
ghost use Rattle.cedar_words.specs.Words.{edges_at, edges_from, GivesEdge, IsStop, item_count};
ghost use Rattle.cedar_words.specs.Words.{key_edge, keys_left, own_run, run_by, run_edge};
ghost use Rattle.cedar_words.specs.Words.{YieldsFirst};
ghost use Rattle.cedar_words.specs.declared.edges.Edge.{Edge};

use crate::costs::NextFront;
use crate::models::{CostModel, UnknownRun};
use crate::spots::Fronts;
use cedarwood::{Layout, PrefixIter, Trie};
use std::alloc::{AllocError, Allocator};
use std::iter::FusedIterator;
use std::marker::Model;

/// A token that a cut from its position of a text on may begin with: an edge of the text's lattice.
#[derive(Clone, Copy)]
pub struct Edge {
    /// Where it begins.
    pub start: usize,
    /// How many bytes it has.
    pub len: usize,
    /// Its value if it is a key, and `None` if it is an unknown run.
    pub value: Option<i32>,
    /// What it costs.
    pub cost: u32,
}

/// A position of a text, and what is still to come there.
#[derive(Clone, Copy)]
struct Stop {
    place: usize,
    // The next key.
    key: Option<(i32, usize)>,
    // The unknown run, which comes after the keys.
    run: Option<UnknownRun>,
}

/// All tokens that cuts from each position of a text on may begin with, by a model, position after position: at each the keys, the shortest
/// first, and then the unknown run, if a cut may begin with it. It allocates nothing, and a clone goes on from the same position.
///
/// A contract sees those that are left.
#[derive(Drop)]
pub struct Edges<'a, T: Fronts, M: CostModel> {
    trie: &'a T,
    model: &'a M,
    text: &'a [u8],
    stop: Stop,
    // The keys behind the next one.
    walk: PrefixIter<'a, T>,
}

impl<'a, T: Fronts, M: CostModel> Model for Edges<'a, T, M> {
    ghost Value = { List Edge };

    ghost view = { λ it. edges_at (T.fronts_of it.trie.now) (M.key_cost it.model.now) (M.unknown_at it.model.now it.text.now) it.text.now (it.stop, it.walk.rest) };

    ghost invariant = { λ it. IsStop it.text.now (it.stop, it.walk.rest) };
}

/// Lists all tokens that cuts from each position of a text on may begin with, by a model, with what they cost: position after position, at
/// each the keys, the shortest first, and then the unknown run. So a search of one's own over all cuts, such as a Viterbi with costs between
/// neighbours, has its edges. It returns an iterator, which borrows the dictionary, the text and the model, and allocates nothing.
///
/// ```
/// cedar.build(&[("a", 0), ("ab", 1)])?;
/// let keys = CostTable { costs: &[5, 6], beyond: 0 };
/// let model = Priced { keys, unknown: WhereNoKeyBegins { rule: OneByte { cost: 10 } } };
/// let edges: Vec<Edge> = lattice(&cedar, b"ab", &model).collect(rt.alloc())?;
/// assert_eq!(rt; edges.len(), 3);
/// assert_eq!(rt; (edges[1].start, edges[1].len, edges[1].value, edges[1].cost), (0, 2, Some(1), 6));
/// assert_eq!(rt; (edges[2].start, edges[2].len, edges[2].value, edges[2].cost), (1, 1, None, 10));
/// ```
pub fn lattice<'a, L: Layout, const SLOTS: usize, A: Allocator + Copy, M: CostModel>(
    trie: &'a Trie<L, SLOTS, A>,
    text: &'a [u8],
    model: &'a M,
) -> Edges<'a, Trie<L, SLOTS, A>, M>
    //= The lattice of a text by a model has the keys that begin at each of its positions, the shortest first, and behind them the unknown
    //  run there, unless it may not stand beside keys and some begin there; an item a call. [also Edges.next_gives]
    ensures { result ≡ edges_from trie.now.state.tree (M.key_cost model.now) (M.unknown_at model.now text.now) 0 text.now }
{
    let mut walk = trie.common_prefix_iter_bytes(text);
    let stop = stop_at(model, text, 0, &mut walk);
    Edges {
        trie,
        model,
        text,
        stop,
        walk,
    }
}

/// An unknown run, unless keys begin where it does and it may not stand beside them.
fn own_run(run: UnknownRun, key: Option<(i32, usize)>) -> Option<UnknownRun>
    ensures { (fronts : List (ℤ × ℕ)) → result ≡ own_run run (keys_left key fronts) }
{
    if key.is_none() || run.beside_keys {
        Some(run)
    } else {
        None
    }
}

/// What is to come at a position, by the walk over the keys there.
fn stop_at<F: NextFront, M: CostModel>(model: &M, text: &[u8], place: usize, walk: &mut F) -> Stop
    requires { place ≤ length text.now }
    ensures place { result.place ≡ place }
    ensures keys { keys_left result.key (F.left walk.new) ≡ F.left walk.old }
    ensures run { result.run ≡ run_by (M.unknown_at model.now text.now) text.now place (F.left walk.old) }
{
    let key = walk.next_front();
    let run = if place < text.len() {
        own_run(model.unknown(text, place), key)
    } else {
        None
    };
    Stop { place, key, run }
}

/// A key at a position, as an edge.
fn key_edge<M: CostModel>(model: &M, place: usize, front: (i32, usize)) -> Edge
    requires { front.1 < 2 ^ 64 - 1 }
    ensures { result ≡ key_edge (M.key_cost model.now) place front }
{
    Edge {
        start: place,
        len: front.1 + 1,
        value: Some(front.0),
        cost: model.cost(front.0),
    }
}

/// An unknown run at a position, as an edge, where so many bytes are left.
fn run_edge(place: usize, left: usize, run: UnknownRun) -> Edge
    ensures { result ≡ run_edge place left run }
{
    Edge {
        start: place,
        len: run.len.min(left).max(1),
        value: None,
        cost: run.cost,
    }
}

/// The next edge at this position, or at the first position after it where there is one.
fn next_edge<'a, T: Fronts, M: CostModel>(
    trie: &'a T,
    model: &M,
    text: &'a [u8],
    stop: &mut Stop,
    walk: &mut PrefixIter<'a, T>,
) -> Option<Edge>
    requires { IsStop text.now (stop.old, walk.old.rest) }
    ensures gives { GivesEdge (T.fronts_of trie.now) M.key_cost M.unknown_at model.now text.now (stop.old, walk.old.rest) result (stop.new, walk.new.rest) }
    ensures is { IsStop text.now (stop.new, walk.new.rest) }
{
    while stop.place < text.len() {
        if let Some(front) = stop.key {
            stop.key = walk.next_front();
            return Some(key_edge(model, stop.place, front));
        }
        if let Some(run) = stop.run {
            stop.run = None;
            return Some(run_edge(stop.place, text.len() - stop.place, run));
        }
        let place = stop.place + 1;
        *walk = trie.fronts(&text[place..]);
        *stop = stop_at(model, text, place, walk);
    }
    None
}

impl<'a, T: Fronts, M: CostModel> Clone for Edges<'a, T, M> {
    //= A lattice that has ended stays ended, and a clone goes on from the same position. [with is_infallible; by FusedIterator]
    ghost is_clone = { λ it copy. copy ≡ it };

    ghost is_infallible = { λ _. ⊤ };

    fn clone(&self) -> Result<Self, AllocError> {
        Ok(Edges {
            trie: self.trie,
            model: self.model,
            text: self.text,
            stop: self.stop,
            walk: self.walk.clone()?,
        })
    }
}

impl<'a, T: Fronts, M: CostModel> Iterator for Edges<'a, T, M> {
    type Item = Edge;

    ghost next_gives = { YieldsFirst (λ (rest : List Edge). rest) };

    ghost remaining = { item_count (λ (rest : List Edge). rest) };

    fn next(&mut self) -> Option<Edge> {
        next_edge(
            self.trie,
            self.model,
            self.text,
            &mut self.stop,
            &mut self.walk,
        )
    }
}

impl<'a, T: Fronts, M: CostModel> FusedIterator for Edges<'a, T, M> {}
