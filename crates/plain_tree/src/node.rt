//! The nodes of a plain tree, which own their children. A node is seen as its label and the tree below it.
ghost use Rattle.std.specs.Prelude.{◌++◌, ◌==◌, ◌∷◌, ◌≡◌, [], IfOk, is_some, IsOk, IsSome, map};
ghost use Rattle.std.specs.Prelude.{nat_lt, OnErr, OnOk, position, true, ℕ};
ghost use Rattle.plain_tree.specs.Words.{arith, beneath, coded_tree, coded_ℕ, coded×, cut};
ghost use Rattle.plain_tree.specs.Words.{empty_tree, forest_of, is_bare, most_le-node_count};
ghost use Rattle.plain_tree.specs.Words.{node_count, number_at, paths_of, place_of, prefixes, put};
ghost use Rattle.plain_tree.specs.Words.{Tree, vector_entries, walk};

use std::alloc::{AllocError, Allocator};
use std::marker::Model;

/// A node: its label, its number if it has one, and its own children. The root's label is 0.
#[derive(Drop)]
pub struct Node<A: Allocator> {
    label: u8,
    number: Option<i32>,
    children: Vec<Node<A>, A>,
}

impl<A: Allocator> Model for Node<A> {
    ghost Value = { ℕ × Tree };

    ghost coded = { coded× coded_ℕ coded_tree };

    ghost view = { λ n. (n.label, record { number = n.number; children = forest_of n.children.items }) };

    ghost size = { λ n. node_count n.1.children };

    ghost size_decreases = { λ n h. omega (arith, most_le-node_count n.children.items) };
}

impl<A: Allocator> Node<A> {
    /// Makes a node with neither number nor child.
    pub fn new(alloc: A, label: u8) -> Self
        ensures { result ≡ (label, empty_tree) }
    {
        Node {
            label,
            number: None,
            children: Vec::new(alloc),
        }
    }

    fn is_bare(&self) -> bool
        ensures { result ≡ is_bare self.now.1 }
    {
        self.number.is_none() && self.children.is_empty()
    }
}

/// Returns the index of the child with a label.
fn position<A: Allocator>(children: &[Node<A>], label: u8) -> Option<usize>
    ensures { result ≡ position (λ child. child.0 == label) children.now }
{
    children.iter().position(|child| child.label == label)
}

/// Returns the index of the first child with a greater label.
fn first_above<A: Allocator>(children: &[Node<A>], label: u8) -> Option<usize>
    ensures { result ≡ position (λ child. nat_lt label child.0) children.now }
{
    children.iter().position(|child| label < child.label)
}

/// Returns where a new label goes: before the first greater one if ordered, otherwise first.
fn place<A: Allocator>(children: &[Node<A>], ordered: bool, label: u8) -> usize
    ensures { result ≡ place_of ordered children.now label }
{
    if !ordered {
        return 0;
    }
    first_above(children, label).unwrap_or(children.len())
}

/// Returns the number at a path below a node.
pub fn number_at<A: Allocator>(node: &Node<A>, path: &[u8]) -> Option<i32>
    ensures { result ≡ number_at node.now.1 path.now }
{
    let Some((label, rest)) = path.split_first() else {
        return node.number;
    };
    let at = position(node.children.as_slice(), *label)?;
    number_at(&node.children[at], rest)
}

/// Makes a node under a label with nothing below it but a path and a number at its end.
fn branch<A: Allocator + Copy>(
    alloc: A,
    label: u8,
    path: &[u8],
    number: i32,
) -> Result<Node<A>, AllocError>
    ensures { IfOk result (λ node. node ≡ (label, put empty_tree true path.now number)) }
{
    let mut node = Node::new(alloc, label);
    match path.split_first() {
        None => node.number = Some(number),
        Some((next, rest)) => {
            let below = branch(alloc, *next, rest, number)?;
            node.children.push(below)?;
        }
    }
    Ok(node)
}

/// Stores a number at a path below a node. If memory is lacking, the node stays as it was.
pub fn put<A: Allocator + Copy>(
    alloc: A,
    node: &mut Node<A>,
    ordered: bool,
    path: &[u8],
    number: i32,
) -> Result<(), AllocError>
    ensures ok { OnOk result (node.new ≡ (node.old.0, put node.old.1 ordered path.now number)) }
    ensures err { OnErr result (node.new ≡ node.old) }
    ensures held { IsSome (number_at node.old.1 path.now) → IsOk result }
{
    let Some((label, rest)) = path.split_first() else {
        node.number = Some(number);
        return Ok(());
    };
    match position(node.children.as_slice(), *label) {
        Some(at) => put(alloc, &mut node.children[at], ordered, rest, number),
        None => {
            let child = branch(alloc, *label, rest, number)?;
            let at = place(node.children.as_slice(), ordered, *label);
            node.children.insert(at, child)?;
            Ok(())
        }
    }
}

/// Removes the number at a path, and each node on it that is then bare. Returns whether there was one.
pub fn cut<A: Allocator>(node: &mut Node<A>, path: &[u8]) -> bool
    ensures answer { result ≡ is_some (number_at node.old.1 path.now) }
    ensures after { node.new ≡ (node.old.0, cut node.old.1 path.now) }
{
    let Some((label, rest)) = path.split_first() else {
        return node.number.take().is_some();
    };
    let Some(at) = position(node.children.as_slice(), *label) else {
        return false;
    };
    let held = cut(&mut node.children[at], rest);
    if node.children[at].is_bare() {
        node.children.remove(at);
    }
    held
}

/// Returns a path with one more label.
fn longer<A: Allocator>(alloc: A, path: &[u8], label: u8) -> Result<Vec<u8, A>, AllocError>
    ensures { IfOk result (λ below. below.items ≡ path.now ++ label ∷ []) }
{
    let mut below = path.to_vec(alloc)?;
    below.push(label)?;
    Ok(below)
}

/// Adds the entries of a node at a path: its number's before its children's, children in their order.
pub(crate) fn walk_into<A: Allocator + Copy>(
    alloc: A,
    node: &Node<A>,
    path: &[u8],
    entries: &mut Vec<(Vec<u8, A>, i32), A>,
) -> Result<(), AllocError>
    ensures { OnOk result (vector_entries entries.new.items ≡ vector_entries entries.old.items ++ map (beneath path.now) (walk node.now.1)) }
{
    if let Some(number) = node.number {
        entries.push((path.to_vec(alloc)?, number))?;
    }
    for child in &node.children {
        let below = longer(alloc, path, child.label)?;
        walk_into(alloc, child, &below, entries)?;
    }
    Ok(())
}

/// Adds the paths of the nodes below a node at a path.
pub(crate) fn prefixes_into<A: Allocator + Copy>(
    alloc: A,
    node: &Node<A>,
    path: &[u8],
    paths: &mut Vec<Vec<u8, A>, A>,
) -> Result<(), AllocError>
    ensures { OnOk result (paths_of paths.new.items ≡ paths_of paths.old.items ++ map (λ p. path.now ++ p) (prefixes node.now.1)) }
{
    for child in &node.children {
        let below = longer(alloc, path, child.label)?;
        paths.push(longer(alloc, path, child.label)?)?;
        prefixes_into(alloc, child, &below, paths)?;
    }
    Ok(())
}
