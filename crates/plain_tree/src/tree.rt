//! The plain tree.
ghost use Rattle.std.specs.Prelude.{◌≡◌, IfOk, is_some, IsOk, IsSome, length, OnErr, OnOk};
ghost use Rattle.plain_tree.specs.Words.{coded_tree, cut, empty_tree, exact, front, number_at};
ghost use Rattle.plain_tree.specs.Words.{paths_of, predict, prefixes, put, slots_of_tree, Tree};
ghost use Rattle.plain_tree.specs.Words.{vector_entries, walk};

use crate::node;
use crate::node::Node;
use std::alloc::{AllocError, Allocator};
use std::marker::Model;

/// A labelled tree, each node of which owns its children. A caller sees the tree that it represents.
#[derive(Drop)]
pub struct PlainTree<A: Allocator> {
    root: Node<A>,
}

impl<A: Allocator> Model for PlainTree<A> {
    ghost Value = { Tree };

    ghost coded = { coded_tree };

    ghost view = { λ t. t.root.1 };
}

impl<A: Allocator + Copy> PlainTree<A> {
    /// Makes a tree with neither number nor child.
    pub fn new(alloc: A) -> Self
        //= A new tree is empty.
        ensures { result ≡ empty_tree }
    {
        PlainTree {
            root: Node::new(alloc, 0),
        }
    }

    /// Returns the number at a path.
    pub fn number_at(&self, path: &[u8]) -> Option<i32>
        //= `number_at` and `exact` return what the definitions say, and can't fail. [also exact]
        ensures { result ≡ number_at self.now path.now }
    {
        node::number_at(&self.root, path)
    }

    /// Stores a number at a path. A new label goes to its ascending place among its siblings if ordered,
    /// and otherwise first.
    pub fn put(
        &mut self,
        alloc: A,
        ordered: bool,
        path: &[u8],
        number: i32,
    ) -> Result<(), AllocError>
        //= `put` (ordered or not) and `cut` make the trees of these names; `cut` returns whether the path was held. [also cut.answer.after]
        ensures ok { OnOk result (self.new ≡ put self.old ordered path.now number) }

        //= A refused put leaves the tree as it was; over a held path none is refused. [with held]
        ensures err { OnErr result (self.new ≡ self.old) }
        ensures held { IsSome (number_at self.old path.now) → IsOk result }
    {
        node::put(alloc, &mut self.root, ordered, path, number)
    }

    /// Removes the number at a path, and each node on it that is then bare. Returns whether there was one.
    pub fn cut(&mut self, path: &[u8]) -> bool
        ensures answer { result ≡ is_some (number_at self.old path.now) }
        ensures after { self.new ≡ cut self.old path.now }
    {
        node::cut(&mut self.root, path)
    }

    /// Returns each path that has a number, with it: a node's before its children's, children in their order.
    pub fn walk(&self, alloc: A) -> Result<Vec<(Vec<u8, A>, i32), A>, AllocError>
        //= `walk`, `len`, `front`, `predict`, `prefixes` and `slot_count` return what the definitions say, unless memory is lacking. [also len,
        //  front, predict, prefixes, slot_count]
        ensures { IfOk result (λ entries. vector_entries entries.items ≡ walk self.now) }
    {
        let mut entries = Vec::new(alloc);
        node::walk_into(alloc, &self.root, &[], &mut entries)?;
        Ok(entries)
    }

    /// Returns how many paths have a number.
    pub fn len(&self, alloc: A) -> Result<usize, AllocError>
        ensures { IfOk result (λ count. count ≡ length (walk self.now)) }
    {
        Ok(self.walk(alloc)?.len())
    }

    /// Returns the number at a query, and the query's length.
    pub fn exact(&self, query: &[u8]) -> Option<(i32, usize)>
        ensures { result ≡ exact self.now query.now }
    {
        let number = self.number_at(query)?;
        Some((number, query.len()))
    }

    /// Returns the number at each nonempty prefix of a query that has one, and the position of that prefix's last byte.
    pub fn front(&self, alloc: A, query: &[u8]) -> Result<Vec<(i32, usize), A>, AllocError>
        ensures { IfOk result (λ found. found.items ≡ front self.now query.now) }
    {
        let mut found = Vec::new(alloc);
        for last in 0..query.len() {
            if let Some(number) = self.number_at(&query[..last + 1]) {
                found.push((number, last))?;
            }
        }
        Ok(found)
    }

    /// Returns the number at each path that begins with a query, and how many bytes follow the query there.
    pub fn predict(&self, alloc: A, query: &[u8]) -> Result<Vec<(i32, usize), A>, AllocError>
        ensures { IfOk result (λ found. found.items ≡ predict self.now query.now) }
    {
        let entries = self.walk(alloc)?;
        let mut found = Vec::new(alloc);
        for (path, number) in &entries {
            if path.as_slice().starts_with(query) {
                found.push((*number, path.len() - query.len()))?;
            }
        }
        Ok(found)
    }

    /// Returns the paths of the nodes below the root.
    pub fn prefixes(&self, alloc: A) -> Result<Vec<Vec<u8, A>, A>, AllocError>
        ensures { IfOk result (λ paths. paths_of paths.items ≡ prefixes self.now) }
    {
        let mut paths = Vec::new(alloc);
        node::prefixes_into(alloc, &self.root, &[], &mut paths)?;
        Ok(paths)
    }

    /// Returns how many slots the tree takes: one for the root, one for each prefix and one for each number.
    pub fn slot_count(&self, alloc: A) -> Result<usize, AllocError>
        ensures { IfOk result (λ count. count ≡ slots_of_tree self.now) }
    {
        let prefixes = self.prefixes(alloc)?.len();
        let entries = self.walk(alloc)?.len();
        Ok(1 + prefixes + entries)
    }
}
