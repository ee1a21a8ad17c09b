//! The figures of a dictionary, and how it is printed.

ghost use Rattle.std.specs.Prelude.{◌*◌, ◌+◌, ◌/◌, ◌≡◌, length, Some};
ghost use Rattle.cedarwood.specs.Words.{default_layout, prefixes, shown_text, slots_of_tree, walk};

use crate::{Layout, Trie};
use std::alloc::Allocator;
use std::fmt;

/// The figures of a dictionary, all from one moment.
#[non_exhaustive]
#[derive(Clone, Copy, Debug, PartialEq, Eq)]
pub struct MemoryStats {
    /// How many keys are held.
    pub entries: usize,
    /// How many slots are held, the root's among them.
    pub used_node_slots: usize,
    /// How many slots there are, in use or not.
    pub node_capacity: usize,
    /// How many bytes slots, blocks and reject values take.
    pub allocated_bytes: usize,
}

impl<L: Layout, const SLOTS: usize, A: Allocator + Copy> Trie<L, SLOTS, A> {
    /// How many bytes the table takes: 10 for each slot, in use or not, 20 for each block of 256 slots, and 514 for the reject
    /// values. What the allocator keeps beside these isn't counted.
    ///
    /// ```
    /// assert_eq!(rt; cedar.allocated_bytes(), 3094);
    /// ```
    #[must_use]
    pub fn allocated_bytes(&self) -> usize
        //= `allocated_bytes` returns ten bytes a slot, plus twenty a block, plus 514.
        ensures { result ≡ 10 * self.now.capacity + 20 * (self.now.capacity / 256) + 514 }
    {
        let capacity = self.table.capacity();
        10 * capacity + 20 * (capacity / 256) + 514
    }

    /// The figures, at once: `len`, `used_node_slots`, `node_capacity` and `allocated_bytes`.
    ///
    /// ```
    /// cedar.update("net", 7)?;
    /// let figures = cedar.memory_stats();
    /// assert_eq!(rt; (figures.entries, figures.used_node_slots), (1, 5));
    /// ```
    #[must_use]
    pub fn memory_stats(&self) -> MemoryStats
        //= `memory_stats` returns these four figures. [with used, used_by_default, capacity, bytes]
        ensures entries { result.entries ≡ length (walk self.now.state.tree) }
        ensures used { result.used_node_slots ≡ 1 + length (prefixes self.now.state.tree) + length (walk self.now.marked) }
        ensures used_by_default { L.kind ≡ default_layout → result.used_node_slots ≡ slots_of_tree self.now.state.tree }
        ensures capacity { result.node_capacity ≡ self.now.capacity }
        ensures bytes { result.allocated_bytes ≡ 10 * self.now.capacity + 20 * (self.now.capacity / 256) + 514 }
    {
        MemoryStats {
            entries: self.len(),
            used_node_slots: self.used_node_slots(),
            node_capacity: self.node_capacity(),
            allocated_bytes: self.allocated_bytes(),
        }
    }
}

/// Prints how many keys are held, how many slots are in use, and whether the labels of each node ascend:
/// `Cedar(entries=1, node_slots=512, ordered=true)`, whatever the layout.
///
/// ```
/// cedar.update("net", 7)?;
/// let text = format!(in rt.alloc(); "{cedar:?}")?;
/// assert_eq!(rt; text.as_str(), "Cedar(entries=1, node_slots=512, ordered=true)");
/// ```
impl<L: Layout, const SLOTS: usize, A: Allocator> fmt::Debug for Trie<L, SLOTS, A> {
    //= `{:?}` writes the entries, the slots in use and the order, in decimal digits: byte by byte, in either layout. [by shown_text]
    ghost debug_output = { λ trie. Some (shown_text trie) };

    fn fmt<W: fmt::Write>(&self, f: &mut fmt::Formatter<W>) -> fmt::Result {
        let entries = self.table.entries();
        let node_slots = self.table.size();
        let ordered = self.table.ordered();
        write!(
            f,
            "Cedar(entries={entries}, node_slots={node_slots}, ordered={ordered})"
        )
    }
}
