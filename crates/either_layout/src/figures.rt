//! The figures of a dictionary of either layout.

ghost use Rattle.std.specs.Prelude.{◌*◌, ◌+◌, ◌-◌, ◌/◌, ◌↔◌, ◌≡◌, [], IsTrue, length};
ghost use Rattle.either_layout.specs.Words.{default_layout, inner_dictionary, inner_layout};
ghost use Rattle.either_layout.specs.Words.{IsOnTable, IsValid, most_slots, prefixes};
ghost use Rattle.either_layout.specs.Words.{slots_of_tree, walk};

use crate::{AnyCedar, on_layout};
use cedarwood::MemoryStats;

impl AnyCedar {
    /// How many keys are held.
    #[must_use]
    pub fn len(&self) -> usize
        //= `len` of either layout returns the number of entries, `is_empty` whether there is none. [also is_empty]
        ensures count { result ≡ length (walk (inner_dictionary self.now).state.tree) }

        //= Every dictionary of either layout is valid. [by IsValid]
        ensures valid { IsValid most_slots (inner_dictionary self.now) }
    {
        on_layout!(self, cedar => cedar.len())
    }

    /// Whether no key is held.
    #[must_use]
    pub fn is_empty(&self) -> bool
        ensures count { IsTrue result ↔ (walk (inner_dictionary self.now).state.tree ≡ []) }
    {
        on_layout!(self, cedar => cedar.is_empty())
    }

    /// How many slots are held: one for the root, one for each distinct nonempty prefix of keys, and one for each key whose value has a
    /// slot of its own, as each has by default.
    #[must_use]
    pub fn used_node_slots(&self) -> usize
        //= `used_node_slots` of either layout returns one, plus the distinct nonempty prefixes of keys, plus the numbers that have slots of
        //  their own, which in the default layout is each. [with by_default, all_marked]
        ensures marked { result ≡ 1 + length (prefixes (inner_dictionary self.now).state.tree) + length (walk (inner_dictionary self.now).marked) }
        ensures by_default { inner_layout self.now ≡ default_layout → result ≡ slots_of_tree (inner_dictionary self.now).state.tree }
        ensures all_marked { inner_layout self.now ≡ default_layout → (inner_dictionary self.now).marked ≡ (inner_dictionary self.now).state.tree }
    {
        on_layout!(self, cedar => cedar.used_node_slots())
    }

    /// How many slots there are, in use or not.
    #[must_use]
    pub fn node_capacity(&self) -> usize
        //= `node_capacity` of either layout returns the number of slots, `spare_blocks` the number of blocks that are there and not in use.
        //  [also spare_blocks]
        ensures { result ≡ (inner_dictionary self.now).capacity }
    {
        on_layout!(self, cedar => cedar.node_capacity())
    }

    /// How many blocks of 256 slots can come into use before memory is allocated.
    #[must_use]
    pub fn spare_blocks(&self) -> usize
        ensures { result ≡ ((inner_dictionary self.now).capacity - (inner_dictionary self.now).size) / 256 }
    {
        on_layout!(self, cedar => cedar.spare_blocks())
    }

    /// How many blocks of slots one search for places tries at most.
    #[must_use]
    pub fn search_limit(&self) -> usize
        //= `search_limit` of either layout returns how many blocks one search tries at most.
        ensures { result ≡ (inner_dictionary self.now).search_limit }
    {
        on_layout!(self, cedar => cedar.search_limit())
    }

    /// The figures, at once: `len`, `used_node_slots`, `node_capacity`, and how many bytes the table takes.
    #[must_use]
    pub fn memory_stats(&self) -> MemoryStats
        //= `memory_stats` of either layout returns these figures. [with used, used_by_default, capacity, bytes]
        ensures entries { result.entries ≡ length (walk (inner_dictionary self.now).state.tree) }
        ensures used { result.used_node_slots ≡ 1 + length (prefixes (inner_dictionary self.now).state.tree) + length (walk (inner_dictionary self.now).marked) }
        ensures used_by_default { inner_layout self.now ≡ default_layout → result.used_node_slots ≡ slots_of_tree (inner_dictionary self.now).state.tree }
        ensures capacity { result.node_capacity ≡ (inner_dictionary self.now).capacity }
        ensures bytes { result.allocated_bytes ≡ 10 * (inner_dictionary self.now).capacity + 20 * ((inner_dictionary self.now).capacity / 256) + 514 }
    {
        on_layout!(self, cedar => cedar.memory_stats())
    }

    /// Says that the table is well-formed, and that what a contract sees of the dictionary is what this table holds.
    pub fn stands_on_its_table(&self)
        //= What a contract sees of a dictionary of either layout is what its table holds, which is well-formed. [by IsOnTable]
        ensures { IsOnTable most_slots (inner_dictionary self.now) }
    {
        on_layout!(self, cedar => cedar.stands_on_its_table())
    }
}
