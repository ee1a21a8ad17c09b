//! Memory allocated ahead, so that updates needn't allocate, and how many blocks a search for places tries.

ghost use Rattle.std.specs.Prelude.{◌*◌, ◌+◌, ◌-◌, ◌<◌, ◌≡◌, ◌≤◌, Err, IfErr, IsOk, OnErr, OnOk};
ghost use Rattle.cedarwood.specs.Words.{capacity_after, LacksRoom, SetsSearchLimit};

use crate::{CedarError, Layout, Trie};
use std::alloc::Allocator;

impl<L: Layout, const SLOTS: usize, A: Allocator> Trie<L, SLOTS, A> {
    /// Allocates ahead for `blocks` blocks more than are in use, so that an update of a key of as many bytes, or of several keys of as many
    /// bytes together, can't be refused. The slots double until there is room, as they would if these blocks came into use one after
    /// another; while `spare_blocks()` is at least `blocks`, nothing changes.
    ///
    /// ```
    /// cedar.try_reserve(3)?;
    /// assert_eq!(rt; (cedar.spare_blocks(), cedar.node_capacity()), (3, 1024));
    /// ```
    ///
    /// # Errors
    /// `SlotLimit` if the limit of slots doesn't allow so many blocks, otherwise `Memory` if an allocation was refused. After an error
    /// nothing has changed.
    pub fn try_reserve(&mut self, blocks: usize) -> Result<(), CedarError>
        //= `try_reserve` of n blocks doesn't change state, marks, settings and slots in use. [with marked, max_trial, search_limit, size]
        ensures state { self.new.state ≡ self.old.state }
        ensures marked { self.new.marked ≡ self.old.marked }
        ensures max_trial { self.new.max_trial ≡ self.old.max_trial }
        ensures search_limit { self.new.search_limit ≡ self.old.search_limit }
        ensures size { self.new.size ≡ self.old.size }

        //= After it there are as many slots as if n blocks had come into use.
        ensures capacity { OnOk result (self.new.capacity ≡ capacity_after blocks self.old.size self.old.capacity) }

        //= It leaves n blocks spare.
        ensures spare { OnOk result (256 * blocks ≤ self.new.capacity - self.new.size) }

        //= If n blocks are spare already, it changes nothing and doesn't fail. [with asks_nothing]
        ensures enough { 256 * blocks ≤ self.old.capacity - self.old.size → self.new ≡ self.old }
        ensures asks_nothing { 256 * blocks ≤ self.old.capacity - self.old.size → IsOk result }

        //= It fails with `SlotLimit` exactly if the limit doesn't allow so many slots, and with `Memory` only if the slots have to double
        //  and may. [with refused; by LacksRoom]
        ensures limit { SLOTS < self.old.size + 256 * blocks → result ≡ Err CedarError.SlotLimit }
        ensures refused { IfErr result (LacksRoom SLOTS self.old blocks) }

        //= After a failure nothing has changed.
        ensures unchanged { OnErr result (self.new ≡ self.old) }
    {
        self.table.try_reserve(blocks).map_err(CedarError::from)
    }

    /// Sets how many blocks of slots one search for places tries at most. A search that has failed in so many puts a new block into use,
    /// and those that it has tried count one failure more, so that the next search comes to others. By default nothing bounds a search, and
    /// the first update after many erasures may try each block that they opened. With a bound that update is faster, and may take some more
    /// slots. No result depends on it, as long as nothing is refused for memory or slots. 0 tries no block, so that each search makes one.
    /// A clone has the same bound, and `shrink_to_fit` keeps it; no file has it, so nothing bounds the searches of a dictionary that was
    /// loaded.
    ///
    /// ```
    /// cedar.set_search_limit(64);
    /// cedar.update("net", 7)?;
    /// assert_eq!(rt; cedar.get("net"), Some(7));
    /// ```
    pub fn set_search_limit(&mut self, blocks: usize)
        //= `set_search_limit` sets how many blocks one search tries at most, and changes nothing else that a contract sees: so no result,
        //  and no byte that is saved then. [by SetsSearchLimit]
        ensures { SetsSearchLimit self.old self.new blocks }
    {
        self.search_limit = blocks;
    }
}
