//! A dictionary in as little room as its entries take.

ghost use Rattle.cedarwood.specs.Words.{[], ArePlaces, entry_of, IfOk, IsEntryPlace, IsMadeOf};
ghost use Rattle.cedarwood.specs.Words.{IsPutBack, IsRebuilt, IsShrunk, IsSlotLimit, IsWellFormed};
ghost use Rattle.cedarwood.specs.Words.{LacksPlaces, map, MatchResult, PutsBack, PutsEntry};
ghost use Rattle.cedarwood.specs.Words.{tree_of, walk};

use crate::builder::CedarBuilder;
use crate::queries::ranged::write_key;
use crate::queries::walked::Walked;
use crate::{CedarError, Layout, Trie};
use cedar_walk::Numbered;
use std::alloc::{AllocError, Allocator};

/// The nodes of all entries, in iteration order.
fn entry_places<T: Walked, A: Allocator>(
    trie: &T,
    entries: usize,
    alloc: A,
) -> Result<Vec<Numbered, A>, AllocError>
    requires { IsWellFormed T.slots (T.shown trie.now) }
    ensures { IfOk result (λ places. ArePlaces (T.shown trie.now) (walk (tree_of (T.shown trie.now))) places.items) }
{
    let mut places = Vec::with_capacity(alloc, entries)?;
    let mut next = trie.first_numbered(&[]);
    while let Some(place) = next {
        places.push(place)?;
        next = trie.next_numbered(place.slot, place.depth);
    }
    Ok(places)
}

/// Stores the entry at a place of another dictionary in one. Its key is written into a buffer.
fn put_entry<T: Walked, L: Layout, const SLOTS: usize, A: Allocator + Copy>(
    trie: &mut Trie<L, SLOTS, A>,
    from: &T,
    place: Numbered,
    key: &mut Vec<u8, A>,
) -> Result<(), CedarError>
    requires well_formed { IsWellFormed T.slots (T.shown from.now) }
    requires place { IsEntryPlace (T.shown from.now) place }
    ensures { PutsEntry L.kind SLOTS trie.old trie.new (entry_of (T.shown from.now) place) result }
{
    write_key(from, &[], place.slot, place.depth, key)?;
    trie.update_bytes(key.as_slice(), place.number)
}

impl<L: Layout, const SLOTS: usize, A: Allocator + Copy> Trie<L, SLOTS, A> {
    /// Frees memory that growth and erasures have left unused: all entries are put into a new table, which replaces the present one unless
    /// it has more slots. Keys, values, their order and the settings stay. While it runs, there are both tables, a list of 24 bytes for
    /// each entry, and a buffer of the length of the longest key.
    ///
    /// ```
    /// cedar.update("a key of many bytes", 7)?;
    /// cedar.erase("a key of many bytes");
    /// cedar.shrink_to_fit()?;
    /// assert_eq!(rt; cedar.node_capacity(), 256);
    /// ```
    ///
    /// # Errors
    /// `Memory` if an allocation was refused, and `SlotLimit` if the limit of slots allows no further block of the new table. After an
    /// error nothing has changed.
    pub fn shrink_to_fit(&mut self) -> Result<(), CedarError>
        //= `shrink_to_fit` doesn't change tree, order, `max_trial` and the search limit, and never leaves more slots than there were. [by
        //  IsShrunk, state, max_trial, search_limit, capacity]
        //= It replaces the present dictionary by a rebuilt one, unless that has more slots. A rebuilt one has at most one block for each
        //  byte of a key, beside the first one. [by rebuilt, IsRebuilt, size]
        //= Of a rebuilt one at most 255 slots outside the first block are free, and 256 others for each entry, but for one of those with
        //  each first byte. So there are no more slots afterwards than so few blocks need, which the tree decides. [by slots, bounded,
        //  most_capacity]
        //= In a rebuilt one of the reduced layout exactly the numbers of keys that begin longer ones have slots of their own. [by marks,
        //  SortedMarks]
        //= It fails for lack of memory, or for lack of slots if 256 times the bytes of all keys are the limit or more. Then nothing has
        //  changed. [by refused, unchanged, LacksPlaces]
        ensures { IsShrunk L.kind SLOTS self.old self.new result }
    {
        let made = self.rebuild()?;
        if self.node_capacity() < made.node_capacity() {
            return Ok(());
        }
        *self = made;
        Ok(())
    }

    /// The same dictionary in a new table, into which each entry was put.
    fn rebuild(&self) -> Result<Self, CedarError>
        ensures { MatchResult result (IsRebuilt L.kind self.now) (LacksPlaces SLOTS (walk self.now.state.tree)) }
    {
        let alloc = self.table.allocator();
        let places = entry_places(self, self.table.entries(), alloc)?;
        let builder = CedarBuilder {
            ordered: self.table.ordered(),
            max_trial: self.table.max_trial(),
            search_limit: self.search_limit,
        };
        with_entries(alloc, builder, self, &places)
    }

    /// Stores the entries at some places of another dictionary in this one, from the last one to the first: so each node gets its labels in
    /// the order that they have there, even if a new label goes before the other ones. Their keys are written into a buffer.
    fn put_entries<T: Walked>(
        &mut self,
        from: &T,
        places: &[Numbered],
        key: &mut Vec<u8, A>,
    ) -> Result<(), CedarError>
        requires well_formed { IsWellFormed T.slots (T.shown from.now) }
        requires places { ArePlaces (T.shown from.now) (walk (tree_of (T.shown from.now))) places.now }
        requires empty { IsPutBack L.kind self.old.state.ordered self.old.max_trial self.old.search_limit [] self.old }
        ensures { PutsBack L.kind SLOTS self.old self.new (map (entry_of (T.shown from.now)) places.now) result }
    {
        let mut left = places.len();
        while left != 0 {
            left -= 1;
            put_entry(self, from, places[left], key)?;
        }
        Ok(())
    }
}

/// A dictionary of the entries at some places of another one.
fn with_entries<T: Walked, L: Layout, const SLOTS: usize, A: Allocator + Copy>(
    alloc: A,
    builder: CedarBuilder,
    from: &T,
    places: &[Numbered],
) -> Result<Trie<L, SLOTS, A>, CedarError>
    requires limit { IsSlotLimit SLOTS }
    requires well_formed { IsWellFormed T.slots (T.shown from.now) }
    requires places { ArePlaces (T.shown from.now) (walk (tree_of (T.shown from.now))) places.now }
    ensures { IsMadeOf L.kind SLOTS builder.ordered builder.max_trial builder.search_limit (walk (tree_of (T.shown from.now))) result }
{
    let mut made = Trie::with(alloc, builder)?;
    let mut key = Vec::new(alloc);
    made.put_entries(from, places, &mut key)?;
    Ok(made)
}
