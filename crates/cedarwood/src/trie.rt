//! The dictionary and its calls.

ghost use Rattle.std.specs.Prelude.{◌+◌, ◌-◌, ◌/◌, ◌↔◌, ◌≡◌, ◌≤◌, [], IfOk, IfSome, IsSome};
ghost use Rattle.std.specs.Prelude.{IsTrue, length, None, pos, true};
ghost use Rattle.cedarwood.specs.Words.{after_erase, CedarFitsInMemory, default_layout};
ghost use Rattle.cedarwood.specs.Words.{default_settings, entries_of, exact, IsLimit, IsMarked};
ghost use Rattle.cedarwood.specs.Words.{IsNew, IsOnTable, IsRenewed, IsSortedBuild, IsSound};
ghost use Rattle.cedarwood.specs.Words.{IsUpdate, IsValid, marks, MarksCut, most_slots};
ghost use Rattle.cedarwood.specs.Words.{no_search_limit, number_at, prefixes, reduced_layout};
ghost use Rattle.cedarwood.specs.Words.{ReducedFitsInMemory, slots_of_tree, value_fault, walk};

use crate::builder::CedarBuilder;
use crate::counted::search_uncounted;
use crate::{CedarError, DefaultLayout, Layout, MOST_SLOTS, ReducedLayout, Ticks};
use cedar_edit::erase;
use cedar_table::Table;
use std::alloc::Allocator;
use std::marker::{Brand, Model};
use std::sync::ledger::{Blank, Ledger};

/// A mutable dictionary from byte strings to whole numbers, kept as a double-array trie of `SLOTS` slots at most (a
/// power of two from 256 to 2^30).
///
/// A contract sees its state, the labelled tree that its results come from and whether the labels of each node ascend; the tree with only
/// those numbers that have slots of their own; how many failed searches close a block, and how many blocks one search tries at most; how
/// many slots are in use, and how many there are; and the table, which is what a file has of it.
#[derive(Drop)]
pub struct Trie<L: Layout, const SLOTS: usize, A: Allocator> {
    pub(crate) table: Table<L, SLOTS, A>,
    /// How many open blocks one search for places tries at most. It isn't saved.
    pub(crate) search_limit: usize,
}

/// The default dictionary: a value takes a slot of its own, and there may be 2^30 slots.
pub type Cedar<A> = Trie<DefaultLayout, MOST_SLOTS, A>;

/// The dictionary of the reduced layout: the value of a key is kept in its node's own slot, until a longer key goes through that node.
pub type ReducedCedar<A> = Trie<ReducedLayout, MOST_SLOTS, A>;

impl<L: Layout, const SLOTS: usize, A: Allocator> Model for Trie<L, SLOTS, A> {
    // `Words` names the struct.
    ghost use Rattle.cedar_table.specs.Words.{capacity_of, fields, IsWellFormed, marks};
    ghost use Rattle.cedar_table.specs.Words.{size_of, tree_of};
    ghost use Rattle.cedarwood.specs.Dictionary.{Dictionary, dictionary_code};

    ghost Value = { Dictionary };

    ghost coded = { dictionary_code };

    ghost view = { λ t. record {
      state = record { tree = tree_of (fields t.table); ordered = (fields t.table).ordered };
      marked = marks (fields t.table);
      max_trial = (fields t.table).places.blocks.max_trial;
      search_limit = t.search_limit;
      size = size_of (fields t.table);
      capacity = capacity_of (fields t.table);
      table = fields t.table;
    } };

    ghost invariant = { λ t. IsWellFormed SLOTS (fields t.table) };
}

impl<A: Allocator + Copy> Trie<DefaultLayout, MOST_SLOTS, A> {
    /// An empty dictionary, whose labels ascend. It allocates from `alloc`.
    ///
    /// ```
    /// let cedar = Cedar::new(rt.alloc())?;
    /// assert!(rt; cedar.is_empty());
    /// ```
    ///
    /// # Errors
    /// `Memory` if an allocation was refused.
    pub fn new(alloc: A) -> Result<Self, CedarError>
        ensures made { IsNew default_settings result }

        //= The type of the dictionary that was made fits in memory: calls on it in functions over any allocator require that. [also
        //  from_sorted_bytes, from_sorted, CedarBuilder::build, CedarBuilder::from_sorted_bytes, CedarBuilder::from_sorted,
        //  CedarBuilder::build_reduced, CedarBuilder::from_sorted_bytes_reduced, CedarBuilder::from_sorted_reduced, from_pairs_bytes,
        //  from_pairs, CedarBuilder::from_pairs_bytes, CedarBuilder::from_pairs, CedarBuilder::from_pairs_bytes_reduced,
        //  CedarBuilder::from_pairs_reduced; by CedarFitsInMemory, ReducedFitsInMemory]
        ensures fits { IfOk result (λ _. CedarFitsInMemory A.row A.Allocator) }
    {
        Self::builder().build(alloc)
    }

    /// A dictionary of some pairs, whose keys ascend by bytes, with the default settings. It allocates from `alloc`.
    ///
    /// ```
    /// let pairs: [(&[u8], i32); 2] = [(b"net", 7), (b"ten", 2)];
    /// let cedar = Cedar::from_sorted_bytes(rt.alloc(), &pairs)?;
    /// assert_eq!(rt; cedar.exact_match_search("ten"), Some((2, 3)));
    /// ```
    ///
    /// # Errors
    /// As [`CedarBuilder::from_sorted_bytes`].
    pub fn from_sorted_bytes(alloc: A, pairs: &[(&[u8], i32)]) -> Result<Self, CedarError>
        //= A sorted build returns its input's first fault: a pair's own, otherwise that its key repeats the one before or is smaller. [also
        //  from_sorted, from_sorted_bytes_with, from_sorted_with, CedarBuilder::from_sorted_bytes, CedarBuilder::from_sorted,
        //  CedarBuilder::from_sorted_bytes_reduced, CedarBuilder::from_sorted_reduced; by IsSortedBuild, faulty]
        //= Otherwise, unless it fails, the dictionary's tree is the pairs' one tree with ascending labels, whatever the order is set to.
        //  [also from_sorted, from_sorted_bytes_with, from_sorted_with, CedarBuilder::from_sorted_bytes, CedarBuilder::from_sorted,
        //  CedarBuilder::from_sorted_bytes_reduced, CedarBuilder::from_sorted_reduced; by tree, asc]
        //= Its settings are the builder's. It makes at most one block for each distinct nonempty prefix, beside the first. [also
        //  from_sorted, from_sorted_bytes_with, from_sorted_with, CedarBuilder::from_sorted_bytes, CedarBuilder::from_sorted,
        //  CedarBuilder::from_sorted_bytes_reduced, CedarBuilder::from_sorted_reduced; by ordered, max_trial, search_limit, size]
        //= At most 255 slots outside the first block are free, and 256 others for each node below the root that takes several slots: for
        //  several labels, or for a number and a label. [also
        //  from_sorted, from_sorted_bytes_with, from_sorted_with, CedarBuilder::from_sorted_bytes, CedarBuilder::from_sorted,
        //  CedarBuilder::from_sorted_bytes_reduced, CedarBuilder::from_sorted_reduced; by packed]
        //= By default each number has a slot of its own; in the reduced layout exactly those do whose keys begin longer ones. [also
        //  from_sorted, from_sorted_bytes_with, from_sorted_with, CedarBuilder::from_sorted_bytes, CedarBuilder::from_sorted,
        //  CedarBuilder::from_sorted_bytes_reduced, CedarBuilder::from_sorted_reduced; by marks, SortedMarks]
        //= It fails for lack of memory, or for lack of slots if 256 times the number of these prefixes is the limit or more. [also
        //  from_sorted, from_sorted_bytes_with, from_sorted_with, CedarBuilder::from_sorted_bytes, CedarBuilder::from_sorted,
        //  CedarBuilder::from_sorted_bytes_reduced, CedarBuilder::from_sorted_reduced; by refused]
        ensures built { IsSortedBuild default_layout most_slots default_settings (entries_of pairs.now) result }
        ensures fits { IfOk result (λ _. CedarFitsInMemory A.row A.Allocator) }
    {
        Self::builder().from_sorted_bytes(alloc, pairs)
    }

    /// `from_sorted_bytes` for text keys.
    ///
    /// ```
    /// let words = Cedar::from_sorted(rt.alloc(), &[("net", 7), ("ten", 2)])?;
    /// assert_eq!(rt; words.exact_match_search("ten"), Some((2, 3)));
    /// ```
    ///
    /// # Errors
    /// As [`CedarBuilder::from_sorted`].
    pub fn from_sorted(alloc: A, pairs: &[(&str, i32)]) -> Result<Self, CedarError>
        ensures built { IsSortedBuild default_layout most_slots default_settings (entries_of pairs.now) result }
        ensures fits { IfOk result (λ _. CedarFitsInMemory A.row A.Allocator) }
    {
        Self::builder().from_sorted(alloc, pairs)
    }

    /// The default settings.
    ///
    /// ```
    /// let cedar = Cedar::<Global>::builder().build(rt.alloc())?;
    /// ```
    pub fn builder() -> CedarBuilder
        ensures ordered { result.ordered ≡ true }
        ensures max_trial { result.max_trial ≡ pos 1 }
        ensures search_limit { result.search_limit ≡ no_search_limit }
    {
        CedarBuilder::new()
    }
}

impl<A: Allocator + Copy> Trie<ReducedLayout, MOST_SLOTS, A> {
    /// An empty dictionary of the reduced layout, whose labels ascend. It allocates from `alloc`.
    ///
    /// ```
    /// let small = ReducedCedar::new(rt.alloc())?;
    /// assert!(rt; small.is_empty());
    /// ```
    ///
    /// # Errors
    /// `Memory` if an allocation was refused.
    pub fn new(alloc: A) -> Result<Self, CedarError>
        ensures made { IsNew default_settings result }
        ensures fits { IfOk result (λ _. ReducedFitsInMemory A.row A.Allocator) }
    {
        Self::builder().build_reduced(alloc)
    }

    /// A dictionary of some pairs, whose keys ascend by bytes, with the default settings. It allocates from `alloc`.
    ///
    /// ```
    /// let pairs: [(&[u8], i32); 2] = [(b"net", 7), (b"ten", 2)];
    /// let small = ReducedCedar::from_sorted_bytes(rt.alloc(), &pairs)?;
    /// assert_eq!(rt; small.get("ten"), Some(2));
    /// ```
    ///
    /// # Errors
    /// As [`CedarBuilder::from_sorted_bytes`].
    pub fn from_sorted_bytes(alloc: A, pairs: &[(&[u8], i32)]) -> Result<Self, CedarError>
        ensures built { IsSortedBuild reduced_layout most_slots default_settings (entries_of pairs.now) result }
        ensures fits { IfOk result (λ _. ReducedFitsInMemory A.row A.Allocator) }
    {
        Self::builder().from_sorted_bytes_reduced(alloc, pairs)
    }

    /// `from_sorted_bytes` for text keys.
    ///
    /// ```
    /// let small = ReducedCedar::from_sorted(rt.alloc(), &[("net", 7), ("ten", 2)])?;
    /// assert_eq!(rt; small.get("ten"), Some(2));
    /// ```
    ///
    /// # Errors
    /// As [`CedarBuilder::from_sorted`].
    pub fn from_sorted(alloc: A, pairs: &[(&str, i32)]) -> Result<Self, CedarError>
        ensures built { IsSortedBuild reduced_layout most_slots default_settings (entries_of pairs.now) result }
        ensures fits { IfOk result (λ _. ReducedFitsInMemory A.row A.Allocator) }
    {
        Self::builder().from_sorted_reduced(alloc, pairs)
    }

    /// The default settings.
    ///
    /// ```
    /// let small = ReducedCedar::<Global>::builder().build_reduced(rt.alloc())?;
    /// ```
    pub fn builder() -> CedarBuilder
        ensures ordered { result.ordered ≡ true }
        ensures max_trial { result.max_trial ≡ pos 1 }
        ensures search_limit { result.search_limit ≡ no_search_limit }
    {
        CedarBuilder::default()
    }
}

impl<L: Layout, const SLOTS: usize, A: Allocator + Copy> Trie<L, SLOTS, A> {
    /// An empty dictionary with the settings of a builder, of any layout and limit of slots. It allocates from `alloc`.
    ///
    /// ```
    /// let small = Trie::<DefaultLayout, 512, Global>::with(rt.alloc(), CedarBuilder::new())?;
    /// assert_eq!(rt; small.len(), 0);
    /// ```
    ///
    /// # Errors
    /// `Memory` if an allocation was refused.
    pub fn with(alloc: A, builder: CedarBuilder) -> Result<Self, CedarError>
        requires limit { IsLimit SLOTS }
        ensures made { IsNew builder result }
    {
        Ok(Trie {
            table: Table::new(alloc, builder.ordered, builder.max_trial)?,
            search_limit: builder.search_limit,
        })
    }

    /// A dictionary of some pairs, whose keys ascend by bytes, with the settings of a builder, of any layout and limit of slots. Each node
    /// gets all of its slots at once. Its labels ascend at first, whatever the settings. It allocates from `alloc`.
    ///
    /// ```
    /// let builder = CedarBuilder::new();
    /// let pairs: [(&[u8], i32); 2] = [(b"net", 7), (b"ten", 2)];
    /// let cedar = ReducedCedar::from_sorted_bytes_with(rt.alloc(), builder, &pairs)?;
    /// assert_eq!(rt; cedar.len(), 2);
    /// ```
    ///
    /// # Errors
    /// The first fault of the input: each pair's own of `EmptyKey`, `NulByte` and `InvalidValue`, in this order, and then `DuplicateKey` or
    /// `KeysNotSorted` if its key isn't above the one before it. Without one, `Memory` if an allocation was refused, and `SlotLimit` if the
    /// limit of slots allows no further block.
    pub fn from_sorted_bytes_with(
        alloc: A,
        builder: CedarBuilder,
        pairs: &[(&[u8], i32)],
    ) -> Result<Self, CedarError>
        requires limit { IsLimit SLOTS }
        ensures built { IsSortedBuild L.kind SLOTS builder (entries_of pairs.now) result }
    {
        Self::from_sorted_keys(alloc, builder, pairs)
    }

    /// `from_sorted_bytes_with` for text keys.
    ///
    /// ```
    /// let builder = CedarBuilder::new();
    /// let words = ReducedCedar::from_sorted_with(rt.alloc(), builder, &[("net", 7), ("ten", 2)])?;
    /// assert_eq!(rt; words.len(), 2);
    /// ```
    ///
    /// # Errors
    /// As [`Trie::from_sorted_bytes_with`].
    pub fn from_sorted_with(
        alloc: A,
        builder: CedarBuilder,
        pairs: &[(&str, i32)],
    ) -> Result<Self, CedarError>
        requires limit { IsLimit SLOTS }
        ensures built { IsSortedBuild L.kind SLOTS builder (entries_of pairs.now) result }
    {
        Self::from_sorted_keys(alloc, builder, pairs)
    }

    /// Replaces this dictionary by an empty one with the settings of a builder. It allocates from `alloc`, now and as it grows; the memory
    /// of the present one is freed by the allocator that it came from.
    ///
    /// ```
    /// cedar.update("net", 7)?;
    /// cedar.renew(rt.alloc(), CedarBuilder::new())?;
    /// assert!(rt; cedar.is_empty());
    /// ```
    ///
    /// # Errors
    /// `Memory` if an allocation was refused. Then this one is as it was.
    pub fn renew(&mut self, alloc: A, builder: CedarBuilder) -> Result<(), CedarError>
        //= `renew` replaces the present dictionary by an empty one with the settings of a builder. After a failure the present one stays.
        //  [by IsRenewed]
        ensures made { IsRenewed builder self.old self.new result }
    {
        // Its limit of slots is one that a new table takes.
        let _ = &self.table;
        *self = Trie::with(alloc, builder)?;
        Ok(())
    }

    /// Stores a value at a key, and replaces the value that the key holds, if any.
    ///
    /// ```
    /// cedar.update_bytes(b"net", 7)?;
    /// assert_eq!(rt; cedar.update_bytes(b"", 7), Err(CedarError::EmptyKey));
    /// ```
    ///
    /// # Errors
    /// The pair's first fault of `EmptyKey`, `NulByte` and `InvalidValue`, in this order; `Memory` if the key isn't held and an allocation
    /// was refused, `SlotLimit` if the limit of slots allows no further block. After an error the dictionary holds what it held. An update
    /// of a key that is held allocates nothing.
    pub fn update_bytes(&mut self, key: &[u8], value: i32) -> Result<(), CedarError>
        //= An update returns the pair's first fault, and otherwise stores the value: the tree is then `put` of the old one. [also update;
        //  by faulty, ok]
        //= After any refusal tree and order are the old ones. [also update; by err]
        //= After a fault nothing has changed. [also update; by unchanged]
        //= Without a fault it is refused only for lack of memory or slots, and only if the key isn't held. [also update; by refused]
        //= It lacks memory only if all slots are in use and there may be more, and slots only if all that there may be are in use. [also
        //  update; by memory, limit]
        //= An update of a key of n bytes makes at most n blocks, and fewer if it is refused. [also update; by blocks]
        //= So it isn't refused while n blocks are spare. [also update; by spare]
        //= An update of a held key makes no block. [also update; by over]
        //= An update of a key of one new byte makes a block, or is refused, only in the default layout, and only if the slots in use and
        //  the root's children are together as many as the tree's slots and 255. They are if no slot outside block 0 is free. [also update;
        //  by one_byte]
        //= One slot alone is taken wherever one is free outside the first block. So an update makes at most one block if another key has
        //  the first byte, and none otherwise; unless at most 255 slots outside the first block are free then, or none was before. [also
        //  update; by packs, PacksUpdate]
        //= `max_trial` and the search limit don't change. [also update, erase_bytes.max_trial.search_limit, erase.max_trial.search_limit; by
        //  max_trial, search_limit]
        //= In the reduced layout an update of a new key marks its held proper prefixes, and the key if it is a prefix of a held one. What
        //  was marked stays marked. An update of a held key doesn't change the marks. [also update; by marks, MarksPut]
        //= A refused update doesn't change the marks, and so not the held slots. [also update; by marks_stay, err]
        ensures updated { IsUpdate L.kind SLOTS self.old self.new key.now value result }
    {
        match self.insert_bytes(key, value) {
            Ok(_) => Ok(()),
            Err(error) => Err(error),
        }
    }

    /// `update_bytes` for a text key.
    ///
    /// ```
    /// cedar.update("net", 7)?;
    /// cedar.update("net", 8)?;
    /// assert_eq!(rt; cedar.exact_match_search("net"), Some((8, 3)));
    /// ```
    pub fn update(&mut self, key: &str, value: i32) -> Result<(), CedarError>
        ensures updated { IsUpdate L.kind SLOTS self.old self.new key.now value result }
    {
        self.update_bytes(key.as_bytes(), value)
    }

    /// Removes a key, and returns whether it was held. It allocates nothing.
    ///
    /// ```
    /// cedar.update_bytes(b"net", 7)?;
    /// assert!(rt; cedar.erase_bytes(b"net"));
    /// assert!(rt; !cedar.erase_bytes(b"net"));
    /// ```
    pub fn erase_bytes(&mut self, key: &[u8]) -> bool
        //= `erase_bytes` and `erase` return whether the key was held. The tree is then `cut` of the old one. [with after; also erase]
        ensures answer { IsTrue result ↔ IsSome (number_at self.old.state.tree key.now) }
        ensures after { self.new.state ≡ after_erase self.old.state key.now }

        //= `erase_bytes` and `erase` don't change the slots in use and the slots that there are. They remove only the key's mark. [with
        //  size; also erase]
        ensures marks { MarksCut self.old.marked self.new.marked key.now }
        ensures marked { IsMarked self.new }
        ensures size { (self.new.size ≡ self.old.size) × (self.new.capacity ≡ self.old.capacity) }
        ensures max_trial { self.new.max_trial ≡ self.old.max_trial }
        ensures search_limit { self.new.search_limit ≡ self.old.search_limit }
    {
        erase(&mut self.table, key)
    }

    /// `erase_bytes` for a text key.
    ///
    /// ```
    /// cedar.update("net", 7)?;
    /// assert!(rt; !cedar.erase("ne"));
    /// assert!(rt; cedar.erase("net"));
    /// ```
    pub fn erase(&mut self, key: &str) -> bool
        ensures answer { IsTrue result ↔ IsSome (number_at self.old.state.tree key.now) }
        ensures after { self.new.state ≡ after_erase self.old.state key.now }
        ensures marks { MarksCut self.old.marked self.new.marked key.now }
        ensures marked { IsMarked self.new }
        ensures size { (self.new.size ≡ self.old.size) × (self.new.capacity ≡ self.old.capacity) }
        ensures max_trial { self.new.max_trial ≡ self.old.max_trial }
        ensures search_limit { self.new.search_limit ≡ self.old.search_limit }
    {
        self.erase_bytes(key.as_bytes())
    }

    /// The value at a key and the key's length in bytes, or None if the key isn't held. It allocates nothing. It counts each comparison of
    /// a check field: at most one more than the key has bytes.
    ///
    /// ```
    /// cedar.update("net", 7)?;
    /// let mut ticks = Ticks::<C>::new(blank);
    /// assert_eq!(rt; cedar.exact_match_search_counted(b"net", &mut ticks), Some((7, 3)));
    /// ```
    pub fn exact_match_search_counted<C: Ledger>(
        &self,
        key: &[u8],
        ticks: &mut Ticks<C>,
    ) -> Option<(i32, usize)>
        ensures answer { result ≡ exact self.now.state.tree key.now }
        ensures sound { IsSound self.now.state.tree }
        ensures in_range { IfSome result (λ found. value_fault found.0 ≡ None) }

        //= It counts at most one comparison more than the key has bytes.
        ensures cost { ticks.new ≤ ticks.old + length key.now + 1 }
    {
        self.table.exact_match_search_counted(key, ticks)
    }

    /// The value at a key and the key's length in bytes, or None if the key isn't held: so `is_some()` says whether it is. It allocates
    /// nothing.
    ///
    /// ```
    /// cedar.update_bytes(b"net", 7)?;
    /// assert_eq!(rt; cedar.exact_match_search_bytes(b"net"), Some((7, 3)));
    /// assert_eq!(rt; cedar.exact_match_search_bytes(b"ne"), None);
    /// ```
    pub fn exact_match_search_bytes(&self, key: &[u8]) -> Option<(i32, usize)>
        //= A look-up returns `exact` of the tree. So it depends on the tree and the key alone, and not on `max_trial`. [also
        //  exact_match_search, exact_match_search_counted]
        ensures answer { result ≡ exact self.now.state.tree key.now }

        //= A value that is found is in range, and the tree is sound. [with in_range; also exact_match_search, exact_match_search_counted]
        ensures sound { IsSound self.now.state.tree }
        ensures in_range { IfSome result (λ found. value_fault found.0 ≡ None) }
    {
        search_uncounted::<Brand, Self, A>(self, key, Blank::new(1))
    }

    /// `exact_match_search_bytes` for a text key.
    ///
    /// ```
    /// cedar.update("net", 7)?;
    /// assert!(rt; cedar.exact_match_search("net").is_some());
    /// ```
    pub fn exact_match_search(&self, key: &str) -> Option<(i32, usize)>
        ensures answer { result ≡ exact self.now.state.tree key.now }
        ensures sound { IsSound self.now.state.tree }
        ensures in_range { IfSome result (λ found. value_fault found.0 ≡ None) }
    {
        self.exact_match_search_bytes(key.as_bytes())
    }

    /// How many keys are held.
    ///
    /// ```
    /// cedar.update("net", 7)?;
    /// assert_eq!(rt; cedar.len(), 1);
    /// ```
    #[must_use]
    pub fn len(&self) -> usize
        //= `len` returns the number of entries, `is_empty` whether there is none. [also is_empty]
        ensures count { result ≡ length (walk self.now.state.tree) }

        //= The tree of marks has all nodes of the tree and some of its numbers, so that it follows from the keys that have marks. [also
        //  update_bytes.updated, update.updated, erase_bytes.marked, erase.marked; by IsMarked, marked]
        //= Every dictionary is valid: its tree is sound, its labels ascend if it is ordered, its marks are some of its numbers, its values
        //  are in range. The slots in use are whole blocks, and no more than there are. There are 256 times a power of two slots, and no
        //  more than the limit. [by IsValid]
        ensures valid { IsValid SLOTS self.now }
    {
        self.table.entries()
    }

    /// Whether no key is held.
    ///
    /// ```
    /// cedar.update("net", 7)?;
    /// assert!(rt; !cedar.is_empty());
    /// ```
    #[must_use]
    pub fn is_empty(&self) -> bool
        ensures { IsTrue result ↔ (walk self.now.state.tree ≡ []) }
    {
        self.len() == 0
    }

    /// How many slots are held: one for the root, one for each distinct nonempty prefix of keys, and one for each key whose value has a
    /// slot of its own, as each has by default.
    ///
    /// ```
    /// cedar.update("net", 7)?;
    /// assert_eq!(rt; cedar.used_node_slots(), 5);
    /// ```
    #[must_use]
    pub fn used_node_slots(&self) -> usize
        //= Tree and marks decide how many slots are held.
        //= `used_node_slots` returns one, plus the distinct nonempty prefixes of keys, plus the numbers that have slots of their own.
        ensures marked { result ≡ 1 + length (prefixes self.now.state.tree) + length (walk self.now.marked) }

        //= In the default layout it is one, plus the prefixes, plus the entries.
        ensures by_default { L.kind ≡ default_layout → result ≡ slots_of_tree self.now.state.tree }

        //= In the default layout all numbers are marked. [also update_bytes.updated]
        ensures all_marked { L.kind ≡ default_layout → self.now.marked ≡ self.now.state.tree }
    {
        self.table.used_node_slots()
    }

    /// How many slots there are, in use or not.
    ///
    /// ```
    /// assert_eq!(rt; cedar.node_capacity(), 256);
    /// ```
    #[must_use]
    pub fn node_capacity(&self) -> usize
        //= `node_capacity` returns the number of slots, `spare_blocks` the number of blocks that are there and not in use. [also
        //  spare_blocks]
        ensures { result ≡ self.now.capacity }
    {
        self.table.capacity()
    }

    /// How many blocks of 256 slots can come into use before memory is allocated.
    ///
    /// ```
    /// assert_eq!(rt; cedar.spare_blocks(), 0);
    /// ```
    #[must_use]
    pub fn spare_blocks(&self) -> usize
        ensures { result ≡ (self.now.capacity - self.now.size) / 256 }
    {
        self.table.spare_blocks()
    }

    /// Returns how many blocks of slots one search for places tries at most.
    ///
    /// ```
    /// assert_eq!(rt; cedar.search_limit(), usize::MAX);
    /// cedar.set_search_limit(64);
    /// assert_eq!(rt; cedar.search_limit(), 64);
    /// ```
    #[must_use]
    pub fn search_limit(&self) -> usize
        //= `search_limit` returns how many blocks one search tries at most: what was set last.
        ensures { result ≡ self.now.search_limit }
    {
        self.search_limit
    }

    /// Says that its table is well-formed, and that the state, the marks, the settings and the sizes that a contract sees of it are
    /// those of this table.
    ///
    /// ```
    /// cedar.stands_on_its_table();
    /// ```
    pub fn stands_on_its_table(&self)
        //= What a contract sees of a dictionary is what its table holds: the table is well-formed, and tree, order, marks, `max_trial` and
        //  sizes are those of the table. [by IsOnTable]
        ensures { IsOnTable SLOTS self.now }
    {
        let _ = &self.table;
    }
}
