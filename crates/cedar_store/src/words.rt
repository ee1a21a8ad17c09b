//! The dictionary of a store, as the store sees it.

ghost use Rattle.std.specs.Prelude.{◌≡◌, IfErr, IfOk, IfSome, None, OnOk, Some};
ghost use Rattle.std.specs.Prelude.{is_some, length, true};
ghost use Rattle.cedar_store.specs.Words.{after_erase, after_payloads, compacted_length};
ghost use Rattle.cedar_store.specs.Words.{image_bytes, IsAscending, IsBeforeReplacing, IsLimit};
ghost use Rattle.cedar_store.specs.Words.{IsPut, IsPutOf, IsShortage, IsSound, new_state};
ghost use Rattle.cedar_store.specs.Words.{number_at, outcome, payloads_of, State, value_fault};
ghost use Rattle.cedar_store.specs.Words.{walk};

use crate::CompactError;
use crate::compact::image_of;
use cedar_journal::Image;
use cedarwood::{CedarBuilder, CedarError, Layout, Trie};
use std::alloc::Allocator;

/// A dictionary that a store keeps: a [`Trie`] of any layout and any limit of slots.
pub trait Words: Drop {
    /// The state that its results come from.
    ghost state: { Self → State };

    /// Stores a value at a key, and returns the value that the key held before, if it held one.
    ///
    /// # Errors
    /// The pair's first fault, or `Memory` or `SlotLimit`. Then it is as it was.
    fn put(&mut self, key: &[u8], value: i32) -> Result<Option<i32>, CedarError>
        //= The trait of dictionaries that a store keeps: what its calls do to the state, in the words of a dictionary's own calls. [with
        //  held, sound, in_range; also put_over]
        ensures updated { IsPut (state self.old) (state self.new) key.now value (outcome result) }
        ensures held { IfOk result (λ held. held ≡ number_at (state self.old).tree key.now) }
        ensures sound { OnOk result (IsSound (state self.old).tree) }
        ensures in_range { IfOk result (λ held. IfSome held (λ v. value_fault v ≡ None)) };

    /// Stores a value at a key.
    ///
    /// # Errors
    /// As of `put`; but if the key is held, it needs no memory and no slots.
    fn put_over(&mut self, key: &[u8], value: i32) -> Result<(), CedarError>
        ensures updated { IsPut (state self.old) (state self.new) key.now value result };

    /// Removes a key, if it is held.
    fn remove(&mut self, key: &[u8])
        //= `remove` erases a key.
        ensures { state self.new ≡ after_erase (state self.old) key.now };

    /// Whether a key is held.
    fn holds(&self, key: &[u8]) -> bool
        //= `holds` returns whether a key is held.
        ensures { result ≡ is_some (number_at (state self.now).tree key.now) };

    /// How many keys are held.
    fn count(&self) -> usize
        //= Such a dictionary says how many keys it holds. Its tree is sound, and its labels ascend if it is ordered. [with sound,
        //  ascending]
        ensures entries { result ≡ length (walk (state self.now).tree) }
        ensures sound { IsSound (state self.now).tree }
        ensures ascending { (state self.now).ordered ≡ true → IsAscending (state self.now).tree.children };

    /// A journal's file in memory, in which each entry is put, one after another.
    ///
    /// # Errors
    /// `Memory` if an allocation was refused, `TooLong` if the record of an entry would be too long.
    fn image<B: Allocator + Copy>(&self, alloc: B) -> Result<Image<B>, CompactError>
        //= Such a dictionary can be written as a journal's file, of one record for each entry. If it is ordered, their changes make it
        //  again. [with length, count, cause]
        ensures made { (state self.now).ordered ≡ true → IfOk result (λ image. after_payloads new_state (payloads_of image) ≡ Some (state self.now)) }
        ensures length { IfOk result (λ image. length (image_bytes image) ≡ compacted_length (walk (state self.now).tree)) }
        ensures count { IfOk result (λ image. length (payloads_of image) ≡ length (walk (state self.now).tree)) }
        ensures cause { IfErr result (λ error. IsBeforeReplacing error) };
}

/// A dictionary that a store makes.
pub trait Made<A: Allocator>: Words {
    /// What its limit of slots has to be.
    ghost limit: { Type 0 };

    /// A new one, whose labels ascend.
    ///
    /// # Errors
    /// `Memory` if an allocation was refused.
    fn make(alloc: A) -> Result<Self, CedarError>
        requires { limit }
        //= A call that makes a dictionary makes a new one, or there was no memory. [with err]
        ensures new { IfOk result (λ words. Self.state words ≡ new_state) }
        ensures err { IfErr result (λ e. IsShortage e) };
}

impl<L: Layout, const SLOTS: usize, A: Allocator + Copy> Words for Trie<L, SLOTS, A> {
    ghost state = { λ trie. trie.state };

    fn put(&mut self, key: &[u8], value: i32) -> Result<Option<i32>, CedarError> {
        self.insert_bytes(key, value)
    }

    fn put_over(&mut self, key: &[u8], value: i32) -> Result<(), CedarError> {
        self.update_bytes(key, value)
    }

    fn remove(&mut self, key: &[u8]) {
        self.erase_bytes(key);
    }

    fn holds(&self, key: &[u8]) -> bool {
        self.contains_key_bytes(key)
    }

    fn count(&self) -> usize {
        self.len()
    }

    fn image<B: Allocator + Copy>(&self, alloc: B) -> Result<Image<B>, CompactError> {
        // A dictionary is valid: so no pair in it has a fault.
        let _ = self.len();
        match self.entries() {
            Ok(entries) => image_of(entries, alloc),
            Err(_) => Err(CompactError::Memory),
        }
    }
}

impl<L: Layout, const SLOTS: usize, A: Allocator + Copy> Made<A> for Trie<L, SLOTS, A> {
    ghost limit = { IsLimit SLOTS };

    fn make(alloc: A) -> Result<Self, CedarError> {
        Trie::with(alloc, CedarBuilder::new())
    }
}

/// Takes a put back, of a key that held this value before, or none. It allocates nothing.
pub(crate) fn take_back<T: Words>(words: &mut T, key: &[u8], held: Option<i32>)
    ensures { (s : State) → IsPutOf s key.now held (T.state words.old) → (T.state words.new) ≡ s }
{
    match held {
        None => {
            words.remove(key);
        }
        Some(value) => {
            // A key that is held needs no memory and no slot.
            let _ = words.put_over(key, value);
        }
    }
}
