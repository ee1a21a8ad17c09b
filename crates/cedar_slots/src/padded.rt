//! A list of which only a prefix has been written yet.

ghost use Rattle.std.specs.Prelude.{◌++◌, ◌+◌, ◌<◌, ◌≡◌, ◌≤◌, IfOk, length, OnOk, replicate};
ghost use Rattle.std.specs.Prelude.{slice_index_or, slice_set, take, vec_capacity, vec_len};
ghost use Rattle.cedar_slots.specs.Padded.{Items, with_blanks};

use std::alloc::{AllocError, Allocator};
use std::marker::Model;

/// What a record that is not in use holds.
pub trait Blank: Copy + Drop {
    /// The record of what is not in use.
    ghost BLANK: { Self };

    /// The record of what is not in use.
    const BLANK: Self;
}

/// A list whose items after a prefix are blank. They have room in memory, but nothing is written there yet. So a list doubles
/// in no time, and takes no pages that nobody uses.
#[derive(Drop)]
pub struct Padded<T: Blank, A: Allocator> {
    front: Vec<T, A>,
    len: usize,
}

impl<T: Blank, A: Allocator> Model for Padded<T, A> {
    ghost Value = { Items T };

    ghost view = { λ p. record { items = with_blanks T.BLANK p.len p.front.items; used = vec_len p.front; room = vec_capacity p.front } };

    ghost invariant = { λ p. (vec_len p.front ≤ p.len) × (p.len ≤ vec_capacity p.front) };
}

impl<T: Blank, A: Allocator> Padded<T, A> {
    /// Returns a list of items that are all written to memory.
    pub fn of(items: Vec<T, A>) -> Self
        //= `of` makes a list of items that are all written to memory. [with used, within]
        ensures items { result.items ≡ items.items }
        ensures used { result.used ≡ length items.items }
        ensures within { result.used ≤ length result.items }
    {
        let len = items.len();
        Padded { front: items, len }
    }

    /// Returns the allocator of the list.
    pub fn allocator(&self) -> &A {
        self.front.allocator()
    }

    /// Returns how many items there are.
    pub fn len(&self) -> usize
        //= `len` returns how many items there are.
        ensures { result ≡ length self.now.items }
    {
        self.len
    }

    /// Returns how many items are written to memory.
    pub fn used(&self) -> usize
        //= `used` returns how many items are written to memory: no more than there are. [with within]
        ensures used { result ≡ self.now.used }
        ensures within { self.now.used ≤ length self.now.items }
    {
        self.front.len()
    }

    /// Returns an item that is written to memory.
    pub fn at(&self, index: usize) -> T
        requires { index < self.now.used }

        //= `at` and `read` return the item at a place; `read` may return one of the blanks. [also read]
        ensures { (d : T) → result ≡ slice_index_or self.now.items index d }
    {
        self.front[index]
    }

    /// Returns an item, which may be one of the blanks.
    pub fn read(&self, index: usize) -> T
        ensures { result ≡ slice_index_or self.now.items index T.BLANK }
    {
        if index < self.front.len() {
            self.front[index]
        } else {
            T::BLANK
        }
    }

    /// Writes over an item that is written to memory.
    pub fn set(&mut self, index: usize, item: T)
        requires { index < self.old.used }

        //= `set` writes only the named item. [with used, within]
        ensures items { self.new.items ≡ slice_set self.old.items index item }
        ensures used { self.new.used ≡ self.old.used }
        ensures within { self.new.used ≤ length self.new.items }
    {
        self.front[index] = item;
    }

    /// Allocates room for `more` blanks after the items. Nothing else changes.
    pub fn reserve(&mut self, more: usize) -> Result<(), AllocError>
        //= `reserve` allocates room and changes no item, whether it fails or not. [with used, within, room]
        ensures items { self.new.items ≡ self.old.items }
        ensures used { self.new.used ≡ self.old.used }
        ensures within { self.new.used ≤ length self.new.items }
        ensures room { OnOk result (length self.new.items + more ≤ self.new.room) }
    {
        let spare = self.len - self.front.len();
        let Some(wanted) = spare.checked_add(more) else {
            return Err(AllocError);
        };
        self.front.reserve(wanted)
    }

    /// Appends `more` blanks, for which there is room. Nothing is written.
    pub fn extend(&mut self, more: usize)
        requires { length self.old.items + more ≤ self.old.room }

        //= `extend` appends blanks, and `bring_in` writes those before a place: neither allocates, and no item changes. [with used, within;
        //  also bring_in.items.used.within]
        ensures items { self.new.items ≡ self.old.items ++ replicate more T.BLANK }
        ensures used { self.new.used ≡ self.old.used }
        ensures within { self.new.used ≤ length self.new.items }
    {
        self.len += more;
    }

    /// Writes the blanks before `used` to memory. It allocates nothing, and no item changes.
    pub fn bring_in(&mut self, used: usize)
        requires more { self.old.used ≤ used }
        requires within { used ≤ length self.old.items }
        ensures items { self.new.items ≡ self.old.items }
        ensures used { self.new.used ≡ used }
        ensures within { self.new.used ≤ length self.new.items }
    {
        // There is room for all items, so this can't fail.
        let _ = self.front.resize(used, T::BLANK);
    }

    /// Returns the items that are written to memory: all others are blank.
    pub fn front(&self) -> &[T]
        //= `front` returns the items that are written to memory, and all others are blank. [with rest, used]
        ensures front { result.now ≡ take self.now.used self.now.items }
        ensures rest { self.now.items ≡ with_blanks T.BLANK (length self.now.items) result.now }
        ensures used { self.now.used ≡ length result.now }
    {
        self.front.as_slice()
    }

    /// Returns a list with the same items, of which equally many are written to memory.
    pub fn try_copy(&self) -> Result<Padded<T, A>, AllocError>
    where
        A: Copy,

        //= `try_copy` returns a list with the same items, of which equally many are written to memory, or fails for lack of memory. [with
        //  used, within]
        ensures items { IfOk result (λ copy. copy.items ≡ self.now.items) }
        ensures used { IfOk result (λ copy. copy.used ≡ self.now.used) }
        ensures within { IfOk result (λ copy. copy.used ≤ length copy.items) }
    {
        let mut front = Vec::with_capacity(*self.front.allocator(), self.len)?;
        front.extend_from_slice(&self.front)?;
        let len = self.len;
        Ok(Padded { front, len })
    }
}
