//! Ranges of byte strings.

ghost use Rattle.std.specs.Prelude.{◌≡◌, IfOk, OnErr, OnOk, option_map};
ghost use Rattle.key_ranges.specs.Words.{bound_map, HoldsBefore, HoldsBehind, HoldsBetween};
ghost use Rattle.key_ranges.specs.Words.{HoldsPast, HoldsPrefixed, KeySpan, span_code};

use crate::ends::{behind, comes_before, end_of, start_of};
use crate::prefix::behind_prefix;
use std::alloc::{AllocError, Allocator};
use std::marker::Model;
use std::ops::Bound;

/// Some byte strings: those from one on, and before another one, if there is such an end. Nothing is borrowed from the caller, so a range
/// stays while the dictionary that it is looked up in changes.
///
/// A contract sees both ends.
#[derive(Drop)]
pub struct KeyRange<A: Allocator> {
    from: Vec<u8, A>,
    to: Option<Vec<u8, A>>,
}

impl<A: Allocator> Model for KeyRange<A> {
    ghost Value = { KeySpan };

    ghost coded = { span_code };

    ghost view = { λ range. record { from = range.from.items; to = option_map (λ to. to.items) range.to } };
}

impl<A: Allocator + Copy> KeyRange<A> {
    /// The byte strings between two ends, each of which is included, left out or open.
    ///
    /// ```
    /// let range = KeyRange::between(rt.alloc(), Bound::Excluded(b"ne"), Bound::Unbounded)?;
    /// assert_eq!(rt; range.from(), b"ne\0".as_slice());
    /// assert_eq!(rt; range.to(), None);
    /// ```
    ///
    /// # Errors
    /// An allocation was refused.
    pub fn between(alloc: A, start: Bound<&[u8]>, end: Bound<&[u8]>) -> Result<Self, AllocError>
        //= A range between two ends holds what comes neither before the one nor behind the other: an end itself, if it is included.
        ensures { IfOk result (HoldsBetween (bound_map (λ key. key.now) start.entry) (bound_map (λ key. key.now) end.entry)) }
    {
        let from = start_of(alloc, start)?;
        let to = end_of(alloc, end)?;
        Ok(KeyRange { from, to })
    }

    /// The byte strings that begin with a prefix.
    ///
    /// ```
    /// let range = KeyRange::with_prefix(rt.alloc(), b"ne\xff")?;
    /// assert_eq!(rt; range.from(), b"ne\xff".as_slice());
    /// assert_eq!(rt; range.to(), Some(b"nf".as_slice()));
    /// ```
    ///
    /// # Errors
    /// An allocation was refused.
    pub fn with_prefix(alloc: A, prefix: &[u8]) -> Result<Self, AllocError>
        //= The range of a prefix holds the paths that begin with it.
        ensures { IfOk result (λ range. HoldsPrefixed range prefix.now) }
    {
        let from = Vec::from_slice(alloc, prefix)?;
        let to = behind_prefix(alloc, prefix)?;
        Ok(KeyRange { from, to })
    }

    /// Leaves out what isn't behind a byte string: so the range goes on after the last one that was seen.
    ///
    /// ```
    /// let mut range = KeyRange::with_prefix(rt.alloc(), b"ne")?;
    /// range.go_on_after(b"net")?;
    /// assert_eq!(rt; range.from(), b"net\0".as_slice());
    /// ```
    ///
    /// # Errors
    /// An allocation was refused. Then the range is what it was.
    pub fn go_on_after(&mut self, key: &[u8]) -> Result<(), AllocError>
        //= A range that goes on after a byte string holds what it held that comes behind it.
        ensures behind { OnOk result (HoldsBehind self.old self.new key.now) }

        //= If an allocation is refused, it is what it was.
        ensures refused { OnErr result (self.new ≡ self.old) }
    {
        if key.cmp(self.from.as_slice()).is_lt() {
            return Ok(());
        }
        self.from = behind(*self.from.allocator(), key)?;
        Ok(())
    }

    /// Leaves out what doesn't come behind all byte strings that begin with a prefix: so the range goes past these at once.
    ///
    /// ```
    /// let mut range = KeyRange::with_prefix(rt.alloc(), b"n")?;
    /// range.go_past_prefix(b"ne")?;
    /// assert_eq!(rt; range.from(), b"nf".as_slice());
    /// ```
    ///
    /// # Errors
    /// An allocation was refused. Then the range is what it was.
    pub fn go_past_prefix(&mut self, prefix: &[u8]) -> Result<(), AllocError>
        //= A range that goes past a prefix holds what it held that comes behind all byte strings that begin with the prefix. [by
        //  follows_prefix]
        ensures past { OnOk result (HoldsPast self.old self.new prefix.now) }

        //= If an allocation is refused, it is what it was.
        ensures refused { OnErr result (self.new ≡ self.old) }
    {
        let alloc = *self.from.allocator();
        let Some(next) = behind_prefix(alloc, prefix)? else {
            // Nothing comes behind them, and nothing comes before the empty byte string.
            let nothing = Vec::new(alloc);
            self.to = Some(nothing);
            return Ok(());
        };
        if self.from.as_slice().cmp(next.as_slice()).is_ge() {
            return Ok(());
        }
        self.from = next;
        Ok(())
    }

    /// Leaves out what isn't before a byte string: so the range goes on backwards, before the first one that was seen.
    ///
    /// ```
    /// let mut range = KeyRange::with_prefix(rt.alloc(), b"ne")?;
    /// range.go_back_before(b"net")?;
    /// assert_eq!(rt; range.to(), Some(b"net".as_slice()));
    /// ```
    ///
    /// # Errors
    /// An allocation was refused. Then the range is what it was.
    pub fn go_back_before(&mut self, key: &[u8]) -> Result<(), AllocError>
        //= A range that goes back before a byte string holds what it held that comes before it.
        ensures before { OnOk result (HoldsBefore self.old self.new key.now) }

        //= If an allocation is refused, it is what it was.
        ensures refused { OnErr result (self.new ≡ self.old) }
    {
        if !comes_before(key, &self.to) {
            return Ok(());
        }
        let to = Vec::from_slice(*self.from.allocator(), key)?;
        self.to = Some(to);
        Ok(())
    }
}

impl<A: Allocator> KeyRange<A> {
    /// The byte string that it begins at.
    ///
    /// ```
    /// let range = KeyRange::with_prefix(rt.alloc(), b"ne\xff")?;
    /// assert_eq!(rt; range.from(), b"ne\xff".as_slice());
    /// ```
    #[must_use]
    pub fn from(&self) -> &[u8]
        //= A range lends the byte string that it begins at, and the one that it ends before, if there is one. [also to]
        ensures { result.now ≡ self.now.from }
    {
        self.from.as_slice()
    }

    /// The byte string that it ends before: None if it has no end.
    ///
    /// ```
    /// let range = KeyRange::between(rt.alloc(), Bound::Excluded(b"ne"), Bound::Unbounded)?;
    /// assert_eq!(rt; range.from(), b"ne\0".as_slice());
    /// assert_eq!(rt; range.to(), None);
    /// ```
    #[must_use]
    pub fn to(&self) -> Option<&[u8]>
        ensures { option_map (λ to. to.now) result ≡ self.now.to }
    {
        match &self.to {
            Some(to) => Some(to.as_slice()),
            None => None,
        }
    }
}
