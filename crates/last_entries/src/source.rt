//! What entries are looked up in.

ghost use Rattle.std.specs.Prelude.{◌≡◌, IfOk, List, option_map};
ghost use Rattle.last_entries.specs.Words.{AscendByKeys, before_end, ends_before, Entry};
ghost use Rattle.last_entries.specs.Words.{from_on, IsFirstOf};

use std::alloc::{AllocError, Allocator};

/// Entries whose keys ascend, of which the first one at a byte string or after it can be found.
pub trait Ascending {
    /// All entries.
    ghost entries: { Self → List Entry };

    /// The value of the first entry whose key is at a byte string or after it: its key is written into a buffer, instead of what that held.
    /// None if there is no such entry.
    ///
    /// # Errors
    /// An allocation was refused. Then the buffer may hold anything.
    fn first_since<A: Allocator>(
        &self,
        from: &[u8],
        key: &mut Vec<u8, A>,
    ) -> Result<Option<i32>, AllocError>
        //= A look-up finds the first entry at a byte string or after it.
        ensures { IfOk result (IsFirstOf (from_on from.now (entries self.now)) key.new.items) };
}

/// The value of the first entry at a byte string or after it, and before an end, if there is one: its key is written into a buffer, instead
/// of what that held. None if there is no such entry.
///
/// # Errors
/// An allocation was refused. Then the buffer may hold anything.
pub fn first_between<S: Ascending, A: Allocator>(
    source: &S,
    from: &[u8],
    to: Option<&[u8]>,
    key: &mut Vec<u8, A>,
) -> Result<Option<i32>, AllocError>
    requires { AscendByKeys (S.entries source.now) }

    //= A look-up between two byte strings finds the first entry at the one or after it, and before the other, and returns None exactly if
    //  there is none.
    ensures { IfOk result (IsFirstOf (from_on from.now (before_end (option_map (λ z. z.now) to.entry) (S.entries source.now))) key.new.items) }
{
    let Some(value) = source.first_since(from, key)? else {
        return Ok(None);
    };
    if comes_before(key, to) {
        return Ok(Some(value));
    }
    Ok(None)
}

/// Whether a byte string comes before an end.
fn comes_before(key: &[u8], to: Option<&[u8]>) -> bool
    ensures { result ≡ ends_before (option_map (λ z. z.now) to.entry) key.now }
{
    match to {
        Some(to) => key.cmp(to).is_lt(),
        None => true,
    }
}
