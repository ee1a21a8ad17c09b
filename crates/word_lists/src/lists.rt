//! The lines of a dictionary's entries. They allocate nothing but what the walk does.

ghost use Rattle.std.specs.Prelude.{◌<◌, ◌∷◌, ◌≡◌, [], drop, IfErr, IfOk, length};
ghost use Rattle.std.specs.Prelude.{MatchOption, min, OnErr, OnOk, take};
ghost use Rattle.word_lists.specs.Words.{BreaksOff, entry_lines, has_failed, LinesOrFails, Writes};

use crate::word::write_entry;
use crate::write::ListError;
use cedarwood::{RangeEntries, Walked, Watched};
use std::alloc::Allocator;
use std::io::Write;

/// Writes the line of each entry that a walk has left, in its order. What is taken of memory is one key's buffer at a time.
///
/// # Errors
/// `Write` if the writer failed, `Memory` if the allocation of a key's buffer was refused. Then a beginning of the lines is written, and
/// not all.
pub fn write_entries<T: Walked, A: Allocator + Copy, W: Write>(
    writer: &mut Watched<W>,
    mut entries: RangeEntries<'_, T, A>,
) -> Result<(), ListError>
    //= A list of entries that returns `Ok` wrote the line of each entry of the iteration, in its order, and nothing else.
    ensures ok { OnOk result (Writes W.contents writer.old writer.new (entry_lines entries.entry)) }

    //= One that fails wrote a beginning of these lines, and not all.
    ensures err { OnErr result (BreaksOff W.contents writer.old writer.new (entry_lines entries.entry)) }

    //= It fails with `Write` only if a call of the writer failed. With `Memory`, and if it returns `Ok`, none did.
    ensures faults { LinesOrFails (has_failed writer.old) (has_failed writer.new) result }
{
    while let Some(entry) = entries.next() {
        match entry {
            Ok((key, value)) => write_entry(writer, &key, value)?,
            Err(_) => return Err(ListError::Memory),
        }
    }
    Ok(())
}

/// Writes the lines of the next entries of an iteration, so many at most, and returns how many it wrote. Each key is written into a buffer,
/// instead of what that held: memory is allocated only if the buffer is too short.
///
/// ```
/// cedar.build(&[("net", 7), ("ten", 2)])?;
/// let mut writer = Watched::new(Vec::new(rt.alloc()));
/// let mut key = Vec::new(rt.alloc());
/// assert!(rt; write_next_entries(&mut writer, &mut cedar.entries_with_prefix(""), 1, &mut key) == Ok(1));
/// assert_eq!(rt; writer.into_inner().as_slice(), b"net\t7\n".as_slice());
/// ```
///
/// # Errors
/// As of [`write_entries`].
pub fn write_next_entries<T: Walked, A: Allocator + Copy, B: Allocator, W: Write>(
    writer: &mut Watched<W>,
    entries: &mut RangeEntries<'_, T, A>,
    most: u64,
    key: &mut Vec<u8, B>,
) -> Result<u64, ListError>
    //= A list of the next entries that returns `Ok` wrote the lines of the first entries of the iteration, so many at most, in its order,
    //  and nothing else. It returns how many these are. [with count]
    ensures ok { OnOk result (Writes W.contents writer.old writer.new (entry_lines (take most entries.old))) }
    ensures count { IfOk result (λ count. count ≡ min most (length entries.old)) }

    //= The iteration goes on after them.
    ensures rest { OnOk result (entries.new ≡ drop most entries.old) }

    //= One that fails wrote a beginning of these lines, and not all.
    ensures err { OnErr result (BreaksOff W.contents writer.old writer.new (entry_lines (take most entries.old))) }

    //= It fails with `Write` only if a call of the writer failed. With `Memory`, and if it returns `Ok`, none did.
    ensures faults { LinesOrFails (has_failed writer.old) (has_failed writer.new) result }
{
    let mut left = most;
    while 0 < left {
        let Some(value) = next_entry(entries, key)? else {
            return Ok(most - left);
        };
        write_entry(writer, key, value)?;
        left -= 1;
    }
    Ok(most)
}

/// The number of the next entry, whose key is written into a buffer.
pub(crate) fn next_entry<T: Walked, A: Allocator + Copy, B: Allocator>(
    entries: &mut RangeEntries<'_, T, A>,
    key: &mut Vec<u8, B>,
) -> Result<Option<i32>, ListError>
    ensures found { IfOk result (λ found. MatchOption found ((entries.old ≡ []) × (entries.new ≡ [])) (λ value. entries.old ≡ (key.new.items, value) ∷ entries.new)) }
    ensures refused { IfErr result (λ e. (e ≡ ListError.Memory) × (0 < length entries.old)) }
{
    match entries.next_into(key) {
        Ok(found) => Ok(found),
        Err(_) => Err(ListError::Memory),
    }
}
