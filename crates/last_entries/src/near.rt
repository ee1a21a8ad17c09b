//! How near a search has come to the last entry.

ghost use Rattle.std.specs.Prelude.{◌++◌, ◌<◌, ◌∷◌, ◌≡◌, [], get_or, IfOk, option_map, vec_len};
ghost use Rattle.last_entries.specs.Words.{AscendByKeys, before_end, IsNear, Nears};

use crate::source::{Ascending, first_between};
use std::alloc::{AllocError, Allocator};

/// An entry, behind which all others have the first `depth` bytes of its key, and then no byte above `highest`.
#[derive(Drop)]
pub(crate) struct Near<A: Allocator> {
    pub(crate) key: Vec<u8, A>,
    pub(crate) value: i32,
    pub(crate) depth: usize,
    pub(crate) highest: u8,
    // How many bytes further the next look-up goes: it doubles with each that finds something.
    pub(crate) step: u8,
}

/// Makes one look-up at the most, and comes nearer. Returns whether the entry is the last.
pub(crate) fn nearer<S: Ascending, A: Allocator + Copy>(
    alloc: A,
    source: &S,
    to: Option<&[u8]>,
    near: &mut Near<A>,
) -> Result<bool, AllocError>
    requires listed { AscendByKeys (S.entries source.now) }
    requires near { IsNear (before_end (option_map (λ z. z.now) to) (S.entries source.now)) near.old }
    ensures { IfOk result (Nears (before_end (option_map (λ z. z.now) to.entry) (S.entries source.now)) near.old near.new) }
{
    if near.depth == near.key.len() {
        return longer(alloc, source, to, near);
    }
    if near.key[near.depth] == near.highest {
        near.depth += 1;
        near.highest = 255;
        near.step = 1;
        return Ok(false);
    }
    wider(alloc, source, to, near)
}

/// Looks behind an entry whose key all others behind it begin with.
fn longer<S: Ascending, A: Allocator + Copy>(
    alloc: A,
    source: &S,
    to: Option<&[u8]>,
    near: &mut Near<A>,
) -> Result<bool, AllocError>
    requires listed { AscendByKeys (S.entries source.now) }
    requires near { IsNear (before_end (option_map (λ z. z.now) to) (S.entries source.now)) near.old }
    requires all { near.old.depth ≡ vec_len near.old.key }
    ensures { IfOk result (Nears (before_end (option_map (λ z. z.now) to.entry) (S.entries source.now)) near.old near.new) }
{
    let from = append(alloc, &near.key, 0)?;
    let mut found = Vec::new(alloc);
    let Some(value) = first_between(source, &from, to, &mut found)? else {
        return Ok(true);
    };
    near.key = found;
    near.value = value;
    Ok(false)
}

/// Looks for an entry with a higher byte behind the bytes that all have.
fn wider<S: Ascending, A: Allocator + Copy>(
    alloc: A,
    source: &S,
    to: Option<&[u8]>,
    near: &mut Near<A>,
) -> Result<bool, AllocError>
    requires listed { AscendByKeys (S.entries source.now) }
    requires near { IsNear (before_end (option_map (λ z. z.now) to) (S.entries source.now)) near.old }
    requires some { near.old.depth < vec_len near.old.key }
    requires higher { get_or near.old.key.items near.old.depth 0 < near.old.highest }
    ensures { IfOk result (Nears (before_end (option_map (λ z. z.now) to.entry) (S.entries source.now)) near.old near.new) }
{
    let byte = near.key[near.depth];
    let next = byte + near.step.max(1).min(near.highest - byte);
    let from = append(alloc, &near.key[..near.depth], next)?;
    let mut found = Vec::new(alloc);
    match first_between(source, &from, to, &mut found)? {
        Some(value) => {
            near.key = found;
            near.value = value;
            near.step = near.step.saturating_mul(2);
            Ok(false)
        }
        None => {
            near.highest = next - 1;
            near.step /= 2;
            Ok(false)
        }
    }
}

/// Some bytes and one more.
fn append<A: Allocator + Copy>(alloc: A, bytes: &[u8], byte: u8) -> Result<Vec<u8, A>, AllocError>
    ensures { IfOk result (λ all. all.items ≡ bytes.now ++ byte ∷ []) }
{
    let mut all = Vec::with_capacity(alloc, bytes.len() + 1)?;
    all.extend_from_slice(bytes)?;
    all.push(byte)?;
    Ok(all)
}
