//! The words that complete what somebody types.

use crate::dictionary::SLOTS;
use crate::fault::Fault;
use crate::queries::list_under;
use crate::request::{Completions, Edits};
use byte_automata::{Automaton, Beginning, Within, WithinCharacters};
use cedar_complete::{ByValue, best_matching, best_with_prefix};
use cedar_match::cursor_matching;
use cedarwood::{Layout, Trie, Watched};
use std::alloc::{AllocError, Global};
use std::io::Write;
use std::str;
use word_lists::write_entry;

/// Lists the words that begin with a prefix, or with what is a few edits away from it, and returns whether there is one.
pub(crate) fn complete<'m, L: Layout, W: Write>(
    alloc: Global,
    trie: &Trie<L, SLOTS, Global>,
    prefix: &[u8],
    asked: Completions<'m>,
    writer: &mut Watched<W>,
) -> Result<bool, Fault<'m>> {
    if let Some(edits) = asked.within {
        return complete_nearly(alloc, trie, prefix, edits, asked, writer);
    }
    if let Some(best) = asked.best {
        let found = best_with_prefix(alloc, trie, prefix, count_of(best), ByValue::HighestFirst)?;
        return write_found(writer, &found);
    }
    let count = list_under(alloc, trie, prefix, asked.most.unwrap_or(u64::MAX), writer)?;
    Ok(0 < count)
}

/// Lists the words that begin with what is a few edits away from a prefix: edits of characters if it is a text, and otherwise of bytes.
fn complete_nearly<'m, L: Layout, W: Write>(
    alloc: Global,
    trie: &Trie<L, SLOTS, Global>,
    prefix: &[u8],
    edits: Edits,
    asked: Completions<'m>,
    writer: &mut Watched<W>,
) -> Result<bool, Fault<'m>> {
    let Ok(text) = str::from_utf8(prefix) else {
        let near = match edits {
            Edits::One => Within::one(prefix),
            Edits::Two => Within::two(prefix),
        };
        return complete_matching(alloc, trie, Beginning::new(near), asked, writer);
    };
    let characters = characters_of(alloc, text)?;
    let near = match edits {
        Edits::One => WithinCharacters::one(&characters),
        Edits::Two => WithinCharacters::two(&characters),
    };
    complete_matching(alloc, trie, Beginning::new(near), asked, writer)
}

/// The characters of a text.
fn characters_of(alloc: Global, text: &str) -> Result<Vec<char>, AllocError> {
    let mut characters = Vec::new(alloc);
    for character in text.chars() {
        characters.push(character)?;
    }
    Ok(characters)
}

/// Lists the words that an automaton accepts, and returns whether there is one.
fn complete_matching<'m, L: Layout, M: Automaton + Drop, W: Write>(
    alloc: Global,
    trie: &Trie<L, SLOTS, Global>,
    wanted: M,
    asked: Completions<'m>,
    writer: &mut Watched<W>,
) -> Result<bool, Fault<'m>> {
    if let Some(best) = asked.best {
        let found = best_matching(alloc, trie, wanted, count_of(best), ByValue::HighestFirst)?;
        return write_found(writer, &found);
    }
    let mut walk = cursor_matching(alloc, trie, wanted);
    let mut any = false;
    for _ in 0..asked.most.unwrap_or(u64::MAX) {
        match walk.advance() {
            Ok(Some(value)) => write_entry(writer, walk.key(), value)?,
            Ok(None) => return Ok(any),
            Err(_) => return Err(Fault::Memory),
        }
        any = true;
    }
    Ok(any)
}

/// Writes entries that were found, and returns whether there is one.
fn write_found<'m, W: Write>(
    writer: &mut Watched<W>,
    found: &[(i32, Vec<u8>)],
) -> Result<bool, Fault<'m>> {
    for (value, key) in found {
        write_entry(writer, key, *value)?;
    }
    Ok(!found.is_empty())
}

/// A number of items that may be asked for.
fn count_of(asked: u64) -> usize {
    usize::try_from(asked).unwrap_or(usize::MAX)
}
