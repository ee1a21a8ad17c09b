//! The keys themselves, written into a buffer of the caller's.

ghost use Rattle.std.specs.Prelude.{◌++◌, ◌<◌, ◌↔◌, ◌≡◌, ◌≤◌, ◌⊎◌, drop, IfSome, length, None};
ghost use Rattle.cedar_c.specs.Words.{inner_dictionary, keys_in, shown_in, shown_tree, walk};

use crate::reading::Reading;
use crate::save::copy_whole;
use crate::status::{CLOSED, MEMORY, NO_ROOM, OK};
use cedarwood::{Layout, Trie};
use either_layout::{AnyCedar, on_layout};
use std::alloc::Global;

/// Writes the bytes of all keys into the first elements of a buffer, one key after another in iteration order, and how many bytes they are:
/// `cedar_predictions` of the empty text finds each key's value and length in the same order. It allocates a copy of them.
///
/// # Errors
/// `CLOSED` if the handle is closed, `NO_ROOM` if the keys have more bytes than the buffer has elements: then it writes how many; `MEMORY`
/// if an allocation was refused. After an error the buffer is as it was.
#[unsafe(no_mangle)]
pub extern "C" fn cedar_keys(
    handle: &mut Reading,
    alloc: Global,
    buffer: &mut [u8],
    needed: &mut usize,
) -> u32
    ensures closed { (result ≡ CLOSED) ↔ (shown_in handle.old ≡ None) }

    //= All keys are written in this way, one after another in iteration order. [with needed]
    ensures written { result ≡ OK → buffer.new ≡ keys_in (walk (shown_tree handle.old)) ++ drop needed.new buffer.old }
    ensures needed { (result ≡ OK) ⊎ (result ≡ NO_ROOM) → needed.new ≡ length (keys_in (walk (shown_tree handle.old))) }
    ensures room { (result ≡ OK → needed.new ≤ length buffer.old) × (result ≡ NO_ROOM → length buffer.old < needed.new) }

    //= Otherwise `cedar_keys` returns `MEMORY`.
    ensures refused { (result ≡ OK) ⊎ (((result ≡ CLOSED) ⊎ (result ≡ MEMORY) ⊎ (result ≡ NO_ROOM)) × (buffer.new ≡ buffer.old)) }
    ensures kept { handle.new ≡ handle.old }
{
    if !handle.is_open() {
        return CLOSED;
    }
    let keys = list_keys(handle.shown.see().dictionary(), alloc);
    match keys {
        Some(keys) => copy_whole(keys.as_slice(), buffer, needed),
        None => MEMORY,
    }
}

/// `keys_of` a dictionary of either layout.
fn list_keys(cedar: &AnyCedar, alloc: Global) -> Option<Vec<u8, Global>>
    ensures { IfSome result (λ keys. keys.items ≡ keys_in (walk (inner_dictionary cedar.now).state.tree)) }
{
    on_layout!(cedar, cedar => keys_of(cedar, alloc))
}

/// The bytes of all keys, one key after another in iteration order, or `None` if an allocation is refused.
fn keys_of<L: Layout, const SLOTS: usize>(
    trie: &Trie<L, SLOTS, Global>,
    alloc: Global,
) -> Option<Vec<u8, Global>>
    ensures { IfSome result (λ keys. keys.items ≡ keys_in (walk trie.now.state.tree)) }
{
    let mut keys = Vec::new(alloc);
    for entry in trie.entries().ok()? {
        let (key, _) = entry.ok()?;
        keys.extend_from_slice(key.as_slice()).ok()?;
    }
    Some(keys)
}
