//! A dictionary's file, written into a buffer of the caller's.

ghost use Rattle.std.specs.Prelude.{◌++◌, ◌<◌, ◌↔◌, ◌≡◌, ◌≤◌, ◌⊎◌, drop, IfSome, length, None};
ghost use Rattle.std.specs.Prelude.{take};
ghost use Rattle.cedar_c.specs.Words.{file_in, inner_dictionary, shown_in, table_bytes};

use crate::reading::Reading;
use crate::status::{CLOSED, NO_ROOM, OK};
use either_layout::AnyCedar;

/// Writes the dictionary's file into the first elements of a buffer, and how many bytes it has. The file lists the slots and blocks that
/// are in use, or all of them if `is_full`, as format 1.0 does. It allocates nothing, and without room it looks at no slot.
///
/// # Errors
/// `CLOSED` if the handle is closed, `NO_ROOM` if the file has more bytes than the buffer has elements: then it writes how many. After an
/// error the buffer is as it was.
#[unsafe(no_mangle)]
pub extern "C" fn cedar_save(
    handle: &mut Reading,
    is_full: bool,
    buffer: &mut [u8],
    needed: &mut usize,
) -> u32
    //= Both return `CLOSED` exactly if the handle is closed, `OK` only if all fits, and `NO_ROOM` only if it doesn't. After any error the
    //  buffer is as it was. [with room, refused; also cedar_keys]
    ensures closed { (result ≡ CLOSED) ↔ (shown_in handle.old ≡ None) }

    //= A save writes the bytes of the dictionary's table, in 1.1 or in 1.0, into the first elements of a buffer, and doesn't change the
    //  others. `needed` is how many they are. [with needed]
    ensures saved { result ≡ OK → IfSome (shown_in handle.old) (λ a. buffer.new ≡ file_in is_full a ++ drop needed.new buffer.old) }
    ensures needed { (result ≡ OK) ⊎ (result ≡ NO_ROOM) → IfSome (shown_in handle.old) (λ a. needed.new ≡ length (file_in is_full a)) }
    ensures room { (result ≡ OK → needed.new ≤ length buffer.old) × (result ≡ NO_ROOM → length buffer.old < needed.new) }

    //= `cedar_save` fails in no other way than these two.
    ensures refused { (result ≡ OK) ⊎ (((result ≡ CLOSED) ⊎ (result ≡ NO_ROOM)) × (buffer.new ≡ buffer.old)) }
    ensures kept { handle.new ≡ handle.old }
{
    if !handle.is_open() {
        return CLOSED;
    }
    save_into(handle.shown.see().dictionary(), is_full, buffer, needed)
}

/// Writes a dictionary's file in either version into the first elements of a buffer, if it has room for all, and how many bytes it has.
fn save_into(cedar: &AnyCedar, is_full: bool, buffer: &mut [u8], needed: &mut usize) -> u32
    ensures saved { result ≡ OK → buffer.new ≡ file_in is_full cedar.now ++ drop needed.new buffer.old }
    ensures needed { needed.new ≡ length (file_in is_full cedar.now) }
    ensures room { (result ≡ OK → needed.new ≤ length buffer.old) × (result ≡ NO_ROOM → length buffer.old < needed.new) }
    ensures refused { (result ≡ OK) ⊎ ((result ≡ NO_ROOM) × (buffer.new ≡ buffer.old)) }
{
    if is_full {
        save_v1_0(cedar, buffer, needed)
    } else {
        save_v1_1(cedar, buffer, needed)
    }
}

/// The same in format 1.1.
fn save_v1_1(cedar: &AnyCedar, buffer: &mut [u8], needed: &mut usize) -> u32
    ensures saved { result ≡ OK → buffer.new ≡ table_bytes 1 (inner_dictionary cedar.now).table ++ drop needed.new buffer.old }
    ensures needed { needed.new ≡ length (table_bytes 1 (inner_dictionary cedar.now).table) }
    ensures room { (result ≡ OK → needed.new ≤ length buffer.old) × (result ≡ NO_ROOM → length buffer.old < needed.new) }
    ensures refused { (result ≡ OK) ⊎ ((result ≡ NO_ROOM) × (buffer.new ≡ buffer.old)) }
{
    let len = cedar.saved_len();
    *needed = len;
    if buffer.len() < len {
        return NO_ROOM;
    }
    *needed = cedar.save_to_slice(buffer);
    OK
}

/// The same in format 1.0.
fn save_v1_0(cedar: &AnyCedar, buffer: &mut [u8], needed: &mut usize) -> u32
    ensures saved { result ≡ OK → buffer.new ≡ table_bytes 0 (inner_dictionary cedar.now).table ++ drop needed.new buffer.old }
    ensures needed { needed.new ≡ length (table_bytes 0 (inner_dictionary cedar.now).table) }
    ensures room { (result ≡ OK → needed.new ≤ length buffer.old) × (result ≡ NO_ROOM → length buffer.old < needed.new) }
    ensures refused { (result ≡ OK) ⊎ ((result ≡ NO_ROOM) × (buffer.new ≡ buffer.old)) }
{
    let len = cedar.saved_v1_0_len();
    *needed = len;
    if buffer.len() < len {
        return NO_ROOM;
    }
    *needed = cedar.save_v1_0_to_slice(buffer);
    OK
}

/// Writes some bytes into the first elements of a buffer, if it has room for all, and how many they are.
pub(crate) fn copy_whole(bytes: &[u8], buffer: &mut [u8], needed: &mut usize) -> u32
    ensures needed { needed.new ≡ length bytes.now }
    ensures written { result ≡ OK → (buffer.new ≡ bytes.now ++ drop (length bytes.now) buffer.old) × (length bytes.now ≤ length buffer.old) }
    ensures no_room { (result ≡ OK) ⊎ ((result ≡ NO_ROOM) × (length buffer.old < length bytes.now) × (buffer.new ≡ buffer.old)) }
{
    *needed = bytes.len();
    if buffer.len() < bytes.len() {
        return NO_ROOM;
    }
    let _ = copy_front(bytes, buffer);
    OK
}

/// Writes some bytes into the first elements of a buffer, as far as there is room, and returns how many they are.
pub(crate) fn copy_front(bytes: &[u8], buffer: &mut [u8]) -> usize
    ensures count { result ≡ length bytes.now }
    ensures copied { buffer.new ≡ take (length buffer.old) bytes.now ++ drop (length bytes.now) buffer.old }
{
    let room = bytes.len().min(buffer.len());
    buffer[..room].copy_from_slice(&bytes[..room]);
    bytes.len()
}
