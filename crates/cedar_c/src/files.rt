//! A dictionary's file, in memory of the caller's.

ghost use Rattle.std.specs.Prelude.{◌≡◌, ◌≢◌, IfErr, IfOk, IfSome, IsErrAnd, None, ℕ};
ghost use Rattle.cedar_c.specs.Words.{default_layout, early_refusal, file_layout, file_status};
ghost use Rattle.cedar_c.specs.Words.{header_answer, inner_dictionary, inner_layout, IsFileOf};
ghost use Rattle.cedar_c.specs.Words.{IsOnTable, IsSlotLimit, IsTableFile, LacksOrCorrupt};
ghost use Rattle.cedar_c.specs.Words.{layout_byte, layout_for, most_slots, OpensLoaded};
ghost use Rattle.cedar_c.specs.Words.{reduced_layout, refusal_of, TellsHeader, TellsJust};
ghost use Rattle.cedar_c.specs.Words.{TellsNoTable};

use crate::handle::Handle;
use crate::status::{
    FILE_BYTE_ORDER, FILE_CORRUPT, FILE_HEADER, FILE_LAYOUT, FILE_MAGIC, FILE_MEMORY_LIMIT,
    FILE_TRAILING, FILE_TRUNCATED, FILE_UNREAD, FILE_VERSION, MEMORY, OK, OTHER,
};
use cedarwood::{CedarPersistenceError, Layout, Trie};
use either_layout::{AnyCedar, names_reduced};
use std::alloc::Global;

/// Opens a handle with the dictionary of a file's bytes, which replaces the one that it has. It allocates at most `memory_limit` bytes.
///
/// # Errors
/// The number of the file's first fault; `MEMORY` if an allocation was refused. Then the handle is as it was.
#[unsafe(no_mangle)]
pub extern "C" fn cedar_load(
    handle: &mut Handle,
    alloc: Global,
    bytes: &[u8],
    memory_limit: usize,
) -> u32
    //= A load that returns `OK` opens the handle with the dictionary whose table's bytes were given, in either version, and the table is
    //  well-formed. Otherwise the handle has what it had. [also cedar_load_reduced; by loaded, refused]
    //= If the header refuses the bytes, by the layout of the call, it returns that refusal's number or reports lack of memory. It never
    //  returns a failed read (`FILE_UNREAD`). [also cedar_load_reduced; by header, read]
    //= What is refused before an allocation (the header itself, and its sizes) is reported by exactly its number. After a header that
    //  passes it returns `OK`, or reports lack of memory, or returns `FILE_CORRUPT`, and that only if the bytes are of no well-formed
    //  table. [also cedar_load_reduced; by early, behind]
    //= A loaded dictionary is the one that the loaded table holds. [also cedar_load_reduced; by stands]
    ensures opens { OpensLoaded default_layout memory_limit bytes.now handle.old handle.new result }
{
    renew(handle, alloc, false, bytes, memory_limit)
}

/// As `cedar_load`, of a file of the reduced layout.
///
/// # Errors
/// As `cedar_load`, which refuses these files.
#[unsafe(no_mangle)]
pub extern "C" fn cedar_load_reduced(
    handle: &mut Handle,
    alloc: Global,
    bytes: &[u8],
    memory_limit: usize,
) -> u32
    ensures opens { OpensLoaded reduced_layout memory_limit bytes.now handle.old handle.new result }
{
    renew(handle, alloc, true, bytes, memory_limit)
}

/// Opens a handle with the dictionary of a file's bytes, of the layout that the file names. If the handle is open, the new one replaces the
/// old one. It allocates at most `memory_limit` bytes.
///
/// # Errors
/// As `cedar_load_reduced` if the file's byte names the reduced layout, and otherwise as `cedar_load`: so a file that names neither is
/// refused with `FILE_LAYOUT` unless something before that byte is wrong, and a file that ends before it is refused with what is wrong
/// there, or as too short. Then the handle is as it was.
#[unsafe(no_mangle)]
pub extern "C" fn cedar_load_any(
    handle: &mut Handle,
    alloc: Global,
    bytes: &[u8],
    memory_limit: usize,
) -> u32
    //= `cedar_load_any` does what `cedar_load_reduced` does if the file's byte names the reduced layout, and otherwise what `cedar_load`
    //  does. [by OpensLoaded, file_layout]
    ensures opens { OpensLoaded (file_layout bytes.now) memory_limit bytes.now handle.old handle.new result }
{
    renew(handle, alloc, names_reduced(bytes), bytes, memory_limit)
}

/// Opens a handle with the dictionary that a file's bytes are of, if they are of one of this layout.
fn renew(
    handle: &mut Handle,
    alloc: Global,
    is_reduced: bool,
    bytes: &[u8],
    memory_limit: usize,
) -> u32
    ensures opens { OpensLoaded (layout_for is_reduced) memory_limit bytes.now handle.old handle.new result }
{
    match load_on_heap(alloc, is_reduced, bytes, memory_limit) {
        Ok(cedar) => {
            let _ = handle.take(alloc);
            *handle = Handle::of(cedar);
            OK
        }
        Err(status) => status,
    }
}

/// The dictionary that a file's bytes are of, on the heap.
fn load_on_heap(
    alloc: Global,
    is_reduced: bool,
    bytes: &[u8],
    memory_limit: usize,
) -> Result<Box<AnyCedar, Global>, u32>
    ensures loaded { IfOk result (λ b. IsFileOf (inner_dictionary b.value).table bytes.now) }
    ensures layout { IfOk result (λ b. inner_layout b.value ≡ layout_for is_reduced) }
    ensures refused { IfErr result (λ status. status ≢ OK) }
    ensures header { IfSome (header_answer (layout_byte (layout_for is_reduced)) most_slots memory_limit bytes.now) (λ r. IsErrAnd result (TellsHeader r)) }
    ensures early { IfSome (early_refusal (layout_byte (layout_for is_reduced)) most_slots memory_limit bytes.now) (λ r. IsErrAnd result (TellsJust r)) }
    ensures behind { header_answer (layout_byte (layout_for is_reduced)) most_slots memory_limit bytes.now ≡ None → IfErr result (TellsNoTable bytes.now) }
    ensures stands { IfOk result (λ b. IsOnTable most_slots (inner_dictionary b.value)) }
    ensures read { IfErr result (λ status. status ≢ FILE_UNREAD) }
{
    match load_file(alloc, is_reduced, bytes, memory_limit) {
        Ok(cedar) => match Box::new(alloc, cedar) {
            Ok(cedar) => Ok(cedar),
            Err(_) => Err(MEMORY),
        },
        Err(status) => Err(status),
    }
}

/// The dictionary that a file's bytes are of, if they are of one of this layout. Each layout's load has a variable of its own for the bytes
/// that are left, which `AnyCedar::load_as` lends it instead: so they stay in registers, and a load takes a quarter fewer instructions.
#[tactic(auto, using(cedarwood::proofs::DictionaryLemmas::default_limit))]
fn load_file(
    alloc: Global,
    is_reduced: bool,
    bytes: &[u8],
    memory_limit: usize,
) -> Result<AnyCedar, u32>
    ensures loaded { IfOk result (λ a. IsFileOf (inner_dictionary a).table bytes.now) }
    ensures layout { IfOk result (λ a. inner_layout a ≡ layout_for is_reduced) }
    ensures refused { IfErr result (λ status. status ≢ OK) }
    ensures header { IfSome (header_answer (layout_byte (layout_for is_reduced)) most_slots memory_limit bytes.now) (λ r. IsErrAnd result (TellsHeader r)) }
    ensures early { IfSome (early_refusal (layout_byte (layout_for is_reduced)) most_slots memory_limit bytes.now) (λ r. IsErrAnd result (TellsJust r)) }
    ensures behind { header_answer (layout_byte (layout_for is_reduced)) most_slots memory_limit bytes.now ≡ None → IfErr result (TellsNoTable bytes.now) }
    ensures stands { IfOk result (λ a. IsOnTable most_slots (inner_dictionary a)) }
    ensures read { IfErr result (λ status. status ≢ FILE_UNREAD) }
{
    if is_reduced {
        match load(alloc, bytes, memory_limit) {
            Ok(cedar) => Ok(AnyCedar::Reduced(cedar)),
            Err(status) => Err(status),
        }
    } else {
        match load(alloc, bytes, memory_limit) {
            Ok(cedar) => Ok(AnyCedar::Default(cedar)),
            Err(status) => Err(status),
        }
    }
}

/// The dictionary of a layout that a file's bytes are of, if they are of one.
fn load<L: Layout, const SLOTS: usize>(
    alloc: Global,
    bytes: &[u8],
    memory_limit: usize,
) -> Result<Trie<L, SLOTS, Global>, u32>
    requires limit { IsSlotLimit SLOTS }
    ensures loaded { IfOk result (λ d. (version : ℕ) × IsTableFile version SLOTS d.table bytes.now) }
    ensures refused { IfErr result (λ status. status ≢ OK) }
    ensures header { IfSome (header_answer (layout_byte L.kind) SLOTS memory_limit bytes.now) (λ r. IsErrAnd result (TellsHeader r)) }
    ensures early { IfSome (early_refusal (layout_byte L.kind) SLOTS memory_limit bytes.now) (λ r. IsErrAnd result (TellsJust r)) }
    ensures behind { header_answer (layout_byte L.kind) SLOTS memory_limit bytes.now ≡ None → IfErr result (LacksOrCorrupt SLOTS bytes.now) }
    ensures stands { IfOk result (IsOnTable SLOTS) }
    ensures read { IfErr result (λ status. status ≢ FILE_UNREAD) }
{
    let mut left = bytes;
    match Trie::load_from_reader_with_limit(alloc, &mut left, memory_limit) {
        Ok(trie) => {
            trie.stands_on_its_table();
            Ok(trie)
        }
        Err(error) => Err(tell_refusal(error)),
    }
}

/// The number of a refusal.
fn tell_refusal(error: CedarPersistenceError) -> u32
    ensures { result ≡ file_status (refusal_of error) }
{
    match error {
        CedarPersistenceError::Truncated => FILE_TRUNCATED,
        CedarPersistenceError::InvalidMagic => FILE_MAGIC,
        CedarPersistenceError::UnsupportedVersion { .. } => FILE_VERSION,
        CedarPersistenceError::UnsupportedByteOrder { .. } => FILE_BYTE_ORDER,
        CedarPersistenceError::LayoutMismatch { .. } => FILE_LAYOUT,
        CedarPersistenceError::InvalidHeader { .. } => FILE_HEADER,
        CedarPersistenceError::AllocationLimitExceeded { .. } => FILE_MEMORY_LIMIT,
        CedarPersistenceError::AllocationFailed { .. } => MEMORY,
        CedarPersistenceError::CorruptData { .. } => FILE_CORRUPT,
        CedarPersistenceError::TrailingData => FILE_TRAILING,
        CedarPersistenceError::Io(_) => FILE_UNREAD,
        _ => OTHER,
    }
}
