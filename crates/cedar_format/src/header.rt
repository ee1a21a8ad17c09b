//! The header of a file.

ghost use Rattle.std.specs.Prelude.{◌+◌, ◌<◌, ◌^◌, ◌≡◌, ◌≢◌, ◌≤◌, ◌⊎◌, Err, false, IfErr, IfNone};
ghost use Rattle.std.specs.Prelude.{IfOk, IfSome, IsErrAnd, IsSome, length, List, nat_eq, Ok, OnOk};
ghost use Rattle.std.specs.Prelude.{slice_index, take, true, ℕ};
ghost use Rattle.cedar_format.specs.Words.{Consumes, DeviceAppends, error_kind, FitsHeader};
ghost use Rattle.cedar_format.specs.Words.{has_failed, header_at, header_bytes, header_refusal};
ghost use Rattle.cedar_format.specs.Words.{i32_at, InvalidHeader, Io, IsHeader, IsIo, IsLack};
ghost use Rattle.cedar_format.specs.Words.{IsVersion, kind_refusal, listed_slots, magic, refusal};
ghost use Rattle.cedar_format.specs.Words.{refusal_of, size_refusal, starts_with, TellsBreaks};
ghost use Rattle.cedar_format.specs.Words.{Truncated, u16_at, u64_at, version_refusal};

use crate::buffer::{Buffer, put_bytes, put_i32, put_u16, put_usize};
use crate::error::CedarPersistenceError;
use crate::numbers::write_bytes;
use crate::source::{Source, fault_of};
use device_lines::Watched;
use std::io;
use std::io::{ErrorKind, Write};

/// The first eight bytes of a file.
pub const MAGIC: [u8; 8] = *b"CEDARW\0\0";

/// The major version of the format.
pub const MAJOR: u16 = 1;

/// The minor version of the format in which a dictionary is saved.
pub const MINOR: u16 = 1;

/// The minor version before it, which also lists the slots and blocks that aren't in use.
pub const FULL_MINOR: u16 = 0;

/// The mark of the byte order.
pub const LITTLE_ENDIAN: u8 = 1;

/// The flag of a trie whose siblings are in order.
pub const FLAG_ORDERED: u16 = 1;

/// The layout byte of the default layout.
pub const LAYOUT: u8 = 0;

/// The layout byte of the reduced layout.
pub const REDUCED_LAYOUT: u8 = 1;

/// How many bytes a header has.
pub const HEADER_LEN: usize = 88;

/// The fields of a header that belong to the table, and the minor version that says what it lists.
#[derive(Clone, Copy, Debug, PartialEq, Eq)]
pub struct Header {
    pub minor: u16,
    pub ordered: bool,
    pub max_trial: i32,
    pub full_head: i32,
    pub closed_head: i32,
    pub open_head: i32,
    pub array_len: usize,
    pub n_infos_len: usize,
    pub blocks_len: usize,
    pub reject_len: usize,
    pub capacity: usize,
    pub size: usize,
    pub entries: usize,
}

/// Returns the number of 2 bytes at a position.
#[tactic(auto, unfolding(crate::specs::Format::u16_at))]
fn u16_at(bytes: &[u8], at: usize) -> u16
    requires { at + 2 ≤ length bytes.now }
    ensures { result ≡ u16_at at bytes.now }
{
    u16::from_le_bytes([bytes[at], bytes[at + 1]])
}

/// Returns the signed number of 4 bytes at a position.
#[tactic(auto, unfolding(crate::specs::Format::i32_at))]
fn i32_at(bytes: &[u8], at: usize) -> i32
    requires { at + 4 ≤ length bytes.now }
    ensures { result ≡ i32_at at bytes.now }
{
    i32::from_le_bytes([bytes[at], bytes[at + 1], bytes[at + 2], bytes[at + 3]])
}

/// Returns the number of 8 bytes at a position.
#[tactic(auto, unfolding(crate::specs::Format::u64_at))]
fn u64_at(bytes: &[u8], at: usize) -> u64
    requires { at + 8 ≤ length bytes.now }
    ensures { result ≡ u64_at at bytes.now }
{
    u64::from_le_bytes([
        bytes[at],
        bytes[at + 1],
        bytes[at + 2],
        bytes[at + 3],
        bytes[at + 4],
        bytes[at + 5],
        bytes[at + 6],
        bytes[at + 7],
    ])
}

/// Returns the fields of the first 88 bytes.
fn header_at(bytes: &[u8]) -> Header
    requires { 88 ≤ length bytes.now }
    ensures { result ≡ header_at bytes.now }
{
    Header {
        minor: u16_at(bytes, 10),
        ordered: u16_at(bytes, 14) == FLAG_ORDERED,
        max_trial: i32_at(bytes, 16),
        full_head: i32_at(bytes, 20),
        closed_head: i32_at(bytes, 24),
        open_head: i32_at(bytes, 28),
        array_len: u64_at(bytes, 32) as usize,
        n_infos_len: u64_at(bytes, 40) as usize,
        blocks_len: u64_at(bytes, 48) as usize,
        reject_len: u64_at(bytes, 56) as usize,
        capacity: u64_at(bytes, 64) as usize,
        size: u64_at(bytes, 72) as usize,
        entries: u64_at(bytes, 80) as usize,
    }
}

/// Tests the magic bytes and the version.
fn check_version(bytes: &[u8]) -> Result<(), CedarPersistenceError>
    ensures refusal { refusal result ≡ version_refusal bytes.now }
    ensures begins { OnOk result (true ≡ starts_with nat_eq bytes.now magic) }
    ensures major { OnOk result (u16_at 8 bytes.now ≡ 1) }
    ensures minor { OnOk result (IsVersion (u16_at 10 bytes.now)) }
    ensures io { IfErr result (λ e. IsIo e → ⊥) }
    ensures room { IfErr result (λ e. IsLack e → ⊥) }
{
    if bytes.len() < 8 {
        return Err(CedarPersistenceError::Truncated);
    }
    if !bytes.starts_with(&MAGIC) {
        return Err(CedarPersistenceError::InvalidMagic);
    }
    if bytes.len() < 12 {
        return Err(CedarPersistenceError::Truncated);
    }
    let major = u16_at(bytes, 8);
    let minor = u16_at(bytes, 10);
    if major != MAJOR || minor > MINOR {
        return Err(CedarPersistenceError::UnsupportedVersion { major, minor });
    }
    Ok(())
}

/// Tests the byte order, the layout and the flags.
fn check_kind(bytes: &[u8], layout: u8) -> Result<(), CedarPersistenceError>
    ensures refusal { refusal result ≡ kind_refusal layout bytes.now }
    ensures order { OnOk result (slice_index bytes.now 12 ≡ 1) }
    ensures found { OnOk result (slice_index bytes.now 13 ≡ layout) }
    ensures flags { OnOk result (u16_at 14 bytes.now < 2) }
    ensures io { IfErr result (λ e. IsIo e → ⊥) }
    ensures room { IfErr result (λ e. IsLack e → ⊥) }
{
    if bytes.len() < 13 {
        return Err(CedarPersistenceError::Truncated);
    }
    let byte_order = bytes[12];
    if byte_order != LITTLE_ENDIAN {
        return Err(CedarPersistenceError::UnsupportedByteOrder { byte_order });
    }
    if bytes.len() < 14 {
        return Err(CedarPersistenceError::Truncated);
    }
    let found = bytes[13];
    if found != layout {
        return Err(CedarPersistenceError::LayoutMismatch {
            expected: layout,
            found,
        });
    }
    if bytes.len() < 16 {
        return Err(CedarPersistenceError::Truncated);
    }
    let flags = u16_at(bytes, 14);
    if flags > FLAG_ORDERED {
        return Err(invalid("flags", usize::from(flags)));
    }
    Ok(())
}

/// Returns the header that begins the bytes, or the first thing that is wrong with it.
pub(crate) fn parse_header(bytes: &[u8], layout: u8) -> Result<Header, CedarPersistenceError>
    ensures refusal { refusal result ≡ header_refusal layout bytes.now }
    ensures header { IfOk result (λ h. h ≡ header_at bytes.now) }
    ensures whole { OnOk result (88 ≤ length bytes.now) }
    ensures spelled { IfOk result (λ h. take 88 bytes.now ≡ header_bytes layout h) }
    ensures fits { IfOk result FitsHeader }
    ensures known { IfOk result (λ h. IsVersion h.minor) }
    ensures io { IfErr result (λ e. IsIo e → ⊥) }
    ensures room { IfErr result (λ e. IsLack e → ⊥) }
{
    check_version(bytes)?;
    check_kind(bytes, layout)?;
    if bytes.len() < HEADER_LEN {
        return Err(CedarPersistenceError::Truncated);
    }
    Ok(header_at(bytes))
}

/// Reads a header of this layout.
pub fn read_header<S: Source>(reader: &mut S, layout: u8) -> Result<Header, CedarPersistenceError>
    //= A header is read from exactly its bytes, and its refusal is the first one, never a lack of memory. [with refusal, decided, io, room]
    ensures bytes { IfOk result (λ h. (bytes : List ℕ) × Consumes (S.remaining reader.old) (S.remaining reader.new) bytes × IsHeader layout bytes h) }
    ensures refusal { IfSome (S.remaining reader.old) (λ bytes. S.failed reader.new ≡ false → refusal result ≡ header_refusal layout (take 88 bytes)) }
    ensures decided { (IsErrAnd result IsIo → ⊥) → IfSome (S.remaining reader.old) (λ bytes. S.cut reader.new ≡ false → refusal result ≡ header_refusal layout (take 88 bytes)) }
    ensures io { IfErr result (λ e. IsIo e → S.failed reader.new ≡ true) }
    ensures room { IfErr result (λ e. IsLack e → ⊥) }
    ensures failed { S.failed reader.old ≡ true → S.failed reader.new ≡ true }
    ensures told { TellsBreaks (S.broken reader.old) (S.broken reader.new) result }
{
    let mut buf = [0u8; HEADER_LEN];
    let (count, fault) = reader.read_available(&mut buf);
    with_fault(parse_header(&buf[..count], layout), fault)
}

/// Returns the fault that ended the bytes if too few came, and otherwise the result.
fn with_fault<X>(
    answer: Result<X, CedarPersistenceError>,
    fault: Option<io::Error>,
) -> Result<X, CedarPersistenceError>
    ensures ok { IfOk result (λ x. answer ≡ Ok x) }
    ensures no_fault { IfNone fault (result ≡ answer) }
    ensures other { (answer ≡ Err Truncated → ⊥) → result ≡ answer }
    ensures told { IfSome fault (λ e. answer ≡ Err Truncated → error_kind e ≢ ErrorKind.UnexpectedEof → result ≡ Err (Io e)) }
    ensures io { IfErr result (λ e. IsIo e → IsSome fault ⊎ (answer ≡ Err e)) }
    ensures room { IfErr result (λ e. IsLack e → answer ≡ Err e) }
{
    match (answer, fault) {
        (Err(CedarPersistenceError::Truncated), Some(error)) => Err(fault_of(error)),
        (answer, _) => answer,
    }
}

/// Returns how many slots a file of a minor version lists: all, or from 1 on only those in use.
pub fn listed_slots(minor: u16, capacity: usize, size: usize) -> usize
    //= This is how many slots a file of a version lists: all, or those in use.
    ensures { result ≡ listed_slots minor capacity size }
{
    if minor == FULL_MINOR { capacity } else { size }
}

/// Tests the sizes that a header gives, and whether the need of a load exceeds the limit.
pub(crate) fn check_sizes(
    header: &Header,
    slots: usize,
    memory_limit: usize,
) -> Result<(), CedarPersistenceError>
    requires { slots ≤ 2 ^ 30 }
    ensures refusal { refusal result ≡ size_refusal slots memory_limit header.now }
    ensures io { IfErr result (λ e. IsIo e → ⊥) }
    ensures room { IfErr result (λ e. IsLack e → ⊥) }
{
    let slots_listed = listed_slots(header.minor, header.capacity, header.size);
    if header.array_len != slots_listed || header.n_infos_len != slots_listed {
        return Err(invalid("node_vector_lengths", header.array_len));
    }
    let capacity = header.capacity;
    if !capacity.is_power_of_two() || capacity < 256 || capacity > slots {
        return Err(invalid("capacity", capacity));
    }
    let size = header.size;
    if size % 256 != 0 || size < 256 || size > capacity {
        return Err(invalid("size", size));
    }
    let blocks_listed = slots_listed / 256;
    if header.blocks_len != blocks_listed || header.reject_len != 257 || header.entries > size {
        return Err(invalid("state_lengths", header.blocks_len));
    }
    let blocks = capacity / 256;
    let requested = 2 * (10 * capacity + 20 * blocks + 514) + 18 * size + blocks;
    if requested > memory_limit {
        return Err(CedarPersistenceError::AllocationLimitExceeded {
            requested,
            limit: memory_limit,
        });
    }
    Ok(())
}

/// Returns the error of a field that breaks its rule.
fn invalid(field: &'static str, value: usize) -> CedarPersistenceError
    ensures { refusal_of result ≡ InvalidHeader field.now value }
{
    CedarPersistenceError::InvalidHeader {
        field,
        value: value as u64,
    }
}

/// Returns the bytes of a header of this layout, in the version that it names.
fn header_buffer(layout: u8, header: Header) -> Buffer
    ensures bytes { result.items ≡ header_bytes layout header }
    ensures fits { FitsHeader header }
{
    let mut bytes = Buffer::new();
    put_bytes(&mut bytes, &MAGIC);
    put_u16(&mut bytes, MAJOR);
    put_u16(&mut bytes, header.minor);
    put_bytes(&mut bytes, &[LITTLE_ENDIAN, layout]);
    put_u16(&mut bytes, u16::from(header.ordered));
    put_i32(&mut bytes, header.max_trial);
    put_i32(&mut bytes, header.full_head);
    put_i32(&mut bytes, header.closed_head);
    put_i32(&mut bytes, header.open_head);
    put_usize(&mut bytes, header.array_len);
    put_usize(&mut bytes, header.n_infos_len);
    put_usize(&mut bytes, header.blocks_len);
    put_usize(&mut bytes, header.reject_len);
    put_usize(&mut bytes, header.capacity);
    put_usize(&mut bytes, header.size);
    put_usize(&mut bytes, header.entries);
    bytes
}

/// Fills some bytes with those of the header of a file of this layout, in the version that it names.
pub fn put_header(bytes: &mut [u8], layout: u8, header: Header)
    requires len { length bytes.old ≡ 88 }

    //= A header is put into memory as exactly its bytes, in the version that it names.
    ensures { bytes.new ≡ header_bytes layout header }
{
    let buffer = header_buffer(layout, header);
    bytes.copy_from_slice(buffer.as_slice());
}

/// Writes the header of a file of this layout, in the version that it names.
pub fn write_header<W: Write>(
    writer: &mut Watched<W>,
    layout: u8,
    header: Header,
) -> Result<(), CedarPersistenceError>
    //= A header is written as exactly its bytes, in the version that it names. [with err]
    ensures bytes { OnOk result (DeviceAppends W.contents writer.old writer.new (header_bytes layout header)) }

    //= Each number of a header fits its field.
    ensures fits { FitsHeader header }
    ensures err { IfErr result (λ e. IsIo e × (has_failed writer.new ≡ true)) }
    ensures failed { has_failed writer.old ≡ true → has_failed writer.new ≡ true }
{
    let bytes = header_buffer(layout, header);
    write_bytes(writer, bytes.as_slice())
}
