//! The tables of a file.

ghost use Rattle.std.specs.Prelude.{◌*◌, ◌+◌, ◌/◌, ◌<◌, ◌^◌, ◌≡◌, ◌≤◌, [], false, IfErr, IfOk};
ghost use Rattle.std.specs.Prelude.{length, OnOk, true, vec_capacity};
ghost use Rattle.cedar_format.specs.Words.{blank_block, blank_info, blank_node, body_len, Consumes};
ghost use Rattle.cedar_format.specs.Words.{CountsWithin, decoded_bytes, DecodesBy, DeviceAppends};
ghost use Rattle.cedar_format.specs.Words.{EndsShort, filled_bytes, filled_list, FitsBody, FitsFilled};
ghost use Rattle.cedar_format.specs.Words.{has_failed, IsAtEnd, IsIo, IsSlotLimit, LacksTable};
ghost use Rattle.cedar_format.specs.Words.{Misses, need, Passes, tables_len, TellsBreaks, Trails};

use crate::buffer::BUFFER_LEN;
use crate::error::CedarPersistenceError;
use crate::header::{Header, check_sizes, read_header};
use crate::listing::{fill_up, put_filled, put_records, read_records, write_filled, write_records};
use crate::record::Record;
use crate::reserve::reserve_counted;
use crate::source::Source;
use cedar_slots::{BLOCK_SIZE, BlockRecord, NInfoRecord, NodeRecord, Ticks};
use device_lines::Watched;
use std::alloc::Allocator;
use std::io::{ErrorKind, Write};
use std::marker::Brand;
use std::sync::ledger::{Blank, Ledger};

/// The fields of a file. What its version doesn't list, up to the capacity, is blank as in a fresh block.
#[derive(Drop)]
pub struct Decoded<A: Allocator> {
    pub header: Header,
    pub nodes: Vec<NodeRecord, A>,
    pub n_infos: Vec<NInfoRecord, A>,
    pub blocks: Vec<BlockRecord, A>,
    pub reject: Vec<i16, A>,
}

/// Makes the four tables, empty and with room for what the header states.
fn reserve_tables<A: Allocator + Copy, C: Ledger>(
    alloc: A,
    header: Header,
    asked: &mut Ticks<C>,
) -> Result<Decoded<A>, CedarPersistenceError>
    requires capacity { header.capacity ≤ 2 ^ 30 }
    requires reject { header.reject_len ≡ 257 }
    ensures header { IfOk result (λ d. d.header ≡ header) }
    // Exactly the room that was counted.
    ensures nodes { IfOk result (λ d. (d.nodes.items ≡ []) × (vec_capacity d.nodes ≡ header.capacity)) }
    ensures n_infos { IfOk result (λ d. (d.n_infos.items ≡ []) × (vec_capacity d.n_infos ≡ header.capacity)) }
    ensures blocks { IfOk result (λ d. (d.blocks.items ≡ []) × (vec_capacity d.blocks ≡ header.capacity / 256)) }
    ensures reject { IfOk result (λ d. (d.reject.items ≡ []) × (vec_capacity d.reject ≡ header.reject_len)) }
    ensures err { IfErr result (LacksTable header) }
    ensures asked { asked.new ≤ asked.old + tables_len header }
    ensures counted { OnOk result (asked.new ≡ asked.old + tables_len header) }
{
    let mut nodes = Vec::new(alloc);
    reserve_counted(&mut nodes, header.capacity, asked)?;
    let mut n_infos = Vec::new(alloc);
    reserve_counted(&mut n_infos, header.capacity, asked)?;
    let mut blocks = Vec::new(alloc);
    reserve_counted(&mut blocks, header.capacity / BLOCK_SIZE, asked)?;
    let mut reject = Vec::new(alloc);
    reserve_counted(&mut reject, header.reject_len, asked)?;
    Ok(Decoded {
        header,
        nodes,
        n_infos,
        blocks,
        reject,
    })
}

/// Reads the four lists of a file, one after another.
fn read_lists<S: Source, A: Allocator>(
    reader: &mut S,
    tables: Decoded<A>,
) -> Result<Decoded<A>, CedarPersistenceError>
    requires nodes { (tables.nodes.items ≡ []) × (tables.header.array_len ≤ vec_capacity tables.nodes) }
    requires n_infos { (tables.n_infos.items ≡ []) × (tables.header.n_infos_len ≤ vec_capacity tables.n_infos) }
    requires blocks { (tables.blocks.items ≡ []) × (tables.header.blocks_len ≤ vec_capacity tables.blocks) }
    requires reject { (tables.reject.items ≡ []) × (tables.header.reject_len ≤ vec_capacity tables.reject) }
    ensures header { IfOk result (λ d. d.header ≡ tables.header) }
    ensures nodes { IfOk result (λ d. (length d.nodes.items ≡ tables.header.array_len) × (vec_capacity d.nodes ≡ vec_capacity tables.nodes)) }
    ensures n_infos { IfOk result (λ d. (length d.n_infos.items ≡ tables.header.n_infos_len) × (vec_capacity d.n_infos ≡ vec_capacity tables.n_infos)) }
    ensures blocks { IfOk result (λ d. (length d.blocks.items ≡ tables.header.blocks_len) × (vec_capacity d.blocks ≡ vec_capacity tables.blocks)) }
    ensures reject { IfOk result (λ d. length d.reject.items ≡ tables.header.reject_len) }
    ensures bytes { IfOk result (λ d. Consumes (S.remaining reader.old) (S.remaining reader.new) (decoded_bytes d)) }
    ensures fits { IfOk result (λ d. FitsBody d.nodes.items d.n_infos.items d.blocks.items d.reject.items) }
    ensures len { IfOk result (λ d. length (decoded_bytes d) ≡ body_len tables.header) }
    ensures misses { IfErr result (Misses (S.remaining reader.old) (S.failed reader.new) (body_len tables.header)) }
    ensures short { IfErr result (EndsShort (S.remaining reader.old) (S.cut reader.new) (body_len tables.header)) }
    ensures failed { S.failed reader.old ≡ true → S.failed reader.new ≡ true }
    ensures told { TellsBreaks (S.broken reader.old) (S.broken reader.new) result }
{
    let Decoded {
        header,
        mut nodes,
        mut n_infos,
        mut blocks,
        mut reject,
    } = tables;
    read_records(reader, header.array_len, &mut nodes)?;
    read_records(reader, header.n_infos_len, &mut n_infos)?;
    read_records(reader, header.blocks_len, &mut blocks)?;
    read_records(reader, header.reject_len, &mut reject)?;
    Ok(Decoded {
        header,
        nodes,
        n_infos,
        blocks,
        reject,
    })
}

/// Fills the tables up to their capacity: what a file doesn't list is blank.
fn fill_tables<A: Allocator>(lists: Decoded<A>) -> Decoded<A>
    requires nodes { lists.header.capacity ≤ vec_capacity lists.nodes }
    requires n_infos { lists.header.capacity ≤ vec_capacity lists.n_infos }
    requires blocks { lists.header.capacity / 256 ≤ vec_capacity lists.blocks }
    ensures header { result.header ≡ lists.header }
    ensures nodes { result.nodes.items ≡ filled_list blank_node lists.header.capacity lists.nodes.items }
    ensures n_infos { result.n_infos.items ≡ filled_list blank_info lists.header.capacity lists.n_infos.items }
    ensures blocks { result.blocks.items ≡ filled_list blank_block (lists.header.capacity / 256) lists.blocks.items }
    ensures reject { result.reject.items ≡ lists.reject.items }
{
    let Decoded {
        header,
        mut nodes,
        mut n_infos,
        mut blocks,
        reject,
    } = lists;
    fill_up(&mut nodes, header.capacity, NodeRecord::BLANK);
    fill_up(&mut n_infos, header.capacity, NInfoRecord::BLANK);
    fill_up(
        &mut blocks,
        header.capacity / BLOCK_SIZE,
        BlockRecord::BLANK,
    );
    Decoded {
        header,
        nodes,
        n_infos,
        blocks,
        reject,
    }
}

/// Tests for the end of the input, by one exact read of one byte.
fn read_end<S: Source>(reader: &mut S) -> Result<(), CedarPersistenceError>
    ensures bytes { OnOk result (Consumes (S.remaining reader.old) (S.remaining reader.new) []) }
    ensures ended { OnOk result (S.failed reader.new ≡ false → IsAtEnd (S.remaining reader.old)) }
    ensures at_end { OnOk result (S.failed reader.new ≡ false → IsAtEnd (S.remaining reader.new)) }
    ensures whole { OnOk result (S.cut reader.new ≡ false → IsAtEnd (S.remaining reader.old)) }
    ensures at_whole { OnOk result (S.cut reader.new ≡ false → IsAtEnd (S.remaining reader.new)) }
    ensures trailing { IfErr result (Trails (S.remaining reader.old) (S.failed reader.new)) }
    ensures failed { S.failed reader.old ≡ true → S.failed reader.new ≡ true }
    ensures told { TellsBreaks (S.broken reader.old) (S.broken reader.new) result }
{
    let mut byte = [0u8; 1];
    let (count, fault) = reader.read_available(&mut byte);
    if count > 0 {
        return Err(CedarPersistenceError::TrailingData);
    }
    match fault {
        Some(error) => {
            if error.kind() == ErrorKind::UnexpectedEof {
                Ok(())
            } else {
                Err(CedarPersistenceError::Io(error))
            }
        }
        None => Ok(()),
    }
}

/// Reads the fields of a file of this layout, up to its end. The bytes that it requests from the allocator aren't counted.
///
/// # Errors
/// As `decode_counted`.
pub fn decode<S: Source, A: Allocator + Copy>(
    alloc: A,
    reader: &mut S,
    layout: u8,
    slots: usize,
    memory_limit: usize,
) -> Result<Decoded<A>, CedarPersistenceError>
    requires slots { IsSlotLimit slots }

    //= Fields are read only from exactly their bytes, the header and then the lists as far as its version lists them, even if the reader
    //  fails. [also decode_counted; by bytes, DecodesBy]
    //= After a success the header's sizes pass, there are as many records as its capacity requires, the listed numbers fit their types, and
    //  what isn't listed is blank. [also decode_counted; by file]
    //= The result is the first refusal in the stated order; or, once the header has passed, that a list found no room, with its number of
    //  elements. [also decode_counted; by answer]
    //= After a success no input is left, if the reader has not failed. [also decode_counted; by at_end]
    //= Whatever fails, the same holds unless the result is `Io`, or a read returned an end of the input as a fault. [also decode_counted; by
    //  decided, whole]
    //= A lack of memory is reported only with the number of elements of one of the four lists of a header that has passed, even if the
    //  reader fails. [also decode_counted; by lacks]
    //= `Io` is returned only if the reader failed, now or before. [also decode_counted; by io]
    ensures decodes { DecodesBy layout slots memory_limit (S.remaining reader.old) (S.remaining reader.new) (S.failed reader.new) (S.cut reader.new) result }

    //= If a read was broken off, the result is neither a success nor `Truncated`. [also decode_counted, read_header, read_u8, read_u16,
    //  read_i16, read_i32, read_u64, read_usize; by TellsBreaks]
    ensures told { TellsBreaks (S.broken reader.old) (S.broken reader.new) result }
{
    decode_uncounted::<Brand, S, A>(alloc, reader, layout, slots, memory_limit, Blank::new(1))
}

/// Decodes with a count of its own, which nothing reads.
fn decode_uncounted<C: Ledger, S: Source, A: Allocator + Copy>(
    alloc: A,
    reader: &mut S,
    layout: u8,
    slots: usize,
    memory_limit: usize,
    blank: Blank,
) -> Result<Decoded<A>, CedarPersistenceError>
    requires slots { IsSlotLimit slots }
    requires name { blank.name ≡ C.name }
    requires parts { blank.parts ≡ C.parts }
    requires some { 0 < blank.parts }
    ensures decodes { DecodesBy layout slots memory_limit (S.remaining reader.old) (S.remaining reader.new) (S.failed reader.new) (S.cut reader.new) result }
    ensures told { TellsBreaks (S.broken reader.old) (S.broken reader.new) result }
{
    let mut asked = Ticks::<C>::new(blank);
    decode_counted(alloc, reader, layout, slots, memory_limit, &mut asked)
}

/// Reads the fields of a file of this layout, up to its end, and counts the bytes that it requests from the allocator.
///
/// # Errors
/// The first refusal, if there is one; `AllocationFailed` with the number of elements if the allocation of a table failed,
/// once the header has passed; `Io` if the reader failed.
pub fn decode_counted<S: Source, A: Allocator + Copy, C: Ledger>(
    alloc: A,
    reader: &mut S,
    layout: u8,
    slots: usize,
    memory_limit: usize,
    asked: &mut Ticks<C>,
) -> Result<Decoded<A>, CedarPersistenceError>
    requires slots { IsSlotLimit slots }

    ensures decodes { DecodesBy layout slots memory_limit (S.remaining reader.old) (S.remaining reader.new) (S.failed reader.new) (S.cut reader.new) result }
    ensures told { TellsBreaks (S.broken reader.old) (S.broken reader.new) result }

    //= By its count nothing is requested from the allocator before the header has passed, and after that at most the need that was tested;
    //  even if the reader fails. [with passes]
    ensures asked { CountsWithin layout slots memory_limit (S.remaining reader.old) need asked.old asked.new }
    ensures passes { IfOk result (λ d. Passes layout slots memory_limit (S.remaining reader.old) d.header) }
{
    let header = read_header(reader, layout)?;
    check_sizes(&header, slots, memory_limit)?;
    let empty = reserve_tables(alloc, header, asked)?;
    let lists = read_lists(reader, empty)?;
    read_end(reader)?;
    Ok(fill_tables(lists))
}

/// Writes the four lists of a file, one after another, in pieces of several thousand bytes. `slots` is how many slots the file lists.
/// Those that the lists lack, and their blocks, are blank. It allocates nothing.
///
/// # Errors
/// `Io` if the writer failed.
pub fn write_lists<W: Write>(
    writer: &mut Watched<W>,
    slots: usize,
    nodes: &[NodeRecord],
    n_infos: &[NInfoRecord],
    blocks: &[BlockRecord],
    reject: &[i16],
) -> Result<(), CedarPersistenceError>
    //= The four lists of a table are written as exactly their bytes and nothing else, with blanks after the first three up to the number of
    //  slots that the file lists. [with fits]
    ensures bytes { OnOk result (DeviceAppends W.contents writer.old writer.new (filled_bytes slots nodes.now n_infos.now blocks.now reject.now)) }
    ensures fits { OnOk result (FitsFilled slots nodes.now n_infos.now blocks.now reject.now) }

    //= It fails only if its writer does.
    ensures err { IfErr result (λ e. IsIo e × (has_failed writer.new ≡ true)) }
    ensures failed { has_failed writer.old ≡ true → has_failed writer.new ≡ true }
{
    let mut buffer = [0u8; BUFFER_LEN];
    write_filled(writer, &mut buffer, nodes, slots, NodeRecord::BLANK)?;
    write_filled(writer, &mut buffer, n_infos, slots, NInfoRecord::BLANK)?;
    let blanks = slots / BLOCK_SIZE;
    write_filled(writer, &mut buffer, blocks, blanks, BlockRecord::BLANK)?;
    write_records(writer, &mut buffer, reject)
}

/// Fills some bytes with those of the four lists of a file, one after another. `slots` is how many slots the file lists. Those that the
/// lists lack, and their blocks, are blank. It allocates nothing.
pub fn put_lists(
    bytes: &mut [u8],
    slots: usize,
    nodes: &[NodeRecord],
    n_infos: &[NInfoRecord],
    blocks: &[BlockRecord],
    reject: &[i16],
)
    requires nodes { length nodes.now ≤ slots }
    requires n_infos { length n_infos.now ≤ slots }
    requires blocks { length blocks.now ≤ slots / 256 }
    requires len { length bytes.old ≡ slots * 8 + (slots * 2 + (slots / 256 * 20 + length reject.now * 2)) }

    //= The four lists of a table are put into memory as exactly their bytes, with blanks after the first three up to the number of slots
    //  that the file lists.
    ensures { bytes.new ≡ filled_bytes slots nodes.now n_infos.now blocks.now reject.now }
{
    let (of_nodes, behind_nodes) = bytes.split_at_mut(slots * NodeRecord::LEN);
    put_filled(nodes, NodeRecord::BLANK, slots - nodes.len(), of_nodes);
    let (of_n_infos, behind_n_infos) = behind_nodes.split_at_mut(slots * NInfoRecord::LEN);
    put_filled(
        n_infos,
        NInfoRecord::BLANK,
        slots - n_infos.len(),
        of_n_infos,
    );
    let listed = slots / BLOCK_SIZE;
    let (of_blocks, of_reject) = behind_n_infos.split_at_mut(listed * BlockRecord::LEN);
    put_filled(blocks, BlockRecord::BLANK, listed - blocks.len(), of_blocks);
    put_records(reject, of_reject);
}
