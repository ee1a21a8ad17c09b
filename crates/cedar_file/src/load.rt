//! How a table is loaded, and tested before anybody gets it.

ghost use Rattle.std.specs.Prelude.{◌*◌, ◌+◌, ◌^◌, ◌≡◌, ◌≤◌, IfErr};
ghost use Rattle.cedar_file.specs.Words.{CorruptData, CountsWithin, fields, file_fields, IsFile};
ghost use Rattle.cedar_file.specs.Words.{IsIo, IsLack, IsSlotLimit, layout_byte, LoadsBy, need};
ghost use Rattle.cedar_file.specs.Words.{refusal, refusal_of, TellsBreaks, trial_refusal};

use crate::check::check_well_formed;
use cedar_format::{CedarPersistenceError, Decoded, Header, Source, decode_counted};
use cedar_table::{Corrupt, Layout, Parts, Table, Ticks};
use std::alloc::Allocator;
use std::sync::ledger::Ledger;

/// Loads the table that was saved. It counts the bytes that it requests from the allocator, and the records that it reads to
/// test the table.
///
/// # Errors
/// The first refusal of the header and of the input's length, if there is one; `CorruptData` if the bytes are of no
/// well-formed table; `AllocationFailed` with the number of elements if an allocation failed, once the header has
/// passed; `Io` if the reader failed, which bytes in memory never do.
pub fn load_table<
    L: Layout,
    const SLOTS: usize,
    A: Allocator + Copy,
    S: Source,
    C: Ledger,
    D: Ledger,
>(
    alloc: A,
    reader: &mut S,
    memory_limit: usize,
    asked: &mut Ticks<C>,
    reads: &mut Ticks<D>,
) -> Result<Table<L, SLOTS, A>, CedarPersistenceError>
    requires limit { IsSlotLimit SLOTS }

    //= A table is loaded only from exactly its bytes, and it is well-formed, whatever the reader does. [by bytes, formed, LoadsBy]
    //= If the reader's bytes are known and it doesn't fail, they decide the result: the table that they encode, or the first refusal; or a
    //  list found no room. [by answer]
    //= If it fails, they decide the result too, unless that is `Io`, or a read returned an end of the input as a fault. [by decided]
    //= `Io` is returned only if the reader failed, and a lack of memory only if a list of a header that has passed found no room. [by io,
    //  lacks]
    ensures loads { LoadsBy (λ t. fields t) L.kind SLOTS memory_limit (S.remaining reader.old) (S.remaining reader.new) (S.failed reader.new) (S.cut reader.new) result }

    //= If a read was broken off, by a fault that is neither an end of the input nor an interruption, the result is neither a table nor
    //  `Truncated`. [by TellsBreaks]
    ensures told { TellsBreaks (S.broken reader.old) (S.broken reader.new) result }

    //= By their counts nothing is requested from the allocator and no record is read for the test before the header has passed, and then no
    //  more than the need and sixteen records a slot and 1024. [with reads]
    ensures asked { CountsWithin (layout_byte L.kind) SLOTS memory_limit (S.remaining reader.old) need asked.old asked.new }
    ensures reads { CountsWithin (layout_byte L.kind) SLOTS memory_limit (S.remaining reader.old) (λ h. 16 * h.capacity + 1024) reads.old reads.new }
{
    let decoded = decode_counted(alloc, reader, L::file_byte(), SLOTS, memory_limit, asked)?;
    check_trials(&decoded.header)?;
    let table = table_of(decoded, memory_limit);
    match check_well_formed(&table, reads) {
        Ok(()) => Ok(table),
        Err(corrupt) => Err(corrupt_data(corrupt)),
    }
}

/// Returns the table of a file's fields. Its lists are moved and not copied; whether it is well-formed isn't tested.
fn table_of<L: Layout, const SLOTS: usize, A: Allocator>(
    decoded: Decoded<A>,
    memory_limit: usize,
) -> Table<L, SLOTS, A>
    requires slots { SLOTS ≤ 2 ^ 30 }
    requires file { IsFile SLOTS memory_limit decoded.header decoded.nodes.items decoded.n_infos.items decoded.blocks.items decoded.reject.items }
    ensures { fields result ≡ file_fields L.kind decoded.header decoded.nodes.items decoded.n_infos.items decoded.blocks.items decoded.reject.items }
{
    let header = decoded.header;
    Table::from_records(Parts {
        ordered: header.ordered,
        entries: header.entries,
        size: header.size,
        max_trial: header.max_trial,
        full_head: header.full_head,
        closed_head: header.closed_head,
        open_head: header.open_head,
        nodes: decoded.nodes,
        n_infos: decoded.n_infos,
        blocks: decoded.blocks,
        reject: decoded.reject,
    })
}

/// Tests the number of trials that a header gives.
fn check_trials(header: &Header) -> Result<(), CedarPersistenceError>
    ensures refusal { refusal result ≡ trial_refusal header.now }
    ensures io { IfErr result (λ e. IsIo e → ⊥) }
    ensures room { IfErr result (λ e. IsLack e → ⊥) }
{
    if header.max_trial > 0 {
        return Ok(());
    }
    Err(CedarPersistenceError::InvalidHeader {
        field: "max_trial",
        value: u64::from(u32::from_le_bytes(header.max_trial.to_le_bytes())),
    })
}

/// Returns the error for a table that isn't well-formed.
fn corrupt_data(corrupt: Corrupt) -> CedarPersistenceError
    ensures refusal { refusal_of result ≡ CorruptData }
    ensures io { IsIo result → ⊥ }
    ensures room { IsLack result → ⊥ }
{
    CedarPersistenceError::CorruptData {
        section: corrupt.section,
        index: corrupt.index,
        reason: corrupt.reason,
    }
}
