//! How a table is written.

ghost use Rattle.std.specs.Prelude.{◌++◌, ◌^◌, ◌≡◌, ◌≤◌, drop, IfErr, length, OnOk, take, true};
ghost use Rattle.cedar_file.specs.Words.{Appends, device_of, fields, FitsTable, has_failed};
ghost use Rattle.cedar_file.specs.Words.{header_of, IsIo, slots_listed, table_bytes};

use cedar_format::{
    CedarPersistenceError, HEADER_LEN, Header, Watched, listed_slots, put_header, put_lists,
    write_header, write_lists,
};
use cedar_table::{BLOCK_SIZE, Layout, Table};
use std::alloc::Allocator;
use std::io::Write;

/// Returns what the header of a table's file says, in a minor version.
fn header_of<L: Layout, const SLOTS: usize, A: Allocator>(
    table: &Table<L, SLOTS, A>,
    minor: u16,
) -> Header
    ensures { result ≡ header_of minor (fields table.now) }
{
    let slots_listed = listed_slots(minor, table.capacity(), table.size());
    Header {
        minor,
        ordered: table.ordered(),
        max_trial: table.max_trial(),
        full_head: table.full_head(),
        closed_head: table.closed_head(),
        open_head: table.open_head(),
        array_len: slots_listed,
        n_infos_len: slots_listed,
        blocks_len: slots_listed / BLOCK_SIZE,
        reject_len: table.reject_values().len(),
        capacity: table.capacity(),
        size: table.size(),
        entries: table.entries(),
    }
}

/// Returns the first `len` items, or all if there are fewer.
fn front<T>(items: &[T], len: usize) -> &[T]
    ensures { result.now ≡ take len items.now }
{
    &items[..items.len().min(len)]
}

/// Writes the bytes of a table in a minor version. It allocates nothing.
///
/// # Errors
/// `Io` if the writer failed.
pub fn write_table<L: Layout, const SLOTS: usize, A: Allocator, W: Write>(
    table: &Table<L, SLOTS, A>,
    minor: u16,
    writer: &mut Watched<W>,
) -> Result<(), CedarPersistenceError>
    //= It writes the bytes of a table in a version and nothing else. [with fits]
    ensures bytes { OnOk result (Appends (W.contents (device_of writer.old)) (W.contents (device_of writer.new)) (table_bytes minor (fields table.now))) }
    ensures fits { OnOk result (FitsTable minor (fields table.now)) }

    //= It fails only if its writer does.
    ensures err { IfErr result (λ e. IsIo e × (has_failed writer.new ≡ true)) }

    //= A writer that has failed stays failed.
    ensures failed { has_failed writer.old ≡ true → has_failed writer.new ≡ true }
{
    let header = header_of(table, minor);
    write_header(writer, L::file_byte(), header)?;
    let slots = header.array_len;
    let nodes = front(table.node_records(), slots);
    let n_infos = front(table.info_records(), slots);
    let blocks = front(table.block_records(), header.blocks_len);
    write_lists(writer, slots, nodes, n_infos, blocks, table.reject_values())
}

/// How many bytes the reject values have.
const REJECT_BYTES: usize = 514;

/// Returns how many slots the file of a table lists in a minor version.
fn slots_listed<L: Layout, const SLOTS: usize, A: Allocator>(
    table: &Table<L, SLOTS, A>,
    minor: u16,
) -> usize
    ensures count { result ≡ slots_listed minor (fields table.now) }
    ensures most { result ≤ 2 ^ 30 }
{
    listed_slots(minor, table.capacity(), table.size())
}

/// Returns how many bytes the file of a table has in a minor version: no record is looked at.
pub fn table_len<L: Layout, const SLOTS: usize, A: Allocator>(
    table: &Table<L, SLOTS, A>,
    minor: u16,
) -> usize
    //= This is how many bytes the file of a table has in a version.
    ensures { result ≡ length (table_bytes minor (fields table.now)) }
{
    let slots = slots_listed(table, minor);
    HEADER_LEN + 10 * slots + 20 * (slots / BLOCK_SIZE) + REJECT_BYTES
}

/// Puts the bytes of a table in a minor version at the front of others, and returns how many they are. It allocates nothing.
pub fn put_table<L: Layout, const SLOTS: usize, A: Allocator>(
    table: &Table<L, SLOTS, A>,
    minor: u16,
    bytes: &mut [u8],
) -> usize
    requires room { length (table_bytes minor (fields table.now)) ≤ length bytes.old }

    //= The bytes of a table in a version are put at the front, and those behind them stay. [with len]
    ensures bytes { bytes.new ≡ table_bytes minor (fields table.now) ++ drop result bytes.old }
    ensures len { result ≡ length (table_bytes minor (fields table.now)) }
{
    let len = table_len(table, minor);
    put_whole(table, minor, &mut bytes[..len]);
    len
}

/// Fills some bytes with those of a table in a minor version.
fn put_whole<L: Layout, const SLOTS: usize, A: Allocator>(
    table: &Table<L, SLOTS, A>,
    minor: u16,
    bytes: &mut [u8],
)
    requires len { length bytes.old ≡ length (table_bytes minor (fields table.now)) }
    ensures { bytes.new ≡ table_bytes minor (fields table.now) }
{
    let header = header_of(table, minor);
    let (of_header, of_lists) = bytes.split_at_mut(HEADER_LEN);
    put_header(of_header, L::file_byte(), header);
    let slots = header.array_len;
    let nodes = front(table.node_records(), slots);
    let n_infos = front(table.info_records(), slots);
    let blocks = front(table.block_records(), header.blocks_len);
    put_lists(
        of_lists,
        slots,
        nodes,
        n_infos,
        blocks,
        table.reject_values(),
    );
}
