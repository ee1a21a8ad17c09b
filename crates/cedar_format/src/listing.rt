//! Lists of records, in large pieces.

ghost use Rattle.std.specs.Prelude.{◌*◌, ◌++◌, ◌+◌, ◌≡◌, ◌≤◌, [], All, flat_map, IfErr, length};
ghost use Rattle.std.specs.Prelude.{OnOk, replicate, true, vec_capacity, vec_len};
ghost use Rattle.cedar_format.specs.Words.{Consumes, DeviceAppends, EndsShort, filled_list};
ghost use Rattle.cedar_format.specs.Words.{has_failed, IsIo, Misses, ReadsRecords, TellsBreaks};

use crate::buffer::BUFFER_LEN;
use crate::error::CedarPersistenceError;
use crate::numbers::write_bytes;
use crate::record::Record;
use crate::source::Source;
use device_lines::Watched;
use std::alloc::Allocator;
use std::io::Write;

/// Reads a list of a given number of records.
pub(crate) fn read_records<S: Source, T: Record, A: Allocator>(
    reader: &mut S,
    count: usize,
    records: &mut Vec<T, A>,
) -> Result<(), CedarPersistenceError>
    requires empty { records.old.items ≡ [] }
    requires room { count ≤ vec_capacity records.old }
    ensures count { OnOk result (vec_len records.new ≡ count) }
    ensures capacity { OnOk result (vec_capacity records.new ≡ vec_capacity records.old) }
    ensures bytes { OnOk result (Consumes (S.remaining reader.old) (S.remaining reader.new) (flat_map T.bytes_of records.new.items)) }
    ensures fits { OnOk result (All T.Fits records.new.items) }
    ensures len { OnOk result (length (flat_map T.bytes_of records.new.items) ≡ count * T.LEN) }
    ensures misses { IfErr result (Misses (S.remaining reader.old) (S.failed reader.new) (count * T.LEN)) }
    ensures short { IfErr result (EndsShort (S.remaining reader.old) (S.cut reader.new) (count * T.LEN)) }
    ensures failed { S.failed reader.old ≡ true → S.failed reader.new ≡ true }
    ensures told { TellsBreaks (S.broken reader.old) (S.broken reader.new) result }
{
    let mut buffer = [0u8; BUFFER_LEN];
    let most = BUFFER_LEN / T::LEN;
    while records.len() < count {
        let left = count - records.len();
        read_piece(reader, &mut buffer, left.min(most), records)?;
    }
    Ok(())
}

/// Reads as many further records as fit in the buffer.
fn read_piece<S: Source, T: Record, A: Allocator>(
    reader: &mut S,
    buffer: &mut [u8; BUFFER_LEN],
    count: usize,
    records: &mut Vec<T, A>,
) -> Result<(), CedarPersistenceError>
    requires piece { count * T.LEN ≤ 16384 }
    requires room { vec_len records.old + count ≤ vec_capacity records.old }
    requires fits { All T.Fits records.old.items }
    ensures count { OnOk result (vec_len records.new ≡ vec_len records.old + count) }
    ensures capacity { vec_capacity records.new ≡ vec_capacity records.old }
    ensures bytes { OnOk result (ReadsRecords T.bytes_of (S.remaining reader.old) (S.remaining reader.new) records.old.items records.new.items) }
    ensures fits { OnOk result (All T.Fits records.new.items) }
    ensures misses { IfErr result (Misses (S.remaining reader.old) (S.failed reader.new) (count * T.LEN)) }
    ensures short { IfErr result (EndsShort (S.remaining reader.old) (S.cut reader.new) (count * T.LEN)) }
    ensures failed { S.failed reader.old ≡ true → S.failed reader.new ≡ true }
    ensures told { TellsBreaks (S.broken reader.old) (S.broken reader.new) result }
{
    let bytes = &mut buffer[..count * T::LEN];
    reader.fill(bytes)?;
    take_records(bytes, count, records);
    Ok(())
}

/// Takes the records that some bytes encode.
fn take_records<T: Record, A: Allocator>(bytes: &[u8], count: usize, records: &mut Vec<T, A>)
    requires len { length bytes.now ≡ count * T.LEN }
    requires room { vec_len records.old + count ≤ vec_capacity records.old }
    requires fits { All T.Fits records.old.items }
    ensures count { vec_len records.new ≡ vec_len records.old + count }
    ensures capacity { vec_capacity records.new ≡ vec_capacity records.old }
    ensures bytes { flat_map T.bytes_of records.new.items ≡ flat_map T.bytes_of records.old.items ++ bytes.now }
    ensures fits { All T.Fits records.new.items }
{
    let mut rest = bytes;
    for _ in 0..count {
        records.push_reserved(T::take_from(&mut rest));
    }
}

/// Fills a list up to a length, within the room that it has.
pub(crate) fn fill_up<T: Record, A: Allocator>(records: &mut Vec<T, A>, len: usize, blank: T)
    requires { len ≤ vec_capacity records.old }
    ensures { records.new.items ≡ filled_list blank len records.old.items }
{
    while records.len() < len {
        records.push_reserved(blank);
    }
}

/// Writes a list of records, as many at once as fit in the buffer, whatever it held before.
pub(crate) fn write_records<W: Write, T: Record>(
    writer: &mut Watched<W>,
    buffer: &mut [u8; BUFFER_LEN],
    records: &[T],
) -> Result<(), CedarPersistenceError>
    ensures bytes { OnOk result (DeviceAppends W.contents writer.old writer.new (flat_map T.bytes_of records.now)) }
    ensures fits { OnOk result (All T.Fits records.now) }
    ensures err { IfErr result (λ e. IsIo e × (has_failed writer.new ≡ true)) }
    ensures failed { has_failed writer.old ≡ true → has_failed writer.new ≡ true }
{
    let most = BUFFER_LEN / T::LEN;
    let mut done = 0;
    while done < records.len() {
        let count = (records.len() - done).min(most);
        write_piece(writer, buffer, &records[done..done + count])?;
        done += count;
    }
    Ok(())
}

/// Writes records that fit in the buffer together.
fn write_piece<W: Write, T: Record>(
    writer: &mut Watched<W>,
    buffer: &mut [u8; BUFFER_LEN],
    records: &[T],
) -> Result<(), CedarPersistenceError>
    requires piece { length records.now * T.LEN ≤ 16384 }
    ensures bytes { OnOk result (DeviceAppends W.contents writer.old writer.new (flat_map T.bytes_of records.now)) }
    ensures fits { OnOk result (All T.Fits records.now) }
    ensures err { IfErr result (λ e. IsIo e × (has_failed writer.new ≡ true)) }
    ensures failed { has_failed writer.old ≡ true → has_failed writer.new ≡ true }
{
    let bytes = &mut buffer[..records.len() * T::LEN];
    put_records(records, bytes);
    write_bytes(writer, bytes)
}

/// Writes a list of records, and after it as many blanks as it lacks up to `len`. These are written in pieces too, whatever the buffer
/// held before.
pub(crate) fn write_filled<W: Write, T: Record>(
    writer: &mut Watched<W>,
    buffer: &mut [u8; BUFFER_LEN],
    records: &[T],
    len: usize,
    blank: T,
) -> Result<(), CedarPersistenceError>
    ensures bytes { OnOk result (DeviceAppends W.contents writer.old writer.new (flat_map T.bytes_of (filled_list blank len records.now))) }
    ensures fits { OnOk result (All T.Fits (filled_list blank len records.now)) }
    ensures err { IfErr result (λ e. IsIo e × (has_failed writer.new ≡ true)) }
    ensures failed { has_failed writer.old ≡ true → has_failed writer.new ≡ true }
{
    write_records(writer, buffer, records)?;
    write_blanks(writer, buffer, len.saturating_sub(records.len()), blank)
}

/// Writes a given number of blanks, as many at once as fit in the buffer.
fn write_blanks<W: Write, T: Record>(
    writer: &mut Watched<W>,
    buffer: &mut [u8; BUFFER_LEN],
    count: usize,
    blank: T,
) -> Result<(), CedarPersistenceError>
    ensures bytes { OnOk result (DeviceAppends W.contents writer.old writer.new (flat_map T.bytes_of (replicate count blank))) }
    ensures fits { OnOk result (All T.Fits (replicate count blank)) }
    ensures err { IfErr result (λ e. IsIo e × (has_failed writer.new ≡ true)) }
    ensures failed { has_failed writer.old ≡ true → has_failed writer.new ≡ true }
{
    let most = BUFFER_LEN / T::LEN;
    let mut done = 0;
    while done < count {
        let piece = (count - done).min(most);
        write_piece_of(writer, buffer, piece, blank)?;
        done += piece;
    }
    Ok(())
}

/// Writes a given number of blanks, which fit in the buffer together.
fn write_piece_of<W: Write, T: Record>(
    writer: &mut Watched<W>,
    buffer: &mut [u8; BUFFER_LEN],
    count: usize,
    blank: T,
) -> Result<(), CedarPersistenceError>
    requires piece { count * T.LEN ≤ 16384 }
    ensures bytes { OnOk result (DeviceAppends W.contents writer.old writer.new (flat_map T.bytes_of (replicate count blank))) }
    ensures fits { OnOk result (All T.Fits (replicate count blank)) }
    ensures err { IfErr result (λ e. IsIo e × (has_failed writer.new ≡ true)) }
    ensures failed { has_failed writer.old ≡ true → has_failed writer.new ≡ true }
{
    let bytes = &mut buffer[..count * T::LEN];
    put_blanks(blank, count, bytes);
    write_bytes(writer, bytes)
}

/// Fills some bytes with those of records, and with those of a given number of blanks after them.
pub(crate) fn put_filled<T: Record>(records: &[T], blank: T, count: usize, bytes: &mut [u8])
    requires len { length bytes.old ≡ length records.now * T.LEN + count * T.LEN }
    ensures { bytes.new ≡ flat_map T.bytes_of (records.now ++ replicate count blank) }
{
    let (front, back) = bytes.split_at_mut(records.len() * T::LEN);
    put_records(records, front);
    put_blanks(blank, count, back);
}

/// Fills some bytes with those of a given number of blanks.
fn put_blanks<T: Record>(blank: T, count: usize, bytes: &mut [u8])
    requires len { length bytes.old ≡ count * T.LEN }
    ensures bytes { bytes.new ≡ flat_map T.bytes_of (replicate count blank) }
    ensures fits { All T.Fits (replicate count blank) }
{
    let mut at = 0;
    for _ in 0..count {
        blank.write_at(bytes, at);
        at += T::LEN;
    }
}

/// Fills some bytes with those of records. No room is tested for a single record.
pub(crate) fn put_records<T: Record>(records: &[T], bytes: &mut [u8])
    requires len { length bytes.old ≡ length records.now * T.LEN }
    ensures bytes { bytes.new ≡ flat_map T.bytes_of records.now }
    ensures fits { All T.Fits records.now }
{
    let mut at = 0;
    for record in records {
        record.write_at(bytes, at);
        at += T::LEN;
    }
}
