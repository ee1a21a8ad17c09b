//! Records as bytes: what is at the start of some bytes, where whole records end, and how far the file of a journal goes.

ghost use Rattle.std.specs.Prelude.{◌*◌, ◌+◌, ◌↔◌, ◌≡◌, ◌≤◌, [], drop, false, IfErr, IfNone, IfOk};
ghost use Rattle.std.specs.Prelude.{IfSome, IsErr, length, None, Some, true};
ghost use Rattle.cedar_journal.specs.Words.{AreUndamaged, BeginsWithRecord, behind_record, damaged};
ghost use Rattle.cedar_journal.specs.Words.{ends_closed, file_payloads, file_reading, format_of};
ghost use Rattle.cedar_journal.specs.Words.{has_record, HasExtent, HasRecords, is_begun, IsFault};
ghost use Rattle.cedar_journal.specs.Words.{IsFoundThere, opening, overhead, payload, records_read};
ghost use Rattle.cedar_journal.specs.Words.{stands};

use crate::Format;
use crc32c::crc32c;

/// Returns the payload of the record of version 1 at the start, if its gate is open and all of it is there.
///
/// The next record begins 5 bytes and the payload's length further on.
pub fn first_payload(bytes: &[u8]) -> Option<&[u8]>
    //= The payload of the record at the start is returned exactly if that record counts, and the next record begins after it. [with behind,
    //  none]
    ensures some { IfSome result (λ p. (has_record bytes.now ≡ true) × (p.now ≡ payload bytes.now)) }
    ensures behind { IfSome result (λ p. (5 + length p.now ≤ length bytes.now) × (drop (5 + length p.now) bytes.now ≡ behind_record bytes.now)) }
    ensures none { IfNone result (has_record bytes.now ≡ false) }
{
    if bytes.len() < 5 {
        return None;
    }
    if bytes[0] != 1 {
        return None;
    }
    let len = number(bytes[1], bytes[2], bytes[3], bytes[4]);
    if len > bytes.len() - 5 {
        return None;
    }
    Some(&bytes[5..5 + len])
}

// Returns the number of four bytes, the lowest first.
fn number(a: u8, b: u8, c: u8, d: u8) -> usize
    ensures { result ≡ a + 256 * b + 65536 * c + 16777216 * d }
{
    a as usize + 256 * (b as usize) + 65536 * (c as usize) + 16777216 * (d as usize)
}

/// Returns the payload of the record at the start of records that `extent_of` has accepted. The next record begins so many bytes further on
/// as the payload has and the format adds. The sum isn't looked at again.
pub fn next_payload(format: Format, bytes: &[u8]) -> Option<&[u8]>
    //= Records of either format, none of which is damaged, are read one after another, as far as they count. [with read, none]
    ensures some { IfSome result (λ p. overhead format + length p.now ≤ length bytes.now) }
    ensures read { AreUndamaged format bytes.now → IfSome result (λ p. BeginsWithRecord format bytes.now p.now) }
    ensures none { AreUndamaged format bytes.now → IfNone result (records_read format bytes.now ≡ stands []) }
{
    match format {
        Format::Plain => plain_payload(bytes),
        Format::Summed => summed_payload(bytes),
    }
}

// As `next_payload`, of version 1.
fn plain_payload(bytes: &[u8]) -> Option<&[u8]>
    ensures some { IfSome result (λ p. 5 + length p.now ≤ length bytes.now) }
    ensures read { IfSome result (λ p. BeginsWithRecord Format.Plain bytes.now p.now) }
    ensures none { IfNone result (records_read Format.Plain bytes.now ≡ stands []) }
{
    match first_payload(bytes) {
        Some(payload) => Some(payload),
        None => None,
    }
}

// As `next_payload`, of version 2.
fn summed_payload(bytes: &[u8]) -> Option<&[u8]>
    ensures some { IfSome result (λ p. 9 + length p.now ≤ length bytes.now) }
    ensures read { AreUndamaged Format.Summed bytes.now → IfSome result (λ p. BeginsWithRecord Format.Summed bytes.now p.now) }
    ensures none { AreUndamaged Format.Summed bytes.now → IfNone result (records_read Format.Summed bytes.now ≡ stands []) }
{
    if bytes.len() < 9 {
        return None;
    }
    if bytes[0] == 0 {
        return None;
    }
    let len = number(bytes[5], bytes[6], bytes[7], bytes[8]);
    if len > bytes.len() - 9 {
        return None;
    }
    Some(&bytes[9..9 + len])
}

/// What is at the start of some records.
#[derive(Clone, Copy)]
enum Next {
    /// A record of so many bytes.
    Record(usize),
    /// Nothing that counts.
    End,
    /// A record that counts, and isn't whole or has another sum.
    Damaged,
}

// Looks at the start of some records.
fn next_of(format: Format, bytes: &[u8]) -> Next
    ensures { IsFoundThere format bytes.now result }
{
    match format {
        Format::Plain => next_plain(bytes),
        Format::Summed => next_summed(bytes),
    }
}

// As `next_of`, of version 1.
fn next_plain(bytes: &[u8]) -> Next
    ensures { IsFoundThere Format.Plain bytes.now result }
{
    match first_payload(bytes) {
        Some(payload) => Next::Record(5 + payload.len()),
        None => Next::End,
    }
}

// As `next_of`, of version 2. A closed gate is 0. A crash leaves any other one alone at the end, or in front of a whole record.
fn next_summed(bytes: &[u8]) -> Next
    ensures { IsFoundThere Format.Summed bytes.now result }
{
    if bytes.len() <= 1 {
        return Next::End;
    }
    if bytes[0] == 0 {
        return Next::End;
    }
    if bytes.len() < 9 {
        return Next::Damaged;
    }
    let len = number(bytes[5], bytes[6], bytes[7], bytes[8]);
    if len > bytes.len() - 9 {
        return Next::Damaged;
    }
    if crc32c(&bytes[5..9 + len]) as usize != number(bytes[1], bytes[2], bytes[3], bytes[4]) {
        return Next::Damaged;
    }
    Next::Record(9 + len)
}

/// How many bytes the header has: a record of version 1, whose payload names what the file is.
pub const HEADER_LEN: usize = 13;

/// The header of version 1: its payload is "CEDARJ" and two bytes 0.
pub const PLAIN_HEADER: [u8; HEADER_LEN] = *b"\x01\x08\0\0\0CEDARJ\0\0";

/// The header of version 2: its payload is "CEDARJ", the version, and what is missing in that to 255. So no flip of fewer than eight bits
/// makes the one header of the other.
pub const SUMMED_HEADER: [u8; HEADER_LEN] = *b"\x01\x08\0\0\0CEDARJ\x02\xfd";

/// The bytes after the gate of a new file's header, and the closed gate after it.
pub(crate) const HEADER_FRAME: [u8; HEADER_LEN] = *b"\x08\0\0\0CEDARJ\x02\xfd\0";

/// The same of version 1.
const PLAIN_FRAME: [u8; HEADER_LEN] = *b"\x08\0\0\0CEDARJ\0\0\0";

/// Returns the gate of a record that counts.
pub(crate) fn open_gate(format: Format) -> u8
    ensures { result ≡ opening format }
{
    match format {
        Format::Plain => 1,
        Format::Summed => 255,
    }
}

/// How far a journal's file goes.
#[derive(Clone, Copy, Debug, PartialEq, Eq)]
pub enum Extent {
    /// It is new: empty, or a crash has cut its header short.
    New,
    /// Its records are of this format, and end at this byte; they begin at `HEADER_LEN`.
    Until(Format, usize),
}

/// What is wrong with a file.
#[derive(Clone, Copy, Debug, PartialEq, Eq)]
pub enum FileFault {
    /// It is of another kind.
    Foreign,
    /// The record that begins at this byte counts, and isn't whole or has another sum. No crash leaves one: somebody else has changed the
    /// file.
    Damaged(usize),
}

/// Returns how far a file with these bytes goes, whatever a crash has made of its end.
///
/// # Errors
/// `Foreign` if they are no journal's, `Damaged` if a record is damaged. A file of a single byte is taken for the beginning of one.
pub fn extent_of(bytes: &[u8]) -> Result<Extent, FileFault>
    //= `extent_of` returns how far a journal's file goes. It refuses exactly a file that represents no payloads: as foreign one of another
    //  kind, and as damaged one with a record that counts and isn't whole or has another sum, at the position of the first such record.
    //  [with refused, cause]
    ensures extent { IfOk result (λ extent. HasExtent bytes.now extent) }
    ensures refused { IsErr result ↔ (file_payloads bytes.now ≡ None) }
    ensures cause { IfErr result (λ fault. IsFault bytes.now fault) }
{
    match format_of(bytes) {
        Some(format) => match end_of(format, bytes) {
            Ok(end) => Ok(Extent::Until(format, end)),
            Err(at) => Err(FileFault::Damaged(at)),
        },
        None => {
            if is_begun(bytes) {
                return Ok(Extent::New);
            }
            Err(FileFault::Foreign)
        }
    }
}

/// Returns whether one byte is left behind a position, a closed gate.
pub(crate) fn ends_closed(bytes: &[u8], end: usize) -> bool
    requires { end ≤ length bytes.now }
    ensures { result ≡ ends_closed bytes.now end }
{
    bytes.len() - end == 1 && bytes[end] == 0
}

// Returns the format that the header of a file names.
fn format_of(bytes: &[u8]) -> Option<Format>
    ensures { result ≡ format_of bytes.now }
{
    if bytes.starts_with(&SUMMED_HEADER) {
        return Some(Format::Summed);
    }
    if bytes.starts_with(&PLAIN_HEADER) {
        return Some(Format::Plain);
    }
    None
}

// Returns where the whole records of a file end, or where a damaged one begins.
fn end_of(format: Format, bytes: &[u8]) -> Result<usize, usize>
    requires { format_of bytes.now ≡ Some format }
    ensures ok { IfOk result (λ end. HasRecords bytes.now format end) }
    ensures err { IfErr result (λ at. file_reading bytes.now ≡ Some (damaged at)) }
{
    let mut end = HEADER_LEN;
    let mut next = next_of(format, &bytes[end..]);
    while let Next::Record(size) = next {
        end += size;
        next = next_of(format, &bytes[end..]);
    }
    match next {
        Next::Damaged => Err(end),
        _ => Ok(end),
    }
}

// Returns whether these are the bytes of a header that a crash has cut short.
fn is_begun(bytes: &[u8]) -> bool
    ensures { result ≡ is_begun bytes.now }
{
    match bytes.split_first() {
        None => true,
        Some((gate, rest)) => {
            if HEADER_FRAME.starts_with(rest) {
                return true;
            }
            if PLAIN_FRAME.starts_with(rest) {
                return true;
            }
            *gate == 0 && bytes.len() <= HEADER_LEN + 1
        }
    }
}
