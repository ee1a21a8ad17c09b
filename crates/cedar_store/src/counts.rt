//! How many records a file has.

ghost use Rattle.std.specs.Prelude.{◌≡◌, length, Some};
ghost use Rattle.cedar_store.specs.Words.{payloads_read, record_count, records_read};
ghost use Rattle.cedar_store.specs.Words.{AreUndamaged, HasExtent};

use cedar_journal::{Extent, Format, HEADER_LEN, next_payload};

/// Returns how many records a file has, of its bytes and of how far it goes, as [`words_of`](crate::words_of) and `extent_of` of
/// `cedar_journal` find it. A new file has none.
pub fn count_records(bytes: &[u8], extent: Extent) -> usize
    requires extent { HasExtent bytes.now extent }
    //= The records of a file are counted, of its bytes and how far it goes.
    ensures { record_count bytes.now ≡ Some result }
{
    match extent {
        Extent::New => 0,
        Extent::Until(format, _) => count_in(format, &bytes[HEADER_LEN..]),
    }
}

/// How many whole records these bytes begin with.
fn count_in(format: Format, bytes: &[u8]) -> usize
    requires sound { AreUndamaged format bytes.now }
    ensures { result ≡ length (payloads_read (records_read format bytes.now)) }
{
    let mut at = 0;
    let mut records = 0;
    while let Some(payload) = next_payload(format, &bytes[at..]) {
        at += format.overhead() + payload.len();
        records += 1;
    }
    records
}
