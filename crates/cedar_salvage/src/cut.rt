//! What an opening would cut off a file.

ghost use Rattle.std.specs.Prelude.{◌*◌, ◌<◌, ◌≡◌, ◌⊎◌, [], false, length, true};
ghost use Rattle.cedar_salvage.specs.Words.{behind_record, cuts_records, found_in, has_record};
ghost use Rattle.cedar_salvage.specs.Words.{has_some, HasExtent, look_at, looks, TakesLong};

use crate::change::number;
use crate::record::whole_payload;
use cedar_journal::{Extent, Format, first_payload};
use cedar_store::BATCH;

/// How often each byte behind the end is looked at, on average, until it isn't looked any further.
const LOOKS: u128 = 16;

/// Returns whether an opening of a file of this extent may cut off more than the record under way: a whole record of version 2 somewhere
/// behind the end, or of version 1 a record that counts right behind the one that is closed. By what is supposed of a disk a crash may
/// leave such bytes too, but no test has found one that did. So keep them, and open the file.
///
/// It takes a time of at most so many bytes as are behind the end, times 16. If that isn't enough to say of each position that no whole
/// record begins there, it returns true.
pub fn may_cut_records(bytes: &[u8], extent: Extent) -> bool
    requires extent { HasExtent bytes.now extent }
    //= An opening of which this is false cuts off no whole record.
    ensures none { result ≡ false → cuts_records bytes.now extent ≡ false }
    //= If it is true, the opening cuts off whole records, or all that would have to be looked at to say that there are none is more than 16
    //  times as long as what it cuts off.
    ensures some { result ≡ true → (cuts_records bytes.now extent ≡ true) ⊎ TakesLong bytes.now extent }
{
    match extent {
        Extent::New => false,
        Extent::Until(Format::Summed, end) => may_have_whole(&bytes[end..]),
        Extent::Until(Format::Plain, end) => has_record_behind(&bytes[end..]),
    }
}

/// Whether a whole record of version 2 is anywhere among some bytes, or it would take long to say that none does.
fn may_have_whole(bytes: &[u8]) -> bool
    ensures none { result ≡ false → has_some (found_in bytes.now) ≡ false }
    ensures some { result ≡ true → (has_some (found_in bytes.now) ≡ true) ⊎ (16 * length bytes.now < looks bytes.now) }
{
    let mut left = LOOKS * bytes.len() as u128;
    let mut at = 0;
    while at < bytes.len() {
        let look = look_at(&bytes[at..]) as u128;
        if look > left {
            return true;
        }
        left -= look;
        match whole_payload(&bytes[at..]) {
            Some(_) => return true,
            None => at += 1,
        }
    }
    false
}

/// How many bytes are looked at to say whether a record of version 2 at the start is whole: none if its gate is closed, if its payload
/// begins with no operation, or if its length doesn't fit.
fn look_at(bytes: &[u8]) -> usize
    ensures { result ≡ look_at bytes.now }
{
    if bytes.len() < 10 {
        return 0;
    }
    if bytes[0] == 0 {
        return 0;
    }
    if bytes[9] > BATCH {
        return 0;
    }
    let len = number(bytes[5], bytes[6], bytes[7], bytes[8]);
    if len > bytes.len() - 9 {
        return 0;
    }
    9 + len
}

/// Whether a record of version 1 that counts is behind the one at the start, whatever that one's gate is.
fn has_record_behind(bytes: &[u8]) -> bool
    ensures { result ≡ has_record (behind_record bytes.now) }
{
    if bytes.len() < 5 {
        return false;
    }
    let len = number(bytes[1], bytes[2], bytes[3], bytes[4]);
    if len > bytes.len() - 5 {
        return false;
    }
    match first_payload(&bytes[5 + len..]) {
        Some(_) => true,
        None => false,
    }
}
