//! Records, and whether they are whole.

ghost use Rattle.std.specs.Prelude.{◌+◌, ◌<◌, ◌∷◌, ◌≡◌, ◌≤◌, [], drop, false};
ghost use Rattle.std.specs.Prelude.{IfNone, IfSome, length};
ghost use Rattle.cedar_salvage.specs.Words.{first_changes, format_of, found_in};
ghost use Rattle.cedar_salvage.specs.Words.{is_whole, payloads_in};

use crate::change::{is_change, number};
use cedar_journal::{Format, PLAIN_HEADER, SUMMED_HEADER, first_payload};
use crc32c::crc32c;

/// Returns the format that the header of a file names, or None if it has no whole header.
pub fn format_of(bytes: &[u8]) -> Option<Format>
    //= The version of a file is the one that its header names.
    ensures { result ≡ format_of bytes.now }
{
    if bytes.starts_with(&SUMMED_HEADER) {
        return Some(Format::Summed);
    }
    if bytes.starts_with(&PLAIN_HEADER) {
        return Some(Format::Plain);
    }
    None
}

/// Returns the payload of the record of version 2 at the start, if it is whole: its gate is open, its sum is right, and it is a change.
/// The sum comes last, since it takes the longest.
pub(crate) fn whole_payload(bytes: &[u8]) -> Option<&[u8]>
    ensures some { IfSome result (λ p. 9 + length p.now ≤ length bytes.now) }
    ensures read { IfSome result (λ p. found_in bytes.now ≡ p.now ∷ found_in (drop (9 + length p.now) bytes.now)) }
    ensures none { IfNone result (is_whole bytes.now ≡ false) }
{
    if bytes.len() < 9 {
        return None;
    }
    if bytes[0] == 0 {
        return None;
    }
    let len = number(bytes[5], bytes[6], bytes[7], bytes[8]);
    if len > bytes.len() - 9 {
        return None;
    }
    let payload = &bytes[9..9 + len];
    if !is_change(payload) {
        return None;
    }
    if crc32c(&bytes[5..9 + len]) as usize != number(bytes[1], bytes[2], bytes[3], bytes[4]) {
        return None;
    }
    Some(payload)
}

/// Returns the payload of the first whole record of version 2 among some bytes, and what follows that record.
pub(crate) fn next_whole(bytes: &[u8]) -> Option<(&[u8], &[u8])>
    ensures less { IfSome result (λ found. length found.1.now < length bytes.now) }
    ensures some { IfSome result (λ found. found_in bytes.now ≡ found.0.now ∷ found_in found.1.now) }
    ensures none { IfNone result (found_in bytes.now ≡ []) }
{
    let mut at = 0;
    while at < bytes.len() {
        match whole_payload(&bytes[at..]) {
            Some(payload) => return Some((payload, &bytes[at + 9 + payload.len()..])),
            None => at += 1,
        }
    }
    None
}

/// Returns the payload of the record of version 1 at the start, if it counts and is a change.
pub(crate) fn plain_change(bytes: &[u8]) -> Option<&[u8]>
    ensures some { IfSome result (λ p. 5 + length p.now ≤ length bytes.now) }
    ensures read { IfSome result (λ p. first_changes (payloads_in bytes.now)
        ≡ p.now ∷ first_changes (payloads_in (drop (5 + length p.now) bytes.now))) }
    ensures none { IfNone result (first_changes (payloads_in bytes.now) ≡ []) }
{
    match first_payload(bytes) {
        Some(payload) => {
            if !is_change(payload) {
                return None;
            }
            Some(payload)
        }
        None => None,
    }
}
