//! Digits read as bytes, and bytes written as digits.

ghost use Rattle.std.specs.Prelude.{◌%◌, ◌*◌, ◌+◌, ◌/◌, ◌<◌, ◌≡◌, ◌≤◌, drop, IfSome, is_err};
ghost use Rattle.std.specs.Prelude.{length, MatchOption, Ok, option_map, slice_index, take, true};
ghost use Rattle.cedar_hex.specs.Words.{decode_of, decode_pairs, encode_lower};
ghost use Rattle.cedar_hex.specs.Words.{hex_digit_value, lower_digits, result_ok};

/// Reads hexadecimal digits of either case, two for each byte, writes the bytes to the start of `room`, and returns how many they are.
///
/// Returns `None` for an odd number of digits, and for a text that has another byte; then the first bytes of `room`, half as many as
/// the text has, may have changed. It allocates nothing.
///
/// ```
/// let mut room = [0; 4];
/// assert_eq!(rt; decode_into(b"6B69", &mut room), Some(2));
/// assert_eq!(rt; &room, &[107, 105, 0, 0]);
/// assert_eq!(rt; decode_into(b"6g", &mut room), None);
/// ```
pub fn decode_into(text: &[u8], room: &mut [u8]) -> Option<usize>
    requires { length text.now ≤ 2 * length room.old }

    //= Digits are read as the bytes that they represent, two digits each, in either case; an odd number of them and a text with another
    //  byte are refused (`decode_of`).
    ensures bytes { option_map (λ n. take n room.new) result ≡ result_ok (decode_of text.now) }

    //= It never returns more bytes than the room has.
    ensures within { IfSome result (λ n. n ≤ length room.old) }

    //= Only the first bytes of the room change, half as many as the text has, whether it is refused or not. [with len]
    ensures behind { drop (length text.now / 2) room.new ≡ drop (length text.now / 2) room.old }
    ensures len { length room.new ≡ length room.old }
{
    if text.len() % 2 != 0 {
        return None;
    }
    let count = text.len() / 2;
    let values = decode_pairs(text, &mut room[..count]);
    (values < 16).then_some(count)
}

/// Writes the two hexadecimal digits of each byte, in lower case. `text` has two bytes for each of them. It allocates nothing.
///
/// ```
/// let mut text = [0; 4];
/// encode_into(b"ki", &mut text);
/// assert_eq!(rt; &text, b"6b69");
/// ```
pub fn encode_into(bytes: &[u8], text: &mut [u8])
    requires { length text.old ≡ 2 * length bytes.now }

    //= Bytes are written as their digits, two for each, in lower case (`encode_lower`).
    ensures { text.new ≡ encode_lower bytes.now }
{
    for i in 0..bytes.len() {
        let digits = digit_pair(bytes[i]);
        text[2 * i] = (digits % 256) as u8;
        text[2 * i + 1] = (digits / 256) as u8;
    }
}

/// Writes the byte of each two digits. Returns the bits of all their values together: 16 or more if a byte of the text isn't a digit.
fn decode_pairs(text: &[u8], bytes: &mut [u8]) -> u8
    requires { length text.now ≡ 2 * length bytes.old }
    ensures digits { result < 16 → decode_pairs 0 text.now ≡ Ok bytes.new }
    ensures others { 16 ≤ result → is_err (decode_pairs 0 text.now) ≡ true }
{
    let mut values = 0;
    for i in 0..bytes.len() {
        let high = digit_value(text[2 * i]);
        let low = digit_value(text[2 * i + 1]);
        bytes[i] = high.wrapping_mul(16).wrapping_add(low);
        // A byte that is no digit is found after the loop, so that no branch in it depends on the bytes.
        values |= high | low;
    }
    values
}

/// Returns the value of a digit of either case, or 16 or more for a byte that isn't one.
pub(crate) fn digit_value(byte: u8) -> u8
    ensures { MatchOption (hex_digit_value byte) (16 ≤ result) (λ value. result ≡ value) }
{
    // The first sum moves `0` to `9` to the top of a byte's range. All others then stay below 240, and the last difference makes them 16 or
    // more.
    let figure = byte.wrapping_add(198).saturating_sub(6).wrapping_sub(240);
    // Without the bit of the case, a letter counts from 10. A byte before `A` wraps round to the top, and stays there.
    let letter = (byte & 0xdf).wrapping_sub(b'A').saturating_add(10);
    figure.min(letter)
}

/// Returns the two digits of a byte, in lower case: the first one is the low half of the word.
pub(crate) fn digit_pair(byte: u8) -> u16
    ensures { result ≡ slice_index lower_digits (byte / 16) + 256 * slice_index lower_digits (byte % 16) }
{
    let byte = u16::from(byte);
    let values = byte / 16 + byte % 16 * 256;
    // A half whose value is 10 or more has 1 here, since it comes to 16 or more, and no sum is carried from one half into the other.
    let letters = (values + 0x0606) / 16 & 0x0101;
    values + 0x3030 + letters * 39
}
