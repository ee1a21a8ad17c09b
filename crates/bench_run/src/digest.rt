//! A digest of answers.

/// What answers are mixed with: an odd number near 2^64 divided by the golden ratio.
const FACTOR: u64 = 0x9E37_79B9_7F4A_7C15;

/// A digest of the answers so far, in their order.
#[derive(Clone, Copy)]
pub(crate) struct Digest {
    sum: u64,
}

impl Digest {
    /// Returns the digest of no answer.
    pub(crate) fn new() -> Digest {
        Digest { sum: FACTOR }
    }

    /// Adds a number.
    #[inline(always)]
    pub(crate) fn add(&mut self, number: u64) {
        self.sum = (self.sum ^ number).wrapping_mul(FACTOR).rotate_left(23);
    }

    /// Adds a value.
    #[inline(always)]
    pub(crate) fn add_value(&mut self, value: i32) {
        self.add(u64::from(value.cast_unsigned()).wrapping_add(1));
    }

    /// Adds a value, or that there is none.
    #[inline(always)]
    pub(crate) fn add_found(&mut self, found: Option<i32>) {
        match found {
            Some(value) => self.add_value(value),
            None => self.add(0),
        }
    }

    /// Adds a text: its length and its bytes, eight at a time.
    pub(crate) fn add_bytes(&mut self, bytes: &[u8]) {
        self.add(bytes.len() as u64);
        for part in bytes.chunks(8) {
            if let [a, b, c, d, e, f, g, h] = part {
                self.add(u64::from_le_bytes([*a, *b, *c, *d, *e, *f, *g, *h]));
            } else {
                self.add_last(part);
            }
        }
    }

    /// Adds the last bytes of a text, which are fewer than eight.
    fn add_last(&mut self, bytes: &[u8]) {
        let mut number: u64 = 0;
        for byte in bytes {
            number = (number << 8) | u64::from(*byte);
        }
        self.add(number);
    }

    /// Returns the digest as a number.
    pub(crate) fn sum(self) -> u64 {
        self.sum
    }
}
