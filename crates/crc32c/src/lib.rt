//! CRC-32C (Castagnoli): a sum of 32 bits over some bytes. A change of one bit or of two bits of them changes it, and so does any change
//! within 32 bits in a row. It is no protection against somebody who wants to deceive.
#![tactic(auto)]

mod sum;
mod table;

pub use sum::{crc32c, crc32c_joined};
