//! The binary format of a table, versions 1.0 and 1.1: its exact bytes and its exact refusals; and what it is read from. A
//! table's fields say what a file holds, so nothing here needs the code of tables.
#![tactic(auto)]

mod body;
mod buffer;
mod error;
mod header;
mod laws;
mod listing;
mod numbers;
mod record;
mod reserve;
mod source;
mod texts;

pub use body::{Decoded, decode, decode_counted, put_lists, write_lists};
pub use cedar_slots::{BlockRecord, NInfoRecord, NodeRecord};
pub use device_lines::Watched;
pub use error::CedarPersistenceError;
pub use header::{
    FLAG_ORDERED, FULL_MINOR, HEADER_LEN, Header, LAYOUT, LITTLE_ENDIAN, MAGIC, MAJOR, MINOR,
    REDUCED_LAYOUT, listed_slots, put_header, read_header, write_header,
};
pub use laws::{headers_are_read_again, one_table_for_its_bytes, well_formed_tables_pass};
pub use numbers::{
    read_i16, read_i32, read_u8, read_u16, read_u64, read_usize, write_i16, write_i32, write_usize,
};
pub use reserve::reserve_exact;
pub use source::Source;
