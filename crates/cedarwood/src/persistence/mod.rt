//! How a dictionary is saved and loaded.

mod load;
mod outcome;
mod paths;
mod replace;
mod save;
mod slice;

pub use outcome::{SaveFailed, Saved, Unsaved};

pub mod v1 {
    //! Version 1 of the file format, minor 0 and 1: its numbers, headers and fields.

    pub use cedar_format::{
        BlockRecord, CedarPersistenceError, Decoded, FLAG_ORDERED, HEADER_LEN, Header, LAYOUT,
        LITTLE_ENDIAN, MAGIC, MAJOR, MINOR, NInfoRecord, NodeRecord, REDUCED_LAYOUT, decode,
        read_header, read_i16, read_i32, read_u8, read_u16, read_u64, read_usize, reserve_exact,
        write_header, write_i16, write_i32, write_usize,
    };
}
