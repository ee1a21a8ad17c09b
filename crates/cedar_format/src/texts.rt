//! The texts of refusals. A contract states each byte by byte; for a device's fault it states the prefix of the device's
//! own text.

ghost use Rattle.std.specs.Prelude.{◌++◌, option_map, Some};
ghost use Rattle.cedar_format.specs.Words.{corrupt_text, DisplaysOnOk, fault_prefix, field_text};
ghost use Rattle.cedar_format.specs.Words.{layout_text, limit_text, refusal_text, version_text};

use crate::error::CedarPersistenceError;
use std::error::Error;
use std::fmt;

impl fmt::Display for CedarPersistenceError {
    //= The text of each error is known byte by byte, with its numbers in decimal digits; for `Io` that is a prefix before the device's own
    //  text, whatever that is. [also write_fault.writes; by refusal_text]
    ghost output = { refusal_text };

    fn fmt<W: fmt::Write>(&self, f: &mut fmt::Formatter<W>) -> fmt::Result {
        match self {
            CedarPersistenceError::Io(error) => write_fault(f, error),
            CedarPersistenceError::Truncated => f.write_str("serialized cedar trie is truncated"),
            CedarPersistenceError::InvalidMagic => {
                f.write_str("input is not a cedarwood serialized trie")
            }
            CedarPersistenceError::UnsupportedVersion { major, minor } => {
                write_version(f, *major, *minor)
            }
            CedarPersistenceError::UnsupportedByteOrder { byte_order } => {
                write!(f, "unsupported cedarwood byte-order marker {byte_order}")
            }
            CedarPersistenceError::LayoutMismatch { expected, found } => {
                write_layouts(f, *expected, *found)
            }
            CedarPersistenceError::InvalidHeader { field, value } => {
                write_field(f, field, *value)
            }
            CedarPersistenceError::AllocationLimitExceeded { requested, limit } => {
                write_limit(f, *requested, *limit)
            }
            CedarPersistenceError::AllocationFailed { requested } => write!(
                f,
                "could not reserve {requested} elements while loading serialized trie"
            ),
            CedarPersistenceError::CorruptData {
                section,
                index,
                reason,
            } => write_place(f, section, *index, reason),
            CedarPersistenceError::TrailingData => f.write_str("serialized trie has trailing data"),
        }
    }
}

impl Error for CedarPersistenceError {}

/// Writes the text of a device's fault: a prefix, and then the device's own text.
fn write_fault<W: fmt::Write, D: fmt::Display>(f: &mut fmt::Formatter<W>, cause: &D) -> fmt::Result
    ensures writes { DisplaysOnOk W.write_str_gives f.old result (option_map (λ text. fault_prefix ++ text) (D.output cause.now)) f.new }
{
    write!(f, "persistence I/O error: {cause}")
}

/// Writes that a version isn't read.
fn write_version<W: fmt::Write>(f: &mut fmt::Formatter<W>, major: u16, minor: u16) -> fmt::Result
    ensures writes { DisplaysOnOk W.write_str_gives f.old result (Some (version_text major minor)) f.new }
{
    write!(f, "unsupported cedarwood format version {major}.{minor}")
}

/// Writes which layout a file has, and which one is asked for.
fn write_layouts<W: fmt::Write>(f: &mut fmt::Formatter<W>, expected: u8, found: u8) -> fmt::Result
    ensures writes { DisplaysOnOk W.write_str_gives f.old result (Some (layout_text expected found)) f.new }
{
    write!(
        f,
        "serialized trie layout {found} does not match this build's layout {expected}"
    )
}

/// Writes which field of the header is out of range.
fn write_field<W: fmt::Write>(f: &mut fmt::Formatter<W>, field: &str, value: u64) -> fmt::Result
    ensures writes { DisplaysOnOk W.write_str_gives f.old result (Some (field_text field.now value)) f.new }
{
    write!(f, "invalid serialized header field {field}: {value}")
}

/// Writes that a file needs more memory than the limit.
fn write_limit<W: fmt::Write>(
    f: &mut fmt::Formatter<W>,
    requested: usize,
    limit: usize,
) -> fmt::Result
    ensures writes { DisplaysOnOk W.write_str_gives f.old result (Some (limit_text requested limit)) f.new }
{
    write!(
        f,
        "serialized trie requires up to {requested} bytes while loading, limit is {limit}"
    )
}

/// Writes what is corrupt, and where.
fn write_place<W: fmt::Write>(
    f: &mut fmt::Formatter<W>,
    section: &str,
    index: usize,
    reason: &str,
) -> fmt::Result
    ensures writes { DisplaysOnOk W.write_str_gives f.old result (Some (corrupt_text section.now index reason.now)) f.new }
{
    write!(f, "corrupt {section} at index {index}: {reason}")
}
