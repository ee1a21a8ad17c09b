//! Bytes written whole, or a first part of them and a fault.

ghost use Rattle.std.specs.Prelude.{◌++◌, ◌∷◌, []};
ghost use Rattle.device_lines.specs.Words.{WritesBytes};

use crate::watched::Watched;
use std::io::Write;

/// Why bytes weren't written whole.
#[derive(Clone, Copy, Debug, PartialEq, Eq)]
pub enum WriteFault {
    /// The writer failed, or took none of some bytes.
    Write,
}

/// Writes two parts.
///
/// ```
/// let mut writer = Watched::new(Vec::new(rt.alloc()));
/// assert_eq!(rt; write_both(&mut writer, b"net", b":7"), Ok(()));
/// ```
///
/// # Errors
/// As [`write_whole`].
pub fn write_both<W: Write>(
    writer: &mut Watched<W>,
    first: &[u8],
    second: &[u8],
) -> Result<(), WriteFault>
    ensures { WritesBytes W.contents WriteFault.Write writer.old writer.new (first.now ++ second.now) result }
{
    write_whole(writer, first)?;
    write_whole(writer, second)
}

/// Writes a line that has two parts, and its byte 10.
///
/// ```
/// let mut writer = Watched::new(Vec::new(rt.alloc()));
/// assert_eq!(rt; write_line(&mut writer, b"net", b"\t7"), Ok(()));
/// assert_eq!(rt; writer.into_inner().as_slice(), b"net\t7\n".as_slice());
/// ```
///
/// # Errors
/// As [`write_whole`].
pub fn write_line<W: Write>(
    writer: &mut Watched<W>,
    first: &[u8],
    second: &[u8],
) -> Result<(), WriteFault>
    ensures { WritesBytes W.contents WriteFault.Write writer.old writer.new (first.now ++ (second.now ++ 10 ∷ [])) result }
{
    write_whole(writer, first)?;
    write_whole(writer, second)?;
    write_whole(writer, b"\n")
}

/// Writes all of some bytes. The first fault ends it, an interrupted write too: a part was then written, and
/// not all. (`write_all` of the standard library promises nothing of what a failed call wrote.)
///
/// ```
/// let mut writer = Watched::new(Vec::new(rt.alloc()));
/// assert_eq!(rt; write_whole(&mut writer, b"net"), Ok(()));
/// ```
///
/// # Errors
/// `Write` if a call of the writer failed, or took none of some bytes.
pub fn write_whole<W: Write>(writer: &mut Watched<W>, bytes: &[u8]) -> Result<(), WriteFault>
    //= A write of whole bytes that returns `Ok` wrote all of them, and nothing else; one that fails wrote a first part of them, and not all,
    //  and the writer failed. [also write_both, write_line]
    ensures { WritesBytes W.contents WriteFault.Write writer.old writer.new bytes.now result }
{
    let mut rest = bytes;
    while !rest.is_empty() {
        match writer.write(rest) {
            Ok(0) | Err(_) => return Err(WriteFault::Write),
            Ok(count) => rest = &rest[count..],
        }
    }
    Ok(())
}
