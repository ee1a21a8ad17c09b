//! Bytes written whole, or a first part of them and a fault of the list. No other writer calls the device.

ghost use Rattle.std.specs.Prelude.{◌++◌, ◌∷◌, ◌≡◌, []};
ghost use Rattle.word_lists.specs.Words.{Unwritten, WritesBytes};

use cedarwood::Watched;
use device_lines::WriteFault;
use std::io::Write;

/// Why a list ended early.
#[derive(Clone, Copy, Debug, PartialEq, Eq)]
pub enum ListError {
    /// The writer failed.
    Write,
    /// An allocation was refused.
    Memory,
}

impl From<WriteFault> for ListError {
    //= A write that failed ends a list as `Write`.
    ghost from_gives = { λ _ error. error ≡ Unwritten };

    fn from(_: WriteFault) -> ListError {
        ListError::Write
    }
}

/// Writes a line that has two parts, and its byte 10.
pub(crate) fn write_line<W: Write>(
    writer: &mut Watched<W>,
    first: &[u8],
    second: &[u8],
) -> Result<(), ListError>
    ensures { WritesBytes W.contents ListError.Write writer.old writer.new (first.now ++ (second.now ++ 10 ∷ [])) result }
{
    Ok(device_lines::write_line(writer, first, second)?)
}

/// Writes all of some bytes.
pub(crate) fn write_whole<W: Write>(writer: &mut Watched<W>, bytes: &[u8]) -> Result<(), ListError>
    ensures { WritesBytes W.contents ListError.Write writer.old writer.new bytes.now result }
{
    Ok(device_lines::write_whole(writer, bytes)?)
}
