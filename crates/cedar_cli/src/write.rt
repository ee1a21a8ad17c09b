//! Bytes written whole, or a first part of them and a fault of the script. No other writer calls the device.

ghost use Rattle.std.specs.Prelude.{◌++◌, ◌∷◌, []};
ghost use Rattle.cedar_cli.specs.Words.{WritesBytes};

use crate::script::ScriptError;
use cedarwood::Watched;
use std::io::Write;

/// Writes two parts.
pub(crate) fn write_both<W: Write>(
    writer: &mut Watched<W>,
    first: &[u8],
    second: &[u8],
) -> Result<(), ScriptError>
    ensures { WritesBytes W.contents ScriptError.Write writer.old writer.new (first.now ++ second.now) result }
{
    Ok(device_lines::write_both(writer, first, second)?)
}

/// Writes a line that has two parts, and its byte 10.
pub(crate) fn write_line<W: Write>(
    writer: &mut Watched<W>,
    first: &[u8],
    second: &[u8],
) -> Result<(), ScriptError>
    ensures { WritesBytes W.contents ScriptError.Write writer.old writer.new (first.now ++ (second.now ++ 10 ∷ [])) result }
{
    Ok(device_lines::write_line(writer, first, second)?)
}

/// Writes all of some bytes.
pub(crate) fn write_whole<W: Write>(
    writer: &mut Watched<W>,
    bytes: &[u8],
) -> Result<(), ScriptError>
    ensures { WritesBytes W.contents ScriptError.Write writer.old writer.new bytes.now result }
{
    Ok(device_lines::write_whole(writer, bytes)?)
}
