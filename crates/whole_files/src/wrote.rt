//! What a call that writes did.

ghost use Rattle.std.specs.Prelude.{◌≤◌, ◌<◌, ◌^◌, IfOk, length};
ghost use Rattle.whole_files.specs.Words.{IsAnswered, TookSome};

use std::io;

/// No file is longer.
pub const MAX_OFFSET: usize = (1 << 63) - 1;

/// How many bytes a call wrote.
#[derive(Clone, Copy)]
pub enum Wrote {
    /// The first so many, one or more.
    Bytes(usize),
    /// None: a signal came first.
    Nothing,
    /// None: there was no room for the first of them.
    Full(io::Error),
    /// It failed, so any of them may be there.
    Failed(io::Error),
}

/// What a call did, by its result. A call that takes none of some bytes has failed. One that a signal came before has written nothing. Nor
/// has one that found no room: on the disk, in what the owner may have of it, or in what the process may write. If there is room for a part,
/// the system takes that, and says how much.
pub fn wrote_of(at: usize, _bytes: &[u8], answer: io::Result<usize>) -> Wrote
    requires offset { at < 2 ^ 63 }
    requires bound { IfOk answer (λ count. count ≤ length _bytes.now) }
    //= An answer of a write is taken for what it says: for a number of bytes that were taken only where it is that one, for an interrupted
    //  call or one without room only where its error is of such a kind, and for a failure only where it is neither. [with answered]
    ensures took { TookSome at (length _bytes.now) result }
    ensures answered { IsAnswered answer result }
{
    match answer {
        Ok(0) => Wrote::Failed(io::ErrorKind::WriteZero.into()),
        Ok(count) => Wrote::Bytes(count),
        Err(error) => match error.kind() {
            io::ErrorKind::Interrupted => Wrote::Nothing,
            io::ErrorKind::StorageFull => Wrote::Full(error),
            io::ErrorKind::QuotaExceeded => Wrote::Full(error),
            io::ErrorKind::FileTooLarge => Wrote::Full(error),
            _ => Wrote::Failed(error),
        },
    }
}
