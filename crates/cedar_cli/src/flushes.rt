//! When a run flushes its answers, and what it remembers of flushes that failed.

ghost use Rattle.cedar_cli.specs.Words.{has_failed, held_by, IsToldOn};
ghost use Rattle.std.specs.Io.KnownBytes.{Keeps};

use cedarwood::Watched;
use std::io::Write;

/// What a run knows of its flushes.
#[derive(Clone, Copy)]
pub(crate) struct Flushes {
    /// Whether answers were written since the last one.
    pub due: bool,
    /// Whether one of them failed.
    pub failed: bool,
}

/// Flushes the answers that were written since the last flush, if there are any, and returns what is known then.
pub(crate) fn flush_answers<W: Write>(writer: &mut Watched<W>, flushes: Flushes) -> Flushes
    ensures bytes { Keeps (held_by W.contents writer.old) (held_by W.contents writer.new) }
    ensures told { IsToldOn flushes.failed (has_failed writer.old) result.failed (has_failed writer.new) }
{
    if !flushes.due {
        return flushes;
    }
    match writer.flush() {
        Ok(()) => Flushes {
            due: false,
            ..flushes
        },
        Err(_) => Flushes {
            due: false,
            failed: true,
        },
    }
}
