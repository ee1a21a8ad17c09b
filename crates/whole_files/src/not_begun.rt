//! Why nothing was written at a path.

ghost use Rattle.std.specs.Prelude.{◌≡◌, ◌∷◌, [], None};
ghost use Rattle.whole_files.specs.Words.{not_begun, was_opened};

use crate::history::History;
use crate::opening::OPENED_AT;
use std::io;
use std::marker::PhantomData;

const NOT_BEGUN: u64 = 5;

/// Why nothing was written at a path, among the files `F`: nothing was made there, or what was made is removed again, as far as the system
/// allows that.
#[derive(Drop)]
pub struct NotBegun<F> {
    /// The system's error. None if there was no memory for the buffer.
    pub error: Option<io::Error>,
    history: History,
    // What was opened before the buffer was asked for.
    opened: History,
    among: PhantomData<F>,
    ghost bufferless: { error ≡ None → opened.calls ≡ was_opened ∷ [] },
}

impl<F> NotBegun<F> {
    ghost use Rattle.whole_files.specs.Beginnings.{not_begun_calls, not_begun_opened};

    /// Notes that nothing was begun at a path. There is no error only where something was opened first.
    pub(crate) fn at(path: &str, error: Option<io::Error>, opened: History) -> NotBegun<F>
        requires opened { error ≡ None → opened.calls ≡ was_opened ∷ [] }
        ensures noted { not_begun_calls result ≡ not_begun path.now ∷ [] }
        ensures memory { result.error ≡ None → not_begun_opened result ≡ was_opened ∷ [] }
    {
        let mut history = History::new();
        history.note(&[OPENED_AT, NOT_BEGUN, 0], path.as_bytes());
        NotBegun {
            error,
            history,
            opened,
            among: PhantomData,
        }
    }
}
