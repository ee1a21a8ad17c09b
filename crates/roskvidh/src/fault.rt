//! Why the program did not do what the arguments say.

use cedar_store::DurableError;
use cedarwood::{CedarPersistenceError, Watched};
use std::alloc::AllocError;
use std::fmt::Display;
use std::io;
use std::io::{ErrorKind, Write};
use word_lists::{ListError, StoreError};

/// The name of standard input in messages.
const STANDARD_INPUT: &str = "standard input";

/// What is reported where a line of a list ends it.
const STRICT: &str = "with --strict no such line may stand in a list";

/// What is reported of a dictionary that isn't in the order of bytes.
const UNORDERED: &str = "it was built --unordered, so no word is the next one";

/// What is reported of a word that `--unknown` doesn't know.
const UNKNOWN: &str = "--unknown takes a cost from 0 to 4294967295, class, or class=COST";

/// What is reported of a store that is locked.
const LOCKED: &str = "another program has the store open";

/// What is reported of a store whose file has more behind its records than a crash leaves.
const UNKEPT: &str =
    "what stands behind its end may have whole records, and can't be kept in a file beside it";

/// Why the program did not do what the arguments say.
#[derive(Drop)]
pub(crate) enum Fault<'m> {
    /// A dictionary can't be loaded from this path.
    Load(&'m str, CedarPersistenceError),
    /// One can't be saved there.
    Save(&'m str, CedarPersistenceError),
    /// The store of this path can't be opened, or its change can't be made.
    Store(&'m str, DurableError),
    /// Another program has the store of this path open.
    Locked(&'m str),
    /// What the opening of the store of this path would cut off can't be kept beside it.
    Unkept(&'m str),
    /// A list or a text can't be read from this path, or from standard input.
    Read(Option<&'m str>, io::Error),
    /// A list has bad or repeated lines, which were reported.
    Strict(Option<&'m str>),
    /// The line at this index, counted from 0, of a file of costs has none.
    Cost(&'m str, usize),
    /// This is nothing that `--unknown` may say.
    Unknown(&'m str),
    /// The dictionary of this path isn't in the order of bytes.
    Unordered(&'m str),
    /// The output can't be written.
    Write,
    Memory,
    SlotLimit,
}

impl<'m> From<AllocError> for Fault<'m> {
    fn from(_: AllocError) -> Fault<'m> {
        Fault::Memory
    }
}

impl<'m> From<ListError> for Fault<'m> {
    fn from(error: ListError) -> Fault<'m> {
        match error {
            ListError::Write => Fault::Write,
            ListError::Memory => Fault::Memory,
        }
    }
}

/// The fault of a list that was not stored to its end.
pub(crate) fn store_fault<'m>(path: Option<&'m str>, error: StoreError) -> Fault<'m> {
    match error {
        StoreError::Read(error) => Fault::Read(path, error),
        StoreError::Memory => Fault::Memory,
        StoreError::SlotLimit => Fault::SlotLimit,
    }
}

/// The name of an input's path in messages.
pub(crate) fn name_of(path: Option<&str>) -> &str {
    path.unwrap_or(STANDARD_INPUT)
}

/// Reports a fault on standard error.
pub(crate) fn tell<E: Write>(errors: &mut Watched<E>, fault: Fault<'_>) {
    match fault {
        Fault::Load(path, error) => tell_of(errors, path, error),
        Fault::Save(path, error) => tell_of(errors, path, error),
        Fault::Store(path, error) => tell_of(errors, path, error),
        Fault::Read(path, error) => tell_of(errors, name_of(path), error),
        Fault::Strict(path) => tell_input(errors, name_of(path), STRICT),
        Fault::Cost(path, index) => tell_cost(errors, path, index),
        Fault::Unknown(text) => tell_input(errors, text, UNKNOWN),
        Fault::Unordered(path) => tell_input(errors, path, UNORDERED),
        Fault::Locked(path) => tell_input(errors, path, LOCKED),
        Fault::Unkept(path) => tell_input(errors, path, UNKEPT),
        Fault::Write => tell_text(errors, "standard output can't be written"),
        Fault::Memory => tell_text(errors, "out of memory"),
        Fault::SlotLimit => tell_text(errors, "the dictionary has no slot left"),
    }
}

/// Reports an error of a file, or of an input of this name.
fn tell_of<E: Write, T: Display + Drop>(errors: &mut Watched<E>, name: &str, error: T) {
    let _ = writeln!(errors, "roskvidh: {name}: {error}");
}

/// Reports a line of a file of costs that has none.
fn tell_cost<E: Write>(errors: &mut Watched<E>, name: &str, index: usize) {
    let number = index.saturating_add(1);
    let _ = writeln!(
        errors,
        "roskvidh: {name}:{number}: no number from 0 to 2147483647"
    );
}

/// Reports what is wrong with an input of this name.
pub(crate) fn tell_input<E: Write>(errors: &mut Watched<E>, name: &str, what: &str) {
    let _ = writeln!(errors, "roskvidh: {name}: {what}");
}

/// Reports what is wrong.
fn tell_text<E: Write>(errors: &mut Watched<E>, what: &str) {
    let _ = writeln!(errors, "roskvidh: {what}");
}

/// Whether the output is a pipe that nobody reads any more.
pub(crate) fn is_closed<W: Write>(writer: &mut Watched<W>) -> bool {
    match writer.flush() {
        Ok(()) => false,
        Err(error) => error.kind() == ErrorKind::BrokenPipe,
    }
}
