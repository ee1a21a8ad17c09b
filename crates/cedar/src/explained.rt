//! Bad lines of a script, explained on standard error.

use cedar_cli::{BadLine, LineReports};
use std::io::Write;

/// Says why lines are bad, if the arguments ask for that.
#[derive(Drop)]
pub(crate) struct Explained<'a, E> {
    errors: E,
    /// The name that each message begins with.
    name: &'a str,
    is_asked: bool,
    /// How many lines there were.
    number: u64,
}

impl<'a, E> Explained<'a, E> {
    /// A reporter that writes to `errors`, if it is asked to, and has been told of no line.
    pub(crate) fn new(errors: E, name: &'a str, is_asked: bool) -> Self {
        Explained {
            errors,
            name,
            is_asked,
            number: 0,
        }
    }
}

impl<'a, E: Write> LineReports for Explained<'a, E> {
    fn tell(&mut self, bad: Option<BadLine>) {
        self.number = self.number.saturating_add(1);
        let Some(bad) = bad else {
            return;
        };
        if self.is_asked {
            explain(&mut self.errors, self.name, self.number, bad);
        }
    }
}

/// Says why the line of this number is bad. A fault isn't reported.
fn explain<E: Write>(errors: &mut E, name: &str, number: u64, bad: BadLine) {
    let why = bad.text();
    let _ = writeln!(errors, "{name}: line {number}: {why}");
}
