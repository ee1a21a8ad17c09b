//! What is told of a script's lines, beside their answers.

ghost use Rattle.std.specs.Prelude.{◌∷◌, [], List, None, Option};
ghost use Rattle.cedar_cli.specs.Words.{BadLine, Continues};

use crate::command::BadLine;

/// What is told of each line of a script, before it is answered.
pub trait LineReports {
    /// What it was told, line after line, if that is known: why a line is bad, or nothing of one that is an order.
    ghost told: { Self → Option (List (Option BadLine)) } = { λ _. None };

    /// Takes what is told of the next line: why it is bad, or `None` if it is an order.
    fn tell(&mut self, bad: Option<BadLine>)
        //= What a reporter was told, if it says so, has one line more then. [by Continues]
        ensures { Continues (told self.old) (told self.new) (bad ∷ []) };
}

/// A reporter that makes nothing of what it is told.
#[derive(Clone, Copy, Debug)]
pub struct NoReports;

impl LineReports for NoReports {
    fn tell(&mut self, _bad: Option<BadLine>) {}
}
