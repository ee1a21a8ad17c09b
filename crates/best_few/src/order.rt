//! Which values come first.

ghost use Rattle.std.specs.Prelude.{◌≡◌};
ghost use Rattle.best_few.specs.Words.{turn_of};

/// Which values come first. Entries with the same value come in the order of their keys by bytes, in either case.
#[derive(Clone, Copy, Debug, PartialEq, Eq)]
pub enum ByValue {
    /// The highest value first, as for frequencies.
    HighestFirst,
    /// The lowest value first, as for costs.
    LowestFirst,
}

impl ByValue {
    /// A number that is lower the earlier a value comes; and the value, if it is given that number.
    pub(crate) fn turn(self, number: i32) -> i32
        ensures { result ≡ turn_of self number }
    {
        match self {
            // -1 - number, which no number is too low for.
            ByValue::HighestFirst => !number,
            ByValue::LowestFirst => number,
        }
    }
}
