//! A scanner for any kind of search, with a dictionary of its own.

ghost use Rattle.std.specs.Prelude.{◌≡◌, IfSome, Some};
ghost use Rattle.cedar_c.specs.Words.{AnyScanner, inner_dictionary, IsHeight, scanned_tree};
ghost use Rattle.cedar_c.specs.Words.{scanner_by};

use crate::scanned_cedar::ScannedCedar;
use cedar_scan::{MatchKind, OwnedLeftmostScanner, OwnedScanner};
use either_layout::AnyCedar;
use std::alloc::Global;

/// A scanner, by the search that it is made for.
#[derive(Drop)]
pub enum AnyScanner {
    /// All keys, by their ends.
    Overlapping(OwnedScanner<ScannedCedar, Global>),
    /// Keys that don't overlap: of those that end first the longest.
    Earliest(OwnedScanner<ScannedCedar, Global>),
    /// Keys that don't overlap: of those that begin first one.
    Leftmost(OwnedLeftmostScanner<ScannedCedar, Global>),
}

impl AnyScanner {
    /// A scanner with this dictionary, for the search that a number names: 0 for all keys, 1 for those that end first, 2 for the longest of
    /// those that begin first, and 3 for the one of these with the least value. `None` if an allocation is refused, or if no search has the
    /// number.
    pub(crate) fn new(cedar: AnyCedar, search: u32, alloc: Global) -> Option<AnyScanner>
        ensures { IfSome result (λ scanner. scanner_by search (inner_dictionary cedar).state.tree ≡ Some scanner) }
    {
        let kept = ScannedCedar { cedar };
        match search {
            0 => Some(AnyScanner::Overlapping(OwnedScanner::new(kept, alloc).ok()?)),
            1 => Some(AnyScanner::Earliest(OwnedScanner::new(kept, alloc).ok()?)),
            2 => AnyScanner::leftmost(kept, MatchKind::LeftmostLongest, alloc),
            3 => AnyScanner::leftmost(kept, MatchKind::LeftmostFirst, alloc),
            _ => None,
        }
    }

    fn leftmost(kept: ScannedCedar, kind: MatchKind, alloc: Global) -> Option<AnyScanner>
        ensures { IfSome result (λ scanner. scanner ≡ AnyScanner.Leftmost (record { kind = kind; tree = (inner_dictionary kept.cedar).state.tree })) }
    {
        let scanner = OwnedLeftmostScanner::new(kept, kind, alloc).ok()?;
        Some(AnyScanner::Leftmost(scanner))
    }

    /// How many bytes the longest key has.
    pub(crate) fn longest_len(&self) -> usize
        ensures { IsHeight (scanned_tree self.now) result }
    {
        match self {
            AnyScanner::Overlapping(scanner) => scanner.longest_len(),
            AnyScanner::Earliest(scanner) => scanner.longest_len(),
            AnyScanner::Leftmost(scanner) => scanner.longest_len(),
        }
    }
}
