//! Times searches of a text for the keys of a dictionary, plainly and by scanners, and cuts of a text. It reads FOLDER/sorted.tsv, lines of
//! a key, a tab and what the key costs, and FOLDER/text.txt. `bench/searches` makes such folders and calls it.
//!
//! A key's value is its line's number from 0. The sum of a search is that of `(value + 1) * length + start` over all matches, by which the
//! searches of other programs can be compared; that of a cut is over its tokens, with 0 in place of their values.

ghost use Rattle.std.specs.Iterator.{IsFinite};

use crate::cuts::{all_cuts, words_of};
use crate::keys::read_all;
use crate::watch::{Answered, Clock, NOTHING};
use anyhow::{Result, bail};
use cedar_scan::{LeftmostScanner, MatchKind, Scanner};
use cedar_words::{leftmost_longest, matches};
use cedarwood::Cedar;
use std::alloc::Global;

/// Times searches, cuts, or both.
pub(crate) fn scan(rt: &HostRuntime, words: &[&str]) -> Result<()> {
    let (folder, passes, work) = match words {
        [folder, passes] => (*folder, *passes, "searches"),
        [folder, passes, work] => (*folder, *passes, *work),
        _ => bail!("usage: trial_run scan FOLDER PASSES [searches | cuts | all]"),
    };
    let (searches, cuts) = match work {
        "searches" => (true, false),
        "cuts" => (false, true),
        "all" => (true, true),
        _ => bail!("there is no work {work}"),
    };
    let passes: u32 = passes.parse()?;
    let clock = Clock { runs: passes > 0 };
    let files = read_all(rt, folder, &["sorted.tsv", "text.txt"])?;
    let [lines, text] = files.as_slice() else {
        bail!("there are two files");
    };
    let words = words_of(rt.alloc(), lines)?;
    if searches {
        all_searches(rt, clock, passes.max(1), &words.by_id, text)?;
    }
    if cuts {
        all_cuts(rt, clock, passes.max(1), &words, text)?;
    }
    Ok(())
}

/// Makes the scanners and searches the text, so many times by turns.
fn all_searches(
    rt: &HostRuntime,
    clock: Clock,
    passes: u32,
    cedar: &Cedar<Global>,
    text: &[u8],
) -> Result<()> {
    let watch = clock.start(rt)?;
    let scanner = Scanner::new(cedar, rt.alloc())?;
    watch.print(rt, "scanner_made", NOTHING)?;
    let watch = clock.start(rt)?;
    let leftmost = LeftmostScanner::new(cedar, MatchKind::LeftmostLongest, rt.alloc())?;
    watch.print(rt, "leftmost_made", NOTHING)?;
    for _ in 0..passes {
        let watch = clock.start(rt)?;
        let plain = all_of(matches(cedar, text));
        watch.print(rt, "matches", plain)?;
        let watch = clock.start(rt)?;
        let found = all_of(scanner.overlapping(text));
        watch.print(rt, "overlapping", found)?;
        if found != plain {
            bail!("overlapping finds other keys than matches");
        }
        let watch = clock.start(rt)?;
        let plain = all_of(leftmost_longest(cedar, text));
        watch.print(rt, "leftmost_longest", plain)?;
        let watch = clock.start(rt)?;
        let found = all_of(leftmost.leftmost(text));
        watch.print(rt, "leftmost", found)?;
        if found != plain {
            bail!("leftmost finds other keys than leftmost_longest");
        }
    }
    Ok(())
}

/// Goes over what a search finds.
#[inline(never)]
fn all_of<I: Iterator<Item = (usize, usize, i32)> + Drop>(search: I) -> Answered
    requires can { I.can_next search }
    requires ends { IsFinite (I.remaining search) }
{
    let mut found = NOTHING;
    for (start, len, value) in search {
        found.add(start, len, value);
    }
    found
}
