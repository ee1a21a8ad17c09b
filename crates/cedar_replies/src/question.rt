//! Questions as values.

use crate::{KeyEnds, ModelTables};
use cedar_complete::ByValue;
use cedar_scan::MatchKind;

/// A question to a dictionary.
#[derive(Clone, Copy, Debug)]
pub enum Question<'a> {
    /// Which value does the key hold, and how long is it?
    Exact { key: &'a [u8] },
    /// Which value does the key hold?
    Get { key: &'a [u8] },
    /// Is the key held?
    ContainsKey { key: &'a [u8] },
    /// Which is the longest key that the text begins with?
    Longest { text: &'a [u8] },
    /// Which values do the keys hold?
    Batch { keys: &'a [&'a [u8]] },
    /// Which prefixes of the query are held?
    Prefixes { query: &'a [u8] },
    /// Which keys begin with the query?
    Predictions { query: &'a [u8] },
    /// Which is the first entry?
    First,
    /// Which is the last one?
    Last,
    /// Which keys are held, with which values?
    Entries,
    /// The same, with keys as texts.
    TextEntries,
    /// Which of the entries have keys that begin with the prefix?
    EntriesWith { prefix: &'a [u8] },
    /// Which of them are at the key or after it?
    EntriesFrom { key: &'a [u8] },
    /// Which of these are before another key?
    Range { from: &'a [u8], to: &'a [u8] },
    /// How many keys begin with the prefix?
    CountPrefix { prefix: &'a [u8] },
    /// Which entries, with their keys in a buffer?
    InBuffer { ask: BufferQuery<'a> },
    /// What is in the text, by the keys that are held?
    InText { text: &'a [u8], ask: TextQuery<'a> },
    /// Which entries complete what is typed, or are in a range?
    Complete { ask: CompletionQuery<'a> },
    /// How many keys are held?
    Len,
    /// How many slots, blocks or bytes?
    Figure { figure: Figure },
    /// Is no key held?
    IsEmpty,
    /// Four figures at once.
    Stats,
    /// The bytes of its file, in format 1.1.
    Save,
    /// The same in format 1.0.
    SaveV1_0,
}

/// A question about entries whose keys are written into one buffer, which has room for so many bytes at the beginning.
#[derive(Clone, Copy, Debug)]
pub enum BufferQuery<'a> {
    /// Which is the first entry?
    First { room: usize },
    /// Which is the last one?
    Last { room: usize },
    /// Which of the entries have keys that begin with the prefix?
    EntriesWith { prefix: &'a [u8], room: usize },
    /// Which of them has a cursor, whose buffer has no room at first?
    ByCursor { prefix: &'a [u8] },
}

/// A question about completions.
#[derive(Clone, Copy, Debug)]
pub enum CompletionQuery<'a> {
    /// Which of the entries with the prefix are the best by their values, so many at most?
    Best {
        prefix: &'a [u8],
        most: usize,
        order: ByValue,
    },
    /// Which entries are between two ends?
    InRange {
        ends: KeyEnds<'a>,
    },
    /// Which is the first of them?
    FirstIn {
        ends: KeyEnds<'a>,
    },
    /// Which is the last one?
    LastIn {
        ends: KeyEnds<'a>,
    },
    /// Which keys are one edit of bytes away from the text at most, or two, or begin with what is?
    Near {
        text: &'a [u8],
        two_edits: bool,
        is_beginning: bool,
    },
    /// Which keys fit the pattern?
    Fitting {
        pattern: &'a [u8],
    },
}

/// A question about a text, by the keys of a dictionary.
#[derive(Clone, Copy, Debug)]
pub enum TextQuery<'a> {
    /// Which is the longest key that it begins with?
    LongestPrefix,
    /// Which keys does it begin with?
    Fronts,
    /// Which are its tokens, each the longest key at its position or else one byte?
    Segment,
    /// Which are they from a position on?
    SegmentFrom { place: usize },
    /// Which are its keywords, leftmost longest, which don't overlap?
    LeftmostLongest,
    /// Which are they from a position on?
    LeftmostLongestFrom { place: usize },
    /// Which keys are in it, at each position?
    Matches,
    /// Which are in it from a position on?
    MatchesFrom { place: usize },
    /// Which keys are in it, by their ends?
    Overlapping,
    /// Which of those that don't overlap end first?
    Earliest,
    /// Which of those that don't overlap come first from left to right, of those that begin at a position the one of this kind?
    Leftmost { kind: MatchKind },
    /// Which tokens cost the least together, if each byte without a value costs this?
    Cheapest { unknown: u32 },
    /// Which tokens do, if each character without a value costs this once?
    CheapestByCharacters { unknown: u32 },
    /// Which tokens do by a model of costs?
    CheapestBy { model: ModelTables<'a> },
    /// Which cuts by a model are the best, in their order, so many at most?
    CheapestCuts { model: ModelTables<'a>, most: usize },
    /// Which tokens may cuts by a model have, and what do they cost?
    Lattice { model: ModelTables<'a> },
}

/// A figure of a dictionary.
#[derive(Clone, Copy, Debug)]
pub enum Figure {
    /// The slots that are held, the root's among them.
    UsedSlots,
    /// The slots that there are, in use or not.
    Capacity,
    /// The bytes that the table takes.
    AllocatedBytes,
    /// The blocks of 256 slots that can come into use before memory is allocated.
    SpareBlocks,
    /// The blocks that one search for places tries at most.
    SearchLimit,
}
