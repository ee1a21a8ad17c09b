//! The best cut of a whole text by costs beside values, written into a buffer of the caller's.

ghost use Rattle.std.specs.Prelude.{◌↔◌, ◌≡◌, ◌⊎◌, IfSome, None};
ghost use Rattle.cedar_c.specs.Words.{are_of_one_kind, cost_in_table, inner_dictionary};
ghost use Rattle.cedar_c.specs.Words.{is_same_kind, IsBestCut, key_costs, kind_in, kind_run};
ghost use Rattle.cedar_c.specs.Words.{LacksRoomForBestCut, shown_in, shown_tree, unknown_runs};
ghost use Rattle.cedar_c.specs.Words.{WritesBestCut};

use crate::cuts::write_whole;
use crate::reading::Reading;
use crate::scans::Found;
use crate::status::{CLOSED, MEMORY, NO_ROOM, OK};
use cedar_words::{CharacterClasses, CostTable, OneClass, Priced, WhereNoKeyBegins, cheapest_by};
use cedarwood::{Layout, Trie};
use either_layout::{AnyCedar, on_layout};
use std::alloc::Global;

/// Characters of one kind: those with these numbers in Unicode.
#[repr(C)]
#[derive(Clone, Copy)]
pub struct CharacterRange {
    pub first: u32,
    pub last: u32,
    pub kind: u32,
}

/// The kinds of characters: that of the first range that has a character. One that no range has is like no other.
#[derive(Clone, Copy)]
struct Kinds<'a> {
    ranges: &'a [CharacterRange],
}

impl<'a> CharacterClasses for Kinds<'a> {
    ghost alike = { λ it first other. are_of_one_kind it.ranges.now first other };

    fn are_alike(&self, first: u32, other: u32) -> bool {
        is_same_kind(kind_in(self.ranges, first), kind_in(self.ranges, other))
    }
}

/// The kind of a character, if a range has it.
fn kind_in(ranges: &[CharacterRange], code: u32) -> Option<u32>
    ensures { result ≡ kind_in ranges.now code }
{
    let mut rest = ranges;
    while let Some((range, behind)) = rest.split_first() {
        if range.first <= code && code <= range.last {
            return Some(range.kind);
        }
        rest = behind;
    }
    None
}

/// Whether two kinds are known, and the same.
fn is_same_kind(first: Option<u32>, other: Option<u32>) -> bool
    ensures { result ≡ is_same_kind first other }
{
    match (first, other) {
        (Some(first), Some(other)) => first == other,
        (Some(_), None) => false,
        (None, _) => false,
    }
}

/// What tokens cost, as a caller says it.
#[derive(Clone, Copy)]
struct Costs<'a> {
    // What keys cost, by their values, and what one costs whose value is no index of these.
    keys: &'a [u32],
    beyond: u32,
    // The kinds of characters; what a run of one kind costs, and how many characters it has at most; whether it stands beside keys.
    kinds: &'a [CharacterRange],
    unknown: u32,
    most: usize,
    beside_keys: bool,
}

/// Cuts a whole text into keys and runs of characters of one kind so that their costs have the least sum, writes these tokens into the first
/// elements of a buffer, and how many they are. A key costs what the table has at its value, or `beyond` if that is no index. A run costs
/// `unknown`, is written with the value -1, and has at most `most` characters, but one at least; with `beside_keys` it may stand where keys
/// begin too. A character's kind is that of the first range that has its number; one that no range has is a run by itself. Of cuts that cost
/// the same it picks the one with the longer token where they first differ, and with a key rather than a run of as many bytes. A sum above
/// 2^64 - 1 counts as 2^64 - 1. There are never more tokens than bytes. It allocates 16 bytes for each byte of the text, and a list of the
/// tokens.
///
/// # Errors
/// `CLOSED` if the handle is closed, `NO_ROOM` if there are more tokens than the buffer has elements: then it writes how many; `MEMORY` if
/// an allocation was refused. After an error the buffer is as it was.
#[unsafe(no_mangle)]
pub extern "C" fn cedar_cheapest_by(
    handle: &mut Reading,
    alloc: Global,
    text: &[u8],
    costs: &[u32],
    beyond: u32,
    kinds: &[CharacterRange],
    unknown: u32,
    most: usize,
    beside_keys: bool,
    found: &mut [Found],
    needed: &mut usize,
) -> u32
    //= A cut by costs beside values returns `CLOSED` exactly if the handle is closed, `OK` only if all its tokens fit, `NO_ROOM` only if they
    //  don't, and otherwise `MEMORY`. After any error the buffer is as it was. [with refused, cut, room]
    ensures closed { (result ≡ CLOSED) ↔ (shown_in handle.old ≡ None) }

    //= It writes the tokens of the text's best cut, as `cheapest_by` has it by a table of costs and runs of one kind, into the first elements
    //  of a buffer, and doesn't change the others. `needed` is how many tokens there are, and doesn't change if neither `OK` nor `NO_ROOM` is
    //  returned. [with room, stays; by WritesBestCut, kind_run]
    ensures cut { result ≡ OK → WritesBestCut (shown_tree handle.old) (cost_in_table costs.now beyond) (kind_run kinds.now beside_keys most unknown text.now) text.now found.old found.new needed.new }
    ensures room { result ≡ NO_ROOM → LacksRoomForBestCut (shown_tree handle.old) (cost_in_table costs.now beyond) (kind_run kinds.now beside_keys most unknown text.now) text.now found.old needed.new }
    ensures refused { (result ≡ OK) ⊎ (((result ≡ CLOSED) ⊎ (result ≡ MEMORY) ⊎ (result ≡ NO_ROOM)) × (found.new ≡ found.old)) }
    ensures stays { (result ≡ OK) ⊎ (result ≡ NO_ROOM) ⊎ (needed.new ≡ needed.old) }
    ensures kept { handle.new ≡ handle.old }
{
    if !handle.is_open() {
        return CLOSED;
    }
    let costs = Costs {
        keys: costs,
        beyond,
        kinds,
        unknown,
        most,
        beside_keys,
    };
    write_cheapest_by(
        handle.shown.see().dictionary(),
        alloc,
        text,
        &costs,
        found,
        needed,
    )
}

/// Writes the tokens of a text's best cut into the first elements of a buffer, and how many they are.
fn write_cheapest_by(
    cedar: &AnyCedar,
    alloc: Global,
    text: &[u8],
    costs: &Costs<'_>,
    found: &mut [Found],
    needed: &mut usize,
) -> u32
    ensures cut { result ≡ OK → WritesBestCut (inner_dictionary cedar.now).state.tree (key_costs costs.now) (unknown_runs costs.now text.now) text.now found.old found.new needed.new }
    ensures room { result ≡ NO_ROOM → LacksRoomForBestCut (inner_dictionary cedar.now).state.tree (key_costs costs.now) (unknown_runs costs.now text.now) text.now found.old needed.new }
    ensures refused { (result ≡ OK) ⊎ (((result ≡ MEMORY) ⊎ (result ≡ NO_ROOM)) × (found.new ≡ found.old)) }
    ensures stays { (result ≡ OK) ⊎ (result ≡ NO_ROOM) ⊎ (needed.new ≡ needed.old) }
{
    match best_cut(cedar, alloc, text, costs) {
        Some(tokens) => write_whole(tokens.as_slice(), found, needed),
        None => MEMORY,
    }
}

/// `best_of_either` of a dictionary of either layout.
fn best_cut(
    cedar: &AnyCedar,
    alloc: Global,
    text: &[u8],
    costs: &Costs<'_>,
) -> Option<Vec<(usize, usize, Option<i32>), Global>>
    ensures { IfSome result (λ cut. IsBestCut (inner_dictionary cedar.now).state.tree (key_costs costs.now) (unknown_runs costs.now text.now) text.now cut.items) }
{
    on_layout!(cedar, cedar => best_of_either(cedar, alloc, text, costs))
}

/// The tokens of a text's best cut, or `None` if an allocation is refused.
fn best_of_either<L: Layout, const SLOTS: usize>(
    trie: &Trie<L, SLOTS, Global>,
    alloc: Global,
    text: &[u8],
    costs: &Costs<'_>,
) -> Option<Vec<(usize, usize, Option<i32>), Global>>
    ensures { IfSome result (λ tokens. IsBestCut trie.now.state.tree (key_costs costs.now) (unknown_runs costs.now text.now) text.now tokens.items) }
{
    let keys = CostTable {
        costs: costs.keys,
        beyond: costs.beyond,
    };
    let run = OneClass {
        classes: Kinds {
            ranges: costs.kinds,
        },
        cost: costs.unknown,
        most: costs.most,
    };
    if costs.beside_keys {
        let model = Priced { keys, unknown: run };
        cheapest_by(alloc, trie, text, &model).ok()
    } else {
        let unknown = WhereNoKeyBegins { rule: run };
        cheapest_by(alloc, trie, text, &Priced { keys, unknown }).ok()
    }
}
