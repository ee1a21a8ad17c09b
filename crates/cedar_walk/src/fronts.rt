//! The next held prefix of a query.

ghost use Rattle.std.specs.Prelude.{◌*◌, ◌+◌, ◌-◌, ◌<◌, ◌≤◌, length, MatchOption};
ghost use Rattle.cedar_walk.specs.Words.{fields, front_length, IsNextFront, IsOnQuery};
ghost use Rattle.cedar_walk.specs.Words.{IsWellFormed, tree_of};

use cedar_model::Layout;
use cedar_slots::Ticks;
use cedar_table::Table;
use std::alloc::Allocator;
use std::sync::ledger::Ledger;

/// A held prefix of a query.
#[derive(Clone, Copy, Debug, PartialEq, Eq)]
pub struct Front {
    /// How many bytes the prefix has.
    pub len: usize,
    /// The slot of its node.
    pub slot: usize,
    /// Its number.
    pub number: i32,
}

/// Returns the next held prefix of a query after the first `place` bytes, which lead to `node`. Each byte costs at most two
/// comparisons of a check field. It allocates nothing.
pub fn next_held_front<L: Layout, const SLOTS: usize, A: Allocator, C: Ledger>(
    table: &Table<L, SLOTS, A>,
    query: &[u8],
    place: usize,
    node: usize,
    ticks: &mut Ticks<C>,
) -> Option<Front>
    requires well_formed { IsWellFormed SLOTS (fields table.now) }
    requires on { IsOnQuery (fields table.now) query.now place node }

    //= `next_held_front` returns the next held prefix of a query, or that none is left. [with on]
    ensures answer { IsNextFront (tree_of (fields table.now)) query.now place result }
    ensures on { MatchOption result (place ≤ length query.now) (λ front. (place < front.len) × IsOnQuery (fields table.now) query.now front.len front.slot) }

    //= It counts at most two comparisons for each byte that it looks at.
    ensures cost { ticks.new ≤ ticks.old + 2 * (front_length query.now result - place) }
{
    let mut slot = node;
    let mut len = place;
    while len < query.len() {
        slot = table.follow(slot, query[len], ticks)?;
        len += 1;
        if let Some(number) = table.number(slot, ticks) {
            return Some(Front { len, slot, number });
        }
    }
    None
}
