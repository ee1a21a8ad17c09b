//! Models of costs as values.

ghost use Rattle.cedar_replies.specs.Words.{cost_in_table, run_in_table};

use cedar_words::{CostModel, CostTable, KeyCosts, UnknownRun};

/// A model of costs by tables. Whatever model costs and runs come from, what it says of one text and of the keys of one dictionary can be
/// put into such tables.
#[derive(Clone, Copy, Debug)]
pub struct ModelTables<'a> {
    /// What keys cost, by their values.
    pub costs: &'a [u32],
    /// What a key costs whose value is no index of these costs, and one byte at a position without a run.
    pub beyond: u32,
    /// The bytes that a cut may take without a key, by the position where they begin.
    pub runs: &'a [UnknownRun],
}

impl<'a> CostModel for ModelTables<'a> {
    ghost key_cost = { λ it value. cost_in_table it.costs.now it.beyond value };

    ghost unknown_at = { λ it text place. run_in_table it.runs.now it.beyond place };

    fn cost(&self, value: i32) -> u32 {
        let keys = CostTable {
            costs: self.costs,
            beyond: self.beyond,
        };
        keys.cost(value)
    }

    fn unknown(&self, _text: &[u8], place: usize) -> UnknownRun {
        match self.runs.get(place) {
            Some(run) => *run,
            None => UnknownRun {
                len: 1,
                cost: self.beyond,
                beside_keys: true,
            },
        }
    }
}
