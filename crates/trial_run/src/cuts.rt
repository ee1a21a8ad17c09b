//! How cuts of a text are timed: by the longest key, at least cost by the keys' values, and at least cost by a model beside them.

ghost use Rattle.std.specs.Iterator.{IsFinite};

use crate::keys::{Values, fill, pairs};
use crate::watch::{Answered, Clock, NOTHING};
use anyhow::{Result, bail};
use cedar_words::{
    CostModel, CostTable, OneByte, OneCharacter, Priced, ValueIsCost, WhereNoKeyBegins, cheapest,
    cheapest_by, segment,
};
use cedarwood::Cedar;
use std::alloc::Global;

/// What a byte or a character without a key costs.
const UNKNOWN: u32 = 20_000;

/// The most that a key costs: a line that says more counts as this.
const MOST: u32 = 2_147_483_645;

/// Words by what they cost and by their lines' numbers, and what they cost by these.
#[derive(Drop)]
pub(crate) struct CostedWords {
    by_cost: Cedar<Global>,
    pub(crate) by_id: Cedar<Global>,
    costs: Vec<u32>,
}

/// Reads lines of a key, a tab and what it costs. A line without a key counts for nothing, and one without a cost has the most.
pub(crate) fn words_of(alloc: Global, lines: &[u8]) -> Result<CostedWords> {
    let mut keys: Vec<&[u8]> = Vec::new(alloc);
    let mut priced: Vec<(&[u8], i32)> = Vec::new(alloc);
    let mut costs = Vec::new(alloc);
    for line in lines.split(|byte| *byte == b'\n') {
        let mut fields = line.split(|byte| *byte == b'\t');
        let key = fields.next().unwrap_or_default();
        if !key.is_empty() {
            let cost = str::from_utf8(fields.next().unwrap_or_default()).unwrap_or_default();
            let cost = cost.parse().unwrap_or(MOST).min(MOST);
            keys.push(key)?;
            priced.push((key, cost.cast_signed()))?;
            costs.push(cost)?;
        }
    }
    Ok(CostedWords {
        by_cost: fill(alloc, &priced)?,
        by_id: fill(alloc, &pairs(alloc, &keys, Values::Places)?)?,
        costs,
    })
}

/// Cuts the text in each way, so many times by turns. Cuts by the same costs have to be the same.
pub(crate) fn all_cuts(
    rt: &HostRuntime,
    clock: Clock,
    passes: u32,
    words: &CostedWords,
    text: &[u8],
) -> Result<()> {
    let lines: Vec<&[u8]> = text.split(|byte| *byte == b'\n').collect(rt.alloc())?;
    let by_characters = Priced {
        keys: CostTable {
            costs: &words.costs,
            beyond: MOST,
        },
        unknown: WhereNoKeyBegins {
            rule: OneCharacter { cost: UNKNOWN },
        },
    };
    for _ in 0..passes {
        let watch = clock.start(rt)?;
        let mut greedy = NOTHING;
        add_tokens(&mut greedy, segment(&words.by_id, text));
        watch.print(rt, "segment", greedy)?;
        let names = ["cheapest", "cheapest_by_value", "cheapest_by_table"];
        cheapest_cuts(rt, clock, words, &[text], names)?;
        let watch = clock.start(rt)?;
        let whole = cut(rt.alloc(), &words.by_id, &[text], Some(&by_characters))?;
        watch.print(rt, "cheapest_by_characters", whole)?;
        // Each line by itself, as most callers do: then what a call allocates has been used before.
        let names = [
            "cheapest_lines",
            "cheapest_by_value_lines",
            "cheapest_by_table_lines",
        ];
        cheapest_cuts(rt, clock, words, &lines, names)?;
    }
    Ok(())
}

/// Cuts parts of a text at least cost: by the keys' values, by a model that has the same costs, and by one that has them beside the
/// dictionary.
fn cheapest_cuts(
    rt: &HostRuntime,
    clock: Clock,
    words: &CostedWords,
    parts: &[&[u8]],
    names: [&str; 3],
) -> Result<()> {
    let unknown = OneByte { cost: UNKNOWN };
    let by_value = Priced {
        keys: ValueIsCost {},
        unknown,
    };
    let by_table = Priced {
        keys: CostTable {
            costs: &words.costs,
            beyond: MOST,
        },
        unknown,
    };
    let [plainly, with_values, with_table] = names;
    let watch = clock.start(rt)?;
    let least = cut(
        rt.alloc(),
        &words.by_cost,
        parts,
        None::<&Priced<ValueIsCost, OneByte>>,
    )?;
    watch.print(rt, plainly, least)?;
    let watch = clock.start(rt)?;
    let same = cut(rt.alloc(), &words.by_cost, parts, Some(&by_value))?;
    watch.print(rt, with_values, same)?;
    let watch = clock.start(rt)?;
    let again = cut(rt.alloc(), &words.by_id, parts, Some(&by_table))?;
    watch.print(rt, with_table, again)?;
    if same != least || again != least {
        bail!("{with_values} or {with_table} cuts otherwise than {plainly}");
    }
    Ok(())
}

/// Cuts parts of a text at least cost, by a model if there is one.
#[inline(never)]
fn cut<M: CostModel>(
    alloc: Global,
    words: &Cedar<Global>,
    parts: &[&[u8]],
    model: Option<&M>,
) -> Result<Answered> {
    let mut found = NOTHING;
    for part in parts {
        let tokens = match model {
            Some(model) => cheapest_by(alloc, words, part, model)?,
            None => cheapest(alloc, words, part, UNKNOWN)?,
        };
        add_tokens(&mut found, tokens.into_iter());
    }
    Ok(found)
}

/// Adds tokens: how many there are, and where they are.
#[inline(never)]
fn add_tokens<I: Iterator<Item = (usize, usize, Option<i32>)> + Drop>(
    found: &mut Answered,
    tokens: I,
)
    requires can { I.can_next tokens }
    requires ends { IsFinite (I.remaining tokens) }
{
    for (start, len, _) in tokens {
        found.add(start, len, 0);
    }
}
