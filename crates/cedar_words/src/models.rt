//! What tokens cost: models of keys and of the text that no key is.

ghost use Rattle.std.specs.Prelude.{◌<◌, ◌≡◌, length, List, unsigned_abs, ℕ, ℤ};
ghost use Rattle.cedar_words.specs.Runs.{byte_run, cost_in_table, only_without_key};
ghost use Rattle.cedar_words.specs.declared.models.UnknownRun.{UnknownRun};

/// The bytes at a position that a cut may take as one token without a value.
#[derive(Clone, Copy, Debug)]
pub struct UnknownRun {
    /// How many bytes it has. 0 counts as 1, and more than the text has as what is left of it.
    pub len: usize,
    /// What it costs.
    pub cost: u32,
    /// Whether a cut may take it where keys begin too. If not, it may only where no key begins.
    pub beside_keys: bool,
}

/// What a key costs, by its value.
pub trait KeyCosts {
    /// What it costs.
    ghost cost_of: { Self → ℤ → ℕ };

    /// What it costs. The result depends on nothing else.
    fn cost(&self, value: i32) -> u32
        //= What a key costs by a rule for keys depends on its value alone.
        ensures { result ≡ cost_of self.now value };
}

/// What a cut may take of a text that no key is.
pub trait UnknownRuns {
    /// The run at a position.
    ghost run_at: { Self → List ℕ → ℕ → UnknownRun };

    /// The run at a position. The result depends on the text and the position alone.
    fn run(&self, text: &[u8], place: usize) -> UnknownRun
        requires { place < length text.now }
        //= The run by a rule for unknown text depends on the text and the position alone.
        ensures { result ≡ run_at self.now text.now place };
}

/// What the tokens of a text cost, for `cheapest_by`: keys by their values, and unknown runs by where they begin.
///
/// A model of one's own is any type with these two methods. `Priced` makes one of a rule for keys and one for the rest.
pub trait CostModel {
    /// What a key costs.
    ghost key_cost: { Self → ℤ → ℕ };

    /// The run that no key is at a position of a text.
    ghost unknown_at: { Self → List ℕ → ℕ → UnknownRun };

    /// What a key costs, by its value.
    fn cost(&self, value: i32) -> u32
        //= What a key costs by a model depends on its value alone.
        ensures { result ≡ key_cost self.now value };

    /// What a cut may take without a key at a position.
    fn unknown(&self, text: &[u8], place: usize) -> UnknownRun
        requires { place < length text.now }
        //= The unknown run by a model depends on the text and the position alone.
        ensures { result ≡ unknown_at self.now text.now place };
}

/// A model of two rules.
///
/// ```
/// let model = Priced { keys: CostTable { costs: &[7, 3], beyond: 50 }, unknown: OneCharacter { cost: 100 } };
/// assert_eq!(rt; model.cost(1), 3);
/// assert_eq!(rt; model.unknown("网".as_bytes(), 0).len, 3);
/// ```
#[derive(Clone, Copy)]
pub struct Priced<K: KeyCosts, U: UnknownRuns> {
    /// What keys cost.
    pub keys: K,
    /// What there is beside keys.
    pub unknown: U,
}

impl<K: KeyCosts, U: UnknownRuns> CostModel for Priced<K, U> {
    ghost key_cost = { λ it value. K.cost_of it.keys value };

    ghost unknown_at = { λ it text place. U.run_at it.unknown text place };

    fn cost(&self, value: i32) -> u32 {
        self.keys.cost(value)
    }

    fn unknown(&self, text: &[u8], place: usize) -> UnknownRun {
        self.unknown.run(text, place)
    }
}

/// A key costs its value.
#[derive(Clone, Copy)]
pub struct ValueIsCost {}

impl KeyCosts for ValueIsCost {
    ghost cost_of = { λ _ value. unsigned_abs value };

    fn cost(&self, value: i32) -> u32 {
        value.unsigned_abs()
    }
}

/// A key's value is an index into a table of costs. So a value may be an id, by which tags and more are found too.
#[derive(Clone, Copy)]
pub struct CostTable<'a> {
    /// The costs, by value.
    pub costs: &'a [u32],
    /// What a key costs whose value is no index of the table.
    pub beyond: u32,
}

impl<'a> KeyCosts for CostTable<'a> {
    ghost cost_of = { λ it value. cost_in_table it.costs.now it.beyond value };

    fn cost(&self, value: i32) -> u32 {
        if value < 0 {
            return self.beyond;
        }
        match self.costs.get(value as usize) {
            Some(cost) => *cost,
            None => self.beyond,
        }
    }
}

/// Each byte by itself.
#[derive(Clone, Copy)]
pub struct OneByte {
    /// What it costs.
    pub cost: u32,
}

impl UnknownRuns for OneByte {
    ghost run_at = { λ it _ _. byte_run it.cost };

    fn run(&self, _text: &[u8], _place: usize) -> UnknownRun {
        UnknownRun {
            len: 1,
            cost: self.cost,
            beside_keys: true,
        }
    }
}

/// What another rule takes, but only where no key begins: so a text of keys has no other token.
#[derive(Clone, Copy)]
pub struct WhereNoKeyBegins<U: UnknownRuns> {
    /// The other rule.
    pub rule: U,
}

impl<U: UnknownRuns> UnknownRuns for WhereNoKeyBegins<U> {
    ghost run_at = { λ it text place. only_without_key (U.run_at it.rule text place) };

    fn run(&self, text: &[u8], place: usize) -> UnknownRun {
        let run = self.rule.run(text, place);
        UnknownRun {
            beside_keys: false,
            ..run
        }
    }
}
