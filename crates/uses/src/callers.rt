//! What a caller has to say more, over any allocator and any limit of slots.

ghost use Rattle.std.specs.Prelude.{◌↔◌, ◌≡◌, ◌≤◌, IsSome, IsTrue, OnOk, pos};
ghost use Rattle.uses.specs.Words.{after_put, CedarFitsInMemory, IsSlotLimit, number_at};

use cedarwood::{Cedar, CedarBuilder, CedarError, DefaultLayout, Layout, Trie};
use std::alloc::Allocator;

/// Over any allocator, a `Cedar` that is handed in has to fit in memory.
fn store<A: Allocator + Copy>(cedar: &mut Cedar<A>, word: &str) -> Result<(), CedarError>
    requires { CedarFitsInMemory A.row A.Allocator }
    ensures { OnOk result (cedar.new.state ≡ after_put cedar.old.state word.now (pos 1)) }
{
    cedar.update(word, 1)
}

/// One that is made here does.
pub fn with_one<A: Allocator + Copy>(alloc: A, word: &str) -> Result<Cedar<A>, CedarError> {
    let mut cedar = Cedar::new(alloc)?;
    store(&mut cedar, word)?;
    Ok(cedar)
}

/// A dictionary in a struct of one's own, of any limit of slots.
#[derive(Drop)]
pub struct Lexicon<const SLOTS: usize, A: Allocator + Copy> {
    pub words: Trie<DefaultLayout, SLOTS, A>,
}

impl<const SLOTS: usize, A: Allocator + Copy> Lexicon<SLOTS, A> {
    /// An empty one.
    ///
    /// # Errors
    /// `Memory` if an allocation was refused.
    pub fn new(alloc: A) -> Result<Self, CedarError>
        requires { IsSlotLimit SLOTS }
    {
        let words = Trie::with(alloc, CedarBuilder::new())?;
        Ok(Lexicon { words })
    }

    /// Whether it has a word.
    pub fn has(&self, word: &str) -> bool
        //= A lexicon has a word exactly if its dictionary holds it. A dictionary has no more slots than its limit. [also slots]
        ensures { IsTrue result ↔ IsSome (number_at self.now.words.state.tree word.now) }
    {
        self.words.exact_match_search(word).is_some()
    }
}

/// How many slots a dictionary has. A proof knows from `len` what holds of each dictionary.
pub fn slots<L: Layout, const SLOTS: usize, A: Allocator + Copy>(trie: &Trie<L, SLOTS, A>) -> usize
    ensures { result ≤ SLOTS }
{
    let _ = trie.len();
    trie.node_capacity()
}
