//! Texts cut into words by a dictionary that was saved.

ghost use Rattle.std.specs.Prelude.{◌<◌, ◌^◌, ◌≡◌, IfOk, length, map};
ghost use Rattle.uses.specs.Words.{device_of, IsAheadCapped, IsCheapest, IsCut, IsLeastCapped};
ghost use Rattle.uses.specs.Words.{piece_of, ReadsTable, segments};

use cedar_words::{cheapest, segment};
use cedarwood::{Cedar, CedarPersistenceError, Layout, Trie, Watched};
use std::alloc::{AllocError, Allocator, Global};
use std::io::Read;

/// Cuts texts into words.
#[derive(Drop)]
pub struct Tokenizer {
    pub words: Cedar<Global>,
}

impl Tokenizer {
    /// Loads its dictionary.
    ///
    /// # Errors
    /// Those of a load.
    pub fn load<R: Read>(
        alloc: Global,
        file: &mut Watched<R>,
    ) -> Result<Tokenizer, CedarPersistenceError>
        //= A tokenizer reads exactly the bytes of its dictionary's table.
        ensures { IfOk result (λ it. ReadsTable (R.remaining (device_of file.old)) (R.remaining (device_of file.new)) it.words.table) }
    {
        let words = Cedar::load_from_reader(alloc, file)?;
        Ok(Tokenizer { words })
    }

    /// The words of a text in their order: for each its start, its length, and its value if the dictionary has it.
    ///
    /// # Errors
    /// No memory for the result.
    pub fn cut(
        &self,
        alloc: Global,
        text: &str,
    ) -> Result<Vec<(usize, usize, Option<i32>), Global>, AllocError>
        //= A tokenizer cuts a text into `segments` of its dictionary's tree.
        ensures { IfOk result (λ tokens. tokens.items ≡ segments self.now.words.state.tree text.now) }
    {
        segment(&self.words, text.as_bytes()).collect(alloc)
    }

    /// The words of a text whose values have the least sum, if a byte of no word costs `unknown`.
    ///
    /// # Errors
    /// No memory for the result.
    pub fn cut_by_cost(
        &self,
        alloc: Global,
        text: &str,
        unknown: u32,
    ) -> Result<Vec<(usize, usize, Option<i32>), Global>, AllocError>
        //= A tokenizer by cost cuts a text of any length into the tokens that cost the least, if sums above 2^64 - 1 count as 2^64 - 1. They
        //  come first among those that cost as little and no more than that. [with capped, ahead]
        ensures cut { IfOk result (λ tokens. IsCut self.now.words.state.tree text.now tokens.items) }
        ensures capped { IfOk result (λ tokens. IsLeastCapped self.now.words.state.tree (λ _. unknown) text.now tokens.items) }
        ensures ahead { IfOk result (λ tokens. IsAheadCapped self.now.words.state.tree (λ _. unknown) text.now tokens.items) }

        //= Of a text of fewer than 2^32 bytes they are the only cut of which both holds.
        ensures least { length text.now < 2 ^ 32 → IfOk result (λ tokens. IsCheapest self.now.words.state.tree unknown text.now tokens.items) }
    {
        cheapest(alloc, &self.words, text.as_bytes(), unknown)
    }
}

/// The tokens of a text, each as bytes of it. That each is within the text is `tokens_lie_within`.
///
/// # Errors
/// No memory for the result.
pub fn pieces_of<'a, L: Layout, const SLOTS: usize, A: Allocator + Copy>(
    words: &Trie<L, SLOTS, A>,
    alloc: Global,
    text: &'a [u8],
) -> Result<Vec<&'a [u8], Global>, AllocError>
    //= The pieces of a text are the bytes of its tokens, one for each in their order.
    ensures { IfOk result (λ pieces. map (λ piece. piece.now) pieces.items ≡ map (piece_of text.now) (segments words.now.state.tree text.now)) }
{
    let mut pieces = Vec::new(alloc);
    for token in segment(words, text) {
        let (start, len, _) = token;
        pieces.push(&text[start..start + len])?;
    }
    Ok(pieces)
}
