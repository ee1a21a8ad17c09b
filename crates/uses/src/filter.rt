//! The keywords of a text.

ghost use Rattle.std.specs.Prelude.{◌↔◌, ◌≡◌, IfOk, IsTrue};
ghost use Rattle.uses.specs.Words.{HasKeyword, keywords_in};

use cedar_words::leftmost_longest;
use cedarwood::{Cedar, Layout, Trie};
use std::alloc::{AllocError, Allocator, Global};

/// Whether a key occurs anywhere in a text. It allocates nothing.
pub fn has_keyword<L: Layout, const SLOTS: usize, A: Allocator + Copy>(
    keywords: &Trie<L, SLOTS, A>,
    text: &[u8],
) -> bool
    //= A text has a keyword exactly if some bytes of it, one or more, are a key.
    ensures { IsTrue result ↔ HasKeyword keywords.now.state.tree text.now }
{
    for place in 0..text.len() {
        if keywords
            .common_prefix_iter_bytes(&text[place..])
            .next()
            .is_some()
        {
            return true;
        }
    }
    false
}

/// The keywords of a text, none of which overlap: for each its start, its length and its value.
///
/// # Errors
/// No memory for the result.
pub fn keywords_of(
    alloc: Global,
    keywords: &Cedar<Global>,
    text: &str,
) -> Result<Vec<(usize, usize, i32), Global>, AllocError>
    //= A filter finds the keywords of a text, leftmost longest.
    ensures { IfOk result (λ found. found.items ≡ keywords_in keywords.now.state.tree text.now) }
{
    leftmost_longest(keywords, text.as_bytes()).collect(alloc)
}
