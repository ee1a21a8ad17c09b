//! The longest key at the beginning of a text.

use cedarwood::{Layout, Trie};
use std::alloc::Allocator;

/// What finds the longest key that a text begins with: any dictionary. The tokens of a text need nothing else.
pub trait LongestPrefix {
    ghost use Rattle.std.specs.Prelude.{◌<◌, ◌≡◌, IfSome, length};
    ghost use Rattle.cedar_words.specs.Words.{longest, Tree};

    /// The labelled tree that the results come from.
    ghost tree: { Self → Tree };

    /// The value of the longest key that the text begins with, and one less than the key's bytes. It allocates nothing.
    ///
    /// ```
    /// cedar.build(&[("ne", 1), ("net", 7)])?;
    /// assert_eq!(rt; cedar.longest_prefix(b"nets"), Some((7, 2)));
    /// assert_eq!(rt; cedar.longest_prefix(b"ten"), None);
    /// ```
    fn longest_prefix(&self, text: &[u8]) -> Option<(i32, usize)>
        //= The call returns the longest key that a text begins with. [with within]
        ensures answer { result ≡ longest (tree self.now) text.now }
        ensures within { IfSome result (λ found. found.1 < length text.now) };
}

impl<L: Layout, const SLOTS: usize, A: Allocator + Copy> LongestPrefix for Trie<L, SLOTS, A> {
    ghost tree = { λ trie. trie.state.tree };

    fn longest_prefix(&self, text: &[u8]) -> Option<(i32, usize)> {
        self.common_prefix_iter_bytes(text).last()
    }
}
