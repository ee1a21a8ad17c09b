//! Look-ups of one key, and of the longest key that a text begins with.

ghost use Rattle.std.specs.Prelude.{◌<◌, ◌≡◌, ◌≤◌, IfSome, is_some, length};
ghost use Rattle.cedarwood.specs.Words.{longest_front, number_at};

use crate::{Layout, Trie};
use std::alloc::Allocator;

impl<L: Layout, const SLOTS: usize, A: Allocator + Copy> Trie<L, SLOTS, A> {
    /// The value at a key, or None if the key isn't held. It allocates nothing.
    ///
    /// ```
    /// cedar.update_bytes(b"net", 7)?;
    /// assert_eq!(rt; cedar.get_bytes(b"net"), Some(7));
    /// assert_eq!(rt; cedar.get_bytes(b"ne"), None);
    /// ```
    pub fn get_bytes(&self, key: &[u8]) -> Option<i32>
        //= `get` returns the value at the key, `contains_key` whether there is one. [also get, contains_key_bytes, contains_key]
        ensures { result ≡ number_at self.now.state.tree key.now }
    {
        let (value, _) = self.exact_match_search_bytes(key)?;
        Some(value)
    }

    /// `get_bytes` for a text key.
    ///
    /// ```
    /// cedar.update("net", 7)?;
    /// assert_eq!(rt; cedar.get("net"), Some(7));
    /// ```
    pub fn get(&self, key: &str) -> Option<i32>
        ensures { result ≡ number_at self.now.state.tree key.now }
    {
        self.get_bytes(key.as_bytes())
    }

    /// Whether a key is held. It allocates nothing.
    ///
    /// ```
    /// cedar.update_bytes(b"net", 7)?;
    /// assert!(rt; cedar.contains_key_bytes(b"net"));
    /// assert!(rt; !cedar.contains_key_bytes(b"ne"));
    /// ```
    pub fn contains_key_bytes(&self, key: &[u8]) -> bool
        ensures { result ≡ is_some (number_at self.now.state.tree key.now) }
    {
        self.get_bytes(key).is_some()
    }

    /// `contains_key_bytes` for a text key.
    ///
    /// ```
    /// cedar.update("net", 7)?;
    /// assert!(rt; cedar.contains_key("net"));
    /// ```
    pub fn contains_key(&self, key: &str) -> bool
        ensures { result ≡ is_some (number_at self.now.state.tree key.now) }
    {
        self.contains_key_bytes(key.as_bytes())
    }

    /// The longest key that a text begins with: its value, and how many bytes it has. None if the text begins with no key. It goes along
    /// the text once, and allocates nothing.
    ///
    /// ```
    /// cedar.build(&[("ne", 1), ("net", 7)])?;
    /// assert_eq!(rt; cedar.longest_match_bytes(b"nets"), Some((7, 3)));
    /// assert_eq!(rt; cedar.longest_match_bytes(b"ten"), None);
    /// ```
    pub fn longest_match_bytes(&self, text: &[u8]) -> Option<(i32, usize)>
        //= `longest_match` returns the last of `front`, with the length of that prefix in bytes: above 0, and at most the text's length.
        //  [with within; also longest_match; by longest_front]
        ensures longest { result ≡ longest_front self.now.state.tree text.now }
        ensures within { IfSome result (λ found. (0 < found.1) × (found.1 ≤ length text.now)) }
    {
        let (value, before) = self.common_prefix_iter_bytes(text).last()?;
        Some((value, before + 1))
    }

    /// `longest_match_bytes` for a text that is UTF-8.
    ///
    /// ```
    /// cedar.build(&[("ne", 1), ("net", 7)])?;
    /// assert_eq!(rt; cedar.longest_match("nest"), Some((1, 2)));
    /// ```
    pub fn longest_match(&self, text: &str) -> Option<(i32, usize)>
        ensures longest { result ≡ longest_front self.now.state.tree text.now }
        ensures within { IfSome result (λ found. (0 < found.1) × (found.1 ≤ length text.now)) }
    {
        self.longest_match_bytes(text.as_bytes())
    }
}
