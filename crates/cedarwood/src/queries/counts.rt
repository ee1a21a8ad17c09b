//! How many keys begin with a prefix.

ghost use Rattle.std.specs.Prelude.{◌≡◌, length};
ghost use Rattle.cedarwood.specs.Words.{entries_with};

use crate::{Layout, Trie};
use std::alloc::Allocator;

impl<L: Layout, const SLOTS: usize, A: Allocator + Copy> Trie<L, SLOTS, A> {
    /// How many keys begin with a prefix. It looks the prefix up once, and then visits each node below the prefix's: so its time grows with
    /// those nodes, and not with the rest of the dictionary. For the empty prefix, with which all keys begin, [`Trie::len`] returns the same
    /// at once. It allocates nothing.
    ///
    /// ```
    /// cedar.build(&[("net", 7), ("network", 8), ("ten", 2)])?;
    /// assert_eq!(rt; cedar.count_prefix_bytes(b"net"), 2);
    /// assert_eq!(rt; cedar.count_prefix_bytes(b"nest"), 0);
    /// ```
    #[must_use]
    pub fn count_prefix_bytes(&self, prefix: &[u8]) -> usize
        //= `count_prefix` returns how many entries begin with the prefix. [also count_prefix; by entries_with]
        ensures { result ≡ length (entries_with self.now.state.tree prefix.now) }
    {
        // These keys are among all keys, which `len` counts: so a `usize` holds their number.
        let _all = self.len();
        self.common_prefix_predict_iter_bytes(prefix).count()
    }

    /// `count_prefix_bytes` for a text prefix.
    ///
    /// ```
    /// cedar.build(&[("net", 7), ("network", 8), ("ten", 2)])?;
    /// assert_eq!(rt; cedar.count_prefix("netw"), 1);
    /// ```
    #[must_use]
    pub fn count_prefix(&self, prefix: &str) -> usize
        ensures { result ≡ length (entries_with self.now.state.tree prefix.now) }
    {
        self.count_prefix_bytes(prefix.as_bytes())
    }
}
