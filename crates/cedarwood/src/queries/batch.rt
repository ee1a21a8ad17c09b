//! Exact searches of many keys in one call.

ghost use Rattle.std.specs.Prelude.{◌++◌, ◌≡◌, drop, length, map, take};
ghost use Rattle.cedarwood.specs.Words.{exact, keys_of};

use crate::counted::search_batch_uncounted;
use crate::{Layout, Trie};
use std::alloc::Allocator;
use std::marker::Brand;
use std::sync::ledger::Blank;

impl<L: Layout, const SLOTS: usize, A: Allocator + Copy> Trie<L, SLOTS, A> {
    /// Looks up many keys: `answers[i]` becomes what [`Trie::exact_match_search_bytes`] returns for `keys[i]`, for as many keys as there
    /// are elements; elements after the last key stay as they are. It allocates nothing.
    ///
    /// A few keys are looked up in step, so that their waits for memory can overlap if the table is large and the keys come in no order.
    ///
    /// ```
    /// cedar.update_bytes(b"net", 7)?;
    /// let keys: [&[u8]; 2] = [b"net", b"ne"];
    /// let mut answers = [None; 2];
    /// cedar.exact_match_search_batch(&keys, &mut answers);
    /// assert_eq!(rt; answers, [Some((7, 3)), None]);
    /// ```
    pub fn exact_match_search_batch(&self, keys: &[&[u8]], answers: &mut [Option<(i32, usize)>])
        //= Look-ups of many keys in one call: result i is `exact` of the tree and key i, for as many keys as there are elements for
        //  results. Elements after the last key don't change.
        ensures { answers.new ≡ map (exact self.now.state.tree) (take (length answers.old) (keys_of keys.now)) ++ drop (length keys.now) answers.old }
    {
        search_batch_uncounted::<Brand, Self, A>(self, keys, answers, Blank::new(1));
    }
}
