//! A search whose comparisons are counted.

ghost use Rattle.std.specs.Prelude.{◌≡◌};
ghost use Rattle.uses.specs.Words.{exact, IsBlankOf};

use cedarwood::{Cedar, Ticks};
use std::alloc::Global;
use std::marker::Brand;
use std::sync::ledger::{Blank, Ledger};

/// What a key holds.
pub fn search(cedar: &Cedar<Global>, key: &[u8]) -> Option<(i32, usize)>
    //= A counted search returns `exact`.
    ensures { result ≡ exact cedar.now.state.tree key.now }
{
    search_in::<Brand>(cedar, key, Blank::new(1))
}

fn search_in<C: Ledger>(cedar: &Cedar<Global>, key: &[u8], blank: Blank) -> Option<(i32, usize)>
    requires { IsBlankOf C.name C.parts blank }
    ensures { result ≡ exact cedar.now.state.tree key.now }
{
    let mut ticks = Ticks::<C>::new(blank);
    cedar.exact_match_search_counted(key, &mut ticks)
}
