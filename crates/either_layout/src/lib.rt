//! A dictionary of either layout, for callers that learn its layout only as they run: from a file, or from what their user asks for.
//!
//! An [`AnyCedar`] has most calls of the dictionary that it holds, with the same results and the same clauses. Each call looks once which
//! layout it has, and never again while it runs. What has no call here, such as an iteration, is reached by a `match`, or by
//! [`on_layout`], whose expression is written once for both layouts.
//!
//! ```
//! let mut words = AnyCedar::load_any(rt.alloc(), saved, 1048576)?;
//! words.update_bytes(b"net", 7)?;
//! assert_eq!(rt; words.get_bytes(b"net"), Some(7));
//! ```
#![tactic(auto)]

mod any;
mod batches;
mod changes;
mod figures;
mod load;
mod queries;
mod save;

pub use any::AnyCedar;
pub use load::names_reduced;

/// The value of an expression in which `$cedar` names the dictionary of an [`AnyCedar`], or of a reference to one, whichever layout it has.
///
/// ```
/// let count = on_layout!(&words, cedar => cedar.len());
/// ```
#[macro_export]
macro_rules! on_layout {
    ($any:expr, $cedar:ident => $answer:expr) => {
        match $any {
            $crate::AnyCedar::Default($cedar) => $answer,
            $crate::AnyCedar::Reduced($cedar) => $answer,
        }
    };
}
