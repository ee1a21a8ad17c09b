//! Dictionaries of one layout, whichever it is.

ghost use Rattle.std.specs.Prelude.{◌≡◌, ◌∷◌, [], IfErr, IfOk, MatchResult};
ghost use Rattle.either_calls.specs.Words.{inner_dictionary, inner_layout, layout_for, layout_of};
ghost use Rattle.either_calls.specs.Words.{tries_in};

use cedarwood::{Cedar, ReducedCedar};
use either_layout::AnyCedar;
use std::alloc::Global;

/// Dictionaries of the default layout or of the reduced one, in memory of the program's own allocator.
///
/// A contract sees the dictionaries (`tries_in`) and their layout (`layout_of`).
#[derive(Drop)]
pub enum AnyTries {
    /// Of the default layout.
    Default(Vec<Cedar<Global>, Global>),
    /// Of the reduced layout.
    Reduced(Vec<ReducedCedar<Global>, Global>),
}

impl AnyTries {
    /// No dictionary, of the reduced layout or of the default one. It allocates nothing.
    #[must_use]
    pub fn new(alloc: Global, is_reduced: bool) -> AnyTries
        //= A new list of dictionaries of either layout has none, and is of the layout that was asked for. [with layout]
        ensures none { tries_in result ≡ [] }
        ensures layout { layout_of result ≡ layout_for is_reduced }
    {
        if is_reduced {
            AnyTries::Reduced(Vec::new(alloc))
        } else {
            AnyTries::Default(Vec::new(alloc))
        }
    }

    /// A list of one dictionary, which is of its layout.
    ///
    /// # Errors
    /// The dictionary itself, as it was, if there is no memory for the list.
    pub fn of(alloc: Global, any: AnyCedar) -> Result<AnyTries, AnyCedar>
        //= A list that begins with a dictionary has just this one and its layout. If there is no memory for the list, the dictionary comes
        //  back. [with layout, refused]
        ensures one { IfOk result (λ tries. tries_in tries ≡ inner_dictionary any ∷ []) }
        ensures layout { IfOk result (λ tries. layout_of tries ≡ inner_layout any) }
        ensures refused { IfErr result (λ back. back ≡ any) }
    {
        match any {
            AnyCedar::Default(cedar) => match list_of(alloc, cedar) {
                Ok(tries) => Ok(AnyTries::Default(tries)),
                Err(cedar) => Err(AnyCedar::Default(cedar)),
            },
            AnyCedar::Reduced(cedar) => match list_of(alloc, cedar) {
                Ok(tries) => Ok(AnyTries::Reduced(tries)),
                Err(cedar) => Err(AnyCedar::Reduced(cedar)),
            },
        }
    }
}

/// A list of one dictionary, or the dictionary itself if there is no memory for the list.
fn list_of<T: Drop>(alloc: Global, item: T) -> Result<Vec<T, Global>, T>
    ensures { MatchResult result (λ list. list.items ≡ item ∷ []) (λ back. back ≡ item) }
{
    let Ok(mut list) = Vec::with_capacity(alloc, 1) else {
        return Err(item);
    };
    list.push_reserved(item);
    Ok(list)
}
