//! Whether a type fits in memory.

ghost use Rattle.cedarwood.specs.Words.{FitsInMemory, IsTrue};

use std::mem;

/// Whether a value that may come to `place` fits in memory. It always does, and that is known at compile time. The function says this to a
/// proof if the type has a const parameter and names a type parameter of the function.
///
/// ```
/// let place: Option<Cedar<Global>> = None;
/// assert!(rt; fits(&place));
/// ```
pub fn fits<T>(place: &Option<T>) -> bool
    //= `fits` returns true only of a type that fits in memory. [by FitsInMemory]
    ensures { IsTrue result → FitsInMemory T.row }
{
    mem::size_of_val(place) <= isize::MAX as usize
}
