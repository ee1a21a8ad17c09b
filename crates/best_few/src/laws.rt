//! What it means that entries are in order.

ghost use Rattle.std.specs.Prelude.{List};
ghost use Rattle.best_few.specs.Words.{ByValue, Entry, sort_by_value, IsInOrder, IsPermutation};

/// Entries in order are the same entries, and none comes before one that is ahead of it. So the best of them are what their name says.
pub fn order_is_an_order()
    //= Some entries in order are the same entries, each as often.
    ensures same { (order : ByValue) (es : List Entry) → IsPermutation es (sort_by_value order es) }

    //= None of them comes before one that is ahead of it.
    ensures sorted { (order : ByValue) (es : List Entry) → IsInOrder order (sort_by_value order es) }
{}
