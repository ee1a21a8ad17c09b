//! What a crash never makes of a journal's file.

ghost use Rattle.cedar_journal.specs.Laws.{CrashesAreAccepted, ExtentsAreAccepted};

/// A file that `extent_of` accepts is one that no crash makes refused, whether it is opened, appended to or replaced.
pub fn crashes_are_accepted()
    //= A crash never makes a file that is refused: whatever it may leave by the clauses of an opening, of a record under way and of a
    //  replacement represents some payloads, if the file did before. And a file whose extent is known does. [with crashes]
    ensures extents { ExtentsAreAccepted }
    ensures crashes { CrashesAreAccepted }
{}
