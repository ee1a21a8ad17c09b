//! What becomes of a path that a file is written for.

ghost use Rattle.whole_files.specs.Words.{WholeFilesAreSafe};

/// A file that was given its place is at the path, whatever crash comes. At any moment before a crash leaves what was there, or the whole
/// new file.
pub fn whole_files_are_safe()
    //= A file that was written beside the one at a path, and given its place, is at the path with its bytes, whatever crash comes. A crash
    //  at any moment before, even if a call fails, leaves what was there or the whole new file; and what was there, if the new file wasn't
    //  to be renamed yet.
    ensures { WholeFilesAreSafe }
{}
