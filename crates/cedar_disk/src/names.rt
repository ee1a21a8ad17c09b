//! The name of the file that is to take the place of a store's.

ghost use Rattle.std.specs.Prelude.{◌<◌, ◌≡◌, length, MatchOption};
ghost use Rattle.cedar_disk.specs.Words.{compaction_path};

use arrayvec::ArrayString;
use whole_files::PATH_LEN;

/// What ends the name of the file that is to take the place of a store's. Nobody gives a file such a name.
const COMPACTION_SUFFIX: &str = ".cedar-compaction";

/// Returns the path of the file that is to take the place of the one at `path`: that path with `.cedar-compaction` after it. None if the
/// whole is longer than a path may be. Nothing of the path is left out, so no two files have one name for this.
pub(crate) fn compaction_beside(path: &str) -> Option<ArrayString<PATH_LEN>>
    ensures { MatchOption result (4078 < length path.now) (λ beside. beside.bytes ≡ compaction_path path.now) }
{
    if path.len() > PATH_LEN - COMPACTION_SUFFIX.len() {
        return None;
    }
    let mut beside = ArrayString::new();
    beside.push_str(path);
    beside.push_str(COMPACTION_SUFFIX);
    Some(beside)
}
