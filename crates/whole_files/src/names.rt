//! The name of a file that is written beside another one, and that of a file's folder.

ghost use Rattle.std.specs.Prelude.{◌++◌, ◌+◌, ◌<◌, ◌≡◌, ◌≤◌, ◌⊎◌, length, MatchOption, take};
ghost use Rattle.whole_files.specs.Words.{HasNoSlash, LiesBeside};
ghost use Rattle.whole_files.specs.Words.{LiesIn, mark_of, new_suffix};

use arrayvec::ArrayString;

/// How many names there are for the file beside another one.
pub(crate) const NAMES: usize = 100;

/// What ends such a name.
const SUFFIX: &str = ".new";

/// How many bytes a path has at most: Linux takes no longer one.
pub const PATH_LEN: usize = 4095;

/// How many bytes a file's name has at most.
const NAME_LEN: usize = 255;

/// Returns the path of a file beside the one at `path`: that path with `.new` after it, or for a number above 0 with that before it, as
/// `.7.new`. Of a name that is too long for that a front is kept. None if the whole is longer than a path may be. It is made on the
/// stack, so no allocation comes before the file's.
pub(crate) fn name_beside(path: &str, number: usize) -> Option<ArrayString<PATH_LEN>>
    requires number { number < 100 }
    ensures { MatchOption result (4088 < length path.now) (λ beside. LiesBeside path.now beside.bytes) }
{
    let mark = mark_for(number);
    let (folder, slash, name) = split_name(path);
    join_parts(
        folder,
        slash,
        kept_front(name, mark.len() + SUFFIX.len()),
        mark.as_str(),
    )
}

/// Returns the path of the folder that the file at a path lies in.
pub(crate) fn folder_of(path: &str) -> &str
    ensures { LiesIn path.now result.now }
{
    let Some((folder, _)) = path.rsplit_once('/') else {
        return ".";
    };
    if folder.is_empty() {
        return "/";
    }
    folder
}

/// What is in a name before its suffix: nothing, or the number behind a full stop.
fn mark_for(number: usize) -> ArrayString<3>
    requires number { number < 100 }
    ensures mark { result.bytes ≡ mark_of number }
    ensures room { length result.bytes ≤ 3 }
{
    let mut mark = ArrayString::new();
    if number == 0 {
        return mark;
    }
    mark.push('.');
    if number >= 10 {
        mark.push(digit(number / 10));
    }
    mark.push(digit(number % 10));
    mark
}

/// A digit as a character.
fn digit(number: usize) -> char
    requires number { number < 10 }
    ensures { result ≡ 48 + number }
{
    char::from(b'0' + number as u8)
}

/// A path in three: what is before its last slash, that slash, and its last name. If it has none, the first two are empty.
fn split_name(path: &str) -> (&str, &str, &str)
    ensures whole { path.now ≡ result.0.now ++ result.1.now ++ result.2.now }
    ensures slash { length result.1.now ≤ 1 }
    ensures last { HasNoSlash result.2.now }
{
    match path.rsplit_once('/') {
        Some((folder, name)) => (folder, "/", name),
        None => ("", "", path),
    }
}

/// What is kept of a name if `more` bytes follow: all of it, or, if it is too long, a front that ends where a character does.
fn kept_front(name: &str, more: usize) -> &str
    requires more { more ≤ 7 }
    ensures front { result.now ≡ take (length result.now) name.now }
    ensures room { length result.now + more ≤ 255 }
    ensures whole { length name.now + more ≤ 255 → result.now ≡ name.now }
    ensures other { (result.now ≡ name.now) ⊎ (length result.now + more < length name.now) }
{
    if name.len() <= NAME_LEN - more {
        return name;
    }
    let (kept, _) = name.split_at(name.floor_char_boundary(NAME_LEN - 2 * more));
    kept
}

/// The pieces of a path, and the suffix.
fn join_parts(folder: &str, slash: &str, kept: &str, mark: &str) -> Option<ArrayString<PATH_LEN>>
    requires slash { length slash.now ≤ 1 }
    requires kept { length kept.now ≤ 255 }
    requires mark { length mark.now ≤ 3 }
    ensures { MatchOption result (4088 < length folder.now + length slash.now + length kept.now)
        (λ path. path.bytes ≡ folder.now ++ slash.now ++ kept.now ++ mark.now ++ new_suffix) }
{
    if folder.len() + slash.len() + kept.len() + mark.len() > PATH_LEN - SUFFIX.len() {
        return None;
    }
    let mut path = ArrayString::new();
    path.push_str(folder);
    path.push_str(slash);
    path.push_str(kept);
    path.push_str(mark);
    path.push_str(SUFFIX);
    Some(path)
}
