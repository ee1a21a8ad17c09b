//! Files that are written beside the one at a path and take its place once they are whole.

ghost use Rattle.std.specs.Prelude.{◌≡◌, ◌∷◌, [], false, IfErr, IfOk, IsTrue};
ghost use Rattle.std.specs.Prelude.{length, OnOk, Some, true};
ghost use Rattle.whole_files.specs.Words.{all_succeeded, asked_after, Keeps, LiesBeside, LiesIn};
ghost use Rattle.whole_files.specs.Words.{is_usable_after, IsPlaced, IsWholeBeside, IsUnplacedAt};
ghost use Rattle.whole_files.specs.Words.{open_call, opened_new, path_of};
ghost use Rattle.whole_files.specs.Words.{seen_after, was_opened, WriteAppends, WritesAtMost};
ghost use Rattle.whole_files.specs.NotedFiles.{beside_calls, made_as, still_beside};
ghost use Rattle.whole_files.specs.OpenedFiles.{folder_calls};

use crate::history::History;
use crate::looks::{OWN_MODE, file_at};
use crate::names::{NAMES, PATH_LEN, name_beside};
use crate::noted::{Noted, PathCalls, make_beside};
use crate::opening::{Folder, open_folder_of};
use crate::wrote::Wrote;
use arrayvec::ArrayString;
use std::fs::Metadata;
use std::io::{self, ErrorKind, Write};
use std::rt::Files;

/// The permissions of a file that is at a path for the first time, less what the process masks.
const NEW_MODE: u32 = 0o666;

/// A file that is written beside the one at a path, whose place it is to take. Either `put_in_place` or `give_up` ends it.
///
/// It is written to as any writer. Once a write has failed, each later one fails, and so does `put_in_place`; but one that a signal came
/// before is made again.
#[derive(Drop)]
pub struct NewFile<'a, F: Files> {
    files: &'a F,
    path: &'a str,
    folder: Folder<F>,
    name: ArrayString<PATH_LEN>,
    former: Option<Metadata>,
    file: Noted<F>,
    len: usize,
    has_failed: bool,
    ghost at_end: { len ≡ length (seen_after (beside_calls file)) },
    ghost sound: { has_failed ≡ false → IsTrue (is_usable_after (beside_calls file)) },
    ghost faultless: { has_failed ≡ false → all_succeeded (beside_calls file) ≡ true },
    ghost unasked: { asked_after (beside_calls file) ≡ false },
    ghost beside: { still_beside file ≡ true },
    ghost named: { LiesBeside path.now name.bytes },
    ghost own: { made_as file ≡ opened_new name.bytes ∷ [] },
    ghost home: { LiesIn path.now (path_of (folder_calls folder)) },
}

/// Why a file wasn't given its place among the files `F`.
#[derive(Drop)]
pub struct NotPlaced<F> {
    /// The system's error.
    pub error: io::Error,
    /// What was done.
    pub calls: PathCalls<F>,
}

impl<'a, F: Files> NewFile<'a, F> {
    ghost use Rattle.whole_files.specs.NewFiles.{new_bytes, new_calls, new_path};
    ghost use Rattle.whole_files.specs.PathFiles.{path_calls};

    /// Makes it, in the folder of `path`: `PATH.new`, or, where a name is taken, `PATH.1.new` and so on to `PATH.99.new`. Nothing that has
    /// such a name is opened, followed or removed. If a file is at the path, nobody else may read the new one until it is whole.
    ///
    /// # Errors
    /// Those of looking at the path, of opening its folder and of making the file. `AlreadyExists` if all names are taken,
    /// `InvalidFilename` if the path is too long for one, `Unsupported` if something other than a file is at the path. Nothing was made then.
    pub fn beside(files: &'a F, path: &'a str) -> io::Result<NewFile<'a, F>>
        //= A new file is empty, and is to have the name at the path. [with path]
        ensures empty { IfOk result (λ new. new_bytes new ≡ []) }
        ensures path { IfOk result (λ new. new_path new ≡ path.now) }
    {
        let former = file_at(files, path)?;
        let folder = open_folder_of(files, path)?;
        let mode = if former.is_some() { OWN_MODE } else { NEW_MODE };
        let (name, file) = make_named(files, path, mode)?;
        Ok(NewFile {
            files,
            path,
            folder,
            name,
            former,
            file,
            len: 0,
            has_failed: false,
        })
    }

    /// Gives it the place: first the old file's owner and group, as far as the system allows it, and its permissions, but set-user-ID and
    /// set-group-ID only with both; then it is synced, renamed to the path, and the folder is synced. A link at the path is replaced, and
    /// not what it leads to.
    ///
    /// # Errors
    /// That of the call that failed. If the file doesn't have the name, what was at the path is there still, and the new file is removed. If
    /// only the folder wasn't synced, the new file is at the path, and a crash may bring back what was there.
    pub fn put_in_place(mut self) -> Result<PathCalls<F>, NotPlaced<F>>
        //= A new file that was given its place has the bytes that were written to it, and the disk had them, before it was renamed to the path;
        //  then the folder was synced.
        ensures placed { IfOk result (λ calls. IsPlaced (new_path self.entry) (new_bytes self.entry) (path_calls calls)) }
        //= Where that fails, nothing was done at the path; or the file was whole and on the disk before a rename that failed, or before a sync
        //  of the folder that did.
        ensures unplaced { IfErr result (λ failed. IsUnplacedAt (new_path self.entry) (new_bytes self.entry) (path_calls failed.calls)) }
        //= A new file gets its place only if none of the calls on it had failed, and none of its writes had found no room.
        ensures faultless { OnOk result (all_succeeded (new_calls self.entry) ≡ true) }
    {
        if let Err(error) = self.make_ready() {
            return Err(self.remove_after(error));
        }
        self.take_place()
    }

    /// Notes that it was opened, for whoever outlives it.
    pub(crate) fn opening(&self) -> History
        ensures { result.calls ≡ was_opened ∷ [] }
    {
        self.file.opening()
    }

    /// Removes it: for a save that failed. Nothing else is touched. Returns what was done.
    pub fn give_up(self) -> PathCalls<F>
        //= A new file that is given up wasn't to be given the name at the path, and what is returned are the calls on it until then. [with
        //  calls]
        ensures unasked { asked_after (path_calls result) ≡ false }
        ensures calls { path_calls result ≡ new_calls self.entry }
    {
        self.file.remove(self.files, self.name.as_str(), self.path);
        let NewFile { file, .. } = self;
        file.into_calls()
    }

    /// Gives it the old file's owner and permissions, and waits until the disk has it.
    fn make_ready(&mut self) -> io::Result<()>
        ensures ready { OnOk result (IsWholeBeside (new_bytes self.old) (new_calls self.new)) }
        ensures faultless { OnOk result (all_succeeded (new_calls self.old) ≡ true) }
        ensures path { new_path self.new ≡ new_path self.old }
    {
        if self.has_failed {
            return Err(ErrorKind::Other.into());
        }
        if let Some(former) = &self.former {
            self.file.look_like(self.files, self.name.as_str(), former)?;
        }
        match self.file.sync() {
            Ok(()) => Ok(()),
            Err(error) => {
                self.has_failed = true;
                Err(error)
            }
        }
    }

    /// Removes it, and returns why.
    fn remove_after(self, error: io::Error) -> NotPlaced<F>
        ensures unasked { asked_after (path_calls result.calls) ≡ false }
        ensures calls { path_calls result.calls ≡ new_calls self.entry }
    {
        NotPlaced {
            error,
            calls: self.give_up(),
        }
    }

    /// Renames it to the path, and puts that on the disk.
    fn take_place(self) -> Result<PathCalls<F>, NotPlaced<F>>
        requires ready { IsWholeBeside (new_bytes self) (new_calls self) }
        ensures placed { IfOk result (λ calls. IsPlaced (new_path self.entry) (new_bytes self.entry) (path_calls calls)) }
        ensures unplaced { IfErr result (λ failed. IsUnplacedAt (new_path self.entry) (new_bytes self.entry) (path_calls failed.calls)) }
    {
        let NewFile {
            files,
            path,
            folder,
            name,
            mut file,
            ..
        } = self;
        if let Err(error) = file.take_path(files, name.as_str(), path) {
            file.remove(files, name.as_str(), path);
            return Err(NotPlaced {
                error,
                calls: file.into_calls(),
            });
        }
        match file.sync_folder(&folder, path) {
            Ok(()) => Ok(file.into_calls()),
            Err(error) => Err(NotPlaced {
                error,
                calls: file.into_calls(),
            }),
        }
    }
}

impl<F: Files> Write for NewFile<'_, F> {
    ghost use Rattle.whole_files.specs.NewFiles.{new_bytes, new_calls, new_path};

    //= What was written to a new file is known: exactly the bytes of the writes that succeeded.
    ghost contents = { λ new. Some (new_bytes new) };

    fn write(&mut self, buf: &[u8]) -> io::Result<usize>
        //= A write appends as many of its bytes as it returns, at most all of them, and none if it fails; the path stays. [with bound, path]
        ensures bytes { WriteAppends (Some (new_bytes self.old)) (Some (new_bytes self.new)) result buf.now }
        ensures bound { WritesAtMost result buf.now }
        //= A write to a new file succeeds only if no call on the file has failed before, and no write has found no room.
        ensures faultless { OnOk result (all_succeeded (new_calls self.old) ≡ true) }
        ensures path { new_path self.new ≡ new_path self.old }
    {
        if self.has_failed {
            return Err(ErrorKind::Other.into());
        }
        if buf.len() > usize::MAX - self.len {
            self.has_failed = true;
            return Err(ErrorKind::FileTooLarge.into());
        }
        if buf.is_empty() {
            return Ok(0);
        }
        match self.file.append(self.len, buf) {
            Wrote::Bytes(count) => {
                self.len += count;
                Ok(count)
            }
            Wrote::Nothing => Err(ErrorKind::Interrupted.into()),
            Wrote::Full(error) | Wrote::Failed(error) => {
                self.has_failed = true;
                Err(error)
            }
        }
    }

    fn flush(&mut self) -> io::Result<()>
        //= A flush changes neither bytes nor path. [with path]
        ensures bytes { Keeps (Some (new_bytes self.old)) (Some (new_bytes self.new)) }
        ensures path { new_path self.new ≡ new_path self.old }
    {
        self.file.flush()
    }
}

/// Makes a file beside the one at a path, of the first name that isn't taken.
pub(crate) fn make_named<F: Files>(
    files: &F,
    path: &str,
    mode: u32,
) -> io::Result<(ArrayString<PATH_LEN>, Noted<F>)>
    ensures named { IfOk result (λ made. LiesBeside path.now made.0.bytes) }
    ensures own { IfOk result (λ made. made_as made.1 ≡ opened_new made.0.bytes ∷ []) }
    ensures noted { IfOk result (λ made. beside_calls made.1 ≡ open_call [] ∷ []) }
    ensures beside { IfOk result (λ made. still_beside made.1 ≡ true) }
{
    for number in 0..NAMES {
        let Some(name) = name_beside(path, number) else {
            return Err(ErrorKind::InvalidFilename.into());
        };
        match make_beside(files, name.as_str(), path, mode) {
            Ok(file) => return Ok((name, file)),
            Err(error) if error.kind() == ErrorKind::AlreadyExists => {}
            Err(error) => return Err(error),
        }
    }
    Err(ErrorKind::AlreadyExists.into())
}
