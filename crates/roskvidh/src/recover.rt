//! New stores, made of what is whole in the files of damaged ones.

ghost use Rattle.roskvidh.specs.Words.{Only};

use crate::fault::{Fault, tell_input};
use crate::input::read_file;
use crate::request::Recover;
use cedar_disk::{FileDevice, LockFile, OpenError};
use cedar_journal::{Device, Format, HEADER_LEN, Image, ReplaceDevice, next_payload};
use cedar_salvage::{Kind, format_of, kind_of, salvage, store_with};
use cedar_store::DurableError;
use cedarwood::Watched;
use std::alloc::Global;
use std::fs::{self, File};
use std::io::{ErrorKind, Write};
use std::rt::Files;

/// What is reported of a file whose records have no sums.
const SUMLESS: &str =
    "its records are of version 1 and have no sums, so only those in front of the first bad one are taken";

/// How many records of each kind were taken, and how many bytes they have in a file of version 2, with the header and the closed gate.
#[derive(Clone, Copy)]
struct Taken {
    puts: usize,
    erasures: usize,
    batches: usize,
    bytes: usize,
}

/// Makes a new store of what is whole in a damaged one, and says what that is.
pub(crate) fn recover<'m, F: Files + Copy + Drop, W: Write, E: Write>(
    alloc: Global,
    files: &F,
    asked: Recover<'m>,
    writer: &mut Watched<W>,
    errors: &mut Watched<E>,
) -> Result<(), Fault<'m>>
where
    F::File: LockFile,
{
    let bytes = read_file(alloc, files, asked.old)?;
    let Ok(image) = salvage(alloc, &bytes) else {
        return Err(Fault::Memory);
    };
    let taken = taken_of(image.bytes());
    let format = format_of(&bytes);
    if format.is_none() && taken.count() == 0 {
        return Err(Fault::Store(asked.old, DurableError::Foreign));
    }
    make_store(alloc, files, asked.new, &image)?;
    if format == Some(Format::Plain) {
        tell_input(errors, asked.old, SUMLESS);
    }
    tell_taken(writer, taken, passed_by(&bytes, format, taken))
}

/// Makes a new store of these records at a path. If that fails, what was made there is removed.
fn make_store<'m, F: Files + Copy + Drop>(
    alloc: Global,
    files: &F,
    path: &'m str,
    image: &Image<Global>,
) -> Result<(), Fault<'m>>
where
    F::File: LockFile,
{
    // This fails if anything has the name. So what is there from now on is this call's own.
    if let Err(error) = File::create_new(files, path) {
        return Err(Fault::Read(Some(path), error));
    }
    let fault = match FileDevice::open_existing(*files, alloc, path) {
        Ok(device) => return fill_store(alloc, files, device, path, image),
        // Another process was faster to lock it: it is that one's now.
        Err(OpenError::Locked) => return Err(Fault::Locked(path)),
        Err(OpenError::Memory) => Fault::Memory,
        Err(OpenError::Io(error)) => Fault::Read(Some(path), error),
    };
    remove_empty(files, path);
    Err(fault)
}

/// Makes a new store of these records on a device of the file at a path. If that fails, the file is removed.
fn fill_store<'m, D: ReplaceDevice + Drop, F: Files>(
    alloc: Global,
    files: &F,
    device: D,
    path: &'m str,
    image: &Image<Global>,
) -> Result<(), Fault<'m>>
    requires restarted { Only (D.seen device) (D.may_leave device) }
{
    let mut device = device;
    if !is_empty(alloc, &mut device) {
        // Another process was faster to lock it, and has written it: it is that one's now. Or it can't be read.
        drop(device);
        remove_empty(files, path);
        return Err(Fault::Read(Some(path), ErrorKind::AlreadyExists.into()));
    }
    match store_with(alloc, device, image) {
        Ok(_) => Ok(()),
        Err((error, device)) => {
            // It is still locked.
            let _ = fs::remove_file(files, path);
            drop(device);
            Err(Fault::Store(path, error))
        }
    }
}

/// Whether a device can be read and has no bytes.
fn is_empty<D: Device>(alloc: Global, device: &mut D) -> bool
    requires restarted { Only (D.seen device.old) (D.may_leave device.old) }
    ensures restarted { Only (D.seen device.new) (D.may_leave device.new) }
{
    match device.read(alloc) {
        Ok(bytes) => bytes.is_empty(),
        Err(_) => false,
    }
}

/// Removes the file at a path, if it has no bytes.
fn remove_empty<F: Files>(files: &F, path: &str) {
    match fs::symlink_metadata(files, path) {
        Ok(found) if found.is_file() && found.len() == 0 => {
            let _ = fs::remove_file(files, path);
        }
        _ => {}
    }
}

/// What records a file of version 2 has.
fn taken_of(bytes: &[u8]) -> Taken {
    let mut taken = Taken {
        puts: 0,
        erasures: 0,
        batches: 0,
        bytes: bytes.len(),
    };
    let mut rest = bytes.get(HEADER_LEN..).unwrap_or_default();
    for _ in 0..bytes.len() {
        let Some(payload) = next_payload(Format::Summed, rest) else {
            break;
        };
        taken.add(kind_of(payload));
        rest = &rest[Format::Summed.overhead() + payload.len()..];
    }
    taken
}

/// How many bytes of a file of this format belong to no record that was taken, besides a header and a closed gate.
fn passed_by(bytes: &[u8], format: Option<Format>, taken: Taken) -> usize {
    let sums = match format {
        // Those that the records have got.
        Some(Format::Plain) => taken.count().saturating_mul(4),
        _ => 0,
    };
    bytes.len().saturating_sub(taken.bytes.saturating_sub(sums))
}

/// Writes what was taken, and how many bytes weren't, a line each.
fn tell_taken<'m, W: Write>(
    writer: &mut Watched<W>,
    taken: Taken,
    passed: usize,
) -> Result<(), Fault<'m>> {
    let rows = [
        ("words stored", taken.puts),
        ("words removed", taken.erasures),
        ("lists", taken.batches),
        ("bytes passed by", passed),
    ];
    for (name, number) in &rows {
        if writeln!(writer, "{name}\t{number}").is_err() {
            return Err(Fault::Write);
        }
    }
    Ok(())
}

impl Taken {
    /// Adds a record with a change of this kind.
    fn add(&mut self, kind: Option<Kind>) {
        let count = match kind {
            Some(Kind::Put) => &mut self.puts,
            Some(Kind::Erasure) => &mut self.erasures,
            Some(Kind::Batch) => &mut self.batches,
            None => return,
        };
        *count = count.saturating_add(1);
    }

    /// How many records these are.
    fn count(self) -> usize {
        self.puts
            .saturating_add(self.erasures)
            .saturating_add(self.batches)
    }
}
