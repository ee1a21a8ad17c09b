//! A list or a text that is read: a file, or standard input.

use crate::fault::Fault;
use crate::meter::Meter;
use std::alloc::Global;
use std::fs::File;
use std::io;
use std::io::{BufReader, Read};
use std::rt::Files;

/// Where inputs come from: standard input, and what counts the bytes that are read.
#[derive(Drop)]
pub(crate) struct Source<R, M> {
    pub standard: R,
    pub meter: M,
}

/// A file, or standard input.
#[derive(Drop)]
pub(crate) enum Input<R, F> {
    Standard(R),
    File(F),
}

impl<R: Read, F: Read> Read for Input<R, F> {
    fn read(&mut self, buf: &mut [u8]) -> io::Result<usize> {
        match self {
            Input::Standard(reader) => reader.read(buf),
            Input::File(file) => file.read(buf),
        }
    }
}

/// An input whose bytes are counted.
#[derive(Drop)]
pub(crate) struct Counted<R, F, M> {
    input: Input<R, F>,
    meter: M,
}

impl<R: Read, F: Read, M: Meter> Read for Counted<R, F, M> {
    fn read(&mut self, buf: &mut [u8]) -> io::Result<usize> {
        let count = self.input.read(buf)?;
        self.meter.count(count);
        Ok(count)
    }
}

/// Opens the file at a path, or takes standard input.
pub(crate) fn open<'m, F: Files, R: Read + Drop, M: Meter + Drop>(
    alloc: Global,
    files: &F,
    path: Option<&'m str>,
    source: Source<R, M>,
) -> Result<BufReader<Counted<R, F::File, M>>, Fault<'m>> {
    let Source { standard, meter } = source;
    let input = match path {
        Some(name) => match File::open(files, name) {
            Ok(file) => Input::File(file),
            Err(error) => return Err(Fault::Read(path, error)),
        },
        None => Input::Standard(standard),
    };
    match BufReader::new(alloc, Counted { input, meter }) {
        Ok(reader) => Ok(reader),
        Err(_) => Err(Fault::Memory),
    }
}

/// All bytes that a file has, or standard input.
pub(crate) fn read_all<'m, R: Read>(
    alloc: Global,
    path: Option<&'m str>,
    reader: &mut R,
) -> Result<Vec<u8>, Fault<'m>> {
    let mut bytes = Vec::new(alloc);
    match reader.read_to_end(&mut bytes) {
        Ok(_) => Ok(bytes),
        Err(error) => Err(Fault::Read(path, error)),
    }
}

/// All bytes of a file.
pub(crate) fn read_file<'m, F: Files>(
    alloc: Global,
    files: &F,
    path: &'m str,
) -> Result<Vec<u8>, Fault<'m>> {
    match File::open(files, path) {
        Ok(mut file) => read_all(alloc, Some(path), &mut file),
        Err(error) => Err(Fault::Read(Some(path), error)),
    }
}
