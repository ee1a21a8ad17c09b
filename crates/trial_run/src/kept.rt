//! What is kept on the disk: the records 0, 1 and so on of a journal.

ghost use Rattle.cedar_journal.specs.Words.{IfOk, IsSettled, Only};

use anyhow::{Result, bail};
use cedar_disk::ReplaceDevice;
use cedar_journal::{Device, Extent, Format, Frame, HEADER_LEN, Journal, extent_of, next_payload};
use std::alloc::{AllocError, Global};

/// Appends so many records, numbered on from those that are there.
pub(crate) fn append<D: Device + Drop>(rt: &HostRuntime, device: D, count: u64) -> Result<()>
    requires restarted { Only (D.seen device) (D.may_leave device) }
{
    let (mut journal, held) = open(device, rt.alloc())?;
    for turn in 0..count {
        let number = held.saturating_add(turn);
        let Ok(frame) = Frame::new(rt.alloc(), &payload(rt.alloc(), number)?) else {
            bail!("out of memory");
        };
        match journal.append(&frame) {
            Ok(()) => println!(rt; "{number}")?,
            Err(_) => bail!("the disk failed, or is full"),
        }
    }
    Ok(())
}

/// Opens what is on a device, and tests whether each record is the one of its number. Also returns how many there are.
pub(crate) fn open<D: Device + Drop>(device: D, alloc: Global) -> Result<(Journal<D>, u64)>
    requires restarted { Only (D.seen device) (D.may_leave device) }
    ensures settled { IfOk result (λ kept. IsSettled D.seen D.may_leave kept.0.device kept.0.format kept.0.end) }
{
    let mut device = device;
    let Ok(bytes) = device.read(alloc) else {
        bail!("the disk failed");
    };
    let Ok(extent) = extent_of(&bytes) else {
        bail!("the file is damaged, or of another kind");
    };
    let count = match extent {
        Extent::New => 0,
        Extent::Until(format, _) => records(alloc, format, &bytes)?,
    };
    match Journal::open_read(device, extent, &bytes) {
        Ok(journal) => Ok((journal, count)),
        Err(_) => bail!("the disk failed"),
    }
}

/// Replaces a device's bytes with the same bytes.
pub(crate) fn rewrite<D: ReplaceDevice + Drop>(device: D, alloc: Global) -> Result<()> {
    let mut device = device;
    let Ok(bytes) = device.read(alloc) else {
        bail!("the disk failed");
    };
    match device.replace(&bytes) {
        Ok(()) => Ok(()),
        Err(_) => bail!("the disk failed"),
    }
}

/// Returns how many records a journal's file has, each of which has to be the one of its number.
fn records(alloc: Global, format: Format, file: &[u8]) -> Result<u64> {
    let mut rest = file.get(HEADER_LEN..).unwrap_or_default();
    let mut count = 0;
    for number in 0..file.len() as u64 {
        let Some(found) = next_payload(format, rest) else {
            break;
        };
        if found != payload(alloc, number)?.as_slice() {
            bail!("record {number} is another one");
        }
        count = number + 1;
        rest = &rest[format.overhead() + found.len()..];
    }
    Ok(count)
}

/// Returns the payload of the record of a number: the number, and up to 60 bytes that it determines.
fn payload(alloc: Global, number: u64) -> Result<Vec<u8>, AllocError> {
    let mut payload = Vec::new(alloc);
    payload.extend_from_slice(&number.to_le_bytes())?;
    for _ in 0..number % 61 {
        payload.push((number % 251) as u8)?;
    }
    Ok(payload)
}
