//! Plans: the steps by which a file is opened, and by which a record is appended; and records as they are written.

ghost use Rattle.std.specs.Prelude.{◌≡◌, ◌+◌, ◌<◌, ◌^◌, ◌++◌, ◌∷◌, ℕ, ◌≤◌, IfOk, IsErrOf, length};
ghost use Rattle.std.specs.Prelude.{List, [], true};
ghost use Rattle.cedar_plan.specs.Words.{cut_to, ends_closed, frame_of, header, opening};
ghost use Rattle.cedar_plan.specs.Words.{opening_works, PlansAppend, works_of, HasExtent};
ghost use Rattle.cedar_plan.specs.Words.{is_at_rest, Plain, Summed, write_to};

use cedar_journal::{Extent, Format, FrameError, MAX_PAYLOAD, push_frame};
use std::alloc::Allocator;

/// The kind of a step that cuts the file to its first `at` bytes, and waits until the disk has that.
pub const CUT: u32 = 0;

/// The kind of a step that writes bytes from the byte `at` on, and waits until the disk has them.
pub const WRITE: u32 = 1;

/// The header of a new journal, whose records are of version 2, and the closed gate after it.
pub const HEADER: [u8; 14] = *b"\x01\x08\0\0\0CEDARJ\x02\xfd\0";

/// One step. A write writes `length` of the plan's bytes from `from` on.
#[repr(C)]
#[derive(Clone, Copy, Debug, PartialEq, Eq)]
pub struct Step {
    pub kind: u32,
    pub at: usize,
    pub from: usize,
    pub length: usize,
}

/// What a plan has after its last step.
const NOTHING: Step = Step {
    kind: CUT,
    at: 0,
    from: 0,
    length: 0,
};

/// The first `count` of its steps, to be carried out one after another: there may be none.
#[repr(C)]
#[derive(Clone, Copy, Debug, PartialEq, Eq)]
pub struct Plan {
    pub count: usize,
    pub first: Step,
    pub second: Step,
    pub third: Step,
    pub fourth: Step,
}

/// The plan that has nothing to be done.
const NO_STEPS: Plan = Plan {
    count: 0,
    first: NOTHING,
    second: NOTHING,
    third: NOTHING,
    fourth: NOTHING,
};

/// Returns the plan that opens a file of these bytes and this extent. The plan's bytes begin with those of `HEADER`. What a crash has left
/// after the whole records is cut off, and a closed gate is written there; a new file gets its header. If only a closed gate comes after
/// the records, the plan has no step.
pub fn plan_opening(extent: Extent, bytes: &[u8]) -> Plan
    requires extent { HasExtent bytes.now extent }
    //= The plan of an opening cuts the file after its whole records and writes a closed gate there; of a new file it leaves only the
    //  header.
    ensures works { (rest : List ℕ) → works_of (header ++ rest) result ≡ opening_works bytes.now extent }
    //= A file that is at rest is opened by a plan of no steps.
    ensures at_rest { is_at_rest bytes.now extent ≡ true → result.count ≡ 0 }
    //= The plan of an opening has no more steps than a plan has room for.
    ensures steps { result.count ≤ 4 }
{
    match extent {
        Extent::New => plan_header(),
        Extent::Until(_, end) => {
            if ends_closed(bytes, end) {
                return NO_STEPS;
            }
            plan_end(end)
        }
    }
}

/// Whether one byte is left behind a position, a closed gate.
fn ends_closed(bytes: &[u8], end: usize) -> bool
    requires { end ≤ length bytes.now }
    ensures { result ≡ ends_closed bytes.now end }
{
    bytes.len() - end == 1 && bytes[end] == 0
}

/// The plan by which a new file gets its header.
fn plan_header() -> Plan
    ensures works { (file : List ℕ) (rest : List ℕ) → works_of (header ++ rest) result ≡ opening_works file Extent.New }
    ensures steps { result.count ≤ 4 }
{
    Plan {
        count: 4,
        first: Step {
            kind: CUT,
            at: 0,
            from: 0,
            length: 0,
        },
        second: Step {
            kind: WRITE,
            at: 0,
            from: 13,
            length: 1,
        },
        third: Step {
            kind: WRITE,
            at: 1,
            from: 1,
            length: 13,
        },
        fourth: Step {
            kind: WRITE,
            at: 0,
            from: 0,
            length: 1,
        },
    }
}

/// The plan by which a file gets a closed gate after its whole records.
fn plan_end(end: usize) -> Plan
    ensures works { (rest : List ℕ) → works_of (header ++ rest) result ≡ cut_to end ∷ write_to end (0 ∷ []) ∷ [] }
    ensures steps { result.count ≤ 4 }
{
    Plan {
        count: 2,
        first: Step {
            kind: CUT,
            at: end,
            from: 0,
            length: 0,
        },
        second: Step {
            kind: WRITE,
            at: end,
            from: 13,
            length: 1,
        },
        third: NOTHING,
        fourth: NOTHING,
    }
}

/// Returns the plan that appends a record where the records end. Its bytes begin with the record, as `record_of` makes it, which has
/// `size` bytes.
pub fn plan_append(end: usize, size: usize) -> Plan
    requires room { end < 2 ^ 60 }
    requires some { 0 < size }
    //= The plan of a record of either format writes it after the closed gate, and then opens that.
    ensures { PlansAppend result size end }
{
    Plan {
        count: 2,
        first: Step {
            kind: WRITE,
            at: end + 1,
            from: 1,
            length: size - 1,
        },
        second: Step {
            kind: WRITE,
            at: end,
            from: 0,
            length: 1,
        },
        third: NOTHING,
        fourth: NOTHING,
    }
}

/// Returns the record of a payload as it is in a file of this format once it counts, and the closed gate after it. It allocates 6 bytes
/// more than the payload has, or 10 in version 2.
///
/// # Errors
/// `TooLong` if the payload is longer than `MAX_PAYLOAD`, `Memory` if the allocation failed.
pub fn record_of<A: Allocator>(
    alloc: A,
    format: Format,
    payload: &[u8],
) -> Result<Vec<u8, A>, FrameError>
    //= A record for a plan is an open gate, the frame of its payload, and a closed gate, as the format has them; exactly a payload of 2^32
    //  bytes or more is refused as too long. [with long, refused]
    ensures written { IfOk result (λ bytes. bytes.items ≡ opening format ∷ frame_of format payload.now) }
    ensures long { IsErrOf result FrameError.TooLong → 2 ^ 32 ≤ length payload.now }
    ensures refused { 2 ^ 32 ≤ length payload.now → IsErrOf result FrameError.TooLong }
{
    if payload.len() > MAX_PAYLOAD {
        return Err(FrameError::TooLong);
    }
    match format {
        Format::Plain => plain_record(alloc, payload),
        Format::Summed => summed_record(alloc, payload),
    }
}

/// The record of a payload in version 1.
fn plain_record<A: Allocator>(alloc: A, payload: &[u8]) -> Result<Vec<u8, A>, FrameError>
    requires { length payload.now < 2 ^ 32 }
    ensures written { IfOk result (λ bytes. bytes.items ≡ 1 ∷ frame_of Plain payload.now) }
    ensures memory { IsErrOf result FrameError.TooLong → ⊥ }
{
    let len = payload.len();
    let mut bytes = Vec::with_capacity(alloc, len + 6)?;
    bytes.push(1)?;
    bytes.push((len % 256) as u8)?;
    bytes.push((len / 256 % 256) as u8)?;
    bytes.push((len / 65536 % 256) as u8)?;
    bytes.push((len / 16777216 % 256) as u8)?;
    bytes.extend_from_slice(payload)?;
    bytes.push(0)?;
    Ok(bytes)
}

/// The record of a payload in version 2.
fn summed_record<A: Allocator>(alloc: A, payload: &[u8]) -> Result<Vec<u8, A>, FrameError>
    requires { length payload.now < 2 ^ 32 }
    ensures written { IfOk result (λ bytes. bytes.items ≡ 255 ∷ frame_of Summed payload.now) }
    ensures memory { IsErrOf result FrameError.TooLong → ⊥ }
{
    let mut bytes = Vec::with_capacity(alloc, payload.len() + 10)?;
    bytes.push(255)?;
    push_frame(&mut bytes, payload)?;
    Ok(bytes)
}
