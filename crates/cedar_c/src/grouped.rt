//! The changes of a store that go to the disk together, as one record.

ghost use Rattle.std.specs.Prelude.{◌≡◌, ◌⊎◌, ◌+◌, ◌<◌, ◌≤◌, ◌^◌, ◌++◌, ◌∷◌, ℕ, List, []};
ghost use Rattle.std.specs.Prelude.{IfErr, OnOk, drop, length, take};
ghost use Rattle.cedar_c.specs.Words.{append_works, format_if, frame_of, group_head};
ghost use Rattle.cedar_c.specs.Words.{group_records, IsGroup, LacksGroup, length_bytes, opening};
ghost use Rattle.cedar_c.specs.Words.{works_of, Plain, Summed};

use crate::planned::go_on;
use crate::records::format_if;
use crate::status::{NO_ROOM, OK, STORE_FULL, STORE_TOO_LONG};
use cedar_journal::{Format, MAX_END, MAX_PAYLOAD};
use cedar_plan::Plan;
use cedar_store::BATCH;
use crc32c::crc32c_joined;

/// Makes one record of those of several changes, and writes the plan by which it is appended where the records end; then they end
/// elsewhere. The record has a sum if those of the file have one. The records of the changes have none. They are in the buffer from its
/// seventh byte on, or from its eleventh if the file's records have sums, one after another, each without its last byte, as
/// `cedar_plan_put` and `cedar_plan_erase` have written them, and have so many bytes together. The byte after them is written to as well.
///
/// # Errors
/// `STORE_FULL` if the records end after 2^60 bytes, `STORE_TOO_LONG` if those of the changes have 2^32 - 1 bytes or more, `NO_ROOM` if the
/// buffer has fewer than 7 elements more, or 11 with a sum. Then nothing changes.
#[unsafe(no_mangle)]
pub extern "C" fn cedar_plan_group(
    size: usize,
    is_summed: bool,
    end: &mut usize,
    buffer: &mut [u8],
    plan: &mut Plan,
) -> u32
    //= Once the plan of a group is carried out, a file that represented some dictionary represents the one with all changes of the group,
    //  in their order, on the disk, and has one record more. A crash at any moment, even if a step fails, leaves the one or the other. [by
    //  IsGroup, IsChangePlan]
    ensures planned { result ≡ OK → IsGroup (works_of buffer.new plan.new) (format_if is_summed) end.old end.new
        (group_records (format_if is_summed) size buffer.old) }

    //= The plan of a group has two steps, and no other one: the group's record is written after the closed gate, and then that is opened.
    //  The records end behind it then. [with works, end]
    ensures steps { result ≡ OK → plan.new.count ≡ 2 }
    ensures works { result ≡ OK → works_of buffer.new plan.new ≡ append_works (format_if is_summed) end.old (2 ∷ group_records (format_if is_summed) size buffer.old) }
    ensures end { result ≡ OK → end.new ≡ end.old + group_head (format_if is_summed) + size }

    //= A group is refused exactly if the records end too far back, its record would be too long, or the buffer has too few elements. Then
    //  nothing changes. [with untold]
    ensures refused { (result ≡ OK) ⊎ LacksGroup (format_if is_summed) end.old size (length buffer.old) result }
    ensures untold { (result ≡ OK) ⊎ ((end.new ≡ end.old) × (plan.new ≡ plan.old) × (buffer.new ≡ buffer.old)) }
{
    let format = format_if(is_summed);
    if let Err(status) = check_room(format, size, *end, buffer.len()) {
        return status;
    }
    frame_group(format, size, buffer);
    go_on(size + head_len(format) + 1, end, plan);
    OK
}

/// How many bytes come before the records of a group: the gate of its own record, its length in four bytes, what kind it is of, and in
/// version 2 its sum in four bytes.
fn head_len(format: Format) -> usize
    ensures { result ≡ group_head format }
{
    format.overhead() + 1
}

/// Whether records of so many bytes can be made one, for a file with records of this format that end here, in so many elements.
fn check_room(format: Format, size: usize, end: usize, places: usize) -> Result<(), u32>
    ensures room { OnOk result (end < 2 ^ 60) }
    ensures short { OnOk result (size + 1 < 2 ^ 32) }
    ensures places { OnOk result (size + group_head format + 1 ≤ places) }
    ensures refused { IfErr result (λ status. LacksGroup format end size places status) }
{
    if end >= MAX_END {
        return Err(STORE_FULL);
    }
    if size >= MAX_PAYLOAD {
        return Err(STORE_TOO_LONG);
    }
    if places < size + head_len(format) + 1 {
        return Err(NO_ROOM);
    }
    Ok(())
}

/// Writes the head of a group's record in front of the records of its changes, and the closed gate after them.
fn frame_group(format: Format, size: usize, buffer: &mut [u8])
    requires short { size + 1 < 2 ^ 32 }
    requires room { size + group_head format + 1 ≤ length buffer.old }
    ensures { (rest : List ℕ) × (buffer.new ≡ (opening format ∷ frame_of format (2 ∷ take size (drop (group_head format) buffer.old))) ++ rest) }
{
    match format {
        Format::Plain => frame_plain(size, buffer),
        Format::Summed => frame_summed(size, buffer),
    }
}

/// As `frame_group`, of version 1.
fn frame_plain(size: usize, buffer: &mut [u8])
    requires short { size + 1 < 2 ^ 32 }
    requires room { size + 7 ≤ length buffer.old }
    ensures { (rest : List ℕ) × (buffer.new ≡ (opening Plain ∷ frame_of Plain (2 ∷ take size (drop 6 buffer.old))) ++ rest) }
{
    buffer[0] = 1;
    buffer[1..6].copy_from_slice(&group_start(size));
    buffer[size + 6] = 0;
}

/// As `frame_group`, of version 2.
fn frame_summed(size: usize, buffer: &mut [u8])
    requires short { size + 1 < 2 ^ 32 }
    requires room { size + 11 ≤ length buffer.old }
    ensures { (rest : List ℕ) × (buffer.new ≡ (opening Summed ∷ frame_of Summed (2 ∷ take size (drop 10 buffer.old))) ++ rest) }
{
    let start = group_start(size);
    let sum = crc32c_joined(&start, &buffer[10..10 + size]);
    buffer[0] = 255;
    buffer[1..5].copy_from_slice(&digits(sum as usize));
    buffer[5..10].copy_from_slice(&start);
    buffer[size + 10] = 0;
}

/// The length of a group's record whose changes have records of so many bytes, and what kind it is of.
fn group_start(size: usize) -> [u8; 5]
    requires { size + 1 < 2 ^ 32 }
    ensures { result ≡ length_bytes (size + 1) ++ 2 ∷ [] }
{
    let length = size + 1;
    [
        (length % 256) as u8,
        (length / 256 % 256) as u8,
        (length / 65536 % 256) as u8,
        (length / 16777216 % 256) as u8,
        BATCH,
    ]
}

/// A number in four bytes, the lowest first.
fn digits(number: usize) -> [u8; 4]
    ensures { result ≡ length_bytes number }
{
    [
        (number % 256) as u8,
        (number / 256 % 256) as u8,
        (number / 65536 % 256) as u8,
        (number / 16777216 % 256) as u8,
    ]
}
