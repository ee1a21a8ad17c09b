//! A run of a script: lines in, answers out.

ghost use Rattle.std.specs.Prelude.{◌++◌, ◌+◌, ◌<◌, ◌∷◌, ◌≡◌, ◌≤◌, [], false, IfErr, IfOk};
ghost use Rattle.std.specs.Prelude.{IfSome, length, OnErr, OnOk, position, true, vec_capacity};
ghost use Rattle.cedar_cli.specs.Words.{AdvancesBy, Answers, AnswersOrFails, bad_line_of};
ghost use Rattle.cedar_cli.specs.Words.{Continues, EndsInput};
ghost use Rattle.cedar_cli.specs.Words.{FinishesAll, FinishesComing, GrowsBefore, GrowsWithin};
ghost use Rattle.cedar_cli.specs.Words.{has_failed, HasLineRoom, HasNoNewline, held_by, is_newline};
ghost use Rattle.cedar_cli.specs.Words.{LineMayLackMemory, OnlyFlushFails, OnWriter, order_of};
ghost use Rattle.cedar_cli.specs.Words.{StopsOn, TellsInput, TellsText, Unwritten};

use crate::flushes::{Flushes, flush_answers};
use crate::reasons::{LineReports, NoReports};
use crate::verbs::answer_line;
use cedarwood::{Layout, Trie, Watched};
use device_lines::{WriteFault, position_of};
use std::alloc::{AllocError, Allocator};
use std::io::{Read, Write};

/// Why a run ended before its script did.
#[derive(Clone, Copy, Debug, PartialEq, Eq)]
pub enum ScriptError {
    /// The reader failed.
    Read,
    /// The writer failed.
    Write,
    /// An allocation was refused.
    Memory,
    /// No slot is left in the dictionary.
    SlotLimit,
}

impl From<WriteFault> for ScriptError {
    //= A write that failed ends a run as `Write`.
    ghost from_gives = { λ _ error. error ≡ Unwritten };

    fn from(_: WriteFault) -> ScriptError {
        ScriptError::Write
    }
}

/// A run ends after this many reads, as at the end of its input.
const MAX_READS: u64 = 1 << 63;

/// A read takes this many bytes at most.
const CHUNK: usize = 8192;

/// A line of up to this many bytes has room that is allocated once.
const LINE_ROOM: usize = 8192;

/// So has its key, which has a byte for two of the line's.
const KEY_ROOM: usize = 4096;

/// Runs each line of what the reader has left, and writes its answer. Memory holds one line, half as many bytes for its key, and one key of
/// an iteration. Answers are flushed before the next read, so that one who waits for an answer before the next line gets it.
///
/// A line is the bytes up to byte 10 (`\n`); a last nonempty piece without it is a line too. A line is finished when its answer has been
/// written whole, and keys and values are always those of the finished lines. So are the slots that are in use, except after a fault of the
/// writer: in the reduced layout a value that was undone may leave those of shorter keys in slots of their own.
///
/// # Errors
/// The first fault ends the run, except that of a flush: `Read` or `Write` if the device failed (an interrupted call is a fault), `Memory` if
/// an allocation was refused, `SlotLimit` if all slots that there may be are in use. After a flush that failed the answers to come are still
/// written, and the run fails with `Write` however it ends. What was written begins with the answers of the finished lines. A line that a
/// read fault cut has no answer. Room for lines of up to 8,192 bytes is allocated before the first read. After it a line fails with `Memory`
/// only if it is longer, if it lists all entries, or if the dictionary has no block spare and fewer slots than it may have.
pub fn run_script<L: Layout, const SLOTS: usize, A: Allocator + Copy, R: Read, W: Write>(
    alloc: A,
    trie: &mut Trie<L, SLOTS, A>,
    reader: &mut Watched<R>,
    writer: &mut Watched<W>,
) -> Result<(), ScriptError>
    //= `Ok`: the answers of all lines of the input were written, nothing else was, and the dictionary's state and marks are those of all
    //  lines. [also run_script_with_reports]
    //= Among the answers: that of `#` has how many keys are held and how many slots. By default these are `slots_of_tree`, and in the
    //  reduced layout one, plus its prefixes, plus the numbers that have slots of their own. [also run_script_with_reports; by answers,
    //  reply, slots_held]
    //= Which numbers have slots of their own is given line by line, by the keys that were stored and erased (`put_in`, `cut_in`). [also
    //  run_script_with_reports; by view_after_order]
    ensures ok { OnOk result (FinishesAll R.remaining reader.old W.contents writer.old writer.new L.kind trie.old trie.new) }

    //= After a fault the script's first lines are finished and no other: their answers were written, then at most a part of the next one's,
    //  never the whole. The state is theirs, and after any fault except `Write` the marks are too. [also run_script_with_reports; by Stays]
    //= So a put that is refused for lack of memory or slots moves no number into a slot, in either layout. One whose answer can't be
    //  written is undone, and in the reduced layout numbers of shorter keys may then keep slots. [also run_script_with_reports; by Stays]
    //= A run fails with `Memory` only before any line is finished, or if the next line has more than 8,192 bytes or lists all keys, or if
    //  the dictionary has no block spare and fewer slots than it may have. So after the first line, lack of slots is never reported as lack
    //  of memory, except at a line that long or such a list. [also run_script_with_reports; by MayStop]
    ensures err { IfErr result (EndsInput R.remaining reader.old W.contents writer.old writer.new SLOTS L.kind trie.old trie.new) }

    //= After a read fault the finished lines are all that came with their byte 10, and state and marks are theirs. [also
    //  run_script_with_reports]
    ensures read { result ≡ Err ScriptError.Read → FinishesComing R.remaining reader.old reader.new W.contents writer.old writer.new L.kind trie.old trie.new }

    //= A run fails with `Read` and `Write` only if the device failed, in this run or before (always). [with write_cause; also
    //  run_script_with_reports.read_cause.write_cause]
    ensures read_cause { result ≡ Err ScriptError.Read → has_failed reader.new ≡ true }
    ensures write_cause { result ≡ Err ScriptError.Write → has_failed writer.new ≡ true }

    //= It is `Ok` only if no call of a device failed in the run (always). [also run_script_with_reports]
    ensures unfailed { OnOk result ((has_failed reader.new ≡ has_failed reader.old) × (has_failed writer.new ≡ has_failed writer.old)) }

    //= It fails with `SlotLimit` only if all slots that there may be are in use at the end (always). [also run_script_with_reports]
    ensures limit { result ≡ Err ScriptError.SlotLimit → trie.new.size ≡ SLOTS }

    //= A run on an input of n bytes makes at most n blocks, however it ends (if the reader's bytes are known) (always). [also
    //  run_script_with_reports]
    ensures blocks { IfSome (held_by R.remaining reader.old) (λ input. GrowsWithin (length input) trie.old trie.new) }

    //= It fails with `Memory` and `SlotLimit` only if no call of a device failed in the run (always). [with full; also
    //  run_script_with_reports.starved.full]
    ensures starved { result ≡ Err ScriptError.Memory → (has_failed reader.new ≡ has_failed reader.old) × (has_failed writer.new ≡ has_failed writer.old) }
    ensures full { result ≡ Err ScriptError.SlotLimit → (has_failed reader.new ≡ has_failed reader.old) × (has_failed writer.new ≡ has_failed writer.old) }

    //= `max_trial` doesn't change (always). [also run_script_with_reports]
    ensures max_trial { trie.new.max_trial ≡ trie.old.max_trial }
{
    run_script_with_reports(alloc, trie, reader, writer, &mut NoReports)
}

/// As [`run_script`], and tells of each line, before it is answered, why it is bad, or that it is an order. Its other clauses are those of
/// [`run_script`].
///
/// # Errors
/// As [`run_script`].
pub fn run_script_with_reports<
    L: Layout,
    const SLOTS: usize,
    A: Allocator + Copy,
    R: Read,
    W: Write,
    B: LineReports,
>(
    alloc: A,
    trie: &mut Trie<L, SLOTS, A>,
    reader: &mut Watched<R>,
    writer: &mut Watched<W>,
    reports: &mut B,
) -> Result<(), ScriptError>
    ensures ok { OnOk result (FinishesAll R.remaining reader.old W.contents writer.old writer.new L.kind trie.old trie.new) }
    ensures err { IfErr result (EndsInput R.remaining reader.old W.contents writer.old writer.new SLOTS L.kind trie.old trie.new) }
    ensures read { result ≡ Err ScriptError.Read → FinishesComing R.remaining reader.old reader.new W.contents writer.old writer.new L.kind trie.old trie.new }
    ensures read_cause { result ≡ Err ScriptError.Read → has_failed reader.new ≡ true }
    ensures write_cause { result ≡ Err ScriptError.Write → has_failed writer.new ≡ true }
    ensures unfailed { OnOk result ((has_failed reader.new ≡ has_failed reader.old) × (has_failed writer.new ≡ has_failed writer.old)) }
    ensures limit { result ≡ Err ScriptError.SlotLimit → trie.new.size ≡ SLOTS }
    ensures blocks { IfSome (held_by R.remaining reader.old) (λ input. GrowsWithin (length input) trie.old trie.new) }
    ensures starved { result ≡ Err ScriptError.Memory → (has_failed reader.new ≡ has_failed reader.old) × (has_failed writer.new ≡ has_failed writer.old) }
    ensures full { result ≡ Err ScriptError.SlotLimit → (has_failed reader.new ≡ has_failed reader.old) × (has_failed writer.new ≡ has_failed writer.old) }
    ensures max_trial { trie.new.max_trial ≡ trie.old.max_trial }

    //= `Ok`: it told of each line of the input, in order, why it is bad, or nothing of one that is an order (if the input is known and
    //  shorter than 2^63 bytes). [by TellsInput, bad_line_of]
    ensures told { OnOk result (TellsInput R.remaining reader.old (B.told reports.old) (B.told reports.new)) }
{
    let mut flushes = Flushes {
        due: false,
        failed: false,
    };
    let outcome = answer_input(alloc, trie, reader, writer, &mut flushes, reports);
    if flushes.failed {
        return Err(ScriptError::Write);
    }
    outcome
}

/// Runs each line of what the reader has left. A flush that fails doesn't end it, and is reported in `flushes`.
fn answer_input<
    L: Layout,
    const SLOTS: usize,
    A: Allocator + Copy,
    R: Read,
    W: Write,
    B: LineReports,
>(
    alloc: A,
    trie: &mut Trie<L, SLOTS, A>,
    reader: &mut Watched<R>,
    writer: &mut Watched<W>,
    flushes: &mut Flushes,
    reports: &mut B,
) -> Result<(), ScriptError>
    requires fresh { flushes.old.failed ≡ false }
    ensures ok { OnOk result (FinishesAll R.remaining reader.old W.contents writer.old writer.new L.kind trie.old trie.new) }
    ensures err { IfErr result (EndsInput R.remaining reader.old W.contents writer.old writer.new SLOTS L.kind trie.old trie.new) }
    ensures read { result ≡ Err ScriptError.Read → FinishesComing R.remaining reader.old reader.new W.contents writer.old writer.new L.kind trie.old trie.new }
    ensures read_cause { result ≡ Err ScriptError.Read → has_failed reader.new ≡ true }
    ensures write_cause { result ≡ Err ScriptError.Write → has_failed writer.new ≡ true }
    ensures flush_cause { flushes.new.failed ≡ true → has_failed writer.new ≡ true }
    ensures unfailed { OnOk result (OnlyFlushFails flushes.new.failed reader.old reader.new writer.old writer.new) }
    ensures limit { result ≡ Err ScriptError.SlotLimit → trie.new.size ≡ SLOTS }
    ensures blocks { IfSome (held_by R.remaining reader.old) (λ input. GrowsWithin (length input) trie.old trie.new) }
    ensures starved { result ≡ Err ScriptError.Memory → OnlyFlushFails flushes.new.failed reader.old reader.new writer.old writer.new }
    ensures full { result ≡ Err ScriptError.SlotLimit → OnlyFlushFails flushes.new.failed reader.old reader.new writer.old writer.new }
    ensures max_trial { trie.new.max_trial ≡ trie.old.max_trial }
    ensures told { OnOk result (TellsInput R.remaining reader.old (B.told reports.old) (B.told reports.new)) }
{
    let Ok((mut line, mut key)) = line_room(alloc) else {
        return Err(ScriptError::Memory);
    };
    let mut chunk = [0u8; CHUNK];
    for turn in 0..MAX_READS {
        // Whoever waits for the answers so far gets them before more input is read.
        *flushes = flush_answers(writer, *flushes);
        let Ok(count) = reader.read(&mut chunk) else {
            return Err(ScriptError::Read);
        };
        if count == 0 {
            break;
        }
        let begun = line.len();
        take_bytes(trie, &mut line, &mut key, &chunk[..count], writer, reports)?;
        // A line was answered if the begun one didn't grow by all that came.
        flushes.due = line.len().saturating_sub(begun) < count;
    }
    if !line.is_empty() {
        answer_with_room(trie, line.as_slice(), &mut key, writer, reports)?;
    }
    Ok(())
}

/// Room for a line, which is empty, and for its key.
fn line_room<A: Allocator + Copy>(alloc: A) -> Result<(Vec<u8, A>, Vec<u8, A>), AllocError>
    ensures empty { IfOk result (λ made. made.0.items ≡ []) }
    ensures room { IfOk result (λ made. HasLineRoom (vec_capacity made.0) (length made.1.items)) }
{
    let line = Vec::with_capacity(alloc, LINE_ROOM)?;
    let key = key_room(alloc)?;
    Ok((line, key))
}

/// Room for the key of a line that has room.
fn key_room<A: Allocator + Copy>(alloc: A) -> Result<Vec<u8, A>, AllocError>
    ensures { IfOk result (λ key. length key.items ≡ 4096) }
{
    let mut key = Vec::new(alloc);
    key.resize(KEY_ROOM, 0)?;
    Ok(key)
}

/// Takes some bytes: each byte 10 among them ends a line, and what follows the last one begins the next.
fn take_bytes<L: Layout, const SLOTS: usize, A: Allocator + Copy, W: Write, B: LineReports>(
    trie: &mut Trie<L, SLOTS, A>,
    line: &mut Vec<u8, A>,
    key: &mut Vec<u8, A>,
    bytes: &[u8],
    writer: &mut Watched<W>,
    reports: &mut B,
) -> Result<(), ScriptError>
    requires open { HasNoNewline line.old.items }
    requires room { HasLineRoom (vec_capacity line.old) (length key.old.items) }
    ensures still_open { OnOk result (HasNoNewline line.new.items) }
    ensures kept { HasLineRoom (vec_capacity line.new) (length key.new.items) }
    ensures ok { OnOk result (OnWriter W.contents writer.old writer.new (AdvancesBy L.kind trie.old trie.new (line.old.items ++ bytes.now) line.new.items)) }
    ensures err { IfErr result (StopsOn W.contents writer.old writer.new SLOTS L.kind trie.old trie.new (line.old.items ++ bytes.now)) }
    ensures faults { AnswersOrFails (has_failed writer.old) (has_failed writer.new) result }
    ensures limit { result ≡ Err ScriptError.SlotLimit → trie.new.size ≡ SLOTS }
    ensures blocks_taken { OnOk result (GrowsBefore (length line.new.items) (length line.old.items + length bytes.now) trie.old trie.new) }
    ensures blocks_left { OnErr result (GrowsWithin (length line.old.items + length bytes.now) trie.old trie.new) }
    ensures max_trial { trie.new.max_trial ≡ trie.old.max_trial }
    ensures told { OnOk result (TellsText (B.told reports.old) (B.told reports.new) (line.old.items ++ bytes.now) line.new.items) }
{
    let mut rest = bytes;
    while let Some(at) = position_of_newline(rest) {
        end_line(trie, line, key, &rest[..at], writer, reports)?;
        rest = &rest[at + 1..];
    }
    match line.extend_from_slice(rest) {
        Ok(()) => Ok(()),
        Err(AllocError) => Err(ScriptError::Memory),
    }
}

/// Where the first byte 10 is.
fn position_of_newline(text: &[u8]) -> Option<usize>
    ensures first { result ≡ position is_newline text.now }
    ensures within { IfSome result (λ at. at < length text.now) }
{
    position_of(b'\n', text)
}

/// Runs a line that ends with a piece and byte 10. A line of one piece is run where it is.
fn end_line<L: Layout, const SLOTS: usize, A: Allocator + Copy, W: Write, B: LineReports>(
    trie: &mut Trie<L, SLOTS, A>,
    line: &mut Vec<u8, A>,
    key: &mut Vec<u8, A>,
    piece: &[u8],
    writer: &mut Watched<W>,
    reports: &mut B,
) -> Result<(), ScriptError>
    requires open { HasNoNewline line.old.items }
    requires open_piece { HasNoNewline piece.now }
    requires room { HasLineRoom (vec_capacity line.old) (length key.old.items) }
    ensures empty { OnOk result (line.new.items ≡ []) }
    ensures kept { HasLineRoom (vec_capacity line.new) (length key.new.items) }
    ensures ok { OnOk result (OnWriter W.contents writer.old writer.new (AdvancesBy L.kind trie.old trie.new (line.old.items ++ (piece.now ++ 10 ∷ [])) [])) }
    ensures err { IfErr result (StopsOn W.contents writer.old writer.new SLOTS L.kind trie.old trie.new (line.old.items ++ (piece.now ++ 10 ∷ []))) }
    ensures faults { AnswersOrFails (has_failed writer.old) (has_failed writer.new) result }
    ensures limit { result ≡ Err ScriptError.SlotLimit → trie.new.size ≡ SLOTS }
    ensures blocks { GrowsWithin (length line.old.items + length piece.now) trie.old trie.new }
    ensures max_trial { trie.new.max_trial ≡ trie.old.max_trial }
    ensures told { OnOk result (Continues (B.told reports.old) (B.told reports.new) (bad_line_of (line.old.items ++ piece.now) ∷ [])) }
{
    if line.is_empty() {
        return answer_with_room(trie, piece, key, writer, reports);
    }
    let Ok(()) = line.extend_from_slice(piece) else {
        return Err(ScriptError::Memory);
    };
    answer_with_room(trie, line.as_slice(), key, writer, reports)?;
    line.clear();
    Ok(())
}

/// Runs a line once there is room for its key. Only a line of more than 8,192 bytes allocates more of it.
fn answer_with_room<L: Layout, const SLOTS: usize, A: Allocator + Copy, W: Write, B: LineReports>(
    trie: &mut Trie<L, SLOTS, A>,
    line: &[u8],
    key: &mut Vec<u8, A>,
    writer: &mut Watched<W>,
    reports: &mut B,
) -> Result<(), ScriptError>
    requires room { 4096 ≤ length key.old.items }
    ensures kept { 4096 ≤ length key.new.items }
    ensures answer { Answers L.kind (order_of line.now) trie.old trie.new (held_by W.contents writer.old) (held_by W.contents writer.new) result }
    ensures faults { AnswersOrFails (has_failed writer.old) (has_failed writer.new) result }
    ensures memory { result ≡ Err ScriptError.Memory → LineMayLackMemory SLOTS line.now trie.new }
    ensures limit { result ≡ Err ScriptError.SlotLimit → trie.new.size ≡ SLOTS }
    ensures blocks { GrowsWithin (length line.now) trie.old trie.new }
    ensures max_trial { trie.new.max_trial ≡ trie.old.max_trial }
    ensures told { OnOk result (Continues (B.told reports.old) (B.told reports.new) (bad_line_of line.now ∷ [])) }
{
    let Ok(()) = make_room(key, line.len() - line.len() / 2) else {
        return Err(ScriptError::Memory);
    };
    answer_line(trie, line, key.as_mut_slice(), writer, reports)
}

/// Makes the room for a key at least so long, if it isn't.
fn make_room<A: Allocator>(key: &mut Vec<u8, A>, wanted: usize) -> Result<(), AllocError>
    ensures ok { OnOk result (wanted ≤ length key.new.items) }
    ensures kept { length key.old.items ≤ length key.new.items }
    ensures refused { OnErr result (length key.old.items < wanted) }
{
    if key.len() < wanted {
        return key.resize(wanted, 0);
    }
    Ok(())
}
