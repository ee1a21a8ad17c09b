//! The answer to one line. A line whose answer isn't written whole changes no key and no value.

ghost use Rattle.std.specs.Prelude.{◌*◌, ◌++◌, ◌<◌, ◌∷◌, ◌≡◌, ◌≤◌, [], decimal, IsSome};
ghost use Rattle.std.specs.Prelude.{length, MatchOption, Some};
ghost use Rattle.cedar_cli.specs.Words.{Answers, AnswersOrFails, bad_line_of, Continues};
ghost use Rattle.cedar_cli.specs.Words.{figures_text, found_text, Grows};
ghost use Rattle.cedar_cli.specs.Words.{GrowsWithin, has_failed, held_by, IsPairFault, IsTakenBack};
ghost use Rattle.cedar_cli.specs.Words.{MayLackMemory, number_at, order_of, put_text, WritesBytes};
ghost use Rattle.cedar_cli.specs.Words.{WritesOrFails};

use crate::answers::{write_entries, write_pairs, write_tokens};
use crate::command::{Verb, parse_line};
use crate::reasons::LineReports;
use crate::script::ScriptError;
use crate::write::{write_both, write_line, write_whole};
use cedar_words::segment;
use cedarwood::{CedarError, Layout, Trie, Watched};
use itoa::Buffer;
use std::alloc::Allocator;
use std::io::Write;

/// Does what a line says, and writes the answer; before that it tells whether the line is bad, and why. The line's key is read into `room`,
/// which has a byte for two of the line's. A line whose answer isn't written whole changes no key and no value.
pub(crate) fn answer_line<
    L: Layout,
    const SLOTS: usize,
    A: Allocator + Copy,
    W: Write,
    B: LineReports,
>(
    trie: &mut Trie<L, SLOTS, A>,
    line: &[u8],
    room: &mut [u8],
    writer: &mut Watched<W>,
    reports: &mut B,
) -> Result<(), ScriptError>
    requires room { length line.now ≤ 2 * length room.old }

    //= A line's answer and its effect are as DEFINITIONS says.
    ensures answer { Answers L.kind (order_of line.now) trie.old trie.new (held_by W.contents writer.old) (held_by W.contents writer.new) result }
    ensures faults { AnswersOrFails (has_failed writer.old) (has_failed writer.new) result }

    //= A line fails with `Memory` only if the dictionary has no block spare and fewer slots than it may have, or if the line lists all
    //  keys; with `SlotLimit` only if all slots are in use (always). [with limit; also answer_command]
    ensures memory { result ≡ Err ScriptError.Memory → MayLackMemory SLOTS (order_of line.now) trie.new }
    ensures limit { result ≡ Err ScriptError.SlotLimit → trie.new.size ≡ SLOTS }
    ensures blocks { GrowsWithin (length line.now) trie.old trie.new }
    ensures max_trial { trie.new.max_trial ≡ trie.old.max_trial }
    ensures len { length room.new ≡ length room.old }

    //= What is told of a line is why it is bad, or nothing if it is an order (always). [by bad_line_of]
    ensures told { Continues (B.told reports.old) (B.told reports.new) (bad_line_of line.now ∷ []) }
{
    match parse_line(line, room) {
        Err(bad) => {
            reports.tell(Some(bad));
            write_whole(writer, b"bad line\n")
        }
        Ok(command) => {
            reports.tell(None);
            let key = &room[..command.key_len];
            answer_command(trie, command.verb, key, writer)
        }
    }
}

/// Does what an order says, and writes the answer.
fn answer_command<L: Layout, const SLOTS: usize, A: Allocator + Copy, W: Write>(
    trie: &mut Trie<L, SLOTS, A>,
    verb: Verb,
    key: &[u8],
    writer: &mut Watched<W>,
) -> Result<(), ScriptError>
    ensures answer { Answers L.kind (Some (verb, key.now)) trie.old trie.new (held_by W.contents writer.old) (held_by W.contents writer.new) result }
    ensures faults { AnswersOrFails (has_failed writer.old) (has_failed writer.new) result }
    ensures memory { result ≡ Err ScriptError.Memory → MayLackMemory SLOTS (Some (verb, key.now)) trie.new }
    ensures limit { result ≡ Err ScriptError.SlotLimit → trie.new.size ≡ SLOTS }
    ensures blocks { GrowsWithin (length key.now) trie.old trie.new }
    ensures max_trial { trie.new.max_trial ≡ trie.old.max_trial }
{
    match verb {
        Verb::Put(value) => answer_put(trie, key, value, writer),
        Verb::Erase => answer_erase(trie, key, writer),
        Verb::Exact => answer_exact(trie, key, writer),
        Verb::Prefixes => answer_prefixes(trie, key, writer),
        Verb::Predict => answer_predict(trie, key, writer),
        Verb::Count => answer_count(trie, key, writer),
        Verb::Entries => answer_entries(trie, key, writer),
        Verb::Figures => answer_figures(trie, key, writer),
        Verb::Segment => answer_segment(trie, key, writer),
    }
}

/// Stores a value, and writes the answer. If the answer can't be written, the value is undone, which allocates nothing: the key is erased,
/// or its old value stored over the new one.
fn answer_put<L: Layout, const SLOTS: usize, A: Allocator + Copy, W: Write>(
    trie: &mut Trie<L, SLOTS, A>,
    key: &[u8],
    value: i32,
    writer: &mut Watched<W>,
) -> Result<(), ScriptError>
    ensures answer { Answers L.kind (Some (Verb.Put value, key.now)) trie.old trie.new (held_by W.contents writer.old) (held_by W.contents writer.new) result }
    ensures faults { AnswersOrFails (has_failed writer.old) (has_failed writer.new) result }
    ensures memory { result ≡ Err ScriptError.Memory → (trie.new.size ≡ trie.new.capacity) × (trie.new.capacity < SLOTS) }
    ensures limit { result ≡ Err ScriptError.SlotLimit → trie.new.size ≡ SLOTS }
    ensures blocks { GrowsWithin (length key.now) trie.old trie.new }
    ensures max_trial { trie.new.max_trial ≡ trie.old.max_trial }
{
    match trie.insert_bytes(key, value) {
        Ok(before) => {
            let written = write_whole(writer, b"ok\n");
            if written.is_err() {
                take_back(trie, key, before);
            }
            written
        }
        Err(error) => match error {
            CedarError::Memory => Err(ScriptError::Memory),
            CedarError::SlotLimit => Err(ScriptError::SlotLimit),
            error => write_refusal(writer, error),
        },
    }
}

/// Writes whether a key is held, and then removes it.
fn answer_erase<L: Layout, const SLOTS: usize, A: Allocator + Copy, W: Write>(
    trie: &mut Trie<L, SLOTS, A>,
    key: &[u8],
    writer: &mut Watched<W>,
) -> Result<(), ScriptError>
    ensures answer { Answers L.kind (Some (Verb.Erase, key.now)) trie.old trie.new (held_by W.contents writer.old) (held_by W.contents writer.new) result }
    ensures faults { WritesOrFails ScriptError.Write (has_failed writer.old) (has_failed writer.new) result }
    ensures blocks { Grows 0 trie.old trie.new }
    ensures max_trial { trie.new.max_trial ≡ trie.old.max_trial }
{
    let Some(found) = trie.find_bytes(key) else {
        return write_whole(writer, b"absent\n");
    };
    write_whole(writer, b"erased\n")?;
    trie.erase_found(key, found);
    Ok(())
}

/// Writes what a key holds.
fn answer_exact<L: Layout, const SLOTS: usize, A: Allocator + Copy, W: Write>(
    trie: &Trie<L, SLOTS, A>,
    key: &[u8],
    writer: &mut Watched<W>,
) -> Result<(), ScriptError>
    ensures answer { Answers L.kind (Some (Verb.Exact, key.now)) trie.now trie.now (held_by W.contents writer.old) (held_by W.contents writer.new) result }
    ensures faults { WritesOrFails ScriptError.Write (has_failed writer.old) (has_failed writer.new) result }
{
    match trie.exact_match_search_bytes(key) {
        Some((value, length)) => write_found(writer, value, length),
        None => write_whole(writer, b"none\n"),
    }
}

/// Writes the prefixes of a query that are held.
fn answer_prefixes<L: Layout, const SLOTS: usize, A: Allocator + Copy, W: Write>(
    trie: &Trie<L, SLOTS, A>,
    key: &[u8],
    writer: &mut Watched<W>,
) -> Result<(), ScriptError>
    ensures answer { Answers L.kind (Some (Verb.Prefixes, key.now)) trie.now trie.now (held_by W.contents writer.old) (held_by W.contents writer.new) result }
    ensures faults { WritesOrFails ScriptError.Write (has_failed writer.old) (has_failed writer.new) result }
{
    write_pairs(writer, &mut trie.common_prefix_iter_bytes(key))
}

/// Writes the keys that begin with a query.
fn answer_predict<L: Layout, const SLOTS: usize, A: Allocator + Copy, W: Write>(
    trie: &Trie<L, SLOTS, A>,
    key: &[u8],
    writer: &mut Watched<W>,
) -> Result<(), ScriptError>
    ensures answer { Answers L.kind (Some (Verb.Predict, key.now)) trie.now trie.now (held_by W.contents writer.old) (held_by W.contents writer.new) result }
    ensures faults { WritesOrFails ScriptError.Write (has_failed writer.old) (has_failed writer.new) result }
{
    write_pairs(writer, &mut trie.common_prefix_predict_iter_bytes(key))
}

/// Writes how many keys begin with a prefix.
fn answer_count<L: Layout, const SLOTS: usize, A: Allocator + Copy, W: Write>(
    trie: &Trie<L, SLOTS, A>,
    key: &[u8],
    writer: &mut Watched<W>,
) -> Result<(), ScriptError>
    ensures answer { Answers L.kind (Some (Verb.Count, key.now)) trie.now trie.now (held_by W.contents writer.old) (held_by W.contents writer.new) result }
    ensures faults { WritesOrFails ScriptError.Write (has_failed writer.old) (has_failed writer.new) result }
{
    write_count(writer, trie.count_prefix_bytes(key))
}

/// Writes all entries. The line has no key, so any key will do.
fn answer_entries<L: Layout, const SLOTS: usize, A: Allocator + Copy, W: Write>(
    trie: &Trie<L, SLOTS, A>,
    key: &[u8],
    writer: &mut Watched<W>,
) -> Result<(), ScriptError>
    ensures answer { Answers L.kind (Some (Verb.Entries, key.now)) trie.now trie.now (held_by W.contents writer.old) (held_by W.contents writer.new) result }
    ensures faults { AnswersOrFails (has_failed writer.old) (has_failed writer.new) result }
    ensures never_full { result ≡ Err ScriptError.SlotLimit → ⊥ }
{
    let Ok(entries) = trie.entries() else {
        return Err(ScriptError::Memory);
    };
    write_entries(writer, entries)
}

/// Writes how many keys are held, and how many slots. The line has no key, so any key will do.
fn answer_figures<L: Layout, const SLOTS: usize, A: Allocator + Copy, W: Write>(
    trie: &Trie<L, SLOTS, A>,
    key: &[u8],
    writer: &mut Watched<W>,
) -> Result<(), ScriptError>
    ensures answer { Answers L.kind (Some (Verb.Figures, key.now)) trie.now trie.now (held_by W.contents writer.old) (held_by W.contents writer.new) result }
    ensures faults { WritesOrFails ScriptError.Write (has_failed writer.old) (has_failed writer.new) result }
{
    write_figures(writer, trie.len(), trie.used_node_slots())
}

/// Writes the tokens of a text.
fn answer_segment<L: Layout, const SLOTS: usize, A: Allocator + Copy, W: Write>(
    trie: &Trie<L, SLOTS, A>,
    text: &[u8],
    writer: &mut Watched<W>,
) -> Result<(), ScriptError>
    ensures answer { Answers L.kind (Some (Verb.Segment, text.now)) trie.now trie.now (held_by W.contents writer.old) (held_by W.contents writer.new) result }
    ensures faults { WritesOrFails ScriptError.Write (has_failed writer.old) (has_failed writer.new) result }
{
    write_tokens(writer, segment(trie, text))
}

/// Puts back what a key held before a value was stored.
fn take_back<L: Layout, const SLOTS: usize, A: Allocator + Copy>(
    trie: &mut Trie<L, SLOTS, A>,
    key: &[u8],
    before: Option<i32>,
)
    ensures blocks { MatchOption before (Grows 0 trie.old trie.new) (λ _. IsSome (number_at trie.old.state.tree key.now) → Grows 0 trie.old trie.new) }
    ensures max_trial { trie.new.max_trial ≡ trie.old.max_trial }
    ensures state { IsTakenBack before key.now trie.old trie.new }
{
    match before {
        Some(value) => {
            let _ = trie.update_bytes(key, value);
        }
        None => {
            trie.erase_bytes(key);
        }
    }
}

/// Writes the line of a pair's fault. It allocates nothing.
fn write_refusal<W: Write>(writer: &mut Watched<W>, error: CedarError) -> Result<(), ScriptError>
    requires { IsPairFault error }
    ensures { WritesBytes W.contents ScriptError.Write writer.old writer.new (put_text (Some error) ++ 10 ∷ []) result }
{
    let mut figures = Buffer::new();
    match error {
        CedarError::EmptyKey => write_whole(writer, b"refused EmptyKey\n"),
        CedarError::NulByte { position } => {
            let position = figures.format(position);
            write_line(writer, b"refused NulByte ", position.as_bytes())
        }
        CedarError::InvalidValue { value } => {
            let value = figures.format(value);
            write_line(writer, b"refused InvalidValue ", value.as_bytes())
        }
        _ => unreachable!(),
    }
}

/// Writes the line of a key that is held. It allocates nothing.
fn write_found<W: Write>(
    writer: &mut Watched<W>,
    value: i32,
    length: usize,
) -> Result<(), ScriptError>
    ensures { WritesBytes W.contents ScriptError.Write writer.old writer.new (found_text (Some value) length ++ 10 ∷ []) result }
{
    let mut figures = Buffer::new();
    write_whole(writer, figures.format(value).as_bytes())?;
    write_line(writer, b" ", figures.format(length).as_bytes())
}

/// Writes the line of two figures. It allocates nothing.
fn write_figures<W: Write>(
    writer: &mut Watched<W>,
    keys: usize,
    slots: usize,
) -> Result<(), ScriptError>
    ensures { WritesBytes W.contents ScriptError.Write writer.old writer.new (figures_text keys slots ++ 10 ∷ []) result }
{
    let mut figures = Buffer::new();
    write_whole(writer, figures.format(keys).as_bytes())?;
    write_line(writer, b" ", figures.format(slots).as_bytes())
}

/// Writes the line of a number. It allocates nothing.
fn write_count<W: Write>(writer: &mut Watched<W>, count: usize) -> Result<(), ScriptError>
    ensures { WritesBytes W.contents ScriptError.Write writer.old writer.new (decimal count ++ 10 ∷ []) result }
{
    let mut figures = Buffer::new();
    write_both(writer, figures.format(count).as_bytes(), b"\n")
}
