//! The program: arguments, files and three streams in, a status out.

ghost use Rattle.std.specs.Prelude.{◌++◌, ◌<◌, ◌↔◌, ◌≡◌, ◌≤◌, Bool, IfErr, IfOk, IfSome};
ghost use Rattle.std.specs.Prelude.{is_some, None, OnOk, true};
ghost use Rattle.cedar_cli.specs.Words.{AnswersAll, AnswersUpTo, asked_limit, AsksForFile};
ghost use Rattle.cedar_cli.specs.Words.{BeginsWith, EndsBy, fault_text, has_failed};
ghost use Rattle.cedar_cli.specs.Words.{IsReported, IsSlotLimit, LacksWithin, layout_byte, OnAsked};
ghost use Rattle.cedar_cli.specs.Words.{OnBegun, own_name, Request, request_in, request_of};
ghost use Rattle.cedar_cli.specs.Words.{ShowsCause, TellsCause, TellsInput, usage_line, view_of};
ghost use Rattle.cedar_cli.specs.Words.{WritesOrFailed};

use crate::options::{Options, limit_or_default, options_of};
use crate::reasons::{LineReports, NoReports};
use crate::script::{ScriptError, run_script_with_reports};
use cedarwood::{
    CedarBuilder, CedarPersistenceError, DefaultLayout, Layout, MOST_SLOTS, ReducedLayout, Trie,
    Watched, fits,
};
use std::alloc::Allocator;
use std::io::{Read, Write};
use std::rt::Files;

/// The status of a run that did all that the arguments name.
pub const DONE: u8 = 0;

/// The status after a fault of the input or the output, and if memory or slots ran out.
pub const FAULT: u8 = 1;

/// The status if the arguments are wrong.
pub const USAGE: u8 = 2;

/// The status if a load or a save was refused.
pub const REFUSED: u8 = 3;

/// What ends a run early.
#[derive(Drop)]
enum Fault {
    Script(ScriptError),
    Load(CedarPersistenceError),
    Save(CedarPersistenceError),
}

/// Runs the script on `reader`, writes its answers to `writer`, and returns the status to end with: [`DONE`], [`FAULT`], [`USAGE`] or
/// [`REFUSED`]. If it isn't `DONE`, a line on `errors` says why; a fault of `errors` isn't reported. The dictionary has at most 2^30
/// slots. The options, each once at most and in any order:
///
/// - `--reduced`: the dictionary and its files are of the reduced layout;
/// - `--unordered`: a new label goes before its siblings and not to its ascending place;
/// - `--load PATH`: the dictionary is loaded from this file, and not empty at first; not beside `--unordered`, since a
///   file has its settings;
/// - `--limit BYTES`, only beside `--load`: the load may allocate so many bytes, instead of 2^29;
/// - `--save PATH`: once all answers are written and flushed, it is saved in this file;
/// - `--v1-0`, only beside `--save`: it is saved in format 1.0, and not in 1.1.
///
/// The first fault ends the run, so nothing is saved after one; but after a flush that failed the answers of all lines are still written.
/// After a fault of the script the answers that were written are still flushed, and a fault of that flush isn't reported.
#[tactic(auto, using(cedarwood::proofs::DictionaryLemmas::default_limit))]
pub fn run_program<F: Files, A: Allocator + Copy, R: Read, W: Write, E: Write>(
    alloc: A,
    files: &F,
    arguments: &[&str],
    reader: &mut Watched<R>,
    writer: &mut Watched<W>,
    errors: &mut Watched<E>,
) -> u8
    //= The program's status is 0, 1, 2 or 3 (always). [also run_program_with]
    ensures status { result ≤ 3 }

    //= It is 2 exactly if the arguments are wrong (as `--unordered` beside `--load`, `--v1-0` without `--save`, or `--limit` without
    //  `--load`). Then nothing was read and nothing written to the output (always). [with untouched; also
    //  run_program_with.usage.untouched]
    ensures usage { (result ≡ 2) ↔ (request_of arguments.now ≡ None) }
    ensures untouched { result ≡ 2 → (reader.new ≡ reader.old) × (writer.new ≡ writer.old) }

    //= At status 2 the line of the options was written to standard error, with the program's name, unless a call of it failed (always).
    //  [also run_program_with; by usage_line]
    ensures line { result ≡ 2 → WritesOrFailed E.contents errors.old errors.new (usage_line own_name) }

    //= At status 0 no call of the reader or the writer failed, and nothing was written to standard error (always). [with unfailed; also
    //  run_program_with.silent.unfailed]
    ensures silent { result ≡ 0 → errors.new ≡ errors.old }

    //= Status 0: the answers of the whole input were written, and nothing else: from an empty dictionary of the layout and the order that
    //  the arguments name, or with `--load` from some state and marks in that layout. [also run_program_with]
    ensures done { result ≡ 0 → IfSome (request_of arguments.now) (λ asked. OnAsked asked (AnswersAll R.remaining reader.old W.contents writer.old writer.new)) }
    ensures unfailed { result ≡ 0 → (has_failed reader.new ≡ has_failed reader.old) × (has_failed writer.new ≡ has_failed writer.old) }

    //= With arguments that are right, what was written is a beginning of these answers, or all of them. [also
    //  run_program_with]
    ensures begun { IfSome (request_of arguments.now) (λ asked. OnAsked asked (AnswersUpTo R.remaining reader.old W.contents writer.old writer.new)) }

    //= At status 1 the line of a fault was written to standard error (`fault_text`), unless a call of it failed. It is a fault of the reader
    //  or the writer only if that device failed, in this run or before; it is want of memory or slots only if no read of the run failed
    //  (always). [also run_program_with; by TellsCause]
    ensures fault { result ≡ 1 → TellsCause own_name E.contents errors.old errors.new (has_failed reader.old) (has_failed reader.new) (has_failed writer.new) }

    //= It is 3 only if the arguments ask for a load or a save (always). [also run_program_with; by AsksForFile]
    ensures refused { result ≡ 3 → IfSome (request_of arguments.now) AsksForFile }
{
    run_program_with::<MOST_SLOTS, F, A, R, W, E, NoReports>(
        alloc,
        files,
        "cedar",
        arguments,
        reader,
        writer,
        errors,
        &mut NoReports,
    )
}

/// The same for a dictionary of at most `SLOTS` slots, and under a name of its own, with which each line on `errors` begins. It tells of each
/// line of the script, before it is answered, why it is bad, or that it is an order. Its other clauses are those of [`run_program`].
pub fn run_program_with<
    const SLOTS: usize,
    F: Files,
    A: Allocator + Copy,
    R: Read,
    W: Write,
    E: Write,
    B: LineReports,
>(
    alloc: A,
    files: &F,
    name: &str,
    arguments: &[&str],
    reader: &mut Watched<R>,
    writer: &mut Watched<W>,
    errors: &mut Watched<E>,
    reports: &mut B,
) -> u8
    requires limit { IsSlotLimit SLOTS }
    ensures status { result ≤ 3 }
    ensures usage { (result ≡ 2) ↔ (request_of arguments.now ≡ None) }
    ensures untouched { result ≡ 2 → (reader.new ≡ reader.old) × (writer.new ≡ writer.old) }
    ensures line { result ≡ 2 → WritesOrFailed E.contents errors.old errors.new (usage_line name.now) }
    ensures silent { result ≡ 0 → errors.new ≡ errors.old }
    ensures done { result ≡ 0 → IfSome (request_of arguments.now) (λ asked. OnAsked asked (AnswersAll R.remaining reader.old W.contents writer.old writer.new)) }
    ensures unfailed { result ≡ 0 → (has_failed reader.new ≡ has_failed reader.old) × (has_failed writer.new ≡ has_failed writer.old) }
    ensures begun { IfSome (request_of arguments.now) (λ asked. OnAsked asked (AnswersUpTo R.remaining reader.old W.contents writer.old writer.new)) }
    ensures fault { result ≡ 1 → TellsCause name.now E.contents errors.old errors.new (has_failed reader.old) (has_failed reader.new) (has_failed writer.new) }
    ensures refused { result ≡ 3 → IfSome (request_of arguments.now) AsksForFile }

    //= At status 0 it told of each line of the input, in order, why it is bad, or nothing of one that is an order. [by TellsInput]
    ensures told { result ≡ 0 → TellsInput R.remaining reader.old (B.told reports.old) (B.told reports.new) }
{
    let Some(options) = options_of(arguments) else {
        tell_usage(name, errors);
        return USAGE;
    };
    match run_layout::<SLOTS, F, A, R, W, B>(alloc, files, options, reader, writer, reports) {
        Ok(()) => DONE,
        Err(fault) => tell(name, fault, errors),
    }
}

/// Writes the line that says how the program of this name is called. Options that it doesn't name are taken too. A fault isn't reported:
/// there is nowhere to report it.
///
/// ```
/// tell_usage("cedar", &mut errors);
/// ```
pub fn tell_usage<E: Write>(name: &str, errors: &mut Watched<E>)
    //= The line of the program's options was written, with its name, unless a call of the writer failed. [by usage_line]
    ensures { WritesOrFailed E.contents errors.old errors.new (usage_line name.now) }
{
    let options = " [--unordered] [--load PATH] [--save PATH] [--v1-0]\n";
    match errors.write_all(b"usage: ") {
        Ok(()) => write_message(errors, name.as_bytes(), options.as_bytes()),
        Err(_) => {}
    }
}

/// Reports a fault, and returns the status to end with.
fn tell<E: Write>(name: &str, fault: Fault, errors: &mut Watched<E>) -> u8
    ensures above { 0 < result }
    ensures within { result ≤ 3 }
    ensures other { result ≡ 2 → ⊥ }
    ensures told { IsReported name.now E.contents errors.old errors.new fault result }
{
    match fault {
        Fault::Script(fault) => tell_script(name, fault, errors),
        Fault::Load(error) => {
            let _ = writeln!(errors, "{name}: load: {error}");
            REFUSED
        }
        Fault::Save(error) => {
            let _ = writeln!(errors, "{name}: save: {error}");
            REFUSED
        }
    }
}

/// Reports a fault of the script, and returns the status to end with.
fn tell_script<E: Write>(name: &str, fault: ScriptError, errors: &mut Watched<E>) -> u8
    ensures status { result ≡ 1 }
    ensures line { WritesOrFailed E.contents errors.old errors.new (name.now ++ fault_text fault) }
{
    write_message(errors, name.as_bytes(), fault_line(fault).as_bytes());
    FAULT
}

/// Writes a message in two parts, the second only if the first is written. A fault isn't reported.
fn write_message<E: Write>(errors: &mut Watched<E>, first: &[u8], second: &[u8])
    ensures { WritesOrFailed E.contents errors.old errors.new (first.now ++ second.now) }
{
    match errors.write_all(first) {
        Ok(()) => {
            let _ = errors.write_all(second);
        }
        Err(_) => {}
    }
}

/// Does what the options say, over the layout that they name.
fn run_layout<const SLOTS: usize, F: Files, A: Allocator + Copy, R: Read, W: Write, B: LineReports>(
    alloc: A,
    files: &F,
    options: Options<'_>,
    reader: &mut Watched<R>,
    writer: &mut Watched<W>,
    reports: &mut B,
) -> Result<(), Fault>
    requires limit { IsSlotLimit SLOTS }
    ensures ok { OnOk result (OnAsked (request_in options.entry) (AnswersAll R.remaining reader.old W.contents writer.old writer.new)) }
    ensures begun { OnAsked (request_in options.entry) (AnswersUpTo R.remaining reader.old W.contents writer.old writer.new) }
    ensures unfailed { OnOk result ((has_failed reader.new ≡ has_failed reader.old) × (has_failed writer.new ≡ has_failed writer.old)) }
    ensures ends { IfErr result (EndsBy (request_in options.entry) (has_failed reader.old) (has_failed reader.new) (has_failed writer.new)) }
    ensures told { OnOk result (TellsInput R.remaining reader.old (B.told reports.old) (B.told reports.new)) }
{
    if options.reduced {
        run_options::<ReducedLayout, SLOTS, F, A, R, W, B>(
            alloc, files, options, reader, writer, reports,
        )
    } else {
        run_options::<DefaultLayout, SLOTS, F, A, R, W, B>(
            alloc, files, options, reader, writer, reports,
        )
    }
}

/// Loads or makes the dictionary, runs the script, flushes the answers, and saves the dictionary.
fn run_options<
    L: Layout,
    const SLOTS: usize,
    F: Files,
    A: Allocator + Copy,
    R: Read,
    W: Write,
    B: LineReports,
>(
    alloc: A,
    files: &F,
    options: Options<'_>,
    reader: &mut Watched<R>,
    writer: &mut Watched<W>,
    reports: &mut B,
) -> Result<(), Fault>
    requires limit { IsSlotLimit SLOTS }
    ensures ok { OnOk result (OnBegun L.kind (request_in options.entry) (AnswersAll R.remaining reader.old W.contents writer.old writer.new)) }
    ensures begun { OnBegun L.kind (request_in options.entry) (AnswersUpTo R.remaining reader.old W.contents writer.old writer.new) }
    ensures unfailed { OnOk result ((has_failed reader.new ≡ has_failed reader.old) × (has_failed writer.new ≡ has_failed writer.old)) }
    ensures ends { IfErr result (EndsBy (request_in options.entry) (has_failed reader.old) (has_failed reader.new) (has_failed writer.new)) }
    ensures told { OnOk result (TellsInput R.remaining reader.old (B.told reports.old) (B.told reports.new)) }
{
    let place: Option<Trie<L, SLOTS, A>> = None;
    if !fits(&place) {
        return Err(Fault::Script(ScriptError::Memory));
    }
    let mut trie: Trie<L, SLOTS, A> = first_trie(alloc, files, options)?;
    match answer_script(alloc, &mut trie, reader, writer, reports) {
        Ok(()) => save(files, &trie, options),
        Err(fault) => Err(Fault::Script(fault)),
    }
}

/// Saves the dictionary, if the options say so.
fn save<L: Layout, const SLOTS: usize, F: Files, A: Allocator + Copy>(
    files: &F,
    trie: &Trie<L, SLOTS, A>,
    options: Options<'_>,
) -> Result<(), Fault>
    ensures { (unread read written : Bool) → IfErr result (EndsBy (request_in options.entry) unread read written) }
{
    let Some(path) = options.save else {
        return Ok(());
    };
    let saved = if options.v1_0 {
        save_v1_0(files, trie, path)
    } else {
        save_v1_1(files, trie, path)
    };
    match saved {
        Ok(()) => Ok(()),
        Err(error) => Err(Fault::Save(error)),
    }
}

/// Saves the dictionary in format 1.0.
fn save_v1_0<L: Layout, const SLOTS: usize, F: Files, A: Allocator + Copy>(
    files: &F,
    trie: &Trie<L, SLOTS, A>,
    path: &str,
) -> Result<(), CedarPersistenceError> {
    match trie.save_v1_0_to_path_noted(files, path) {
        Ok(_) => Ok(()),
        Err(failed) => Err(failed.error),
    }
}

/// Saves the dictionary in format 1.1.
fn save_v1_1<L: Layout, const SLOTS: usize, F: Files, A: Allocator + Copy>(
    files: &F,
    trie: &Trie<L, SLOTS, A>,
    path: &str,
) -> Result<(), CedarPersistenceError> {
    match trie.save_to_path_noted(files, path) {
        Ok(_) => Ok(()),
        Err(failed) => Err(failed.error),
    }
}

/// The dictionary that the script begins with.
fn first_trie<L: Layout, const SLOTS: usize, F: Files, A: Allocator + Copy>(
    alloc: A,
    files: &F,
    options: Options<'_>,
) -> Result<Trie<L, SLOTS, A>, Fault>
    requires limit { IsSlotLimit SLOTS }
    ensures begun { IfOk result (λ trie. BeginsWith L.kind (request_in options.entry) (view_of L.kind trie)) }
    ensures ends { (read written : Bool) → IfErr result (EndsBy (request_in options.entry) read read written) }

    //= A load that is refused memory is refused it under the limit of `--limit`, or without that under 2^29 bytes (always). [by
    //  LacksWithin, asked_limit]
    ensures lacks { IfErr result (LacksWithin (layout_byte L.kind) SLOTS (asked_limit (request_in options.entry))) }
{
    match options.load {
        Some(path) => load(alloc, files, path, limit_or_default(options.limit)),
        None => {
            let builder = CedarBuilder::new().ordered(options.ordered);
            match Trie::with(alloc, builder) {
                Ok(trie) => Ok(trie),
                Err(_) => Err(Fault::Script(ScriptError::Memory)),
            }
        }
    }
}

/// Loads the dictionary, if that allocates at most so many bytes.
fn load<L: Layout, const SLOTS: usize, F: Files, A: Allocator + Copy>(
    alloc: A,
    files: &F,
    path: &str,
    limit: usize,
) -> Result<Trie<L, SLOTS, A>, Fault>
    requires limit { IsSlotLimit SLOTS }
    ensures lacks { IfErr result (LacksWithin (layout_byte L.kind) SLOTS limit) }
    ensures ends { (asked : Request) (unread read written : Bool) → is_some asked.load ≡ true → IfErr result (EndsBy asked unread read written) }
{
    match Trie::load_from_path_with_limit(alloc, files, path, limit) {
        Ok(trie) => Ok(trie),
        Err(error) => Err(Fault::Load(error)),
    }
}

/// Runs the script, and flushes the answers.
fn answer_script<
    L: Layout,
    const SLOTS: usize,
    A: Allocator + Copy,
    R: Read,
    W: Write,
    B: LineReports,
>(
    alloc: A,
    trie: &mut Trie<L, SLOTS, A>,
    reader: &mut Watched<R>,
    writer: &mut Watched<W>,
    reports: &mut B,
) -> Result<(), ScriptError>
    ensures ok { OnOk result (AnswersAll R.remaining reader.old W.contents writer.old writer.new (view_of L.kind trie.old)) }
    ensures begun { AnswersUpTo R.remaining reader.old W.contents writer.old writer.new (view_of L.kind trie.old) }
    ensures cause { IfErr result (ShowsCause (has_failed reader.old) (has_failed reader.new) (has_failed writer.new)) }
    ensures unfailed { OnOk result ((has_failed reader.new ≡ has_failed reader.old) × (has_failed writer.new ≡ has_failed writer.old)) }
    ensures told { OnOk result (TellsInput R.remaining reader.old (B.told reports.old) (B.told reports.new)) }
{
    let outcome = run_script_with_reports(alloc, trie, reader, writer, reports);
    let flushed = writer.flush();
    outcome?;
    match flushed {
        Ok(()) => Ok(()),
        Err(_) => Err(ScriptError::Write),
    }
}

/// What is written to standard error of a fault of the script, behind the program's name.
fn fault_line(fault: ScriptError) -> &'static str
    ensures { result.now ≡ fault_text fault }
{
    match fault {
        ScriptError::Read => ": read fault\n",
        ScriptError::Write => ": write fault\n",
        ScriptError::Memory => ": out of memory\n",
        ScriptError::SlotLimit => ": slot limit\n",
    }
}
