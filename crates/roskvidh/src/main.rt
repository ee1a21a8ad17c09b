//! The program `roskvidh`: dictionaries made of word lists and queried, and texts cut and scanned by them.
#![tactic(auto)]

mod arguments;
mod build;
mod changes;
mod chart;
mod commands;
mod completions;
mod costs;
mod dictionary;
mod differences;
mod durable;
mod fault;
mod input;
mod kept;
mod meter;
mod queries;
mod recover;
mod replace;
mod request;
mod run;
mod shapes;
mod texts;

use arguments::command;
use cedarwood::Watched;
use clap::Error;
use request::{Asked, Terminals, asked_of};
use run::{DONE, FILES, USAGE, run};
use std::env;
use std::io::{BufWriter, IsTerminal, LineWriter, Write};
use std::process::ExitCode;

fn main(rt: HostRuntime) -> ExitCode {
    let Ok(arguments) = env::args(&rt) else {
        return tell(&rt, b"roskvidh: an argument is no text\n", USAGE);
    };
    let words: Vec<String> = match arguments.collect(rt.alloc()) {
        Ok(words) => words,
        Err(_) => return tell(&rt, b"roskvidh: out of memory\n", FILES),
    };
    read(&rt, words.as_slice())
}

/// Reads the arguments, and does what they say.
fn read(rt: &HostRuntime, words: &[String]) -> ExitCode {
    let Ok(command) = command(rt.alloc()) else {
        return tell(rt, b"roskvidh: out of memory\n", FILES);
    };
    match command.try_get_matches_from(words) {
        Ok(matches) => match asked_of(&matches) {
            Some(asked) => answer(rt, asked),
            None => ExitCode::from(USAGE),
        },
        Err(error) => refuse(rt, &error),
    }
}

/// Says what is wrong with the arguments, or the help that they ask for.
fn refuse(rt: &HostRuntime, error: &Error) -> ExitCode {
    let status = if error.use_stderr() { USAGE } else { DONE };
    let _ = error.print(rt);
    ExitCode::from(status)
}

/// Does what the arguments say. To a terminal each line is written as soon as it is whole.
fn answer(rt: &HostRuntime, asked: Asked<'_>) -> ExitCode {
    let output = rt.stdout();
    let status = if output.is_terminal() {
        match LineWriter::new(rt.alloc(), output) {
            Ok(lines) => answer_to(rt, asked, lines),
            Err(_) => return tell(rt, b"roskvidh: out of memory\n", FILES),
        }
    } else {
        match BufWriter::new(rt.alloc(), output) {
            Ok(blocks) => answer_to(rt, asked, blocks),
            Err(_) => return tell(rt, b"roskvidh: out of memory\n", FILES),
        }
    };
    ExitCode::from(status)
}

/// Does what the arguments say, with its results to this output.
fn answer_to<W: Write + Drop>(rt: &HostRuntime, asked: Asked<'_>, output: W) -> u8 {
    let mut writer = Watched::new(output);
    let mut errors = Watched::new(rt.stderr());
    let terminals = Terminals {
        input: rt.stdin().is_terminal(),
        output: rt.stdout().is_terminal(),
        errors: rt.stderr().is_terminal(),
    };
    run(
        rt.alloc(),
        &rt,
        asked,
        rt.stdin(),
        &mut writer,
        &mut errors,
        rt.stderr(),
        terminals,
    )
}

/// Reports why nothing was done.
fn tell(rt: &HostRuntime, message: &[u8], status: u8) -> ExitCode {
    let mut errors = Watched::new(rt.stderr());
    let _ = errors.write_all(message);
    ExitCode::from(status)
}
