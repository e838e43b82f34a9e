//! The program `tznode`: a compact routing node on a device file.
//!
//! A word that asks for help or for the version is answered from [`HELP`]. All else is one call, [`run_words_at`] of the crate `commands`, over the words, a reader and two writers; its page says
//! what each command does and prints. `main` makes the call on the arguments and the standard streams, of which `serve` alone reads,
//! and ends with the status that it answers. Words that can't be had end it with a fault, told on standard error as `tznode: TEXT`.
//! Where standard error is a terminal, `tables` tells there now and then how many files were put.
//!
//! Before all that, `main` sees to it that no file gets the number of a standard stream that is closed. `serve` has standard
//! input read by a thread of its own. A fault is the last thing that a command tells: then the input is called off, so a live
//! service that failed doesn't wait for a line that may never come. What is suspect on its device is told before.
#![tactic(auto)]

use command_line::HELP;
use command_output::{Fault, print_text, tell};
use commands::{reading_fault, run_words_at, tell_suspects};
use program_help::asked_text;
use standard_streams::{InterruptibleInput, InterruptingWriter, hold_streams};
use std::alloc::AllocError;
use std::env;
use std::io::{ErrorKind, IsTerminal, Write};
use std::process::ExitCode;
use table_files::{HostTables, Progress, WatchedTables};

fn main(rt: HostRuntime) -> ExitCode {
    let streams = match hold_streams(&rt) {
        Ok(streams) => streams,
        Err(error) => return ended_by(&rt, reading_fault(error)),
    };
    let given = match arguments(&rt) {
        Ok(given) => given,
        Err(fault) => return ended_by(&rt, fault),
    };
    let words = match borrowed(&rt, &given) {
        Ok(words) => words,
        Err(error) => return ended_by(&rt, Fault::from(error)),
    };
    match asked_text(rt.alloc(), &HELP, &words) {
        Ok(None) => {}
        Ok(Some(text)) => return printed(&rt, &text),
        Err(error) => return ended_by(&rt, Fault::from(error)),
    }
    // This is no fault, so it goes past the writer that calls the input off.
    tell_suspects(&rt, &words, &mut rt.stderr());
    let (mut input, interrupter) = match InterruptibleInput::new(rt, rt.alloc()) {
        Ok(both) => both,
        Err(error) => return ended_by(&rt, Fault::from(error)),
    };
    // No other command reads.
    if words.first() == Some(&"serve") && input.start(rt.stdin()).is_err() {
        return ended_by(&rt, Fault::NoThread);
    }
    let mut faults = InterruptingWriter {
        out: rt.stderr(),
        input: interrupter,
    };
    let mut shown = Shown {
        rt: &rt,
        is_terminal: rt.stderr().is_terminal(),
        was_shown: false,
    };
    let mut tables = WatchedTables::new(HostTables::new(&rt), &mut shown);
    let status = run_words_at(
        &rt,
        &mut tables,
        &words,
        &mut input,
        &mut rt.stdout(),
        &mut faults,
    );
    drop(tables);
    shown.clear();
    drop(streams);
    ExitCode::from(status)
}

// Shows a terminal how many tables were put.
#[derive(Drop)]
struct Shown<'a> {
    rt: &'a HostRuntime,
    is_terminal: bool,
    was_shown: bool,
}

impl Progress for Shown<'_> {
    // The next line of the terminal is printed over this one.
    fn came_to(&mut self, tables: usize) {
        if self.is_terminal && tables % 64 == 0 {
            let mut err = self.rt.stderr();
            let _told = write!(err, "{tables} tables\r");
            let _flushed = err.flush();
            self.was_shown = true;
        }
    }
}

impl Shown<'_> {
    // Takes away what no line was printed over.
    fn clear(&self) {
        if self.was_shown {
            let _told = write!(self.rt.stderr(), "\x1b[K");
        }
    }
}

// Prints what the program says of itself.
fn printed(rt: &HostRuntime, text: &str) -> ExitCode {
    match print_text(&mut rt.stdout(), text) {
        Ok(()) => ExitCode::SUCCESS,
        Err(fault) => ended_by(rt, fault),
    }
}

fn ended_by(rt: &HostRuntime, fault: Fault) -> ExitCode {
    let _told = tell(&mut rt.stderr(), fault);
    ExitCode::from(fault.status())
}

// The program's words, without its name. A word that is no text is no word of a command.
fn arguments(rt: &HostRuntime) -> Result<Vec<String>, Fault> {
    let mut words = Vec::new(rt.alloc());
    let given = match env::args(rt) {
        Ok(given) => given,
        Err(error) => {
            return Err(match error.kind() {
                ErrorKind::OutOfMemory => Fault::Memory,
                _ => Fault::Usage,
            });
        }
    };
    for word in given.skip(1) {
        words.push(word)?;
    }
    Ok(words)
}

fn borrowed<'a>(rt: &HostRuntime, given: &'a [String]) -> Result<Vec<&'a str>, AllocError> {
    let mut words = Vec::new(rt.alloc());
    for word in given {
        words.push(word.as_str())?;
    }
    Ok(words)
}
