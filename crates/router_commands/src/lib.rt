//! The run of the program `tzrouter`, one node of a network that forwards by its own tables: its words, a reader and two writers.
//!
//! The words are files with tables of one node (`tables.rt`). Then each line of the reader is answered with one line (`lines.rt`): a
//! shelf of the crate `router_lines` does, whose page has the lines. The answers are flushed before it waits for another line. The table
//! of the newest generation tells where the router is; a packet goes by the table of its own generation. It knows no graph, no store and
//! no thread.
//!
//! A word that asks for help or for the version is answered, and nothing else is done (`help.rt`). The grammar is clap's (`words.rt`). The status is 0 at the end of the input, 2 where the words aren't understood,
//! and 1 where a table isn't read, a line can't be read or printed, or memory ran out. What went wrong is told on the second writer as
//! `tzrouter: TEXT`, with the file and the system's own error where there are such (`telling.rt`). [`run_words`] promises no more than
//! that its answer is such a status.
#![tactic(auto)]

ghost use Rattle.std.specs.Prelude.{◌≤◌, IfErr};

use program_help::asked_text;
use std::alloc::Global;
use std::fs::File;
use std::io::{Read, Write};
use std::rt::Files;

mod help;
mod lines;
mod tables;
mod telling;
mod words;

use telling::told;

/// Does what the words ask for, and answers the exit status.
pub fn run_words<R, S, O, E>(rt: &R, words: &[&str], input: &mut S, out: &mut O, err: &mut E) -> u8
where
    R: Files<File = File> + AllocGlobal,
    S: Read,
    O: Write,
    E: Write,
    ensures { result ≤ 2 }
{
    match run(rt, words, input, out, err) {
        Ok(()) => 0,
        Err(status) => status,
    }
}

// Prints what the program says of itself, where the words ask for that. False where it couldn't.
fn said<O: Write>(alloc: Global, words: &[&str], out: &mut O) -> Option<bool> {
    match asked_text(alloc, &help::HELP, words) {
        Ok(None) => None,
        Ok(Some(text)) => Some(out.write_all(text.as_bytes()).is_ok() && out.flush().is_ok()),
        Err(_) => Some(false),
    }
}

// The same, with the status of what went wrong.
fn run<R, S, O, E>(
    rt: &R,
    words: &[&str],
    input: &mut S,
    out: &mut O,
    err: &mut E,
) -> Result<(), u8>
where
    R: Files<File = File> + AllocGlobal,
    S: Read,
    O: Write,
    E: Write,
    ensures { IfErr result (λ status. status ≤ 2) }
{
    if let Some(printed) = said(rt.alloc(), words, out) {
        return if printed { Ok(()) } else { Err(1) };
    }
    let found = words::parsed(rt.alloc(), words, out, err)?;
    let Some(files) = found.get_strs("tables") else {
        return Err(told(err, 2, "no table is named"));
    };
    let mut shelf = tables::shelf_of(rt, files, err)?;
    lines::answer_lines(rt, &mut shelf, input, out, err)
}
