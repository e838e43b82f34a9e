//! The words of `rehearse`, and its file.
ghost use Rattle.std.specs.Prelude.{◌≡◌, ◌≤◌, IfOk};
ghost use Rattle.lab_parts.specs.Grammar.{IsCommandOf};
ghost use Rattle.lab_parts.specs.Words.{rows_in};
ghost use Rattle.value_syntax.specs.Reading.{IfRead};
ghost use Rattle.crash_trials.specs.Told.{DoesRehearse, IsAskedFor};
ghost use Rattle.crash_trials.specs.Words.{rehearse_app};

use crate::told::{Asked, NotRehearsed, rehearse_text};
use crate::watched::Watched;
use clap::{ArgMatches, Command, value_parser};
use disk_trait::{Disk, MemDisk};
use lab_parts::{
    Sources, command, flag, given, is_given, told, told_at, told_memory, told_of, usual, value,
    word,
};
use std::alloc::{AllocError, Global};
use std::io::{IsTerminal, Write};

/// Its grammar.
pub fn grammar<'a>(alloc: Global) -> Result<Command<'a>, AllocError>
    ensures { IfOk result (λ command. IsCommandOf command rehearse_app) }
{
    let most = value("most", "N", "Tries the first N stops")
        .as_arg(alloc)
        .default_value("4096")
        .value_parser(value_parser!(u32).range(1..))
        .requires_arg("every-stop")?;
    let about = "Runs lives of a device that FILE asks for, and prints what they were answered";
    let file = "A rehearsal: device N, life .., and events, a line each";
    let stops =
        "Tries the last life with its device stopped at each call, and counts what came back";
    let said = [word("file", "FILE", file), flag("every-stop", stops)];
    command(alloc, "rehearse", about, &said)?.arg(most)
}

/// Runs the rehearsal that these matches name, and answers the exit status.
pub fn run<R, O, E>(rt: &R, found: &ArgMatches<'_>, out: &mut O, err: &mut E) -> u8
where
    R: Sources + AllocGlobal,
    O: Write,
    E: Write + IsTerminal,
    ensures few { result ≤ 2 }
    // 0 only where what is asked for of the file was printed, and 2 only where nothing was.
    ensures printed { result ≡ 0 → DoesRehearse
        record { memory = ⟦<MemDisk as Disk>⟧; watched = ⟦<Watched as Disk>⟧ } R.stands (rows_in found.now)
        record { contents = O.contents; before = out.old; after = out.new } }
    ensures untouched { result ≡ 2 → out.new ≡ out.old }
{
    let Some(file) = given(found, "file") else {
        return 2;
    };
    let asked = match asked_in(rt.alloc(), found) {
        Ok(Some(asked)) => asked,
        Ok(None) => return told(err, 2, "--most takes a number"),
        Err(_) => return told_memory(err),
    };
    let text = match rt.read_to_string(file) {
        Ok(text) => text,
        Err(error) => return told_of(err, file, error),
    };
    match rehearse_text(rt.alloc(), text.as_str(), asked, out, err) {
        Ok(()) => 0,
        Err(NotRehearsed::Line(refused)) => told_at(err, 2, file, refused.number, refused.form),
        Err(NotRehearsed::Lives(refused)) => told(err, 1, refused),
        Err(NotRehearsed::Print(refused)) => told(err, 1, refused),
    }
}

// The report, or stops where the words ask for these. None where they don't say how many as a number.
fn asked_in(alloc: Global, found: &ArgMatches<'_>) -> Result<Option<Asked>, AllocError>
    ensures { IfRead result (IsAskedFor (rows_in found.now)) }
{
    if !is_given(found, "every-stop") {
        return Ok(Some(Asked::Report));
    }
    match usual(alloc, found, "most", u32::MAX as u64, 4096)? {
        Some(most) => Ok(Some(Asked::Stops(most as usize))),
        None => Ok(None),
    }
}
