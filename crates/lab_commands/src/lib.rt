//! The run of the program `tzlab`: networks that become devices, what devices hold, landmarks for them, and rehearsals.
//!
//! | Command | Does |
//! |---|---|
//! | `load DEVICE FILE [--nodes N]` | makes a device out of a list of edges, by the proved call of `network_load`, at once |
//! | `grow DEVICE NEW --nodes N` | makes a larger device of the same count, edges and tickets, at once |
//! | `info DEVICE [--json]` | prints what a device holds, in a few figures |
//! | `journal DEVICE [--last N]` | prints the changes since the checkpoint of a device |
//! | `landmarks DEVICE ..` | chooses landmarks under which no table is large, and prints them as words |
//! | `rehearse FILE [--every-stop]` | runs the lives that a text asks for, on a device in memory, and prints the report of the proved call |
//!
//! Each command has its words and its run, in one form, and here they are put together: a command more is one line of [`grammar`] and one arm of
//! [`run_words`]. What a command prints goes out on the first writer. What went wrong is told on the second as `tzlab: TEXT`; where a terminal is behind
//! it, it also shows how far long work has come. The status is 0 where it did what was asked for, 2 where the words or a line of the file aren't
//! understood, and else 1.
//!
//! The contract that the program uses (`Does` of `specs/Commands`), over any place of devices and files: with status 0 the words ask for help, or the
//! command that they name did what they ask for. Which command that is, and which texts its arguments have, follows from the words and the grammar
//! (`program` of `specs/Grammar`) by clap's own account of a parse. With status 2 nothing was printed.
#![tactic(auto)]

ghost use Rattle.std.specs.Prelude.{◌≡◌, ◌⊎◌, ◌≤◌, IfErr, IfOk, IsOk, IsTrue};
ghost use Rattle.clap.specs.Simple.{App, subcommand_of, subcommand_rows_of, with_subcommand};
ghost use Rattle.clap.specs.Walk.{texts};
ghost use Rattle.lab_parts.specs.Grammar.{IsCommandOf};
ghost use Rattle.lab_commands.specs.Commands.{AskHelp, Does, IsHelp};
ghost use Rattle.lab_commands.specs.Grammar.{program};

use clap::{ArgMatches, Command};
use crash_trials::{Watched, rehearse};
use device_info::{info, recent};
use disk_trait::{Disk, MemDisk};
use lab_parts::{Places, told_memory};
use network_load::{grow, load};
use std::alloc::{AllocError, Global};
use std::io::{IsTerminal, Write};
use std::sync::Wait;
use std::thread::Threads;

/// Does what the words ask for, and answers the exit status.
pub fn run_words<R, O, E>(rt: &R, words: &[&str], out: &mut O, err: &mut E) -> u8
where
    R: Places + AllocGlobal + Threads + Wait + Sync,
    O: Write,
    E: Write + IsTerminal,
    ensures few { result ≤ 2 }
    // 0 only where the command's text or clap's was printed, and 2 only where nothing was.
    ensures printed { result ≡ 0 → AskHelp words.now ⊎ Does
        record { memory = ⟦<MemDisk as Disk>⟧; watched = ⟦<Watched as Disk>⟧ }
        record { model = R.Device.Disk; opened = R.opened; closed = R.closed; stands = R.stands } R.puts
        (subcommand_of program (texts words.now)) record { contents = O.contents; before = out.old; after = out.new } }
    ensures untouched { result ≡ 2 → out.new ≡ out.old }
{
    match parsed(rt.alloc(), words, out, err) {
        Ok(found) => run_found(rt, &found, out, err),
        Err(status) => status,
    }
}

// Does what the matches ask for, and answers the exit status.
fn run_found<R, O, E>(rt: &R, found: &ArgMatches<'_>, out: &mut O, err: &mut E) -> u8
where
    R: Places + AllocGlobal + Threads + Wait + Sync,
    O: Write,
    E: Write + IsTerminal,
    ensures few { result ≤ 2 }
    ensures printed { result ≡ 0 → Does
        record { memory = ⟦<MemDisk as Disk>⟧; watched = ⟦<Watched as Disk>⟧ }
        record { model = R.Device.Disk; opened = R.opened; closed = R.closed; stands = R.stands } R.puts
        (subcommand_rows_of found.now) record { contents = O.contents; before = out.old; after = out.new } }
    ensures untouched { result ≡ 2 → out.new ≡ out.old }
{
    match found.subcommand() {
        Some(("load", found)) => load::run(rt, found, out, err),
        Some(("grow", found)) => grow::run(rt, found, out, err),
        Some(("info", found)) => info::run(rt, found, out, err),
        Some(("journal", found)) => recent::run(rt, found, out, err),
        Some(("landmarks", found)) => lab_landmarks::run(rt, found, out, err),
        Some(("rehearse", found)) => rehearse::run(rt, found, out, err),
        _ => 2,
    }
}

// The whole grammar.
fn grammar<'a>(alloc: Global) -> Result<Command<'a>, AllocError>
    ensures { IfOk result (λ command. IsCommandOf command program) }
{
    let whole = Command::new(alloc, "tzlab")
        .about("Tries out a network with small routing tables")
        .no_binary_name(true)
        .subcommand_required(true);
    let whole = with_command(whole, load::grammar(alloc))?;
    let whole = with_command(whole, grow::grammar(alloc))?;
    let whole = with_command(whole, info::grammar(alloc))?;
    let whole = with_command(whole, recent::grammar(alloc))?;
    let whole = with_command(whole, lab_landmarks::grammar(alloc))?;
    with_command(whole, rehearse::grammar(alloc))
}

// A command with one more below it.
fn with_command<'a>(
    whole: Command<'a>,
    below: Result<Command<'a>, AllocError>,
) -> Result<Command<'a>, AllocError>
    ensures { (app added : App) → IsCommandOf whole.entry app → IfOk below.entry (λ command. IsCommandOf command added)
        → IfOk result (λ command. IsCommandOf command (with_subcommand app added.top)) }
{
    whole.subcommand(below?)
}

// What the words ask for, or the exit status where clap has answered them itself: with 0 where they ask for help.
fn parsed<'a, O: Write, E: Write>(
    alloc: Global,
    words: &'a [&'a str],
    out: &mut O,
    err: &mut E,
) -> Result<ArgMatches<'a>, u8>
    ensures few { IfErr result (λ status. status ≤ 2) }
    ensures found { IfOk result (λ found. subcommand_rows_of found ≡ subcommand_of program (texts words.entry.now)) }
    ensures help { IfErr result (λ status. status ≡ 0 → AskHelp words.entry.now) }
    ensures untouched { IfErr result (λ status. status ≡ 2 → out.new ≡ out.old) }
    ensures unprinted { IsOk result → out.new ≡ out.old }
{
    let Ok(command) = grammar(alloc) else {
        return Err(told_memory(err));
    };
    match command.try_get_matches_from(words) {
        Ok(found) => Ok(found),
        Err(error) => {
            if !error.use_stderr() && ask_help(words) {
                let printed = write!(out, "{error}");
                Err(if printed.is_ok() { 0 } else { 1 })
            } else {
                let printed = write!(err, "{error}");
                Err(if printed.is_ok() { 2 } else { 1 })
            }
        }
    }
}

// Whether words ask for help: they ask it of clap, and it answers.
fn ask_help(words: &[&str]) -> bool
    ensures { IsTrue result → AskHelp words.now }
{
    for word in words {
        if is_help(word) {
            return true;
        }
    }
    false
}

fn is_help(word: &str) -> bool
    ensures { IsTrue result → IsHelp word.now }
{
    word == "help" || word == "--help" || word == "-h"
}
