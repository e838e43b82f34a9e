// The program's words.
ghost use Rattle.std.specs.Prelude.{◌≤◌, IfErr};

use crate::telling::told_memory;
use clap::{Arg, ArgAction, ArgMatches, Command};
use std::alloc::{AllocError, Global};
use std::io::Write;

// The grammar.
fn grammar<'a>(alloc: Global) -> Result<Command<'a>, AllocError> {
    Command::new(alloc, "tzrouter")
        .about("Forwards packets at one node of a network, by the node's own tables")
        .after_help(
            "Answers each line of standard input with one line: address, launch ADDRESS, hop PACKET, load FILE, tables",
        )
        .no_binary_name(true)
        .arg(
            Arg::new(alloc, "tables")
                .value_name("TABLE")
                .required(true)
                .help("Files with tables of one node: those of the newest four generations stay")
                .action(ArgAction::Append)
                .num_args(1..),
        )
}

/// What the words ask for, or the exit status where clap has answered them itself.
pub(crate) fn parsed<'a, O: Write, E: Write>(
    alloc: Global,
    words: &'a [&'a str],
    out: &mut O,
    err: &mut E,
) -> Result<ArgMatches<'a>, u8>
    ensures { IfErr result (λ status. status ≤ 2) }
{
    let Ok(command) = grammar(alloc) else {
        return Err(told_memory(err));
    };
    match command.try_get_matches_from(words) {
        Ok(found) => Ok(found),
        Err(error) => {
            if error.use_stderr() {
                let printed = write!(err, "{error}");
                Err(if printed.is_ok() { 2 } else { 1 })
            } else {
                let printed = write!(out, "{error}");
                Err(if printed.is_ok() { 0 } else { 1 })
            }
        }
    }
}
