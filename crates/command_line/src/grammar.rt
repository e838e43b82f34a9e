//! The program's grammar, as clap takes it.
ghost use Rattle.std.specs.Prelude.{IfOk};
ghost use Rattle.clap.specs.Simple.{App, with_subcommand};
ghost use Rattle.command_line.specs.Grammar.{IsArgOf, IsCommandOf, app_named, program, rule_for};

use clap::{Arg, ArgAction, Command};
use std::alloc::{AllocError, Global};

/// How a command is given texts.
#[derive(Clone, Copy, Drop)]
pub(crate) enum Argument {
    /// A text.
    Text(&'static str),
    /// `OP..`: one text or more.
    Texts(&'static str),
    /// Texts behind the others, if there are any.
    More(&'static str),
    /// `--ID TEXT`.
    Named(&'static str),
    /// `[--ID TEXT]`.
    Option(&'static str),
    /// `[--ID TEXT]..`.
    Repeated(&'static str),
    /// `[--ID]`.
    Flag(&'static str),
}

fn arg<'a>(alloc: Global, argument: Argument) -> Arg<'a>
    ensures { IsArgOf result (rule_for argument) }
{
    match argument {
        Argument::Text(id) => Arg::new(alloc, id).required(true).action(ArgAction::Set),
        Argument::Texts(id) => Arg::new(alloc, id)
            .required(true)
            .action(ArgAction::Set)
            .num_args(1..),
        Argument::More(id) => Arg::new(alloc, id).action(ArgAction::Append).num_args(1..),
        Argument::Named(id) => Arg::new(alloc, id)
            .required(true)
            .action(ArgAction::Set)
            .long(id),
        Argument::Option(id) => Arg::new(alloc, id).long(id).action(ArgAction::Set),
        Argument::Repeated(id) => Arg::new(alloc, id).long(id).action(ArgAction::Append),
        Argument::Flag(id) => Arg::new(alloc, id).long(id).action(ArgAction::SetTrue),
    }
}

// A command of this name with these arguments.
fn command<'a>(
    alloc: Global,
    name: &'a str,
    arguments: &[Argument],
) -> Result<Command<'a>, AllocError>
    ensures { IfOk result (λ command. IsCommandOf command (app_named name.entry.now arguments.now)) }
{
    let mut command = Command::new(alloc, name);
    for argument in arguments {
        command = command.arg(arg(alloc, *argument))?;
    }
    Ok(command)
}

// A program with one command more.
fn with<'a>(
    alloc: Global,
    program: Command<'a>,
    name: &'a str,
    arguments: &[Argument],
) -> Result<Command<'a>, AllocError>
    ensures { (app : App) → IsCommandOf program.entry app
        → IfOk result (λ whole. IsCommandOf whole (with_subcommand app (app_named name.entry.now arguments.now).top)) }
{
    program.subcommand(command(alloc, name, arguments)?)
}

/// The grammar, as clap takes it.
pub(crate) fn grammar<'a>(alloc: Global) -> Result<Command<'a>, AllocError>
    ensures { IfOk result (λ command. IsCommandOf command program) }
{
    let device = Argument::Text("device");
    let words = Argument::Named("words");
    let bare = Command::new(alloc, "tznode")
        .no_binary_name(true)
        .subcommand_required(true);
    let format = [device, Argument::Text("nodes"), Argument::Flag("new")];
    let formats = with(alloc, bare, "format", &format)?;
    let shows = with(alloc, formats, "show", &[device])?;
    let edit = [
        device,
        Argument::Texts("ops"),
        Argument::Option("session"),
        Argument::Option("ticket"),
    ];
    let edits = with(alloc, shows, "edit", &edit)?;
    let resumes = with(alloc, edits, "resume", &[device, Argument::Text("session")])?;
    let route = [
        device,
        Argument::Text("from"),
        Argument::Text("to"),
        Argument::More("more"),
        words,
    ];
    let routes = with(alloc, resumes, "route", &route)?;
    let checks = with(alloc, routes, "check", &[device, words])?;
    let tables = [
        device,
        Argument::Text("folder"),
        words,
        Argument::Repeated("node"),
    ];
    let tabled = with(alloc, checks, "tables", &tables)?;
    let migrates = with(alloc, tabled, "migrate", &[device, Argument::Text("new")])?;
    let copies = with(alloc, migrates, "copy", &[device, Argument::Text("new")])?;
    let serve = [
        device,
        words,
        Argument::Option("editors"),
        Argument::Option("forwarders"),
        Argument::Option("queue"),
        Argument::Flag("live"),
        Argument::Option("rounds"),
    ];
    with(alloc, copies, "serve", &serve)
}
