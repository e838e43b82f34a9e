//! How a command lists its words, and what it is given.
ghost use Rattle.std.specs.Prelude.{◌≡◌, ◌≤◌, IfOk, IfSome, Some, codes, decimal, map, option_map};
ghost use Rattle.clap.specs.Walk.{first_of, rule_of};
ghost use Rattle.value_syntax.specs.Reading.{IfRead};
ghost use Rattle.lab_parts.specs.Grammar.{IsArgOf, IsCommandOf, app_with, flag_rule, needed_rule, rule_as, rule_for, value_rule, with_shown, word_rule};
ghost use Rattle.lab_parts.specs.Words.{IsFlag, IsUsual, rows_in};

use clap::{Arg, ArgAction, ArgMatches, Command};
use std::alloc::{AllocError, Global};
use value_syntax::number;

/// What is said of a word of a command.
#[derive(Clone, Copy, Drop)]
pub struct Said<'a> {
    kind: Kind,
    name: &'a str,
    // How its value is shown.
    shown: &'a str,
    help: &'a str,
}

// The kinds of words.
#[derive(Clone, Copy)]
enum Kind {
    // A word that has to be there.
    Word,
    // An option that takes a value, and has to be there.
    Needed,
    // An option that takes a value.
    Value,
    // An option that takes no value.
    Flag,
}

fn of_kind<'a>(kind: Kind, name: &'a str, shown: &'a str, help: &'a str) -> Said<'a>
    ensures { rule_for result ≡ rule_as kind name.entry.now }
{
    Said {
        kind,
        name,
        shown,
        help,
    }
}

/// A word that has to be there.
pub fn word<'a>(name: &'a str, shown: &'a str, help: &'a str) -> Said<'a>
    ensures { rule_for result ≡ word_rule name.entry.now }
{
    of_kind(Kind::Word, name, shown, help)
}

/// An option that takes a value, and has to be there.
pub fn needed<'a>(name: &'a str, shown: &'a str, help: &'a str) -> Said<'a>
    ensures { rule_for result ≡ needed_rule name.entry.now }
{
    of_kind(Kind::Needed, name, shown, help)
}

/// An option that takes a value.
pub fn value<'a>(name: &'a str, shown: &'a str, help: &'a str) -> Said<'a>
    ensures { rule_for result ≡ value_rule name.entry.now }
{
    of_kind(Kind::Value, name, shown, help)
}

/// An option that takes no value.
pub fn flag<'a>(name: &'a str, help: &'a str) -> Said<'a>
    ensures { rule_for result ≡ flag_rule name.entry.now }
{
    of_kind(Kind::Flag, name, "", help)
}

/// The device of a command.
pub fn device<'a>() -> Said<'a>
    ensures { rule_for result ≡ word_rule (codes "device") }
{
    word("device", "DEVICE", "The file of a device")
}

/// The command of this name, with the words that are listed.
pub fn command<'a>(
    alloc: Global,
    name: &'a str,
    about: &'a str,
    said: &[Said<'a>],
) -> Result<Command<'a>, AllocError>
    ensures { IfOk result (λ command. IsCommandOf command (app_with name.entry.now (map rule_for said.now))) }
{
    let mut command = Command::new(alloc, name).about(about);
    for said in said {
        command = command.arg(said.as_arg(alloc))?;
    }
    Ok(command)
}

impl<'a> Said<'a> {
    /// The word as clap has it.
    pub fn as_arg(&self, alloc: Global) -> Arg<'a>
        ensures { IsArgOf result (rule_for self.now) }
    {
        let arg = Arg::new(alloc, self.name).help(self.help);
        match self.kind {
            Kind::Word => taken(arg, self.shown).required(true),
            Kind::Needed => taken(arg, self.shown).long(self.name).required(true),
            Kind::Value => taken(arg, self.shown).long(self.name),
            Kind::Flag => arg.long(self.name).action(ArgAction::SetTrue),
        }
    }
}

// A word that is taken, or the value of an option.
fn taken<'a>(arg: Arg<'a>, shown: &'a str) -> Arg<'a>
    ensures rule { rule_of result ≡ with_shown (record (rule_of arg.entry) { action = Some ArgAction.Set }) }
    ensures local { result.global ≡ arg.entry.global }
{
    arg.value_name(shown).action(ArgAction::Set)
}

/// The text that a word or an option has.
pub fn given<'a>(found: &ArgMatches<'a>, id: &str) -> Option<&'a str>
    ensures { option_map (λ text. text.now) result ≡ first_of id.now (rows_in found.now) }
{
    found.get_str(id)
}

/// Whether a flag was given.
pub fn is_given(found: &ArgMatches<'_>, id: &str) -> bool
    ensures { IsFlag (rows_in found.now) id.now result }
{
    match given(found, id) {
        Some(text) => text == "true",
        None => false,
    }
}

/// The number that an option has, or the usual one. None where its text is no number up to the most.
pub fn usual(
    alloc: Global,
    found: &ArgMatches<'_>,
    id: &str,
    most: u64,
    usual: u64,
) -> Result<Option<u64>, AllocError>
    requires { usual ≤ most }
    ensures is { IfRead result (IsUsual (first_of id.now (rows_in found.now)) usual) }
    ensures few { IfRead result (λ n. n ≤ most) }
{
    match given(found, id) {
        Some(text) => number(alloc, text, most),
        None => Ok(Some(usual)),
    }
}

/// The number that an option has, where it has one. None where its text is no number up to the most.
pub fn optional(
    alloc: Global,
    found: &ArgMatches<'_>,
    id: &str,
    most: u64,
) -> Result<Option<Option<u64>>, AllocError>
    ensures is { IfRead result (λ n. first_of id.now (rows_in found.now) ≡ option_map decimal n) }
    ensures few { IfRead result (λ n. IfSome n (λ some. some ≤ most)) }
{
    match given(found, id) {
        Some(text) => Ok(number(alloc, text, most)?.map(|n| Some(n))),
        None => Ok(Some(None)),
    }
}
