// What words ask a program to say of itself.
ghost use Rattle.std.specs.Prelude.{◌↔◌, IfOk, IsTrue};
ghost use Rattle.program_help.specs.Asking.{IsAnswer, IsAskedBy, IsAskedIn, IsHelp, IsVersion, texts_of};

use crate::help::Help;
use std::alloc::{AllocError, Global};

/// What words ask a program to say of itself.
#[derive(Clone, Copy)]
pub enum Asked<'a> {
    /// All of its help.
    Whole,
    /// The help of the command of this name.
    Of(&'a str),
    /// Its version.
    Version,
}

fn is_help(word: &str) -> bool
    ensures { IsTrue result ↔ IsHelp word.now }
{
    word == "help" || word == "--help" || word == "-h"
}

fn is_version(word: &str) -> bool
    ensures { IsTrue result ↔ IsVersion word.now }
{
    word == "version" || word == "--version" || word == "-V"
}

// What one word asks for.
fn asked_by<'a>(word: &str) -> Option<Asked<'a>>
    ensures { IsAskedBy word.now result }
{
    if is_help(word) {
        Some(Asked::Whole)
    } else if is_version(word) {
        Some(Asked::Version)
    } else {
        None
    }
}

// What words ask for, if it is anything of this kind.
fn asked_in<'a>(words: &[&'a str]) -> Option<Asked<'a>>
    ensures { IsAskedIn (texts_of words.now) result }
{
    match words {
        [word] => asked_by(word),
        [word, name] if *word == "help" => Some(Asked::Of(name)),
        _ => None,
    }
}

/// What a program says of itself where these words ask for that.
pub fn asked_text(alloc: Global, help: &Help, words: &[&str]) -> Result<Option<String>, AllocError>
    ensures { IfOk result (IsAnswer help.now (texts_of words.now)) }
{
    match asked_in(words) {
        Some(Asked::Whole) => Ok(Some(help.whole(alloc)?)),
        Some(Asked::Of(name)) => help.of_command(alloc, name),
        Some(Asked::Version) => Ok(Some(help.version(alloc)?)),
        None => Ok(None),
    }
}
