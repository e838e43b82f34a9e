// What a program says of itself.
ghost use Rattle.std.specs.Prelude.{◌≡◌, ◌++◌, IfOk, OnOk, option_map};
ghost use Rattle.std.specs.List.{flat_map};
ghost use Rattle.std.specs.String.{string_bytes};
ghost use Rattle.program_help.specs.Texts.{command_in, command_text, entry_of, version_text, whole_text};

use std::alloc::{AllocError, Global};

/// The version of all programs of this repository.
pub const VERSION: &str = "0.5.0";

/// What a program says of one of its commands.
#[derive(Clone, Copy)]
pub struct CommandHelp {
    pub name: &'static str,
    /// The command's line and what it does: a line or more, each with its line feed.
    pub entry: &'static str,
    /// What stands below that where this command is asked for.
    pub more: &'static str,
}

/// What a program says of itself.
#[derive(Clone, Copy)]
pub struct Help {
    pub program: &'static str,
    /// What stands in front of the commands.
    pub front: &'static str,
    pub commands: &'static [CommandHelp],
    /// And behind them.
    pub back: &'static str,
}

impl Help {
    /// All of it: the front, each command's entry, and the back.
    pub(crate) fn whole(&self, alloc: Global) -> Result<String, AllocError>
        ensures { IfOk result (λ text. string_bytes text ≡ whole_text self.now) }
    {
        let mut text = String::from_str(alloc, self.front)?;
        push_entries(&mut text, self.commands)?;
        text.push_str(self.back)?;
        Ok(text)
    }

    /// What is said of a command, where the program has it.
    pub(crate) fn of_command(&self, alloc: Global, name: &str) -> Result<Option<String>, AllocError>
        ensures { IfOk result (λ found. option_map string_bytes found ≡ option_map command_text (command_in self.now.commands.now name.now)) }
    {
        match command_named(self.commands, name) {
            Some(command) => Ok(Some(command.text(alloc)?)),
            None => Ok(None),
        }
    }

    /// The program's name, and its version.
    pub(crate) fn version(&self, alloc: Global) -> Result<String, AllocError>
        ensures { IfOk result (λ text. string_bytes text ≡ version_text self.now) }
    {
        let mut text = String::from_str(alloc, self.program)?;
        text.push_str(" ")?;
        text.push_str(VERSION)?;
        text.push_str("\n")?;
        Ok(text)
    }
}

impl CommandHelp {
    // Its entry, and what stands below it.
    fn text(&self, alloc: Global) -> Result<String, AllocError>
        ensures { IfOk result (λ text. string_bytes text ≡ command_text self.now) }
    {
        let mut text = String::from_str(alloc, self.entry)?;
        text.push_str(self.more)?;
        Ok(text)
    }
}

// The first command of this name.
fn command_named<'a>(commands: &'a [CommandHelp], name: &str) -> Option<&'a CommandHelp>
    ensures { option_map (λ found. found.now) result ≡ command_in commands.now name.now }
{
    commands.iter().find(|command| command.name == name)
}

// Writes the entries of commands at the end.
fn push_entries(text: &mut String, commands: &[CommandHelp]) -> Result<(), AllocError>
    ensures { OnOk result (string_bytes text.new ≡ string_bytes text.old ++ flat_map entry_of commands.now) }
{
    for command in commands {
        text.push_str(command.entry)?;
    }
    Ok(())
}
