//! What the programs say of themselves: their help, the help of one of their commands, and their version.
//!
//! | Words | Text |
//! |---|---|
//! | `help`, `--help`, `-h` | the front, the entries of all commands and the back of a program's [`Help`] |
//! | `help COMMAND` | the entry of this command and what more there is to say of it |
//! | `version`, `--version`, `-V` | the program's name and [`VERSION`] |
//!
//! The contract that the layer above uses: [`asked_text`] gives exactly that text (`IsAnswer` of `specs/Asking`), and none where the
//! words ask for none of these, or for a command that the program hasn't. So a program asks here first, and hands all other words on.
//!
//! ```text
//! asked_text(alloc, &TZNODE, &["--version"])?     // tznode 0.5.0
//! asked_text(alloc, &TZNODE, &["show", "d"])?     // None
//! ```
#![tactic(auto)]

mod asking;
mod help;

pub use asking::{Asked, asked_text};
pub use help::{CommandHelp, Help, VERSION};
