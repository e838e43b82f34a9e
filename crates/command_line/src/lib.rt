//! What the program's words ask for.
//!
//! | Words | Task |
//! |---|---|
//! | `format DEVICE N`, with or without `--new` | [`Task::Format`] |
//! | `show DEVICE` | [`Task::Show`] |
//! | `edit DEVICE OP.. --session S --ticket T` | [`Task::Edit`], of 1 to 16 OPs; both options may be left out: session 0, the next ticket |
//! | `resume DEVICE S` | [`Task::Resume`] |
//! | `route DEVICE FROM TO [FROM TO].. --words W` | [`Task::Route`], of one pair of nodes or more |
//! | `check DEVICE --words W` | [`Task::Check`] |
//! | `migrate OLD NEW` | [`Task::Migrate`] |
//! | `copy OLD NEW` | [`Task::Copy`] |
//! | `serve DEVICE --words W --editors E --forwarders F --queue Q` | [`Task::Serve`], of 1 to 64 each; without them 2, 2 and 64 |
//! | the same with `--live --rounds R` | a live service, R from 1 to 65,535; without R it is 16, and R stands with `--live` alone |
//! | `tables DEVICE FOLDER --words W [--node N]..` | [`Task::Tables`], of the nodes that are named, in order, or of none |
//!
//! What the program says of itself is [`HELP`]; whoever runs it looks there first (`program_help`), since for the grammar the words for it
//! are no command.
//!
//! `clap` reads the words: each command is a subcommand, with none below it, and each value is a text. Numbers, OPs and W are read
//! from these texts by [`value_syntax`]. No file is opened and nothing is printed.
//!
//! The contract that the layer above uses (`Understands` of `specs/Readings`): [`understood`] answers a task that the words ask for by
//! the program's grammar (`IsAskedFor` of `specs/Asked`, over clap's own account of a parse); the words ask for no other; and where they
//! ask for one whose numbers are in range, no answer but that task and want of memory comes. A refusal is named by [`WordsRefused`].
//!
//! ```text
//! match parse_task(alloc, &["show", "d"])? {
//!     Task::Show { device } => ..          // device is "d"
//!     ..
//! }
//! parse_task(alloc, &["show"])             // Err(WordsRefused::Usage)
//! ```
#![tactic(auto)]

mod arguments;
mod grammar;
mod help;
mod refused;
mod task;

pub use help::HELP;
pub use refused::WordsRefused;
pub use task::{Task, parse_task};
