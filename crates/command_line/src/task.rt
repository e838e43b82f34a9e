//! What the program's words ask for.
ghost use Rattle.std.specs.Prelude.{◌≡◌, ◌⊎◌};
ghost use Rattle.clap.specs.Walk.{texts};
ghost use Rattle.clap.specs.Words.{kind_of};
ghost use Rattle.command_line.specs.Asked.{IsAskedFor, IsRefusedFor};
ghost use Rattle.command_line.specs.Readings.{IsUnderstood, Understands, rows_in};

use crate::arguments::Arguments;
use crate::grammar::grammar;
use crate::refused::WordsRefused;
use clap::Error;
use clap::error::ErrorKind;
use graph_edits::Change;
use requests::{SESSIONS, WORN_LIMIT};
use std::alloc::Global;
use value_syntax::LandmarkWords;

/// One command with its words understood.
#[derive(Debug, PartialEq, Eq, Drop)]
pub enum Task<'a> {
    /// Make the device file anew, with this many nodes.
    Format {
        device: &'a str,
        nodes: u16,
        /// Nothing may stand there yet.
        is_new: bool,
    },
    /// Print the count and the edges.
    Show {
        device: &'a str,
    },
    /// Make one change of a session, under a ticket of its own or under the next one.
    Edit {
        device: &'a str,
        /// Below the number of sessions.
        session: u8,
        /// 1 to the greatest ticket, where one is named.
        ticket: Option<u64>,
        change: Change,
    },
    /// Print the last ticket of a session.
    Resume {
        device: &'a str,
        /// Below the number of sessions.
        session: u8,
    },
    /// Find the routes of packets, each from a node to a node.
    Route {
        device: &'a str,
        /// Of each route both ends. There is one at least.
        pairs: Vec<(u16, u16)>,
        words: LandmarkWords,
    },
    /// Check the scheme that these words give.
    Check {
        device: &'a str,
        words: LandmarkWords,
    },
    /// Bring what a device of layout 1 holds to a new device.
    Migrate {
        old: &'a str,
        new: &'a str,
    },
    /// Write what a device holds to a new one, its tickets too.
    Copy {
        old: &'a str,
        new: &'a str,
    },
    /// Run a script in threads, or answer lines as they come.
    Serve {
        device: &'a str,
        /// 1 to 64, and so are the next two.
        editors: u8,
        forwarders: u8,
        /// How many changes may wait in the queue.
        places: u8,
        /// Of a service that answers lines as they come: after how many rounds at the latest it builds tables, 1 to 65,535.
        live: Option<u16>,
        words: LandmarkWords,
    },
    /// Put the routers' tables of nodes into a folder.
    Tables {
        device: &'a str,
        folder: &'a str,
        /// The nodes that are named, in order; all are meant where none is.
        nodes: Vec<u16>,
        words: LandmarkWords,
    },
}

// The greatest number of a session.
const LAST_SESSION: u64 = SESSIONS as u64 - 1;

/// What the words ask for, or why they are no task.
pub fn parse_task<'a>(alloc: Global, words: &'a [&'a str]) -> Result<Task<'a>, WordsRefused>
    ensures { Understands (IsAskedFor (texts words.entry.now)) (IsRefusedFor (texts words.entry.now)) result }
{
    let matches = match grammar(alloc)?.try_get_matches_from(words) {
        Ok(matches) => matches,
        Err(error) => return Err(refused_for(error)),
    };
    match matches.subcommand() {
        Some((name, found)) => task_of(name, &Arguments { alloc, found }),
        None => Err(WordsRefused::Usage),
    }
}

// What becomes of words that the grammar refuses.
fn refused_for(error: Error) -> WordsRefused
    ensures memory { kind_of error ≡ ErrorKind.OutOfMemory → result ≡ WordsRefused.Memory }
    ensures refusals { (result ≡ WordsRefused.Usage) ⊎ (result ≡ WordsRefused.Memory) }
{
    match error.kind() {
        ErrorKind::OutOfMemory => WordsRefused::Memory,
        _ => WordsRefused::Usage,
    }
}

// What a command asks for, of these arguments. Words and ops are read last: what is wrong with a number is told before what is wrong with them.
fn task_of<'a>(name: &str, arguments: &Arguments<'a, '_>) -> Result<Task<'a>, WordsRefused>
    ensures { IsUnderstood name.now (rows_in arguments.now) result }
{
    let device = arguments.text("device")?;
    if name == "format" {
        let nodes = arguments.number("nodes", 0, 65_535)? as u16;
        let is_new = arguments.flag("new");
        Ok(Task::Format {
            device,
            nodes,
            is_new,
        })
    } else if name == "show" {
        Ok(Task::Show { device })
    } else if name == "edit" {
        Ok(Task::Edit {
            device,
            session: arguments.usual("session", 0, LAST_SESSION, 0)? as u8,
            ticket: arguments.optional("ticket", 1, WORN_LIMIT)?,
            change: arguments.change()?,
        })
    } else if name == "resume" {
        let session = arguments.number("session", 0, LAST_SESSION)? as u8;
        Ok(Task::Resume { device, session })
    } else if name == "route" {
        Ok(Task::Route {
            device,
            pairs: arguments.pairs()?,
            words: arguments.words()?,
        })
    } else if name == "check" {
        let words = arguments.words()?;
        Ok(Task::Check { device, words })
    } else if name == "migrate" {
        Ok(Task::Migrate {
            old: device,
            new: arguments.text("new")?,
        })
    } else if name == "copy" {
        Ok(Task::Copy {
            old: device,
            new: arguments.text("new")?,
        })
    } else if name == "serve" {
        Ok(Task::Serve {
            device,
            editors: arguments.usual("editors", 1, 64, 2)? as u8,
            forwarders: arguments.usual("forwarders", 1, 64, 2)? as u8,
            places: arguments.usual("queue", 1, 64, 64)? as u8,
            live: arguments.live()?,
            words: arguments.words()?,
        })
    } else if name == "tables" {
        Ok(Task::Tables {
            device,
            folder: arguments.text("folder")?,
            nodes: arguments.nodes("node")?,
            words: arguments.words()?,
        })
    } else {
        Err(WordsRefused::Usage)
    }
}
