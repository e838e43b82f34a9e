//! The run of the program `tznode`, a compact routing node on a device file: its words, a reader and two writers.
//!
//! | Words | Task |
//! |---|---|
//! | `format DEVICE N`, `show DEVICE`, `resume DEVICE S` | as `file_commands` says |
//! | `edit DEVICE OP.. --session S --ticket T` | without S, of session 0 |
//! | `route DEVICE FROM TO [FROM TO].. --words W`, `check DEVICE --words W` | by the landmarks that these words give |
//! | `migrate OLD NEW`, `copy OLD NEW` | NEW is a new file |
//! | `tables DEVICE FOLDER --words W --node N..` | the tables of these nodes, or of all |
//! | `serve DEVICE --words W --editors E --forwarders F --queue Q` | the script that the reader gives is run, by E editors and F forwarders, with Q places in the queue; printed is a line for each of its lines, as `edit` and `route` print them, or `no node` |
//! | the same with `--live --rounds R` | each line that the reader gives is answered as it comes; printed is a line for each, as `live_lines` spells it |
//!
//! An OP is `add:A:B:W`, `set:A:B:W` or `cut:A:B`. W says which nodes are landmarks: `none`, those of `at:2,5`, or those that
//! `draw:7` draws. A line of a script is `S OP..`, a change of session S, or `route A B`. Where they aren't named, E and F are 2, Q
//! is 64 and R is 16. Of all commands `serve` alone reads what the reader gives. What ends a command is a `Fault`, told on the second
//! writer as `tznode: TEXT`; a live service has printed by then what it answered.
//!
//! Here stand the run and its service. The words are read in `command_line`, the lines and faults are spelt in `command_output`, and what
//! every task but a service does is in `file_commands`, with the places of devices, which are handed on from there; the threads of `serve`
//! are in `live_service`, and the lines of a script and its answers in `line_exchange`. The backups of a live service are made at a place of
//! `NewDevices`.
//!
//! The contract that the layer above uses is that of [`run_words`] (`Says` of `specs/Runs`): of any run that what it printed is the
//! answer to what its words ask for, or which fault ended it, and with which status, and that no other command reads what is meant for
//! `serve`. [`run_words_at`] says it of a place of `tables` that the caller brings. [`run_on`] says the same of how it ended
//! ([`Outcome`]; `RunsWords` of `specs/Runs`), of devices and files of any kind: the device of the path was opened once and for its
//! access, nothing else was done there, and it was closed as the answer or the fault says; whatever ends `edit`, `migrate`, `copy` or
//! `serve`, a crash at any moment leaves the device as they promise. A fault is untold only where a write of its `FaultWriter` has failed, and no
//! other command than `tables` puts a file there: what a line of a live service asks to be put is put into files of the system. What
//! `serve` prints is of one list of requests, which the device has.
//!
//! ```text
//! let words = ["edit", "device", "add:0:1:1"];
//! let mut streams = Streams { script: rt.stdin(), out: rt.stdout(), err: WatchedWriter::new(rt.stderr()) };
//! let status = run_words(rt, &words, &mut streams); // 0, and accepted count=1
//! ```
#![tactic(auto)]

mod clocked_gate;
mod notes;
mod outcome;
mod running;
mod service;
mod sites;
mod streams;

pub use file_commands::{
    Access, Copied, DeviceLog, Devices, check_device, copy_device, route_device,
};
pub use notes::tell_suspects;
pub use outcome::Outcome;
pub use running::{run_on, run_words, run_words_at};
pub use service::reading_fault;
pub use sites::{At, Sites, SitesOf};
pub use streams::Streams;
