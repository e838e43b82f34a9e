//! A service that answers lines as they come, with edits, routes, addresses and packets, and its engine, which runs scripts too.
//!
//! [`serve_live`] opens a device and starts the threads of an engine: a committer, an editor for each session, forwarders, a waiter, which answers `state`, `wait`,
//! `backup` and `metrics`, and the one that puts tables (all of `line_workers`). One more thread reads lines and hands each to the thread that answers it, and the
//! caller's thread prints the answers in the order of their lines (both of `line_exchange`), each as soon as it and all before it are there. A line that waits for a
//! commit holds up the printing of later answers, not the work on them.
//!
//! Memory doesn't grow with the input: at most 1,024 lines have been read and not answered. A burst of edits costs one build of tables: a build begins when no edit
//! waits, or at the latest `rounds` rounds after the first edit that they lack. It goes on beside the commits, one build at a time.
//!
//! A script is run by the same engine ([`serve_opened`]): that is the crate `script_service`.
//!
//! One parameter names the types by which a service goes on ([`Around`]). [`Surroundings::new`] picks it, so a caller writes none of them.
//!
//! A fault is told on a `FaultWriter` of `command_output`, which `WatchedWriter` makes of any writer. Where one of these calls answers that a fault wasn't told, a
//! write of this very writer has failed.
//!
//! The contract of [`serve_live`] says more of each line. What is printed is lines of answers and nothing else: the k-th fits what the k-th line of the input asks
//! for (`PrintsTo` of `specs/Runs`), and if no fault ended the service each line has one. Where a write fails a beginning of such lines was printed; of a
//! [`WatchedOutput`] it is known that a write of it failed. The lines are those of an input whose bytes are known. The disk comes back, whatever ends the service:
//! it is the very device, and a crash at any moment leaves the state after a beginning of the requests that were taken (`IsLeftBy`). A fault is told, and is true of
//! the device (`IsServeEnd`).
//!
//! Where no fault ended a service, all its answers are of one list of requests, which it took from the state of the opened device on (`AreOfOneList` of
//! `specs/ServedList`). Each session's are edits that lines of the input ask for, in the order of the lines, each line at most once, and just those lines are told
//! verdicts (`ArePutBy` of `line_workers`). A verdict is the mark that settling the first of them gives this session and this ticket; an edit that put none is told
//! so by what its session was told before (`AreDropped`). Each generation serves the graph of the state that its number names, and the marks of the requests that
//! led there were posted before it. A route is the way that a packet goes there, and so are addresses, launches and hops by the scheme of their generation
//! (`IsSaidIn` of `line_exchange`). `state` tells how the board stood, and the generation that `wait` answers has each change that was told as accepted before;
//! routes and addresses behind it go by no older one (`AreNoOlder`). `backup` tells how many changes were accepted after a beginning of the list, which has each
//! that was told before (`AreBackedUp`). `resume` tells the last ticket that was told as accepted. The device holds the state after all of the requests. Nothing of
//! this kind is said of `tables`, nor of a way's length. The same holds of a script.
//!
//! ```text
//! let mut err = WatchedWriter::new(rt.stderr());
//! let (served, disk) = serve_live(env, device, input, around, &mut out, &mut err);
//! // edit 0 - add:0:1:1    0 1 accepted count=1
//! // wait                  generation=1
//! // route 0 1             generation=1 route 0 1 length 1
//! ```
#![tactic(auto)]

mod around;
mod client;
mod ending;
mod engine;
mod opened;
mod opening;
mod running;
mod serve;
mod serving;

pub use around::{Around, Kinds};
pub use committer_thread::{Gate, OpenGate, ServiceConfig};
pub use line_exchange::{AnswerWriter, Served, WatchedOutput};
pub use opened::{EngineConfig, Env, LiveInput, Opened, Places, ServedDevice, Surroundings};
pub use opening::open_device;
pub use serve::serve_live;
pub use serving::{serve_opened, take_back};
