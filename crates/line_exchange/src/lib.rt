//! The lines of a service and their answers, handed from thread to thread: who reads, who prints, and where all find what is theirs.
//!
//! A reader takes lines from a [`LineSource`], one of an input or of a script, and puts what each asks for ([`Ask`]) where the one finds
//! it that answers it: an [`LineQueues`] has a mailbox for each editor, for each forwarder, for the waiter and for tables. The answers
//! ([`Answered`]) come back in any order, and whoever prints takes them in the order of their lines: a [`Terminal`] prints each as soon
//! as it and all before it are there, a [`Gatherer`] prints all at the end. Both are a [`Console`], which also tells how the service
//! ended ([`Served`]). At most 1,024 lines have been read and not answered.
//!
//! Each message carries the fact that makes it right: what the line at its place asks for, and that the answer fits it and is what each
//! list of postings says that goes on from what was known (`IsSaidAt` of specs/OneList). So the k-th answer that is printed is to the
//! k-th line (`HasPrintedBy` of specs/Prints, `HasText` of specs/Gathers), and the board need only be shown to have what was known.
//!
//! Whoever prints keeps a [`Tally`] of what was printed, and ends the service where an answer doesn't go with those before it: a generation
//! that was waited for lacks a change that was told as accepted, a verdict's ticket isn't behind its session's last one, or its line isn't
//! the next one that the session's editor noted (`put_lines`), an edit that put nothing isn't told so by these tickets or `resume` the last
//! accepted one, a route or an address goes by an older generation than one that was waited for before, or who tells that a generation is
//! gone knew less than the answers before (`Adds` of specs/Tallies).
//!
//! Answers are printed on an [`AnswerWriter`]. Where a write of it fails, a beginning of their lines stands there, and of a [`WatchedOutput`] it
//! is known that a write failed (`PrintsSo` of specs/Prints, `PrintsAtEnd` of specs/Gathers).
//!
//! Who answers the lines is another crate's affair: nothing here knows of editors, forwarders or a committer.
//!
//! ```text
//! let exchange = LineQueues::<J, B>::new(alloc, editors, forwarders, known, &starts, BlankBook::new())?;
//! let lines = read_lines(rt, &exchange, InputSource::new(alloc, editors, input))?;      // in a thread
//! let (terminal, printed) = Terminal { alloc, out, err }.print(rt, &exchange);          // in another one
//! ```
#![tactic(auto)]

mod answer_writer;
mod console;
mod exchange;
mod gathering;
mod input_source;
mod line_fault;
mod line_source;
mod messages;
mod printed;
mod printing;
mod reading;
mod script_source;
mod served;
mod tally;

pub use answer_writer::{AnswerWriter, WatchedOutput};
pub use console::{Console, Terminal, told};
pub use exchange::LineQueues;
pub use gathering::Gatherer;
pub use input_source::InputSource;
pub use line_fault::LineFault;
pub use line_source::LineSource;
pub use messages::{Answered, Ask, Noted, NotedLine, Stream};
pub use printed::Printed;
pub use reading::read_lines;
pub use script_source::ScriptSource;
pub use served::Served;
pub use tally::Tally;
