//! Who answers the lines of a service: its editors, its forwarders, the waiter, and the one that puts tables.
//!
//! Each takes the lines that are its own from its mailbox of an exchange (`line_exchange`), one after the other, and puts the answers
//! there, until no line comes any more or all stop. [`edit_lines`] answers those of a session by a [`SessionEditor`], which comes back:
//! each request that it put, the line asked for that it noted, each at most once (`ComesBack` of specs/Submits). [`forward_lines`] answers
//! routes, addresses, launches and hops by a [`BoardForwarder`], [`wait_lines`] how the service stands and what came of a backup, and [`table_lines`] puts the tables
//! of a generation, one file for each node (`IsTablesAnswer` of specs/Tables).
//!
//! That an answer fits its line, and is what each list of postings says that goes on from what is known, stands with the message itself
//! (`Answered`): none without it can be made.
//!
//! [`SessionEditor`]: service_actors::SessionEditor
//! [`BoardForwarder`]: service_actors::BoardForwarder
//!
//! ```text
//! let here = Workplace { rt, alloc, coordinator: &coordinator, exchange: &exchange };
//! let editor = edit_lines(&here, editor);                   // each in a thread of its own
//! forward_lines(&here, &OpenGate, forwarder, 0);
//! ```
#![tactic(auto)]

mod editing;
mod forwarding;
mod tabling;
mod waiting;
mod workplace;

pub use editing::edit_lines;
pub use forwarding::forward_lines;
pub use tabling::{TablesReader, table_lines};
pub use waiting::wait_lines;
pub use workplace::Workplace;
