//! What editors ask for, and the order of their tickets.
//!
//! A [`Request`] is a change under a session and a ticket. A session is an editor's number, below
//! [`SESSIONS`]; a ticket is the number that the editor gives to one change. A session's tickets rise: each
//! one is above all that the session used before, and numbers may be left out. So a list of the last tickets,
//! one for each session, is enough to tell a new ticket from one that was used.
//!
//! # The contract
//!
//! Contracts speak of pairs of a session and a ticket (specs/Tickets.antt): `asked_by` is the pair of a
//! request, `Rises tickets pairs` says that each pair in turn names a session that is there and a ticket above
//! that session's last one, and `tickets_after` are the last tickets then. What the crates above cite is
//! [`ticket_laws`]: pairs rise together exactly where the first ones do and the others do from there, so a
//! beginning of them rises; a session's ticket stands among them at most once, and only above where the
//! session began; and the last ticket is the greatest.
//!
//! ```rust
//! use graph_edits::{Change, Op, Shape};
//! use requests::{Request, SESSIONS};
//!
//! /// A request of the last session under its first ticket.
//! pub fn first() -> Result<Request, Shape> {
//!     let change = Change::new(&[Op::Add(0, 1, 5)])?;
//!     Ok(Request { session: (SESSIONS - 1) as u8, ticket: 1, change })
//! }
//! ```
#![tactic(auto)]

mod laws;
mod limits;
mod request;

pub use laws::ticket_laws;
pub use limits::{SESSIONS, WORN_LIMIT};
pub use request::Request;
