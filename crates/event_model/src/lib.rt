//! Events of editors, committer and forwarders, and what each is answered, as definitions.
//!
//! # What it is
//!
//! An [`Event`] is one step of an editor, of the committer or of a forwarder, and a [`Reply`] is what it is answered. This crate
//! says what a list of events may be answered, without a disk and without code: the crate `interleave` runs events over a real
//! desk, and its contract cites these definitions. What follows from them is the subject of crates of laws.
//!
//! # The definitions
//!
//! - A `Machine` (specs/Machines.antt) is all that is held, as plain data: the sessions, the requests that were let in with how many
//!   of them were taken and settled, the groups that were given to a commit, the postings, what is due, the store's state, and each
//!   packet's way (`Trip` of specs/Trips.antt).
//! - `Answers event m reply n` (specs/Answers.antt): in `m` the event may be answered so, and then the machine is `n`. It is one line
//!   for each event, each by the definition that the contract of the call cites for which the event stands: `refusal_on` and
//!   `outcome_on` of the intake, `settle` of the desk, `hop_at` and `launch_at` of the forwarders, `IsSchemeOf` of the built schemes.
//!   `Idle` stands only where there is nothing to do, `Worn` only where something that is held is accepted, and `Memory` leaves all as
//!   it was, but for what was due at a rebuild. A take is never answered so, nor is a commit once the device failed.
//! - `Run m events replies n` (specs/Runs.antt): so for each event in turn.
//!
//! ```rust
//! use event_model::{Event, Reply};
//!
//! /// Whether an event and what it was answered took a request from the queue.
//! pub fn is_taken(event: &Event, reply: Reply) -> bool {
//!     matches!((event, reply), (Event::Take, Reply::Taken { .. }))
//! }
//! ```
#![tactic(auto)]

mod event;
mod reply;
mod session;

pub use event::Event;
pub use reply::Reply;
pub use session::Session;
