//! The event machine: editors, committer and forwarders, one event after another.
//!
//! # What it is
//!
//! A [`World`] is a desk with its store, and beside it what a life stores: a queue of requests, the sessions of the editors, the
//! postings, and the way of each packet. It has no threads. [`World::run`] takes a list of [`event_model::Event`]s in any order and
//! answers each; what threads do to a shared board, queue and desk is some list of such events. It calls the desk, and the functions
//! on a plain board that editors and forwarders answer by, and has no rule of its own.
//!
//! # The contract
//!
//! Contracts see a world by the words of specs/WorldWords.antt: `machine_of`, all that it holds as plain data, `lists_of`, what crashes
//! have to do with, and `world_view`, its disk. What the layer above uses is [`World::run`], which promises one record
//! (`HasRun`, specs/Runs.antt). It holds from where the world stands, so a list of events may be given in pieces; [`World::new`] gives what
//! the first of them begins with (`HasBegun`, specs/Begun.antt).
//!
//! | Claim | Fields | What it says |
//! |---|---|---|
//! | replies | `answers` | to each event the reply is what its call may answer there (`Run` of the crate `event_model`): `Idle` only where there is nothing to do, `Memory` only with all as before, but for what was due at a rebuild and a roll at a commit |
//! | disk | `worlds.steps` | each commit is answered by the desk, from how its disk was before to how it is after (`WorldRun`, specs/Desks.antt): `Device` only where the disk has failed in that very commit, `Down` only where it had failed before, `Worn` only where the group is past a limit, Ok only where the disk hasn't failed; at every other event the store stays, with its disk |
//! | crashes | `worlds.goes_on`, `safe` | there is one world after each event; and every crash since one of them leaves a prefix state of the history that holds all that commits had answered Ok for by then, and all that was acknowledged by then (`HoldsSince`, specs/Crashes.antt; `IsRun` of the crate `event_laws`) |
//! | lists | `lists`, `asked` | the postings are lawful, the queue keeps its history, the marks posted and due are those of settling, every posted generation is durable (`IsListed` of the crate `event_laws`) |
//! | ways | `on_way`, `routes`, `go_on`, `routed_well` | each packet goes over the one trip that its own generation's scheme has in the graph of that generation; a hop is refused only because that generation has left the shelf, a launch for its named reason (crate `event_laws`) |
//! | arriving | `arrive` | a packet that is hopped more often than its trip has edges left is delivered, unless a hop of it is answered that its generation is gone, or `Memory` (`Arrive` of the crate `event_laws`) |
//! | acknowledged | `acknowledged` | each image that a crash leaves now has every change whose Accepted mark stands in a posting |
//!
//! Replies, lists, ways and arriving name no disk (`HasRunAs`): they follow from `answers` alone, by the laws of the crates below.
//!
//! ```rust
//! use disk_trait::Disk;
//! use event_model::Event;
//! use interleave::{Report, World};
//! use std::alloc::{AllocError, Global};
//!
//! /// Commits what a session has asked for, and posts what became of it.
//! pub fn settle<D: Disk>(alloc: Global, world: &mut World<D>) -> Result<Report, AllocError> {
//!     world.run(alloc, &[Event::Take, Event::Commit, Event::Post])
//! }
//! ```
#![tactic(auto)]

mod committing;
mod editing;
mod forwarding;
mod room;
mod running;
mod stored;
mod world;

pub use running::Report;
pub use stored::{Stored, Way};
pub use world::{World, fresh_sessions};
