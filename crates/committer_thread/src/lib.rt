//! The committer's thread of a service.
//!
//! # What it is
//!
//! [`commit_all`] takes what editors submit, in rounds, until all of them have left or all stop. A generation of routing schemes is
//! built at the start ([`begun`]), and behind rounds that accepted something, as [`RebuildSchedule`] is told. [`commit_beside`] does so
//! too, but builds all of them beside the rounds, one at a time, of the graph as it is when the build begins.
//!
//! Between two rounds the store is written to a new device where somebody asks for that (`backed_up` of [`new_devices`]).
//!
//! Editors wait for the committer, and the committer for editors, at one [`std::sync::Mutex`] with two conditions.
//!
//! The tables of a network of 512 nodes or more are built in as many threads as there are processors, each over a heap of its own that
//! goes with it; those of a smaller one in the committer's thread, over one heap that serves all of them. A build beside the rounds has a
//! thread of its own, and leaves one processor to them where there are several.
//!
//! Memory doesn't grow with the number of rounds: it holds the graphs of the newest four generations, the one of which tables are built,
//! and those in which a packet is on its way.
//!
//! # The contract
//!
//! Whatever ends the committer, a crash at any moment leaves the state after a beginning of the requests that it took (`HasSettled` of
//! specs/Kept). The contracts of editors and forwarders are in [`service_actors`]. All of them use one board (`BoardName`). What
//! contracts of threads can't say is in docs/DECISIONS-SERVICE.md.
//!
//! ```text
//! let mut rebuilds = RebuildSchedule::new(alloc, source, 1, Builds::InTurn)?;
//! let coordinator = begun(rt, alloc, &mut committer, &mut rebuilds, editing)?;
//! commit_all(rt, alloc, &coordinator, &mut committer, &mut rebuilds, &mut devices)?;
//! ```
#![tactic(auto)]

mod backing;
mod beside;
mod causes;
mod committing;
mod config;
mod setting;

pub use beside::{Site, commit_beside};
pub use committing::{RebuildSchedule, begun, commit_all};
pub use config::ServiceConfig;
pub use service_actors::{Gate, OpenGate};
pub use setting::Setting;
