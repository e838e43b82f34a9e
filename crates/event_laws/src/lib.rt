//! The laws of runs: what follows from what events were answered, as definitions and laws, without code.
//!
//! The crate `event_model` says what a list of events may be answered. Whoever runs events and answers them so has these laws for nothing.
//!
//! | Module | Speaks of | Law |
//! |---|---|---|
//! | `crashes` | what a crash may leave of a life: a prefix state that holds all that commits answered Ok for | [`history_law`] |
//! | `queue` | what the lists of a run keep: requests that were let in, their marks, the postings | [`lists_law`], [`queue_law`], [`acknowledged_law`], [`tickets_law`] |
//! | `exactly_once` | the accepted changes of several lives of a device: each ticket at most once | [`exactly_once_laws`] |
//! | `ways` | each packet goes over the one trip of its own generation | [`ways_law`] |
//!
//! `crashes` and `exactly_once` know of no events and of no machine; `queue` and `ways` name no disk.
#![tactic(auto)]

mod crashes;
mod exactly_once;
mod queue;
mod ways;

pub use crashes::history_law;
pub use exactly_once::exactly_once_laws;
pub use queue::{acknowledged_law, lists_law, queue_law, tickets_law};
pub use ways::ways_law;
