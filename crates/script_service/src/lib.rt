//! A service that runs a script: a live service's engine, whose answers are gathered and printed once all are there.
//!
//! [`serve_lines`] runs a script on a device. Tables are built behind each round that changed the graph, in the committer's thread.
//! [`serve_told`] does so too, tells a fault on a second writer, and answers how it ended (`Served` of `line_exchange`); [`serve_on`]
//! answers the program's exit status instead: 0 also where changes were refused.
//!
//! Where no fault comes, the lines of answers were printed of which just those are verdicts whose line is an edit, and all answers are of
//! one list of requests; a fault but that of the printing has printed nothing (`ServesScript` and `FailsScript` of
//! `live_service/specs/Services`). The device comes back, whatever ends the service.
//!
//! ```text
//! let device = ServedDevice { disk, words, config };
//! let (status, disk) = serve_on(Env { rt: &rt, alloc }, device, script, &OpenGate, &mut out, &mut err);
//! // 0 add:0:1:1    accepted count=1
//! // route 0 1      generation=1 route 0 1 length 1
//! ```
#![tactic(auto)]

mod script;

pub use script::{serve_lines, serve_on, serve_told};
