//! Rehearsals that are run: the lives that a text asks for, and the lines of what they were answered.
//!
//! [`rehearse`] runs the lives of a rehearsal (crate `rehearsal_syntax`) on a device in memory, which it makes and formats, by one call of
//! `lives_in_memory` of the crate `life_chain` ([`run_lives`]). Behind them comes a life that only opens. The lines are those of the report
//! of that call.
//!
//! # The contract
//!
//! The text that [`rehearse`] answers is that of a report of the lives that it was given, of a device in memory that was formatted for so many nodes
//! (`IsRehearsed`), and all that `lives_in_memory` tells of its report holds of it (`IsReported`). No text is answered where memory runs out, or where a
//! device can't have so many nodes; the latter comes only then (`nodes`). `docs/FORMATS.md`, "A rehearsal", has each line.
#![tactic(auto)]

mod asked;
mod lines;
mod report;
mod run;

pub use asked::{Rehearsal, lives_of};
pub use lines::{NotOpenedLine, ReplyLine};
pub use report::report_text;
pub use run::{RehearseRefused, formatted_device, rehearse, run_lives};
