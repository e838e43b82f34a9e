//! A rehearsal tried with its device stopped at every call: what the next opening finds.
//!
//! The last life that a rehearsal's text asks for is run again and again, each time on a new device that stops at another of the calls
//! which that life makes of it, and behind another number of bytes of a write. Behind it comes the life that only opens. [`try_stop`] is
//! one such trial, [`try_every_stop`] all of them, and what it answers is a table of what they came to. `docs/FORMATS.md`, "Every stop of its device",
//! has its lines.
//!
//! A device can stop at each of its calls, and in a write behind each number of bytes. [`Watched`] is a disk in memory that notes the calls
//! that were made of it since it was last armed; it has the view of the disk in it. [`stops_of`] lists the first [`Stop`]s of such calls, in order
//! (`first_stops`, specs/Stops.antt), and [`count_stops`] counts them. [`table_of`] counts the [`Kind`]s of trials (`IsTableOf`, specs/Tables.antt).
//!
//! [`rehearse::run`] is the command `rehearse` of the lab: it reads the file that its words name, and [`rehearse_text`] prints the report of the
//! lives that its text asks for, or with `--every-stop` that table ([`Asked`]).
//!
//! # The contract
//!
//! Where [`rehearse_text`] answers Ok, the text spells a rehearsal, and what was printed is the text of a report of the proved call for the lives that
//! it asks for (`IsRehearsed`), or of the trials of its stops (`IsTried`), and nothing else. Else the refusal says why (`IsWhyNot`).
//!
//! What a trial answers is of the report of one call of `lives_in_memory` (`IsStopFound`, specs/Trials.antt), so that call's clauses hold of it. What the
//! stopped life found, and what its commits answered Ok for, are no more than the next opening found (`kept`). The stops that are tried are
//! exactly the first of the calls of one run without a stop ([`calls_of_last`], `AreCallsOf`). No clause says that a trial meets these very calls, and
//! none needs it: each trial is judged by what it left. A run in which memory ran out is no trial and lists no calls: it is refused.
#![tactic(auto)]

mod found;
mod kinds;
pub mod rehearse;
mod stops;
mod texts;
mod told;
mod trial;
mod watched;

pub use kinds::{Kind, KindCount, table_of};
pub use stops::{Call, Stop, count_stops, stops_of};
pub use texts::trials_text;
pub use told::{Asked, NotRehearsed, rehearse_text};
pub use trial::{StopFound, calls_of_last, try_every_stop, try_stop, try_stops};
pub use watched::Watched;
