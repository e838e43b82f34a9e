//! The command `tzlab landmarks`: it chooses landmarks under which no node's table is large, prints the line that names them, and tells what
//! their tables hold and whether they keep the limits.
//!
//! [`landmark_choice`] counts, and proves nothing of its counts. So here the scheme of the chosen landmarks is built, and that of the landmarks that
//! `draw` gives for the same seed; what is told is what stands in their tables (`specs/Sizes`, and as fourteen lines `specs/Tables`).
//!
//! The contract that the layers above use is that of [`print_choice`] (`HasChosen` of `specs/Answers`): just what was asked for was printed, of
//! landmarks that keep the limits or don't, and the text is at hand that is told of them; or the output failed; or memory ran out, and nothing was
//! printed. The limits are kept exactly where no table of the chosen ones is larger than it may be and no more landmarks stand than may ([`report_of`]).
//! [`line_of`] writes the landmarks as landmark words: [`value_syntax::landmark_words`] reads the same nodes. [`run`] and [`grammar`] are the command.
//!
//! ```text
//! let chosen = print_choice(rt, &graph, generation, wanted, &mut out, &mut err)?;
//! // at:3,17
//! chosen.told      // before_landmarks=58 unit=nodes\n..
//! ```
#![tactic(auto)]

mod choosing;
mod command;
mod lines;
mod reports;
mod sizes;
mod tables;

pub use choosing::{Chosen, Wanted, print_choice};
pub use command::{grammar, run};
pub use lines::line_of;
pub use reports::{Asked, Report, report_of};
