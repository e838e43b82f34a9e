//! Rehearsals as a user writes them, read exactly: a device, lives of it, and the events of each.
//!
//! A rehearsal is a text. Its first line makes a device. Each life begins with a line that says how it opens, which call of the device
//! fails and what the crash leaves; the lines behind it are its events, in their order. [`read_rehearsal`] reads the text into
//! [`RehearsalLine`]s and runs nothing.
//!
//! `docs/FORMATS.md`, "A rehearsal", has each line. Words are cut at blanks. What stands behind a `#` is left out, and so is a line without
//! a word.
//!
//! # The contract
//!
//! What is read is written so, and each line may stand where it stands (`found`). Where the text is refused, the number of a line is named,
//! from 1: the lines before it begin a rehearsal, and no rehearsal begins with the lines up to it (`refused`). So a text that is a
//! rehearsal is read.
//!
//! ```text
//! read_rehearsal(alloc, "device 5\n\nlife sessions=1 places=1 words=none crash=0  # one life")?   // Ok: two lines
//! read_rehearsal(alloc, "device 5\ntake")?                                                        // Err: line 2, a life is wanted
//! ```
#![tactic(auto)]

mod line;
mod line_reading;
mod reading;
mod refused;
mod stage;

pub use line::{LifeLine, RehearsalLine};
pub use reading::read_rehearsal;
pub use refused::{Form, LineRefused};
pub use stage::Stage;
