//! The intake: editors' changes, each once, in its editor's order, under the ticket that the editor gives.
//!
//! # What it is
//!
//! [`open_intake`] makes a queue with one [`Taker`] and an [`Editor`] for each reader of a board, for the sessions from 0; [`open_intake_for`] one
//! with the editor of a given session, and no other. An editor submits a change under a ticket of its own, above all that its session used before; it
//! waits for no answer, but looks at the board for what became of its last change, and submits no other one before that is settled. So at most one
//! change of each session is on its way, and an editor that was cut off may submit the same ticket again: it is refused where it is in.
//!
//! # The contract
//!
//! Taken and waiting requests together are those that were submitted and no others: all that an editor submitted is among them, as it submitted it,
//! no request twice and none before an earlier one of that editor ([`Taker::end`] says it of one editor); and of all that was taken each session's
//! tickets rise above its start ([`Taker::take`]). Where the taker finds nothing, all that the editor submitted that was ended last was taken. An
//! editor that has ended leaves a [`Watcher`], which goes on looking at the board.
//!
//! | Call | What it says |
//! |---|---|
//! | [`Editor::submit`] | `Ok`: one request more at the queue's end, under this ticket. Refused: the change comes back, and nothing was added |
//! | [`Editor::standing`] | what the board as looked at says of the last ticket, with its mark: `standing_on` |
//! | [`Editor::outcome`] | the same without the mark: `outcome_on` |
//! | [`Taker::take`] | the request at the front; none only where the queue was found empty |
//!
//! A submit is refused by the first of these that holds: `BoardShut`; `Busy`; `AlreadyIn`; `OldTicket`; `Worn`; `QueueFull`. All but the first and
//! the last are [`refusal_of`] the board as looked at, which whoever folds a board by itself calls too, as [`outcome_of`].
//!
//! ```rust
//! use generations::Shut;
//! use graph_edits::Change;
//! use intake::{Editor, Outcome, SubmitRefused};
//! use std::sync::Wait;
//!
//! /// Submits a change under the next ticket of a session that has just been opened.
//! pub fn first<W: Wait>(rt: &W, editor: &mut Editor, change: Change) -> Result<(), (SubmitRefused, Change)> {
//!     let ticket = editor.resume().saturating_add(1);
//!     editor.submit(rt, ticket, change)
//! }
//! ```
#![tactic(auto)]

mod editor;
mod misses;
mod open;
mod outcome;
mod queue;
mod watcher;

pub use editor::Editor;
pub use open::{open_intake, open_intake_for};
pub use outcome::{Outcome, Standing, SubmitRefused, outcome_of, refusal_of, standing_of};
pub use queue::Taker;
pub use watcher::Watcher;
