//! Values as a user writes them, read exactly: numbers, ops, landmark words, and the lines of a script.
//!
//! | Read by | Form |
//! |---|---|
//! | [`number`] | decimal digits, without sign and leading zeros, up to a number that the caller names |
//! | [`node`] | a number that fits a node's |
//! | [`op`] | `add:A:B:W`, `set:A:B:W` or `cut:A:B` |
//! | [`landmark_words`] | `none`, `at:2,5` or `draw:7` |
//! | [`change_in`] | a change, an op a word |
//! | [`script`] | the lines of a script of `serve` |
//!
//! Each answers `None` exactly where the text isn't of its form: what is read is written so (`found`), and what is written so is read (`only`). A
//! text that differs in one character is another text, so `+1`, `01` and `1 ` are no numbers.
//!
//! # Landmark words
//!
//! Landmark words are asked for before it is known how many nodes there are. [`LandmarkWords::is_within`] says whether there are enough, and then
//! [`LandmarkWords::of_nodes`] gives a word for each: the greatest, 0 at the nodes that were named, or those that a seeded generator draws.
//!
//! A service that builds scheme after scheme draws new landmark words for each: those of the first are the first that `draw:N` names, those of the
//! next follow. [`Draws`] holds the generator between them. [`Draws::next`] gives the next words of the seed, and what it leaves is the state after
//! them; where memory is refused, nothing was drawn.
//!
//! ```text
//! number(alloc, "17", 65_535)?                        // Some(17)
//! landmark_words(alloc, "at:2")?                      // Some: of 3 nodes u64::MAX, u64::MAX, 0
//! script(alloc, "0 add:0:1:1\nroute 0 1", 2)?         // Some: a change of session 0, and a packet from 0 to 1
//! script(alloc, "2 add:0:1:1", 2)?                    // None: there are the sessions 0 and 1
//! ```
//!
//! A script has a line for each thing that is to be done, each ended by a line feed, which the last one may lack:
//!
//! | Line | Is |
//! |---|---|
//! | `S OP..` | a change of the session `S`, of 1 to 16 ops as `add:A:B:W`, `set:A:B:W` or `cut:A:B`; one blank before each |
//! | `route A B` | a packet from the node `A` to the node `B` |
//!
//! What [`script`] reads is written so (`found`), and what is written so is read (`only`), by the words of each line, cut at each blank
//! (`specs/Scripts`). It answers `None` exactly where a line is of neither form: an empty one, one with a blank too many, with a session that has no
//! editor, with more ops than a change may have, or with a number past its type.
#![tactic(auto)]

mod draws;
mod line;
mod op_words;
mod reading;
mod words;

pub use draws::Draws;
pub use line::ScriptLine;
pub use op_words::{node, number, op};
pub use reading::{change_in, lines_in, script};
pub use words::{LandmarkWords, landmark_words};
