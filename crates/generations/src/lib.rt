//! The board: one list of postings, published by one writer to readers that never wait.
//!
//! # What it is
//!
//! A [`Posting`] tells all in one step: the [`Mark`]s of one group of requests, that the device failed, or a new generation of the routing scheme. A [`Board`] is
//! what a list of postings says: for each session its last mark and its last *accepted* ticket (a later mark that refuses doesn't hide it), the count of accepted
//! changes, whether the device failed, and the shelf of the newest [`MOST_SHELVED`] generations. It is a plain value, which anybody may fold.
//!
//! [`board`] makes a shared one: a [`BoardWriter`] that posts, and [`BoardReader`]s that look. What the writer tells (a [`Told`]) a reader may learn; from then on
//! it sees no less.
//!
//! # The contract
//!
//! Contracts see postings as plain data: a `Notice` is the marks, or the number and the tables of a scheme, and nothing of who owns them. There is one list of
//! notices for each board. It is lawful (specs/Lawful.antt) when each session's tickets rise above its start, the Accepted counts go on one by one, the numbers of
//! generations rise, and nothing follows a failure; and so is each beginning of it ([`board_laws`]). The shelf has room for four generations ([`limits_law`]).
//!
//! | Call | What it says |
//! |---|---|
//! | [`Board::fold`] | the board after one notice more (`after`); refused for memory, it is unchanged |
//! | [`BoardWriter::post`] | `Ok`: the list is one longer. `Back`: the posting comes back and nothing changed. `Kept`: the writer keeps it, and no reader sees it |
//! | [`BoardWriter::retry`] | `Ok`: the list has what was kept. `Kept`: it stays kept |
//! | [`BoardWriter::publish_again`] | no posting: the list stays as it is, and the copy that readers have left catches up with it |
//! | [`BoardWriter::tell`] | all that was posted |
//! | [`BoardReader::look`] | the fold of the list up to some place, behind all that this reader has seen or learnt of it; or `Shut` |
//!
//! `look`, `learn`, `leave` and `tell` take neither memory nor a handle to wait by. A look is `Shut` where `left_right` refused the entry; or `Behind`, where it let
//! the reader into a board that ends before what was told. By the order of the steps that never happens, but no clause of `left_right` says so, so it is a case of
//! its own.
//!
//! ```rust
//! use generations::{BoardReader, Shut, Told};
//!
//! /// Whether the device has failed, as far as one was told.
//! fn is_down(reader: BoardReader) -> Result<bool, (Shut, BoardReader)> {
//!     let look = reader.look()?;
//!     Ok(look.board().is_down())
//! }
//! ```
#![tactic(auto)]

mod fold;
mod history;
mod laws;
mod posting;
mod reader;
mod replica;
mod seats;
mod writer;

pub use fold::{Board, MOST_SHELVED, Shelved};
pub use history::History;
pub use laws::{board_laws, limits_law};
pub use posting::{Mark, Notice, Posting, Verdict};
pub use reader::{BoardReader, Look, Shut, Told};
pub use seats::{MOST_READERS, board};
pub use writer::{BoardWriter, Kept, PostRefused};
