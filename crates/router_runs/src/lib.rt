//! The run of a router: each line of an input is answered, and its answer printed.
//!
//! [`answer_lines`] reads lines of a reader, answers each by a shelf of `router_lines`, and prints the answer on any writer before it
//! reads on. It flushes the writer before it waits: wherever the reader has no whole line at hand ([`LineReader`]). Files are read where
//! a [`TableSource`] reads them.
//!
//! The contract that a program uses, where the bytes are known that the reader has left: the answers are those of the shelf, in the
//! order of the lines, each by the shelf as the lines before left it (`AreAnswers` of `specs/Runs`), and what was printed are their
//! texts, a line each, and nothing else. A fault ends the run behind the answers of its first lines.
#![tactic(auto)]

mod line_reader;
mod source;
mod talking;

pub use line_reader::LineReader;
pub use source::{TableSource, Unread};
pub use talking::{RunFault, answer_lines};
