//! The one list of lines that put requests: which line put which ticket of a session.
//!
//! The list exists in the proofs alone, and only grows. What is stored of it is one word for each session: how many of its lines are
//! there. A [`LineBook`] has these words, and threads share it. [`PutLines`] is a beginning of the list that was seen: whoever has two of
//! one book knows that one list goes on from both ([`PutLines::learn`]). So what one thread noted by [`PutLines::add`], another that was
//! told of it can hold against what a third one says.
//!
//! ```text
//! let blank = BlankBook::new();
//! let book = LineBook::new(alloc, blank)?;
//! let seen = book.begin();                                  // nothing was seen
//! let line = PutLine { session: 0, ticket: 7, place: 2 };
//! let seen = seen.add(&book, &line, 0)?;                    // the first line of session 0
//! ```
#![tactic(auto)]

mod book;
mod put_line;

pub use book::{BlankBook, LineBook, PutLines};
pub use put_line::PutLine;
