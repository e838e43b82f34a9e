//! The lines of an input, one after the other.
//!
//! [`next_line`] reads one line of any `BufRead` into a vector that the caller keeps, and tells what stood there ([`NextLine`]): a line
//! of at most [`LONGEST_LINE`] bytes, a longer one, or nothing. A line is the bytes before a line feed, whatever they are: a carriage
//! return, a zero or a byte that is no text stays in it. What stands behind the last line feed is a line too where it isn't empty. Of a
//! longer line all is read and nothing is given, so it takes no more memory than another, and its rest is never taken for a line.
//!
//! The contract that the layer above uses, where the bytes are known that the reader has left (`remaining` of `BufRead`): the line is
//! exactly `first_line` of them (`IsNext` of `specs/Reading`), and what is left then is exactly `after_line` of them (`DropsLine`). At
//! any reader the vector holds at most [`LONGEST_LINE`] bytes, none of them a line feed. After an error, the reader's or of memory, the
//! reader has lost some bytes from the front (`IsFurther`): whoever reads on may begin within a line. An interrupted read is made again.
//!
//! A caller that reads line after line keeps `AreRead xs count left`: `count` lines of the bytes xs are read, and `left` is what is
//! left. The lemmas of `proofs/LoopLemmas` step it: `none_read` begins it, `one_more` and `one_longer_more` go on, and `next_read` says
//! that what is given is the line at place `count` of `lines_in xs`, or that `count` lines are all (`IsLineAt`); `known_none`,
//! `known_more` and `known_next` say the same where it isn't said whether the bytes are known. `test_routers` has such a loop.
//!
//! ```text
//! let mut line = Vec::new(alloc);
//! next_line(&mut reader, &mut line)?      // of "tables\n\nhop": Line, and line is "tables"
//! next_line(&mut reader, &mut line)?      // Line, and line is empty
//! next_line(&mut reader, &mut line)?      // Line, and line is "hop"
//! next_line(&mut reader, &mut line)?      // End
//! ```
#![tactic(auto)]

mod line;

pub use line::{LONGEST_LINE, NextLine, next_line};
