//! What a line of the live service asks for, and the line that is printed of its answer.
//!
//! A line asks for something ([`asked_in`]). What is answered to it is an [`Answer`], which is printed as one line
//! ([`Answer::text`]):
//!
//! | Line | Answer |
//! |---|---|
//! | `edit S T OP..` | `S T accepted count=C`, `S T refused op=I code=K`, `S T already in`, or `S T old ticket` |
//! | `resume S` | `session=S ticket=T` |
//! | `route A B` | `generation=G route A .. B length L`, `generation=G unreachable`, or `no node` |
//! | `address V` | `generation=G address=` and 84 hex digits, or `no node` |
//! | `launch A ADDRESS` | `packet=` and 86 hex digits, or a refusal |
//! | `hop X PACKET` | `port=P next=Y packet=..`, `delivered`, or a refusal |
//! | `state` | `count=C generation=G queue=Q` |
//! | `wait` | `generation=G` |
//! | `tables FOLDER` | `generation=G tables=K bytes=B greatest=M`, `generation gone`, or `table file cannot be written` |
//! | `backup FILE` | `count=C`; or `file exists`, `device file cannot be used`, `device failed`, or `out of memory` |
//! | `metrics` | one line of JSON ([`Metrics`]) |
//! | `edit S ..` and `resume S ..`, where S has no editor | `no session` |
//! | `edit S T ..`, where a word behind T is no OP | `op not understood` |
//! | anything else | `not understood` |
//!
//! Exactly one blank stands between two words. Numbers and OPs are written as in a script (`value_syntax`). A session `S` is below
//! the number of editors; a ticket `T` is a number from 1 on, or `-` for the next one; there are 1 to 16 OPs. A node is any number of
//! 16 bits: whether the device has it is asked later. An `ADDRESS` and a `PACKET` are hex digits, in either case. A `FOLDER` or a `FILE` is any text of
//! a byte or more, each above a blank. A refusal is
//! `unreachable`, `no node`, `generation gone`, `stray` or `spent`; or, where digits spell nothing, `bad length`, `bad flag`,
//! `bad count` or `bad padding`.
//!
//! The contract that the layers above use: what a line asks for is exact (`IsAskedIn` of `specs/Lines`), as `Asks` says of each form,
//! and is not understood just where it asks for nothing that is known; `Fits` of `specs/Answers` says which answers are of what is
//! asked for; and what is printed is `answer_text`.
//!
//! ```text
//! asked_in(alloc, b"edit 0 - add:0:1:5", 2)?      // Asked::Edit { session: 0, ticket: None, change: .. }
//! asked_in(alloc, b"route 0  1", 2)?              // Asked::NotUnderstood
//! Answer::Waited { generation: 7 }.text(alloc)?   // generation=7
//! ```
#![tactic(auto)]

mod answer;
mod asked;
mod digits;
mod metrics;
mod words;

pub use answer::Answer;
pub use asked::{Asked, asked_in};
pub use metrics::{CommitFigures, KINDS, Kind, Metrics};
