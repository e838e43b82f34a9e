//! What a router answers: a shelf of its newest tables, and an answer for each line.
//!
//! A [`Shelf`] keeps the tables of the newest four generations of one node, as the bytes of their files. A line asks for something
//! ([`asked_in`]), and the shelf answers it ([`Shelf::answer`]); the lines `load FILE` and `drop G` are told apart ([`file_in`],
//! [`dropped_in`]), since they change the shelf: whoever opens files loads one ([`Shelf::load`]), and a generation is forgotten
//! ([`Shelf::forget`]), unless it is the only one. An [`Answer`] is printed as one line ([`Answer::text`]):
//!
//! | Line | Answer |
//! |---|---|
//! | `address` | `generation=G address=` and 84 hex digits, in the newest generation |
//! | `launch ADDRESS` | `packet=` and 86 hex digits, or a refusal |
//! | `hop PACKET` | `port=P next=Y packet=..`, `delivered`, or a refusal |
//! | `load FILE` | `generation=G`, or why the file isn't loaded |
//! | `drop G` | `dropped generation=G`, or why the table of generation G isn't dropped |
//! | `tables` | `node=X generations=G,G`, the oldest first |
//! | anything else | `not understood` |
//!
//! The contract that the layer above uses: what a line asks for is exact (`IsAskedIn` of `specs/Lines`); a packet is launched, and
//! hops, by the table of the generation that the address or the packet names, as `router_table` says, and is `generation gone`
//! where that table isn't there; and what is printed is `answer_text`.
#![tactic(auto)]

mod answer;
mod line;
mod shelf;

pub use answer::Answer;
pub use line::{Asked, asked_in, dropped_in, file_in};
pub use shelf::{LoadRefused, SHELF_SIZE, Shelf};
