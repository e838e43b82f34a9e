//! One list of requests, and what is told of it: as definitions and a law, without code.
//!
//! # What it is
//!
//! A service lets requests into one list, settles the first of them, and tells their marks and the generations that it builds. This crate says
//! how these go together (`AreListed`), for whoever keeps such lists: the committer, and the event machine.
//!
//! # The definitions
//!
//! `AreListed builds first told asked done taken state down` (specs/Lists.antt): from the state `first` on, the requests `asked` stand in each
//! session's order, and the first `done` of them are settled. `state` is the one after these, and what was told has just their marks. What was told is lawful,
//! by the board's own definition, and each generation in it is durable.
//!
//! `IsDurable` (specs/Durable.antt): what was told before a generation has the marks of just the first so many requests; its number is the count of
//! the state after these; and its scheme serves the graph of that state. That is of a generation that is built in turn with the rounds. Where it
//! is built beside them ([`Builds`]), what was told before it may have more marks.
//!
//! # The law
//!
//! [`settled_lists_law`]: a life begins with no list; and the lists go on as requests are taken, and as marks, a failure of the device or a
//! generation are told: one of the store's state, or one of an earlier state that was built beside the rounds.
//!
//! ```rust
//! ghost use Rattle.std.specs.Prelude.{[], Bool};
//! ghost use Rattle.layout_2.specs.State.{State};
//! ghost use Rattle.request_lists.specs.declared.builds.Builds.{Builds};
//! ghost use Rattle.request_lists.specs.Lists.{AreListed};
//!
//! use request_lists::settled_lists_law;
//!
//! /// A life begins with no list.
//! pub fn begins()
//!     ensures { (builds : Builds) (first : State) (down : Bool) → AreListed builds first [] [] 0 0 first down }
//! {
//!     settled_lists_law();
//! }
//! ```
#![tactic(auto)]

ghost use Rattle.request_lists.specs.Laws.{BeginsListed, RequestsTaken, MarksTold, FailureTold, GenerationTold, EarlierTold, ListedBeside, PostedGoesAlong};

mod builds;

pub use builds::Builds;

/// A life begins with no list. The lists go on as requests are taken, as the marks of what is held are told, as it is told that the
/// device failed, and as a generation of the state, or beside the rounds one of an earlier state, is told. Without what is due, what was
/// posted goes with the list too.
pub fn settled_lists_law()
    ensures begins { BeginsListed }
    ensures taken { RequestsTaken }
    ensures marks { MarksTold }
    ensures failure { FailureTold }
    ensures generation { GenerationTold }
    ensures earlier { EarlierTold }
    ensures beside { ListedBeside }
    ensures posted { PostedGoesAlong }
{}
