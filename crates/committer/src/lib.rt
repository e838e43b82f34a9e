//! The committer: it takes requests from the queue, commits them group by group, and posts what became of them.
//!
//! # What it is
//!
//! A [`Committer`] owns a desk with its store, the front of an intake queue and a board's writer. [`Committer::round`] takes up to 64 requests from the queue, has
//! the desk settle and commit them as one group, and posts one mark for each, only after the commit answered `Ok`. [`Committer::rebuild`] builds the routing scheme
//! of the store's graph and posts it as a generation, under the store's count. To build it elsewhere, as in threads, ask [`Committer::generation_due`] for the
//! number and hand the scheme to [`Committer::announce`]. `rebuild` is these two with a build between. A scheme that was built while rounds went on is handed to
//! [`Committer::announce_earlier`], under the count that its graph had.
//!
//! A post may be refused. Then the posting waits in the outbox, at most one at a time; each later call tries it first, and takes nothing until it is posted. If a
//! commit lacks memory or meets a limit, its group is kept, and a later round settles it before it takes another.
//!
//! # The contract
//!
//! Contracts see a committer by the definitions of specs/CommitterWords.antt: its store, what it holds, all that it took, what is posted and due. What the layer
//! above uses is [`Committer::round`]; each answer is one record of specs/Answers.antt:
//!
//! | Answer | What it says |
//! |---|---|
//! | `Ok` (`HasCommitted`) | the store has the state after the requests held or taken, settled in order; what was due and then just their marks were posted; nothing is held |
//! | `Device` (`LosesDevice`) | count, graph and tickets stay, the group stays held, and that the device failed is posted or due; from now on the answer is `Down` |
//! | `Down` (`StaysDown`) | the same store and held group; what was due is posted or stays due |
//! | `Memory`, `Worn` (`KeepsGroup`) | count, graph and tickets stay, and the group stays held |
//! | `Board` (`StaysOwed`, `OwesMarks`) | at what was due: nothing happened. Behind the commit: the store is as for `Ok`, and just the marks are due |
//!
//! Fewer than 64 are taken only where a group was held already, the queue was found empty in the call, or it stopped before.
//!
//! On a device that keeps the disk model a crash at any moment of a round leaves the state of before, or the one after the whole group (`any_moment`); and a crash
//! between two calls leaves the store's state, or the one with the whole group that is held, also after a failure of the device (`whole` of `IsAtRest`). A count
//! that was posted as accepted is one that the store has reached (`tells`), so each image has every change that was answered `accepted`. One record, `IsTied`, ties
//! together what was taken, held, posted and stored ([`Committer::told`]).
//!
//! ```text
//! let (writer, readers) = board(alloc, rt, 1, &desk.starts(), desk.store().count())?;
//! let (taker, editors) = open_intake(alloc, 64, readers, &desk.starts())?;
//! let mut committer = Committer::new(desk, taker, writer);
//! committer.round(alloc, rt)?;
//! committer.rebuild(alloc, &words, &heap)?;
//! ```
#![tactic(auto)]

mod committer;
mod outbox;
mod refused;

pub use committer::{Committer, Round};
pub use refused::{RebuildRefused, RoundRefused};
