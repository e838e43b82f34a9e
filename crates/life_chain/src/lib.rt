//! Lives of one device, one after another, each ended by a crash: what is promised of them together.
//!
//! A [`Life`] opens the device, builds a generation of its network, runs a list of events in any order (the crate `interleave`), in which the device may fail by a
//! plan, and crashes. [`lives`] runs some of them and reports what each was. The function is small. Its point is the contract: it says of all lives together what
//! the layers below say of one call.
//!
//! The clause `told` is the headline: on any disk that keeps the disk model, the report of any lives tells this of them (`AreTold`, specs/Telling.antt):
//!
//! | Field | What it says |
//! |---|---|
//! | `first` | the first life opens to what the disk stands for |
//! | `chained` | each next life opens to a prefix state of the one before (`IsNextOf`, specs/Chains.antt): whole changes and whole groups, those that events and replies tell of |
//! | `exactly_once` | over these lives, and each beginning of them, each session's ticket is in at most once, only above the first disk's last one, and exactly once where it is acknowledged; each life opens to the last tickets of what is in (`IsExactlyOnce` of `event_laws`) |
//! | `refused` | where the disk stands for anything, an opening is refused by `Device` or `Memory` alone |
//! | `lived` | each life ran as its report says (`IsLived`, specs/Lived.antt), on the very disk that the crash of the one before had left, up to the first life that couldn't open, which only read it |
//!
//! A life ran: the rebuild and each event were answered by the call that they stand for (`IsAnswered`). There is a world after each event, where a commit was
//! answered by a desk over its disk (`WorldRun` of `interleave`), and what the report says of requests, postings and ways is what the last of these worlds stored.
//!
//! And it is sound in these worlds (`IsSoundIn`, specs/Sound.antt): it opened to what its disk stood for, and until its events began it only read it. A crash since
//! the disk was handed over, in the opening or behind it, or since any event, leaves a prefix state with all that commits had answered Ok for by then, all that was
//! acknowledged by then, and none in part of the groups that events and replies say were given to commits (specs/Groups.antt). Its tables serve the network, and
//! each packet goes over the one trip of its own generation, at most three times as long as any other.
//!
//! A refused opening tells of the content's front. The clause `no_memory` says of any disk: where there was no room for the replies, no life ran, and the disk is
//! the one that was handed over.
//!
//! [`lives`] drops the disk at the end. [`lives_on`] gives it back at every exit, so more lives may go on where these ended: two calls are one ([`lives_law`]). On a
//! disk in memory, [`lives_in_memory`] says besides which image each crash left: that of the life's word.
//!
//! Memory for all replies is taken before the first life, so that a life that ran is reported. If a world or the copy of the opened network lacks memory, the life
//! is reported as one that couldn't open.
//!
//! ```text
//! let report = lives(alloc, disk, &[first, second])?;
//! report.lives[1].count       // the changes that the first life's crash left
//! report.lives[1].tickets[0]  // and the last ticket of session 0 among them
//! report.lives[1].rebuilt     // Rebuilt { generation: .. }, the same count
//! ```
#![tactic(auto)]

mod chain;
mod crash;
mod laws;
mod life;
mod living;
mod report;
mod rooms;

pub use chain::{lives, lives_in_memory, lives_on};
pub use laws::lives_law;
pub use life::Life;
pub use report::{LifeReport, LivesReport};
