//! The desk: it settles requests in order, and commits each group of them as one record.
//!
//! A [`Desk`] owns a store and decides what becomes of requests: changes, each under a session and a ticket (the crate `requests`). Requests are
//! given one by one, up to [`MOST_HELD`], each under a ticket above all that the store or the desk has of its session ([`Desk::is_next`]); then
//! [`Desk::commit`] settles what is held, in the order in which it was given. A change that the graph takes, after those accepted before it, is
//! accepted, and the later ones are judged by the graph with it; any other is refused whole, and its ticket doesn't stand in the store. The requests
//! that are accepted are one group: they go to the store as one record, so that a crash leaves all of them or none. Where the journal has no room for
//! the record, the store is rolled first.
//!
//! Each request gets one mark: `Accepted`, with the count of changes that made the graph by then, or `Refused`, with the place and the code of the
//! op. The marks are made due as one posting (the crate `generations` has both), after the commit and never before, and nothing more is given until
//! they are told and [`Desk::paid`] is called. So whoever reads a mark reads of what is on the device already.
//!
//! Contracts see a desk by five words (specs/DeskWords.antt): its store, the requests that it holds, what it has to tell, `tickets_of`, each
//! session's last ticket with the held ones, and `settled_of`, the settling of what it holds from where its store stands. A settling
//! (specs/Settling.antt) is the marks, the accepted requests and the state that they lead to; [`settling_law`] says what it is good for. What the
//! layer above uses is [`Desk::commit`]. What `Ok` says is the record `IsGroupCommitted`, and the refusals say `RefusesGroup` (specs/Groups.antt):
//!
//! | Answer | What it says |
//! |---|---|
//! | `Ok(n)` | the store has the state of the settling, whose accepted requests are `n`, and each image that a crash may leave from then on stands for it; its marks are due; nothing is held; no call of the device failed |
//! | `Device` | state and held requests stay, that the device is down is due, and from now on the answer is `Down` |
//! | `Down` | the same desk |
//! | `Memory`, `Worn` | state, held requests and what is due stay |
//!
//! On a device that keeps the disk model, a crash at any moment of the call leaves the state of before or that of the settling (clause `any_moment`),
//! and at a refusal other than `Device` that of before alone (`keeps_state`). These clauses join with those of the calls before and behind it. Where
//! nothing is accepted, the store isn't touched (`idle`). Where something is, the group stands behind the groups of before if the journal has room
//! for it (`appended`), and only else has the store rolled (`rolled`). `Worn` tells that numbers have run out: the count has no room for the accepted
//! requests, or a roll is needed and there is no epoch after this one; then the answer is `Worn`, or `Memory` while the group is settled
//! (`past_limits`). Who judges requests otherwise commits them by [`commit_rolling`], as one record too (specs/StoreCommits.antt).
//!
//! ```text
//! let mut desk = Desk::new(store);
//! desk.give(Request { session: 0, ticket: desk.resume(0) + 1, change });   // where `is_next` says so
//! desk.commit(alloc)?                                                      // 1 where it is accepted: then it is on the device
//! ```
#![tactic(auto)]

mod desk;
mod laws;
mod limits;
mod refused;
mod rolling;
mod settling;
mod turns;

pub use desk::Desk;
pub use laws::{limits_law, settling_law};
pub use limits::MOST_HELD;
pub use refused::DeskRefused;
pub use rolling::commit_rolling;
