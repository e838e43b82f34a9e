//! A graph, a count of accepted changes and the last ticket of each session on a device, through crashes.
//!
//! The crate `layout_2` reads devices and defines which state an image stands for (`StandsFor state image`). An image stands for
//! at most one state ([`standing_law`]). This crate writes. A device has two slots, each a checkpoint and a journal behind it; A
//! commit appends a group of requests to the journal of the slot in use. A roll fills the other slot and opens its gate last.
//!
//! The contract that the layer above uses is that of [`Store`], and it names no slot, gate, epoch or area. What each answer says is a
//! record with named fields (specs/Opening.antt, Committing, Rolled, Formatted and Written):
//!
//! - [`format`] makes a device stand for no changes, no edges and no tickets.
//! - [`write_state`] makes a device stand for a count and a network without tickets. Where it had no front of this layout before, whenever
//!   a crash comes, what it leaves stands for nothing or for the whole state.
//! - [`Store::write_to`] makes another device stand for the state of a store, its tickets too, in the same way.
//! - [`Store::open`] gives the state that the content stands for, and writes nothing. NotFormatted, BadVersion or Damaged it says only
//!   where the content stands for none, and of these the one that its front tells (`LacksMagic`, `HasOtherVersion` and `HasThisVersion`
//!   of `layout_2`'s specs/Fronts.antt, one of which holds).
//! - [`Store::commit`] takes a group of requests, each in turn: whenever a crash comes, what it leaves stands for the state of before, or for that with
//! all of the group added, and from Ok on for the latter alone (the law `stands_now` of specs/StoreWords.antt). Every refusal but
//! Device leaves the device as it was. NeedsRoll comes exactly if the group doesn't fit the journal, on a store that is up and
//! whose count stays within its limit. After Device the store is down until it is opened again.
//! - [`Store::resume`] and [`Store::starts`] answer the last tickets: a request is in turn where its ticket is above its session's.
//! - [`Store::roll`] makes the state the checkpoint of the slot that isn't in use, so that the journal is empty and no commit is refused
//!   as NeedsRoll: whatever it answers and whenever a crash comes, what is left stands for the same state.
//!
//! ```text
//! format(&mut disk, 5)?;
//! let mut store = Store::open(alloc, disk)?;
//! store.commit(alloc, &[Request { session: 0, ticket: 1, change }])?;
//! store.count()       // 1
//! store.resume(0)     // 1
//! ```
#![tactic(auto)]

mod formatting;
mod refusals;
mod roll;
mod store;
mod whole;

pub use formatting::format;
pub use layout_2::{DEVICE_LEN, OpenRefused, WORN_LIMIT, standing_law};
pub use refusals::{CommitRefused, FormatRefused, RollRefused};
pub use store::Store;
pub use whole::{WriteRefused, write_state};
