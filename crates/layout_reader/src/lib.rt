//! What every layout has in common: what an image of a device stands for, and reading it.
//!
//! A device begins with magic, version and number of nodes. Two slots stand one behind the other. A slot is a checkpoint (a gate
//! byte, an epoch, a count, a number of nodes and of edges, tickets, and the edges) and behind it a journal of the groups that were
//! committed since. The open slot of greater epoch is in use ([`choose_slot`]). Edges ascend, 8 bytes each ([`read_edges`]).
//!
//! A layout is what stands open in this: [`Sizes`] (digit of the version, limits, rooms), the entry of its journal, and its tickets. It
//! is an impl of [`Layout`], which gives a form (specs/Forms.antt) and proves what a form keeps. What an image means is one definition over
//! the form, `StandsFor form state image` (specs/Standing.antt): the state that the checkpoint and the entries of the journal give,
//! each in turn. An image stands for at most one state ([`standing_law`]). `layout_1` and `layout_2` are two impls.
//!
//! The contract that the layers above use is that of [`load`]. It syncs, reads, and writes nothing:
//!
//! - Ok gives a count, a graph and tickets, and the slot and the journal that they come from (`IsLoaded` of specs/Loading.antt): the
//!   content has that checkpoint and those records (`IsInUse`), and the entries of the records are in turn and lead to the state.
//! - A refusal tells why (`IsNotLoaded`). NotFormatted comes only where the magic isn't there, BadVersion where it is and the version
//!   is another, Damaged and Memory where both are right (specs/Refusals.antt); of the three faults of the format, each comes only where
//!   the content stands for no state. Device comes only where a call of the device failed.
//!
//! ```text
//! let loaded = load::<Layout2, _>(alloc, &mut disk)?;
//! loaded.count     // 3
//! loaded.graph     // after these changes
//! loaded.slot      // 0 or 1
//! ```
#![tactic(auto)]

mod base;
mod checkpoint;
mod edges;
mod form;
mod header;
mod heads;
mod laws;
pub mod layout;
mod loaded;
mod opening;
mod reading;
mod refusals;
mod sizes;

pub use edges::read_edges;
pub use form::Layout;
pub use heads::{Chosen, SlotHead, choose_slot, u64_of};
pub use laws::standing_law;
pub use loaded::Loaded;
pub use opening::load;
pub use reading::{header_nodes, read_array, read_bytes};
pub use refusals::OpenRefused;
pub use sizes::Sizes;
