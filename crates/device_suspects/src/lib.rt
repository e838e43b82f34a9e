//! What is on a device of layout 2 that no crash leaves there.
//!
//! An opening takes the newer open slot and its records up to the first closed gate, and asks nothing more. So a bit that is flipped in
//! a gate or an epoch can hide all behind it. [`suspects_of`] reads a device as it is opened, then what an opening doesn't look at, and
//! writes nothing. It tells of four things ([`Suspect`]), each with its place on the device:
//!
//! | Suspect | When |
//! |---|---|
//! | `suspect epoch at=N` | both slots are open, and the epoch at N, of the slot that isn't in use, isn't one less than that of the slot in use |
//! | `suspect count at=N` | both slots are open, and the count at N, of the checkpoint in use, isn't that of the other slot's checkpoint and records |
//! | `suspect slot at=N` | the slot that isn't in use has a closed gate, at N, and the first request of its records has a ticket above its session's last one |
//! | `suspect record at=N` | the gate at N ends the records that count, records stand behind it, more than one, and the first request of theirs has a ticket above its session's last one |
//!
//! On a device that was made of zeros and that a store alone has written, a crash leaves none of these, unless bytes that were being
//! written as it came happen to spell a record. A slot's gate is closed before the slot is written anew, and opened when all of it is
//! synced, so two open slots are of two epochs behind each other, and the newer one begins with what the older one ends with. What
//! stands behind a closed gate was there before the slot was last begun, so its tickets were used before; or it is the one record that
//! was being appended. A gate that hides a single record is therefore not told: a crash leaves that too.
//!
//! The contract that the layer above uses is that of [`suspects_of`] (`AreSuspects` of `specs/Suspects`): where the device keeps the disk
//! model, each of the four is told exactly where it holds of the bytes, with its place.
//!
//! ```text
//! let suspects = suspects_of(alloc, &mut disk)?;
//! suspects.all()      // [None, None, Some(Suspect::Slot(1_581_056)), None]
//! ```
#![tactic(auto)]

mod looking;
mod suspect;

pub use looking::suspects_of;
pub use suspect::{Suspect, Suspects};
