//! What `format`, `show`, `edit`, `resume` and `migrate` do on a device, and how each command opens it.
//!
//! A device is any `Disk`; the caller brings it, and a call answers a [`Fault`] where it can't go on. [`listing`] is all that
//! `show` prints of a device, [`edit`] makes one change, whole or not at all, [`resume`] answers the last ticket of a session,
//! [`migrate`] brings over what a device of layout 1 holds, and [`open`] is how they and the commands above open one.
//!
//! The contract that the layer above uses, of a disk that keeps the disk model: [`listing`] and [`resume`] answer by the state that
//! the content stands for, and have only read the disk, which comes back; [`edit`] answers what becomes of the change in that state,
//! leaves a device of which each crash image stands for the state after it, and at any moment one for the state before it or after
//! it. Its ticket is new to the state: where it isn't, the answer is [`Fault::AlreadyIn`], and nothing is written. The editor of
//! its session, the only one at a board and a queue of its own, submits the change in a thread; one round of a committer takes,
//! commits and posts it; and the answer is the editor's outcome by the board. Where no thread is to be had, the answer is
//! [`Fault::NoThread`], and nothing is written. Unless the device failed, it stands behind each answer for the one state or for the
//! other, whatever a crash leaves. Not formatted, layout not known and damaged come only where the content stands for no state, each
//! by the content's front (`TellsOf` of `specs/Openings`, and `TellsOfOld` of `specs/Moves` for [`migrate`], of which the rest is
//! said in the crate `migrate`).
//!
//! ```text
//! format(&mut disk, 5)?;
//! let (answer, disk) = edit(rt, alloc, disk, 0, None, change);   // Ok(Verdict::Accepted { count: 1 })
//! let (answer, disk) = edit(rt, alloc, disk, 0, Some(1), other); // Err(Fault::AlreadyIn)
//! let (text, disk) = listing(alloc, disk);                    // Ok: count=1 edges=1, and a line for the edge
//! ```
#![tactic(auto)]

mod editing;
mod moving;
mod one_round;
mod opening;

pub use editing::edit;
pub use moving::migrate;
pub use opening::{format, listing, open, resume};
