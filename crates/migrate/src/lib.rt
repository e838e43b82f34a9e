//! The way over from layout 1: a device of layout 2 that holds what one of layout 1 holds.
//!
//! Layout 1 knows no tickets and smaller limits. What its images stand for, and reading them, is the crate `layout_1`; what those of
//! layout 2 stand for is `layout_2`, and writing a state to a new device at once is [`checkpoint::write_state`].
//!
//! The contract that the layer above uses is that of [`bring_over`], of two disks that keep the disk model ([`migrate`] is the same call, with the count alone
//! as its answer):
//!
//! - Of the old device there is one sync and then reads alone: at every exit its content is as before, and at every moment a crash leaves
//!   what one could leave before (`only_read`).
//! - Ok gives a count and a number of edges ([`Moved`]): the old content stands for this count and a network of so many edges, and the
//!   new device, by its content and by every image that a crash may leave from then on, for the same count and network, no ticket taken
//!   (`HasMoved` of specs/Moved.antt).
//! - BadLength comes exactly where the new device has another length than layout 2's. NotFormatted, BadVersion and Damaged come only where
//!   the old content stands for nothing, each by its front (`TellsOfOld` of specs/Refused.antt). With each refusal but NewDevice the new
//!   device is as it was.
//! - OldDevice and NewDevice come only where a call of that device failed. With NewDevice the new one isn't to be used. Where it had no
//!   front of layout 2 before, as a device of zeros, a crash at any moment of the call leaves of it nothing or the whole (`any_moment`).
//!
//! ```text
//! let moved = bring_over(alloc, &mut old, &mut new)?;
//! let store = Store::open(alloc, new)?;
//! store.count()              // moved.count
//! store.graph().edges()      // moved.edges
//! store.resume(0)            // 0
//! ```
#![tactic(auto)]

mod moving;
mod refusals;

pub use moving::{Moved, bring_over, migrate};
pub use refusals::MigrateRefused;
