//! The disk model: a disk that can fail or stop at any call, and what a crash may leave of it.
//!
//! A disk has a fixed number of bytes, its *content*: what one reads. Where a write answers Ok, its bytes are the content there. Where it fails, or a
//! crash cuts it off, nobody knows what stands in its range; outside of it nothing has changed. A range is safe once a sync behind its write has
//! answered Ok, and until then a crash may leave anything in it, the whole range long. Where all is safe, a crash leaves the content. A sync that
//! failed makes nothing safe. Any call may fail, and says so. Contracts see all of this as one value, a `DiskView` (specs/Disk.antt):
//!
//! | Field | What it says |
//! |---|---|
//! | `content` | what a read gives |
//! | `clock` | the moment, a number that each call of the device moves on by one |
//! | `left_since t image` | whether some crash from `t` on, until now, may have left this image |
//! | `failures` | how often the disk has failed |
//! | `keeps_model` | whether the above is promised of it; no call changes this |
//!
//! `MayLeave view image` is `left_since` at the clock: what one may leave this moment. Each call's clause `call` is one word, `IsDeviceCall at n`:
//! after a call that writes the n places from `at` on (none, for a read or a sync) each image that a crash may leave is one of before, with any bytes
//! in these places; a crash at an earlier moment, also one inside the call, may have left these and those of before, and nothing else; the clock is
//! one further; and a fault is answered only where the count of failures rose in the call, Ok only where it didn't. It says the same of the images
//! whatever the call answers, since a write that failed or was cut counts its whole range. What Ok adds is a clause of its own: `bytes`, `written`,
//! `settled`. The ranges are no part of the view: over many calls an image is torn in any of their ranges, and a sync that succeeds leaves one alone.
//!
//! `AtMostCalls n old new` says that the device had at most n calls between two views. `LeavesOnly old new P` says that a crash at any moment between
//! two views leaves an image that has `P`. It composes by the laws `started`, `one_call_more`, `joined` and `weaker`; a run that only read has
//! `OnlyRead`, by `only_read`, `nothing_read` and `read_on`. Places that a torn range leaves alone are in specs/Places.antt.
//!
//! Whatever has to be written whole goes through one call, [`publish`]: text behind a gate, a byte, then a sync, then the gate, then a sync. Its
//! contract is the one that is used above: at any moment a crash leaves the gate's old byte, or the whole text behind it; after Ok the gate is open
//! and the text is there in every image.
//!
//! ```text
//! publish(disk, 0, &number.to_be_bytes())?   // eight bytes behind the first byte: whole in every image, or never there
//! ```
//!
//! [`MemDisk`] keeps the model, and this is proved: its view says that a crash leaves an image which agrees with its bytes wherever they are settled.
//! It fails and stops where a [`Plan`] says so, and nowhere else. [`CrashDisk::crash`] gives the disk after a crash, its content one of the images;
//! for a `MemDisk` a word chooses which one, and [`CrashDisk::arm`] plans what is to fail from then on, also in the midst of a run. [`FileDisk`] is a
//! file of the system and claims nothing of its content. [`Log`] is a list that contracts alone see.
#![tactic(auto)]

mod cells;
mod disk;
mod file;
mod gates;
mod image;
mod log;
mod memory;
mod plan;
mod ranges;

pub use disk::{CrashDisk, DeviceFault, Disk};
pub use file::FileDisk;
pub use gates::{close, publish};
pub use log::Log;
pub use memory::MemDisk;
pub use plan::Plan;
