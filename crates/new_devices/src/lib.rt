//! Where new devices are made while a service runs, and why one isn't.
//!
//! A place of [`NewDevices`] makes a device of zeros by a path where nothing stands yet, and takes it back. It lists both (`events`), so
//! a caller's contract can say which devices were made, and as what they were let go. [`SystemDevices`] makes files of the system, locked
//! alone; [`LentDevices`] makes devices at a place that is borrowed; at [`NoDevices`] none can be
//! made. [`backed_up`] makes one, writes what a store holds to it, and lets it go.
//!
//! The contract that the layer above uses: a device that is made has as many bytes as were asked for, and where it keeps the disk model
//! a crash leaves zeros of it (`IsBlank` of `specs/Events`). A backup ends as [`backed_up`] says (`IsBackupEnd` of `specs/Backups`): the
//! device holds the store's state with its tickets, a crash at any moment leaves no device or that one, and the store stays as it is.
//! What the system does with files no contract says: that something stands by a path is told by the system, and tested.
//!
//! ```text
//! let mut devices = SystemDevices::new(rt);
//! backed_up(alloc, &store, &mut devices, "b")?;
//! let again = backed_up(alloc, &store, &mut devices, "b");   // Err(BackupRefused::FileExists)
//! ```
#![tactic(auto)]

mod backing;
mod lent;
mod make_log;
mod none;
mod place;
mod refused;

pub use backing::backed_up;
pub use lent::LentDevices;
pub use make_log::MakeLog;
pub use none::NoDevices;
pub use place::{NewDevices, SystemDevices};
pub use refused::BackupRefused;
