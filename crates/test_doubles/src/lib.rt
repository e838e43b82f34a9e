//! Stand-ins for tests: devices in memory, and an output that refuses.
//!
//! # What it is
//!
//! Tests that need a device make it here. [`blank`] is one of zeros, and [`formatted`] one for so many nodes; [`opened`] is the store of a
//! device. [`CRASH_WORDS`] are the words by which tests let one crash. [`put`] and [`read_at`] are its bytes, wherever a test asks for them, and [`put_spelled`] and [`has_spelled`] such bytes by a
//! text of hexadecimal digits. [`HookedDisk`] is a disk in memory that does something before each sync: a [`BeforeSync`] may hold the sync until others have
//! done their part, as by [`comes`], or let it fail. [`NarrowWriter`] is an output that takes so many bytes, and then refuses.
//!
//! # The contract
//!
//! - [`blank`]: all bytes are 0 and settled, and no failure is planned. [`formatted`]: the device stands for a network of so many nodes
//!   without edges (`StandsFor` and `first_state` of `layout_2`). [`opened`]: the store is up, and has the state that the device stands for.
//! - [`put`], [`read_at`]: what the disk's own call says. Bytes that have no place on the disk are a fault, and no call is made then.
//! - [`HookedDisk`] is the disk in it: it has its view (`hooked_view`, specs/HookedWords.antt), so all that holds of a disk in memory holds
//!   of it. It may go to another thread where its hook may (`hooked_send`, proofs/Sends.antt).
//!
//! Where memory is refused, [`blank`], [`formatted`] and [`opened`] ask once more. So a test of which each allocation is refused in turn
//! comes to what it tests.
//!
//! ```text
//! let mut disk = formatted(alloc, 5)?;    // a device for five nodes
//! put(&mut disk, 7, b"9")?;               // of another layout
//! opened(alloc, disk)                     // Err((OpenRefused::BadVersion, disk))
//! HookedDisk::new(blank(alloc, 16)?, Turns(100))
//! ```
#![tactic(auto)]

mod bytes;
mod devices;
mod hooked;
mod narrow;
mod waiting;

pub use bytes::{has_spelled, put, put_spelled, read_at};
pub use devices::{CRASH_WORDS, NoDevice, blank, formatted, opened};
pub use hooked::{BeforeSync, HookedDisk, Turns};
pub use narrow::NarrowWriter;
pub use waiting::{comes, comes_within};
