//! What an image of a device of layout 2 stands for, and reading it.
//!
//! A device holds two slots. A slot is a checkpoint (an epoch, the count, the last ticket of each session and the edges) and behind it a
//! journal of the groups of requests that were committed since. The open slot of greater epoch counts. What an image of a device means is
//! one definition, `StandsFor state image` (specs/Standing.antt): the state that the checkpoint and the fold of the journal's requests
//! give, each request in turn: its session is there, and its ticket is above the session's last one and within the limit. An image stands
//! for at most one state ([`standing_law`]). Each place and size is a constant of [`layout`], proved equal to the format's number by
//! [`layout_law`]. The definition, the reader and the proofs are those of `layout_reader`, over the form of this layout (specs/Form.antt).
//!
//! The contract that the layer above uses is that of [`load`]. It syncs, reads, and writes nothing:
//!
//! - Ok gives a count, a graph and last tickets, and the slot and the journal that they come from (`IsLoaded` of specs/Loading.antt): the
//!   content has that checkpoint and those records (`IsInUse` of specs/InUse.antt), and the requests of the records are in turn and lead
//!   to the state.
//! - A refusal tells why (`IsNotLoaded`). NotFormatted comes only where the magic isn't there, BadVersion where it is and the version
//!   is another, Damaged and Memory where both are right (specs/Fronts.antt); of the three, each comes only where the content stands for
//!   no state. Device comes only where a call of the device failed.
//!
//! ```text
//! let loaded = load(alloc, &mut disk)?;
//! loaded.count        // 3
//! loaded.graph        // after these changes
//! loaded.tickets[0]   // the last ticket of session 0
//! loaded.slot         // 0 or 1
//! ```
#![tactic(auto)]

mod form;
mod laws;
pub mod layout;
mod opening;
mod tickets;

pub use laws::{layout_law, standing_law};
pub use layout::{DEVICE_LEN, WORN_LIMIT};
pub use layout_reader::OpenRefused;
pub use opening::{Loaded, journal_area, load};
