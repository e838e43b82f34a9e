//! What an image of a device of layout 1 stands for, and reading it.
//!
//! A device holds two slots. A slot is a checkpoint (an epoch, the count and the edges) and behind it a journal of the groups that were
//! committed since. The open slot of greater epoch counts. What an image of a device means is one definition, `StandsFor state image`
//! (specs/Standing.antt): the state that the checkpoint's edges and the fold of the journal's changes give. An image stands for at most
//! one state ([`standing_law`]). Each place and size is a constant of [`layout`]. The definition, the reader and the proofs are those of
//! `layout_reader`, over the form of this layout (specs/Form.antt).
//!
//! The contract that the layer above uses is that of [`load`]. It syncs, reads, and writes nothing:
//!
//! - Ok gives a count and a graph, and the slot and the journal that they come from (`IsLoaded` of specs/Loading.antt): the content has
//!   that checkpoint and those records (`IsInUse` of specs/InUse.antt), and the changes of the records lead to the state.
//! - A refusal tells why (`IsNotLoaded`). NotFormatted comes only where the magic isn't there, BadVersion where it is and the version
//!   is another, Damaged and Memory where both are right (specs/Fronts.antt); of the three, each comes only where the content stands for
//!   no state. Device comes only where a call of the device failed.
//!
//! Nothing writes this layout any more: `migrate` reads an old device by it.
//!
//! ```text
//! let loaded = load(alloc, &mut disk)?;
//! loaded.count        // 3
//! loaded.graph        // after these changes
//! loaded.slot         // 0 or 1
//! ```
#![tactic(auto)]

mod form;
mod laws;
pub mod layout;
mod opening;

pub use laws::{layout_law, standing_law};
pub use layout::{DEVICE_LEN, WORN_LIMIT};
pub use layout_reader::OpenRefused;
pub use opening::{Loaded, load};
