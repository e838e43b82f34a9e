//! Networks that become new devices: a plain list of edges, or a device's network with more nodes.
//!
//! | Command | Does |
//! |---|---|
//! | `load DEVICE FILE [--nodes N]` ([`load`]) | makes a device out of a list of edges, at once |
//! | `grow DEVICE NEW --nodes N` ([`grow`]) | makes a larger device of the same count, edges and tickets, at once |
//!
//! A list has a line `A B W` for each edge, three plain numbers with blanks, tabs or carriage returns between; a line without a word, or whose first
//! word begins with `#`, says nothing. [`read_list`] reads it (`list_says` of `specs/Lists`), or names the first line that says no edge.
//! [`network_of`] makes the network of edges in their order, or names the first that it refuses (`HoldsJust` and `IsRefusedAt` of `specs/Networks`).
//!
//! The contract that the layer above uses:
//!
//! | Call | Gives the bytes of a device that stands for |
//! |---|---|
//! | [`load_list`] | just the edges of a list, as if they had come in as changes of 16 edges of session 0, under the tickets from 1 on (`IsLoadOf` of `specs/Loads`) |
//! | [`grown_image`] | the state of a device that was loaded, its count, edges and tickets, but with so many nodes (`with_nodes` of `specs/Loads`) |
//!
//! They are the bytes of a fresh device ([`image_of`]). [`load::run`] and [`grow::run`] end with status 0 only where such bytes were put by a path where
//! nothing stood (`DoesLoad` and `DoesGrow` of `specs/Commands`).
//!
//! ```text
//! let made = load_list(alloc, "# roads\n0 1 5\n2 1 3\n", None)?;   // Ok: 3 nodes, 2 edges, count 1
//! made.bytes                                                       // what stands on the device
//! ```
#![tactic(auto)]

pub mod grow;
mod growing;
mod image;
mod list;
pub mod load;
mod loading;
mod network;
mod putting;

pub use growing::{GrowRefused, grown_image};
pub use image::image_of;
pub use list::{Edge, LineFault, LineRefused, read_list};
pub use loading::{LoadRefused, Made, load_list};
pub use network::{EdgeRefused, network_of};
