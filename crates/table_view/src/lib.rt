//! What a router does by the bytes of its table, without a table in memory: nothing is copied and nothing allocated.
//!
//! A [`TableView`] stands over the bytes of a table file, whose form is that of crate `router_table`. [`TableView::read`] tests them once,
//! as `RouterTable::read` does: letters, version, counts, digest and order. Then each call answers what the `RouterTable` of the same
//! bytes answers, by definitions of that crate: of `SpellsTable` there is at most one table to bytes, so its `table_laws` are the
//! laws of views. A [`TableFile`] keeps such bytes and gives views of them, and contracts see the table in it.
//!
//! The functions [`figures_in`], [`neighbour_in`], [`address_in`], [`launch_in`] and [`hop_in`] take bytes that nobody tested, as a caller from C hands
//! them over. They read what they need, and never past the end. For bytes that spell a table they answer what that table does; for
//! others they answer something or `None`. [`address_bytes`], [`launch_bytes`] and [`hop_bytes`] do the same for packets and addresses in
//! bytes (crate `packet_bytes`).
//!
//! A hop and a neighbour take time by the logarithm of the entries. A launch walks the directory from its first member, so it takes time
//! by the members.
//!
//! ```text
//! let view = TableView::read(&bytes)?;
//! let packet = view.launch(&address)?;
//! view.hop(&packet)?                          // Forward { port, next, packet }
//! view.hop_bytes(&packet_bytes, &mut out)?    // Forward { port, next }, and the packet in `out`
//! ```
#![tactic(auto)]

mod answers;
mod file;
mod hops;
mod in_bytes;
mod item;
mod launches;
mod order;
mod packet_fields;
mod parts;
mod refused;
mod search;
mod view;

pub use answers::{Figures, address_in, figures_in, neighbour_in};
pub use file::TableFile;
pub use hops::{Hop, hop_in};
pub use in_bytes::{address_bytes, hop_bytes, launch_bytes};
pub use launches::launch_in;
pub use refused::BytesRefused;
pub use view::TableView;
