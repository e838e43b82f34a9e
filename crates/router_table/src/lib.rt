//! A router's own table: what one node keeps of a generation, and forwards by.
//!
//! A [`RouterTable`] has the router's node, the neighbour behind each port, an entry for each tree that it is in, and its
//! directory. It is taken from a scheme ([`RouterTable::of`]) or read from bytes ([`RouterTable::read`]). It is always in order:
//! neighbours, roots and members are nodes and strictly ascend, so look-ups are binary searches.
//!
//! The contract that the layers above use: a router launches and forwards exactly as the scheme's tables do at its node
//! (`IsTableOf` of `specs/Table`). By [`table_laws`] packets go from table to table over good trips, and all forwarding ends.
//!
//! As bytes, with big-endian numbers:
//!
//! ```text
//! head:      "TZTABL01", generation u64, number of nodes u16, node u16, the node's address (42 bytes)
//! ports:     how many there are, u16, and the neighbour behind each, u16
//! entries:   how many there are, u16, and for each: root, first, last, heavy last, parent port, heavy port, u16 each
//!            (65535: no port), light depth u8
//! directory: how many members there are, u16, and for each: node u16, the label's number u16, how many ports it has u8,
//!            these, u16 each
//! digest:    the SHA-256 of all bytes before it
//! ```
//!
//! A table has one spelling. [`RouterTable::write`] writes it; [`RouterTable::read`] reads it, or names the first thing that is
//! wrong with the bytes ([`ReadRefused`]). Who reads such bytes in place, as the crate `table_view`, has the same tests and forms:
//! [`body_of`], [`head_of`], [`EntryForm`] and [`MemberForm`].
//!
//! ```text
//! let table = RouterTable::of(alloc, &scheme, 4)?;
//! let bytes = table.write(alloc)?;
//! let table = RouterTable::read(alloc, &bytes)?;      // the same table
//! let packet = table.launch(&address)?;
//! table.hop(&packet)?                                 // Forward { port, next, packet }
//! ```
#![tactic(auto)]

mod entry_form;
mod fields;
mod form;
mod head;
mod keyed;
mod laws;
mod member_form;
mod reading;
mod refused;
mod search;
mod table;
mod tree_entry;
mod writing;

pub use entry_form::EntryForm;
pub use fields::{is_head, is_label, is_record};
pub use form::{FRONT_SIZE, HEAD_SIZE, body_of};
pub use head::Head;
pub use laws::table_laws;
pub use member_form::MemberForm;
pub use reading::{head_of, numbers_of};
pub use refused::{ReadRefused, TableRefused};
pub use table::RouterTable;
pub use tree_entry::TreeEntry;
