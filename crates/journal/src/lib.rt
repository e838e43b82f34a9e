//! The journal of an area of a disk: a list of entries that grows by whole groups.
//!
//! An area holds records, one behind the other. A record is a gate (one byte), the length of its
//! payload (`u32`) and the payload; every number begins with its highest byte. A gate of 1 is open,
//! any other byte is closed, and the area's list goes up to the first closed gate:
//!
//! ```text
//! 01 0000000c  0001 01 01 0000 0001 00000001  00
//! gate length  payload: one change, Add(0, 1, 1)  the next gate, closed
//! ```
//!
//! A payload is the number of its entries (`u16`, 1 to 64) and the entries. What an entry is stands open: any
//! [`Entry`], whose text and reading undo each other. Two are given here. A change, the entry of layout 1, is the
//! number of its ops (one byte, 1 to 16) and the ops: the kind (1 Add, 2 Set, 3 Cut), two nodes (`u16`) and the weight
//! (`u32`, 0 for Cut). A request, that of layout 2, has its session (one byte) and its ticket (`u64`) before its
//! change. The layout is this project's own; the sizes are named in `src/layout.rt`.
//!
//! [`Journal::append`] writes one record for a group: length, payload and the next gate behind the
//! closed gate, a sync, the gate, a sync. The contract that the layer above uses: wherever in the call
//! a crash comes, the area then spells the list of before, or that list with the group, whole, behind
//! it, and outside the area nothing has changed; from Ok on it spells the longer one. [`Journal::scan`]
//! finds the list again. That an area spells at most one list is the contract of [`spelling_laws`].
//!
//! ```text
//! let area = Area { start: 139_264, room: 1_048_576 };
//! let (mut journal, entries) = Journal::scan(alloc, &mut disk, area)?;
//! let group = [Change::new(&[Op::Add(0, 1, 1)])?];
//! journal.append(alloc, &mut disk, &group)?;       // 17 bytes of record, and the next gate
//! ```
#![tactic(auto)]

mod area;
mod change_entry;
mod entry;
mod group;
mod journal;
mod laws;
mod layout;
mod ops;
mod record;
mod request_entry;
mod window;

pub use area::Area;
pub use entry::Entry;
pub use journal::{AppendRefused, Journal, ScanRefused};
pub use laws::{record_law, spelling_laws};
pub use layout::{MOST_ENTRIES, MOST_RECORD};
