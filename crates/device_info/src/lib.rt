//! What a device of layout 2 holds, in a few figures, and the changes that came to it since its checkpoint.
//!
//! | Command | Does |
//! |---|---|
//! | `info DEVICE [--json]` ([`info`]) | prints what a device holds, in a few figures |
//! | `journal DEVICE [--last N]` ([`recent`]) | prints the changes since the checkpoint of a device |
//!
//! [`info_of`] and [`changes_of`] read a device as it is opened, and write nothing. Where it keeps the disk model, the figures and the changes are
//! those of the state, the slot, the checkpoint and the records for which its bytes stand (`IsInfoOf`, `AreChangesOf`). [`info_text`] gives figures as
//! `name=value` lines, [`info_json`] as an object, [`RecentChanges::text`] changes as lines. Behind the figures `info` prints what is on the device
//! that no crash leaves (`AreSuspects` of `device_suspects`), and its status is 0 only where there is none.
//!
//! The contract that the program uses, over any device and writer: where [`info::info_on`] or [`recent::journal_on`] answers Ok, just that was printed
//! (`PrintsInfo`, `PrintsChanges`), and else the refusal says why; each `run` promises it of the device that its words name (`DoesInfo`, `DoesJournal`).
//!
//! ```text
//! let info = info_of(alloc, &mut disk)?;
//! info.edges                      // 4
//! info_text(alloc, &info)?        // nodes=5, edges=4, count=3 and so on, a line each
//! changes_of(alloc, &mut disk)?.text(alloc, Some(1))?       // count=2 session=63 ticket=9 add:1:2:3 cut:1:0
//! ```
#![tactic(auto)]

mod changes;
mod figures;
pub mod info;
mod json;
mod lines;
pub mod recent;
mod refused;
mod suspects;

pub use changes::{RecentChanges, changes_of};
pub use figures::{DeviceInfo, info_of};
pub use json::info_json;
pub use lines::info_text;
pub use refused::InfoRefused;
