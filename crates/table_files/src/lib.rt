//! The tables of a scheme's nodes, put into files: one for each node, named after it.
//!
//! A [`TableFile`] has a path, `FOLDER/N.table` for the table of node N, and the bytes that `router_table` writes of it. It is put at
//! a place of [`TableFiles`], which lists what was put (`puts`). Two places are the system's files: [`SystemTables`], and
//! [`HostTables`], which may go to another thread. They write a file under another name first, `FOLDER/N.table.new`, sync it, rename
//! it, and sync the folder: whoever reads the file meanwhile, or after a power cut, has the old bytes or the new. [`WatchedTables`] puts each file at another place, and then
//! tells a [`Progress`] how many were put. [`LentTables`] puts them at a place that is borrowed.
//!
//! The contract that the layer above uses is that of [`put_asked`]. What it put is exactly the files of the nodes that are named, in
//! order, or of all the scheme's nodes (`files_of` of `specs/Tables`), and it printed the count of these files, the sum of their bytes
//! and the greatest of them (`HasPutAll`); or a node that is named isn't there, nothing was put, and that was printed (`LacksNode`). A
//! fault that comes meanwhile leaves the first of these files, and no other (`HasPutSome`).
//!
//! Who can't hold a scheme while files are written makes one file after the other ([`file_for`]), puts it, and counts it ([`Totals`]).
//!
//! ```text
//! let mut tables = SystemTables::new(rt);
//! put_asked(alloc, &mut tables, &scheme, "out", &[4, 2], &mut out)?;   // out/4.table, out/2.table
//! ```
#![tactic(auto)]

mod folder;
mod lent;
mod place;
mod putting;
mod totals;
mod watched;

pub use lent::LentTables;
pub use place::{HostTables, SystemTables, TableFile, TableFiles, TablePlaces};
pub use putting::{file_for, put_asked};
pub use totals::Totals;
pub use watched::{Progress, WatchedTables};
