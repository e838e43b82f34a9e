//! The lines that the program prints, and the faults that it tells.
//!
//! | Type | Its line |
//! |---|---|
//! | [`Formatted`] | `formatted nodes=N` |
//! | [`Totals`], [`EdgeLine`] | `count=C edges=E`, `a b w` |
//! | [`AcceptedLine`], [`RefusedLine`] | `accepted count=C`, `refused op=I code=K` |
//! | [`TicketLine`] | `session=S ticket=T` |
//! | [`MigratedLine`] | `migrated count=C edges=E` |
//! | [`RouteLine`], [`UnreachableLine`] | `generation=G route 0 1 2 length L`, `generation=G unreachable` |
//! | [`AbsentLine`] | `no node` |
//! | [`CheckedLine`], [`BrokenLine`] | `ok generation=G landmarks=K`, `fault K4` |
//! | [`TablesLine`] | `generation=G tables=K bytes=B greatest=M` |
//!
//! Each is shown by its `Display`, whose `output` is the text that `specs/` defines (`Lines`, `RouteLines`); [`listing_of`] is all
//! that is printed of a graph. A command that ends without a fault ends in one of two ways ([`Ended`]), and a [`Fault`] has a text
//! and an exit status (`specs/Faults`).
//!
//! The contract that the layer above uses: [`print_line`] and [`print_text`] append exactly the text to what a writer holds, or
//! answer [`Fault::Output`]; [`tell`] appends `tznode: `, the fault's text and a line feed, or the write failed; and
//! [`Fault::status`] is 2 exactly where the words are not understood.
//!
//! Of a writer that fails contracts know nothing. A [`FaultWriter`] tells faults too, and says whether a write of it has failed:
//! so a contract can say that a fault which wasn't told was tried to be told. [`WatchedWriter`] makes one of any writer.
//!
//! ```text
//! print_line(&mut out, Formatted { nodes: 5 })?;     // formatted nodes=5
//! tell(&mut err, Fault::NoNode)?;                    // tznode: no node
//! WatchedWriter::new(&mut err).tell(Fault::NoNode)?; // the same
//! ```
//!
//! The crate stands on the graph alone. It knows no device and no scheme: whoever knows one says what is printed of it.
#![tactic(auto)]

mod ended;
mod fault;
mod fault_writer;
mod lines;
mod listing;
mod printing;
mod route_lines;

pub use ended::Ended;
pub use fault::Fault;
pub use fault_writer::{FaultWriter, WatchedWriter};
pub use lines::{AcceptedLine, EdgeLine, Formatted, MigratedLine, RefusedLine, TicketLine, Totals};
pub use listing::listing_of;
pub use printing::{print_line, print_text, tell};
pub use route_lines::{
    AbsentLine, BrokenLine, CheckedLine, RouteLine, TablesLine, UnreachableLine,
};
