//! The parts of a service below its committer: what an editor and a forwarder answer, and the lock at which all threads wait for
//! one another.
//!
//! An editor submits a change and waits for its mark ([`SessionEditor::edit`]), under the ticket that is asked for or the next one. A
//! forwarder launches a packet in the newest generation and carries it there to its end ([`BoardForwarder::route`]); where that
//! generation has left the shelf meanwhile, the packet is launched anew. Both stand at the board that a type names ([`BoardName`]), and
//! stop with all others at the first fault ([`Coordinator::stop`]).
//!
//! An editor's change is put under its ticket at the queue's end, and its verdict is the mark that the board shows of this ticket
//! (`IsMarkOf` of specs/Settled).
//!
//! ```text
//! let coordinator = Coordinator::new(stand, graphs, 2);
//! let (editor, ticket, end) = editor.edit(rt, &coordinator, None, change)?;
//! let carried = forwarder.route(rt, alloc, &coordinator, &OpenGate, trip)?;
//! ```
#![tactic(auto)]

mod asked_forwarding;
mod coordinator;
mod editing;
mod forwarding;
mod gate;
mod graphs;
mod session_editor;
mod stand;
mod stop_cause;
mod timings;
mod told;
mod word_source;

pub use coordinator::{Backed, Coordinator, News, ServiceState, Work};
pub use forwarding::BoardForwarder;
pub use gate::{Gate, OpenGate};
pub use graphs::{GenerationGraph, Graphs, shared_graph};
pub use session_editor::{EditEnd, SessionEditor};
pub use stand::{Shown, Stand};
pub use stop_cause::StopCause;
pub use timings::{TimeSpan, Timings};
pub use told::KnownPostings;
pub use word_source::WordSource;
