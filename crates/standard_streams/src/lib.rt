//! What a program does about its standard streams before it does anything else, and an input that can be called off.
//!
//! A program may be started with a standard stream closed. Then the next file that it opens gets the stream's number, and what is
//! printed is written into that file. [`hold_streams`] opens `/dev/null` for reading until no such number is free. So a read from a
//! closed input finds its end, and a write to a closed output fails.
//!
//! A read from a terminal or a pipe may take for ever. An [`InterruptibleInput`] has its source read by a thread of its own. An
//! [`Interrupter`] ends it: whoever waits for its bytes, or reads later, finds the end at once. The thread may still stand in its read
//! then. It owns the source and a few chunks, and nothing waits for it: it goes with the process. An [`InterruptingWriter`] ends an
//! input with its first write.
//!
//! No contract says which bytes come, as of the standard input itself. `test_committer` has that they are the source's, in order.
//!
//! ```text
//! let streams = hold_streams(&rt)?;                             // kept until the program ends
//! let (mut input, interrupter) = InterruptibleInput::new(rt, rt.alloc())?;
//! input.start(rt.stdin())?;
//! interrupter.interrupt();                                      // a read of `input` gives 0 bytes from now on
//! ```
#![tactic(auto)]

mod held;
mod input;
mod interrupting;

pub use held::{HeldStreams, hold_streams};
pub use input::{Interrupter, InterruptibleInput};
pub use interrupting::InterruptingWriter;
