//! What threads hand to one another: mailboxes, and a buffer that brings numbered items into their order.
//!
//! A [`Mailbox`] holds what was put into it until it is taken, in the order of the puts. Whoever takes sleeps until there is
//! something, or the mailbox is closed and empty.
//!
//! A [`ReorderBuffer`] has a window of slots, made once. Items are put in any order, each at its own place ([`Placed`]), and taken in
//! the order of their places: first that of place 0, and then each next one. Whoever makes places sleeps until the next one is in the
//! window, so what is held never outgrows it.
//!
//! What a contract says across a lock is what the item's type says. So the facts that travel are ghost fields of the items; to these
//! [`ReorderBuffer::take`] adds that the item taken is of the place asked for.
//!
//! ```text
//! let buffer: ReorderBuffer<Answered> = ReorderBuffer::new(alloc, 1_024)?;
//! buffer.await_room(rt, 1);                   // true: place 1 is in the window
//! buffer.put(rt, second);                     // of place 1
//! buffer.put(rt, first);                      // of place 0
//! let next = buffer.take(rt, 0);              // first
//! ```
#![tactic(auto)]

mod mailbox;
mod reorder_buffer;
mod ring;

pub use mailbox::Mailbox;
pub use reorder_buffer::ReorderBuffer;
pub use ring::Placed;
