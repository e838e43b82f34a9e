//! What becomes of a packet in a service, and which board that is said by.
//!
//! A service has one board. A type names it ([`BoardName`]), so that what one thread learnt of it may be told to another. A [`Trip`] is a
//! packet from a node to a node, and [`Carried`] what became of it: it went along nodes of one generation, no way leads there, or a
//! node isn't the device's. From the forwarder that knows it to the line that tells it this is one type.
//!
//! What a list of postings says of that is `IsAnswerBy` of specs/Carried: it is by the one scheme that the list has for the
//! generation. `HoldsOf` is what holds of each list that goes on from what is known.
//!
//! ```text
//! let carried: Carried = forwarder.route(rt, alloc, &coordinator, &OpenGate, Trip { from: 0, to: 7 })?;
//! ```
#![tactic(auto)]

mod board_name;
mod carried;

pub use board_name::BoardName;
pub use carried::{Carried, Trip};
