//! Forwarders: what nodes do with packets, according to the board.
//!
//! A [`Forwarder`] looks at the board by a reader of its own. What it answers depends only on the shelf that it sees
//! (`specs/Answers`). Each answer is also a public function on a [`generations::Board`]: [`latest_on`], [`address_on`],
//! [`launch_on`] and [`hop_on`]. Addresses and packets name their generation, and its scheme decides. If that generation has left
//! the shelf, they are refused. A refused packet comes back as it was.
//!
//! The contract that the layers above use: each answer is that of the board as the forwarder then knows it, which is never older
//! than what it saw or learnt before; or it is [`Refused::BoardShut`]. [`Forwarder::hop_bytes`] does the same with packets in
//! bytes: what it writes is the spelling of the packet that [`Forwarder::hop`] gives. No call takes memory or waits. What a
//! forwarder knows is lawful ([`Forwarder::known`]).
//!
//! [`forwarding_laws`] says what follows for a packet's whole way, whatever is posted between its hops. Every packet comes to an
//! end, whatever it holds. One that was launched is delivered over a good trip (`specs/Arrivals`); a call that doesn't carry it on
//! says that the board was shut or that its generation is gone.
//!
//! ```text
//! let mut forwarder = Forwarder::new(reader);
//! forwarder.learn(&told);
//! let newest = forwarder.latest()?;                       // Some(1)
//! let address = forwarder.address(1, 4)?;                 // where node 4 is to be found in generation 1
//! let packet = forwarder.launch(0, &address)?;            // node 0 sends
//! forwarder.hop(0, packet)                                // Forward { port: 0, next: 1, packet }
//! forwarder.hop_bytes(1, &bytes)                          // the same in bytes
//! ```
#![tactic(auto)]

mod answers;
mod forwarder;
mod in_bytes;
mod laws;
mod refused;

pub use answers::{address_on, hop_on, latest_on, launch_on};
pub use forwarder::Forwarder;
pub use in_bytes::ByteMove;
pub use laws::forwarding_laws;
pub use refused::{BytesRefused, Refused};
