//! Packets' ways: each packet goes over the one trip of its own generation.
//!
//! # What it is
//!
//! What follows from the answers of `event_model` for packets, as laws and without code: [`ways_law`]. Whoever runs events and answers
//! them so has these laws for nothing. None of them names a disk.
//!
//! # The definitions
//!
//! - `AreOnWay m` (specs/Ways.antt): each packet was sent to the address that the scheme gave which was posted under the packet's
//!   number, and each hop was the step of that scheme. That is all that goes on from event to event.
//! - `AreRoutedWell first m` (specs/Courses.antt) follows from it, where the lists are kept too (`IsListed`): what a
//!   packet visited is a beginning of the one trip that good service gives in the graph of the packet's own generation, at most three
//!   times as long as any other; the rest of that trip carries it on, by ports that lead along it; and it is gone only at the end.
//! - `Tells first event m reply n` (specs/Replies.antt): what the reply to a launch or a hop says. A launch is refused only because no
//!   generation is seen, or because in the graph of the newest one seen one of the two isn't a node or no walk leads there; a hop only
//!   because the packet's generation has left the shelf, behind four later ones.
//! - `AllGoOn m n` and `NeverHops i events replies` (specs/Later.antt): each packet keeps its number, its ends and its generation, and
//!   visits more; and a packet that was delivered is never moved again.
//! - `Arrive first m events replies` (specs/Arriving.antt): a packet that is hopped more often than its trip has edges left is delivered, unless a
//!   hop of it is answered that its generation is gone, or that memory ran out.
//!
//! ```rust
//! ghost use Rattle.layout_2.specs.State.{State};
//! ghost use Rattle.event_model.specs.Machines.{Machine};
//! ghost use Rattle.event_laws.specs.Listed.{IsListed};
//! ghost use Rattle.event_laws.specs.Ways.{AreOnWay};
//! ghost use Rattle.event_laws.specs.Courses.{AreRoutedWell};
//!
//! use event_laws::ways_law;
//!
//! /// Packets on their way are routed well.
//! pub fn route_well()
//!     ensures { (first : State) (m : Machine) → IsListed first m → AreOnWay m → AreRoutedWell first m }
//! {
//!     ways_law();
//! }
//! ```
ghost use Rattle.event_laws.specs.WayLaws.{BegunAreOnWay, EventsKeepWays, RebuildsKeepWays, RunsKeepWays, WaysAreRoutedWell, GoneStayGone};
ghost use Rattle.event_laws.specs.Arriving.{HoppedArrive};

use crate::queue::lists_law;
use schemes::scheme_laws;

/// A machine begins with each packet on its way; what answers an event keeps them so, a rebuild does, and so does a run; each reply to
/// a launch or a hop is that of such a packet, and each refusal stands for its one reason; each packet goes on under its number. Packets
/// on their way are routed well: each goes over the one trip of its own generation. And one that is gone is never moved again. A packet
/// that is hopped more often than its trip has edges left, with no hop kept for want of its generation or of memory, is delivered.
pub fn ways_law()
    ensures begun { BegunAreOnWay }
    ensures events { EventsKeepWays }
    ensures rebuilds { RebuildsKeepWays }
    ensures runs { RunsKeepWays }
    ensures routed_well { WaysAreRoutedWell }
    ensures gone { GoneStayGone }
    ensures arrive { HoppedArrive }
{
    // Postings stay lawful, and each scheme brings its packets to an end.
    lists_law();
    scheme_laws();
}
