// What a forwarder answers one at a time, as it is asked for.
ghost use Rattle.std.specs.Prelude.{◌≡◌, IfSome, IsSome};
ghost use Rattle.generations.specs.Beginnings.{GoesOn, board_after};
ghost use Rattle.generations.specs.Notices.{newest_in};
ghost use Rattle.forwarders.specs.Answers.{address_at, hop_at, launch_at};
ghost use Rattle.packet_ways.specs.Carried.{IsCarried};
ghost use Rattle.service_actors.specs.Forwarded.{IsByNewest, WasNewest};

use crate::coordinator::Coordinator;
use crate::forwarding::{BoardForwarder, forward, look};
use crate::gate::Gate;
use forwarders::{Forwarder, Refused};
use generations::History;
use packet_ways::{BoardName, Carried, Trip};
use schemes::{Address, Move, Packet};
use std::alloc::Global;
use std::sync::Wait;
use std::thread;

// The address of a node in the newest generation, and its number. Without an answer all stop.
fn address_now<J: BoardName, R: Wait>(
    rt: &R,
    coordinator: &Coordinator<J>,
    forwarder: &mut Forwarder,
    node: u16,
) -> Option<(u64, Result<Address, Refused>)>
    requires { forwarder.old.opening ≡ J.opening }
    ensures opening { forwarder.new.opening ≡ J.opening }
    ensures kept { GoesOn forwarder.old forwarder.new }
    ensures answer { IfSome result (λ r. r.1 ≡ address_at r.0 node (board_after forwarder.new).shelf) }
    ensures newest { IfSome result (λ r. WasNewest forwarder.old forwarder.new r.0) }
{
    for _ in rt.forever() {
        look(rt, coordinator, forwarder)?;
        let Ok(Some(generation)) = forwarder.latest() else {
            thread::yield_now();
            continue;
        };
        match forwarder.address(generation, node) {
            Ok(address) => return Some((generation, Ok(address))),
            Err(Refused::BoardShut) | Err(Refused::GenerationGone) => thread::yield_now(),
            Err(refused) => return Some((generation, Err(refused))),
        }
    }
    unreachable!()
}

// The packet that a node sends to an address. Without an answer all stop.
fn launch_now<J: BoardName, R: Wait>(
    rt: &R,
    coordinator: &Coordinator<J>,
    forwarder: &mut Forwarder,
    from: u16,
    to: &Address,
) -> Option<Result<Packet, Refused>>
    requires { forwarder.old.opening ≡ J.opening }
    ensures opening { forwarder.new.opening ≡ J.opening }
    ensures kept { GoesOn forwarder.old forwarder.new }
    ensures answer { IfSome result (λ r. r ≡ launch_at from to.now (board_after forwarder.new).shelf) }
    ensures some { IfSome result (λ _. IsSome (newest_in forwarder.new.log)) }
{
    for _ in rt.forever() {
        look(rt, coordinator, forwarder)?;
        match forwarder.launch(from, to) {
            Ok(packet) => return Some(Ok(packet)),
            Err(Refused::BoardShut) => thread::yield_now(),
            Err(refused) => return Some(Err(refused)),
        }
    }
    unreachable!()
}

// What a node does with a packet. Without an answer all stop.
fn hop_now<J: BoardName, R: Wait>(
    rt: &R,
    coordinator: &Coordinator<J>,
    forwarder: &mut Forwarder,
    at: u16,
    packet: Packet,
) -> Option<Result<Move, Refused>>
    requires { forwarder.old.opening ≡ J.opening }
    ensures opening { forwarder.new.opening ≡ J.opening }
    ensures kept { GoesOn forwarder.old forwarder.new }
    ensures answer { IfSome result (λ r. r ≡ hop_at at packet (board_after forwarder.new).shelf) }
    ensures some { IfSome result (λ _. IsSome (newest_in forwarder.new.log)) }
{
    let mut packet = packet;
    for _ in rt.forever() {
        look(rt, coordinator, forwarder)?;
        match forwarder.hop(at, packet) {
            Ok(step) => return Some(Ok(step)),
            Err((Refused::BoardShut, back)) => {
                packet = back;
                thread::yield_now();
            }
            Err((refused, _)) => return Some(Err(refused)),
        }
    }
    unreachable!()
}

impl<J: BoardName> BoardForwarder<J> {
    /// The postings that it saw or was told of.
    pub fn known(&self) -> History
        ensures same { result ≡ self.now.forwarder }
        ensures named { result.opening ≡ J.opening }
    {
        self.forwarder.known()
    }

    /// Carries a packet from a node to a node in the newest generation. None where all stop.
    pub fn route<G: Gate, R: Wait>(
        &mut self,
        rt: &R,
        alloc: Global,
        coordinator: &Coordinator<J>,
        gate: &G,
        trip: Trip,
    ) -> Option<Carried>
        ensures kept { GoesOn self.old.forwarder self.new.forwarder }
        ensures carried { IfSome result (λ carried. IsCarried self.new.forwarder trip carried) }
        // No older one: it was the newest of the list by a look of this call.
        ensures newest { IfSome result (λ carried. IsByNewest self.old.forwarder self.new.forwarder carried) }
    {
        forward(rt, alloc, coordinator, gate, &mut self.forwarder, trip)
    }

    /// The address of a node in the newest generation, whose number stands before it. None where all stop. It is refused as
    /// `NoNode` alone.
    pub fn address<R: Wait>(
        &mut self,
        rt: &R,
        coordinator: &Coordinator<J>,
        node: u16,
    ) -> Option<(u64, Result<Address, Refused>)>
        ensures kept { GoesOn self.old.forwarder self.new.forwarder }
        ensures answer { IfSome result (λ r. r.1 ≡ address_at r.0 node (board_after self.new.forwarder).shelf) }
        // No older one: it was the newest of the list by a look of this call.
        ensures newest { IfSome result (λ r. WasNewest self.old.forwarder self.new.forwarder r.0) }
    {
        address_now(rt, coordinator, &mut self.forwarder, node)
    }

    /// The packet that a node sends to an address, in the address's generation. None where all stop.
    pub fn launch<R: Wait>(
        &mut self,
        rt: &R,
        coordinator: &Coordinator<J>,
        from: u16,
        to: &Address,
    ) -> Option<Result<Packet, Refused>>
        ensures kept { GoesOn self.old.forwarder self.new.forwarder }
        ensures answer { IfSome result (λ r. r ≡ launch_at from to.now (board_after self.new.forwarder).shelf) }
        // The board has a generation by then.
        ensures some { IfSome result (λ _. IsSome (newest_in self.new.forwarder.log)) }
    {
        launch_now(rt, coordinator, &mut self.forwarder, from, to)
    }

    /// What a node does with a packet, in the packet's generation. None where all stop.
    pub fn hop<R: Wait>(
        &mut self,
        rt: &R,
        coordinator: &Coordinator<J>,
        at: u16,
        packet: Packet,
    ) -> Option<Result<Move, Refused>>
        ensures kept { GoesOn self.old.forwarder self.new.forwarder }
        ensures answer { IfSome result (λ r. r ≡ hop_at at packet (board_after self.new.forwarder).shelf) }
        ensures some { IfSome result (λ _. IsSome (newest_in self.new.forwarder.log)) }
    {
        hop_now(rt, coordinator, &mut self.forwarder, at, packet)
    }
}
