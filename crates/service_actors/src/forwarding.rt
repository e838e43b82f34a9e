// A packet on its way.
ghost use Rattle.std.specs.Prelude.{◌≡◌, IfSome, IsSome};
ghost use Rattle.generations.specs.Beginnings.{GoesOn};
ghost use Rattle.generations.specs.Notices.{newest_in};
ghost use Rattle.packet_ways.specs.Carried.{IsCarried};
ghost use Rattle.service_actors.specs.Forwarded.{IsAlongIn, IsByNewest, IsLaunched, IsLaunchedByNewest, IsSent, launched_at};

use crate::coordinator::Coordinator;
use crate::gate::Gate;
use crate::stop_cause::StopCause;
use forwarders::{Forwarder, Refused};
use generations::BoardReader;
use graph_edits::length_over;
use packet_ways::{BoardName, Carried, Trip};
use schemes::{Move, Packet};
use std::alloc::Global;
use std::marker::PhantomData;
use std::sync::Wait;
use std::thread;

/// A forwarder at the board that `J` names.
#[derive(Drop)]
pub struct BoardForwarder<J: BoardName> {
    pub(crate) forwarder: Forwarder,
    pub(crate) of: PhantomData<J>,
    ghost named: { forwarder.opening ≡ J.opening },
}

impl<J: BoardName> BoardForwarder<J> {
    pub fn new(reader: BoardReader) -> BoardForwarder<J>
        requires { reader.all.opening ≡ J.opening }
    {
        BoardForwarder {
            forwarder: Forwarder::new(reader),
            of: PhantomData,
        }
    }
}

// Learns what was told last, once there is a generation. None where all stop.
pub(crate) fn look<J: BoardName, R: Wait>(
    rt: &R,
    coordinator: &Coordinator<J>,
    forwarder: &mut Forwarder,
) -> Option<()>
    requires { forwarder.old.opening ≡ J.opening }
    ensures opening { forwarder.new.opening ≡ J.opening }
    ensures kept { GoesOn forwarder.old forwarder.new }
    ensures some { IfSome result (λ _. IsSome (newest_in forwarder.new.log)) }
{
    let shown = coordinator.shown(rt)?;
    forwarder.learn(shown.told.told());
    Some(())
}

// What became of one launch.
#[derive(Drop)]
enum Launched {
    Answered(Carried),
    // It is to be launched again, unless all stop.
    Again,
    // Nothing can come of it: all are to stop.
    Halted(StopCause),
}

// Carries a packet to its end, in the graph of its generation.
fn carry<J: BoardName, G: Gate, R: Wait>(
    rt: &R,
    alloc: Global,
    coordinator: &Coordinator<J>,
    gate: &G,
    forwarder: &mut Forwarder,
    trip: Trip,
    packet: Packet,
) -> Launched
    requires { IsSent forwarder.old trip.from trip.to packet }
    ensures kept { GoesOn forwarder.old forwarder.new }
    ensures launched { IsLaunched forwarder.new trip result }
    ensures along { IsAlongIn packet.generation result }
{
    let generation = packet.generation;
    // One that isn't shown any more has left the shelf, or is about to.
    let Some(shown) = coordinator.graph_of(rt, generation) else {
        return Launched::Again;
    };
    let mut nodes = Vec::new(alloc);
    if nodes.push(trip.from).is_err() {
        return Launched::Halted(StopCause::Memory);
    }
    let mut at = trip.from;
    let mut packet = packet;
    for _ in rt.forever() {
        match forwarder.hop(at, packet) {
            Ok(Move::Delivered) => {
                gate.after_hop(generation);
                let length = length_over(&shown.graph, &nodes);
                return Launched::Answered(Carried::Along {
                    generation,
                    nodes,
                    length,
                });
            }
            Ok(
                Move::Forward {
                    port: _,
                    next,
                    packet: on,
                },
            ) => {
                gate.after_hop(generation);
                if nodes.push(next).is_err() {
                    return Launched::Halted(StopCause::Memory);
                }
                at = next;
                packet = on;
            }
            Err((Refused::BoardShut, back)) => {
                if coordinator.stopped(rt) {
                    return Launched::Again;
                }
                packet = back;
                thread::yield_now();
            }
            Err((Refused::GenerationGone, _)) => return Launched::Again,
            // No tables of this service refuse a packet of their own on its way.
            Err(_) => return Launched::Halted(StopCause::Internal),
        }
    }
    unreachable!()
}

// Launches a packet in the newest generation.
fn launch<J: BoardName, G: Gate, R: Wait>(
    rt: &R,
    alloc: Global,
    coordinator: &Coordinator<J>,
    gate: &G,
    forwarder: &mut Forwarder,
    trip: Trip,
) -> Launched
    ensures kept { GoesOn forwarder.old forwarder.new }
    ensures launched { IsLaunched forwarder.new trip result }
    ensures newest { IsLaunchedByNewest forwarder.old forwarder.new result }
{
    let Ok(Some(generation)) = forwarder.latest() else {
        return Launched::Again;
    };
    let address = match forwarder.address(generation, trip.to) {
        Ok(address) => address,
        Err(refused) => return refused_at(generation, refused),
    };
    match forwarder.launch(trip.from, &address) {
        Ok(packet) => {
            // Each scheme of this service is of the generation under whose number it stands.
            if packet.generation != generation {
                return Launched::Halted(StopCause::Internal);
            }
            carry(rt, alloc, coordinator, gate, forwarder, trip, packet)
        }
        Err(refused) => refused_at(generation, refused),
    }
}

// What becomes of a packet that isn't launched.
fn refused_at(generation: u64, refused: Refused) -> Launched
    ensures { result ≡ launched_at generation refused }
{
    match refused {
        Refused::NoNode => Launched::Answered(Carried::NoNode),
        Refused::Unreachable => Launched::Answered(Carried::Unreachable { generation }),
        Refused::BoardShut | Refused::GenerationGone => Launched::Again,
        Refused::Stray | Refused::Spent => Launched::Halted(StopCause::Internal),
    }
}

// One trip, until it has an answer. Without one all stop.
pub(crate) fn forward<J: BoardName, G: Gate, R: Wait>(
    rt: &R,
    alloc: Global,
    coordinator: &Coordinator<J>,
    gate: &G,
    forwarder: &mut Forwarder,
    trip: Trip,
) -> Option<Carried>
    requires { forwarder.old.opening ≡ J.opening }
    ensures opening { forwarder.new.opening ≡ J.opening }
    ensures kept { GoesOn forwarder.old forwarder.new }
    ensures carried { IfSome result (λ carried. IsCarried forwarder.new trip carried) }
    ensures newest { IfSome result (λ carried. IsByNewest forwarder.old forwarder.new carried) }
{
    for _ in rt.forever() {
        gate.before_launch();
        look(rt, coordinator, forwarder)?;
        match launch(rt, alloc, coordinator, gate, forwarder, trip) {
            Launched::Answered(carried) => return Some(carried),
            Launched::Again => thread::yield_now(),
            Launched::Halted(cause) => {
                coordinator.stop(rt, cause);
                return None;
            }
        }
    }
    unreachable!()
}
