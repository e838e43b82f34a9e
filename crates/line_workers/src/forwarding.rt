// A forwarder's thread.
ghost use Rattle.std.specs.Prelude.{◌≡◌, None, IfSome, IsTrue};
ghost use Rattle.generations.specs.Beginnings.{GoesOn};
ghost use Rattle.live_lines.specs.Answers.{Join, Leads};
ghost use Rattle.line_exchange.specs.OneList.{AnswersBy};
ghost use Rattle.line_workers.specs.Newest.{GoesByNewest};

use crate::workplace::Workplace;
use forwarders::Refused;
use line_exchange::{Answered, Ask, Stream};
use live_lines::{Answer, Asked};
use packet_ways::{BoardName, Carried, Trip};
use schemes::{Address, Packet};
use service_actors::{BoardForwarder, Gate, StopCause};
use std::marker::PhantomData;
use std::sync::Wait;

// All stop: two parts of the service disagree.
fn halted<J: Stream, B: BoardName, R: Wait>(here: &Workplace<J, B, R>) -> Option<Answer>
    ensures { result ≡ None }
{
    here.coordinator.stop(here.rt, StopCause::Internal);
    None
}

// The nodes begin with the one and end with the other.
fn join(nodes: &[u16], from: u16, to: u16) -> bool
    ensures { IsTrue result → Join from to nodes.now }
{
    match (nodes.split_first(), nodes.split_last()) {
        (Some((first, _)), Some((last, _))) => *first == from && *last == to,
        _ => false,
    }
}

// Whether a way goes from the one node to the other, where there is one. Its generation was seen.
fn leads<J: Stream, B: BoardName, R: Wait>(
    here: &Workplace<J, B, R>,
    way: &Carried,
    trip: Trip,
) -> bool
    ensures { IsTrue result → Leads trip.from trip.to way.now }
{
    match way {
        Carried::Along {
            generation,
            nodes,
            ..
        } => {
            here.coordinator.see(here.rt, *generation);
            join(nodes, trip.from, trip.to)
        }
        Carried::Unreachable { generation } => {
            here.coordinator.see(here.rt, *generation);
            true
        }
        Carried::NoNode => true,
    }
}

// The answer to a route. Without one all stop.
fn route<J: Stream, B: BoardName, G: Gate, R: Wait>(
    here: &Workplace<J, B, R>,
    gate: &G,
    forwarder: &mut BoardForwarder<B>,
    from: u16,
    to: u16,
) -> Option<Answer>
    ensures kept { GoesOn forwarder.old.forwarder forwarder.new.forwarder }
    ensures answer { IfSome result (λ answer. AnswersBy forwarder.new.forwarder (Asked.Route from to) answer) }
    ensures newest { IfSome result (GoesByNewest forwarder.old.forwarder forwarder.new.forwarder (Asked.Route from to)) }
{
    let trip = Trip { from, to };
    let way = forwarder.route(here.rt, here.alloc, here.coordinator, gate, trip)?;
    if !leads(here, &way, trip) {
        return halted(here);
    }
    Some(Answer::Way(way))
}

// The answer to who asks for an address. Without one all stop.
fn address<J: Stream, B: BoardName, R: Wait>(
    here: &Workplace<J, B, R>,
    forwarder: &mut BoardForwarder<B>,
    node: u16,
) -> Option<Answer>
    ensures kept { GoesOn forwarder.old.forwarder forwarder.new.forwarder }
    ensures answer { IfSome result (λ answer. AnswersBy forwarder.new.forwarder (Asked.Address node) answer) }
    ensures newest { IfSome result (GoesByNewest forwarder.old.forwarder forwarder.new.forwarder (Asked.Address node)) }
{
    match forwarder.address(here.rt, here.coordinator, node)? {
        (generation, Ok(address)) if address.node == node && address.generation == generation => {
            here.coordinator.see(here.rt, generation);
            Some(Answer::Told(address))
        }
        (_, Err(Refused::NoNode)) => Some(Answer::NoNode),
        _ => halted(here),
    }
}

// The answer to a launch. Without one all stop.
fn launch<J: Stream, B: BoardName, R: Wait>(
    here: &Workplace<J, B, R>,
    forwarder: &mut BoardForwarder<B>,
    from: u16,
    to: &Address,
) -> Option<Answer>
    ensures kept { GoesOn forwarder.old.forwarder forwarder.new.forwarder }
    ensures answer { IfSome result (λ answer. AnswersBy forwarder.new.forwarder (Asked.Launch from to.now) answer) }
{
    match forwarder.launch(here.rt, here.coordinator, from, to)? {
        Ok(packet) => Some(Answer::Sent(packet)),
        Err(refused) => Some(Answer::NotCarried(refused)),
    }
}

// The answer to a hop. Without one all stop.
fn hop<J: Stream, B: BoardName, G: Gate, R: Wait>(
    here: &Workplace<J, B, R>,
    gate: &G,
    forwarder: &mut BoardForwarder<B>,
    at: u16,
    packet: &Packet,
) -> Option<Answer>
    ensures kept { GoesOn forwarder.old.forwarder forwarder.new.forwarder }
    ensures answer { IfSome result (λ answer. AnswersBy forwarder.new.forwarder (Asked.Hop at packet.now) answer) }
{
    match forwarder.hop(here.rt, here.coordinator, at, packet.copy())? {
        Ok(step) => {
            gate.after_hop(packet.generation);
            Some(Answer::Moved(step))
        }
        Err(refused) => Some(Answer::NotCarried(refused)),
    }
}

// The answer to a line that is a forwarder's. Without one all stop.
fn answer_of<J: Stream, B: BoardName, G: Gate, R: Wait>(
    here: &Workplace<J, B, R>,
    gate: &G,
    forwarder: &mut BoardForwarder<B>,
    asked: &Asked,
) -> Option<Answer>
    ensures kept { GoesOn forwarder.old.forwarder forwarder.new.forwarder }
    ensures answer { IfSome result (λ answer. AnswersBy forwarder.new.forwarder asked.now answer) }
    ensures newest { IfSome result (GoesByNewest forwarder.old.forwarder forwarder.new.forwarder asked.now) }
{
    match asked {
        Asked::Route { from, to } => route(here, gate, forwarder, *from, *to),
        Asked::Address { node } => address(here, forwarder, *node),
        Asked::Launch { from, to } => launch(here, forwarder, *from, to),
        Asked::Hop { at, packet } => hop(here, gate, forwarder, *at, packet),
        _other => halted(here),
    }
}

// Whether a line goes by the newest tables.
fn goes_by_newest(asked: &Asked) -> bool {
    match asked {
        Asked::Route { .. } | Asked::Address { .. } => true,
        _ => false,
    }
}

// Waits until the answers before a place are printed. False where all stop.
fn await_waited<J: Stream, B: BoardName, R: Wait>(here: &Workplace<J, B, R>, behind: u64) -> bool {
    here.exchange.is_turn(here.rt, behind) || here.await_turn(behind)
}

// The answer to the line at a place. What goes by the newest tables is answered behind each earlier line that waits for tables; that a
// generation is gone is told by a look behind all answers to earlier lines. Without one all stop.
fn answer_at<J: Stream, B: BoardName, G: Gate, R: Wait>(
    here: &Workplace<J, B, R>,
    gate: &G,
    forwarder: &mut BoardForwarder<B>,
    place: u64,
    behind: u64,
    asked: &Asked,
) -> Option<Answer>
    ensures kept { GoesOn forwarder.old.forwarder forwarder.new.forwarder }
    ensures answer { IfSome result (λ answer. AnswersBy forwarder.new.forwarder asked.now answer) }
    ensures newest { IfSome result (GoesByNewest forwarder.old.forwarder forwarder.new.forwarder asked.now) }
{
    if goes_by_newest(asked) && !await_waited(here, behind) {
        return None;
    }
    match answer_of(here, gate, forwarder, asked)? {
        Answer::NotCarried(Refused::GenerationGone) => {
            if !here.await_turn(place) {
                return None;
            }
            answer_of(here, gate, forwarder, asked)
        }
        answer => Some(answer),
    }
}

// A line, answered. Without an answer all stop.
fn answered<J: Stream, B: BoardName, G: Gate, R: Wait>(
    here: &Workplace<J, B, R>,
    gate: &G,
    forwarder: &mut BoardForwarder<B>,
    ask: Ask<J>,
) -> Option<Answered<J, B>>
    // Where it tells a way or an address, that is by the newest generation: a look of this call saw no newer one, and all that the
    // forwarder had seen.
    ensures newest { IfSome result (λ a. GoesByNewest forwarder.old.forwarder a.known ask.asked a.answer) }
{
    let Ask {
        place,
        asked,
        behind,
        of,
    } = ask;
    let answer = answer_at(here, gate, forwarder, place, behind, &asked)?;
    Some(Answered {
        place,
        answer,
        known: forwarder.known(),
        noted: None,
        of,
        at: PhantomData,
    })
}

/// Answers the lines that are a forwarder's, one after the other, until no more comes or all stop.
pub fn forward_lines<J: Stream, B: BoardName, G: Gate, R: Wait>(
    here: &Workplace<J, B, R>,
    gate: &G,
    forwarder: BoardForwarder<B>,
    place: usize,
) {
    let Some(mailbox) = here.exchange.forwarders.get(place) else {
        here.coordinator.stop(here.rt, StopCause::Internal);
        return;
    };
    let mut forwarder = forwarder;
    for _ in here.rt.forever() {
        let Some(ask) = mailbox.take(here.rt) else {
            return;
        };
        let Some(answered) = answered(here, gate, &mut forwarder, ask) else {
            return;
        };
        let _put = here.exchange.answers.put(here.rt, answered);
    }
}
