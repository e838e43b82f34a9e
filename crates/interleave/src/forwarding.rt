// Events of the forwarder.
ghost use Rattle.std.specs.Prelude.{◌≡◌, ◌≤◌, ◌<◌, ◌+◌, length, vec_len, vec_capacity, slice_get, Some, Ok};
ghost use Rattle.forwarders.specs.Answers.{hop_at};
ghost use Rattle.event_model.specs.declared.event.Event.TheVariants as events;
ghost use Rattle.event_model.specs.Answers.{hop_as, launch_as};
ghost use Rattle.event_model.specs.Machines.{with_seen};
ghost use Rattle.event_model.specs.Trips.{Trip, hop_reply, hop_way, launch_by};
ghost use Rattle.interleave.specs.Stores.{trip_of};

use crate::room::add;
use crate::stored::Way;
use crate::world::World;
use disk_trait::Disk;
use event_model::Reply;
use forwarders::{Refused, address_on, hop_on, latest_on, launch_on};
use generations::Board;
use schemes::{Move, Packet};
use std::alloc::Global;

impl<D: Disk> World<D> {
    ghost use Rattle.interleave.specs.WorldWords.{machine_of};
    ghost use Rattle.interleave.specs.Events.{LeavesDesk, WorldAnswers, WorldOrMemory};

    /// A node sends a packet to another.
    pub(crate) fn launch(&mut self, alloc: Global, from: u16, to: u16, at: usize) -> Reply
        ensures leaves { LeavesDesk self.old result self.new }
        ensures answers { WorldAnswers (events.Launch from to at) self.old result self.new }
    {
        let seen = self.stored.further(self.stored.seen, at);
        let Ok(board) = self.stored.board(seen) else {
            return Reply::Memory;
        };
        match launch_newest(&board, from, to) {
            Ok(packet) => self.file(alloc, seen, from, to, packet),
            Err(refused) => {
                self.stored.seen = seen;
                Reply::NotRouted(refused)
            }
        }
    }

    // A packet that its source has sent has a number and a way from now on. It was sent by a board that holds so many postings.
    fn file(&mut self, alloc: Global, seen: usize, from: u16, to: u16, packet: Packet) -> Reply
        ensures leaves { LeavesDesk self.old result self.new }
        ensures answers { WorldOrMemory (launch_as (with_seen (machine_of self.old) seen) from to (Ok packet))
            self.old result self.new }
    {
        let Ok(visited) = Vec::from_slice(alloc, &[from]) else {
            return Reply::Memory;
        };
        let number = self.stored.ways.len();
        let way = Way {
            from,
            to,
            visited,
            at: from,
            packet,
            there: true,
        };
        if self.stored.ways.push(way).is_err() {
            return Reply::Memory;
        }
        self.stored.seen = seen;
        Reply::Launched { packet: number }
    }

    /// A packet is carried on where it stands.
    pub(crate) fn hop(&mut self, packet: usize, at: usize) -> Reply
        ensures leaves { LeavesDesk self.old result self.new }
        ensures answers { WorldAnswers (events.Hop packet at) self.old result self.new }
    {
        if packet >= self.stored.ways.len() || !self.stored.ways[packet].there {
            return Reply::NoActor;
        }
        let seen = self.stored.further(self.stored.seen, at);
        let Ok(board) = self.stored.board(seen) else {
            return Reply::Memory;
        };
        self.carry_on(packet, seen, &board)
    }

    // A packet's way goes on by what a board says, which holds so many postings.
    fn carry_on(&mut self, packet: usize, seen: usize, board: &Board) -> Reply
        requires within { packet < length (machine_of self.old).ways }
        ensures leaves { LeavesDesk self.old result self.new }
        ensures answers { (way : Trip) → slice_get (machine_of self.old).ways packet ≡ Some way
            → WorldOrMemory
            (hop_as (with_seen (machine_of self.old) seen) packet way (hop_at way.at way.packet board.now.shelf))
            self.old result self.new }
    {
        let way = &mut self.stored.ways[packet];
        if way.visited.reserve(1).is_err() {
            return Reply::Memory;
        }
        self.stored.seen = seen;
        hop_along(board, way)
    }
}

// The packet that a node sends to another's address, both by the newest generation of a board.
fn launch_newest(board: &Board, from: u16, to: u16) -> Result<Packet, Refused>
    ensures { result ≡ launch_by board.now.shelf from to }
{
    let Some(generation) = latest_on(board) else {
        return Err(Refused::GenerationGone);
    };
    match address_on(board, generation, to) {
        Ok(address) => launch_on(board, from, &address),
        Err(refused) => Err(refused),
    }
}

// A packet's way goes on by what a board says. There is room for one node more.
fn hop_along(board: &Board, way: &mut Way) -> Reply
    requires { vec_len way.old.visited + 1 ≤ vec_capacity way.old.visited }
    ensures reply { result ≡ hop_reply (hop_at way.old.at way.old.packet board.now.shelf) }
    ensures way { trip_of way.new ≡ hop_way (trip_of way.old) (hop_at way.old.at way.old.packet board.now.shelf) }
{
    match hop_on(board, way.at, &way.packet) {
        Ok(Move::Delivered) => {
            way.there = false;
            Reply::Delivered
        }
        Ok(Move::Forward { port, next, packet }) => {
            add(&mut way.visited, next);
            way.at = next;
            way.packet = packet;
            Reply::Forwarded { port, next }
        }
        Err(refused) => Reply::NotRouted(refused),
    }
}
