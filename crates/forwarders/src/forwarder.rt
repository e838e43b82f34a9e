// A forwarder.
ghost use Rattle.std.specs.Prelude.{◌≡◌, IfOk, IfErr};
ghost use Rattle.generations.specs.Beginnings.{GoesOn, board_after};
ghost use Rattle.generations.specs.Boards.{latest_of};
ghost use Rattle.generations.specs.Lawful.{IsLawful};
ghost use Rattle.forwarders.specs.Answers.{UnlessShut, address_at, handed_back, hop_at, launch_at};
ghost use Rattle.forwarders.specs.ByteAnswers.{IsByteAnswer};

use crate::answers::{address_on, hop_on, latest_on, launch_on};
use crate::in_bytes::{ByteMove, answer_in_bytes, packet_in};
use crate::refused::{BytesRefused, Refused};
use generations::{BoardReader, History, Told};
use schemes::{Address, Move, Packet};
use std::marker::Model;

/// A forwarder. Contracts see it as the beginning of the board's list that it saw or was told of.
#[derive(Drop)]
pub struct Forwarder {
    /// Between two calls it is there.
    reader: Option<BoardReader>,
    known: History,
}

impl Model for Forwarder {
    ghost use Rattle.generations.specs.Beginnings.{Beginning};
    ghost use Rattle.forwarders.specs.Forwarders.{IsForwarder};

    ghost Value = { Beginning };

    ghost view = { λ f. f.known };

    ghost invariant = { IsForwarder };
}

impl Forwarder {
    /// A forwarder that looks by this reader.
    pub fn new(reader: BoardReader) -> Forwarder
        ensures { result ≡ reader.all }
    {
        let known = reader.known();
        Forwarder {
            reader: Some(reader),
            known,
        }
    }

    /// All that it saw or was told: a beginning of the board's one lawful list.
    pub fn known(&self) -> History
        ensures same { result ≡ self.now }
        ensures lawful { IsLawful result.opening.starts result.opening.count result.log }
    {
        // That its list is lawful is known with its length.
        self.known.len();
        self.known.again()
    }

    /// From now on it sees no less than what was told. Like all calls here it takes no memory and waits for nobody.
    pub fn learn(&mut self, told: &Told)
        requires { told.now.opening ≡ self.old.opening }
        ensures kept { GoesOn self.old self.new }
        ensures told { GoesOn told.now self.new }
    {
        let Some(mut reader) = self.reader.take() else {
            unreachable!()
        };
        reader.learn(told);
        self.known = reader.known();
        self.reader = Some(reader);
    }

    /// The number of the newest generation.
    pub fn latest(&mut self) -> Result<Option<u64>, Refused>
        ensures kept { GoesOn self.old self.new }
        ensures ok { IfOk result (λ number. number ≡ latest_of (board_after self.new).shelf) }
        ensures err { IfErr result (λ e. e ≡ Refused.BoardShut) }
    {
        let Some(reader) = self.reader.take() else {
            unreachable!()
        };
        match reader.look() {
            Ok(look) => {
                let latest = latest_on(look.board());
                let reader = look.leave();
                self.known = reader.known();
                self.reader = Some(reader);
                Ok(latest)
            }
            Err((_, reader)) => {
                self.reader = Some(reader);
                Err(Refused::BoardShut)
            }
        }
    }

    /// The address of a node in a generation.
    pub fn address(&mut self, generation: u64, v: u16) -> Result<Address, Refused>
        ensures kept { GoesOn self.old self.new }
        ensures answer { UnlessShut Refused.BoardShut (address_at generation v (board_after self.new).shelf) result }
    {
        let Some(reader) = self.reader.take() else {
            unreachable!()
        };
        match reader.look() {
            Ok(look) => {
                let answer = address_on(look.board(), generation, v);
                let reader = look.leave();
                self.known = reader.known();
                self.reader = Some(reader);
                answer
            }
            Err((_, reader)) => {
                self.reader = Some(reader);
                Err(Refused::BoardShut)
            }
        }
    }

    /// The packet that a node sends to an address, by the scheme of the address's generation.
    pub fn launch(&mut self, from: u16, address: &Address) -> Result<Packet, Refused>
        ensures kept { GoesOn self.old self.new }
        ensures answer { UnlessShut Refused.BoardShut (launch_at from address.now (board_after self.new).shelf) result }
    {
        let Some(reader) = self.reader.take() else {
            unreachable!()
        };
        match reader.look() {
            Ok(look) => {
                let answer = launch_on(look.board(), from, address);
                let reader = look.leave();
                self.known = reader.known();
                self.reader = Some(reader);
                answer
            }
            Err((_, reader)) => {
                self.reader = Some(reader);
                Err(Refused::BoardShut)
            }
        }
    }

    /// What a node does with a packet, by the scheme of the packet's generation. A packet that is refused comes back as
    /// it was.
    pub fn hop(&mut self, at: u16, packet: Packet) -> Result<Move, (Refused, Packet)>
        ensures kept { GoesOn self.old self.new }
        ensures answer { UnlessShut (Refused.BoardShut, packet)
            (handed_back packet (hop_at at packet (board_after self.new).shelf)) result }
    {
        let Some(reader) = self.reader.take() else {
            unreachable!()
        };
        match reader.look() {
            Ok(look) => {
                let answer = hop_on(look.board(), at, &packet);
                let reader = look.leave();
                self.known = reader.known();
                self.reader = Some(reader);
                with_packet(answer, packet)
            }
            Err((_, reader)) => {
                self.reader = Some(reader);
                Err((Refused::BoardShut, packet))
            }
        }
    }

    /// What a node does with a packet's bytes. Bytes that spell no packet are refused before the board is looked at.
    pub fn hop_bytes(&mut self, at: u16, bytes: &[u8]) -> Result<ByteMove, BytesRefused>
        ensures kept { GoesOn self.old self.new }
        ensures answer { IsByteAnswer (board_after self.new).shelf at bytes.now result }
    {
        let packet = packet_in(bytes)?;
        let answer = self.hop(at, packet);
        answer_in_bytes(answer)
    }
}

// An answer, with the packet where it is refused.
fn with_packet(answer: Result<Move, Refused>, packet: Packet) -> Result<Move, (Refused, Packet)>
    ensures { result ≡ handed_back packet answer }
{
    match answer {
        Ok(step) => Ok(step),
        Err(refused) => Err((refused, packet)),
    }
}
