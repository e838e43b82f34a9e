// What a forwarder answers to bytes.
ghost use Rattle.std.specs.Prelude.{◌≡◌, None, MatchResult, IfSome, IsSome};
ghost use Rattle.packet_bytes.specs.Refusals.{packet_refusal};
ghost use Rattle.packet_bytes.specs.Spelling.{SpellsPacket};
ghost use Rattle.forwarders.specs.ByteAnswers.{IsUnread, move_in_bytes, without_packet};

use crate::refused::{BytesRefused, Refused, in_turn_by};
use packet_bytes::{PACKET_SIZE, Wire, WireRefused};
use schemes::{Move, Packet};

/// What a node does with a packet's bytes.
#[derive(Debug, PartialEq, Eq, Drop)]
pub enum ByteMove {
    /// The node is the destination.
    Delivered,
    /// The packet goes on, in these bytes, by a port of the node, to the node behind it.
    Forward {
        port: u16,
        next: u16,
        bytes: [u8; PACKET_SIZE],
    },
}

/// The packet that the bytes spell, or why they spell none.
pub(crate) fn packet_in(bytes: &[u8]) -> Result<Packet, BytesRefused>
    ensures { MatchResult result
        (λ packet. (packet_refusal bytes.now ≡ None) × SpellsPacket bytes.now packet)
        (λ e. IsSome (packet_refusal bytes.now) × IfSome (packet_refusal bytes.now) (λ refused. IsUnread refused e)) }
{
    match Packet::from_bytes(bytes) {
        Ok(packet) => Ok(packet),
        Err(WireRefused::BadLength) => Err(BytesRefused::BadLength),
        Err(WireRefused::BadCount) => Err(BytesRefused::BadCount),
        Err(WireRefused::BadPadding) => Err(BytesRefused::BadPadding),
        Err(WireRefused::BadFlag) => unreachable!(),
    }
}

// A move in bytes.
fn spelled(step: Move) -> ByteMove
    ensures { result ≡ move_in_bytes step }
{
    match step {
        Move::Delivered => ByteMove::Delivered,
        Move::Forward { port, next, packet } => ByteMove::Forward {
            port,
            next,
            bytes: packet.to_bytes(),
        },
    }
}

/// An answer in bytes, without a packet that came back.
pub(crate) fn answer_in_bytes(
    answer: Result<Move, (Refused, Packet)>,
) -> Result<ByteMove, BytesRefused>
    ensures { result ≡ without_packet answer }
{
    match answer {
        Ok(step) => Ok(spelled(step)),
        Err((refused, _)) => Err(in_turn_by(refused)),
    }
}
