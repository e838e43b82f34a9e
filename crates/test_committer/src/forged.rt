// Each forged packet comes to an end, within as many calls as its network has nodes; and what its bytes spell is written as they are.
mod bytes;
mod judged;
mod networks;

use crate::seats::{got, same};
use bytes::{MOST_BYTES, drawn, drawn_generation, drawn_size, nodes_of};
use forwarders::{ByteMove, BytesRefused, Forwarder};
use judged::{is_right, network_of};
use networks::{Network, number, posted};
use packet_bytes::{ADDRESS_SIZE, PACKET_SIZE, Wire, WireRefused};
use rand_core::SeedableRng;
use rand_xoshiro::Xoshiro256PlusPlus;
use schemes::{Address, Packet};
use std::alloc::Global;
use std::process::Abort;
use std::sync::Wait;

/// The answer of a node to bytes, judged.
fn judged_at(
    rt: &impl Abort,
    forwarder: &mut Forwarder,
    networks: &[Network],
    at: u16,
    bytes: &[u8],
) -> Result<ByteMove, BytesRefused> {
    let answer = forwarder.hop_bytes(at, bytes);
    assert!(rt; is_right(networks, at, bytes, &answer));
    answer
}

/// How many calls a packet may take.
fn most_calls(networks: &[Network], packet: &[u8]) -> usize {
    match network_of(networks, packet) {
        Some(network) => network.len(),
        None => 1,
    }
}

/// Passes a packet from node to node until it ends, each answer judged: why it is refused there, if it isn't delivered.
fn passed(
    rt: &impl Abort,
    forwarder: &mut Forwarder,
    networks: &[Network],
    from: u16,
    packet: [u8; PACKET_SIZE],
) -> Option<BytesRefused> {
    let mut at = from;
    let mut spelled = packet;
    for _ in 0..most_calls(networks, &packet) {
        match judged_at(rt, forwarder, networks, at, &spelled) {
            Ok(ByteMove::Delivered) => return None,
            Ok(ByteMove::Forward { next, bytes, .. }) => {
                at = next;
                spelled = bytes;
            }
            Err(refused) => return Some(refused),
        }
    }
    panic!(rt; "a way without an end");
}

/// A packet's bytes with zeros behind them.
fn longer(packet: &[u8; PACKET_SIZE]) -> [u8; MOST_BYTES] {
    let mut bytes = [0; MOST_BYTES];
    for (place, byte) in bytes.iter_mut().zip(packet.iter()) {
        *place = *byte;
    }
    bytes
}

/// Whether a packet that the bytes spell is written as they are, and an address that their front spells as that.
fn is_spelled_again(bytes: &[u8; PACKET_SIZE]) -> bool {
    let front = &bytes[..ADDRESS_SIZE];
    let packet = match Packet::from_bytes(bytes) {
        Ok(packet) => packet.to_bytes() == *bytes,
        Err(_) => true,
    };
    packet
        && match Address::from_bytes(front) {
            Ok(address) => address.to_bytes().as_slice() == front,
            Err(_) => true,
        }
}

/// How often ways ended so, by the number of the refusal, 0 for none.
type Ends = [u32; 10];

fn count(ends: &mut Ends, end: Option<BytesRefused>) {
    let number = match end {
        Some(refused) => refused as u8,
        None => 0,
    };
    if let Some(times) = ends.get_mut(number as usize) {
        *times = times.saturating_add(1);
    }
}

/// Passes a drawn packet over the networks of a board: why it is refused in the end, if it isn't delivered.
fn pass_one(
    rt: &impl Abort,
    rng: &mut Xoshiro256PlusPlus,
    forwarder: &mut Forwarder,
    networks: &[Network],
) -> Option<BytesRefused> {
    let generation = drawn_generation(rng);
    let from = number(rng, nodes_of(networks, generation).saturating_add(1));
    let packet = drawn(rng, forwarder, networks, from, generation);
    assert!(rt; is_spelled_again(&packet));
    match drawn_size(rng) {
        PACKET_SIZE => passed(rt, forwarder, networks, from, packet),
        size => {
            // more or fewer bytes than a packet has
            let bytes = longer(&packet);
            let bytes = got(rt, bytes.get(..size).ok_or("too long"));
            judged_at(rt, forwarder, networks, from, bytes).err()
        }
    }
}

/// Passes 25,000 drawn packets over the networks of one board.
fn pass_drawn<R: Wait + Abort + Copy + Drop>(
    rt: R,
    alloc: Global,
    rng: &mut Xoshiro256PlusPlus,
    ends: &mut Ends,
) {
    let (networks, _writer, mut forwarder) = got(&rt, posted(rt, alloc, rng));
    for _ in 0..25_000u32 {
        count(ends, pass_one(&rt, rng, &mut forwarder, &networks));
    }
}

#[test]
fn a_million_forged_packets_end(rt: HostRuntime) {
    let mut rng = Xoshiro256PlusPlus::seed_from_u64(1205);
    let mut ends: Ends = [0; 10];
    for _ in 0..40u32 {
        pass_drawn(rt, rt.alloc(), &mut rng, &mut ends);
    }
    // packets on their way may end by each refusal but these two
    for (number, times) in ends.iter().enumerate() {
        let fine = match number {
            2 | 6 => *times == 0,
            _ => 10_000 < *times,
        };
        assert!(&rt; fine, "{number}");
    }
}

// Packets and addresses byte by byte are in conformance/live_packets.txt, but a line has no word of no bytes.
#[test]
fn no_bytes_are_no_packet(rt: HostRuntime) {
    let refused = Packet::from_bytes(&[]).err();
    same(&rt, refused, Some(WireRefused::BadLength), "no bytes");
}
