// Drawn bytes that are, or look like, a packet.
use super::networks::{Network, below, number};
use forwarders::Forwarder;
use packet_bytes::{PACKET_SIZE, Wire};
use rand_core::Rng;
use rand_xoshiro::Xoshiro256PlusPlus;

/// The most bytes that are sent.
pub(crate) const MOST_BYTES: usize = 48;

/// How many bytes are sent: mostly as many as a packet has.
pub(crate) fn drawn_size(rng: &mut Xoshiro256PlusPlus) -> usize {
    let word = rng.next_u64();
    if word % 16 == 0 {
        38 + (word / 16 % 11) as usize
    } else {
        PACKET_SIZE
    }
}

/// A node, or rarely the number past the last one.
fn some_node(rng: &mut Xoshiro256PlusPlus, nodes: u16) -> u16 {
    let past = rng.next_u64() % 8 == 0;
    number(rng, nodes.saturating_add(past as u16))
}

/// Puts a number's low byte: all numbers here are small.
fn put(bytes: &mut [u8; PACKET_SIZE], at: usize, number: u64) {
    if let Some(byte) = bytes.get_mut(at) {
        *byte = (number % 256) as u8;
    }
}

/// Any bytes.
fn any(rng: &mut Xoshiro256PlusPlus) -> [u8; PACKET_SIZE] {
    let mut bytes = [0; PACKET_SIZE];
    for byte in &mut bytes {
        *byte = (rng.next_u64() % 256) as u8;
    }
    bytes
}

/// Bytes of a packet with drawn fields, each in its range or just past it.
fn fields(rng: &mut Xoshiro256PlusPlus, generation: u64, nodes: u16) -> [u8; PACKET_SIZE] {
    let mut bytes = [0; PACKET_SIZE];
    put(&mut bytes, 7, generation);
    for at in &[9usize, 11, 13, 15] {
        put(&mut bytes, *at, some_node(rng, nodes) as u64);
    }
    let ports = rng.next_u64() % 15 / (1 + rng.next_u64() % 15);
    put(&mut bytes, 16, ports);
    for place in 0..ports.min(13) as usize {
        put(&mut bytes, 18 + 2 * place, rng.next_u64() % 4);
    }
    bytes
}

/// A packet from one node to another one, as it is launched; drawn fields where it can't be.
fn launched(
    rng: &mut Xoshiro256PlusPlus,
    forwarder: &mut Forwarder,
    generation: u64,
    nodes: u16,
    from: u16,
) -> [u8; PACKET_SIZE] {
    let to = some_node(rng, nodes);
    if let Ok(address) = forwarder.address(generation, to)
        && let Ok(packet) = forwarder.launch(from, &address)
    {
        return packet.to_bytes();
    }
    fields(rng, generation, nodes)
}

/// Changes a byte, mostly one of the nodes, hops or count: to any value, or to a small one.
fn change(rng: &mut Xoshiro256PlusPlus, bytes: &mut [u8; PACKET_SIZE]) {
    let at = if rng.next_u64() % 4 == 0 {
        rng.next_u64() % PACKET_SIZE as u64
    } else {
        8 + rng.next_u64() % 9
    };
    let most = if rng.next_u64() % 4 == 0 { 256 } else { 6 };
    put(bytes, at as usize, below(rng, most));
}

/// Drawn bytes, sent from this node: any, or a packet by its fields or as it is launched, with up to two bytes changed.
pub(crate) fn drawn(
    rng: &mut Xoshiro256PlusPlus,
    forwarder: &mut Forwarder,
    networks: &[Network],
    from: u16,
    generation: u64,
) -> [u8; PACKET_SIZE] {
    let nodes = nodes_of(networks, generation);
    let mut bytes = match rng.next_u64() % 8 {
        0 => return any(rng),
        1..=3 => fields(rng, generation, nodes),
        _ => launched(rng, forwarder, generation, nodes, from),
    };
    for _ in 0..rng.next_u64() % 3 {
        change(rng, &mut bytes);
    }
    bytes
}

/// A generation that is posted, or rarely one of the two beside them.
pub(crate) fn drawn_generation(rng: &mut Xoshiro256PlusPlus) -> u64 {
    match rng.next_u64() % 20 {
        0 => 0,
        1 => 5,
        word => 1 + word % 4,
    }
}

/// How many nodes a generation has, 1 where it isn't posted.
pub(crate) fn nodes_of(networks: &[Network], generation: u64) -> u16 {
    match networks.get(generation.wrapping_sub(1) as usize) {
        Some(network) => u16::try_from(network.len()).unwrap_or(0),
        None => 1,
    }
}
