// What an answer to bytes has to be, by the layout and the neighbours of each node.
use super::networks::Network;
use forwarders::{ByteMove, BytesRefused};

/// How many bytes a packet has.
const SIZE: usize = 43;

fn byte(bytes: &[u8], at: usize) -> u8 {
    bytes.get(at).copied().unwrap_or(0)
}

/// The number in the two bytes from here on.
fn number(bytes: &[u8], at: usize) -> u16 {
    u16::from_be_bytes([byte(bytes, at), byte(bytes, at.saturating_add(1))])
}

fn destination(bytes: &[u8]) -> u16 {
    number(bytes, 8)
}

fn hops_left(bytes: &[u8]) -> u16 {
    number(bytes, 14)
}

/// The network of the generation that the bytes name, if it is posted.
pub(crate) fn network_of<'a>(networks: &'a [Network], bytes: &[u8]) -> Option<&'a Network> {
    for at in 0..6usize {
        if byte(bytes, at) != 0 {
            return None;
        }
    }
    networks.get(number(bytes, 6).checked_sub(1)? as usize)
}

/// Why the bytes spell no packet.
fn unread(bytes: &[u8]) -> Option<BytesRefused> {
    if bytes.len() != SIZE {
        return Some(BytesRefused::BadLength);
    }
    let ports = bytes[16] as usize;
    if 13 < ports {
        return Some(BytesRefused::BadCount);
    }
    let unused = &bytes[17 + 2 * ports..];
    if unused.iter().any(|byte| *byte != 0) {
        return Some(BytesRefused::BadPadding);
    }
    None
}

/// Why the bytes are refused before any table is looked at.
fn refusal(networks: &[Network], at: u16, bytes: &[u8]) -> Option<BytesRefused> {
    let Some(network) = network_of(networks, bytes) else {
        return Some(BytesRefused::GenerationGone);
    };
    let nodes = network.len();
    if nodes <= at as usize {
        return Some(BytesRefused::NoNode);
    }
    if nodes <= hops_left(bytes) as usize {
        return Some(BytesRefused::Stray);
    }
    None
}

/// Whether the port of a node leads to that neighbour.
fn leads(network: &Network, at: u16, port: u16, next: u16) -> bool {
    match network.get(at as usize) {
        Some(neighbours) => neighbours.get(port as usize) == Some(&next),
        None => false,
    }
}

/// Whether these are the same bytes with one hop less.
fn one_hop_less(before: &[u8], after: &[u8]) -> bool {
    hops_left(before).checked_sub(1) == Some(hops_left(after))
        && before.get(..14) == after.get(..14)
        && before.get(16..) == after.get(16..)
}

/// Whether a node may answer so, where no plainer refusal holds.
fn may_answer(
    networks: &[Network],
    at: u16,
    bytes: &[u8],
    answer: &Result<ByteMove, BytesRefused>,
) -> bool {
    match answer {
        Ok(ByteMove::Delivered) => destination(bytes) == at,
        Ok(
            ByteMove::Forward {
                port,
                next,
                bytes: after,
            },
        ) => match network_of(networks, bytes) {
            Some(network) => leads(network, at, *port, *next) && one_hop_less(bytes, after),
            None => false,
        },
        Err(BytesRefused::Stray) => true,
        Err(BytesRefused::Spent) => hops_left(bytes) == 0,
        Err(_) => false,
    }
}

/// Whether a node may answer so to these bytes.
pub(crate) fn is_right(
    networks: &[Network],
    at: u16,
    bytes: &[u8],
    answer: &Result<ByteMove, BytesRefused>,
) -> bool {
    match unread(bytes).or(refusal(networks, at, bytes)) {
        Some(refused) => matches!(answer, Err(found) if *found == refused),
        None => may_answer(networks, at, bytes, answer),
    }
}
