// Every table of sample and drawn networks, by view and by `RouterTable`; and packets that go from table to table, for all pairs, against
// the trail over which the scheme carries them.
use super::*;

// The bytes of a place that has to stay as it is.
const UNTOUCHED: [u8; PACKET_SIZE] = [0xA5; PACKET_SIZE];

// A table, and a view of the same bytes.
type Pair<'a> = (RouterTable, TableView<'a>);

// Who the router is, its neighbours and its address.
fn compare_router(rt: &impl Abort, (table, view): &Pair) {
    let (figures, head) = (view.figures(), table.head());
    let found = (figures.generation, figures.nodes, figures.node);
    let want = (head.generation, head.nodes, head.node);
    same(rt, found, want, "the generation, the nodes and the node");
    for port in 0..=figures.ports {
        let behind = view.neighbour(port as usize);
        same(rt, behind, table.over(port), "a neighbour");
        same(rt, behind.is_some(), port < figures.ports, "a port");
    }
    assert!(rt; view.address() == table.address(), "the address");
    let mut bytes = [0; ADDRESS_SIZE];
    let told = address_bytes(view.bytes(), &mut bytes);
    same(rt, told, Ok(()), "room for the address");
    assert!(rt; bytes == table.address().to_bytes(), "the address in bytes");
}

// A packet by value and in bytes.
fn compare_hop(rt: &impl Abort, (table, view): &Pair, packet: &Packet) {
    let want = table.hop(packet);
    let mut out = UNTOUCHED;
    let hop = view.hop_bytes(&packet.to_bytes(), &mut out);
    let (hop_wanted, out_wanted) = match &want {
        Ok(Move::Delivered) => (Ok(Hop::Delivered), UNTOUCHED),
        Ok(Move::Forward { port, next, packet }) => {
            let (port, next) = (*port, *next);
            (Ok(Hop::Forward { port, next }), packet.to_bytes())
        }
        Err(refused) => (Err(BytesRefused::Table(*refused)), UNTOUCHED),
    };
    same(rt, hop, hop_wanted, "a hop");
    assert!(rt; out == out_wanted, "the packet that goes on, or nothing");
    assert!(rt; view.hop(packet) == want, "a move");
}

// A launch by value and in bytes. Answers the packet.
fn compare_launch(rt: &impl Abort, (table, view): &Pair, to: &Address) -> Option<Packet> {
    let want = table.launch(to);
    let mut out = UNTOUCHED;
    let done = view.launch_bytes(&to.to_bytes(), &mut out);
    let (done_wanted, out_wanted) = match &want {
        Ok(packet) => (Ok(()), packet.to_bytes()),
        Err(refused) => (Err(BytesRefused::Table(*refused)), UNTOUCHED),
    };
    same(rt, done, done_wanted, "a launch");
    assert!(rt; out == out_wanted, "the packet, or nothing");
    assert!(rt; view.launch(to) == want, "a launch");
    want.ok()
}

// A packet with other hops left, for another root, and for another destination, at one table.
fn compare_turned(rt: &impl Abort, pair: &Pair, sent: &Packet) {
    let nodes = pair.0.head().nodes;
    for number in [0u16, 1, nodes.saturating_sub(1), nodes, 65535] {
        let mut packet = sent.copy();
        packet.hops_left = number;
        compare_hop(rt, pair, &packet);
        packet.hops_left = sent.hops_left;
        packet.root = number;
        compare_hop(rt, pair, &packet);
        packet.root = sent.root;
        packet.destination = number;
        compare_hop(rt, pair, &packet);
    }
}

// All addresses at one table, with another landmark too, with none, and with another node; and the packets at all tables.
fn compare_from(rt: &impl Abort, pairs: &[Pair], pair: &Pair) {
    compare_router(rt, pair);
    let nodes = pair.0.head().nodes;
    for (there, _) in pairs {
        let to = there.address();
        let mut other = to.copy();
        if let Some(home) = &mut other.home {
            home.landmark = nodes;
        }
        let _other = compare_launch(rt, pair, &other);
        other.home = None;
        let _alone = compare_launch(rt, pair, &other);
        other.node = nodes;
        let _far = compare_launch(rt, pair, &other);
        if let Some(packet) = compare_launch(rt, pair, &to) {
            compare_turned(rt, pair, &packet);
            for pair in pairs {
                compare_hop(rt, pair, &packet);
            }
        }
    }
}

// A packet is handed on to its end, each hop by the table of the node where it is: over the nodes and the ports of a trail.
fn expect_way(rt: &impl Abort, pairs: &[Pair], trail: &Trail, sent: Packet, to: u16) {
    let mut packet = sent;
    let hops = trail.ports.iter().zip(trail.nodes.iter().skip(1));
    for (at, (port, next)) in trail.nodes.iter().zip(hops) {
        let moved = nth(rt, pairs, *at as usize).0.hop(&packet);
        let Ok(
            Move::Forward {
                port: found,
                next: there,
                packet: left,
            },
        ) = moved
        else {
            panic!(rt; "no hop");
        };
        same(rt, (found, there), (*port, *next), "the port and the node");
        packet = left;
    }
    let hops = trail.ports.len();
    same(rt, trail.nodes.get(hops).copied(), Some(to), "the end");
    same(
        rt,
        trail.nodes.len(),
        hops.saturating_add(1),
        "no node more",
    );
    let moved = nth(rt, pairs, to as usize).0.hop(&packet);
    assert!(rt; moved == Ok(Move::Delivered), "delivered");
}

// Compares the way of one packet. Answers whether its nodes are apart.
fn are_apart(rt: &impl Host, scheme: &Scheme, pairs: &[Pair], from: u16, to: u16) -> bool {
    let address = got(rt, scheme.address(to));
    let trail = scheme.carry(rt.alloc(), from, &address);
    let address = nth(rt, pairs, to as usize).0.address();
    match (trail, nth(rt, pairs, from as usize).0.launch(&address)) {
        (Ok(trail), Ok(packet)) => {
            same(rt, trail.nodes.first().copied(), Some(from), "the start");
            expect_way(rt, pairs, &trail, packet, to);
            false
        }
        (Err(CarryRefused::Unreachable), Err(Refused::Unreachable)) => true,
        _ => panic!(rt; "carried otherwise"),
    }
}

// How many nodes a network has, and its edges.
type Network<'a> = (u16, &'a [Edge]);

// Compares all pairs of nodes of a network under these landmarks, and all views where that is asked for. Answers how many are apart.
fn compare(rt: &impl Host, (nodes, edges): Network, at: &[u16], with_views: bool) -> u32 {
    let scheme = scheme_at(rt, nodes, edges, at);
    let files = files_of(rt, &scheme);
    let mut pairs = Vec::new(rt.alloc());
    for file in &files {
        let view = got(rt, TableView::read(file.as_slice()));
        got(rt, pairs.push((read(rt, file.as_slice()), view)));
    }
    let pairs = pairs.as_slice();
    if with_views {
        for pair in pairs {
            compare_from(rt, pairs, pair);
        }
    }
    let mut apart = 0u32;
    for from in 0..nodes {
        for to in 0..nodes {
            let more = are_apart(rt, &scheme, pairs, from, to);
            apart = apart.saturating_add(more as u32);
        }
    }
    apart
}

// Compares a network under each of these landmarks: as many are apart.
fn compare_under(rt: &impl Host, network: Network, all: [&[u16]; 3], with_views: bool) -> u32 {
    let [none, some, others] = all.map(|at| compare(rt, network, at, with_views));
    same(rt, (some, others), (none, none), "apart");
    none
}

#[test]
fn in_the_sample_networks(rt: HostRuntime) {
    for (nodes, edges, apart) in [
        (5u16, PATH.as_slice(), 0u32),
        (3, TRIANGLE.as_slice(), 0),
        (4, PAIRS.as_slice(), 8),
        (9, RING.as_slice(), 0),
    ] {
        let found = compare_under(&rt, (nodes, edges), [&[], &[2], &[0, 2]], true);
        same(&rt, found, apart, "apart");
    }
}

// Each drawn network without a landmark, with some, and where each node is one; the first eight with their views. And a larger network, with
// longer lists of entries and members, and one with deeper trees and few landmarks.
#[test]
fn in_drawn_networks(rt: HostRuntime) {
    let (rt, alloc) = (&rt, rt.alloc());
    let mut rng = Xoshiro256PlusPlus::seed_from_u64(50);
    let mut apart = 0u32;
    for network in 0..40u8 {
        let nodes = 1 + (rng.next_u64() % 12) as u16;
        let edges = got(rt, drawn_edges(alloc, &mut rng, nodes, 9, (3, 10)));
        let some = got(rt, drawn_nodes(alloc, &mut rng, nodes, (8, 24)));
        let all = [0u16, 1, 2, 3, 4, 5, 6, 7, 8, 9, 10, 11];
        let landmarks: [&[u16]; 3] = [&[], &some, &all];
        let more = compare_under(rt, (nodes, &edges), landmarks, network < 8);
        apart = apart.saturating_add(more);
    }
    assert!(rt; 0 < apart);
    for (nodes, odds, with_views) in [(20u16, (2, 10), true), (60, (1, 10), false)] {
        let edges = got(rt, drawn_edges(alloc, &mut rng, nodes, 9, odds));
        let at = got(rt, drawn_nodes(alloc, &mut rng, nodes, (3, 24)));
        let _apart = compare(rt, (nodes, &edges), &at, with_views);
    }
}
