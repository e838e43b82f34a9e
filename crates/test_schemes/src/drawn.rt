// Drawn networks under no landmark, some and all: their schemes are the same by trees and over lists under each allocator; what they say of each node
// is what plain distances say, and so is each route, which is the same alone. Builds in threads give the very same, whatever the number of workers.
use crate::changes::copied;
use crate::helpers::{
    Edge, Network, PATH, Words, again, carried, expect_trail, got, heap_of, number, same,
};
use bumpalo::Bump;
use rand_core::{Rng, SeedableRng};
use sample_networks::{Odds, PlainGraph};
use scheme_builds::{scheme_in_threads, scheme_of, scheme_of_in_threads, workers_for};
use schemes::{CarryRefused, Move, Packet, Scheme, Trail};
use single_route::{NoTrail, Routes};
use std::alloc::Global;
use std::process::Abort;
use std::sync::Wait;
use std::thread::Threads;

/// The scheme of a network under these landmarks, which is the same by trees and over lists, under each allocator.
fn same_under_each(rt: &impl Abort, network: &Network, at: &[u16]) -> Scheme {
    let heap = heap_of(rt, network.alloc, 1_048_576);
    let arena = Bump::new(network.alloc);
    let scheme = network.scheme(rt, at);
    assert!(rt; got(rt, network.by_trees(rt, at, &heap)).parts() == scheme.parts());
    assert!(rt; got(rt, network.by_trees(rt, at, &arena)).parts() == scheme.parts());
    assert!(rt; got(rt, network.by_lists(rt, at, network.alloc)).parts() == scheme.parts());
    assert!(rt; got(rt, network.by_lists(rt, at, &heap)).parts() == scheme.parts());
    assert!(rt; got(rt, network.by_lists(rt, at, &arena)).parts() == scheme.parts());
    scheme
}

/// A node's distance and parent in the tree of a root by plain distances, none where it isn't in that tree: another landmark is as near.
/// Of several parents it is the smallest.
fn place(plain: &PlainGraph, at: &[u16], root: u16, x: u16) -> Option<(u64, Option<u16>)> {
    let distance = plain.distance(root, x)?;
    let is_as_near = |landmark: &u16| {
        let near = plain.distance(*landmark, x);
        near.is_some_and(|near| near <= distance)
    };
    if !at.contains(&root) && at.iter().any(is_as_near) {
        return None;
    }
    let parent = (0..plain.nodes).find(|y| {
        match (plain.weight(*y, x), plain.distance(root, *y)) {
            (Some(weight), Some(before)) => before.saturating_add(weight as u64) == distance,
            _ => false,
        }
    });
    Some((distance, parent))
}

/// Sees that each node is in the trees that plain distances say, as far from the root, and below the same parent.
fn expect_places(rt: &impl Abort, scheme: &Scheme, plain: &PlainGraph, at: &[u16]) {
    for root in 0..plain.nodes {
        for x in 0..plain.nodes {
            let entry = scheme.entry(x, root);
            let found = entry.map(|entry| (entry.distance(), entry.parent()));
            let want = place(plain, at, root, x);
            same(rt, (x, root, found), (x, root, want), "a place");
        }
    }
}

/// Whether a route is a walk over edges from end to end, as long as it says, at most three times the distance; or whether there is none.
fn is_routed(answer: &Result<Trail, CarryRefused>, plain: &PlainGraph, ends: (u16, u16)) -> bool {
    let least = plain.distance(ends.0, ends.1);
    let trail = match answer {
        Ok(trail) => trail,
        Err(refused) => return *refused == CarryRefused::Unreachable && least.is_none(),
    };
    let (mut at, mut long) = (ends.0, 0u64);
    for node in trail.nodes.iter().skip(1) {
        let Some(weight) = plain.weight(at, *node) else {
            return false;
        };
        long = long.saturating_add(weight as u64);
        at = *node;
    }
    (trail.nodes.first().copied(), at) == (Some(ends.0), ends.1)
        && long == trail.length
        && least.is_some_and(|least| long <= least.saturating_mul(3))
}

/// Sees that a route is the same alone. Answers whether there is one.
fn is_same_alone(rt: &impl Abort, answer: Option<Trail>, alone: Result<Trail, NoTrail>) -> bool {
    let Some(trail) = answer else {
        same(rt, alone.err(), Some(NoTrail::Unreachable), "no route");
        return false;
    };
    let alone = got(rt, alone);
    expect_trail(rt, &alone, &trail.nodes, &trail.ports, trail.length);
    true
}

/// Sees of all routes that they are right and the same alone, one after another and behind nodes that aren't there. Answers how many there are not.
fn expect_routes(
    rt: &impl Abort,
    network: &Network,
    scheme: &Scheme,
    plain: &PlainGraph,
    at: &[u16],
) -> u32 {
    let landmarks = network.landmarks(rt, at);
    let mut routes = got(rt, Routes::new(network.alloc, &network.graph, &landmarks));
    let (n, mut apart) = (plain.nodes, 0u32);
    for from in 0..n {
        for (from, to) in [
            (n, 0),
            (0, n),
            (n, n),
            (0, n.saturating_add(2)),
            (65_535, 1),
        ] {
            let found = routes.route(from, to).err();
            same(rt, found, Some(NoTrail::NoNode), "a node too many");
        }
        for to in 0..n {
            let answer = carried(rt, network.alloc, scheme, from, to);
            assert!(rt; is_routed(&answer, plain, (from, to)));
            let there = is_same_alone(rt, answer.ok(), routes.route(from, to));
            apart = apart.saturating_add(!there as u32);
        }
    }
    apart
}

/// Sees that both schemes, which are searched in different lists, find the same and do the same with a packet, for each node and one that isn't
/// there. Where there are few nodes they look at as many.
fn expect_alike(rt: &impl Abort, built: &Scheme, assembled: &Scheme, nodes: u16) {
    for x in 0..nodes {
        assert!(rt; x < built.parts().nodes && x < assembled.parts().nodes);
        assert!(rt; assembled.entries(x) == built.entries(x), "entries");
        for y in 0..=nodes {
            let (found, want) = (assembled.find(x, y), built.find(x, y));
            let few = nodes > 5 || found.1 == want.1;
            assert!(rt; found.0 == want.0 && few, "a place");
            assert!(rt; assembled.entry(x, y) == built.entry(x, y), "an entry");
            assert!(rt; assembled.listed(x, y) == built.listed(x, y), "a label");
            let address = built.address(y);
            assert!(rt; assembled.address(y) == address, "an address");
            let other = built.address(y.saturating_add(1));
            assert!(rt; address.is_err() || other != address, "addresses");
            if let Ok(address) = &address {
                assert!(rt; address.copy() == *address, "a copy of an address");
                let home = address.home.as_ref().map(|home| home.copy());
                assert!(rt; home == address.home, "a copy of a home");
                let packet = built.decide(x, address);
                assert!(rt; assembled.decide(x, address) == packet, "a packet");
                if let Ok(packet) = &packet {
                    expect_moved_alike(rt, built, assembled, packet);
                }
            }
        }
    }
}

/// Sees that both move a packet on alike at each node. Copies are equal to what they are copied from, and a packet that is moved on differs from
/// what it was.
fn expect_moved_alike(rt: &impl Abort, built: &Scheme, assembled: &Scheme, packet: &Packet) {
    assert!(rt; packet.copy() == *packet, "a copy of a packet");
    for z in 0..=built.parts().nodes {
        let moved = built.node_step(z, packet);
        assert!(rt; assembled.node_step(z, packet) == moved, "a step");
        if let Ok(moved) = &moved {
            assert!(rt; moved.copy() == *moved, "a copy of a move");
            if let Move::Forward { packet: left, .. } = moved {
                assert!(rt; left.copy() != *packet, "a packet moved on");
            }
        }
    }
}

/// Sees all this of a network under landmarks, and where it is small of the scheme that is assembled of the same tables. Answers how many pairs
/// have no route.
fn expect_served(rt: &impl Abort, network: &Network, plain: &PlainGraph, at: &[u16]) -> u32 {
    let built = same_under_each(rt, network, at);
    expect_places(rt, &built, plain, at);
    let apart = expect_routes(rt, network, &built, plain, at);
    if plain.nodes < 10 {
        let parts = got(rt, copied(network.alloc, built.parts()));
        let assembled = Scheme::assemble(parts);
        expect_alike(rt, &built, &assembled, plain.nodes);
        expect_routes(rt, network, &assembled, plain, at);
    }
    apart
}

#[test]
fn a_path_is_served(rt: HostRuntime) {
    let (rt, alloc) = (&rt, rt.alloc());
    let path = Network::of(rt, alloc, 5, &PATH);
    for at in [&[2u16] as &[u16], &[], &[0, 1, 2, 3, 4]] {
        let apart = expect_served(rt, &path, &path.plain(rt), at);
        same(rt, apart, 0, "pairs without a route");
    }
}

/// How many networks are drawn, of how many nodes at most.
const NETWORKS: [(u32, u16); 2] = [(100, 9), (50, 40)];

/// Which nodes are landmarks: none, all, one in three and one in eight.
const LANDMARKS: [Odds; 4] = [(0, 1), (1, 1), (1, 3), (1, 8)];

/// Pairs that are apart have to come, and pairs that aren't come anyway: a node and itself.
#[test]
fn drawn_networks_are_routed(rt: HostRuntime) {
    let (rt, alloc) = (&rt, rt.alloc());
    let mut rng = Words::seed_from_u64(7);
    let mut apart = 0u32;
    for (count, most) in NETWORKS {
        for _ in 0..count {
            let nodes = number(&mut rng, most).saturating_add(1);
            let edges = (rng.next_u64() % 10, 10);
            let network = Network::drawn(rt, alloc, &mut rng, nodes, edges);
            let plain = network.plain(rt);
            for odds in LANDMARKS {
                let at = network.some(rt, &mut rng, odds);
                let found = expect_served(rt, &network, &plain, &at);
                apart = apart.saturating_add(found);
            }
        }
    }
    assert!(rt; 100 < apart);
}

/// The numbers of workers, among them more than there are nodes, none, and more than ever build.
const WORKERS: [u16; 9] = [0, 1, 2, 3, 4, 5, 8, 17, u16::MAX];

const EIGHT: [u16; 8] = [1, 2, 3, 4, 5, 6, 7, 8];

/// Sees that so many workers build the very scheme of one build.
pub(crate) fn expect_same<R: Abort + Threads + Wait + Sync>(
    rt: &R,
    network: &Network,
    at: &[u16],
    workers: &[u16],
) {
    let (alloc, graph) = (network.alloc, &network.graph);
    let want = network.scheme(rt, at);
    let landmarks = network.landmarks(rt, at);
    for count in workers {
        let found = match scheme_in_threads(rt, alloc, graph, &landmarks, 7, *count) {
            Ok(scheme) => scheme,
            Err(_) => got(
                rt,
                scheme_in_threads(rt, alloc, graph, &landmarks, 7, *count),
            ),
        };
        assert!(rt; found.parts() == want.parts(), "{count} workers");
    }
}

/// Two parts that don't reach each other: one has a landmark, and the other none.
const PARTS: [Edge; 4] = [(0, 1, 3), (1, 2, 1), (3, 4, 2), (4, 5, 2)];

/// No edge at all, with no landmark, with one and with all; paths of two to five nodes, under more workers than nodes; and two parts.
#[test]
fn builds_of_hardly_anything(rt: HostRuntime) {
    let (rt, alloc) = (&rt, rt.alloc());
    for nodes in 1..7u16 {
        let bare = Network::of(rt, alloc, nodes, &[]);
        for at in [&[] as &[u16], &[0], &[0, 1, 2, 3, 4, 5]] {
            expect_same(rt, &bare, at, &WORKERS);
        }
    }
    for nodes in 2..6u16 {
        let edges = got(rt, PATH.get(..nodes as usize - 1).ok_or("no path"));
        let path = Network::of(rt, alloc, nodes, edges);
        for at in [&[] as &[u16], &[1], &[0, 4]] {
            expect_same(rt, &path, at, &WORKERS);
        }
    }
    let parts = Network::of(rt, alloc, 6, &PARTS);
    expect_same(rt, &parts, &[1], &WORKERS);
    expect_same(rt, &parts, &[5], &WORKERS);
}

/// Nodes, processors, and how many workers pay.
const PAYING: [[u16; 8]; 3] = [
    [1, 511, 512, 512, 16_384, 16_384, 16_384, 16_384],
    [8, 8, 8, 0, 1, 4, 16, 64],
    [1, 1, 8, 1, 1, 4, 16, 16],
];

#[test]
fn says_how_many_workers_pay(rt: HostRuntime) {
    let [nodes, processors, workers] = &PAYING;
    for ((nodes, processors), want) in nodes.iter().zip(processors.iter()).zip(workers.iter()) {
        let found = (nodes, processors, workers_for(*nodes, *processors));
        same(&rt, found, (nodes, processors, *want), "workers");
    }
}

#[test]
fn builds_by_landmark_words(rt: HostRuntime) {
    let (rt, alloc) = (&rt, rt.alloc());
    let words = [u64::MAX, 0];
    let path = Network::of(rt, alloc, 5, &PATH);
    let want = got(rt, scheme_of(alloc, &path.graph, &words, 7, alloc));
    let found = again(
        rt,
        || scheme_of_in_threads(rt, alloc, &path.graph, &words, 7, 3),
    );
    assert!(rt; found.parts() == want.parts());
}

/// Compares the schemes of a drawn network. Each two nodes have an edge by these odds, and one node of so many is a landmark.
fn compare<R: Abort + Threads + Wait + Sync>(
    rt: &R,
    alloc: Global,
    rng: &mut Words,
    (nodes, edges, one_of): (u16, Odds, u64),
    workers: &[u16],
) {
    let network = Network::drawn(rt, alloc, rng, nodes, edges);
    let at = network.some(rt, rng, (1, one_of));
    expect_same(rt, &network, &at, workers);
}

/// Small networks, with few edges and with many, and from all landmarks to hardly any.
#[test]
fn builds_the_very_scheme_under_each_number_of_workers(rt: HostRuntime) {
    let (rt, alloc) = (&rt, rt.alloc());
    let mut rng = Words::seed_from_u64(47);
    for round in 0..24u64 {
        let nodes = number(&mut rng, 40).saturating_add(1);
        let edges = (3 + rng.next_u64() % 40, 100);
        let size = (nodes, edges, 1 + round % 6);
        compare(rt, alloc, &mut rng, size, &EIGHT);
    }
}

/// A network of which so many workers pay.
#[test]
fn builds_the_very_scheme_of_a_larger_network(rt: HostRuntime) {
    let mut rng = Words::seed_from_u64(94);
    let size = (600, (1, 100), 24);
    compare(&rt, rt.alloc(), &mut rng, size, &EIGHT);
}

/// A network with more roots than two or three workers build at once: their ranges are built and joined round by round.
#[test]
fn builds_the_very_scheme_round_by_round(rt: HostRuntime) {
    let mut rng = Words::seed_from_u64(1_100);
    let size = (1_600, (1, 400), 40);
    compare(&rt, rt.alloc(), &mut rng, size, &[2, 3]);
}
