// What is worked out by hand of built schemes: words, lengths, and long paths from end to end. Ways in
// small networks, with their ports, are in conformance/routes.txt and live_packets.txt, and tables in tables.txt and table_bytes.txt.
use crate::helpers::{Network, STACK_LEN, carried, expect_trail, got, same};
use graph_edits::{MOST_NODES, length_over};
use sample_networks::TRIANGLE;
use scheme_builds::{SCRATCH_LEN, first_words};
use schemes::{Move, Refused, Scheme};
use single_route::Routes;
use std::alloc::Global;
use std::process::Abort;
use std::thread;

/// How many words are taken of 4, 5 and 6, and the words.
const FIRST_WORDS: [(usize, &[u64]); 4] = [
    (0, &[]),
    (2, &[4, 5]),
    (3, &[4, 5, 6]),
    (5, &[4, 5, 6, u64::MAX, u64::MAX]),
];

/// Nodes of the triangle in a row, and how long that way is.
const LENGTHS: [(&[u16], u64); 5] = [
    (&[], 0),
    (&[1], 0),
    (&[2, 0, 1], 3),
    (&[0, 1, 0, 2], 4),
    (&[0, 0, 9, 1], 0),
];

#[test]
fn first_words_and_lengths(rt: HostRuntime) {
    let (rt, alloc) = (&rt, rt.alloc());
    for (count, want) in &FIRST_WORDS {
        let words = got(rt, first_words(alloc, &[4, 5, 6], *count));
        same(rt, words.as_slice(), *want, "first words");
    }
    let triangle = Network::of(rt, alloc, 3, &TRIANGLE);
    for (way, length) in &LENGTHS {
        same(rt, length_over(&triangle.graph, way), *length, "a length");
    }
    same(rt, SCRATCH_LEN, 67_108_864, "a build's scratch");
}

/// Long paths: how many nodes one has, and of how many nodes the last is a landmark. The longest has as many as a graph may have.
const LONG: [(u16, u16); 2] = [(4_096, 64), (16_384, 128)];

/// The root and the hops left of a packet from end to end of a long path at launch, by how many hops it went, how many
/// of them by port 1, and its hops left where it is delivered.
fn end_to_end(scheme: &Scheme, last: u16) -> Result<(u16, u16, u16, u16, u16), Refused> {
    let mut packet = scheme.decide(0, &scheme.address(last)?)?;
    let (root, launched) = (packet.root, packet.hops_left);
    let (mut at, mut hops, mut ones) = (0, 0u16, 0u16);
    for _ in 0..=last {
        match scheme.node_step(at, &packet)? {
            Move::Delivered => return Ok((root, launched, hops, ones, packet.hops_left)),
            Move::Forward {
                port,
                next,
                packet: left,
            } => {
                hops = hops.saturating_add(1);
                ones = ones.saturating_add(port);
                at = next;
                packet = left;
            }
        }
    }
    Err(Refused::Spent)
}

/// The scheme of a long path with a landmark at the last of each so many nodes, the same by trees and over lists.
fn long_scheme(rt: &impl Abort, path: &Network, each: u16) -> Scheme {
    let ends = (0..path.nodes()).filter(|v| v % each.max(1) == each.saturating_sub(1));
    let at: Vec<u16> = got(rt, ends.collect(path.alloc));
    let scheme = path.scheme(rt, &at);
    let found = got(rt, path.by_lists(rt, &at, path.alloc));
    assert!(rt; found.parts() == scheme.parts(), "over lists");
    scheme
}

/// Sees that the route from end to end of each long path is as worked out: by port 0 and then always by port 1.
fn goes_end_to_end(rt: &impl Abort, alloc: Global) {
    for (nodes, each) in LONG {
        let last = nodes.saturating_sub(1);
        let path = Network::long_path(rt, alloc, nodes, 1_000_000);
        same(rt, path.graph.edges(), last as usize, "a long path");
        let scheme = long_scheme(rt, &path, each);
        let found = end_to_end(&scheme, last);
        let ones = last.saturating_sub(1);
        same(rt, found, Ok((last, last, last, ones, 0)), "the long way");
        let trail = got(rt, carried(rt, alloc, &scheme, 0, last));
        same(rt, trail.ports.first().copied(), Some(0), "the first port");
        let found = trail.ports.iter().filter(|port| **port == 1).count();
        let ports = (trail.ports.len(), found);
        same(rt, ports, (last as usize, ones as usize), "the other ports");
        let length = last as u64 * 1_000_000;
        let lengths = (trail.length, length_over(&path.graph, &trail.nodes));
        same(rt, lengths, (length, length), "the long way");
    }
}

#[test]
fn long_paths_from_end_to_end(rt: HostRuntime) {
    let (rt, alloc) = (&rt, rt.alloc());
    let handle = got(rt, rt.clone());
    let thread = thread::Builder::new().stack_size(STACK_LEN);
    let started = thread.spawn(rt, move || goes_end_to_end(&handle, alloc));
    got(rt, started).join(rt);
}

/// A route alone from end to end of the longest path, in the own tree, through a landmark in the middle, and in the tree of the destination.
#[test]
fn goes_alone_over_the_longest_path(rt: HostRuntime) {
    let (rt, alloc) = (&rt, rt.alloc());
    let path = Network::long_path(rt, alloc, MOST_NODES, 3);
    let last = MOST_NODES - 1;
    let nodes: Vec<u16> = got(rt, (0..MOST_NODES).collect(alloc));
    let ports: Vec<u16> = got(rt, (0..last).map(|node| node.min(1)).collect(alloc));
    for at in [&[] as &[u16], &[MOST_NODES / 2], &[0, last]] {
        let landmarks = path.landmarks(rt, at);
        let mut routes = got(rt, Routes::new(alloc, &path.graph, &landmarks));
        let trail = got(rt, routes.route(0, last));
        expect_trail(rt, &trail, &nodes, &ports, 3 * last as u64);
    }
}
