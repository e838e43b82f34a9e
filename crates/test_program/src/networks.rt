// Networks that become devices: lists that were drawn, the longest one, and devices with more nodes, against the test's own edges.
use crate::helpers::{got, same};
use checkpoint::{DEVICE_LEN, Store};
use disk_trait::{Disk, MemDisk};
use graph_edits::Code;
use layout_2::load;
use network_load::{GrowRefused, LoadRefused, grown_image, load_list};
use rand_core::SeedableRng;
use rand_core::utils::NextWord;
use rand_xoshiro::Xoshiro256PlusPlus;
use std::alloc::Global;
use std::process::Abort;

/// The two nodes of an edge, and its weight.
type Edge = (u16, u16, u32);

// A disk with these bytes.
fn disk_of(rt: &impl Abort, alloc: Global, bytes: &[u8]) -> MemDisk {
    let mut disk = got(rt, test_doubles::blank(alloc, DEVICE_LEN));
    got(rt, test_doubles::put(&mut disk, 0, bytes));
    got(rt, disk.sync());
    disk
}

// Sees that the store on a device with these bytes has just these edges among so many nodes, that they came as changes of 16 edges of session 0, and that
// no other session has sent any. Gives its count.
fn expect_loaded(rt: &impl Abort, alloc: Global, bytes: &[u8], nodes: u16, edges: &[Edge]) -> u64 {
    same(rt, bytes.len(), DEVICE_LEN, "the device");
    let store: Store<MemDisk> = got(rt, test_doubles::opened(alloc, disk_of(rt, alloc, bytes)));
    let graph = store.graph();
    assert_eq!(rt; (graph.nodes(), graph.edges()), (nodes, edges.len()));
    for (a, b, weight) in edges {
        let found = (*a, *b, graph.weight(*a, *b));
        assert_eq!(rt; found, (*a, *b, Some(*weight)));
    }
    let changes = edges.len().div_ceil(16) as u64;
    assert_eq!(rt; store.count(), changes);
    for (session, ticket) in store.starts().iter().enumerate() {
        let want = if session == 0 { changes } else { 0 };
        assert_eq!(rt; (session, *ticket), (session, want));
    }
    changes
}

// Edges between 60 nodes, about one pair in four, each end first as often as the other.
fn drawn(rt: &impl Abort, alloc: Global, seed: u64) -> Vec<Edge> {
    let mut words = Xoshiro256PlusPlus::seed_from_u64(seed);
    let mut edges = Vec::new(alloc);
    for a in 0..60 {
        for b in 0..60 {
            let word = words.next_word();
            if a < b && word % 4 == 0 {
                let weight = ((word / 8) % 1_000_000) as u32 + 1;
                let edge = if word % 8 == 0 {
                    (a, b, weight)
                } else {
                    (b, a, weight)
                };
                got(rt, edges.push(edge));
            }
        }
    }
    edges
}

// A list of edges, a line each, and between them lines that say nothing.
fn list_of(rt: &impl Abort, alloc: Global, edges: &[Edge]) -> String {
    let mut text = String::new(alloc);
    for (a, b, weight) in edges {
        if weight % 3 == 0 {
            got(rt, writeln!(text, "# {weight}\n\t"));
        }
        got(rt, writeln!(text, "{a} \t{b}\t {weight}\r"));
    }
    text
}

#[test]
fn drawn_lists_become_devices(rt: HostRuntime) {
    let (rt, alloc) = (&rt, rt.alloc());
    for seed in 1..=6 {
        let edges = drawn(rt, alloc, seed);
        let text = list_of(rt, alloc, &edges);
        let made = got(rt, load_list(alloc, text.as_str(), Some(70)));
        assert_eq!(rt; (made.nodes, made.edges), (70, edges.len()));
        let count = expect_loaded(rt, alloc, &made.bytes, 70, &edges);
        assert_eq!(rt; made.count, count);
    }
}

// As many edges as there may be: each node with the four behind it, among 16,384.
#[test]
fn as_many_edges_as_there_may_be(rt: HostRuntime) {
    let (rt, alloc) = (&rt, rt.alloc());
    let mut edges = Vec::new(alloc);
    for further in 0..4u16 {
        for a in 0..16_384u16 {
            let b = (a + further + 1) % 16_384;
            got(rt, edges.push((a, b, a as u32 + 1)));
        }
    }
    let mut text = list_of(rt, alloc, &edges);
    let made = got(rt, load_list(alloc, text.as_str(), None));
    assert_eq!(rt;
        (made.count, made.edges, made.nodes),
        (4_096, 65_536, 16_384)
    );
    // The number of the line behind the last one.
    let last = text.split('\n').count();
    got(rt, text.push_str("0 5 1"));
    match load_list(alloc, text.as_str(), None) {
        Err(LoadRefused::Edge { line, code, first }) => {
            assert_eq!(rt; (line, code, first), (last, Code::TooManyEdges, None));
        }
        _ => panic!(rt; "an edge more than there may be"),
    }
}

// A device of three nodes with more of them; there can't be fewer, and no more than there may be.
#[test]
fn a_device_with_more_nodes(rt: HostRuntime) {
    let (rt, alloc) = (&rt, rt.alloc());
    let made = got(rt, load_list(alloc, "0 1 5\n2 1 6\n", None));
    let mut disk = disk_of(rt, alloc, &made.bytes);
    let loaded = got(rt, load(alloc, &mut disk));
    for nodes in [3u16, 4, 255, 256, 16_384] {
        let bytes = got(rt, grown_image(alloc, &loaded, nodes as u64));
        let edges = [(0, 1, 5), (1, 2, 6)];
        let _count = expect_loaded(rt, alloc, &bytes, nodes, &edges);
    }
    for nodes in [0, 2, 16_385, 65_539, u64::MAX] {
        let refused = grown_image(alloc, &loaded, nodes).err();
        assert_eq!(rt; (nodes, refused), (nodes, Some(GrowRefused::NodeCount)));
    }
}
