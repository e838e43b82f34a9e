// What all tests share; and worked networks and drawn ones, and what is built of them: each call is made again where memory was refused.
ghost use Rattle.std.specs.Prelude.{◌≡◌, length};

use arrayvec::ArrayVec;
use graph_edits::Graph;
use heavy_labels::{Label, MOST_LIGHTS};
use landmarks::Landmarks;
use linked_list_allocator::LocalHeap;
use node_table::build;
use rand_core::Rng;
pub(crate) use rand_xoshiro::Xoshiro256PlusPlus as Words;
pub(crate) use sample_networks::{Edge, Odds, PATH};
use sample_networks::{PlainGraph, drawn_edges, drawn_nodes, graph_of, landmarks_at, words_at};
use scheme_builds::scheme_of;
use schemes::{CarryRefused, Scheme, Trail};
use std::alloc::{AllocError, Allocator, Global};
use std::fmt::Debug;
use std::process::Abort;

/// The value of an answer that has to have one.
pub(crate) fn got<T, E: Drop>(rt: &impl Abort, answer: Result<T, E>) -> T {
    match answer {
        Ok(value) => value,
        Err(_) => panic!(rt; "no value"),
    }
}

/// The value of a call, which is made again where memory was refused.
pub(crate) fn again<T, E: Drop, F: Fn() -> Result<T, E>>(rt: &impl Abort, call: F) -> T
    requires { F.IsAlwaysCallable call }
{
    match call() {
        Ok(value) => value,
        Err(_) => got(rt, call()),
    }
}

/// Sees that two values are the same.
pub(crate) fn same<T: Copy + PartialEq + Debug>(rt: &impl Abort, found: T, want: T, name: &str) {
    assert_eq!(rt; found, want, "{name}");
}

/// Sees that a trail is this way.
pub(crate) fn expect_trail(
    rt: &impl Abort,
    trail: &Trail,
    nodes: &[u16],
    ports: &[u16],
    length: u64,
) {
    same(rt, trail.nodes.as_slice(), nodes, "the nodes of a way");
    same(rt, trail.ports.as_slice(), ports, "the ports of a way");
    same(rt, trail.length, length, "the length of a way");
}

/// The stack of a thread with deep trees, and the size of a heap that holds the largest.
pub(crate) const STACK_LEN: usize = 67_108_864;

/// A heap of so many bytes.
pub(crate) fn heap_of(rt: &impl Abort, alloc: Global, size: usize) -> LocalHeap {
    again(rt, || LocalHeap::new(alloc, size))
}

/// As many of these ports as fit into a label.
pub(crate) fn lights_of(ports: &[u16]) -> ArrayVec<u16, MOST_LIGHTS> {
    let mut lights = ArrayVec::new();
    for port in ports {
        let _full = lights.try_push(*port);
    }
    lights
}

/// A label with these light ports.
pub(crate) fn label(first: u16, ports: &[u16]) -> Label {
    Label::new(first, lights_of(ports))
}

/// A network.
#[derive(Drop)]
pub(crate) struct Network {
    pub(crate) alloc: Global,
    pub(crate) edges: Vec<Edge>,
    pub(crate) graph: Graph,
}

impl Network {
    /// The network of a table.
    pub(crate) fn of(rt: &impl Abort, alloc: Global, nodes: u16, edges: &[Edge]) -> Network {
        Network {
            alloc,
            edges: again(rt, || Vec::from_slice(alloc, edges)),
            graph: got(rt, graph_of(alloc, nodes, edges)),
        }
    }

    /// A drawn one of so many nodes, each two with an edge by these odds, and weights up to a drawn one.
    pub(crate) fn drawn(
        rt: &impl Abort,
        alloc: Global,
        rng: &mut Words,
        nodes: u16,
        odds: Odds,
    ) -> Network {
        let heaviest = 1 + (rng.next_u64() % 9) as u32;
        let edges = got(rt, drawn_edges(alloc, rng, nodes, heaviest, odds));
        let graph = got(rt, graph_of(alloc, nodes, &edges));
        Network {
            alloc,
            edges,
            graph,
        }
    }

    /// A path of so many nodes whose edges have this weight.
    pub(crate) fn long_path(rt: &impl Abort, alloc: Global, nodes: u16, weight: u32) -> Network {
        let mut edges = Vec::new(alloc);
        for node in 1..nodes {
            got(rt, edges.push((node - 1, node, weight)));
        }
        Network::of(rt, alloc, nodes, &edges)
    }

    pub(crate) fn nodes(&self) -> u16 {
        self.graph.nodes()
    }

    /// The same by plain counts.
    pub(crate) fn plain(&self, rt: &impl Abort) -> PlainGraph {
        let nodes = self.nodes();
        again(rt, || PlainGraph::new(self.alloc, nodes, &self.edges))
    }

    /// Some of the nodes, each by these odds.
    pub(crate) fn some(&self, rt: &impl Abort, rng: &mut Words, odds: Odds) -> Vec<u16> {
        got(rt, drawn_nodes(self.alloc, rng, self.nodes(), odds))
    }

    /// These nodes as landmarks.
    pub(crate) fn landmarks(&self, rt: &impl Abort, at: &[u16]) -> Landmarks
        ensures { length result ≡ self.now.graph.nodes }
    {
        let landmarks = got(rt, landmarks_at(self.alloc, self.graph.nodes(), at));
        assert!(rt; landmarks.flags().len() == self.graph.nodes() as usize);
        landmarks
    }

    /// The scheme with landmarks at these nodes, built tree by tree over a scratch.
    pub(crate) fn by_trees<A: Allocator + Clone>(
        &self,
        rt: &impl Abort,
        at: &[u16],
        scratch: A,
    ) -> Result<Scheme, AllocError> {
        let landmarks = self.landmarks(rt, at);
        match build(self.alloc, &self.graph, &landmarks, 7, scratch.clone()?) {
            Ok(scheme) => Ok(scheme),
            Err(_) => build(self.alloc, &self.graph, &landmarks, 7, scratch),
        }
    }

    /// The scheme by the words of the same landmarks, built over lists.
    pub(crate) fn by_lists<A: Allocator + Clone>(
        &self,
        rt: &impl Abort,
        at: &[u16],
        scratch: A,
    ) -> Result<Scheme, AllocError> {
        let words = got(rt, words_at(self.alloc, self.nodes(), at));
        scheme_of(self.alloc, &self.graph, &words, 7, scratch)
    }

    /// The scheme with landmarks at these nodes.
    pub(crate) fn scheme(&self, rt: &impl Abort, at: &[u16]) -> Scheme {
        got(rt, self.by_trees(rt, at, self.alloc))
    }
}

/// What becomes of a packet to a node's own address.
pub(crate) fn carried(
    rt: &impl Abort,
    alloc: Global,
    scheme: &Scheme,
    from: u16,
    to: u16,
) -> Result<Trail, CarryRefused> {
    let Ok(address) = scheme.address(to) else {
        panic!(rt; "no address of {to}");
    };
    match scheme.carry(alloc, from, &address) {
        Err(CarryRefused::Memory) => scheme.carry(alloc, from, &address),
        other => other,
    }
}

/// A number below another one, or 0 where there is none.
pub(crate) fn below(rng: &mut Words, limit: usize) -> usize {
    let word = rng.next_u64();
    word.checked_rem(limit as u64).unwrap_or(0) as usize
}

/// The same among the first few numbers.
pub(crate) fn number(rng: &mut Words, limit: u16) -> u16 {
    u16::try_from(below(rng, limit as usize)).unwrap_or(0)
}
