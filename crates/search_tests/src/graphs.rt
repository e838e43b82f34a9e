// Graphs: each call once, each refusal with its place, the limits, and what a want of memory leaves.
ghost use Rattle.std.specs.Prelude.{◌≤◌};

use crate::calls::port_between;
use crate::helpers::{got, same};
use graph_edits::{Change, Code, EditRefused, Graph, MOST_EDGES, MOST_NODES, Op, Overlay, Shape};
use std::alloc::Global;
use std::process::Abort;

/// What a change is answered.
type Answer = Result<(), EditRefused>;

/// A graph without edges, asked for again where memory was short.
fn empty(rt: &impl Abort, alloc: Global, nodes: u16) -> Graph
    requires some { 1 ≤ nodes }
    requires few { nodes ≤ MOST_NODES }
{
    match Graph::empty(alloc, nodes) {
        Ok(graph) => graph,
        Err(_) => got(rt, Graph::empty(alloc, nodes)),
    }
}

/// The weights at the pairs of a change.
fn weights(graph: &Graph, change: &Change) -> [Option<u32>; 16] {
    let mut weights = [None; 16];
    for (op, weight) in change.ops().iter().zip(weights.iter_mut()) {
        let (a, b) = op.ends();
        *weight = graph.weight(a, b);
    }
    weights
}

/// The answer to these ops under a limit of edges, asked again where memory was short: then the graph must be as before.
fn answer(rt: &impl Abort, graph: &mut Graph, ops: &[Op], limit: usize) -> Answer
    requires { limit ≤ MOST_EDGES }
{
    let change = got(rt, Change::new(ops));
    let before = (graph.edges(), weights(graph, &change));
    let answer = graph.apply_within(&change, limit);
    if answer != Err(EditRefused::Memory) {
        return answer;
    }
    same(
        rt,
        (graph.edges(), weights(graph, &change)),
        before,
        "memory was short",
    );
    graph.apply_within(&change, limit)
}

/// The refusal of one op.
fn refused(index: usize, code: Code) -> Answer {
    Err(EditRefused::Op { index, code })
}

/// Sees that these ops are made.
fn makes(rt: &impl Abort, graph: &mut Graph, ops: &[Op], limit: usize)
    requires { limit ≤ MOST_EDGES }
{
    got(rt, answer(rt, graph, ops, limit));
}

/// Sees that these ops are refused for this one.
fn refuses(rt: &impl Abort, graph: &mut Graph, ops: &[Op], limit: usize, index: usize, code: Code)
    requires { limit ≤ MOST_EDGES }
{
    let told = answer(rt, graph, ops, limit);
    same(rt, (ops, told), (ops, refused(index, code)), "a wrong op");
}

/// How many edges there must be, and the weights that must stand at these pairs, in either order.
fn expect_edges(rt: &impl Abort, graph: &Graph, edges: usize, pairs: &[(u16, u16, Option<u32>)]) {
    same(rt, graph.edges(), edges, "the edges");
    for (a, b, weight) in pairs {
        let found = (*a, *b, graph.weight(*a, *b), graph.weight(*b, *a));
        same(rt, found, (*a, *b, *weight, *weight), "an edge");
    }
}

/// The node over a port of a node.
fn node_over(rt: &impl Abort, graph: &Graph, from: u16, port: u16) -> Option<u16> {
    let nodes = graph.nodes();
    assert!(rt; from < nodes);
    graph.over(from, port)
}

/// The neighbours of a node must be these.
fn expect_neighbours(rt: &impl Abort, graph: &Graph, node: u16, want: &[(u16, u32)]) {
    let nodes = graph.nodes();
    assert!(rt; node < nodes);
    same(rt, graph.neighbours(node), want, "the neighbours");
}

/// Five nodes in a row, each edge as long as the number of its smaller node plus one.
fn row(rt: &impl Abort, alloc: Global) -> Graph {
    let mut graph = empty(rt, alloc, 5);
    let ops = [
        Op::Add(0, 1, 1),
        Op::Add(2, 1, 2),
        Op::Add(2, 3, 3),
        Op::Add(4, 3, 4),
    ];
    makes(rt, &mut graph, &ops, MOST_EDGES);
    graph
}

#[test]
fn refusals_have_their_numbers(rt: HostRuntime) {
    let codes = [
        Code::NoNode as u8,
        Code::Loop as u8,
        Code::BadWeight as u8,
        Code::EdgeThere as u8,
        Code::NoEdge as u8,
        Code::TooManyEdges as u8,
    ];
    same(&rt, codes, [1, 2, 3, 4, 5, 6], "codes");
    let shapes = [Shape::Empty as u8, Shape::TooLong as u8];
    same(&rt, shapes, [1, 2], "shapes");
}

#[test]
fn changes_have_one_to_sixteen_ops(rt: HostRuntime) {
    let ops = [Op::Cut(0, 1); 17];
    same(&rt, Change::new(&[]).err(), Some(Shape::Empty), "no op");
    same(&rt, Change::new(&ops).err(), Some(Shape::TooLong), "17 ops");
    let sixteen = got(&rt, Change::new(&ops[..16]));
    same(&rt, sixteen.ops(), &ops[..16], "16 ops");
    let one = got(&rt, Change::new(&[Op::Set(4, 2, 9)]));
    same(&rt, one.ops(), [Op::Set(4, 2, 9)].as_slice(), "one op");
}

#[test]
fn reads_edges_and_ports(rt: HostRuntime) {
    let graph = row(&rt, rt.alloc());
    let pairs = [(1, 2, Some(2)), (0, 2, None), (5, 0, None)];
    expect_edges(&rt, &graph, 4, &pairs);
    same(&rt, graph.nodes(), 5, "the nodes");
    expect_neighbours(&rt, &graph, 3, &[(2, 3), (4, 4)]);
    let ports = [
        port_between(&rt, &graph, 3, 2),
        port_between(&rt, &graph, 3, 4),
        port_between(&rt, &graph, 3, 0),
    ];
    same(&rt, ports, [Some(0), Some(1), None], "ports");
    let over = [node_over(&rt, &graph, 3, 1), node_over(&rt, &graph, 3, 2)];
    same(&rt, over, [Some(4), None], "nodes over ports");
}

/// Ops that are refused in a row of five nodes, and why.
const WRONG: [(Op, Code); 10] = [
    (Op::Add(5, 0, 1), Code::NoNode),
    (Op::Cut(0, 5), Code::NoNode),
    (Op::Set(5, 5, 0), Code::NoNode),
    (Op::Add(2, 2, 0), Code::Loop),
    (Op::Cut(3, 3), Code::Loop),
    (Op::Add(0, 1, 0), Code::BadWeight),
    (Op::Set(0, 2, 1_000_001), Code::BadWeight),
    (Op::Add(1, 0, 1), Code::EdgeThere),
    (Op::Set(0, 2, 1), Code::NoEdge),
    (Op::Cut(4, 0), Code::NoEdge),
];

#[test]
fn refuses_the_first_wrong_op(rt: HostRuntime) {
    let mut graph = row(&rt, rt.alloc());
    for (op, code) in &WRONG {
        let ops = [Op::Add(0, 3, 9), Op::Cut(1, 2), *op, Op::Add(7, 7, 0)];
        refuses(&rt, &mut graph, &ops[2..3], MOST_EDGES, 0, *code);
        expect_edges(&rt, &graph, 4, &[(0, 3, None), (1, 2, Some(2))]);
        refuses(&rt, &mut graph, &ops, MOST_EDGES, 2, *code);
        expect_edges(&rt, &graph, 4, &[(0, 3, None), (1, 2, Some(2))]);
    }
}

/// A copy, made again where memory was short.
fn copied(rt: &impl Abort, alloc: Global, graph: &Graph) -> Graph {
    match graph.try_clone(alloc) {
        Ok(copy) => copy,
        Err(_) => got(rt, graph.try_clone(alloc)),
    }
}

#[test]
fn makes_ops_in_order(rt: HostRuntime) {
    let mut graph = row(&rt, rt.alloc());
    let copy = copied(&rt, rt.alloc(), &graph);
    let ops = [
        Op::Cut(0, 1),
        Op::Add(1, 0, 8),
        Op::Set(0, 1, 8),
        Op::Set(3, 2, 1_000_000),
        Op::Cut(4, 3),
    ];
    makes(&rt, &mut graph, &ops, MOST_EDGES);
    let pairs = [(0, 1, Some(8)), (2, 3, Some(1_000_000)), (3, 4, None)];
    expect_edges(&rt, &graph, 3, &pairs);
    // A copy stands alone.
    same(&rt, copy.nodes(), 5, "the copy's nodes");
    let pairs = [(0, 1, Some(1)), (2, 3, Some(3)), (3, 4, Some(4))];
    expect_edges(&rt, &copy, 4, &pairs);
}

/// The ops by which four nodes from this one on each get an edge to each of the four behind them, round the end.
fn round(first: u16) -> [Op; 16] {
    let mut ops = [Op::Cut(0, 0); 16];
    for (i, op) in ops.iter_mut().enumerate() {
        let from = first.saturating_add((i / 4) as u16);
        let to = from.saturating_add(1 + (i % 4) as u16) % 16_384;
        *op = Op::Add(from, to, 7);
    }
    ops
}

#[test]
fn takes_as_many_edges_as_the_limit(rt: HostRuntime) {
    same(
        &rt,
        (MOST_NODES, MOST_EDGES),
        (16_384, 65_536),
        "the limits",
    );
    let mut graph = empty(&rt, rt.alloc(), 16_384);
    for first in (0..16_384u16).step_by(4) {
        makes(&rt, &mut graph, &round(first), MOST_EDGES);
    }
    same(&rt, graph.edges(), 65_536, "as many as may be");
    let one_more = [Op::Set(0, 1, 8), Op::Add(0, 8192, 1)];
    refuses(
        &rt,
        &mut graph,
        &one_more,
        MOST_EDGES,
        1,
        Code::TooManyEdges,
    );
    let moved = [Op::Cut(16_383, 3), Op::Add(8192, 0, 1)];
    makes(&rt, &mut graph, &moved, MOST_EDGES);
    let pairs = [(0, 1, Some(7)), (0, 8192, Some(1)), (16_383, 3, None)];
    expect_edges(&rt, &graph, 65_536, &pairs);
    let nodes = [0u16, 1, 2, 16_379, 16_380, 16_381, 16_382];
    expect_neighbours(&rt, &graph, 16_383, &nodes.map(|node| (node, 7)));
}

/// The ops that hang sixteen nodes from this one on the last of all, from the greatest down.
fn spokes(first: u16) -> [Op; 16] {
    let mut ops = [Op::Cut(0, 0); 16];
    for (i, op) in ops.iter_mut().enumerate() {
        let node = first.saturating_add(15 - (i as u16).min(15));
        *op = Op::Add(16_383, node, 16_383u16.saturating_sub(node) as u32);
    }
    ops
}

/// Nodes at both ends of the long row and between.
const SPOKES: [u16; 9] = [0, 1, 15, 16, 17, 8191, 8192, 16_381, 16_382];

#[test]
fn finds_its_way_in_a_long_row(rt: HostRuntime) {
    let mut graph = empty(&rt, rt.alloc(), 16_384);
    for first in (0..16_368u16).step_by(16) {
        makes(&rt, &mut graph, &spokes(first), MOST_EDGES);
    }
    // The last of all has no edge to itself.
    makes(&rt, &mut graph, &spokes(16_368)[1..], MOST_EDGES);
    same(&rt, graph.edges(), 16_383, "the edges");
    for node in &SPOKES {
        let port = port_between(&rt, &graph, 16_383, *node);
        let over = node_over(&rt, &graph, 16_383, *node);
        same(&rt, (port, over), (Some(*node), Some(*node)), "a port");
        let weight = 16_383u16.wrapping_sub(*node) as u32;
        same(&rt, graph.weight(*node, 16_383), Some(weight), "a weight");
    }
    same(&rt, node_over(&rt, &graph, 16_383, 16_383), None, "no port");
}

/// A change that is judged again where memory was short.
fn judged(rt: &impl Abort, overlay: &mut Overlay<'_>, ops: &[Op]) -> Answer {
    let change = got(rt, Change::new(ops));
    match overlay.apply(&change) {
        Err(EditRefused::Memory) => overlay.apply(&change),
        answer => answer,
    }
}

/// Changes of a group in turn, and the first of their ops that is refused with its code.
const GROUP: [(&[Op], Option<(usize, Code)>); 5] = [
    (&[Op::Cut(1, 0), Op::Add(0, 4, 6)], None),
    (&[Op::Cut(1, 0), Op::Add(0, 4, 6)], Some((0, Code::NoEdge))),
    (
        &[Op::Add(0, 1, 2), Op::Add(4, 0, 6)],
        Some((1, Code::EdgeThere)),
    ),
    (&[Op::Set(0, 1, 2)], Some((0, Code::NoEdge))),
    (&[Op::Set(4, 0, 2), Op::Add(1, 0, 1)], None),
];

#[test]
fn judges_a_group_without_touching_the_graph(rt: HostRuntime) {
    let graph = row(&rt, rt.alloc());
    let mut overlay = Overlay::over(rt.alloc(), &graph);
    for (ops, wrong) in &GROUP {
        let want = match wrong {
            Some((index, code)) => refused(*index, *code),
            None => Ok(()),
        };
        same(&rt, judged(&rt, &mut overlay, ops), want, "a change");
    }
    expect_edges(&rt, &graph, 4, &[(0, 1, Some(1)), (0, 4, None)]);
}

#[test]
fn takes_a_group_that_was_prepared(rt: HostRuntime) {
    let mut graph = row(&rt, rt.alloc());
    let group = [
        got(&rt, Change::new(&[Op::Cut(1, 0), Op::Add(0, 4, 6)])),
        got(&rt, Change::new(&[Op::Set(4, 0, 2), Op::Add(1, 0, 1)])),
    ];
    let mut overlay = Overlay::over(rt.alloc(), &graph);
    overlay.apply(&group[0]).expect(&rt, "the first change");
    overlay.apply(&group[1]).expect(&rt, "the second change");
    drop(overlay);
    let prepared = match graph.prepare(rt.alloc(), &group) {
        Ok(prepared) => prepared,
        Err(_) => graph.prepare(rt.alloc(), &group).expect(&rt, "memory"),
    };
    expect_edges(&rt, &graph, 4, &[(0, 4, None), (0, 1, Some(1))]);
    graph.install(prepared);
    expect_edges(&rt, &graph, 5, &[(0, 4, Some(2)), (0, 1, Some(1))]);
}

#[test]
fn takes_a_prepared_change(rt: HostRuntime) {
    let mut graph = row(&rt, rt.alloc());
    let ops = [Op::Cut(1, 0), Op::Add(2, 4, 6), Op::Set(2, 3, 9)];
    let moved = got(&rt, Change::new(&ops));
    let mut overlay = Overlay::over(rt.alloc(), &graph);
    overlay.apply(&moved).expect(&rt, "the change");
    drop(overlay);
    let fresh = graph.preparation();
    let prepared = fresh.take(rt.alloc(), &graph, &moved);
    let prepared = prepared.expect(&rt, "memory");
    expect_edges(&rt, &graph, 4, &[(0, 1, Some(1)), (2, 4, None)]);
    graph.install(prepared);
    let nothing = graph.preparation();
    graph.install(nothing);
    let pairs = [(0, 1, None), (2, 4, Some(6)), (2, 3, Some(9))];
    expect_edges(&rt, &graph, 4, &pairs);
}

#[test]
fn judges_under_a_smaller_limit(rt: HostRuntime) {
    let mut graph = row(&rt, rt.alloc());
    let past = [Op::Set(0, 1, 9), Op::Add(1, 4, 7), Op::Cut(0, 1)];
    for limit in [0, 3, 4] {
        refuses(&rt, &mut graph, &past, limit, 1, Code::TooManyEdges);
        expect_edges(&rt, &graph, 4, &[(0, 1, Some(1)), (1, 4, None)]);
    }
    makes(&rt, &mut graph, &[Op::Cut(0, 1), Op::Add(1, 4, 7)], 4);
    expect_edges(&rt, &graph, 4, &[(0, 1, None), (1, 4, Some(7))]);
}

/// Five nodes in a row after these ops, made one by one, and the answer; begun again where memory was short.
fn replayed(rt: &impl Abort, alloc: Global, ops: &[Op]) -> (Graph, Answer) {
    let change = got(rt, Change::new(ops));
    let mut graph = row(rt, alloc);
    let answer = graph.replay(&change);
    if answer != Err(EditRefused::Memory) {
        return (graph, answer);
    }
    graph = row(rt, alloc);
    let answer = graph.replay(&change);
    (graph, answer)
}

#[test]
fn replays_ops_one_by_one(rt: HostRuntime) {
    let ops = [
        Op::Cut(0, 1),
        Op::Add(1, 0, 8),
        Op::Set(3, 2, 9),
        Op::Cut(4, 3),
    ];
    let (graph, answer) = replayed(&rt, rt.alloc(), &ops);
    got(&rt, answer);
    let pairs = [(0, 1, Some(8)), (2, 3, Some(9)), (3, 4, None)];
    expect_edges(&rt, &graph, 3, &pairs);
}

#[test]
fn a_refused_replay_leaves_the_ops_before(rt: HostRuntime) {
    for (op, code) in &WRONG {
        let ops = [Op::Add(0, 3, 9), Op::Cut(1, 2), *op, Op::Cut(4, 3)];
        let (graph, answer) = replayed(&rt, rt.alloc(), &ops);
        same(&rt, answer, refused(2, *code), "a wrong op");
        let pairs = [(0, 3, Some(9)), (1, 2, None), (3, 4, Some(4))];
        expect_edges(&rt, &graph, 4, &pairs);
    }
}

/// Three nodes with room for so many neighbours each, asked for again where memory was short.
fn with_room(rt: &impl Abort, alloc: Global, degrees: &[u16; 3]) -> Graph {
    match Graph::with_room(alloc, degrees) {
        Ok(graph) => graph,
        Err(_) => got(rt, Graph::with_room(alloc, degrees)),
    }
}

#[test]
fn rows_with_room_take_edges_and_grow(rt: HostRuntime) {
    let mut graph = with_room(&rt, rt.alloc(), &[1, 2, 1]);
    same(&rt, graph.nodes(), 3, "the nodes");
    expect_edges(&rt, &graph, 0, &[(0, 1, None)]);
    let ops = [Op::Add(0, 1, 5), Op::Add(1, 2, 6), Op::Add(0, 2, 7)];
    makes(&rt, &mut graph, &ops, MOST_EDGES);
    expect_edges(&rt, &graph, 3, &[(0, 1, Some(5)), (0, 2, Some(7))]);
    expect_neighbours(&rt, &graph, 1, &[(0, 5), (2, 6)]);
}
