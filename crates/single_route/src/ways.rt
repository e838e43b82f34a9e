// Ports and lengths of ways in a graph.
ghost use Rattle.std.specs.Prelude.{◌≡◌, IfOk, IsSome, Some};
ghost use Rattle.graph_edits.specs.Edges.{over_port, weight_in};
ghost use Rattle.single_route.specs.Ways.{IsMeasured, IsWay};

use graph_edits::Graph;
use schemes::Trail;
use std::alloc::{AllocError, Global};

/// The port by which a node leads to its neighbour, and the weight of the edge.
fn hop(graph: &Graph, at: u16, next: u16) -> (u16, u32)
    requires { IsSome (weight_in graph.now at next) }
    ensures port { over_port graph.now at result.0 ≡ Some next }
    ensures weight { weight_in graph.now at next ≡ Some result.1 }
{
    // It tells that the graph is sound.
    let _sound = graph.nodes();
    let Some(weight) = graph.weight(at, next) else {
        unreachable!()
    };
    let Some(port) = graph.port_to(at, next) else {
        unreachable!()
    };
    (port, weight)
}

/// The ports along a way, and its length.
fn measured(alloc: Global, graph: &Graph, nodes: &[u16]) -> Result<(Vec<u16>, u64), AllocError>
    requires { IsWay graph.now nodes.now }
    ensures { IfOk result (λ way. IsMeasured graph.now nodes.now way.0.items way.1) }
{
    let mut ports = Vec::new(alloc);
    let mut length: u64 = 0;
    let Some((first, rest)) = nodes.split_first() else {
        return Ok((ports, length));
    };
    let mut at = *first;
    for next in rest {
        let (port, weight) = hop(graph, at, *next);
        ports.push(port)?;
        length = length.saturating_add(weight as u64);
        at = *next;
    }
    Ok((ports, length))
}

/// The trail over a way.
pub(crate) fn trail_over(alloc: Global, graph: &Graph, nodes: Vec<u16>) -> Result<Trail, AllocError>
    requires { IsWay graph.now nodes.items }
    ensures nodes { IfOk result (λ trail. trail.nodes.items ≡ nodes.items) }
    ensures measured { IfOk result (λ trail. IsMeasured graph.now nodes.items trail.ports.items trail.length) }
{
    let (ports, length) = measured(alloc, graph, &nodes)?;
    Ok(Trail {
        nodes,
        ports,
        length,
    })
}
