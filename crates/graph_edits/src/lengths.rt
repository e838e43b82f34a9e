// The lengths of ways over a graph.
ghost use Rattle.std.specs.Prelude.{◌≡◌, ◌-◌, ◌^◌, min};
ghost use Rattle.graph_edits.specs.Lengths.{hop_in, length_in};

use crate::graph::Graph;

/// The weight of the edge between two nodes, 0 where there is none.
fn hop(graph: &Graph, a: u16, b: u16) -> u64
    ensures { result ≡ hop_in graph.now a b }
{
    match graph.weight(a, b) {
        Some(weight) => weight as u64,
        None => 0,
    }
}

/// The length of the way from the first of these nodes over all others, in their order: the sum of the weights of the edges
/// between them. A pair that is no edge adds nothing, and a length past a u64 stays at the greatest u64.
pub fn length_over(graph: &Graph, nodes: &[u16]) -> u64
    ensures { result ≡ min (length_in graph.now nodes.now) (2 ^ 64 - 1) }
{
    let Some((first, rest)) = nodes.split_first() else {
        return 0;
    };
    let mut at = *first;
    let mut length: u64 = 0;
    for next in rest {
        length = length.saturating_add(hop(graph, at, *next));
        at = *next;
    }
    length
}
