// Ports of a graph.
ghost use Rattle.std.specs.Prelude.{◌≡◌};
ghost use Rattle.schemes.specs.Ports.{port_to};

use graph_edits::Graph;

/// The port of a node to another, none where no edge joins them.
pub fn port(graph: &Graph, x: u16, y: u16) -> Option<u16>
    ensures { result ≡ port_to graph.now x y }
{
    if x >= graph.nodes() {
        return None;
    }
    graph.port_to(x, y)
}
