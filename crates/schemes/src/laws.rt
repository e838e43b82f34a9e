// What follows from the rules of a scheme.
ghost use Rattle.graph_edits.specs.Edges.{IsSound};
ghost use Rattle.schemes.specs.Laws.{CheckedServes, EntriesAreExact, EntriesAreTrees, NearestAreRight};
ghost use Rattle.schemes.specs.Ways.{AllComeToAnEnd, ServedStayOnCourse};

use graph_edits::Graph;

/// The laws of schemes, for whoever makes, checks or uses one: where all eight checks hold of a scheme, it serves the
/// network, its entries are exactly the landmarks' trees and the clusters with exact distances, and its nearest landmarks
/// are right; where a scheme serves a network, what a packet to a node's own address has visited is a beginning of the one
/// trip on which it arrives, and its next step is no refusal; and over any tables every packet comes to an end within as
/// many steps as there are nodes. It does nothing: its contract is the laws.
pub fn scheme_laws()
    ensures serves { CheckedServes }
    ensures exact { EntriesAreExact }
    ensures trees { EntriesAreTrees }
    ensures nearest { NearestAreRight }
    ensures course { ServedStayOnCourse }
    ensures ends { AllComeToAnEnd }
{}

/// That a graph is sound, for whoever makes a scheme of it or judges one. It changes nothing: its contract is the fact.
pub fn graph_is_sound(graph: &Graph)
    ensures { IsSound graph.now }
{
    let _nodes = graph.nodes();
}
