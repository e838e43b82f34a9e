//! The routes of packets in a graph under landmark words.
ghost use Rattle.std.specs.Prelude.{◌≡◌, ◌<◌, ◌↔◌, IfOk, IsTrue, length};
ghost use Rattle.graph_edits.specs.Edges.{IsSound};
ghost use Rattle.file_commands.specs.Queries.{AreRoutesBy};
ghost use Rattle.file_commands.specs.SchemeAnswers.{AreNodes, AreRoutesUnder, IsRouteUnder};

use graph_edits::Graph;
use landmarks::choose;
use scheme_builds::Route;
use single_route::{NoTrail, Routes, trail_laws};
use std::alloc::{AllocError, Global};

/// Whether each pair is of two nodes, of so many.
pub(crate) fn are_nodes(pairs: &[(u16, u16)], nodes: u16) -> bool
    ensures { IsTrue result ↔ AreNodes nodes pairs.now }
{
    pairs.iter().all(|pair| pair.0 < nodes && pair.1 < nodes)
}

/// The routes between these pairs of nodes under these landmark words, in order. The nearest landmarks are searched once.
pub(crate) fn routes_by(
    alloc: Global,
    graph: &Graph,
    words: &[u64],
    pairs: &[(u16, u16)],
) -> Result<Vec<Route>, AllocError>
    requires words { length words.now ≡ graph.now.nodes }
    requires nodes { AreNodes graph.now.nodes pairs.now }
    ensures { IfOk result (AreRoutesBy graph.now words.now pairs.now) }
{
    let nodes = graph.nodes();
    let landmarks = choose(alloc, nodes as usize, words)?;
    let mut routes = Routes::new(alloc, graph, &landmarks)?;
    routes_between(alloc, &mut routes, pairs)
}

fn routes_between(
    alloc: Global,
    routes: &mut Routes<'_>,
    pairs: &[(u16, u16)],
) -> Result<Vec<Route>, AllocError>
    requires sound { IsSound routes.old.graph }
    requires nodes { AreNodes routes.old.graph.nodes pairs.now }
    ensures { IfOk result (λ found. AreRoutesUnder routes.old.graph routes.old.flags pairs.now found.items) }
{
    let mut found = Vec::new(alloc);
    for pair in pairs {
        let route = route_between(routes, pair.0, pair.1)?;
        found.push(route)?;
    }
    Ok(found)
}

fn route_between(routes: &mut Routes<'_>, from: u16, to: u16) -> Result<Route, AllocError>
    requires sound { IsSound routes.old.graph }
    requires from { from < routes.old.graph.nodes }
    requires to { to < routes.old.graph.nodes }
    ensures route { IfOk result (λ route. IsRouteUnder routes.old.graph routes.old.flags from to route) }

    ensures kept { routes.new ≡ routes.old }
{
    // There is one trail at most, and each scheme with these landmarks carries a packet over it.
    trail_laws();
    match routes.route(from, to) {
        Ok(trail) => Ok(Route::Along(trail)),
        Err(NoTrail::Unreachable) => Ok(Route::Unreachable),
        Err(NoTrail::Memory) => Err(AllocError),
        Err(NoTrail::NoNode) => unreachable!(),
    }
}
