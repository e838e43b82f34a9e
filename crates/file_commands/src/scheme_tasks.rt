//! The commands `route` and `check`.
ghost use Rattle.std.specs.Prelude.{◌≡◌, length, IfOk, IfErr, IsErrOf, OnOk};
ghost use Rattle.value_syntax.specs.Words.{AreWords, IsWithin};
ghost use Rattle.command_output.specs.Lines.{line};
ghost use Rattle.command_output.specs.Printing.{PrintsText};
ghost use Rattle.file_commands.specs.Endings.{IsCheckDeviceFault, IsRouteDeviceFault, IsRouteFault, IsWordsFault};
ghost use Rattle.file_commands.specs.Queries.{AnswersIn, AnswersOf, AreRoutesIn, IsCheckIn, LacksNode, LacksNodeOf};
ghost use Rattle.file_commands.specs.SchemeAnswers.{AreRoutesOf, IsCheckOf, answered_text, checks_text, ended_after, ended_at, is_along, routes_text};

use crate::answers::Answer;
use crate::asking::ask_device;
use crate::routing::{are_nodes, routes_by};
use command_output::{
    BrokenLine, CheckedLine, Ended, Fault, RouteLine, UnreachableLine, print_line,
};
use disk_trait::Disk;
use graph_edits::Graph;
use scheme_builds::{Checked, Route, check_scheme, workers_here};
use std::alloc::Global;
use std::io::Write;
use std::sync::Wait;
use std::thread::Threads;
use value_syntax::LandmarkWords;

/// The landmark words of a graph's nodes, as they were asked for. A node that is named and that the graph hasn't isn't understood.
pub(crate) fn words_of(
    alloc: Global,
    graph: &Graph,
    asked: &LandmarkWords,
) -> Result<Vec<u64>, Fault>
    ensures within { IfOk result (λ _. IsWithin asked.now graph.now.nodes) }
    ensures words { IfOk result (λ words. AreWords asked.now graph.now.nodes words.items) }
    ensures count { IfOk result (λ words. length words.items ≡ graph.now.nodes) }

    ensures not_within { IsErrOf result Fault.Words → ¬ IsWithin asked.now graph.now.nodes }
    ensures fault { IfErr result (λ fault. IsWordsFault asked.now fault) }
{
    let nodes = graph.nodes();
    if !asked.is_within(nodes) {
        return Err(Fault::Words);
    }
    Ok(asked.of_nodes(alloc, nodes)?)
}

/// What becomes of packets in a graph, of each from the first node of a pair to the second.
fn routes_in_graph(
    alloc: Global,
    graph: &Graph,
    asked: &LandmarkWords,
    pairs: &[(u16, u16)],
) -> Result<Vec<Route>, Fault>
    ensures routes { AnswersIn graph.now asked.now (λ routes. AreRoutesOf graph.now asked.now pairs.now routes.items)
        (IsRouteFault asked.now) result }

    ensures no_node { IsErrOf result Fault.NoNode → LacksNode asked.now pairs.now graph.now.nodes }
{
    let words = words_of(alloc, graph, asked)?;
    if !are_nodes(pairs, graph.nodes()) {
        return Err(Fault::NoNode);
    }
    Ok(routes_by(alloc, graph, &words, pairs)?)
}

/// What the checks say of the scheme of a graph.
fn check_in_graph<R: Threads + Wait + Sync + AllocGlobal>(
    rt: &R,
    graph: &Graph,
    generation: u64,
    asked: &LandmarkWords,
) -> Result<Checked, Fault>
    ensures { AnswersIn graph.now asked.now (IsCheckOf graph.now generation asked.now) (IsWordsFault asked.now) result }
{
    let alloc = rt.alloc();
    let words = words_of(alloc, graph, asked)?;
    let workers = workers_here(rt, graph.nodes());
    Ok(check_scheme(rt, alloc, graph, &words, generation, workers)?)
}

/// The generation of a device's graph, and what becomes of packets in it, of each from the first node of a pair to the second, under
/// the landmarks by the words that were asked for. Judged in this order: the device, the nodes that the words name, the nodes of the
/// pairs. The device comes back, and was only read.
pub fn route_device<D: Disk>(
    alloc: Global,
    disk: D,
    asked: &LandmarkWords,
    pairs: &[(u16, u16)],
) -> (Result<(u64, Vec<Route>), Fault>, D)
    ensures routes { AnswersOf asked.now (AreRoutesIn pairs.now) IsRouteDeviceFault
        (D.view disk) (D.view result.1) result.0 }

    ensures no_node { LacksNodeOf asked.now pairs.now (D.view disk) result.0 }
{
    ask_device(
        alloc,
        disk,
        |graph: &Graph, _generation: u64| routes_in_graph(alloc, graph, asked, pairs),
    )
}

/// The generation of a device's graph, and what the checks say of the scheme by the words that were asked for. Judged in this
/// order: the device, the nodes that the words name. The device comes back, and was only read.
pub fn check_device<R: Threads + Wait + Sync + AllocGlobal, D: Disk>(
    rt: &R,
    disk: D,
    asked: &LandmarkWords,
) -> (Result<(u64, Checked), Fault>, D)
    ensures { AnswersOf asked.now IsCheckIn IsCheckDeviceFault (D.view disk) (D.view result.1) result.0 }
{
    ask_device(
        rt.alloc(),
        disk,
        |graph: &Graph, generation: u64| check_in_graph(rt, graph, generation, asked),
    )
}

impl Answer for (u64, Vec<Route>) {
    ghost ended = { λ found. ended_after found.1.items };

    ghost text = { λ found. routes_text found.0 found.1.items };

    fn print<O: Write>(self, out: &mut O) -> Result<Ended, Fault> {
        let (generation, routes) = self;
        print_routes(out, generation, &routes)
    }
}

// A line for each pair of nodes: the route of a packet from the first to the second, or that there is none.
fn print_routes<O: Write>(out: &mut O, generation: u64, routes: &[Route]) -> Result<Ended, Fault>
    ensures ended { IfOk result (λ ended. ended ≡ ended_after routes.now) }
    ensures printed { OnOk result (PrintsText O.contents out.old out.new (routes_text generation routes.now)) }

    ensures fault { IfErr result (λ fault. fault ≡ Fault.Output) }
{
    for route in routes {
        print_route(out, generation, route)?;
    }
    Ok(ended_after(routes))
}

fn ended_after(routes: &[Route]) -> Ended
    ensures { result ≡ ended_after routes.now }
{
    for route in routes {
        if !is_along(route) {
            return Ended::Refused;
        }
    }
    Ended::Done
}

fn is_along(route: &Route) -> bool
    ensures { result ≡ is_along route.now }
{
    matches!(route, Route::Along(_))
}

fn print_route<O: Write>(out: &mut O, generation: u64, route: &Route) -> Result<(), Fault>
    ensures printed { OnOk result
        (PrintsText O.contents out.old out.new (line (answered_text generation route.now))) }

    ensures fault { IfErr result (λ fault. fault ≡ Fault.Output) }
{
    match route {
        Route::Along(trail) => print_line(
            out,
            RouteLine {
                generation,
                nodes: &trail.nodes,
                length: trail.length,
            },
        ),
        Route::Unreachable => print_line(out, UnreachableLine { generation }),
    }
}

impl Answer for (u64, Checked) {
    ghost ended = { λ found. ended_at found.1.fault };

    ghost text = { λ found. line (checks_text found.0 found.1.landmarks found.1.fault) };

    fn print<O: Write>(self, out: &mut O) -> Result<Ended, Fault> {
        let (generation, checked) = self;
        let landmarks = checked.landmarks;
        match checked.fault {
            None => {
                print_line(
                    out,
                    CheckedLine {
                        generation,
                        landmarks,
                    },
                )?;
                Ok(Ended::Done)
            }
            Some(check) => {
                print_line(out, BrokenLine { check })?;
                Ok(Ended::Refused)
            }
        }
    }
}
